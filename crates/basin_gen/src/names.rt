//! Names of a letter and a number.
ghost use Rattle.std.specs.Prelude.{◌≡◌, ◌∷◌, [], ◌++◌, true};
ghost use Rattle.std.specs.Fmt.{decimal};
ghost use Rattle.water_text.specs.Names.{is_name_byte};

use water_text::line::Line;
use water_text::name::Name;

/// The name that has a letter and a number.
#[tactic(auto, using(crate::proofs::NameLaws::names))]
pub(crate) fn numbered(letter: u8, number: u32) -> Name
    requires { is_name_byte letter ≡ true }
    ensures { result ≡ letter ∷ decimal number }
{
    let mut line = Line::new();
    line.word(&[letter]);
    line.amount(u64::from(number));
    match Name::read(line.bytes()) {
        Some(name) => name,
        None => unreachable!(),
    }
}

/// The name of a zone of a reservoir: `z`, the reservoir's number and a mark.
#[tactic(auto, using(crate::proofs::NameLaws::names))]
pub(crate) fn zone_name(number: u32, mark: u8) -> Name
    requires { is_name_byte mark ≡ true }
    ensures { result ≡ 122 ∷ decimal number ++ mark ∷ [] }
{
    let mut line = Line::new();
    line.word(b"z");
    line.amount(u64::from(number));
    line.word(&[mark]);
    match Name::read(line.bytes()) {
        Some(name) => name,
        None => unreachable!(),
    }
}
