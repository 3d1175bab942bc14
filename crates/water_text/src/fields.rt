//! The fields of a line.
ghost use Rattle.std.specs.Prelude.{◌≡◌, ◌∷◌, ◌==◌};
ghost use Rattle.std.specs.List.{position};
ghost use Rattle.water_text.specs.Fields.{pieces_of, pieces_after};

/// The index of the first space.
fn first_space(text: &[u8]) -> Option<usize>
    ensures { result ≡ position (λ byte. byte == 32) text.now }
{
    text.iter().position(|byte| *byte == b' ')
}

/// The bytes up to the first space, and those after it, if there is one.
pub fn cut(text: &[u8]) -> (&[u8], Option<&[u8]>)
    ensures { pieces_of text.now ≡ result.0.now ∷ pieces_after result.1 }
{
    match first_space(text) {
        Some(at) => (&text[..at], Some(&text[at + 1..])),
        None => (text, None),
    }
}
