//! The reader of a result text.
ghost use Rattle.std.specs.Prelude.{◌≡◌, ◌+◌, ◌*◌, ◌^◌, ◌<◌, ◌≤◌, ◌++◌, ◌∷◌, [], List, length, IfOk};
ghost use Rattle.std.specs.Prelude.{IfSome, IfNone, OnOk, OnErr, Ok};
ghost use Rattle.rights_roll.specs.Rolls.{IsRollOf};
ghost use Rattle.result_lines.specs.Spelling.{line_of};
ghost use Rattle.water_model.specs.Valid.{IsValidBasin};
ghost use Rattle.result_lines.specs.declared.item.Item.{Item};
ghost use Rattle.result_lines.specs.declared.item.Item.TheVariants as line;
ghost use Rattle.water_text.specs.LinesIn.{TakesToFeed};
ghost use Rattle.result_reader.specs.Form.{due, due_in_month};
ghost use Rattle.result_reader.specs.OfText.{IsOfText};
ghost use Rattle.result_reader.specs.Reading.{item_of, read_line};
ghost use Rattle.result_reader.specs.Standing.{ReaderStandsFor, max_lines};

use crate::bad_line::BadLine;
use crate::dues::dues_of;
use crate::likely::{Likely, follow, likely_entry, likely_member};
use crate::names::Names;
use crate::position::Position;
use crate::progress::{Progress, go_on, next_member, next_progress};
use crate::reading::{item_by_fields, member_line};
use crate::shape::Shape;
use result_lines::item::Item;
use rights_roll::roll::Roll;
use std::alloc::{AllocError, Global};
use std::marker::Model;
use water_model::types::Basin;

/// An `in` line that some bytes begin with: its node, and the line without its line feed.
#[derive(Clone, Copy)]
pub struct MemberLine<'a> {
    pub node: u32,
    pub text: &'a [u8],
}

/// Reads the lines of a result text of one basin in order, and accepts those that may come.
///
/// It stands for the list of the lines that it accepted.
#[derive(Drop)]
pub struct ResultReader<'b> {
    names: Names<'b>,
    dues: Vec<Shape>,
    progress: Progress,
    followers: Vec<u32>,
    left: u64,
}

impl<'b> Model for ResultReader<'b> {
    ghost use Rattle.result_reader.specs.Progress.{due_of};
    ghost use Rattle.result_reader.specs.Standing.{ReaderView, IsReader};

    ghost Value = { ReaderView };

    ghost view = { λ r. record {
      basin = r.names.basin.now;
      due = due_of r.names.basin.now r.dues.items r.progress;
      left =
          r.left;
    } };

    ghost invariant = { λ r. IsReader r.names.basin.now r.dues.items r.progress r.left };
}

/// How many lines a text may have at most, where these are due in each month.
#[tactic(auto, using(crate::proofs::LinesLeft::run_lines))]
fn max_lines(basin: &Basin, dues: &[Shape]) -> u64
    requires basin { IsValidBasin basin.now }
    requires dues { dues.now ≡ due_in_month basin.now }
    ensures enough { max_lines basin.now (due basin.now) ≤ result }
    ensures bounded { result ≤ 5 * 10 ^ 9 }
{
    let members = basin.rights.len() as u64 * basin.nodes.len() as u64;
    let month = 1 + dues.len() as u64 + members;
    u64::from(basin.months) * month + 3
}

impl<'b> ResultReader<'b> {
    /// A reader that accepted no line yet, and may accept at most 5 * 10^9. The roll is that of the basin's rights.
    /// AllocError comes where memory is lacking; no other call takes any.
    pub fn open(
        alloc: Global,
        basin: &'b Basin,
        roll: &Roll,
    ) -> Result<ResultReader<'b>, AllocError>
        requires basin { IsValidBasin basin.now }
        requires roll { IsRollOf basin.now.rights roll.now }
        ensures basin { IfOk result (λ reader. reader.basin ≡ basin.now) }
        ensures none { IfOk result (λ reader. ReaderStandsFor reader []) }
        ensures bounded { IfOk result (λ reader. reader.left ≤ 5 * 10 ^ 9) }
    {
        let dues = dues_of(alloc, basin, roll)?;
        let left = max_lines(basin, &dues);
        let followers = vec![in alloc; 0; basin.nodes.len() + 1]?;
        let names = Names::of(alloc, basin)?;
        Ok(ResultReader {
            names,
            dues,
            progress: Progress {
                position: Position::Title,
                next_member: None,
                must: false,
            },
            followers,
            left,
        })
    }

    /// What a line says, whatever stands before it.
    fn item(&self, text: &[u8]) -> Result<Item, BadLine>
        ensures { result ≡ item_of self.now.basin text.now }
    {
        let likely = Likely {
            member: likely_member(&self.followers, &self.progress),
            entry: likely_entry(&self.dues, &self.progress),
        };
        item_by_fields(&self.names, likely, text)
    }

    /// Takes the next line, without its line feed, and answers what it says by the numbers of the basin. Amounts are in
    /// units of 1,000 cubic metres.
    ///
    /// A line is refused as `OverLong` where it has more than 128 bytes; else as `UnknownWord` where its first word is
    /// none of a text's; else as `BadField` where its fields aren't those of its word, spelled as names, months,
    /// amounts up to 10^15 or numbers of months from 1 to 1,200; and else as `OutOfPlace` exactly where it names what
    /// the basin doesn't have, or the lines accepted so far and this one aren't the prefix of a whole text. A refused
    /// line changes nothing.
    ///
    /// No memory is taken. The cost is the line's length, a look-up of each name that isn't the likely one, and a step
    /// for each line that is due, may be left out and is passed over.
    pub fn line(&mut self, text: &[u8]) -> Result<Item, BadLine>
        ensures answer { (items : List Item) → ReaderStandsFor self.old items →
            result ≡ read_line self.old.basin items text.now }
        ensures accepted { IfOk result (λ item. (items : List Item) → ReaderStandsFor self.old items →
            ReaderStandsFor self.new (items ++ item ∷ [])) }
        ensures spelled { IfOk result (λ item. (text.now ≡ line_of self.old.basin item) ×
            IsOfText self.old.basin item) }
        ensures refused { OnErr result (self.new ≡ self.old) }
        ensures basin { self.new.basin ≡ self.old.basin }
        ensures left { OnOk result (self.new.left + 1 ≡ self.old.left) }
    {
        let item = self.item(text)?;
        match next_progress(self.names.basin, &self.dues, self.progress, &item) {
            Some(progress) => {
                follow(self.followers.as_mut_slice(), self.progress, &item);
                go_on(&mut self.progress, progress);
                self.left -= 1;
                Ok(item)
            }
            None => Err(BadLine::OutOfPlace),
        }
    }

    /// Takes the next line as `line` does, where some bytes begin with it and its line feed, and it is the `in` line of
    /// the node that is most likely to come. Else the answer is `None` and nothing changes: the bytes may begin with
    /// any other line.
    ///
    /// Most lines of a text are such lines. Bytes are only compared with the one that is likely, so its end isn't
    /// looked for.
    #[inline(always)]
    pub fn likely_member<'a>(&mut self, piece: &'a [u8]) -> Option<MemberLine<'a>>
        ensures answer { IfSome result (λ m. (items : List Item) → ReaderStandsFor self.old items →
            Ok (line.Member m.node) ≡ read_line self.old.basin items m.text.now) }
        ensures accepted { IfSome result (λ m. (items : List Item) → ReaderStandsFor self.old items →
            ReaderStandsFor self.new (items ++ line.Member m.node ∷ [])) }
        ensures spelled { IfSome result (λ m. (m.text.now ≡ line_of self.old.basin (line.Member m.node)) ×
            IsOfText self.old.basin (line.Member m.node)) }
        ensures takes { IfSome result (λ m. TakesToFeed [] m.text.now piece.now (length m.text.now + 1)) }
        ensures none { IfNone result (self.new ≡ self.old) }
        ensures basin { self.new.basin ≡ self.old.basin }
        ensures left { IfSome result (λ m. self.new.left + 1 ≡ self.old.left) }
    {
        if self.progress.next_member.is_none() {
            return None;
        }
        let node = likely_member(&self.followers, &self.progress);
        let Some(text) = member_line(&self.names, node, piece) else {
            return None;
        };
        match next_member(self.names.basin, &self.dues, self.progress, node) {
            Some(next) => {
                go_on(&mut self.progress, next);
                self.left -= 1;
                Some(MemberLine { node, text })
            }
            None => None,
        }
    }

    /// An upper bound on the lines that may still be accepted: for each line that is due one, and for a `call` line one
    /// more for each node. It falls by one with each accepted line.
    pub fn lines_left(&self) -> u64
        ensures value { result ≡ self.now.left }
        ensures bound { max_lines self.now.basin self.now.due.dues ≤ result }
    {
        self.left
    }
}
