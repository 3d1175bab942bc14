//! A whole script.
ghost use Rattle.std.specs.Prelude.{◌≡◌, ◌<◌, ◌∷◌, [], length, All, Ok, Err, MatchResult, IfNone, IfOk, IfSome};
ghost use Rattle.water_model.specs.Valid.{IsValidBasin, IsSeriesOf};
ghost use Rattle.edit_script.specs.Edits.{IsValidEdit};
ghost use Rattle.edit_script.specs.Lines.{edit_of};
ghost use Rattle.edit_script.specs.Scripts.{IsRefusalOf, edits_from, ended, lines_of, numbered, script_of};

use crate::edit::Edit;
use crate::lines::read_edit;
use crate::refused::{ScriptFault, ScriptRefused};
use basin_names::BothNames;
use std::alloc::Global;
use water_model::types::{Basin, Series};
use water_text::line_in::first_feed;

/// The first line of a text and what is after its line feed, if there is a line feed.
fn first_line(text: &[u8]) -> Option<(&[u8], &[u8])>
    ensures none { IfNone result (lines_of text.now ≡ text.now ∷ []) }
    ensures some { IfSome result (λ cut. lines_of text.now ≡ cut.0.now ∷ lines_of cut.1.now) }
    ensures less { IfSome result (λ cut. length cut.1.now < length text.now) }
{
    match first_feed(text) {
        Some(at) => Some((&text[..at], &text[at + 1..])),
        None => None,
    }
}

/// What the line of this number asks for, or the refusal of the script.
fn read_numbered(
    names: &BothNames,
    series: &Series,
    line: &[u8],
    number: u64,
) -> Result<Edit, ScriptRefused>
    requires basin { IsValidBasin names.now.basin.now }
    requires series { IsSeriesOf names.now.basin.now series.now }
    ensures reads { result ≡ numbered number (edit_of names.now.basin.now series.now line.now) }
    ensures placed { IfOk result (IsValidEdit names.now.basin.now series.now) }
{
    match read_edit(names, series, line) {
        Ok(edit) => Ok(edit),
        Err(fault) => Err(ScriptRefused::Refused {
            fault,
            line: number,
        }),
    }
}

/// Makes sure that nothing follows the line `done`. The next line has this number.
fn end_of(edits: Vec<Edit>, number: u64, after: &[u8]) -> Result<Vec<Edit>, ScriptRefused>
    ensures { MatchResult result (λ read. ended edits.items number (lines_of after.now) ≡ Ok read.items)
        (λ refused. ended edits.items number (lines_of after.now) ≡ Err refused) }
{
    if after.is_empty() {
        Ok(edits)
    } else {
        Err(ScriptRefused::Refused {
            fault: ScriptFault::AfterEnd,
            line: number,
        })
    }
}

/// What the lines after the first ask for, or the first at fault. The first of them has the number 2.
fn read_edits(
    alloc: Global,
    names: &BothNames,
    series: &Series,
    text: &[u8],
) -> Result<Vec<Edit>, ScriptRefused>
    requires basin { IsValidBasin names.now.basin.now }
    requires series { IsSeriesOf names.now.basin.now series.now }
    ensures reads { MatchResult result
        (λ edits. edits_from names.now.basin.now series.now 2 (lines_of text.now) ≡ Ok edits.items)
        (IsRefusalOf (edits_from names.now.basin.now series.now 2 (lines_of text.now))) }
    ensures placed { IfOk result (λ edits. All (IsValidEdit names.now.basin.now series.now) edits.items) }
{
    let mut edits = Vec::new(alloc);
    let mut rest = text;
    let mut number = 2;
    while let Some((line, after)) = first_line(rest) {
        if line == b"done".as_slice() {
            return end_of(edits, number + 1, after);
        }
        let edit = read_numbered(names, series, line, number)?;
        edits.push(edit)?;
        rest = after;
        number += 1;
    }
    Err(ScriptRefused::Refused {
        fault: ScriptFault::EarlyEnd,
        line: number,
    })
}

/// What a script asks for, line by line between its first and its last, or its first line at fault. No line after that
/// is looked at. A name is looked up in a map. Maps and edits take memory: OutOfMemory comes only where that is
/// lacking, and says nothing of the text.
pub fn read_script(
    alloc: Global,
    basin: &Basin,
    series: &Series,
    text: &[u8],
) -> Result<Vec<Edit>, ScriptRefused>
    requires basin { IsValidBasin basin.now }
    requires series { IsSeriesOf basin.now series.now }
    ensures reads { MatchResult result (λ edits. script_of basin.now series.now text.now ≡ Ok edits.items)
        (IsRefusalOf (script_of basin.now series.now text.now)) }
    ensures placed { IfOk result (λ edits. All (IsValidEdit basin.now series.now) edits.items) }
{
    let Some((first, after)) = first_line(text) else {
        return Err(ScriptRefused::Refused {
            fault: ScriptFault::EarlyEnd,
            line: 1,
        });
    };
    if first != b"river-edit 1".as_slice() {
        return Err(ScriptRefused::Refused {
            fault: ScriptFault::BadLine,
            line: 1,
        });
    }
    let names = BothNames::of(alloc, basin)?;
    read_edits(alloc, &names, series, after)
}
