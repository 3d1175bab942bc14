//! What one line of a script asks for.
ghost use Rattle.std.specs.Prelude.{◌≡◌, ◌<◌, ◌≤◌, ◌^◌, ◌∷◌, IfOk};
ghost use Rattle.water_text.specs.Fields.{pieces_of};
ghost use Rattle.water_model.specs.Valid.{IsValidBasin, IsSeriesOf};
ghost use Rattle.water_model.specs.declared.types.Series.{Series};
ghost use Rattle.edit_script.specs.Edits.{IsValidEdit};
ghost use Rattle.edit_script.specs.Lines.{edit_in, edit_of, inflow_of, numbers_of, show_of, want_of};

use crate::edit::Edit;
use crate::refused::ScriptFault;
use basin_names::BothNames;
use water_model::calls::{index_in_run, index_of, is_gauged, is_in_series};
use water_model::types::{Basin, Series};
use water_text::amount::read_plain;
use water_text::fields::cut;
use water_text::month::Month;
use water_text::name::is_name;

/// What a line `show` asks for.
#[tactic(auto, unfolding(crate::specs::Lines::show_of))]
fn read_show(basin: &Basin, month: &[u8]) -> Result<Edit, ScriptFault>
    requires { IsValidBasin basin.now }
    ensures reads { result ≡ show_of basin.now month.now }
    ensures placed { IfOk result (λ e. (series : Series) → IsValidEdit basin.now series e) }
{
    let Some(month) = Month::read(month) else {
        return Err(ScriptFault::BadLine);
    };
    let Some(index) = index_in_run(basin, month) else {
        return Err(ScriptFault::OutsideRun);
    };
    Ok(Edit::Show { index })
}

/// The index of a change's month in the run, and the change's amount, where the name between them has a name's form.
#[tactic(auto, unfolding(crate::specs::Lines::numbers_of))]
fn read_numbers(
    basin: &Basin,
    month: &[u8],
    name: &[u8],
    amount: &[u8],
) -> Result<(u32, u64), ScriptFault>
    requires { IsValidBasin basin.now }
    ensures reads { result ≡ numbers_of basin.now month.now name.now amount.now }
    ensures within { IfOk result (λ numbers. numbers.0 < basin.now.months) }
    ensures small { IfOk result (λ numbers. numbers.1 ≤ 10 ^ 9) }
{
    let Some(month) = Month::read(month) else {
        return Err(ScriptFault::BadLine);
    };
    if !is_name(name) {
        return Err(ScriptFault::BadLine);
    }
    let Some(amount) = read_plain(amount, 1_000_000_000) else {
        return Err(ScriptFault::BadLine);
    };
    let Some(index) = index_in_run(basin, month) else {
        return Err(ScriptFault::OutsideRun);
    };
    Ok((index, amount))
}

/// What a line `inflow` asks for.
#[tactic(auto, unfolding(crate::specs::Lines::inflow_of))]
fn read_inflow(
    names: &BothNames,
    series: &Series,
    month: &[u8],
    name: &[u8],
    amount: &[u8],
) -> Result<Edit, ScriptFault>
    requires basin { IsValidBasin names.now.basin.now }
    requires series { IsSeriesOf names.now.basin.now series.now }
    ensures reads { result ≡ inflow_of names.now.basin.now series.now month.now name.now amount.now }
    ensures placed { IfOk result (IsValidEdit names.now.basin.now series.now) }
{
    let (index, amount) = read_numbers(names.basin, month, name, amount)?;
    let Some(node) = names.node_named(name) else {
        return Err(ScriptFault::NoSuchName);
    };
    if !is_gauged(names.basin, node) {
        return Err(ScriptFault::NotSeries);
    }
    let gauge = index_of(series.gauged.as_slice(), node) as u32;
    Ok(Edit::Inflow {
        index,
        gauge,
        amount,
    })
}

/// What a line `want` asks for.
#[tactic(auto, unfolding(crate::specs::Lines::want_of))]
fn read_want(
    names: &BothNames,
    series: &Series,
    month: &[u8],
    name: &[u8],
    amount: &[u8],
) -> Result<Edit, ScriptFault>
    requires basin { IsValidBasin names.now.basin.now }
    requires series { IsSeriesOf names.now.basin.now series.now }
    ensures reads { result ≡ want_of names.now.basin.now series.now month.now name.now amount.now }
    ensures placed { IfOk result (IsValidEdit names.now.basin.now series.now) }
{
    let (index, amount) = read_numbers(names.basin, month, name, amount)?;
    let Some(right) = names.right_named(name) else {
        return Err(ScriptFault::NoSuchName);
    };
    if !is_in_series(names.basin, right) {
        return Err(ScriptFault::NotSeries);
    }
    let place = index_of(series.wanted.as_slice(), right) as u32;
    Ok(Edit::Want {
        index,
        place,
        amount,
    })
}

/// What a line with a third field asks for: its word, its month and what is after them.
fn read_change(
    names: &BothNames,
    series: &Series,
    word: &[u8],
    month: &[u8],
    after: &[u8],
) -> Result<Edit, ScriptFault>
    requires basin { IsValidBasin names.now.basin.now }
    requires series { IsSeriesOf names.now.basin.now series.now }
    ensures reads { result ≡ edit_in names.now.basin.now series.now (word.now ∷ month.now ∷ pieces_of after.now) }
    ensures placed { IfOk result (IsValidEdit names.now.basin.now series.now) }
{
    let (name, after) = cut(after);
    let Some(after) = after else {
        return Err(ScriptFault::BadLine);
    };
    let (amount, after) = cut(after);
    if after.is_some() {
        return Err(ScriptFault::BadLine);
    }
    if word == b"inflow".as_slice() {
        return read_inflow(names, series, month, name, amount);
    }
    if word == b"want".as_slice() {
        return read_want(names, series, month, name, amount);
    }
    Err(ScriptFault::BadLine)
}

/// What a line between the first and the last asks for, or its first fault.
#[tactic(auto, unfolding(crate::specs::Lines::edit_of))]
pub fn read_edit(names: &BothNames, series: &Series, line: &[u8]) -> Result<Edit, ScriptFault>
    requires basin { IsValidBasin names.now.basin.now }
    requires series { IsSeriesOf names.now.basin.now series.now }
    ensures reads { result ≡ edit_of names.now.basin.now series.now line.now }
    ensures placed { IfOk result (IsValidEdit names.now.basin.now series.now) }
{
    let (word, after) = cut(line);
    let Some(after) = after else {
        return Err(ScriptFault::BadLine);
    };
    let (month, after) = cut(after);
    if let Some(after) = after {
        return read_change(names, series, word, month, after);
    }
    if word == b"show".as_slice() {
        return read_show(names.basin, month);
    }
    Err(ScriptFault::BadLine)
}
