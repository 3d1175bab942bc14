//! What a checker begins with. Only these functions take memory.
ghost use Rattle.std.specs.Prelude.{ℕ, ◌≡◌, ◌*◌, ◌^◌, ◌<◌, ◌≤◌, [], length, nat_le, if◌then◌else◌, IfOk};
ghost use Rattle.std.specs.List.{list_all};
ghost use Rattle.lag_returns.specs.Lags as lag;
ghost use Rattle.lag_returns.specs.Lags.{HasReturned};
ghost use Rattle.result_reader.specs.ReadSoFar.{nothing_read};
ghost use Rattle.result_reader.specs.Standing.{ReaderStandsFor};
ghost use Rattle.rights_roll.specs.Rolls.{IsRollOf};
ghost use Rattle.water_model.specs.Basin.{is_outlet};
ghost use Rattle.water_model.specs.Indices.{outlets};
ghost use Rattle.water_model.specs.Valid.{IsValidBasin, IsSeriesOf};
ghost use Rattle.water_model.specs.declared.types.Series.{Series};
ghost use Rattle.cert_check.specs.Auditing.{IsAuditIfAny};
ghost use Rattle.cert_check.specs.Context.{IsContext};
ghost use Rattle.cert_check.specs.Keeping.{AreLeft, Keeps};
ghost use Rattle.cert_check.specs.Standing.{IsProgressOf};

use crate::audit::Audit;
use crate::progress::CheckProgress;
use crate::state::{CheckState, Context};
use cut_cert::rows::NodeRows;
use lag_returns::Lags;
use month_terms::evaporation::tables_of;
use month_terms::opening::{blank_month, openings};
use result_reader::ResultReader;
use rights_roll::roll::Roll;
use std::alloc::{AllocError, Global};
use water_model::blank::zeros;
use water_model::rows::Rows;
use water_model::types::{Basin, MAX_NODES, Series};

/// What comes back to each node in the first month.
fn first_comes(alloc: Global, basin: &Basin, lags: &Lags) -> Result<Rows<u64>, AllocError>
    requires basin { IsValidBasin basin.now }
    requires lags { lag.LagsStandFor lags.now basin.now.returns [] }
    ensures { IfOk result (HasReturned basin.now []) }
{
    let mut comes = zeros(alloc, basin.nodes.len())?;
    lags.write_returns(basin, &mut comes);
    Ok(comes)
}

/// What no month leaves: returns that are under way, what is stored, what comes back to each node, and what was used.
fn left_of_none(
    alloc: Global,
    basin: &Basin,
) -> Result<(Lags, Rows<u64>, Rows<u64>, Rows<u64>), AllocError>
    requires { IsValidBasin basin.now }
    ensures { IfOk result (λ left. AreLeft basin.now [] 0 left.0 left.1 left.2 left.3) }
{
    let lags = Lags::open(alloc, basin.returns.as_slice())?;
    let comes = first_comes(alloc, basin, &lags)?;
    let opens = openings(alloc, basin)?;
    let used = zeros(alloc, basin.rights.len())?;
    Ok((lags, opens, comes, used))
}

/// A check state of no line.
fn blank_state(alloc: Global, basin: &Basin) -> Result<Box<CheckState>, AllocError>
    requires { IsValidBasin basin.now }
    ensures { IfOk result (λ state. (series : Series) →
        Keeps basin.now series state.value (nothing_read basin.now)) }
{
    let (lags, opens, comes, used) = left_of_none(alloc, basin)?;
    Ok(Box::new(
        alloc,
        CheckState {
            done: 0,
            lags,
            opens,
            comes,
            used,
            month: Box::into_inner(blank_month(alloc, basin)?),
            calling: None,
            has_supply: false,
            closes: zeros(alloc, basin.reservoirs.len())?,
            has_closes: false,
            callers: [None; MAX_NODES],
            has_callers: false,
            passed: 0,
            answered: 0,
            into: zeros(alloc, basin.nodes.len())?,
            out_of: zeros(alloc, basin.nodes.len())?,
        },
    )?)
}

/// The node if it is an outlet, and else the last outlet before it.
fn last_with(basin: &Basin, last: u32, node: u32) -> u32
    requires { node < length basin.now.nodes }
    ensures { result ≡ (if is_outlet basin.now node then node else last) }
{
    if basin.nodes[node as usize].outlet {
        node
    } else {
        last
    }
}

/// The last outlet in the order of the file.
pub fn last_outlet(basin: &Basin) -> u32
    requires { IsValidBasin basin.now }
    ensures { (n : ℕ) → list_all (λ other. nat_le other n) (outlets basin.now) ≡ nat_le result n }
{
    let mut last = 0;
    for node in 0..basin.nodes.len() as u32 {
        last = last_with(basin, last, node);
    }
    last
}

/// A basin and its series with what is derived from the basin. AllocError comes where memory is lacking.
pub fn context_of<'b>(
    alloc: Global,
    basin: &'b Basin,
    series: &'b Series,
) -> Result<Context<'b>, AllocError>
    requires basin { IsValidBasin basin.now }
    requires series { IsSeriesOf basin.now series.now }
    ensures basin { IfOk result (λ context. context.basin.now ≡ basin.now) }
    ensures series { IfOk result (λ context. context.series.now ≡ series.now) }
    ensures context { IfOk result IsContext }
{
    let roll = Roll::of_basin(alloc, basin)?;
    let rows = NodeRows::of(alloc, basin, &roll)?;
    let tables = tables_of(alloc, basin)?;
    Ok(Context {
        basin,
        series,
        roll,
        rows,
        tables,
        last_outlet: last_outlet(basin),
    })
}

/// The progress of no line, with this audit of no line if one is asked for. AllocError comes where memory is lacking.
pub fn progress_of<'b>(
    alloc: Global,
    basin: &'b Basin,
    roll: &Roll,
    audit: Option<Audit>,
) -> Result<CheckProgress<'b>, AllocError>
    requires basin { IsValidBasin basin.now }
    requires roll { IsRollOf basin.now.rights roll.now }
    requires audit { IsAuditIfAny basin.now (nothing_read basin.now) [] audit }
    ensures none { IfOk result (λ progress. (series : Series) → IsProgressOf basin.now series progress []) }
    ensures bounded { IfOk result (λ progress. progress.reader.left ≤ 5 * 10 ^ 9) }
    ensures audit { IfOk result (λ progress. progress.audit ≡ audit) }
{
    Ok(CheckProgress {
        reader: ResultReader::open(alloc, basin, roll)?,
        state: blank_state(alloc, basin)?,
        read: 0,
        last_other: 0,
        ended: false,
        audit,
    })
}
