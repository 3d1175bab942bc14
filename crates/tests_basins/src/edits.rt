//! Scripts answered over a basin with a gauge and a return.
ghost use Rattle.std.specs.Prelude.{◌≡◌, ◌<◌};
ghost use Rattle.water_model.specs.Valid.{IsSeriesOf, IsValidBasin};

use crate::basins::basin_of;
use edit_script::{ScriptFault, ScriptRefused, read_script};
use edit_session::put_shows;
use inflow_file::series_of_text;
use memory_edge::MemorySink;
use month_fold::work::Work;
use std::alloc::Global;
use std::marker::Brand;
use std::sync::ledger::{Blank, Ledger};
use std::test::Fail;
use water_model::types::{Basin, Series};

const BASIN: &str = r#"
format = 1
first_month = "1900-01"
months = 3
node = [{ name = "head", inflow = "gauged" }, { name = "mouth", outlet = true }]
link = [{ name = "a", from = "head", to = "mouth" }]
diversion = [{ name = "farm", node = "head", date = "1900-01-01", want = 12 }]
return = [{ diversion = "farm", node = "mouth", part = 5000, lag = 1 }]
"#;

const SERIES: &[u8] = b"month,node,amount\n1900-01,head,10\n1900-02,head,10\n1900-03,head,10\n";

/// What a script is answered over a basin with its series.
fn answer_over<P: Ledger, M: Ledger>(
    alloc: Global,
    basin: &Basin,
    series: &Series,
    script: &[u8],
    work: &mut Work<P, M>,
) -> Result<Result<MemorySink, ScriptRefused>, Fail>
    requires basin { IsValidBasin basin.now }
    requires series { IsSeriesOf basin.now series.now }
{
    let edits = match read_script(alloc, basin, series, script) {
        Ok(edits) => edits,
        Err(refused) => return Ok(Err(refused)),
    };
    let mut out = MemorySink::new(alloc, 4096, Vec::new(alloc))?;
    put_shows(alloc, basin, series, &edits, &mut out, work)?;
    Ok(Ok(out))
}

/// What a script is answered.
fn answered<P: Ledger, M: Ledger>(
    alloc: Global,
    pushes: Blank,
    months: Blank,
    script: &[u8],
) -> Result<Result<MemorySink, ScriptRefused>, Fail>
    requires pushes_name { pushes.name ≡ P.name }
    requires pushes_parts { pushes.parts ≡ P.parts }
    requires pushes_some { 0 < P.parts }
    requires months_name { months.name ≡ M.name }
    requires months_parts { months.parts ≡ M.parts }
    requires months_some { 0 < M.parts }
{
    let basin = basin_of(alloc, BASIN)?;
    let series = series_of_text(alloc, &basin, SERIES)?;
    let mut work = Work::<P, M>::new(pushes, months);
    answer_over(alloc, &basin, &series, script, &mut work)
}

const SCRIPT: &[u8] = b"river-edit 1
show 1900-02
inflow 1900-02 head 20
show 1900-02
show 1900-01
show 1900-03
done
";

const ANSWER: &str = "month 1900-02
return mouth 5
flow a 0
deliver farm 10 12
out mouth 5
call farm
in head
end
month 1900-02
return mouth 5
flow a 8
deliver farm 12 12
out mouth 13
end
month 1900-01
return mouth 0
flow a 0
deliver farm 10 12
out mouth 0
call farm
in head
in mouth
end
month 1900-03
return mouth 6
flow a 0
deliver farm 10 12
out mouth 6
call farm
in head
end
done 4
";

#[test]
fn shows_months_of_the_changed_series(rt: HostRuntime) -> Result<(), Fail> {
    match answered::<Brand, Brand>(rt.alloc(), Blank::new(1), Blank::new(1), SCRIPT)? {
        Ok(out) => assert_eq!(rt; out.bytes(), ANSWER.as_bytes()),
        Err(_) => assert!(rt; false, "refused"),
    }
    Ok(())
}

static REFUSED: [(&[u8], ScriptFault, u64); 7] = [
    (b"river-edit 1\nshow 1900-02\n", ScriptFault::EarlyEnd, 3),
    (b"river-edit 1\ndone", ScriptFault::EarlyEnd, 2),
    (b"river-edit 1\ndone\n\n", ScriptFault::AfterEnd, 3),
    (
        b"river-edit 1\nshow 1900-04\ndone\n",
        ScriptFault::OutsideRun,
        2,
    ),
    (
        b"river-edit 1\ninflow 1900-01 mouth 5\ndone\n",
        ScriptFault::NotSeries,
        2,
    ),
    (
        b"river-edit 1\ninflow 1900-01 sea 5\ndone\n",
        ScriptFault::NoSuchName,
        2,
    ),
    (
        b"river-edit 1\nshow 1900-01\nriver-edit 1\n",
        ScriptFault::BadLine,
        3,
    ),
];

#[test]
fn refuses_the_first_line_at_fault(rt: HostRuntime) -> Result<(), Fail> {
    for (script, fault, line) in REFUSED {
        match answered::<Brand, Brand>(rt.alloc(), Blank::new(1), Blank::new(1), script)? {
            Ok(_) => assert!(rt; false, "not refused"),
            Err(refused) => assert_eq!(rt; refused, ScriptRefused::Refused { fault, line }),
        }
    }
    Ok(())
}
