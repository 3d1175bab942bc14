ghost use Rattle.std.specs.Prelude.{◌≡◌, ◌<◌, ◌≤◌, ◌^◌, length, All, IsTrue, IfOk};
ghost use Rattle.lag_returns.specs.Lags.{IsLagged, return_rows};

use lag_returns::Lags;
use std::alloc::{AllocError, Global};
use std::process::Abort;
use water_model::types::ReturnRow;

// Rows of two rights and two nodes, by right, node, part and lag. Then, month by month, what the rights are delivered
// and what arrives at the nodes.
static RUNS: [(&[(u32, u32, u32, u32)], &[[u64; 2]], &[[u64; 2]]); 11] = [
    (
        &[(0, 1, 3_333, 1)],
        &[[10, 0]; 5],
        &[[0, 0], [0, 3], [0, 3], [0, 3], [0, 4]],
    ),
    (
        &[(0, 1, 5_000, 1)],
        &[[7, 0]; 5],
        &[[0, 0], [0, 3], [0, 4], [0, 3], [0, 4]],
    ),
    (
        &[(0, 1, 5_000, 2)],
        &[[7, 0]; 5],
        &[[0, 0], [0, 0], [0, 3], [0, 4], [0, 3]],
    ),
    // two rows at one node, of one right and of two
    (
        &[(0, 1, 5_000, 1), (0, 1, 5_000, 2)],
        &[[7, 0]; 5],
        &[[0, 0], [0, 3], [0, 7], [0, 7], [0, 7]],
    ),
    (
        &[(0, 1, 5_000, 1), (1, 1, 2_500, 2), (1, 0, 7_500, 1)],
        &[[7, 4]; 5],
        &[[0, 0], [3, 3], [3, 5], [3, 4], [3, 5]],
    ),
    // the whole and the least part
    (
        &[(1, 0, 10_000, 2)],
        &[[9, 5], [9, 0], [9, 1_000_000_000], [9, 1], [9, 0]],
        &[[0, 0], [0, 0], [5, 0], [0, 0], [1_000_000_000, 0]],
    ),
    (
        &[(0, 0, 1, 1)],
        &[[3_000, 0]; 8],
        &[
            [0, 0],
            [0, 0],
            [0, 0],
            [0, 0],
            [1, 0],
            [0, 0],
            [0, 0],
            [1, 0],
        ],
    ),
    (
        &[(0, 0, 1, 1)],
        &[[1_000_000_000, 0]; 3],
        &[[0, 0], [100_000, 0], [100_000, 0]],
    ),
    // the eight rows that a diversion may have
    (
        &[(0, 1, 1_250, 1); 8],
        &[[10, 0]; 5],
        &[[0, 0], [0, 8], [0, 8], [0, 8], [0, 16]],
    ),
    // a run shorter than the lag, and no rows
    (&[(0, 1, 10_000, 120)], &[[9, 9]; 3], &[[0, 0]; 3]),
    (&[], &[[9, 9]; 3], &[[0, 0]; 3]),
];

fn rows(alloc: Global, rows: &[(u32, u32, u32, u32)]) -> Result<Vec<ReturnRow>, AllocError> {
    let mut list = Vec::new(alloc);
    for (right, node, part, lag) in rows {
        list.push(ReturnRow {
            right: *right,
            node: *node,
            part: *part,
            lag: *lag,
            rest: 0,
        })?;
    }
    Ok(list)
}

fn are_lagged(rows: &[ReturnRow]) -> bool
    ensures { IsTrue result → All IsLagged rows.now }
{
    rows.iter().all(|row| 1 <= row.part && row.part <= 10_000 && 1 <= row.lag && row.lag <= 120)
}

fn have_places(rows: &[ReturnRow]) -> bool
    ensures rights { IsTrue result → All (λ row. row.right < 2) rows.now }
    ensures nodes { IsTrue result → All (λ row. row.node < 2) rows.now }
{
    rows.iter().all(|row| row.right < 2 && row.node < 2)
}

fn are_amounts(delivered: &[u64]) -> bool
    ensures { IsTrue result → All (λ n. n ≤ 10 ^ 9) delivered.now }
{
    delivered.iter().all(|amount| *amount <= 1_000_000_000)
}

// What arrives at two nodes. Then the month ends with these deliveries to two rights.
fn month(lags: &mut Lags, delivered: [u64; 2]) -> [u64; 2]
    requires bounded { length (return_rows lags.old) ≤ 8 }
    requires rights { All (λ row. row.right < 2) (return_rows lags.old) }
    requires nodes { All (λ row. row.node < 2) (return_rows lags.old) }
    requires small { All (λ n. n ≤ 10 ^ 9) delivered }
    ensures { return_rows lags.new ≡ return_rows lags.old }
{
    let mut arrived = [0; 2];
    lags.arrive(&mut arrived);
    lags.month_done(&delivered);
    arrived
}

// Compares a month.
fn compare_month<R: Abort>(rt: &R, lags: &mut Lags, delivered: [u64; 2], arrived: [u64; 2])
    requires bounded { length (return_rows lags.old) ≤ 8 }
    requires rights { All (λ row. row.right < 2) (return_rows lags.old) }
    requires nodes { All (λ row. row.node < 2) (return_rows lags.old) }
    ensures { return_rows lags.new ≡ return_rows lags.old }
{
    assert!(rt; are_amounts(&delivered));
    assert_eq!(rt; month(lags, delivered), arrived);
}

// Compares month by month.
fn compare_months<R: Abort>(rt: &R, lags: &mut Lags, deliveries: &[[u64; 2]], arrivals: &[[u64; 2]])
    requires bounded { length (return_rows lags.old) ≤ 8 }
    requires rights { All (λ row. row.right < 2) (return_rows lags.old) }
    requires nodes { All (λ row. row.node < 2) (return_rows lags.old) }
{
    assert!(rt; deliveries.len() == arrivals.len());
    for (delivered, arrived) in deliveries.iter().zip(arrivals) {
        compare_month(rt, lags, *delivered, *arrived);
    }
}

// The returns of rows of two rights and two nodes.
fn open<R: Abort>(rt: &R, alloc: Global, list: &[(u32, u32, u32, u32)]) -> Result<Lags, AllocError>
    ensures bounded { IfOk result (λ lags. length (return_rows lags) ≤ 8) }
    ensures rights { IfOk result (λ lags. All (λ row. row.right < 2) (return_rows lags)) }
    ensures nodes { IfOk result (λ lags. All (λ row. row.node < 2) (return_rows lags)) }
{
    let rows = rows(alloc, list)?;
    assert!(rt; rows.len() <= 8);
    assert!(rt; are_lagged(&rows));
    assert!(rt; have_places(&rows));
    Lags::open(alloc, &rows)
}

#[test]
fn returns_arrive(rt: HostRuntime) -> Result<(), AllocError> {
    for (list, deliveries, arrivals) in &RUNS {
        let mut lags = open(&rt, rt.alloc(), list)?;
        compare_months(&rt, &mut lags, deliveries, arrivals);
    }
    Ok(())
}

// Compares 123 months of growing deliveries.
fn compare_growing<R: Abort>(rt: &R, lags: &mut Lags)
    requires bounded { length (return_rows lags.old) ≤ 8 }
    requires rights { All (λ row. row.right < 2) (return_rows lags.old) }
    requires nodes { All (λ row. row.node < 2) (return_rows lags.old) }
{
    for i in 0..123u64 {
        compare_month(rt, lags, [i + 1, 0], [0, i.saturating_sub(119)]);
    }
}

#[test]
fn the_longest_lag(rt: HostRuntime) -> Result<(), AllocError> {
    let mut lags = open(&rt, rt.alloc(), &[(0, 1, 10_000, 120)])?;
    compare_growing(&rt, &mut lags);
    Ok(())
}
