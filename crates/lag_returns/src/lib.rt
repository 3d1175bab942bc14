//! What comes back to the river, months later, of what diversions take.
#![tactic(auto)]

ghost use Rattle.std.specs.Prelude.{◌≡◌, ℕ, ◌+◌, ◌*◌, ◌^◌, ◌<◌, ◌≤◌, ◌++◌, ◌∷◌, [], List, length, min, slice_index};
ghost use Rattle.std.specs.Prelude.{slice_set, map, All, IfOk};
ghost use Rattle.lag_returns.specs.ReturnFlows.{HasRoomFor, after_month, arriving, brought, due, emptied};
ghost use Rattle.lag_returns.specs.ReturnFlows.{fresh, with_delivery};
ghost use Rattle.lag_returns.specs.Lags.{HasReturned, IsLagged, LagsStandFor, return_rows, arrivals_at};
ghost use Rattle.water_model.specs.Valid.{IsValidBasin};
ghost use Rattle.water_model.specs.declared.types.ReturnRow.{ReturnRow};

use circular_buffer::HeapCircularBuffer;
use std::alloc::{AllocError, Global};
use std::marker::Model;
use water_model::rows::Rows;
use water_model::types::{Basin, ReturnRow};

pub mod laws;

/// A return row, the deliveries of its diversion that are on their way, and the remainder, in parts of 10,000, of those
/// that came back.
#[derive(Drop)]
struct ReturnFlow {
    row: ReturnRow,
    waiting: HeapCircularBuffer<u64>,
    remainder: u64,
}

impl Model for ReturnFlow {
    ghost use Rattle.lag_returns.specs.Lags.{InTransit};

    ghost Value = { InTransit };

    ghost view = { λ f. record { row = f.row; waiting = f.waiting.items; remainder = f.remainder } };

    ghost use Rattle.lag_returns.specs.ReturnFlows.{IsSoundReturn};

    ghost invariant = { λ f. IsSoundReturn f.row f.waiting f.remainder };
}

impl ReturnFlow {
    /// A row with nothing on its way.
    fn open(alloc: Global, row: ReturnRow) -> Result<ReturnFlow, AllocError>
        requires { IsLagged row }
        ensures { IfOk result (λ flow. flow ≡ fresh row) }
    {
        let waiting = HeapCircularBuffer::with_capacity(alloc, row.lag as usize)?;
        Ok(ReturnFlow {
            row,
            waiting,
            remainder: 0,
        })
    }

    /// The parts of 10,000 that are due this month.
    fn due(&self) -> u64
        ensures due { result ≡ due self.now }
        ensures small { result < 10 ^ 13 + 10 ^ 4 }
    {
        if self.waiting.len() < self.row.lag as usize {
            return 0;
        }
        match self.waiting.front() {
            Some(oldest) => self.remainder + u64::from(self.row.part) * *oldest,
            None => 0,
        }
    }

    /// Adds what the row brings this month to its node's amount.
    fn arrive(&self, into: &mut [u64])
        requires node { self.now.row.node < length into.old }
        requires room { slice_index into.old self.now.row.node + min (arriving self.now) (10 ^ 9) < 2 ^ 64 }
        ensures adds { into.new ≡ slice_set into.old self.now.row.node
            (slice_index into.old self.now.row.node + arriving self.now) }
        ensures small { arriving self.now ≤ 10 ^ 9 }
    {
        into[self.row.node as usize] += self.due() / 10_000;
    }

    /// Takes in the month's delivery to the diversion.
    fn take(&mut self, amount: u64)
        requires { amount ≤ 10 ^ 9 }
        ensures { self.new ≡ with_delivery amount self.old }
    {
        self.remainder = self.due() % 10_000;
        self.waiting.push_back(amount);
    }

    /// Nothing is on its way any more.
    fn clear(&mut self)
        ensures { self.new ≡ fresh self.old.row }
    {
        self.waiting.clear();
        self.remainder = 0;
    }
}

/// Adds what each row brings to its node's amount.
fn arrive_each(flows: &[ReturnFlow], into: &mut [u64])
    requires nodes { All (λ row. row.node < length into.old) (return_rows flows.now) }
    requires room { HasRoomFor flows.now into.old }
    ensures length { length into.new ≡ length into.old }
    ensures adds { (node : ℕ) → node < length into.old →
        slice_index into.new node ≡ slice_index into.old node + brought flows.now node }
{
    for flow in flows {
        flow.arrive(into);
    }
}

/// Takes in each row's delivery, from the month's deliveries by right.
fn take_each(flows: &mut [ReturnFlow], delivered: &[u64])
    requires rights { All (λ row. row.right < length delivered.now) (return_rows flows.old) }
    requires small { All (λ n. n ≤ 10 ^ 9) delivered.now }
    ensures { flows.new ≡ map (after_month delivered.now) flows.old }
{
    for flow in flows.iter_mut() {
        let right = flow.row.right as usize;
        flow.take(delivered[right]);
    }
}

/// Nothing is on its way to any row any more.
fn clear_each(flows: &mut [ReturnFlow])
    ensures { flows.new ≡ map emptied flows.old }
{
    for flow in flows.iter_mut() {
        flow.clear();
    }
}

/// Return rows, and the deliveries of their diversions that are on their way.
///
/// Deliveries that came back aren't kept. A value stands for the rows and for the deliveries of all months so far, a
/// list by right for each month; contracts say what holds for each such list that it stands for. They see a value as
/// the list of its rows, each with what is on its way and with the remainder.
#[derive(Drop)]
pub struct Lags {
    flows: Vec<ReturnFlow>,
}

impl Model for Lags {
    ghost use Rattle.std.specs.Prelude.{List, All};
    ghost use Rattle.lag_returns.specs.Lags.{InTransit, IsLagged};

    ghost Value = { List InTransit };

    ghost view = { λ l. l.flows.items };

    ghost invariant = { λ l. All (λ w. IsLagged w.row) l.flows.items };
}

impl Lags {
    /// Nothing is on its way. A row's part is 1 to 10,000, of 10,000, and its lag 1 to 120 months. Refused only where
    /// memory runs out. No other call takes memory.
    pub fn open(alloc: Global, rows: &[ReturnRow]) -> Result<Lags, AllocError>
        requires { All IsLagged rows.now }
        ensures { IfOk result (λ lags. LagsStandFor lags rows.now []) }
    {
        let mut flows = Vec::with_capacity(alloc, rows.len())?;
        for row in rows {
            flows.push(ReturnFlow::open(alloc, *row)?)?;
        }
        Ok(Lags { flows })
    }

    /// Adds what each row brings this month to the amount of its node, in units of 1,000 cubic metres. The list is
    /// indexed by node, and each amount has room for what is added to it. The cost is linear in the rows.
    pub fn arrive(&self, into: &mut [u64])
        requires nodes { All (λ row. row.node < length into.old) (return_rows self.now) }
        requires room { HasRoomFor self.now into.old }
        ensures length { length into.new ≡ length into.old }
        ensures adds { (rows : List ReturnRow) (deliveries : List (List ℕ)) → LagsStandFor self.now rows deliveries →
            (node : ℕ) → node < length into.old →
            slice_index into.new node ≡ slice_index into.old node + arrivals_at rows deliveries node }
    {
        arrive_each(&self.flows, into);
    }

    /// Writes what comes back to each node this month.
    fn write_arrivals(&self, basin: &Basin, returned: &mut [u64])
        requires basin { IsValidBasin basin.now }
        requires rows { return_rows self.now ≡ basin.now.returns }
        requires returned { length returned.old ≡ length basin.now.nodes }
        ensures length { length returned.new ≡ length returned.old }
        ensures each { (deliveries : List (List ℕ)) → LagsStandFor self.now basin.now.returns deliveries →
            HasReturned basin.now deliveries returned.new }
    {
        returned.fill(0);
        self.arrive(returned);
    }

    /// Writes what comes back to each node of a basin this month, by the basin's return rows, over what stood there.
    /// The list is indexed by node. The cost is linear in the nodes and rows.
    pub fn write_returns(&self, basin: &Basin, returned: &mut Rows<u64>)
        requires basin { IsValidBasin basin.now }
        requires rows { return_rows self.now ≡ basin.now.returns }
        requires returned { length returned.old ≡ length basin.now.nodes }
        ensures length { length returned.new ≡ length returned.old }
        ensures each { (deliveries : List (List ℕ)) → LagsStandFor self.now basin.now.returns deliveries →
            HasReturned basin.now deliveries returned.new }
    {
        self.write_arrivals(basin, returned.as_mut_slice());
    }

    /// Takes in the month's deliveries, indexed by right and each at most 10^9, and moves to the next month. The cost
    /// is linear in the rows.
    pub fn month_done(&mut self, delivered: &[u64])
        requires rights { All (λ row. row.right < length delivered.now) (return_rows self.old) }
        requires small { All (λ n. n ≤ 10 ^ 9) delivered.now }
        ensures rows { return_rows self.new ≡ return_rows self.old }
        ensures stands { (rows : List ReturnRow) (deliveries : List (List ℕ)) → LagsStandFor self.old rows deliveries →
            LagsStandFor self.new rows (deliveries ++ delivered.now ∷ []) }
    {
        take_each(&mut self.flows, delivered);
    }

    /// Nothing is on its way any more, as after `open`: the value stands for its rows, and for no month. The cost is
    /// linear in the rows.
    pub fn clear(&mut self)
        ensures { LagsStandFor self.new (return_rows self.old) [] }
    {
        clear_each(&mut self.flows);
    }
}
