//! What a checker keeps of a text.
use cut_cert::rows::NodeRows;
use lag_returns::Lags;
use reservoirs::AreaTable;
use rights_roll::roll::Roll;
use water_model::rows::Rows;
use water_model::types::{Basin, MAX_NODES, MonthRecord, Series};

/// A basin and its series, and what is derived from the basin once: the roll of its rights, its rows by node, the area
/// table of each reservoir, and the last outlet in the order of the file.
#[derive(Drop)]
pub struct Context<'b> {
    pub basin: &'b Basin,
    pub series: &'b Series,
    pub roll: Roll,
    pub rows: NodeRows,
    pub tables: Vec<AreaTable>,
    pub last_outlet: u32,
}

/// What is kept of the lines so far: what the months that ended leave to the next one, and what was read of the month
/// under way. Amounts are in units of 1,000 cubic metres.
///
/// No earlier month is kept. Of what follows from the lines of the current month its supply, the sums of its zones and
/// the callers of its nodes are made before the first line whose tests look at them, and again only where a line said
/// something that they are made of.
#[derive(Drop)]
pub struct CheckState {
    /// How many months ended.
    pub done: u32,
    /// What diversions took in these months and is on its way back.
    pub lags: Lags,
    /// For each reservoir what it opens with next.
    pub opens: Rows<u64>,
    /// For each node what comes back to it next.
    pub comes: Rows<u64>,
    /// For each right with a volume what it used of that before, in the water year of the current month.
    pub used: Rows<u64>,
    /// What was read of the current month.
    pub month: MonthRecord,
    /// The right whose `in` lines come.
    pub calling: Option<u32>,
    /// Whether the record has the supply that was read.
    pub has_supply: bool,
    /// For each reservoir what its zones take.
    pub closes: Rows<u64>,
    /// Whether these sums are of the takes that were read.
    pub has_closes: bool,
    /// For each node its first caller: the most senior right that is short and has a set that holds the node.
    pub callers: [Option<u32>; MAX_NODES],
    /// Whether these are by the deliveries and sets that were read.
    pub has_callers: bool,
    /// This many rights, the most senior ones, are met or have their `call`.
    pub passed: usize,
    /// This many rights, the most senior ones, answer to the callers of the `called` lines so far and to no other.
    pub answered: usize,
    /// Room for what comes into each node.
    pub into: Rows<u64>,
    /// Room for what leaves each node.
    pub out_of: Rows<u64>,
}
