//! Why a text is refuted, and at which line.
ghost use Rattle.std.specs.Prelude.{◌≡◌, ◌≤◌, length};
ghost use Rattle.cert_check.specs.KindNames.{kind_name};

/// Why a text is refuted. Of several causes at one line the first of this order is answered.
#[derive(Clone, Copy, Debug, PartialEq, Eq)]
pub enum RefutedKind {
    /// Something stands after the `done` line.
    AfterEnd,
    /// A reader of texts refuses the line.
    BadLine,
    /// The line ends the nodes of a `call` whose set isn't a tight cut of its right. The `call` line is named.
    CutLoose,
    /// The line passes over a short right that has no `call`.
    CutMissing,
    /// The line is the `call` of a right that isn't short.
    CutNeedless,
    /// The line is a `called` line other than the one that is due, or another line where a `called` line is due.
    Called,
    /// `run` names another first month or number of months than the basin has.
    Head,
    /// A reservoir opens with another amount than it closed with in the month before, or than the basin gives.
    Opening,
    /// What evaporates from a reservoir is another amount.
    Evaporation,
    /// What comes back to a node is another amount.
    Return,
    /// What a right used of its volume is another amount.
    Used,
    /// The flow is above what the link carries.
    Flow,
    /// The want is another amount, or a take is above the want, or an instream right's amount isn't the lesser of want
    /// and flow.
    Delivery,
    /// At the last `out` line of a month, some node has more or less water than leaves it.
    Balance,
    /// A reservoir closes with another amount than its zones take.
    Closing,
    /// The text ends before its `done` line. The line after the last one is named.
    EarlyEnd,
    /// The text is that of a history, but the set of a right isn't its reach. The first such `call` line is named, by
    /// month and then by seniority. Only an audit refutes a text for it.
    NotReach,
}

impl RefutedKind {
    /// The word for the kind, as an answer writes it.
    #[tactic(auto, unfolding(crate::specs::KindNames::kind_name))]
    pub fn name(&self) -> &'static str
        ensures value { result.now ≡ kind_name self.now }
        ensures short { length result.now ≤ 16 }
    {
        match self {
            RefutedKind::AfterEnd => "AfterEnd",
            RefutedKind::BadLine => "BadLine",
            RefutedKind::CutLoose => "CutLoose",
            RefutedKind::CutMissing => "CutMissing",
            RefutedKind::CutNeedless => "CutNeedless",
            RefutedKind::Called => "Called",
            RefutedKind::Head => "Head",
            RefutedKind::Opening => "Opening",
            RefutedKind::Evaporation => "Evaporation",
            RefutedKind::Return => "Return",
            RefutedKind::Used => "Used",
            RefutedKind::Flow => "Flow",
            RefutedKind::Delivery => "Delivery",
            RefutedKind::Balance => "Balance",
            RefutedKind::Closing => "Closing",
            RefutedKind::EarlyEnd => "EarlyEnd",
            RefutedKind::NotReach => "NotReach",
        }
    }
}

/// The first line of a text at fault, counted from 1, and why.
#[derive(Clone, Copy, Debug, PartialEq, Eq)]
pub struct Refuted {
    pub line: u64,
    pub kind: RefutedKind,
}
