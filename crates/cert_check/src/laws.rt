//! Laws over the verdict on a text. Each is the contract of a function that does nothing.
ghost use Rattle.cert_check.specs.Laws.{HistoriesGiveYes, YesGivesHistory, YesExactlyForHistories};
ghost use Rattle.cert_check.specs.Laws.{AuditedExactlyForReaches, AuditsHaveOneAnswer, NotReachNamesOtherSets};

/// The text of each history is accepted.
pub fn histories_give_yes()
    ensures { HistoriesGiveYes }
{}

/// A text that is accepted is that of a history.
pub fn yes_gives_history()
    ensures { YesGivesHistory }
{}

/// Bytes are accepted exactly where they are the text of a history.
pub fn yes_exactly_for_histories()
    ensures { YesExactlyForHistories }
{}

/// An audit says yes exactly where bytes are the text of a history whose sets are the reaches.
pub fn audited_exactly_for_reaches()
    ensures { AuditedExactlyForReaches }
{}

/// All answers of an audit of the same bytes are the same.
pub fn audits_have_one_answer()
    ensures { AuditsHaveOneAnswer }
{}

/// Where an audit refutes a text for a set, it is the text of a history, and the first such `call` line is named.
pub fn not_reach_names_other_sets()
    ensures { NotReachNamesOtherSets }
{}
