//! Laws over the definitions. Each is the contract of a function that does nothing.
ghost use Rattle.edit_session.specs.Laws.{EditedSeriesFit, KeptMonthsStay};

/// A series stays one of its basin through each change.
pub fn edited_series_fit()
    ensures { EditedSeriesFit }
{}

/// The months before a change stay months of the basin and the changed series.
pub fn kept_months_stay()
    ensures { KeptMonthsStay }
{}
