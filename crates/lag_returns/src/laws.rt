//! Laws over the definitions. Each is the contract of a function that does nothing.
ghost use Rattle.lag_returns.specs.Laws.{ArrivalsAreReturns, ReturnsAreSmall, ValidRowsAreLagged};

/// The return rows of a basin bring what the definition of a month's returns says.
pub fn arrivals_are_returns()
    ensures { ArrivalsAreReturns }
{}

/// A valid basin's return rows meet the conditions of `Lags`.
pub fn valid_rows_are_lagged()
    ensures { ValidRowsAreLagged }
{}

/// All returns of a month sum to at most 10^9 for each row.
pub fn returns_are_small()
    ensures { ReturnsAreSmall }
{}
