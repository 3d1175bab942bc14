//! Laws over accounts. Each is the contract of a function that does nothing.
ghost use Rattle.stored_water.specs.AccountLaws.{BooksBalance, FillsAddUp, AccountsStayWithinSpace};
ghost use Rattle.stored_water.specs.AccountLaws.{ZonesStayWithinNumber, AccountsStayWithinReservoir};
ghost use Rattle.stored_water.specs.AccountLaws.{BooksBalanceOverMonths, LedgerIsOne, CarriedIsStored};
ghost use Rattle.stored_water.specs.AccountLaws.{CarriedIsOne, NothingFillsOutOfSeason, FillsStayWithinVolume};

/// What an account opens with and is filled with is what it loses, spills, is drawn on for and holds at the end.
pub fn books_balance()
    ensures { BooksBalance }
{}

/// The accounts of a zone are filled with all that it takes.
pub fn fills_add_up()
    ensures { FillsAddUp }
{}

/// No account holds more than its space.
pub fn accounts_stay_within_space()
    ensures { AccountsStayWithinSpace }
{}

/// After spill and fill the accounts of a zone hold no more than its number, in its season and out of it.
pub fn zones_stay_within_number()
    ensures { ZonesStayWithinNumber }
{}

/// Out of a zone's season its accounts aren't filled.
pub fn nothing_fills_out_of_season()
    ensures { NothingFillsOutOfSeason }
{}

/// A zone with a volume fills no more than is left of it.
pub fn fills_stay_within_volume()
    ensures { FillsStayWithinVolume }
{}

/// The accounts of a reservoir hold no more than it does.
pub fn accounts_stay_within_reservoir()
    ensures { AccountsStayWithinReservoir }
{}

/// The same over months in a row.
pub fn books_balance_over_months()
    ensures { BooksBalanceOverMonths }
{}

/// What accounts carry doesn't hang on the first step.
pub fn carried_is_one()
    ensures { CarriedIsOne }
{}

/// A month's ledger is determined.
pub fn ledger_is_one()
    ensures { LedgerIsOne }
{}

/// At each node the accounts carry no more than is stored there.
pub fn carried_is_stored()
    ensures { CarriedIsStored }
{}
