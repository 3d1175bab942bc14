//! Laws over the account book. Each is the contract of a function that does nothing.
ghost use Rattle.cut_book.specs.Laws.{LinesMakeBound, TightBooksSumToDelivery};

/// The lines of a book add up to the bound of its set.
pub fn lines_make_bound()
    ensures { LinesMakeBound }
{}

/// The lines of the book of a tight cut add up to what the right was delivered.
pub fn tight_books_sum_to_delivery()
    ensures { TightBooksSumToDelivery }
{}
