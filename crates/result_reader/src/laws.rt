//! Laws over what is read, and over the form of a text. Each is the contract of a function that does nothing.
ghost use Rattle.result_reader.specs.Laws.{LineSaysItsItem, PrefixesAreDue, PrefixesAreAccepted, OthersAreOutOfPlace};
ghost use Rattle.result_reader.specs.Laws.{TextsAreAccepted, TextsHaveOneReading};

/// What is read is what the line says, and nothing else is.
pub fn line_says_its_item()
    ensures { LineSaysItsItem }
{}

/// The lines after which something is due are the prefixes of whole texts.
pub fn prefixes_are_due()
    ensures { PrefixesAreDue }
{}

/// The lines that are accepted are those that may come by the form of a text.
pub fn prefixes_are_accepted()
    ensures { PrefixesAreAccepted }
{}

/// Every other line that says something is out of place.
pub fn others_are_out_of_place()
    ensures { OthersAreOutOfPlace }
{}

/// The lines of a text that is written are accepted.
pub fn texts_are_accepted()
    ensures { TextsAreAccepted }
{}

/// A text is that of one list of records.
pub fn texts_have_one_reading()
    ensures { TextsHaveOneReading }
{}
