//! The words that lines begin with.
ghost use Rattle.std.specs.Prelude.{◌≡◌, true, Some};
ghost use Rattle.result_reader.specs.Words.{spelling_of, word_of};

use result_lines::quantity::Quantity;

/// The first word of a line.
#[derive(Clone, Copy)]
pub enum Word {
    Title,
    Run,
    Month,
    /// The word of a line with the name of an entry and an amount of it.
    Amount(Quantity),
    Deliver,
    Call,
    Member,
    Called,
    End,
    Done,
}

const WORDS: [Word; 16] = [
    Word::Title,
    Word::Run,
    Word::Month,
    Word::Amount(Quantity::Opening),
    Word::Amount(Quantity::Evaporated),
    Word::Amount(Quantity::Returned),
    Word::Amount(Quantity::Used),
    Word::Amount(Quantity::Flow),
    Word::Deliver,
    Word::Amount(Quantity::Outflow),
    Word::Call,
    Word::Member,
    Word::Called,
    Word::Amount(Quantity::Closing),
    Word::End,
    Word::Done,
];

impl Word {
    fn text(self) -> &'static [u8]
        ensures { result.now ≡ spelling_of self }
    {
        match self {
            Word::Title => b"river-result",
            Word::Run => b"run",
            Word::Month => b"month",
            Word::Amount(quantity) => quantity.word(),
            Word::Deliver => b"deliver",
            Word::Call => b"call",
            Word::Member => b"in",
            Word::Called => b"called",
            Word::End => b"end",
            Word::Done => b"done",
        }
    }

    /// The word that the bytes spell, by going over all words.
    fn find(text: &[u8]) -> Option<Word>
        ensures { result ≡ word_of text.now }
    {
        for word in WORDS.iter() {
            if word.text() == text {
                return Some(*word);
            }
        }
        None
    }

    /// Whether the bytes spell the word.
    fn is_spelled(self, text: &[u8]) -> bool
        ensures { result ≡ true → Some self ≡ word_of text.now }
    {
        self.text() == text
    }

    /// The word that the bytes spell, or `None` where they spell none. The words of most lines come first.
    pub fn of(text: &[u8]) -> Option<Word>
        ensures { result ≡ word_of text.now }
    {
        if Word::Member.is_spelled(text) {
            Some(Word::Member)
        } else if Word::Amount(Quantity::Flow).is_spelled(text) {
            Some(Word::Amount(Quantity::Flow))
        } else if Word::Deliver.is_spelled(text) {
            Some(Word::Deliver)
        } else {
            Word::find(text)
        }
    }
}
