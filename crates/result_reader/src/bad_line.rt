//! Why a line is refused.

/// Why a reader refuses a line. Of several causes that hold the first of this order is answered.
#[derive(Clone, Copy, Debug, PartialEq, Eq)]
pub enum BadLine {
    /// The line has more than 128 bytes.
    OverLong,
    /// The first word is none of a result text.
    UnknownWord,
    /// The word has another number of fields, or a field isn't spelled as a name, a month, a number of months or an
    /// amount.
    BadField,
    /// No line of this word, these names and this month may come here.
    OutOfPlace,
}
