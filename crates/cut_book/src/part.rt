//! The parts of a bound.

/// A part of a bound: the supplies in the set, the links that enter it, what is kept on links that leave it, or the
/// takes in it. Its indices are those of nodes, links or rights.
#[derive(Clone, Copy)]
pub enum Part {
    Supplies,
    Enters,
    Keeps,
    Takes,
}

/// The parts, in the order of their lines.
pub const PARTS: [Part; 4] = [Part::Supplies, Part::Enters, Part::Keeps, Part::Takes];
