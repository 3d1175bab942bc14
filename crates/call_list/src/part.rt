//! The parts of a month's list.

/// A part of a month's list: the short rights, the nodes at which one more unit would be a right's, the canals whose
/// carry would help one, and the rights that are curtailed. Its indices are those of rights, nodes or links.
#[derive(Clone, Copy)]
pub enum Part {
    Shorts,
    Nexts,
    Links,
    Curtailed,
}

/// The parts, in the order of their lines.
pub const PARTS: [Part; 4] = [Part::Shorts, Part::Nexts, Part::Links, Part::Curtailed];
