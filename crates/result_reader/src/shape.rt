//! What is fixed of a line that is due.
ghost use Rattle.std.specs.Prelude.{◌≡◌, IsTrue, ◌↔◌};
ghost use Rattle.result_reader.specs.Form as form;
ghost use Rattle.result_reader.specs.Due as due;

use result_lines::item::Item;
use result_lines::quantity::Quantity;
use water_text::month::Month;

/// A line that is due: its word, with its month, its number of months or its first name.
#[derive(Clone, Copy, PartialEq, Eq)]
pub enum Shape {
    Title,
    Run,
    Month { month: Month },
    Amount { quantity: Quantity, entry: u32 },
    Deliver { right: u32 },
    Call { right: u32 },
    Member { node: u32 },
    Called { right: u32 },
    End,
    Done { months: u32 },
}

/// What is fixed of a line.
pub fn shape_of(item: &Item) -> Shape
    ensures { result ≡ form.shape_of item.now }
{
    match *item {
        Item::Title => Shape::Title,
        Item::Run { .. } => Shape::Run,
        Item::Month { month } => Shape::Month { month },
        Item::Amount {
            quantity,
            entry,
            ..
        } => Shape::Amount { quantity, entry },
        Item::Deliver { right, .. } => Shape::Deliver { right },
        Item::Call { right } => Shape::Call { right },
        Item::Member { node } => Shape::Member { node },
        Item::Called { right, .. } => Shape::Called { right },
        Item::End => Shape::End,
        Item::Done { months } => Shape::Done { months },
    }
}

fn is_same(one: &Shape, other: &Shape) -> bool
    ensures { IsTrue result ↔ (one.now ≡ other.now) }
{
    one == other
}

/// Whether the two are of one word, with one month, number or name.
pub fn is_same_shape(one: &Shape, other: &Shape) -> bool
    ensures { result ≡ form.is_same_shape one.now other.now }
{
    is_same(one, other)
}

/// Whether a line that is due may be left out.
pub fn is_optional(shape: &Shape) -> bool
    ensures { result ≡ form.is_optional shape.now }
{
    match *shape {
        Shape::Call { .. } | Shape::Member { .. } | Shape::Called { .. } => true,
        _ => false,
    }
}

/// Whether the line is a `call` line.
pub fn is_call(item: &Item) -> bool
    ensures { result ≡ due.is_call item.now }
{
    match *item {
        Item::Call { .. } => true,
        _ => false,
    }
}
