//! What the order of rights goes by.
ghost use Rattle.std.specs.Prelude.{◌≡◌, ◌<◌, length};
ghost use Rattle.water_model.specs.Basin.{is_senior};
ghost use Rattle.water_model.specs.Rights.{priority, is_lower};
ghost use Rattle.rights_roll.specs.Priorities.{numbers_of};

use water_model::types::{Basin, Right};

/// The date of a right, and its order among the rights of that date. The lower is senior.
#[derive(Clone, Copy, PartialEq, Eq, PartialOrd, Ord)]
pub struct Priority {
    year: u16,
    month: u8,
    day: u8,
    order: u32,
}

impl Priority {
    /// The priority of a right.
    pub fn of(right: &Right) -> Priority
        ensures { numbers_of result ≡ priority right.now }
    {
        Priority {
            year: right.date.year,
            month: right.date.month,
            day: right.date.day,
            order: right.order,
        }
    }

    /// Whether a right of this priority is senior to one of the other.
    pub fn is_senior_to(&self, other: &Priority) -> bool
        ensures { result ≡ is_lower (numbers_of self.now) (numbers_of other.now) }
    {
        self < other
    }
}

/// Whether the one right is senior to the other: its date is earlier, or the dates are equal and its order is lower.
fn is_senior(one: &Right, other: &Right) -> bool
    ensures { result ≡ is_lower (priority one.now) (priority other.now) }
{
    Priority::of(one).is_senior_to(&Priority::of(other))
}

/// Whether one right of the basin is senior to another.
pub fn is_senior_to(basin: &Basin, one: u32, other: u32) -> bool
    requires one { one < length basin.now.rights }
    requires other { other < length basin.now.rights }
    ensures { result ≡ is_senior basin.now one other }
{
    is_senior(&basin.rights[one as usize], &basin.rights[other as usize])
}
