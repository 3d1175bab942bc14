//! A month with what was found of it, and the lines of its list.
ghost use Rattle.std.specs.Prelude.{◌≡◌, ◌<◌, length, IfSome};
ghost use Rattle.std.specs.Option.{option_to_list};
ghost use Rattle.water_model.specs.Entries.{count_in};
ghost use Rattle.call_list.specs.Entries.{IsOfBasin};
ghost use Rattle.call_list.specs.Found.{curtailed_for};
ghost use Rattle.call_list.specs.Lists.{space_of};
ghost use Rattle.call_list.specs.MonthsCalls.{lines_of};

use crate::entry::Entry;
use crate::part::Part;
use rights_roll::priority::is_senior_to;
use rights_roll::roll::Roll;
use std::marker::Model;
use water_model::calls::taking_node;
use water_model::types::{Basin, MonthRecord};

/// A month's record with the basin's roll, the right to which one more unit at each node would go (by node), and the
/// most senior right that one more unit of carry on each link would help (by link).
#[derive(Drop)]
pub struct MonthCalls<'b> {
    pub basin: &'b Basin,
    pub roll: &'b Roll,
    pub month: &'b MonthRecord,
    pub next: &'b [Option<u32>],
    pub helped: &'b [Option<u32>],
}

impl<'b> Model for MonthCalls<'b> {
    ghost use Rattle.call_list.specs.Found.{Found};
    ghost use Rattle.call_list.specs.MonthsCalls.{CallsSeen, AreMonthCalls, calls_seen};

    ghost Value = { CallsSeen };

    ghost view = { λ c. calls_seen c.basin.now c.roll.now c.month.now c.next.now c.helped.now };

    ghost invariant = { λ c. AreMonthCalls (calls_seen c.basin.now c.roll.now c.month.now c.next.now c.helped.now) };
}

impl<'b> MonthCalls<'b> {
    /// The line of a right, if it is short.
    fn short_at(&self, right: u32) -> Option<Entry>
        requires { right < length self.now.basin.rights }
        ensures lines { option_to_list result ≡ lines_of self.now Part.Shorts right }
        ensures named { IfSome result (IsOfBasin self.now.basin) }
    {
        let amount = self.month.delivered[right as usize];
        let want = self.month.want[right as usize];
        if amount < want {
            Some(Entry::Short {
                right,
                amount,
                want,
            })
        } else {
            None
        }
    }

    /// The right for which another is curtailed, or none.
    #[tactic(auto, unfolding(crate::specs::Found::curtailed_for))]
    fn caller_of(&self, right: u32) -> Option<u32>
        requires { right < length self.now.basin.rights }
        ensures value { result ≡ curtailed_for self.now.basin self.now.month self.now.found.next right }
        ensures within { IfSome result (λ caller. caller < length self.now.basin.rights) }
    {
        if self.month.want[right as usize] == 0 {
            return None;
        }
        let node = taking_node(self.basin, right)?;
        let caller = self.next[node as usize]?;
        if is_senior_to(self.basin, caller, right) {
            Some(caller)
        } else {
            None
        }
    }

    /// The line of an index of a part, if it has one.
    pub(crate) fn line_at(&self, part: Part, position: u32) -> Option<Entry>
        requires { position < count_in (space_of part) self.now.basin }
        ensures lines { option_to_list result ≡ lines_of self.now part position }
        ensures named { IfSome result (IsOfBasin self.now.basin) }
    {
        match part {
            Part::Shorts => self.short_at(position),
            Part::Nexts => self.next[position as usize].map(|right| Entry::Next {
                node: position,
                right,
            }),
            Part::Links => self.helped[position as usize].map(|right| Entry::Link {
                link: position,
                right,
            }),
            Part::Curtailed => self.caller_of(position).map(|caller| Entry::Curtailed {
                right: position,
                caller,
            }),
        }
    }
}
