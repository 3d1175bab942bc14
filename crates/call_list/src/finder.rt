//! What a month's list of calls is found with.
ghost use Rattle.std.specs.Prelude.{◌≡◌, length, IfOk};
ghost use Rattle.water_model.specs.History.{HasReaches};
ghost use Rattle.water_model.specs.Valid.{IsValidBasin};
ghost use Rattle.rights_roll.specs.Rolls.{IsRollOf};
ghost use Rattle.plan_residual.specs.Residual.{HasPlan};
ghost use Rattle.next_unit.specs.Helped.{HasRoomForAll};
ghost use Rattle.result_text.specs.Range.{FitsText};
ghost use Rattle.call_list.specs.Finders.{IsFinderOf};
ghost use Rattle.call_list.specs.Found.{IsFoundIn};

use crate::month::MonthCalls;
use next_unit::find_next;
use next_unit::helped::find_helped;
use plan_residual::ResidualSearch;
use rights_roll::roll::Roll;
use std::alloc::{AllocError, Global};
use std::marker::Model;
use water_model::types::{Basin, MonthRecord};

/// What a list of calls is found with: the search through a month's residual network, a list of links that are still to
/// be decided, and what was found in the last month, by node the right to which one more unit of water there would go,
/// and by link the most senior right that one more unit of carry on it would help. All memory for the basin's months is
/// taken when it is opened.
#[derive(Drop)]
pub struct CallFinder {
    search: ResidualSearch,
    undecided: Vec<u32>,
    next: Vec<Option<u32>>,
    helped: Vec<Option<u32>>,
}

impl Model for CallFinder {
    ghost use Rattle.call_list.specs.Finders.{FinderSeen};

    ghost Value = { FinderSeen };

    ghost view = { λ f. record {
      search = f.search;
      undecided = f.undecided.items;
      found = record { next = f.next.items; helped = f.helped.items };
    } };
}

/// A list with room for each link, and lists in which nothing was found, by node and by link. AllocError comes where
/// memory is lacking.
fn lists_of(
    alloc: Global,
    basin: &Basin,
) -> Result<(Vec<u32>, Vec<Option<u32>>, Vec<Option<u32>>), AllocError>
    ensures undecided { IfOk result (λ lists. length lists.0.items ≡ length basin.now.links) }
    ensures nodes { IfOk result (λ lists. length lists.1.items ≡ length basin.now.nodes) }
    ensures links { IfOk result (λ lists. length lists.2.items ≡ length basin.now.links) }
{
    let undecided = vec![in alloc; 0; basin.links.len()]?;
    let next = vec![in alloc; None; basin.nodes.len()]?;
    let helped = vec![in alloc; None; basin.links.len()]?;
    Ok((undecided, next, helped))
}

impl CallFinder {
    /// Takes the memory for a basin, and has found nothing yet. Refused only where memory runs out; no other call takes
    /// memory.
    pub fn open(alloc: Global, basin: &Basin) -> Result<CallFinder, AllocError>
        requires { IsValidBasin basin.now }
        ensures { IfOk result (IsFinderOf basin.now) }
    {
        let search = ResidualSearch::open(alloc, basin)?;
        let (undecided, next, helped) = lists_of(alloc, basin)?;
        Ok(CallFinder {
            search,
            undecided,
            next,
            helped,
        })
    }

    /// Finds what one more unit of water at each node, and one more unit of carry on each link, would do in a month
    /// whose sets are the reaches. It replaces what was found before. The cost is linear in nodes, links and rights,
    /// but for the short instream rights whose reach a full link enters that could help them: for each a core is
    /// searched.
    pub fn find(&mut self, basin: &Basin, roll: &Roll, month: &MonthRecord)
        requires finder { IsFinderOf basin.now self.old }
        requires plan { HasPlan basin.now month.now }
        requires roll { IsRollOf basin.now.rights roll.now }
        requires reaches { HasReaches basin.now month.now }
        requires room { HasRoomForAll basin.now month.now }
        ensures finder { IsFinderOf basin.now self.new }
        ensures found { IsFoundIn basin.now month.now self.new.found }
    {
        let next = self.next.as_mut_slice();
        find_next(&mut self.search, basin, roll, month, next);
        let next = self.next.as_slice();
        let rest = self.undecided.as_mut_slice();
        let helped = self.helped.as_mut_slice();
        find_helped(&mut self.search, basin, roll, month, next, rest, helped);
    }

    /// The month with what was found in it, as it is put into a list.
    pub fn calls<'a>(
        &'a self,
        basin: &'a Basin,
        roll: &'a Roll,
        month: &'a MonthRecord,
    ) -> MonthCalls<'a>
        requires basin { IsValidBasin basin.now }
        requires roll { IsRollOf basin.now.rights roll.now }
        requires month { FitsText basin.now month.now }
        requires found { IsFoundIn basin.now month.now self.now.found }
        ensures basin { result.basin ≡ basin.now }
        ensures roll { result.roll ≡ roll.now }
        ensures month { result.month ≡ month.now }
        ensures found { result.found ≡ self.now.found }
    {
        MonthCalls {
            basin,
            roll,
            month,
            next: self.next.as_slice(),
            helped: self.helped.as_slice(),
        }
    }
}
