//! Worked networks. The greatest flows and the greatest tight cuts were worked out by hand, as the comments say.
//!
//! Basin nodes are 0, 1, .. and the outside node comes after them. Each arc that is raised leads there.
ghost use Rattle.std.specs.Prelude.{◌≢◌, ◌<◌, ◌≤◌, ◌↔◌, All, IfOk, IsTrue};
ghost use Rattle.circulation.specs.Contents.{Contents, arcs, network};
ghost use Rattle.circulation.specs.Places.{HasWords, Holds};
ghost use Rattle.augment.specs.Raised.{HasPathOut};
ghost use Rattle.residual_tree.specs.Raised.{IsExit};

use augment::Raised;
use circulation::{Circulation, CirculationMut, Ends, words};
use std::alloc::{AllocError, Global};
use std::process::Abort;
use word_region::{Full, Region};

/// The upper bound of a river or an outlet.
const OPEN: u64 = 1_000_000_000_000_000;

/// An arc with its tail, its head, its upper bound and its first flow.
pub struct Arc(pub u32, pub u32, pub u64, pub u64);

/// A raise of an arc to an amount, what it answers, and the flow on the arc afterwards, which is then held.
pub struct Turn(pub u32, pub u64, pub Raised, pub u64);

/// A network, holds of amounts on arcs, raises in turn, and what they leave.
pub struct Case {
    pub name: &'static str,
    pub supply: &'static [u64],
    pub arcs: &'static [Arc],
    pub held: &'static [(u32, u64)],
    pub turns: &'static [Turn],
    /// By basin node, whether the last search came to it; empty after Met.
    pub reached: &'static [bool],
    /// By arc, the flows that are left; empty where several flows are as good.
    pub flows: &'static [u64],
}

static CASES: [Case; 14] = [
    // All 20 are wanted. Node 0 has its own 10, so those of node 1 have to go through the canal to node 2.
    Case {
        name: "the junior needs the senior's water to go the other way",
        supply: &[10, 10, 0, 0],
        arcs: &[
            Arc(0, 3, OPEN, 10),
            Arc(1, 3, OPEN, 10),
            Arc(2, 3, OPEN, 0),
            Arc(0, 2, 31, 0),
            Arc(1, 2, 31, 0),
            Arc(2, 4, 10, 0),
            Arc(0, 4, 10, 0),
            Arc(3, 4, OPEN, 20),
        ],
        held: &[],
        turns: &[Turn(5, 10, Raised::Met, 10), Turn(6, 10, Raised::Met, 10)],
        reached: &[],
        flows: &[0, 0, 0, 0, 10, 10, 10, 0],
    },
    // {0, 1} and {0, 1, 2} have the supply of 50 alone, so both are tight. {1} lets in the open river.
    Case {
        name: "a river is short as a whole",
        supply: &[50, 0, 0],
        arcs: &[
            Arc(0, 1, OPEN, 50),
            Arc(1, 2, OPEN, 50),
            Arc(1, 3, 60, 0),
            Arc(0, 3, 50, 0),
            Arc(2, 3, OPEN, 50),
        ],
        held: &[],
        turns: &[Turn(2, 60, Raised::Stopped, 50)],
        reached: &[false, false, false],
        flows: &[50, 0, 50, 0, 0],
    },
    Case {
        name: "the flow is what is wanted, or more, already",
        supply: &[10],
        arcs: &[Arc(0, 1, 10, 4), Arc(0, 1, OPEN, 6)],
        held: &[],
        turns: &[Turn(0, 4, Raised::Met, 4), Turn(0, 3, Raised::Met, 4)],
        reached: &[],
        flows: &[4, 6],
    },
    Case {
        name: "thirty phases",
        supply: &[1_000_000_000, 0],
        arcs: &[
            Arc(0, 1, OPEN, 1_000_000_000),
            Arc(0, 2, 1_000_000_000, 0),
            Arc(1, 2, OPEN, 1_000_000_000),
        ],
        held: &[],
        turns: &[Turn(1, 1_000_000_000, Raised::Met, 1_000_000_000)],
        reached: &[],
        flows: &[0, 1_000_000_000, 0],
    },
    // {0}: a supply of 9, and nothing enters or is held.
    Case {
        name: "parallel arcs give up their water one after another",
        supply: &[9],
        arcs: &[Arc(0, 1, 12, 0), Arc(0, 1, 4, 4), Arc(0, 1, OPEN, 5)],
        held: &[],
        turns: &[Turn(0, 12, Raised::Stopped, 9)],
        reached: &[false],
        flows: &[9, 0, 0],
    },
    // {0}: a supply of 9, less the 6 that the senior holds.
    Case {
        name: "the senior's amount is held",
        supply: &[9],
        arcs: &[Arc(0, 1, 6, 0), Arc(0, 1, 10, 0), Arc(0, 1, OPEN, 9)],
        held: &[],
        turns: &[Turn(0, 6, Raised::Met, 6), Turn(1, 10, Raised::Stopped, 3)],
        reached: &[false],
        flows: &[6, 3, 0],
    },
    // {1}: nothing enters over the shut canal. {0, 1} has 8.
    Case {
        name: "a shut canal",
        supply: &[8, 0],
        arcs: &[Arc(0, 1, 0, 0), Arc(0, 2, OPEN, 8), Arc(1, 2, 5, 0)],
        held: &[],
        turns: &[Turn(2, 5, Raised::Stopped, 0)],
        reached: &[true, false],
        flows: &[0, 8, 0],
    },
    // {0}: a supply of 10, less the 4 that stay in the river. {0, 1} has 10.
    Case {
        name: "an amount is held in the river",
        supply: &[10, 0],
        arcs: &[Arc(0, 1, OPEN, 10), Arc(0, 2, 9, 0), Arc(1, 2, OPEN, 10)],
        held: &[(0, 4)],
        turns: &[Turn(1, 9, Raised::Stopped, 6)],
        reached: &[false, true],
        flows: &[4, 6, 4],
    },
    // {2}: its own 1 and the canal's 3. {1, 2} lets in the open river, {0, 2} has 5 and the 3, {0, 1, 2} has 9.
    Case {
        name: "a narrow canal",
        supply: &[4, 4, 1],
        arcs: &[
            Arc(0, 1, OPEN, 0),
            Arc(1, 2, 3, 0),
            Arc(0, 3, OPEN, 4),
            Arc(1, 3, OPEN, 4),
            Arc(2, 3, OPEN, 1),
            Arc(2, 3, 10, 0),
        ],
        held: &[],
        turns: &[Turn(5, 10, Raised::Stopped, 4)],
        reached: &[true, true, false],
        flows: &[],
    },
    // Nothing leads from node 1. {0} and {0, 1} have 6 each, so the greatest tight cut holds node 1 too.
    Case {
        name: "a node from which nothing leads",
        supply: &[6, 0],
        arcs: &[Arc(0, 1, 9, 0), Arc(0, 2, 8, 0), Arc(0, 2, OPEN, 6)],
        held: &[],
        turns: &[Turn(1, 8, Raised::Stopped, 6)],
        reached: &[false, false],
        flows: &[0, 6, 0],
    },
    // {1} lets in the canal's 3, and {0, 1} has the supply of 3: both are tight, and the second is the greatest.
    Case {
        name: "two tight cuts",
        supply: &[3, 0],
        arcs: &[Arc(0, 1, 3, 0), Arc(1, 2, 9, 0), Arc(0, 2, OPEN, 3)],
        held: &[],
        turns: &[Turn(1, 9, Raised::Stopped, 3)],
        reached: &[false, false],
        flows: &[3, 3, 0],
    },
    // {1} lets in 5 over the one canal, whatever the other takes back. {0, 1} has 8.
    Case {
        name: "canals both ways",
        supply: &[8, 0],
        arcs: &[
            Arc(0, 1, 5, 1),
            Arc(1, 0, 5, 1),
            Arc(1, 2, 6, 0),
            Arc(0, 2, OPEN, 8),
        ],
        held: &[],
        turns: &[Turn(2, 6, Raised::Stopped, 5)],
        reached: &[true, false],
        flows: &[5, 0, 5, 3],
    },
    Case {
        name: "no water",
        supply: &[0],
        arcs: &[Arc(0, 1, 5, 0), Arc(0, 1, OPEN, 0)],
        held: &[],
        turns: &[Turn(0, 5, Raised::Stopped, 0)],
        reached: &[false],
        flows: &[0, 0],
    },
    // The user at node 1 may fall to the 2 that are held. {0, 1} has a supply of 6, less these 2; {0} has 5.
    Case {
        name: "water comes back over two arcs",
        supply: &[5, 1],
        arcs: &[Arc(0, 1, 5, 5), Arc(1, 2, 6, 6), Arc(0, 2, 5, 0)],
        held: &[(1, 2)],
        turns: &[Turn(2, 5, Raised::Stopped, 4)],
        reached: &[false, false],
        flows: &[1, 2, 4],
    },
];

/// The worked networks. A proof reads them here alone.
pub fn cases() -> &'static [Case] {
    &CASES
}

/// Whether arcs with these ends may be opened.
pub fn are_ends(nodes: u32, ends: &[Ends]) -> bool
    ensures { IsTrue result ↔ All (λ e. (e.from ≤ nodes) × (e.to ≤ nodes) × (e.from ≢ e.to)) ends.now }
{
    ends.iter()
        .all(|e| e.from <= nodes && e.to <= nodes && e.from != e.to)
}

/// Whether an arc leads to the outside node, so that its way out has no arcs and no exit is needed.
pub fn leads_outside(circ: &CirculationMut<'_>, arc: u32) -> bool
    requires { arc < arcs circ.now }
    ensures path_out { IsTrue result → HasPathOut (network circ.now) arc }
    ensures exit { IsTrue result → IsExit circ.now arc arc }
{
    circ.ends(arc).to == circ.nodes()
}

/// The ends of arcs.
fn ends_of(alloc: Global, arcs: &[Arc]) -> Result<Vec<Ends>, AllocError> {
    let mut ends = Vec::new(alloc);
    for arc in arcs {
        ends.push(Ends {
            from: arc.0,
            to: arc.1,
        })?;
    }
    Ok(ends)
}

/// The upper bounds of arcs.
fn uppers_of(alloc: Global, arcs: &[Arc]) -> Result<Vec<u64>, AllocError> {
    let mut upper = Vec::new(alloc);
    for arc in arcs {
        upper.push(arc.2)?;
    }
    Ok(upper)
}

/// The first flows of arcs.
fn starts_of(alloc: Global, arcs: &[Arc]) -> Result<Vec<u64>, AllocError> {
    let mut start = Vec::new(alloc);
    for arc in arcs {
        start.push(arc.3)?;
    }
    Ok(start)
}

/// A circulation, and the region of exactly its words in which it lies.
#[derive(Drop)]
pub struct Laid {
    pub region: Region,
    pub circ: Circulation,
}

/// The circulation of a case.
pub fn open<R: Abort>(rt: &R, alloc: Global, case: &Case) -> Result<Laid, AllocError>
    ensures { IfOk result (λ laid. (c : Contents) × Holds laid.region laid.circ c) }
{
    let ends = ends_of(alloc, case.arcs)?;
    assert!(rt; case.supply.len() < 10 && ends.len() < 10);
    let nodes = case.supply.len() as u32;
    assert!(rt; are_ends(nodes, &ends));
    let mut region = Region::open(alloc, words(nodes, ends.len() as u32))?;
    match Circulation::open(nodes, &ends, &mut region) {
        Ok(circ) => Ok(Laid { region, circ }),
        Err(Full) => panic!(rt; "the region of {}", case.name),
    }
}

/// Lends a circulation the words of its place.
pub fn lend<'r>(circ: &Circulation, words: &'r mut [u64]) -> CirculationMut<'r>
    requires { (c : Contents) × HasWords circ.now c words.old }
{
    let (fixed, moving) = words.split_at_mut(circ.fixed());
    circ.lend(fixed, moving)
}

/// Brings the circulation of a case to its start.
pub fn begin<R: Abort>(
    rt: &R,
    alloc: Global,
    circ: &mut CirculationMut<'_>,
    case: &Case,
) -> Result<(), AllocError> {
    let upper = uppers_of(alloc, case.arcs)?;
    let start = starts_of(alloc, case.arcs)?;
    assert!(rt; circ.is_start(case.supply, &upper, &start), "{}", case.name);
    circ.begin_month(case.supply, &upper, &start);
    Ok(())
}

/// Holds an amount on an arc.
pub fn hold<R: Abort>(rt: &R, circ: &mut CirculationMut<'_>, arc: u32, amount: u64) {
    assert!(rt; arc < circ.arcs());
    assert!(rt; amount <= circ.flow(arc));
    circ.hold(arc, amount);
}

/// Holds the amounts that a case holds from its start.
pub fn hold_all<R: Abort>(rt: &R, circ: &mut CirculationMut<'_>, case: &Case) {
    for (arc, amount) in case.held {
        hold(rt, circ, *arc, *amount);
    }
}

/// Compares the flows that are left.
pub fn compare_flows<R: Abort>(rt: &R, circ: &CirculationMut<'_>, case: &Case) {
    for (arc, flow) in case.flows.iter().enumerate() {
        assert!(rt; arc < circ.arcs() as usize);
        assert!(rt;
            circ.flow(arc as u32) == *flow,
            "{} on arc {arc}",
            case.name
        );
    }
}
