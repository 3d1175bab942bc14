//! Laws over the definitions. Each is the contract of a function that does nothing.
ghost use Rattle.residual_tree.specs.Laws.{LabeledIsReachable, UnlabeledIsGreatestCut, CutStaysWhenHeld};

/// In a residual tree exactly those nodes are labeled to which walks with room lead from the outside.
pub fn labeled_is_reachable()
    ensures { LabeledIsReachable }
{}

/// The unlabeled nodes are the greatest tight cut of an arc from an unlabeled node to one that is labeled.
pub fn unlabeled_is_greatest_cut()
    ensures { UnlabeledIsGreatestCut }
{}

/// The greatest tight cut of an arc does not depend on what is held on the arc.
pub fn cut_stays_when_held()
    ensures { CutStaysWhenHeld }
{}
