//! Laws over rolls of rights. Each is the contract of a function that does nothing.
ghost use Rattle.rights_roll.specs.Laws.{SeniorsComeFirst, SoundRollsHaveNoFault};

/// The list of rights by seniority has every right once, seniors first.
pub fn seniors_come_first()
    ensures { SeniorsComeFirst }
{}

/// Rights and return rows are a sound roll exactly where they have no fault. So [`crate::roll::Roll::build`] answers a
/// roll exactly for the sound ones, and for all others their first fault, except where memory runs out.
pub fn sound_rolls_have_no_fault()
    ensures { SoundRollsHaveNoFault }
{}
