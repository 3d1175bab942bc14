//! Laws over shares. Each is the contract of a function that does nothing.
ghost use Rattle.stored_water.specs.ShareLaws.{SharesSumUp, SharesFit, SharesAreInProportion, OrderChangesNoSum};

/// The parts of an amount sum to it, unless all weights are 0.
pub fn shares_sum_up()
    ensures { SharesSumUp }
{}

/// Of an amount that is at most the sum of the weights, no part is above its weight.
pub fn shares_fit()
    ensures { SharesFit }
{}

/// A part is less than one unit away from its exact proportion.
pub fn shares_are_in_proportion()
    ensures { SharesAreInProportion }
{}

/// The order of the weights doesn't change the sum of the parts.
pub fn order_changes_no_sum()
    ensures { OrderChangesNoSum }
{}
