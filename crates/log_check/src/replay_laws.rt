//! Laws of logs whose steps are replayed, each the contract of a function that does nothing.

ghost use Rattle.log_check.specs.ReplayLaws.{OneReplayFault, RightAreUnique, RightHaveNoFault, RightOrFaulty, SweepsReplay};

use g_pass_def::laws::{recipes_are_steps, replayed_keep_lists};
use g_pass_order::laws::orders_are_unique;
use g_pass_order::order_laws::orders_exist;

/// A log is right or has a fault, out of memory apart: never both, and never two. It makes one list
/// of lambdas at most.
pub fn faults_are_first()
    ensures one { OneReplayFault }
    ensures none { RightHaveNoFault }
    ensures some { RightOrFaulty }
    ensures unique { RightAreUnique }
{
    orders_are_unique();
    orders_exist();
    replayed_keep_lists();
}

/// A sweep makes of a lambda what its steps make of it, one after the other.
pub fn sweeps_replay()
    ensures { SweepsReplay }
{
    recipes_are_steps();
}
