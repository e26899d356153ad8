//! Laws of calls and orders: each is the contract of a function that does nothing.

ghost use Rattle.g_pass_order.specs.Laws.{CompleteListsKnowCalls, OrdersAreRanked, OrdersAreUnique};

use call_order::laws::{callee_ranks_below, units_are_unique};

/// In a complete list each function that is called is there, as `order` asks.
pub fn complete_lists_know_calls()
    ensures { CompleteListsKnowCalls }
{}

/// An order has a rank and deps for each lambda, and each dep has a smaller rank; a list has no two
/// orders.
pub fn orders_are_unique()
    ensures ranked { OrdersAreRanked }
    ensures unique { OrdersAreUnique }
{
    callee_ranks_below();
    units_are_unique();
}
