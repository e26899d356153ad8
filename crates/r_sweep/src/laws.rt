//! Laws of lists of nodes and their changes.

ghost use Rattle.r_sweep.specs.Laws.{NodesGo, ExitsGo, EntriesGo, VariablesGo, UsesMove};

/// A node that gives no state, and whose outputs have no use, goes from the list as it goes from
/// the region that holds it.
pub fn nodes_go()
    ensures { NodesGo }
{}

/// Exit and entry variables of a Gamma go from the list, from the last to the first, as they go
/// from the region that holds it.
pub fn gamma_variables_go()
    ensures exits { ExitsGo }
    ensures entries { EntriesGo }
{}

/// Loop variables of a Theta go from the list, from the last to the first, as they go from the
/// region that holds it.
pub fn loop_variables_go()
    ensures { VariablesGo }
{}

/// Uses of an origin move in the list, one by one, as they move in the region that holds a node.
pub fn uses_move()
    ensures { UsesMove }
{}
