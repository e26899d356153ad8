//! Laws of the edits.

ghost use Rattle.r_edit.specs.Laws.{UnreadNodesGo, UnreadExitsGo, UnreadEntriesGo, UnreadExitsAndEntriesGo, UnreadVariablesGo, LoopsKeepArguments};
ghost use Rattle.r_edit.specs.Parts.{PlacedPartsRefine};
ghost use Rattle.r_edit.specs.Carried.{CarriedExitsGo, CarriedUsesMove};

/// A part may come in the place of a node of a region, also one of the node's own number, where it
/// refines the node as far as its outputs are read.
pub fn placed_parts_refine()
    ensures { PlacedPartsRefine }
{}

/// A node that gives no state, and none of whose outputs is read, may go.
pub fn unread_nodes_go()
    ensures { UnreadNodesGo }
{}

/// Exit variables of a Gamma whose outputs are not read may go, entry variables whose arguments no
/// region reads, and the first and then the second.
pub fn unread_exits_and_entries_go()
    ensures exits { UnreadExitsGo }
    ensures entries { UnreadEntriesGo }
    ensures both { UnreadExitsAndEntriesGo }
{}

/// Loop variables of a Theta may go whose outputs are not read, and whose arguments only results
/// that go read.
pub fn unread_variables_go()
    ensures { UnreadVariablesGo }
{}

/// A loop gives a variable whose result is its argument as it took it.
pub fn loops_keep_arguments()
    ensures { LoopsKeepArguments }
{}

/// Exit variables of a Gamma that carry one origin in every region may go, where their uses become
/// its uses, and uses of outputs of a Theta may become uses of inputs that it keeps.
pub fn carried_uses_move()
    ensures exits { CarriedExitsGo }
    ensures uses { CarriedUsesMove }
{}
