//! Laws of what programs and their graphs do, for the proofs of the crates above: each is the
//! contract of a function that does nothing.

ghost use Rattle.g_build_keeps.specs.Exits.{StatementsEndByTheirExits, ItemsEndByTheirExits};
ghost use Rattle.g_build_keeps.specs.Laws.{ConstructionKeepsMeaning, ConstructionKeepsPrograms};

/// A statement ends normally, or by a jump that stands in it and leaves it, and so does a list of
/// items.
pub fn statements_end_by_their_exits()
    ensures statements { StatementsEndByTheirExits }
    ensures items { ItemsEndByTheirExits }
{}

/// The graph of a well-typed program, each `switch` of which has fewer than 2^32 groups, does what
/// the program does. Of each call that no bound makes undefined (ISO/IEC 9899:2011, 3.4.3), on
/// sound values and a sound memory: each bounded run of the function is within a run of its lambda
/// at some bound, and each bounded run of the lambda is within a run of the function at some bound,
/// with the same output, memory and rest of the input, a value that may stand for that of the
/// function, and stacks of calls no deeper.
pub fn construction_keeps_meaning()
    ensures { ConstructionKeepsMeaning }
{
    c_type::laws::leaves_are_in_order();
}

/// The graph of a well-typed program, each `switch` of which has fewer than 2^32 groups, with its
/// globals and names, does what the program does from its start (ISO/IEC 9899:2011, 5.1.2.2). On
/// every input of bytes on which no bound makes the program undefined: each bounded run of the
/// program is within a run of the graph at some bound, and each bounded run of the graph is within
/// a run of the program at some bound, with the same output and status, and stacks of calls no
/// deeper. So no run of the graph is undefined.
pub fn construction_keeps_programs()
    ensures { ConstructionKeepsPrograms }
{
    c_type::laws::leaves_are_in_order();
    crate::graph_laws::well_typed_are_built();
}
