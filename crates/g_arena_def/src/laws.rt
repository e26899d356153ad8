//! Laws of lists of nodes.

ghost use Rattle.g_arena_def.specs.Laws.{FlatIsOfOneLambda};

/// Two lambdas, in each of which no number stands twice, are one where their lists of nodes are.
pub fn flat_is_of_one_lambda()
    ensures { FlatIsOfOneLambda }
{}
