//! The law of depths, as the contract of a function that does nothing.

ghost use Rattle.cc_view.specs.Laws.{StacksAreBounded};

/// Where `main` has a depth, no run of the program has a stack of more bytes.
pub fn stacks_are_bounded()
    ensures { StacksAreBounded }
{}
