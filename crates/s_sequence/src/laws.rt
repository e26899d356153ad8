//! Laws of the linear code of a lambda, for the proofs of the crates above: each is the contract of
//! a function that does nothing.

ghost use Rattle.s_sequence.specs.Laws.{NamesAreBelow, WidthsFit, ObjectsAreThere, GlobalsAreThere, CallsKeepArguments, ParamsAreFirst};

/// Each name is below the number of the lambda's values.
pub fn names_are_below()
    ensures { NamesAreBelow }
{}

/// Each width is 1, 2 or 4.
pub fn widths_fit()
    ensures { WidthsFit }
{}

/// Each object that is named is one of the lambda's.
pub fn objects_are_there()
    ensures { ObjectsAreThere }
{}

/// Each global that is named is one of so many, where those of the lambda's nodes are.
pub fn globals_are_there()
    ensures { GlobalsAreThere }
{}

/// A call has two arguments fewer than its Apply has inputs.
pub fn calls_keep_arguments()
    ensures { CallsKeepArguments }
{}

/// The parameters of a well-formed lambda have the first names, in order, and the names of its nodes
/// come after them.
pub fn params_are_first()
    ensures { ParamsAreFirst }
{}
