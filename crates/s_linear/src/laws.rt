//! Laws of linear code, for the proofs of the crates above: each is the contract of a function that
//! does nothing.

ghost use Rattle.s_linear.specs.Laws.{LabelsAreMarkedOnce, LinesGoToLabels};

/// Each label below their number is marked once, and no other.
pub fn labels_are_marked_once()
    ensures { LabelsAreMarkedOnce }
{}

/// Each line that goes to a label goes to one below their number.
pub fn lines_go_to_labels()
    ensures { LinesGoToLabels }
{}
