//! The law of offsets, as the contract of a function that does nothing.

ghost use Rattle.cc_source.specs.Offset.{LinesAreOfOffsets};

/// The line of a refusal is that of the offset of the fault.
pub fn lines_are_of_offsets()
    ensures { LinesAreOfOffsets }
{}
