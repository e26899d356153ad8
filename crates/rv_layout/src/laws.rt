//! Laws of layouts, for the proofs of the crates above: each is the contract of a function that
//! does nothing.

ghost use Rattle.rv_layout.specs.Laws.{LaidIsPlaced};

/// Where memory up to the end of the stack is within the limit, the sections stand where a file
/// wants them.
pub fn laid_is_placed()
    ensures { LaidIsPlaced }
{}
