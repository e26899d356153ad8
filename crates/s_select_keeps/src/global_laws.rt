//! Laws of the memory of the globals, for the proofs of the crates above: each is the contract of a
//! function that does nothing.

ghost use Rattle.s_select_keeps.specs.Globals.{GlobalsAreShown, GlobalsHaveBlocks};

/// As a program begins, the bytes of its loaded image show the memory of its globals: each block
/// stands where its global does, its leaves hold the bytes that the program gives or the addresses
/// that its links name, and only a global that is not fixed may be written. Blocks are apart from
/// one another, from the stack and from the buffer of the stubs.
pub fn globals_are_shown()
    ensures shown { GlobalsAreShown }
    ensures blocks { GlobalsHaveBlocks }
{}
