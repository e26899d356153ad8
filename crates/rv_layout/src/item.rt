//! The items of a function: instructions, and what becomes instructions once addresses are known.

use rv_isa::Instr;

/// An item of a function: an instruction, or what becomes instructions once addresses are known.
#[derive(Clone, Copy, PartialEq, Eq, Debug)]
pub enum Item {
    /// An instruction.
    Word(Instr),
    /// The place of a label, which takes no bytes.
    Mark(u32),
    /// A jump to a label of the same function.
    Jump(u32),
    /// A call of a function by its number.
    Call(u32),
    /// A call of a stub: 0 puts the byte in a0, and 1 gets a byte to a0.
    Stub(u8),
    /// The address of a global, by its number, into a register.
    Address(u8, u32),
}
