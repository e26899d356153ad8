//! The operations, by name: on two words, and on one.

/// An operation on two words.
#[derive(Clone, Copy, PartialEq, Eq, Hash, Debug)]
pub enum Op2 {
    Add,
    Sub,
    Mul,
    /// The signed quotient, rounded toward zero.
    Div,
    /// The signed remainder, of the dividend's sign.
    Rem,
    Divu,
    Remu,
    And,
    Or,
    Xor,
    Sll,
    Srl,
    /// The arithmetic right shift.
    Sra,
    Eq,
    Ne,
    /// Whether the first is less, both read as signed.
    Slt,
    Sltu,
}

/// An operation on one word.
#[derive(Clone, Copy, PartialEq, Eq, Hash, Debug)]
pub enum Op1 {
    Sext8,
    Zext8,
    Sext16,
    Zext16,
}
