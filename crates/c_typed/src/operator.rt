//! The operators of typed expressions.

use val_core::Op2;

/// A comparison (ISO/IEC 9899:2011, 6.5.8, 6.5.9). Its operands have one type, which says whether
/// it is of signed numbers, of unsigned numbers or of addresses.
#[derive(Clone, Copy, PartialEq, Eq, Debug)]
pub enum Relation {
    Less,
    Greater,
    LessEqual,
    GreaterEqual,
    Equal,
    NotEqual,
}

/// What is done with one operand, which is always evaluated.
#[derive(Clone, Copy, PartialEq, Eq, Debug)]
pub enum UnaryOp {
    /// A conversion to the type of the expression (6.3.1, 6.3.2.3).
    Convert,
    /// A cast to `void` (6.5.4).
    Discard,
    /// `-` (6.5.3.3).
    Negate,
    /// `~`.
    Complement,
    /// `!` of an integer or a pointer.
    LogicalNot,
    /// A call of `putchar` (7.21.7.8).
    Put,
    /// A call of `exit` (7.22.4.4).
    Exit,
}

/// What is done with two operands, which are evaluated from left to right. Sizes are in bytes.
#[derive(Clone, Copy, PartialEq, Eq, Debug)]
pub enum BinaryOp {
    /// An operation on two numbers of the type of the expression; the right operand of a shift has
    /// a type of its own (6.5.5 to 6.5.7, 6.5.10 to 6.5.12).
    Arithmetic(Op2),
    Compare(Relation),
    /// A pointer plus an integer, with the size of the pointed type (6.5.6).
    PointerPlus(u32),
    /// An integer plus a pointer.
    IntegerPlus(u32),
    /// A pointer minus an integer.
    PointerMinus(u32),
    /// A pointer minus a pointer, in elements of this size.
    PointerDifference(u32),
}

/// The operation of a compound assignment (6.5.16.2).
#[derive(Clone, Copy, PartialEq, Eq, Debug)]
pub enum CompoundOp {
    /// An operation in `unsigned int` or `int`: the old value is converted to that type first.
    Arithmetic { op: Op2, unsigned: bool },
    /// A pointer, moved up by elements of so many bytes.
    PointerPlus(u32),
    /// A pointer, moved down by elements of so many bytes.
    PointerMinus(u32),
}

/// `++` or `--` (6.5.2.4, 6.5.3.1): whether it goes up, whether its value is the old one (it stands
/// after its operand), and by how much: 1, or the size of the pointed type in bytes.
#[derive(Clone, Copy, PartialEq, Eq, Debug)]
pub struct IncDec {
    pub up: bool,
    pub gives_old: bool,
    pub by: u32,
}
