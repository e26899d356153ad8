//! The names of operations on words.

ghost use Rattle.std.specs.Prelude.{◌≡◌, IfSome};
ghost use Rattle.g_text.specs.Ops.{binary_name, unary_name};

use val_core::{Op1, Op2};

const BINARY: [Op2; 17] = [
    Op2::Add,
    Op2::Sub,
    Op2::Mul,
    Op2::Div,
    Op2::Rem,
    Op2::Divu,
    Op2::Remu,
    Op2::And,
    Op2::Or,
    Op2::Xor,
    Op2::Sll,
    Op2::Srl,
    Op2::Sra,
    Op2::Eq,
    Op2::Ne,
    Op2::Slt,
    Op2::Sltu,
];

const UNARY: [Op1; 4] = [Op1::Sext8, Op1::Zext8, Op1::Sext16, Op1::Zext16];

/// The name of an operation on two words.
pub const fn binary_name(op: Op2) -> &'static str
    ensures { result.now ≡ binary_name op }
{
    match op {
        Op2::Add => "Add",
        Op2::Sub => "Sub",
        Op2::Mul => "Mul",
        Op2::Div => "Div",
        Op2::Rem => "Rem",
        Op2::Divu => "Divu",
        Op2::Remu => "Remu",
        Op2::And => "And",
        Op2::Or => "Or",
        Op2::Xor => "Xor",
        Op2::Sll => "Sll",
        Op2::Srl => "Srl",
        Op2::Sra => "Sra",
        Op2::Eq => "Eq",
        Op2::Ne => "Ne",
        Op2::Slt => "Slt",
        Op2::Sltu => "Sltu",
    }
}

/// The name of an operation on one word.
pub const fn unary_name(op: Op1) -> &'static str
    ensures { result.now ≡ unary_name op }
{
    match op {
        Op1::Sext8 => "Sext8",
        Op1::Zext8 => "Zext8",
        Op1::Sext16 => "Sext16",
        Op1::Zext16 => "Zext16",
    }
}

/// The operation on two words of this name; none where no operation has it.
pub fn binary_named(name: &str) -> Option<Op2>
    ensures { IfSome result (λ op. name.now ≡ binary_name op) }
{
    for op in &BINARY {
        if binary_name(*op) == name {
            return Some(*op);
        }
    }
    None
}

/// The operation on one word of this name; none where no operation has it.
pub fn unary_named(name: &str) -> Option<Op1>
    ensures { IfSome result (λ op. name.now ≡ unary_name op) }
{
    for op in &UNARY {
        if unary_name(*op) == name {
            return Some(*op);
        }
    }
    None
}
