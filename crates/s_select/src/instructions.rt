//! The instructions of operations, once their operands are in registers.

ghost use Rattle.std.specs.Prelude.{◌≡◌, ◌<◌, ◌++◌, OnOk};
ghost use Rattle.s_select.specs.Templates.{binary_code, binary_instr, load_instr, store_instr, unary_code, words};

use crate::operands::push_words;
use rv_isa::{Imm12, Instr, Reg, Shamt};
use rv_layout::Item;
use std::alloc::AllocError;
use val_core::{Op1, Op2};

/// The instruction of an operation, and for a test of equality the difference.
fn binary_instr(op: Op2, rd: Reg, rs1: Reg, rs2: Reg) -> Instr
    ensures { result ≡ binary_instr op rd rs1 rs2 }
{
    match op {
        Op2::Add => Instr::Add { rd, rs1, rs2 },
        Op2::Sub | Op2::Eq | Op2::Ne => Instr::Sub { rd, rs1, rs2 },
        Op2::Mul => Instr::Mul { rd, rs1, rs2 },
        Op2::Div => Instr::Div { rd, rs1, rs2 },
        Op2::Rem => Instr::Rem { rd, rs1, rs2 },
        Op2::Divu => Instr::Divu { rd, rs1, rs2 },
        Op2::Remu => Instr::Remu { rd, rs1, rs2 },
        Op2::And => Instr::And { rd, rs1, rs2 },
        Op2::Or => Instr::Or { rd, rs1, rs2 },
        Op2::Xor => Instr::Xor { rd, rs1, rs2 },
        Op2::Sll => Instr::Sll { rd, rs1, rs2 },
        Op2::Srl => Instr::Srl { rd, rs1, rs2 },
        Op2::Sra => Instr::Sra { rd, rs1, rs2 },
        Op2::Slt => Instr::Slt { rd, rs1, rs2 },
        Op2::Sltu => Instr::Sltu { rd, rs1, rs2 },
    }
}

/// The instructions of an operation with two operands.
pub fn push_binary_code(
    items: &mut Vec<Item>,
    op: Op2,
    rd: Reg,
    left: Reg,
    right: Reg,
) -> Result<(), AllocError>
    ensures { OnOk result (items.new.items ≡ items.old.items ++ words (binary_code op rd left
        right)) }
{
    let first = binary_instr(op, rd, left, right);
    match op {
        Op2::Eq => {
            let test = Instr::Sltiu {
                rd,
                rs1: rd,
                imm: Imm12::new(1),
            };
            push_words(items, &[first, test])
        }
        Op2::Ne => {
            let test = Instr::Sltu {
                rd,
                rs1: Reg::ZERO,
                rs2: rd,
            };
            push_words(items, &[first, test])
        }
        _ => push_words(items, &[first]),
    }
}

/// The instructions of an operation with one operand.
pub fn push_unary_code(
    items: &mut Vec<Item>,
    op: Op1,
    rd: Reg,
    input: Reg,
) -> Result<(), AllocError>
    ensures { OnOk result (items.new.items ≡ items.old.items ++ words (unary_code op rd input)) }
{
    match op {
        Op1::Zext8 => {
            let mask = Instr::Andi {
                rd,
                rs1: input,
                imm: Imm12::new(255),
            };
            push_words(items, &[mask])
        }
        Op1::Sext8 => push_words(items, &[shift_left(rd, input, 24), sign_fill(rd, 24)]),
        Op1::Sext16 => push_words(items, &[shift_left(rd, input, 16), sign_fill(rd, 16)]),
        Op1::Zext16 => {
            let fill = Instr::Srli {
                rd,
                rs1: rd,
                shamt: Shamt::new(16),
            };
            push_words(items, &[shift_left(rd, input, 16), fill])
        }
    }
}

fn shift_left(rd: Reg, input: Reg, bits: u32) -> Instr
    requires { bits < 32 }
    ensures { result ≡ Instr.Slli rd input bits }
{
    Instr::Slli {
        rd,
        rs1: input,
        shamt: Shamt::new(bits),
    }
}

fn sign_fill(rd: Reg, bits: u32) -> Instr
    requires { bits < 32 }
    ensures { result ≡ Instr.Srai rd rd bits }
{
    Instr::Srai {
        rd,
        rs1: rd,
        shamt: Shamt::new(bits),
    }
}

/// A load of so many bytes, zero-extended: 1, 2 or else 4.
pub fn load_instr(width: u8, rd: Reg, address: Reg) -> Instr
    ensures { result ≡ load_instr width rd address }
{
    let (rs1, offset) = (address, Imm12::new(0));
    if width == 1 {
        Instr::Lbu { rd, rs1, offset }
    } else if width == 2 {
        Instr::Lhu { rd, rs1, offset }
    } else {
        Instr::Lw { rd, rs1, offset }
    }
}

/// A store of so many bytes: 1, 2 or else 4.
pub fn store_instr(width: u8, address: Reg, value: Reg) -> Instr
    ensures { result ≡ store_instr width address value }
{
    let (rs1, rs2, offset) = (address, value, Imm12::new(0));
    if width == 1 {
        Instr::Sb { rs1, rs2, offset }
    } else if width == 2 {
        Instr::Sh { rs1, rs2, offset }
    } else {
        Instr::Sw { rs1, rs2, offset }
    }
}
