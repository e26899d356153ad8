//! The instructions, each with its fields.

use crate::immediates::{BranchOffset, Imm12, JumpOffset, Shamt, Upper};
use crate::registers::Reg;

/// An instruction of RV32IM: the base set RV32I with the extension M (RISC-V Unprivileged ISA
/// 20191213, chapters 2 and 7).
///
/// Each field is of a type that holds what the instruction's format can hold, and no more.
#[derive(Clone, Copy, PartialEq, Eq, Debug)]
pub enum Instr {
    /// Load upper immediate: `rd` becomes `imm` times 4096.
    Lui {
        rd: Reg,
        imm: Upper,
    },
    /// Add upper immediate to pc.
    Auipc {
        rd: Reg,
        imm: Upper,
    },
    /// Jump and link; the offset is from this instruction's own address.
    Jal {
        rd: Reg,
        offset: JumpOffset,
    },
    /// Jump and link to `rs1` plus `offset`, bit 0 cleared.
    Jalr {
        rd: Reg,
        rs1: Reg,
        offset: Imm12,
    },
    /// Branch where equal.
    Beq {
        rs1: Reg,
        rs2: Reg,
        offset: BranchOffset,
    },
    /// Branch where not equal.
    Bne {
        rs1: Reg,
        rs2: Reg,
        offset: BranchOffset,
    },
    /// Branch where less, signed.
    Blt {
        rs1: Reg,
        rs2: Reg,
        offset: BranchOffset,
    },
    /// Branch where not less, signed.
    Bge {
        rs1: Reg,
        rs2: Reg,
        offset: BranchOffset,
    },
    /// Branch where less, unsigned.
    Bltu {
        rs1: Reg,
        rs2: Reg,
        offset: BranchOffset,
    },
    /// Branch where not less, unsigned.
    Bgeu {
        rs1: Reg,
        rs2: Reg,
        offset: BranchOffset,
    },
    /// Load a byte, sign-extended.
    Lb {
        rd: Reg,
        rs1: Reg,
        offset: Imm12,
    },
    /// Load a halfword, sign-extended.
    Lh {
        rd: Reg,
        rs1: Reg,
        offset: Imm12,
    },
    /// Load a word.
    Lw {
        rd: Reg,
        rs1: Reg,
        offset: Imm12,
    },
    /// Load a byte, zero-extended.
    Lbu {
        rd: Reg,
        rs1: Reg,
        offset: Imm12,
    },
    /// Load a halfword, zero-extended.
    Lhu {
        rd: Reg,
        rs1: Reg,
        offset: Imm12,
    },
    /// Store the low byte of `rs2`.
    Sb {
        rs1: Reg,
        rs2: Reg,
        offset: Imm12,
    },
    /// Store the low halfword of `rs2`.
    Sh {
        rs1: Reg,
        rs2: Reg,
        offset: Imm12,
    },
    /// Store `rs2`.
    Sw {
        rs1: Reg,
        rs2: Reg,
        offset: Imm12,
    },
    /// Add an immediate.
    Addi {
        rd: Reg,
        rs1: Reg,
        imm: Imm12,
    },
    /// Set `rd` to 1 where `rs1` is less than the immediate, signed, and else to 0.
    Slti {
        rd: Reg,
        rs1: Reg,
        imm: Imm12,
    },
    /// The same, unsigned.
    Sltiu {
        rd: Reg,
        rs1: Reg,
        imm: Imm12,
    },
    /// Exclusive or with an immediate.
    Xori {
        rd: Reg,
        rs1: Reg,
        imm: Imm12,
    },
    /// Or with an immediate.
    Ori {
        rd: Reg,
        rs1: Reg,
        imm: Imm12,
    },
    /// And with an immediate.
    Andi {
        rd: Reg,
        rs1: Reg,
        imm: Imm12,
    },
    /// Shift left by an immediate.
    Slli {
        rd: Reg,
        rs1: Reg,
        shamt: Shamt,
    },
    /// Shift right by an immediate, filling with zeros.
    Srli {
        rd: Reg,
        rs1: Reg,
        shamt: Shamt,
    },
    /// Shift right by an immediate, filling with the sign.
    Srai {
        rd: Reg,
        rs1: Reg,
        shamt: Shamt,
    },
    /// Add.
    Add {
        rd: Reg,
        rs1: Reg,
        rs2: Reg,
    },
    /// Subtract `rs2` from `rs1`.
    Sub {
        rd: Reg,
        rs1: Reg,
        rs2: Reg,
    },
    /// Shift `rs1` left by the low five bits of `rs2`.
    Sll {
        rd: Reg,
        rs1: Reg,
        rs2: Reg,
    },
    /// Set `rd` to 1 where `rs1` is less than `rs2`, signed, and else to 0.
    Slt {
        rd: Reg,
        rs1: Reg,
        rs2: Reg,
    },
    /// The same, unsigned.
    Sltu {
        rd: Reg,
        rs1: Reg,
        rs2: Reg,
    },
    /// Exclusive or.
    Xor {
        rd: Reg,
        rs1: Reg,
        rs2: Reg,
    },
    /// Shift `rs1` right by the low five bits of `rs2`, filling with zeros.
    Srl {
        rd: Reg,
        rs1: Reg,
        rs2: Reg,
    },
    /// Shift `rs1` right by the low five bits of `rs2`, filling with the sign.
    Sra {
        rd: Reg,
        rs1: Reg,
        rs2: Reg,
    },
    /// Or.
    Or {
        rd: Reg,
        rs1: Reg,
        rs2: Reg,
    },
    /// And.
    And {
        rd: Reg,
        rs1: Reg,
        rs2: Reg,
    },
    /// The low word of the product.
    Mul {
        rd: Reg,
        rs1: Reg,
        rs2: Reg,
    },
    /// The high word of the product, both signed.
    Mulh {
        rd: Reg,
        rs1: Reg,
        rs2: Reg,
    },
    /// The high word of the product, `rs1` signed and `rs2` unsigned.
    Mulhsu {
        rd: Reg,
        rs1: Reg,
        rs2: Reg,
    },
    /// The high word of the product, both unsigned.
    Mulhu {
        rd: Reg,
        rs1: Reg,
        rs2: Reg,
    },
    /// Quotient, signed, rounded towards zero.
    Div {
        rd: Reg,
        rs1: Reg,
        rs2: Reg,
    },
    /// Quotient, unsigned.
    Divu {
        rd: Reg,
        rs1: Reg,
        rs2: Reg,
    },
    /// Remainder, signed.
    Rem {
        rd: Reg,
        rs1: Reg,
        rs2: Reg,
    },
    /// Remainder, unsigned.
    Remu {
        rd: Reg,
        rs1: Reg,
        rs2: Reg,
    },
    /// Order memory and device accesses; `imm` holds fm, pred and succ, 4 bits each from the top.
    Fence {
        rd: Reg,
        rs1: Reg,
        imm: Imm12,
    },
    /// Environment call.
    Ecall,
    /// Breakpoint.
    Ebreak,
}
