//! The instruction of a word.
#![tactic(auto, unfolding(crate::specs::Encodings::decoded))]

ghost use Rattle.std.specs.Prelude.{◌≡◌, ◌↔◌, IsNone, IsFalse, IfSome};
ghost use Rattle.rv_isa.specs.Formats.{opcode_of, funct7_of};
ghost use Rattle.rv_isa.specs.Encodings.{decoded, some_encoding_matches};
ghost use Rattle.rv_isa.specs.Words.{word_of};

use crate::fields::{
    b_imm, funct3, funct7, i_imm, j_imm, opcode, rd, rs1, rs2, s_imm, shamt, u_imm,
};
use crate::instruction::Instr;
use crate::opcodes::{
    AUIPC, BRANCH, EBREAK, ECALL, JAL, JALR, LOAD, LUI, MISC_MEM, OP, OP_IMM, STORE, SYSTEM,
};

/// The instruction of a word (RISC-V Unprivileged ISA 20191213, chapter 24); `None` exactly where
/// the word matches no encoding of RV32I and RV32M.
#[tactic(auto, using(crate::proofs::Decoded::none_if_unmatched), unfolding(crate::specs::Encodings::decoded))]
pub fn decode(word: u32) -> Option<Instr>
    ensures value { result ≡ decoded word }
    ensures none { IsNone result ↔ IsFalse (some_encoding_matches word) }
    ensures encodes { IfSome result (λ i. word_of i ≡ word) }
{
    match opcode(word) {
        LUI => Some(Instr::Lui {
            rd: rd(word),
            imm: u_imm(word),
        }),
        AUIPC => Some(Instr::Auipc {
            rd: rd(word),
            imm: u_imm(word),
        }),
        JAL => Some(Instr::Jal {
            rd: rd(word),
            offset: j_imm(word),
        }),
        JALR => indirect_jump(word),
        BRANCH => branch(word),
        LOAD => load(word),
        STORE => store(word),
        OP_IMM => immediate_op(word),
        OP => register_op(word),
        MISC_MEM => fence(word),
        SYSTEM => system(word),
        _ => None,
    }
}

fn indirect_jump(word: u32) -> Option<Instr>
    requires { opcode_of word ≡ JALR }
    ensures { result ≡ decoded word }
{
    if funct3(word) != 0 {
        return None;
    }
    Some(Instr::Jalr {
        rd: rd(word),
        rs1: rs1(word),
        offset: i_imm(word),
    })
}

fn branch(word: u32) -> Option<Instr>
    requires { opcode_of word ≡ BRANCH }
    ensures { result ≡ decoded word }
{
    let (rs1, rs2, offset) = (rs1(word), rs2(word), b_imm(word));
    match funct3(word) {
        0 => Some(Instr::Beq { rs1, rs2, offset }),
        1 => Some(Instr::Bne { rs1, rs2, offset }),
        4 => Some(Instr::Blt { rs1, rs2, offset }),
        5 => Some(Instr::Bge { rs1, rs2, offset }),
        6 => Some(Instr::Bltu { rs1, rs2, offset }),
        7 => Some(Instr::Bgeu { rs1, rs2, offset }),
        _ => None,
    }
}

fn load(word: u32) -> Option<Instr>
    requires { opcode_of word ≡ LOAD }
    ensures { result ≡ decoded word }
{
    let (rd, rs1, offset) = (rd(word), rs1(word), i_imm(word));
    match funct3(word) {
        0 => Some(Instr::Lb { rd, rs1, offset }),
        1 => Some(Instr::Lh { rd, rs1, offset }),
        2 => Some(Instr::Lw { rd, rs1, offset }),
        4 => Some(Instr::Lbu { rd, rs1, offset }),
        5 => Some(Instr::Lhu { rd, rs1, offset }),
        _ => None,
    }
}

fn store(word: u32) -> Option<Instr>
    requires { opcode_of word ≡ STORE }
    ensures { result ≡ decoded word }
{
    let (rs1, rs2, offset) = (rs1(word), rs2(word), s_imm(word));
    match funct3(word) {
        0 => Some(Instr::Sb { rs1, rs2, offset }),
        1 => Some(Instr::Sh { rs1, rs2, offset }),
        2 => Some(Instr::Sw { rs1, rs2, offset }),
        _ => None,
    }
}

fn immediate_op(word: u32) -> Option<Instr>
    requires { opcode_of word ≡ OP_IMM }
    ensures { result ≡ decoded word }
{
    let (rd, rs1, imm, shamt) = (rd(word), rs1(word), i_imm(word), shamt(word));
    match (funct3(word), funct7(word)) {
        (0, _) => Some(Instr::Addi { rd, rs1, imm }),
        (2, _) => Some(Instr::Slti { rd, rs1, imm }),
        (3, _) => Some(Instr::Sltiu { rd, rs1, imm }),
        (4, _) => Some(Instr::Xori { rd, rs1, imm }),
        (6, _) => Some(Instr::Ori { rd, rs1, imm }),
        (7, _) => Some(Instr::Andi { rd, rs1, imm }),
        (1, 0x00) => Some(Instr::Slli { rd, rs1, shamt }),
        (5, 0x00) => Some(Instr::Srli { rd, rs1, shamt }),
        (5, 0x20) => Some(Instr::Srai { rd, rs1, shamt }),
        _ => None,
    }
}

fn register_op(word: u32) -> Option<Instr>
    requires { opcode_of word ≡ OP }
    ensures { result ≡ decoded word }
{
    match funct7(word) {
        0x00 => base_op(word),
        0x20 => alternate_op(word),
        0x01 => multiply_op(word),
        _ => None,
    }
}

fn base_op(word: u32) -> Option<Instr>
    requires opcode { opcode_of word ≡ OP }
    requires funct7 { funct7_of word ≡ 0x00 }
    ensures { result ≡ decoded word }
{
    let (rd, rs1, rs2) = (rd(word), rs1(word), rs2(word));
    match funct3(word) {
        0 => Some(Instr::Add { rd, rs1, rs2 }),
        1 => Some(Instr::Sll { rd, rs1, rs2 }),
        2 => Some(Instr::Slt { rd, rs1, rs2 }),
        3 => Some(Instr::Sltu { rd, rs1, rs2 }),
        4 => Some(Instr::Xor { rd, rs1, rs2 }),
        5 => Some(Instr::Srl { rd, rs1, rs2 }),
        6 => Some(Instr::Or { rd, rs1, rs2 }),
        7 => Some(Instr::And { rd, rs1, rs2 }),
        _ => None,
    }
}

fn alternate_op(word: u32) -> Option<Instr>
    requires opcode { opcode_of word ≡ OP }
    requires funct7 { funct7_of word ≡ 0x20 }
    ensures { result ≡ decoded word }
{
    let (rd, rs1, rs2) = (rd(word), rs1(word), rs2(word));
    match funct3(word) {
        0 => Some(Instr::Sub { rd, rs1, rs2 }),
        5 => Some(Instr::Sra { rd, rs1, rs2 }),
        _ => None,
    }
}

fn multiply_op(word: u32) -> Option<Instr>
    requires opcode { opcode_of word ≡ OP }
    requires funct7 { funct7_of word ≡ 0x01 }
    ensures { result ≡ decoded word }
{
    let (rd, rs1, rs2) = (rd(word), rs1(word), rs2(word));
    match funct3(word) {
        0 => Some(Instr::Mul { rd, rs1, rs2 }),
        1 => Some(Instr::Mulh { rd, rs1, rs2 }),
        2 => Some(Instr::Mulhsu { rd, rs1, rs2 }),
        3 => Some(Instr::Mulhu { rd, rs1, rs2 }),
        4 => Some(Instr::Div { rd, rs1, rs2 }),
        5 => Some(Instr::Divu { rd, rs1, rs2 }),
        6 => Some(Instr::Rem { rd, rs1, rs2 }),
        7 => Some(Instr::Remu { rd, rs1, rs2 }),
        _ => None,
    }
}

fn fence(word: u32) -> Option<Instr>
    requires { opcode_of word ≡ MISC_MEM }
    ensures { result ≡ decoded word }
{
    if funct3(word) != 0 {
        return None;
    }
    Some(Instr::Fence {
        rd: rd(word),
        rs1: rs1(word),
        imm: i_imm(word),
    })
}

fn system(word: u32) -> Option<Instr>
    requires { opcode_of word ≡ SYSTEM }
    ensures { result ≡ decoded word }
{
    match word {
        ECALL => Some(Instr::Ecall),
        EBREAK => Some(Instr::Ebreak),
        _ => None,
    }
}
