//! The word of an instruction.

ghost use Rattle.std.specs.Prelude.{◌≡◌};
ghost use Rattle.rv_isa.specs.Words.{word_of, FitsFormat};

use crate::formats::{b_type, i_type, j_type, r_type, s_type, shift_type, u_type};
use crate::instruction::Instr;
use crate::opcodes::{
    AUIPC, BRANCH, EBREAK, ECALL, JAL, JALR, LOAD, LUI, MISC_MEM, OP, OP_IMM, STORE,
};

/// The 32-bit word of an instruction (RISC-V Unprivileged ISA 20191213, chapter 24).
#[tactic(auto, unfolding(crate::specs::Words::word_of, crate::specs::Words::FitsFormat))]
pub fn encode(i: Instr) -> u32
    ensures word { result ≡ word_of i }
    ensures fits { FitsFormat i }
{
    match i {
        Instr::Lui { rd, imm } => u_type(imm, rd, LUI),
        Instr::Auipc { rd, imm } => u_type(imm, rd, AUIPC),
        Instr::Jal { rd, offset } => j_type(offset, rd, JAL),
        Instr::Jalr { rd, rs1, offset } => i_type(offset, rs1, 0, rd, JALR),
        Instr::Beq { rs1, rs2, offset } => b_type(offset, rs2, rs1, 0, BRANCH),
        Instr::Bne { rs1, rs2, offset } => b_type(offset, rs2, rs1, 1, BRANCH),
        Instr::Blt { rs1, rs2, offset } => b_type(offset, rs2, rs1, 4, BRANCH),
        Instr::Bge { rs1, rs2, offset } => b_type(offset, rs2, rs1, 5, BRANCH),
        Instr::Bltu { rs1, rs2, offset } => b_type(offset, rs2, rs1, 6, BRANCH),
        Instr::Bgeu { rs1, rs2, offset } => b_type(offset, rs2, rs1, 7, BRANCH),
        Instr::Lb { rd, rs1, offset } => i_type(offset, rs1, 0, rd, LOAD),
        Instr::Lh { rd, rs1, offset } => i_type(offset, rs1, 1, rd, LOAD),
        Instr::Lw { rd, rs1, offset } => i_type(offset, rs1, 2, rd, LOAD),
        Instr::Lbu { rd, rs1, offset } => i_type(offset, rs1, 4, rd, LOAD),
        Instr::Lhu { rd, rs1, offset } => i_type(offset, rs1, 5, rd, LOAD),
        Instr::Sb { rs1, rs2, offset } => s_type(offset, rs2, rs1, 0, STORE),
        Instr::Sh { rs1, rs2, offset } => s_type(offset, rs2, rs1, 1, STORE),
        Instr::Sw { rs1, rs2, offset } => s_type(offset, rs2, rs1, 2, STORE),
        Instr::Addi { rd, rs1, imm } => i_type(imm, rs1, 0, rd, OP_IMM),
        Instr::Slti { rd, rs1, imm } => i_type(imm, rs1, 2, rd, OP_IMM),
        Instr::Sltiu { rd, rs1, imm } => i_type(imm, rs1, 3, rd, OP_IMM),
        Instr::Xori { rd, rs1, imm } => i_type(imm, rs1, 4, rd, OP_IMM),
        Instr::Ori { rd, rs1, imm } => i_type(imm, rs1, 6, rd, OP_IMM),
        Instr::Andi { rd, rs1, imm } => i_type(imm, rs1, 7, rd, OP_IMM),
        Instr::Slli { rd, rs1, shamt } => shift_type(0x00, shamt, rs1, 1, rd, OP_IMM),
        Instr::Srli { rd, rs1, shamt } => shift_type(0x00, shamt, rs1, 5, rd, OP_IMM),
        Instr::Srai { rd, rs1, shamt } => shift_type(0x20, shamt, rs1, 5, rd, OP_IMM),
        Instr::Add { rd, rs1, rs2 } => r_type(0x00, rs2, rs1, 0, rd, OP),
        Instr::Sub { rd, rs1, rs2 } => r_type(0x20, rs2, rs1, 0, rd, OP),
        Instr::Sll { rd, rs1, rs2 } => r_type(0x00, rs2, rs1, 1, rd, OP),
        Instr::Slt { rd, rs1, rs2 } => r_type(0x00, rs2, rs1, 2, rd, OP),
        Instr::Sltu { rd, rs1, rs2 } => r_type(0x00, rs2, rs1, 3, rd, OP),
        Instr::Xor { rd, rs1, rs2 } => r_type(0x00, rs2, rs1, 4, rd, OP),
        Instr::Srl { rd, rs1, rs2 } => r_type(0x00, rs2, rs1, 5, rd, OP),
        Instr::Sra { rd, rs1, rs2 } => r_type(0x20, rs2, rs1, 5, rd, OP),
        Instr::Or { rd, rs1, rs2 } => r_type(0x00, rs2, rs1, 6, rd, OP),
        Instr::And { rd, rs1, rs2 } => r_type(0x00, rs2, rs1, 7, rd, OP),
        Instr::Mul { rd, rs1, rs2 } => r_type(0x01, rs2, rs1, 0, rd, OP),
        Instr::Mulh { rd, rs1, rs2 } => r_type(0x01, rs2, rs1, 1, rd, OP),
        Instr::Mulhsu { rd, rs1, rs2 } => r_type(0x01, rs2, rs1, 2, rd, OP),
        Instr::Mulhu { rd, rs1, rs2 } => r_type(0x01, rs2, rs1, 3, rd, OP),
        Instr::Div { rd, rs1, rs2 } => r_type(0x01, rs2, rs1, 4, rd, OP),
        Instr::Divu { rd, rs1, rs2 } => r_type(0x01, rs2, rs1, 5, rd, OP),
        Instr::Rem { rd, rs1, rs2 } => r_type(0x01, rs2, rs1, 6, rd, OP),
        Instr::Remu { rd, rs1, rs2 } => r_type(0x01, rs2, rs1, 7, rd, OP),
        Instr::Fence { rd, rs1, imm } => i_type(imm, rs1, 0, rd, MISC_MEM),
        Instr::Ecall => ECALL,
        Instr::Ebreak => EBREAK,
    }
}
