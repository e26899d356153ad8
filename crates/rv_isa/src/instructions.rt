//! The instructions by what operands they have.

ghost use Rattle.std.specs.Prelude.{◌≡◌, ◌++◌, OnOk};
ghost use Rattle.rv_isa.specs.Texts.{
  fence_text,
  named_fence,
  text,
  with_address,
  with_branch,
  with_immediate,
  with_jump,
  with_registers,
  with_shift,
  with_upper,
  word_text,
};

use crate::operands::{
    push, push_accesses, push_hex, push_led, push_register, push_signed, push_target,
};
use crate::{BranchOffset, Imm12, Instr, JumpOffset, Reg, Shamt, Upper, encode};
use base::NoMemory;

fn push_registers(
    out: &mut Vec<u8>,
    name: &str,
    rd: Reg,
    rs1: Reg,
    rs2: Reg,
) -> Result<(), NoMemory>
    ensures { OnOk result
        (out.new.items ≡ out.old.items ++ with_registers name.now rd rs1 rs2) }
{
    push_led(out, name, rd)?;
    push(out, ",")?;
    push_register(out, rs1)?;
    push(out, ",")?;
    push_register(out, rs2)
}

fn push_immediate(
    out: &mut Vec<u8>,
    name: &str,
    rd: Reg,
    rs1: Reg,
    imm: Imm12,
) -> Result<(), NoMemory>
    ensures { OnOk result
        (out.new.items ≡ out.old.items ++ with_immediate name.now rd rs1 imm) }
{
    push_led(out, name, rd)?;
    push(out, ",")?;
    push_register(out, rs1)?;
    push(out, ",")?;
    push_signed(out, imm.word())
}

fn push_shift(
    out: &mut Vec<u8>,
    name: &str,
    rd: Reg,
    rs1: Reg,
    shamt: Shamt,
) -> Result<(), NoMemory>
    ensures { OnOk result (out.new.items ≡ out.old.items ++ with_shift name.now rd rs1 shamt) }
{
    push_led(out, name, rd)?;
    push(out, ",")?;
    push_register(out, rs1)?;
    push(out, ",0x")?;
    push_hex(out, 2, shamt.bits())
}

// A register and an address, of a load, a store or an indirect jump.
fn push_address(
    out: &mut Vec<u8>,
    name: &str,
    reg: Reg,
    base: Reg,
    offset: Imm12,
) -> Result<(), NoMemory>
    ensures { OnOk result
        (out.new.items ≡ out.old.items ++ with_address name.now reg base offset) }
{
    push_led(out, name, reg)?;
    push(out, ",")?;
    push_signed(out, offset.word())?;
    push(out, "(")?;
    push_register(out, base)?;
    push(out, ")")
}

fn push_branch(
    out: &mut Vec<u8>,
    name: &str,
    rs1: Reg,
    rs2: Reg,
    offset: BranchOffset,
) -> Result<(), NoMemory>
    ensures { OnOk result
        (out.new.items ≡ out.old.items ++ with_branch name.now rs1 rs2 offset) }
{
    push_led(out, name, rs1)?;
    push(out, ",")?;
    push_register(out, rs2)?;
    push(out, ",")?;
    push_target(out, offset.word())
}

fn push_upper(out: &mut Vec<u8>, name: &str, rd: Reg, imm: Upper) -> Result<(), NoMemory>
    ensures { OnOk result (out.new.items ≡ out.old.items ++ with_upper name.now rd imm) }
{
    push_led(out, name, rd)?;
    push(out, ",0x")?;
    push_hex(out, 5, imm.bits())
}

fn push_jump(out: &mut Vec<u8>, name: &str, rd: Reg, offset: JumpOffset) -> Result<(), NoMemory>
    ensures { OnOk result (out.new.items ≡ out.old.items ++ with_jump name.now rd offset) }
{
    push_led(out, name, rd)?;
    push(out, ",")?;
    push_target(out, offset.word())
}

// The word of an instruction that has no name.
fn push_word(out: &mut Vec<u8>, instruction: Instr) -> Result<(), NoMemory>
    ensures { OnOk result
        (out.new.items ≡ out.old.items ++ word_text instruction) }
{
    push(out, ".4byte\t0x")?;
    push_hex(out, 8, encode(instruction))
}

fn push_named_fence(out: &mut Vec<u8>, bits: u32) -> Result<(), NoMemory>
    ensures { OnOk result (out.new.items ≡ out.old.items ++ named_fence bits) }
{
    push(out, "fence\t")?;
    push_accesses(out, bits / 16)?;
    push(out, ",")?;
    push_accesses(out, bits)
}

fn push_fence(out: &mut Vec<u8>, rd: Reg, rs1: Reg, imm: Imm12) -> Result<(), NoMemory>
    ensures { OnOk result (out.new.items ≡ out.old.items ++ fence_text rd rs1 imm) }
{
    let bits = imm.word();
    if rd.number() == 0 && rs1.number() == 0 && bits < 256 {
        push_named_fence(out, bits)
    } else {
        push_word(out, Instr::Fence { rd, rs1, imm })
    }
}

/// The text of an instruction goes to the end of the buffer. `NoMemory` only where the allocator
/// has none; then the beginning of the text may be there.
pub fn push_instruction(out: &mut Vec<u8>, instruction: Instr) -> Result<(), NoMemory>
    ensures { OnOk result (out.new.items ≡ out.old.items ++ text instruction) }
{
    match instruction {
        Instr::Lui { rd, imm } => push_upper(out, "lui", rd, imm),
        Instr::Auipc { rd, imm } => push_upper(out, "auipc", rd, imm),
        Instr::Jal { rd, offset } => push_jump(out, "jal", rd, offset),
        Instr::Jalr { rd, rs1, offset } => push_address(out, "jalr", rd, rs1, offset),
        Instr::Beq { rs1, rs2, offset } => push_branch(out, "beq", rs1, rs2, offset),
        Instr::Bne { rs1, rs2, offset } => push_branch(out, "bne", rs1, rs2, offset),
        Instr::Blt { rs1, rs2, offset } => push_branch(out, "blt", rs1, rs2, offset),
        Instr::Bge { rs1, rs2, offset } => push_branch(out, "bge", rs1, rs2, offset),
        Instr::Bltu { rs1, rs2, offset } => push_branch(out, "bltu", rs1, rs2, offset),
        Instr::Bgeu { rs1, rs2, offset } => push_branch(out, "bgeu", rs1, rs2, offset),
        Instr::Lb { rd, rs1, offset } => push_address(out, "lb", rd, rs1, offset),
        Instr::Lh { rd, rs1, offset } => push_address(out, "lh", rd, rs1, offset),
        Instr::Lw { rd, rs1, offset } => push_address(out, "lw", rd, rs1, offset),
        Instr::Lbu { rd, rs1, offset } => push_address(out, "lbu", rd, rs1, offset),
        Instr::Lhu { rd, rs1, offset } => push_address(out, "lhu", rd, rs1, offset),
        Instr::Sb { rs1, rs2, offset } => push_address(out, "sb", rs2, rs1, offset),
        Instr::Sh { rs1, rs2, offset } => push_address(out, "sh", rs2, rs1, offset),
        Instr::Sw { rs1, rs2, offset } => push_address(out, "sw", rs2, rs1, offset),
        Instr::Addi { rd, rs1, imm } => push_immediate(out, "addi", rd, rs1, imm),
        Instr::Slti { rd, rs1, imm } => push_immediate(out, "slti", rd, rs1, imm),
        Instr::Sltiu { rd, rs1, imm } => push_immediate(out, "sltiu", rd, rs1, imm),
        Instr::Xori { rd, rs1, imm } => push_immediate(out, "xori", rd, rs1, imm),
        Instr::Ori { rd, rs1, imm } => push_immediate(out, "ori", rd, rs1, imm),
        Instr::Andi { rd, rs1, imm } => push_immediate(out, "andi", rd, rs1, imm),
        Instr::Slli { rd, rs1, shamt } => push_shift(out, "slli", rd, rs1, shamt),
        Instr::Srli { rd, rs1, shamt } => push_shift(out, "srli", rd, rs1, shamt),
        Instr::Srai { rd, rs1, shamt } => push_shift(out, "srai", rd, rs1, shamt),
        Instr::Add { rd, rs1, rs2 } => push_registers(out, "add", rd, rs1, rs2),
        Instr::Sub { rd, rs1, rs2 } => push_registers(out, "sub", rd, rs1, rs2),
        Instr::Sll { rd, rs1, rs2 } => push_registers(out, "sll", rd, rs1, rs2),
        Instr::Slt { rd, rs1, rs2 } => push_registers(out, "slt", rd, rs1, rs2),
        Instr::Sltu { rd, rs1, rs2 } => push_registers(out, "sltu", rd, rs1, rs2),
        Instr::Xor { rd, rs1, rs2 } => push_registers(out, "xor", rd, rs1, rs2),
        Instr::Srl { rd, rs1, rs2 } => push_registers(out, "srl", rd, rs1, rs2),
        Instr::Sra { rd, rs1, rs2 } => push_registers(out, "sra", rd, rs1, rs2),
        Instr::Or { rd, rs1, rs2 } => push_registers(out, "or", rd, rs1, rs2),
        Instr::And { rd, rs1, rs2 } => push_registers(out, "and", rd, rs1, rs2),
        Instr::Mul { rd, rs1, rs2 } => push_registers(out, "mul", rd, rs1, rs2),
        Instr::Mulh { rd, rs1, rs2 } => push_registers(out, "mulh", rd, rs1, rs2),
        Instr::Mulhsu { rd, rs1, rs2 } => push_registers(out, "mulhsu", rd, rs1, rs2),
        Instr::Mulhu { rd, rs1, rs2 } => push_registers(out, "mulhu", rd, rs1, rs2),
        Instr::Div { rd, rs1, rs2 } => push_registers(out, "div", rd, rs1, rs2),
        Instr::Divu { rd, rs1, rs2 } => push_registers(out, "divu", rd, rs1, rs2),
        Instr::Rem { rd, rs1, rs2 } => push_registers(out, "rem", rd, rs1, rs2),
        Instr::Remu { rd, rs1, rs2 } => push_registers(out, "remu", rd, rs1, rs2),
        Instr::Fence { rd, rs1, imm } => push_fence(out, rd, rs1, imm),
        Instr::Ecall => push(out, "ecall"),
        Instr::Ebreak => push(out, "ebreak"),
    }
}
