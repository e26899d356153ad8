//! Sequences of instructions that every program has, pushed as bytes.

ghost use Rattle.std.specs.Prelude.{◌≡◌, ◌<◌, ◌++◌, ◌+◌, OnOk};
ghost use Rattle.rv_layout.specs.Sequences.{load_address, call, start_code, put_stub, read_answer, get_stub, bytes_of};

use elf_file::{STACK_SIZE, TEXT_AT};
use rv_isa::{
    BranchOffset, EXIT_CALL, Imm12, Instr, READ_CALL, Reg, Upper, WRITE_CALL, encode, low_part,
    upper_part,
};
use std::alloc::AllocError;

/// The bytes of instructions, each little-endian.
#[tactic(auto, unfolding(crate::specs::Sequences::bytes_of))]
pub fn push_code(text: &mut Vec<u8>, code: &[Instr]) -> Result<(), AllocError>
    ensures { OnOk result (text.new.items ≡ text.old.items ++ bytes_of code.now) }
{
    for i in code {
        text.extend_from_slice(&encode(*i).to_le_bytes())?;
    }
    Ok(())
}

/// A word into a register, always by two instructions.
pub fn load_address(rd: Reg, value: u32) -> [Instr; 2]
    ensures { result ≡ load_address rd value }
{
    [
        Instr::Lui {
            rd,
            imm: upper_part(value),
        },
        Instr::Addi {
            rd,
            rs1: rd,
            imm: low_part(value),
        },
    ]
}

/// A call of the code at this offset from the first instruction.
pub fn call(offset: u32) -> [Instr; 2]
    ensures { result ≡ call offset }
{
    let ra = Reg::RA;
    [
        Instr::Auipc {
            rd: ra,
            imm: upper_part(offset),
        },
        Instr::Jalr {
            rd: ra,
            rs1: ra,
            offset: low_part(offset),
        },
    ]
}

/// `addi rd, rs1, imm` of an immediate that is not negative.
fn add_immediate(rd: Reg, rs1: Reg, imm: u32) -> Instr
    requires { imm < 2048 }
    ensures { result ≡ Instr.Addi rd rs1 imm }
{
    Instr::Addi {
        rd,
        rs1,
        imm: Imm12::new(imm),
    }
}

fn return_to_caller() -> Instr
    ensures { result ≡ Instr.Jalr 0 1 0 }
{
    Instr::Jalr {
        rd: Reg::ZERO,
        rs1: Reg::RA,
        offset: Imm12::new(0),
    }
}

/// The start code: it makes the stack, calls `main` and exits with its value.
pub fn push_start_code(code: &mut Vec<Instr>, stack: u32, main: u32) -> Result<(), AllocError>
    requires { TEXT_AT + 16 < main }
    ensures { OnOk result (code.new.items ≡ code.old.items ++ start_code stack main) }
{
    let (sp, t0, s0) = (Reg::SP, Reg::T0, Reg::S0);
    code.extend_from_slice(&load_address(s0, stack))?;
    code.push(Instr::Lui {
        rd: t0,
        imm: Upper::new(STACK_SIZE >> 12),
    })?;
    code.push(Instr::Add {
        rd: sp,
        rs1: s0,
        rs2: t0,
    })?;
    code.extend_from_slice(&call(main - (TEXT_AT + 16)))?;
    code.push(add_immediate(Reg::A7, Reg::ZERO, EXIT_CALL))?;
    code.push(Instr::Ecall)?;
    Ok(())
}

/// The stub that writes the low byte of a0, by way of the word at `buffer`.
pub fn push_put_stub(code: &mut Vec<Instr>, buffer: u32) -> Result<(), AllocError>
    ensures { OnOk result (code.new.items ≡ code.old.items ++ put_stub buffer) }
{
    let (t0, a0) = (Reg::T0, Reg::A0);
    code.extend_from_slice(&load_address(t0, buffer))?;
    code.push(Instr::Sb {
        rs1: t0,
        rs2: a0,
        offset: Imm12::new(0),
    })?;
    code.push(add_immediate(a0, Reg::ZERO, 1))?;
    code.push(add_immediate(Reg::A1, t0, 0))?;
    code.push(add_immediate(Reg::A2, Reg::ZERO, 1))?;
    code.push(add_immediate(Reg::A7, Reg::ZERO, WRITE_CALL))?;
    code.push(Instr::Ecall)?;
    code.push(return_to_caller())?;
    Ok(())
}

/// The stub that reads a byte to a0, which is -1 at the end of the input.
pub fn push_get_stub(code: &mut Vec<Instr>, buffer: u32) -> Result<(), AllocError>
    ensures { OnOk result (code.new.items ≡ code.old.items ++ get_stub buffer) }
{
    let (t0, a0) = (Reg::T0, Reg::A0);
    code.extend_from_slice(&load_address(t0, buffer))?;
    code.push(add_immediate(a0, Reg::ZERO, 0))?;
    code.push(add_immediate(Reg::A1, t0, 0))?;
    code.push(add_immediate(Reg::A2, Reg::ZERO, 1))?;
    code.push(add_immediate(Reg::A7, Reg::ZERO, READ_CALL))?;
    code.push(Instr::Ecall)?;
    code.extend_from_slice(&read_answer())?;
    Ok(())
}

// What the get stub does with the answer of the environment call, which is 1, or 0 at the end.
fn read_answer() -> [Instr; 5]
    ensures { result ≡ read_answer }
{
    let a0 = Reg::A0;
    [
        Instr::Beq {
            rs1: a0,
            rs2: Reg::ZERO,
            offset: BranchOffset::new(12),
        },
        Instr::Lbu {
            rd: a0,
            rs1: Reg::A1,
            offset: Imm12::new(0),
        },
        return_to_caller(),
        Instr::Addi {
            rd: a0,
            rs1: Reg::ZERO,
            imm: Imm12::new(u32::MAX),
        },
        return_to_caller(),
    ]
}
