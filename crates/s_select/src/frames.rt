//! How a function takes its frame and gives it back.

ghost use Rattle.std.specs.Prelude.{◌≡◌, ◌++◌, [], ◌∷◌, ◌<◌, ◌≤◌, OnOk};
ghost use Rattle.s_select.specs.Operands.{negative};
ghost use Rattle.s_select.specs.Templates.{give_frame, restore_places, save_places, take_frame, words};

use crate::location::{REGISTERS, place_register};
use crate::operands::{copy, push_immediate, push_words};
use rv_isa::{BranchOffset, Imm12, Instr, Reg};
use rv_layout::Item;
use std::alloc::AllocError;

/// Minus a small number, as an immediate.
pub fn negative(n: u32) -> Imm12
    requires least { 0 < n }
    requires most { n ≤ 2048 }
    ensures { result ≡ negative n }
{
    Imm12::new(n.wrapping_neg())
}

// The caller's place registers, stored below the return address, t1 being the frame's end.
fn push_save_places(items: &mut Vec<Item>, saved: u32) -> Result<(), AllocError>
    requires { saved ≤ REGISTERS }
    ensures { OnOk result (items.new.items ≡ items.old.items ++ words (save_places saved)) }
{
    for place in 0..saved {
        items.push(Item::Word(Instr::Sw {
            rs1: Reg::T1,
            rs2: place_register(place),
            offset: negative(8 + 4 * place),
        }))?;
    }
    Ok(())
}

fn push_restore_places(items: &mut Vec<Item>, saved: u32) -> Result<(), AllocError>
    requires { saved ≤ REGISTERS }
    ensures { OnOk result (items.new.items ≡ items.old.items ++ words (restore_places saved)) }
{
    for place in 0..saved {
        items.push(Item::Word(Instr::Lw {
            rd: place_register(place),
            rs1: Reg::T1,
            offset: negative(8 + 4 * place),
        }))?;
    }
    Ok(())
}

// The test of the stack, and where it has room, the frame and the return address in it.
fn test_and_take() -> [Instr; 6]
    ensures { result ≡ Instr.Sub 6 2 8 ∷ Instr.Bgeu 6 5 8 ∷ Instr.Ebreak
        ∷ Instr.Sub 2 2 5 ∷ Instr.Add 6 2 5 ∷ Instr.Sw 6 1 (negative 4) ∷ [] }
{
    let (sp, t0, t1) = (Reg::SP, Reg::T0, Reg::T1);
    [
        Instr::Sub {
            rd: t1,
            rs1: sp,
            rs2: Reg::S0,
        },
        Instr::Bgeu {
            rs1: t1,
            rs2: t0,
            offset: BranchOffset::new(8),
        },
        Instr::Ebreak,
        Instr::Sub {
            rd: sp,
            rs1: sp,
            rs2: t0,
        },
        frame_end(),
        Instr::Sw {
            rs1: t1,
            rs2: Reg::RA,
            offset: negative(4),
        },
    ]
}

// The frame's end into t1, its size being in t0.
fn frame_end() -> Instr
    ensures { result ≡ Instr.Add 6 2 5 }
{
    Instr::Add {
        rd: Reg::T1,
        rs1: Reg::SP,
        rs2: Reg::T0,
    }
}

/// The start of a function: it stops where the stack has no room for the frame, and else takes it.
pub fn push_take_frame(items: &mut Vec<Item>, size: u32, saved: u32) -> Result<(), AllocError>
    requires { saved ≤ REGISTERS }
    ensures { OnOk result (items.new.items ≡ items.old.items ++ words (take_frame size saved)) }
{
    push_immediate(items, Reg::T0, size)?;
    push_words(items, &test_and_take())?;
    push_save_places(items, saved)
}

// The frame given back, t1 being its end.
fn return_to_caller() -> [Instr; 3]
    ensures { result ≡ Instr.Lw 1 6 (negative 4) ∷ Instr.Addi 2 6 0 ∷ Instr.Jalr 0 1 0 ∷ [] }
{
    [
        Instr::Lw {
            rd: Reg::RA,
            rs1: Reg::T1,
            offset: negative(4),
        },
        copy(Reg::SP, Reg::T1),
        Instr::Jalr {
            rd: Reg::ZERO,
            rs1: Reg::RA,
            offset: Imm12::new(0),
        },
    ]
}

/// The end of a function: it restores the caller's registers, gives the frame back and returns.
pub fn push_give_frame(items: &mut Vec<Item>, size: u32, saved: u32) -> Result<(), AllocError>
    requires { saved ≤ REGISTERS }
    ensures { OnOk result (items.new.items ≡ items.old.items ++ words (give_frame size saved)) }
{
    push_immediate(items, Reg::T0, size)?;
    push_words(items, &[frame_end()])?;
    push_restore_places(items, saved)?;
    push_words(items, &return_to_caller())
}
