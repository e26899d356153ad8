//! How instructions come to the values at places.

ghost use Rattle.std.specs.Prelude.{◌≡◌, ◌++◌, [], ◌∷◌, OnOk};
ghost use Rattle.rv_isa.specs.WordParts.{upper_part};
ghost use Rattle.s_select.specs.Operands.{get, load_immediate, load_in, put, store_out};
ghost use Rattle.s_select.specs.Templates.{words};

use crate::location::Location;
use rv_isa::{Imm12, Instr, Reg, low_part, upper_part};
use rv_layout::{Item, load_address};
use std::alloc::AllocError;

/// Adds instructions to the items of a function.
pub fn push_words(items: &mut Vec<Item>, code: &[Instr]) -> Result<(), AllocError>
    ensures { OnOk result (items.new.items ≡ items.old.items ++ words code.now) }
{
    for i in code {
        items.push(Item::Word(*i))?;
    }
    Ok(())
}

/// Adds an item that is no instruction.
pub fn push_item(items: &mut Vec<Item>, item: Item) -> Result<(), AllocError>
    ensures { OnOk result (items.new.items ≡ items.old.items ++ item ∷ []) }
{
    items.extend_from_slice(&[item])
}

/// A word into a register, by one instruction where its signed value fits 12 bits.
pub fn push_immediate(items: &mut Vec<Item>, rd: Reg, value: u32) -> Result<(), AllocError>
    ensures { OnOk result (items.new.items ≡ items.old.items ++ words (load_immediate rd value)) }
{
    if Imm12::fits(value) {
        let code = [Instr::Addi {
            rd,
            rs1: Reg::ZERO,
            imm: Imm12::new(value),
        }];
        push_words(items, &code)
    } else {
        push_words(items, &load_address(rd, value))
    }
}

/// `addi rd, rs, 0`.
pub fn copy(rd: Reg, rs: Reg) -> Instr
    ensures { result ≡ Instr.Addi rd rs 0 }
{
    Instr::Addi {
        rd,
        rs1: rs,
        imm: Imm12::new(0),
    }
}

/// What a location holds, into a register.
pub fn push_get(items: &mut Vec<Item>, rd: Reg, from: &Location) -> Result<(), AllocError>
    ensures { OnOk result (items.new.items ≡ items.old.items ++ words (get rd from.now)) }
{
    match from {
        Location::Register(register) => push_words(items, &[copy(rd, *register)]),
        Location::Near(offset) => push_words(
            items,
            &[Instr::Lw {
                rd,
                rs1: Reg::SP,
                offset: *offset,
            }],
        ),
        Location::Far(offset) => {
            let load = Instr::Lw {
                rd,
                rs1: Reg::T2,
                offset: low_part(*offset),
            };
            push_words(items, &[upper(*offset), frame_plus_upper(), load])
        }
    }
}

/// What a register holds, to a location.
pub fn push_put(items: &mut Vec<Item>, to: &Location, rs: Reg) -> Result<(), AllocError>
    ensures { OnOk result (items.new.items ≡ items.old.items ++ words (put to.now rs)) }
{
    match to {
        Location::Register(register) => push_words(items, &[copy(*register, rs)]),
        Location::Near(offset) => push_words(
            items,
            &[Instr::Sw {
                rs1: Reg::SP,
                rs2: rs,
                offset: *offset,
            }],
        ),
        Location::Far(offset) => {
            let store = Instr::Sw {
                rs1: Reg::T2,
                rs2: rs,
                offset: low_part(*offset),
            };
            push_words(items, &[upper(*offset), frame_plus_upper(), store])
        }
    }
}

// The upper part of an offset, into t2.
fn upper(offset: u32) -> Instr
    ensures { result ≡ Instr.Lui 7 (upper_part offset) }
{
    Instr::Lui {
        rd: Reg::T2,
        imm: upper_part(offset),
    }
}

// The stack pointer added to t2.
fn frame_plus_upper() -> Instr
    ensures { result ≡ Instr.Add 7 7 2 }
{
    Instr::Add {
        rd: Reg::T2,
        rs1: Reg::T2,
        rs2: Reg::SP,
    }
}

/// An operand in a word of the frame, into a register for the instruction that reads it.
pub fn push_in(items: &mut Vec<Item>, scratch: Reg, from: &Location) -> Result<(), AllocError>
    ensures { OnOk result (items.new.items ≡ items.old.items ++ words (load_in scratch from.now)) }
{
    match from {
        Location::Register(_) => push_words(items, &[]),
        Location::Near(_) | Location::Far(_) => push_get(items, scratch, from),
    }
}

/// A result for a word of the frame, from t0 to the word.
pub fn push_out(items: &mut Vec<Item>, to: &Location) -> Result<(), AllocError>
    ensures { OnOk result (items.new.items ≡ items.old.items ++ words (store_out to.now)) }
{
    match to {
        Location::Register(_) => push_words(items, &[]),
        Location::Near(_) | Location::Far(_) => push_put(items, to, Reg::T0),
    }
}
