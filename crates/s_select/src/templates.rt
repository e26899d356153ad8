//! The template of each instruction of linear code, over locations.

ghost use Rattle.std.specs.Prelude.{◌≡◌, ◌++◌, ◌+◌, ◌^◌, ◌<◌, [], ◌∷◌, OnOk};
ghost use Rattle.rv_isa.specs.declared.instruction.Instr.TheVariants as rv;
ghost use Rattle.rv_isa.specs.Calls.{exit_call};
ghost use Rattle.rv_layout.specs.declared.item.Item.TheVariants as item;
ghost use Rattle.s_select.specs.Operands.{get, in_of, load_immediate, load_in, negative, out_of, put, store_out};
ghost use Rattle.s_select.specs.Templates.{binary_code, branch_items, clear_code, load_instr, move_code, store_instr, unary_code, with_none, with_one, with_two, words};

use crate::frames::negative;
use crate::instructions::{load_instr, push_binary_code, push_unary_code, store_instr};
use crate::location::{Location, in_of, out_of};
use crate::operands::{
    push_get, push_immediate, push_in, push_item, push_out, push_put, push_words,
};
use rv_isa::{BranchOffset, EXIT_CALL, Imm12, Instr, Reg};
use rv_layout::Item;
use std::alloc::AllocError;
use val_core::{Op1, Op2};

/// A word.
pub fn push_const(items: &mut Vec<Item>, to: &Location, word: u32) -> Result<(), AllocError>
    ensures { OnOk result (items.new.items
        ≡ items.old.items ++ words (with_none to.now (λ rd. load_immediate rd word))) }
{
    push_immediate(items, out_of(to), word)?;
    push_out(items, to)
}

/// The address of an object at an offset from the stack pointer.
pub fn push_object_address(
    items: &mut Vec<Item>,
    to: &Location,
    offset: u32,
) -> Result<(), AllocError>
    ensures { OnOk result (items.new.items
        ≡ items.old.items ++ words (with_none to.now (λ rd. load_immediate 5 offset ++ rv.Add rd
        5 2 ∷ []))) }
{
    push_immediate(items, Reg::T0, offset)?;
    push_words(items, &[add(out_of(to), Reg::T0, Reg::SP)])?;
    push_out(items, to)
}

fn add(rd: Reg, rs1: Reg, rs2: Reg) -> Instr
    ensures { result ≡ rv.Add rd rs1 rs2 }
{
    Instr::Add { rd, rs1, rs2 }
}

/// The address of a global.
pub fn push_global_address(
    items: &mut Vec<Item>,
    to: &Location,
    number: u32,
) -> Result<(), AllocError>
    ensures { OnOk result (items.new.items
        ≡ items.old.items ++ item.Address (out_of to.now) number ∷ words (store_out to.now)) }
{
    push_item(items, Item::Address(out_of(to).number() as u8, number))?;
    push_out(items, to)
}

/// An operation with two operands.
pub fn push_binary(
    items: &mut Vec<Item>,
    op: Op2,
    to: &Location,
    left: &Location,
    right: &Location,
) -> Result<(), AllocError>
    ensures { OnOk result (items.new.items
        ≡ items.old.items ++ words (with_two to.now left.now right.now (binary_code op))) }
{
    push_in(items, Reg::T0, left)?;
    push_in(items, Reg::T1, right)?;
    push_binary_code(
        items,
        op,
        out_of(to),
        in_of(left, Reg::T0),
        in_of(right, Reg::T1),
    )?;
    push_out(items, to)
}

/// An operation with one operand.
pub fn push_unary(
    items: &mut Vec<Item>,
    op: Op1,
    to: &Location,
    input: &Location,
) -> Result<(), AllocError>
    ensures { OnOk result (items.new.items
        ≡ items.old.items ++ words (with_one to.now input.now (unary_code op))) }
{
    push_in(items, Reg::T0, input)?;
    push_unary_code(items, op, out_of(to), in_of(input, Reg::T0))?;
    push_out(items, to)
}

/// A load of so many bytes.
pub fn push_load(
    items: &mut Vec<Item>,
    width: u8,
    to: &Location,
    address: &Location,
) -> Result<(), AllocError>
    ensures { OnOk result (items.new.items
        ≡ items.old.items
        ++ words (with_one to.now address.now (λ rd r. load_instr width rd r ∷ []))) }
{
    push_in(items, Reg::T0, address)?;
    push_words(
        items,
        &[load_instr(width, out_of(to), in_of(address, Reg::T0))],
    )?;
    push_out(items, to)
}

/// A store of so many bytes.
pub fn push_store(
    items: &mut Vec<Item>,
    width: u8,
    address: &Location,
    value: &Location,
) -> Result<(), AllocError>
    ensures { OnOk result (items.new.items ≡ items.old.items
        ++ words (load_in 5 address.now ++ load_in 6 value.now ++ store_instr width (in_of
        address.now 5) (in_of value.now 6) ∷ [])) }
{
    push_in(items, Reg::T0, address)?;
    push_in(items, Reg::T1, value)?;
    push_words(
        items,
        &[store_instr(width, in_of(address, Reg::T0), in_of(value, Reg::T1))],
    )
}

/// A move between places.
pub fn push_move(items: &mut Vec<Item>, to: &Location, from: &Location) -> Result<(), AllocError>
    ensures { OnOk result (items.new.items ≡ items.old.items ++ words (move_code to.now from.now)) }
{
    match to {
        Location::Register(register) => push_get(items, *register, from),
        Location::Near(_) | Location::Far(_) => {
            push_in(items, Reg::T0, from)?;
            push_put(items, to, in_of(from, Reg::T0))
        }
    }
}

/// Zeros in each word of an object of this size at an offset from the stack pointer.
pub fn push_clear(items: &mut Vec<Item>, offset: u32, size: u32) -> Result<(), AllocError>
    requires { size + 3 < 2 ^ 32 }
    ensures { OnOk result (items.new.items ≡ items.old.items ++ words (clear_code offset size)) }
{
    push_immediate(items, Reg::T0, offset)?;
    push_words(items, &[add(Reg::T0, Reg::T0, Reg::SP)])?;
    push_immediate(items, Reg::T1, size.next_multiple_of(4))?;
    push_words(items, &clear_words())
}

// Zeros in the words from t0 on, up to t1 bytes after it.
fn clear_words() -> [Instr; 4]
    ensures { result ≡ rv.Add 6 6 5 ∷ rv.Sw 5 0 0 ∷ rv.Addi 5 5 4 ∷ rv.Bltu 5 6 (negative 8) ∷ [] }
{
    let (t0, t1) = (Reg::T0, Reg::T1);
    [
        add(t1, t1, t0),
        Instr::Sw {
            rs1: t0,
            rs2: Reg::ZERO,
            offset: Imm12::new(0),
        },
        Instr::Addi {
            rd: t0,
            rs1: t0,
            imm: Imm12::new(4),
        },
        Instr::Bltu {
            rs1: t0,
            rs2: t1,
            offset: BranchOffset::new(8_u32.wrapping_neg()),
        },
    ]
}

/// A call of a function, its arguments being in registers.
pub fn push_call(items: &mut Vec<Item>, function: u32, to: &Location) -> Result<(), AllocError>
    ensures { OnOk result (items.new.items ≡ items.old.items ++ item.Call function ∷ words (put
        to.now 10)) }
{
    push_item(items, Item::Call(function))?;
    push_put(items, to, Reg::A0)
}

/// A byte is written.
pub fn push_put_byte(items: &mut Vec<Item>, byte: &Location) -> Result<(), AllocError>
    ensures { OnOk result (items.new.items ≡ items.old.items ++ words (get 10 byte.now) ++
        item.Stub 0 ∷ []) }
{
    push_get(items, Reg::A0, byte)?;
    push_item(items, Item::Stub(0))
}

/// A byte is read.
pub fn push_get_byte(items: &mut Vec<Item>, to: &Location) -> Result<(), AllocError>
    ensures { OnOk result (items.new.items
        ≡ items.old.items ++ item.Stub 1 ∷ words (put to.now 10)) }
{
    push_item(items, Item::Stub(1))?;
    push_put(items, to, Reg::A0)
}

/// The program ends with a status.
pub fn push_exit(items: &mut Vec<Item>, status: &Location) -> Result<(), AllocError>
    ensures { OnOk result (items.new.items
        ≡ items.old.items ++ words (get 10 status.now ++ rv.Addi 17 0 exit_call ∷ rv.Ecall ∷ [])) }
{
    push_get(items, Reg::A0, status)?;
    let number = Instr::Addi {
        rd: Reg::A7,
        rs1: Reg::ZERO,
        imm: Imm12::new(EXIT_CALL),
    };
    push_words(items, &[number, Instr::Ecall])
}

/// Goes to a label where the predicate is not 0.
pub fn push_branch_not_zero(
    items: &mut Vec<Item>,
    predicate: &Location,
    label: u32,
) -> Result<(), AllocError>
    ensures { OnOk result (items.new.items
        ≡ items.old.items ++ branch_items predicate.now (λ r. rv.Beq r 0 8 ∷ []) label) }
{
    push_in(items, Reg::T0, predicate)?;
    let over = Instr::Beq {
        rs1: in_of(predicate, Reg::T0),
        rs2: Reg::ZERO,
        offset: BranchOffset::new(8),
    };
    push_words(items, &[over])?;
    push_item(items, Item::Jump(label))
}

/// Goes to a label where the predicate is 0.
pub fn push_branch_zero(
    items: &mut Vec<Item>,
    predicate: &Location,
    label: u32,
) -> Result<(), AllocError>
    ensures { OnOk result (items.new.items
        ≡ items.old.items ++ branch_items predicate.now (λ r. rv.Bne r 0 8 ∷ []) label) }
{
    push_in(items, Reg::T0, predicate)?;
    push_words(items, &[not_equal(in_of(predicate, Reg::T0), Reg::ZERO)])?;
    push_item(items, Item::Jump(label))
}

/// Goes to a label where the predicate is a number.
pub fn push_branch_equal(
    items: &mut Vec<Item>,
    predicate: &Location,
    number: u32,
    label: u32,
) -> Result<(), AllocError>
    ensures { OnOk result (items.new.items
        ≡ items.old.items ++ branch_items predicate.now (λ r. load_immediate 6 number ++ rv.Bne
        r 6 8 ∷ []) label) }
{
    push_in(items, Reg::T0, predicate)?;
    push_immediate(items, Reg::T1, number)?;
    push_words(items, &[not_equal(in_of(predicate, Reg::T0), Reg::T1)])?;
    push_item(items, Item::Jump(label))
}

fn not_equal(rs1: Reg, rs2: Reg) -> Instr
    ensures { result ≡ rv.Bne rs1 rs2 8 }
{
    Instr::Bne {
        rs1,
        rs2,
        offset: BranchOffset::new(8),
    }
}
