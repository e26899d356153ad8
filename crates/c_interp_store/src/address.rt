//! Arithmetic of addresses (ISO/IEC 9899:2011, 6.5.6p8).

ghost use Rattle.std.specs.Prelude.{◌≡◌, ◌*◌, ◌-◌, ◌≤◌, ◌^◌, List};
ghost use Rattle.val_core.specs.Memory.{Memory};
ghost use Rattle.c_interp_store.specs.Holding.{Opened, Holds};
ghost use Rattle.c_mean.specs.State.{is_negative, moved_up, moved_down, elements_on, pointer_moved, pointer_difference, member_address};

use crate::Store;
use crate::compare::{is_live_address, is_unsigned, same_block};
use c_type::CType;
use val_core::{BlockName, Op2, Value, op2};

// So many bytes up from an offset, within the block and to its end.
fn moved_up(block: BlockName, offset: u32, bytes: u64) -> Option<Value>
    requires { bytes ≤ 2 ^ 64 - 2 ^ 32 }
    ensures { result ≡ moved_up block offset bytes }
{
    let to = u64::from(offset) + bytes;
    if to <= u64::from(block.size) {
        Some(Value::At {
            block,
            offset: to as u32,
        })
    } else {
        None
    }
}

// So many bytes down from an offset.
fn moved_down(block: BlockName, offset: u32, bytes: u64) -> Option<Value>
    ensures { result ≡ moved_down block offset bytes }
{
    if bytes <= u64::from(offset) {
        Some(Value::At {
            block,
            offset: offset - bytes as u32,
        })
    } else {
        None
    }
}

fn is_negative(unsigned: bool, w: u32) -> bool
    ensures { result ≡ is_negative unsigned w }
{
    !unsigned && w >= 0x8000_0000
}

// An address moved by whole elements of so many bytes.
fn elements_on(
    up: bool,
    unsigned: bool,
    size: u32,
    block: BlockName,
    offset: u32,
    number: u32,
) -> Option<Value>
    ensures { result ≡ elements_on up unsigned size block offset number }
{
    if is_negative(unsigned, number) {
        let bytes = elements_down(number, size);
        if up {
            moved_down(block, offset, bytes)
        } else {
            moved_up(block, offset, bytes)
        }
    } else {
        let bytes = elements_up(number, size);
        if up {
            moved_up(block, offset, bytes)
        } else {
            moved_down(block, offset, bytes)
        }
    }
}

#[tactic(auto, using(crate::proofs::Products::product_fits))]
fn elements_up(number: u32, size: u32) -> u64
    ensures bytes { result ≡ number * size }
    ensures fits { result ≤ 2 ^ 64 - 2 ^ 32 }
{
    u64::from(number) * u64::from(size)
}

#[tactic(auto, using(crate::proofs::Products::product_fits))]
fn elements_down(number: u32, size: u32) -> u64
    ensures bytes { result ≡ (2 ^ 32 - number) * size }
    ensures fits { result ≤ 2 ^ 64 - 2 ^ 32 }
{
    (0x1_0000_0000 - u64::from(number)) * u64::from(size)
}

/// A pointer moved up or down by a number of an integer type, in elements of so many bytes, where
/// it stays within its object, which has to live.
pub fn pointer_moved(
    store: &Store,
    up: bool,
    size: u32,
    integer: &CType,
    pointer: Value,
    number: Value,
) -> Option<Value>
    ensures { (calls : List Opened) (m : Memory) → Holds store.now calls m →
        result ≡ pointer_moved up size integer.now pointer number m }
{
    match (pointer, number) {
        (Value::At { block, offset }, Value::Num(w)) if store.is_live(block) => {
            elements_on(up, is_unsigned(integer), size, block, offset, w)
        }
        _ => None,
    }
}

/// The difference of two addresses in one live object, in elements of so many bytes.
pub fn pointer_difference(store: &Store, size: u32, x: Value, y: Value) -> Option<Value>
    ensures { (calls : List Opened) (m : Memory) → Holds store.now calls m →
        result ≡ pointer_difference size x y m }
{
    match (x, y) {
        (
            Value::At { block, offset },
            Value::At {
                block: other,
                offset: past,
            },
        ) if same_block(block, other) && store.is_live(block) => {
            let bytes = op2(Op2::Sub, offset, past);
            Some(Value::Num(op2(Op2::Div, bytes, size)))
        }
        _ => None,
    }
}

/// The address of a member at an offset in bytes of a live object.
pub fn member_address(store: &Store, at: Value, offset: u32) -> Option<Value>
    ensures { (calls : List Opened) (m : Memory) → Holds store.now calls m →
        result ≡ member_address at offset m }
{
    match at {
        Value::At {
            block,
            offset: begins,
        } if is_live_address(store, at) => moved_up(block, begins, u64::from(offset)),
        _ => None,
    }
}
