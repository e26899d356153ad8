//! Values, and what an operation and a store make of them.

ghost use Rattle.std.specs.Prelude.{◌≡◌};
ghost use Rattle.val_core.specs.Values.{address, value1, value2};
ghost use Rattle.val_core.specs.Memory.{kept};

use crate::operation::{Op1, Op2};
use crate::word::{op1, op2};

/// The name of a block of memory, which holds one object: its number and the object's size in
/// bytes.
#[derive(Clone, Copy, PartialEq, Eq, Debug)]
pub struct BlockName {
    pub number: u64,
    pub size: u32,
}

/// A value: a word, the address of a byte of a block or of its end, or what has no meaning. The
/// null pointer is the word 0 (ISO/IEC 9899:2011, 6.2.4, 6.3.2.3).
#[derive(Clone, Copy, PartialEq, Eq, Debug)]
pub enum Value {
    Num(u32),
    At { block: BlockName, offset: u32 },
    Bad,
}

/// What the operation gives on two values (6.5.6, 6.5.8).
///
/// Words are added to addresses and subtracted from them, up to one past the block's last byte; two
/// addresses in one block are subtracted and compared. All else that is no word gives `Bad`.
pub fn value2(op: Op2, x: Value, y: Value) -> Value
    ensures { result ≡ value2 op x y }
{
    match (op, x, y) {
        (_, Value::Num(a), Value::Num(b)) => Value::Num(op2(op, a, b)),
        (Op2::Add | Op2::Sub, Value::At { block, offset }, Value::Num(w)) => {
            address(block, op2(op, offset, w))
        }
        (Op2::Add, Value::Num(w), Value::At { block, offset }) => {
            address(block, op2(op, offset, w))
        }
        (
            Op2::Sub | Op2::Sltu,
            Value::At { block, offset },
            Value::At {
                block: other,
                offset: past,
            },
        ) if block.number == other.number && block.size == other.size => {
            Value::Num(op2(op, offset, past))
        }
        _ => Value::Bad,
    }
}

/// What the operation gives on one value: `Bad` on all but a word.
pub fn value1(op: Op1, x: Value) -> Value
    ensures { result ≡ value1 op x }
{
    match x {
        Value::Num(a) => Value::Num(op1(op, a)),
        _ => Value::Bad,
    }
}

/// What a leaf of this width, in bytes, keeps of a value: the low bits of a word, an address where
/// it has four bytes, and nothing of what has no meaning.
#[tactic(auto, using(crate::proofs::WholeWord::whole_word))]
pub fn kept(width: u8, x: Value) -> Option<Value>
    ensures { result ≡ kept width x }
{
    match x {
        Value::Num(w) if width < 4 => Some(Value::Num(w % (1 << (8 * width)))),
        Value::Num(w) => Some(Value::Num(w)),
        Value::At { .. } if width == 4 => Some(x),
        _ => None,
    }
}

// The address of this offset, where it is no further than the block's end.
fn address(block: BlockName, offset: u32) -> Value
    ensures { result ≡ address block offset }
{
    if offset <= block.size {
        Value::At { block, offset }
    } else {
        Value::Bad
    }
}
