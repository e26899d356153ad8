//! Comparisons, and which values are true.

ghost use Rattle.std.specs.Prelude.{◌≡◌, List};
ghost use Rattle.val_core.specs.Memory.{Memory};
ghost use Rattle.val_core.specs.Values.{same_block};
ghost use Rattle.c_interp_store.specs.Holding.{Opened, Holds};
ghost use Rattle.c_mean.specs.State.{is_pointer, is_unsigned, less_op, negated, related, numbers_compared, is_live_address, addresses_ordered, negated_option, pointers_compared, compared, truth};

use crate::Store;
use c_type::{CType, Scalar, TypeForm};
use c_typed::Relation;
use val_core::{BlockName, Op2, Value, op2};

pub(crate) fn is_pointer(t: &CType) -> bool
    ensures { result ≡ is_pointer t.now }
{
    matches!(&t.form, TypeForm::Pointer(_))
}

pub(crate) fn is_unsigned(t: &CType) -> bool
    ensures { result ≡ is_unsigned t.now }
{
    matches!(&t.form, TypeForm::Scalar(Scalar::UnsignedInt))
}

pub(crate) fn same_block(b: BlockName, c: BlockName) -> bool
    ensures { result ≡ same_block b c }
{
    b.number == c.number && b.size == c.size
}

fn less_op(unsigned: bool) -> Op2
    ensures { result ≡ less_op unsigned }
{
    if unsigned { Op2::Sltu } else { Op2::Slt }
}

fn negated(n: u32) -> u32
    ensures { result ≡ negated n }
{
    u32::from(n == 0)
}

fn related(r: Relation, less: Op2, a: u32, b: u32) -> u32
    ensures { result ≡ related r less a b }
{
    match r {
        Relation::Less => op2(less, a, b),
        Relation::Greater => op2(less, b, a),
        Relation::LessEqual => negated(op2(less, b, a)),
        Relation::GreaterEqual => negated(op2(less, a, b)),
        Relation::Equal => u32::from(a == b),
        Relation::NotEqual => negated(u32::from(a == b)),
    }
}

fn numbers_compared(r: Relation, unsigned: bool, a: Value, b: Value) -> Option<u32>
    ensures { result ≡ numbers_compared r unsigned a b }
{
    match (a, b) {
        (Value::Num(a), Value::Num(b)) => Some(related(r, less_op(unsigned), a, b)),
        _ => None,
    }
}

pub(crate) fn is_live_address(store: &Store, v: Value) -> bool
    ensures { (calls : List Opened) (m : Memory) → Holds store.now calls m →
        result ≡ is_live_address v m }
{
    match v {
        Value::At { block, .. } => store.is_live(block),
        _ => false,
    }
}

fn addresses_ordered(store: &Store, r: Relation, a: Value, b: Value) -> Option<u32>
    ensures { (calls : List Opened) (m : Memory) → Holds store.now calls m →
        result ≡ addresses_ordered r a b m }
{
    match (a, b) {
        (
            Value::At { block, offset },
            Value::At {
                block: other,
                offset: past,
            },
        ) if same_block(block, other) && store.is_live(block) => {
            Some(related(r, Op2::Sltu, offset, past))
        }
        _ => None,
    }
}

fn negated_option(n: Option<u32>) -> Option<u32>
    ensures { result ≡ negated_option n }
{
    match n {
        Some(n) => Some(negated(n)),
        None => None,
    }
}

fn pointers_compared(store: &Store, r: Relation, a: Value, b: Value) -> Option<u32>
    ensures { (calls : List Opened) (m : Memory) → Holds store.now calls m →
        result ≡ pointers_compared r a b m }
{
    match r {
        Relation::Equal => store.pointers_equal(a, b),
        Relation::NotEqual => negated_option(store.pointers_equal(a, b)),
        _ => addresses_ordered(store, r, a, b),
    }
}

/// Operands of this type compared, as 1 or 0, where that is defined (ISO/IEC 9899:2011, 6.5.8,
/// 6.5.9).
pub fn compared(store: &Store, r: Relation, t: &CType, a: Value, b: Value) -> Option<u32>
    ensures { (calls : List Opened) (m : Memory) → Holds store.now calls m →
        result ≡ compared r t.now a b m }
{
    if is_pointer(t) {
        pointers_compared(store, r, a, b)
    } else {
        numbers_compared(r, is_unsigned(t), a, b)
    }
}

/// Whether a value of this type is true, where it has to be known.
pub fn truth(t: &CType, v: Value) -> Option<bool>
    ensures { result ≡ truth t.now v }
{
    match v {
        Value::Num(w) => Some(w != 0),
        Value::At { .. } if is_pointer(t) => Some(true),
        _ => None,
    }
}
