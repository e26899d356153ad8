//! Operators on operands that were evaluated. What one gives is the same in every state: a value,
//! or it is undefined.

ghost use Rattle.std.specs.Prelude.{◌≡◌, List, true};
ghost use Rattle.val_core.specs.Answers.{on_defined};
ghost use Rattle.c_interp_store.specs.Holding.{Opened, Holds};
ghost use Rattle.c_mean.specs.State.{State, gives};
ghost use Rattle.c_mean.specs.Expressions.{unary_done, binary_done, compound_done, stepped};
ghost use Rattle.c_interp_store.specs.Operators.{is_pure, used_value};

use crate::Store;
use crate::address::{pointer_difference, pointer_moved};
use crate::compare::{compared, is_pointer, truth};
use crate::number::{arithmetic, converted};
use c_type::CType;
use c_typed::{BinaryOp, CompoundOp, IncDec, Relation, UnaryOp};
use val_core::{Op2, Value};

/// The value, unless there is none (ISO/IEC 9899:2011, 6.9.1p12).
pub fn used(v: Value) -> Option<Value>
    ensures { result ≡ used_value v }
{
    match v {
        Value::Bad => None,
        _ => Some(v),
    }
}

fn convert(t: &CType, u: &CType, v: Value) -> Option<Value>
    ensures { (s : State) →
        unary_done UnaryOp.Convert t.now u.now v s ≡ on_defined result (gives s) }
{
    match v {
        Value::Bad => None,
        _ => used(converted(t, v)),
    }
}

fn logical_not(t: &CType, u: &CType, v: Value) -> Option<Value>
    ensures { (s : State) →
        unary_done UnaryOp.LogicalNot t.now u.now v s ≡ on_defined result (gives s) }
{
    match truth(u, v) {
        Some(b) => Some(Value::Num(u32::from(!b))),
        None => None,
    }
}

/// What a unary operator gives that neither writes a byte nor ends the program, from an operand of
/// type `u`; `None` for another one.
pub fn unary(op: UnaryOp, t: &CType, u: &CType, v: Value) -> Option<Value>
    ensures { (s : State) → is_pure op ≡ true →
        unary_done op t.now u.now v s ≡ on_defined result (gives s) }
{
    match op {
        UnaryOp::Convert => convert(t, u, v),
        UnaryOp::Discard => Some(Value::Bad),
        UnaryOp::Negate => arithmetic(Op2::Sub, Value::Num(0), v),
        UnaryOp::Complement => arithmetic(Op2::Xor, v, Value::Num(u32::MAX)),
        UnaryOp::LogicalNot => logical_not(t, u, v),
        UnaryOp::Put | UnaryOp::Exit => None,
    }
}

fn compare(store: &Store, r: Relation, t: &CType, u: &CType, a: Value, b: Value) -> Option<Value>
    ensures { (calls : List Opened) (s : State) → Holds store.now calls s.memory →
        binary_done (BinaryOp.Compare r) t.now u.now a b s ≡ on_defined result (gives s) }
{
    if let Value::Bad = a {
        return None;
    }
    if let Value::Bad = b {
        return None;
    }
    match compared(store, r, t, a, b) {
        Some(w) => Some(Value::Num(w)),
        None => None,
    }
}

/// What a binary operator gives, from operands of types `t` and `u`.
pub fn binary(
    store: &Store,
    op: BinaryOp,
    t: &CType,
    u: &CType,
    a: Value,
    b: Value,
) -> Option<Value>
    ensures { (calls : List Opened) (s : State) → Holds store.now calls s.memory →
        binary_done op t.now u.now a b s ≡ on_defined result (gives s) }
{
    match op {
        BinaryOp::Arithmetic(op) => arithmetic(op, a, b),
        BinaryOp::Compare(r) => compare(store, r, t, u, a, b),
        BinaryOp::PointerPlus(size) => pointer_moved(store, true, size, u, a, b),
        BinaryOp::IntegerPlus(size) => pointer_moved(store, true, size, t, b, a),
        BinaryOp::PointerMinus(size) => pointer_moved(store, false, size, u, a, b),
        BinaryOp::PointerDifference(size) => pointer_difference(store, size, a, b),
    }
}

/// What a compound assignment makes of the old value and of its operand of type `u`.
pub fn compound(store: &Store, op: CompoundOp, u: &CType, a: Value, b: Value) -> Option<Value>
    ensures { (calls : List Opened) (s : State) → Holds store.now calls s.memory →
        result ≡ compound_done op u.now a b s }
{
    match op {
        CompoundOp::Arithmetic { op, .. } => arithmetic(op, a, b),
        CompoundOp::PointerPlus(size) => pointer_moved(store, true, size, u, a, b),
        CompoundOp::PointerMinus(size) => pointer_moved(store, false, size, u, a, b),
    }
}

/// What `++` or `--` makes of the old value of an object of type `t`.
pub fn stepped(store: &Store, step: IncDec, t: &CType, v: Value) -> Option<Value>
    ensures { (calls : List Opened) (s : State) → Holds store.now calls s.memory →
        result ≡ stepped step t.now v s }
{
    if is_pointer(t) {
        pointer_moved(store, step.up, step.by, t, v, Value::Num(1))
    } else {
        let op = if step.up { Op2::Add } else { Op2::Sub };
        arithmetic(op, v, Value::Num(step.by))
    }
}
