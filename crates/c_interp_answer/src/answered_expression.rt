//! Expressions and places (ISO/IEC 9899:2011, 6.5), as far as they are answered at once.

ghost use Rattle.c_type.specs.Trees.{TypeTree};
ghost use Rattle.c_typed.specs.Typed.{expr, read, unary, binary};
ghost use Rattle.c_typed.specs.declared.operator.BinaryOp.TheVariants as binary_op;
ghost use Rattle.c_interp_answer.specs.Answered.{Tells, IsWord, IsValue, IsTruth, IsTruthWord, IsAddress};

use crate::number::{binary_words, is_pointer, number, one_if, takes_words, unary_word};
use crate::read::{loaded, loaded_word, slot_address, variable_value, variable_word};
use crate::scope::Scope;
use c_interp_store::{binary, member_address, pointer_moved, truth, unary, used};
use c_type::CType;
use c_typed::{BinaryOp, ExprForm, PlaceForm, TExpr, TPlace, UnaryOp};
use val_core::Value;

/// The number that an expression gives, where that is known at once; it is looked into so deep.
#[cycle(answer)]
pub fn word<'a>(scope: &Scope<'a>, e: &TExpr, depth: u32) -> Option<u32>
    ensures { Tells scope.now (λ c s. IsWord c e.now s result) }
{
    operand(scope, e, depth)
}

// The same, within the functions of operators: most operands are constants and variables.
#[cycle(answer)]
#[inline(always)]
fn operand<'a>(scope: &Scope<'a>, e: &TExpr, depth: u32) -> Option<u32>
    ensures { Tells scope.now (λ c s. IsWord c e.now s result) }
{
    match &e.form {
        ExprForm::Constant(w) => Some(*w),
        ExprForm::Read(p) => match variable_word(scope.slots, p) {
            Some(w) => Some(w),
            None => object_word(scope, &e.ty, p, depth),
        },
        ExprForm::Unary(op, a) => operand_word(scope, *op, &e.ty, a, depth),
        ExprForm::Binary(op, a, b) => binary_word(scope, *op, a, b, depth),
        ExprForm::LogicalAnd(..) | ExprForm::LogicalOr(..) | ExprForm::Conditional(..) => {
            operator_word(scope, e, depth)
        }
        _ => None,
    }
}

// The number that an object holds. One to which a variable points is read at once.
#[cycle(answer)]
#[inline(never)]
fn object_word<'a>(scope: &Scope<'a>, t: &CType, p: &TPlace, depth: u32) -> Option<u32>
    ensures { Tells scope.now (λ c s. IsWord c (expr t.now (read p.now)) s result) }
{
    match pointed(scope, p) {
        Some(at) => loaded_word(scope.store, t, at),
        None => located_word(scope, t, p, depth),
    }
}

// The same of another object; apart, so that the one before is short.
#[cycle(answer)]
#[inline(never)]
fn located_word<'a>(scope: &Scope<'a>, t: &CType, p: &TPlace, depth: u32) -> Option<u32>
    ensures { Tells scope.now (λ c s. IsWord c (expr t.now (read p.now)) s result) }
{
    match address(scope, p, depth) {
        Some(at) => loaded_word(scope.store, t, at),
        None => None,
    }
}

#[cycle(answer)]
#[inline(never)]
fn operator_word<'a>(scope: &Scope<'a>, e: &TExpr, depth: u32) -> Option<u32>
    ensures { Tells scope.now (λ c s. IsWord c e.now s result) }
{
    if depth == 0 || waits(e) {
        return None;
    }
    match &e.form {
        ExprForm::LogicalAnd(a, b) => match asked(scope, a, depth - 1) {
            Some(true) => truth_word(scope, b, depth - 1),
            Some(false) => Some(0),
            None => None,
        },
        ExprForm::LogicalOr(a, b) => match asked(scope, a, depth - 1) {
            Some(true) => Some(1),
            Some(false) => truth_word(scope, b, depth - 1),
            None => None,
        },
        ExprForm::Conditional(d, a, b) => match asked(scope, d, depth - 1) {
            Some(true) => word(scope, a, depth - 1),
            Some(false) => word(scope, b, depth - 1),
            None => None,
        },
        _ => None,
    }
}

// Whether it is `&&` or `||` whose right operand is a call: then the left one is not looked into.
fn waits(e: &TExpr) -> bool {
    match &e.form {
        ExprForm::LogicalAnd(_, b) | ExprForm::LogicalOr(_, b) => calls(b),
        _ => false,
    }
}

// Whether an expression is a call, or a unary operator on one.
fn calls(e: &TExpr) -> bool {
    match &e.form {
        ExprForm::Call(..) => true,
        ExprForm::Unary(_, a) => matches!(&a.form, ExprForm::Call(..)),
        _ => false,
    }
}

#[cycle(answer)]
#[inline(never)]
fn operand_word<'a>(scope: &Scope<'a>, op: UnaryOp, t: &CType, a: &TExpr, depth: u32) -> Option<u32>
    ensures { Tells scope.now (λ c s. IsWord c (expr t.now (unary op a.now)) s result) }
{
    if depth == 0 {
        return None;
    }
    match op {
        UnaryOp::LogicalNot => match asked(scope, a, depth - 1) {
            Some(d) => Some(one_if(!d)),
            None => None,
        },
        _ => match operand(scope, a, depth - 1) {
            Some(x) => unary_word(op, t, x),
            None => None,
        },
    }
}

// 1 or 0 by the truth of an expression.
#[cycle(answer)]
fn truth_word<'a>(scope: &Scope<'a>, e: &TExpr, depth: u32) -> Option<u32>
    ensures { Tells scope.now (λ c s. IsTruthWord c e.now s result) }
{
    match asked(scope, e, depth) {
        Some(d) => Some(one_if(d)),
        None => None,
    }
}

#[cycle(answer)]
#[inline(never)]
fn binary_word<'a>(scope: &Scope<'a>, op: BinaryOp, a: &TExpr, b: &TExpr, depth: u32) -> Option<u32>
    ensures { (t : TypeTree) →
        Tells scope.now (λ c s. IsWord c (expr t (binary op a.now b.now)) s result) }
{
    if depth == 0 {
        return None;
    }
    if takes_words(op, &a.ty) {
        let x = operand(scope, a, depth - 1)?;
        let y = operand(scope, b, depth - 1)?;
        binary_words(op, &a.ty, x, y)
    } else {
        pointers_word(scope, op, a, b, depth - 1)
    }
}

// The same, where an operand may be an address.
#[cycle(answer)]
#[inline(never)]
fn pointers_word<'a>(
    scope: &Scope<'a>,
    op: BinaryOp,
    a: &TExpr,
    b: &TExpr,
    depth: u32,
) -> Option<u32>
    ensures { (t : TypeTree) →
        Tells scope.now (λ c s. IsWord c (expr t (binary op a.now b.now)) s result) }
{
    let x = answer(scope, a, depth)?;
    let y = answer(scope, b, depth)?;
    let v = binary(scope.store, op, &a.ty, &b.ty, x, y)?;
    number(v)
}

/// Whether an expression is true, where that is known at once; it is looked into so deep.
#[cycle(answer)]
pub fn asked<'a>(scope: &Scope<'a>, e: &TExpr, depth: u32) -> Option<bool>
    ensures { Tells scope.now (λ c s. IsTruth c e.now s result) }
{
    if is_pointer(&e.ty) {
        match value(scope, e, depth) {
            Some(v) => truth(&e.ty, v),
            None => None,
        }
    } else {
        match word(scope, e, depth) {
            Some(w) => Some(w != 0),
            None => None,
        }
    }
}

/// The value that an expression gives, where that is known at once; it is looked into so deep.
#[cycle(answer)]
pub fn answer<'a>(scope: &Scope<'a>, e: &TExpr, depth: u32) -> Option<Value>
    ensures { Tells scope.now (λ c s. IsValue c e.now s result) }
{
    if is_pointer(&e.ty) {
        value(scope, e, depth)
    } else {
        match word(scope, e, depth) {
            Some(w) => Some(Value::Num(w)),
            None => None,
        }
    }
}

// The same, where it may be an address. What is known without a call is returned at once: it then
// needs no memory.
#[cycle(answer)]
fn value<'a>(scope: &Scope<'a>, e: &TExpr, depth: u32) -> Option<Value>
    ensures { Tells scope.now (λ c s. IsValue c e.now s result) }
{
    match &e.form {
        ExprForm::Constant(w) => Some(Value::Num(*w)),
        ExprForm::Read(p) => match variable_value(scope.slots, p) {
            Some(v) => return Some(v),
            None => object_value(scope, &e.ty, p, depth),
        },
        ExprForm::Address(p) => return address(scope, p, depth),
        ExprForm::Binary(op, a, b) => binary_value(scope, *op, a, b, depth),
        ExprForm::Unary(..) | ExprForm::Conditional(..) => operator_value(scope, e, depth),
        _ => None,
    }
}

// The value that an object holds.
#[cycle(answer)]
#[inline(never)]
fn object_value<'a>(scope: &Scope<'a>, t: &CType, p: &TPlace, depth: u32) -> Option<Value>
    ensures { Tells scope.now (λ c s. IsValue c (expr t.now (read p.now)) s result) }
{
    match address(scope, p, depth) {
        Some(at) => loaded(scope.store, t, at),
        None => None,
    }
}

// The value that a binary operator gives.
#[cycle(answer)]
#[inline(always)]
fn binary_value<'a>(
    scope: &Scope<'a>,
    op: BinaryOp,
    a: &TExpr,
    b: &TExpr,
    depth: u32,
) -> Option<Value>
    ensures { (t : TypeTree) →
        Tells scope.now (λ c s. IsValue c (expr t (binary op a.now b.now)) s result) }
{
    if depth == 0 {
        return None;
    }
    match op {
        BinaryOp::PointerPlus(size) => element(scope, size, a, b, depth - 1),
        _ => operated_value(scope, op, a, b, depth - 1),
    }
}

// The address of an element, counted from one that the left operand gives. An index that is not
// known, as often where it changes a variable, is seen first.
#[cycle(answer)]
#[inline(never)]
fn element<'a>(scope: &Scope<'a>, size: u32, a: &TExpr, b: &TExpr, depth: u32) -> Option<Value>
    ensures { (t : TypeTree) → Tells scope.now
        (λ c s. IsValue c (expr t (binary (binary_op.PointerPlus size) a.now b.now)) s result) }
{
    let w = word(scope, b, depth)?;
    let x = value(scope, a, depth)?;
    pointer_moved(scope.store, true, size, &b.ty, x, Value::Num(w))
}

// The same of another operator.
#[cycle(answer)]
#[inline(never)]
fn operated_value<'a>(
    scope: &Scope<'a>,
    op: BinaryOp,
    a: &TExpr,
    b: &TExpr,
    depth: u32,
) -> Option<Value>
    ensures { (t : TypeTree) →
        Tells scope.now (λ c s. IsValue c (expr t (binary op a.now b.now)) s result) }
{
    let x = answer(scope, a, depth)?;
    let y = answer(scope, b, depth)?;
    binary(scope.store, op, &a.ty, &b.ty, x, y)
}

#[cycle(answer)]
#[inline(never)]
fn operator_value<'a>(scope: &Scope<'a>, e: &TExpr, depth: u32) -> Option<Value>
    ensures { Tells scope.now (λ c s. IsValue c e.now s result) }
{
    if depth == 0 {
        return None;
    }
    match &e.form {
        ExprForm::Unary(UnaryOp::Convert, a) => {
            let x = answer(scope, a, depth - 1)?;
            unary(UnaryOp::Convert, &e.ty, &a.ty, x)
        }
        ExprForm::Conditional(d, a, b) => match asked(scope, d, depth - 1) {
            Some(true) => answer(scope, a, depth - 1),
            Some(false) => answer(scope, b, depth - 1),
            None => None,
        },
        _ => None,
    }
}

// The address of an object to which a variable points.
fn pointed<'a>(scope: &Scope<'a>, p: &TPlace) -> Option<Value>
    ensures { Tells scope.now (λ c s. IsAddress c p.now s result) }
{
    match &p.form {
        PlaceForm::At(e) => match variable(scope, e) {
            Some(v) => used(v),
            None => None,
        },
        _ => None,
    }
}

// The value of a variable, where the expression reads one.
fn variable<'a>(scope: &Scope<'a>, e: &TExpr) -> Option<Value>
    ensures { Tells scope.now (λ c s. IsValue c e.now s result) }
{
    match &e.form {
        ExprForm::Read(p) => variable_value(scope.slots, p),
        _ => None,
    }
}

/// The address of a place, where that is known at once; it is looked into so deep.
#[cycle(answer)]
#[inline(always)]
pub fn address<'a>(scope: &Scope<'a>, p: &TPlace, depth: u32) -> Option<Value>
    ensures { Tells scope.now (λ c s. IsAddress c p.now s result) }
{
    match &p.form {
        PlaceForm::Local(k) => slot_address(scope, *k),
        PlaceForm::Global(k) => return Some(scope.layouts.global(*k)),
        _ => inner_address(scope, p, depth),
    }
}

// The same of a place that is no variable; apart, so that the one before is short.
#[cycle(answer)]
#[inline(never)]
fn inner_address<'a>(scope: &Scope<'a>, p: &TPlace, depth: u32) -> Option<Value>
    ensures { Tells scope.now (λ c s. IsAddress c p.now s result) }
{
    if depth == 0 {
        return None;
    }
    match &p.form {
        PlaceForm::At(e) if steps(e) => None,
        PlaceForm::At(e) => match value(scope, e, depth - 1) {
            Some(v) => used(v),
            None => None,
        },
        PlaceForm::Member(q, offset) => match address(scope, q, depth - 1) {
            Some(at) => member_address(scope.store, at, *offset),
            None => None,
        },
        _ => None,
    }
}

// Whether an expression is an operator whose right operand is `++` or `--`, as in `p[i++]`: then it
// is not looked into.
fn steps(e: &TExpr) -> bool {
    match &e.form {
        ExprForm::Binary(_, _, b) => matches!(&b.form, ExprForm::IncDec(..)),
        _ => false,
    }
}
