//! What arguments of calls are passed as.

ghost use Rattle.std.specs.Prelude.{◌≡◌, Some, length, IfOk, ◌&&◌};
ghost use Rattle.c_check_def.specs.Calls.{passed, all_fit, all_passed, fits, passed_as};
ghost use Rattle.c_check_term.specs.Passing.{is_fit, expr_in, exprs_in, one_more};

use base::NoMemory;
use c_check_def::Operand;
use c_check_state::{MaybeType, Term};
use c_type::CType;
use c_typed::TExpr;
use std::alloc::Global;
use std::sync::Arc;

// What an argument is passed as.
#[derive(Drop)]
pub(crate) enum Passing {
    // It does not convert.
    Wrong,
    // It, or the parameter, has no type.
    Untyped,
    Typed(Box<TExpr>),
}

// What arguments are passed as: whether each fits, and those passed, unless one has no type.
#[derive(Drop)]
pub(crate) struct Passings {
    pub(crate) fit: bool,
    pub(crate) exprs: Option<Vec<TExpr>>,
}

/// The value of an operand in the type of what it is passed to, returned as or assigned to
/// (ISO/IEC 9899:2011, 6.5.2.2p7); none where it does not convert.
pub fn passed(alloc: Global, t: &Arc<CType>, a: Operand) -> Result<Option<TExpr>, NoMemory>
    ensures { IfOk result (λ r. r ≡ passed t.now.value a) }
{
    match c_operator::value(alloc, a)? {
        Some(e) => c_operator::converts(alloc, e, t),
        None => Ok(None),
    }
}

// What an argument is passed as to a parameter.
fn pass(alloc: Global, t: &MaybeType, a: Term) -> Result<Passing, NoMemory>
    ensures fits { IfOk result (λ r. is_fit r ≡ fits t.now a) }
    ensures passed { IfOk result (λ r. expr_in r ≡ passed_as t.now a) }
{
    match &t.ty {
        Some(t) => match a.operand {
            Some(a) => pass_typed(alloc, t, a),
            None => Ok(Passing::Untyped),
        },
        None => {
            drop(a);
            Ok(Passing::Untyped)
        }
    }
}

fn pass_typed(alloc: Global, t: &Arc<CType>, a: Box<Operand>) -> Result<Passing, NoMemory>
    ensures fits { IfOk result (λ r. is_fit r ≡ fits (Some t.now.value) (Some a.value)) }
    ensures passed { IfOk result
        (λ r. expr_in r ≡ passed_as (Some t.now.value) (Some a.value)) }
{
    match passed(alloc, t, Box::into_inner(a))? {
        Some(e) => Ok(Passing::Typed(Box::new(alloc, e)?)),
        None => Ok(Passing::Wrong),
    }
}

// What arguments are passed as to as many parameters.
pub(crate) fn pass_all(
    alloc: Global,
    params: &[MaybeType],
    xs: Vec<Term>,
) -> Result<Passings, NoMemory>
    requires { length params.now ≡ length xs.items }
    ensures fit { IfOk result (λ r. r.fit ≡ all_fit params.now xs.items) }
    ensures passed { IfOk result (λ r. exprs_in r.exprs ≡ all_passed params.now xs.items) }
{
    let mut passed = Passings {
        fit: true,
        exprs: Some(Vec::new(alloc)),
    };
    let mut index = 0;
    for x in xs {
        let next = pass(alloc, &params[index], x)?;
        passed = one_more(passed, next)?;
        index += 1;
    }
    Ok(passed)
}

// The arguments with the next.
fn one_more(passed: Passings, next: Passing) -> Result<Passings, NoMemory>
    ensures fit { IfOk result (λ r. r.fit ≡ passed.fit && is_fit next) }
    ensures exprs { IfOk result
        (λ r. exprs_in r.exprs ≡ one_more (exprs_in passed.exprs) (expr_in next)) }
{
    let fit = passed.fit && is_fit(&next);
    let exprs = with_expr(passed.exprs, next)?;
    Ok(Passings { fit, exprs })
}

fn is_fit(x: &Passing) -> bool
    ensures { result ≡ is_fit x.now }
{
    !matches!(x, Passing::Wrong)
}

// The expressions with the next, where all have types.
fn with_expr(exprs: Option<Vec<TExpr>>, next: Passing) -> Result<Option<Vec<TExpr>>, NoMemory>
    ensures { IfOk result (λ r. exprs_in r ≡ one_more (exprs_in exprs) (expr_in next)) }
{
    match next {
        Passing::Typed(e) => match exprs {
            Some(mut exprs) => {
                exprs.push(Box::into_inner(e))?;
                Ok(Some(exprs))
            }
            None => Ok(None),
        },
        Passing::Wrong | Passing::Untyped => {
            drop(exprs);
            Ok(None)
        }
    }
}
