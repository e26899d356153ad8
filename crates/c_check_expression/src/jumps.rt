//! Jumps: `break`, `continue` and `return`.

ghost use Rattle.std.specs.Prelude.{◌≡◌, IfOk, OnOk};
ghost use Rattle.c_typed.specs.StmtViews.{stmt_of};
ghost use Rattle.c_ast.specs.Statements.{clause};
ghost use Rattle.c_check_def.specs.State.{or_broken, if_some};
ghost use Rattle.c_check_def.specs.declared.refusal_kind.RefusalKind.TheVariants.{BadReturn};
ghost use Rattle.c_check_def.specs.Calls.{passed};
ghost use Rattle.c_check_def.specs.DeclaredTypes.{is_void};
ghost use Rattle.c_check_def.specs.Statements.{jump, returned, return_stmt, gives_none};
ghost use Rattle.c_check_state.specs.Frames.{KeepsDeclarations};

use crate::comma_expression;
use base::NoMemory;
use c_ast::ExprList;
use c_check_def::{Operand, RefusalKind};
use c_check_state::{MaybeType, State, Term};
use c_check_term::passed;
use c_type::{CType, TypeForm};
use c_typed::{StmtForm, TExpr, TStmt};
use std::sync::Arc;

/// A `break` or `continue` at an offset, if it may stand there (ISO/IEC 9899:2011, 6.8.6.2,
/// 6.8.6.3).
pub fn jump(state: &mut State, allowed: bool, offset: u32, form: StmtForm) -> TStmt
    ensures value { result ≡ (jump allowed offset (stmt_of form) state.old).0 }
    ensures state { state.new ≡ (jump allowed offset (stmt_of form) state.old).1 }
    ensures keeps { KeepsDeclarations state.old state.new }
{
    if !allowed {
        state.breaks(RefusalKind::BadJump, offset);
    }
    TStmt { form }
}

/// A `return` at an offset from a function with a result of this type (6.8.6.4).
pub fn returned(
    state: &mut State,
    t: &MaybeType,
    offset: u32,
    x: &Option<ExprList>,
) -> Result<TStmt, NoMemory>
    ensures value { IfOk result
        (λ r. r ≡ (returned t.now offset (clause x.now) state.old).0) }
    ensures state { OnOk result
        (state.new ≡ (returned t.now offset (clause x.now) state.old).1) }
    ensures keeps { OnOk result (KeepsDeclarations state.old state.new) }
{
    match x {
        Some(x) => {
            let a = comma_expression(state, x)?;
            let e = returned_value(state, t, offset, a)?;
            Ok(return_stmt(e))
        }
        None => {
            state.breaks_if(!gives_none(t), RefusalKind::BadReturn, offset);
            Ok(TStmt {
                form: StmtForm::ReturnNone,
            })
        }
    }
}

fn return_stmt(e: Option<TExpr>) -> TStmt
    ensures { result ≡ return_stmt e }
{
    match e {
        Some(e) => TStmt {
            form: StmtForm::ReturnValue(e),
        },
        None => TStmt {
            form: StmtForm::Null,
        },
    }
}

// Whether a function with a result of this type gives no value.
fn gives_none(t: &MaybeType) -> bool
    ensures { result ≡ gives_none t.now }
{
    match &t.ty {
        Some(t) => is_void(t),
        None => true,
    }
}

fn is_void(t: &CType) -> bool
    ensures { result ≡ is_void t.now }
{
    matches!(&t.form, TypeForm::Void)
}

fn returned_value(
    state: &mut State,
    t: &MaybeType,
    offset: u32,
    a: Term,
) -> Result<Option<TExpr>, NoMemory>
    ensures value { IfOk result (λ r. r ≡ (if_some t.now (λ u. if_some a
        (λ y. or_broken BadReturn offset (passed u y))) state.old).0) }
    ensures state { OnOk result (state.new ≡ (if_some t.now (λ u. if_some a
        (λ y. or_broken BadReturn offset (passed u y))) state.old).1) }
    ensures keeps { OnOk result (KeepsDeclarations state.old state.new) }
{
    match &t.ty {
        Some(t) => match a.operand {
            Some(a) => passed_or_broken(state, t, offset, a),
            None => Ok(None),
        },
        None => {
            drop(a);
            Ok(None)
        }
    }
}

fn passed_or_broken(
    state: &mut State,
    t: &Arc<CType>,
    offset: u32,
    a: Box<Operand>,
) -> Result<Option<TExpr>, NoMemory>
    ensures value { IfOk result (λ r. r ≡
        (or_broken BadReturn offset (passed t.now.value a.value) state.old).0) }
    ensures state { OnOk result (state.new ≡
        (or_broken BadReturn offset (passed t.now.value a.value) state.old).1) }
    ensures keeps { OnOk result (KeepsDeclarations state.old state.new) }
{
    let e = passed(state.alloc(), t, Box::into_inner(a))?;
    Ok(or_broken(state, offset, e))
}

fn or_broken(state: &mut State, offset: u32, e: Option<TExpr>) -> Option<TExpr>
    ensures value { result ≡ (or_broken BadReturn offset e state.old).0 }
    ensures state { state.new ≡ (or_broken BadReturn offset e state.old).1 }
    ensures keeps { KeepsDeclarations state.old state.new }
{
    match e {
        Some(e) => Some(e),
        None => {
            state.breaks(RefusalKind::BadReturn, offset);
            None
        }
    }
}
