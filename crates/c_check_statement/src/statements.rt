//! The walk over statements, one call for all forms.

ghost use Rattle.std.specs.Prelude.{◌≡◌, IfOk, OnOk};
ghost use Rattle.c_ast.specs.Expressions.{list_tree};
ghost use Rattle.c_ast.specs.Statements.{stmt_tree};
ghost use Rattle.c_check_def.specs.Statements.{statement};
ghost use Rattle.c_check_statement.specs.Parts.{jumps_of, if_statement, else_statement};

use crate::blocks::block;
use crate::loops::{do_statement, for_statement, while_statement};
use crate::switches::switch_statement;
use crate::{Jumps, if_stmt, with_else};
use base::NoMemory;
use c_ast::{ExprList, Stmt};
use c_check_expression::{condition_at, jump, returned, value_statement};
use c_check_state::{MaybeType, State};
use c_typed::{StmtForm, TStmt};

/// What a statement is, in a function with a result of the type that it gives (ISO/IEC 9899:2011,
/// 6.8).
#[cycle(statement)]
#[tactic(auto, using(crate::proofs::lemmas::Arms::arms))]
pub(crate) fn statement(
    x: &Stmt,
    state: &mut State,
    jumps: Jumps,
    gives: &MaybeType,
) -> Result<TStmt, NoMemory>
    ensures value { IfOk result
        (λ r. r ≡ (statement (jumps_of jumps gives.now) (stmt_tree x.now) state.old).0) }
    ensures state { OnOk result
        (state.new ≡ (statement (jumps_of jumps gives.now) (stmt_tree x.now) state.old).1) }
{
    match x {
        Stmt::Null(_) => Ok(TStmt {
            form: StmtForm::Null,
        }),
        Stmt::Expr { value, .. } => value_statement(state, value),
        Stmt::Block(x) => block(x, state, jumps, gives),
        Stmt::If {
            keyword,
            condition,
            then,
            otherwise,
            ..
        } => {
            let s = if_statement(then.get(), state, jumps, gives, keyword.at, condition)?;
            match otherwise {
                Some(x) => else_statement(x.get().body.get(), state, jumps, gives, s),
                None => Ok(s),
            }
        }
        Stmt::While {
            keyword,
            condition,
            body,
            ..
        } => while_statement(body.get(), state, gives, keyword.at, condition),
        Stmt::Do {
            body,
            until,
            condition,
            ..
        } => do_statement(body.get(), state, gives, until.at, condition),
        Stmt::For {
            keyword,
            header,
            body,
            ..
        } => for_statement(body.get(), state, gives, keyword.at, header.clauses.get()),
        Stmt::Break { keyword, .. } => {
            Ok(jump(state, jumps.may_break, keyword.at, StmtForm::Break))
        }
        Stmt::Continue { keyword, .. } => {
            Ok(jump(state, jumps.may_continue, keyword.at, StmtForm::Continue))
        }
        Stmt::Return { keyword, value, .. } => returned(state, gives, keyword.at, value),
        Stmt::Switch {
            keyword,
            subject,
            groups,
            ..
        } => switch_statement(groups.as_slice(), state, jumps, gives, keyword.at, subject),
    }
}

// An `if` at an offset without its `else` (6.8.4.1).
#[cycle(statement)]
fn if_statement(
    x: &Stmt,
    state: &mut State,
    jumps: Jumps,
    gives: &MaybeType,
    offset: u32,
    condition: &ExprList,
) -> Result<TStmt, NoMemory>
    ensures value { IfOk result (λ r. r ≡ (if_statement (jumps_of jumps gives.now) offset
        (list_tree condition.now) (stmt_tree x.now) state.old).0) }
    ensures state { OnOk result (state.new ≡ (if_statement (jumps_of jumps gives.now) offset
        (list_tree condition.now) (stmt_tree x.now) state.old).1) }
{
    let c = condition_at(state, offset, condition)?;
    match statement(x, state, jumps, gives) {
        Ok(s) => if_stmt(state.alloc(), c, s),
        Err(fault) => {
            drop(c);
            Err(fault)
        }
    }
}

// The `else` of an `if`.
#[cycle(statement)]
fn else_statement(
    x: &Stmt,
    state: &mut State,
    jumps: Jumps,
    gives: &MaybeType,
    s: TStmt,
) -> Result<TStmt, NoMemory>
    ensures value { IfOk result (λ r. r ≡
        (else_statement (jumps_of jumps gives.now) s (stmt_tree x.now) state.old).0) }
    ensures state { OnOk result (state.new ≡
        (else_statement (jumps_of jumps gives.now) s (stmt_tree x.now) state.old).1) }
{
    match statement(x, state, jumps, gives) {
        Ok(otherwise) => with_else(state.alloc(), s, otherwise),
        Err(fault) => {
            drop(s);
            Err(fault)
        }
    }
}
