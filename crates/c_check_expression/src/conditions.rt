//! The expressions of statements: conditions, what a `switch` goes by, and expression statements.

ghost use Rattle.std.specs.Prelude.{◌≡◌, IfOk, OnOk};
ghost use Rattle.c_ast.specs.Expressions.{list_tree};
ghost use Rattle.c_check_def.specs.Statements.{value_stmt};
ghost use Rattle.c_check_expression.specs.Clauses.{condition_at, subject_at, value_statement};

use crate::comma_expression;
use crate::values::{condition, subject, whole};
use base::NoMemory;
use c_ast::ExprList;
use c_check_state::State;
use c_typed::{StmtForm, TExpr, TStmt};

/// A statement of an expression (ISO/IEC 9899:2011, 6.8.3).
pub fn value_statement(state: &mut State, x: &ExprList) -> Result<TStmt, NoMemory>
    ensures value { IfOk result (λ r. r ≡ (value_statement (list_tree x.now) state.old).0) }
    ensures state { OnOk result
        (state.new ≡ (value_statement (list_tree x.now) state.old).1) }
{
    let a = comma_expression(state, x)?;
    let e = whole(state, x.start(), a)?;
    Ok(value_stmt(e))
}

fn value_stmt(e: Option<TExpr>) -> TStmt
    ensures { result ≡ value_stmt e }
{
    let form = match e {
        Some(e) => StmtForm::Value(e),
        None => StmtForm::Null,
    };
    TStmt { form }
}

/// The condition of the statement at an offset (6.8.4.1, 6.8.5).
pub fn condition_at(state: &mut State, offset: u32, x: &ExprList) -> Result<Option<TExpr>, NoMemory>
    ensures value { IfOk result
        (λ r. r ≡ (condition_at offset (list_tree x.now) state.old).0) }
    ensures state { OnOk result
        (state.new ≡ (condition_at offset (list_tree x.now) state.old).1) }
{
    let a = comma_expression(state, x)?;
    condition(state, offset, a)
}

/// What the `switch` at an offset goes by (6.8.4.2).
pub fn subject_at(state: &mut State, offset: u32, x: &ExprList) -> Result<Option<TExpr>, NoMemory>
    ensures value { IfOk result
        (λ r. r ≡ (subject_at offset (list_tree x.now) state.old).0) }
    ensures state { OnOk result
        (state.new ≡ (subject_at offset (list_tree x.now) state.old).1) }
{
    let a = comma_expression(state, x)?;
    subject(state, offset, a)
}
