//! Clauses of statements that may be left out.

ghost use Rattle.std.specs.Prelude.{◌≡◌, IfOk, OnOk};
ghost use Rattle.c_ast.specs.Statements.{clause};
ghost use Rattle.c_check_def.specs.Statements.{condition_clause, value_clause};
ghost use Rattle.c_check_state.specs.Frames.{KeepsDeclarations};

use crate::comma_expression;
use crate::values::{condition, whole};
use base::NoMemory;
use c_ast::ExprList;
use c_check_state::State;
use c_typed::TExpr;

/// A condition that may be left out, of the statement at an offset (ISO/IEC 9899:2011, 6.8.5.3).
pub fn condition_clause(
    state: &mut State,
    offset: u32,
    x: &Option<ExprList>,
) -> Result<Option<TExpr>, NoMemory>
    ensures value { IfOk result
        (λ r. r ≡ (condition_clause offset (clause x.now) state.old).0) }
    ensures state { OnOk result
        (state.new ≡ (condition_clause offset (clause x.now) state.old).1) }
    ensures keeps { OnOk result (KeepsDeclarations state.old state.new) }
{
    match x {
        Some(x) => {
            let a = comma_expression(state, x)?;
            condition(state, offset, a)
        }
        None => Ok(None),
    }
}

/// An expression that may be left out.
pub fn value_clause(state: &mut State, x: &Option<ExprList>) -> Result<Option<TExpr>, NoMemory>
    ensures value { IfOk result (λ r. r ≡ (value_clause (clause x.now) state.old).0) }
    ensures state { OnOk result (state.new ≡ (value_clause (clause x.now) state.old).1) }
    ensures keeps { OnOk result (KeepsDeclarations state.old state.new) }
{
    match x {
        Some(x) => {
            let a = comma_expression(state, x)?;
            whole(state, x.start(), a)
        }
        None => Ok(None),
    }
}
