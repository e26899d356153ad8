//! Comma expressions.

ghost use Rattle.std.specs.Prelude.{◌≡◌, IfOk, OnOk};
ghost use Rattle.c_ast.specs.Productions as l;
ghost use Rattle.c_ast.specs.Nodes.{many};
ghost use Rattle.c_ast.specs.Expressions.{expr_tree, list_tree, next};
ghost use Rattle.c_check_def.specs.Expressions.{expressions, more_expressions};
ghost use Rattle.c_check_state.specs.Frames.{KeepsDeclarations};

use crate::expressions::expression;
use base::NoMemory;
use c_ast::{Expr, ExprList, Next};
use c_check_state::{State, Term};
use c_check_term::{Sequence, comma, first_of, sequence_term};

/// What expressions with commas between them are (ISO/IEC 9899:2011, 6.5.17), or one without.
#[cycle(expression)]
#[tactic(auto, unfolding(c_ast::specs::Expressions::list_children))]
pub fn comma_expression(state: &mut State, es: &ExprList) -> Result<Term, NoMemory>
    ensures value { IfOk result (λ r. r ≡ (expressions (list_tree es.now) state.old).0) }
    ensures state { OnOk result (state.new ≡ (expressions (list_tree es.now) state.old).1) }
    ensures keeps { OnOk result (KeepsDeclarations state.old state.new) }
{
    let a = expression(state, es.first.get())?;
    let first = first_of(state.alloc(), a);
    let all = more_expressions(state, first, es.more.as_slice())?;
    sequence_term(state.alloc(), all)
}

// The expressions after commas.
#[cycle(expression)]
#[tactic(auto, using(crate::proofs::lemmas::Lists::grows))]
fn more_expressions(
    state: &mut State,
    first: Option<Sequence>,
    more: &[Next<Expr>],
) -> Result<Option<Sequence>, NoMemory>
    ensures value { IfOk result (λ r. r ≡ (more_expressions first
        (many l.MoreAssigns (next expr_tree) more.now) state.old).0) }
    ensures state { OnOk result (state.new ≡ (more_expressions first
        (many l.MoreAssigns (next expr_tree) more.now) state.old).1) }
    ensures keeps { OnOk result (KeepsDeclarations state.old state.new) }
{
    let mut all = first;
    for part in more {
        let b = expression(state, &part.element)?;
        all = comma(state, part.comma.at, all, b)?;
    }
    Ok(all)
}
