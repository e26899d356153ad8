//! The arguments of calls, as a list of terms.

ghost use Rattle.std.specs.Prelude.{◌≡◌, ◌++◌, IfOk, OnOk};
ghost use Rattle.c_ast.specs.Productions as l;
ghost use Rattle.c_ast.specs.Nodes.{many, opt, node};
ghost use Rattle.c_ast.specs.Expressions.{expr_tree, list_children, next};
ghost use Rattle.c_check_def.specs.Expressions.{arguments, more_arguments};
ghost use Rattle.c_check_state.specs.Frames.{KeepsDeclarations};

use crate::expressions::expression;
use base::NoMemory;
use c_ast::{Expr, ExprList, Next};
use c_check_state::{State, Term};

// The arguments of a call, if it has any.
#[cycle(expression)]
pub(crate) fn arguments(state: &mut State, xs: &Option<ExprList>) -> Result<Vec<Term>, NoMemory>
    ensures value { IfOk result (λ r. r.items ≡
        (arguments (opt l.Arguments list_children xs.now) state.old).0) }
    ensures state { OnOk result (state.new ≡
        (arguments (opt l.Arguments list_children xs.now) state.old).1) }
    ensures keeps { OnOk result (KeepsDeclarations state.old state.new) }
{
    match xs {
        Some(xs) => some_arguments(state, xs),
        None => Ok(Vec::new(state.alloc())),
    }
}

#[cycle(expression)]
#[tactic(auto, unfolding(c_ast::specs::Expressions::list_children))]
fn some_arguments(state: &mut State, xs: &ExprList) -> Result<Vec<Term>, NoMemory>
    ensures value { IfOk result (λ r. r.items ≡
        (arguments (node (l.Present l.Arguments) (list_children xs.now)) state.old).0) }
    ensures state { OnOk result (state.new ≡
        (arguments (node (l.Present l.Arguments) (list_children xs.now)) state.old).1) }
    ensures keeps { OnOk result (KeepsDeclarations state.old state.new) }
{
    let a = expression(state, xs.first.get())?;
    let mut all = Vec::new(state.alloc());
    all.push(a)?;
    more_arguments(state, all, xs.more.as_slice())
}

// The arguments after commas, after others.
#[cycle(expression)]
#[tactic(auto, using(crate::proofs::lemmas::Lists::grows))]
fn more_arguments(
    state: &mut State,
    before: Vec<Term>,
    more: &[Next<Expr>],
) -> Result<Vec<Term>, NoMemory>
    ensures value { IfOk result (λ r. r.items ≡ before.items ++ (more_arguments
        (many l.MoreAssigns (next expr_tree) more.now) state.old).0) }
    ensures state { OnOk result (state.new ≡ (more_arguments
        (many l.MoreAssigns (next expr_tree) more.now) state.old).1) }
    ensures keeps { OnOk result (KeepsDeclarations state.old state.new) }
{
    let mut all = before;
    for part in more {
        let a = expression(state, &part.element)?;
        all.push(a)?;
    }
    Ok(all)
}
