//! Calls, and what is called.

ghost use Rattle.std.specs.Prelude.{◌≡◌, false, [], ◌∷◌, MatchOption, IfOk, OnOk};
ghost use Rattle.c_ast.specs.Productions as l;
ghost use Rattle.c_ast.specs.Nodes.{opt, node, name};
ghost use Rattle.c_ast.specs.Expressions.{expr_tree, list_children};
ghost use Rattle.c_check_def.specs.State.{after};
ghost use Rattle.c_check_def.specs.Calls.{called};
ghost use Rattle.c_check_def.specs.Expressions.{arguments};
ghost use Rattle.c_check_expression.specs.Called.{is_name, called_of};
ghost use Rattle.c_check_state.specs.Frames.{KeepsDeclarations};

use crate::arguments::arguments;
use crate::expressions::expression;
use base::NoMemory;
use c_ast::{Expr, ExprList, Identifier, Span};
use c_check_def::Called;
use c_check_state::{State, Term};
use c_check_term::{called, called_name, called_term};

// The arguments of a call.
#[cycle(expression)]
pub(crate) fn call(
    state: &mut State,
    f: Called,
    bracket: Span,
    xs: &Option<ExprList>,
) -> Result<Term, NoMemory>
    ensures value { IfOk result (λ r. r ≡
        (after (arguments (opt l.Arguments list_children xs.now) state.old)
        (called bracket.at f)).0) }
    ensures state { OnOk result (state.new ≡
        (after (arguments (opt l.Arguments list_children xs.now) state.old)
        (called bracket.at f)).1) }
    ensures keeps { OnOk result (KeepsDeclarations state.old state.new) }
{
    let es = arguments(state, xs)?;
    called(state, bracket.at, f, es)
}

// What is called: a function by its name, or another expression.
#[cycle(expression)]
pub(crate) fn called_function(state: &mut State, function: &Expr) -> Result<Called, NoMemory>
    ensures value { IfOk result (λ r. r ≡ (called_of (expr_tree function.now) state.old).0) }
    ensures state { OnOk result
        (state.new ≡ (called_of (expr_tree function.now) state.old).1) }
    ensures keeps { OnOk result (KeepsDeclarations state.old state.new) }
{
    match name_in(function) {
        Some(name) => called_name(state, &name.name, name.span.at),
        None => other_function(state, function),
    }
}

#[cycle(expression)]
#[tactic(auto, using(crate::proofs::ShapeLemmas::called_other))]
fn other_function(state: &mut State, function: &Expr) -> Result<Called, NoMemory>
    requires { is_name (expr_tree function.now) ≡ false }
    ensures value { IfOk result (λ r. r ≡ (called_of (expr_tree function.now) state.old).0) }
    ensures state { OnOk result
        (state.new ≡ (called_of (expr_tree function.now) state.old).1) }
    ensures keeps { OnOk result (KeepsDeclarations state.old state.new) }
{
    let a = expression(state, function)?;
    Ok(called_term(a))
}

// The name that an expression is.
#[tactic(auto, using(c_ast::proofs::lemmas::ExprViews::expr_views, crate::proofs::ShapeLemmas::select_unnamed))]
fn name_in(e: &Expr) -> Option<&Identifier>
    ensures { MatchOption result (is_name (expr_tree e.now) ≡ false)
        (λ i. expr_tree e.now ≡ node l.Name (name i.now ∷ [])) }
{
    match e {
        Expr::Name(name) => Some(name),
        Expr::Number { .. } | Expr::Char { .. } | Expr::Text { .. } | Expr::Paren { .. } => None,
        Expr::Index { .. } | Expr::Call { .. } | Expr::Select { .. } => None,
        Expr::PostIncrement { .. } | Expr::Increment { .. } | Expr::Unary { .. } => None,
        Expr::Sizeof { .. } | Expr::SizeofType { .. } | Expr::Cast { .. } => None,
        Expr::Binary { .. } | Expr::Conditional { .. } | Expr::Assign { .. } => None,
    }
}
