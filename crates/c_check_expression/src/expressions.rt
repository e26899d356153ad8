//! The walk over expressions, one call for all forms.

ghost use Rattle.std.specs.Prelude.{◌≡◌, IfOk, OnOk};
ghost use Rattle.c_ast.specs.Expressions.{expr_tree};
ghost use Rattle.c_check_def.specs.Expressions.{expression};
ghost use Rattle.c_check_state.specs.Frames.{KeepsDeclarations};

use crate::calls::{call, called_function};
use crate::commas::comma_expression;
use crate::literals::text;
use crate::operators::{
    assignment, binary_expression, cast_expression, conditional_expression, increment,
    index_expression, post_increment, select, sizeof_expression, sizeof_type, unary_expression,
};
use crate::type_names::type_name;
use base::NoMemory;
use c_ast::Expr;
use c_check_state::{State, Term};
use c_check_term::{character, named, number};

/// What an expression without commas is (ISO/IEC 9899:2011, 6.5).
#[cycle(expression)]
#[tactic(auto, using(crate::proofs::ArmLemmas::arms))]
pub fn expression(state: &mut State, e: &Expr) -> Result<Term, NoMemory>
    ensures value { IfOk result (λ r. r ≡ (expression (expr_tree e.now) state.old).0) }
    ensures state { OnOk result (state.new ≡ (expression (expr_tree e.now) state.old).1) }
    ensures keeps { OnOk result (KeepsDeclarations state.old state.new) }
{
    match e {
        Expr::Name(name) => named(state, &name.name, name.span.at),
        Expr::Number {
            value,
            unsigned,
            ..
        } => number(state.alloc(), *value, *unsigned),
        Expr::Char { value, .. } => character(state.alloc(), *value),
        Expr::Text { first, more } => text(state, first, more.as_slice()),
        Expr::Paren { inner, .. } => comma_expression(state, inner),
        Expr::Index {
            array,
            open,
            index,
            ..
        } => {
            let a = expression(state, array.get())?;
            index_expression(state, a, *open, index)
        }
        Expr::Call {
            function,
            open,
            arguments,
            ..
        } => {
            let f = called_function(state, function.get())?;
            call(state, f, *open, arguments)
        }
        Expr::Select {
            object,
            selection,
            span,
            member,
        } => select(state, object.get(), *selection, *span, member),
        Expr::PostIncrement { operand, op, span } => {
            post_increment(state, operand.get(), *op, *span)
        }
        Expr::Increment { op, span, operand } => increment(state, *op, *span, operand.get()),
        Expr::Unary { op, span, operand } => unary_expression(state, *op, *span, operand.get()),
        Expr::Sizeof { keyword, operand } => sizeof_expression(state, *keyword, operand.get()),
        Expr::SizeofType {
            keyword,
            operand,
            ..
        } => sizeof_type(state, *keyword, operand.get()),
        Expr::Cast {
            open,
            target,
            operand,
            ..
        } => {
            let t = type_name(state, target.get())?;
            cast_expression(state, *open, t, operand.get())
        }
        Expr::Binary {
            left,
            op,
            span,
            right,
        } => {
            let a = expression(state, left.get())?;
            binary_expression(state, a, *op, *span, right.get())
        }
        Expr::Conditional {
            condition,
            question,
            then,
            otherwise,
            ..
        } => {
            let c = expression(state, condition.get())?;
            let a = comma_expression(state, then)?;
            conditional_expression(state, *question, c, a, otherwise.get())
        }
        Expr::Assign {
            target,
            op,
            span,
            value,
        } => {
            let a = expression(state, target.get())?;
            assignment(state, a, *op, *span, value.get())
        }
    }
}
