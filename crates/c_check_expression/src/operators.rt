//! The walk over operators and their operands.

ghost use Rattle.std.specs.Prelude.{◌≡◌, true, false, option_map, IfOk, OnOk};
ghost use Rattle.c_ast.specs.Expressions.{expr_tree, list_tree, type_tree};
ghost use Rattle.c_check_def.specs.OperandValues.{operand_type};
ghost use Rattle.c_check_def.specs.State.{after};
ghost use Rattle.c_check_def.specs.Operands.{indexed, selected, stepped, unary, measured, cast, binary, conditional, assigned};
ghost use Rattle.c_check_def.specs.Expressions.{expression, expressions, type_name};
ghost use Rattle.c_check_state.specs.Frames.{KeepsDeclarations};

use crate::commas::comma_expression;
use crate::expressions::expression;
use crate::type_names::type_name;
use base::NoMemory;
use c_ast::{
    AssignOp, BinaryOp, Expr, ExprList, Identifier, IncDec, Selection, Span, TypeName, UnaryOp,
};
use c_check_state::{MaybeType, State, Term};
use c_check_term::{
    assigned, binary, cast, conditional, indexed, measured_term, measured_type, selected, stepped,
    unary,
};

// The index of an array, or of a pointer.
#[cycle(expression)]
pub(crate) fn index_expression(
    state: &mut State,
    a: Term,
    bracket: Span,
    index: &ExprList,
) -> Result<Term, NoMemory>
    ensures value { IfOk result (λ r. r ≡
        (after (expressions (list_tree index.now) state.old) (indexed bracket.at a)).0) }
    ensures state { OnOk result (state.new ≡
        (after (expressions (list_tree index.now) state.old) (indexed bracket.at a)).1) }
    ensures keeps { OnOk result (KeepsDeclarations state.old state.new) }
{
    let i = comma_expression(state, index)?;
    indexed(state, bracket.at, a, i)
}

// `.` or `->` and a member's name.
#[cycle(expression)]
pub(crate) fn select(
    state: &mut State,
    object: &Expr,
    selection: Selection,
    span: Span,
    member: &Identifier,
) -> Result<Term, NoMemory>
    ensures value { IfOk result (λ r. r ≡ (after (expression (expr_tree object.now) state.old)
        (selected selection span.at member.now.name member.now.span.at)).0) }
    ensures state { OnOk result
        (state.new ≡ (after (expression (expr_tree object.now) state.old)
        (selected selection span.at member.now.name member.now.span.at)).1) }
    ensures keeps { OnOk result (KeepsDeclarations state.old state.new) }
{
    let a = expression(state, object)?;
    selected(state, selection, span.at, &member.name, member.span.at, a)
}

// `++` or `--` after its operand.
#[cycle(expression)]
pub(crate) fn post_increment(
    state: &mut State,
    operand: &Expr,
    op: IncDec,
    span: Span,
) -> Result<Term, NoMemory>
    ensures value { IfOk result (λ r. r ≡ (after (expression (expr_tree operand.now) state.old)
        (stepped op span.at true)).0) }
    ensures state { OnOk result
        (state.new ≡ (after (expression (expr_tree operand.now) state.old)
        (stepped op span.at true)).1) }
    ensures keeps { OnOk result (KeepsDeclarations state.old state.new) }
{
    let a = expression(state, operand)?;
    stepped(state, op, span.at, true, a)
}

// `++` or `--` in front of its operand.
#[cycle(expression)]
pub(crate) fn increment(
    state: &mut State,
    op: IncDec,
    span: Span,
    operand: &Expr,
) -> Result<Term, NoMemory>
    ensures value { IfOk result (λ r. r ≡ (after (expression (expr_tree operand.now) state.old)
        (stepped op span.at false)).0) }
    ensures state { OnOk result
        (state.new ≡ (after (expression (expr_tree operand.now) state.old)
        (stepped op span.at false)).1) }
    ensures keeps { OnOk result (KeepsDeclarations state.old state.new) }
{
    let a = expression(state, operand)?;
    stepped(state, op, span.at, false, a)
}

// Another operator in front of its operand.
#[cycle(expression)]
pub(crate) fn unary_expression(
    state: &mut State,
    op: UnaryOp,
    span: Span,
    operand: &Expr,
) -> Result<Term, NoMemory>
    ensures value { IfOk result (λ r. r ≡ (after (expression (expr_tree operand.now) state.old)
        (unary op span.at)).0) }
    ensures state { OnOk result
        (state.new ≡ (after (expression (expr_tree operand.now) state.old)
        (unary op span.at)).1) }
    ensures keeps { OnOk result (KeepsDeclarations state.old state.new) }
{
    let a = expression(state, operand)?;
    unary(state, op, span.at, a)
}

// `sizeof` and an expression, which is not evaluated.
#[cycle(expression)]
pub(crate) fn sizeof_expression(
    state: &mut State,
    keyword: Span,
    operand: &Expr,
) -> Result<Term, NoMemory>
    ensures value { IfOk result (λ r. r ≡ (after (expression (expr_tree operand.now) state.old)
        (λ a. measured keyword.at (option_map operand_type a))).0) }
    ensures state { OnOk result
        (state.new ≡ (after (expression (expr_tree operand.now) state.old)
        (λ a. measured keyword.at (option_map operand_type a))).1) }
    ensures keeps { OnOk result (KeepsDeclarations state.old state.new) }
{
    let a = expression(state, operand)?;
    measured_term(state, keyword.at, a)
}

// `sizeof` and a type name.
#[cycle(expression)]
pub(crate) fn sizeof_type(
    state: &mut State,
    keyword: Span,
    operand: &TypeName,
) -> Result<Term, NoMemory>
    ensures value { IfOk result (λ r. r ≡
        (after (type_name (type_tree operand.now) state.old) (measured keyword.at)).0) }
    ensures state { OnOk result (state.new ≡
        (after (type_name (type_tree operand.now) state.old) (measured keyword.at)).1) }
    ensures keeps { OnOk result (KeepsDeclarations state.old state.new) }
{
    let t = type_name(state, operand)?;
    measured_type(state, keyword.at, t)
}

// The operand of a cast.
#[cycle(expression)]
pub(crate) fn cast_expression(
    state: &mut State,
    bracket: Span,
    t: MaybeType,
    operand: &Expr,
) -> Result<Term, NoMemory>
    ensures value { IfOk result (λ r. r ≡
        (after (expression (expr_tree operand.now) state.old) (cast bracket.at t)).0) }
    ensures state { OnOk result (state.new ≡
        (after (expression (expr_tree operand.now) state.old) (cast bracket.at t)).1) }
    ensures keeps { OnOk result (KeepsDeclarations state.old state.new) }
{
    let a = expression(state, operand)?;
    cast(state, bracket.at, t, a)
}

// The right operand of a binary operator.
#[cycle(expression)]
pub(crate) fn binary_expression(
    state: &mut State,
    a: Term,
    op: BinaryOp,
    span: Span,
    right: &Expr,
) -> Result<Term, NoMemory>
    ensures value { IfOk result (λ r. r ≡ (after (expression (expr_tree right.now) state.old)
        (binary op span.at a)).0) }
    ensures state { OnOk result (state.new ≡ (after (expression (expr_tree right.now) state.old)
        (binary op span.at a)).1) }
    ensures keeps { OnOk result (KeepsDeclarations state.old state.new) }
{
    let b = expression(state, right)?;
    binary(state, op, span.at, a, b)
}

// The last operand of `?:`.
#[cycle(expression)]
pub(crate) fn conditional_expression(
    state: &mut State,
    question: Span,
    c: Term,
    a: Term,
    otherwise: &Expr,
) -> Result<Term, NoMemory>
    ensures value { IfOk result (λ r. r ≡
        (after (expression (expr_tree otherwise.now) state.old)
        (conditional question.at c a)).0) }
    ensures state { OnOk result (state.new ≡
        (after (expression (expr_tree otherwise.now) state.old)
        (conditional question.at c a)).1) }
    ensures keeps { OnOk result (KeepsDeclarations state.old state.new) }
{
    let b = expression(state, otherwise)?;
    conditional(state, question.at, c, a, b)
}

// The value of an assignment.
#[cycle(expression)]
pub(crate) fn assignment(
    state: &mut State,
    a: Term,
    op: AssignOp,
    span: Span,
    value: &Expr,
) -> Result<Term, NoMemory>
    ensures value { IfOk result (λ r. r ≡ (after (expression (expr_tree value.now) state.old)
        (assigned op span.at a)).0) }
    ensures state { OnOk result (state.new ≡ (after (expression (expr_tree value.now) state.old)
        (assigned op span.at a)).1) }
    ensures keeps { OnOk result (KeepsDeclarations state.old state.new) }
{
    let b = expression(state, value)?;
    assigned(state, op, span.at, a, b)
}
