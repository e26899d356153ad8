//! Declarations and definitions of functions, with their bodies.

ghost use Rattle.std.specs.Prelude.{◌≡◌, ◌∷◌, ◌++◌, [], map, length, IfOk, OnOk};
ghost use Rattle.c_ast.specs.Externals.{params as params_tree, body_tree};
ghost use Rattle.c_ast.specs.Statements.{block_tree, items_tree};
ghost use Rattle.c_typed.specs.StmtViews.{items_of};
ghost use Rattle.c_check_def.specs.Types.{is_scalar};
ghost use Rattle.c_check_def.specs.State.{within_scope};
ghost use Rattle.c_check_def.specs.Externals.{params, variable_tree, function_tree, function};
ghost use Rattle.c_check.specs.Functions.{function_declared, function_ended, body_items};

use crate::defined::is_block;
use crate::{Param, bind_params, declare_function, name_params, params};
use base::NoMemory;
use c_ast::{Block, BlockItem, Body, Function, Identifier, Params};
use c_check_state::{MaybeType, Specified, State, Variable, or_void, result_type};
use c_check_statement::{Jumps, items};
use c_type::{CType, TypeForm};
use c_typed::{Item, TFunction, Variable as TVariable};
use std::alloc::Global;

/// A declaration or a definition of a function that begins at an offset (ISO/IEC 9899:2011,
/// 6.7.6.3, 6.9.1). Its name is in scope after its parameters.
pub(crate) fn function(
    state: &mut State,
    starts: u32,
    x: &Specified,
    f: &Function,
) -> Result<(), NoMemory>
    ensures { OnOk result (state.new ≡ (function starts x.now (length f.now.stars)
        f.now.name.name f.now.name.span.at (params_tree f.now.params) (body_tree f.now.body)
        state.old).1) }
{
    let t = result_type(state, f.name.span.at, x, f.stars.len())?;
    let ps = scoped_params(state, &f.params)?;
    function_declared(state, starts, &f.name, t, ps, &f.body)
}

// The parameters, in a scope of their own.
#[tactic(auto, using(crate::proofs::SlotLemmas::params_leave))]
fn scoped_params(state: &mut State, x: &Option<Params>) -> Result<Vec<Param>, NoMemory>
    ensures value { IfOk result
        (λ r. r.items ≡ (within_scope (params (params_tree x.now)) state.old).0) }
    ensures state { OnOk result
        (state.new ≡ (within_scope (params (params_tree x.now)) state.old).1) }
{
    let slots = state.enter()?;
    let ps = params(state, x)?;
    state.leave(slots);
    Ok(ps)
}

// A function with these parameters and a result of this type.
fn function_declared(
    state: &mut State,
    starts: u32,
    name: &Identifier,
    t: MaybeType,
    ps: Vec<Param>,
    body: &Body,
) -> Result<(), NoMemory>
    ensures { OnOk result (state.new ≡ (function_declared name.now.name name.now.span.at starts
        t ps.items (body_tree body.now) state.old).1) }
{
    declare_function(
        state,
        &name.name,
        name.span.at,
        &t,
        ps.as_slice(),
        is_block(body),
    )?;
    function_ended(state, starts, name, t, ps, body)
}

#[tactic(auto, unfolding(c_ast::specs::Externals::body_tree))]
fn function_ended(
    state: &mut State,
    starts: u32,
    name: &Identifier,
    t: MaybeType,
    ps: Vec<Param>,
    body: &Body,
) -> Result<(), NoMemory>
    ensures { OnOk result (state.new ≡ (function_ended name.now.name name.now.span.at starts
        t ps.items (body_tree body.now) state.old).1) }
{
    match body {
        Body::Block(x) => function_defined(state, starts, name, t, ps, x),
        Body::Prototype(_) => {
            drop(state.take_variables());
            Ok(())
        }
    }
}

#[tactic(auto, unfolding(c_ast::specs::Statements::block_tree))]
fn function_defined(
    state: &mut State,
    starts: u32,
    name: &Identifier,
    t: MaybeType,
    ps: Vec<Param>,
    x: &Block,
) -> Result<(), NoMemory>
    ensures { OnOk result (state.new ≡ (function_ended name.now.name name.now.span.at starts
        t ps.items (block_tree x.now) state.old).1) }
{
    name_params(state, ps.as_slice());
    let body = body_items(state, &t, ps.as_slice(), x.items.as_slice())?;
    add_function(state, starts, x.close.end, name, t, ps.len(), body)
}

// The body of a function, in a scope with its parameters.
#[tactic(auto, using(crate::proofs::SlotLemmas::body_leave))]
fn body_items(
    state: &mut State,
    t: &MaybeType,
    ps: &[Param],
    xs: &[BlockItem],
) -> Result<Vec<Item>, NoMemory>
    ensures value { IfOk result (λ r. items_of r.items ≡
        (within_scope (body_items t.now ps.now (items_tree xs.now)) state.old).0) }
    ensures state { OnOk result (state.new ≡
        (within_scope (body_items t.now ps.now (items_tree xs.now)) state.old).1) }
{
    let slots = state.enter()?;
    let mut body = Vec::new(state.alloc());
    bind_params(state, ps)?;
    items(xs, state, NO_JUMPS, t, &mut body)?;
    state.leave(slots);
    Ok(body)
}

// Appends a function that is defined, with the variables so far.
fn add_function(
    state: &mut State,
    starts: u32,
    ends: u32,
    name: &Identifier,
    t: MaybeType,
    params: usize,
    body: Vec<Item>,
) -> Result<(), NoMemory>
    ensures { OnOk result (state.new ≡ record state.old {
      functions = state.old.functions ++ function_tree name.now.name name.now.span.at
          starts ends t params state.old.variables (items_of body.items) ∷ [];
      variables = [];
    }) }
{
    if params > u32::MAX as usize {
        return Err(NoMemory);
    }
    let variables = variables(state.alloc(), state.take_variables())?;
    let ty = or_void(state.alloc(), t)?;
    state.add_function(TFunction {
        name: name.name.clone()?,
        at: name.span.at,
        starts,
        ends,
        result: ty,
        params: params as u32,
        variables,
        body,
    })
}

fn variables(alloc: Global, all: Vec<Variable>) -> Result<Vec<TVariable>, NoMemory>
    ensures { IfOk result (λ r. r.items ≡ map variable_tree all.items) }
{
    let mut out = Vec::new(alloc);
    for v in all {
        out.push(variable(alloc, v)?)?;
    }
    Ok(out)
}

fn variable(alloc: Global, v: Variable) -> Result<TVariable, NoMemory>
    ensures { IfOk result (λ r. r ≡ variable_tree v) }
{
    let ty = or_void(alloc, v.ty)?;
    let is_object = v.is_taken || !is_scalar(&ty);
    Ok(TVariable { ty, is_object })
}

fn is_scalar(t: &CType) -> bool
    ensures { result ≡ is_scalar t.now }
{
    matches!(&t.form, TypeForm::Scalar(_) | TypeForm::Pointer(_))
}

// Outside of loops and of `switch`.
const NO_JUMPS: Jumps = Jumps {
    may_break: false,
    may_continue: false,
};
