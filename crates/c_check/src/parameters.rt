//! The parameters that a function declares.

ghost use Rattle.std.specs.Prelude.{◌≡◌, ◌∷◌, ◌++◌, [], length, is_some, option_map, Some, IfOk, OnOk};
ghost use Rattle.c_ast.specs.Declarations.{open_dimensions as dimension_trees};
ghost use Rattle.c_ast.specs.Expressions.{next};
ghost use Rattle.c_ast.specs.Externals.{param as param_tree, params as params_tree};
ghost use Rattle.c_ast.specs.Nodes.{many, opt, name as name_tree};
ghost use Rattle.c_ast.specs.Productions as l;
ghost use Rattle.c_ast.specs.Specifiers.{constant, spec_tree};
ghost use Rattle.c_ast.specs.Tree.{Nil, Cons};
ghost use Rattle.c_ast.specs.declared.token.Identifier.{Identifier as Named};
ghost use Rattle.c_check_def.specs.Externals.{declare_if, param, param_offset, more_params, params};
ghost use Rattle.c_check_def.specs.Leaves.{begin_of};
ghost use Rattle.c_check.specs.Params.{param_named, param_typed, param_specified};

use crate::param::Param;
use base::{Name, NoMemory};
use c_ast::{Identifier, Next, Params};
use c_check_declaration::{is_fixed, open_dimensions};
use c_check_def::{Dimension, Meaning};
use c_check_state::{MaybeType, Specified, State, param_type, specified_type};

/// The parameters that a function declares, in order; none where it is a lone `void` (ISO/IEC
/// 9899:2011, 6.7.6.3). Each is a variable of the function, and its name is in scope.
pub fn params(state: &mut State, x: &Option<Params>) -> Result<Vec<Param>, NoMemory>
    ensures value { IfOk result (λ r. r.items ≡ (params (params_tree x.now) state.old).0) }
    ensures state { OnOk result (state.new ≡ (params (params_tree x.now) state.old).1) }
{
    match x {
        Some(x) => some_params(state, x),
        None => Ok(Vec::new(state.alloc())),
    }
}

fn some_params(state: &mut State, x: &Params) -> Result<Vec<Param>, NoMemory>
    ensures value { IfOk result
        (λ r. r.items ≡ (params (params_tree (Some x.now)) state.old).0) }
    ensures state { OnOk result (state.new ≡ (params (params_tree (Some x.now)) state.old).1) }
{
    let mut all = Vec::new(state.alloc());
    if x.are_none() {
        return Ok(all);
    }
    let first = param(state, &x.first)?;
    all.push(first)?;
    more_params(state, x.more.as_slice(), &mut all)?;
    Ok(all)
}

fn more_params(
    state: &mut State,
    more: &[Next<c_ast::Param>],
    out: &mut Vec<Param>,
) -> Result<(), NoMemory>
    ensures params { OnOk result (out.new.items ≡ out.old.items ++
        (more_params (many l.MoreParams (next param_tree) more.now) state.old).0) }
    ensures state { OnOk result (state.new ≡
        (more_params (many l.MoreParams (next param_tree) more.now) state.old).1) }
{
    for next in more {
        let one = param(state, &next.element)?;
        out.push(one)?;
    }
    Ok(())
}

fn param(state: &mut State, x: &c_ast::Param) -> Result<Param, NoMemory>
    ensures value { IfOk result (λ r. r ∷ [] ≡ (param (param_tree x.now) state.old).0) }
    ensures state { OnOk result (state.new ≡ (param (param_tree x.now) state.old).1) }
{
    let specified = specified_type(state, &x.spec)?;
    let offset = offset_of(x);
    param_specified(state, offset, &specified, x)
}

// The offset of the name of a parameter, or else of its first token.
fn offset_of(x: &c_ast::Param) -> u32
    ensures { result ≡ param_offset
        (begin_of (Cons (constant x.now.qualifier) (Cons (spec_tree x.now.spec) Nil)))
        (opt l.ParamName (λ i. name_tree i ∷ []) x.now.name) }
{
    match &x.name {
        Some(name) => name.span.at,
        None => begin(x),
    }
}

#[tactic(auto, unfolding(c_ast::specs::Spelling::spelled))]
fn begin(x: &c_ast::Param) -> u32
    ensures { result ≡
        begin_of (Cons (constant x.now.qualifier) (Cons (spec_tree x.now.spec) Nil)) }
{
    match x.qualifier {
        Some(span) => span.at,
        None => x.spec.start(),
    }
}

// A parameter of this type specifier, from its dimensions on.
fn param_specified(
    state: &mut State,
    offset: u32,
    specified: &Specified,
    x: &c_ast::Param,
) -> Result<Param, NoMemory>
    ensures value { IfOk result (λ r. r ≡ (param_specified offset specified.now
        (is_some x.now.qualifier) (length x.now.stars)
        (option_map (λ (i : Named). i.name) x.now.name)
        (dimension_trees x.now.dimensions) state.old).0) }
    ensures state { OnOk result (state.new ≡ (param_specified offset specified.now
        (is_some x.now.qualifier) (length x.now.stars)
        (option_map (λ (i : Named). i.name) x.now.name)
        (dimension_trees x.now.dimensions) state.old).1) }
{
    let dimensions = open_dimensions(state, x.dimensions.as_slice())?;
    let stars = x.stars.len();
    let fixed = is_fixed(x.qualifier.is_some(), stars);
    param_typed(state, offset, specified, fixed, stars, &x.name, &dimensions)
}

// A parameter of these dimensions, from its type on.
#[tactic(auto, unfolding(crate::specs::Params::param_typed))]
fn param_typed(
    state: &mut State,
    offset: u32,
    specified: &Specified,
    fixed: bool,
    stars: usize,
    name: &Option<Identifier>,
    dimensions: &[Dimension],
) -> Result<Param, NoMemory>
    ensures value { IfOk result (λ r. r ≡ (param_typed offset specified.now fixed stars
        (option_map (λ (i : Named). i.name) name.now) dimensions.now state.old).0) }
    ensures state { OnOk result (state.new ≡ (param_typed offset specified.now fixed stars
        (option_map (λ (i : Named). i.name) name.now) dimensions.now state.old).1) }
{
    let ty = param_type(state, offset, specified, stars, dimensions)?;
    param_named(state, offset, fixed, name, ty)
}

// A parameter of this type, which becomes a variable.
fn param_named(
    state: &mut State,
    offset: u32,
    fixed: bool,
    name: &Option<Identifier>,
    ty: MaybeType,
) -> Result<Param, NoMemory>
    ensures value { IfOk result (λ r. r ≡ (param_named
        (option_map (λ (i : Named). i.name) name.now) offset fixed ty state.old).0) }
    ensures state { OnOk result (state.new ≡ (param_named
        (option_map (λ (i : Named). i.name) name.now) offset fixed ty state.old).1) }
{
    let shared = ty.copy()?;
    let slot = state.add_variable(shared)?;
    let meaning = Meaning::Variable {
        slot,
        is_const: fixed,
    };
    declare_if(state, name, offset, meaning)?;
    let name = copied_name(name)?;
    Ok(Param {
        name,
        offset,
        ty,
        is_const: fixed,
    })
}

fn declare_if(
    state: &mut State,
    name: &Option<Identifier>,
    offset: u32,
    meaning: Meaning,
) -> Result<(), NoMemory>
    ensures { OnOk result (state.new ≡ (declare_if
        (option_map (λ (i : Named). i.name) name.now) offset meaning state.old).1) }
{
    match name {
        Some(name) => state.declare(&name.name, offset, meaning),
        None => Ok(()),
    }
}

fn copied_name(name: &Option<Identifier>) -> Result<Option<Name>, NoMemory>
    ensures { IfOk result (λ r. r ≡ option_map (λ (i : Named). i.name) name.now) }
{
    match name {
        Some(name) => Ok(Some(name.name.clone()?)),
        None => Ok(None),
    }
}
