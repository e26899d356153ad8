//! Declarations of variables in blocks.
#![tactic(auto, using(crate::proofs::lemmas::Declarations::items))]

ghost use Rattle.std.specs.Prelude.{◌≡◌, length, slice_get, IfOk, OnOk};
ghost use Rattle.c_ast.specs.Declarations.{initializer, open_dimensions as dimension_trees, declarator as declarator_tree, more_declarators as declarator_trees, locals_tree};
ghost use Rattle.c_typed.specs.StmtViews.{declaration_of, initial_of as initial_tree, items_of};
ghost use Rattle.c_check_def.specs.Declarators.{is_fixed, is_named, variable_declarator, variable_declared, items_joined, declarator, more_declarators, locals};
ghost use Rattle.c_check_def.specs.Leaves.{is_present};
ghost use Rattle.c_check_declaration.specs.Bounds.{variable_begun, variable_named, variable_typed};

use crate::dimensions::open_dimensions;
use crate::variables::initialise_variable;
use base::NoMemory;
use c_ast::{Declarator, Identifier, Initializer, Locals, Next};
use c_check_def::{Dimension, Meaning};
use c_check_state::{MaybeType, Specified, State, object_type, specified_type};
use c_typed::{Declaration, Initial, Item};

/// Appends the variables that a declaration in a block declares, in order, to the items of the
/// block (ISO/IEC 9899:2011, 6.7). A variable is in scope after its declarator, so also in its own
/// initialiser.
pub fn locals(state: &mut State, x: &Locals, out: &mut Vec<Item>) -> Result<(), NoMemory>
    ensures items { OnOk result (items_of out.new.items ≡
        items_joined (items_of out.old.items) (locals (locals_tree x.now) state.old).0) }
    ensures state { OnOk result (state.new ≡ (locals (locals_tree x.now) state.old).1) }
{
    let specified = specified_type(state, x.spec.get())?;
    let is_const = x.qualifier.is_some();
    declarator(state, &specified, is_const, x.first.get(), out)?;
    more_declarators(state, &specified, is_const, x.more.as_slice(), out)
}

fn more_declarators(
    state: &mut State,
    x: &Specified,
    is_const: bool,
    more: &[Next<Declarator>],
    out: &mut Vec<Item>,
) -> Result<(), NoMemory>
    ensures items { OnOk result (items_of out.new.items ≡ items_joined (items_of out.old.items)
        (more_declarators x.now is_const (declarator_trees more.now) state.old).0) }
    ensures state { OnOk result (state.new ≡
        (more_declarators x.now is_const (declarator_trees more.now) state.old).1) }
{
    for next in more {
        declarator(state, x, is_const, &next.element, out)?;
    }
    Ok(())
}

fn declarator(
    state: &mut State,
    x: &Specified,
    is_const: bool,
    d: &Declarator,
    out: &mut Vec<Item>,
) -> Result<(), NoMemory>
    ensures items { OnOk result (items_of out.new.items ≡ items_joined (items_of out.old.items)
        (declarator x.now is_const (declarator_tree d.now) state.old).0) }
    ensures state { OnOk result
        (state.new ≡ (declarator x.now is_const (declarator_tree d.now) state.old).1) }
{
    let declaration = variable_declarator(state, x, is_const, d)?;
    out.push(Item::Variable(declaration))?;
    Ok(())
}

fn variable_declarator(
    state: &mut State,
    x: &Specified,
    is_const: bool,
    d: &Declarator,
) -> Result<Declaration, NoMemory>
    ensures value { IfOk result (λ r. declaration_of r ≡
        (variable_declarator x.now is_const (length d.now.stars) d.now.name.name
        d.now.name.span.at (dimension_trees d.now.dimensions)
        (initializer d.now.initializer) state.old).0) }
    ensures state { OnOk result (state.new ≡
        (variable_declarator x.now is_const (length d.now.stars) d.now.name.name
        d.now.name.span.at (dimension_trees d.now.dimensions)
        (initializer d.now.initializer) state.old).1) }
{
    let dimensions = open_dimensions(state, d.dimensions.as_slice())?;
    let stars = d.stars.len();
    let fixed = is_fixed(is_const, stars);
    variable_typed(state, x, fixed, stars, &d.name, &dimensions, &d.initializer)
}

#[tactic(auto, unfolding(crate::specs::Bounds::variable_typed))]
fn variable_typed(
    state: &mut State,
    x: &Specified,
    fixed: bool,
    stars: usize,
    name: &Identifier,
    dimensions: &[Dimension],
    begun: &Option<Initializer>,
) -> Result<Declaration, NoMemory>
    ensures value { IfOk result (λ r. declaration_of r ≡ (variable_typed x.now fixed stars
        name.now.name name.now.span.at dimensions.now (initializer begun.now) state.old).0) }
    ensures state { OnOk result (state.new ≡ (variable_typed x.now fixed stars
        name.now.name name.now.span.at dimensions.now (initializer begun.now) state.old).1) }
{
    let may_be_empty = is_begun(begun);
    let ty = object_type(state, may_be_empty, name.span.at, x, stars, dimensions)?;
    variable_named(state, fixed, name, ty, begun)
}

// Whether a declarator has an initialiser.
pub(crate) fn is_begun(x: &Option<Initializer>) -> bool
    ensures { result ≡ is_present (initializer x.now) }
{
    match x {
        Some(_) => true,
        None => false,
    }
}

fn variable_named(
    state: &mut State,
    fixed: bool,
    name: &Identifier,
    ty: MaybeType,
    begun: &Option<Initializer>,
) -> Result<Declaration, NoMemory>
    ensures value { IfOk result (λ r. declaration_of r ≡ (variable_named fixed
        name.now.name name.now.span.at ty (initializer begun.now) state.old).0) }
    ensures state { OnOk result (state.new ≡ (variable_named fixed
        name.now.name name.now.span.at ty (initializer begun.now) state.old).1) }
{
    let shared = ty.copy()?;
    let slot = state.add_variable(shared)?;
    let meaning = Meaning::Variable {
        slot,
        is_const: fixed,
    };
    state.declare(&name.name, name.span.at, meaning)?;
    variable_begun(state, slot, name.span.at, &ty, begun)
}

fn variable_begun(
    state: &mut State,
    slot: u32,
    offset: u32,
    ty: &MaybeType,
    begun: &Option<Initializer>,
) -> Result<Declaration, NoMemory>
    ensures value { IfOk result (λ r. declaration_of r ≡
        (variable_begun slot offset ty.now (initializer begun.now) state.old).0) }
    ensures state { OnOk result (state.new ≡
        (variable_begun slot offset ty.now (initializer begun.now) state.old).1) }
{
    let initial = initialise_variable(state, slot, offset, ty, begun)?;
    Ok(variable_declared(state, slot, initial))
}

/// Whether a declarator with so many stars declares a variable that does not change.
pub fn is_fixed(is_const: bool, stars: usize) -> bool
    ensures { result ≡ is_fixed is_const stars }
{
    is_const && stars == 0
}

fn variable_declared(state: &State, slot: u32, initial: Initial) -> Declaration
    ensures { declaration_of result ≡
        (variable_declared slot (initial_tree initial) state.now).0 }
{
    let variable = state.variable_number(slot);
    Declaration {
        variable,
        names_itself: is_named(state, variable),
        initial,
    }
}

fn is_named(state: &State, variable: u32) -> bool
    ensures { result ≡ is_named (slice_get state.now.variables variable) }
{
    match state.variables().get(variable as usize) {
        Some(v) => v.is_named,
        None => false,
    }
}
