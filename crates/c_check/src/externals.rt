//! The walk over the declarations of a file.

ghost use Rattle.std.specs.Prelude.{◌≡◌, ◌∷◌, [], OnOk};
ghost use Rattle.c_ast.specs.Nodes.{many};
ghost use Rattle.c_ast.specs.Productions as l;
ghost use Rattle.c_ast.specs.declared.external.External.TheVariants as variant;
ghost use Rattle.c_ast.specs.Externals.{external_tree};
ghost use Rattle.c_check_def.specs.Externals.{external};
ghost use Rattle.c_check_def.specs.Check.{externals};
ghost use Rattle.c_check.specs.Functions.{unless_broken};

use crate::functions::function;
use crate::structure;
use base::NoMemory;
use c_ast::{External, Function, Globals};
use c_check_declaration::{global_declared, more_globals};
use c_check_state::{State, specified_type};

/// The declarations of a file in order, up to the first one that breaks a rule (ISO/IEC 9899:2011,
/// 6.9).
pub(crate) fn externals(state: &mut State, xs: &[External]) -> Result<(), NoMemory>
    ensures { OnOk result (state.new ≡
        (externals (many l.Externals (λ x. external_tree x ∷ []) xs.now) state.old).1) }
{
    for x in xs {
        unless_broken(state, x)?;
    }
    Ok(())
}

// A declaration, unless a rule is broken before.
fn unless_broken(state: &mut State, x: &External) -> Result<(), NoMemory>
    ensures { OnOk result (state.new ≡ (unless_broken (external_tree x.now) state.old).1) }
{
    if state.broken().is_some() {
        Ok(())
    } else {
        external(state, x)
    }
}

#[tactic(auto, using(crate::proofs::ExternalLemmas::external_struct))]
fn external(state: &mut State, x: &External) -> Result<(), NoMemory>
    ensures { OnOk result (state.new ≡ (external (external_tree x.now) state.old).1) }
{
    match x {
        External::Struct(x) => structure(state, x),
        External::Function(x) => external_function(state, x),
        External::Globals(x) => external_globals(state, x),
    }
}

fn external_function(state: &mut State, x: &Function) -> Result<(), NoMemory>
    ensures { OnOk result
        (state.new ≡ (external (external_tree (variant.Function x.now)) state.old).1) }
{
    let specified = specified_type(state, &x.specifiers.spec)?;
    function(state, x.specifiers.start(), &specified, x)
}

fn external_globals(state: &mut State, x: &Globals) -> Result<(), NoMemory>
    ensures { OnOk result
        (state.new ≡ (external (external_tree (variant.Globals x.now)) state.old).1) }
{
    let specified = specified_type(state, &x.specifiers.spec)?;
    let is_const = x.specifiers.qualifier.is_some();
    global_declared(state, &specified, is_const, &x.first)?;
    more_globals(state, &specified, is_const, x.more.as_slice())
}
