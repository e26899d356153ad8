//! From a source to its typed program.

ghost use Rattle.std.specs.Prelude.{◌≡◌, IfErr, IfOk, None};
ghost use Rattle.c_ast.specs.Externals.{unit_tree};
ghost use Rattle.c_typed.specs.WellTyped.{IsWellTyped};
ghost use Rattle.c_check_def.specs.Limits.{above_limits};
ghost use Rattle.cc_source.specs.Accepted.{Accepts, Checks, HasTree, Refuses};

use crate::fault::CompileFault;
use c_ast::Unit;
use c_check::check;
use c_lex::lex;
use c_parse::parse;
use c_typed::Typed;
use g_build::{BuildFault, limit_passed};
use std::alloc::Global;

// The tree of a source.
fn tree_of(alloc: Global, source: &[u8]) -> Result<Unit, CompileFault>
    ensures tree { IfOk result (λ unit. HasTree source.now (unit_tree unit)) }
    ensures refused { IfErr result (λ e. Refuses e source.now) }
{
    let tokens = lex(alloc, source)?;
    Ok(parse(alloc, &tokens, source.len() as u32)?)
}

/// The typed program of a source. `Lex`, `Parse` and `Check` come exactly where that phase refuses
/// the source, with its fault, and `NoMemory` may come in place of any answer.
pub fn typed_of(alloc: Global, source: &[u8]) -> Result<Typed, CompileFault>
    ensures checked { IfOk result (λ p. Checks source.now p) }
    ensures typed { IfOk result (λ p. IsWellTyped p) }
    ensures limits { IfOk result (λ p. above_limits p ≡ None) }
    ensures refused { IfErr result (λ e. Refuses e source.now) }
{
    crate::accepted_laws::checked_are_well_typed();
    let unit = tree_of(alloc, source)?;
    let checked = check(alloc, &unit, source.len() as u32);
    drop(unit);
    Ok(checked?)
}

/// The typed program of a source that is accepted. `Lex`, `Parse`, `Check` and `Build` come exactly
/// where that phase refuses the source, with its fault, and `NoMemory` may come in place of any
/// answer.
pub fn accepted_of(alloc: Global, source: &[u8]) -> Result<Typed, CompileFault>
    ensures accepted { IfOk result (λ p. Accepts source.now p) }
    ensures typed { IfOk result (λ p. IsWellTyped p) }
    ensures limits { IfOk result (λ p. above_limits p ≡ None) }
    ensures refused { IfErr result (λ e. Refuses e source.now) }
{
    let typed = typed_of(alloc, source)?;
    match limit_passed(&typed.functions) {
        Some(passed) => Err(CompileFault::Build(BuildFault::Limit(passed))),
        None => Ok(typed),
    }
}
