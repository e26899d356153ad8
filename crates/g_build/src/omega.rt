//! The graph of a program, once its limits are decided.

ghost use Rattle.std.specs.Prelude.{◌≡◌, IfOk};
ghost use Rattle.c_typed.specs.WellTyped.{IsWellTyped};
ghost use Rattle.g_build_def.specs.Functions.{omega};
ghost use Rattle.g_build.specs.declared.omega.BuildFault.TheVariants.{NoMemory};
ghost use Rattle.g_build.specs.Passed.{limit_passed};
ghost use Rattle.g_build.specs.Answer.{limit_named};

use crate::globals::build_globals;
use crate::passed::{Passed, limit_passed};
use crate::program::{build_lambdas, build_names};
use c_typed::Typed;
use g_graph::Omega;
use std::alloc::Global;
use thiserror::Error;

/// Why the graph of a program is not built.
#[derive(Clone, Copy, PartialEq, Eq, Debug, Error)]
pub enum BuildFault {
    /// The functions have too many values.
    #[error("a limit of values is passed")]
    Limit(Passed),
    /// Memory ran out, or a number does not fit in 32 bits.
    #[error("out of memory")]
    NoMemory,
}

impl From<base::NoMemory> for BuildFault {
    ghost from_gives = { λ _ e. e ≡ NoMemory };

    fn from(_e: base::NoMemory) -> BuildFault {
        BuildFault::NoMemory
    }
}

// The graph of a program that is within the limits.
fn build_omega(alloc: Global, typed: &Typed) -> Result<Omega, base::NoMemory>
    requires { IsWellTyped typed.now }
    ensures { IfOk result (λ o. o ≡ omega typed.now) }
{
    let lambdas = build_lambdas(alloc, typed)?;
    let deltas = build_globals(alloc, typed)?;
    let names = build_names(alloc, typed)?;
    Ok(Omega {
        lambdas,
        deltas,
        names,
    })
}

/// The graph of a well-typed program. `Limit` exactly where its functions pass a limit of values,
/// which is decided before a node is made; `NoMemory` as `build_body`. It takes time linear in the
/// program and in what is made.
pub fn build(alloc: Global, typed: &Typed) -> Result<Omega, BuildFault>
    requires { IsWellTyped typed.now }
    ensures graph { IfOk result (λ o. o ≡ omega typed.now) }
    ensures limit { limit_named result ≡ limit_passed typed.now.functions }
{
    match limit_passed(&typed.functions) {
        Some(passed) => Err(BuildFault::Limit(passed)),
        None => Ok(build_omega(alloc, typed)?),
    }
}
