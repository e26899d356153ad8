//! The lambdas of a program, and the names of its functions.

ghost use Rattle.std.specs.Prelude.{◌≡◌, IfOk};
ghost use Rattle.c_typed.specs.WellTyped.{IsWellTyped};
ghost use Rattle.g_build_def.specs.Functions.{graph, names};

use crate::lambda::build_lambda;
use base::{Name, NoMemory};
use c_typed::Typed;
use g_graph::Lambda;
use std::alloc::Global;

/// The lambdas of the functions of a well-typed program. `NoMemory` as `build_body`.
pub fn build_lambdas(alloc: Global, typed: &Typed) -> Result<Vec<Lambda>, NoMemory>
    requires { IsWellTyped typed.now }
    ensures { IfOk result (λ lambdas. lambdas.items ≡ graph typed.now) }
{
    let mut lambdas = Vec::new(alloc);
    for i in 0..typed.functions.len() {
        lambdas.push(build_lambda(alloc, typed, i as u32, &typed.functions[i])?)?;
    }
    Ok(lambdas)
}

/// The names of the functions, in the order of the source.
pub fn build_names(alloc: Global, typed: &Typed) -> Result<Vec<Name>, NoMemory>
    ensures { IfOk result (λ all. all.items ≡ names typed.now) }
{
    let mut all = Vec::new(alloc);
    for f in &typed.functions {
        all.push(f.name.clone()?)?;
    }
    Ok(all)
}
