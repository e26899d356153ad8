//! How many values a function has, with its parameters.

ghost use Rattle.std.specs.Prelude.{◌≡◌, if◌then◌else◌};
ghost use Rattle.c_typed.specs.WellTyped.{params_of};
ghost use Rattle.g_graph.specs.Count.{saturated};
ghost use Rattle.g_build_def.specs.Functions.{function_values};
ghost use Rattle.g_build_count.specs.Values.{entered_values};

use crate::jumps::body_jumps;
use crate::operations::more_carried;
use crate::scope::Scope;
use crate::statement::items_values;
use crate::straight::straight_values;
use c_typed::{TFunction, Variable};

/// The parameters of a function.
pub fn params_of(f: &TFunction) -> &[Variable]
    ensures { result.now ≡ params_of f.now }
{
    let count = f.params as usize;
    if count < f.variables.len() {
        &f.variables[..count]
    } else {
        &f.variables
    }
}

// Of the store of a parameter that is an object: Local and Store.
fn param_values(is_object: bool) -> u64
    ensures { result ≡ (if is_object then 4 else 0) }
{
    if is_object { 4 } else { 0 }
}

// Of the stores of these parameters and of the body, where the parameters before them are in scope.
fn entered_values(
    f: &TFunction,
    params: &[Variable],
    jumps: bool,
    carried: u64,
    scope: &Scope,
) -> u64
    ensures { result ≡
        saturated (entered_values f.now jumps params.now carried scope.now.objects) }
{
    let mut inner = Scope::inside(&*scope);
    let mut carried = carried;
    let mut total: u64 = 0;
    for i in 0..params.len() {
        let param = &params[i];
        let is_object = param.is_object;
        total = total.saturating_add(param_values(is_object));
        carried = more_carried(carried, is_object);
        if !inner.push(is_object) {
            let more = Scope::with(&inner, is_object);
            let rest = entered_values(f, &params[i + 1..], jumps, carried, &more);
            return total.saturating_add(rest);
        }
    }
    if jumps {
        let body = items_values(&f.variables, &f.body, carried, &inner).values;
        total.saturating_add(4).saturating_add(body)
    } else {
        total.saturating_add(straight_values(&f.variables, &f.body, carried, &inner))
    }
}

// The two states of a function, with `go` and `ret` where it has jumps.
fn states_carried(jumps: bool) -> u64
    ensures { result ≡ (if jumps then 4 else 2) }
{
    if jumps { 4 } else { 2 }
}

/// How many values the graph of the function has: those of the lambda that construction makes of
/// it, 2^64 - 1 where there are more. It takes no memory, and its steps are linear in the function
/// but for the scopes around a variable, one for each block and each 256 variables.
pub fn count(f: &TFunction) -> u64
    ensures { result ≡ saturated (function_values f.now) }
{
    let jumps = body_jumps(&f.body);
    let scope = Scope::outermost();
    let rest = entered_values(f, params_of(f), jumps, states_carried(jumps), &scope);
    rest.saturating_add(6 + u64::from(f.params))
}
