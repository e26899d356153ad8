//! The steps of a log, one by one.

ghost use Rattle.std.specs.Prelude.{◌≡◌, map, IfOk};
ghost use Rattle.std.specs.Arc.{arc_value};
ghost use Rattle.g_graph.specs.WellFormed.{IsWellFormed};
ghost use Rattle.g_pass_def.specs.Answers.{lambdas_of};
ghost use Rattle.g_pass_def.specs.Sweep.{replayed};
ghost use Rattle.g_pass.specs.Sweep.{rules};

use crate::step;
use base::NoMemory;
use g_graph::{Lambda, copy_of};
use r_rule::{Optimised, Step};
use std::alloc::Global;
use std::sync::Arc;

/// What these steps make of a lambda, one after the other; `None` where one of them does not apply.
/// The callees are what functions that the lambda calls were made into. `NoMemory` only where the
/// allocator has none.
pub fn replayed(
    alloc: Global,
    lambda: &Lambda,
    callees: &[Arc<Optimised>],
    steps: &[Step],
) -> Result<Option<Lambda>, NoMemory>
    requires { IsWellFormed lambda.now }
    ensures { IfOk result (λ made. made ≡
        replayed rules (lambdas_of (map arc_value callees.now)) steps.now lambda.now) }
{
    let mut changed = copy_of(alloc, lambda)?;
    for taken in steps {
        match step(alloc, *taken, &mut changed, callees) {
            Ok(true) => {}
            Ok(false) => {
                drop(changed);
                return Ok(None);
            }
            Err(fault) => {
                drop(changed);
                return Err(fault);
            }
        }
    }
    Ok(Some(changed))
}
