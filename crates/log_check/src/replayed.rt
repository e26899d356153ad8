//! The steps of one function, one after the other.

ghost use Rattle.std.specs.Prelude.{◌≡◌, ◌+◌, ◌<◌, ◌^◌, Some, length, map, IfOk, IfErr};
ghost use Rattle.std.specs.Arc.{arc_value};
ghost use Rattle.g_graph.specs.WellFormed.{IsWellFormed};
ghost use Rattle.g_pass_def.specs.Answers.{lambdas_of};
ghost use Rattle.g_pass_def.specs.Sweep.{replayed};
ghost use Rattle.g_pass.specs.Sweep.{rules};
ghost use Rattle.log_check.specs.Fault.{StepsFail};

use crate::replay_fault::ReplayFault;
use crate::series::made_series;
use g_graph::{Lambda, copy_of};
use r_rule::{Optimised, Step};
use std::alloc::Global;
use std::sync::Arc;

/// What these steps make of a lambda; the line of the function is given, and each step is told by
/// its line, which has 32 bits.
pub fn replayed(
    alloc: Global,
    lambda: &Lambda,
    callees: &[Arc<Optimised>],
    steps: &[Step],
    line: u32,
) -> Result<Lambda, ReplayFault>
    requires well_formed { IsWellFormed lambda.now }
    requires short { line + length steps.now < 2 ^ 32 }
    ensures made { IfOk result (λ changed.
        replayed rules (lambdas_of (map arc_value callees.now)) steps.now lambda.now
        ≡ Some changed) }
    ensures well_formed { IfOk result (λ changed. IsWellFormed changed) }
    ensures fault { IfErr result (λ e.
        StepsFail (lambdas_of (map arc_value callees.now)) steps.now lambda.now line e) }
{
    let mut changed = copy_of(alloc, lambda)?;
    let mut made = 0;
    while made < steps.len() {
        let before = line + made as u32;
        match made_series(alloc, &mut changed, callees, &steps[made..], before) {
            Ok(count) => made += count,
            Err(fault) => {
                drop(changed);
                return Err(fault);
            }
        }
    }
    Ok(changed)
}
