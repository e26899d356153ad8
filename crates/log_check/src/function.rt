//! What a log says of one function.

ghost use Rattle.std.specs.Prelude.{◌≡◌, ◌+◌, ◌<◌, ◌^◌, Some, length, map, IfOk, IfErr};
ghost use Rattle.std.specs.Arc.{arc_value};
ghost use Rattle.g_graph.specs.WellFormed.{IsWellFormed};
ghost use Rattle.g_pass_def.specs.Answers.{lambdas_of};
ghost use Rattle.g_pass_def.specs.Sweep.{replayed};
ghost use Rattle.g_pass.specs.Sweep.{rules};
ghost use Rattle.log_check.specs.Right.{HasCounts};
ghost use Rattle.log_check.specs.Fault.{IsFunctionFault};

use crate::LogPart;
use crate::replay_fault::ReplayFault;
use crate::replayed::replayed;
use g_graph::{Lambda, values};
use r_rule::Optimised;
use std::alloc::Global;
use std::sync::Arc;

/// What the log's steps make of a function, given what was made of its deps, where the log has the
/// right counts of values before and after them.
pub fn replay_function(
    alloc: Global,
    lambda: &Lambda,
    callees: &[Arc<Optimised>],
    part: &LogPart,
) -> Result<Lambda, ReplayFault>
    requires well_formed { IsWellFormed lambda.now }
    requires short { part.now.line + length part.now.steps < 2 ^ 32 }
    ensures right { IfOk result (λ changed.
        (replayed rules (lambdas_of (map arc_value callees.now)) part.now.steps lambda.now
        ≡ Some changed) × HasCounts part.now lambda.now changed) }
    ensures well_formed { IfOk result (λ changed. IsWellFormed changed) }
    ensures fault { IfErr result (λ e.
        IsFunctionFault (lambdas_of (map arc_value callees.now)) lambda.now part.now e) }
{
    if values(lambda) != part.before as u64 {
        return Err(ReplayFault::BadCount { line: part.line });
    }
    let changed = replayed(alloc, lambda, callees, &part.steps, part.line)?;
    if values(&changed) != part.after as u64 {
        drop(changed);
        return Err(ReplayFault::BadCount { line: part.line });
    }
    Ok(changed)
}
