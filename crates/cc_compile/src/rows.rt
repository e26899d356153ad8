//! What a recipe did to each function of a program.

ghost use Rattle.std.specs.Prelude.{◌≡◌, ◌<◌, ◌^◌, ℕ, Some, map, slice_get, IfOk};
ghost use Rattle.std.specs.Arc.{arc_value};
ghost use Rattle.g_graph.specs.Plain.{PlainLambda};
ghost use Rattle.g_graph.specs.Program.{lambda_values};
ghost use Rattle.cc_emit.specs.Image.{lambdas_of};
ghost use Rattle.cc_compile.specs.Compiled.{row_of, rows_of};

use base::NoMemory;
use c_typed::{TFunction, Typed};
use cc_watch::Row;
use g_graph::values;
use r_rule::{Optimised, StepList};
use std::alloc::Global;
use std::sync::Arc;

fn row_of(alloc: Global, function: &TFunction, answer: &Optimised) -> Result<Row, NoMemory>
    requires small { lambda_values answer.now.lambda < 2 ^ 32 }
    ensures { IfOk result (λ row. row ≡ row_of function.now answer.now) }
{
    let name = function.name.clone()?;
    let steps = Vec::from_slice(alloc, answer.steps.as_slice())?;
    Ok(Row {
        name,
        before: answer.before,
        after: values(&answer.lambda) as u32,
        steps: StepList::from(steps),
    })
}

/// The rows of a program, of whose functions a recipe makes these answers, each with fewer than
/// 2^32 values. It takes time linear in the answers and their steps.
pub fn rows_of(
    alloc: Global,
    typed: &Typed,
    answers: &[Arc<Optimised>],
) -> Result<Vec<Row>, NoMemory>
    requires small { (f : ℕ) (l : PlainLambda) →
        slice_get (lambdas_of (map arc_value answers.now)) f ≡ Some l → lambda_values l < 2 ^ 32 }
    ensures { IfOk result (λ rows. rows.items ≡ rows_of typed.now (map arc_value answers.now)) }
{
    let mut rows = Vec::with_capacity(alloc, answers.len())?;
    for (function, answer) in typed.functions.iter().zip(answers) {
        rows.push(row_of(alloc, function, answer)?)?;
    }
    Ok(rows)
}
