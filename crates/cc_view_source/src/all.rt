//! The graphs of all functions.

ghost use Rattle.std.specs.Prelude.{length, map, IfOk};
ghost use Rattle.std.specs.Arc.{arc_value};
ghost use Rattle.cc_view_source.specs.Drawn.{AreShown};

use crate::showing::{answer_at, push_shown};
use crate::{Drawing, Made, function_name};
use base::{Name, NoMemory};
use r_rule::Optimised;
use std::alloc::Global;
use std::sync::Arc;

fn graphs(
    alloc: Global,
    names: &[Name],
    answers: &[Arc<Optimised>],
    drawing: Drawing,
) -> Result<Vec<u8>, NoMemory>
    ensures { IfOk result (λ text. AreShown drawing names.now (map arc_value answers.now)
        (length answers.now) text.items) }
{
    let mut out = Vec::new(alloc);
    for function in 0..answers.len() {
        let name = function_name(names, function);
        let answer = answer_at(answers, function);
        push_shown(alloc, &mut out, drawing, name, names, &answer.lambda, None)?;
    }
    Ok(out)
}

/// The graphs of all functions of a program, as a recipe made them, in source order. `NoMemory`
/// only where the allocator has none.
pub fn graph_of_all(alloc: Global, made: &Made, drawing: Drawing) -> Result<Vec<u8>, NoMemory>
    ensures { IfOk result (λ text. AreShown drawing made.now.omega.names
        (map arc_value made.now.answers.items) (length made.now.answers.items) text.items) }
{
    graphs(alloc, &made.omega.names, &made.answers, drawing)
}
