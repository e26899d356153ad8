//! What is made of a source.

ghost use Rattle.std.specs.Prelude.{◌≡◌, None, map, IfErr, IfOk};
ghost use Rattle.std.specs.Arc.{arc_value};
ghost use Rattle.c_typed.specs.WellTyped.{IsWellTyped};
ghost use Rattle.c_check_def.specs.Limits.{above_limits};
ghost use Rattle.g_build_def.specs.Functions.{omega};
ghost use Rattle.g_build.specs.Answer.{limit_named};
ghost use Rattle.g_build.specs.Passed.{limit_passed};
ghost use Rattle.cc_source.specs.Accepted.{Refuses};
ghost use Rattle.cc_view_source.specs.Made.{IsMade, IsMadeOf};

use base::NoMemory;
use c_typed::Typed;
use cc_compile::laws::answers_can_be_emitted;
use cc_source::meaning_laws::programs_can_be_emitted;
use cc_source::{CompileFault, typed_of};
use g_build::{BuildFault, build};
use g_graph::Omega;
use g_pass::Recipe;
use g_pass_work::answers;
use r_rule::Optimised;
use std::alloc::Global;
use std::sync::Arc;

/// What is made of a source.
#[derive(Drop)]
pub struct Made {
    /// The graph of its program.
    pub omega: Omega,
    /// What a recipe makes of each function, in source order.
    pub answers: Vec<Arc<Optimised>>,
    /// Where each global stands in the source, in the order of the graph: the offset of the name of
    /// a variable, or of the first byte of a string literal.
    pub globals: Vec<u32>,
}

fn offsets_of(alloc: Global, typed: &Typed) -> Result<Vec<u32>, NoMemory> {
    let mut offsets = Vec::with_capacity(alloc, typed.globals.len())?;
    for global in &typed.globals {
        offsets.push(global.at)?;
    }
    Ok(offsets)
}

// What a recipe makes of each function of a typed program whose graph this is.
fn answers_of(
    alloc: Global,
    typed: &Typed,
    program: &Omega,
    recipe: &Recipe,
) -> Result<Vec<Arc<Optimised>>, NoMemory>
    requires graph { program.now ≡ omega typed.now }
    requires typed { IsWellTyped typed.now }
    requires limits { above_limits typed.now ≡ None }
    requires values { limit_passed typed.now.functions ≡ None }
    ensures { IfOk result (λ all.
        IsMadeOf recipe.now typed.now program.now (map arc_value all.items)) }
{
    programs_can_be_emitted();
    answers_can_be_emitted();
    answers(alloc, &program.lambdas, recipe)
}

fn made_of(alloc: Global, typed: &Typed, recipe: &Recipe) -> Result<Made, BuildFault>
    requires typed { IsWellTyped typed.now }
    requires limits { above_limits typed.now ≡ None }
    ensures made { IfOk result (λ m.
        IsMadeOf recipe.now typed.now m.omega (map arc_value m.answers.items)) }
    ensures limit { limit_named result ≡ limit_passed typed.now.functions }
{
    let omega = build(alloc, typed)?;
    let answers = answers_of(alloc, typed, &omega, recipe)?;
    let globals = offsets_of(alloc, typed)?;
    Ok(Made {
        omega,
        answers,
        globals,
    })
}

/// What is made of a source under a recipe, on one thread. `Lex`, `Parse`, `Check` and `Build` come
/// exactly where that phase refuses the source, with its fault, and `NoMemory` may come in place of
/// any answer.
pub fn make(alloc: Global, source: &[u8], recipe: &Recipe) -> Result<Made, CompileFault>
    ensures made { IfOk result (λ m.
        IsMade recipe.now source.now m.omega (map arc_value m.answers.items)) }
    ensures refused { IfErr result (λ e. Refuses e source.now) }
{
    let typed = typed_of(alloc, source)?;
    let made = made_of(alloc, &typed, recipe);
    drop(typed);
    Ok(made?)
}
