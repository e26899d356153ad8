//! What a command shows of a source.

ghost use Rattle.std.specs.Prelude.{◌≡◌, ◌<◌, ◌^◌, List, Option, ℕ, [], None, Some, length, map, option_map};
ghost use Rattle.std.specs.Arc.{arc_value};
ghost use Rattle.r_rule.specs.declared.steps.Rule.{Rule};
ghost use Rattle.cc_source.specs.Accepted.{Refuses};
ghost use Rattle.cc_source.specs.Refused.{IsRejectionOf};
ghost use Rattle.cc_report.specs.declared.outcome.Outcome.TheVariants.{Done};
ghost use Rattle.cc_view_source.specs.PlainCommand.{plain_command};
ghost use Rattle.cc_view_source.specs.Made.{IsMade};
ghost use Rattle.cc_view.specs.Shown.{ExplainShows, GraphShows, IsOfSome, ListingShows, StepsShow};
ghost use Rattle.cc_view.specs.ViewEnds.{CommandShows};

use crate::listing::listing_of;
use crate::{accepted_text, refused_text};
use cc_report::Outcome;
use cc_source::{CompileFault, outcome_of, refusal_of};
use cc_view_source::{Command, Drawing, Made, graph_of_all, graph_of_one, make, tables_of};
use g_pass::Recipe;
use std::alloc::Global;

/// How a command ends, and what it shows.
#[derive(Drop)]
pub struct Shown {
    pub ended: Outcome,
    pub text: Vec<u8>,
}

fn nothing(alloc: Global, ended: Outcome) -> Shown
    ensures ended { result.ended ≡ ended }
    ensures text { result.text.items ≡ [] }
{
    Shown {
        ended,
        text: Vec::new(alloc),
    }
}

fn done(text: Vec<u8>) -> Shown
    ensures { result ≡ record { ended = Done; text = text } }
{
    Shown {
        ended: Outcome::Done,
        text,
    }
}

fn rejected(alloc: Global, source: &[u8], fault: CompileFault) -> Shown
    requires { Refuses fault source.now }
    ensures ended { IsRejectionOf source.now result.ended }
    ensures text { result.text.items ≡ [] }
{
    nothing(alloc, outcome_of(refusal_of(fault, source)))
}

fn graph_shown(
    alloc: Global,
    source: &[u8],
    recipe: &Recipe,
    function: Option<&str>,
    after: Option<u32>,
    drawing: Drawing,
) -> Shown
    ensures { GraphShows recipe.now (option_map (λ s. s.now) function.entry) after drawing source.now
        result.ended result.text.items }
{
    let made = match make(alloc, source, recipe) {
        Ok(made) => made,
        Err(fault) => return rejected(alloc, source, fault),
    };
    let shown = graph_of_made(alloc, &made, function, after, drawing);
    drop(made);
    shown
}

// What is shown of what a recipe made of a source.
fn graph_of_made(
    alloc: Global,
    made: &Made,
    function: Option<&str>,
    after: Option<u32>,
    drawing: Drawing,
) -> Shown
    requires { IsOfSome made.now.omega (map arc_value made.now.answers.items) }
    ensures { (recipe : List Rule) (source : List ℕ)
        → IsMade recipe source made.now.omega (map arc_value made.now.answers.items)
        → GraphShows recipe (option_map (λ s. s.now) function.entry) after drawing source
        result.ended result.text.items }
{
    match function {
        Some(name) => function_of_made(alloc, made, name, after, drawing),
        None => functions_of_made(alloc, made, drawing),
    }
}

fn functions_of_made(alloc: Global, made: &Made, drawing: Drawing) -> Shown
    ensures { (recipe : List Rule) (source : List ℕ) (after : Option ℕ)
        → IsMade recipe source made.now.omega (map arc_value made.now.answers.items)
        → GraphShows recipe None after drawing source result.ended result.text.items }
{
    match graph_of_all(alloc, made, drawing) {
        Ok(text) => done(text),
        Err(_) => nothing(alloc, Outcome::NoMemory),
    }
}

fn function_of_made(
    alloc: Global,
    made: &Made,
    name: &str,
    after: Option<u32>,
    drawing: Drawing,
) -> Shown
    requires { IsOfSome made.now.omega (map arc_value made.now.answers.items) }
    ensures { (recipe : List Rule) (source : List ℕ)
        → IsMade recipe source made.now.omega (map arc_value made.now.answers.items)
        → GraphShows recipe (Some name.now) after drawing source
        result.ended result.text.items }
{
    match graph_of_one(alloc, made, name.as_bytes(), after, drawing) {
        Ok(Some(text)) => done(text),
        Ok(None) => nothing(alloc, Outcome::Usage),
        Err(_) => nothing(alloc, Outcome::NoMemory),
    }
}

fn steps_of_made(alloc: Global, made: &Made, recipe: &Recipe) -> Shown
    requires { (source : List ℕ)
        × IsMade recipe.now source made.now.omega (map arc_value made.now.answers.items) }
    ensures { (source : List ℕ)
        → IsMade recipe.now source made.now.omega (map arc_value made.now.answers.items)
        → StepsShow recipe.now source result.ended result.text.items }
{
    match tables_of(alloc, made, recipe) {
        Ok(text) => done(text),
        Err(_) => nothing(alloc, Outcome::NoMemory),
    }
}

fn steps_shown(alloc: Global, source: &[u8], recipe: &Recipe) -> Shown
    ensures { StepsShow recipe.now source.now result.ended result.text.items }
{
    let made = match make(alloc, source, recipe) {
        Ok(made) => made,
        Err(fault) => return rejected(alloc, source, fault),
    };
    let shown = steps_of_made(alloc, &made, recipe);
    drop(made);
    shown
}

fn listing_of_made(alloc: Global, source: &[u8], made: &Made) -> Shown
    requires { IsOfSome made.now.omega (map arc_value made.now.answers.items) }
    ensures { (recipe : List Rule) (text : List ℕ)
        → IsMade recipe text made.now.omega (map arc_value made.now.answers.items)
        → ListingShows recipe text result.ended result.text.items }
{
    match listing_of(alloc, source, made) {
        Ok(text) => done(text),
        Err(_) => nothing(alloc, Outcome::NoMemory),
    }
}

fn listing_shown(alloc: Global, source: &[u8], recipe: &Recipe) -> Shown
    ensures { ListingShows recipe.now source.now result.ended result.text.items }
{
    let made = match make(alloc, source, recipe) {
        Ok(made) => made,
        Err(fault) => return rejected(alloc, source, fault),
    };
    let shown = listing_of_made(alloc, source, &made);
    drop(made);
    shown
}

fn refusal_shown(alloc: Global, source: &[u8], fault: CompileFault) -> Shown
    requires small { length source.now < 2 ^ 32 }
    requires refused { Refuses fault source.now }
    ensures { (recipe : List Rule)
        → ExplainShows recipe source.now result.ended result.text.items }
{
    let Some(refusal) = refusal_of(fault, source) else {
        return nothing(alloc, Outcome::NoMemory);
    };
    match refused_text(alloc, source, fault, &refusal) {
        Ok(text) => Shown {
            ended: Outcome::Refused(refusal),
            text,
        },
        Err(_) => nothing(alloc, Outcome::NoMemory),
    }
}

fn explanation_of_made(alloc: Global, made: &Made) -> Shown
    requires { IsOfSome made.now.omega (map arc_value made.now.answers.items) }
    ensures { (recipe : List Rule) (source : List ℕ)
        → IsMade recipe source made.now.omega (map arc_value made.now.answers.items)
        → ExplainShows recipe source result.ended result.text.items }
{
    match accepted_text(alloc, made) {
        Ok(text) => done(text),
        Err(_) => nothing(alloc, Outcome::NoMemory),
    }
}

fn explanation_shown(alloc: Global, source: &[u8], recipe: &Recipe) -> Shown
    requires { length source.now < 2 ^ 32 }
    ensures { ExplainShows recipe.now source.now result.ended result.text.items }
{
    let made = match make(alloc, source, recipe) {
        Ok(made) => made,
        Err(fault) => return refusal_shown(alloc, source, fault),
    };
    let shown = explanation_of_made(alloc, &made);
    drop(made);
    shown
}

/// What a command shows of the text of a source under a recipe, and how it ends.
pub fn show(alloc: Global, command: Command<'_>, source: &[u8], recipe: &Recipe) -> Shown
    requires { length source.now < 2 ^ 32 }
    ensures { CommandShows recipe.now (plain_command command.entry) source.now
        result.ended result.text.items }
{
    match command {
        Command::Graph {
            source: _,
            recipe: _,
            function,
            after,
            drawing,
        } => graph_shown(alloc, source, recipe, function, after, drawing),
        Command::Steps { .. } => steps_shown(alloc, source, recipe),
        Command::Listing { .. } => listing_shown(alloc, source, recipe),
        Command::Explain { .. } => explanation_shown(alloc, source, recipe),
    }
}
