//! The inverted loop, as it is made.

ghost use Rattle.std.specs.Prelude.{◌≡◌, ◌<◌, ◌+◌, ◌^◌, ◌∷◌, IfOk, length};
ghost use Rattle.g_graph.specs.declared.op.Kind.TheVariants.{Value};
ghost use Rattle.g_graph.specs.Plain.{args_of, results_of};
ghost use Rattle.g_mean.specs.Copies.{IsClosed};
ghost use Rattle.r_edit.specs.Numbering.{node_count};
ghost use Rattle.r_invert.specs.Edit.{parts_are};
ghost use Rattle.r_invert.specs.Rule.{turn, remaining, choice, inverted, new_nodes};

use crate::compose::{alone, in_sequence};
use base::NoMemory;
use g_graph::{Kind, Op, Region};
use r_edit::{Numbered, copy_numbered};
use std::alloc::Global;

/// The inverted loop with these parts, with numbers from `next` on in pre-order, and the number
/// after these. It takes time n log n in the parts.
pub fn inverted(
    alloc: Global,
    test: &Region,
    stop: &Region,
    go: &Region,
    next: u32,
) -> Result<Numbered, NoMemory>
    requires test { IsClosed test.now }
    requires stop { IsClosed stop.now }
    requires go { IsClosed go.now }
    requires entries { length (args_of stop.now) < 2 ^ 32 }
    requires loop_entries { length (args_of go.now) < 2 ^ 32 }
    requires variables { length (results_of stop.now) < 2 ^ 32 }
    requires numbers { next + new_nodes (parts_are test.now stop.now go.now) < 2 ^ 32 }
    ensures region { IfOk result (λ made. made.region ≡
        inverted next (parts_are test.now stop.now go.now)) }
    ensures next { IfOk result (λ made. made.next ≡
        next + new_nodes (parts_are test.now stop.now go.now)) }
{
    let tested = copy_numbered(alloc, test, next)?;
    let choice = choice(alloc, test, stop, go, tested.next)?;
    Ok(Numbered {
        region: in_sequence(tested.region, choice.region)?,
        next: choice.next,
    })
}

// As the predicate says, the last part alone, or the loop before it.
fn choice(
    alloc: Global,
    test: &Region,
    stop: &Region,
    go: &Region,
    first: u32,
) -> Result<Numbered, NoMemory>
    requires test { IsClosed test.now }
    requires stop { IsClosed stop.now }
    requires go { IsClosed go.now }
    requires entries { length (args_of stop.now) < 2 ^ 32 }
    requires loop_entries { length (args_of go.now) < 2 ^ 32 }
    requires variables { length (results_of stop.now) < 2 ^ 32 }
    requires numbers { first + (2 + (node_count stop.now + (node_count go.now +
        node_count test.now) + node_count stop.now)) < 2 ^ 32 }
    ensures region { IfOk result (λ made. made.region ≡
        choice first (parts_are test.now stop.now go.now)) }
    ensures next { IfOk result (λ made. made.next ≡ first + (2 + (node_count stop.now +
        (node_count go.now + node_count test.now) + node_count stop.now))) }
{
    let stopped = copy_numbered(alloc, stop, first + 1)?;
    let remaining = remaining(alloc, test, stop, go, stopped.next)?;
    let mut regions = Vec::with_capacity(alloc, 2)?;
    regions.push(stopped.region)?;
    regions.push(remaining.region)?;
    let inputs = inputs_of_choice(alloc, &stop.args)?;
    Ok(Numbered {
        region: alone(
            alloc,
            first,
            Op::Gamma,
            &inputs,
            stop.results.len(),
            regions,
        )?,
        next: remaining.next,
    })
}

// A value, and the entries.
fn inputs_of_choice(alloc: Global, entries: &[Kind]) -> Result<Vec<Kind>, NoMemory>
    ensures { IfOk result (λ inputs. inputs.items ≡ Value ∷ entries.now) }
{
    let mut inputs = Vec::new(alloc);
    inputs.push(Kind::Value)?;
    inputs.extend_from_slice(entries)?;
    Ok(inputs)
}

// A loop of turns that end with the test, and then the last part.
fn remaining(
    alloc: Global,
    test: &Region,
    stop: &Region,
    go: &Region,
    first: u32,
) -> Result<Numbered, NoMemory>
    requires test { IsClosed test.now }
    requires stop { IsClosed stop.now }
    requires go { IsClosed go.now }
    requires loop_entries { length (args_of go.now) < 2 ^ 32 }
    requires numbers { first + (1 + (node_count go.now + node_count test.now) +
        node_count stop.now) < 2 ^ 32 }
    ensures region { IfOk result (λ made. made.region ≡
        remaining first (parts_are test.now stop.now go.now)) }
    ensures next { IfOk result (λ made. made.next ≡ first +
        (1 + (node_count go.now + node_count test.now) + node_count stop.now)) }
{
    let turn = turn(alloc, test, go, first + 1)?;
    let mut regions = Vec::with_capacity(alloc, 1)?;
    regions.push(turn.region)?;
    let looped = alone(alloc, first, Op::Theta, &go.args, go.args.len(), regions)?;
    let stopped = copy_numbered(alloc, stop, turn.next)?;
    Ok(Numbered {
        region: in_sequence(looped, stopped.region)?,
        next: stopped.next,
    })
}

// One turn: what is done where the test holds, and then the test again.
fn turn(alloc: Global, test: &Region, go: &Region, first: u32) -> Result<Numbered, NoMemory>
    requires test { IsClosed test.now }
    requires go { IsClosed go.now }
    requires numbers { first + (node_count go.now + node_count test.now) < 2 ^ 32 }
    ensures region { IfOk result (λ made. made.region ≡
        turn first (parts_are test.now go.now go.now)) }
    ensures next { IfOk result (λ made. made.next ≡
        first + (node_count go.now + node_count test.now)) }
{
    let done = copy_numbered(alloc, go, first)?;
    let tested = copy_numbered(alloc, test, done.next)?;
    Ok(Numbered {
        region: in_sequence(done.region, tested.region)?,
        next: tested.next,
    })
}
