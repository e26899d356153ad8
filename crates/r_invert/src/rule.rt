//! Where the rule applies, and what it does there.

ghost use Rattle.std.specs.Prelude.{◌≡◌, ◌<◌, ◌+◌, ◌^◌, List, OnOk, OnErr, IsTrue, is_some};
ghost use Rattle.g_graph.specs.Change.{region_changed};
ghost use Rattle.g_graph.specs.Ids.{region_ids};
ghost use Rattle.g_graph.specs.Replace.{region_redirected};
ghost use Rattle.g_graph.specs.Splice.{args_to_inputs};
ghost use Rattle.g_graph.specs.Plain.{PlainLambda};
ghost use Rattle.g_graph.specs.WellFormed.{IsWellFormed};
ghost use Rattle.r_edit.specs.Steps.{MayStandFor};
ghost use Rattle.r_invert.specs.Edit.{placed_at, new_in};
ghost use Rattle.r_invert.specs.Rule.{invert_here, applies, lambda_inverted};

use crate::find::{loop_at, new_left};
use crate::part::part_of;
use base::NoMemory;
use g_graph::{
    ArgsToInputs, CanChange, Change, Lambda, Origin, Region, can_change_lambda, change_lambda,
    redirect_region, splice_region, values,
};
use std::alloc::Global;
use std::mem;

/// Whether the rule applies at the node of this number: a Theta whose region ends with a Gamma,
/// which takes both states and gives all results; its region 0 gives the predicate 0 and its region
/// 1 another word, each by a Const. There are numbers for the nodes that come, and the lambda does
/// not become larger, or has at most `MOST_GROWN_VALUES` values afterwards. It is false for a
/// number that is not there. It takes no memory, and time linear in the lambda.
pub fn applies(lambda: &Lambda, node: u32) -> bool
    ensures { result ≡ applies lambda.now node }
{
    applies_in(lambda, values(lambda), node)
}

// Whether it applies in a lambda of so many values.
fn applies_in(lambda: &Lambda, values: u64, node: u32) -> bool
    ensures { result ≡
        is_some (region_changed (invert_here values lambda.now.next node) lambda.now.body) }
{
    can_change_lambda(
        lambda,
        &Inverted {
            values,
            next: lambda.next,
            node,
        },
    )
}

/// The loop becomes its test, and then a Gamma that does what ends the loop, or before that a loop
/// whose turns end with the test; the numbers of what comes are those from the lambda's `next` on,
/// in pre-order (Reissmann et al., RVSDG, 2020). Out of memory, the lambda is as it was. It takes
/// time n log n in the loop and linear in the lambda, and memory for what comes.
pub fn apply(alloc: Global, lambda: &mut Lambda, node: u32) -> Result<(), NoMemory>
    requires well_formed { IsWellFormed lambda.old }
    requires applies { IsTrue (applies lambda.old node) }
    ensures ok { OnOk result (lambda.new ≡ lambda_inverted node lambda.old) }
    ensures step { OnOk result ((held : List PlainLambda) →
        MayStandFor held lambda.old lambda.new) }
    ensures err { OnErr result (lambda.new ≡ lambda.old) }
{
    let values = values(lambda);
    let next = lambda.next;
    let part = part_of(alloc, lambda, values, node)?;
    change_lambda(
        lambda,
        &mut Inverting {
            alloc,
            values,
            next,
            node,
            part,
        },
    )?;
    lambda.next = next_of(&lambda.body, next);
    Ok(())
}

// The number after those from `next` on.
fn next_of(body: &Region, next: u32) -> u32
    requires { next + new_in next (region_ids body.now) < 2 ^ 32 }
    ensures { result ≡ next + new_in next (region_ids body.now) }
{
    next + (u32::MAX - new_left(body, next, u64::from(u32::MAX)) as u32)
}

// The test for the change of the region that holds the loop, in a lambda of so many values.
#[derive(Drop)]
struct Inverted {
    values: u64,
    next: u32,
    node: u32,
}

impl CanChange for Inverted {
    ghost changed = { λ c. invert_here c.values c.next c.node };

    fn can_change(&self, region: &Region) -> bool {
        can_invert(region, self.values, self.next, self.node)
    }
}

#[tactic(auto, using(crate::proofs::Counted::here_found))]
fn can_invert(region: &Region, values: u64, next: u32, node: u32) -> bool
    ensures { result ≡ is_some (invert_here values next node region.now) }
{
    loop_at(region, values, next, node).is_some()
}

// The change of the region that holds the loop, with what comes in its place.
#[derive(Drop)]
struct Inverting {
    alloc: Global,
    values: u64,
    next: u32,
    node: u32,
    part: Region,
}

impl Change for Inverting {
    type Fault = NoMemory;

    ghost changed = { λ c. placed_at c.values c.next c.node c.part };

    fn make(&mut self, region: &mut Region) -> Result<bool, NoMemory> {
        let part = match loop_at(region, self.values, self.next, self.node) {
            Some(found) => with_inputs(self.alloc, &mut self.part, found.inputs.as_slice()),
            None => return Ok(false),
        };
        splice_region(region, self.node, part)?;
        Ok(true)
    }
}

/// Takes the part, with these inputs in the place of its arguments.
pub fn with_inputs(alloc: Global, part: &mut Region, inputs: &[Origin]) -> Region
    ensures { result ≡ region_redirected (args_to_inputs inputs.now) part.old }
{
    let none = Region {
        args: Vec::new(alloc),
        nodes: Vec::new(alloc),
        results: Vec::new(alloc),
    };
    let mut taken = mem::replace(part, none);
    redirect_region(&mut taken, &ArgsToInputs { inputs });
    taken
}
