//! Where the rule applies, and what it does there.

ghost use Rattle.std.specs.Prelude.{◌≡◌, ◌∷◌, [], OnOk, OnErr, IsTrue, is_some, option_map, ◌&&◌};
ghost use Rattle.g_graph.specs.Change.{region_changed};
ghost use Rattle.g_graph.specs.Replace.{region_redirected};
ghost use Rattle.g_graph.specs.Splice.{args_to_inputs, region_spliced};
ghost use Rattle.g_graph.specs.WellFormed.{IsWellFormed};
ghost use Rattle.r_edit.specs.Steps.{MayStandFor};
ghost use Rattle.r_inline.specs.Rule.{call_at, inline_here, may_inline, applies, lambda_inlined};

use crate::inputs::call_at;
use crate::room::{may_inline, values_that_decide};
use base::NoMemory;
use g_graph::{
    ArgsToInputs, CanChange, Change, Lambda, Origin, Region, can_change_lambda, change_lambda,
    redirect_region, splice_region,
};
use r_edit::copy_numbered;
use std::alloc::Global;
use std::mem;

/// Whether the rule applies at the node of this number: a call of the callee with an input for each
/// parameter and both states, at any depth, where the callee has no objects and at most
/// `MOST_CALLEE_VALUES` values, counted whole; where there are numbers for its nodes; and where the
/// lambda does not become larger, or has at most `MOST_GROWN_VALUES` values afterwards. It is false
/// for a number that is not there. It takes no memory, and time linear in the lambda; of the callee
/// it counts at most one more value.
pub fn applies(lambda: &Lambda, node: u32, callee: &Lambda) -> bool
    ensures { result ≡ applies lambda.now node callee.now }
{
    applies_in(lambda, values_that_decide(lambda, callee), node, callee)
}

// Whether it applies in a lambda of so many values.
fn applies_in(lambda: &Lambda, values: u64, node: u32, callee: &Lambda) -> bool
    ensures { result ≡ (may_inline values lambda.now.next callee.now &&
        is_some (region_changed (inline_here lambda.now.next node callee.now) lambda.now.body)) }
{
    may_inline(values, lambda.next, callee)
        && can_change_lambda(
            lambda,
            &Call {
                next: lambda.next,
                node,
                callee,
            },
        )
}

/// The call gives way to a copy of the callee's nodes, with numbers from the lambda's `next` on in
/// pre-order. The body's arguments are the call's inputs in order, and uses of the call's outputs
/// become the body's results (Reissmann et al., RVSDG, 2020). Out of memory, the lambda is as it
/// was. It takes time n log n in the callee and linear in the lambda. The changed lambda may stand
/// for the old one in every list that has the callee at its number.
pub fn apply(alloc: Global, lambda: &mut Lambda, node: u32, callee: &Lambda) -> Result<(), NoMemory>
    requires well_formed { IsWellFormed lambda.old }
    requires callee { IsWellFormed callee.now }
    requires applies { IsTrue (applies lambda.old node callee.now) }
    ensures ok { OnOk result (lambda.new ≡ lambda_inlined node callee.now lambda.old) }
    ensures step { OnOk result (MayStandFor (callee.now ∷ []) lambda.old lambda.new) }
    ensures err { OnErr result (lambda.new ≡ lambda.old) }
{
    let copy = copy_numbered(alloc, &callee.body, lambda.next)?;
    change_lambda(
        lambda,
        &mut Inlining {
            alloc,
            node,
            callee,
            copy: copy.region,
        },
    )?;
    lambda.next = copy.next;
    Ok(())
}

// The change of the region that holds the call, with a copy of the callee's body.
#[derive(Drop)]
struct Inlining<'a> {
    alloc: Global,
    node: u32,
    callee: &'a Lambda,
    copy: Region,
}

impl Change for Inlining<'_> {
    type Fault = NoMemory;

    ghost changed = { λ c r. option_map (λ inputs.
        region_spliced c.node (region_redirected (args_to_inputs inputs) c.copy) r)
        (call_at c.node c.callee.now r) };

    fn make(&mut self, region: &mut Region) -> Result<bool, NoMemory> {
        let copy = match call_at(region, self.node, self.callee) {
            Some(inputs) => with_inputs(self.alloc, &mut self.copy, inputs),
            None => return Ok(false),
        };
        splice_region(region, self.node, copy)?;
        Ok(true)
    }
}

// Takes the copy, with these inputs in the place of its arguments.
fn with_inputs(alloc: Global, copy: &mut Region, inputs: &[Origin]) -> Region
    ensures { result ≡ region_redirected (args_to_inputs inputs.now) copy.old }
{
    let none = Region {
        args: Vec::new(alloc),
        nodes: Vec::new(alloc),
        results: Vec::new(alloc),
    };
    let mut taken = mem::replace(copy, none);
    redirect_region(&mut taken, &ArgsToInputs { inputs });
    taken
}

// The test for a call of the callee, in a lambda whose next node has the number `next`.
#[derive(Drop)]
struct Call<'a> {
    next: u32,
    node: u32,
    callee: &'a Lambda,
}

impl CanChange for Call<'_> {
    ghost changed = { λ c. inline_here c.next c.node c.callee.now };

    fn can_change(&self, region: &Region) -> bool {
        call_at(region, self.node, self.callee).is_some()
    }
}
