//! Where the rule applies, and what it does there.

ghost use Rattle.std.specs.Prelude.{◌≡◌, ◌≤◌, ◌+◌, List, IfSome, IfOk, OnOk, OnErr, IsTrue};
ghost use Rattle.std.specs.declared.option.Option.TheVariants.{Some, None};
ghost use Rattle.g_graph.specs.Plain.{nodes_in, PlainLambda};
ghost use Rattle.g_graph.specs.WellFormed.{IsWellFormed};
ghost use Rattle.r_edit.specs.Steps.{MayStandFor};
ghost use Rattle.r_pull.specs.Rule.{copies_here, pull_here, region_answer, node_answer, copies_at, applies, most_next, lambda_pulled};
ghost use Rattle.r_pull.specs.Edit.{planned, FitsPlanned};

use crate::fill::carry_out;
use crate::find::found_at;
use crate::plan::{Plan, plan_for};
use base::NoMemory;
use g_graph::{Change, Lambda, Node, Region, change_lambda, values};
use std::alloc::Global;

/// Whether the rule applies at the node of this number: a Const, Undef, Local, Delta, Bin or Un
/// that one Gamma of its region uses, by entries alone, and nothing else; where the lambda then has
/// at most `MOST_GROWN_VALUES` values, or no more than before, and the next number is at most
/// 4294967295 afterwards. It is false for a number that is not there. It takes no memory, and time
/// linear in the lambda.
pub fn applies(lambda: &Lambda, node: u32) -> bool
    ensures { result ≡ applies lambda.now node }
{
    copies_at(lambda, node).is_some()
}

/// In each region of the Gamma that reads the arguments of these entries a copy of the node comes
/// first, and is read instead; the copies have numbers from the lambda's next one on, in the order
/// of the regions. Where there is one, the inputs of the node become the last entries of the Gamma.
/// The old entries, their arguments and the node go. Out of memory, the lambda is as it was. It
/// takes time linear in the lambda, and memory for the lists of the Gamma and of its regions.
pub fn apply(alloc: Global, lambda: &mut Lambda, node: u32) -> Result<(), NoMemory>
    requires well_formed { IsWellFormed lambda.old }
    requires applies { IsTrue (applies lambda.old node) }
    ensures ok { OnOk result (lambda.new ≡ lambda_pulled node lambda.old) }
    ensures step { OnOk result ((held : List PlainLambda) →
        MayStandFor held lambda.old lambda.new) }
    ensures err { OnErr result (lambda.new ≡ lambda.old) }
{
    let Some(copies) = copies_at(lambda, node) else {
        unreachable!()
    };
    pull(alloc, lambda, node, copies)?;
    Ok(())
}

fn pull(alloc: Global, lambda: &mut Lambda, node: u32, copies: u32) -> Result<(), NoMemory>
    requires copies { copies_at lambda.old node ≡ Some copies }
    requires next { lambda.old.next + copies ≤ most_next }
    ensures ok { OnOk result (lambda.new ≡ lambda_pulled node lambda.old) }
    ensures err { OnErr result (lambda.new ≡ lambda.old) }
{
    let values = values(lambda);
    let next = lambda.next;
    change_lambda(
        lambda,
        &mut Pulling {
            alloc,
            values,
            next,
            node,
        },
    )?;
    lambda.next = next + copies;
    Ok(())
}

// How many copies the rule makes at the node, where it applies.
#[tactic(auto, using(crate::proofs::Saturated::counted_same))]
fn copies_at(lambda: &Lambda, node: u32) -> Option<u32>
    ensures value { result ≡ copies_at lambda.now node }
    ensures small { IfSome result (λ copies. lambda.now.next + copies ≤ most_next) }
{
    region_copies(&lambda.body, values(lambda), lambda.next, node)
}

#[cycle(copies)]
#[tactic(auto, using(crate::proofs::Found::answer_here, crate::proofs::Found::answer_within))]
fn region_copies(region: &Region, values: u64, next: u32, id: u32) -> Option<u32>
    ensures value { result ≡ region_answer (copies_here values next id) region.now }
    ensures small { IfSome result (λ copies. next + copies ≤ most_next) }
{
    if let Some(copies) = copies_here(region, values, next, id) {
        return Some(copies);
    }
    for node in &region.nodes {
        if let Some(copies) = node_copies(node, values, next, id) {
            return Some(copies);
        }
    }
    None
}

#[cycle(copies)]
fn node_copies(node: &Node, values: u64, next: u32, id: u32) -> Option<u32>
    ensures value { result ≡ node_answer (copies_here values next id) node.now }
    ensures small { IfSome result (λ copies. next + copies ≤ most_next) }
{
    for region in &node.regions {
        if let Some(copies) = region_copies(region, values, next, id) {
            return Some(copies);
        }
    }
    None
}

#[tactic(auto, using(crate::proofs::Found::seen_count))]
fn copies_here(region: &Region, values: u64, next: u32, id: u32) -> Option<u32>
    ensures value { result ≡ copies_here values next id region.now }
    ensures small { IfSome result (λ copies. next + copies ≤ most_next) }
{
    match found_at(region, values, next, id) {
        Some(found) => Some(found.copies),
        None => None,
    }
}

// The change of the region that holds the node, in a lambda of so many values and with that next
// number.
#[derive(Drop)]
struct Pulling {
    alloc: Global,
    values: u64,
    next: u32,
    node: u32,
}

impl Change for Pulling {
    type Fault = NoMemory;

    ghost changed = { λ c. pull_here c.values c.next c.node };

    fn make(&mut self, region: &mut Region) -> Result<bool, NoMemory> {
        match plan_at(self.alloc, region, self.values, self.next, self.node)? {
            Some(plan) => {
                carry_out(self.alloc, region, self.node, plan);
                Ok(true)
            }
            None => Ok(false),
        }
    }
}

#[tactic(auto, using(crate::proofs::Filled::planned_none))]
fn plan_at(
    alloc: Global,
    region: &Region,
    values: u64,
    next: u32,
    id: u32,
) -> Result<Option<Plan>, NoMemory>
    ensures plan { IfOk result (λ p. planned id region.now p ≡ pull_here values next id region.now) }
    ensures fits { IfOk result (λ p. FitsPlanned id (nodes_in region.now) p) }
{
    match found_at(region, values, next, id) {
        Some(found) => {
            let plan = plan_for(alloc, found.node, found.user, found.copies, next, id)?;
            Ok(Some(plan))
        }
        None => Ok(None),
    }
}
