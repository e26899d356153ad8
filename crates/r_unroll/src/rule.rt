//! Where the rule applies, and what it does there.

ghost use Rattle.std.specs.Prelude.{◌≡◌, List, OnOk, OnErr, IsTrue, is_some};
ghost use Rattle.g_graph.specs.Change.{region_changed};
ghost use Rattle.g_graph.specs.Plain.{PlainLambda};
ghost use Rattle.g_graph.specs.WellFormed.{IsWellFormed};
ghost use Rattle.r_edit.specs.Steps.{MayStandFor};
ghost use Rattle.r_unroll.specs.Edit.{followed_at};
ghost use Rattle.r_unroll.specs.Rule.{unroll_here, applies, lambda_unrolled};

use crate::find::can_unroll;
use crate::follow::{follow_at, nothing};
use crate::turn::turn_of;
use base::NoMemory;
use g_graph::{
    CanChange, Change, Lambda, Node, Origin, Region, can_change_lambda, change_lambda, values,
};
use std::alloc::Global;
use std::mem;

/// Whether the rule applies at the node of this number: a Theta whose region has at most
/// `MOST_LOOP_VALUES` values, itself and all within counted, and no Theta at any depth; where there
/// are numbers for the nodes that come, and the lambda has at most `MOST_GROWN_VALUES` values
/// afterwards. It is false for a number that is not there. It takes no memory, and time linear in
/// the lambda.
pub fn applies(lambda: &Lambda, node: u32) -> bool
    ensures { result ≡ applies lambda.now node }
{
    applies_in(lambda, values(lambda), node)
}

// Whether it applies in a lambda of so many values.
fn applies_in(lambda: &Lambda, values: u64, node: u32) -> bool
    ensures { result ≡
        is_some (region_changed (unroll_here values lambda.now.next node) lambda.now.body) }
{
    can_change_lambda(
        lambda,
        &Unrolled {
            values,
            next: lambda.next,
            node,
        },
    )
}

/// After the nodes of the loop's region comes a Gamma, which stops or does the region once more, as
/// the predicate says; the numbers of what comes are those from the lambda's `next` on, in
/// pre-order (Reissmann et al., RVSDG, 2020). Out of memory, the lambda is as it was. It takes time
/// linear in the lambda, and memory for what comes.
pub fn apply(alloc: Global, lambda: &mut Lambda, node: u32) -> Result<(), NoMemory>
    requires well_formed { IsWellFormed lambda.old }
    requires applies { IsTrue (applies lambda.old node) }
    ensures ok { OnOk result (lambda.new ≡ lambda_unrolled node lambda.old) }
    ensures step { OnOk result ((held : List PlainLambda) →
        MayStandFor held lambda.old lambda.new) }
    ensures err { OnErr result (lambda.new ≡ lambda.old) }
{
    let values = values(lambda);
    let next = lambda.next;
    let turn = turn_of(alloc, &lambda.body, values, next, node)?;
    change_lambda(
        lambda,
        &mut Unrolling {
            alloc,
            values,
            next,
            node,
            last: turn.last,
            results: turn.results,
        },
    )?;
    lambda.next = turn.next;
    Ok(())
}

// The test for the change of the region that holds the loop, in a lambda of so many values.
#[derive(Drop)]
struct Unrolled {
    values: u64,
    next: u32,
    node: u32,
}

impl CanChange for Unrolled {
    ghost changed = { λ c. unroll_here c.values c.next c.node };

    fn can_change(&self, region: &Region) -> bool {
        can_unroll(region, self.values, self.next, self.node)
    }
}

// The change of the region that holds the loop, with the last node and the results of its region.
#[derive(Drop)]
struct Unrolling {
    alloc: Global,
    values: u64,
    next: u32,
    node: u32,
    last: Node,
    results: Vec<Origin>,
}

impl Change for Unrolling {
    type Fault = NoMemory;

    ghost changed = { λ c. followed_at c.values c.next c.node c.last c.results.items };

    fn make(&mut self, region: &mut Region) -> Result<bool, NoMemory> {
        if !can_unroll(region, self.values, self.next, self.node) {
            return Ok(false);
        }
        let last = mem::replace(&mut self.last, nothing(self.alloc));
        let results = mem::replace(&mut self.results, Vec::new(self.alloc));
        follow_at(region, self.values, self.next, self.node, last, results)?;
        Ok(true)
    }
}
