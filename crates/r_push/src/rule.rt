//! Where the rule applies, and what it does there.

ghost use Rattle.std.specs.Prelude.{◌≡◌, List, OnOk, OnErr, IsTrue};
ghost use Rattle.g_graph.specs.Plain.{PlainLambda};
ghost use Rattle.g_graph.specs.WellFormed.{IsWellFormed};
ghost use Rattle.r_edit.specs.Steps.{MayStandFor};
ghost use Rattle.r_push.specs.Rule.{push_here, applies, lambda_pushed};

use crate::find::can_push;
use crate::push::push;
use base::NoMemory;
use g_graph::{Lambda, Region, values};
use r_edit::RegionRule;
use std::alloc::Global;

/// Whether the rule applies at the node of this number: a Const, Undef, Local, Delta, Bin or Un
/// whose output is used and whose inputs are all arguments, in a region of a Gamma, or in a Theta
/// where they are arguments of variables whose result is their argument; and where the lambda has
/// at most `MOST_GROWN_VALUES` values afterwards. It is false for a number that is not there. It
/// takes no memory, and time linear in the lambda.
pub fn applies(lambda: &Lambda, node: u32) -> bool
    ensures { result ≡ applies lambda.now node }
{
    r_edit::applies(
        &Pushing {
            values: values(lambda),
            node,
        },
        lambda,
    )
}

/// The node moves to directly before the Gamma or Theta, with its number; one more last variable
/// of that node carries its value, and its uses become the new argument. Out of memory, the
/// lambda is as it was. It takes time linear in the lambda, and memory for the lists of that node
/// and of its regions, which become one longer.
pub fn apply(alloc: Global, lambda: &mut Lambda, node: u32) -> Result<(), NoMemory>
    requires well_formed { IsWellFormed lambda.old }
    requires applies { IsTrue (applies lambda.old node) }
    ensures ok { OnOk result (lambda.new ≡ lambda_pushed node lambda.old) }
    ensures step { OnOk result ((held : List PlainLambda) →
        MayStandFor held lambda.old lambda.new) }
    ensures err { OnErr result (lambda.new ≡ lambda.old) }
{
    let values = values(lambda);
    r_edit::apply(&Pushing { values, node }, alloc, lambda)?;
    Ok(())
}

// The rule at the node of this number, in a lambda of so many values.
#[derive(Drop)]
struct Pushing {
    values: u64,
    node: u32,
}

impl RegionRule for Pushing {
    type Memory = Global;

    type Fault = NoMemory;

    ghost here = { λ r. push_here r.values r.node };

    fn can(&self, region: &Region) -> bool {
        can_push(region, self.values, self.node)
    }

    fn make(&self, alloc: Global, region: &mut Region) -> Result<bool, NoMemory> {
        push(alloc, region, self.values, self.node)
    }
}
