//! Where the rule applies, and what it does there.

ghost use Rattle.std.specs.Prelude.{◌≡◌, List, MatchBool, IfOk, OnOk, OnErr, IsTrue};
ghost use Rattle.std.specs.declared.option.Option.TheVariants.{Some, None};
ghost use Rattle.g_graph.specs.Plain.{PlainLambda};
ghost use Rattle.g_graph.specs.WellFormed.{IsWellFormed};
ghost use Rattle.r_edit.specs.Steps.{MayStandFor};
ghost use Rattle.r_dne.specs.Rule.{dne_here, applies, dne};
ghost use Rattle.r_dne.specs.Plan.{carried_out};

use crate::find::{can_eliminate, plan_at};
use crate::plan::Plan;
use base::NoMemory;
use g_graph::{Lambda, Region};
use r_edit::{RegionRule, keep_entries, keep_exits, keep_variables, remove_node};
use std::alloc::Global;

/// Whether the rule applies at the node of this number: it gives no state and no output of it is
/// used; or it is a Gamma with a value exit that is not used, or an entry whose argument no region
/// uses; or it is a Theta with a value variable whose output is not used and whose argument nothing
/// but its own result uses. It is false for a number that is not there. It takes no memory. It
/// takes time linear in the lambda, and for a Gamma or a Theta the time of a walk through its
/// region and the regions in it for each of its variables.
pub fn applies(lambda: &Lambda, node: u32) -> bool
    ensures { result ≡ applies lambda.now node }
{
    r_edit::applies(&Eliminating { node }, lambda)
}

/// The node goes; or of a Gamma those exits go, and then the entries whose arguments no region uses
/// by then; or of a Theta those variables go. It takes memory only for a test for each variable,
/// and time as `applies`. Where memory runs out nothing changes.
pub fn apply(alloc: Global, lambda: &mut Lambda, node: u32) -> Result<(), NoMemory>
    requires well_formed { IsWellFormed lambda.old }
    requires applies { IsTrue (applies lambda.old node) }
    ensures ok { OnOk result (lambda.new ≡ dne node lambda.old) }
    ensures step { OnOk result ((held : List PlainLambda) →
        MayStandFor held lambda.old lambda.new) }
    ensures err { OnErr result (lambda.new ≡ lambda.old) }
{
    r_edit::apply(&Eliminating { node }, alloc, lambda)
}

// The rule at the node of this number.
#[derive(Drop)]
struct Eliminating {
    node: u32,
}

impl RegionRule for Eliminating {
    type Memory = Global;

    type Fault = NoMemory;

    ghost here = { λ r. dne_here r.node };

    fn can(&self, region: &Region) -> bool {
        can_eliminate(region, self.node)
    }

    fn make(&self, alloc: Global, region: &mut Region) -> Result<bool, NoMemory> {
        eliminate(alloc, region, self.node)
    }
}

fn eliminate(alloc: Global, region: &mut Region, id: u32) -> Result<bool, NoMemory>
    ensures ok { IfOk result (λ done.
        MatchBool done (dne_here id region.old ≡ Some region.new)
        ((dne_here id region.old ≡ None) × (region.new ≡ region.old))) }
    ensures err { OnErr result (region.new ≡ region.old) }
{
    match plan_at(alloc, region, id)? {
        Some(plan) => {
            carry_out(region, id, plan);
            Ok(true)
        }
        None => Ok(false),
    }
}

fn carry_out(region: &mut Region, id: u32, plan: Plan)
    ensures { region.new ≡ carried_out id region.old plan }
{
    match plan {
        Plan::Node => remove_node(region, id),
        Plan::Gamma(exits, entries) => {
            keep_exits(region, id, &exits);
            keep_entries(region, id, &entries);
        }
        Plan::Theta(stays) => keep_variables(region, id, &stays),
    }
}
