//! Where the rule applies, and what it does there.

ghost use Rattle.std.specs.Prelude.{◌≡◌, List, MatchBool, IfOk, OnOk, OnErr, IsTrue};
ghost use Rattle.std.specs.declared.option.Option.TheVariants.{Some, None};
ghost use Rattle.g_graph.specs.Plain.{PlainLambda};
ghost use Rattle.g_graph.specs.WellFormed.{IsWellFormed};
ghost use Rattle.r_edit.specs.Steps.{MayStandFor};
ghost use Rattle.r_inv.specs.Rule.{inv_here, applies, inv};
ghost use Rattle.r_inv.specs.Plan.{carried_out, fits};

use crate::find::{can_redirect, plan_at};
use crate::plan::Plan;
use base::NoMemory;
use g_graph::{Lambda, Region};
use r_edit::{RegionRule, carry_exits, carry_uses};
use std::alloc::Global;

/// Whether the rule applies at the node of this number: a Gamma with exits, states too, that in
/// every region are arguments of one origin, or a Theta with value variables whose result is their
/// argument, where an output of one of them is used. It is false for a number that is not there. It
/// takes no memory. It takes time linear in the lambda, and for a Gamma or a Theta the time of a
/// walk through its region for each of those variables.
pub fn applies(lambda: &Lambda, node: u32) -> bool
    ensures { result ≡ applies lambda.now node }
{
    r_edit::applies(&Redirecting { node }, lambda)
}

/// Uses of each such output become uses of that origin, or of the variable's input; of a Gamma all
/// those exits go, of a Theta nothing does. It takes memory only for an origin and a test for each
/// variable, and time as `applies`. Where memory runs out nothing changes.
pub fn apply(alloc: Global, lambda: &mut Lambda, node: u32) -> Result<(), NoMemory>
    requires well_formed { IsWellFormed lambda.old }
    requires applies { IsTrue (applies lambda.old node) }
    ensures ok { OnOk result (lambda.new ≡ inv node lambda.old) }
    ensures step { OnOk result ((held : List PlainLambda) →
        MayStandFor held lambda.old lambda.new) }
    ensures err { OnErr result (lambda.new ≡ lambda.old) }
{
    r_edit::apply(&Redirecting { node }, alloc, lambda)
}

// The rule at the node of this number.
#[derive(Drop)]
struct Redirecting {
    node: u32,
}

impl RegionRule for Redirecting {
    type Memory = Global;

    type Fault = NoMemory;

    ghost here = { λ r. inv_here r.node };

    fn can(&self, region: &Region) -> bool {
        can_redirect(region, self.node)
    }

    fn make(&self, alloc: Global, region: &mut Region) -> Result<bool, NoMemory> {
        redirect(alloc, region, self.node)
    }
}

fn redirect(alloc: Global, region: &mut Region, id: u32) -> Result<bool, NoMemory>
    ensures ok { IfOk result (λ done.
        MatchBool done (inv_here id region.old ≡ Some region.new)
        ((inv_here id region.old ≡ None) × (region.new ≡ region.old))) }
    ensures err { OnErr result (region.new ≡ region.old) }
{
    match plan_at(alloc, region, id)? {
        Some(plan) => {
            carry_out(region, id, plan);
            Ok(true)
        }
        None => Ok(false),
    }
}

fn carry_out(region: &mut Region, id: u32, plan: Plan)
    requires { fits plan }
    ensures { region.new ≡ carried_out id region.old plan }
{
    match plan {
        Plan::Gamma(carried, stays) => carry_exits(region, id, &carried, &stays),
        Plan::Theta(carried) => carry_uses(region, id, &carried),
    }
}
