//! Where the rule applies, and what it does there.

ghost use Rattle.std.specs.Prelude.{◌≡◌, List, MatchBool, IsTrue, is_some};
ghost use Rattle.std.specs.declared.option.Option.TheVariants.{Some, None};
ghost use Rattle.g_graph.specs.Plain.{PlainLambda};
ghost use Rattle.g_graph.specs.WellFormed.{IsWellFormed};
ghost use Rattle.g_graph.specs.declared.op.Origin.TheVariants.{Out};
ghost use Rattle.r_edit.specs.Steps.{MayStandFor};
ghost use Rattle.r_cne.specs.Rule.{cne_here, applies, cne};

use crate::find::earlier;
use g_graph::{Lambda, Origin, Region, is_used};
use r_edit::{RegionRule, replace_used};
use std::convert::Infallible;

/// Whether the rule applies at the node of this number: a Const, Local, Delta, Bin, Un, Load or
/// PtrEq whose output is used, where an earlier node of its region has an equal op and equal
/// inputs. It is false for a number that is not there. It takes no memory, and time linear in the
/// lambda.
pub fn applies(lambda: &Lambda, node: u32) -> bool
    ensures { result ≡ applies lambda.now node }
{
    r_edit::applies(&Common { node }, lambda)
}

/// Uses of the node's output become uses of the output of the first node of its region with equal
/// op and inputs. It takes no memory, and time linear in the lambda.
pub fn apply(lambda: &mut Lambda, node: u32)
    requires well_formed { IsWellFormed lambda.old }
    requires applies { IsTrue (applies lambda.old node) }
    ensures defined { lambda.new ≡ cne node lambda.old }
    ensures step { (held : List PlainLambda) → MayStandFor held lambda.old lambda.new }
{
    match r_edit::apply(&Common { node }, (), lambda) {
        Ok(()) => (),
        Err(never) => match never {},
    }
}

// The rule at the node of this number.
#[derive(Drop)]
struct Common {
    node: u32,
}

impl RegionRule for Common {
    type Memory = ();

    type Fault = Infallible;

    ghost here = { λ c. cne_here c.node };

    fn can(&self, region: &Region) -> bool {
        can_replace(region, self.node)
    }

    fn make(&self, _memory: (), region: &mut Region) -> Result<bool, Infallible> {
        Ok(replace(region, self.node))
    }
}

/// Whether the region holds the node of this number, and uses of its output are to be replaced.
pub fn can_replace(region: &Region, id: u32) -> bool
    ensures { result ≡ is_some (cne_here id region.now) }
{
    match earlier(&region.nodes, id) {
        Some(_) => is_used(region, first_output(id)),
        None => false,
    }
}

// Replaces the uses of the node's output, where the rule applies, and answers whether it does.
fn replace(region: &mut Region, id: u32) -> bool
    ensures { MatchBool result (cne_here id region.old ≡ Some region.new)
        ((cne_here id region.old ≡ None) × (region.new ≡ region.old)) }
{
    match earlier(&region.nodes, id) {
        Some(other) => replace_used(region, first_output(id), first_output(other)),
        None => false,
    }
}

fn first_output(node: u32) -> Origin
    ensures { result ≡ Out node 0 }
{
    Origin::Out { node, port: 0 }
}
