//! What the exit variables of a Gamma carry.

ghost use Rattle.std.specs.Prelude.{◌≡◌, length, slice_get};
ghost use Rattle.g_graph.specs.declared.op.Op.TheVariants.{Gamma};
ghost use Rattle.g_graph.specs.Plain.{regions_of, results_of};
ghost use Rattle.g_graph.specs.Signatures.{outputs_of};
ghost use Rattle.g_graph.specs.WellFormed.{is_origin};
ghost use Rattle.r_edit.specs.Carried.{outer, all_pass, passed};
ghost use Rattle.r_inv.specs.Rule.{carried_exits};

use crate::carried::Carried;
use g_graph::{Origin, Region, same_origin};

/// What the exit variables carry of a Gamma with these inputs and regions.
#[derive(Drop)]
pub struct Exits<'a> {
    pub inputs: &'a [Origin],
    pub regions: &'a [Region],
}

impl Carried for Exits<'_> {
    ghost carried = { λ e. carried_exits e.inputs.now (regions_of e.regions.now) };

    #[tactic(auto, using(crate::proofs::Lists::exits_count))]
    fn count(&self) -> usize {
        exit_count(self.regions)
    }

    #[tactic(auto, using(crate::proofs::Lists::exit_at))]
    fn carries(&self, index: usize) -> Option<Origin> {
        passed(self.inputs, index, self.regions)
    }
}

fn exit_count(regions: &[Region]) -> usize
    ensures { result ≡ length (outputs_of Gamma (regions_of regions.now)) }
{
    match regions.first() {
        Some(region) => region.results.len(),
        None => 0,
    }
}

// The one origin that the result carries in every region.
fn passed(inputs: &[Origin], port: usize, regions: &[Region]) -> Option<Origin>
    ensures { result ≡ passed inputs.now port (regions_of regions.now) }
{
    match regions {
        [first, others @ ..] => match outer(inputs, first.results.get(port).copied()) {
            Some(origin) => {
                if all_pass(inputs, origin, port, others) {
                    Some(origin)
                } else {
                    None
                }
            }
            None => None,
        },
        [] => None,
    }
}

fn all_pass(inputs: &[Origin], origin: Origin, port: usize, regions: &[Region]) -> bool
    ensures { result ≡ all_pass inputs.now origin port (regions_of regions.now) }
{
    for region in regions {
        if !passes(inputs, origin, port, region) {
            return false;
        }
    }
    true
}

fn passes(inputs: &[Origin], origin: Origin, port: usize, region: &Region) -> bool
    ensures { result ≡
        is_origin (outer inputs.now (slice_get (results_of region.now) port)) origin }
{
    match outer(inputs, region.results.get(port).copied()) {
        Some(found) => same_origin(found, origin),
        None => false,
    }
}

// What an argument of a region carries; the first input is the predicate.
fn outer(inputs: &[Origin], given: Option<Origin>) -> Option<Origin>
    ensures { result ≡ outer inputs.now given }
{
    match given {
        Some(Origin::Arg(index)) => inputs.get(index as usize + 1).copied(),
        _ => None,
    }
}
