//! What the loop variables of a Theta carry.

ghost use Rattle.std.specs.Prelude.{◌≡◌, length, slice_get};
ghost use Rattle.g_graph.specs.declared.op.Origin.TheVariants.{Arg};
ghost use Rattle.g_graph.specs.Plain.{args_of, results_of};
ghost use Rattle.g_graph.specs.WellFormed.{is_origin};
ghost use Rattle.r_inv.specs.Rule.{carried_variables, keeps, variable_carries};

use crate::carried::Carried;
use g_graph::{Kind, Origin, Region};
use r_edit::{Source, is_source};

/// What the loop variables carry of a Theta with these inputs and this region.
#[derive(Drop)]
pub struct Variables<'a> {
    pub inputs: &'a [Origin],
    pub nested: &'a Region,
}

impl Carried for Variables<'_> {
    ghost carried = { λ v. carried_variables v.inputs.now v.nested.now };

    #[tactic(auto, using(crate::proofs::Lists::variables_count))]
    fn count(&self) -> usize {
        arg_count(self.nested)
    }

    #[tactic(auto, using(crate::proofs::Lists::variable_at))]
    fn carries(&self, index: usize) -> Option<Origin> {
        variable_carries(self.inputs, self.nested, index)
    }
}

fn arg_count(region: &Region) -> usize
    ensures { result ≡ length (args_of region.now) }
{
    region.args.len()
}

fn variable_carries(inputs: &[Origin], nested: &Region, index: usize) -> Option<Origin>
    ensures { result ≡ variable_carries inputs.now nested.now index }
{
    if keeps(nested, index) {
        inputs.get(index).copied()
    } else {
        None
    }
}

// Whether the variable is a value whose result, the one after its place, is its argument.
fn keeps(region: &Region, index: usize) -> bool
    ensures { result ≡ keeps region.now index }
{
    match region.args.get(index) {
        Some(Kind::Value) => is_argument(region, index + 1, index),
        _ => false,
    }
}

fn is_argument(region: &Region, place: usize, index: usize) -> bool
    ensures { result ≡ is_origin (slice_get (results_of region.now) place) (Arg index) }
{
    match region.results.get(place) {
        Some(origin) => is_source(Source::Arg(index), *origin),
        None => false,
    }
}
