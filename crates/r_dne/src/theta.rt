//! The loop variables of a Theta that stay.

ghost use Rattle.std.specs.Prelude.{◌≡◌, ◌<◌, ◌||◌, not, length, slice_get};
ghost use Rattle.g_graph.specs.declared.op.Kind.TheVariants.{Value};
ghost use Rattle.g_graph.specs.declared.op.Origin.TheVariants.{Out};
ghost use Rattle.g_graph.specs.Plain.{args_of};
ghost use Rattle.g_graph.specs.Scope.{is_of};
ghost use Rattle.g_graph.specs.Nodes.{is_used};
ghost use Rattle.r_edit.specs.Origins.{origin_of};
ghost use Rattle.r_dne.specs.Rule.{others_use, argument_used, variables_of};

use g_graph::{Kind, Origin, Region, is_of};
use r_edit::{Source, Stays, is_source_among, nodes_use_source, uses_source};

/// The loop variables of a Theta of this number in a region: states stay, and values whose output
/// is used, or whose argument something else than their own result uses.
#[derive(Drop)]
pub struct Variables<'a> {
    pub region: &'a Region,
    pub id: u32,
    pub nested: &'a Region,
}

impl Stays for Variables<'_> {
    ghost stays = { λ v. variables_of v.id v.region.now v.nested.now };

    #[tactic(auto, using(crate::proofs::Tests::variables_count))]
    fn count(&self) -> usize {
        args_of(self.nested).len()
    }

    #[tactic(auto, using(crate::proofs::Tests::variable_at, crate::proofs::Tests::variables_count))]
    fn keeps(&self, index: usize) -> bool {
        variable_stays(self.region, self.id, self.nested, index)
    }
}

fn variable_stays(region: &Region, id: u32, nested: &Region, index: usize) -> bool
    requires { index < length (args_of nested.now) }
    ensures { result ≡ (not (is_of Value (slice_get (args_of nested.now) index))
        || is_used (Out id index) region.now || argument_used index nested.now) }
{
    let output = Source::Out {
        node: id,
        port: index,
    };
    !is_of(Kind::Value, args_of(nested).get(index).copied())
        || uses_source(region, output)
        || argument_stays(nested, index)
}

fn args_of(region: &Region) -> &[Kind]
    ensures { result.now ≡ args_of region.now }
{
    &region.args
}

// Whether something else than the variable's own result, the one after its place, uses its
// argument.
fn argument_stays(nested: &Region, index: usize) -> bool
    requires { index < length (args_of nested.now) }
    ensures { result ≡ argument_used index nested.now }
{
    let argument = Source::Arg(index);
    nodes_use_source(&nested.nodes, argument) || others_use(&nested.results, index + 1, argument)
}

#[tactic(auto, using(crate::proofs::Tests::others_past, crate::proofs::Tests::others_at))]
fn others_use(results: &[Origin], own: usize, source: Source) -> bool
    ensures { result ≡ others_use own (origin_of source) results.now }
{
    if own >= results.len() {
        return is_source_among(results, source);
    }
    is_source_among(&results[..own], source) || is_source_among(&results[own + 1..], source)
}
