//! The entry and exit variables of a Gamma that stay.

ghost use Rattle.std.specs.Prelude.{◌≡◌, ◌||◌, not, slice_get, ◌&&◌};
ghost use Rattle.g_graph.specs.declared.op.Kind.TheVariants.{Value};
ghost use Rattle.g_graph.specs.declared.op.Origin.TheVariants.{Arg, Out};
ghost use Rattle.g_graph.specs.Plain.{regions_of, id_of};
ghost use Rattle.g_graph.specs.Signatures.{joined, first_args, output_kinds};
ghost use Rattle.g_graph.specs.Scope.{is_of, same_origin};
ghost use Rattle.g_graph.specs.WellFormed.{some_of};
ghost use Rattle.g_graph.specs.Nodes.{is_used};
ghost use Rattle.r_edit.specs.Places.{stays_at, kept};
ghost use Rattle.r_edit.specs.Exits.{regions_giving};
ghost use Rattle.r_edit.specs.InPlace.{region_giving};
ghost use Rattle.r_dne.specs.Rule.{used_exits, some_uses, used_entries};

use crate::node::output_count;
use g_graph::{Kind, Node, Origin, Region, first_args, is_of, output_kind};
use r_edit::{Source, Stays, is_source, nodes_use_source, stays_at, uses_source};

/// The exit variables of a node of a region: states stay, and values that are used.
#[derive(Drop)]
pub struct Exits<'a> {
    pub region: &'a Region,
    pub node: &'a Node,
}

impl Stays for Exits<'_> {
    ghost stays = { λ e. used_exits (id_of e.node.now) e.region.now 0 (output_kinds e.node.now) };

    #[tactic(auto, using(crate::proofs::Tests::exits_count))]
    fn count(&self) -> usize {
        output_count(self.node)
    }

    #[tactic(auto, using(crate::proofs::Tests::exit_at))]
    fn keeps(&self, index: usize) -> bool {
        exit_stays(self.region, self.node, index)
    }
}

fn exit_stays(region: &Region, node: &Node, port: usize) -> bool
    ensures { result ≡ (not (is_of Value (joined (slice_get (output_kinds node.now) port)))
        || is_used (Out (id_of node.now) port) region.now) }
{
    let source = Source::Out {
        node: node.id,
        port,
    };
    !is_of(Kind::Value, output_kind(node, port)) || uses_source(region, source)
}

/// The entry variables of a Gamma of these regions, without the results that do not stay: those
/// stay whose argument some region uses.
#[derive(Drop)]
pub struct Entries<'a> {
    pub regions: &'a [Region],
    pub exits: &'a [bool],
}

impl Stays for Entries<'_> {
    ghost stays = { λ e. used_entries (regions_giving e.exits.now (regions_of e.regions.now))
        0 (first_args (regions_of e.regions.now)) };

    #[tactic(auto, using(crate::proofs::Tests::entries_count))]
    fn count(&self) -> usize {
        first_args(self.regions).len()
    }

    #[tactic(auto, using(crate::proofs::Tests::entry_at))]
    fn keeps(&self, index: usize) -> bool {
        some_uses(self.regions, self.exits, index)
    }
}

fn some_uses(regions: &[Region], exits: &[bool], index: usize) -> bool
    ensures { result ≡ some_uses (Arg index) (regions_giving exits.now (regions_of regions.now)) }
{
    for region in regions {
        if uses(region, exits, index) {
            return true;
        }
    }
    false
}

fn uses(region: &Region, exits: &[bool], index: usize) -> bool
    ensures { result ≡ is_used (Arg index) (region_giving exits.now region.now) }
{
    nodes_use_source(&region.nodes, Source::Arg(index))
        || is_among_kept(&region.results, exits, index)
}

#[tactic(auto, using(crate::proofs::Tests::kept_some_more))]
fn is_among_kept(results: &[Origin], exits: &[bool], index: usize) -> bool
    ensures { result ≡ some_of (same_origin (Arg index)) (kept exits.now results.now) }
{
    for (i, origin) in results.iter().enumerate() {
        if is_kept_argument(exits, i, index, *origin) {
            return true;
        }
    }
    false
}

fn is_kept_argument(exits: &[bool], place: usize, index: usize, origin: Origin) -> bool
    ensures { result ≡ (stays_at exits.now place && same_origin (Arg index) origin) }
{
    stays_at(exits, place) && is_source(Source::Arg(index), origin)
}
