//! Whether a region reads an entry that goes.

ghost use Rattle.std.specs.Prelude.{◌≡◌, false, option_map, slice_get, unwrap_or};
ghost use Rattle.g_graph.specs.Plain.{nodes_of};
ghost use Rattle.g_graph.specs.WellFormed.{some_of};
ghost use Rattle.r_edit.specs.Entries.{is_gone_argument};
ghost use Rattle.r_edit.specs.Uses.{nodes_read, is_read, is_output_of};
ghost use Rattle.r_pull.specs.Rule.{other_entries};

use g_graph::{Node, Origin, Region};
use r_edit::is_output_of;

/// Whether the region reads the argument of an entry that is an output of the node of this number.
/// It looks at no nested region.
pub fn reads_gone(region: &Region, entries: &[Origin], id: u32) -> bool
    ensures { result ≡ is_read (is_gone_argument (other_entries id entries.now)) region.now }
{
    nodes_read_gone(&region.nodes, entries, id) || some_gone(&region.results, entries, id)
}

fn nodes_read_gone(nodes: &[Node], entries: &[Origin], id: u32) -> bool
    ensures { result ≡
        nodes_read (is_gone_argument (other_entries id entries.now)) (nodes_of nodes.now) }
{
    for node in nodes {
        if some_gone(node.inputs.as_slice(), entries, id) {
            return true;
        }
    }
    false
}

fn some_gone(origins: &[Origin], entries: &[Origin], id: u32) -> bool
    ensures { result ≡ some_of (is_gone_argument (other_entries id entries.now)) origins.now }
{
    for origin in origins {
        if is_gone(*origin, entries, id) {
            return true;
        }
    }
    false
}

fn is_gone(origin: Origin, entries: &[Origin], id: u32) -> bool
    ensures { result ≡ is_gone_argument (other_entries id entries.now) origin }
{
    match origin {
        Origin::Arg(index) => argument_goes(entries, index, id),
        Origin::Out { .. } => false,
    }
}

fn argument_goes(entries: &[Origin], index: u32, id: u32) -> bool
    ensures { result ≡
        unwrap_or (option_map (is_output_of id) (slice_get entries.now index)) false }
{
    match entries.get(index as usize) {
        Some(entry) => is_output_of(*entry, id),
        None => false,
    }
}
