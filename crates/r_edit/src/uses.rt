//! The edit of uses: those of an origin become uses of another one.

ghost use Rattle.std.specs.Prelude.{◌≡◌, MatchBool};
ghost use Rattle.std.specs.declared.option.Option.TheVariants.{Some, None};
ghost use Rattle.g_graph.specs.Plain.{nodes_of};
ghost use Rattle.g_graph.specs.WellFormed.{some_of};
ghost use Rattle.r_edit.specs.Uses.{nodes_read, is_read, is_output_of, uses_replaced};

use g_graph::{Node, Origin, OriginReplaced, Region, is_used, redirect_region};

/// In the region itself the uses of one origin become uses of another, where there are any; it
/// answers whether there were. It takes no memory, and time linear in the inputs of the region's
/// nodes and in its results.
pub fn replace_used(region: &mut Region, from: Origin, to: Origin) -> bool
    ensures { MatchBool result (uses_replaced from to region.old ≡ Some region.new)
        ((uses_replaced from to region.old ≡ None) × (region.new ≡ region.old)) }
{
    if !is_used(region, from) {
        return false;
    }
    redirect_region(region, &OriginReplaced { from, to });
    true
}

/// Whether an output of the node of this number is an input of a node of the region, or a result of
/// it. It looks at no nested region.
pub fn reads_node(region: &Region, id: u32) -> bool
    ensures { result ≡ is_read (is_output_of id) region.now }
{
    nodes_read(&region.nodes, id) || some_output_of(&region.results, id)
}

/// Whether an output of the node of this number is an input of one of these nodes.
pub fn nodes_read(nodes: &[Node], id: u32) -> bool
    ensures { result ≡ nodes_read (is_output_of id) (nodes_of nodes.now) }
{
    for node in nodes {
        if some_output_of(node.inputs.as_slice(), id) {
            return true;
        }
    }
    false
}

/// Whether one of these origins is an output of the node of this number.
pub fn some_output_of(origins: &[Origin], id: u32) -> bool
    ensures { result ≡ some_of (is_output_of id) origins.now }
{
    for origin in origins {
        if is_output_of(*origin, id) {
            return true;
        }
    }
    false
}

/// Whether the origin is an output of the node of this number.
pub fn is_output_of(origin: Origin, id: u32) -> bool
    ensures { result ≡ is_output_of id origin }
{
    match origin {
        Origin::Arg(_) => false,
        Origin::Out { node, .. } => id == node,
    }
}
