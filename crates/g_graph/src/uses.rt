//! Whether an origin is used in a region.

ghost use Rattle.std.specs.Prelude.{◌≡◌};
ghost use Rattle.g_graph.specs.Plain.{nodes_of};
ghost use Rattle.g_graph.specs.Scope.{same_origin};
ghost use Rattle.g_graph.specs.WellFormed.{some_of};
ghost use Rattle.g_graph.specs.Nodes.{nodes_use, is_used};

use crate::redirect::same_origin;
use crate::{Node, Origin, Region};

/// Whether the origin is an input of a node of the region, or a result of it. It looks at no nested
/// region.
pub fn is_used(region: &Region, origin: Origin) -> bool
    ensures { result ≡ is_used origin region.now }
{
    nodes_use(&region.nodes, origin) || is_among(&region.results, origin)
}

/// Whether the origin is an input of one of these nodes.
pub fn nodes_use(nodes: &[Node], origin: Origin) -> bool
    ensures { result ≡ nodes_use origin (nodes_of nodes.now) }
{
    for node in nodes {
        if is_among(node.inputs.as_slice(), origin) {
            return true;
        }
    }
    false
}

fn is_among(origins: &[Origin], origin: Origin) -> bool
    ensures { result ≡ some_of (same_origin origin) origins.now }
{
    for other in origins {
        if same_origin(origin, *other) {
            return true;
        }
    }
    false
}
