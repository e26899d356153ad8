//! Sources of values: arguments and outputs by an index of any size, and what uses them.

ghost use Rattle.std.specs.Prelude.{◌≡◌};
ghost use Rattle.g_graph.specs.Plain.{nodes_of};
ghost use Rattle.g_graph.specs.Scope.{same_origin};
ghost use Rattle.g_graph.specs.WellFormed.{some_of};
ghost use Rattle.g_graph.specs.Nodes.{nodes_use, is_used};
ghost use Rattle.r_edit.specs.Origins.{origin_of};

use g_graph::{Node, Origin, Region};

/// An argument of a region, or an output of a node in it, by an index of any size: an origin, where
/// the index is small enough for one.
#[derive(Clone, Copy)]
pub enum Source {
    Arg(usize),
    Out { node: u32, port: usize },
}

/// Whether it is an input of a node of the region, or a result of it. It looks at no nested region.
pub fn uses_source(region: &Region, source: Source) -> bool
    ensures { result ≡ is_used (origin_of source) region.now }
{
    nodes_use_source(&region.nodes, source) || is_source_among(&region.results, source)
}

/// Whether it is an input of one of these nodes.
pub fn nodes_use_source(nodes: &[Node], source: Source) -> bool
    ensures { result ≡ nodes_use (origin_of source) (nodes_of nodes.now) }
{
    for node in nodes {
        if is_source_among(node.inputs.as_slice(), source) {
            return true;
        }
    }
    false
}

/// Whether it is one of these origins.
pub fn is_source_among(origins: &[Origin], source: Source) -> bool
    ensures { result ≡ some_of (same_origin (origin_of source)) origins.now }
{
    for origin in origins {
        if is_source(source, *origin) {
            return true;
        }
    }
    false
}

/// Whether the origin is that source.
pub fn is_source(source: Source, origin: Origin) -> bool
    ensures { result ≡ same_origin (origin_of source) origin }
{
    match (source, origin) {
        (Source::Arg(index), Origin::Arg(other)) => index == other as usize,
        (
            Source::Out { node, port },
            Origin::Out {
                node: other,
                port: at,
            },
        ) => { node == other && port == at as usize }
        _ => false,
    }
}
