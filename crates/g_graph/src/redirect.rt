//! Origins replaced by others, in a region or in a list of nodes.

ghost use Rattle.std.specs.Prelude.{◌≡◌, ◌++◌, map, take, drop, unwrap_or, slice_get};
ghost use Rattle.g_graph.specs.declared.op.Origin.{Origin};
ghost use Rattle.g_graph.specs.Scope.{same_origin};
ghost use Rattle.g_graph.specs.Replace.{node_redirected, region_redirected, origin_replaced};
ghost use Rattle.g_graph.specs.Splice.{args_to_inputs, outputs_to_results};

use crate::{Node, Origin, Region};

/// Where an origin is found after a change.
pub trait Redirect {
    ghost redirected: { Self → Origin → Origin };

    fn redirect(&self, origin: Origin) -> Origin
        ensures { result ≡ redirected self.now origin };
}

/// One origin for another.
#[derive(Drop)]
pub struct OriginReplaced {
    pub from: Origin,
    pub to: Origin,
}

impl Redirect for OriginReplaced {
    ghost redirected = { λ m. origin_replaced m.from m.to };

    fn redirect(&self, origin: Origin) -> Origin {
        if same_origin(self.from, origin) {
            self.to
        } else {
            origin
        }
    }
}

/// The inputs of a replacement for its arguments.
#[derive(Drop)]
pub struct ArgsToInputs<'a> {
    pub inputs: &'a [Origin],
}

impl Redirect for ArgsToInputs<'_> {
    ghost redirected = { λ p. args_to_inputs p.inputs.now };

    fn redirect(&self, origin: Origin) -> Origin {
        match origin {
            Origin::Arg(index) => origin_at(self.inputs, index, origin),
            Origin::Out { .. } => origin,
        }
    }
}

/// The results of a replacement for the outputs of a node.
#[derive(Drop)]
pub struct OutputsToResults<'a> {
    pub at: u32,
    pub outputs: &'a [Origin],
}

impl Redirect for OutputsToResults<'_> {
    ghost redirected = { λ w. outputs_to_results w.at w.outputs.now };

    fn redirect(&self, origin: Origin) -> Origin {
        match origin {
            Origin::Out { node, port } => {
                if node == self.at {
                    origin_at(self.outputs, port, origin)
                } else {
                    origin
                }
            }
            Origin::Arg(_) => origin,
        }
    }
}

fn origin_at(origins: &[Origin], index: u32, otherwise: Origin) -> Origin
    ensures { result ≡ unwrap_or (slice_get origins.now index) otherwise }
{
    match origins.get(index as usize) {
        Some(origin) => *origin,
        None => otherwise,
    }
}

/// Whether two origins are the same.
pub fn same_origin(a: Origin, b: Origin) -> bool
    ensures { result ≡ same_origin a b }
{
    match (a, b) {
        (Origin::Arg(index), Origin::Arg(other)) => index == other,
        (
            Origin::Out { node, port },
            Origin::Out {
                node: other,
                port: at,
            },
        ) => { node == other && port == at }
        _ => false,
    }
}

/// Redirects each input and result of the region, but nothing in the regions nested in it.
pub fn redirect_region<R: Redirect>(region: &mut Region, by: &R)
    ensures { region.new ≡ region_redirected (R.redirected by.now) region.old }
{
    redirect_nodes(&mut region.nodes, 0, by);
    redirect_origins(region.results.as_mut_slice(), by);
}

/// Redirects each input of the nodes from an index on.
pub fn redirect_nodes<R: Redirect>(nodes: &mut Vec<Node>, from: usize, by: &R)
    ensures { nodes.new.items ≡ take from nodes.old.items ++ map
        (node_redirected (R.redirected by.now)) (drop from nodes.old.items) }
{
    for i in from..nodes.len() {
        redirect_node(&mut nodes[i], by);
    }
}

fn redirect_node<R: Redirect>(node: &mut Node, by: &R)
    ensures { node.new ≡ node_redirected (R.redirected by.now) node.old }
{
    redirect_origins(node.inputs.as_mut_slice(), by);
}

/// Redirects each of these origins.
pub fn redirect_origins<R: Redirect>(origins: &mut [Origin], by: &R)
    ensures { origins.new ≡ map (R.redirected by.now) origins.old }
{
    for origin in origins.iter_mut() {
        *origin = by.redirect(*origin);
    }
}
