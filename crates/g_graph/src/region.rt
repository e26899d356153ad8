//! The types of regions and nodes, and the trees that contracts see of them.

use crate::{Kind, Op, Origin};
use smallvec::SmallVec;
use std::marker::Model;

/// A region of a regionalised value state dependence graph: its arguments by kind, its nodes, each
/// after those that it uses, and where its results come from. Contracts see its tree.
#[cycle(graph)]
#[derive(Debug, Drop)]
pub struct Region {
    pub args: Vec<Kind>,
    pub nodes: Vec<Node>,
    pub results: Vec<Origin>,
}

/// A node; its number is unique in its lambda, and only a Gamma and a Theta have regions. Contracts
/// see its tree.
#[cycle(graph)]
#[derive(Debug, Drop)]
pub struct Node {
    pub id: u32,
    pub op: Op,
    pub inputs: SmallVec<Origin, 4>,
    pub regions: Vec<Region>,
}

impl Model for Region {
    ghost use Rattle.std.proofs.Common.{arith};
    ghost use Rattle.g_graph.specs.Plain.{RegionTree, region, nodes_of, region_size};
    ghost use Rattle.g_graph.specs.Codes.{coded_region, most_nodes};

    ghost Value = { RegionTree };

    ghost coded = { coded_region };

    ghost view = { λ r. region r.args.items (nodes_of r.nodes.items) r.results.items };

    ghost size = { region_size };

    ghost size_decreases = { λ a h. Prim.omega (arith, most_nodes a.nodes.items) };
}

impl Model for Node {
    ghost use Rattle.std.proofs.Common.{arith};
    ghost use Rattle.g_graph.specs.Plain.{NodeTree, node, regions_of, node_size};
    ghost use Rattle.g_graph.specs.Codes.{coded_node, most_regions};

    ghost Value = { NodeTree };

    ghost coded = { coded_node };

    ghost view = { λ n. node n.id n.op n.inputs.items (regions_of n.regions.items) };

    ghost size = { node_size };

    ghost size_decreases = { λ a h. Prim.omega (arith, most_regions a.regions.items) };
}
