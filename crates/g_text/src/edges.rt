//! The edges of a lambda.

ghost use Rattle.std.specs.Prelude.{◌≡◌, ◌++◌, OnOk, IfOk, flat_map};
ghost use Rattle.g_text.specs.Edges.{
  edge_text,
  foot_text,
  input_edges,
  node_edges,
  region_edges,
  result_edges,
  source_text,
  style_text,
  target_text,
};
ghost use Rattle.g_text.specs.Drawing.{ends_of};
ghost use Rattle.g_text.specs.declared.edges.Place.TheVariants.{Body};

use crate::outputs::Outputs;
use crate::push::{push, push_numbered, push_place};
use base::NoMemory;
use g_graph::{Kind, Node, Op, Origin, Region};
use std::alloc::Global;

/// Where a region stands: it is the body, or one of the regions of a node.
#[derive(Clone, Copy)]
pub enum Place {
    Body,
    Within { node: u32, index: usize },
}

/// Where an edge goes to: an input of a node, or a result of the region.
#[derive(Clone, Copy)]
pub enum Target {
    Input { node: u32, index: usize },
    Final { index: usize },
}

/// The ends of an edge, both in the region at this place.
#[derive(Clone, Copy)]
pub struct Ends {
    pub place: Place,
    pub origin: Origin,
    pub target: Target,
}

/// How an edge is drawn.
#[derive(Clone, Copy)]
pub enum Style {
    Plain,
    Memory,
    Io,
    /// It chooses a region, or says whether one is done again.
    Predicate,
}

/// An edge, and whether it is drawn from the foot of a node with regions.
#[derive(Clone, Copy)]
pub struct Edge {
    pub ends: Ends,
    pub exit: bool,
    pub style: Style,
}

// The styles of the edges of a region, by the kinds of their origins.
#[derive(Clone, Copy)]
struct Styles<'a> {
    outputs: &'a Outputs,
    args: &'a [Kind],
}

impl Styles<'_> {
    fn style(&self, origin: Origin) -> Style {
        match self.outputs.kind(self.args, origin) {
            Some(Kind::Memory) => Style::Memory,
            Some(Kind::Io) => Style::Io,
            _ => Style::Plain,
        }
    }

    fn edge(&self, ends: Ends, predicate: bool) -> Edge
        ensures { result.ends ≡ ends }
    {
        let style = if predicate {
            Style::Predicate
        } else {
            self.style(ends.origin)
        };
        Edge {
            ends,
            exit: self.outputs.is_exit(ends.origin),
            style,
        }
    }
}

// The edges to the inputs of a node. The first input of a Gamma is its predicate.
#[tactic(auto, using(crate::proofs::EdgeLemmas::one_more))]
fn add_inputs(
    edges: &mut Vec<Edge>,
    styles: &Styles,
    place: Place,
    id: u32,
    gamma: bool,
    inputs: &[Origin],
) -> Result<(), NoMemory>
    ensures { OnOk result (ends_of edges.new.items ≡
        ends_of edges.old.items ++ input_edges place id 0 inputs.now) }
{
    for (index, origin) in inputs.iter().enumerate() {
        let ends = Ends {
            place,
            origin: *origin,
            target: Target::Input { node: id, index },
        };
        edges.push(styles.edge(ends, gamma && index == 0))?;
    }
    Ok(())
}

// The edges to the results of a region. The first result of a Theta's region is its predicate.
#[tactic(auto, using(crate::proofs::EdgeLemmas::one_more))]
fn add_results(
    edges: &mut Vec<Edge>,
    styles: &Styles,
    place: Place,
    theta: bool,
    results: &[Origin],
) -> Result<(), NoMemory>
    ensures { OnOk result (ends_of edges.new.items ≡
        ends_of edges.old.items ++ result_edges place 0 results.now) }
{
    for (index, origin) in results.iter().enumerate() {
        let ends = Ends {
            place,
            origin: *origin,
            target: Target::Final { index },
        };
        edges.push(styles.edge(ends, theta && index == 0))?;
    }
    Ok(())
}

#[cycle(walks)]
fn add_region(
    edges: &mut Vec<Edge>,
    outputs: &Outputs,
    place: Place,
    theta: bool,
    region: &Region,
) -> Result<(), NoMemory>
    ensures { OnOk result (ends_of edges.new.items ≡
        ends_of edges.old.items ++ region_edges place region.now) }
{
    let styles = Styles {
        outputs,
        args: &region.args,
    };
    for node in &region.nodes {
        add_node(edges, &styles, place, node)?;
    }
    add_results(edges, &styles, place, theta, &region.results)
}

#[cycle(walks)]
fn add_node(
    edges: &mut Vec<Edge>,
    styles: &Styles,
    place: Place,
    node: &Node,
) -> Result<(), NoMemory>
    ensures { OnOk result (ends_of edges.new.items ≡
        ends_of edges.old.items ++ node_edges place node.now) }
{
    let gamma = matches!(node.op, Op::Gamma);
    add_inputs(edges, styles, place, node.id, gamma, node.inputs.as_slice())?;
    for (index, region) in node.regions.iter().enumerate() {
        let inside = Place::Within {
            node: node.id,
            index,
        };
        add_region(edges, styles.outputs, inside, !gamma, region)?;
    }
    Ok(())
}

/// The edges of a body, with the kinds of the outputs of its nodes.
pub(crate) fn edges_of(
    alloc: Global,
    outputs: &Outputs,
    body: &Region,
) -> Result<Vec<Edge>, NoMemory>
    ensures { IfOk result (λ edges. ends_of edges.items ≡ region_edges Body body.now) }
{
    let mut edges = Vec::new(alloc);
    add_region(&mut edges, outputs, Place::Body, false, body)?;
    Ok(edges)
}

fn foot(exit: bool) -> &'static str
    ensures { result.now ≡ foot_text exit }
{
    if exit { "_x:o" } else { ":o" }
}

fn push_source(out: &mut Vec<u8>, place: Place, exit: bool, origin: Origin) -> Result<(), NoMemory>
    ensures { OnOk result (out.new.items ≡ out.old.items ++ source_text place exit origin) }
{
    match origin {
        Origin::Arg(index) => {
            push_place(out, place)?;
            push_numbered(out, "_a:p", u64::from(index))
        }
        Origin::Out { node, port } => {
            push_numbered(out, "n", u64::from(node))?;
            push_numbered(out, foot(exit), u64::from(port))
        }
    }
}

fn push_target(out: &mut Vec<u8>, place: Place, target: Target) -> Result<(), NoMemory>
    ensures { OnOk result (out.new.items ≡ out.old.items ++ target_text place target) }
{
    match target {
        Target::Input { node, index } => {
            push_numbered(out, "n", u64::from(node))?;
            push_numbered(out, ":i", index as u64)
        }
        Target::Final { index } => {
            push_place(out, place)?;
            push_numbered(out, "_r:p", index as u64)
        }
    }
}

fn attributes(style: Style) -> &'static str
    ensures { result.now ≡ style_text style }
{
    match style {
        Style::Plain => "",
        Style::Memory => " [color=\"#b45309\", style=dashed]",
        Style::Io => " [color=\"#0f766e\", style=dashed]",
        Style::Predicate => " [color=\"#7c3aed\"]",
    }
}

fn push_edge(out: &mut Vec<u8>, edge: &Edge) -> Result<(), NoMemory>
    ensures { OnOk result (out.new.items ≡ out.old.items ++ edge_text edge.now) }
{
    let ends = edge.ends;
    push_source(out, ends.place, edge.exit, ends.origin)?;
    push(out, ":s -> ")?;
    push_target(out, ends.place, ends.target)?;
    push(out, ":n")?;
    push(out, attributes(edge.style))?;
    push(out, ";\n")
}

/// The lines of edges go to the end of the buffer.
pub(crate) fn push_edges(out: &mut Vec<u8>, edges: &[Edge]) -> Result<(), NoMemory>
    ensures { OnOk result (out.new.items ≡ out.old.items ++ flat_map edge_text edges.now) }
{
    for edge in edges {
        push_edge(out, edge)?;
    }
    Ok(())
}
