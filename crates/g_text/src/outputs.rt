//! The kinds of the outputs of all nodes of a lambda, found by the number of the node.

use base::NoMemory;
use g_graph::{Kind, Node, Op, Origin, Region, first_args, op_outputs};
use std::alloc::Global;
use std::collections::HashMap;

// Where the outputs of a node begin in the list of all, how many they are, and whether the node has
// regions.
#[derive(Clone, Copy)]
struct Span {
    first: usize,
    count: usize,
    nested: bool,
}

/// The kinds of the outputs of all nodes.
#[derive(Drop)]
pub(crate) struct Outputs {
    spans: HashMap<u32, Span>,
    kinds: Vec<Kind>,
}

/// Whether nodes of the op have regions.
pub(crate) fn is_nested(op: Op) -> bool {
    matches!(op, Op::Gamma | Op::Theta)
}

impl Outputs {
    fn new(alloc: Global) -> Outputs {
        Outputs {
            spans: HashMap::new(alloc),
            kinds: Vec::new(alloc),
        }
    }

    fn output(&self, node: u32, port: u32) -> Option<Kind> {
        let span = self.spans.get(&node)?;
        let index = span.first.checked_add(port as usize)?;
        self.kinds.get(index).copied()
    }

    /// The kind of an origin in a region with these arguments; none where it is not there.
    pub(crate) fn kind(&self, args: &[Kind], origin: Origin) -> Option<Kind> {
        match origin {
            Origin::Arg(index) => args.get(index as usize).copied(),
            Origin::Out { node, port } => self.output(node, port),
        }
    }

    /// The kinds of the outputs of a node.
    pub(crate) fn of_node(&self, node: u32) -> &[Kind] {
        match self.spans.get(&node) {
            Some(span) => span_of(&self.kinds, *span),
            None => &[],
        }
    }

    /// Whether the origin is an output of a node with regions.
    pub(crate) fn is_exit(&self, origin: Origin) -> bool {
        match origin {
            Origin::Arg(_) => false,
            Origin::Out { node, .. } => self.is_nested(node),
        }
    }

    fn is_nested(&self, node: u32) -> bool {
        match self.spans.get(&node) {
            Some(span) => span.nested,
            None => false,
        }
    }

    fn add_kinds(&mut self, kinds: &[Kind]) -> Result<(), NoMemory> {
        Ok(self.kinds.extend_from_slice(kinds)?)
    }

    // The outputs of a Gamma are the results of its first region.
    fn add_results(&mut self, regions: &[Region]) -> Result<(), NoMemory> {
        let Some(region) = regions.first() else {
            return Ok(());
        };
        for origin in &region.results {
            let kind = self.kind(&region.args, *origin).unwrap_or(Kind::Value);
            self.kinds.push(kind)?;
        }
        Ok(())
    }

    fn add_outputs(&mut self, node: &Node) -> Result<(), NoMemory> {
        match node.op {
            Op::Gamma => self.add_results(&node.regions),
            Op::Theta => self.add_kinds(first_args(&node.regions)),
            op => self.add_kinds(op_outputs(op)),
        }
    }

    // The nodes in the regions of the node come before it.
    fn add_span(&mut self, node: &Node) -> Result<(), NoMemory> {
        let first = self.kinds.len();
        self.add_outputs(node)?;
        let count = self.kinds.len().saturating_sub(first);
        let span = Span {
            first,
            count,
            nested: is_nested(node.op),
        };
        self.spans.insert(node.id, span)?;
        Ok(())
    }
}

fn span_of(kinds: &[Kind], span: Span) -> &[Kind] {
    match kinds.get(span.first..) {
        Some(rest) => &rest[..span.count.min(rest.len())],
        None => &[],
    }
}

#[cycle(fills)]
fn fill_region(outputs: &mut Outputs, region: &Region) -> Result<(), NoMemory> {
    for node in &region.nodes {
        fill_node(outputs, node)?;
    }
    Ok(())
}

#[cycle(fills)]
fn fill_node(outputs: &mut Outputs, node: &Node) -> Result<(), NoMemory> {
    for region in &node.regions {
        fill_region(outputs, region)?;
    }
    outputs.add_span(node)
}

/// The outputs of the nodes of a body.
pub(crate) fn outputs_of(alloc: Global, body: &Region) -> Result<Outputs, NoMemory> {
    let mut outputs = Outputs::new(alloc);
    fill_region(&mut outputs, body)?;
    Ok(outputs)
}
