//! The kinds of origins and of outputs, and the signatures of ops.

ghost use Rattle.std.specs.Prelude.{◌≡◌, ◌==◌, slice_get, if◌then◌else◌};
ghost use Rattle.std.specs.declared.option.Option.TheVariants.{Some, None};
ghost use Rattle.g_graph.specs.Plain.{nodes_of, regions_of, id_of};
ghost use Rattle.g_graph.specs.Signatures.{joined, result_kinds, output_kinds, kind_after, op_inputs, op_outputs, first_args, is_pure};
ghost use Rattle.g_graph.specs.Scope.{known, same_kind, is_of};

use crate::{Kind, Node, Op, Origin, Region};

/// The kind of an origin in a region with these arguments, after these nodes of it; none where the
/// origin is not there.
pub fn known(args: &[Kind], before: &[Node], origin: Origin) -> Option<Kind>
    ensures { result ≡ known args.now (nodes_of before.now) origin }
{
    match origin {
        Origin::Arg(index) => kind_at(args, index as usize),
        Origin::Out { node, port } => kind_after(before, node, port as usize),
    }
}

#[cycle(kinds)]
fn kind_after(nodes: &[Node], id: u32, port: usize) -> Option<Kind>
    ensures { result ≡ kind_after (nodes_of nodes.now) id port None }
{
    let mut found = None;
    for node in nodes {
        found = later(node, id, port, found);
    }
    found
}

// The kind of an output after this node, where it had this one before.
#[cycle(kinds)]
fn later(node: &Node, id: u32, port: usize, before: Option<Kind>) -> Option<Kind>
    ensures { result ≡ (if id_of node.now == id then joined
        (slice_get (output_kinds node.now) port) else before) }
{
    if node.id == id {
        output_kind(node, port)
    } else {
        before
    }
}

/// The kind of the node's output at this port; none where there is no such output.
#[tactic(auto, using(crate::proofs::KindLemmas::joined_some))]
#[cycle(kinds)]
pub fn output_kind(node: &Node, port: usize) -> Option<Kind>
    ensures { result ≡ joined (slice_get (output_kinds node.now) port) }
{
    match node.op {
        Op::Gamma => match node.regions.first() {
            Some(region) => result_kind(region, port),
            None => None,
        },
        Op::Theta => kind_at(first_args(&node.regions), port),
        op => kind_at(op_outputs(op), port),
    }
}

#[tactic(auto, using(crate::proofs::KindLemmas::joined_map, crate::proofs::KindLemmas::joined_none))]
#[cycle(kinds)]
fn result_kind(region: &Region, port: usize) -> Option<Kind>
    ensures { result ≡ joined (slice_get (result_kinds region.now) port) }
{
    match region.results.get(port) {
        Some(Origin::Arg(index)) => kind_at(&region.args, *index as usize),
        Some(Origin::Out { node, port }) => kind_after(&region.nodes, *node, *port as usize),
        None => None,
    }
}

fn kind_at(kinds: &[Kind], index: usize) -> Option<Kind>
    ensures { result ≡ slice_get kinds.now index }
{
    kinds.get(index).copied()
}

/// The arguments of the first region; none where there is no region.
pub fn first_args(regions: &[Region]) -> &[Kind]
    ensures { result.now ≡ first_args (regions_of regions.now) }
{
    match regions.first() {
        Some(region) => &region.args,
        None => &[],
    }
}

/// The kinds of an op's inputs, where they depend on the op alone; none for the other ops.
pub fn op_inputs(op: Op) -> &'static [Kind]
    ensures { result.now ≡ op_inputs op }
{
    match op {
        Op::Bin(_) => &[Kind::Value, Kind::Value],
        Op::Un(_) => &[Kind::Value],
        Op::Load(_) => &[Kind::Value, Kind::Memory],
        Op::Store(_) | Op::PtrEq => &[Kind::Value, Kind::Value, Kind::Memory],
        Op::Clear(_) => &[Kind::Memory],
        Op::Put | Op::Exit => &[Kind::Value, Kind::Io],
        Op::Get => &[Kind::Io],
        _ => &[],
    }
}

/// The kinds of the outputs of an op without regions.
pub fn op_outputs(op: Op) -> &'static [Kind]
    ensures { result.now ≡ op_outputs op }
{
    match op {
        Op::Store(_) | Op::Clear(_) => &[Kind::Memory],
        Op::Apply(_) => &[Kind::Value, Kind::Memory, Kind::Io],
        Op::Put | Op::Exit => &[Kind::Io],
        Op::Get => &[Kind::Value, Kind::Io],
        Op::Gamma | Op::Theta => &[],
        _ => &[Kind::Value],
    }
}

/// Whether the kinds are equal.
pub fn same_kind(a: Kind, b: Kind) -> bool
    ensures { result ≡ same_kind a b }
{
    matches!(
        (a, b),
        (Kind::Value, Kind::Value) | (Kind::Memory, Kind::Memory) | (Kind::Io, Kind::Io)
    )
}

/// Whether there is a kind, and it is this one.
pub fn is_of(kind: Kind, found: Option<Kind>) -> bool
    ensures { result ≡ is_of kind found }
{
    match found {
        Some(other) => same_kind(kind, other),
        None => false,
    }
}

/// Whether the op reads and gives no state.
pub fn is_pure(op: Op) -> bool
    ensures { result ≡ is_pure op }
{
    match op {
        Op::Const(_) | Op::Undef | Op::Local(_) | Op::Delta(_) | Op::Bin(_) | Op::Un(_) => true,
        _ => false,
    }
}
