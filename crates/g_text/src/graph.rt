//! The drawing of a lambda.

ghost use Rattle.std.specs.Prelude.{◌≡◌, ◌++◌, OnOk, codes, flat_map};
ghost use Rattle.g_text.specs.Edges.{edge_text};
ghost use Rattle.g_text.specs.Drawing.{IsDrawn};

use crate::drawing::{Scene, begin_body, push_body};
use crate::edges::{Edge, edges_of, push_edges};
use crate::outputs::outputs_of;
use crate::push::{Piece, push, push_all};
use base::{Name, NoMemory};
use g_graph::{Lambda, Object, values};
use std::alloc::Global;
use val_core::Leaf;

// The attributes that keep the layout in order: `newrank`, or a predicate is drawn below its Gamma;
// `nslimit`, or a large graph takes many times as long.
const ATTRIBUTES: &str =
    "\" {\ngraph [fontname=\"Helvetica\", fontsize=9, ranksep=0.22, nodesep=0.16, newrank=true, labeljust=l, nslimit=2, nslimit1=2];\nnode [shape=plain, fontname=\"Helvetica\", fontsize=10];\nedge [color=\"#1f2933\", arrowsize=0.45, penwidth=0.9];\n";

fn push_leaf(out: &mut Vec<u8>, leaf: Leaf) -> Result<(), NoMemory> {
    push_all(
        out,
        &[
            Piece::Text(" "),
            Piece::Number(u64::from(leaf.offset)),
            Piece::Text(":"),
            Piece::Number(u64::from(leaf.width)),
        ],
    )
}

fn push_object(out: &mut Vec<u8>, index: usize, object: &Object) -> Result<(), NoMemory> {
    push_all(
        out,
        &[
            Piece::Text("\\lobject "),
            Piece::Number(index as u64),
            Piece::Text(" size "),
            Piece::Number(u64::from(object.size)),
            Piece::Text(" leaves"),
        ],
    )?;
    for leaf in &object.leaves {
        push_leaf(out, *leaf)?;
    }
    Ok(())
}

fn push_objects(out: &mut Vec<u8>, objects: &[Object]) -> Result<(), NoMemory> {
    for (index, object) in objects.iter().enumerate() {
        push_object(out, index, object)?;
    }
    Ok(())
}

// The name, the parameters, the values and the objects of a function.
fn push_title(out: &mut Vec<u8>, name: &[u8], lambda: &Lambda) -> Result<(), NoMemory> {
    push_all(
        out,
        &[
            Piece::Bytes(name),
            Piece::Text(": "),
            Piece::Number(u64::from(lambda.params)),
            Piece::Text(" parameters, "),
            Piece::Number(values(lambda)),
            Piece::Text(" values"),
        ],
    )?;
    push_objects(out, &lambda.objects)
}

// The name of the graph is quoted, since it may be a word of DOT.
fn push_nodes(
    out: &mut Vec<u8>,
    scene: &Scene,
    name: &[u8],
    lambda: &Lambda,
) -> Result<(), NoMemory> {
    push_all(
        out,
        &[
            Piece::Text("digraph \""),
            Piece::Bytes(name),
            Piece::Text(ATTRIBUTES),
        ],
    )?;
    begin_body(out)?;
    push_title(out, name, lambda)?;
    push_body(out, scene, &lambda.body)
}

// All but the edges.
fn nodes_of(scene: &Scene, name: &[u8], lambda: &Lambda) -> Result<Vec<u8>, NoMemory> {
    let mut nodes = Vec::new(scene.alloc);
    push_nodes(&mut nodes, scene, name, lambda)?;
    Ok(nodes)
}

fn push_graph(out: &mut Vec<u8>, nodes: &[u8], edges: &[Edge]) -> Result<(), NoMemory>
    ensures { OnOk result (out.new.items ≡
        out.old.items ++ nodes.now ++ flat_map edge_text edges.now ++ codes "}\n") }
{
    out.extend_from_slice(nodes)?;
    push_edges(out, edges)?;
    push(out, "}\n")
}

/// The drawing of the function of this name goes to the end of the buffer, with the node of the
/// number `framed` in a thick red frame, and functions that are called by their names in `names`.
/// `NoMemory` only where the allocator has none; a beginning of the drawing may then be there. It
/// takes memory and time linear in the drawing and in the lambda.
pub fn write_graph(
    out: &mut Vec<u8>,
    alloc: Global,
    name: &[u8],
    names: &[Name],
    lambda: &Lambda,
    framed: Option<u32>,
) -> Result<(), NoMemory>
    ensures { OnOk result (IsDrawn out.old.items out.new.items lambda.now) }
{
    let outputs = outputs_of(alloc, &lambda.body)?;
    let edges = edges_of(alloc, &outputs, &lambda.body)?;
    let scene = Scene {
        alloc,
        outputs: &outputs,
        names,
        framed,
    };
    let nodes = nodes_of(&scene, name, lambda)?;
    push_graph(out, nodes.as_slice(), edges.as_slice())
}
