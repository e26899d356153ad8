//! Regions and nodes.

use crate::cells::{
    END_OF_ROW, Marks, ROW, begin_strip, colour, end_strip, push_cell, push_kind_cells,
    push_origin_cells,
};
use crate::edges::Place;
use crate::labels::{fill, push_label};
use crate::outputs::{Outputs, is_nested};
use crate::push::{Piece, push, push_all};
use crate::push_op;
use base::{Name, NoMemory};
use g_graph::{Kind, Node, Op, Origin, Region};
use std::alloc::Global;

/// What is the same for all parts of a drawing: the kinds of outputs, the names of functions, and
/// the node that is drawn in a thick red frame, if any.
#[derive(Clone, Copy)]
pub(crate) struct Scene<'a> {
    pub(crate) alloc: Global,
    pub(crate) outputs: &'a Outputs,
    pub(crate) names: &'a [Name],
    pub(crate) framed: Option<u32>,
}

impl Scene<'_> {
    fn is_framed(&self, id: u32) -> bool {
        match self.framed {
            Some(framed) => framed == id,
            None => false,
        }
    }
}

// The number of a node is small and grey.
const GREY: &str = "<font point-size=\"8\" color=\"#64748b\">";

// ---- nodes without regions

// One input has the whole table.
const fn table(inputs: usize) -> &'static str {
    if inputs == 1 {
        "\", label=<<table port=\"i0\" "
    } else {
        "\", label=<<table "
    }
}

const fn frame(framed: bool) -> &'static str {
    if framed {
        "border=\"3\" color=\"#dc2626\""
    } else {
        "border=\"1\" color=\"#64748b\""
    }
}

// The beginning of a node, up to the rows of its table.
fn begin_node(out: &mut Vec<u8>, node: &Node, framed: bool) -> Result<(), NoMemory> {
    let id = u64::from(node.id);
    push_all(
        out,
        &[
            Piece::Node(node.id),
            Piece::Text(" [tooltip=\""),
            Piece::Number(id),
            Piece::Text(": "),
        ],
    )?;
    push_op(out, node.op)?;
    push_all(
        out,
        &[
            Piece::Text(table(node.inputs.as_slice().len())),
            Piece::Text(frame(framed)),
            Piece::Text(
                " style=\"rounded\" cellborder=\"0\" cellspacing=\"0\" cellpadding=\"1\" bgcolor=\"",
            ),
            Piece::Text(fill(node.op)),
            Piece::Text("\">"),
        ],
    )
}

// Two or more inputs have a row.
fn push_inputs(
    out: &mut Vec<u8>,
    scene: &Scene,
    args: &[Kind],
    inputs: &[Origin],
) -> Result<(), NoMemory> {
    if inputs.len() < 2 {
        return Ok(());
    }
    push(out, ROW)?;
    push_origin_cells(out, scene.outputs, args, "i", Marks::Bullets, inputs)?;
    push(out, END_OF_ROW)
}

// The cell of the op, which begins so.
fn push_words(out: &mut Vec<u8>, scene: &Scene, node: &Node, cell: &str) -> Result<(), NoMemory> {
    let id = u64::from(node.id);
    push_all(
        out,
        &[
            Piece::Text(cell),
            Piece::Text(GREY),
            Piece::Number(id),
            Piece::Text("</font> "),
        ],
    )?;
    push_label(out, scene.names, node.op)?;
    push(out, "</td></tr>")
}

// Two or more outputs have a row, and one has the cell of the op.
fn push_outputs(out: &mut Vec<u8>, scene: &Scene, node: &Node) -> Result<(), NoMemory> {
    let kinds = scene.outputs.of_node(node.id);
    if kinds.len() < 2 {
        return push_words(out, scene, node, "<tr><td port=\"o0\">");
    }
    push_words(out, scene, node, "<tr><td>")?;
    push(out, ROW)?;
    push_kind_cells(out, "o", Marks::Bullets, kinds)?;
    push(out, END_OF_ROW)
}

fn push_plain(
    out: &mut Vec<u8>,
    scene: &Scene,
    args: &[Kind],
    node: &Node,
) -> Result<(), NoMemory> {
    begin_node(out, node, scene.is_framed(node.id))?;
    push_inputs(out, scene, args, node.inputs.as_slice())?;
    push_outputs(out, scene, node)?;
    push(out, "</table>>];\n")
}

// ---- what stands around the regions of a node

const fn head_frame(op: Op, framed: bool) -> &'static str {
    if framed {
        return "\"; color=\"#dc2626\"; penwidth=4;\n";
    }
    match op {
        Op::Gamma => "\"; color=\"#7c3aed\"; penwidth=1.2;\n",
        _ => "\"; color=\"#be123c\"; penwidth=1.2;\n",
    }
}

const fn entry_marks(op: Op) -> Marks {
    match op {
        Op::Gamma => Marks::After("?", "a"),
        _ => Marks::Letters("a"),
    }
}

// The beginning of the cluster of a node, up to its entries.
fn begin_cluster(out: &mut Vec<u8>, node: &Node, framed: bool) -> Result<(), NoMemory> {
    let id = u64::from(node.id);
    push_all(
        out,
        &[
            Piece::Text("subgraph cluster_"),
            Piece::Node(node.id),
            Piece::Text(" {\nlabel=<"),
            Piece::Text(GREY),
            Piece::Number(id),
            Piece::Text("</font> <b>"),
        ],
    )?;
    push_op(out, node.op)?;
    push_all(
        out,
        &[
            Piece::Text("</b>>; style=\"rounded,filled\"; fillcolor=\""),
            Piece::Text(fill(node.op)),
            Piece::Text(head_frame(node.op, framed)),
            Piece::Node(node.id),
        ],
    )
}

fn push_head(out: &mut Vec<u8>, scene: &Scene, args: &[Kind], node: &Node) -> Result<(), NoMemory> {
    let inputs = node.inputs.as_slice();
    begin_cluster(out, node, scene.is_framed(node.id))?;
    begin_strip(out, fill(node.op))?;
    push_origin_cells(out, scene.outputs, args, "i", entry_marks(node.op), inputs)?;
    end_strip(out, inputs.is_empty())
}

fn push_foot(out: &mut Vec<u8>, scene: &Scene, node: &Node) -> Result<(), NoMemory> {
    let kinds = scene.outputs.of_node(node.id);
    push_all(out, &[Piece::Node(node.id), Piece::Text("_x")])?;
    begin_strip(out, fill(node.op))?;
    push_kind_cells(out, "o", Marks::Letters("r"), kinds)?;
    end_strip(out, kinds.is_empty())?;
    push(out, "}\n")
}

// The head stands above a region, and the foot below it.
fn push_order(out: &mut Vec<u8>, id: u32, place: Place, has_args: bool) -> Result<(), NoMemory> {
    push_all(
        out,
        &[
            Piece::Node(id),
            Piece::Text(" -> "),
            Piece::Region(place),
            Piece::Text(if has_args { "_a" } else { "_r" }),
            Piece::Text(" [style=invis, weight=4];\n"),
            Piece::Region(place),
            Piece::Text("_r -> "),
            Piece::Node(id),
            Piece::Text("_x [style=invis, weight=4];\n"),
        ],
    )
}

// The beginning of the cluster of a region, up to its title.
fn begin_region(out: &mut Vec<u8>, place: Place) -> Result<(), NoMemory> {
    push_all(
        out,
        &[
            Piece::Text("subgraph cluster_"),
            Piece::Region(place),
            Piece::Text(" {\nlabel=\""),
        ],
    )
}

// Of so many regions the one of this index, as a Gamma chooses it.
fn push_choice(out: &mut Vec<u8>, count: usize, index: usize) -> Result<(), NoMemory> {
    if count == 2 {
        return push(out, if index == 0 { "0: no" } else { "1: yes" });
    }
    if count < 2 {
        return Ok(());
    }
    push_all(
        out,
        &[
            Piece::Number(index as u64),
            Piece::Text(if index == count - 1 { ", else" } else { "" }),
        ],
    )
}

// The beginning of the cluster of a region of a node, up to what stands in it.
fn begin_inner(out: &mut Vec<u8>, node: &Node, place: Place, index: usize) -> Result<(), NoMemory> {
    begin_region(out, place)?;
    if matches!(node.op, Op::Gamma) {
        push_choice(out, node.regions.len(), index)?;
    }
    push(out, "\"; ")
}

// ---- regions

fn note_use(used: &mut [bool], origin: Origin) {
    if let Origin::Arg(index) = origin {
        let index = index as usize;
        if index < used.len() {
            used[index] = true;
        }
    }
}

fn note_uses(used: &mut [bool], origins: &[Origin]) {
    for origin in origins {
        note_use(used, *origin);
    }
}

// Which arguments of a region something uses.
fn uses_of(alloc: Global, region: &Region) -> Result<Vec<bool>, NoMemory> {
    let mut used = vec![in alloc; false; region.args.len()]?;
    for node in &region.nodes {
        note_uses(&mut used, node.inputs.as_slice());
    }
    note_uses(&mut used, &region.results);
    Ok(used)
}

fn arg_colour(kind: Kind, used: Option<bool>) -> &'static str {
    match used {
        Some(true) => colour(Some(kind)),
        _ => "#cbd5e1",
    }
}

// Arguments that nothing uses are pale.
fn push_arg_cells(out: &mut Vec<u8>, args: &[Kind], used: &[bool]) -> Result<(), NoMemory> {
    for (index, kind) in args.iter().enumerate() {
        let colour = arg_colour(*kind, used.get(index).copied());
        push_cell(out, "p", Marks::Letters("a"), index, colour)?;
    }
    Ok(())
}

fn push_args(
    out: &mut Vec<u8>,
    scene: &Scene,
    place: Place,
    region: &Region,
) -> Result<(), NoMemory> {
    if region.args.is_empty() {
        return Ok(());
    }
    push_all(out, &[Piece::Region(place), Piece::Text("_a")])?;
    begin_strip(out, "#f8fafc")?;
    let used = uses_of(scene.alloc, region)?;
    push_arg_cells(out, &region.args, used.as_slice())?;
    end_strip(out, false)
}

const fn result_marks(theta: bool) -> Marks {
    if theta {
        Marks::After("again?", "r")
    } else {
        Marks::Letters("r")
    }
}

fn push_result_strip(
    out: &mut Vec<u8>,
    scene: &Scene,
    theta: bool,
    region: &Region,
) -> Result<(), NoMemory> {
    if region.results.is_empty() {
        return push(out, " [label=\"\", shape=point, style=invis];\n");
    }
    let marks = result_marks(theta);
    begin_strip(out, "#f8fafc")?;
    push_origin_cells(
        out,
        scene.outputs,
        &region.args,
        "p",
        marks,
        &region.results,
    )?;
    end_strip(out, false)
}

// The results stand below the arguments.
fn push_results(
    out: &mut Vec<u8>,
    scene: &Scene,
    place: Place,
    theta: bool,
    region: &Region,
) -> Result<(), NoMemory> {
    push_all(out, &[Piece::Region(place), Piece::Text("_r")])?;
    push_result_strip(out, scene, theta, region)?;
    if region.args.is_empty() {
        return Ok(());
    }
    push_all(
        out,
        &[
            Piece::Region(place),
            Piece::Text("_a -> "),
            Piece::Region(place),
            Piece::Text("_r [style=invis];\n"),
        ],
    )
}

// What stands in the cluster of a region, and its end.
#[cycle(draws)]
fn push_inside(
    out: &mut Vec<u8>,
    scene: &Scene,
    place: Place,
    theta: bool,
    region: &Region,
) -> Result<(), NoMemory> {
    push(
        out,
        "style=\"rounded,filled\"; fillcolor=white; color=\"#94a3b8\";\n",
    )?;
    push_args(out, scene, place, region)?;
    for node in &region.nodes {
        push_node(out, scene, &region.args, node)?;
    }
    push_results(out, scene, place, theta, region)?;
    push(out, "}\n")
}

#[cycle(draws)]
fn push_node(out: &mut Vec<u8>, scene: &Scene, args: &[Kind], node: &Node) -> Result<(), NoMemory> {
    if !is_nested(node.op) {
        return push_plain(out, scene, args, node);
    }
    let theta = matches!(node.op, Op::Theta);
    push_head(out, scene, args, node)?;
    for (index, region) in node.regions.iter().enumerate() {
        let place = Place::Within {
            node: node.id,
            index,
        };
        begin_inner(out, node, place, index)?;
        push_inside(out, scene, place, theta, region)?;
        push_order(out, node.id, place, !region.args.is_empty())?;
    }
    push_foot(out, scene, node)
}

/// The beginning of the cluster of a body, up to its title.
pub(crate) fn begin_body(out: &mut Vec<u8>) -> Result<(), NoMemory> {
    begin_region(out, Place::Body)
}

/// The cluster of a body, behind its title.
pub(crate) fn push_body(out: &mut Vec<u8>, scene: &Scene, body: &Region) -> Result<(), NoMemory> {
    push(out, "\"; ")?;
    push_inside(out, scene, Place::Body, false, body)
}
