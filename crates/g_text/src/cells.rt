//! Rows of ports: a cell for each input, output, argument or result.

use crate::outputs::Outputs;
use crate::push::{Piece, push, push_all, push_numbered};
use base::NoMemory;
use g_graph::{Kind, Origin};

/// What is written in the cells of a row.
#[derive(Clone, Copy)]
pub(crate) enum Marks {
    Bullets,
    /// A letter, and numbers from 0 on.
    Letters(&'static str),
    /// A text in the first cell, and then a letter, and numbers from 0 on.
    After(&'static str, &'static str),
}

/// The colour of what has this kind.
pub(crate) const fn colour(kind: Option<Kind>) -> &'static str {
    match kind {
        Some(Kind::Memory) => "#b45309",
        Some(Kind::Io) => "#0f766e",
        _ => "#1f2933",
    }
}

fn push_mark(out: &mut Vec<u8>, marks: Marks, index: usize) -> Result<(), NoMemory> {
    match marks {
        Marks::Bullets => push(out, "&bull;"),
        Marks::Letters(letter) => push_numbered(out, letter, index as u64),
        Marks::After(first, letter) => {
            if index == 0 {
                push(out, first)
            } else {
                push_numbered(out, letter, index as u64 - 1)
            }
        }
    }
}

/// The cell of this index, with a port named by a letter and the index.
pub(crate) fn push_cell<'a>(
    out: &mut Vec<u8>,
    port: &'a str,
    marks: Marks,
    index: usize,
    colour: &'a str,
) -> Result<(), NoMemory> {
    push_all(
        out,
        &[
            Piece::Text("<td port=\""),
            Piece::Text(port),
            Piece::Number(index as u64),
            Piece::Text("\"><font color=\""),
            Piece::Text(colour),
            Piece::Text("\">"),
        ],
    )?;
    push_mark(out, marks, index)?;
    push(out, "</font></td>")
}

/// The cells of origins in a region with these arguments, in the colours of their kinds.
pub(crate) fn push_origin_cells(
    out: &mut Vec<u8>,
    outputs: &Outputs,
    args: &[Kind],
    port: &str,
    marks: Marks,
    origins: &[Origin],
) -> Result<(), NoMemory> {
    for (index, origin) in origins.iter().enumerate() {
        let colour = colour(outputs.kind(args, *origin));
        push_cell(out, port, marks, index, colour)?;
    }
    Ok(())
}

/// The cells of what has these kinds.
pub(crate) fn push_kind_cells(
    out: &mut Vec<u8>,
    port: &str,
    marks: Marks,
    kinds: &[Kind],
) -> Result<(), NoMemory> {
    for (index, kind) in kinds.iter().enumerate() {
        push_cell(out, port, marks, index, colour(Some(*kind)))?;
    }
    Ok(())
}

/// The beginning of a row among others.
pub(crate) const ROW: &str =
    "<tr><td cellpadding=\"0\"><font point-size=\"8\"><table border=\"0\" cellborder=\"0\" cellspacing=\"0\" cellpadding=\"2\"><tr>";

/// Its end.
pub(crate) const END_OF_ROW: &str = "</tr></table></font></td></tr>";

/// The beginning of a row alone, behind the name of its node.
pub(crate) fn begin_strip(out: &mut Vec<u8>, fill: &str) -> Result<(), NoMemory> {
    push_all(
        out,
        &[
            Piece::Text(
                " [ordering=out, label=<<font point-size=\"8\"><table border=\"1\" cellborder=\"0\" cellspacing=\"0\" cellpadding=\"2\" color=\"#94a3b8\" bgcolor=\"",
            ),
            Piece::Text(fill),
            Piece::Text("\"><tr>"),
        ],
    )
}

/// The end of a row alone, in which a cell stands at least.
pub(crate) fn end_strip(out: &mut Vec<u8>, is_empty: bool) -> Result<(), NoMemory> {
    if is_empty {
        push(out, "<td></td></tr></table></font>>];\n")
    } else {
        push(out, "</tr></table></font>>];\n")
    }
}
