//! Linear code of chosen shapes, and how many places its names get.
ghost use Rattle.std.specs.Prelude.{◌<◌, IfOk, IsTrue};
ghost use Rattle.g_graph.specs.WellFormed.{all_of};
ghost use Rattle.s_linear.specs.Lines.{names_below};
ghost use Rattle.s_linear.specs.Views.{line_of};

use s_linear::{Instr, Line, Linear};
use std::alloc::{AllocError, Global};

/// Which names are alive together.
#[derive(Clone, Copy)]
pub(crate) enum Shape {
    /// All, up to the last line.
    Alive,
    /// None.
    Dead,
    /// The last 500 that were written.
    Staircase,
    /// All, and the last that was written ends first.
    Nest,
}

/// Lines of a shape, with so many names.
pub(crate) fn lines(alloc: Global, shape: Shape, count: u32) -> Result<Linear, AllocError>
    ensures { IfOk result (λ l. IsTrue (all_of (names_below 4294967295) l)) }
{
    let mut lines = Vec::new(alloc);
    for name in 0..count {
        lines.push(write(name))?;
        if matches!(shape, Shape::Staircase) && name >= 500 {
            lines.push(read(name - 500))?;
        }
    }
    match shape {
        Shape::Alive => lines.push(read_all(alloc, count)?)?,
        Shape::Nest => {
            for name in (0..count).rev() {
                lines.push(read(name))?;
            }
        }
        Shape::Dead | Shape::Staircase => {}
    }
    Ok(Linear { lines })
}

fn write(target: u32) -> Line
    requires { target < 4294967295 }
    ensures { IsTrue (names_below 4294967295 (line_of result)) }
{
    Line::Done {
        instr: Instr::Const { target, word: 0 },
    }
}

fn read(byte: u32) -> Line
    requires { byte < 4294967295 }
    ensures { IsTrue (names_below 4294967295 (line_of result)) }
{
    Line::Done {
        instr: Instr::Put { byte },
    }
}

fn read_all(alloc: Global, count: u32) -> Result<Line, AllocError>
    ensures { IfOk result (λ line. IsTrue (names_below 4294967295 (line_of line))) }
{
    let mut arguments = Vec::new(alloc);
    for name in 0..count {
        arguments.push(name)?;
    }
    Ok(Line::Done {
        instr: Instr::Call {
            function: 0,
            target: 0,
            arguments,
        },
    })
}
