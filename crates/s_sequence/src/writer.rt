//! The writer of lines, with the names and labels that are free.

ghost use Rattle.std.specs.Prelude.{◌≡◌, [], ◌∷◌, map, OnOk};
ghost use Rattle.s_linear.specs.Linear.{move};
ghost use Rattle.s_linear.specs.Lines.{done};
ghost use Rattle.s_linear.specs.Views.{line_of};
ghost use Rattle.s_sequence.specs.Writer.{with_lines};

use base::NoMemory;
use s_linear::{Instr, Line, Linear};
use std::alloc::Global;
use std::marker::Model;

/// The lines that are written so far, the first name that is free, and the first label that is
/// free. Contracts see a plain record.
#[derive(Drop)]
pub struct Writer {
    lines: Vec<Line>,
    pub next: u32,
    pub label: u32,
}

impl Model for Writer {
    ghost use Rattle.std.specs.Prelude.{map};
    ghost use Rattle.s_linear.specs.Views.{line_of};
    ghost use Rattle.s_sequence.specs.Writer.{PlainWriter};

    ghost Value = { PlainWriter };

    ghost view = { λ w. record {
      lines = map line_of w.lines.items;
      next = w.next;
      label = w.label;
    } };
}

impl Writer {
    /// No line is written, and no name or label is used.
    pub fn new(alloc: Global) -> Writer
        ensures { result ≡ record { lines = []; next = 0; label = 0 } }
    {
        Writer {
            lines: Vec::new(alloc),
            next: 0,
            label: 0,
        }
    }

    /// Writes a line after the others. `NoMemory` where the allocator has none.
    pub fn push(&mut self, line: Line) -> Result<(), NoMemory>
        ensures { OnOk result (self.new ≡ with_lines self.old (line_of line ∷ [])) }
    {
        self.lines.push(line)?;
        Ok(())
    }

    /// Writes the move of one name's value to another. `NoMemory` where the allocator has none.
    pub fn push_move(&mut self, target: u32, source: u32) -> Result<(), NoMemory>
        ensures { OnOk result (self.new ≡ with_lines self.old (done (move target source) ∷ [])) }
    {
        self.push(Line::Done {
            instr: Instr::Move { target, source },
        })
    }

    /// The lines as they are.
    pub fn finished(self) -> Linear
        ensures { result ≡ self.lines }
    {
        Linear { lines: self.lines }
    }
}
