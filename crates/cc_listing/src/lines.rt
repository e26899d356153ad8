//! Lines of linear code, each with its words below it.

ghost use Rattle.std.specs.Prelude.{◌≡◌, ◌++◌, ◌+◌, ◌*◌, ◌<◌, ◌≤◌, ◌^◌, IsTrue, length, map, IfOk, OnOk};
ghost use Rattle.std.specs.List.{flat_map};
ghost use Rattle.g_graph.specs.WellFormed.{all_of};
ghost use Rattle.s_linear.specs.Lines.{does};
ghost use Rattle.s_linear.specs.Operands.{has_its_object};
ghost use Rattle.s_linear.specs.Views.{instr_of, line_of};
ghost use Rattle.rv_layout.specs.Items.{items_size};
ghost use Rattle.s_select.specs.Conditions.{has_few_arguments, has_few_params, names_have_places};
ghost use Rattle.s_select.specs.Templates.{items_of};
ghost use Rattle.cc_listing.specs.Lines.{callee, instr_callee, lines_from, listed_text, name_at};

use crate::push::{push, push_number};
use crate::words::push_words;
use base::{Name, NoMemory};
use s_linear::{Instr, Line, push_line};
use s_select::{Function, line_size};

/// The name of the function of a number, and an empty one where there is none.
pub(crate) fn name_at(names: &[Name], function: usize) -> &[u8]
    ensures { result.now ≡ name_at names.now function }
{
    match names.get(function) {
        Some(name) => name.as_slice(),
        None => b"",
    }
}

fn instr_callee<'a>(names: &'a [Name], instr: &Instr) -> &'a [u8]
    ensures { result.now ≡ instr_callee names.now (instr_of instr.now) }
{
    match instr {
        Instr::Call { function, .. } => name_at(names, *function as usize),
        Instr::Put { .. } => b"$put",
        Instr::Get { .. } => b"$get",
        _ => b"",
    }
}

// What a call among the items of a line leads to: a function of the program, or a stub.
fn callee<'a>(names: &'a [Name], line: &Line) -> &'a [u8]
    ensures { result.now ≡ callee names.now (line_of line.now) }
{
    match line {
        Line::Done { instr } => instr_callee(names, instr),
        _ => b"",
    }
}

// A line and its position, as a comment, and then its words.
fn push_listed(
    out: &mut Vec<u8>,
    names: &[Name],
    position: usize,
    line: &Line,
    at: u32,
    words: &[u32],
) -> Result<(), NoMemory>
    requires { at + 4 * length words.now < 2 ^ 32 }
    ensures { OnOk result (out.new.items ≡ out.old.items ++ listed_text names.now record {
      position = position;
      line = line_of line.now;
      at = at;
      words = words.now;
    }) }
{
    push(out, "# ")?;
    push_number(out, position as u64)?;
    push(out, " ")?;
    push_line(out, line)?;
    push(out, "\n")?;
    push_words(out, callee(names, line), at, words)
}

/// The lines of a function, each with its words below it, the first at an address. The words may go
/// on after those of the lines. The address after the words of the lines.
pub(crate) fn push_lines(
    out: &mut Vec<u8>,
    names: &[Name],
    function: &Function,
    lines: &[Line],
    at: u32,
    words: &[u32],
) -> Result<u32, NoMemory>
    requires placed { IsTrue (all_of (names_have_places function.now.places.now)
        (map line_of lines.now)) }
    requires objects { IsTrue (all_of (does (has_its_object (length function.now.objects.now)))
        (map line_of lines.now)) }
    requires params { IsTrue (all_of has_few_params (map line_of lines.now)) }
    requires arguments { IsTrue (all_of (does has_few_arguments) (map line_of lines.now)) }
    requires whole { items_size (items_of function.now.places.now function.now.objects.now
        (map line_of lines.now)) ≤ 4 * length words.now }
    requires end { at + items_size (items_of function.now.places.now function.now.objects.now
        (map line_of lines.now)) < 2 ^ 32 }
    ensures end { IfOk result (λ end. end ≡ at + items_size (items_of function.now.places.now
        function.now.objects.now (map line_of lines.now))) }
    ensures text { OnOk result (out.new.items ≡ out.old.items ++ flat_map (listed_text names.now)
        (lines_from function.now.places.now function.now.objects.now 0 at (map line_of lines.now)
        words.now)) }
{
    let mut here = at;
    let mut rest = words;
    for (position, line) in lines.iter().enumerate() {
        let size = line_size(function, line);
        let (own, later) = rest.split_at((size / 4) as usize);
        push_listed(out, names, position, line, here, own)?;
        here += size;
        rest = later;
    }
    Ok(here)
}
