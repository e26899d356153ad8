//! The intervals of names.

ghost use Rattle.std.specs.Prelude.{◌≡◌, ℕ, ◌<◌, ◌≤◌, [], ◌++◌, length, map, if◌then◌else◌, IfOk, OnOk, slice_index_or};
ghost use Rattle.s_linear.specs.Lines.{line_names, instr_names};
ghost use Rattle.s_linear.specs.Views.{line_of, instr_of};
ghost use Rattle.a_place.specs.Places.{above, name_count, among};
ghost use Rattle.a_place.specs.Sweep.{begun, spans_of, span_from};
ghost use Rattle.a_place.specs.declared.spans.Span.{Span};

use s_linear::{Instr, Line};
use std::alloc::{AllocError, Global};

/// The first and the last position in which a name occurs.
#[derive(Clone, Copy)]
pub(crate) struct Span {
    pub(crate) first: usize,
    pub(crate) last: usize,
}

/// One more than the greatest name of these lines, or 0 where there is none.
pub(crate) fn name_count(alloc: Global, lines: &[Line]) -> Result<usize, AllocError>
    ensures { IfOk result (λ n. n ≡ name_count (map line_of lines.now)) }
{
    let mut count = 0;
    let mut names = Vec::new(alloc);
    for line in lines {
        read_names(&mut names, line)?;
        count = count.max(above(&names));
    }
    Ok(count)
}

fn above(names: &[u32]) -> usize
    ensures { result ≡ above names.now }
{
    let mut count = 0;
    for name in names {
        count = count.max(*name as usize + 1);
    }
    count
}

/// The interval of each name below a count, as all names of these lines are. One that does not
/// occur starts after the last line and ends at 0.
pub(crate) fn spans(alloc: Global, lines: &[Line], count: usize) -> Result<Vec<Span>, AllocError>
    requires { count ≡ name_count (map line_of lines.now) }
    ensures { IfOk result (λ spans. spans.items ≡ spans_of (map line_of lines.now)) }
{
    let end = lines.len();
    let mut spans = vec![in alloc; Span {
        first: end,
        last: 0
    }; count]?;
    fill(alloc, &mut spans, lines)?;
    Ok(spans)
}

// Fills the intervals in, from the last line to the first.
fn fill(alloc: Global, spans: &mut [Span], lines: &[Line]) -> Result<(), AllocError>
    requires count { length spans.old ≡ name_count (map line_of lines.now) }
    requires empty { (x : ℕ) (d : Span) → x < length spans.old
        → slice_index_or spans.old x d ≡ span_from (length lines.now) [] x }
    ensures { OnOk result ((x : ℕ) (d : Span) → x < length spans.old
        → slice_index_or spans.new x d ≡ span_from 0 (map line_of lines.now) x) }
{
    let mut names = Vec::new(alloc);
    let mut position = lines.len();
    while position > 0 {
        position -= 1;
        read_names(&mut names, &lines[position])?;
        begin(spans, &names, position, lines.len());
    }
    Ok(())
}

// Begins the intervals of these names at a position; `end` is where the lines end.
fn begin(spans: &mut [Span], names: &[u32], position: usize, end: usize)
    requires inside { position < end }
    requires below { above names.now ≤ length spans.old }
    ensures { (x : ℕ) (d : Span) → x < length spans.old
        → slice_index_or spans.new x d ≡ (if among x names.now
        then begun position end (slice_index_or spans.old x d)
        else slice_index_or spans.old x d) }
{
    for name in names {
        let span = &mut spans[*name as usize];
        if span.first == end {
            span.last = position;
        }
        span.first = position;
    }
}

// Reads the names of a line in place of those before.
fn read_names(names: &mut Vec<u32>, line: &Line) -> Result<(), AllocError>
    ensures { OnOk result (names.new.items ≡ line_names (line_of line.now)) }
{
    names.clear();
    match line {
        Line::Enter { params } => names.extend_from_slice(params.as_slice()),
        Line::Leave { value } => names.extend_from_slice(&[*value]),
        Line::Done { instr } => push_names(names, instr),
        Line::BranchNotZero { predicate, .. }
        | Line::BranchZero { predicate, .. }
        | Line::BranchEqual { predicate, .. } => names.extend_from_slice(&[*predicate]),
        Line::Jump { .. } | Line::Label { .. } => Ok(()),
    }
}

// Adds the names of an instruction.
fn push_names(names: &mut Vec<u32>, instr: &Instr) -> Result<(), AllocError>
    ensures { OnOk result (names.new.items ≡ names.old.items ++ instr_names (instr_of instr.now)) }
{
    match instr {
        Instr::Const { target, .. }
        | Instr::Undef { target }
        | Instr::ObjectAddress { target, .. }
        | Instr::GlobalAddress { target, .. }
        | Instr::Get { target } => names.extend_from_slice(&[*target]),
        Instr::Binary {
            target,
            left,
            right,
            ..
        }
        | Instr::EqualPointers {
            target,
            left,
            right,
        } => names.extend_from_slice(&[*target, *left, *right]),
        Instr::Unary { target, input, .. } => names.extend_from_slice(&[*target, *input]),
        Instr::Load {
            target,
            address,
            ..
        } => names.extend_from_slice(&[*target, *address]),
        Instr::Store { address, value, .. } => names.extend_from_slice(&[*address, *value]),
        Instr::Clear { .. } => Ok(()),
        Instr::Move { target, source } => names.extend_from_slice(&[*target, *source]),
        Instr::Call {
            target,
            arguments,
            ..
        } => {
            names.extend_from_slice(&[*target])?;
            names.extend_from_slice(arguments.as_slice())
        }
        Instr::Put { byte } => names.extend_from_slice(&[*byte]),
        Instr::Exit { status } => names.extend_from_slice(&[*status]),
    }
}
