//! What places are chosen by: depths, writes, moves and calls of each name.

ghost use Rattle.std.specs.Prelude.{◌≡◌, ◌+◌, ◌<◌, ◌≤◌, ◌++◌, [], ◌∷◌, ℕ, length, map, None, Some};
ghost use Rattle.std.specs.Prelude.{if◌then◌else◌, IfOk, OnOk, slice_index, slice_index_or, vec_len};
ghost use Rattle.std.specs.List.{All};
ghost use Rattle.s_linear.specs.Lines.{line_names};
ghost use Rattle.s_linear.specs.Views.{line_of};
ghost use Rattle.a_place.specs.Places.{above, among, name_count};
ghost use Rattle.a_share.specs.Sound.{IsSound, IsWithin};
ghost use Rattle.a_share.specs.Tables.{calls_before, copied_in, deeper, depth_in, does_call, does_write};
ghost use Rattle.a_share.specs.Tables.{ends_of, has_call_in, is_long_in, move_depth, move_depths};
ghost use Rattle.a_share.specs.Tables.{param_count, partners_in, positions, start_of};

use crate::lists::Lists;
use crate::ordering::by_depth;
use crate::reading::{read_names, target_of};
use crate::walk::{Segment, Walk};
use s_linear::{Instr, Line};
use std::alloc::{AllocError, Global};

/// What is known of names: the walk over their lines, the positions of the instructions that write
/// each, its partners in their order, the other names of its moves from a name that is needed after
/// them, how many parameters there are, and which names are long.
#[derive(Drop)]
pub(crate) struct Facts {
    pub(crate) walk: Walk,
    pub(crate) writes: Lists,
    pub(crate) partners: Lists,
    pub(crate) copied: Lists,
    pub(crate) params: usize,
    pub(crate) long: Vec<bool>,
}

impl Facts {
    ghost use Rattle.a_share.specs.Facts.{AreFacts, AreUsable};

    /// What is known of the names below a count, as all names of these lines are.
    pub(crate) fn new(
        alloc: Global,
        lines: &[Line],
        walk: Walk,
        count: usize,
    ) -> Result<Self, AllocError>
        requires names { name_count (map line_of lines.now) ≤ count }
        requires walk { IsSound (length lines.now) count walk }
        ensures walk { IfOk result (λ facts. facts.walk ≡ walk) }
        ensures usable { IfOk result AreUsable }
        ensures facts { IfOk result (AreFacts (map line_of lines.now)) }
    {
        let writes = writes(alloc, lines, count)?;
        let partners = partners(alloc, lines, walk.depths.as_slice(), count)?;
        let copied = copied(alloc, lines, walk.copies.as_slice(), count)?;
        let calls = calls_before(alloc, lines)?;
        let mut long = Vec::with_capacity(alloc, count)?;
        for name in 0..count {
            let segments = walk.segments[name].as_slice();
            long.push(is_long(name, segments, lines, calls.as_slice()))?;
        }
        Ok(Facts {
            walk,
            writes,
            partners,
            copied,
            params: param_count(lines),
            long,
        })
    }
}

/// The greatest depth at which each name stands, and none of one that does not occur.
pub(crate) fn name_depths(
    alloc: Global,
    lines: &[Line],
    depths: &[usize],
    count: usize,
) -> Result<Vec<Option<usize>>, AllocError>
    requires names { name_count (map line_of lines.now) ≤ count }
    requires depths { length depths.now ≡ length lines.now }
    ensures count { IfOk result (λ greatest. vec_len greatest ≡ count) }
    ensures depths { IfOk result (λ greatest. (x : ℕ) → x < count
        → slice_index_or greatest.items x None ≡ depth_in x (map line_of lines.now) depths.now) }
{
    let mut greatest = vec![in alloc; None; count]?;
    let mut names = Vec::new(alloc);
    for (position, line) in lines.iter().enumerate() {
        read_names(&mut names, line)?;
        raise(&mut greatest, names.as_slice(), depths[position]);
    }
    Ok(greatest)
}

fn raise(greatest: &mut [Option<usize>], names: &[u32], depth: usize)
    requires { above names.now ≤ length greatest.old }
    ensures { (x : ℕ) → x < length greatest.old → slice_index_or greatest.new x None
        ≡ deeper (slice_index_or greatest.old x None) (if among x names.now then Some depth else None) }
{
    for name in names {
        let greatest = &mut greatest[*name as usize];
        *greatest = match *greatest {
            Some(other) => Some(other.max(depth)),
            None => Some(depth),
        };
    }
}

// The positions of the instructions that write each name.
fn writes(alloc: Global, lines: &[Line], count: usize) -> Result<Lists, AllocError>
    requires { name_count (map line_of lines.now) ≤ count }
    ensures count { IfOk result (λ lists. length lists ≡ count) }
    ensures writes { IfOk result (λ lists. (x : ℕ) → x < count
        → slice_index_or lists x [] ≡ positions (does_write x) 0 (map line_of lines.now)) }
{
    let mut writes = Lists::new(alloc, count)?;
    for (position, line) in lines.iter().enumerate() {
        add_write(&mut writes, line, position)?;
    }
    Ok(writes)
}

fn add_write(writes: &mut Lists, line: &Line, position: usize) -> Result<(), AllocError>
    requires { above (line_names (line_of line.now)) ≤ length writes.old }
    ensures count { OnOk result (length writes.new ≡ length writes.old) }
    ensures writes { OnOk result ((x : ℕ) → x < length writes.old → slice_index_or writes.new x []
        ≡ slice_index_or writes.old x []
        ++ (if does_write x (line_of line.now) then position ∷ [] else [])) }
{
    if let Line::Done { instr } = line {
        if let Some(target) = target_of(instr) {
            writes.put(target as usize, position)?;
        }
    }
    Ok(())
}

// The other names of the moves from and to each name, in order of depth, the greatest first, then
// of lines.
fn partners(
    alloc: Global,
    lines: &[Line],
    depths: &[usize],
    count: usize,
) -> Result<Lists, AllocError>
    requires names { name_count (map line_of lines.now) ≤ count }
    requires depths { length depths.now ≡ length lines.now }
    ensures count { IfOk result (λ lists. length lists ≡ count) }
    ensures partners { IfOk result (λ lists. (x : ℕ) → x < count
        → slice_index_or lists x [] ≡ partners_in x (map line_of lines.now) depths.now) }
{
    let moves = moves(alloc, lines, depths)?;
    let order = by_depth(alloc, moves.as_slice())?;
    let mut partners = Lists::new(alloc, count)?;
    for position in order.as_slice() {
        add_move(&mut partners, &lines[*position])?;
    }
    Ok(partners)
}

// The depths of the moves.
fn moves(alloc: Global, lines: &[Line], depths: &[usize]) -> Result<Vec<Option<usize>>, AllocError>
    requires { length depths.now ≡ length lines.now }
    ensures { IfOk result (λ moves. moves.items ≡ move_depths (map line_of lines.now) depths.now) }
{
    let mut moves = Vec::with_capacity(alloc, lines.len())?;
    for (position, line) in lines.iter().enumerate() {
        moves.push(move_depth(line, depths[position]))?;
    }
    Ok(moves)
}

fn move_depth(line: &Line, depth: usize) -> Option<usize>
    ensures { result ≡ move_depth (line_of line.now) depth }
{
    match line {
        Line::Done {
            instr: Instr::Move { .. },
        } => Some(depth),
        _ => None,
    }
}

// Adds a move to the lists of its names.
fn add_move(lists: &mut Lists, line: &Line) -> Result<(), AllocError>
    requires { above (line_names (line_of line.now)) ≤ length lists.old }
    ensures count { OnOk result (length lists.new ≡ length lists.old) }
    ensures ends { OnOk result ((x : ℕ) → x < length lists.old → slice_index_or lists.new x []
        ≡ slice_index_or lists.old x [] ++ ends_of x (line_of line.now)) }
{
    if let Line::Done {
        instr: Instr::Move { target, source },
    } = line
    {
        lists.put(*target as usize, *source as usize)?;
        lists.put(*source as usize, *target as usize)?;
    }
    Ok(())
}

// The other names of the chosen moves from and to each name.
fn copied(alloc: Global, lines: &[Line], chosen: &[bool], count: usize) -> Result<Lists, AllocError>
    requires names { name_count (map line_of lines.now) ≤ count }
    requires chosen { length chosen.now ≡ length lines.now }
    ensures count { IfOk result (λ lists. length lists ≡ count) }
    ensures copied { IfOk result (λ lists. (x : ℕ) → x < count
        → slice_index_or lists x [] ≡ copied_in x (map line_of lines.now) chosen.now) }
{
    let mut copied = Lists::new(alloc, count)?;
    for (position, line) in lines.iter().enumerate() {
        if chosen[position] {
            add_move(&mut copied, line)?;
        }
    }
    Ok(copied)
}

// How many calls stand before each position and before the end.
fn calls_before(alloc: Global, lines: &[Line]) -> Result<Vec<usize>, AllocError>
    ensures count { IfOk result (λ calls. vec_len calls ≡ length lines.now + 1) }
    ensures calls { IfOk result (λ calls. (i : ℕ) → i ≤ length lines.now
        → slice_index calls.items i ≡ calls_before (map line_of lines.now) i) }
{
    let mut before = Vec::with_capacity(alloc, lines.len() + 1)?;
    let mut calls = 0;
    before.push(calls)?;
    for line in lines {
        if is_call(line) {
            calls += 1;
        }
        before.push(calls)?;
    }
    Ok(before)
}

fn is_call(line: &Line) -> bool
    ensures { result ≡ does_call (line_of line.now) }
{
    matches!(
        line,
        Line::Done {
            instr: Instr::Call { .. }
        }
    )
}

// A name with these segments is needed after a call that does not write it.
fn is_long(name: usize, segments: &[Segment], lines: &[Line], calls: &[usize]) -> bool
    requires segments { All (IsWithin (length lines.now)) segments.now }
    requires count { length calls.now ≡ length lines.now + 1 }
    requires calls { (i : ℕ) → i ≤ length lines.now
        → slice_index calls.now i ≡ calls_before (map line_of lines.now) i }
    ensures { result ≡ is_long_in name (map line_of lines.now) segments.now }
{
    for segment in segments {
        if has_call(name, *segment, lines, calls) {
            return true;
        }
    }
    false
}

// A call stands in a segment of a name, but for one that writes the name where the segment begins.
fn has_call(name: usize, segment: Segment, lines: &[Line], calls: &[usize]) -> bool
    requires segment { IsWithin (length lines.now) segment }
    requires count { length calls.now ≡ length lines.now + 1 }
    requires calls { (i : ℕ) → i ≤ length lines.now
        → slice_index calls.now i ≡ calls_before (map line_of lines.now) i }
    ensures { result ≡ has_call_in name (map line_of lines.now) segment }
{
    let start = start_of(name, segment.first, lines);
    calls[start] < calls[segment.last + 1]
}

// The first position of a segment, or the next one where the name is written there.
fn start_of(name: usize, first: usize, lines: &[Line]) -> usize
    requires { first < length lines.now }
    ensures { result ≡ start_of name (map line_of lines.now) first }
{
    if is_written(name, &lines[first]) {
        first + 1
    } else {
        first
    }
}

// The line writes the name.
fn is_written(name: usize, line: &Line) -> bool
    ensures { result ≡ does_write name (line_of line.now) }
{
    match line {
        Line::Done { instr } => match target_of(instr) {
            Some(target) => target as usize == name,
            None => false,
        },
        _ => false,
    }
}

// How many parameters there are.
fn param_count(lines: &[Line]) -> usize
    ensures { result ≡ param_count (map line_of lines.now) }
{
    match lines.first() {
        Some(Line::Enter { params }) => params.len(),
        _ => 0,
    }
}
