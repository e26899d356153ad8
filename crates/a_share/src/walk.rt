//! The walk back over the lines: after which positions each name is needed.

ghost use Rattle.std.specs.Prelude.{◌≡◌, ℕ, suc, ◌<◌, ◌≤◌, ◌+◌, ◌-◌, ◌==◌, ◌&&◌, ◌||◌, Bool, false, true, IfOk, OnOk, IsTrue, [], ◌∷◌, List, map, length, drop, slice_get, slice_set, Some};
ghost use Rattle.std.specs.BTreeSet.{contains};
ghost use Rattle.std.specs.Ordering.{nat_cmp};
ghost use Rattle.g_graph.specs.WellFormed.{all_of, some_of};
ghost use Rattle.s_linear.specs.Linear.{Code, Codes, Instr as PlainInstr, choice};
ghost use Rattle.s_linear.specs.Lines.{Line as PlainLine, branch_zero, done, label, names_below, step_lines};
ghost use Rattle.s_linear.specs.Views.{line_of};
ghost use Rattle.a_place.specs.Places.{among, name_count};
ghost use Rattle.a_place.specs.Share.{Names, needed_by_step, at_label};
ghost use Rattle.a_place.specs.Marks.{step_marks};
ghost use Rattle.a_share.specs.Bounds.{is_as, need_at, needed_now};
ghost use Rattle.a_share.specs.Changes.{ArePassed, ChangesAt, IsEntered};
ghost use Rattle.a_share.specs.Rows.{StandAt, Row, row_lines, row_marks, row_needed, turn_lines, turn_marks, end_label};
ghost use Rattle.a_share.specs.Unions.{IsUnion};
ghost use Rattle.a_share.specs.Sound.{IsSound};
ghost use Rattle.a_share.specs.Walk.{predicates_of};
ghost use Rattle.a_share.specs.Walked.{WalksBack};
ghost use Rattle.a_share.specs.Walking.{AreMovedBack, FindsAll, IsAt, IsWalked, HasRoom, RowStands, LoopStands, ChoiceStands, before_of, is_done, is_jump_to, is_label_line, is_stop, jump_of, leave_of, line_before};

use crate::needs::Needs;
use crate::reading::predicate_of;
use crate::segments::segments;
use base::NoMemory;
use s_linear::Line;
use smallvec::SmallVec;
use std::alloc::{AllocError, Global};
use std::collections::BTreeSet;

/// Positions one after the other, ends included, after each of which a name is needed.
#[derive(Clone, Copy)]
pub(crate) struct Segment {
    pub(crate) first: usize,
    pub(crate) last: usize,
}

/// The value of the unused slots of a short list of segments.
impl Default for Segment {
    fn default() -> Segment {
        Segment { first: 0, last: 0 }
    }
}

/// What the walk finds: the segments of each name, the depth of each line, and whether a line is a
/// move from another name that is needed after it.
#[derive(Drop)]
pub(crate) struct Walk {
    pub(crate) segments: Vec<SmallVec<Segment, 4>>,
    pub(crate) depths: Vec<usize>,
    pub(crate) copies: Vec<bool>,
}

/// Walks back over lines whose names are below a count.
pub(crate) fn walk_back(alloc: Global, lines: &[Line], count: usize) -> Result<Walk, NoMemory>
    requires { name_count (map line_of lines.now) ≤ count }
    ensures sound { IfOk result (IsSound (length lines.now) count) }
    ensures walk { IfOk result (WalksBack (map line_of lines.now)) }
{
    let mut needs = Needs::new(alloc, count, lines.len())?;
    if let Some(value) = value_of(lines) {
        walk_lines(alloc, &mut needs, lines, value)?;
    }
    let segments = segments(alloc, &needs.toggles, count, lines.len())?;
    Ok(Walk {
        segments,
        depths: needs.depths,
        copies: needs.copies,
    })
}

// The value of a function with these lines.
fn value_of(lines: &[Line]) -> Option<u32>
    ensures { result ≡ leave_of
        (slice_get (map line_of lines.now) (length lines.now - 1)) }
{
    match lines.get(lines.len().saturating_sub(1)) {
        Some(Line::Leave { value }) => Some(*value),
        _ => None,
    }
}

// Walks back over lines after the last of which a value is needed.
fn walk_lines(
    alloc: Global,
    needs: &mut Needs,
    lines: &[Line],
    value: u32,
) -> Result<(), AllocError>
    ensures depths { OnOk result (length needs.new.depths.items ≡ length needs.old.depths.items) }
    ensures copies { OnOk result (length needs.new.copies.items ≡ length needs.old.copies.items) }
    ensures walked { OnOk result
        (FindsAll (map line_of lines.now) value needs.old needs.new) }
{
    let end = lines.len().saturating_sub(1);
    needs.set(value, true, end)?;
    let jumped = jumped(alloc, lines)?;
    code(alloc, needs, lines, &jumped, end, None, 0)?;
    needs.restore(0, 0)?;
    needs.stand(0, 0);
    Ok(())
}

// The labels that a jump goes to.
fn jumped(alloc: Global, lines: &[Line]) -> Result<BTreeSet<u32>, AllocError>
    ensures { IfOk result (λ jumped. (l : ℕ) → contains nat_cmp jumped l
        ≡ some_of (is_jump_to l) (map line_of lines.now)) }
{
    let mut jumped = BTreeSet::new(alloc);
    for line in lines {
        if let Line::Jump { label } = line {
            jumped.insert(*label)?;
        }
    }
    Ok(jumped)
}

// What stands before a position: an instruction, a label that nothing jumps to, a loop with this
// label, a choice with this label at its end, or nothing of the code that is walked.
#[derive(Clone, Copy)]
enum Before {
    Nothing,
    Instr,
    Label,
    Loop(u32),
    Choice(u32),
}

// Walks the code that ends before a position, which `stop` begins: its label, or a jump to it and a
// label. Gives where the code begins.
#[cycle(steps)]
fn code(
    alloc: Global,
    needs: &mut Needs,
    lines: &[Line],
    jumped: &BTreeSet<u32>,
    end: usize,
    stop: Option<u32>,
    depth: usize,
) -> Result<usize, AllocError>
    requires { depth + end ≤ length lines.now }
    ensures bound { IfOk result (λ start. start ≤ end) }
    ensures depths { IfOk result (λ start.
        length needs.new.depths.items ≡ length needs.old.depths.items) }
    ensures copies { IfOk result (λ start.
        length needs.new.copies.items ≡ length needs.old.copies.items) }
    ensures walked { IfOk result (λ start. (a : ℕ) (r : Row) (N : Names)
        → HasRoom (map line_of lines.now) (contains nat_cmp jumped.now) needs.old
        → RowStands (map line_of lines.now) (contains nat_cmp jumped.now) stop a r end N
        → IsAt needs.old end N
        → (start ≡ a) × IsWalked needs.old needs.new a end (row_lines r) (row_marks depth r N)
        (row_needed r N)) }
{
    let mut at = end;
    'back: while at > 0 {
        match step_before(lines, jumped, at, stop) {
            Before::Nothing => return Ok(at),
            Before::Instr => {
                needs.instr(lines, at - 1, depth)?;
                at -= 1;
            }
            Before::Label => at -= 1,
            Before::Loop(label) => at = turn(alloc, needs, lines, jumped, at - 1, label, depth)?,
            Before::Choice(label) => {
                at = choice(alloc, needs, lines, jumped, at - 1, label, depth)?;
            }
        }
    }
    Ok(at)
}

// Walks the loop whose end label stands at a position and whose label is `label`, but for its moves
// in, and gives where it begins.
#[cycle(steps)]
fn turn(
    alloc: Global,
    needs: &mut Needs,
    lines: &[Line],
    jumped: &BTreeSet<u32>,
    end: usize,
    label: u32,
    depth: usize,
) -> Result<usize, AllocError>
    requires { depth + end < length lines.now }
    ensures bound { IfOk result (λ start. start ≤ end) }
    ensures depths { IfOk result (λ start.
        length needs.new.depths.items ≡ length needs.old.depths.items) }
    ensures copies { IfOk result (λ start.
        length needs.new.copies.items ≡ length needs.old.copies.items) }
    ensures walked { IfOk result (λ start. (a p : ℕ) (body : Code) (back : List PlainInstr) (N : Names)
        → HasRoom (map line_of lines.now) (contains nat_cmp jumped.now) needs.old
        → LoopStands (map line_of lines.now) (contains nat_cmp jumped.now) a label body p back
        (suc end) N
        → IsAt needs.old (suc end) N
        → (start ≡ a) × IsWalked needs.old needs.new a (suc end) (turn_lines label body p back)
        (turn_marks depth body p back N) (at_label body p back N)) }
{
    let jump = end.saturating_sub(1);
    let back = start_of_moves(lines, jump);
    let branch = back.saturating_sub(1);
    let mark = needs.changed.len();
    enter_body(alloc, needs, lines, back, jump, depth + 1)?;
    let start = code(alloc, needs, lines, jumped, branch, Some(label), depth + 1)?;
    needs.turn_over(mark, back, jump)?;
    moves_back(needs, lines, back, jump, depth + 1)?;
    Ok(start.saturating_sub(1))
}

// Walks the choice whose end label stands at a position, and gives where it begins.
#[cycle(steps)]
fn choice(
    alloc: Global,
    needs: &mut Needs,
    lines: &[Line],
    jumped: &BTreeSet<u32>,
    end: usize,
    label: u32,
    depth: usize,
) -> Result<usize, AllocError>
    requires { depth + end < length lines.now }
    ensures bound { IfOk result (λ start. start ≤ end) }
    ensures depths { IfOk result (λ start.
        length needs.new.depths.items ≡ length needs.old.depths.items) }
    ensures copies { IfOk result (λ start.
        length needs.new.copies.items ≡ length needs.old.copies.items) }
    ensures walked { IfOk result (λ start. (a p first : ℕ) (cs : Codes) (N : Names)
        → HasRoom (map line_of lines.now) (contains nat_cmp jumped.now) needs.old
        → ChoiceStands (map line_of lines.now) (contains nat_cmp jumped.now) a first p cs (suc end) N
        → label ≡ end_label first cs
        → IsAt needs.old (suc end) N
        → (start ≡ a) × IsWalked needs.old needs.new a (suc end) (step_lines first (choice p cs))
        (step_marks depth (choice p cs) N) (needed_by_step (choice p cs) N)) }
{
    let mark = needs.changed.len();
    let mut start = code(alloc, needs, lines, jumped, end, Some(label), depth)?;
    let mut union = Union::new(alloc, needs, mark)?;
    let mut branches = 0;
    'codes: while start >= 2 && is_label(lines, start - 1) {
        needs.restore(mark, start - 1)?;
        start = code(alloc, needs, lines, jumped, start - 2, Some(label), depth)?;
        union.add(alloc, needs, mark)?;
        branches += 1;
    }
    let first = start.saturating_sub(branches);
    needs.restore(mark, first)?;
    union.join(needs, first)?;
    stand_all(needs, first, start, depth);
    pass_branch(needs, lines, first)?;
    Ok(first)
}

// What codes need that is not needed after them, and what is needed after them and none of them
// needs.
#[derive(Drop)]
struct Union {
    added: Vec<u32>,
    dropped: Vec<u32>,
}

impl Union {
    // Of one code: what is needed changed since a mark.
    fn new(alloc: Global, needs: &Needs, mark: usize) -> Result<Self, AllocError>
        ensures added { IfOk result (λ u. (x : ℕ) → among x u.added.items
            ≡ ((among x (drop mark needs.now.changed.items)
            && is_as true (needed_now needs.now.toggles x)) || among x [])) }
        ensures dropped { IfOk result (λ u. (x : ℕ) → among x u.dropped.items
            ≡ ((among x (drop mark needs.now.changed.items)
            && is_as false (needed_now needs.now.toggles x)) || among x [])) }
    {
        let count = needs.changed.len().saturating_sub(mark);
        let mut added = Vec::with_capacity(alloc, count)?;
        needs.choose(&needs.changed, mark, true, &mut added)?;
        let mut dropped = Vec::with_capacity(alloc, count)?;
        needs.choose(&needs.changed, mark, false, &mut dropped)?;
        Ok(Union { added, dropped })
    }

    // Of one code more.
    fn add(&mut self, alloc: Global, needs: &Needs, mark: usize) -> Result<(), AllocError>
        ensures added { OnOk result ((x : ℕ) → among x self.new.added.items
            ≡ ((among x (drop mark needs.now.changed.items)
            && is_as true (needed_now needs.now.toggles x)) || among x self.old.added.items)) }
        ensures dropped { OnOk result ((x : ℕ) → among x self.new.dropped.items
            ≡ ((among x (drop 0 self.old.dropped.items)
            && is_as false (needed_now needs.now.toggles x)) || among x [])) }
    {
        needs.choose(&needs.changed, mark, true, &mut self.added)?;
        let mut dropped = Vec::with_capacity(alloc, self.dropped.len())?;
        needs.choose(&self.dropped, 0, false, &mut dropped)?;
        self.dropped = dropped;
        Ok(())
    }

    // Goes from what is needed after the codes to what one of them needs.
    fn join(&self, needs: &mut Needs, bound: usize) -> Result<(), AllocError>
        ensures changes { OnOk result ((S : Names)
            → IsUnion (length needs.old.toggles) self.now.added.items self.now.dropped.items
            (needed_now needs.old.toggles) S → ChangesAt needs.old needs.new bound) }
        ensures now { OnOk result ((S : Names)
            → IsUnion (length needs.old.toggles) self.now.added.items self.now.dropped.items
            (needed_now needs.old.toggles) S → (x : ℕ) → needed_now needs.new.toggles x ≡ S x) }
        ensures depths { OnOk result (needs.new.depths ≡ needs.old.depths) }
        ensures copies { OnOk result (needs.new.copies ≡ needs.old.copies) }
    {
        needs.set_all(&self.added, true, bound)?;
        needs.set_all(&self.dropped, false, bound)?;
        Ok(())
    }
}

// Goes from what is needed after a loop to what is needed after its body: this, what its moves back
// read before they write it, and the predicate.
fn enter_body(
    alloc: Global,
    needs: &mut Needs,
    lines: &[Line],
    back: usize,
    jump: usize,
    depth: usize,
) -> Result<(), AllocError>
    ensures entered { OnOk result ((p l : ℕ) (is : List PlainInstr)
        → slice_get (map line_of lines.now) (back - 1) ≡ Some (branch_zero p l)
        → StandAt (map line_of lines.now) back (map done is) jump
        → IsTrue (all_of (names_below (length needs.old.toggles)) (map line_of lines.now))
        → IsEntered p is needs.old needs.new (back - 1)) }
    ensures depths { OnOk result (needs.new.depths.items
        ≡ slice_set needs.old.depths.items (back - 1) depth) }
    ensures copies { OnOk result (needs.new.copies ≡ needs.old.copies) }
{
    let branch = back.saturating_sub(1);
    let mark = needs.changed.len();
    pass_moves(needs, lines, back, jump, branch)?;
    let mut read = Vec::with_capacity(alloc, needs.changed.len().saturating_sub(mark))?;
    needs.choose(&needs.changed, mark, true, &mut read)?;
    needs.restore(mark, branch)?;
    needs.set_all(&read, true, branch)?;
    needs.stand(branch, depth);
    pass_branch(needs, lines, branch)?;
    Ok(())
}

// Passes the moves back of a loop at a bound.
fn pass_moves(
    needs: &mut Needs,
    lines: &[Line],
    back: usize,
    jump: usize,
    bound: usize,
) -> Result<(), AllocError>
    ensures passed { OnOk result ((is : List PlainInstr)
        → StandAt (map line_of lines.now) back (map done is) jump
        → IsTrue (all_of (names_below (length needs.old.toggles)) (map line_of lines.now))
        → ArePassed is needs.old needs.new bound) }
    ensures depths { OnOk result (needs.new.depths ≡ needs.old.depths) }
    ensures copies { OnOk result (needs.new.copies ≡ needs.old.copies) }
{
    let mut at = jump;
    'moves: while at > back {
        at -= 1;
        needs.pass_at(lines, at, bound)?;
    }
    Ok(())
}

// Walks the moves back from what is needed at a loop's label, and goes back to that.
fn moves_back(
    needs: &mut Needs,
    lines: &[Line],
    back: usize,
    jump: usize,
    depth: usize,
) -> Result<(), AllocError>
    ensures depths { OnOk result (length needs.new.depths.items ≡ length needs.old.depths.items) }
    ensures copies { OnOk result (length needs.new.copies.items ≡ length needs.old.copies.items) }
    ensures moved { OnOk result ((J : ℕ → Bool) (is : List PlainInstr) (L : Names)
        → StandAt (map line_of lines.now) back (map done is) jump
        → HasRoom (map line_of lines.now) J needs.old
        → ((x k : ℕ) → back < k → k ≤ jump → need_at needs.old.toggles x k ≡ L x)
        → ((x : ℕ) → needed_now needs.old.toggles x ≡ L x)
        → AreMovedBack depth is L needs.old needs.new back jump) }
{
    let mark = needs.changed.len();
    let mut at = jump;
    'moves: while at > back {
        at -= 1;
        needs.instr(lines, at, depth)?;
    }
    needs.restore(mark, back)?;
    Ok(())
}

// Passes the branches that begin at a position, which have one predicate.
fn pass_branch(needs: &mut Needs, lines: &[Line], position: usize) -> Result<(), AllocError>
    ensures changes { OnOk result ((p : ℕ) (l : PlainLine)
        → slice_get (map line_of lines.now) position ≡ Some l → predicates_of l ≡ p ∷ []
        → p < length needs.old.toggles → ChangesAt needs.old needs.new position) }
    ensures now { OnOk result ((p : ℕ) (l : PlainLine)
        → slice_get (map line_of lines.now) position ≡ Some l → predicates_of l ≡ p ∷ []
        → p < length needs.old.toggles → (x : ℕ)
        → needed_now needs.new.toggles x ≡ ((p == x) || needed_now needs.old.toggles x)) }
    ensures depths { OnOk result (needs.new.depths ≡ needs.old.depths) }
    ensures copies { OnOk result (needs.new.copies ≡ needs.old.copies) }
{
    if let Some(line) = lines.get(position) {
        if let Some(predicate) = predicate_of(line) {
            needs.set(predicate, true, position)?;
        }
    }
    Ok(())
}

// Lines from a position up to another stand at a depth.
fn stand_all(needs: &mut Needs, first: usize, end: usize, depth: usize)
    ensures toggles { needs.new.toggles ≡ needs.old.toggles }
    ensures changed { needs.new.changed ≡ needs.old.changed }
    ensures copies { needs.new.copies ≡ needs.old.copies }
    ensures size { length needs.new.depths.items ≡ length needs.old.depths.items }
    ensures depths { (i : ℕ) → first ≤ i → i < end → i < length needs.old.depths.items
        → slice_get needs.new.depths.items i ≡ Some depth }
    ensures others { (i : ℕ) → end ≤ i
        → slice_get needs.new.depths.items i ≡ slice_get needs.old.depths.items i }
{
    for position in first..end {
        needs.stand(position, depth);
    }
}

fn step_before(lines: &[Line], jumped: &BTreeSet<u32>, at: usize, stop: Option<u32>) -> Before
    requires { 0 < at }
    ensures { result ≡ before_of (contains nat_cmp jumped.now) stop
        (slice_get (map line_of lines.now) (at - 1))
        (jump_of (line_before (map line_of lines.now) (at - 1))) }
{
    match lines.get(at - 1) {
        Some(Line::Done { .. }) => Before::Instr,
        Some(Line::Label { number }) => label_before(lines, jumped, at - 1, *number, stop),
        _ => Before::Nothing,
    }
}

// Of a label at a position.
fn label_before(
    lines: &[Line],
    jumped: &BTreeSet<u32>,
    position: usize,
    number: u32,
    stop: Option<u32>,
) -> Before
    ensures { result ≡ before_of (contains nat_cmp jumped.now) stop (Some (label number))
        (jump_of (line_before (map line_of lines.now) position)) }
{
    if is_stop(stop, number) {
        return Before::Nothing;
    }
    match jump_before(lines, position) {
        Some(label) => {
            if is_stop(stop, label) {
                Before::Nothing
            } else {
                Before::Loop(label)
            }
        }
        None => {
            if jumped.contains(&number) {
                Before::Choice(number)
            } else {
                Before::Label
            }
        }
    }
}

fn is_stop(stop: Option<u32>, label: u32) -> bool
    ensures { result ≡ is_stop stop label }
{
    match stop {
        Some(stop) => stop == label,
        None => false,
    }
}

// The label of the jump before a position, where one stands there.
fn jump_before(lines: &[Line], position: usize) -> Option<u32>
    ensures { result ≡ jump_of (line_before (map line_of lines.now) position) }
{
    if position == 0 {
        return None;
    }
    jump_at(lines, position - 1)
}

fn jump_at(lines: &[Line], position: usize) -> Option<u32>
    ensures { result ≡ jump_of (slice_get (map line_of lines.now) position) }
{
    match lines.get(position) {
        Some(Line::Jump { label }) => Some(*label),
        _ => None,
    }
}

fn is_label(lines: &[Line], position: usize) -> bool
    ensures { result ≡ is_label_line (slice_get (map line_of lines.now) position) }
{
    matches!(lines.get(position), Some(Line::Label { .. }))
}

fn is_instr(lines: &[Line], position: usize) -> bool
    ensures { result ≡ is_done (slice_get (map line_of lines.now) position) }
{
    matches!(lines.get(position), Some(Line::Done { .. }))
}

// Where the instructions that end before a position begin.
fn start_of_moves(lines: &[Line], end: usize) -> usize
    ensures bound { result ≤ end }
    ensures within { (k : ℕ) → result ≤ k → k < end
        → is_done (slice_get (map line_of lines.now) k) ≡ true }
    ensures before { is_done (line_before (map line_of lines.now) result) ≡ false }
{
    let mut start = end;
    'moves: while start > 0 && is_instr(lines, start - 1) {
        start -= 1;
    }
    start
}
