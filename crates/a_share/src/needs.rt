//! What is needed at the present position of a walk back over lines, and what was found.

ghost use Rattle.std.specs.Prelude.{◌≡◌, OnOk, IfOk};

use crate::reading::target_of;
use crate::toggles::Toggles;
use s_linear::{Instr, Line};
use std::alloc::{AllocError, Global};

/// The bounds of each name, of which there is an odd number where the name is needed; the names whose
/// need changed, in order; the depth of each line; and whether a line is a move from another name
/// that is needed after it.
#[derive(Drop)]
pub(crate) struct Needs {
    pub(crate) toggles: Toggles,
    pub(crate) changed: Vec<u32>,
    pub(crate) depths: Vec<usize>,
    pub(crate) copies: Vec<bool>,
}

impl Needs {
    ghost use Rattle.std.specs.Prelude.{ℕ, [], ◌<◌, ◌≢◌, ◌==◌, ◌&&◌, ◌||◌, not, false, IsTrue, if◌then◌else◌};
    ghost use Rattle.std.specs.Prelude.{map, length, drop, take, true};
    ghost use Rattle.std.specs.Prelude.{replicate, slice_get, slice_set, Some};
    ghost use Rattle.s_linear.specs.Linear.{Instr as PlainInstr, move};
    ghost use Rattle.s_linear.specs.Lines.{done, instr_names};
    ghost use Rattle.s_linear.specs.Views.{instr_of, line_of};
    ghost use Rattle.a_place.specs.Places.{among};
    ghost use Rattle.a_place.specs.Share.{reads, targets};
    ghost use Rattle.a_share.specs.Bounds.{AreBelow, AreToggled, has_bound, is_as, needed_now};
    ghost use Rattle.a_share.specs.Changes.{AreTurnedOver, ChangesAt, IsPassed};

    /// Nothing is needed.
    pub(crate) fn new(alloc: Global, names: usize, lines: usize) -> Result<Self, AllocError>
        ensures toggles { IfOk result (λ n. n.toggles ≡ replicate names []) }
        ensures changed { IfOk result (λ n. n.changed.items ≡ []) }
        ensures depths { IfOk result (λ n. n.depths.items ≡ replicate lines 0) }
        ensures copies { IfOk result (λ n. n.copies.items ≡ replicate lines false) }
    {
        Ok(Needs {
            toggles: Toggles::new(alloc, names)?,
            changed: Vec::new(alloc),
            depths: vec![in alloc; 0; lines]?,
            copies: vec![in alloc; false; lines]?,
        })
    }

    /// Makes a name needed or not before a bound.
    pub(crate) fn set(&mut self, name: u32, needed: bool, bound: usize) -> Result<(), AllocError>
        ensures changes { OnOk result (name < length self.old.toggles
            → ChangesAt self.old self.new bound) }
        ensures now { OnOk result (name < length self.old.toggles → (x : ℕ)
            → needed_now self.new.toggles x
            ≡ (if name == x then needed else needed_now self.old.toggles x)) }
        ensures cut { OnOk result (name < length self.old.toggles → needed ≡ false
            → IsTrue (needed_now self.old.toggles name)
            → IsTrue (has_bound self.new.toggles name bound)) }
        ensures depths { OnOk result (self.new.depths ≡ self.old.depths) }
        ensures copies { OnOk result (self.new.copies ≡ self.old.copies) }
    {
        if self.toggles.is_odd(name as usize) == needed {
            return Ok(());
        }
        self.toggles.add(name as usize, bound)?;
        self.changed.push(name)?;
        Ok(())
    }

    /// Makes names needed or not before a bound.
    pub(crate) fn set_all(
        &mut self,
        names: &[u32],
        needed: bool,
        bound: usize,
    ) -> Result<(), AllocError>
        ensures changes { OnOk result (AreBelow (length self.old.toggles) names.now
            → ChangesAt self.old self.new bound) }
        ensures now { OnOk result (AreBelow (length self.old.toggles) names.now → (x : ℕ)
            → needed_now self.new.toggles x
            ≡ (if among x names.now then needed else needed_now self.old.toggles x)) }
        ensures depths { OnOk result (self.new.depths ≡ self.old.depths) }
        ensures copies { OnOk result (self.new.copies ≡ self.old.copies) }
    {
        for name in names {
            self.set(*name, needed, bound)?;
        }
        Ok(())
    }

    /// Goes from what is needed after an instruction to what is needed before it.
    pub(crate) fn pass(&mut self, instr: &Instr, bound: usize) -> Result<(), AllocError>
        ensures passed { OnOk result
            (AreBelow (length self.old.toggles) (instr_names (instr_of instr.now))
            → IsPassed (instr_of instr.now) self.old self.new bound) }
        ensures depths { OnOk result (self.new.depths ≡ self.old.depths) }
        ensures copies { OnOk result (self.new.copies ≡ self.old.copies) }
    {
        if let Some(target) = target_of(instr) {
            self.set(target, false, bound)?;
        }
        self.set_sources(instr, bound)?;
        Ok(())
    }

    // Makes the names that an instruction reads needed before a bound.
    fn set_sources(&mut self, instr: &Instr, bound: usize) -> Result<(), AllocError>
        ensures changes { OnOk result (AreBelow (length self.old.toggles)
            (drop (targets (instr_of instr.now)) (instr_names (instr_of instr.now)))
            → ChangesAt self.old self.new bound) }
        ensures now { OnOk result (AreBelow (length self.old.toggles)
            (drop (targets (instr_of instr.now)) (instr_names (instr_of instr.now)))
            → (x : ℕ) → needed_now self.new.toggles x
            ≡ (if reads (instr_of instr.now) x then true else needed_now self.old.toggles x)) }
        ensures depths { OnOk result (self.new.depths ≡ self.old.depths) }
        ensures copies { OnOk result (self.new.copies ≡ self.old.copies) }
    {
        match instr {
            Instr::Const { .. }
            | Instr::Undef { .. }
            | Instr::ObjectAddress { .. }
            | Instr::GlobalAddress { .. }
            | Instr::Clear { .. }
            | Instr::Get { .. } => Ok(()),
            Instr::Binary { left, right, .. } | Instr::EqualPointers { left, right, .. } => {
                self.set_all(&[*left, *right], true, bound)
            }
            Instr::Unary { input, .. } => self.set(*input, true, bound),
            Instr::Load { address, .. } => self.set(*address, true, bound),
            Instr::Store { address, value, .. } => self.set_all(&[*address, *value], true, bound),
            Instr::Move { source, .. } => self.set(*source, true, bound),
            Instr::Call { arguments, .. } => self.set_all(arguments.as_slice(), true, bound),
            Instr::Put { byte } => self.set(*byte, true, bound),
            Instr::Exit { status } => self.set(*status, true, bound),
        }
    }

    /// Passes the instruction at a position.
    pub(crate) fn pass_at(
        &mut self,
        lines: &[Line],
        position: usize,
        bound: usize,
    ) -> Result<(), AllocError>
        ensures passed { OnOk result ((i : PlainInstr)
            → slice_get (map line_of lines.now) position ≡ Some (done i)
            → AreBelow (length self.old.toggles) (instr_names i)
            → IsPassed i self.old self.new bound) }
        ensures depths { OnOk result (self.new.depths ≡ self.old.depths) }
        ensures copies { OnOk result (self.new.copies ≡ self.old.copies) }
    {
        if let Some(Line::Done { instr }) = lines.get(position) {
            self.pass(instr, bound)?;
        }
        Ok(())
    }

    /// Walks the instruction at a position.
    pub(crate) fn instr(
        &mut self,
        lines: &[Line],
        position: usize,
        depth: usize,
    ) -> Result<(), AllocError>
        ensures passed { OnOk result ((i : PlainInstr)
            → slice_get (map line_of lines.now) position ≡ Some (done i)
            → AreBelow (length self.old.toggles) (instr_names i)
            → IsPassed i self.old self.new position) }
        ensures depths { OnOk result (self.new.depths.items
            ≡ slice_set self.old.depths.items position depth) }
        ensures size { OnOk result (length self.new.copies.items ≡ length self.old.copies.items) }
        ensures others { OnOk result ((i : ℕ) → i ≢ position
            → slice_get self.new.copies.items i ≡ slice_get self.old.copies.items i) }
        ensures copy { OnOk result ((t a : ℕ)
            → slice_get (map line_of lines.now) position ≡ Some (done (move t a))
            → position < length self.old.copies.items
            → slice_get self.new.copies.items position
            ≡ Some (not (t == a) && needed_now self.old.toggles a)) }
    {
        self.stand(position, depth);
        if let Some(Line::Done { instr }) = lines.get(position) {
            self.copy(instr, position);
            self.pass(instr, position)?;
        }
        Ok(())
    }

    /// A line stands at a depth.
    pub(crate) fn stand(&mut self, position: usize, depth: usize)
        ensures toggles { self.new.toggles ≡ self.old.toggles }
        ensures changed { self.new.changed ≡ self.old.changed }
        ensures depths { self.new.depths.items ≡ slice_set self.old.depths.items position depth }
        ensures copies { self.new.copies ≡ self.old.copies }
    {
        if position < self.depths.len() {
            self.depths[position] = depth;
        }
    }

    // Says of a move whether it is from another name that is needed now.
    fn copy(&mut self, instr: &Instr, position: usize)
        ensures toggles { self.new.toggles ≡ self.old.toggles }
        ensures changed { self.new.changed ≡ self.old.changed }
        ensures depths { self.new.depths ≡ self.old.depths }
        ensures size { length self.new.copies.items ≡ length self.old.copies.items }
        ensures others { (i : ℕ) → i ≢ position
            → slice_get self.new.copies.items i ≡ slice_get self.old.copies.items i }
        ensures copy { (t a : ℕ) → instr_of instr.now ≡ move t a
            → position < length self.old.copies.items
            → slice_get self.new.copies.items position
            ≡ Some (not (t == a) && needed_now self.old.toggles a) }
    {
        if let Instr::Move { target, source } = instr {
            if position < self.copies.len() {
                self.copies[position] = target != source && self.toggles.is_odd(*source as usize);
            }
        }
    }

    // Adds a bound to each name that changed since a mark.
    fn toggle(&mut self, mark: usize, bound: usize) -> Result<(), AllocError>
        ensures toggled { OnOk result
            (AreBelow (length self.old.toggles) (drop mark self.old.changed.items)
            → AreToggled self.old.toggles self.new.toggles (drop mark self.old.changed.items) bound) }
        ensures changed { OnOk result (self.new.changed ≡ self.old.changed) }
        ensures depths { OnOk result (self.new.depths ≡ self.old.depths) }
        ensures copies { OnOk result (self.new.copies ≡ self.old.copies) }
    {
        for k in mark..self.changed.len() {
            self.toggles.add(self.changed[k] as usize, bound)?;
        }
        Ok(())
    }

    /// Goes back to what was needed at a mark.
    pub(crate) fn restore(&mut self, mark: usize, bound: usize) -> Result<(), AllocError>
        ensures toggled { OnOk result
            (AreBelow (length self.old.toggles) (drop mark self.old.changed.items)
            → AreToggled self.old.toggles self.new.toggles (drop mark self.old.changed.items) bound) }
        ensures changed { OnOk result
            (self.new.changed.items ≡ take mark self.old.changed.items) }
        ensures depths { OnOk result (self.new.depths ≡ self.old.depths) }
        ensures copies { OnOk result (self.new.copies ≡ self.old.copies) }
    {
        self.toggle(mark, bound)?;
        self.changed.truncate(mark);
        Ok(())
    }

    /// Between two bounds makes what is needed now of what was needed at a mark.
    pub(crate) fn turn_over(
        &mut self,
        mark: usize,
        low: usize,
        high: usize,
    ) -> Result<(), AllocError>
        ensures turned { OnOk result
            (AreBelow (length self.old.toggles) (drop mark self.old.changed.items)
            → AreTurnedOver self.old.toggles self.new.toggles
            (drop mark self.old.changed.items) low high) }
        ensures changed { OnOk result (self.new.changed ≡ self.old.changed) }
        ensures depths { OnOk result (self.new.depths ≡ self.old.depths) }
        ensures copies { OnOk result (self.new.copies ≡ self.old.copies) }
    {
        self.toggle(mark, high)?;
        self.toggle(mark, low)
    }

    /// Adds those of some names from an index on that are needed now, or else those that are not.
    pub(crate) fn choose(
        &self,
        names: &[u32],
        from: usize,
        needed: bool,
        chosen: &mut Vec<u32>,
    ) -> Result<(), AllocError>
        ensures { OnOk result ((x : ℕ) → among x chosen.new.items
            ≡ ((among x (drop from names.now) && is_as needed (needed_now self.now.toggles x))
            || among x chosen.old.items)) }
    {
        for k in from..names.len() {
            if self.toggles.is_odd(names[k] as usize) == needed {
                chosen.push(names[k])?;
            }
        }
        Ok(())
    }
}
