//! One sweep over the positions of lines, which gives places to names.

ghost use Rattle.std.specs.Prelude.{◌≡◌, ◌==◌, ◌||◌, ℕ, OnOk, ◌&&◌};
ghost use Rattle.std.specs.BTreeSet.{contains};
ghost use Rattle.std.specs.Ordering.{nat_cmp};
ghost use Rattle.g_graph.specs.WellFormed.{some_of};

use crate::buckets::Buckets;
use crate::spans::Span;
use s_linear::Places;
use std::alloc::{AllocError, Global};
use std::collections::BTreeSet;

/// The places given so far and how many there are, those of them that are free, and by position
/// those that are free after it.
#[derive(Drop)]
pub(crate) struct Sweep {
    of: Vec<u32>,
    count: u32,
    free: BTreeSet<u32>,
    ends: Buckets,
}

impl Sweep {
    ghost use Rattle.std.specs.Prelude.{◌⊎◌, not, ◌+◌, ◌<◌, ◌≤◌, [], ◌∷◌, List, length, IfOk};
    ghost use Rattle.std.specs.Prelude.{vec_len, slice_index, slice_index_or};
    ghost use Rattle.s_linear.specs.Lines.{Line};
    ghost use Rattle.a_place.specs.Places.{first, last, name_count, Given, given};
    ghost use Rattle.a_place.specs.declared.spans.Span.{Span};
    ghost use Rattle.a_place.specs.Sweep.{IsSweepAt, AllStartAt, TakesFree, TakesNext, spans_of};

    /// No place is given, to names below a count and over so many lines.
    pub(crate) fn new(alloc: Global, names: usize, lines: usize) -> Result<Self, AllocError>
        ensures names { IfOk result (λ s. vec_len s.of ≡ names) }
        ensures lines { IfOk result (λ s. length s.ends ≡ lines) }
        ensures sweep { (ls : List Line) → name_count ls ≡ names
            → IfOk result (IsSweepAt ls 0 []) }
    {
        Ok(Sweep {
            of: vec![in alloc; 0; names]?,
            count: 0,
            free: BTreeSet::new(alloc),
            ends: Buckets::new(alloc, lines)?,
        })
    }

    /// Gives places to the names that start at a position, in order.
    pub(crate) fn start(&mut self, names: &[u32], spans: &[Span]) -> Result<(), AllocError>
        requires spans { length spans.now ≡ vec_len self.old.of }
        requires names { (k : ℕ) → k < length names.now
            → slice_index names.now k < length spans.now }
        requires ends { (k : ℕ) (d : Span) → k < length names.now
            → (slice_index_or spans.now (slice_index names.now k) d).last < length self.old.ends }
        requires count { self.old.count + length names.now ≤ 4294967295 }
        ensures names { OnOk result (vec_len self.new.of ≡ vec_len self.old.of) }
        ensures lines { OnOk result (length self.new.ends ≡ length self.old.ends) }
        ensures sweep { OnOk result ((ls : List Line) (i : ℕ) (gs : List Given)
            → spans.now ≡ spans_of ls → AllStartAt ls i names.now → IsSweepAt ls i gs self.old
            → IsSweepAt ls i (given ls names.now gs) self.new) }
    {
        for name in names {
            self.give(*name, spans[*name as usize].last)?;
        }
        Ok(())
    }

    // Gives a name a place until it ends.
    fn give(&mut self, name: u32, end: usize) -> Result<(), AllocError>
        requires name { name < vec_len self.old.of }
        requires end { end < length self.old.ends }
        requires count { self.old.count < 4294967295 }
        ensures names { OnOk result (vec_len self.new.of ≡ vec_len self.old.of) }
        ensures lines { OnOk result (length self.new.ends ≡ length self.old.ends) }
        ensures count { OnOk result (self.new.count ≤ self.old.count + 1) }
        ensures sweep { OnOk result ((ls : List Line) (i : ℕ) (gs : List Given)
            → first name ls ≡ i → last name ls ≡ end → i ≤ end → IsSweepAt ls i gs self.old
            → IsSweepAt ls i (given ls (name ∷ []) gs) self.new) }
    {
        let place = self.take();
        self.of[name as usize] = place;
        self.ends.put(end, place)
    }

    // Takes the least place that is free, or else the next one.
    fn take(&mut self) -> u32
        requires { self.old.count < 4294967295 }
        ensures of { self.new.of ≡ self.old.of }
        ensures ends { self.new.ends ≡ self.old.ends }
        ensures taken { TakesFree self.old self.new result ⊎ TakesNext self.old self.new result }
        ensures free { (q : ℕ) → contains nat_cmp self.new.free q
            ≡ (contains nat_cmp self.old.free q && not (q == result)) }
    {
        if let Some(place) = self.free.pop_first() {
            return place;
        }
        self.count += 1;
        self.count - 1
    }

    /// Frees the places of the names that end at a position.
    pub(crate) fn end(&mut self, position: usize) -> Result<(), AllocError>
        requires { position < length self.old.ends }
        ensures of { OnOk result (self.new.of ≡ self.old.of) }
        ensures ends { OnOk result (self.new.ends ≡ self.old.ends) }
        ensures sweep { OnOk result ((ls : List Line) (gs : List Given)
            → IsSweepAt ls position gs self.old → IsSweepAt ls (position + 1) gs self.new) }
    {
        insert_all(&mut self.free, self.ends.get(position))
    }

    /// The places given.
    pub(crate) fn places(self) -> Places
        ensures { result ≡ record { of = self.of.items; count = self.count; temporaries = 0 } }
    {
        Places {
            of: self.of,
            count: self.count,
            temporaries: 0,
        }
    }
}

fn insert_all(set: &mut BTreeSet<u32>, numbers: &[u32]) -> Result<(), AllocError>
    ensures { OnOk result ((q : ℕ) → contains nat_cmp set.new q
        ≡ (some_of (λ p. p == q) numbers.now || contains nat_cmp set.old q)) }
{
    for number in numbers {
        set.insert(*number)?;
    }
    Ok(())
}
