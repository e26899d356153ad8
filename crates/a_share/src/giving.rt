//! Giving places to names, one after the other.

ghost use Rattle.std.specs.Prelude.{◌≡◌, ◌+◌, ◌<◌, ◌&&◌, not, nat_lt, false, IfOk, slice_index_or, vec_len};
ghost use Rattle.a_place.specs.Share.{counted_for, is_lost};
ghost use Rattle.a_share.specs.Chosen.{candidate};

use crate::facts::Facts;
use crate::held::Held;
use s_linear::Places;
use std::alloc::{AllocError, Global};

// The places that several names may have.
const SHARED: usize = 31;

// How many of them are registers that a call loses.
const TEMPORARIES: u32 = 4;

/// The places given so far, what is known of those that names share, the next place of those that
/// stand alone, and how many saved registers and words there are.
#[derive(Drop)]
pub(crate) struct Giving {
    of: Vec<Option<u32>>,
    held: Vec<Held>,
    next: u32,
    count: u32,
}

impl Giving {
    ghost use Rattle.std.specs.Prelude.{◌^◌, ◌∷◌, [], List, map, true, OnOk, slice_set};
    ghost use Rattle.std.specs.List.{All};
    ghost use Rattle.val_core.specs.Numbers.{numbers_from};
    ghost use Rattle.a_place.specs.Places.{Given, place_in};
    ghost use Rattle.a_share.specs.Facts.{AreUsable, line_number, name_number};
    ghost use Rattle.a_place.specs.Share.{count_of, first_of};
    ghost use Rattle.a_share.specs.Giving.{IsGiving, IsReady, candidates_at, chosen, fits_at, having};
    ghost use Rattle.a_share.specs.declared.facts.Facts.{Facts};

    /// No name has a place.
    pub(crate) fn new(alloc: Global, facts: &Facts) -> Result<Self, AllocError>
        requires { line_number facts.now < 2 ^ 63 }
        ensures ready { IfOk result (IsReady facts.now) }
        ensures giving { IfOk result (IsGiving facts.now []) }
    {
        let lines = facts.walk.depths.len();
        let mut held = Vec::with_capacity(alloc, SHARED)?;
        for _ in 0..SHARED {
            held.push(Held::new(alloc, lines))?;
        }
        Ok(Giving {
            of: vec![in alloc; None; facts.walk.segments.len()]?,
            held,
            next: SHARED as u32,
            count: 0,
        })
    }

    /// Gives a name its place. Fails too where no place is left.
    pub(crate) fn give(&mut self, facts: &Facts, name: usize) -> Result<(), AllocError>
        requires facts { AreUsable facts.now }
        requires ready { IsReady facts.now self.old }
        requires name { name < name_number facts.now }
        ensures ready { OnOk result (IsReady facts.now self.new) }
        ensures giving { OnOk result ((gs : List Given) → IsGiving facts.now gs self.old
            → IsGiving facts.now
            (record { name = name; place = chosen facts.now name gs } ∷ gs) self.new) }
    {
        let place = self.choose(facts, name);
        self.of[name] = Some(place);
        self.count = self.count.max(counted_for(place));
        if (place as usize) < SHARED {
            let segments = facts.walk.segments[name].as_slice();
            let is_param = name < facts.params;
            self.held[place as usize].hold(segments, facts.writes.get(name), is_param)
        } else {
            self.next = next_after(place)?;
            Ok(())
        }
    }

    // The first place that fits: of the places of its partners, then of the others; and the next
    // place where none does.
    fn choose(&self, facts: &Facts, name: usize) -> u32
        requires facts { AreUsable facts.now }
        requires ready { IsReady facts.now self.now }
        requires name { name < name_number facts.now }
        ensures { result ≡ first_of (fits_at facts.now name self.now)
            (candidates_at facts.now name self.now) self.now.next }
    {
        let mut tried = [false; SHARED];
        for partner in facts.partners.get(name) {
            if let Some(place) = self.of[*partner] {
                if self.tries(&mut tried, facts, name, place) {
                    return place;
                }
            }
        }
        for k in 0..SHARED as u32 {
            let place = candidate(k);
            if self.tries(&mut tried, facts, name, place) {
                return place;
            }
        }
        self.next
    }

    // Tries a place below 31, once.
    fn tries(&self, tried: &mut [bool; SHARED], facts: &Facts, name: usize, place: u32) -> bool
        requires facts { AreUsable facts.now }
        requires ready { IsReady facts.now self.now }
        requires name { name < name_number facts.now }
        ensures result { result ≡ (nat_lt place 31 && (not (slice_index_or tried.old place false)
            && fits_at facts.now name self.now place)) }
        ensures tried { tried.new ≡ slice_set tried.old place true }
    {
        if place as usize >= SHARED || tried[place as usize] {
            return false;
        }
        tried[place as usize] = true;
        self.fits(facts, name, place)
    }

    // No name that has the place clashes with this one: each meeting is a move between the two, and
    // one of them at most is a parameter. A long name does not get a place that calls lose.
    fn fits(&self, facts: &Facts, name: usize, place: u32) -> bool
        requires facts { AreUsable facts.now }
        requires ready { IsReady facts.now self.now }
        requires name { name < name_number facts.now }
        requires place { place < 31 }
        ensures { result ≡ fits_at facts.now name self.now place }
    {
        let held = &self.held[place as usize];
        if loses(facts, name, place) || is_crowded(facts, name, held) {
            return false;
        }
        let segments = facts.walk.segments[name].as_slice();
        let copies = self.having(place, facts.copied.get(name));
        held.meets(segments, facts.writes.get(name), copies)
    }

    // How many of these names have a place.
    fn having(&self, place: u32, names: &[usize]) -> usize
        requires { All (λ y. y < vec_len self.now.of) names.now }
        ensures { result ≡ having self.now place names.now }
    {
        let mut count = 0;
        for name in names {
            if self.of[*name] == Some(place) {
                count += 1;
            }
        }
        count
    }

    /// The places given.
    pub(crate) fn places(self, alloc: Global) -> Result<Places, AllocError>
        ensures { IfOk result (λ p. (F : Facts) (gs : List Given) → IsReady F self → IsGiving F gs self
            → p ≡ record {
              of = map (place_in gs) (numbers_from 0 (name_number F));
              count = count_of gs;
              temporaries = 4;
            }) }
    {
        let mut of = Vec::with_capacity(alloc, self.of.len())?;
        for place in self.of.as_slice() {
            of.push(place.unwrap_or(0))?;
        }
        Ok(Places {
            of,
            count: self.count,
            temporaries: TEMPORARIES,
        })
    }
}

// The name is long, and calls lose the place.
fn loses(facts: &Facts, name: usize, place: u32) -> bool
    requires { name < vec_len facts.now.long }
    ensures { result ≡ (slice_index_or facts.now.long.items name false && is_lost place) }
{
    facts.long[name] && is_lost(place)
}

// The name is a parameter, and another one has the place.
fn is_crowded(facts: &Facts, name: usize, held: &Held) -> bool
    ensures { result ≡ (nat_lt name facts.now.params && held.now.has_param) }
{
    name < facts.params && held.has_param
}

// The place after one, where there is one.
fn next_after(place: u32) -> Result<u32, AllocError>
    ensures { IfOk result (λ next. next ≡ place + 1) }
{
    match place.checked_add(1) {
        Some(next) => Ok(next),
        None => Err(AllocError),
    }
}

// A call loses these registers.
fn is_lost(place: u32) -> bool
    ensures { result ≡ is_lost place }
{
    11 <= place && place < 15
}

// The registers that a call loses come first, then those that it keeps, then words.
fn candidate(k: u32) -> u32
    ensures { result ≡ candidate k }
{
    if k < 4 {
        k + 11
    } else if k < 15 {
        k - 4
    } else {
        k
    }
}

// How many saved registers and words there are where a place is taken: with a word, all registers.
fn counted_for(place: u32) -> u32
    ensures { result ≡ counted_for place }
{
    if place < 11 {
        place + 1
    } else if place < 15 {
        0
    } else {
        place - 3
    }
}
