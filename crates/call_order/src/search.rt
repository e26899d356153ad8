//! A search in depth over calls, which finds units.
//! It keeps the functions of its path in groups, each of which is known to call itself there and
//! back. A call that leads back into an earlier group joins all groups from there on.

ghost use Rattle.std.specs.Prelude.{◌≡◌, ◌≢◌, ℕ, ◌+◌, ◌-◌, ◌<◌, ◌≤◌, ◌^◌, ◌⊎◌, List, length, take, IfSome, IfNone, IfOk, OnOk, slice_index, slice_index_or, vec_len};
ghost use Rattle.call_order.specs.Units.{call_lists, AllKnown, Calls, Reaches};
ghost use Rattle.call_order.specs.Search.{above, stage_of};
ghost use Rattle.call_order.specs.declared.search.Group.{Group};

use crate::stages::{Stage, least, put_all, rank_above};
use std::alloc::{AllocError, Global};

/// A group: where its members begin, and where their calls that are yet to be followed.
#[derive(Clone, Copy)]
pub(crate) struct Group {
    members_from: usize,
    pending_from: usize,
}

/// The stage of each function, the functions that are held, their calls that are yet to be
/// followed, and the groups.
#[derive(Drop)]
pub(crate) struct Search {
    pub(crate) stages: Vec<Stage>,
    members: Vec<u32>,
    pending: Vec<u32>,
    groups: Vec<Group>,
}

// Drops the groups that begin above this index.
fn join(groups: &mut Vec<Group>, index: usize)
    ensures front { groups.new.items ≡ take (length groups.new.items) groups.old.items }
    ensures fewer { length groups.new.items ≤ length groups.old.items }
    ensures dropped { (t : ℕ) (d : Group) → length groups.new.items ≤ t
        → t < length groups.old.items
        → index < (slice_index_or groups.old.items t d).members_from }
    ensures kept { (d : Group) → 0 < length groups.new.items
        → (slice_index_or groups.old.items (length groups.new.items - 1) d).members_from ≤ index }
{
    while let Some(group) = groups.last() {
        if group.members_from <= index {
            break;
        }
        groups.pop();
    }
}

// The rank of functions that are a unit, where the other functions that they call are closed.
fn rank_of(calls: &[Vec<u32>], stages: &[Stage], members: &[u32]) -> u32
    requires inside { (a : ℕ) → a < length members.now
        → slice_index members.now a < length calls.now }
    requires known { (a k : ℕ) → a < length members.now
        → Calls (call_lists calls.now) (slice_index members.now a) k → k < length stages.now }
    requires small { (a k : ℕ) → a < length members.now
        → Calls (call_lists calls.now) (slice_index members.now a) k
        → above (stage_of stages.now k) < 2 ^ 32 }
    ensures above { (a k : ℕ) → a < length members.now
        → Calls (call_lists calls.now) (slice_index members.now a) k
        → above (stage_of stages.now k) ≤ result }
    ensures tight { (result ≡ 0)
        ⊎ ((a : ℕ) × (k : ℕ) × (a < length members.now)
        × Calls (call_lists calls.now) (slice_index members.now a) k
        × (result ≡ above (stage_of stages.now k))) }
{
    let mut rank = 0;
    for member in members {
        rank = rank_above(stages, calls[*member as usize].as_slice(), rank);
    }
    rank
}

impl Search {
    ghost use Rattle.call_order.specs.Search.{IsSearchOf, ClosesFrom, StayEntered, new_count};
    ghost use Rattle.call_order.specs.Search.{work_left};

    /// A search that has entered none of this many functions.
    pub(crate) fn new(alloc: Global, count: usize) -> Result<Self, AllocError>
        ensures new { IfOk result (λ search. (j : ℕ) → stage_of search.stages.items j ≡ Stage.New) }
        ensures idle { IfOk result (λ search. vec_len search.groups ≡ 0) }
        ensures search { (calls : List (List ℕ)) → length calls ≡ count
            → IfOk result (IsSearchOf calls) }
    {
        Ok(Search {
            stages: vec![in alloc; Stage::New; count]?,
            members: Vec::new(alloc),
            pending: Vec::new(alloc),
            groups: Vec::new(alloc),
        })
    }

    // Enters a function, as a group of its own.
    fn enter(&mut self, calls: &[Vec<u32>], function: u32) -> Result<(), AllocError>
        requires inside { function < length calls.now }
        requires search { IsSearchOf (call_lists calls.now) self.old }
        requires new { stage_of self.old.stages.items function ≡ Stage.New }
        requires reached { (a : ℕ) → a < length self.old.members.items
            → Reaches (call_lists calls.now) (slice_index self.old.members.items a) function }
        ensures search { OnOk result (IsSearchOf (call_lists calls.now) self.new) }
        ensures entered { OnOk result (stage_of self.new.stages.items function ≢ Stage.New) }
        ensures kept { OnOk result (StayEntered self.old.stages.items self.new.stages.items) }
        ensures fewer { OnOk result (new_count self.new + 1 ≡ new_count self.old) }
        ensures work { OnOk result
            (work_left self.new
            ≤ work_left self.old + length
            (slice_index_or (call_lists calls.now) function (List.[])) + 1) }
    {
        self.groups.push(Group {
            members_from: self.members.len(),
            pending_from: self.pending.len(),
        })?;
        self.stages[function as usize] = Stage::Held(self.members.len());
        self.members.push(function)?;
        self.pending
            .extend_from_slice(calls[function as usize].as_slice())
    }

    // Closes the functions of the last group, which are a unit.
    fn close(&mut self, calls: &[Vec<u32>], from: usize)
        requires few { length calls.now < 2 ^ 32 }
        requires known { AllKnown (call_lists calls.now) }
        requires search { IsSearchOf (call_lists calls.now) self.old }
        requires inside { from < length self.old.members.items }
        ensures closed { ClosesFrom
            (call_lists calls.now) self.old.stages.items self.old.members.items from
            self.new.stages.items self.new.members.items }
        ensures pending { self.new.pending.items ≡ self.old.pending.items }
        ensures groups { self.new.groups.items ≡ self.old.groups.items }
    {
        let members = &self.members[from..];
        let unit = least(members);
        let rank = rank_of(calls, &self.stages, members);
        put_all(&mut self.stages, members, Stage::Closed(unit, rank));
        self.members.truncate(from);
    }

    // Follows one call of the last group, or closes the group where it has none. Gives the function
    // that is called where that is yet to be entered.
    fn follow(&mut self, calls: &[Vec<u32>]) -> Option<u32>
        requires few { length calls.now < 2 ^ 32 }
        requires known { AllKnown (call_lists calls.now) }
        requires search { IsSearchOf (call_lists calls.now) self.old }
        requires busy { 0 < length self.old.groups.items }
        ensures search { IsSearchOf (call_lists calls.now) self.new }
        ensures kept { StayEntered self.old.stages.items self.new.stages.items }
        ensures fewer { new_count self.new ≡ new_count self.old }
        ensures work { IfNone result (work_left self.new < work_left self.old) }
        ensures same { IfSome result (λ _. work_left self.new ≡ work_left self.old) }
        ensures inside { IfSome result (λ function. function < length calls.now) }
        ensures new { IfSome result
            (λ function. stage_of self.new.stages.items function ≡ Stage.New) }
        ensures reached { IfSome result (λ function. (a : ℕ) → a < length self.new.members.items
            → Reaches (call_lists calls.now) (slice_index self.new.members.items a) function) }
    {
        let group = self.groups[self.groups.len() - 1];
        if self.pending.len() == group.pending_from {
            self.close(calls, group.members_from);
            self.groups.pop();
            return None;
        }
        let function = self.pending[self.pending.len() - 1];
        match self.stages[function as usize] {
            Stage::New => return Some(function),
            Stage::Held(index) => join(&mut self.groups, index),
            Stage::Closed(_, _) => (),
        }
        self.pending.pop();
        None
    }

    /// Enters a function and all that it reaches, and closes them.
    pub(crate) fn explore(&mut self, calls: &[Vec<u32>], root: u32) -> Result<(), AllocError>
        requires few { length calls.now < 2 ^ 32 }
        requires known { AllKnown (call_lists calls.now) }
        requires inside { root < length calls.now }
        requires search { IsSearchOf (call_lists calls.now) self.old }
        requires idle { length self.old.groups.items ≡ 0 }
        requires new { stage_of self.old.stages.items root ≡ Stage.New }
        ensures search { OnOk result (IsSearchOf (call_lists calls.now) self.new) }
        ensures idle { OnOk result (length self.new.groups.items ≡ 0) }
        ensures entered { OnOk result (stage_of self.new.stages.items root ≢ Stage.New) }
        ensures kept { OnOk result (StayEntered self.old.stages.items self.new.stages.items) }
    {
        self.enter(calls, root)?;
        while !self.groups.is_empty() {
            if let Some(function) = self.follow(calls) {
                self.enter(calls, function)?;
            }
        }
        Ok(())
    }
}
