//! What a seat knows, and the rule that the lock keeps.

use atomic_table::TableRule;
use board_core::{Board, Event, Work};
use std::collections::LinkedList;
use std::snapshot::Snapshot;

/// What a seat knows. No value of it is made.
pub struct View<W: Work> {
    /// The board without its events; none once another seat has taken this one in.
    pub program: Option<Board<W>>,
    pub number: u64,
    /// The history as the seat last saw it.
    pub front: LinkedList<Event>,
    /// The front of a seat that is being taken in.
    pub other_front: LinkedList<Event>,
    /// The events by this seat's number.
    pub own: LinkedList<Event>,
    /// Each number that was taken in, with the events by it.
    pub taken: LinkedList<(u64, LinkedList<Event>)>,
    pub ticket: Option<u64>,
    pub has_turn: bool,
    /// How many seats were split off.
    pub splits: u64,
}

/// A seat of a shared board, with no bytes. Contracts see it by `sitting`.
pub type Seat<W> = atomic_table::Seat<Option<Board<W>>, View<W>>;

/// The rule: there is one history, which all seats see beginnings of.
pub struct OneHistory;

impl<W: Work> TableRule<Option<Board<W>>, View<W>, Snapshot<Board<W>>> for OneHistory {
    ghost use Rattle.board_lock.specs.Rule.{IsOneHistory};
    ghost use Rattle.board_lock.specs.Seats.{first_view};

    ghost holds = { λ key. IsOneHistory W.made key.value };

    ghost first = { λ key. first_view key.value };
}
