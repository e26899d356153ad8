//! The shared board.

ghost use Rattle.std.specs.Prelude.{◌≡◌, ◌≢◌, ◌+◌, ◌<◌, ◌++◌, Some, None, [], ◌∷◌, true, false, length, IfOk};
ghost use Rattle.board_core.specs.declared.event.Event.{Event};
ghost use Rattle.board_core.specs.Board.{IsLegal};
ghost use Rattle.board_core.specs.History.{History, program_of};
ghost use Rattle.board_core.specs.OwnEvents.{worker_of};
ghost use Rattle.board_lock.specs.Rule.{opening};
ghost use Rattle.board_lock.specs.Seats.{IsSeatOf, IsBoardOf, IsTaken, TakesIn, Closes, sitting, first_sitting, with_turn, with_noted, without_turn, with_split, split_from};
ghost use Rattle.board_lock.specs.Steps.{Enters, Compares, waiting, noted};

use crate::steps::{Compare, Draw, Leave, Look, NewNumber, Note, Noted, TakeIn};
use crate::view::{OneHistory, Seat, View};
use atomic_table::{Refused, Table, TableRule};
use base::NoMemory;
use board_core::{Board, Event, Work};
use std::alloc::Global;
use std::marker::Brand;
use std::snapshot::Snapshot;
use std::sync::Wait;
use std::{hint, thread};

/// A table under a rule, with three words and a slot.
#[derive(Drop)]
pub struct Lock<S, V, K, P: TableRule<S, V, K>> {
    table: Table<S, V, K, P, Global>,
    ghost sized: { (table.shared.table_id.words ≡ 3) × (table.shared.table_id.slots ≡ 1) },
}

/// A board that several seats drive, one at a time.
pub type Shared<W> = Lock<Option<Board<W>>, View<W>, Snapshot<Board<W>>, OneHistory>;

// The words of the table: the next ticket, the one that is served, and the length of the history.
const NEXT: usize = 0;

const SERVED: usize = 1;

const LENGTH: usize = 2;

// How many looks a seat spins and then yields between, before it sleeps.
const SPINS: u32 = 64;

const YIELDS: u32 = 64;

// A sleep compares these bits of a word.
const LOW_BITS: u64 = 0xffff_ffff;

impl<W: Work> Shared<W> {
    ghost use Rattle.board_lock.specs.Locks.{lock_of};

    /// A shared board, and its first seat, which has the number 0. The board has no event yet.
    pub fn open(alloc: Global, board: Board<W>) -> Result<(Shared<W>, Seat<W>), NoMemory>
        requires fresh { board.events ≡ [] }
        requires some_worker { 0 < board.workers }
        ensures seat { IfOk result (λ made. IsSeatOf (lock_of made.0) made.1) }
        ensures first { IfOk result (λ made. sitting made.1 ≡ first_sitting board) }
    {
        let workers = board.workers();
        let about = Snapshot::of(&board);
        let mut slots = Vec::with_capacity(alloc, 1)?;
        slots.push_reserved(Some(board));
        Shared::lay(alloc, slots, &about, workers)
    }

    // The table with a board of so many workers in its slot.
    fn lay(
        alloc: Global,
        slots: Vec<Option<Board<W>>>,
        about: &Snapshot<Board<W>>,
        _workers: u32,
    ) -> Result<(Shared<W>, Seat<W>), NoMemory>
        requires slots { slots.items ≡ Some about.now.value ∷ [] }
        requires fresh { about.now.value.events ≡ [] }
        requires some_worker { 0 < about.now.value.workers }
        requires workers { _workers ≡ about.now.value.workers }
        ensures seat { IfOk result (λ made. IsSeatOf (lock_of made.0) made.1) }
        ensures first { IfOk result (λ made. sitting made.1 ≡ first_sitting about.now.value) }
    {
        match Table::new(alloc, &[0, 0, 0], slots, about) {
            Ok((table, seat)) => Ok((Lock { table }, seat)),
            Err(Refused { slots: _ }) => Err(NoMemory),
        }
    }

    /// Waits for the turn of the seat, and gives it the board. Others wait meanwhile, until it is
    /// given back by `give`.
    pub fn take<H: Wait>(&self, rt: &H, seat: &mut Seat<W>) -> Board<W>
        requires seat { IsSeatOf (lock_of self.now) seat.old }
        requires rests { (sitting seat.old).has_turn ≡ false }
        ensures seat { IsSeatOf (lock_of self.now) seat.new }
        ensures turn { sitting seat.new ≡ with_turn result.events (sitting seat.old) }
        ensures board { IsTaken W.made (sitting seat.old) result }
    {
        let ticket = self.draw(seat);
        self.wait_turn(rt, seat, ticket);
        self.table.shared.exchange(seat, 0, None).unwrap()
    }

    fn draw(&self, seat: &mut Seat<W>) -> u64
        requires seat { IsSeatOf (lock_of self.now) seat.old }
        requires rests { (sitting seat.old).has_turn ≡ false }
        ensures lock { seat.new.table_id ≡ seat.old.table_id }
        ensures ticket { seat.new.me ≡ (waiting result seat.old.me.0, []) }
    {
        self.table.shared.fetch_add::<Draw>(seat, NEXT, 1)
    }

    fn look(&self, seat: &mut Seat<W>) -> u64
        requires lock { seat.old.table_id ≡ lock_of self.now }
        requires named { (board : History W) × (seat.old.me.0.program ≡ Some (opening board)) }
        requires rests { seat.old.me.0.has_turn ≡ false }
        ensures lock { seat.new.table_id ≡ seat.old.table_id }
        ensures turn { seat.old.me.0.ticket ≡ Some result
            → Enters W.made seat.old.me seat.new.me }
        ensures same { seat.old.me.0.ticket ≢ Some result → seat.new.me ≡ seat.old.me }
    {
        self.table.shared.load::<Look>(seat, SERVED)
    }

    // Looks until the ticket is served.
    fn wait_turn<H: Wait>(&self, rt: &H, seat: &mut Seat<W>, ticket: u64)
        requires lock { seat.old.table_id ≡ lock_of self.now }
        requires named { (board : History W) × (seat.old.me.0.program ≡ Some (opening board)) }
        requires rests { seat.old.me.0.has_turn ≡ false }
        requires ticket { seat.old.me.0.ticket ≡ Some ticket }
        ensures lock { seat.new.table_id ≡ seat.old.table_id }
        ensures turn { Enters W.made seat.old.me seat.new.me }
    {
        let mut round = 0u32;
        for _ in rt.forever() {
            let served = self.look(seat);
            if served == ticket {
                return;
            }
            self.pause(rt, round, served);
            round = round.saturating_add(1);
        }
        unreachable!()
    }

    // Between two looks: some spins, then some yields, then sleeps until another ticket is served.
    fn pause<H: Wait>(&self, rt: &H, round: u32, served: u64) {
        if round < SPINS {
            hint::spin_loop();
        } else if round < SPINS + YIELDS {
            thread::yield_now();
        } else {
            self.table
                .shared
                .park(rt, SERVED, (served & LOW_BITS) as u32);
        }
    }

    /// Tells the lock of the one event that the seat has added to the board that it took.
    pub fn note(&self, seat: &mut Seat<W>, board: &Board<W>)
        requires seat { IsSeatOf (lock_of self.now) seat.old }
        requires turn { (sitting seat.old).has_turn ≡ true }
        requires program { (sitting seat.old).program ≡ Some (opening board.now) }
        requires added { (event : Event) × (worker_of event ≡ (sitting seat.old).number)
            × (board.now.events ≡ (sitting seat.old).front ++ event ∷ []) }
        ensures seat { IsSeatOf (lock_of self.now) seat.new }
        ensures noted { (event : Event)
            × (board.now.events ≡ (sitting seat.old).front ++ event ∷ [])
            × (sitting seat.new ≡ with_noted event (sitting seat.old)) }
    {
        let Some(event) = board.events().last() else {
            unreachable!()
        };
        self.note_event::<Brand>(seat, board, *event);
    }

    fn note_event<E: Noted>(&self, seat: &mut Seat<W>, board: &Board<W>, event: Event)
        requires seat { IsSeatOf (lock_of self.now) seat.old }
        requires turn { (sitting seat.old).has_turn ≡ true }
        requires program { (sitting seat.old).program ≡ Some (opening board.now) }
        requires event { event ≡ E.event }
        requires by { worker_of event ≡ (sitting seat.old).number }
        requires added { board.now.events ≡ (sitting seat.old).front ++ event ∷ [] }
        requires legal { IsLegal (program_of W.made board.now) board.now.events }
        requires room { length board.now.events < 18446744073709551616 }
        ensures seat { IsSeatOf (lock_of self.now) seat.new }
        ensures noted { seat.new.me ≡ (noted event seat.old.me.0, seat.old.me.1) }
    {
        let _ = board;
        let _ = event;
        self.table.shared.fetch_add::<Note<E>>(seat, LENGTH, 1);
    }

    /// Gives the board back, and the turn to the next that waits. Each event on the board has been
    /// noted.
    pub fn give(&self, seat: &mut Seat<W>, board: Board<W>)
        requires seat { IsSeatOf (lock_of self.now) seat.old }
        requires turn { (sitting seat.old).has_turn ≡ true }
        requires board { IsBoardOf seat.old board }
        ensures seat { IsSeatOf (lock_of self.now) seat.new }
        ensures rests { sitting seat.new ≡ without_turn (sitting seat.old) }
    {
        drop(self.table.shared.exchange(seat, 0, Some(board)));
        self.table.shared.fetch_add::<Leave>(seat, SERVED, 1);
        self.table.shared.wake_all(SERVED);
    }

    /// A seat more, with the next number, for another thread. The first seat alone is split, and
    /// there are at most as many seats as the board has workers.
    pub fn split(&self, seat: &mut Seat<W>) -> Seat<W>
        requires seat { IsSeatOf (lock_of self.now) seat.old }
        requires rests { (sitting seat.old).has_turn ≡ false }
        requires first { (sitting seat.old).number ≡ 0 }
        requires few { (board : History W) × ((sitting seat.old).program ≡ Some (opening board))
            × ((sitting seat.old).splits + 1 < board.workers) }
        ensures seat { IsSeatOf (lock_of self.now) seat.new }
        ensures new { IsSeatOf (lock_of self.now) result }
        ensures splits { sitting seat.new ≡ with_split (sitting seat.old) }
        ensures is_new { sitting result ≡ split_from (sitting seat.old) }
    {
        self.table.shared.split_seat::<NewNumber>(seat)
    }

    /// Takes in another seat: the first seat then has the events of that one too. The longer of the
    /// two fronts is kept.
    pub fn join(&self, seat: &mut Seat<W>, other: Seat<W>)
        requires seat { IsSeatOf (lock_of self.now) seat.old }
        requires other { IsSeatOf (lock_of self.now) other }
        requires rests { (sitting seat.old).has_turn ≡ false }
        requires other_rests { (sitting other).has_turn ≡ false }
        requires first { (sitting seat.old).number ≡ 0 }
        ensures seat { IsSeatOf (lock_of self.now) seat.new }
        ensures takes_in { TakesIn (sitting seat.old) (sitting other) (sitting seat.new) }
    {
        self.table.shared.join_seat::<TakeIn>(seat, other);
        self.compare(seat);
    }

    // Keeps the longer of the two fronts that the seat has.
    fn compare(&self, seat: &mut Seat<W>)
        requires lock { seat.old.table_id ≡ lock_of self.now }
        requires named { (board : History W) × (seat.old.me.0.program ≡ Some (opening board)) }
        requires rests { seat.old.me.0.has_turn ≡ false }
        ensures lock { seat.new.table_id ≡ seat.old.table_id }
        ensures one { Compares seat.old.me seat.new.me }
    {
        self.table.shared.load::<Compare>(seat, NEXT);
    }

    /// The board at the end. The first seat has taken in all others.
    pub fn close(self, seat: Seat<W>) -> Board<W>
        requires seat { IsSeatOf (lock_of self) seat }
        requires rests { (sitting seat).has_turn ≡ false }
        requires first { (sitting seat).number ≡ 0 }
        requires all_in { (sitting seat).splits ≡ length (sitting seat).taken }
        ensures { Closes W.made (sitting seat) result }
    {
        let Lock { table } = self;
        let mut closed = table.close_with(seat);
        let board = closed.take(0);
        closed.free();
        board.unwrap()
    }

    /// For a worker that has to wait on a board with so many events: sleeps until `wake_one`, and
    /// not at all where there are more. It may return at any time, and changes nothing.
    pub fn await_event<H: Wait>(&self, rt: &H, seen: u32) {
        self.table.shared.park(rt, LENGTH, seen);
    }

    /// Wakes one of those who sleep by `await_event`, if there is one. It changes nothing.
    pub fn wake_one(&self) {
        self.table.shared.wake_one(LENGTH);
    }
}
