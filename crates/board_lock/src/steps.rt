//! What the steps of the lock tell, as types for the proofs alone.

ghost use Rattle.board_lock.specs.Steps.{draws, looks, notes, leaves, compares};

use crate::view::View;
use atomic_table::{Join, Play, Split};
use board_core::{Board, Event, Work};
use std::marker::{Brand, PhantomData};

/// Names an event. Each call picks it.
pub(crate) trait Noted {
    ghost use Rattle.board_core.specs.declared.event.Event.{Event};

    ghost event: { Event };
}

impl Noted for Brand {
    ghost use Rattle.board_core.specs.declared.event.Event.TheVariants.{Stop};

    ghost event = { Stop 0 };
}

pub(crate) struct Draw;

impl<W: Work> Play<Option<Board<W>>, View<W>> for Draw {
    ghost then = { draws };
}

pub(crate) struct Look;

impl<W: Work> Play<Option<Board<W>>, View<W>> for Look {
    ghost then = { looks W.made };
}

pub(crate) struct Note<E> {
    event: PhantomData<E>,
}

impl<W: Work, E: Noted> Play<Option<Board<W>>, View<W>> for Note<E> {
    ghost then = { notes E.event };
}

pub(crate) struct Leave;

impl<W: Work> Play<Option<Board<W>>, View<W>> for Leave {
    ghost then = { leaves };
}

pub(crate) struct Compare;

impl<W: Work> Play<Option<Board<W>>, View<W>> for Compare {
    ghost then = { compares };
}

pub(crate) struct NewNumber;

impl<W: Work> Split<View<W>> for NewNumber {
    ghost use Rattle.board_lock.specs.Steps.{splitter, newcomer};

    ghost left = { splitter };

    ghost right = { newcomer };
}

pub(crate) struct TakeIn;

impl<W: Work> Join<View<W>> for TakeIn {
    ghost use Rattle.board_lock.specs.Steps.{taking_in};
    ghost use Rattle.board_lock.specs.Rule.{spent};

    ghost both = { taking_in };

    ghost spent = { spent };
}
