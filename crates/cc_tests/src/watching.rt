//! A watcher that may refuse rows, and its text.
ghost use Rattle.std.specs.Prelude.{◌≡◌};

use crate::row::split;
use base::NoMemory;
use cc_watch::{LogKeeper, Row, Watcher};
use std::alloc::Global;

/// A keeper of the log with a name of its own, which takes so many rows and refuses the next one.
/// It may refuse its text too.
#[derive(Drop)]
pub struct Watching {
    label: String,
    room: u32,
    has_text: bool,
    log: LogKeeper,
}

impl Watcher for Watching {
    ghost use Rattle.std.specs.String.{string_bytes};
    ghost use Rattle.cc_watch.specs.Texts.{log_text};

    ghost named = { λ watching. string_bytes watching.label };

    ghost stands_for = { λ watching rows. watching.log ≡ rows };

    ghost text_of = { λ _ rows. log_text rows };

    fn name(&self) -> &str {
        self.label.as_str()
    }

    fn tell(&mut self, row: &Row) -> Result<(), NoMemory> {
        if self.room == 0 {
            return Err(NoMemory);
        }
        self.log.tell(row)?;
        self.room -= 1;
        Ok(())
    }

    fn text(&self, out: &mut Vec<u8>) -> Result<(), NoMemory> {
        if self.has_text {
            self.log.text(out)
        } else {
            Err(NoMemory)
        }
    }
}

/// The watcher that the words `NAME ROOM` or `NAME ROOM silent` ask for, the second of which
/// refuses its text.
pub fn watching_of(alloc: Global, words: &str) -> Result<Watching, NoMemory> {
    let (name, rest) = split(words);
    let (room, text) = split(rest);
    Ok(Watching {
        label: String::from_str(alloc, name)?,
        room: room.parse::<u32>().unwrap_or(0),
        has_text: text.is_empty(),
        log: LogKeeper::new(alloc),
    })
}
