//! The watcher that keeps all rows.

ghost use Rattle.std.specs.Prelude.{◌≡◌, IfOk};

use crate::text::push_log;
use crate::{Row, Watcher};
use base::NoMemory;
use r_rule::{Step, StepList};
use std::alloc::Global;
use std::marker::Model;

/// A watcher that keeps the rows, which contracts see as their list. Its name is `log`, and its
/// text has a line for each function and then one for each step that was applied to it.
#[derive(Debug, Drop)]
pub struct LogKeeper {
    rows: Vec<Row>,
}

impl Model for LogKeeper {
    ghost use Rattle.std.specs.Prelude.{List};
    ghost use Rattle.cc_watch.specs.Rows.{PlainRow};

    ghost Value = { List PlainRow };

    ghost view = { λ keeper. keeper.rows.items };
}

impl LogKeeper {
    ghost use Rattle.std.specs.Prelude.{[]};

    /// A keeper without rows. It takes no memory.
    pub fn new(alloc: Global) -> LogKeeper
        ensures { result ≡ [] }
    {
        LogKeeper {
            rows: Vec::new(alloc),
        }
    }

    fn allocator(&self) -> Global {
        *self.rows.allocator()
    }
}

fn copy_of(alloc: Global, row: &Row) -> Result<Row, NoMemory>
    ensures { IfOk result (λ copy. copy ≡ row.now) }
{
    let name = row.name.clone()?;
    let steps = Vec::from_slice(alloc, row.steps.as_slice())?;
    Ok(Row {
        name,
        before: row.before,
        after: row.after,
        steps: StepList::from(steps),
    })
}

impl Watcher for LogKeeper {
    ghost use Rattle.std.specs.Prelude.{codes};
    ghost use Rattle.cc_watch.specs.Texts.{log_text};

    ghost named = { λ _. codes "log" };

    ghost stands_for = { λ keeper rows. keeper ≡ rows };

    ghost text_of = { λ _ rows. log_text rows };

    fn name(&self) -> &str {
        "log"
    }

    fn tell(&mut self, row: &Row) -> Result<(), NoMemory> {
        let copy = copy_of(self.allocator(), row)?;
        Ok(self.rows.push(copy)?)
    }

    fn text(&self, out: &mut Vec<u8>) -> Result<(), NoMemory> {
        let length = out.len();
        let pushed = push_log(out, &self.rows);
        if pushed.is_err() {
            out.truncate(length);
        }
        pushed
    }
}
