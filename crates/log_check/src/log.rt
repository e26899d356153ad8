//! Logs, and what each says of a function.

use base::{Name, NoMemory};
use r_rule::Step;
use std::alloc::Global;
use std::marker::Model;

/// What a log says of one function: its name, the number of its line, how many values its graph has
/// before and after, and the steps between, in order. Contracts see it as a plain record.
#[derive(Debug, Drop)]
pub struct LogPart {
    pub name: Name,
    pub line: u32,
    pub before: u32,
    pub after: u32,
    pub steps: Vec<Step>,
}

impl Model for LogPart {
    ghost use Rattle.log_check.specs.Log.{PlainPart, coded_part};

    ghost Value = { PlainPart };

    ghost coded = { coded_part };

    ghost view = { λ p. record {
      name = p.name;
      line = p.line;
      before = p.before;
      after = p.after;
      steps = p.steps.items;
    } };
}

/// A log: what it says of each function, in order. Contracts see the list.
#[derive(Debug, Drop)]
pub struct Log {
    pub functions: Vec<LogPart>,
}

impl Model for Log {
    ghost use Rattle.std.specs.Prelude.{List};
    ghost use Rattle.log_check.specs.Log.{PlainPart};

    ghost Value = { List PlainPart };

    ghost view = { λ l. l.functions.items };
}

impl Log {
    ghost use Rattle.std.specs.Prelude.{◌≡◌, ◌++◌, ◌∷◌, [], OnOk};

    /// A log without functions. It takes no memory.
    pub fn new(alloc: Global) -> Log
        ensures { result ≡ [] }
    {
        Log {
            functions: Vec::new(alloc),
        }
    }

    /// Appends what it says of one more function.
    pub fn push(&mut self, part: LogPart) -> Result<(), NoMemory>
        ensures { OnOk result (self.new ≡ self.old ++ part ∷ []) }
    {
        Ok(self.functions.push(part)?)
    }
}
