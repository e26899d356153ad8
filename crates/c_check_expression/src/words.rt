//! The words of the `case` labels of a `switch`, as a list and as a set.

ghost use Rattle.std.specs.Prelude.{◌≡◌, ◌==◌, ◌∷◌, ◌++◌, [], IfOk};
ghost use Rattle.std.specs.List.{list_any};

use base::NoMemory;
use indexmap::IndexSet;
use std::alloc::Global;
use std::marker::Model;

/// The words of all `case` labels of a `switch` so far, also where one stands twice, and a set of
/// them. Contracts see the list.
#[derive(Drop)]
pub struct Words {
    list: Vec<u32>,
    set: IndexSet<u32>,
}

impl Model for Words {
    ghost use Rattle.std.specs.Prelude.{ℕ, List};
    ghost use Rattle.c_check_expression.specs.Labels.{HaveSame};

    ghost Value = { List ℕ };

    ghost view = { λ w. w.list.items };

    ghost invariant = { λ w. HaveSame w.set.keys w.list.items };
}

impl Words {
    /// No words.
    pub fn new(alloc: Global) -> Words
        ensures { result ≡ [] }
    {
        Words {
            list: Vec::new(alloc),
            set: IndexSet::new(alloc),
        }
    }

    /// Whether a word is among them.
    pub fn contains(&self, word: u32) -> bool
        ensures { result ≡ list_any (λ v. v == word) self.now }
    {
        self.set.contains(&word)
    }

    /// These words and one more.
    pub fn with(self, word: u32) -> Result<Words, NoMemory>
        ensures { IfOk result (λ r. r ≡ self ++ word ∷ []) }
    {
        let Words { mut list, mut set } = self;
        list.push(word)?;
        set.insert(word)?;
        Ok(Words { list, set })
    }
}
