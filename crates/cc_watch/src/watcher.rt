//! The interface of watchers.

use crate::Row;
use base::NoMemory;

/// A value that learns what a recipe did to each function, a row at a time, and gives a text of it.
/// An implementation says when a value *stands for* a list of rows, and which text it gives of such
/// a list.
pub trait Watcher: Drop {
    ghost use Rattle.std.specs.Prelude.{◌≡◌, ℕ, List, ◌++◌, ◌∷◌, [], OnErr, OnOk};
    ghost use Rattle.cc_watch.specs.Rows.{PlainRow};

    ghost named: { Self → List ℕ };

    ghost stands_for: { Self → List PlainRow → Type 0 };

    ghost text_of: { Self → List PlainRow → List ℕ };

    /// The name by which a user asks for the text.
    fn name(&self) -> &str
        ensures { result.now ≡ named self.now };

    /// Takes in a row. On Ok, whatever list of rows the value stood for, it stands for that list
    /// and the row after it, and its name and its texts are the same. On `NoMemory` it is as it
    /// was.
    fn tell(&mut self, row: &Row) -> Result<(), NoMemory>
        ensures rows { OnOk result ((rows : List PlainRow) → stands_for self.old rows →
            stands_for self.new (rows ++ row.now ∷ [])) }
        ensures name { named self.new ≡ named self.old }
        ensures text { (rows : List PlainRow) → text_of self.new rows ≡ text_of self.old rows }
        ensures err { OnErr result (self.new ≡ self.old) };

    /// Appends the text of the rows that the value stands for. On `NoMemory` `out` holds what it
    /// held.
    fn text(&self, out: &mut Vec<u8>) -> Result<(), NoMemory>
        ensures text { OnOk result ((rows : List PlainRow) → stands_for self.now rows →
            out.new.items ≡ out.old.items ++ text_of self.now rows) }
        ensures err { OnErr result (out.new.items ≡ out.old.items) };
}
