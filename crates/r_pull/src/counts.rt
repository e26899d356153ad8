//! The counts of a lambda while it is walked.

ghost use Rattle.std.specs.Prelude.{◌≡◌, ◌+◌, ◌-◌, OnOk};

use crate::Moved;
use base::NoMemory;

/// The values of the lambda as it is now, and the number of its next node.
#[derive(Drop)]
pub struct Counts {
    pub values: u64,
    pub next: u32,
}

impl Counts {
    /// A node moved so. `NoMemory` where one of the counts would pass its type.
    pub fn step(&mut self, moved: &Moved) -> Result<(), NoMemory>
        ensures values { OnOk result
            (self.new.values ≡ self.old.values + moved.now.added - moved.now.gone) }
        ensures next { OnOk result (self.new.next ≡ self.old.next + moved.now.copies) }
    {
        let Some(sum) = u128::from(self.values).checked_add(moved.added) else {
            return Err(NoMemory);
        };
        let values = sum.saturating_sub(moved.gone);
        if values > u128::from(u64::MAX) {
            return Err(NoMemory);
        }
        let Some(next) = self.next.checked_add(moved.copies) else {
            return Err(NoMemory);
        };
        self.values = values as u64;
        self.next = next;
        Ok(())
    }
}
