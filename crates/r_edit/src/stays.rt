//! Tests that say which of the variables of a node stay.

ghost use Rattle.std.specs.Prelude.{◌≡◌, IfOk};
ghost use Rattle.r_edit.specs.InPlace.{all_stay};

use base::NoMemory;
use std::alloc::Global;

/// Which of the variables of a node stay.
pub trait Stays {
    ghost use Rattle.std.specs.Prelude.{List, Bool, length, slice_get, ◌≡◌, ◌<◌};
    ghost use Rattle.std.specs.declared.option.Option.TheVariants.{Some};

    ghost stays: { Self → List Bool };

    fn count(&self) -> usize
        ensures { result ≡ length (stays self.now) };

    fn keeps(&self, index: usize) -> bool
        requires { index < length (stays self.now) }
        ensures { slice_get (stays self.now) index ≡ Some result };
}

/// Whether all of them stay. It takes the time of the test for each of them.
pub fn all_stay<S: Stays>(variables: &S) -> bool
    ensures { result ≡ all_stay (S.stays variables.now) }
{
    for i in 0..variables.count() {
        if !variables.keeps(i) {
            return false;
        }
    }
    true
}

/// Which of them stay, as a list. It takes the time of the test for each of them.
pub fn list_of<S: Stays>(alloc: Global, variables: &S) -> Result<Vec<bool>, NoMemory>
    ensures { IfOk result (λ list. list.items ≡ S.stays variables.now) }
{
    let mut list = Vec::new(alloc);
    for i in 0..variables.count() {
        list.push(variables.keeps(i))?;
    }
    Ok(list)
}

/// Whether all of these tests are true.
pub fn are_all_true(tests: &[bool]) -> bool
    ensures { result ≡ all_stay tests.now }
{
    for test in tests {
        if !*test {
            return false;
        }
    }
    true
}
