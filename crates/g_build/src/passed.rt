//! The limits of a program's values, which are decided before a node is made.

ghost use Rattle.std.specs.Prelude.{◌≡◌};
ghost use Rattle.std.specs.List.{sum_by};
ghost use Rattle.g_graph.specs.Count.{saturated};
ghost use Rattle.g_build_def.specs.Functions.{function_values};
ghost use Rattle.g_build.specs.Passed.{limit_passed, first_large, first_beyond};

use base::{MOST_BUILT_VALUES, MOST_LAMBDA_VALUES};
use c_typed::TFunction;
use g_build_count::count;

/// A limit that a program passes: the offset of the name of the function that passes it, its number
/// (5, the values of one lambda, or 6, those of all lambdas), and how many values there are,
/// 2^64 - 1 where there are more.
#[derive(Clone, Copy, PartialEq, Eq, Debug)]
pub struct Passed {
    pub at: u32,
    pub which: u8,
    pub count: u64,
}

// The first function whose lambda has too many values.
fn first_large(functions: &[TFunction]) -> Option<Passed>
    ensures { result ≡ first_large functions.now }
{
    for f in functions {
        let values = count(f);
        if values > u64::from(MOST_LAMBDA_VALUES) {
            return Some(Passed {
                at: f.at,
                which: 5,
                count: values,
            });
        }
    }
    None
}

// The values of all lambdas.
fn total(functions: &[TFunction]) -> u64
    ensures { result ≡ saturated (sum_by function_values functions.now) }
{
    let mut total: u64 = 0;
    for f in functions {
        total = total.saturating_add(count(f));
    }
    total
}

// The place of the function with which the lambdas have too many values.
fn first_beyond(functions: &[TFunction]) -> u32
    ensures { result ≡ first_beyond 0 functions.now }
{
    let mut total: u64 = 0;
    for f in functions {
        total = total.saturating_add(count(f));
        if total > MOST_BUILT_VALUES {
            return f.at;
        }
    }
    0
}

/// The first limit that the values of these functions pass: those of one lambda, and then those of
/// all. It takes no memory.
pub fn limit_passed(functions: &[TFunction]) -> Option<Passed>
    ensures { result ≡ limit_passed functions.now }
{
    if let Some(passed) = first_large(functions) {
        return Some(passed);
    }
    let all = total(functions);
    if all > MOST_BUILT_VALUES {
        return Some(Passed {
            at: first_beyond(functions),
            which: 6,
            count: all,
        });
    }
    None
}
