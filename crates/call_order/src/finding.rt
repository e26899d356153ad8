//! Finding the units and ranks, which is the call of the crate.

ghost use Rattle.std.specs.Prelude.{◌≡◌, ◌<◌, ◌^◌, length, map, IfOk};
ghost use Rattle.call_order.specs.Units.{call_lists, AllKnown, IsUnits};
ghost use Rattle.call_order.specs.Search.{rank_in, unit_in};

use crate::answer::Units;
use crate::search::Search;
use crate::stages::{Stage, rank_in, unit_in};
use base::NoMemory;
use std::alloc::{AllocError, Global};

/// The units and ranks of functions; `calls` has for each the list of the functions that it calls,
/// by index. There are fewer than 2^32 functions, and each that is called is one of them
/// (`all_known`). `NoMemory` only where the allocator has none.
pub fn units(alloc: Global, calls: &[Vec<u32>]) -> Result<Units, NoMemory>
    requires few { length calls.now < 2 ^ 32 }
    requires known { AllKnown (call_lists calls.now) }
    ensures { IfOk result
        (λ found. IsUnits (call_lists calls.now) found.unit.items found.rank.items) }
{
    let mut search = Search::new(alloc, calls.len())?;
    for function in 0..calls.len() {
        if let Stage::New = search.stages[function] {
            search.explore(calls, function as u32)?;
        }
    }
    Ok(collected(alloc, search.stages.as_slice())?)
}

// The units and ranks by the stages.
fn collected(alloc: Global, stages: &[Stage]) -> Result<Units, AllocError>
    ensures units { IfOk result (λ found. found.unit.items ≡ map unit_in stages.now) }
    ensures ranks { IfOk result (λ found. found.rank.items ≡ map rank_in stages.now) }
{
    Ok(Units {
        unit: stages.iter().map(|stage| unit_in(*stage)).collect(alloc)?,
        rank: stages.iter().map(|stage| rank_in(*stage)).collect(alloc)?,
    })
}
