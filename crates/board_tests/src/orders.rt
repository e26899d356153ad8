//! Units and ranks of small programs.

use base::NoMemory;
use call_order::{Units, all_known, units};
use std::alloc::{AllocError, Global};
use std::test::Fail;

// The units and ranks of these functions, where all that are called are known.
fn units_of(alloc: Global, calls: &[Vec<u32>]) -> Result<Option<Units>, NoMemory> {
    if calls.len() < 5 && all_known(calls) {
        return Ok(Some(units(alloc, calls)?));
    }
    Ok(None)
}

// The lists of calls of a table of up to two calls a function, where 9 is no call.
fn lists(alloc: Global, table: &[[u32; 2]]) -> Result<Vec<Vec<u32>>, AllocError> {
    let mut calls = Vec::new(alloc);
    for row in table {
        let mut callees = Vec::new(alloc);
        for callee in row {
            if *callee != 9 {
                callees.push(*callee)?;
            }
        }
        calls.push(callees)?;
    }
    Ok(calls)
}

#[test]
fn units_and_ranks_of_small_programs(rt: HostRuntime) -> Result<(), Fail> {
    let alloc = rt.alloc();
    for (table, unit, rank) in [
        // one calls the other and is called by it; a third calls itself and a fourth; the fourth
        // calls none
        ([[1, 9], [0, 9], [0, 2], [9, 9]], [0, 0, 2, 3], [0, 0, 1, 0]),
        // a chain
        ([[1, 9], [2, 9], [3, 9], [9, 9]], [0, 1, 2, 3], [3, 2, 1, 0]),
        // a ring, entered in its middle
        ([[2, 9], [0, 9], [3, 9], [1, 9]], [0, 0, 0, 0], [0, 0, 0, 0]),
        // two rings, the first of which calls the second
        ([[3, 9], [2, 9], [1, 9], [0, 1]], [0, 1, 1, 0], [1, 0, 0, 1]),
        // two ways to one function, one of them longer
        ([[1, 2], [3, 9], [1, 9], [9, 9]], [0, 1, 2, 3], [3, 1, 2, 0]),
        // a call that leads back past a group
        ([[1, 9], [2, 3], [1, 9], [0, 2]], [0, 0, 0, 0], [0, 0, 0, 0]),
    ] {
        let calls = lists(alloc, table.as_slice())?;
        let found = units_of(alloc, calls.as_slice())?.ok_or("a function is not known")?;
        assert_eq!(rt; found.unit.as_slice(), unit.as_slice());
        assert_eq!(rt; found.rank.as_slice(), rank.as_slice());
    }

    let calls: Vec<Vec<u32>> = Vec::new(alloc);
    let found = units_of(alloc, calls.as_slice())?.ok_or("a function is not known")?;
    assert!(rt; found.unit.is_empty() && found.rank.is_empty());
    Ok(())
}
