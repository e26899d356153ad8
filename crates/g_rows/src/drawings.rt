//! Drawings. `draw` says the drawing of the lambda, `draw N` the one with the node of the number N in
//! a frame. A function that is called goes by the name of the lambda of its number, counted from 0,
//! where it stands so early.

use crate::row::Row;
use base::{Name, NoMemory};
use g_text::{Named, write_graph};
use std::alloc::Global;

// The names of all lambdas, of which this one is the last.
fn names_of(alloc: Global, before: &[Named], last: &Named) -> Result<Vec<Name>, NoMemory> {
    let mut names = Vec::new(alloc);
    for named in before {
        names.push(named.name.clone()?)?;
    }
    names.push(last.name.clone()?)?;
    Ok(names)
}

/// Says the drawing of the lambda.
pub fn draw(row: &mut Row, last: &Named, framed: &str) -> Result<(), NoMemory> {
    let alloc = row.alloc;
    let names = names_of(alloc, &row.lambdas, last)?;
    let framed = framed.parse::<u32>().ok();
    let mut out = Vec::new(alloc);
    let name = last.name.as_slice();
    write_graph(&mut out, alloc, name, &names, &last.lambda, framed)?;
    row.say_text(&out)
}
