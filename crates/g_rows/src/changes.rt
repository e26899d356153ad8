//! Changes of a lambda. `replace FROM TO` replaces the uses of an origin in the body, `replace FROM
//! TO NODE` in the region of a node. `splice NODE INPUTS` puts the body of the lambda before the
//! last instead of a node, with these inputs as its arguments. `wrap FIRST COUNT` puts so many
//! Gammas of one region around the body, one in another, the innermost of the number FIRST.

use crate::row::Row;
use base::NoMemory;
use g_graph::{Lambda, Node, Op, Origin, Region, replace_uses, splice};
use g_text::{Named, origin_named};
use smallvec::SmallVec;
use std::alloc::Global;
use std::mem;

/// Replaces the uses of an origin.
pub fn replace(last: &mut Named, text: &str) {
    let mut words = text.split_whitespace();
    let from = words.next().and_then(origin_named);
    let to = words.next().and_then(origin_named);
    let region_of = words.next().and_then(|word| word.parse::<u32>().ok());
    if let (Some(from), Some(to)) = (from, to) {
        replace_uses(&mut last.lambda, from, to, region_of);
    }
}

fn empty(alloc: Global) -> Region {
    Region {
        args: Vec::new(alloc),
        nodes: Vec::new(alloc),
        results: Vec::new(alloc),
    }
}

// The body of a lambda that is given up.
fn body_of(alloc: Global, named: Option<Named>) -> Region {
    match named {
        Some(named) => {
            let mut named = named;
            mem::replace(&mut named.lambda.body, empty(alloc))
        }
        None => empty(alloc),
    }
}

/// Puts the body of the lambda before the last instead of a node.
pub fn splice_body(row: &mut Row, last: &mut Named, text: &str) -> Result<(), NoMemory> {
    let part = body_of(row.alloc, row.lambdas.pop());
    let mut words = text.split_whitespace();
    let at = words.next().unwrap_or("").parse::<u32>().unwrap_or(0);
    let mut inputs = Vec::new(row.alloc);
    for word in words {
        if let Some(origin) = origin_named(word) {
            inputs.push(origin)?;
        }
    }
    splice(row.alloc, &mut last.lambda, at, part, &inputs)
}

// The region that has one Gamma alone, on its first argument, with this region, which takes and
// gives what it does.
fn around(alloc: Global, id: u32, inside: Region) -> Result<Region, NoMemory> {
    let mut args = Vec::new(alloc);
    let mut inputs = SmallVec::new(alloc);
    inputs.push(Origin::Arg(0))?;
    for (index, kind) in (0u32..).zip(inside.args.iter()) {
        args.push(*kind)?;
        inputs.push(Origin::Arg(index))?;
    }
    let mut results = Vec::new(alloc);
    for (port, _) in (0u32..).zip(inside.results.iter()) {
        results.push(Origin::Out { node: id, port })?;
    }
    let node = Node {
        id,
        op: Op::Gamma,
        inputs,
        regions: Vec::from_array(alloc, [inside])?,
    };
    Ok(Region {
        args,
        nodes: Vec::from_array(alloc, [node])?,
        results,
    })
}

fn wrapped(alloc: Global, lambda: &mut Lambda, first: u32, count: u32) -> Result<(), NoMemory> {
    for index in 0..count {
        let inside = mem::replace(&mut lambda.body, empty(alloc));
        lambda.body = around(alloc, first.saturating_add(index), inside)?;
    }
    Ok(())
}

/// Puts Gammas around the body.
pub fn wrap(row: &mut Row, last: &mut Named, text: &str) -> Result<(), NoMemory> {
    let (first, count) = text.split_once(' ').unwrap_or((text, "0"));
    let first = first.parse::<u32>().unwrap_or(0);
    let count = count.parse::<u32>().unwrap_or(0);
    wrapped(row.alloc, &mut last.lambda, first, count)
}
