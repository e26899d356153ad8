//! Lambdas of given shapes and sizes, and how many lines of linear code they have.
ghost use Rattle.std.specs.Prelude.{◌≤◌};

use base::NoMemory;
use g_graph::{Kind, Lambda, Node, Op, Origin, Region, check, values};
use s_sequence::sequence;
use smallvec::SmallVec;
use std::alloc::Global;
use val_core::Op2;

// The most nodes or decisions of a lambda, and how many values each decision passes on.
const MOST: u32 = 100_000;

const CARRIED: u32 = 10;

/// How many lines the linear code of a lambda has, by its shape and size as `straight 1000`,
/// `decisions 1000` or `nest 1000`; 0 where it is only to be checked.
pub fn count_lines(alloc: Global, text: &str, sequences: bool) -> Result<usize, NoMemory> {
    let Some((shape, size)) = text.split_once(' ') else {
        return Ok(0);
    };
    let size = size.parse::<u32>().unwrap_or(0).min(MOST);
    let lambda = match shape {
        "straight" => straight(alloc, size)?,
        "decisions" => decisions(alloc, size)?,
        _ => nest(alloc, size)?,
    };
    if check(&lambda) && values(&lambda) < 1 << 32 && sequences {
        Ok(sequence(alloc, &lambda)?.lines.len())
    } else {
        Ok(0)
    }
}

// An output of a node.
fn out(node: u32, port: u32) -> Origin {
    Origin::Out { node, port }
}

// A node with these regions.
fn with_regions(
    alloc: Global,
    id: u32,
    op: Op,
    inputs: &[Origin],
    regions: Vec<Region>,
) -> Result<Node, NoMemory> {
    Ok(Node {
        id,
        op,
        inputs: SmallVec::from_slice(alloc, inputs)?,
        regions,
    })
}

// A node without regions.
fn of(alloc: Global, id: u32, op: Op, inputs: &[Origin]) -> Result<Node, NoMemory> {
    with_regions(alloc, id, op, inputs, Vec::new(alloc))
}

// So many arguments, which are values, and then both states.
fn args(alloc: Global, values: u32) -> Result<Vec<Kind>, NoMemory> {
    let mut args = Vec::new(alloc);
    for _ in 0..values {
        args.push(Kind::Value)?;
    }
    args.push(Kind::Memory)?;
    args.push(Kind::Io)?;
    Ok(args)
}

// A function of these nodes that gives this value.
fn function(alloc: Global, params: u32, nodes: Vec<Node>, value: Origin) -> Result<Lambda, NoMemory>
    requires { params ≤ 100 }
{
    let states = [value, Origin::Arg(params), Origin::Arg(params + 1)];
    Ok(Lambda {
        number: 0,
        params,
        objects: Vec::new(alloc),
        body: Region {
            args: args(alloc, params)?,
            nodes,
            results: Vec::from_slice(alloc, &states)?,
        },
        next: u32::MAX,
    })
}

// Sums, each of the one before and the parameter.
fn straight(alloc: Global, size: u32) -> Result<Lambda, NoMemory> {
    let mut nodes = Vec::new(alloc);
    let mut value = Origin::Arg(0);
    for id in 0..size {
        let inputs = [value, Origin::Arg(0)];
        nodes.push(of(alloc, id, Op::Bin(Op2::Add), &inputs)?)?;
        value = out(id, 0);
    }
    function(alloc, 1, nodes, value)
}

// Decisions between two regions, each of which passes ten values on to the next.
fn decisions(alloc: Global, size: u32) -> Result<Lambda, NoMemory>
    requires { size ≤ 100000 }
{
    let mut nodes = Vec::new(alloc);
    let mut carried = Vec::new(alloc);
    for index in 0..=CARRIED {
        carried.push(Origin::Arg(index))?;
    }
    for i in 0..size {
        let regions = Vec::from_array(alloc, [passing(alloc, 3 * i)?, passing(alloc, 3 * i + 1)?])?;
        let id = 3 * i + 2;
        nodes.push(with_regions(alloc, id, Op::Gamma, &carried, regions)?)?;
        carried.clear();
        carried.push(Origin::Arg(0))?;
        for port in 0..CARRIED {
            carried.push(out(id, port))?;
        }
    }
    let last = carried.last().copied().unwrap_or(Origin::Arg(0));
    function(alloc, CARRIED + 1, nodes, last)
}

// A region that drops the first of its values and adds a constant.
fn passing(alloc: Global, id: u32) -> Result<Region, NoMemory> {
    let mut args = Vec::new(alloc);
    let mut results = Vec::new(alloc);
    for index in 0..CARRIED {
        args.push(Kind::Value)?;
        if index > 0 {
            results.push(Origin::Arg(index))?;
        }
    }
    results.push(out(id, 0))?;
    let constant = of(alloc, id, Op::Const(id), &[])?;
    Ok(Region {
        args,
        nodes: Vec::from_array(alloc, [constant])?,
        results,
    })
}

// A choice of one region within a region, so many times.
fn nest(alloc: Global, size: u32) -> Result<Lambda, NoMemory> {
    let mut inside = Region {
        args: Vec::from_array(alloc, [Kind::Value])?,
        nodes: Vec::new(alloc),
        results: Vec::from_array(alloc, [Origin::Arg(0)])?,
    };
    for id in 0..size {
        let choice = around(alloc, id, inside)?;
        inside = Region {
            args: Vec::from_array(alloc, [Kind::Value])?,
            nodes: Vec::from_array(alloc, [choice])?,
            results: Vec::from_array(alloc, [out(id, 0)])?,
        };
    }
    let choice = around(alloc, size, inside)?;
    function(alloc, 1, Vec::from_array(alloc, [choice])?, out(size, 0))
}

fn around(alloc: Global, id: u32, inside: Region) -> Result<Node, NoMemory> {
    let regions = Vec::from_array(alloc, [inside])?;
    let inputs = [Origin::Arg(0), Origin::Arg(0)];
    with_regions(alloc, id, Op::Gamma, &inputs, regions)
}
