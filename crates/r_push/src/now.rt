//! Origins of a region as they are now.

ghost use Rattle.std.specs.Prelude.{◌≡◌, [], List, IfOk, map};
ghost use Rattle.g_graph.specs.Plain.{inputs_in};
ghost use Rattle.r_walk.specs.Moves.{AreMoves, origin_in};
ghost use Rattle.r_walk.specs.Walk.{Moved, origin_now};

use base::NoMemory;
use g_graph::{Node, Origin, Redirect, redirect_origins};
use r_walk::{Moves, Now};
use smallvec::SmallVec;
use std::alloc::Global;

pub fn origin_now(origin: Origin, moves: &Moves) -> Origin
    ensures { (ms : List Moved) → AreMoves moves.now ms → result ≡ origin_now ms [] origin }
{
    Now { moves, inputs: &[] }.redirect(origin)
}

pub fn inputs_now(
    alloc: Global,
    node: &Node,
    moves: &Moves,
) -> Result<SmallVec<Origin, 4>, NoMemory>
    ensures { IfOk result (λ reads. reads.items ≡ map (origin_in moves.now []) (inputs_in node.now)) }
{
    let mut reads = SmallVec::from_slice(alloc, node.inputs.as_slice())?;
    redirect_origins(reads.as_mut_slice(), &Now { moves, inputs: &[] });
    Ok(reads)
}

pub fn origins_now(
    alloc: Global,
    origins: &[Origin],
    moves: &Moves,
) -> Result<Vec<Origin>, NoMemory>
    ensures { IfOk result (λ now. now.items ≡ map (origin_in moves.now []) origins.now) }
{
    let mut now = Vec::from_slice(alloc, origins)?;
    redirect_origins(now.as_mut_slice(), &Now { moves, inputs: &[] });
    Ok(now)
}
