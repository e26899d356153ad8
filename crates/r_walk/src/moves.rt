//! What became of outputs of nodes.

ghost use Rattle.std.specs.Prelude.{◌≡◌, ◌==◌, ℕ, OnOk, if◌then◌else◌, slice_get, unwrap_or};
ghost use Rattle.g_graph.specs.declared.op.Origin.TheVariants.{Out};
ghost use Rattle.r_walk.specs.Moves.{output_in, origin_in};

use base::NoMemory;
use g_graph::{Origin, Redirect};
use indexmap::IndexMap;
use std::alloc::Global;

/// What became of outputs of nodes of a region, by the number of the node.
#[derive(Drop)]
pub struct Moves {
    outputs: IndexMap<u32, Vec<Origin>>,
}

impl Moves {
    /// No output moved.
    pub fn new(alloc: Global) -> Moves
        ensures { (n p : ℕ) → output_in result n p ≡ Out n p }
    {
        Moves {
            outputs: IndexMap::new(alloc),
        }
    }

    /// Uses of outputs of the node become these origins.
    pub fn note(&mut self, node: u32, outputs: Vec<Origin>) -> Result<(), NoMemory>
        ensures { OnOk result ((n p : ℕ) → output_in self.new n p ≡ (if n == node
            then unwrap_or (slice_get outputs.items p) (Out n p) else output_in self.old n p)) }
    {
        self.outputs.insert(node, outputs)?;
        Ok(())
    }
}

/// What origins of a region are now, whose arguments became these inputs.
#[derive(Drop)]
pub struct Now<'a> {
    pub moves: &'a Moves,
    pub inputs: &'a [Origin],
}

impl Redirect for Now<'_> {
    ghost redirected = { λ it. origin_in it.moves.now it.inputs.now };

    fn redirect(&self, origin: Origin) -> Origin {
        match origin {
            Origin::Arg(index) => origin_at(self.inputs, index, origin),
            Origin::Out { node, port } => match self.moves.outputs.get(&node) {
                Some(outputs) => origin_at(outputs, port, origin),
                None => origin,
            },
        }
    }
}

fn origin_at(origins: &[Origin], place: u32, otherwise: Origin) -> Origin
    ensures { result ≡ unwrap_or (slice_get origins.now place) otherwise }
{
    match origins.get(place as usize) {
        Some(origin) => *origin,
        None => otherwise,
    }
}
