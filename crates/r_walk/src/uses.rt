//! Which outputs of a region's nodes are used, as the region was before the walk.

ghost use Rattle.std.specs.Prelude.{◌≡◌, ◌||◌, ◌++◌, ◌*◌, ◌+◌, ◌^◌, ◌<◌, ℕ, List, OnOk, IfOk, false, drop};
ghost use Rattle.g_graph.specs.declared.op.Origin.{Origin};
ghost use Rattle.g_graph.specs.declared.op.Origin.TheVariants.{Out};
ghost use Rattle.g_graph.specs.Plain.{nodes_of, nodes_in, results_of};
ghost use Rattle.g_graph.specs.Scope.{same_origin};
ghost use Rattle.r_walk.specs.Walk.{is_in, inputs_of_nodes, results_used};
ghost use Rattle.r_walk.specs.Around.{uses_in, AreUses};

use base::NoMemory;
use g_graph::{Node, Origin, Region};
use indexmap::IndexSet;
use std::alloc::Global;

/// The outputs that are used, each as its node's number and its port.
#[derive(Drop)]
pub struct Uses {
    outputs: IndexSet<u64>,
}

impl Uses {
    /// No output is used.
    pub fn new(alloc: Global) -> Uses
        ensures { (n p : ℕ) → uses_in result n p ≡ false }
    {
        Uses {
            outputs: IndexSet::new(alloc),
        }
    }

    /// Whether this output is used.
    pub fn is_used(&self, node: u32, port: u32) -> bool
        ensures { result ≡ uses_in self.now node port }
    {
        self.outputs.contains(&key(node, port))
    }

    fn add_one(&mut self, origin: Origin) -> Result<(), NoMemory>
        ensures { OnOk result ((n p : ℕ) → p < 2 ^ 32 →
            uses_in self.new n p ≡ (uses_in self.old n p || same_origin (Out n p) origin)) }
    {
        if let Origin::Out { node, port } = origin {
            self.outputs.insert(key(node, port))?;
        }
        Ok(())
    }

    fn add(&mut self, origins: &[Origin]) -> Result<(), NoMemory>
        ensures { OnOk result ((n p : ℕ) → p < 2 ^ 32 →
            uses_in self.new n p ≡ (uses_in self.old n p || is_in origins.now (Out n p))) }
    {
        for origin in origins {
            self.add_one(*origin)?;
        }
        Ok(())
    }

    fn add_nodes(&mut self, nodes: &[Node]) -> Result<(), NoMemory>
        ensures { OnOk result ((n p : ℕ) → p < 2 ^ 32 →
            uses_in self.new n p ≡ (uses_in self.old n p || is_in (inputs_of_nodes (nodes_of nodes.now)) (Out n p))) }
    {
        for node in nodes {
            self.add(node.inputs.as_slice())?;
        }
        Ok(())
    }

    // Of the results of an opened region from a port on, those whose output is used.
    fn add_used(&mut self, results: &[Origin], node: u32, outer: &Uses) -> Result<(), NoMemory>
        ensures { OnOk result ((os : List Origin) → AreUses outer.now os → (n p : ℕ) → p < 2 ^ 32 →
            uses_in self.new n p ≡ (uses_in self.old n p || is_in (results_used os node 0 results.now) (Out n p))) }
    {
        let mut port: u32 = 0;
        for origin in results {
            if outer.is_used(node, port) {
                self.add_one(*origin)?;
            }
            let Some(next) = port.checked_add(1) else {
                return Err(NoMemory);
            };
            port = next;
        }
        Ok(())
    }
}

/// What the nodes and the results of a region use.
pub fn uses_of(alloc: Global, region: &Region) -> Result<Uses, NoMemory>
    ensures { IfOk result (λ uses. AreUses uses (inputs_of_nodes (nodes_in region.now) ++ results_of region.now)) }
{
    let mut uses = Uses::new(alloc);
    uses.add_nodes(&region.nodes)?;
    uses.add(&region.results)?;
    Ok(uses)
}

/// What the nodes of a region use that comes in the place of a node, and those of its results from
/// one on whose output of the node is used.
pub fn uses_of_opened(
    alloc: Global,
    region: &Region,
    node: u32,
    from: usize,
    outer: &Uses,
) -> Result<Uses, NoMemory>
    ensures { IfOk result (λ uses. (os : List Origin) → AreUses outer.now os →
        AreUses uses (inputs_of_nodes (nodes_in region.now) ++ results_used os node 0 (drop from (results_of region.now)))) }
{
    let mut uses = Uses::new(alloc);
    uses.add_nodes(&region.nodes)?;
    uses.add_used(from_on(&region.results, from), node, outer)?;
    Ok(uses)
}

/// The origins from one on.
pub fn from_on(origins: &[Origin], from: usize) -> &[Origin]
    ensures { result.now ≡ drop from origins.now }
{
    match origins.get(from..) {
        Some(rest) => rest,
        None => &[],
    }
}

fn key(node: u32, port: u32) -> u64
    ensures { result ≡ node * 2 ^ 32 + port }
{
    node as u64 * 4294967296 + port as u64
}
