//! The counts of a lambda while it is walked.

ghost use Rattle.std.specs.Prelude.{◌≡◌, ◌+◌, ◌-◌, ◌^◌, ◌<◌, OnOk, length};
ghost use Rattle.g_graph.specs.Count.{saturated, region_values, nodes_values, regions_values};
ghost use Rattle.g_graph.specs.Plain.{nodes_of, regions_of};
ghost use Rattle.g_graph.specs.Signatures.{outputs_of};

use base::NoMemory;
use g_graph::{Node, Op, Region, first_args, op_outputs};
use r_edit::values_left;

/// The values of the lambda as it is now, and the number of its next node.
#[derive(Drop)]
pub struct Counts {
    pub values: u64,
    pub next: u32,
}

impl Counts {
    /// Nodes of so many values come in the place of so many, and take so many numbers. `NoMemory`
    /// where there are 2^64 - 1 new values, or where one of the counts would pass its type.
    pub fn step(&mut self, old: u64, new: u64, taken: u32) -> Result<(), NoMemory>
        ensures values { OnOk result (self.new.values ≡ self.old.values + new - old) }
        ensures next { OnOk result (self.new.next ≡ self.old.next + taken) }
        ensures counted { OnOk result (new < 2 ^ 64 - 1) }
        ensures fits { OnOk result (self.old.values + new < 2 ^ 64) }
    {
        if new == u64::MAX {
            return Err(NoMemory);
        }
        let Some(values) = self.values.checked_add(new) else {
            return Err(NoMemory);
        };
        let Some(next) = self.next.checked_add(taken) else {
            return Err(NoMemory);
        };
        self.values = values.saturating_sub(old);
        self.next = next;
        Ok(())
    }
}

/// The values of nodes; 2^64 - 1 where they have more.
pub fn nodes_values(nodes: &[Node]) -> u64
    ensures { result ≡ saturated (nodes_values (nodes_of nodes.now)) }
{
    let mut total: u64 = 0;
    for node in nodes {
        total = total.saturating_add(node_values(node.op, &node.regions));
    }
    total
}

/// The values of a node with these regions; 2^64 - 1 where it has more.
pub fn node_values(op: Op, regions: &[Region]) -> u64
    ensures { result ≡ saturated
        (1 + length (outputs_of op (regions_of regions.now)) + regions_values (regions_of regions.now)) }
{
    let mut total = (outputs(op, regions) as u64).saturating_add(1);
    for region in regions {
        total = total.saturating_add(region_values(region));
    }
    total
}

// How many outputs a node with these regions has.
fn outputs(op: Op, regions: &[Region]) -> usize
    ensures { result ≡ length (outputs_of op (regions_of regions.now)) }
{
    match (op, regions.first()) {
        (Op::Gamma, Some(region)) => region.results.len(),
        (Op::Gamma, None) => 0,
        (Op::Theta, _) => first_args(regions).len(),
        (op, _) => op_outputs(op).len(),
    }
}

fn region_values(region: &Region) -> u64
    ensures { result ≡ saturated (region_values region.now) }
{
    u64::MAX - values_left(region, u64::MAX)
}
