//! Whether the numbers of nodes are unique, and below the next one.

ghost use Rattle.std.specs.Prelude.{◌≡◌, ◌==◌, nat_lt, count_by, ◌&&◌};
ghost use Rattle.g_graph.specs.Count.{saturated};
ghost use Rattle.g_graph.specs.Ids.{region_ids, node_ids};
ghost use Rattle.g_graph.specs.WellFormed.{all_of, distinct};

use crate::{Node, Region};

/// Whether the numbers of the nodes of the body, nested ones too, are unique and below `next`.
#[tactic(auto, using(crate::proofs::lemmas::Unique::each_once))]
pub fn numbers_fit(body: &Region, next: u32) -> bool
    ensures { result ≡ (distinct (region_ids body.now)
        && all_of (λ n. nat_lt n next) (region_ids body.now)) }
{
    region_fits(body, body, next)
}

// Whether each number in the region stands once in the body, and is below the next.
#[tactic(auto, using(crate::proofs::lemmas::Unique::all_of_append))]
#[cycle(unique)]
fn region_fits(region: &Region, body: &Region, next: u32) -> bool
    ensures { result ≡ all_of (λ n.
        (saturated (count_by (λ m. m == n) (region_ids body.now)) == 1)
        && nat_lt n next) (region_ids region.now) }
{
    for node in &region.nodes {
        if !node_fits(node, body, next) {
            return false;
        }
    }
    true
}

#[tactic(auto, using(crate::proofs::lemmas::Unique::all_of_append))]
#[cycle(unique)]
fn node_fits(node: &Node, body: &Region, next: u32) -> bool
    ensures { result ≡ all_of (λ n.
        (saturated (count_by (λ m. m == n) (region_ids body.now)) == 1)
        && nat_lt n next) (node_ids node.now) }
{
    if times_in_region(body, node.id) != 1 || node.id >= next {
        return false;
    }
    for region in &node.regions {
        if !region_fits(region, body, next) {
            return false;
        }
    }
    true
}

// How often the number stands in the region.
#[tactic(auto, using(crate::proofs::lemmas::Unique::times_append))]
#[cycle(times)]
fn times_in_region(region: &Region, id: u32) -> u64
    ensures { result ≡ saturated (count_by (λ m. m == id) (region_ids region.now)) }
{
    let mut total = 0_u64;
    for node in &region.nodes {
        total = total.saturating_add(times_in_node(node, id));
    }
    total
}

#[tactic(auto, using(crate::proofs::lemmas::Unique::times_append, crate::proofs::lemmas::Unique::times_cons))]
#[cycle(times)]
fn times_in_node(node: &Node, id: u32) -> u64
    ensures { result ≡ saturated (count_by (λ m. m == id) (node_ids node.now)) }
{
    let mut total = u64::from(node.id == id);
    for region in &node.regions {
        total = total.saturating_add(times_in_region(region, id));
    }
    total
}
