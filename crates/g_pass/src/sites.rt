//! Where the nodes of a lambda stand, so that a rule is asked in the region that holds a node.

ghost use Rattle.std.specs.Prelude.{◌≡◌, List, IfSome, is_some, false, true, None};
ghost use Rattle.g_graph.specs.Change.{has_node};
ghost use Rattle.g_graph.specs.Plain.{RegionTree, PlainLambda, nodes_in};
ghost use Rattle.g_graph.specs.WellFormed.{IsWellFormed};
ghost use Rattle.g_pass.specs.Placed.{change_in, is_loop, loop_at, IsPlaced};
ghost use Rattle.g_pass.specs.Sweep.{rules};

use base::NoMemory;
use g_graph::{Lambda, Node, Op, Region, node_at};
use r_rule::Rule;
use std::alloc::Global;

// A region of a node: where the region that holds the node is listed, the node's index there, and
// the index among the node's regions.
#[derive(Clone, Copy)]
struct Inner {
    around: usize,
    node: usize,
    region: usize,
}

/// A node: where its region is listed, and its index there.
#[derive(Clone, Copy)]
pub struct Site {
    region: usize,
    index: usize,
}

/// Where the nodes of a lambda stood, and the regions in its body. Nothing is promised of them: a
/// node that is not where it stood is looked for.
#[derive(Drop)]
pub struct Sites {
    regions: Vec<Inner>,
    nodes: Vec<Site>,
}

impl Sites {
    /// Where the lambda's nodes stand, in pre-order. There are about so many.
    pub fn of(alloc: Global, lambda: &Lambda, count: usize) -> Result<Sites, NoMemory> {
        let mut sites = Sites {
            regions: Vec::new(alloc),
            nodes: Vec::with_capacity(alloc, count)?,
        };
        list_region(&lambda.body, 0, &mut sites)?;
        Ok(sites)
    }

    /// The site of the last node, which goes from the list.
    pub fn take_last(&mut self) -> Option<Site> {
        self.nodes.pop()
    }

    /// The last node comes first.
    pub fn reverse(&mut self) {
        self.nodes.reverse();
    }
}

#[cycle(lists)]
fn list_region(region: &Region, at: usize, sites: &mut Sites) -> Result<(), NoMemory> {
    for (index, node) in region.nodes.iter().enumerate() {
        sites.nodes.push(Site { region: at, index })?;
        list_node(node, at, index, sites)?;
    }
    Ok(())
}

#[cycle(lists)]
fn list_node(node: &Node, at: usize, index: usize, sites: &mut Sites) -> Result<(), NoMemory> {
    for (place, region) in node.regions.iter().enumerate() {
        sites.regions.push(Inner {
            around: at,
            node: index,
            region: place,
        })?;
        let inner = sites.regions.len();
        list_region(region, inner, sites)?;
    }
    Ok(())
}

// The region that is listed there, as it is now: 0 is the body, and the others are counted from 1.
fn region_at<'a>(body: &'a Region, regions: &[Inner], at: usize) -> Option<&'a Region>
    ensures { IfSome result (λ r. IsPlaced r.now body.now) }
{
    if at == 0 {
        return Some(body);
    }
    let inner = *regions.get(at - 1)?;
    if inner.around >= at {
        return None;
    }
    let around = region_at(body, regions, inner.around)?;
    region_of(around, inner.node, inner.region)
}

// A region of the node of an index.
fn region_of(region: &Region, node: usize, place: usize) -> Option<&Region>
    ensures { (body : RegionTree) → IsPlaced region.now body →
        IfSome result (λ r. IsPlaced r.now body) }
{
    let found = region.nodes.get(node)?;
    let inner = found.regions.get(place)?;
    Some(inner)
}

// Whether the node of this index has this number.
fn is_there(region: &Region, index: usize, node: u32) -> bool
    ensures { result ≡ true → has_node node (nodes_in region.now) ≡ true }
{
    match region.nodes.get(index) {
        Some(found) => found.id == node,
        None => false,
    }
}

// Whether the rule can change the region at the node. Of a rule that is not asked here it says so.
fn can_change(rule: Rule, region: &Region, node: u32) -> bool
    ensures { result ≡ is_some (change_in rule node region.now) }
{
    match rule {
        Rule::Fold => r_fold::can_fold(region, node),
        Rule::Cne => r_cne::can_replace(region, node),
        Rule::Dne => r_dne::can_eliminate(region, node),
        Rule::Inv => r_inv::can_redirect(region, node),
        Rule::Invert | Rule::Unroll => has_loop(region, node),
        _ => true,
    }
}

// Whether the region holds the node of this number, and it is a Theta.
fn has_loop(region: &Region, id: u32) -> bool
    ensures { result ≡ is_some (loop_at id region.now) }
{
    match node_at(&region.nodes, id) {
        Some(node) => is_loop(node.op),
        None => false,
    }
}

fn is_loop(op: Op) -> bool
    ensures { result ≡ is_loop op }
{
    matches!(op, Op::Theta)
}

/// Whether the rule may apply at the node of this number, which stood there. Where it says not, the
/// rule does not apply.
pub fn may_apply(rule: Rule, lambda: &Lambda, sites: &Sites, site: Site, node: u32) -> bool
    requires { IsWellFormed lambda.now }
    ensures { result ≡ false → (callees : List PlainLambda) →
        rules.step rule callees node lambda.now ≡ None }
{
    match region_at(&lambda.body, &sites.regions, site.region) {
        Some(region) if is_there(region, site.index, node) => can_change(rule, region, node),
        _ => true,
    }
}
