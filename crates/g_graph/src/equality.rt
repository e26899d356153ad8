//! Whether two lambdas are equal.

ghost use Rattle.std.specs.Prelude.{◌≡◌, ◌↔◌, IsTrue};

use crate::{Kind, Lambda, Node, Object, Origin, Region};
use val_core::Leaf;

/// Whether two lambdas are equal, in all their parts. It takes no memory, and time linear in them.
pub fn equal(a: &Lambda, b: &Lambda) -> bool
    ensures { IsTrue result ↔ (a.now ≡ b.now) }
{
    a.number == b.number
        && a.params == b.params
        && a.next == b.next
        && equal_objects(&a.objects, &b.objects)
        && equal_regions(&a.body, &b.body)
}

fn equal_objects(a: &[Object], b: &[Object]) -> bool
    ensures { IsTrue result ↔ (a.now ≡ b.now) }
{
    if a.len() != b.len() {
        return false;
    }
    for (i, object) in a.iter().enumerate() {
        if !equal_object(object, &b[i]) {
            return false;
        }
    }
    true
}

fn equal_object(a: &Object, b: &Object) -> bool
    ensures { IsTrue result ↔ (a.now ≡ b.now) }
{
    if a.size != b.size {
        return false;
    }
    equal_leaves(&a.leaves, &b.leaves)
}

#[tactic(auto, using(crate::proofs::lemmas::Listed::nodes_of_same))]
#[cycle(equality)]
fn equal_regions(a: &Region, b: &Region) -> bool
    ensures { IsTrue result ↔ (a.now ≡ b.now) }
{
    if !equal_kinds(&a.args, &b.args) {
        return false;
    }
    if !equal_origins(&a.results, &b.results) {
        return false;
    }
    equal_node_lists(&a.nodes, &b.nodes)
}

#[cycle(equality)]
fn equal_node_lists(a: &[Node], b: &[Node]) -> bool
    ensures { IsTrue result ↔ (a.now ≡ b.now) }
{
    if a.len() != b.len() {
        return false;
    }
    for (i, node) in a.iter().enumerate() {
        if !equal_nodes(node, &b[i]) {
            return false;
        }
    }
    true
}

#[tactic(auto, using(crate::proofs::lemmas::Listed::regions_of_same))]
#[cycle(equality)]
fn equal_nodes(a: &Node, b: &Node) -> bool
    ensures { IsTrue result ↔ (a.now ≡ b.now) }
{
    if a.id != b.id {
        return false;
    }
    if a.op != b.op {
        return false;
    }
    if !equal_origins(a.inputs.as_slice(), b.inputs.as_slice()) {
        return false;
    }
    equal_region_lists(&a.regions, &b.regions)
}

#[cycle(equality)]
fn equal_region_lists(a: &[Region], b: &[Region]) -> bool
    ensures { IsTrue result ↔ (a.now ≡ b.now) }
{
    if a.len() != b.len() {
        return false;
    }
    for (i, region) in a.iter().enumerate() {
        if !equal_regions(region, &b[i]) {
            return false;
        }
    }
    true
}

fn equal_kinds(a: &[Kind], b: &[Kind]) -> bool
    ensures { IsTrue result ↔ (a.now ≡ b.now) }
{
    if a.len() != b.len() {
        return false;
    }
    for (i, kind) in a.iter().enumerate() {
        if *kind != b[i] {
            return false;
        }
    }
    true
}

fn equal_origins(a: &[Origin], b: &[Origin]) -> bool
    ensures { IsTrue result ↔ (a.now ≡ b.now) }
{
    if a.len() != b.len() {
        return false;
    }
    for (i, origin) in a.iter().enumerate() {
        if *origin != b[i] {
            return false;
        }
    }
    true
}

fn equal_leaves(a: &[Leaf], b: &[Leaf]) -> bool
    ensures { IsTrue result ↔ (a.now ≡ b.now) }
{
    if a.len() != b.len() {
        return false;
    }
    for (i, leaf) in a.iter().enumerate() {
        if *leaf != b[i] {
            return false;
        }
    }
    true
}
