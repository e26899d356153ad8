//! The Gamma and its regions, changed as planned.

ghost use Rattle.std.specs.Prelude.{◌≡◌, ◌<◌, ◌≤◌, ◌+◌, length, vec_capacity};
ghost use Rattle.g_graph.specs.declared.op.Origin.TheVariants.{Arg};
ghost use Rattle.g_graph.specs.Plain.{nodes_of, regions_of, regions_in, nodes_in};
ghost use Rattle.g_graph.specs.Splice.{joined_nodes};
ghost use Rattle.r_pull.specs.Rule.{user_changed, copy_used};
ghost use Rattle.r_pull.specs.Edit.{user_index, begun, begun_where, region_with, regions_with, count_nodes, HasRoom, HaveRoom, taking, pulled_by, Fits};

use crate::find::uses;
use crate::plan::{NewLists, Plan};
use g_graph::{Node, Origin, Redirect, Region, redirect_region};
use r_edit::{keep_entries_of, remove_node, stays_at};
use std::alloc::Global;
use std::mem;

/// The Gamma of the region that uses node `id` changes as planned, and that node goes. It takes no
/// memory.
pub fn carry_out(alloc: Global, region: &mut Region, id: u32, plan: Plan)
    requires { Fits id (nodes_in region.old) plan }
    ensures { region.new ≡ pulled_by id plan region.old }
{
    change_user(alloc, &mut region.nodes, id, plan);
    remove_node(region, id);
}

fn change_user(alloc: Global, nodes: &mut Vec<Node>, id: u32, plan: Plan)
    requires { Fits id (nodes_of nodes.old.items) plan }
    ensures { nodes_of nodes.new.items ≡ user_changed id (taking plan) (nodes_of nodes.old.items) }
{
    match user_index(nodes, id) {
        Some(index) => take(alloc, &mut nodes[index], plan),
        None => (),
    }
}

fn user_index(nodes: &[Node], id: u32) -> Option<usize>
    ensures { result ≡ user_index id 0 (nodes_of nodes.now) }
{
    for (i, node) in nodes.iter().enumerate() {
        if uses(node, id) {
            return Some(i);
        }
    }
    None
}

/// The Gamma changes as planned. It takes no memory.
pub fn take(alloc: Global, user: &mut Node, plan: Plan)
    requires { HaveRoom plan.lists.items (regions_in user.old) }
    ensures { user.new ≡ taking plan user.old }
{
    let Plan {
        stays,
        mut room,
        inputs,
        mut lists,
    } = plan;
    user.inputs = inputs;
    fill_all(alloc, &mut user.regions, &mut lists, &stays);
    keep_entries_of(user, &stays, &mut room);
}

fn fill_all(alloc: Global, regions: &mut Vec<Region>, lists: &mut Vec<NewLists>, stays: &[bool])
    requires { HaveRoom lists.old.items (regions_of regions.old.items) }
    ensures { regions_of regions.new.items ≡
        regions_with stays.now lists.old.items (regions_of regions.old.items) }
{
    for i in 0..regions.len() {
        let none = NewLists {
            args: Vec::new(alloc),
            nodes: Vec::new(alloc),
        };
        fill(&mut regions[i], mem::replace(&mut lists[i], none), stays);
    }
}

fn fill(region: &mut Region, lists: NewLists, stays: &[bool])
    requires { HasRoom lists region.old }
    ensures { region.new ≡ region_with stays.now lists region.old }
{
    let NewLists { args, nodes } = lists;
    region.args = args;
    begin_where(region, nodes, stays);
}

// The region begins with these nodes, where there are any; the first is the copy that it reads.
#[tactic(auto, using(crate::proofs::Filled::begun_none, crate::proofs::Filled::begun_some))]
fn begin_where(region: &mut Region, front: Vec<Node>, stays: &[bool])
    requires { 0 < length front.items → length front.items + count_nodes (nodes_in region.old)
        ≤ vec_capacity front }
    ensures { region.new ≡ begun_where stays.now front.items region.old }
{
    match front.first() {
        Some(node) => {
            let copy = node.id;
            begin(region, front, copy, stays);
        }
        None => (),
    }
}

#[tactic(auto, using(crate::proofs::Filled::redirected_count))]
fn begin(region: &mut Region, front: Vec<Node>, copy: u32, stays: &[bool])
    requires { length front.items + count_nodes (nodes_in region.old) ≤ vec_capacity front }
    ensures { region.new ≡ begun stays.now copy (nodes_of front.items) region.old }
{
    redirect_region(region, &CopyUsed { stays, copy });
    put_before(&mut region.nodes, front);
}

#[tactic(auto, using(crate::proofs::Filled::count_nodes_of, g_graph::proofs::lemmas::Splices::nodes_of_append))]
fn put_before(nodes: &mut Vec<Node>, front: Vec<Node>)
    requires { length front.items + count_nodes (nodes_of nodes.old.items) ≤ vec_capacity front }
    ensures { nodes_of nodes.new.items ≡
        joined_nodes (nodes_of front.items) (nodes_of nodes.old.items) }
{
    let mut all = front;
    match all.append(nodes) {
        Ok(()) => *nodes = all,
        Err(_) => unreachable!(),
    }
}

// The output of the copy instead of the arguments that go.
#[derive(Drop)]
struct CopyUsed<'a> {
    stays: &'a [bool],
    copy: u32,
}

impl Redirect for CopyUsed<'_> {
    ghost redirected = { λ m. copy_used m.stays.now m.copy };

    fn redirect(&self, origin: Origin) -> Origin {
        match origin {
            Origin::Arg(index) => self.argument(index),
            Origin::Out { .. } => origin,
        }
    }
}

impl CopyUsed<'_> {
    fn argument(&self, index: u32) -> Origin
        ensures { result ≡ copy_used self.now.stays.now self.now.copy (Arg index) }
    {
        if stays_at(self.stays, index as usize) {
            Origin::Arg(index)
        } else {
            Origin::Out {
                node: self.copy,
                port: 0,
            }
        }
    }
}
