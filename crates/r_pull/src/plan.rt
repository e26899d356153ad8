//! The plan: the new lists of the Gamma and of its regions.

ghost use Rattle.std.specs.Prelude.{◌≡◌, ◌≤◌, ◌+◌, ◌++◌, ◌^◌, [], ◌∷◌, IfOk, length, replicate, vec_capacity};
ghost use Rattle.g_graph.specs.declared.op.Kind.TheVariants.{Value};
ghost use Rattle.g_graph.specs.Plain.{node, no_regions, regions_of, args_of, nodes_in};
ghost use Rattle.r_pull.specs.Rule.{other_entries, args_from, copies, inputs_carried, most_next};
ghost use Rattle.r_pull.specs.Edit.{pull_into, count_nodes, IsCounted, AreListsOf, AreListsOfAll, IsPlanFor};

use crate::find::entries_of;
use crate::reads::reads_gone;
use base::NoMemory;
use g_graph::{Kind, Node, Op, Origin, Region};
use r_edit::is_output_of;
use smallvec::SmallVec;
use std::alloc::Global;

/// The new lists of a region of the Gamma: its arguments, and, where it takes a copy of the node,
/// that copy, in a list with room for the nodes of the region.
#[derive(Drop)]
pub struct NewLists {
    pub args: Vec<Kind>,
    pub nodes: Vec<Node>,
}

/// The change of the Gamma: which of its entries stay, its inputs with the new ones, and the new
/// lists of its regions; and a place for each input, so that the entries that go are counted.
#[derive(Drop)]
pub struct Plan {
    pub stays: Vec<bool>,
    pub room: Vec<usize>,
    pub inputs: SmallVec<Origin, 4>,
    pub lists: Vec<NewLists>,
}

/// The change of the Gamma `user` that takes the node, with copies numbered from `next` on. It
/// takes all the memory that the change needs.
pub fn plan_for(
    alloc: Global,
    node: &Node,
    user: &Node,
    copies: u32,
    next: u32,
    id: u32,
) -> Result<Plan, NoMemory>
    requires { IsCounted next id copies (pull_into node.now user.now) }
    ensures { IfOk result (λ plan. IsPlanFor next id node.now user.now plan) }
{
    let inputs = carried(node, user, copies, next, id);
    let form = Form {
        op: node.op,
        inputs,
        entries: entries_of(user),
        id,
    };
    let plan = plan_of(alloc, &form, user.inputs.as_slice(), &user.regions, next)?;
    Ok(plan)
}

// The inputs that the Gamma takes: where no region takes a copy, none.
#[tactic(auto, using(crate::proofs::Found::none_carried, crate::proofs::Found::all_carried))]
fn carried<'a>(node: &'a Node, user: &Node, copies: u32, next: u32, id: u32) -> &'a [Origin]
    requires { IsCounted next id copies (pull_into node.now user.now) }
    ensures { result.now ≡ inputs_carried id (pull_into node.now user.now) }
{
    if copies == 0 {
        &[]
    } else {
        node.inputs.as_slice()
    }
}

// The same for a Gamma of these inputs and regions.
fn plan_of(
    alloc: Global,
    form: &Form<'_>,
    inputs: &[Origin],
    regions: &[Region],
    next: u32,
) -> Result<Plan, NoMemory>
    requires index { length form.now.entries.now + length form.now.inputs.now ≤ 2 ^ 32 }
    requires next { next + copies (other_entries form.now.id form.now.entries.now)
        (regions_of regions.now) ≤ most_next }
    ensures stays { IfOk result (λ plan. plan.stays.items ≡
        other_entries form.now.id form.now.entries.now) }
    ensures inputs { IfOk result (λ plan. plan.inputs.items ≡ inputs.now ++ form.now.inputs.now) }
    ensures lists { IfOk result (λ plan. AreListsOfAll
        (other_entries form.now.id form.now.entries.now) next (length form.now.entries.now)
        form.now.op form.now.inputs.now (regions_of regions.now) plan.lists.items) }
{
    let stays = staying(alloc, form.entries, form.id)?;
    let inputs = longer(alloc, inputs, form.inputs)?;
    let lists = all_lists(alloc, regions, form, next)?;
    let mut room = Vec::new(alloc);
    room.resize(inputs.len(), 0)?;
    Ok(Plan {
        stays,
        room,
        inputs,
        lists,
    })
}

// What the copies are made from: the op of node `id`, the inputs that the Gamma takes, and the
// entries that it has.
#[derive(Drop)]
struct Form<'a> {
    op: Op,
    inputs: &'a [Origin],
    entries: &'a [Origin],
    id: u32,
}

fn staying(alloc: Global, entries: &[Origin], id: u32) -> Result<Vec<bool>, NoMemory>
    ensures { IfOk result (λ stays. stays.items ≡ other_entries id entries.now) }
{
    let mut stays = Vec::new(alloc);
    for entry in entries {
        stays.push(!is_output_of(*entry, id))?;
    }
    Ok(stays)
}

fn longer(
    alloc: Global,
    inputs: &[Origin],
    more: &[Origin],
) -> Result<SmallVec<Origin, 4>, NoMemory>
    ensures { IfOk result (λ all. all.items ≡ inputs.now ++ more.now) }
{
    let mut all = SmallVec::from_slice(alloc, inputs)?;
    all.extend_from_slice(more)?;
    Ok(all)
}

#[tactic(auto, using(crate::proofs::Filled::made_begin, crate::proofs::Filled::made_more, crate::proofs::Filled::made_small, crate::proofs::Filled::made_all))]
fn all_lists(
    alloc: Global,
    regions: &[Region],
    form: &Form<'_>,
    next: u32,
) -> Result<Vec<NewLists>, NoMemory>
    requires index { length form.now.entries.now + length form.now.inputs.now ≤ 2 ^ 32 }
    requires next { next + copies (other_entries form.now.id form.now.entries.now)
        (regions_of regions.now) ≤ most_next }
    ensures { IfOk result (λ lists. AreListsOfAll
        (other_entries form.now.id form.now.entries.now) next (length form.now.entries.now)
        form.now.op form.now.inputs.now (regions_of regions.now) lists.items) }
{
    let mut lists = Vec::with_capacity(alloc, regions.len())?;
    let mut copy = next;
    for region in regions {
        let new = new_lists(alloc, region, form, copy)?;
        copy += new.nodes.len() as u32;
        lists.push(new)?;
    }
    Ok(lists)
}

#[tactic(auto, using(crate::proofs::Filled::lists_without, crate::proofs::Filled::lists_with))]
fn new_lists(
    alloc: Global,
    region: &Region,
    form: &Form<'_>,
    copy: u32,
) -> Result<NewLists, NoMemory>
    requires { length form.now.entries.now + length form.now.inputs.now ≤ 2 ^ 32 }
    ensures { IfOk result (λ lists. AreListsOf (other_entries form.now.id form.now.entries.now)
        copy (length form.now.entries.now) form.now.op form.now.inputs.now region.now lists) }
{
    let args = longer_args(alloc, region, form.inputs)?;
    if !reads_gone(region, form.entries, form.id) {
        return Ok(NewLists {
            args,
            nodes: Vec::new(alloc),
        });
    }
    let nodes = begun(alloc, form, copy, region)?;
    Ok(NewLists { args, nodes })
}

fn longer_args(alloc: Global, region: &Region, inputs: &[Origin]) -> Result<Vec<Kind>, NoMemory>
    ensures { IfOk result (λ all. all.items ≡
        args_of region.now ++ replicate (length inputs.now) Value) }
{
    let mut values = Vec::new(alloc);
    values.resize(inputs.len(), Kind::Value)?;
    let mut all = Vec::from_slice(alloc, &region.args)?;
    all.extend_from_slice(&values)?;
    Ok(all)
}

// The copy of the node, in a list with room for the nodes of the region.
#[tactic(auto, using(crate::proofs::Filled::count_nodes_of))]
fn begun(alloc: Global, form: &Form<'_>, copy: u32, region: &Region) -> Result<Vec<Node>, NoMemory>
    requires { length form.now.entries.now + length form.now.inputs.now ≤ 2 ^ 32 }
    ensures items { IfOk result (λ nodes. nodes.items ≡ node copy form.now.op
        (args_from (length form.now.entries.now) form.now.inputs.now) no_regions ∷ []) }
    ensures room { IfOk result (λ nodes.
        1 + count_nodes (nodes_in region.now) ≤ vec_capacity nodes) }
{
    let inputs = arguments(alloc, form.entries.len(), form.inputs)?;
    let mut nodes = Vec::new(alloc);
    nodes.push(Node {
        id: copy,
        op: form.op,
        inputs,
        regions: Vec::new(alloc),
    })?;
    nodes.reserve(region.nodes.len())?;
    Ok(nodes)
}

// As many arguments as there are inputs, from this one on.
fn arguments(
    alloc: Global,
    first: usize,
    inputs: &[Origin],
) -> Result<SmallVec<Origin, 4>, NoMemory>
    requires { first + length inputs.now ≤ 2 ^ 32 }
    ensures { IfOk result (λ all. all.items ≡ args_from first inputs.now) }
{
    let mut all = SmallVec::new(alloc);
    for k in 0..inputs.len() {
        all.push(Origin::Arg((first + k) as u32))?;
    }
    Ok(all)
}
