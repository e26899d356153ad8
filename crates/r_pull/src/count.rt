//! How many copies of the node there will be, and whether these and the lambda are small enough.

ghost use Rattle.std.specs.Prelude.{◌≡◌, ◌<◌, ◌≤◌, ◌+◌, ◌^◌, length, nat_le};
ghost use Rattle.g_graph.specs.Plain.{regions_of, inputs_in};
ghost use Rattle.r_pull.specs.Rule.{other_entries, copies_in, copies, copies_of, inputs_carried, gone_among, gone_args, more_args, added, gone, fits};
ghost use Rattle.r_edit.specs.Size.{may_change_size};
ghost use Rattle.r_pull.specs.Edit.{entries_of, pull_into};

use crate::find::entries_of;
use crate::reads::reads_gone;
use g_graph::{Node, Origin, Region};
use r_edit::{is_output_of, may_change_size};

/// The arguments that a region may have, so that each has a number.
const MOST_ARGUMENTS: u128 = 4_294_967_296;

/// How many of these regions read the argument of an entry that is an output of node `id`: each
/// takes a copy of the node.
pub fn copies(regions: &[Region], entries: &[Origin], id: u32) -> u64
    ensures { result ≡ copies (other_entries id entries.now) (regions_of regions.now) }
{
    let mut count = 0;
    for region in regions {
        count += copies_in(region, entries, id);
    }
    count
}

fn copies_in(region: &Region, entries: &[Origin], id: u32) -> u64
    ensures value { result ≡ copies_in (other_entries id entries.now) region.now }
    ensures small { result ≤ 1 }
{
    if reads_gone(region, entries, id) {
        1
    } else {
        0
    }
}

/// Whether the node may move into the Gamma, in a lambda of so many values and with that next
/// number.
#[tactic(auto, using(crate::proofs::Found::fits_in_order))]
pub fn fits(node: &Node, user: &Node, copies: u64, values: u64, next: u32, id: u32) -> bool
    requires { copies ≡ copies_of id (pull_into node.now user.now) }
    ensures { result ≡ fits values next id (pull_into node.now user.now) }
{
    can_index(node, user)
        && u128::from(next) + u128::from(copies) <= u128::from(u32::MAX)
        && can_change(node, user, copies, values, id)
}

fn can_index(node: &Node, user: &Node) -> bool
    ensures { result ≡
        nat_le (length (entries_of user.now) + length (inputs_in node.now)) (2 ^ 32) }
{
    let entries = entries_of(user).len() as u64;
    let inputs = node.inputs.len() as u64;
    u128::from(entries) + u128::from(inputs) <= MOST_ARGUMENTS
}

fn can_change(node: &Node, user: &Node, copies: u64, values: u64, id: u32) -> bool
    requires copies { copies ≡ copies_of id (pull_into node.now user.now) }
    requires index { length (entries_of user.now) + length (inputs_in node.now) ≤ 2 ^ 32 }
    ensures { result ≡ may_change_size values (added id (pull_into node.now user.now))
        (gone id (pull_into node.now user.now)) }
{
    let (added, gone) = change_of(node, user, copies, id);
    may_change_size(values, added, gone)
}

/// How many values come, and how many go, where the node moves into the Gamma.
pub fn change_of(node: &Node, user: &Node, copies: u64, id: u32) -> (u128, u128)
    requires copies { copies ≡ copies_of id (pull_into node.now user.now) }
    requires index { length (entries_of user.now) + length (inputs_in node.now) ≤ 2 ^ 32 }
    ensures added { result.0 ≡ added id (pull_into node.now user.now) }
    ensures gone { result.1 ≡ gone id (pull_into node.now user.now) }
    ensures few_added { result.0 < 2 ^ 127 }
    ensures few_gone { result.1 < 2 ^ 127 }
{
    let more = carried_count(node, user, copies, id);
    let entries = entries_of(user);
    let added = more_args(&user.regions, more) + 2 * u128::from(copies);
    let gone = gone_args(&user.regions, entries, more, id) + 2;
    (added, gone)
}

// How many inputs the Gamma takes: where no region takes a copy, none.
#[tactic(auto, using(crate::proofs::Found::none_carried, crate::proofs::Found::all_carried))]
fn carried_count(node: &Node, user: &Node, copies: u64, id: u32) -> u64
    requires copies { copies ≡ copies_of id (pull_into node.now user.now) }
    requires index { length (entries_of user.now) + length (inputs_in node.now) ≤ 2 ^ 32 }
    ensures value { result ≡ length (inputs_carried id (pull_into node.now user.now)) }
    ensures small { result ≤ 2 ^ 32 }
{
    if copies == 0 {
        0
    } else {
        node.inputs.len() as u64
    }
}

// The arguments that come: so many in each region.
#[tactic(auto, using(crate::proofs::Found::more_args_times, crate::proofs::Found::product_small))]
fn more_args(regions: &[Region], more: u64) -> u128
    requires { more ≤ 2 ^ 32 }
    ensures value { result ≡ more_args more (regions_of regions.now) }
    ensures small { result < 2 ^ 120 }
{
    u128::from(regions.len() as u64) * u128::from(more)
}

// The arguments that go from regions with so many more arguments.
fn gone_args(regions: &[Region], entries: &[Origin], more: u64, id: u32) -> u128
    requires entries { length entries.now ≤ 2 ^ 32 }
    requires more { more ≤ 2 ^ 32 }
    ensures value { result ≡
        gone_args (other_entries id entries.now) more (regions_of regions.now) }
    ensures small { result < 2 ^ 120 }
{
    let mut count = 0;
    for region in regions {
        let args = u128::from(region.args.len() as u64) + u128::from(more);
        count += u128::from(gone_among(entries, args, id));
    }
    count
}

// The arguments that go among so many first ones.
#[tactic(auto, using(crate::proofs::Found::none_gone, crate::proofs::Found::gone_step))]
fn gone_among(entries: &[Origin], args: u128, id: u32) -> u64
    ensures value { result ≡ gone_among (other_entries id entries.now) args }
    ensures small { result ≤ length entries.now }
{
    let mut gone = 0;
    let mut rest = args;
    for entry in entries {
        if rest == 0 {
            return gone;
        }
        rest -= 1;
        if is_output_of(*entry, id) {
            gone += 1;
        }
    }
    gone
}
