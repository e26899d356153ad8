//! What the calls of a lambda need of the stack.
#![tactic(auto, using(crate::proofs::Lists::none_called, crate::proofs::Lists::one_called, crate::proofs::Lists::goes_on))]

ghost use Rattle.std.specs.Prelude.{◌≡◌, ℕ, ◌+◌, ◌<◌, ◌^◌};
ghost use Rattle.std.specs.declared.option.Option.TheVariants.{Some};
ghost use Rattle.g_pass_order.specs.Calls.{node_calls, op_calls, region_calls};
ghost use Rattle.cc_view.specs.Depths.{depth_at, greater, most_of, with_frame};

use g_graph::{Lambda, Node, Op, Region};

fn greater(a: Option<u64>, b: Option<u64>) -> Option<u64>
    ensures { result ≡ greater a b }
{
    match a {
        Some(a) => match b {
            Some(b) => Some(a.max(b)),
            None => None,
        },
        None => None,
    }
}

#[tactic(auto, using(crate::proofs::Lists::read_depth, crate::proofs::Lists::no_depth))]
fn depth_at(depths: &[Option<u64>], function: u32) -> Option<u64>
    ensures { result ≡ depth_at depths.now function }
{
    let index = function as usize;
    if index < depths.len() {
        depths[index]
    } else {
        None
    }
}

fn op_most(op: Op, depths: &[Option<u64>], so_far: Option<u64>) -> Option<u64>
    ensures { result ≡ greater so_far (most_of depths.now (op_calls op)) }
{
    match op {
        Op::Apply(function) => greater(so_far, depth_at(depths, function)),
        _ => so_far,
    }
}

#[cycle(walked)]
fn region_most(region: &Region, depths: &[Option<u64>], so_far: Option<u64>) -> Option<u64>
    ensures { result ≡ greater so_far (most_of depths.now (region_calls region.now)) }
{
    let mut most = so_far;
    for node in &region.nodes {
        most = node_most(node, depths, most);
    }
    most
}

#[cycle(walked)]
fn node_most(node: &Node, depths: &[Option<u64>], so_far: Option<u64>) -> Option<u64>
    ensures { result ≡ greater so_far (most_of depths.now (node_calls node.now)) }
{
    let mut most = op_most(node.op, depths, so_far);
    for region in &node.regions {
        most = region_most(region, depths, most);
    }
    most
}

/// The depth of a lambda with a frame of so many bytes, by what is known of the functions' depths.
pub fn depth_of(lambda: &Lambda, frame: u32, depths: &[Option<u64>]) -> Option<u64>
    requires { (f : ℕ) (d : ℕ) → depth_at depths.now f ≡ Some d → d + 2 ^ 32 < 2 ^ 64 }
    ensures { result ≡ with_frame frame (most_of depths.now (region_calls lambda.now.body)) }
{
    match region_most(&lambda.body, depths, Some(0)) {
        Some(most) => Some(frame as u64 + most),
        None => None,
    }
}
