//! Folding a node by the plan that was made for it.

ghost use Rattle.std.specs.Prelude.{◌≡◌, [], MatchBool, IfOk, OnErr, is_some};
ghost use Rattle.std.specs.declared.option.Option.TheVariants.{Some, None};
ghost use Rattle.g_graph.specs.Plain.{node, no_regions};
ghost use Rattle.r_fold.specs.Plan.{with_word, with_input, carried_out};

use crate::plan::Plan;
use base::NoMemory;
use g_graph::{
    Node, Op, Origin, OriginReplaced, Region, is_used, redirect_region, set_node, splice_region,
};
use smallvec::SmallVec;
use std::alloc::Global;

/// Whether the plan for the node changes the region.
pub fn can_carry_out(region: &Region, id: u32, plan: &Plan) -> bool
    ensures { result ≡ is_some (carried_out id region.now plan.now) }
{
    match plan {
        Plan::Input(_) => is_used(region, Origin::Out { node: id, port: 0 }),
        _ => true,
    }
}

/// Carries out the plan for the node, and answers whether it changes the region. `NoMemory` only
/// where the allocator has none; the region is then as it was.
pub fn carry_out(alloc: Global, region: &mut Region, id: u32, plan: Plan) -> Result<bool, NoMemory>
    ensures ok { IfOk result (λ done.
        MatchBool done (carried_out id region.old plan ≡
        Some region.new) ((carried_out id region.old plan ≡ None) ×
        (region.new ≡ region.old))) }
    ensures err { OnErr result (region.new ≡ region.old) }
{
    match plan {
        Plan::Word(word) => {
            put_word(alloc, region, id, word);
            Ok(true)
        }
        Plan::Input(origin) => Ok(replace_uses(region, id, origin)),
        Plan::Replacement(replacement) => {
            splice_region(region, id, replacement)?;
            Ok(true)
        }
    }
}

fn put_word(alloc: Global, region: &mut Region, id: u32, word: u32)
    ensures { region.new ≡ with_word id word region.old }
{
    set_node(&mut region.nodes, id, const_node(alloc, id, word));
}

fn const_node(alloc: Global, id: u32, word: u32) -> Node
    ensures { result ≡ node id (Op.Const word) [] no_regions }
{
    Node {
        id,
        op: Op::Const(word),
        inputs: SmallVec::new(alloc),
        regions: Vec::new(alloc),
    }
}

// Replaces the uses of the node's first output, and answers whether there are any.
fn replace_uses(region: &mut Region, id: u32, origin: Origin) -> bool
    ensures { MatchBool result (with_input id origin region.old ≡
        Some region.new) ((with_input id origin region.old ≡ None) ×
        (region.new ≡ region.old)) }
{
    let from = Origin::Out { node: id, port: 0 };
    if !is_used(region, from) {
        return false;
    }
    redirect_region(region, &OriginReplaced { from, to: origin });
    true
}
