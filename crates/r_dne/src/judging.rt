//! What is asked of a node.

ghost use Rattle.std.specs.Prelude.{◌≡◌, ◌≤◌, ◌+◌, ◌||◌, nat_lt, not};
ghost use Rattle.std.specs.declared.option.Option.TheVariants.{Some};
ghost use Rattle.g_graph.specs.declared.op.Kind.TheVariants.{Value};
ghost use Rattle.g_graph.specs.Scope.{same_kind};
ghost use Rattle.g_arena_def.specs.Flat.{FlatNode};
ghost use Rattle.g_arena_def.specs.Reads.{found};
ghost use Rattle.r_dne.specs.Listed.{is_dead_in};
ghost use Rattle.r_dne.specs.Shape.{IsShape};

use base::Steps;
use g_arena::{Arena, Uses};
use g_arena_def::Place;
use g_graph::{Kind, Op, Origin};
use std::sync::ledger::Ledger;

/// A node: its number, op and place, and how many inputs, outputs and regions it has.
#[derive(Clone, Copy)]
pub struct Shape {
    pub node: u32,
    pub op: Op,
    pub home: Place,
    pub inputs: usize,
    pub outputs: u32,
    pub regions: u32,
}

/// Whether a variable stays for its output: a state does, and a value that has a use.
pub fn stays(uses: Uses) -> bool
    ensures { result ≡ (not (same_kind Value uses.kind) || nat_lt 0 uses.count) }
{
    uses.kind != Kind::Value || uses.count > 0
}

/// Whether the node gives no state, and no output of it has a use. It costs a look for each output
/// at most.
pub fn is_dead<L: Ledger>(arena: &Arena, shape: Shape, looks: &mut Steps<L>) -> bool
    requires { IsShape shape arena.now }
    ensures dead { (x : FlatNode) → found shape.node arena.now.nodes ≡ Some x →
        result ≡ is_dead_in arena.now x }
    ensures looks { looks.new ≤ looks.old + shape.outputs }
{
    for port in 0..shape.outputs {
        let of = Origin::Out {
            node: shape.node,
            port,
        };
        if stays(arena.uses(shape.home, of, looks)) {
            return false;
        }
    }
    true
}
