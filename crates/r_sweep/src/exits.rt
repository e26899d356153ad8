//! Exit variables that go.

ghost use Rattle.std.specs.Prelude.{◌≡◌, ◌+◌};
ghost use Rattle.g_arena_def.specs.Flat.{place_in};
ghost use Rattle.r_sweep.specs.Removals.{exit_removed};
ghost use Rattle.r_sweep.specs.Exit.{IsExit};

use base::Steps;
use g_arena::Arena;
use g_arena_def::Place;
use std::sync::ledger::Ledger;

/// The place of a region of a node.
pub fn place_in(node: u32, region: u32) -> Place
    ensures { result ≡ place_in node region }
{
    Place {
        node: Some(node),
        region,
    }
}

/// An exit variable of a node of so many regions goes: its output, which is to have no use, and its
/// result in each region. It costs a look for each of them.
pub fn remove_exit<L: Ledger>(
    arena: &mut Arena,
    node: u32,
    regions: u32,
    port: u32,
    looks: &mut Steps<L>,
)
    requires { IsExit node regions port arena.old }
    ensures gone { arena.new ≡ exit_removed node regions port arena.old }
    ensures looks { looks.new ≡ looks.old + 1 + regions }
{
    arena.remove_output(node, port, looks);
    for region in 0..regions {
        arena.remove_result(place_in(node, region), port, looks);
    }
}
