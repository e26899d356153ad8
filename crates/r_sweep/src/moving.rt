//! Uses that move.

ghost use Rattle.std.specs.Prelude.{◌≡◌, ◌+◌, false};
ghost use Rattle.g_graph.specs.Scope.{same_origin};
ghost use Rattle.g_arena_def.specs.Reads.{kind_in, uses_in};
ghost use Rattle.g_arena_def.specs.Conditions.{IsOrigin};
ghost use Rattle.r_sweep.specs.Removals.{uses_moved};

use base::Steps;
use g_arena::Arena;
use g_arena_def::Place;
use g_graph::Origin;
use std::sync::ledger::Ledger;

/// Each use of `from` in the region at a place, of which there are so many, becomes one of another
/// origin of the same kind. It costs a look for each.
pub fn move_uses<L: Ledger>(
    arena: &mut Arena,
    home: Place,
    from: Origin,
    to: Origin,
    count: u64,
    looks: &mut Steps<L>,
)
    requires count { count ≡ uses_in home from arena.old }
    requires other { same_origin from to ≡ false }
    requires there { IsOrigin home to arena.old }
    requires kinds { kind_in home from arena.old ≡ kind_in home to arena.old }
    ensures moved { arena.new ≡ uses_moved home from to arena.old }
    ensures looks { looks.new ≡ looks.old + count }
{
    for _i in 0..count {
        arena.change_use(home, from, to, looks);
    }
}
