//! The shared places of the names of linear code.

ghost use Rattle.std.specs.Prelude.{◌≡◌, IfOk, IsTrue};
ghost use Rattle.g_graph.specs.WellFormed.{all_of};
ghost use Rattle.s_linear.specs.Linear.{LinearFunction};
ghost use Rattle.s_linear.specs.Lines.{lines, names_below};
ghost use Rattle.a_place.specs.Share.{shared};
ghost use Rattle.a_place.specs.Turns.{HasOwnTurns};

use crate::facts::{Facts, name_depths};
use crate::giving::Giving;
use crate::ordering::by_depth;
use crate::reading::name_count;
use crate::walk::walk_back;
use base::NoMemory;
use s_linear::{Linear, Places};
use std::alloc::Global;

/// The place of each name up to the greatest of these lines, and how many saved registers and words
/// there are. A name that does not occur has place 0. Each name is below 4294967295. `NoMemory` only
/// where the allocator has none, or where more places or counts are needed than a `u32` can number.
pub fn share(alloc: Global, linear: &Linear) -> Result<Places, NoMemory>
    requires { IsTrue (all_of (names_below 4294967295) linear.now) }
    ensures { IfOk result (λ p. (f : LinearFunction) → lines f ≡ linear.now → HasOwnTurns f
        → p ≡ shared f) }
{
    let lines = linear.lines.as_slice();
    let count = name_count(alloc, lines)?;
    let walk = walk_back(alloc, lines, count)?;
    let depths = name_depths(alloc, lines, walk.depths.as_slice(), count)?;
    let order = by_depth(alloc, depths.as_slice())?;
    let facts = Facts::new(alloc, lines, walk, count)?;
    let mut giving = Giving::new(alloc, &facts)?;
    for name in order.as_slice() {
        giving.give(&facts, *name)?;
    }
    Ok(giving.places(alloc)?)
}
