//! The results of a board on which all jobs are out.

ghost use Rattle.std.specs.Prelude.{◌≡◌, map, option_map, IfOk};
ghost use Rattle.std.specs.List.{filter_map};
ghost use Rattle.std.specs.Arc.{arc_value};
ghost use Rattle.board_core.specs.Calls.{AllOut};
ghost use Rattle.board_core.specs.History.{program_of, state_of};
ghost use Rattle.board_core.specs.Alone.{AreResults};

use crate::laws::results_are_answers;
use crate::{Board, Work};
use base::NoMemory;
use std::alloc::Global;
use std::sync::Arc;

// Those results that are there, in order.
fn all_there<M: Drop>(alloc: Global, found: Vec<Option<Arc<M>>>) -> Result<Vec<Arc<M>>, NoMemory>
    ensures { IfOk result (λ all.
        map arc_value all.items ≡ filter_map (option_map arc_value) found.items) }
{
    let mut all = Vec::with_capacity(alloc, found.len())?;
    for one in found {
        match one {
            Some(made) => all.push(made)?,
            None => {}
        }
    }
    Ok(all)
}

/// The results of a board on which all jobs are out.
pub fn all_results<W: Work>(alloc: Global, board: Board<W>) -> Result<Vec<Arc<W::Made>>, NoMemory>
    requires { AllOut (program_of W.made board) (state_of W.made board) }
    ensures { IfOk result (λ all. AreResults (program_of W.made board) (map arc_value all.items)) }
{
    results_are_answers::<W::Made>();
    board.events();
    all_there(alloc, board.into_results())
}
