//! Laws of the board, for the proofs of workers: each is the contract of a function that does
//! nothing.

ghost use Rattle.board_core.specs.Beginnings.{HistoriesGrow, ReplaysGoOn, EventsGoOn, BeginningsAreLegal, ResultsStay, HeldJobsKeepResults};
ghost use Rattle.board_core.specs.OwnEvents.{OwnEventsDecide, OwnStopsDecide, WorkersHoldOne};

use crate::laws::deps_give_answer;

/// A history and one event more is legal exactly where the history is and the event may happen
/// where it leads.
pub fn histories_grow<M>()
    ensures { HistoriesGrow M }
{}

/// Two lists of events in a row lead where the second leads from where the first does.
pub fn replays_go_on<M>()
    ensures { ReplaysGoOn M }
{}

/// One event more leads where the event does from where the history leads.
pub fn events_go_on<M>()
    ensures { EventsGoOn M }
{}

/// A beginning of a legal history is legal.
pub fn beginnings_are_legal<M>()
    ensures { BeginningsAreLegal M }
{}

/// A job that is out after a beginning is out after the whole, with the same result.
pub fn results_stay<M>()
    ensures { ResultsStay M }
{}

/// Where a worker holds a job after a beginning and after the whole, the result of the job is the
/// same from the results of its deps at either time.
pub fn held_jobs_keep_results<M>()
    ensures { HeldJobsKeepResults M }
{
    deps_give_answer::<M>();
}

/// A worker holds a job exactly where its own events leave it holding that job: the last of them is
/// the claim of it.
pub fn own_events_decide<M>()
    ensures { OwnEventsDecide M }
{}

/// A worker has stopped exactly where its own events have a stop.
pub fn own_stops_decide<M>()
    ensures { OwnStopsDecide M }
{}

/// A worker holds one job at most.
pub fn workers_hold_one<M>()
    ensures { WorkersHoldOne M }
{}
