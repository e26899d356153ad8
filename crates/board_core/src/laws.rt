//! Laws of the board, for the proofs of callers: each is the contract of a function that does
//! nothing.

ghost use Rattle.board_core.specs.Laws.{ResultsAreAnswers, DepsGiveAnswer, JobsHaveAnswers, AnswersComeOfDeps, IdleBoardsAreDone, HistoriesAreShort};

/// After every legal history the result of each job that is out is that of the recursion on ranks.
pub fn results_are_answers<M>()
    ensures { ResultsAreAnswers M }
{}

/// What is made of the results of a job's deps, once it is ready or held, is that of the recursion
/// on ranks.
pub fn deps_give_answer<M>()
    ensures { DepsGiveAnswer M }
{}

/// Each job has a result.
pub fn jobs_have_answers<M>()
    ensures { JobsHaveAnswers M }
{}

/// The result of a job is what is made of the results of its deps.
pub fn answers_come_of_deps<M>()
    ensures { AnswersComeOfDeps M }
{}

/// Where no job is ready and none is held, all jobs are out.
pub fn idle_boards_are_done<M>()
    ensures { IdleBoardsAreDone M }
{}

/// A legal history has at most two events for each job and one for each worker.
pub fn histories_are_short<M>()
    ensures { HistoriesAreShort M }
{}
