//! Laws of tasks, for the proofs of the crates above: each is the contract of a function that does
//! nothing.

ghost use Rattle.c_interp_def.specs.Laws.{TasksAppend, ExpressionExpands, PlaceExpands, DroppedExpand, PassedExpand, StatementExpands, ItemsExpand, GroupsExpand, ElementsExpand, TurnsExpand, AgainExpands};
ghost use Rattle.c_interp_def.specs.CallLaws.{CallIsCut, CallEnters, RunIsTasks};

/// Tasks after others are done before them.
pub fn tasks_append()
    ensures { TasksAppend }
{}

/// What an expression does is what its tasks do, and so are a place, operands of commas and
/// arguments.
pub fn expressions_expand()
    ensures expressions { ExpressionExpands }
    ensures places { PlaceExpands }
    ensures dropped { DroppedExpand }
    ensures passed { PassedExpand }
{}

/// What a statement does is what its tasks do, and so are items of a block, groups of a `switch`,
/// elements of an initialiser and turns of a loop.
pub fn statements_expand()
    ensures statements { StatementExpands }
    ensures items { ItemsExpand }
    ensures groups { GroupsExpand }
    ensures elements { ElementsExpand }
    ensures turns { TurnsExpand }
    ensures again { AgainExpands }
{}

/// A call is cut where no more calls may nest; else what follows on it is heard as what follows on
/// the tasks of its function.
pub fn calls_enter()
    ensures cut { CallIsCut }
    ensures enters { CallEnters }
{}

/// The run of a program is heard as the tasks of its `main`.
pub fn run_is_tasks()
    ensures { RunIsTasks }
{}
