//! Laws of stale functions: each is the contract of a function that does nothing.

ghost use Rattle.g_pass_work.specs.Laws.{StalenessComesOfDeps, UnstaleAnswersAreKept};

use g_pass_order::laws::orders_are_unique;

/// A function is stale exactly where it has changed or one of its deps is stale.
pub fn staleness_comes_of_deps()
    ensures { StalenessComesOfDeps }
{}

/// A function that is not stale has the answer that it had: each table of rules and each recipe
/// make the same of it in both lists.
pub fn unstale_answers_are_kept()
    ensures { UnstaleAnswersAreKept }
{
    orders_are_unique();
}
