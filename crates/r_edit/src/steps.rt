//! Laws of steps: of the changes that rules make, one after the other.

ghost use Rattle.r_edit.specs.Size.{ResizedLambdasAreNoLarger};
ghost use Rattle.r_edit.specs.Steps.{SafeChangesAreSteps, EditsKeepInterface, NoStepIsAStep, StepsCompose, ListsStandForThemselves, ListsCompose, CompleteListsReturn};

/// A change of a region that may replace the old one, calls and names nothing new, and is resized as
/// the lambda may be, is a step where the lambda stays well formed, whatever lambdas are held.
pub fn safe_changes_are_steps()
    ensures step { SafeChangesAreSteps }
    ensures interface { EditsKeepInterface }
{}

/// A well-formed lambda may stand for itself, and steps compose where the lambda is none of those
/// that are held.
pub fn steps_compose()
    ensures itself { NoStepIsAStep }
    ensures next { StepsCompose }
{}

/// A list of lambdas may stand for itself, and lists for each other one after the other. Where a
/// complete list does, calls give equal states, and values of which the farther one may stand for
/// the nearer.
pub fn lists_compose()
    ensures itself { ListsStandForThemselves }
    ensures next { ListsCompose }
    ensures calls { CompleteListsReturn }
{}

/// Where the region that a change makes is resized as a lambda of that size may be, the changed
/// lambda has at most `MOST_GROWN_VALUES` values, or no more than before.
pub fn resized_lambdas_are_no_larger()
    ensures { ResizedLambdasAreNoLarger }
{}
