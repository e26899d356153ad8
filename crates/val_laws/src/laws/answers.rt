//! Laws of events and answers.

ghost use Rattle.val_core.specs.AnswerLaws.{OutputAppends, DeepestAppends, BeneathAppends, CalledKeepsOutput, CalledDeepens, PrefixesCompose, BeforeTwice, ThenAfterBefore, ThenAssociates, ThenNothing, ThenOnGiven};

/// What two lists of events write is written one after the other.
pub fn output_appends()
    ensures { OutputAppends }
{}

/// The deepest stack of two lists of events is that of one of them.
pub fn deepest_appends()
    ensures { DeepestAppends }
{}

/// A call puts itself under each of two lists of events.
pub fn beneath_appends()
    ensures { BeneathAppends }
{}

/// A call writes what its body writes.
pub fn called_keeps_output()
    ensures { CalledKeepsOutput }
{}

/// A call adds its own frame to its body's deepest stack.
pub fn called_deepens()
    ensures { CalledDeepens }
{}

/// What leads to a list leads to what that list leads to.
pub fn prefixes_compose<A>()
    ensures { PrefixesCompose A }
{}

/// Two lists of events before an answer are one.
pub fn before_twice<A>()
    ensures { BeforeTwice A }
{}

/// What came before an answer came before what follows on it.
pub fn then_after_before<A, B>()
    ensures { ThenAfterBefore A B }
{}

/// What follows on an answer and then on that may be grouped either way.
pub fn then_associates<A, B, C>()
    ensures { ThenAssociates A B C }
{}

/// An answer on which nothing follows is itself.
pub fn then_nothing<A>()
    ensures { ThenNothing A }
{}

/// What follows counts only on the result that is given.
pub fn then_on_given<A, B>()
    ensures { ThenOnGiven A B }
{}
