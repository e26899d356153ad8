//! Laws of code where it stands in memory: each is the contract of a function that does nothing.

ghost use Rattle.rv_machine.specs.StandingLaws.{StandingIsDone, TextStays, StandingReaches, StandingEnds, CodeIsCut, EachStands, SegmentCodeStands};

/// The instruction that stands at pc is the one that is done.
pub fn standing_is_done()
    ensures { StandingIsDone }
{}

/// A run leaves a text in memory.
pub fn text_stays()
    ensures { TextStays }
{}

/// A run goes on by the instruction that stands where it has come to, or ends by it.
pub fn standing_goes_on()
    ensures reaches { StandingReaches }
    ensures ends { StandingEnds }
{}

/// Of two codes one after the other each stands where the other begins or ends.
pub fn code_is_cut()
    ensures { CodeIsCut }
{}

/// Of code that stands, each instruction stands at its word.
pub fn each_stands()
    ensures { EachStands }
{}

/// The code of a segment that may be executed and not written stands in memory, an instruction at
/// each word.
pub fn segment_code_stands()
    ensures { SegmentCodeStands }
{}
