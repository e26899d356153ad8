//! Laws of the machine's definition, for the proofs of callers: each is the contract of a function
//! that does nothing.

ghost use Rattle.rv_machine.specs.Laws.{RunsAdd, EndedStays, OutputGrows, InputShrinks, RunGoesOn, ReachesOnwards, StepReaches, StepEnds, StepWrites, StepReads, StepReadsEnd};

/// n + m instructions are n instructions and then m.
pub fn runs_add()
    ensures { RunsAdd }
{}

/// A run that has ended stays as it is.
pub fn ended_stays()
    ensures { EndedStays }
{}

/// A longer run only extends the output.
pub fn output_grows()
    ensures { OutputGrows }
{}

/// A longer run takes further from the input, and gives nothing back.
pub fn input_shrinks()
    ensures { InputShrinks }
{}

/// A run goes on from the state that its first instructions reach.
pub fn run_goes_on()
    ensures { RunGoesOn }
{}

/// Where n instructions reach a state and m instructions another one from there, n + m reach that
/// one.
pub fn reaches_onwards()
    ensures { ReachesOnwards }
{}

/// One instruction reaches the next state.
pub fn step_reaches()
    ensures { StepReaches }
{}

/// One instruction ends the run.
pub fn step_ends()
    ensures { StepEnds }
{}

/// One instruction writes a byte.
pub fn step_writes()
    ensures { StepWrites }
{}

/// One instruction takes the next byte of the input.
pub fn step_reads()
    ensures { StepReads }
{}

/// One instruction meets the end of the input.
pub fn step_reads_end()
    ensures { StepReadsEnd }
{}
