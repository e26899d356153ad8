//! Laws of items and templates where they stand in memory, for the proofs of the crates above: each
//! is the contract of a function that does nothing.

ghost use Rattle.s_select_keeps.specs.Laws.{FunctionsStand, ItemsAreResolved, ItemsAreCut, WordsStand, WordsAreTheSame};
ghost use Rattle.s_select_keeps.specs.Arguments.{ArgumentsAreLoaded, ParamsArePut};
ghost use Rattle.s_select_keeps.specs.Branches.{OffsetLeads, JumpIsDone, BranchNotZeroIsDone, BranchZeroIsDone, BranchEqualIsDone, ExitIsDone};
ghost use Rattle.s_select_keeps.specs.Codes.{CodeIsDone};
ghost use Rattle.s_select_keeps.specs.Calls.{CallLeads, ReturnLeads};
ghost use Rattle.s_select_keeps.specs.Formats.{TemplatesFit, ItemsFit, TextFits};
ghost use Rattle.s_select_keeps.specs.Functions.{FunctionsRun};
ghost use Rattle.s_select_keeps.specs.LaidFunctions.{SelectedCanRun, LaidProgramCanRun, LaidProgramStarts};
ghost use Rattle.s_select_keeps.specs.Kept.{ProgramIsKept};
ghost use Rattle.s_select_keeps.specs.Mains.{MainRuns};
ghost use Rattle.s_select_keeps.specs.Frames.{FrameIsTaken, StackIsExceeded, FrameIsGiven};
ghost use Rattle.s_select_keeps.specs.Programs.{LaidProgramStands};
ghost use Rattle.s_select_keeps.specs.Starts.{MainIsCalled, MainExits};
ghost use Rattle.s_select_keeps.specs.Memories.{LoadIsDone, StoreIsDone, EqualPointersIsDone, ClearIsDone};
ghost use Rattle.s_select_keeps.specs.Streams.{PutIsDone, GetIsDone};
ghost use Rattle.s_select_keeps.specs.Stubs.{PutStubWrites, GetStubReads};
ghost use Rattle.s_select_keeps.specs.Table.{InstrIsDone};
ghost use Rattle.s_select_keeps.specs.Rows.{ConstIsDone, UndefIsDone, ObjectAddressIsDone, GlobalAddressIsDone, BinaryIsDone, UnaryIsDone, MoveIsDone};

/// In the text of a program each function's code stands at the function's address.
pub fn functions_stand()
    ensures { FunctionsStand }
{}

/// Where the code of a function stands, its items stand one after the other, and each label is
/// resolved to where it is marked.
pub fn items_are_resolved()
    ensures { ItemsAreResolved }
{}

/// Items that stand are cut as code is, and those that are instructions are code.
pub fn items_are_code()
    ensures cut { ItemsAreCut }
    ensures words { WordsStand }
{}

/// The instructions of each operation give on words what the operation gives, zero divisors and
/// sign extensions included.
pub fn words_are_the_same()
    ensures { WordsAreTheSame }
{}

/// The templates of the instructions without memory do on the machine what the instructions do over
/// places: each writes its value to its place, and all else that the machine stands for stays.
pub fn templates_write_values()
    ensures constant { ConstIsDone }
    ensures undef { UndefIsDone }
    ensures object_address { ObjectAddressIsDone }
    ensures global_address { GlobalAddressIsDone }
    ensures binary { BinaryIsDone }
    ensures unary { UnaryIsDone }
    ensures moved { MoveIsDone }
{}

/// The templates of branches and jumps lead to their targets, and where a branch is not taken to
/// what follows it.
pub fn templates_branch()
    ensures offset { OffsetLeads }
    ensures jump { JumpIsDone }
    ensures not_zero { BranchNotZeroIsDone }
    ensures zero { BranchZeroIsDone }
    ensures equal { BranchEqualIsDone }
{}

/// The template of a load does on the machine what the load does over places.
pub fn templates_load()
    ensures { LoadIsDone }
{}

/// So does the template of a store.
pub fn templates_store()
    ensures { StoreIsDone }
{
    val_laws::laws::memory::load_after_store();
    val_laws::laws::memory::load_elsewhere();
    val_laws::laws::memory::store_keeps_blocks();
}

/// So does that of a comparison of pointers, of blocks that live or with null.
pub fn templates_compare_pointers()
    ensures { EqualPointersIsDone }
{}

/// So does that of clearing an object, a word a turn.
pub fn templates_clear()
    ensures { ClearIsDone }
{
    val_laws::laws::memory::load_after_clear();
    val_laws::laws::memory::clear_elsewhere();
    val_laws::laws::memory::clear_keeps_blocks();
}

/// The template of an exit ends the run with the low byte of the status.
pub fn templates_exit()
    ensures { ExitIsDone }
{}

/// The instructions of a call lead to its target, with the address after them as the return
/// address; a return leads back to it.
pub fn calls_lead()
    ensures call { CallLeads }
    ensures back { ReturnLeads }
{}

/// The stub that writes a byte writes the low byte of a0 and returns.
pub fn put_stub_writes()
    ensures { PutStubWrites }
{}

/// The stub that reads a byte has the next byte of the input in a0, or -1 at its end, and returns.
pub fn get_stub_reads()
    ensures { GetStubReads }
{}

/// The templates of output and input do on the machine what the instructions do, by way of the
/// stubs and their buffer.
pub fn templates_write_and_read()
    ensures output { PutIsDone }
    ensures input { GetIsDone }
{}

/// The items of each instruction but a call do on the machine what the instruction means over
/// places.
pub fn instructions_are_done()
    ensures { InstrIsDone }
{
    templates_store();
    templates_clear();
}

/// The start of a function takes its frame where the stack has that many bytes left, and else ends
/// the run with the status of the stack.
pub fn frames_are_taken()
    ensures taken { FrameIsTaken }
    ensures exceeded { StackIsExceeded }
{}

/// The end of a function gives its frame back and returns, with the caller's place registers as the
/// frame holds them.
pub fn frames_are_given_back()
    ensures { FrameIsGiven }
{}

/// The lines of code without calls do on the machine what the code means over places, its choices
/// and loops included.
pub fn code_is_done()
    ensures { CodeIsDone }
{
    instructions_are_done();
    val_laws::laws::memory::store_keeps_blocks();
    val_laws::laws::memory::clear_keeps_blocks();
}

/// The arguments of a call are loaded into the argument registers, and what these registers hold is
/// put into the places of parameters.
pub fn arguments_are_passed()
    ensures loaded { ArgumentsAreLoaded }
    ensures put { ParamsArePut }
{}

/// The instructions of each line's template fit their formats, and so do those that items become
/// where jumps reach their labels, and all of the text of a program that can be laid out.
pub fn templates_fit_formats()
    ensures templates { TemplatesFit }
    ensures items { ItemsFit }
    ensures text { TextFits }
{}

/// A program that can be laid out stands in memory once its image is loaded: its start code, its
/// stubs, and each function at its address.
pub fn programs_stand()
    ensures { LaidProgramStands }
{}

/// The start code calls `main`, and exits with the low byte of its value.
pub fn programs_start()
    ensures called { MainIsCalled }
    ensures exits { MainExits }
{}

/// Functions run: at every bound a call of a function of a program does on the machine what it
/// means over places. It comes back with its value, its memory and its output, ends the run with
/// the status, goes on for as many instructions as the bound at least, or stops with the status of
/// the stack, where the frames of the calls that are met are larger together than what the stack
/// has left.
pub fn functions_run()
    ensures { FunctionsRun }
{
    instructions_are_done();
    val_laws::laws::memory::store_keeps_blocks();
    val_laws::laws::memory::clear_keeps_blocks();
    val_laws::laws::memory::new_blocks_keep_loads();
    val_laws::laws::memory::closed_blocks_keep_loads();
}

/// A function whose lines can be selected can run. The functions of a program that can be laid out
/// can run once its image is loaded, where each of them can and its labels are marked once. Its
/// image begins at its start code with its stack, and with its globals where its bytes show them.
pub fn laid_programs_can_run()
    ensures selected { SelectedCanRun }
    ensures can_run { LaidProgramCanRun }
    ensures starts { LaidProgramStarts }
{}

/// From the start code on, a program does at every bound what its `main` means: it ends with the
/// low byte of its value or with the status of an exit, goes on for as many instructions as the
/// bound at least, or stops with the status of the stack, where the frames of the calls that are
/// met are larger together than the stack.
pub fn programs_run()
    ensures { MainRuns }
{
    functions_run();
}

/// The machine keeps the behaviour of a program from its start code on, where no bounded run of the
/// program is without meaning: bounded run for bounded run both ways, never stuck, and stopped with
/// the status of the stack only where the frames of the calls that are met are larger together than
/// the stack.
pub fn programs_are_kept()
    ensures { ProgramIsKept }
{
    programs_run();
}
