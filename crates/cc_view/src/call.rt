//! The call.

ghost use Rattle.std.specs.Prelude.{◌≡◌, ◌⊎◌, ◌≤◌, ◌+◌, length, map, take, IfErr, IfOk};
ghost use Rattle.std.specs.Option.{ForSome};
ghost use Rattle.std.specs.String.{string_bytes};
ghost use Rattle.base.specs.Limits.{most_source_bytes};
ghost use Rattle.cc_io.specs.Files.{content};
ghost use Rattle.cc_io.specs.Outside.{files_seen, stream_seen, ReadFails};
ghost use Rattle.cc_report.specs.Report.{IsReported};
ghost use Rattle.cc_report.specs.declared.outcome.Outcome.{Outcome};
ghost use Rattle.cc_report.specs.declared.outcome.Outcome.TheVariants.{NoMemory, ReadFault};
ghost use Rattle.cc_view_source.specs.Command.{command_of};
ghost use Rattle.cc_view_source.specs.PlainCommand.{plain_command};
ghost use Rattle.cc_view.specs.ViewEnds.{list_of, said_of, source_of, CommandShows, IsWritten, ShownCause, ViewEnds, ViewEndsUnder};

use crate::shown::{Shown, show};
use crate::telling::tell_ended;
use base::MOST_SOURCE_BYTES;
use cc_compile::recipe_of;
use cc_io::load::{LoadError, load};
use cc_io::{Files, Sink, write_all};
use cc_report::Outcome;
use cc_view_source::{Command, parse_command};
use g_pass::Recipe;
use g_pass::laws::texts_have_one_recipe;
use std::alloc::Global;

// The name of the file of the source.
fn source_of<'a>(command: &Command<'a>) -> &'a str
    ensures { result.now ≡ source_of (plain_command command.now) }
{
    match *command {
        Command::Graph { source, .. } => source,
        Command::Steps { source, .. } => source,
        Command::Listing { source, .. } => source,
        Command::Explain { source, .. } => source,
    }
}

// The text of the recipe.
fn list_of<'a>(command: &Command<'a>) -> &'a str
    ensures { result.now ≡ list_of (plain_command command.now) }
{
    match *command {
        Command::Graph { recipe, .. } => recipe,
        Command::Steps { recipe, .. } => recipe,
        Command::Listing { recipe, .. } => recipe,
        Command::Explain { recipe, .. } => recipe,
    }
}

// What is read of the file of a source: no more than a byte over the limit.
fn text_of<F: Files>(alloc: Global, files: &mut F, name: &str) -> Result<Vec<u8>, Outcome>
    ensures bytes { ForSome (F.known files.old) (λ all. IfOk result
        (λ bytes. bytes.items ≡ take (most_source_bytes + 1) (content name.now all))) }
    ensures fault { let seen = files_seen F.known F.read_faults F.write_faults F.open_faults
        F.create_faults in
        IfErr result (λ e. (e ≡ NoMemory)
        ⊎ ((e ≡ ReadFault) × ReadFails name.now (seen files.old) (seen files.new))) }
    ensures kept { F.known files.new ≡ F.known files.old }
{
    match load(alloc, files, name, MOST_SOURCE_BYTES + 1) {
        Ok(bytes) => Ok(bytes),
        Err(LoadError::Failed) => Err(Outcome::ReadFault),
        Err(LoadError::NoMemory) => Err(Outcome::NoMemory),
    }
}

// So it is where the files are not known too.
fn front(text: &[u8]) -> &[u8]
    ensures value { result.now ≡ take (most_source_bytes + 1) text.now }
    ensures small { length result.now ≤ most_source_bytes + 1 }
{
    if text.len() > MOST_SOURCE_BYTES {
        &text[..MOST_SOURCE_BYTES + 1]
    } else {
        text
    }
}

// Writes what is shown, and has the output hand it over, which then stands before the report.
fn write_shown<O: Sink>(output: &mut O, shown: &Shown) -> Outcome
    ensures { IsWritten shown.now.ended shown.now.text.items result
        (stream_seen O.held O.faults output.old) (stream_seen O.held O.faults output.new) }
{
    let written = write_all(output, &shown.text);
    output.flush();
    match written {
        Ok(()) => shown.ended,
        Err(_) => Outcome::WriteFault,
    }
}

// Carries out a command under a recipe.
fn carry_out_under<F: Files, O: Sink>(
    alloc: Global,
    files: &mut F,
    output: &mut O,
    command: Command<'_>,
    recipe: &Recipe,
) -> Outcome
    ensures cause { let seen = files_seen F.known F.read_faults F.write_faults F.open_faults
        F.create_faults in
        ShownCause (CommandShows recipe.now (plain_command command.entry))
        (source_of (plain_command command.entry)) result (seen files.old) (seen files.new)
        (stream_seen O.held O.faults output.old) (stream_seen O.held O.faults output.new) }
    ensures kept { F.known files.new ≡ F.known files.old }
{
    let text = match text_of(alloc, files, source_of(&command)) {
        Ok(text) => text,
        Err(outcome) => return outcome,
    };
    let shown = show(alloc, command, front(&text), recipe);
    drop(text);
    let ended = write_shown(output, &shown);
    drop(shown);
    ended
}

// Carries out a command.
fn carry_out<F: Files, O: Sink>(
    alloc: Global,
    files: &mut F,
    output: &mut O,
    command: Command<'_>,
) -> Outcome
    ensures { let seen = files_seen F.known F.read_faults F.write_faults F.open_faults
        F.create_faults in
        ViewEndsUnder (plain_command command.entry) result (seen files.old) (seen files.new)
        (stream_seen O.held O.faults output.old) (stream_seen O.held O.faults output.new) }
{
    texts_have_one_recipe();
    match recipe_of(list_of(&command)) {
        Some(recipe) => carry_out_under(alloc, files, output, command, &recipe),
        None => Outcome::Usage,
    }
}

// Carries out the command of the arguments.
fn carry_out_arguments<F: Files, O: Sink>(
    alloc: Global,
    words: &[String],
    files: &mut F,
    output: &mut O,
) -> Outcome
    ensures { let seen = files_seen F.known F.read_faults F.write_faults F.open_faults
        F.create_faults in
        ViewEnds (command_of (map string_bytes words.now)) result
        (seen files.old) (seen files.new)
        (stream_seen O.held O.faults output.old) (stream_seen O.held O.faults output.new) }
{
    match parse_command(alloc, words) {
        Ok(Some(command)) => carry_out(alloc, files, output, command),
        Ok(None) => Outcome::Usage,
        Err(_) => Outcome::NoMemory,
    }
}

/// Carries out the command of the arguments `words`, the program's name first, and gives the status
/// of the process. No file changes.
///
/// `graph IN [--recipe LIST] [--function NAME] [--after K] [--form dot|rows]` draws what the sweeps
/// of LIST, `none` where it is not given, make of each function of the source file IN, or of the
/// one called NAME, or what the first K steps of its log make of it. `steps IN [--recipe LIST]`
/// tells for each function and sweep the rule, the nodes that it visits, the steps, and the values
/// before and after; LIST is that of a build where it is not given, here and below. `listing IN
/// [--recipe LIST]` writes the image as an assembler source. `explain IN [--recipe LIST]` says why
/// IN is refused, with the line and a caret, or how many bytes of code its image has, the bytes of
/// each frame, and how deep the stack of `main` gets. What is shown goes to `output`, how the
/// command ended to `report`: nothing on status 0, and else a line, or four of usage. The statuses:
///
/// - 0: the source is accepted, and what the command shows of it was written.
/// - 1: the arguments are no command, LIST is no recipe, there is no function NAME, or it has fewer
///   steps than K. Nothing was written on `output`.
/// - 2: IN was not read, since a call failed. Nothing was written on `output`.
/// - 3: the output or the report was not written, since a call failed. The one that was not holds a
///   prefix of what was to be written.
/// - 4: the source is refused; the line is that of the compiler. Only `explain` writes on `output`.
/// - 6: memory ran out. Nothing was written on `output`.
pub fn view<F: Files, O: Sink, E: Sink>(
    alloc: Global,
    words: &[String],
    files: &mut F,
    output: &mut O,
    report: &mut E,
) -> u8
    ensures { let seen = files_seen F.known F.read_faults F.write_faults F.open_faults
        F.create_faults in
        (ended : Outcome) × ViewEnds (command_of (map string_bytes words.now)) ended
        (seen files.old) (seen files.new)
        (stream_seen O.held O.faults output.old) (stream_seen O.held O.faults output.new)
        × IsReported ended (said_of ended) result (E.held report.old) (E.held report.new)
        (E.faults report.old) (E.faults report.new) }
{
    let ended = carry_out_arguments(alloc, words, files, output);
    tell_ended(report, ended)
}
