//! The top call: it carries out a command, and tells how it ended.
//! The command is what the arguments of a command line ask for; it works over the files and
//! streams that it is handed. Each status comes at its cause. On status 0 of `build` the source
//! is accepted, OUT is exactly its image under the recipe, and on the machine OUT does what the
//! source does; on status 0 of `check` the source is accepted and IMG does what it does, whoever
//! wrote log and image; on status 0 or 7 of `interp` the output has gained what the source's own
//! run writes.
//! Always: a refused build creates no file.
#![tactic(auto)]

pub mod accept;
mod answer;
pub mod build;
pub mod build_laws;
mod carry;
pub mod certify_laws;
mod certifying;
mod compile;
pub mod compile_laws;
pub mod generated;
pub mod interpret_laws;
mod interpreting;
pub mod laws;
mod next;
mod open;
mod play;
pub mod run;
mod say;
pub mod session;
pub mod session_laws;
mod watchers;

ghost use Rattle.std.specs.Prelude.{ℕ, List, map};
ghost use Rattle.std.specs.String.{string_bytes};
ghost use Rattle.cc_command.specs.Command.{command_of};
ghost use Rattle.cc_io.specs.Faults.{Increased};
ghost use Rattle.cc_top.specs.Completes.{Completes};
ghost use Rattle.cc_top.specs.Ends.{Ends};
ghost use Rattle.cc_io.specs.Outside.{outside_of};
ghost use Rattle.cc_report.specs.Report.{IsReported, outcome_of, said_by};

pub use answer::Answer;
use board_work::Gate;
use cc_command::{Command, parse_command};
use cc_io::{Files, Sink, Source};
use cc_report::{Ending, Outcome, tell};
use cc_watch::Watcher;
pub use certifying::check;
pub use interpreting::interpret;
use std::alloc::Global;
use std::sync::Wait;
use std::thread::Threads;

/// Carries out the command of the arguments `words`, the program's name first, and gives the status
/// of the process.
///
/// `build IN OUT [--recipe LIST]` compiles the source file IN to the executable OUT, each function
/// put through the sweeps of LIST: 1 to 32 names of rules joined by commas, or `none`; it is
/// `iln,fold,inv,cne,dne,ivt,psh,pll,url,fold,cne,inv,dne,dne` where it is not given. On the
/// machine OUT does what the source does: on every input on which no bound of turns and calls makes
/// the source's run undefined (ISO/IEC 9899:2011, 3.4.3) it is never stuck, writes what the source
/// writes and exits with its status, or it stops for want of stack after a beginning of that
/// output, only where some stack of calls has frames of more than 8,388,608 bytes. `run IMG
/// [--steps N]` runs the executable IMG for at most N instructions, from `input` to `output`. `gen
/// NUMBER COUNT OUT` writes the generated program of COUNT functions, 1 to
/// `MOST_GENERATED_FUNCTIONS`, whose draws begin with NUMBER, 0 to 4294967295, to the file OUT.
/// `check IN LOG IMG` says whether the log in the file LOG certifies the image in the file IMG as
/// one of the source IN: whether the log's steps, each done at its node, lead from the functions of
/// IN to those of IMG, byte for byte. Where they do, IMG does what the source does, as OUT of a
/// build does, whoever wrote LOG and IMG. Not every image that does so has such a log. No file
/// changes. `session IN OUT [--workers N] [--recipe LIST]` answers the commands of the script on
/// `input`, each by a line on `output`: `replace` puts a text in place of a function's definition in
/// the source, and `build` creates OUT anew with the source's image, of which only what was edited,
/// and what depends on it, is made again. `interp IN [--bound N]` runs the source IN itself, from
/// `input` to `output`, where a loop takes at most N turns and calls nest at most N deep, 1 to
/// 1,000,000, and 1,000,000 where N is not given: no image is made, and no file changes.
/// Without arguments the source on `input` is compiled and the line `accepted F` written on
/// `output`, F being the number of functions that it defines; no file changes. What a user reads of
/// the end is written on `report`: on status 0 of `build` the text of the report that is asked for,
/// nothing on status 0 of `gen` and the command without arguments, and else a line.
///
/// Each of `watchers` is given what the recipe of a build did to each function, a row a function in
/// source order, each row before the next, and before OUT is created. `--report NAME` asks for the
/// text of the first of them whose name is NAME, which is made and written after OUT. No other
/// command tells them anything.
///
/// With `--workers N`, 1 to `MOST_WORKERS`, N workers make the functions of a build, each in a
/// thread of its own where one can be made, and 1 where N is not given; each passes `gate` before
/// it makes a function. OUT is the same for every N. A call may wait, and what is said here holds
/// where it returns. The statuses:
///
/// - 0: `build` or `gen` wrote OUT, `accepted F` was written, the program that `run` or `interp` ran
///   has exited, and the line has its exit status, LOG certifies IMG, and the line is `yes`, or each
///   command of a session to its `end` was answered, and OUT is the image of the last `build`.
/// - 1: the arguments are no command, LIST is no recipe, or no watcher has the name NAME. Nothing
///   has changed.
/// - 2: a file or the input was not read, since a call failed. No file has changed but by a session,
///   whose commands before it were answered.
/// - 3: a file, the output or the report was not written, since a call failed. A file or stream
///   that was written then holds a prefix of what was to be written; OUT is whole where the report
///   alone was not written.
/// - 4: the source is refused; the line names the rule, its number and the source's line, and of a
///   limit that is passed its number and the count. No file was created or written, and nothing was
///   written on `output`.
/// - 5: IMG is no executable that can be run; the line names the fault.
/// - 6: memory ran out. Nothing was written on `output`, and no file was created or written, but
///   that OUT is whole where memory ran out for the text of the report, that a session has answered
///   the commands before it, and that `interp` has written a prefix of what the run writes.
/// - 7: the program that `run` ran used up its stack, was not done after N instructions, or came to
///   an instruction that cannot be done; or the run that `interp` made was cut by its bound (`cut`),
///   or did what the language leaves undefined (`undefined`; ISO/IEC 9899:2011, 3.4.3).
/// - 8: LOG does not certify IMG; the line names the fault and its number, and the line of LOG that
///   has it or the first byte at which IMG is another one. Nothing has changed.
/// - 9: a command of a session's script is none, or is not whole; the line has its number. Those
///   before it were answered.
pub fn top<H: Threads + Wait + Sync, F: Files, I: Source, O: Sink, E: Sink, G: Gate>(
    rt: &H,
    alloc: Global,
    words: &[String],
    files: &mut F,
    input: &mut I,
    output: &mut O,
    report: &mut E,
    gate: &G,
    watchers: &mut Vec<Box<dyn Watcher>>,
) -> u8
    // There is an outcome that comes at its cause, and what is said of it is reported.
    ensures ends { let seen = outside_of F.known F.read_faults F.write_faults F.open_faults
        F.create_faults I.left I.faults O.held O.faults in
        (ended : Outcome) × ((said : List ℕ)
        × Ends named stands_for text_of (command_of (map string_bytes words.now)) ended said
        (seen files.old input.old output.old) (seen files.new input.new output.new)
        watchers.old.items watchers.new.items
        × IsReported ended said result (E.held report.old) (E.held report.new)
        (E.faults report.old) (E.faults report.new)) }
    // Where no call fails a command that has what it asks for is done, or memory ran out.
    ensures complete { let seen = outside_of F.known F.read_faults F.write_faults F.open_faults
        F.create_faults I.left I.faults O.held O.faults in
        (Increased (E.faults report.old) (E.faults report.new) → ⊥)
        → Completes named (command_of (map string_bytes words.now)) result
        (seen files.old input.old output.old) (seen files.new input.new output.new)
        watchers.old.items }
{
    cc_source::refusal_laws::accepted_sources_are_not_refused();
    crate::certify_laws::certified_is_told();
    crate::compile_laws::logs_certify_images();
    let ending = carry_out(rt, alloc, words, files, input, output, gate, watchers);
    tell(report, &ending)
}

/// Carries out the command of the arguments.
fn carry_out<H: Threads + Wait + Sync, F: Files, I: Source, O: Sink, G: Gate>(
    rt: &H,
    alloc: Global,
    words: &[String],
    files: &mut F,
    input: &mut I,
    output: &mut O,
    gate: &G,
    watchers: &mut Vec<Box<dyn Watcher>>,
) -> Ending
    ensures { let seen = outside_of F.known F.read_faults F.write_faults F.open_faults
        F.create_faults I.left I.faults O.held O.faults in
        Ends named stands_for text_of (command_of (map string_bytes words.now))
        (outcome_of result) (said_by result)
        (seen files.old input.old output.old) (seen files.new input.new output.new)
        watchers.old.items watchers.new.items }
{
    let command = match parse_command(alloc, words) {
        Ok(Some(command)) => command,
        Ok(None) => return Ending::Line(Outcome::Usage),
        Err(_) => return Ending::Line(Outcome::NoMemory),
    };
    match command {
        Command::Accept => Ending::Line(accept::accept(alloc, input, output)),
        Command::Build {
            source,
            image,
            recipe,
            workers,
            report,
            form,
        } => build::build(
            rt, alloc, files, source, image, recipe, form, workers, report, gate, watchers,
        ),
        Command::Run { image, steps } => {
            Ending::Line(run::run(alloc, files, input, output, image, steps))
        }
        Command::Generate {
            start,
            functions,
            out,
        } => Ending::Line(generated::write_generated(files, start, functions, out)),
        Command::Check {
            source,
            log,
            image,
            form,
        } => Ending::Line(check(alloc, files, source, log, image, form)),
        Command::Session {
            source,
            image,
            recipe,
            workers,
            form,
        } => Ending::Line(session::session(
            rt, alloc, files, input, output, source, image, recipe, form, workers, gate,
        )),
        Command::Interpret { source, bound } => {
            Ending::Line(interpret(alloc, files, input, output, source, bound))
        }
    }
}
