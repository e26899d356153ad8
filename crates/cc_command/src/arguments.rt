//! The arguments of the command line.

ghost use Rattle.std.specs.Prelude.{◌≡◌, ◌≤◌, false, Some, map, option_and_then, option_map, IfOk, IfSome};
ghost use Rattle.std.specs.String.{string_bytes};
ghost use Rattle.base.specs.Limits.{most_workers};
ghost use Rattle.clap.specs.Words.{app_of, first_of, found_of, rows_of, shape_of, subcommand_rows_of};
ghost use Rattle.clap.specs.declared.builder.command.Command.TheViews.{out-Command as fields_of};
ghost use Rattle.cc_command.specs.Arguments.{rvcc, shape_of_form};
ghost use Rattle.cc_command.specs.Command.{bound_option, code_option, command_of, build_form, check_form, forms, generate_form, interp_form, recipe_option, run_form, session_form, steps_option, workers_option};
ghost use Rattle.cc_command.specs.Forms.{code, form_named, number, text, value_or_default};
ghost use Rattle.cc_command.specs.Reading.{found_by, read_by, read_command};
ghost use Rattle.cc_command.specs.PlainCommand.{plain_command, IsInRange};

use crate::numbers::number_in;
use crate::reader::{help_is_asked, value, with_option, with_required};
use base::{MOST_GENERATED_FUNCTIONS, MOST_STEPS, MOST_WORKERS};
use clap::error::ErrorKind;
use clap::{ArgMatches, Command as Reader};
use s_linear::CodeForm;
use std::alloc::{AllocError, Global};

/// What the arguments of a command line ask for.
#[derive(Clone, Copy)]
pub enum Command<'a> {
    /// No arguments: say whether the source on the input is accepted.
    Accept,
    /// `build IN OUT [--recipe LIST] [--workers N] [--report NAME] [--code FORM]`: compile the source named IN to
    /// the image named OUT under the recipe LIST, which may be any text; the default recipe where
    /// it is not given. N workers, 1 to `MOST_WORKERS`, make the functions; 1 where N is not given.
    /// NAME, any text too, is the name of the watcher that reports; no report where it is not
    /// given. FORM is `plain` or `tight`; plain where it is not given.
    Build {
        source: &'a str,
        image: &'a str,
        recipe: &'a str,
        workers: u32,
        report: Option<&'a str>,
        form: CodeForm,
    },
    /// `run IMG [--steps N]`: run the image named IMG for at most N instructions, 1 to
    /// `MOST_STEPS`; 10^9 where N is not given.
    Run {
        image: &'a str,
        steps: u64,
    },
    /// `gen NUMBER COUNT OUT`: write the generated program of COUNT functions, 1 to
    /// `MOST_GENERATED_FUNCTIONS`, whose draws begin with NUMBER to the file OUT.
    Generate {
        start: u32,
        functions: u32,
        out: &'a str,
    },
    /// `check IN LOG IMG [--code FORM]`: say whether the log in the file named LOG certifies the image
    /// in the one named IMG as an image of the source in the one named IN, in the form of a build.
    Check {
        source: &'a str,
        log: &'a str,
        image: &'a str,
        form: CodeForm,
    },
    /// `session IN OUT [--recipe LIST] [--workers N] [--code FORM]`: edit the source named IN as the input says,
    /// function by function, and write each image that it asks for to the file named OUT, under the
    /// recipe LIST, by N workers and in FORM, as of a build.
    Session {
        source: &'a str,
        image: &'a str,
        recipe: &'a str,
        workers: u32,
        form: CodeForm,
    },
    /// `interp IN [--bound N]`: run the source named IN itself, where a loop takes at most N turns
    /// and calls nest at most N deep, 1 to 1,000,000; 1,000,000 where N is not given.
    Interpret {
        source: &'a str,
        bound: u64,
    },
}

fn build_arguments<'a>(alloc: Global) -> Result<Reader<'a>, AllocError>
    ensures shape { IfOk result (λ c. shape_of c ≡ shape_of_form build_form) }
    ensures globals { IfOk result (λ c. (fields_of c).has_globals ≡ false) }
{
    let command = with_required(alloc, Reader::new(alloc, "build"), "IN")?;
    let command = with_required(alloc, command, "OUT")?;
    let command = with_option(alloc, command, "recipe")?;
    let command = with_option(alloc, command, "workers")?;
    let command = with_option(alloc, command, "report")?;
    with_option(alloc, command, "code")
}

fn run_arguments<'a>(alloc: Global) -> Result<Reader<'a>, AllocError>
    ensures shape { IfOk result (λ c. shape_of c ≡ shape_of_form run_form) }
    ensures globals { IfOk result (λ c. (fields_of c).has_globals ≡ false) }
{
    let command = with_required(alloc, Reader::new(alloc, "run"), "IMG")?;
    with_option(alloc, command, "steps")
}

fn generate_arguments<'a>(alloc: Global) -> Result<Reader<'a>, AllocError>
    ensures shape { IfOk result (λ c. shape_of c ≡ shape_of_form generate_form) }
    ensures globals { IfOk result (λ c. (fields_of c).has_globals ≡ false) }
{
    let command = with_required(alloc, Reader::new(alloc, "gen"), "NUMBER")?;
    let command = with_required(alloc, command, "COUNT")?;
    with_required(alloc, command, "OUT")
}

fn check_arguments<'a>(alloc: Global) -> Result<Reader<'a>, AllocError>
    ensures shape { IfOk result (λ c. shape_of c ≡ shape_of_form check_form) }
    ensures globals { IfOk result (λ c. (fields_of c).has_globals ≡ false) }
{
    let command = with_required(alloc, Reader::new(alloc, "check"), "IN")?;
    let command = with_required(alloc, command, "LOG")?;
    let command = with_required(alloc, command, "IMG")?;
    with_option(alloc, command, "code")
}

fn session_arguments<'a>(alloc: Global) -> Result<Reader<'a>, AllocError>
    ensures shape { IfOk result (λ c. shape_of c ≡ shape_of_form session_form) }
    ensures globals { IfOk result (λ c. (fields_of c).has_globals ≡ false) }
{
    let command = with_required(alloc, Reader::new(alloc, "session"), "IN")?;
    let command = with_required(alloc, command, "OUT")?;
    let command = with_option(alloc, command, "recipe")?;
    let command = with_option(alloc, command, "workers")?;
    with_option(alloc, command, "code")
}

fn interpret_arguments<'a>(alloc: Global) -> Result<Reader<'a>, AllocError>
    ensures shape { IfOk result (λ c. shape_of c ≡ shape_of_form interp_form) }
    ensures globals { IfOk result (λ c. (fields_of c).has_globals ≡ false) }
{
    let command = with_required(alloc, Reader::new(alloc, "interp"), "IN")?;
    with_option(alloc, command, "bound")
}

/// The program, of which each command is a subcommand.
fn rvcc<'a>(alloc: Global) -> Result<Reader<'a>, AllocError>
    ensures { IfOk result (λ c. app_of c ≡ rvcc) }
{
    Reader::new(alloc, "rvcc")
        .subcommand(build_arguments(alloc)?)?
        .subcommand(run_arguments(alloc)?)?
        .subcommand(generate_arguments(alloc)?)?
        .subcommand(check_arguments(alloc)?)?
        .subcommand(session_arguments(alloc)?)?
        .subcommand(interpret_arguments(alloc)?)
}

// The recipe of a build that names none.
const DEFAULT_RECIPE: &str = "iln,fold,inv,cne,dne,ivt,psh,pll,url,fold,cne,inv,dne,dne";

/// The text of the recipe of a build.
fn recipe_in<'a>(arguments: &ArgMatches<'a>) -> &'a str
    ensures { Some (text result.now)
        ≡ value_or_default recipe_option
        (first_of recipe_option.name (rows_of (found_of arguments.now))) }
{
    value(arguments, "recipe").unwrap_or(DEFAULT_RECIPE)
}

/// How many workers a build has.
fn workers_in(arguments: &ArgMatches<'_>) -> Option<u32>
    ensures value { option_map number result
        ≡ value_or_default workers_option
        (first_of workers_option.name (rows_of (found_of arguments.now))) }
    ensures from { IfSome result (λ n. 1 ≤ n) }
    ensures within { IfSome result (λ n. n ≤ most_workers) }
{
    match value(arguments, "workers") {
        Some(text) => Some(number_in(1, u64::from(MOST_WORKERS), text)? as u32),
        None => Some(1),
    }
}

/// The form of the code that a build makes.
fn code_in(arguments: &ArgMatches<'_>) -> Option<CodeForm>
    ensures { option_map code result
        ≡ value_or_default code_option
        (first_of code_option.name (rows_of (found_of arguments.now))) }
{
    match value(arguments, "code") {
        Some("tight") => Some(CodeForm::Tight),
        Some("plain") | None => Some(CodeForm::Plain),
        Some(_) => None,
    }
}

fn build_in<'a>(arguments: &ArgMatches<'a>) -> Option<Command<'a>>
    ensures command { option_map plain_command result
        ≡ read_by build_form (rows_of (found_of arguments.now)) }
    ensures range { IfSome result IsInRange }
{
    Some(Command::Build {
        source: value(arguments, "IN")?,
        image: value(arguments, "OUT")?,
        recipe: recipe_in(arguments),
        workers: workers_in(arguments)?,
        report: value(arguments, "report"),
        form: code_in(arguments)?,
    })
}

/// How many instructions a run may have.
fn steps_in(arguments: &ArgMatches<'_>) -> Option<u64>
    ensures { option_map number result
        ≡ value_or_default steps_option
        (first_of steps_option.name (rows_of (found_of arguments.now))) }
{
    match value(arguments, "steps") {
        Some(text) => number_in(1, MOST_STEPS, text),
        None => Some(1_000_000_000),
    }
}

fn run_in<'a>(arguments: &ArgMatches<'a>) -> Option<Command<'a>>
    ensures { option_map plain_command result
        ≡ read_by run_form (rows_of (found_of arguments.now)) }
{
    Some(Command::Run {
        image: value(arguments, "IMG")?,
        steps: steps_in(arguments)?,
    })
}

fn generate_in<'a>(arguments: &ArgMatches<'a>) -> Option<Command<'a>>
    ensures { option_map plain_command result
        ≡ read_by generate_form (rows_of (found_of arguments.now)) }
{
    let start = number_in(0, 4_294_967_295, value(arguments, "NUMBER")?)?;
    let functions = number_in(1, MOST_GENERATED_FUNCTIONS, value(arguments, "COUNT")?)?;
    Some(Command::Generate {
        start: start as u32,
        functions: functions as u32,
        out: value(arguments, "OUT")?,
    })
}

fn check_in<'a>(arguments: &ArgMatches<'a>) -> Option<Command<'a>>
    ensures { option_map plain_command result
        ≡ read_by check_form (rows_of (found_of arguments.now)) }
{
    Some(Command::Check {
        source: value(arguments, "IN")?,
        log: value(arguments, "LOG")?,
        image: value(arguments, "IMG")?,
        form: code_in(arguments)?,
    })
}

fn session_in<'a>(arguments: &ArgMatches<'a>) -> Option<Command<'a>>
    ensures command { option_map plain_command result
        ≡ read_by session_form (rows_of (found_of arguments.now)) }
    ensures range { IfSome result IsInRange }
{
    Some(Command::Session {
        source: value(arguments, "IN")?,
        image: value(arguments, "OUT")?,
        recipe: recipe_in(arguments),
        workers: workers_in(arguments)?,
        form: code_in(arguments)?,
    })
}

// The greatest bound of a source's run, and the one where none is given.
const MOST_TURNS: u64 = 1_000_000;

/// How many turns a loop of a source's run may take, and how deep its calls may nest.
fn bound_in(arguments: &ArgMatches<'_>) -> Option<u64>
    ensures value { option_map number result
        ≡ value_or_default bound_option
        (first_of bound_option.name (rows_of (found_of arguments.now))) }
    ensures from { IfSome result (λ n. 1 ≤ n) }
    ensures within { IfSome result (λ n. n ≤ 1000000) }
{
    match value(arguments, "bound") {
        Some(text) => number_in(1, MOST_TURNS, text),
        None => Some(MOST_TURNS),
    }
}

fn interpret_in<'a>(arguments: &ArgMatches<'a>) -> Option<Command<'a>>
    ensures command { option_map plain_command result
        ≡ read_by interp_form (rows_of (found_of arguments.now)) }
    ensures range { IfSome result IsInRange }
{
    Some(Command::Interpret {
        source: value(arguments, "IN")?,
        bound: bound_in(arguments)?,
    })
}

/// The command of this name with these arguments.
fn command_named<'a>(name: &str, arguments: &ArgMatches<'a>) -> Option<Command<'a>>
    ensures command { option_map plain_command result
        ≡ option_and_then (λ form. read_by form (rows_of (found_of arguments.now)))
        (form_named name.now forms) }
    ensures range { IfSome result IsInRange }
{
    match name {
        "build" => build_in(arguments),
        "run" => run_in(arguments),
        "gen" => generate_in(arguments),
        "check" => check_in(arguments),
        "session" => session_in(arguments),
        "interp" => interpret_in(arguments),
        _ => None,
    }
}

/// The command that the arguments name.
fn command_in<'a>(arguments: &ArgMatches<'a>) -> Option<Command<'a>>
    ensures command { option_map plain_command result
        ≡ found_by forms (subcommand_rows_of arguments.now) }
    ensures range { IfSome result IsInRange }
{
    let (name, arguments) = arguments.subcommand()?;
    command_named(name, arguments)
}

/// The command of the arguments as they are read, the program's name first; `None` where they are
/// no command.
fn read_arguments<'a>(
    alloc: Global,
    arguments: &'a [String],
) -> Result<Option<Command<'a>>, AllocError>
    ensures command { IfOk result (λ command. option_map plain_command command
        ≡ read_command (map string_bytes arguments.entry.now)) }
    ensures range { IfOk result (λ command. IfSome command IsInRange) }
{
    match rvcc(alloc)?.try_get_matches_from(arguments) {
        Ok(matches) => Ok(command_in(&matches)),
        Err(error) => match error.kind() {
            ErrorKind::OutOfMemory => Err(AllocError),
            _ => Ok(None),
        },
    }
}

/// The command of the arguments, the program's name first; `None` where they are no command. No
/// arguments at all are read as the name alone. A build or a session is by 1 to `MOST_WORKERS`
/// workers, and a source is run within a bound of 1 to 1,000,000.
pub fn parse_command<'a>(
    alloc: Global,
    arguments: &'a [String],
) -> Result<Option<Command<'a>>, AllocError>
    ensures command { IfOk result (λ command. option_map plain_command command
        ≡ command_of (map string_bytes arguments.entry.now)) }
    ensures range { IfOk result (λ command. IfSome command IsInRange) }
{
    if arguments.len() <= 1 {
        Ok(Some(Command::Accept))
    } else if help_is_asked(arguments) {
        Ok(None)
    } else {
        read_arguments(alloc, arguments)
    }
}
