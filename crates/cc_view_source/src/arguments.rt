//! The arguments of the command line.

ghost use Rattle.std.specs.Prelude.{◌≡◌, false, Some, map, option_and_then, option_map, IfOk};
ghost use Rattle.std.specs.String.{string_bytes};
ghost use Rattle.clap.specs.Words.{app_of, first_of, found_of, rows_of, shape_of, subcommand_rows_of};
ghost use Rattle.clap.specs.declared.builder.command.Command.TheViews.{out-Command as fields_of};
ghost use Rattle.cc_command.specs.Arguments.{shape_of_form};
ghost use Rattle.cc_command.specs.Command.{recipe_option};
ghost use Rattle.cc_command.specs.Forms.{form_named, text, value_or_default};
ghost use Rattle.cc_command.specs.Reading.{found_by, read_by};
ghost use Rattle.cc_view_source.specs.Arguments.{read_command, view_app};
ghost use Rattle.cc_view_source.specs.Command.{after_option, command_of, drawing_of, explain_form, form_option, forms, graph_form, graph_recipe_option, listing_form, optional_number, steps_form};
ghost use Rattle.cc_view_source.specs.PlainCommand.{plain_command};

use cc_command::numbers::number_in;
use cc_command::reader::{help_is_asked, value, with_option, with_required};
use clap::error::ErrorKind;
use clap::{ArgMatches, Command as Reader};
use std::alloc::{AllocError, Global};

/// How a graph is shown.
#[derive(Clone, Copy)]
pub enum Drawing {
    /// As a drawing in the language DOT of Graphviz.
    Dot,
    /// As rows, a line for each node.
    Rows,
}

/// What the arguments of a command line ask for.
#[derive(Clone, Copy)]
pub enum Command<'a> {
    /// `graph IN [--recipe LIST] [--function NAME] [--after K] [--form dot|rows]`: draw what the
    /// recipe LIST, which may be any text, makes of each function of the source named IN, or of the
    /// one named NAME, after its first K steps where K is given, 0 to 2^32 - 1. LIST is `none`
    /// where it is not given. K is given together with NAME alone.
    Graph {
        source: &'a str,
        recipe: &'a str,
        function: Option<&'a str>,
        after: Option<u32>,
        drawing: Drawing,
    },
    /// `steps IN [--recipe LIST]`: tell what each sweep of LIST does to each function; LIST is that
    /// of a build where it is not given.
    Steps {
        source: &'a str,
        recipe: &'a str,
    },
    /// `listing IN [--recipe LIST]`: write its image as an assembler source; LIST as of `steps`.
    Listing {
        source: &'a str,
        recipe: &'a str,
    },
    /// `explain IN [--recipe LIST]`: say why the source is refused, or how large its image is and
    /// how deep its stack gets; LIST as of `steps`.
    Explain {
        source: &'a str,
        recipe: &'a str,
    },
}

fn graph_arguments<'a>(alloc: Global) -> Result<Reader<'a>, AllocError>
    ensures shape { IfOk result (λ c. shape_of c ≡ shape_of_form graph_form) }
    ensures globals { IfOk result (λ c. (fields_of c).has_globals ≡ false) }
{
    let command = with_required(alloc, Reader::new(alloc, "graph"), "IN")?;
    let command = with_option(alloc, command, "recipe")?;
    let command = with_option(alloc, command, "function")?;
    let command = with_option(alloc, command, "after")?;
    with_option(alloc, command, "form")
}

fn steps_arguments<'a>(alloc: Global) -> Result<Reader<'a>, AllocError>
    ensures shape { IfOk result (λ c. shape_of c ≡ shape_of_form steps_form) }
    ensures globals { IfOk result (λ c. (fields_of c).has_globals ≡ false) }
{
    let command = with_required(alloc, Reader::new(alloc, "steps"), "IN")?;
    with_option(alloc, command, "recipe")
}

fn listing_arguments<'a>(alloc: Global) -> Result<Reader<'a>, AllocError>
    ensures shape { IfOk result (λ c. shape_of c ≡ shape_of_form listing_form) }
    ensures globals { IfOk result (λ c. (fields_of c).has_globals ≡ false) }
{
    let command = with_required(alloc, Reader::new(alloc, "listing"), "IN")?;
    with_option(alloc, command, "recipe")
}

fn explain_arguments<'a>(alloc: Global) -> Result<Reader<'a>, AllocError>
    ensures shape { IfOk result (λ c. shape_of c ≡ shape_of_form explain_form) }
    ensures globals { IfOk result (λ c. (fields_of c).has_globals ≡ false) }
{
    let command = with_required(alloc, Reader::new(alloc, "explain"), "IN")?;
    with_option(alloc, command, "recipe")
}

/// The program, of which each command is a subcommand.
fn view_app<'a>(alloc: Global) -> Result<Reader<'a>, AllocError>
    ensures { IfOk result (λ c. app_of c ≡ view_app) }
{
    Reader::new(alloc, "rvcc")
        .subcommand(graph_arguments(alloc)?)?
        .subcommand(steps_arguments(alloc)?)?
        .subcommand(listing_arguments(alloc)?)?
        .subcommand(explain_arguments(alloc)?)
}

// The recipe of a build that names none.
const DEFAULT_RECIPE: &str = "iln,fold,inv,cne,dne,ivt,psh,pll,url,fold,cne,inv,dne,dne";

/// The text of the recipe, that of a build where none is given.
fn recipe_in<'a>(arguments: &ArgMatches<'a>) -> &'a str
    ensures { Some (text result.now)
        ≡ value_or_default recipe_option
        (first_of recipe_option.name (rows_of (found_of arguments.now))) }
{
    value(arguments, "recipe").unwrap_or(DEFAULT_RECIPE)
}

/// The text of the recipe of a graph.
fn graph_recipe_in<'a>(arguments: &ArgMatches<'a>) -> &'a str
    ensures { Some (text result.now)
        ≡ value_or_default graph_recipe_option
        (first_of graph_recipe_option.name (rows_of (found_of arguments.now))) }
{
    value(arguments, "recipe").unwrap_or("none")
}

/// After how many steps a graph is drawn, where a number is given.
fn after_in(arguments: &ArgMatches<'_>) -> Option<Option<u32>>
    ensures { result ≡ option_and_then optional_number (value_or_default after_option
        (first_of after_option.name (rows_of (found_of arguments.now)))) }
{
    match value(arguments, "after") {
        Some(text) => Some(Some(number_in(0, 4_294_967_295, text)? as u32)),
        None => Some(None),
    }
}

/// How a graph is shown.
fn drawing_in(arguments: &ArgMatches<'_>) -> Option<Drawing>
    ensures { result ≡ option_and_then drawing_of (value_or_default form_option
        (first_of form_option.name (rows_of (found_of arguments.now)))) }
{
    match value(arguments, "form") {
        Some("dot") | None => Some(Drawing::Dot),
        Some("rows") => Some(Drawing::Rows),
        Some(_) => None,
    }
}

fn graph_in<'a>(arguments: &ArgMatches<'a>) -> Option<Command<'a>>
    ensures { option_map plain_command result
        ≡ read_by graph_form (rows_of (found_of arguments.now)) }
{
    let source = value(arguments, "IN")?;
    let recipe = graph_recipe_in(arguments);
    let function = value(arguments, "function");
    let after = after_in(arguments)?;
    let drawing = drawing_in(arguments)?;
    if after.is_some() && function.is_none() {
        return None;
    }
    Some(Command::Graph {
        source,
        recipe,
        function,
        after,
        drawing,
    })
}

fn steps_in<'a>(arguments: &ArgMatches<'a>) -> Option<Command<'a>>
    ensures { option_map plain_command result
        ≡ read_by steps_form (rows_of (found_of arguments.now)) }
{
    Some(Command::Steps {
        source: value(arguments, "IN")?,
        recipe: recipe_in(arguments),
    })
}

fn listing_in<'a>(arguments: &ArgMatches<'a>) -> Option<Command<'a>>
    ensures { option_map plain_command result
        ≡ read_by listing_form (rows_of (found_of arguments.now)) }
{
    Some(Command::Listing {
        source: value(arguments, "IN")?,
        recipe: recipe_in(arguments),
    })
}

fn explain_in<'a>(arguments: &ArgMatches<'a>) -> Option<Command<'a>>
    ensures { option_map plain_command result
        ≡ read_by explain_form (rows_of (found_of arguments.now)) }
{
    Some(Command::Explain {
        source: value(arguments, "IN")?,
        recipe: recipe_in(arguments),
    })
}

/// The command of this name with these arguments.
fn command_named<'a>(name: &str, arguments: &ArgMatches<'a>) -> Option<Command<'a>>
    ensures { option_map plain_command result
        ≡ option_and_then (λ form. read_by form (rows_of (found_of arguments.now)))
        (form_named name.now forms) }
{
    match name {
        "graph" => graph_in(arguments),
        "steps" => steps_in(arguments),
        "listing" => listing_in(arguments),
        "explain" => explain_in(arguments),
        _ => None,
    }
}

/// The command that the arguments name.
fn command_in<'a>(arguments: &ArgMatches<'a>) -> Option<Command<'a>>
    ensures { option_map plain_command result
        ≡ found_by forms (subcommand_rows_of arguments.now) }
{
    let (name, arguments) = arguments.subcommand()?;
    command_named(name, arguments)
}

/// The command of the arguments as they are read, the program's name first; `None` where they are
/// no command.
fn read_arguments<'a>(
    alloc: Global,
    arguments: &'a [String],
) -> Result<Option<Command<'a>>, AllocError>
    ensures { IfOk result (λ command. option_map plain_command command
        ≡ read_command (map string_bytes arguments.entry.now)) }
{
    match view_app(alloc)?.try_get_matches_from(arguments) {
        Ok(matches) => Ok(command_in(&matches)),
        Err(error) => match error.kind() {
            ErrorKind::OutOfMemory => Err(AllocError),
            _ => Ok(None),
        },
    }
}

/// The command of the arguments, the program's name first; `None` where they are no command, as
/// where they ask for help.
pub fn parse_command<'a>(
    alloc: Global,
    arguments: &'a [String],
) -> Result<Option<Command<'a>>, AllocError>
    ensures { IfOk result (λ command. option_map plain_command command
        ≡ command_of (map string_bytes arguments.entry.now)) }
{
    if help_is_asked(arguments) {
        return Ok(None);
    }
    read_arguments(alloc, arguments)
}
