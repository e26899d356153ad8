//! The arguments of a command, as the kit's reader of command lines takes them.

ghost use Rattle.std.specs.Prelude.{◌≡◌, drop, false, map, option_map, IfOk};
ghost use Rattle.std.specs.List.{list_any};
ghost use Rattle.std.specs.String.{string_bytes};
ghost use Rattle.clap.specs.Words.{app_of, first_of, found_of, rows_of, with_rule};
ghost use Rattle.clap.specs.declared.builder.command.Command.TheViews.{out-Command as fields_of};
ghost use Rattle.cc_command.specs.Arguments.{option, required};
ghost use Rattle.cc_command.specs.Forms.{asks_for_help};

use clap::{Arg, ArgMatches, Command as Reader};
use std::alloc::{AllocError, Global};

/// The command with one more required argument.
pub fn with_required<'a>(
    alloc: Global,
    command: Reader<'a>,
    name: &'a str,
) -> Result<Reader<'a>, AllocError>
    ensures app { IfOk result (λ c. app_of c
        ≡ with_rule (app_of command.entry) (required name.entry.now)) }
    ensures globals { IfOk result (λ c. (fields_of command.entry).has_globals ≡ false
        → (fields_of c).has_globals ≡ false) }
{
    command.arg(Arg::new(alloc, name).required(true))
}

/// The command with one more option, whose value is a text.
pub fn with_option<'a>(
    alloc: Global,
    command: Reader<'a>,
    name: &'a str,
) -> Result<Reader<'a>, AllocError>
    ensures app { IfOk result (λ c. app_of c
        ≡ with_rule (app_of command.entry) (option name.entry.now)) }
    ensures globals { IfOk result (λ c. (fields_of command.entry).has_globals ≡ false
        → (fields_of c).has_globals ≡ false) }
{
    command.arg(Arg::new(alloc, name).long(name))
}

/// The value of the argument of this name.
pub fn value<'a>(arguments: &ArgMatches<'a>, name: &str) -> Option<&'a str>
    ensures { option_map (λ s. s.now) result
        ≡ first_of name.now (rows_of (found_of arguments.now)) }
{
    arguments.get_str(name)
}

/// Whether the argument asks for help or for the version.
fn asks_for_help(argument: &str) -> bool
    ensures { result ≡ asks_for_help argument.now }
{
    matches!(argument, "help" | "--help" | "-h" | "--version" | "-V")
}

/// Whether one of the arguments does.
fn any_asks_for_help(arguments: &[String]) -> bool
    ensures { result ≡ list_any asks_for_help (map string_bytes arguments.now) }
{
    for argument in arguments {
        if asks_for_help(argument) {
            return true;
        }
    }
    false
}

/// Whether an argument after the program's name does, at any index.
pub fn help_is_asked(arguments: &[String]) -> bool
    ensures { result ≡ list_any asks_for_help (drop 1 (map string_bytes arguments.now)) }
{
    match arguments.split_first() {
        Some((_, arguments)) => any_asks_for_help(arguments),
        None => false,
    }
}
