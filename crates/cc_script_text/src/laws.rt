//! Laws of scripts and of their reading, each the contract of a function that does nothing.

ghost use Rattle.cc_script_text.specs.Laws.{BreaksStand, BrokenIsSaid, CommandsAreSpelled, CommandsStand, EndIsSaid, LackIsSaid, RestIsNotRead, TakenIsSaid};
ghost use Rattle.cc_script_text.specs.ScriptRows.{ScriptRows};

/// Bytes begin with a command exactly where they begin with how it is written.
pub fn commands_are_spelled()
    ensures { CommandsAreSpelled }
{}

/// What follows a command, or what is none, does not change it.
pub fn first_commands_stand()
    ensures commands { CommandsStand }
    ensures breaks { BreaksStand }
{}

/// What follows `end`, or what breaks a command, changes nothing.
pub fn the_rest_is_not_read()
    ensures { RestIsNotRead }
{}

/// What a reader takes of a script is what the script says.
pub fn what_is_taken_is_said()
    ensures commands { TakenIsSaid }
    ensures end { EndIsSaid }
    ensures broken { BrokenIsSaid }
    ensures lack { LackIsSaid }
{}

/// Known scripts say what their rows have.
pub fn scripts_say_commands()
    ensures { ScriptRows }
{}
