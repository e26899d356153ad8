//! Laws of the definition, each the contract of a function that does nothing.

ghost use Rattle.cc_view_source.specs.CommandRows.{CommandRows};

/// Known lists of arguments have their commands.
pub fn arguments_have_commands()
    ensures { CommandRows }
{}
