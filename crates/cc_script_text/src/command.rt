//! The commands of a script.

use base::{Bytes, Name};

/// A command of a session.
#[derive(Debug, Drop)]
pub enum Command {
    /// `build`: the image of the source is wanted.
    Build,
    /// `replace NAME LENGTH`, a line end and LENGTH bytes: they are put in place of the definition
    /// of the function NAME.
    Replace { name: Name, text: Bytes },
    /// `end`: the session ends.
    End,
}
