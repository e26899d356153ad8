//! What is called by a call, and what the call does.

/// What a call does (ISO/IEC 9899:2011, 6.5.2.2).
#[derive(Clone, Copy, PartialEq, Eq, Debug)]
pub enum Callee {
    /// It writes a byte.
    Putchar,
    /// It reads a byte.
    Getchar,
    /// It ends the program.
    Exit,
    /// It calls a function of the file, by its number among those that the file defines.
    Defined(u32),
}

/// What is called.
#[derive(Clone, Copy, PartialEq, Eq, Debug)]
pub enum Called {
    /// A function, also by its number among the declared ones.
    Function { callee: Callee, declared: u32 },
    /// An expression that is no function's name.
    NoFunction,
    /// What has a broken rule within it.
    Nothing,
}
