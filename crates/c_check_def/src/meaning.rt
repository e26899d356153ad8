//! What names mean.

/// What a name means (ISO/IEC 9899:2011, 6.2.1). A variable is const where it was declared so.
#[derive(Clone, Copy, PartialEq, Eq, Debug)]
pub enum Meaning {
    /// A variable of the function, by its slot: the number of variables in scope before it.
    Variable { slot: u32, is_const: bool },
    /// A variable at file scope, by its number among the globals.
    Global { number: u32, is_const: bool },
    /// A function, by its number among the declared ones.
    Function(u32),
}
