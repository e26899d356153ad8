//! The rules of the language that a program may break, and the limits that it may pass.

/// The kinds of refusals of the checker: the rules of the language that a program may break.
#[derive(Clone, Copy, PartialEq, Eq, Debug)]
pub enum RefusalKind {
    /// A name, tag or member that is not declared, or a called function that is nowhere defined.
    Unknown,
    /// A second declaration in one scope, or one of another type.
    Redeclared,
    /// What may not be assigned, or has no address.
    NotAssignable,
    /// Operands of other types than the operator takes.
    BadOperands,
    /// A call of what is no function, or with other arguments; a function that is not called.
    BadCall,
    /// What is no constant expression, or no size of an array.
    NotConstant,
    /// An initialiser that does not fit what it begins.
    BadInitialiser,
    /// A type that an object, a parameter or a result may not have.
    BadType,
    /// A value that the function does not give, or none.
    BadReturn,
    /// A `break` or `continue` with nothing to leave or to go on with.
    BadJump,
    /// A second label of one value in a `switch`.
    BadLabel,
}

/// A broken rule and the offset in bytes that it is reported at.
#[derive(Clone, Copy, PartialEq, Eq, Debug)]
pub struct Broken {
    pub rule: RefusalKind,
    pub offset: u32,
}

/// The quantities of a program that have a limit.
#[derive(Clone, Copy, PartialEq, Eq, Debug)]
pub enum Quantity {
    /// Function definitions.
    Functions,
    /// Parameters of one function.
    Parameters,
    /// Bytes of memory objects of one function.
    ObjectBytes,
    /// Bytes of globals.
    GlobalBytes,
}
