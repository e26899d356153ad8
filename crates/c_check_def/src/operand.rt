//! Operands of operators: lvalues and values.

use c_typed::{TExpr, TPlace};

/// What an operator is applied to (ISO/IEC 9899:2011, 6.3.2.1): an lvalue, or a value. A structure
/// is an lvalue.
#[derive(Drop)]
pub enum Operand {
    /// An lvalue, and whether it is an object that was declared with `const`, or a part of one.
    Place { place: TPlace, is_const: bool },
    /// A value of integer or pointer type, or none, of type `void`.
    Value(TExpr),
}
