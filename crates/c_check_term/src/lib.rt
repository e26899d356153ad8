//! What names, constants, operators and calls make of terms (ISO/IEC 9899:2011, 6.5). Each term and
//! each state is that of the definition of elaboration, out of memory apart.
//! Always: no struct is defined and no variable added.
#![tactic(auto)]

mod arguments;
mod calls;
mod changes;
mod commas;
mod constants;
mod members;
mod names;
mod operators;
mod outcomes;
mod sizes;
mod unary_operators;

pub use arguments::passed;
pub use calls::{called, called_name, called_term};
pub use changes::{assigned, stepped};
pub use commas::{Sequence, comma, first_of, sequence_term};
pub use constants::{character, number, string};
pub use members::selected;
pub use names::named;
pub use operators::{binary, cast, conditional, indexed, measured_term, measured_type};
pub use sizes::{size, term_constant};
pub use unary_operators::unary;
