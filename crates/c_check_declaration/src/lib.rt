//! Variables in blocks and at file scope, and what they begin with (ISO/IEC 9899:2011, 6.7). What
//! each declaration makes, and the state after it, are those of the definition of elaboration, out
//! of memory apart.
#![tactic(auto)]

mod completed;
mod declarators;
mod dimensions;
mod globals;
mod initialisers;
mod parts;
mod pieces;
mod shapes;
mod texts;
mod values;
mod variables;

pub use declarators::{is_fixed, locals};
pub use dimensions::open_dimensions;
pub use globals::{global_declared, more_globals};
