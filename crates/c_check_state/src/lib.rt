//! The state of the checker, and the types that declarations name.
//! Each step makes of a state what the definition of elaboration makes of it, out of memory
//! apart, after which nothing is promised.
//! Always: no step copies the state. No struct is defined and no variable added.
#![tactic(auto)]

mod conditions;
mod declared;
mod declared_type;
mod derived;
mod functions;
mod globals;
mod initial;
mod kinds;
mod maybe_type;
mod names;
mod program;
mod specifiers;
mod state;
mod structs;
mod term;
mod variables;

pub use conditions::small_if_some;
pub use declared::Declared;
pub use declared_type::{named_type, object_type, param_type, result_type};
pub use globals::GlobalObject;
pub use maybe_type::MaybeType;
pub use program::or_void;
pub use specifiers::{Specified, specified_type, tagged};
pub use state::State;
pub use term::Term;
pub use variables::Variable;
