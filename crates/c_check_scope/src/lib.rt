//! Names in scope, tags, and the members of a struct by name (ISO/IEC 9899:2011, 6.2.1, 6.2.3).
//! Each answer is that of a search in plain lists, from the innermost scope outwards. No contract
//! says that a call takes constant time on average, however deep scopes nest: a table finds the
//! declaration that a name has now, and what a scope hid is put back when it ends.
//! Always: a name means what its innermost declaration says.
#![tactic(auto)]

mod declarations;
pub mod laws;
mod members;
mod names;
mod scopes;
mod tags;

pub use members::Members;
pub use names::Names;
pub use scopes::Scopes;
pub use tags::Tags;
