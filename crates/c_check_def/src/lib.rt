//! What the checker accepts, as a definition, operators included.
//! Of several broken rules in a declaration the one at the least offset counts. Nothing in it
//! runs.
#![tactic(auto)]

mod call;
mod dimension;
mod meaning;
mod operand;
mod refusal_kind;

pub use call::{Called, Callee};
pub use dimension::Dimension;
pub use meaning::Meaning;
pub use operand::Operand;
pub use refusal_kind::{Broken, Quantity, RefusalKind};
