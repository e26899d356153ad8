//! The steps of a run, one by one, and the answers that are known at once.
//! Promise: what is answered is what the definition of the run gives, and the state stays. The
//! tasks that are put at the end of the list are those that the definition says.
//! Always: nothing is promised where nothing is answered, and no call goes deeper than it is
//! told. The tasks that were there before stay as they are.
#![tactic(auto)]

mod answered_expression;
mod assignment;
mod expression;
mod number;
mod push;
mod read;
mod scope;
mod statement;

pub use answered_expression::{address, answer, asked, word};
pub use assignment::{Assignment, value_slot, written};
pub use expression::{drop_each, evaluate, locate, pass_each};
pub use read::loaded;
pub use scope::Scope;
pub use statement::{again, begin_elements, run_groups, run_items, run_stmt, run_turns, turn};
