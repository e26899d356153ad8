//! Statements, blocks and the groups of a `switch`, which are one recursion (ISO/IEC 9899:2011,
//! 6.8).
//! What each makes, and the state after it, are those of the definition of elaboration at the
//! plain tree, out of memory apart.
#![tactic(auto)]

mod blocks;
mod forms;
mod jumps;
mod loops;
mod statements;
mod switches;

pub use blocks::items;
pub use forms::{add_group, do_stmt, if_stmt, switch_stmt, value_items, with_else};
pub use jumps::{IN_LOOP, Jumps};
