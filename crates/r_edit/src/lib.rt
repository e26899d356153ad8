//! Edits of a lambda, and copies of parts of it under new numbers.
//! Here is also what a step of a rule promises.
//! Promise: a copy is the defined one, as well formed as what is copied, and does the same. An
//! edit gives the defined region. A list of tests or of origins takes memory.
//! Always: what counts takes no memory. An edit takes no memory.
#![tactic(auto)]

mod carried;
pub mod copy_laws;
mod entries;
mod exits;
mod in_place;
pub mod laws;
mod limited;
mod lookup;
mod numbered;
mod numbers;
mod origins;
mod places;
mod removal;
mod rule;
mod size;
mod source;
mod stays;
pub mod steps;
mod uses;
mod variables;

pub use carried::{carry_exits, carry_uses};
pub use entries::{keep_entries, keep_entries_of};
pub use exits::keep_exits;
pub use in_place::{NodeEdit, RegionEdit, edit_first, edit_regions, redirect_after};
pub use limited::{numbers_left, values_left};
pub use lookup::{first_of, same_op, same_origins};
pub use numbered::{Numbered, copy_numbered};
pub use origins::{arguments, outputs_of};
pub use places::{
    keep, keep_after_first, keep_inputs, keep_inputs_after_first, place_after, stays_at,
};
pub use removal::remove_node;
pub use rule::{RegionRule, applies, apply};
pub use size::may_change_size;
pub use source::{Source, is_source, is_source_among, nodes_use_source, uses_source};
pub use stays::{Stays, all_stay, are_all_true, list_of};
pub use uses::{is_output_of, nodes_read, reads_node, replace_used, some_output_of};
pub use variables::keep_variables;
