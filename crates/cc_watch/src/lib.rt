//! Watchers: values that learn what a recipe did to each function, and give a text of it. The text
//! is that of the list of rows.
//! Always: a watcher stands for the rows that it was given.
#![tactic(auto)]

mod counter;
mod log_keeper;
mod row;
mod text;
mod watcher;

pub use counter::Counter;
pub use log_keeper::LogKeeper;
pub use r_rule::StepList;
pub use row::Row;
pub use watcher::Watcher;
