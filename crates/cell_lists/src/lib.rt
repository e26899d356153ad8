//! Doubly linked lists over numbered cells, and cells that hold keys with an index by key.
//! Always: a cell is in at most one of the lists, and there at most once.
//! All calls but `new` take no memory, and constant time; `first` of a key whose cells do not rise
//! looks through all cells.
#![tactic(auto)]

mod index;
mod links;
mod lists;

pub use index::InvertedIndex;
pub use lists::CellLists;
