//! What an arena holds: its uses, its keys and its slots.
//! Promise: a key gets the node that came first with it. Each call does what its contract says of
//! the nodes that are stored, in constant time. Each call does what its contract says of the
//! lists, and the first use of an origin and how many it has are found in constant time.
//! Always: a read and a change of what is stored is one of the nodes that are seen. The index by
//! number and the neighbours are those of the nodes that are there. What the index holds is what
//! the lists hold.
#![tactic(auto)]

mod keys;
mod nodes;
mod use_index;
mod use_lists;

pub use keys::Keys;
pub use nodes::{Kinds, Nodes, Slot};
pub use use_index::{Use, UseNames};
pub use use_lists::{OriginList, UseLists};
