//! Lambdas with an index of nodes, neighbours and uses, so that a look or a change takes constant time.
//! Promise: each call does what its contract says of the list of nodes, and costs one look.
//! Always: an arena is indexed as its nodes ask.
//! A call that removes from a list takes time linear in the later entries of the list and their
//! uses. All calls but `of`, `into_lambda` and those of `Keys` take no memory.
#![tactic(auto)]

mod arena;
mod making;

pub use arena::{Arena, NodeView, Uses};
pub use g_arena_use::Keys;
