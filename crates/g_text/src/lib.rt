//! Graphs as text and as drawings.
//! Promise: each edge of the lambda is written once, as the defined line, after all nodes.
//! Always: what stood in the buffer before stays before the drawing. The text of what `read`
//! gives is what it read.
#![tactic(auto)]

mod cells;
mod drawing;
mod edges;
mod graph;
mod labels;
mod ops;
mod outputs;
mod push;
mod reading;
mod writing;

pub use graph::write_graph;
pub use ops::{binary_name, binary_named, unary_name, unary_named};
pub use reading::{Named, ReadFault, origin_named, read};
pub use writing::{push_op, write_lambda};
