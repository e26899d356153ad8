//! The graph of a function, whether it is well formed, and its changes.
//! Promise: each public call does what its contract says of the graph's tree, and takes no memory
//! where it only reads.
#![tactic(auto)]

mod can_change;
mod change;
mod checking;
mod constants;
mod copy;
mod count;
mod equality;
mod find;
mod kind_lists;
mod kinds;
mod lambda;
mod link;
mod names;
mod numbers;
mod objects;
mod omega;
mod op;
mod redirect;
mod region;
mod replace;
mod splicing;
mod states;
mod unique;
mod uses;

pub use can_change::{CanChange, can_change_lambda};
pub use change::{Change, change_lambda, change_region};
pub use checking::check;
pub use constants::{const_word, constant};
pub use copy::{copy_of, copy_region};
pub use count::values;
pub use equality::equal;
pub use find::{holds_node, node_at, node_index, set_node};
pub use kinds::{first_args, is_of, is_pure, known, op_outputs, output_kind};
pub use lambda::{Lambda, Object};
pub use link::Link;
pub use names::main_index;
pub use numbers::{ids, region_ids};
pub use objects::leaves_fit;
pub use omega::{Delta, Omega};
pub use op::{Kind, Op, Origin};
pub use redirect::{
    ArgsToInputs, OriginReplaced, OutputsToResults, Redirect, redirect_nodes, redirect_origins,
    redirect_region, same_origin,
};
pub use region::{Node, Region};
pub use replace::replace_uses;
pub use splicing::{splice, splice_region};
pub use uses::{is_used, nodes_use};
