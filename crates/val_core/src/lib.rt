//! Operations on words and on values, memory, answers, and bounded runs within each other.
//! Promise: `op1` and `op2` give the word that the arithmetic of whole numbers says, and the laws
//! of values, memory, answers and runs hold as stated.
//! Always: an operation on sound values gives a sound value, and it takes no memory.
#![tactic(auto)]

mod leaf;
mod operation;
mod values;
mod word;

pub use leaf::Leaf;
pub use operation::{Op1, Op2};
pub use values::{BlockName, Value, kept, value1, value2};
pub use word::{op1, op2};
