//! Logs of builds as certificates: their reading, their steps, and the judgement.
//! Promise: bytes are read as the log that they are the text of, and a fault names the first line
//! that is none of a log's. Yes comes where the log certifies the image: the lambdas are those
//! that the steps make, and each count of the log is theirs. Each fault is the first that there
//! is, of steps the first by rank, and within a rank by number.
//! Always: bytes are the log of one list of functions at most. A source, a log and an image have
//! one fault, or the log certifies the image.
#![tactic(auto)]

mod callees;
mod compare;
mod fault;
mod function;
mod image;
mod judge_fault;
pub mod judge_laws;
mod judging;
pub mod laws;
mod line;
mod log;
mod names;
mod number;
mod pieces;
mod ranks;
mod reader;
mod replay_fault;
pub mod replay_laws;
mod replayed;
mod row;
mod series;

pub use fault::ReadFault;
pub use judge_fault::JudgeFault;
pub use judging::judge;
pub use log::{Log, LogPart};
pub use ranks::replay;
pub use reader::read_log;
pub use replay_fault::ReplayFault;
