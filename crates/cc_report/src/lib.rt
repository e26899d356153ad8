//! How a command ends, and what is said of it: outcomes, refusals, the status and the line of
//! each.
//! Promise: the line, the column and the caret are the defined ones. The text is the defined one,
//! the rule in the words of docs/REPORTS.md.
//! Always: the caret stands below the byte of the offset, or behind the last byte of its line.
//! What stood in the buffer before stays before the text. A line is made without memory, so each
//! end can be reported.
#![tactic(auto)]

mod explained;
mod line;
mod lines;
mod log_fault;
mod outcome;
mod refusal;
mod report;
mod rules;
mod shown;

pub use explained::push_refusal;
pub use line::{Line, push_decimal, push_text};
pub use lines::column;
pub use log_fault::LogFault;
pub use outcome::{Ending, Outcome};
pub use refusal::{Refusal, RefusalKind};
pub use report::{tell, text_of};
pub use shown::push_excerpt;
