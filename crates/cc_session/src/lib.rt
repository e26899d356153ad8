//! A session on a source: edits of its functions, and rebuilds that remake what the edits reach.
//! Promise: an edit is carried out exactly where the name is that of a function, the new source
//! is accepted, and its functions have the names that they had. A rebuild gives the image that
//! the source has under the recipe, made from nothing, and says how many functions were stale.
//! Always: an `AcceptedSource` is accepted, and its program is the one that it is accepted as.
//! The kept answers, and the items of their functions, are those of the source of the last
//! rebuild.
#![tactic(auto)]

mod accepted;
mod edit;
mod fault;
mod items;
mod kept;
mod rebuild;
mod session;

pub use accepted::AcceptedSource;
pub use fault::EditFault;
pub use rebuild::Rebuilt;
pub use session::Session;
