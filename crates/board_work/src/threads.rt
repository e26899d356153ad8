//! The law that workers cross threads.

use crate::worker::Worker;
use board_core::Work;

fn is_send<T: Send>() {}

/// A law for callers: whatever the work is, a worker may go to another thread.
pub fn crosses_threads<W: Work>() {
    is_send::<Worker<W>>();
}
