//! The law that seats and shared boards cross threads.

use crate::shared::Shared;
use crate::view::Seat;
use board_core::Work;

fn is_send<T: Send>() {}

fn is_sync<T: Sync>() {}

/// A law for callers: whatever the work is, a seat may go to another thread, and threads may share
/// the board by reference.
pub fn crosses_threads<W: Work>() {
    is_send::<Seat<W>>();
    is_send::<Shared<W>>();
    is_sync::<Shared<W>>();
}
