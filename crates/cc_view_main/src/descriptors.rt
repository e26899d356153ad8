//! The descriptors 0, 1 and 2, of the standard streams. A program may be started without some of
//! them; the first file that it opens would then be taken for one.

use std::fs::OpenOptions;
use std::io;
use std::os::fd::{AsFd, IntoRawFd};

/// The device that is at its end, and takes all that is written.
const NULL_DEVICE: &str = "/dev/null";

/// The number of the error of a descriptor that is not open (EBADF).
const NOT_OPEN: i32 = 9;

fn is_closed(stream: &impl AsFd) -> bool {
    match stream.as_fd().try_clone_to_owned() {
        Ok(_) => false,
        Err(error) => error.raw_os_error() == Some(NOT_OPEN),
    }
}

/// Opens the null device. It gets the least number that is free (POSIX.1-2017, `open`), which stays
/// open to the end.
fn open_null(rt: &HostRuntime) -> io::Result<()> {
    let null = OpenOptions::new()
        .read(true)
        .write(true)
        .open(rt, NULL_DEVICE)?;
    let _ = null.into_raw_fd();
    Ok(())
}

/// Opens each of the three that is closed on the null device, the least number first. So the input
/// of a program that was started without one is at its end, and nobody sees its output. `Err` where
/// that cannot be opened.
pub fn open_closed(rt: &HostRuntime) -> io::Result<()> {
    if is_closed(&rt.stdin()) {
        open_null(rt)?;
    }
    if is_closed(&rt.stdout()) {
        open_null(rt)?;
    }
    if is_closed(&rt.stderr()) {
        open_null(rt)?;
    }
    Ok(())
}
