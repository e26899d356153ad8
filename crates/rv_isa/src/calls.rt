//! The environment calls by the number in a7, as Linux has them on RISC-V.

/// Read bytes from a file descriptor.
pub const READ_CALL: u32 = 63;

/// Write bytes to a file descriptor.
pub const WRITE_CALL: u32 = 64;

/// End the program with a status.
pub const EXIT_CALL: u32 = 93;
