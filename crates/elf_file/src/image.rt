//! A program in memory, and the numbers that say where its sections stand.

/// The size of a page in bytes. Each section of an image begins on a page of its own.
pub const PAGE: u32 = 4096;

/// The address of the text, which is also the entry.
pub const TEXT_AT: u32 = 0x10000;

/// The size of the stack in bytes.
pub const STACK_SIZE: u32 = 8_388_608;

/// The most bytes of memory that the segments of an executable may have together.
pub const MEMORY_LIMIT: u32 = 268_435_456;

/// A program in memory: the text at the address `TEXT_AT`, the read-only globals at `fixed_at`, the
/// other globals at `data_at`, and the stack from `stack_at` on. Without read-only globals
/// `fixed_at` equals `data_at`.
#[derive(Debug, PartialEq, Eq, Drop)]
pub struct Image {
    /// The bytes of the instructions.
    pub text: Vec<u8>,
    /// The bytes of the read-only globals.
    pub fixed: Vec<u8>,
    /// The address of `fixed`.
    pub fixed_at: u32,
    /// The bytes of the other globals.
    pub globals: Vec<u8>,
    /// The address of `globals`.
    pub data_at: u32,
    /// The lowest address of the stack, which has `STACK_SIZE` bytes.
    pub stack_at: u32,
}
