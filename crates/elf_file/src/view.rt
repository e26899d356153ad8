//! What a file that was read shows: its entry, and its segments.

ghost use Rattle.std.specs.Prelude.{◌≡◌, ◌+◌, ◌*◌, ◌<◌, ◌≤◌, is_none, IsTrue, Some, length, slice_get};
ghost use Rattle.elf_file.specs.Header.{header_of, header_at};
ghost use Rattle.elf_file.specs.Loading.{headers_start, header_count, segment_at, fault_of};
ghost use Rattle.elf_file.specs.Segments.{segment_of, IsContained, AreSound};

use crate::header::{
    LOAD, PROGRAM_HEADER_SIZE, ProgramHeader, read_half, read_program_header, read_word,
};

/// A segment of an executable: `size` bytes of memory from the address `at` on, of which the first
/// ones are `bytes` and the others zero. `flags` has the bits 4 to read, 2 to write and 1 to
/// execute.
#[derive(Clone, Copy, Debug)]
pub struct Segment<'a> {
    /// The address of the first byte.
    pub at: u32,
    /// The size in memory, in bytes.
    pub size: u32,
    /// What is allowed: 4 to read, 2 to write, 1 to execute.
    pub flags: u32,
    /// The bytes that the file has.
    pub bytes: &'a [u8],
}

/// An executable that `read` has found sound.
#[derive(Clone, Copy, Debug)]
pub struct ImageView<'a> {
    pub(crate) bytes: &'a [u8],
    ghost sound: { IsTrue (is_none (fault_of bytes.now)) },
}

/// The segment that a program header describes.
fn load<'a>(bytes: &'a [u8], header: &ProgramHeader) -> Segment<'a>
    requires { header.now.offset + header.now.file_size ≤ length bytes.now }
    ensures { segment_of result ≡ segment_at bytes.now (header_of header.now) }
{
    let start = header.offset as usize;
    Segment {
        at: header.at,
        size: header.memory_size,
        flags: header.flags,
        bytes: &bytes[start..start + header.file_size as usize],
    }
}

impl<'a> ImageView<'a> {
    ghost use Rattle.elf_file.specs.ImageView.{executable_of};

    /// The address of the first instruction.
    pub fn entry(&self) -> u32
        ensures { result ≡ (executable_of self.now).entry }
    {
        read_word(self.bytes, 24)
    }

    fn header_count(&self) -> usize
        ensures { result ≡ header_count self.now.bytes.now }
    {
        read_half(self.bytes, 44) as usize
    }

    fn header(&self, k: usize) -> ProgramHeader
        requires { k < header_count self.now.bytes.now }
        ensures { header_of result
            ≡ header_at self.now.bytes.now (headers_start self.now.bytes.now + 32 * k) }
    {
        let start = read_word(self.bytes, 28) as usize;
        read_program_header(self.bytes, start + PROGRAM_HEADER_SIZE * k)
    }

    /// The number of segments that are loaded (PT_LOAD), 0 to 16.
    pub fn count(&self) -> u32
        ensures value { result ≡ length (executable_of self.now).segments }
        ensures sound { AreSound (executable_of self.now).segments }
    {
        let mut found = 0;
        for k in 0..self.header_count() {
            if self.header(k).kind == LOAD {
                found += 1;
            }
        }
        found
    }

    /// The segment `k` of those that are loaded, in the order of their headers.
    pub fn segment(&self, k: u32) -> Segment<'a>
        requires { k < length (executable_of self.now).segments }
        ensures value { slice_get (executable_of self.now).segments k ≡ Some (segment_of result) }
        ensures contained { IsContained (segment_of result) }
    {
        let mut before = k;
        for i in 0..self.header_count() {
            let header = self.header(i);
            if header.kind == LOAD {
                if before == 0 {
                    return load(self.bytes, &header);
                }
                before -= 1;
            }
        }
        unreachable!()
    }
}
