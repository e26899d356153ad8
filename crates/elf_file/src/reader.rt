//! Reading an executable, without memory.

ghost use Rattle.std.specs.Prelude.{◌≡◌, ◌+◌, ◌*◌, ◌≤◌, length, MatchResult, Ok, Err, ◌&&◌};
ghost use Rattle.std.specs.List.{list_all};
ghost use Rattle.elf_file.specs.Header.{header_of};
ghost use Rattle.elf_file.specs.ImageView.{executable_of};
ghost use Rattle.elf_file.specs.Loading.{loads_from, is_profile, is_contained, is_apart, are_loadable, fault_of, loaded};

use crate::fault::ElfFault;
use crate::header::{
    ELF_HEADER_SIZE, LOAD, PROGRAM_HEADER_SIZE, ProgramHeader, read_half, read_program_header,
    read_word,
};
use crate::image::MEMORY_LIMIT;
use crate::view::ImageView;

/// The most bytes of a file.
const FILE_LIMIT: usize = 268_435_456;

const MAX_HEADER_COUNT: u16 = 16;

impl ProgramHeader {
    fn memory_end(&self) -> u64
        ensures { result ≡ self.now.at + self.now.memory_size }
    {
        u64::from(self.at) + u64::from(self.memory_size)
    }

    #[tactic(auto, unfolding(crate::specs::Loading::is_contained))]
    fn is_contained(&self, file_length: usize) -> bool
        ensures { result ≡ is_contained file_length (header_of self.now) }
    {
        self.file_size <= self.memory_size
            && u64::from(self.offset) + u64::from(self.file_size) <= file_length as u64
            && self.memory_end() <= 1 << 32
    }

    #[tactic(auto, unfolding(crate::specs::Loading::is_apart))]
    fn is_apart(&self, other: &ProgramHeader) -> bool
        ensures { result ≡ is_apart (header_of self.now) (header_of other.now) }
    {
        self.memory_size == 0
            || other.memory_size == 0
            || self.memory_end() <= u64::from(other.at)
            || other.memory_end() <= u64::from(self.at)
    }
}

#[tactic(auto, unfolding(crate::specs::Loading::is_profile))]
fn has_profile(bytes: &[u8]) -> bool
    requires { 52 ≤ length bytes.now }
    ensures { result ≡ is_profile bytes.now }
{
    bytes[4] == 1
        && bytes[5] == 1
        && bytes[6] == 1
        && read_half(bytes, 16) == 2
        && read_half(bytes, 18) == 243
        && read_word(bytes, 20) == 1
        && read_half(bytes, 42) == 32
        && 1 <= read_half(bytes, 44)
        && read_half(bytes, 44) <= MAX_HEADER_COUNT
}

/// Whether a segment is apart from those of the `count` program headers from `at` on.
fn is_apart_from_all(bytes: &[u8], header: &ProgramHeader, at: usize, count: usize) -> bool
    requires { at + 32 * count ≤ length bytes.now }
    ensures { result ≡ list_all (is_apart (header_of header.now)) (loads_from bytes.now at count) }
{
    for k in 0..count {
        let other = read_program_header(bytes, at + PROGRAM_HEADER_SIZE * k);
        if other.kind == LOAD && !header.is_apart(&other) {
            return false;
        }
    }
    true
}

/// Whether a segment may be loaded in a file with these bytes, and is apart from those of the
/// `count` program headers from `at` on.
fn is_separate(bytes: &[u8], header: &ProgramHeader, at: usize, count: usize) -> bool
    requires { at + 32 * count ≤ length bytes.now }
    ensures { result
        ≡ (is_contained (length bytes.now) (header_of header.now) && list_all
        (is_apart (header_of header.now)) (loads_from bytes.now at count)) }
{
    header.is_contained(bytes.len()) && is_apart_from_all(bytes, header, at, count)
}

/// Whether the segments of the `count` program headers from `at` on may be loaded together.
fn may_be_loaded(bytes: &[u8], at: usize, count: usize) -> bool
    requires inside { at + 32 * count ≤ length bytes.now }
    requires few { count ≤ 16 }
    ensures { result ≡ are_loadable (length bytes.now) (loads_from bytes.now at count) }
{
    let mut total = 0;
    for k in 0..count {
        let header = read_program_header(bytes, at + PROGRAM_HEADER_SIZE * k);
        if header.kind == LOAD {
            let next = k + 1;
            if !is_separate(
                bytes,
                &header,
                at + PROGRAM_HEADER_SIZE * next,
                count - next,
            ) {
                return false;
            }
            total += u64::from(header.memory_size);
        }
    }
    total <= u64::from(MEMORY_LIMIT)
}

#[tactic(auto, unfolding(crate::specs::Loading::fault_of))]
fn first_fault(bytes: &[u8]) -> Option<ElfFault>
    ensures { result ≡ fault_of bytes.now }
{
    if bytes.len() > FILE_LIMIT {
        return Some(ElfFault::LongFile);
    }
    if bytes.len() < ELF_HEADER_SIZE {
        return Some(ElfFault::Short);
    }
    if !bytes.starts_with(b"\x7fELF") {
        return Some(ElfFault::NotElf);
    }
    if !has_profile(bytes) {
        return Some(ElfFault::NotProfile);
    }
    let start = read_word(bytes, 28) as usize;
    let count = read_half(bytes, 44) as usize;
    if bytes.len() < start + PROGRAM_HEADER_SIZE * count {
        return Some(ElfFault::Short);
    }
    if !may_be_loaded(bytes, start, count) {
        return Some(ElfFault::BadSegment);
    }
    None
}

/// Reads an ELF executable for 32-bit RISC-V (System V ABI, chapters 4 and 5) without taking
/// memory: the view borrows the bytes. Segments that are not loaded, ELF sections and flags are
/// skipped. A fault comes exactly where the file has it; `ElfFault` says which of several comes.
pub fn read(bytes: &[u8]) -> Result<ImageView<'_>, ElfFault>
    ensures { MatchResult result (λ view. loaded bytes.now ≡ Ok (executable_of view))
        (λ fault. loaded bytes.now ≡ Err fault) }
{
    match first_fault(bytes) {
        Some(fault) => Err(fault),
        None => Ok(ImageView { bytes }),
    }
}
