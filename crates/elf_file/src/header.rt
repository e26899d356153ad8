//! The headers of an ELF file: their sizes, and how they are read and written.

ghost use Rattle.std.specs.Prelude.{◌≡◌, ◌+◌, ◌≤◌, ◌++◌, OnOk, length};
ghost use Rattle.elf_file.specs.Header.{half, half_at, word, word_at, elf_header, program_header, header_at, header_of};

use crate::image::PAGE;
use std::alloc::AllocError;

/// The size of an Elf32_Ehdr in bytes.
pub const ELF_HEADER_SIZE: usize = 52;

/// The size of an Elf32_Phdr in bytes.
pub const PROGRAM_HEADER_SIZE: usize = 32;

/// The kind of a segment that is loaded.
pub const LOAD: u32 = 1;

const IDENT: [u8; 16] = [0x7f, b'E', b'L', b'F', 1, 1, 1, 0, 0, 0, 0, 0, 0, 0, 0, 0];

/// An Elf32_Phdr, without the physical address and the alignment.
#[derive(Clone, Copy)]
pub struct ProgramHeader {
    pub kind: u32,
    pub offset: u32,
    pub at: u32,
    pub file_size: u32,
    pub memory_size: u32,
    pub flags: u32,
}

/// The Elf32_Half at the offset `at`.
pub fn read_half(bytes: &[u8], at: usize) -> u16
    requires { at + 2 ≤ length bytes.now }
    ensures { result ≡ half_at bytes.now at }
{
    u16::from_le_bytes([bytes[at], bytes[at + 1]])
}

/// The Elf32_Word at the offset `at`.
pub fn read_word(bytes: &[u8], at: usize) -> u32
    requires { at + 4 ≤ length bytes.now }
    ensures { result ≡ word_at bytes.now at }
{
    u32::from_le_bytes([bytes[at], bytes[at + 1], bytes[at + 2], bytes[at + 3]])
}

/// The Elf32_Phdr at the offset `at`.
pub fn read_program_header(bytes: &[u8], at: usize) -> ProgramHeader
    requires { at + 32 ≤ length bytes.now }
    ensures { header_of result ≡ header_at bytes.now at }
{
    ProgramHeader {
        kind: read_word(bytes, at),
        offset: read_word(bytes, at + 4),
        at: read_word(bytes, at + 8),
        file_size: read_word(bytes, at + 16),
        memory_size: read_word(bytes, at + 20),
        flags: read_word(bytes, at + 24),
    }
}

fn push_half(file: &mut Vec<u8>, n: u16) -> Result<(), AllocError>
    ensures { OnOk result (file.new.items ≡ file.old.items ++ half n) }
{
    file.extend_from_slice(&n.to_le_bytes())
}

fn push_word(file: &mut Vec<u8>, n: u32) -> Result<(), AllocError>
    ensures { OnOk result (file.new.items ≡ file.old.items ++ word n) }
{
    file.extend_from_slice(&n.to_le_bytes())
}

/// Appends the Elf32_Ehdr of an executable with this entry and this many program headers, which
/// follow it.
pub fn push_elf_header(file: &mut Vec<u8>, entry: u32, count: u16) -> Result<(), AllocError>
    ensures { OnOk result (file.new.items ≡ file.old.items ++ elf_header entry count) }
{
    file.extend_from_slice(&IDENT)?;
    push_half(file, 2)?;
    push_half(file, 243)?;
    push_word(file, 1)?;
    push_word(file, entry)?;
    push_word(file, 52)?;
    push_word(file, 0)?;
    push_word(file, 0)?;
    push_half(file, 52)?;
    push_half(file, 32)?;
    push_half(file, count)?;
    push_half(file, 0)?;
    push_half(file, 0)?;
    push_half(file, 0)?;
    Ok(())
}

/// Appends an Elf32_Phdr.
pub fn push_program_header(file: &mut Vec<u8>, header: &ProgramHeader) -> Result<(), AllocError>
    ensures { OnOk result
        (file.new.items ≡ file.old.items ++ program_header (header_of header.now)) }
{
    push_word(file, header.kind)?;
    push_word(file, header.offset)?;
    push_word(file, header.at)?;
    push_word(file, header.at)?;
    push_word(file, header.file_size)?;
    push_word(file, header.memory_size)?;
    push_word(file, header.flags)?;
    push_word(file, PAGE)?;
    Ok(())
}
