//! The executable file of an image.

ghost use Rattle.std.specs.Prelude.{◌≡◌, ◌++◌, IfOk, OnOk, length};
ghost use Rattle.std.specs.List.{flat_map};
ghost use Rattle.elf_file.specs.Image.{sections_of, IsPlaced};
ghost use Rattle.elf_file.specs.Header.{header_of, program_header};
ghost use Rattle.elf_file.specs.Written.{fixed_offset, data_offset, text_header, fixed_header, fixed_headers, data_header, program_headers, headers, file_of};

use crate::header::{LOAD, ProgramHeader, push_elf_header, push_program_header};
use crate::image::{Image, PAGE, STACK_SIZE, TEXT_AT};
use base::NoMemory;
use std::alloc::{AllocError, Global};

impl Image {
    /// The number of program headers.
    fn header_count(&self) -> u16
        ensures { result ≡ length (program_headers (sections_of self.now)) }
    {
        if self.fixed.is_empty() { 2 } else { 3 }
    }

    /// The offset of the read-only globals in the file, which is as far from the text's as in
    /// memory.
    fn fixed_offset(&self) -> u32
        requires { IsPlaced (sections_of self.now) }
        ensures { result ≡ fixed_offset (sections_of self.now) }
    {
        self.fixed_at - TEXT_AT + PAGE
    }

    /// The offset of the other globals in the file.
    fn data_offset(&self) -> u32
        requires { IsPlaced (sections_of self.now) }
        ensures { result ≡ data_offset (sections_of self.now) }
    {
        self.data_at - TEXT_AT + PAGE
    }

    fn text_header(&self) -> ProgramHeader
        requires { IsPlaced (sections_of self.now) }
        ensures { header_of result ≡ text_header (sections_of self.now) }
    {
        let size = self.text.len() as u32;
        ProgramHeader {
            kind: LOAD,
            offset: PAGE,
            at: TEXT_AT,
            file_size: size,
            memory_size: size,
            flags: 5,
        }
    }

    fn fixed_header(&self) -> ProgramHeader
        requires { IsPlaced (sections_of self.now) }
        ensures { header_of result ≡ fixed_header (sections_of self.now) }
    {
        let size = self.fixed.len() as u32;
        ProgramHeader {
            kind: LOAD,
            offset: self.fixed_offset(),
            at: self.fixed_at,
            file_size: size,
            memory_size: size,
            flags: 4,
        }
    }

    fn data_header(&self) -> ProgramHeader
        requires { IsPlaced (sections_of self.now) }
        ensures { header_of result ≡ data_header (sections_of self.now) }
    {
        ProgramHeader {
            kind: LOAD,
            offset: self.data_offset(),
            at: self.data_at,
            file_size: self.globals.len() as u32,
            memory_size: self.stack_at + STACK_SIZE - self.data_at,
            flags: 6,
        }
    }
}

/// Adds the header of the read-only globals, where there are any.
fn push_fixed_header(file: &mut Vec<u8>, image: &Image) -> Result<(), AllocError>
    requires { IsPlaced (sections_of image.now) }
    ensures { OnOk result
        (file.new.items
        ≡ file.old.items ++ flat_map program_header (fixed_headers (sections_of image.now))) }
{
    if !image.fixed.is_empty() {
        push_program_header(file, &image.fixed_header())?;
    }
    Ok(())
}

fn push_headers(file: &mut Vec<u8>, image: &Image) -> Result<(), AllocError>
    requires { IsPlaced (sections_of image.now) }
    ensures { OnOk result (file.new.items ≡ file.old.items ++ headers (sections_of image.now)) }
{
    push_elf_header(file, TEXT_AT, image.header_count())?;
    push_program_header(file, &image.text_header())?;
    push_fixed_header(file, image)?;
    push_program_header(file, &image.data_header())?;
    Ok(())
}

/// The executable file of an image: ELF for 32-bit processors, little-endian (System V ABI,
/// chapters 4 and 5), with the entry at `TEXT_AT`. Its segments are the text (to read and execute),
/// the read-only globals where there are any (to read), and the other globals with the stack after
/// them (to read and write). `NoMemory` only where the allocator has none.
pub fn write(alloc: Global, image: &Image) -> Result<Vec<u8>, NoMemory>
    requires { IsPlaced (sections_of image.now) }
    ensures { IfOk result (λ file. file.items ≡ file_of (sections_of image.now)) }
{
    let fixed_offset = image.fixed_offset() as usize;
    let data_offset = image.data_offset() as usize;
    let mut file = Vec::with_capacity(alloc, data_offset + image.globals.len())?;
    push_headers(&mut file, image)?;
    file.resize(PAGE as usize, 0)?;
    file.extend_from_slice(&image.text)?;
    file.resize(fixed_offset, 0)?;
    file.extend_from_slice(&image.fixed)?;
    file.resize(data_offset, 0)?;
    file.extend_from_slice(&image.globals)?;
    Ok(file)
}
