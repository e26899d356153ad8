//! The files of a folder of the system.

ghost use Rattle.std.specs.Prelude.{◌≡◌, ◌≤◌, None, length, IsSome, IfOk};
ghost use Rattle.std.specs.String.{string_bytes};
ghost use Rattle.std.specs.Io.KnownBytes.{ReadConsumes, WriteAppends};
ghost use Rattle.cc_io.specs.DirFiles.{name_of, bytes_of};

use crate::failed::Failed;
use crate::failing::fault;
use crate::files::Files;
use crate::uninterrupted::{read_uninterrupted, write_uninterrupted};
use std::alloc::{AllocError, Global};
use std::fs::{OpenFile, OpenOptions};
use std::io::{ErrorKind, Read, Write};
use std::os::unix::fs::{OpenOptionsExt, PermissionsExt};
use std::path::Path;
use std::{fs, io, rt};

// An open file, the name that it was asked for by and, of a file that was not there before it was
// created, the mode that an image has there: 0777 less the mask.
#[derive(Drop)]
struct NamedFile<H> {
    name: String,
    file: H,
    image_mode: Option<u32>,
}

fn read_from<H: Read>(reading: &mut Option<NamedFile<H>>, buf: &mut [u8]) -> io::Result<usize>
    requires { IsSome reading.old }
    ensures count { IfOk result (λ n. n ≤ length buf.old) }
    ensures name { name_of reading.new ≡ name_of reading.old }
    ensures file { ReadConsumes (bytes_of H.remaining reading.old)
        (bytes_of H.remaining reading.new) result buf.new }
{
    match reading {
        Some(found) => read_uninterrupted(&mut found.file, buf),
        None => unreachable!(),
    }
}

fn write_to<H: Write>(writing: &mut Option<NamedFile<H>>, piece: &[u8]) -> io::Result<usize>
    requires { IsSome writing.old }
    ensures count { IfOk result (λ n. n ≤ length piece.now) }
    ensures name { name_of writing.new ≡ name_of writing.old }
    ensures file { WriteAppends (bytes_of H.contents writing.old)
        (bytes_of H.contents writing.new) result piece.now }
{
    match writing {
        Some(made) => write_uninterrupted(&mut made.file, piece),
        None => unreachable!(),
    }
}

/// The mode that is asked for where a file is created: that of an image.
const IMAGE_MODE: u32 = 0o777;

/// The bits of a mode of a file that say who may execute it: its owner, its group and all others.
const EXECUTE_BITS: u32 = 0o111;

/// The bits of a mode of a file that say who may read it, in the same order.
const READ_BITS: u32 = 0o444;

/// Creates a file at a path, as `fs::create` does, which nobody may execute if it was not there.
/// Gives the mode that an image has there, if it was not there: the one that the system made of
/// `IMAGE_MODE`, so that it is less the mask.
fn create_at<R: rt::Files>(system: &R, path: Path<'_>) -> io::Result<(R::File, Option<u32>)> {
    let created = OpenOptions::new()
        .write(true)
        .create_new(true)
        .mode(IMAGE_MODE)
        .open(system, path);
    match created {
        Ok(file) => {
            let image_mode = refuse_execution(&file).ok();
            Ok((file, image_mode))
        }
        Err(error) if error.kind() == ErrorKind::AlreadyExists => {
            Ok((fs::create(system, path)?, None))
        }
        Err(error) => Err(error),
    }
}

/// Lets nobody execute this file, and gives the mode that it had.
fn refuse_execution<H: OpenFile>(file: &H) -> io::Result<u32> {
    let mut permissions = file.metadata()?.permissions();
    let mode = permissions.mode();
    permissions.set_mode(mode & !EXECUTE_BITS);
    file.set_permissions(permissions)?;
    Ok(mode)
}

/// Gives this file the mode of an image, where it is a regular one. Where none is told, those who
/// may read it may then execute it.
fn allow_execution<H: OpenFile>(file: &H, image_mode: Option<u32>) -> io::Result<()> {
    let metadata = file.metadata()?;
    if !metadata.is_file() {
        return Ok(());
    }
    let mut permissions = metadata.permissions();
    let mode = permissions.mode();
    permissions.set_mode(image_mode.unwrap_or(mode | (mode & READ_BITS) >> 2));
    file.set_permissions(permissions)
}

/// The files of a folder. A name is a path from there; one that begins with a slash is absolute.
/// What the files hold is unknown.
#[derive(Drop)]
pub struct DirFiles<'a, R: rt::Files> {
    alloc: Global,
    system: &'a R,
    folder: String,
    reading: Option<NamedFile<R::File>>,
    writing: Option<NamedFile<R::File>>,
    read_faults: u64,
    write_faults: u64,
    open_faults: u64,
    create_faults: u64,
}

impl<'a, R: rt::Files> DirFiles<'a, R> {
    ghost use Rattle.cc_io.specs.DirFiles.{IsNew};

    /// The files of this folder, as `DirFiles::new(rt.alloc(), &rt, ".")`. `Err` where there is no
    /// memory for the name.
    pub fn new(alloc: Global, system: &'a R, folder: &str) -> Result<Self, AllocError>
        ensures { IfOk result (IsNew folder.now) }
    {
        Ok(DirFiles {
            alloc,
            system,
            folder: String::from_str(alloc, folder)?,
            reading: None,
            writing: None,
            read_faults: 0,
            write_faults: 0,
            open_faults: 0,
            create_faults: 0,
        })
    }

    fn find(&self, name: &str) -> io::Result<NamedFile<R::File>>
        ensures { IfOk result (λ found. string_bytes found.name ≡ name.now) }
    {
        let path = Path::new(self.folder.as_str()).join(self.alloc, name)?;
        let file = fs::open(self.system, path.as_path())?;
        if file.metadata()?.is_dir() {
            return Err(io::Error::from(ErrorKind::IsADirectory));
        }
        let name = String::from_str(self.alloc, name)?;
        Ok(NamedFile {
            name,
            file,
            image_mode: None,
        })
    }

    fn make(&self, name: &str) -> io::Result<NamedFile<R::File>>
        ensures { IfOk result (λ made. string_bytes made.name ≡ name.now) }
    {
        let path = Path::new(self.folder.as_str()).join(self.alloc, name)?;
        let name = String::from_str(self.alloc, name)?;
        let (file, image_mode) = create_at(self.system, path.as_path())?;
        Ok(NamedFile {
            name,
            file,
            image_mode,
        })
    }
}

impl<R: rt::Files> Files for DirFiles<'_, R> {
    ghost use Rattle.std.specs.Prelude.{◌≡◌, ◌≤◌, ◌<◌, None, length, IsSome, IfOk};
    ghost use Rattle.std.specs.Io.KnownBytes.{ReadConsumes, WriteAppends};
    ghost use Rattle.cc_io.specs.Faults.{HasCause};
    ghost use Rattle.cc_io.specs.Files.{OnlyReadsRise, OnlyWritesRise};
    ghost use Rattle.cc_io.specs.DirFiles.{name_of, bytes_of, open_file, made_file, reads_failed};
    ghost use Rattle.cc_io.specs.DirFiles.{writes_failed, opens_failed, creates_failed};

    ghost read_faults = { reads_failed };

    ghost write_faults = { writes_failed };

    ghost open_faults = { opens_failed };

    ghost create_faults = { creates_failed };

    ghost known = { λ _. None };

    ghost reading = { λ files. name_of (open_file files) };

    ghost left = { λ _. None };

    ghost writing = { λ files. name_of (made_file files) };

    /// Fails at a missing file and at a folder.
    fn open(&mut self, name: &str) -> Result<(), Failed> {
        self.reading = None;
        match self.find(name) {
            Ok(file) => {
                self.reading = Some(file);
                Ok(())
            }
            Err(_) => Err(fault(&mut self.open_faults)),
        }
    }

    /// Hands on what the system's file gives; its error is a fault.
    fn read(&mut self, buf: &mut [u8]) -> Result<usize, Failed>
        requires open { IsSome (name_of (open_file self.old)) }
        requires room { 0 < length buf.old }
        ensures count { IfOk result (λ n. n ≤ length buf.old) }
        ensures file { ReadConsumes (bytes_of R.File.remaining (open_file self.old))
            (bytes_of R.File.remaining (open_file self.new)) result buf.new }
        ensures cause { HasCause (reads_failed self.old) (reads_failed self.new) result }
        ensures reading { name_of (open_file self.new) ≡ name_of (open_file self.old) }
        ensures writing { made_file self.new ≡ made_file self.old }
        ensures counts { OnlyReadsRise reads_failed writes_failed opens_failed creates_failed
            self.old self.new }
    {
        match read_from(&mut self.reading, buf) {
            Ok(n) => Ok(n),
            Err(_) => Err(fault(&mut self.read_faults)),
        }
    }

    fn create(&mut self, name: &str) -> Result<(), Failed> {
        self.writing = None;
        match self.make(name) {
            Ok(file) => {
                self.writing = Some(file);
                Ok(())
            }
            Err(_) => Err(fault(&mut self.create_faults)),
        }
    }

    /// Hands on to the system's file; its error, and a write that takes nothing of a piece, is a
    /// fault.
    fn write(&mut self, piece: &[u8]) -> Result<usize, Failed>
        requires { IsSome (name_of (made_file self.old)) }
        ensures count { IfOk result (λ n. n ≤ length piece.now) }
        ensures some { IfOk result (λ n. 0 < length piece.now → 0 < n) }
        ensures file { WriteAppends (bytes_of R.File.contents (made_file self.old))
            (bytes_of R.File.contents (made_file self.new)) result piece.now }
        ensures cause { HasCause (writes_failed self.old) (writes_failed self.new) result }
        ensures writing { name_of (made_file self.new) ≡ name_of (made_file self.old) }
        ensures reading { open_file self.new ≡ open_file self.old }
        ensures counts { OnlyWritesRise reads_failed writes_failed opens_failed creates_failed
            self.old self.new }
    {
        match write_to(&mut self.writing, piece) {
            Ok(n) if n > 0 || piece.is_empty() => Ok(n),
            _ => Err(fault(&mut self.write_faults)),
        }
    }

    fn make_executable(&mut self) {
        if let Some(made) = &self.writing {
            let _ = allow_execution(&made.file, made.image_mode);
        }
    }
}
