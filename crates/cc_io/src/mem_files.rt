//! Files in memory, with listed calls that fail.

ghost use Rattle.std.specs.Prelude.{◌≡◌, ◌≢◌, ◌<◌, ◌≤◌, ◌⊎◌, ◌↔◌, [], None, Some, length, min, take, IsSome, IsNone, IfOk, OnOk, OnErr, IsErr};
ghost use Rattle.std.specs.Option.{ForSome, option_copied};
ghost use Rattle.std.specs.String.{string_bytes, string_capacity};
ghost use Rattle.cc_io.specs.FileMap.{file_set};
ghost use Rattle.cc_io.specs.Files.{NamesFit};

use crate::failed::Failed;
use crate::failing::{FailingCalls, fault};
use crate::file_map::{FileMap, append, put, read_at};
use crate::files::Files;
use std::alloc::{AllocError, Global};

/// Files in memory: a map from name to content, and the numbers of the calls that are to fail.
#[derive(Drop)]
pub struct MemFiles {
    alloc: Global,
    files: FileMap,
    // The two names have room for each name of a file, so that opening a file takes no memory.
    read_name: String,
    read_at: Option<usize>,
    write_name: String,
    is_written: bool,
    calls: FailingCalls,
    read_faults: u64,
    write_faults: u64,
    open_faults: u64,
    create_faults: u64,
    ghost read_names_fit: { NamesFit (file_set files) (string_capacity read_name) },
    ghost write_names_fit: { NamesFit (file_set files) (string_capacity write_name) },
}

/// Sets the text to a name that it has room for.
fn set_name(text: &mut String, name: &str)
    requires { length name.now ≤ string_capacity text.old }
    ensures name { string_bytes text.new ≡ name.now }
    ensures room { string_capacity text.old ≤ string_capacity text.new }
{
    text.clear();
    text.push_str(name).unwrap();
}

/// Makes room for a name of this length.
fn make_room(text: &mut String, len: usize) -> Result<(), AllocError>
    ensures same { string_bytes text.new ≡ string_bytes text.old }
    ensures room { OnOk result (len ≤ string_capacity text.new) }
    ensures no_less { string_capacity text.old ≤ string_capacity text.new }
    ensures full { OnErr result (string_capacity text.old < len) }
{
    if text.capacity() < len {
        text.reserve(len)?;
    }
    Ok(())
}

impl MemFiles {
    ghost use Rattle.cc_io.specs.Files.{put_file, append_file};
    ghost use Rattle.cc_io.specs.MemFiles.{files_of, open_name, open_left, written_name};
    ghost use Rattle.cc_io.specs.MemFiles.{written_room, files_calls, IsFaultless, IsSameFaults};

    /// No files. `failing` has the numbers of the calls that are to fail, counted from 0 over all
    /// calls of `Files`.
    pub fn new(alloc: Global, failing: Vec<u64>) -> Self
        ensures files { files_of result ≡ (λ name. None) }
        ensures open { open_name result ≡ None }
        ensures written { written_name result ≡ None }
        ensures failing { (files_calls result).listed.items ≡ failing.items }
        ensures calls { (files_calls result).made ≡ 0 }
        ensures faults { IsFaultless result }
    {
        MemFiles {
            alloc,
            files: FileMap::new(alloc),
            read_name: String::new(alloc),
            read_at: None,
            write_name: String::new(alloc),
            is_written: false,
            calls: FailingCalls::new(failing),
            read_faults: 0,
            write_faults: 0,
            open_faults: 0,
            create_faults: 0,
        }
    }

    /// Puts a file there, or replaces the content of the one of that name. `Err` only where a
    /// missing file found no memory; no file has changed then.
    pub fn insert(&mut self, name: &str, bytes: Vec<u8>) -> Result<(), AllocError>
        ensures ok { OnOk result
            (files_of self.new ≡ put_file name.now bytes.items (files_of self.old)) }
        ensures err { OnErr result (files_of self.new ≡ files_of self.old) }
        ensures missing { OnErr result (files_of self.old name.now ≡ None) }
        ensures open { open_name self.new ≡ open_name self.old }
        ensures left { open_name self.old ≢ Some name.now
            → open_left self.new ≡ open_left self.old }
        ensures written { written_name self.new ≡ written_name self.old }
        ensures calls { files_calls self.new ≡ files_calls self.old }
        ensures faults { IsSameFaults self.old self.new }
    {
        make_room(&mut self.read_name, name.len())?;
        make_room(&mut self.write_name, name.len())?;
        put(self.alloc, &mut self.files, name, bytes)
    }

    /// The content of the file of this name; `None` where there is no such file.
    pub fn get(&self, name: &str) -> Option<&[u8]>
        ensures { option_copied result ≡ files_of self.now name.now }
    {
        match self.files.get(name) {
            Some(bytes) => Some(bytes),
            None => None,
        }
    }

    /// Appends to the file that is written.
    fn append_written(&mut self, piece: &[u8]) -> Result<(), AllocError>
        requires { IsSome (written_name self.old) }
        ensures ok { OnOk result (ForSome (written_name self.old) (λ name.
            files_of self.new ≡ append_file name piece.now (files_of self.old))) }
        ensures err { OnErr result (files_of self.new ≡ files_of self.old) }
        ensures full { OnErr result (written_room self.old < length piece.now) }
        ensures open { open_name self.new ≡ open_name self.old }
        ensures left { open_name self.old ≢ written_name self.old
            → open_left self.new ≡ open_left self.old }
        ensures written { written_name self.new ≡ written_name self.old }
        ensures calls { files_calls self.new ≡ files_calls self.old }
        ensures faults { IsSameFaults self.old self.new }
    {
        append(&mut self.files, self.write_name.as_str(), piece)
    }
}

impl Files for MemFiles {
    ghost use Rattle.std.specs.Prelude.{unwrap_or};
    ghost use Rattle.cc_io.specs.Faults.{HasCause};
    ghost use Rattle.cc_io.specs.Source.{prepend};
    ghost use Rattle.cc_io.specs.Calls.{NextFails, CountsCall};
    ghost use Rattle.cc_io.specs.Files.{content, put_file, append_file};
    ghost use Rattle.cc_io.specs.Files.{OnlyReadsRise, OnlyWritesRise, OnlyOpensRise};
    ghost use Rattle.cc_io.specs.Files.{OnlyCreatesRise};
    ghost use Rattle.cc_io.specs.MemFiles.{files_of, open_name, open_left, written_name};
    ghost use Rattle.cc_io.specs.MemFiles.{written_room, files_calls, reads_failed, writes_failed};
    ghost use Rattle.cc_io.specs.MemFiles.{opens_failed, creates_failed, IsSameFaults};

    ghost read_faults = { reads_failed };

    ghost write_faults = { writes_failed };

    ghost open_faults = { opens_failed };

    ghost create_faults = { creates_failed };

    ghost known = { λ files. Some (files_of files) };

    ghost reading = { open_name };

    ghost left = { open_left };

    ghost writing = { written_name };

    /// Fails where this call is listed, and where there is no such file. It takes no memory.
    fn open(&mut self, name: &str) -> Result<(), Failed>
        ensures fails { IsErr result
            ↔ (NextFails (files_calls self.old) ⊎ IsNone (files_of self.old name.now)) }
        ensures calls { CountsCall (files_calls self.old) (files_calls self.new) }
        ensures faults { OnOk result (IsSameFaults self.old self.new) }

        ensures reading { OnOk result (open_name self.new ≡ Some name.now) }
        ensures left { OnOk result
            (open_left self.new ≡ Some (content name.now (files_of self.old))) }
        ensures err { OnErr result (open_name self.new ≡ None) }
        ensures cause { HasCause (opens_failed self.old name.now)
            (opens_failed self.new name.now) result }

        ensures known { files_of self.new ≡ files_of self.old }
        ensures writing { written_name self.new ≡ written_name self.old }
        ensures counts { OnlyOpensRise reads_failed writes_failed opens_failed creates_failed
            self.old self.new }
    {
        self.read_at = None;
        if self.calls.fails_next() || !self.files.contains_key(name) {
            return Err(fault(&mut self.open_faults));
        }
        set_name(&mut self.read_name, name);
        self.read_at = Some(0);
        Ok(())
    }

    /// Fails where this call is listed, and else takes all that fits.
    fn read(&mut self, buf: &mut [u8]) -> Result<usize, Failed>
        requires open { IsSome (open_name self.old) }
        requires room { 0 < length buf.old }
        ensures fails { IsErr result ↔ NextFails (files_calls self.old) }
        ensures calls { CountsCall (files_calls self.old) (files_calls self.new) }
        ensures faults { OnOk result (IsSameFaults self.old self.new) }

        ensures count { IfOk result
            (λ n. n ≡ min (length buf.old) (length (unwrap_or (open_left self.old) []))) }
        ensures bytes { IfOk result
            (λ n. open_left self.old ≡ prepend (take n buf.new) (open_left self.new)) }
        ensures err { OnErr result (open_left self.new ≡ open_left self.old) }
        ensures cause { HasCause (reads_failed self.old) (reads_failed self.new) result }

        ensures known { files_of self.new ≡ files_of self.old }
        ensures reading { open_name self.new ≡ open_name self.old }
        ensures writing { written_name self.new ≡ written_name self.old }
        ensures counts { OnlyReadsRise reads_failed writes_failed opens_failed creates_failed
            self.old self.new }
    {
        if self.calls.fails_next() {
            return Err(fault(&mut self.read_faults));
        }
        let at = self.read_at.unwrap();
        let n = read_at(&self.files, self.read_name.as_str(), at, buf);
        self.read_at = Some(at + n);
        Ok(n)
    }

    /// Fails where this call is listed, and where there is no memory for a new file.
    fn create(&mut self, name: &str) -> Result<(), Failed>
        ensures listed { NextFails (files_calls self.old) → IsErr result }
        ensures fails { OnErr result
            (NextFails (files_calls self.old) ⊎ IsNone (files_of self.old name.now)) }
        ensures calls { CountsCall (files_calls self.old) (files_calls self.new) }
        ensures faults { OnOk result (IsSameFaults self.old self.new) }

        ensures writing { OnOk result (written_name self.new ≡ Some name.now) }
        ensures known { OnOk result (files_of self.new ≡ put_file name.now [] (files_of self.old)) }
        ensures err { OnErr result (written_name self.new ≡ None) }
        ensures err_known { OnErr result (files_of self.new ≡ files_of self.old) }
        ensures cause { HasCause (creates_failed self.old name.now)
            (creates_failed self.new name.now) result }

        ensures reading { open_name self.new ≡ open_name self.old }
        ensures left { open_name self.old ≢ Some name.now
            → open_left self.new ≡ open_left self.old }
        ensures counts { OnlyCreatesRise reads_failed writes_failed opens_failed creates_failed
            self.old self.new }
    {
        self.is_written = false;
        if self.calls.fails_next() {
            return Err(fault(&mut self.create_faults));
        }
        if self.insert(name, Vec::new(self.alloc)).is_err() {
            return Err(fault(&mut self.create_faults));
        }
        set_name(&mut self.write_name, name);
        self.is_written = true;
        Ok(())
    }

    /// Fails where this call is listed, and where there is no memory for the piece; else takes all
    /// of it.
    fn write(&mut self, piece: &[u8]) -> Result<usize, Failed>
        requires { IsSome (written_name self.old) }
        ensures listed { NextFails (files_calls self.old) → IsErr result }
        ensures fails { OnErr result
            (NextFails (files_calls self.old) ⊎ (written_room self.old < length piece.now)) }
        ensures calls { CountsCall (files_calls self.old) (files_calls self.new) }
        ensures faults { OnOk result (IsSameFaults self.old self.new) }

        ensures count { IfOk result (λ n. n ≡ length piece.now) }
        ensures known { OnOk result (ForSome (written_name self.old) (λ name.
            files_of self.new ≡ append_file name piece.now (files_of self.old))) }
        ensures err { OnErr result (files_of self.new ≡ files_of self.old) }
        ensures cause { HasCause (writes_failed self.old) (writes_failed self.new) result }

        ensures writing { written_name self.new ≡ written_name self.old }
        ensures reading { open_name self.new ≡ open_name self.old }
        ensures left { open_name self.old ≢ written_name self.old
            → open_left self.new ≡ open_left self.old }
        ensures counts { OnlyWritesRise reads_failed writes_failed opens_failed creates_failed
            self.old self.new }
    {
        if self.calls.fails_next() {
            return Err(fault(&mut self.write_faults));
        }
        if self.append_written(piece).is_err() {
            return Err(fault(&mut self.write_faults));
        }
        Ok(piece.len())
    }
}
