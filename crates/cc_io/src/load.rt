//! Reads files and the input whole.

ghost use Rattle.std.specs.Prelude.{◌≡◌, ◌≤◌, ◌⊎◌, ℕ, List, take, IsSome, IfOk, IsErrOf};
ghost use Rattle.std.specs.Option.{ForSome};
ghost use Rattle.cc_io.specs.Faults.{Increased};
ghost use Rattle.cc_io.specs.Files.{Name, content};
ghost use Rattle.cc_io.specs.Source.{prepend};
ghost use Rattle.cc_io.specs.declared.load.LoadError.TheVariants.{NoMemory};

use crate::{CHUNK, Files, Source};
use std::alloc::{AllocError, Global};

/// Why a file or the input was not read.
#[derive(Clone, Copy)]
pub enum LoadError {
    /// A call on it failed.
    Failed,
    /// Memory ran out.
    NoMemory,
}

impl From<AllocError> for LoadError {
    ghost from_gives = { λ _ e. e ≡ NoMemory };

    fn from(_: AllocError) -> Self {
        LoadError::NoMemory
    }
}

/// The bytes of the file of this name, of which no more than `limit` are read.
pub fn load<F: Files>(
    alloc: Global,
    files: &mut F,
    name: &str,
    limit: usize,
) -> Result<Vec<u8>, LoadError>
    ensures bytes { ForSome (F.known files.old)
        (λ all. IfOk result (λ bytes. bytes.items ≡ take limit (content name.now all))) }
    ensures fault { IsErrOf result LoadError.Failed
        → Increased (F.open_faults files.old name.now) (F.open_faults files.new name.now)
        ⊎ Increased (F.read_faults files.old) (F.read_faults files.new) }
    ensures known { F.known files.new ≡ F.known files.old }
    ensures create_faults { F.create_faults files.new ≡ F.create_faults files.old }
    ensures write_faults { F.write_faults files.new ≡ F.write_faults files.old }
    ensures open_faults { (other : Name)
        → F.open_faults files.old other ≤ F.open_faults files.new other }
    ensures read_faults { F.read_faults files.old ≤ F.read_faults files.new }
{
    if files.open(name).is_err() {
        return Err(LoadError::Failed);
    }
    read_open(alloc, files, limit)
}

/// The bytes that are left of the open file, of which no more than `limit` are read.
fn read_open<F: Files>(alloc: Global, files: &mut F, limit: usize) -> Result<Vec<u8>, LoadError>
    requires { IsSome (F.reading files.old) }
    ensures bytes { ForSome (F.left files.old)
        (λ left. IfOk result (λ bytes. bytes.items ≡ take limit left)) }
    ensures fault { IsErrOf result LoadError.Failed
        → Increased (F.read_faults files.old) (F.read_faults files.new) }
    ensures known { F.known files.new ≡ F.known files.old }
    ensures create_faults { F.create_faults files.new ≡ F.create_faults files.old }
    ensures write_faults { F.write_faults files.new ≡ F.write_faults files.old }
    ensures open_faults { F.open_faults files.new ≡ F.open_faults files.old }
    ensures read_faults { F.read_faults files.old ≤ F.read_faults files.new }
{
    let mut bytes = Vec::new(alloc);
    let mut buffer = [0u8; CHUNK];
    while bytes.len() < limit {
        let room = CHUNK.min(limit - bytes.len());
        let Ok(count) = files.read(&mut buffer[..room]) else {
            return Err(LoadError::Failed);
        };
        if count == 0 {
            break;
        }
        bytes.extend_from_slice(&buffer[..count])?;
    }
    Ok(bytes)
}

/// The bytes that are left of the input, of which no more than `limit` are read.
pub fn load_input<I: Source>(
    alloc: Global,
    input: &mut I,
    limit: usize,
) -> Result<Vec<u8>, LoadError>
    ensures bytes { ForSome (I.left input.old)
        (λ left. IfOk result (λ bytes. bytes.items ≡ take limit left)) }
    ensures fault { IsErrOf result LoadError.Failed
        → Increased (I.faults input.old) (I.faults input.new) }
    ensures rest { (taken : List ℕ) × (I.left input.old ≡ prepend taken (I.left input.new)) }
{
    let mut bytes = Vec::new(alloc);
    let mut buffer = [0u8; CHUNK];
    while bytes.len() < limit {
        let room = CHUNK.min(limit - bytes.len());
        let Ok(count) = input.read(&mut buffer[..room]) else {
            return Err(LoadError::Failed);
        };
        if count == 0 {
            break;
        }
        bytes.extend_from_slice(&buffer[..count])?;
    }
    Ok(bytes)
}
