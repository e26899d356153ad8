//! A map from names to bytes: the files that are held in memory.

ghost use Rattle.std.specs.Prelude.{◌≡◌, ◌<◌, None, length, min, take, drop, OnOk, OnErr};
ghost use Rattle.cc_io.specs.Files.{content, put_file, append_file};
ghost use Rattle.cc_io.specs.FileMap.{file_set, file_room};

use crate::failing::copy_front;
use std::alloc::{AllocError, Global};
use std::collections::BTreeMap;

pub(crate) type FileMap = BTreeMap<String, Vec<u8>>;

/// Sets the content of the file of this name. A name that is there takes no memory.
pub(crate) fn put(
    alloc: Global,
    files: &mut FileMap,
    name: &str,
    bytes: Vec<u8>,
) -> Result<(), AllocError>
    ensures ok { OnOk result
        (file_set files.new ≡ put_file name.now bytes.items (file_set files.old)) }
    ensures err { OnErr result (file_set files.new ≡ file_set files.old) }
    ensures missing { OnErr result (file_set files.old name.now ≡ None) }
{
    match files.get_mut(name) {
        Some(held) => *held = bytes,
        None => {
            files.insert(String::from_str(alloc, name)?, bytes)?;
        }
    }
    Ok(())
}

/// Appends to the file of this name, where there is one.
pub(crate) fn append(files: &mut FileMap, name: &str, piece: &[u8]) -> Result<(), AllocError>
    ensures ok { OnOk result
        (file_set files.new ≡ append_file name.now piece.now (file_set files.old)) }
    ensures err { OnErr result (file_set files.new ≡ file_set files.old) }
    ensures full { OnErr result (file_room files.old name.now < length piece.now) }
{
    match files.get_mut(name) {
        Some(held) => held.extend_from_slice(piece),
        None => Ok(()),
    }
}

/// Copies the bytes of the file of this name from the offset `at` on, as many as there are and fit,
/// and gives their number.
pub(crate) fn read_at(files: &FileMap, name: &str, at: usize, buf: &mut [u8]) -> usize
    ensures count { result
        ≡ min (length buf.old) (length (drop at (content name.now (file_set files.now)))) }
    ensures bytes { take result buf.new
        ≡ take result (drop at (content name.now (file_set files.now))) }
{
    match files.get(name) {
        Some(bytes) if at < bytes.len() => copy_front(&bytes[at..], buf),
        _ => 0,
    }
}
