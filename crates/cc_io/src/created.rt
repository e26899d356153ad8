//! The created file of a `Files`, lent as a sink, and the call that saves a file whole.

ghost use Rattle.std.specs.Prelude.{◌≡◌, ◌≢◌, ◌≤◌, ◌⊎◌, ℕ, Some, length, take, option_map, IsSome, OnOk, OnErr};
ghost use Rattle.cc_io.specs.Faults.{Increased};
ghost use Rattle.cc_io.specs.Files.{Name, put_file};

use crate::failed::Failed;
use crate::files::Files;
use crate::sink::{Sink, write_all};

/// The created file of a `Files`, lent as a sink: a write to it appends to that file.
#[derive(Drop)]
pub struct Created<'a, F: Files> {
    /// The files, of which the one that is written is lent.
    pub files: &'a mut F,
    ghost is_written: { IsSome (F.writing files.now) },
}

impl<'a, F: Files> Created<'a, F> {
    /// Lends the file that is written.
    pub fn new(files: &'a mut F) -> Self
        requires { IsSome (F.writing files.old) }
        ensures same_reference { result.files.ghost_name ≡ files.entry.ghost_name }
        ensures files { result.files.now ≡ files.old }
    {
        Created { files }
    }
}

impl<F: Files> Sink for Created<'_, F> {
    ghost use Rattle.cc_io.specs.Created.{RestOfCreated, written_content, other_files, other_left};

    ghost faults = { λ c. F.write_faults c.files.now };

    ghost held = { λ c. written_content (F.writing c.files.now) (F.known c.files.now) };

    ghost Rest = { RestOfCreated };

    ghost rest = { λ c. record {
      lender = c.files.ghost_name;
      writing = F.writing c.files.now;
      others = other_files (F.writing c.files.now) (F.known c.files.now);
      reading = F.reading c.files.now;
      left = other_left (F.reading c.files.now) (F.writing c.files.now) (F.left c.files.now);
      read_faults = F.read_faults c.files.now;
      open_faults = F.open_faults c.files.now;
      create_faults = F.create_faults c.files.now;
    } };

    fn write(&mut self, piece: &[u8]) -> Result<usize, Failed> {
        self.files.write(piece)
    }
}

/// Creates the file of this name with these bytes, and gives it the mode of an executable: what is
/// saved whole is an image. `Failed` only where the create count of this name or the write
/// count increased; no file has changed then, or that file holds a prefix of the bytes.
pub fn save<F: Files>(files: &mut F, name: &str, bytes: &[u8]) -> Result<(), Failed>
    ensures ok { OnOk result
        (F.known files.new ≡ option_map (put_file name.now bytes.now) (F.known files.old)) }
    ensures err { OnErr result ((F.known files.new ≡ F.known files.old)
        ⊎ ((k : ℕ) × (k ≤ length bytes.now)
        × (F.known files.new
        ≡ option_map (put_file name.now (take k bytes.now)) (F.known files.old)))) }
    ensures cause { OnErr result
        (Increased (F.create_faults files.old name.now) (F.create_faults files.new name.now)
        ⊎ Increased (F.write_faults files.old) (F.write_faults files.new)) }

    ensures writing { OnOk result (F.writing files.new ≡ Some name.now) }
    ensures reading { F.reading files.new ≡ F.reading files.old }
    ensures left { F.reading files.old ≢ Some name.now → F.left files.new ≡ F.left files.old }
    ensures read_faults { F.read_faults files.new ≡ F.read_faults files.old }
    ensures write_faults { F.write_faults files.old ≤ F.write_faults files.new }
    ensures open_faults { F.open_faults files.new ≡ F.open_faults files.old }
    ensures create_faults { (other : Name)
        → F.create_faults files.old other ≤ F.create_faults files.new other }
{
    files.create(name)?;
    write_all(&mut Created::new(files), bytes)?;
    files.make_executable();
    Ok(())
}
