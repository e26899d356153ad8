//! The command `gen`.

ghost use Rattle.std.specs.Prelude.{◌≡◌, ◌⊎◌, ℕ, take, option_map, OnOk, OnErr};
ghost use Rattle.cc_gen.specs.Generated.{generated};
ghost use Rattle.cc_io.specs.Faults.{Increased};
ghost use Rattle.cc_io.specs.Files.{put_file};
ghost use Rattle.cc_top.specs.GenerateEnds.{GenerateEnds};
ghost use Rattle.cc_io.specs.Outside.{files_seen};

use cc_gen::generate;
use cc_io::{Created, Failed, Files};
use cc_report::Outcome;

/// Creates the file of this name with the generated program.
fn save_generated<F: Files>(
    files: &mut F,
    start: u32,
    functions: u32,
    name: &str,
) -> Result<(), Failed>
    ensures ok { OnOk result
        (F.known files.new
        ≡ option_map (put_file name.now (generated start functions)) (F.known files.old)) }
    ensures err { OnErr result ((F.known files.new ≡ F.known files.old)
        ⊎ ((count : ℕ)
        × (F.known files.new
        ≡ option_map (put_file name.now (take count (generated start functions)))
        (F.known files.old)))) }
    ensures cause { OnErr result
        (Increased (F.create_faults files.old name.now) (F.create_faults files.new name.now)
        ⊎ Increased (F.write_faults files.old) (F.write_faults files.new)) }
{
    files.create(name)?;
    generate(start, functions, &mut Created::new(files))
}

/// Writes the program of this many functions whose draws begin with `start` to the file named
/// `out`.
pub fn write_generated<F: Files>(files: &mut F, start: u32, functions: u32, out: &str) -> Outcome
    ensures { let seen = files_seen F.known F.read_faults F.write_faults F.open_faults
        F.create_faults in
        GenerateEnds start functions out.now result (seen files.old) (seen files.new) }
{
    match save_generated(files, start, functions, out) {
        Ok(()) => Outcome::Done,
        Err(_) => Outcome::WriteFault,
    }
}
