//! Files by name, of which at most one is open to be read and at most one is written.

ghost use Rattle.std.specs.Prelude.{◌≡◌, ◌≢◌, ◌<◌, ◌≤◌, ℕ, List, [], Option, None, Some, length, take, option_map, IsSome, IfOk, OnOk, OnErr};
ghost use Rattle.std.specs.Option.{ForSome};
ghost use Rattle.cc_io.specs.Faults.{HasCause};
ghost use Rattle.cc_io.specs.Source.{prepend, IsAtEnd};
ghost use Rattle.cc_io.specs.Files.{Name, FileSet, content, put_file, append_file, OnlyReadsRise, OnlyWritesRise, OnlyOpensRise, OnlyCreatesRise};

use crate::failed::Failed;

/// Files by name, of which at most one is open to be read and at most one is written. The faults of
/// reading and of writing have a count each; those of opening and of creating have one for each
/// name.
pub trait Files {
    /// How many reads have failed. No count of faults falls, and each stands still at 2^64 - 1.
    ghost read_faults: { Self → ℕ };

    /// How many writes have failed.
    ghost write_faults: { Self → ℕ };

    /// How many calls to open the file of this name have failed.
    ghost open_faults: { Self → Name → ℕ };

    /// How many calls to create the file of this name have failed.
    ghost create_faults: { Self → Name → ℕ };

    /// What the files hold, where it is known.
    ghost known: { Self → Option FileSet };

    /// The name of the file that is open.
    ghost reading: { Self → Option Name };

    /// The bytes that are left of the open file, where they are known.
    ghost left: { Self → Option (List ℕ) };

    /// The name of the created file, which is written.
    ghost writing: { Self → Option Name };

    /// Opens the file of this name, to be read from its start. A missing file is read as empty, or
    /// fails. `Failed` only where the open count of this name increased; no file is open then.
    fn open(&mut self, name: &str) -> Result<(), Failed>
        ensures reading { OnOk result (reading self.new ≡ Some name.now) }
        ensures left { OnOk result
            (left self.new ≡ option_map (content name.now) (known self.old)) }
        ensures err { OnErr result (reading self.new ≡ None) }
        ensures cause { HasCause (open_faults self.old name.now)
            (open_faults self.new name.now) result }

        ensures known { known self.new ≡ known self.old }
        ensures writing { writing self.new ≡ writing self.old }
        ensures counts { OnlyOpensRise read_faults write_faults open_faults create_faults self.old
            self.new };

    /// Reads the next bytes of the open file into the front of `buf`, and gives their number. 0 is
    /// the end of the file. The file stays open. `Failed` only where the read count increased;
    /// nothing was taken then.
    fn read(&mut self, buf: &mut [u8]) -> Result<usize, Failed>
        requires open { IsSome (reading self.old) }
        requires room { 0 < length buf.old }
        ensures count { IfOk result (λ n. n ≤ length buf.old) }
        ensures bytes { IfOk result
            (λ n. left self.old ≡ prepend (take n buf.new) (left self.new)) }
        ensures at_end { IfOk result (λ n. n ≡ 0 → IsAtEnd (left self.new)) }
        ensures err { OnErr result (left self.new ≡ left self.old) }
        ensures cause { HasCause (read_faults self.old) (read_faults self.new) result }

        ensures known { known self.new ≡ known self.old }
        ensures reading { reading self.new ≡ reading self.old }
        ensures writing { writing self.new ≡ writing self.old }
        ensures counts { OnlyReadsRise read_faults write_faults open_faults create_faults self.old
            self.new };

    /// Creates the file of this name, or empties it, to be written. `Failed` only where the create
    /// count of this name increased; no file has changed and none is written then.
    fn create(&mut self, name: &str) -> Result<(), Failed>
        ensures writing { OnOk result (writing self.new ≡ Some name.now) }
        ensures known { OnOk result
            (known self.new ≡ option_map (put_file name.now []) (known self.old)) }
        ensures err { OnErr result (writing self.new ≡ None) }
        ensures err_known { OnErr result (known self.new ≡ known self.old) }
        ensures cause { HasCause (create_faults self.old name.now)
            (create_faults self.new name.now) result }

        ensures reading { reading self.new ≡ reading self.old }
        ensures left { reading self.old ≢ Some name.now → left self.new ≡ left self.old }
        ensures counts { OnlyCreatesRise read_faults write_faults open_faults create_faults
            self.old self.new };

    /// Appends the first bytes of `piece` to the file that is written, at least one where it has
    /// any, and gives their number. The file stays the one that is written. `Failed` only where the
    /// write count increased; nothing was appended then.
    fn write(&mut self, piece: &[u8]) -> Result<usize, Failed>
        requires { IsSome (writing self.old) }
        ensures count { IfOk result (λ n. n ≤ length piece.now) }
        ensures some { IfOk result (λ n. 0 < length piece.now → 0 < n) }
        ensures known { IfOk result (λ n. ForSome (writing self.old) (λ name.
            known self.new ≡ option_map (append_file name (take n piece.now)) (known self.old))) }
        ensures err { OnErr result (known self.new ≡ known self.old) }
        ensures cause { HasCause (write_faults self.old) (write_faults self.new) result }

        ensures writing { writing self.new ≡ writing self.old }
        ensures reading { reading self.new ≡ reading self.old }
        ensures left { reading self.old ≢ writing self.old → left self.new ≡ left self.old }
        ensures counts { OnlyWritesRise read_faults write_faults open_faults create_faults self.old
            self.new };

    /// Gives the created file the mode of an executable, where the system has modes of files. A
    /// change of the mode that is refused is passed over.
    fn make_executable(&mut self)
        requires { IsSome (writing self.old) }
        ensures known { known self.new ≡ known self.old }
        ensures reading { reading self.new ≡ reading self.old }
        ensures left { left self.new ≡ left self.old }
        ensures writing { writing self.new ≡ writing self.old }
        ensures read_faults { read_faults self.new ≡ read_faults self.old }
        ensures write_faults { write_faults self.new ≡ write_faults self.old }
        ensures open_faults { open_faults self.new ≡ open_faults self.old }
        ensures create_faults { create_faults self.new ≡ create_faults self.old }
    {}
}
