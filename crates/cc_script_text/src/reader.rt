//! The reader of a script.

ghost use Rattle.std.specs.Prelude.{◌≤◌, length};
ghost use Rattle.cc_script_text.specs.Script.{most_commands};

use crate::command::Command;
use crate::fault::ScriptFault;
use crate::line::replace_of;
use arrayvec::ArrayVec;
use base::{Bytes, Name};
use cc_io::{CHUNK, Failed, Source};
use std::alloc::{AllocError, Global};

/// The most commands of a script, `end` counted.
const MOST_COMMANDS: u32 = 10_000;

/// The most bytes of a line, without its line end.
const MOST_LINE_BYTES: usize = 100;

/// A reader that gives the commands of a script one by one. It reads up to `CHUNK` bytes ahead,
/// and only where the command that is wanted lacks bytes: what is typed in answer to a command is
/// waited for after that command was given. Only the text of a `replace`, as it comes, and its
/// name take memory.
#[derive(Drop)]
pub struct ScriptReader {
    buffer: [u8; CHUNK],
    // The bytes from `at` to `end` of the buffer were read, and not yet taken.
    at: usize,
    end: usize,
    // How many commands were given.
    count: u32,
    ghost ordered: { at ≤ end },
    ghost within: { end ≤ length buffer },
    ghost few: { count ≤ most_commands },
}

impl ScriptReader {
    ghost use Rattle.std.specs.Prelude.{◌≡◌, ◌≢◌, ◌<◌, ℕ, suc, List, [], ◌∷◌, ◌++◌, true, false};
    ghost use Rattle.std.specs.Prelude.{None, Some, Ok, Err, vec_len};
    ghost use Rattle.std.specs.Prelude.{IfOk, IfErr, OnOk, OnErr, IsErrOf};
    ghost use Rattle.cc_io.specs.Faults.{HasCause, Increased};
    ghost use Rattle.cc_io.specs.Source.{prepend, IsAtEnd};
    ghost use Rattle.cc_script_text.specs.Script.{cut, first, lacks};
    ghost use Rattle.cc_script_text.specs.Script.{with_line, with_line_end, with_text};
    ghost use Rattle.cc_script_text.specs.Taken.{commands_read, left_of, read_ahead, IsByteAhead};
    ghost use Rattle.cc_script_text.specs.Taken.{IsByteTaken, IsFault, IsMoved, TakesCommand};
    ghost use Rattle.cc_script_text.specs.declared.command.Command.{Command};

    /// A reader that has read nothing.
    pub fn new() -> ScriptReader
        ensures read_ahead { read_ahead result ≡ [] }
        ensures count { commands_read result ≡ 0 }
    {
        ScriptReader {
            buffer: [0; CHUNK],
            at: 0,
            end: 0,
            count: 0,
        }
    }

    fn broken(&self) -> ScriptFault
        ensures { result ≡ ScriptFault.Broken (suc (commands_read self.now)) }
    {
        ScriptFault::Broken {
            number: self.count + 1,
        }
    }

    // Whether there is a byte ahead. The source is asked only where none was.
    fn fill<I: Source>(&mut self, input: &mut I) -> Result<bool, Failed>
        ensures left { left_of self.new (I.left input.new) ≡ left_of self.old (I.left input.old) }
        ensures some { IfOk result (λ some. some ≡ true → self.new.at < self.new.end) }
        ensures none { IfOk result (λ some. some ≡ false
            → IsAtEnd (left_of self.new (I.left input.new))) }
        ensures err { OnErr result (read_ahead self.new ≡ []) }
        ensures unasked { self.old.at < self.old.end
            → (result ≡ Ok true) × (self.new ≡ self.old) × (input.new ≡ input.old) }
        ensures cause { HasCause (I.faults input.old) (I.faults input.new) result }
        ensures count { self.new.count ≡ self.old.count }
    {
        if self.at < self.end {
            return Ok(true);
        }
        let n = input.read(&mut self.buffer)?;
        self.at = 0;
        self.end = n;
        Ok(n > 0)
    }

    // The next byte, or none at the end.
    fn next_byte<I: Source>(&mut self, input: &mut I) -> Result<Option<u8>, Failed>
        ensures taken { IfOk result (λ byte. IsByteTaken byte
            (left_of self.old (I.left input.old)) (left_of self.new (I.left input.new))) }
        ensures err { OnErr result (left_of self.new (I.left input.new)
            ≡ left_of self.old (I.left input.old)) }
        ensures ahead { OnErr result (read_ahead self.new ≡ []) }
        ensures unasked { self.old.at < self.old.end → IsByteAhead result
            (read_ahead self.old) (read_ahead self.new) × (input.new ≡ input.old) }
        ensures cause { HasCause (I.faults input.old) (I.faults input.new) result }
        ensures count { self.new.count ≡ self.old.count }
    {
        if !self.fill(input)? {
            return Ok(None);
        }
        let byte = self.buffer[self.at];
        self.at += 1;
        Ok(Some(byte))
    }

    // The next line without the byte 10 that ends it, which is taken too.
    fn take_line<I: Source>(
        &mut self,
        input: &mut I,
    ) -> Result<ArrayVec<u8, MOST_LINE_BYTES>, ScriptFault>
        ensures taken { IfOk result (λ line. (left_of self.old (I.left input.old))
            ≡ prepend (line.items ++ 10 ∷ []) (left_of self.new (I.left input.new))) }
        ensures one { IfOk result (λ line. cut 10 line.items ≡ None) }
        ensures fault { IfErr result (λ e. IsFault first e (suc (commands_read self.old))
            (left_of self.old (I.left input.old)) (left_of self.new (I.left input.new))) }
        ensures ahead { IsErrOf result ScriptFault.Failed → read_ahead self.new ≡ [] }
        ensures unasked { first (read_ahead self.old) ≢ lacks → (input.new ≡ input.old)
            × IfOk result (λ line.
            read_ahead self.old ≡ (line.items ++ 10 ∷ []) ++ read_ahead self.new) }
        ensures cause { IsErrOf result ScriptFault.Failed
            → Increased (I.faults input.old) (I.faults input.new) }
        ensures faults { I.faults input.old ≤ I.faults input.new }
        ensures count { self.new.count ≡ self.old.count }
    {
        let mut line = ArrayVec::new();
        loop {
            let byte = match self.next_byte(input) {
                Ok(Some(byte)) => byte,
                Ok(None) => return Err(self.broken()),
                Err(_) => return Err(ScriptFault::Failed),
            };
            if byte == b'\n' {
                return Ok(line);
            }
            if line.is_full() {
                return Err(self.broken());
            }
            line.push(byte);
        }
    }

    // Takes the byte 10 that ends a command.
    fn take_line_end<I: Source>(&mut self, input: &mut I) -> Result<(), ScriptFault>
        ensures taken { OnOk result ((left_of self.old (I.left input.old))
            ≡ prepend (10 ∷ []) (left_of self.new (I.left input.new))) }
        ensures fault { IfErr result (λ e. (command : Command)
            → IsFault (with_line_end command) e (suc (commands_read self.old))
            (left_of self.old (I.left input.old)) (left_of self.new (I.left input.new))) }
        ensures ahead { IsErrOf result ScriptFault.Failed → read_ahead self.new ≡ [] }
        ensures unasked { self.old.at < self.old.end → input.new ≡ input.old }
        ensures cause { IsErrOf result ScriptFault.Failed
            → Increased (I.faults input.old) (I.faults input.new) }
        ensures faults { I.faults input.old ≤ I.faults input.new }
        ensures count { self.new.count ≡ self.old.count }
    {
        match self.next_byte(input) {
            Ok(Some(b'\n')) => Ok(()),
            Ok(_) => Err(self.broken()),
            Err(_) => Err(ScriptFault::Failed),
        }
    }

    // Moves bytes that are ahead to the end of the text, as many as there are, but no more than
    // `most`.
    fn move_ahead(&mut self, text: &mut Vec<u8>, most: usize) -> Result<(), AllocError>
        requires some { self.old.at < self.old.end }
        requires most { 0 < most }
        ensures ok { OnOk result (IsMoved most text.old.items text.new.items
            (read_ahead self.old) (read_ahead self.new)) }
        ensures err { OnErr result (self.new ≡ self.old) }
        ensures err_text { OnErr result (text.new.items ≡ text.old.items) }
        ensures count { self.new.count ≡ self.old.count }
    {
        let n = (self.end - self.at).min(most);
        text.extend_from_slice(&self.buffer[self.at..self.at + n])?;
        self.at += n;
        Ok(())
    }

    // The next bytes, as many as `count`.
    fn take_text<I: Source>(
        &mut self,
        alloc: Global,
        input: &mut I,
        count: usize,
    ) -> Result<Vec<u8>, ScriptFault>
        ensures taken { IfOk result (λ text. (left_of self.old (I.left input.old))
            ≡ prepend text.items (left_of self.new (I.left input.new))) }
        ensures length { IfOk result (λ text. vec_len text ≡ count) }
        ensures fault { IfErr result (λ e. (name : List ℕ)
            → IsFault (with_text (Some (name, count))) e (suc (commands_read self.old))
            (left_of self.old (I.left input.old)) (left_of self.new (I.left input.new))) }
        ensures ahead { IsErrOf result ScriptFault.Failed → read_ahead self.new ≡ [] }
        ensures unasked { count ≤ length (read_ahead self.old) → (input.new ≡ input.old)
            × IfOk result (λ text. read_ahead self.old ≡ text.items ++ read_ahead self.new) }
        ensures cause { IsErrOf result ScriptFault.Failed
            → Increased (I.faults input.old) (I.faults input.new) }
        ensures faults { I.faults input.old ≤ I.faults input.new }
        ensures count { self.new.count ≡ self.old.count }
    {
        let mut text = Vec::new(alloc);
        while text.len() < count {
            match self.fill(input) {
                Ok(true) => {}
                Ok(false) => return Err(self.broken()),
                Err(_) => return Err(ScriptFault::Failed),
            }
            let most = count - text.len();
            self.move_ahead(&mut text, most)?;
        }
        Ok(text)
    }

    // The `replace` of this name and text, which were taken.
    fn end_replace<I: Source>(
        &mut self,
        alloc: Global,
        input: &mut I,
        name: &[u8],
        text: Vec<u8>,
    ) -> Result<Command, ScriptFault>
        ensures command { IfOk result (λ command.
            TakesCommand (with_line_end (Command.Replace name.now text.items)) command
            (left_of self.old (I.left input.old)) (left_of self.new (I.left input.new))) }
        ensures fault { IfErr result (λ e.
            IsFault (with_line_end (Command.Replace name.now text.items)) e
            (suc (commands_read self.old))
            (left_of self.old (I.left input.old)) (left_of self.new (I.left input.new))) }
        ensures ahead { IsErrOf result ScriptFault.Failed → read_ahead self.new ≡ [] }
        ensures unasked { self.old.at < self.old.end → input.new ≡ input.old }
        ensures cause { IsErrOf result ScriptFault.Failed
            → Increased (I.faults input.old) (I.faults input.new) }
        ensures faults { I.faults input.old ≤ I.faults input.new }
        ensures count { self.new.count ≡ self.old.count }
    {
        if let Err(fault) = self.take_line_end(input) {
            drop(text);
            return Err(fault);
        }
        let name = Name::from_slice(alloc, name)?;
        Ok(Command::Replace {
            name,
            text: Bytes::from_vec(text),
        })
    }

    // The `replace` of this name, of which the line was taken.
    fn take_replace<I: Source>(
        &mut self,
        alloc: Global,
        input: &mut I,
        name: &[u8],
        count: usize,
    ) -> Result<Command, ScriptFault>
        ensures command { IfOk result (λ command. TakesCommand (with_text (Some (name.now, count)))
            command (left_of self.old (I.left input.old)) (left_of self.new (I.left input.new))) }
        ensures fault { IfErr result (λ e.
            IsFault (with_text (Some (name.now, count))) e (suc (commands_read self.old))
            (left_of self.old (I.left input.old)) (left_of self.new (I.left input.new))) }
        ensures ahead { IsErrOf result ScriptFault.Failed → read_ahead self.new ≡ [] }
        ensures unasked { with_text (Some (name.now, count)) (read_ahead self.old) ≢ lacks
            → input.new ≡ input.old }
        ensures cause { IsErrOf result ScriptFault.Failed
            → Increased (I.faults input.old) (I.faults input.new) }
        ensures faults { I.faults input.old ≤ I.faults input.new }
        ensures count { self.new.count ≡ self.old.count }
    {
        let text = self.take_text(alloc, input, count)?;
        self.end_replace(alloc, input, name, text)
    }

    // The command of this line, which was taken.
    fn after_line<I: Source>(
        &mut self,
        alloc: Global,
        input: &mut I,
        line: &[u8],
    ) -> Result<Command, ScriptFault>
        ensures command { IfOk result (λ command. TakesCommand (with_line line.now) command
            (left_of self.old (I.left input.old)) (left_of self.new (I.left input.new))) }
        ensures fault { IfErr result (λ e.
            IsFault (with_line line.now) e (suc (commands_read self.old))
            (left_of self.old (I.left input.old)) (left_of self.new (I.left input.new))) }
        ensures ahead { IsErrOf result ScriptFault.Failed → read_ahead self.new ≡ [] }
        ensures unasked { with_line line.now (read_ahead self.old) ≢ lacks
            → input.new ≡ input.old }
        ensures cause { IsErrOf result ScriptFault.Failed
            → Increased (I.faults input.old) (I.faults input.new) }
        ensures faults { I.faults input.old ≤ I.faults input.new }
        ensures count { self.new.count ≡ self.old.count }
    {
        if line == b"build".as_slice() {
            return Ok(Command::Build);
        }
        if line == b"end".as_slice() {
            return Ok(Command::End);
        }
        let Some((name, count)) = replace_of(line) else {
            return Err(self.broken());
        };
        self.take_replace(alloc, input, name, count)
    }

    // The next command, whatever its number.
    fn take_command<I: Source>(
        &mut self,
        alloc: Global,
        input: &mut I,
    ) -> Result<Command, ScriptFault>
        ensures command { IfOk result (λ command. TakesCommand first command
            (left_of self.old (I.left input.old)) (left_of self.new (I.left input.new))) }
        ensures fault { IfErr result (λ e. IsFault first e (suc (commands_read self.old))
            (left_of self.old (I.left input.old)) (left_of self.new (I.left input.new))) }
        ensures ahead { IsErrOf result ScriptFault.Failed → read_ahead self.new ≡ [] }
        ensures unasked { first (read_ahead self.old) ≢ lacks → input.new ≡ input.old }
        ensures cause { IsErrOf result ScriptFault.Failed
            → Increased (I.faults input.old) (I.faults input.new) }
        ensures faults { I.faults input.old ≤ I.faults input.new }
        ensures count { self.new.count ≡ self.old.count }
    {
        let line = self.take_line(input)?;
        self.after_line(alloc, input, line.as_slice())
    }

    /// The next command of the script. What is taken of what is left is the command and nothing
    /// more. The source is asked only where the command lacks bytes. `Broken` where what is left
    /// begins with no command, and, without a read, where `MOST_COMMANDS` were given. `Failed`
    /// only where a read failed while the command was not whole. After a fault the reader is of
    /// no use: bytes of the command may be gone.
    pub fn next_command<I: Source>(
        &mut self,
        alloc: Global,
        input: &mut I,
    ) -> Result<Command, ScriptFault>
        ensures command { IfOk result (λ command. TakesCommand first command
            (left_of self.old (I.left input.old)) (left_of self.new (I.left input.new))) }
        ensures given { OnOk result (commands_read self.old < most_commands) }
        ensures count { OnOk result (commands_read self.new ≡ suc (commands_read self.old)) }
        ensures fault { IfErr result (λ e. commands_read self.old < most_commands
            → IsFault first e (suc (commands_read self.old))
            (left_of self.old (I.left input.old)) (left_of self.new (I.left input.new))) }
        ensures full { commands_read self.old ≡ most_commands
            → (result ≡ Err (ScriptFault.Broken (suc most_commands)))
            × (self.new ≡ self.old) × (input.new ≡ input.old) }
        ensures ahead { IsErrOf result ScriptFault.Failed → read_ahead self.new ≡ [] }
        ensures unasked { first (read_ahead self.old) ≢ lacks → input.new ≡ input.old }
        ensures cause { IsErrOf result ScriptFault.Failed
            → Increased (I.faults input.old) (I.faults input.new) }
        ensures faults { I.faults input.old ≤ I.faults input.new }
    {
        if self.count >= MOST_COMMANDS {
            return Err(self.broken());
        }
        let command = self.take_command(alloc, input)?;
        self.count += 1;
        Ok(command)
    }
}
