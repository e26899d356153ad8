//! One step, with what it writes and reads.

ghost use Rattle.std.specs.Prelude.{◌≡◌, ℕ, ◌≤◌, [], ◌∷◌, Option, None, true, IfOk, IfNone, IfSome, OnOk, OnErr, OnSome};
ghost use Rattle.cc_io.specs.Faults.{HasCause};
ghost use Rattle.cc_io.specs.Sink.{append};
ghost use Rattle.cc_io.specs.Source.{IsAtEnd};
ghost use Rattle.rv_isa.specs.Registers.{a1};
ghost use Rattle.rv_machine.specs.Machine.{answer, received};
ghost use Rattle.rv_machine.specs.Memory.{allowed, to_write};
ghost use Rattle.rv_machine.specs.Port.{IsReceived};
ghost use Rattle.rv_machine.specs.View.{state_of, flags_in, hart_of, OnlyStateChanges};

use crate::machine::{Machine, Progress};
use crate::stop::Stop;
use cc_io::{Failed, Sink, Source};
use rv_isa::Reg;

/// The next byte, or `None` at the end of the input, which is asked for once.
fn next_byte<I: Source>(input: &mut I, at_end: &mut bool) -> Result<Option<u8>, Failed>
    requires { at_end.old ≡ true → IsAtEnd (I.left input.old) }
    ensures received { IfOk result (λ taken. IsReceived taken
        (record { held = None; left = I.left input.old; closed = at_end.old })
        (record { held = None; left = I.left input.new; closed = at_end.new })) }
    ensures left { OnErr result (I.left input.new ≡ I.left input.old) }
    ensures at_end { OnErr result (at_end.new ≡ at_end.old) }
    ensures cause { HasCause (I.faults input.old) (I.faults input.new) result }
{
    if *at_end {
        return Ok(None);
    }
    let mut buffer = [0];
    if input.read(&mut buffer)? == 0 {
        *at_end = true;
        return Ok(None);
    }
    Ok(Some(buffer[0]))
}

/// Hands over what was written, where the input may have to be waited for.
fn hand_over<I: Source, O: Sink>(input: &I, at_end: bool, output: &mut O)
    ensures held { O.held output.new ≡ O.held output.old }
    ensures rest { O.rest output.new ≡ O.rest output.old }
    ensures faults { O.faults output.old ≤ O.faults output.new }
{
    if !at_end && input.may_wait() {
        output.flush();
    }
}

impl Machine {
    ghost use Rattle.rv_machine.specs.Port.{IsDoneAt};
    ghost use Rattle.rv_machine.specs.Steps.{hart_effect, IsDone, IsStopped, HasIncreased};

    /// Does the instruction at pc. `None` exactly where it was done and did not end the run; else
    /// why the machine stopped, and never `Budget`. A machine that has ended gives its ending
    /// again. After a fault the instruction has not happened, and can be tried again. Takes no
    /// memory.
    #[tactic(auto, using(crate::proofs::Ports::done_of))]
    pub fn step<I: Source, O: Sink>(&mut self, input: &mut I, output: &mut O) -> Option<Stop>
        ensures done { IfNone result
            (IsDone (hart_effect (flags_in self.old) (hart_of self.old)) (hart_of self.new)
            (record { held = O.held output.old; left = I.left input.old })
            (record { held = O.held output.new; left = I.left input.new })) }
        ensures stopped { IfSome result
            (IsStopped (hart_effect (flags_in self.old) (hart_of self.old)) (hart_of self.old)
            (hart_of self.new)
            (record { held = O.held output.old; left = I.left input.old })
            (record { held = O.held output.new; left = I.left input.new })) }
        ensures flags { flags_in self.new ≡ flags_in self.old }
        ensures read_faults { I.faults input.old ≤ I.faults input.new }
        ensures write_faults { O.faults output.old ≤ O.faults output.new }
        ensures cause { IfSome result (λ stop. HasIncreased stop
            (I.faults input.old) (I.faults input.new) (O.faults output.old) (O.faults output.new)) }
        ensures rest { O.rest output.new ≡ O.rest output.old }
    {
        if let Some(ending) = self.ending {
            return Some(Stop::from(ending));
        }
        let mut at_end = false;
        self.step_from(input, &mut at_end, output)
    }

    /// The same, of a run that has not ended, and of an input whose end may have been met.
    #[inline(always)]
    pub(crate) fn step_from<I: Source, O: Sink>(
        &mut self,
        input: &mut I,
        at_end: &mut bool,
        output: &mut O,
    ) -> Option<Stop>
        requires runs { self.old.ending ≡ None }
        requires at_end { at_end.old ≡ true → IsAtEnd (I.left input.old) }
        ensures runs { IfNone result (self.new.ending ≡ None) }
        ensures done { IfNone result
            (IsDoneAt (hart_effect (flags_in self.old) (hart_of self.old)) (hart_of self.new)
            (record { held = O.held output.old; left = I.left input.old; closed = at_end.old })
            (record { held = O.held output.new; left = I.left input.new; closed = at_end.new })) }
        ensures stopped { IfSome result
            (IsStopped (hart_effect (flags_in self.old) (hart_of self.old)) (hart_of self.old)
            (hart_of self.new)
            (record { held = O.held output.old; left = I.left input.old })
            (record { held = O.held output.new; left = I.left input.new })) }
        ensures at_end { OnSome result (at_end.new ≡ at_end.old) }
        ensures flags { flags_in self.new ≡ flags_in self.old }
        ensures read_faults { I.faults input.old ≤ I.faults input.new }
        ensures write_faults { O.faults output.old ≤ O.faults output.new }
        ensures cause { IfSome result (λ stop. HasIncreased stop
            (I.faults input.old) (I.faults input.new) (O.faults output.old) (O.faults output.new)) }
        ensures rest { O.rest output.new ≡ O.rest output.old }
    {
        match self.advance() {
            Ok(Progress::Done) => None,
            Ok(Progress::Put(byte)) => match self.put(byte, output) {
                Ok(()) => None,
                Err(_) => Some(Stop::WriteFault),
            },
            Ok(Progress::Get) => {
                hand_over(input, *at_end, output);
                match self.get(input, at_end) {
                    Ok(()) => None,
                    Err(_) => Some(Stop::ReadFault),
                }
            }
            Err(ending) => {
                self.ending = Some(ending);
                Some(Stop::from(ending))
            }
        }
    }

    /// Takes the byte that was read to the address in a1, or the end of the input.
    fn receive(&mut self, taken: Option<u8>)
        requires { allowed (flags_in self.old) to_write ((state_of self.old).regs a1) 1 ≡ true }
        ensures state { state_of self.new ≡ received (state_of self.old) taken }
        ensures keeps { OnlyStateChanges self.old self.new }
    {
        match taken {
            Some(byte) => {
                let address = self.look(Reg::A1);
                self.memory.store_byte(address, byte);
                self.give(Reg::A0, 1);
            }
            None => self.give(Reg::A0, 0),
        }
    }

    /// Writes a byte.
    fn put<O: Sink>(&mut self, byte: u8, output: &mut O) -> Result<(), Failed>
        ensures ok { OnOk result (state_of self.new ≡ answer (state_of self.old) 1) }
        ensures held { OnOk result (O.held output.new ≡ append (O.held output.old) (byte ∷ [])) }
        ensures err { OnErr result (self.new ≡ self.old) }
        ensures err_held { OnErr result (O.held output.new ≡ O.held output.old) }
        ensures keeps { OnlyStateChanges self.old self.new }
        ensures rest { O.rest output.new ≡ O.rest output.old }
        ensures cause { HasCause (O.faults output.old) (O.faults output.new) result }
    {
        output.write(&[byte])?;
        self.give(Reg::A0, 1);
        Ok(())
    }

    /// Reads a byte.
    fn get<I: Source>(&mut self, input: &mut I, at_end: &mut bool) -> Result<(), Failed>
        requires ended { at_end.old ≡ true → IsAtEnd (I.left input.old) }
        requires allowed { allowed (flags_in self.old) to_write ((state_of self.old).regs a1) 1
            ≡ true }
        ensures ok { OnOk result
            ((taken : Option ℕ) × (state_of self.new ≡ received (state_of self.old) taken)
            × IsReceived taken
            (record { held = None; left = I.left input.old; closed = at_end.old })
            (record { held = None; left = I.left input.new; closed = at_end.new })) }
        ensures err { OnErr result (self.new ≡ self.old) }
        ensures err_left { OnErr result (I.left input.new ≡ I.left input.old) }
        ensures err_at_end { OnErr result (at_end.new ≡ at_end.old) }
        ensures keeps { OnlyStateChanges self.old self.new }
        ensures cause { HasCause (I.faults input.old) (I.faults input.new) result }
    {
        let taken = next_byte(input, at_end)?;
        self.receive(taken);
        Ok(())
    }
}
