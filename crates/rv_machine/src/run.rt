//! A run of many steps.

ghost use Rattle.std.specs.Prelude.{◌≡◌, ◌≤◌, ℕ, List};
ghost use Rattle.cc_io.specs.Source.{prepend};
ghost use Rattle.rv_machine.specs.Runs.{IsSomeRun};
ghost use Rattle.rv_machine.specs.Steps.{HasIncreased};
ghost use Rattle.rv_machine.specs.View.{flags_in, hart_of};

use crate::machine::Machine;
use crate::stop::Stop;
use cc_io::{Sink, Source};

impl Machine {
    /// Does at most `steps` instructions, of which the one that ends the run is the last. `Budget`
    /// exactly where all were done and the run has not ended. A machine that has ended gives its
    /// ending again. A fault comes only where the stream's count of faults increased; the
    /// instruction has then not happened. Takes no memory.
    pub fn run<I: Source, O: Sink>(&mut self, steps: u64, input: &mut I, output: &mut O) -> Stop
        ensures run { IsSomeRun (flags_in self.old) steps (hart_of self.old) (hart_of self.new)
            (record { held = O.held output.old; left = I.left input.old })
            (record { held = O.held output.new; left = I.left input.new }) result }
        ensures left { (taken : List ℕ) × (I.left input.old ≡ prepend taken (I.left input.new)) }
        ensures flags { flags_in self.new ≡ flags_in self.old }
        ensures read_faults { I.faults input.old ≤ I.faults input.new }
        ensures write_faults { O.faults output.old ≤ O.faults output.new }
        ensures cause { HasIncreased result
            (I.faults input.old) (I.faults input.new) (O.faults output.old) (O.faults output.new) }
        ensures rest { O.rest output.new ≡ O.rest output.old }
    {
        if let Some(ending) = self.ending {
            return Stop::from(ending);
        }
        let mut at_end = false;
        for _done in 0..steps {
            if let Some(stop) = self.step_from(input, &mut at_end, output) {
                return stop;
            }
        }
        Stop::Budget
    }
}
