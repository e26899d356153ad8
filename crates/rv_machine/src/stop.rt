//! How the run of a program ends, and why a machine stopped.

/// How the run of a program ends.
#[derive(Clone, Copy, Debug, PartialEq, Eq)]
pub(crate) enum Ending {
    /// By the environment call exit, with its status.
    Exit(u8),
    /// By ebreak, with which a program says that its stack is used up.
    Stack,
    /// At an instruction that cannot be done.
    Stuck { pc: u32, why: u8 },
}

/// Why a machine stopped. A machine that has ended, by `Exit`, `Stack` or `Stuck`, gives its ending
/// again.
#[derive(Clone, Copy, Debug, PartialEq, Eq)]
pub enum Stop {
    /// The program has exited, with this status.
    Exit(u8),
    /// The program has no stack left (ebreak).
    Stack,
    /// All steps were done, and the program has not ended.
    Budget,
    /// The instruction at the address `pc` cannot be done. `why` is 1 where `pc` is no multiple of
    /// 4 or not executable, 2 where there is no such instruction, 3 where memory is absent or has
    /// not the flag, 4 where an address is no multiple of its width, and 5 where there is no such
    /// environment call.
    Stuck { pc: u32, why: u8 },
    /// The input failed: its count of faults increased. The instruction has not happened.
    ReadFault,
    /// The output failed: its count of faults increased. The instruction has not happened.
    WriteFault,
}

impl From<Ending> for Stop {
    ghost use Rattle.std.specs.Prelude.{◌≡◌};
    ghost use Rattle.rv_machine.specs.Endings.{stop_for};

    ghost from_gives = { λ ending stop. stop ≡ stop_for ending };

    fn from(ending: Ending) -> Stop {
        match ending {
            Ending::Exit(status) => Stop::Exit(status),
            Ending::Stack => Stop::Stack,
            Ending::Stuck { pc, why } => Stop::Stuck { pc, why },
        }
    }
}
