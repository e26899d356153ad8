//! What is drawn for the functions of a program.

ghost use Rattle.std.specs.Prelude.{◌≡◌, ◌<◌, ◌==◌, if◌then◌else◌};
ghost use Rattle.cc_gen.specs.Draws.{next_state, number_of, drawn_from};

/// A linear congruential generator of numbers.
#[derive(Drop)]
pub(crate) struct Draws {
    pub state: u32,
}

/// What is drawn for one function.
#[derive(Clone, Copy)]
pub(crate) struct Drawn {
    pub turns: u32,
    pub operator: u32,
    pub constant: u32,
    pub callee: Option<u32>,
}

impl Draws {
    /// Draws a number below `bound`.
    fn draw(&mut self, bound: u32) -> u32
        requires { 0 < bound }
        ensures state { self.new.state ≡ next_state self.old.state }
        ensures below { result < bound }
        ensures number { result ≡ number_of self.new.state bound }
    {
        self.state = self
            .state
            .wrapping_mul(1_664_525)
            .wrapping_add(1_013_904_223);
        self.state / 65536 % bound
    }

    /// Draws what the function of this number is made of. Function 0 calls no other.
    pub fn draw_function(&mut self, number: u32) -> Drawn
        ensures drawn { result ≡ drawn_from number self.old.state }
        ensures state { self.new.state
            ≡ (if number == 0 then next_state (next_state (next_state self.old.state))
            else next_state (next_state (next_state (next_state self.old.state)))) }
    {
        let turns = 1 + self.draw(4);
        let operator = self.draw(4);
        let constant = self.draw(100);
        let callee = if number == 0 {
            None
        } else {
            Some(self.draw(number))
        };
        Drawn {
            turns,
            operator,
            constant,
            callee,
        }
    }
}
