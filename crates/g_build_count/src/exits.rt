//! How a statement can be left other than at its end.

ghost use Rattle.std.specs.Prelude.{◌≡◌};
ghost use Rattle.g_build_def.specs.Exits.{no_exits, either_exits, past_loop, past_switch, can_leave};
ghost use Rattle.g_build_count.specs.ExitsViews.{exits_of};

/// Which jumps a statement holds that leave it.
#[derive(Clone, Copy)]
pub struct Leaves {
    pub returns: bool,
    pub breaks: bool,
    pub continues: bool,
}

impl Leaves {
    /// It cannot be left.
    pub fn none() -> Leaves
        ensures { exits_of result ≡ no_exits }
    {
        Leaves {
            returns: false,
            breaks: false,
            continues: false,
        }
    }

    /// Those of either part.
    pub fn either(self, other: Leaves) -> Leaves
        ensures { exits_of result ≡ either_exits (exits_of self) (exits_of other) }
    {
        Leaves {
            returns: self.returns || other.returns,
            breaks: self.breaks || other.breaks,
            continues: self.continues || other.continues,
        }
    }

    /// Those of the body of a loop that leave the loop.
    pub fn past_loop(self) -> Leaves
        ensures { exits_of result ≡ past_loop (exits_of self) }
    {
        Leaves {
            returns: self.returns,
            breaks: false,
            continues: false,
        }
    }

    /// Those of the groups of a `switch` that leave it.
    pub fn past_switch(self) -> Leaves
        ensures { exits_of result ≡ past_switch (exits_of self) }
    {
        Leaves {
            returns: self.returns,
            breaks: false,
            continues: self.continues,
        }
    }

    /// Whether there is one.
    pub fn can_leave(self) -> bool
        ensures { result ≡ can_leave (exits_of self) }
    {
        self.returns || self.breaks || self.continues
    }
}
