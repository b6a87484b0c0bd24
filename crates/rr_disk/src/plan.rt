ghost use Rattle.std.specs.Prelude.{◌≡◌};

/// Which device calls are still to fail.
#[derive(Clone, Copy, Debug, PartialEq, Eq)]
pub enum Plan {
    /// As many go through as the number says, and all later ones fail.
    After(u64),
    /// As many go through as the first number says, and the next one alone fails: a write after as many of its bytes as
    /// the second one says.
    Once(u64, usize),
    /// None.
    Never,
}

impl Plan {
    ghost use Rattle.rr_disk.specs.Plan.{strike_of, plan_after};

    /// Takes a device call. Where it is to fail, this says after how many bytes of a write.
    pub fn take_turn(&mut self) -> Option<usize>
        ensures strike { result ≡ strike_of self.old }
        ensures after { self.new ≡ plan_after self.old }
    {
        match *self {
            Plan::After(0) => Some(0),
            Plan::Once(0, out) => {
                *self = Plan::Never;
                Some(out)
            }
            Plan::After(calls) => {
                *self = Plan::After(calls - 1);
                None
            }
            Plan::Once(calls, out) => {
                *self = Plan::Once(calls - 1, out);
                None
            }
            Plan::Never => None,
        }
    }
}
