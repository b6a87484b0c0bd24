ghost use Rattle.std.specs.Prelude.{◌≡◌, [], ◌∷◌, ◌++◌, OnOk, OnErr};

use smallvec::SmallVec;
use std::alloc::{AllocError, Global};
use std::marker::Model;

/// The states that may follow one state of a graph. States are numbered from 0.
#[derive(Debug, Drop)]
pub struct Followers {
    // Where tracks meet, six are room for most.
    states: SmallVec<usize, 6>,
}

impl Model for Followers {
    ghost use Rattle.std.specs.Prelude.{ℕ, List};

    ghost Value = { List ℕ };

    ghost view = { λ followers. followers.states.items };
}

impl Followers {
    /// A state that none may follow.
    pub fn new(alloc: Global) -> Followers
        ensures { result ≡ [] }
    {
        Followers {
            states: SmallVec::new(alloc),
        }
    }

    /// Lets one more state follow. Only memory can fail, and then nothing is changed.
    pub fn push(&mut self, state: usize) -> Result<(), AllocError>
        ensures ok { OnOk result (self.new ≡ self.old ++ state ∷ []) }
        ensures err { OnErr result (self.new ≡ self.old) }
    {
        self.states.push(state)?;
        Ok(())
    }

    /// The states, in the order in which they were pushed.
    pub fn as_slice(&self) -> &[usize]
        ensures { result.now ≡ self.now }
    {
        self.states.as_slice()
    }
}
