ghost use Rattle.std.specs.Prelude.{◌≡◌};
ghost use Rattle.rr_market.specs.Operations.Turn.{is_at, is_up_to, rank, takes};

use rr_books::Act;

/// What is under way at a table.
#[derive(Clone, Copy, Debug, PartialEq, Eq)]
pub enum Stage {
    /// The auction of the privates.
    Auction,
    /// A stock round.
    Stock,
    /// An operating round.
    Operating,
}

/// A step of a corporation's turn, in the order in which they come.
#[derive(Clone, Copy, Debug, PartialEq, Eq)]
pub enum TurnStep {
    /// The turn has begun: a tile may be laid.
    Lay,
    /// A tile was laid: a token may be placed.
    Station,
    /// A token was placed: the trains may run.
    Run,
    /// The trains ran: what they earned is to be paid out or kept.
    Pay,
    /// That was done: trains may be bought, and the turn may end.
    Train,
}

impl TurnStep {
    /// Whether the command is one that a turn takes at this step: a tile first, a token up to `Station`, a run up to
    /// `Run`, a dividend at `Pay` and a withholding up to there, trains and the turn's end at `Train`; a private is
    /// taken over and a train given up at any step. Commands of the auction and of stock rounds are none of a turn's.
    pub fn takes(self, act: &Act) -> bool
        ensures { result ≡ takes self act.now }
    {
        match act {
            Act::Lay { .. } => self.is_at(TurnStep::Lay),
            Act::Station { .. } => self.is_up_to(TurnStep::Station),
            Act::Run { .. } | Act::RunBest { .. } => self.is_up_to(TurnStep::Run),
            Act::PayOut { .. } => self.is_at(TurnStep::Pay),
            Act::Hold { .. } => self.is_up_to(TurnStep::Pay),
            Act::BuyTrain { .. } | Act::BuyTrainFrom { .. } | Act::Trade { .. } => {
                self.is_at(TurnStep::Train)
            }
            Act::Force { .. } | Act::Raise { .. } | Act::Bankrupt { .. } | Act::End { .. } => {
                self.is_at(TurnStep::Train)
            }
            Act::TakePrivate { .. } | Act::Discard { .. } => true,
            _ => false,
        }
    }

    fn is_at(self, step: TurnStep) -> bool
        ensures { result ≡ is_at self step }
    {
        self.rank() == step.rank()
    }

    fn is_up_to(self, last: TurnStep) -> bool
        ensures { result ≡ is_up_to self last }
    {
        self.rank() <= last.rank()
    }

    pub(crate) fn rank(self) -> u8
        ensures { result ≡ rank self }
    {
        match self {
            TurnStep::Lay => 0,
            TurnStep::Station => 1,
            TurnStep::Run => 2,
            TurnStep::Pay => 3,
            TurnStep::Train => 4,
        }
    }
}
