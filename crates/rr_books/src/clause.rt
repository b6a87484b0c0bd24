ghost use Rattle.std.specs.Prelude.{◌≡◌};
ghost use Rattle.rr_books.specs.Refusal.{clause_number};

/// What a sheet may break. The first six are tried train by train, in this order, and the last one over all routes.
#[derive(Clone, Copy, Debug, Drop, PartialEq, Eq)]
pub enum Clause {
    /// The train's word is missing, is of another kind or names a link that isn't there; or words are left over.
    WrongWord,
    /// The links are no walk between two centres, or the first link's number isn't below the last's.
    NoWalk,
    /// The walk comes to one node twice.
    NodeTwice,
    /// The route goes on from an off-board area, or from a city filled by others.
    TerminalInside,
    /// No centre of the route has a token of the corporation.
    NoToken,
    /// The route has more centres than the train counts.
    TooManyCentres,
    /// Two routes use one hexside.
    SharedHexside,
}

impl Clause {
    /// The clause's number in a reply, from 1 to 7.
    pub fn number(self) -> u8
        ensures { result ≡ clause_number self }
    {
        match self {
            Clause::WrongWord => 1,
            Clause::NoWalk => 2,
            Clause::NodeTwice => 3,
            Clause::TerminalInside => 4,
            Clause::NoToken => 5,
            Clause::TooManyCentres => 6,
            Clause::SharedHexside => 7,
        }
    }
}
