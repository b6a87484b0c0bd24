ghost use Rattle.std.specs.Prelude.{◌≡◌};
ghost use Rattle.rr_books.specs.Refusal.{number_of};
ghost use Rattle.rr_books.specs.declared.refusal.Refusal.TheVariants.{OutOfMemory};

use crate::clause::Clause;
use std::alloc::{AllocError, AllocFailed};
use thiserror::Error;

/// Why a command, or a query of a game, is refused: by a rule, or for want of memory. Which of these a call gives, and
/// when, its contract says.
#[derive(Clone, Copy, Debug, Drop, PartialEq, Eq, Error)]
pub enum Refusal {
    /// A player, a seat, a train, a hex or a tile that the table, its board or its manifest doesn't have.
    #[error("no such name")]
    NoSuchName,
    /// Who pays has less than the amount; of a train that must be owned, the corporation and its president together.
    #[error("too little cash")]
    TooLittleCash,
    /// Another seat or corporation is due, or a seat that is named isn't the president that has to act.
    #[error("not your turn")]
    NotYourTurn,
    /// The bid is below the least lawful one, which is given.
    #[error("bid too low {0}")]
    BidTooLow(u64),
    /// What is to be bid on, bought, sold or changed isn't there, or isn't the president's to sell, or the corporation
    /// isn't the one that is due a par.
    #[error("not for sale")]
    NotForSale,
    /// The player has the money, but has bid it on other privates.
    #[error("cash tied up")]
    CashTiedUp,
    /// The player would have more certificates that count than the limit of the table.
    #[error("certificate limit")]
    CertificateLimit,
    /// The player would have more than 60% of a corporation that stands in neither orange nor brown.
    #[error("over 60 percent")]
    OverSixty,
    /// The player sold shares of the corporation in this stock round.
    #[error("sold this round")]
    SoldThisRound,
    /// Nobody sells in the first stock round.
    #[error("first stock round")]
    FirstStockRound,
    /// The pool would have more than half of the corporation.
    #[error("pool over 50 percent")]
    PoolOverHalf,
    /// The player bought in this turn, and this further purchase isn't allowed.
    #[error("second buy")]
    SecondPurchase,
    /// The player is over a limit, and a sale is lawful.
    #[error("must sell first")]
    MustSellFirst,
    /// No corporation may begin at this price.
    #[error("not a par")]
    NotAPar,
    /// The tile's colour isn't laid yet, isn't the next one on the hex, or the hex takes no tile.
    #[error("colour not open")]
    ColourNotOpen,
    /// All tiles of the number lie on the board.
    #[error("tile gone")]
    TileGone,
    /// The tile doesn't keep what lies there, or uses an edge that faces no hex.
    #[error("not an upgrade")]
    NotAnUpgrade,
    /// The corporation reaches no link that the tile adds, or doesn't reach the city.
    #[error("not reached")]
    NotReached,
    /// A private that a player holds blocks the hex.
    #[error("blocked hex")]
    BlockedHex,
    /// There is no city, it has no slot that is free and not kept, or the corporation has a token there.
    #[error("no slot")]
    NoSlot,
    /// The corporation has placed all its tokens.
    #[error("no token left")]
    NoTokenLeft,
    /// The sheet isn't that of a lawful run; this is the first clause that it breaks.
    #[error("illegal sheet")]
    IllegalSheet(Clause),
    /// The certificate doesn't show that no run earns more.
    #[error("certificate refused")]
    CertificateRefused,
    /// What is due now isn't this command.
    #[error("wrong step")]
    WrongStep,
    /// The corporation has as many trains as it may have.
    #[error("train limit")]
    TrainLimit,
    /// There is no such train where it is to come from, or none is left to trade for, or privates aren't sold in this
    /// phase.
    #[error("not on sale")]
    NotOnSale,
    /// The price is nothing, or it isn't between half the private's face and twice that.
    #[error("price out of bounds")]
    PriceOutOfBounds,
    /// Some corporation has to give up a train first.
    #[error("must discard first")]
    MustDiscardFirst,
    /// The corporation has a route and no train, and a train is on sale.
    #[error("must own a train")]
    MustOwnTrain,
    /// The corporation that is due and its president can pay the train that it must own.
    #[error("sale not needed")]
    SaleNotNeeded,
    /// Another seat would become president of the corporation that is due.
    #[error("presidency would change")]
    PresidencyWouldChange,
    /// The corporation that is due and its president can pay the train that it must own, or the president can sell
    /// shares.
    #[error("not bankrupt")]
    NotBankrupt,
    /// The game is over.
    #[error("game is over")]
    GameOver,
    /// A request for memory was refused, or the table has no room for what would follow: 400,000,000 entries, 600 tiles
    /// or 48 tokens on its board, or more than 65,536 centres there.
    #[error("out of memory")]
    OutOfMemory,
}

impl Refusal {
    /// The number that a reply gives before the text.
    pub fn number(&self) -> u8
        ensures { result ≡ number_of self.now }
    {
        match self {
            Refusal::NoSuchName => 1,
            Refusal::TooLittleCash => 2,
            Refusal::NotYourTurn => 20,
            Refusal::BidTooLow(_) => 21,
            Refusal::NotForSale => 22,
            Refusal::CashTiedUp => 23,
            Refusal::CertificateLimit => 24,
            Refusal::OverSixty => 25,
            Refusal::SoldThisRound => 26,
            Refusal::FirstStockRound => 27,
            Refusal::PoolOverHalf => 28,
            Refusal::SecondPurchase => 29,
            Refusal::MustSellFirst => 30,
            Refusal::NotAPar => 31,
            Refusal::ColourNotOpen => 32,
            Refusal::TileGone => 33,
            Refusal::NotAnUpgrade => 34,
            Refusal::NotReached => 35,
            Refusal::BlockedHex => 36,
            Refusal::NoSlot => 37,
            Refusal::NoTokenLeft => 38,
            Refusal::IllegalSheet(_) => 39,
            Refusal::CertificateRefused => 40,
            Refusal::WrongStep => 42,
            Refusal::TrainLimit => 43,
            Refusal::NotOnSale => 44,
            Refusal::PriceOutOfBounds => 45,
            Refusal::MustDiscardFirst => 46,
            Refusal::MustOwnTrain => 47,
            Refusal::SaleNotNeeded => 48,
            Refusal::PresidencyWouldChange => 49,
            Refusal::NotBankrupt => 50,
            Refusal::GameOver => 51,
            Refusal::OutOfMemory => 70,
        }
    }
}

impl From<AllocError> for Refusal {
    ghost from_gives = { λ _ refusal. refusal ≡ OutOfMemory };

    fn from(_error: AllocError) -> Refusal {
        Refusal::OutOfMemory
    }
}

impl<T: Drop> From<AllocFailed<T>> for Refusal {
    ghost from_gives = { λ _ refusal. refusal ≡ OutOfMemory };

    fn from(_error: AllocFailed<T>) -> Refusal {
        Refusal::OutOfMemory
    }
}
