ghost use Rattle.std.specs.Prelude.{◌≡◌, ◌+◌, ◌≤◌, ◌++◌, length};
ghost use Rattle.rr_moderator.specs.Fault.{data_of, game_data, game_words, kit_data, kit_words, number_of, of_code, of_game, of_rules, of_search, of_store, of_serve, refusal_of, words_of};
ghost use Rattle.rr_moderator.specs.declared.fault.Fault.TheVariants.{OutOfMemory};

use crate::reply::{Reply, ShortReply};
use rr_books::Refusal;
use rr_pages::Damage;
use rr_tables::records;
use std::alloc::{AllocError, AllocFailed};
use thiserror::Error;

/// Why a line, a kit text or a file is refused.
#[derive(Clone, Copy, Debug, Drop, PartialEq, Eq, Error)]
pub enum Fault {
    /// A text of the kit is refused. Want of memory isn't told by this, but by `OutOfMemory`.
    #[error("{0}")]
    Kit(rr_kit::Fault),
    /// The rules of the game refuse it. Want of memory isn't told by this, but by `OutOfMemory`.
    #[error("{0}")]
    Game(Refusal),
    /// No best run was found whose certificate has at most 4,096 nodes and which a line has room for.
    #[error("no certificate found")]
    NoCertificate,
    /// The stamp isn't the table's, which is given.
    #[error("stale stamp {0}")]
    StaleStamp(u64),
    /// The turn hasn't ended yet, or it is forgotten.
    #[error("turn not kept")]
    TurnNotKept,
    /// The table has all the commands that it can keep, or its last stamp.
    #[error("too many commands")]
    TooManyCommands,
    /// The line is of no form.
    #[error("malformed line")]
    MalformedLine,
    /// The device failed. Whether the request under way was taken is known when the file is opened again.
    #[error("device failed")]
    DeviceFailed,
    /// The file has no room for the request: a checkpoint would need more pages than are free, or a number would be past
    /// the last.
    #[error("file full")]
    FileFull,
    /// The file holds what no store of ours holds; the first clause that it breaks.
    #[error("damaged {0}")]
    Damaged(Damage),
    /// The file is no store.
    #[error("not a store")]
    NotAStore,
    /// The file to be formatted isn't empty.
    #[error("not empty")]
    NotEmpty,
    /// The device failed before: the file has to be opened again.
    #[error("open again")]
    OpenAgain,
    /// There are 64 tables.
    #[error("too many tables")]
    TooManyTables,
    /// The line has more than 32,000 bytes.
    #[error("line too long")]
    LineTooLong,
    /// No table has this name.
    #[error("no such table")]
    NoSuchTable,
    /// A reader or a writer failed.
    #[error("stream failed")]
    StreamFailed,
    /// A request for memory was refused.
    #[error("out of memory")]
    OutOfMemory,
}

impl Fault {
    /// The number that a reply gives before the text.
    pub fn number(&self) -> u8
        ensures { result ≡ number_of self.now }
    {
        match self {
            Fault::Kit(fault) => fault.number(),
            Fault::Game(fault) => fault.number(),
            Fault::NoCertificate => 41,
            Fault::StaleStamp(_) => 52,
            Fault::TurnNotKept => 53,
            Fault::TooManyCommands => 54,
            Fault::MalformedLine => 55,
            Fault::DeviceFailed => 60,
            Fault::FileFull => 62,
            Fault::Damaged(_) => 63,
            Fault::NotAStore | Fault::NotEmpty => 64,
            Fault::OpenAgain => 65,
            Fault::TooManyTables => 66,
            Fault::LineTooLong => 67,
            Fault::NoSuchTable => 68,
            Fault::StreamFailed => 69,
            Fault::OutOfMemory => 70,
        }
    }

    /// The reply that refuses: `no`, the number and the text. It takes no memory.
    pub fn refusal(&self) -> ShortReply
        ensures text { result ≡ refusal_of self.now }
        ensures bounded { length result ≤ 100 }
    {
        let mut reply = ShortReply::new();
        reply.text(b"no ");
        reply.number(u64::from(self.number()));
        reply.text(b" ");
        reply.text(self.words().as_bytes());
        self.write_data(&mut reply);
        reply.text(b"\n");
        reply
    }

    /// Writes the reply that refuses.
    pub fn write(&self, reply: &mut Reply)
        ensures text { reply.new ≡ refusal_of self.now }
        ensures bounded { length reply.new ≤ 100 }
    {
        let refusal = self.refusal();
        reply.clear();
        reply.text(refusal.as_bytes());
    }

    /// What follows the words.
    fn write_data(&self, reply: &mut ShortReply)
        requires { length reply.old ≤ 50 }
        ensures text { reply.new ≡ reply.old ++ data_of self.now }
        ensures bounded { length reply.new ≤ length reply.old + 42 }
    {
        match *self {
            Fault::Kit(fault) => write_kit_data(fault, reply),
            Fault::Game(fault) => write_game_data(fault, reply),
            Fault::StaleStamp(number) => {
                reply.text(b" ");
                reply.number(number);
            }
            Fault::Damaged(damage) => {
                reply.text(b" ");
                reply.number(u64::from(damage.clause()));
            }
            _ => {}
        }
    }

    /// The words of the refusal, without those that follow them.
    fn words(&self) -> &'static str
        ensures value { result.now ≡ words_of self.now }
        ensures short { length result.now ≤ 24 }
    {
        match self {
            Fault::Kit(fault) => kit_words(*fault),
            Fault::Game(fault) => game_words(*fault),
            Fault::NoCertificate => "no certificate found",
            Fault::StaleStamp(_) => "stale stamp",
            Fault::TurnNotKept => "turn not kept",
            Fault::TooManyCommands => "too many commands",
            Fault::MalformedLine => "malformed line",
            Fault::DeviceFailed => "device failed",
            Fault::FileFull => "file full",
            Fault::Damaged(_) => "damaged",
            Fault::NotAStore => "not a store",
            Fault::NotEmpty => "not empty",
            Fault::OpenAgain => "open again",
            Fault::TooManyTables => "too many tables",
            Fault::LineTooLong => "line too long",
            Fault::NoSuchTable => "no such table",
            Fault::StreamFailed => "stream failed",
            Fault::OutOfMemory => "out of memory",
        }
    }
}

/// The words of a refusal of a kit.
fn kit_words(fault: rr_kit::Fault) -> &'static str
    ensures value { result.now ≡ kit_words fault }
    ensures short { length result.now ≤ 24 }
{
    match fault {
        rr_kit::Fault::BadChart { .. } => "bad chart",
        rr_kit::Fault::BadRoster => "bad roster",
        rr_kit::Fault::RosterRule(_) => "roster rule",
        rr_kit::Fault::BadManifest(_) => "bad manifest",
        rr_kit::Fault::BadBoard(_) => "bad board",
        rr_kit::Fault::OutOfMemory => "out of memory",
    }
}

/// The words of a refusal by the rules of the game.
fn game_words(fault: Refusal) -> &'static str
    ensures value { result.now ≡ game_words fault }
    ensures short { length result.now ≤ 24 }
{
    match fault {
        Refusal::NoSuchName => "no such name",
        Refusal::TooLittleCash => "too little cash",
        Refusal::NotYourTurn => "not your turn",
        Refusal::BidTooLow(_) => "bid too low",
        Refusal::NotForSale => "not for sale",
        Refusal::CashTiedUp => "cash tied up",
        Refusal::CertificateLimit => "certificate limit",
        Refusal::OverSixty => "over 60 percent",
        Refusal::SoldThisRound => "sold this round",
        Refusal::FirstStockRound => "first stock round",
        Refusal::PoolOverHalf => "pool over 50 percent",
        Refusal::SecondPurchase => "second buy",
        Refusal::MustSellFirst => "must sell first",
        Refusal::NotAPar => "not a par",
        Refusal::ColourNotOpen => "colour not open",
        Refusal::TileGone => "tile gone",
        Refusal::NotAnUpgrade => "not an upgrade",
        Refusal::NotReached => "not reached",
        Refusal::BlockedHex => "blocked hex",
        Refusal::NoSlot => "no slot",
        Refusal::NoTokenLeft => "no token left",
        Refusal::IllegalSheet(_) => "illegal sheet",
        Refusal::CertificateRefused => "certificate refused",
        Refusal::WrongStep => "wrong step",
        Refusal::TrainLimit => "train limit",
        Refusal::NotOnSale => "not on sale",
        Refusal::PriceOutOfBounds => "price out of bounds",
        Refusal::MustDiscardFirst => "must discard first",
        Refusal::MustOwnTrain => "must own a train",
        Refusal::SaleNotNeeded => "sale not needed",
        Refusal::PresidencyWouldChange => "presidency would change",
        Refusal::NotBankrupt => "not bankrupt",
        Refusal::GameOver => "game is over",
        Refusal::OutOfMemory => "out of memory",
    }
}

/// What follows the words of a refusal by the game: the least lawful bid, or the clause that a sheet breaks.
fn write_game_data(fault: Refusal, reply: &mut ShortReply)
    requires { length reply.old ≤ 50 }
    ensures text { reply.new ≡ reply.old ++ game_data fault }
    ensures bounded { length reply.new ≤ length reply.old + 42 }
{
    match fault {
        Refusal::BidTooLow(least) => {
            reply.text(b" ");
            reply.number(least);
        }
        Refusal::IllegalSheet(clause) => {
            reply.text(b" ");
            reply.number(u64::from(clause.number()));
        }
        _ => {}
    }
}

/// What follows the words of a refusal of a kit: a line, a word or a rule.
fn write_kit_data(fault: rr_kit::Fault, reply: &mut ShortReply)
    requires { length reply.old ≤ 50 }
    ensures text { reply.new ≡ reply.old ++ kit_data fault }
    ensures bounded { length reply.new ≤ length reply.old + 42 }
{
    match fault {
        rr_kit::Fault::BadChart { line, word } => {
            reply.text(b" ");
            reply.number(line as u64);
            reply.text(b" ");
            reply.number(word as u64);
        }
        rr_kit::Fault::BadManifest(line) | rr_kit::Fault::BadBoard(line) => {
            reply.text(b" ");
            reply.number(line as u64);
        }
        rr_kit::Fault::RosterRule(number) => {
            reply.text(b" ");
            reply.number(u64::from(number));
        }
        _ => {}
    }
}

impl From<Refusal> for Fault {
    ghost from_gives = { λ fault wrapped. wrapped ≡ of_game fault };

    fn from(fault: Refusal) -> Fault {
        match fault {
            Refusal::OutOfMemory => Fault::OutOfMemory,
            _ => Fault::Game(fault),
        }
    }
}

impl From<rr_code::Fault> for Fault {
    ghost from_gives = { λ fault wrapped. wrapped ≡ of_code fault };

    fn from(fault: rr_code::Fault) -> Fault {
        match fault {
            rr_code::Fault::Malformed => Fault::MalformedLine,
            rr_code::Fault::OutOfMemory => Fault::OutOfMemory,
        }
    }
}

impl From<rr_store::Fault> for Fault {
    ghost from_gives = { λ fault wrapped. wrapped ≡ of_store fault };

    fn from(fault: rr_store::Fault) -> Fault {
        match fault {
            rr_store::Fault::Kit(fault) => Fault::Kit(fault),
            rr_store::Fault::Game(fault) => Fault::Game(fault),
            rr_store::Fault::StaleStamp(stamp) => Fault::StaleStamp(stamp),
            rr_store::Fault::TurnNotKept => Fault::TurnNotKept,
            rr_store::Fault::TooManyCommands => Fault::TooManyCommands,
            rr_store::Fault::DeviceFailed => Fault::DeviceFailed,
            rr_store::Fault::FileFull => Fault::FileFull,
            rr_store::Fault::Damaged(damage) => Fault::Damaged(damage),
            rr_store::Fault::NotAStore => Fault::NotAStore,
            rr_store::Fault::NotEmpty => Fault::NotEmpty,
            rr_store::Fault::OpenAgain => Fault::OpenAgain,
            rr_store::Fault::TooManyTables => Fault::TooManyTables,
            rr_store::Fault::NoSuchTable => Fault::NoSuchTable,
            rr_store::Fault::OutOfMemory => Fault::OutOfMemory,
        }
    }
}

/// Of a request that isn't lawful at its table.
impl From<records::Fault> for Fault {
    ghost from_gives = { λ fault wrapped. wrapped ≡ of_rules fault };

    fn from(fault: records::Fault) -> Fault {
        Fault::from(rr_store::Fault::from(fault))
    }
}

impl From<rr_search::best_run::Fault> for Fault {
    ghost from_gives = { λ fault wrapped. wrapped ≡ of_search fault };

    fn from(fault: rr_search::best_run::Fault) -> Fault {
        match fault {
            rr_search::best_run::Fault::NoCertificate => Fault::NoCertificate,
            rr_search::best_run::Fault::OutOfMemory => Fault::OutOfMemory,
        }
    }
}

impl From<rr_serve::Fault> for Fault {
    ghost from_gives = { λ fault wrapped. wrapped ≡ of_serve fault };

    fn from(fault: rr_serve::Fault) -> Fault {
        match fault {
            rr_serve::Fault::DeviceFailed => Fault::DeviceFailed,
            rr_serve::Fault::StreamFailed => Fault::StreamFailed,
        }
    }
}

impl From<AllocError> for Fault {
    ghost from_gives = { λ _ fault. fault ≡ OutOfMemory };

    fn from(_error: AllocError) -> Fault {
        Fault::OutOfMemory
    }
}

impl<T: Drop> From<AllocFailed<T>> for Fault {
    ghost from_gives = { λ _ fault. fault ≡ OutOfMemory };

    fn from(_error: AllocFailed<T>) -> Fault {
        Fault::OutOfMemory
    }
}
