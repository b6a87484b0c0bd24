ghost use Rattle.std.specs.Prelude.{◌≡◌, ◌∷◌, ◌++◌, codes, IfSome, MatchResult, OnOk, OnErr, IsOkUnless};
ghost use Rattle.rr_orders.specs.Scan.Writing.{Continues};
ghost use Rattle.rr_code.specs.Command.{IsCommand, IsReadAs, SpellsCommand, spelling, text};
ghost use Rattle.rr_code.specs.Reading.{read_words, read_open};

use crate::fault::Fault;
use crate::players::Players;
use crate::{auction, stock};
use rr_orders::Order;
use rr_orders::scan::{Words, write_word};
use rr_roster::{Corp, Private, ShareSource};
use rr_words::Name;
use std::alloc::AllocError;

/// A command of the game: what players or corporations do at a table. A number that a command's words spell has one to
/// ten digits, so it is below 10^10, and the first of several digits is not 0. The words of a sheet and of a
/// certificate are lent from the line.
#[derive(Debug, Drop, PartialEq, Eq)]
pub enum Command<'a> {
    /// The table is opened with these players.
    Open {
        players: Players,
    },
    /// A player buys the cheapest private that is unsold.
    BuyPrivate {
        player: Name,
    },
    /// A player bids on a private, in dollars.
    Bid {
        player: Name,
        private: Private,
        amount: u64,
    },
    /// A player passes in the auction.
    Pass {
        player: Name,
    },
    /// A player sets a corporation's par, the first price of a share, in dollars.
    Par {
        player: Name,
        corp: Corp,
        price: u64,
    },
    /// A player buys a 10% certificate.
    BuyShare {
        player: Name,
        corp: Corp,
        source: ShareSource,
    },
    /// A player sells this number of 10% shares.
    Sell {
        player: Name,
        corp: Corp,
        count: u64,
    },
    /// A player changes the M&H for a 10% certificate of the NYC.
    Swap {
        player: Name,
        source: ShareSource,
    },
    /// A player ends its turn in a stock round.
    Done {
        player: Name,
    },
    /// A corporation does something in its turn of an operating round.
    Order(Order<'a>),
}

impl<'a> Command<'a> {
    /// Reads the words of a command as a table keeps them, without its stamp and the table's name.
    /// Each command has one text: its words with one space between each two, none before and none
    /// behind, and numbers without a leading zero.
    ///
    /// # Errors
    /// `Malformed` where the bytes are no command's text.
    pub fn read(words: &'a [u8]) -> Result<Command<'a>, Fault>
        ensures found { MatchResult result (λ c. SpellsCommand words.now c) (λ fault. fault ≡ Fault.Malformed) }
        ensures only { (c : Command) → SpellsCommand words.now c → result ≡ Ok c }
        ensures exact { IsReadAs words.now result }
    {
        let mut words = Words::of(words);
        Command::from_words(&mut words).ok_or(Fault::Malformed)
    }

    pub(crate) fn from_words(words: &mut Words<'a>) -> Option<Command<'a>>
        ensures exact { result ≡ read_words words.old }
        ensures found { IfSome result (λ c. IsCommand c × (words.old ≡ spelling c)) }
    {
        let head = words.next()?;
        Command::named(head, words)
    }

    /// The command with this first word, and these behind it.
    pub(crate) fn named(head: &[u8], words: &mut Words<'a>) -> Option<Command<'a>>
        ensures exact { result ≡ read_words (head.now ∷ words.old) }
        ensures found { IfSome result (λ c. IsCommand c × (head.now ∷ words.old ≡ spelling c)) }
    {
        if head == b"open".as_slice() {
            return read_open(words);
        }
        if head == b"buy".as_slice() {
            return stock::read_buy(words);
        }
        if head == b"bid".as_slice() {
            return auction::read_bid(words);
        }
        if head == b"pass".as_slice() {
            return auction::read_pass(words);
        }
        if head == b"par".as_slice() {
            return auction::read_par(words);
        }
        if head == b"sell".as_slice() {
            return stock::read_sell(words);
        }
        if head == b"swap".as_slice() {
            return stock::read_swap(words);
        }
        if head == b"done".as_slice() {
            return stock::read_done(words);
        }
        let order = Order::named(head, words)?;
        Some(Command::Order(order))
    }

    /// Appends the command's words, as `read` reads them: what it gives back is this command, if
    /// `read` can give it at all. It gives none with a number of more than ten digits or with a
    /// player named `bank`, `offer` or `pool`.
    ///
    /// # Errors
    /// `OutOfMemory` where `out` can't grow; its bytes are then as they were.
    pub fn write(&self, out: &mut Vec<u8>) -> Result<(), Fault>
        ensures ok { OnOk result (out.new.items ≡ out.old.items ++ text self.now) }
        ensures err { OnErr result (out.new.items ≡ out.old.items) }
        ensures memory { IsOkUnless result Fault.OutOfMemory }
    {
        let before = out.len();
        if self.write_words(out).is_err() {
            out.truncate(before);
            return Err(Fault::OutOfMemory);
        }
        Ok(())
    }

    fn write_words(&self, out: &mut Vec<u8>) -> Result<(), AllocError>
        ensures ok { OnOk result (out.new.items ≡ out.old.items ++ text self.now) }
        ensures kept { Continues out.old.items out.new.items }
    {
        match self {
            Command::Open { players } => write_open(players, out),
            Command::BuyPrivate { player } => auction::write_buy(player, out),
            Command::Bid {
                player,
                private,
                amount,
            } => auction::write_bid(player, *private, *amount, out),
            Command::Pass { player } => auction::write_pass(player, out),
            Command::Par {
                player,
                corp,
                price,
            } => auction::write_par(player, *corp, *price, out),
            Command::BuyShare {
                player,
                corp,
                source,
            } => stock::write_buy(player, *corp, *source, out),
            Command::Sell {
                player,
                corp,
                count,
            } => stock::write_sell(player, *corp, *count, out),
            Command::Swap { player, source } => stock::write_swap(player, *source, out),
            Command::Done { player } => stock::write_done(player, out),
            Command::Order(order) => order.write(out),
        }
    }
}

fn read_open<'a>(words: &mut Words<'a>) -> Option<Command<'a>>
    ensures exact { result ≡ read_open words.old }
    ensures found { IfSome result (λ c. IsCommand c × (codes "open" ∷ words.old ≡ spelling c)) }
{
    let players = Players::read(words)?;
    Some(Command::Open { players })
}

fn write_open(players: &Players, out: &mut Vec<u8>) -> Result<(), AllocError>
    ensures ok { OnOk result (out.new.items ≡ out.old.items ++ text (Command.Open players.now)) }
    ensures kept { Continues out.old.items out.new.items }
{
    out.extend_from_slice(b"open")?;
    for player in players.as_slice() {
        write_word(player.as_bytes(), out)?;
    }
    Ok(())
}
