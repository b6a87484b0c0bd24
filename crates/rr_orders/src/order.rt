ghost use Rattle.std.specs.Prelude.{◌≡◌, ◌∷◌, ◌++◌, IfSome, MatchOption, OnOk, OnErr, Some};
ghost use Rattle.rr_words.specs.Line.{words_of};
ghost use Rattle.rr_orders.specs.Scan.Writing.{Continues};
ghost use Rattle.rr_orders.specs.Order.{IsOrder, SpellsOrder, corp_in, spelling, text};
ghost use Rattle.rr_orders.specs.Reading.{read_order};

use crate::scan::Words;
use crate::texts::{CertificateWords, SheetWords};
use crate::{forced, runs, tiles, trains, turns};
use rr_roster::{Corp, Kind, Private, TrainSource};
use rr_words::{HexName, Name};
use std::alloc::AllocError;

/// What a corporation does in its turn of an operating round, or a player for it. A number that an order's words spell
/// has one to ten digits, so it is below 10^10, and the first of several digits is not 0.
#[derive(Debug, Drop, PartialEq, Eq)]
pub enum Order<'a> {
    /// The corporation lays the tile of this number, 1 to 999, turned by this many sixths, 0 to 5.
    Lay {
        corp: Corp,
        hex: HexName,
        tile: u16,
        turn: u8,
    },
    /// The corporation puts a token on the centre of this number.
    Station {
        corp: Corp,
        hex: HexName,
        centre: u64,
    },
    /// The corporation runs its trains as the sheet says.
    Run {
        corp: Corp,
        sheet: SheetWords<'a>,
    },
    /// The corporation runs its trains as the sheet says, and shows that no run earns more.
    RunBest {
        corp: Corp,
        sheet: SheetWords<'a>,
        certificate: CertificateWords<'a>,
    },
    /// The corporation pays its revenue out to those who hold its shares.
    PayOut {
        corp: Corp,
    },
    /// The corporation keeps its revenue.
    Hold {
        corp: Corp,
    },
    /// The corporation buys a train from the bank or the pool.
    BuyTrain {
        corp: Corp,
        kind: Kind,
        source: TrainSource,
    },
    /// The corporation buys a train from another for this price in dollars, both presidents agreeing.
    BuyTrainFrom {
        corp: Corp,
        kind: Kind,
        seller: Corp,
        price: u64,
        buyer_president: Name,
        seller_president: Name,
    },
    /// The corporation gives a train in part payment of a diesel.
    Trade {
        corp: Corp,
        kind: Kind,
    },
    /// The corporation, over its train limit, gives up a train.
    Discard {
        corp: Corp,
        kind: Kind,
    },
    /// The corporation buys a private from its holder for this price in dollars.
    TakePrivate {
        corp: Corp,
        private: Private,
        price: u64,
    },
    /// The corporation ends its turn.
    End {
        corp: Corp,
    },
    /// The corporation, which must own a train, buys the cheapest one, and its president pays what it lacks.
    Force {
        corp: Corp,
    },
    /// The president sells this number of 10% shares of a corporation to raise money for the train that its own
    /// corporation must buy.
    Raise {
        player: Name,
        corp: Corp,
        count: u64,
    },
    /// The president can raise no more money for the train, and is bankrupt.
    Bankrupt {
        player: Name,
    },
}

impl<'a> Order<'a> {
    /// Reads the words of an order as a table keeps them, without a stamp and the table's name; `None` where the bytes
    /// are no order's text. Each order has one text: its words with one space between each two, none before and none
    /// behind, and numbers without a leading zero. It takes no memory.
    pub fn read(words: &'a [u8]) -> Option<Order<'a>>
        ensures exact { result ≡ read_order (words_of words.now) }
        ensures found { IfSome result (λ order. SpellsOrder words.now order) }
        ensures only { (order : Order) → SpellsOrder words.now order → result ≡ Some order }
    {
        let mut words = Words::of(words);
        Order::from_words(&mut words)
    }

    /// The order that all words that are left spell; `None` where they spell none.
    pub fn from_words(words: &mut Words<'a>) -> Option<Order<'a>>
        ensures exact { result ≡ read_order words.old }
        ensures found { IfSome result (λ order. IsOrder order × (words.old ≡ spelling order)) }
    {
        let head = words.next()?;
        Order::named(head, words)
    }

    /// The order with this first word, and these behind it; `None` where they spell none.
    pub fn named(head: &[u8], words: &mut Words<'a>) -> Option<Order<'a>>
        ensures exact { result ≡ read_order (head.now ∷ words.old) }
        ensures found { IfSome result (λ order. IsOrder order × (head.now ∷ words.old ≡ spelling order)) }
    {
        if head == b"lay".as_slice() {
            return tiles::read_lay(words);
        }
        if head == b"station".as_slice() {
            return tiles::read_station(words);
        }
        if head == b"run".as_slice() {
            return runs::read_run(words);
        }
        if head == b"pay".as_slice() {
            return turns::read_pay(words);
        }
        if head == b"hold".as_slice() {
            return turns::read_hold(words);
        }
        if head == b"train".as_slice() {
            return trains::read_train(words);
        }
        if head == b"trade".as_slice() {
            return trains::read_trade(words);
        }
        if head == b"drop".as_slice() {
            return trains::read_drop(words);
        }
        if head == b"private".as_slice() {
            return turns::read_purchase(words);
        }
        if head == b"end".as_slice() {
            return turns::read_end(words);
        }
        if head == b"force".as_slice() {
            return forced::read_force(words);
        }
        if head == b"raise".as_slice() {
            return forced::read_raise(words);
        }
        if head == b"bankrupt".as_slice() {
            return forced::read_bankrupt(words);
        }
        None
    }

    /// The corporation that does it; `None` where a player does, to raise money or as a bankrupt.
    pub fn corp(&self) -> Option<Corp>
        ensures { result ≡ corp_in self.now }
    {
        match self {
            Order::Lay { corp, .. }
            | Order::Station { corp, .. }
            | Order::Run { corp, .. }
            | Order::RunBest { corp, .. }
            | Order::PayOut { corp }
            | Order::Hold { corp }
            | Order::BuyTrain { corp, .. }
            | Order::BuyTrainFrom { corp, .. }
            | Order::Trade { corp, .. }
            | Order::Discard { corp, .. }
            | Order::TakePrivate { corp, .. }
            | Order::End { corp }
            | Order::Force { corp } => Some(*corp),
            Order::Raise { .. } | Order::Bankrupt { .. } => None,
        }
    }

    /// Appends the order's words, as `read` reads them.
    ///
    /// # Errors
    /// Where `out` can't grow; its bytes are then as they were.
    pub fn write(&self, out: &mut Vec<u8>) -> Result<(), AllocError>
        ensures ok { OnOk result (out.new.items ≡ out.old.items ++ text self.now) }
        ensures err { OnErr result (out.new.items ≡ out.old.items) }
    {
        let before = out.len();
        if let Err(error) = self.write_words(out) {
            out.truncate(before);
            return Err(error);
        }
        Ok(())
    }

    fn write_words(&self, out: &mut Vec<u8>) -> Result<(), AllocError>
        ensures ok { OnOk result (out.new.items ≡ out.old.items ++ text self.now) }
        ensures kept { Continues out.old.items out.new.items }
    {
        match self {
            Order::Lay {
                corp,
                hex,
                tile,
                turn,
            } => tiles::write_lay(*corp, hex, *tile, *turn, out),
            Order::Station { corp, hex, centre } => tiles::write_station(*corp, hex, *centre, out),
            Order::Run { corp, sheet } => runs::write_run(*corp, sheet, out),
            Order::RunBest {
                corp,
                sheet,
                certificate,
            } => runs::write_best(*corp, sheet, certificate, out),
            Order::PayOut { corp } => turns::write_pay(*corp, out),
            Order::Hold { corp } => turns::write_hold(*corp, out),
            Order::BuyTrain { corp, kind, source } => {
                trains::write_train(*corp, *kind, *source, out)
            }
            Order::BuyTrainFrom {
                corp,
                kind,
                seller,
                price,
                buyer_president,
                seller_president,
            } => trains::write_train_from(
                *corp,
                *kind,
                *seller,
                *price,
                buyer_president,
                seller_president,
                out,
            ),
            Order::Trade { corp, kind } => trains::write_trade(*corp, *kind, out),
            Order::Discard { corp, kind } => trains::write_drop(*corp, *kind, out),
            Order::TakePrivate {
                corp,
                private,
                price,
            } => turns::write_purchase(*corp, *private, *price, out),
            Order::End { corp } => turns::write_end(*corp, out),
            Order::Force { corp } => forced::write_force(*corp, out),
            Order::Raise {
                player,
                corp,
                count,
            } => forced::write_raise(player, *corp, *count, out),
            Order::Bankrupt { player } => forced::write_bankrupt(player, out),
        }
    }
}
