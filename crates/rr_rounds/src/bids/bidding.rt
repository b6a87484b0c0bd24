ghost use Rattle.std.specs.Prelude.{◌≡◌, ℕ, ◌+◌, ◌<◌, ◌≤◌, List, [], ◌∷◌, ◌++◌, None, IfSome, is_some, if◌then◌else◌, slice_set};
ghost use Rattle.rr_roster.specs.Company.{private_index};
ghost use Rattle.rr_roster.specs.Terms.{Terms};
ghost use Rattle.rr_books.specs.Book.{Book};
ghost use Rattle.rr_books.specs.Opening.{opening_entries};
ghost use Rattle.rr_books.specs.State.{IsStateOf, holder_in};
ghost use Rattle.rr_rounds.specs.Bids.Bids.{bid_of, bids_on, highest, raiser, sole_bidder, with_bid};
ghost use Rattle.rr_rounds.specs.Bids.Progress.{IsBiddingOf, after_act, after_bid, after_entry, after_last_pass, after_leaving, after_par, after_pass, after_purchase, after_raise, after_sale, after_turn_bid, after_turn_pass, all_pass, amount_bid, amount_of, beginning, progress, raise_due};
ghost use Rattle.rr_rounds.specs.Bids.Unsold.{cheapest, is_private};

use crate::bids::bids::{bid_in, highest, raiser, sole_bidder};
use crate::bids::unsold::{cheapest, is_cheapest};
use rr_books::{Act, Books, Cert, Corp, Entry, Marker, Place, Private, Seat, left_of};
use std::marker::Model;

/// How far the auction of a table has come, which stands for its book. It takes no memory, and `Copy` copies it.
#[derive(Clone, Copy, Debug)]
pub struct Bidding {
    pub(crate) turn: Seat,
    pub(crate) passes: u32,
    pub(crate) falls: u32,
    pub(crate) bids: [[u64; 6]; 6],
    pub(crate) par_due: Option<Seat>,
    pub(crate) priority: Seat,
    pub(crate) commands: u32,
}

impl Model for Bidding {
    ghost use Rattle.std.specs.Prelude.{◌≤◌};
    ghost use Rattle.rr_rounds.specs.Bids.Progress.{Progress, AreSmall};

    ghost Value = { Progress };

    ghost view = { λ b. record { turn = b.turn; passes = b.passes; falls = b.falls; bids = b.bids; par_due = b.par_due; priority = b.priority; commands = b.commands } };

    ghost invariant = { λ b. (b.passes ≤ b.commands) × (b.falls ≤ b.commands) × (b.commands ≤ 400000000) × AreSmall b.bids };

    ghost inverse = { λ p. record { turn = p.turn; passes = p.passes; falls = p.falls; bids = p.bids; par_due = p.par_due; priority = p.priority; commands = p.commands } };
}

impl Bidding {
    /// The auction of a table that opens: the first seat is due.
    pub fn open() -> Bidding
        ensures value { result ≡ beginning }
        ensures book { (roster : Terms) (players : ℕ) → IsBiddingOf (opening_entries players roster) result }
        ensures auction { (roster : Terms) (players : ℕ) (names : List (List ℕ)) → IsBiddingOf (opening_entries players roster ++ Entry.Step (Marker.Auction names) ∷ []) result }
    {
        Bidding {
            turn: Seat(0),
            passes: 0,
            falls: 0,
            bids: [[0; 6]; 6],
            par_due: None,
            priority: Seat(0),
            commands: 0,
        }
    }

    /// Follows the next entry of the book, by the books before it.
    pub fn follow(&mut self, entry: &Entry, books: &Books)
        requires commands { self.old.commands < 400000000 }
        requires small { amount_bid entry.now ≤ 10000000000 }
        ensures book { (book : Book) → IsStateOf book books.now → IsBiddingOf book self.old → IsBiddingOf (book ++ entry.now ∷ []) self.new }
        ensures commands { self.new.commands ≤ self.old.commands + 1 }
    {
        *self = self.after(entry, books);
    }

    /// The seat of the next turn, where nobody is to raise.
    pub fn turn(&self) -> Seat
        ensures shown { result ≡ self.now.turn }
        ensures book { (book : Book) → IsBiddingOf book self.now → result ≡ (progress book).turn }
    {
        self.turn
    }

    /// How often the first private's price has fallen.
    pub fn falls(&self) -> u32
        ensures shown { result ≡ self.now.falls }
        ensures book { (book : Book) → IsBiddingOf book self.now → result ≡ (progress book).falls }
        ensures bound { result ≤ 400000000 }
    {
        self.falls
    }

    /// The seat that owes the B&O a par.
    pub fn par_due(&self) -> Option<Seat>
        ensures shown { result ≡ self.now.par_due }
        ensures book { (book : Book) → IsBiddingOf book self.now → result ≡ (progress book).par_due }
    {
        self.par_due
    }

    /// The seat on the left of the last that got a private, and the first seat while none did.
    pub fn priority(&self) -> Seat
        ensures shown { result ≡ self.now.priority }
        ensures book { (book : Book) → IsBiddingOf book self.now → result ≡ (progress book).priority }
    {
        self.priority
    }

    /// How many purchases, bids and passes there were.
    pub fn commands(&self) -> u32
        ensures shown { result ≡ self.now.commands }
        ensures book { (book : Book) → IsBiddingOf book self.now → result ≡ (progress book).commands }
    {
        self.commands
    }

    /// What the seat bids on the private, 0 without a bid.
    pub fn bid(&self, private: Private, seat: Seat) -> u64
        ensures shown { result ≡ bid_of self.now.bids private seat }
        ensures book { (book : Book) → IsBiddingOf book self.now → result ≡ bid_of (progress book).bids private seat }
        ensures bound { result ≤ 10000000000 }
    {
        let _bids = &self.bids;
        bid_in(&self.bids_on(private), seat)
    }

    /// The highest bid on the private, 0 without any.
    pub fn highest_bid(&self, private: Private) -> u64
        ensures shown { result ≡ highest (bids_on self.now.bids private) }
        ensures book { (book : Book) → IsBiddingOf book self.now → result ≡ highest (bids_on (progress book).bids private) }
        ensures bound { result ≤ 10000000000 }
    {
        let _bids = &self.bids;
        highest(&self.bids_on(private))
    }

    /// The seat that bids on the private, where there is just one.
    pub fn sole_bidder(&self, private: Private) -> Option<Seat>
        ensures shown { result ≡ sole_bidder (bids_on self.now.bids private) }
        ensures book { (book : Book) → IsBiddingOf book self.now → result ≡ sole_bidder (bids_on (progress book).bids private) }
        ensures seated { IfSome result (λ seat. seat.0 < 6) }
    {
        sole_bidder(&self.bids_on(private))
    }

    /// The seat that is to raise for the private or leave, where several bid on it.
    pub fn raiser(&self, private: Private) -> Option<Seat>
        ensures shown { result ≡ raiser (bids_on self.now.bids private) }
        ensures book { (book : Book) → IsBiddingOf book self.now → result ≡ raiser (bids_on (progress book).bids private) }
    {
        raiser(&self.bids_on(private))
    }

    /// The seat that is to raise for the cheapest private or leave, where several bid on it.
    pub fn raise_due(&self, books: &Books) -> Option<Seat>
        ensures { result ≡ raise_due (holder_in books.now) self.now }
    {
        match cheapest(books) {
            Some(private) => self.raiser(private),
            None => None,
        }
    }

    /// Whether all seats of a table of so many pass in a row with one pass more.
    pub fn all_pass(&self, players: u8) -> bool
        ensures { result ≡ all_pass players self.now }
    {
        self.passes + 1 == u32::from(players)
    }

    // The bids of the seats on the private, 0 without one.
    fn bids_on(&self, private: Private) -> [u64; 6]
        ensures { result ≡ bids_on self.now.bids private }
    {
        self.bids[row_of(private)]
    }

    // After one entry more.
    fn after(&self, entry: &Entry, books: &Books) -> Bidding
        requires commands { self.now.commands < 400000000 }
        requires small { amount_bid entry.now ≤ 10000000000 }
        ensures { result ≡ after_entry books.now.players (holder_in books.now) self.now entry.now }
    {
        match entry {
            Entry::Move {
                cert: Cert::Private(private),
                to: Place::Seat(seat),
            } => self.after_sale(*private, *seat, books.players()),
            Entry::Step(Marker::Act(act)) => self.after_act(act, books),
            _ => *self,
        }
    }

    // Once the seat has got the private.
    fn after_sale(&self, private: Private, seat: Seat, players: u8) -> Bidding
        requires { players ≤ 6 }
        ensures { result ≡ after_sale players private seat self.now }
    {
        let mut next = *self;
        next.priority = left_of(seat, u16::from(players));
        if let Private::Bo = private {
            next.par_due = Some(seat);
        }
        next
    }

    // After a command.
    fn after_act(&self, act: &Act, books: &Books) -> Bidding
        requires commands { self.now.commands < 400000000 }
        requires small { amount_of act.now ≤ 10000000000 }
        ensures { result ≡ after_act books.now.players (holder_in books.now) self.now act.now }
    {
        match act {
            Act::BuyPrivate { seat } => self.after_purchase(*seat, books.players()),
            Act::Bid {
                seat,
                private,
                amount,
            } => self.after_bid(*seat, *private, *amount, books),
            Act::Pass { seat } => self.after_pass(*seat, books),
            Act::Par { corp, .. } => self.after_par(*corp),
            _ => *self,
        }
    }

    // Once the seat has bought the cheapest private.
    fn after_purchase(&self, seat: Seat, players: u8) -> Bidding
        requires table { players ≤ 6 }
        requires commands { self.now.commands < 400000000 }
        ensures { result ≡ after_purchase players seat self.now }
    {
        let mut next = *self;
        next.turn = left_of(seat, u16::from(players));
        next.passes = 0;
        next.commands += 1;
        next
    }

    // Once the seat has bid on a private.
    fn after_bid(&self, seat: Seat, private: Private, amount: u64, books: &Books) -> Bidding
        requires commands { self.now.commands < 400000000 }
        requires small { amount ≤ 10000000000 }
        ensures { result ≡ after_bid books.now.players (is_some (raise_due (holder_in books.now) self.now)) seat private amount self.now }
    {
        let players = books.players();
        match self.raise_due(books) {
            Some(_) => self.after_raise(seat, private, amount),
            None => self.after_turn_bid(seat, private, amount, players),
        }
    }

    // Once the seat has raised its bid.
    fn after_raise(&self, seat: Seat, private: Private, amount: u64) -> Bidding
        requires commands { self.now.commands < 400000000 }
        requires small { amount ≤ 10000000000 }
        ensures { result ≡ after_raise seat private amount self.now }
    {
        let mut next = self.with_bid(seat, private, amount);
        next.commands += 1;
        next
    }

    // Once the seat has bid in its turn.
    fn after_turn_bid(&self, seat: Seat, private: Private, amount: u64, players: u8) -> Bidding
        requires table { players ≤ 6 }
        requires commands { self.now.commands < 400000000 }
        requires small { amount ≤ 10000000000 }
        ensures { result ≡ after_turn_bid players seat private amount self.now }
    {
        let mut next = self.with_bid(seat, private, amount);
        next.turn = left_of(seat, u16::from(players));
        next.passes = 0;
        next.commands += 1;
        next
    }

    // Once the seat has passed.
    fn after_pass(&self, seat: Seat, books: &Books) -> Bidding
        requires { self.now.commands < 400000000 }
        ensures { result ≡ after_pass books.now.players (is_some (raise_due (holder_in books.now) self.now)) (cheapest (holder_in books.now)) seat self.now }
    {
        let players = books.players();
        if let Some(_) = self.raise_due(books) {
            return self.after_leaving(seat, books);
        }
        if self.all_pass(players) {
            return self.after_last_pass(seat, books);
        }
        self.after_turn_pass(seat, players)
    }

    // Once the seat has left the raising for the cheapest private.
    fn after_leaving(&self, seat: Seat, books: &Books) -> Bidding
        requires { self.now.commands < 400000000 }
        ensures { result ≡ after_leaving seat (cheapest (holder_in books.now)) self.now }
    {
        match cheapest(books) {
            Some(private) => self.after_raise(seat, private, 0),
            None => self.after_command(),
        }
    }

    // Once a command was given.
    fn after_command(&self) -> Bidding
        requires { self.now.commands < 400000000 }
        ensures { result ≡ record self.now { commands = self.now.commands + 1 } }
    {
        let mut next = *self;
        next.commands += 1;
        next
    }

    // Once all seats have passed in a row.
    fn after_last_pass(&self, seat: Seat, books: &Books) -> Bidding
        requires { self.now.commands < 400000000 }
        ensures { result ≡ after_last_pass books.now.players seat (cheapest (holder_in books.now)) self.now }
    {
        let mut next = *self;
        next.commands += 1;
        next.turn = left_of(seat, u16::from(books.players()));
        next.passes = 0;
        next.falls = self.falls_after(books);
        next
    }

    // How often the first private's price has fallen once all seats have passed in a row.
    fn falls_after(&self, books: &Books) -> u32
        ensures value { result ≡ (if is_private Private.Sv (cheapest (holder_in books.now)) then self.now.falls + 1 else self.now.falls) }
        ensures bound { result ≤ self.now.falls + 1 }
    {
        if is_cheapest(Private::Sv, books) {
            self.falls + 1
        } else {
            self.falls
        }
    }

    // Once the seat has passed in its turn.
    fn after_turn_pass(&self, seat: Seat, players: u8) -> Bidding
        requires table { players ≤ 6 }
        requires commands { self.now.commands < 400000000 }
        ensures { result ≡ after_turn_pass players seat self.now }
    {
        let mut next = *self;
        next.commands += 1;
        next.turn = left_of(seat, u16::from(players));
        next.passes += 1;
        next
    }

    // Once the corporation has its par.
    fn after_par(&self, corp: Corp) -> Bidding
        ensures { result ≡ after_par corp self.now }
    {
        let mut next = *self;
        if let Corp::Bo = corp {
            next.par_due = None;
        }
        next
    }

    // With this bid of the seat on the private.
    fn with_bid(&self, seat: Seat, private: Private, amount: u64) -> Bidding
        requires { amount ≤ 10000000000 }
        ensures { result ≡ record self.now { bids = with_bid self.now.bids private seat amount } }
    {
        let mut next = *self;
        next.bids[row_of(private)] = with_amount(&self.bids_on(private), seat, amount);
        next
    }
}

// Where the bids on the private stand.
fn row_of(private: Private) -> usize
    ensures value { result ≡ private_index private }
    ensures bound { result < 6 }
{
    private.index()
}

// The row with this amount of the seat, if a table may have the seat.
fn with_amount(row: &[u64; 6], seat: Seat, amount: u64) -> [u64; 6]
    ensures { result ≡ slice_set row.now seat.0 amount }
{
    let at = usize::from(seat.0);
    let mut next = *row;
    if 6 <= at {
        return next;
    }
    next[at] = amount;
    next
}
