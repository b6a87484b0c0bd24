ghost use Rattle.std.specs.Prelude.{◌≡◌, ◌≤◌, ℕ, ◌+◌, List, [], ◌∷◌, ◌++◌, OnOk, OnErr, IfErr};
ghost use Rattle.rr_books.specs.declared.entries.Marker.TheVariants as M;
ghost use Rattle.rr_books.specs.Opening.{opening_entries};
ghost use Rattle.rr_desk.specs.Position.Position.{Fits, Follows, HasRoom, IsPositionOf};

use crate::layout::Layout;
use rr_books::{Books, Entry, Refusal};
use rr_market::Market;
use rr_market::operations::Operations;
use rr_roster::Roster;
use rr_rounds::Rounds;
use rr_rounds::bids::Bidding;
use std::marker::Model;

/// How many entries a position follows at most: far more than a game has, and few enough that no count and no balance
/// overflows.
pub const MOST_ENTRIES: u32 = 400_000_000;

/// All that runs along with a table's book. It takes no memory, and `Copy` copies it.
#[derive(Clone, Copy, Debug)]
pub struct Position {
    pub(crate) books: Books,
    pub(crate) bidding: Bidding,
    pub(crate) market: Market,
    pub(crate) rounds: Rounds,
    pub(crate) operations: Operations,
    pub(crate) layout: Layout,
    // How many entries were followed, of those of the opening the payments alone.
    pub(crate) entries: u32,
}

impl Model for Position {
    ghost use Rattle.std.specs.Prelude.{◌≤◌};
    ghost use Rattle.rr_desk.specs.declared.position.position.TheConstants.{MOST_ENTRIES};
    ghost use Rattle.rr_desk.specs.Position.Position.{OnTable};

    ghost Value = { OnTable };

    ghost view = { λ p. record { books = p.books; bidding = p.bidding; market = p.market; rounds = p.rounds; operations = p.operations; layout = p.layout; entries = p.entries } };

    ghost invariant = { λ p. (p.books.payments ≤ p.entries) × (p.bidding.commands ≤ p.entries) × (p.rounds.turns ≤ p.entries) × (p.rounds.begun ≤ p.entries) × (p.operations.progress.sets ≤ p.entries) × (p.operations.progress.round ≤ p.entries) × (p.entries ≤ MOST_ENTRIES) };

    ghost inverse = { λ p. record { books = p.books; bidding = p.bidding; market = p.market; rounds = p.rounds; operations = p.operations; layout = p.layout; entries = p.entries } };
}

impl Position {
    /// The position of a table that opens with so many players, also once its auction has begun.
    pub fn open(players: u8, roster: &Roster) -> Position
        requires least { 2 ≤ players }
        requires greatest { players ≤ 6 }
        ensures opening { IsPositionOf (opening_entries players roster.now) result }
        ensures auction { (names : List (List ℕ)) → IsPositionOf (opening_entries players roster.now ++ Entry.Step (M.Auction names) ∷ []) result }
        ensures players { result.books.players ≡ players }
        ensures counted { result.entries ≡ players }
    {
        Position {
            books: Books::open(players, roster),
            bidding: Bidding::open(),
            market: Market::new(),
            rounds: Rounds::open(players),
            operations: Operations::open(players),
            layout: Layout::new(),
            entries: u32::from(players),
        }
    }

    /// The money and the places.
    pub fn books(&self) -> &Books
        ensures { result.now ≡ self.now.books }
    {
        &self.books
    }

    /// How far the auction has come.
    pub fn bidding(&self) -> &Bidding
        ensures { result.now ≡ self.now.bidding }
    {
        &self.bidding
    }

    /// The tokens on the chart.
    pub fn market(&self) -> &Market
        ensures { result.now ≡ self.now.market }
    {
        &self.market
    }

    /// How far the stock rounds have come.
    pub fn rounds(&self) -> &Rounds
        ensures value { result.now ≡ self.now.rounds }
        ensures few { result.now.turns ≤ MOST_ENTRIES }
    {
        &self.rounds
    }

    /// How far the operating rounds have come.
    pub fn operations(&self) -> &Operations
        ensures { result.now ≡ self.now.operations }
    {
        &self.operations
    }

    /// The tiles and tokens on the board.
    pub fn layout(&self) -> &Layout
        ensures { result.now ≡ self.now.layout }
    {
        &self.layout
    }

    /// Follows the next entry of the book, whatever it says.
    ///
    /// # Errors
    ///
    /// `OutOfMemory` where `MOST_ENTRIES` were followed, or the layout has no room; the position is as before then.
    #[tactic(auto, using(crate::proofs::PositionLemmas::Steps::follows_by_views))]
    pub fn follow(&mut self, entry: &Entry) -> Result<(), Refusal>
        requires { Fits self.old entry.now }
        ensures fault { IfErr result (λ fault. fault ≡ Refusal.OutOfMemory) }
        ensures book { OnOk result (Follows self.old self.new (entry.now ∷ [])) }
        ensures counted { OnOk result (self.new.entries ≡ self.old.entries + 1) }
        ensures err { OnErr result (self.new ≡ self.old) }
        ensures room { OnErr result (HasRoom self.old entry.now → ⊥) }
    {
        if MOST_ENTRIES <= self.entries {
            return Err(Refusal::OutOfMemory);
        }
        if !self.layout.has_room(entry) {
            return Err(Refusal::OutOfMemory);
        }
        // The auction and the operating rounds judge the entry by the views before it.
        self.bidding.follow(entry, &self.books);
        self.operations
            .follow(entry, &self.books, &self.market, &self.rounds);
        self.books.follow(entry);
        self.market.follow(entry);
        self.rounds.follow(entry);
        self.layout.follow(entry);
        self.entries += 1;
        Ok(())
    }
}
