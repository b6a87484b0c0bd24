//! The books as plain values, from which they can be made again.
ghost use Rattle.std.specs.Prelude.{◌≡◌, ◌↔◌, ℤ, pos, neg_ℤ, ◌≤ℤ◌, ◌≤◌, All, IsTrue, MatchOption};
ghost use Rattle.rr_books.specs.State.{limit_after};
ghost use Rattle.rr_books.specs.Parts.{AreBooks, AreInBounds, IsWithin, books_of, parts_of, books_form};

use crate::ledger::Books;
use crate::parties::Place;
use rr_words::spelling::{Cursor, Spell};
use std::alloc::AllocError;

/// The most payments of a table, whatever its book is.
const MOST_PAYMENTS: u32 = 400_000_000;

/// The most that one payment moves, in dollars.
const MOST_PAID: i64 = 10_000_000_000;

/// The most trains of one kind.
const MOST_TRAINS: u8 = 20;

/// The plain values of a table's books.
#[derive(Clone, Copy, Debug)]
pub struct BooksParts {
    /// The balances, in dollars: of the bank, of the corporations by their numbers, and of the seats.
    pub cash: [i64; 15],
    /// How many payments there were.
    pub payments: u32,
    /// How many seats the table has.
    pub players: u8,
    /// Where each certificate is.
    pub places: [Place; 78],
    /// Where each train is.
    pub trains: [Place; 120],
    /// How many trains of each kind there are.
    pub counts: [u8; 6],
}

/// The same values, one behind the other.
type Row = (
    [i64; 15],
    (u32, (u8, ([Place; 78], ([Place; 120], [u8; 6])))),
);

impl Spell for BooksParts {
    ghost form = { books_form };

    fn write(&self, out: &mut Vec<u8>) -> Result<(), AllocError> {
        let row: Row = (
            self.cash,
            (
                self.payments,
                (self.players, (self.places, (self.trains, self.counts))),
            ),
        );
        row.write(out)
    }

    fn read(cursor: &mut Cursor) -> Option<BooksParts> {
        let (cash, (payments, (players, (places, (trains, counts))))) = Row::read(cursor)?;
        Some(BooksParts {
            cash,
            payments,
            players,
            places,
            trains,
            counts,
        })
    }
}

impl Books {
    /// The plain values of the books.
    pub fn parts(&self) -> BooksParts
        ensures value { result ≡ parts_of self.now }
        ensures sound { AreBooks result }
    {
        BooksParts {
            cash: self.cash,
            payments: self.payments,
            players: self.players,
            places: self.places,
            trains: self.trains,
            counts: self.counts,
        }
    }

    /// The books of these values, if books may have them: 2 to 6 players, at most 400,000,000 payments, no balance past
    /// what so many payments come to, nor as far below 0, and at most 20 trains of a kind.
    #[tactic(auto, using(crate::proofs::PartLemmas::books_within, crate::proofs::PartLemmas::bounds_of_books))]
    pub fn from_parts(parts: BooksParts) -> Option<Books>
        ensures { MatchOption result (AreBooks parts → ⊥) (λ books. AreBooks parts × (books ≡ books_of parts)) }
    {
        if !are_in_bounds(&parts) {
            return None;
        }
        Some(Books {
            cash: parts.cash,
            payments: parts.payments,
            players: parts.players,
            places: parts.places,
            trains: parts.trains,
            counts: parts.counts,
        })
    }
}

// Whether each number is within its bounds.
fn are_in_bounds(parts: &BooksParts) -> bool
    ensures { IsTrue result ↔ AreInBounds parts.now }
{
    2 <= parts.players
        && parts.players <= 6
        && parts.payments <= MOST_PAYMENTS
        && are_within(&parts.cash, limit_after(parts.payments))
        && are_few(&parts.counts)
}

// The greatest balance after so many payments.
fn limit_after(payments: u32) -> i64
    requires { payments ≤ 400000000 }
    ensures { result ≡ pos (limit_after payments) }
{
    MOST_PAID * i64::from(payments)
}

// Whether each amount is within the limit, and within as much below 0.
fn are_within(amounts: &[i64; 15], limit: i64) -> bool
    requires least { pos 0 ≤ℤ limit }
    ensures { IsTrue result ↔ All (IsWithin limit) amounts.now }
{
    amounts.iter().all(|amount| is_within(*amount, limit))
}

fn is_within(amount: i64, limit: i64) -> bool
    requires { pos 0 ≤ℤ limit }
    ensures { IsTrue result ↔ IsWithin limit amount }
{
    -limit <= amount && amount <= limit
}

// Whether each kind has few enough trains.
fn are_few(counts: &[u8; 6]) -> bool
    ensures { IsTrue result ↔ All (λ count. count ≤ 20) counts.now }
{
    counts.iter().all(|count| *count <= MOST_TRAINS)
}
