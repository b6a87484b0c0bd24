ghost use Rattle.std.specs.Prelude.{◌≡◌, ◌-◌, ◌*◌, ◌≤◌, ◌≤ℤ◌, pos};
ghost use Rattle.rr_books.specs.Book.{Book, holder};
ghost use Rattle.rr_books.specs.State.{holder_in};
ghost use Rattle.rr_desk.specs.Incomes.{dollars};
ghost use Rattle.rr_rounds.specs.Bids.Bids.{least_bid};
ghost use Rattle.rr_rounds.specs.Bids.Progress.{progress};
ghost use Rattle.rr_rounds.specs.Bids.Unsold.{cheapest};
ghost use Rattle.rr_desk.specs.Position.Position.{IsPositionOf};
ghost use Rattle.rr_auction.specs.Rules.{asked, asked_in, price};

use rr_books::{Books, Money, Private};
use rr_desk::{Position, dollars};
use rr_roster::Roster;
use rr_rounds::bids::{Bidding, cheapest};

/// The cheapest private that isn't sold, and what it costs now, also while several raise for it.
pub fn asked(position: &Position, roster: &Roster) -> Option<(Private, Money)>
    ensures shown { result ≡ asked_in roster.now (holder_in position.now.books) position.now.bidding }
    ensures book { (book : Book) → IsPositionOf book position.now → result ≡ asked roster.now book }
{
    asked_by(position.books(), position.bidding(), roster)
}

/// The cheapest private that isn't sold.
pub(crate) fn for_sale(position: &Position) -> Option<Private>
    ensures { (book : Book) → IsPositionOf book position.now → result ≡ cheapest (holder book) }
{
    cheapest(position.books())
}

/// What the private costs now, as money.
pub(crate) fn cost(position: &Position, private: Private, roster: &Roster) -> Money
    ensures value { (book : Book) → IsPositionOf book position.now → result ≡ dollars (price roster.now (progress book).falls private) }
    ensures low { pos 0 ≤ℤ result.0 }
    ensures high { result.0 ≤ℤ pos 10000000000 }
{
    cost_by(position.bidding(), private, roster)
}

/// What the private costs, once the first one's price has fallen so often.
pub(crate) fn price(falls: u32, private: Private, roster: &Roster) -> u16
    requires { falls ≤ 400000000 }
    ensures value { result ≡ price roster.now falls private }
    ensures bound { result ≤ 500 }
{
    let face = roster.face(private);
    match private {
        Private::Sv => fallen(face, falls),
        _ => face,
    }
}

/// The least that may be bid on the private.
pub(crate) fn least_bid(bidding: &Bidding, private: Private, roster: &Roster) -> u64
    ensures { result ≡ least_bid roster.now bidding.now.bids private }
{
    let greatest = bidding.highest_bid(private);
    greatest.max(u64::from(roster.face(private))) + 5
}

// What the private costs now, by the bids.
fn cost_by(bidding: &Bidding, private: Private, roster: &Roster) -> Money
    ensures value { result ≡ dollars (price roster.now bidding.now.falls private) }
    ensures low { pos 0 ≤ℤ result.0 }
    ensures high { result.0 ≤ℤ pos 10000000000 }
{
    dollars(u64::from(price(bidding.falls(), private, roster)))
}

// The cheapest private with its price, by the books and the bids.
fn asked_by(books: &Books, bidding: &Bidding, roster: &Roster) -> Option<(Private, Money)>
    ensures { result ≡ asked_in roster.now (holder_in books.now) bidding.now }
{
    match cheapest(books) {
        Some(private) => {
            let price = price(bidding.falls(), private, roster);
            Some((private, Money(i64::from(price))))
        }
        None => None,
    }
}

// The face less 5 for each fall.
fn fallen(face: u16, falls: u32) -> u16
    requires { falls ≤ 400000000 }
    ensures value { result ≡ face - 5 * falls }
    ensures bound { result ≤ face }
{
    u32::from(face).saturating_sub(5 * falls) as u16
}
