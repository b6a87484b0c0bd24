ghost use Rattle.std.specs.Prelude.{◌≡◌, ◌<◌, ◌≤◌, IfSome};
ghost use Rattle.rr_books.specs.Shares.{share};
ghost use Rattle.rr_books.specs.State.{holder_in};
ghost use Rattle.rr_shares.specs.Holdings.{has_most, heir, percent_in, percents, percents_after_sale, share_after_sale, succeeds};

use rr_books::{Books, Corp, Place, Seat};

/// How much of the corporation each seat holds, in percent, by seat.
#[tactic(auto, unfolding(crate::specs::Holdings::percents))]
pub fn percents(books: &Books, corp: Corp) -> [u16; 6]
    ensures { result ≡ percents (holder_in books.now) corp }
{
    [
        percent(books, corp, Seat(0)),
        percent(books, corp, Seat(1)),
        percent(books, corp, Seat(2)),
        percent(books, corp, Seat(3)),
        percent(books, corp, Seat(4)),
        percent(books, corp, Seat(5)),
    ]
}

// How much of the corporation each seat holds, in percent, once the seller has sold so many shares of it.
#[tactic(auto, unfolding(crate::specs::Holdings::percents_after_sale))]
pub(crate) fn percents_after_sale(books: &Books, corp: Corp, seller: Seat, count: u8) -> [u16; 6]
    ensures { result ≡ percents_after_sale (holder_in books.now) corp seller count }
{
    [
        percent_after_sale(books, corp, seller, count, Seat(0)),
        percent_after_sale(books, corp, seller, count, Seat(1)),
        percent_after_sale(books, corp, seller, count, Seat(2)),
        percent_after_sale(books, corp, seller, count, Seat(3)),
        percent_after_sale(books, corp, seller, count, Seat(4)),
        percent_after_sale(books, corp, seller, count, Seat(5)),
    ]
}

/// Who takes over the presidency by what the seats hold: the nearest on the president's left among those that hold the
/// most, where they hold more than the president; else none.
#[tactic(auto, unfolding(crate::specs::Holdings::heir))]
pub fn heir(percents: &[u16; 6], players: u8, president: Seat) -> Option<Seat>
    requires greatest { players ≤ 6 }
    requires seated { president.0 < players }
    ensures { result ≡ heir percents.now players president }
{
    (1..players)
        .map(move |steps| Seat((president.0 + steps) % players))
        .find(move |seat| succeeds(percents, players, president, *seat))
}

// Whether the seat holds more than the president, and as much as any.
fn succeeds(percents: &[u16; 6], players: u8, president: Seat, seat: Seat) -> bool
    requires { players ≤ 6 }
    ensures { result ≡ succeeds percents.now players president seat }
{
    percent_in(percents, president) < percent_in(percents, seat)
        && has_most(percents, players, seat)
}

// Whether no seat holds more.
fn has_most(percents: &[u16; 6], players: u8, seat: Seat) -> bool
    requires { players ≤ 6 }
    ensures { result ≡ has_most percents.now players seat }
{
    let most = percent_in(percents, seat);
    percents[..players as usize]
        .iter()
        .all(|percent| *percent <= most)
}

// What the seat holds, nothing beyond the six.
fn percent_in(percents: &[u16; 6], seat: Seat) -> u16
    ensures { result ≡ percent_in percents.now seat }
{
    match percents.get(seat.0 as usize) {
        Some(percent) => *percent,
        None => 0,
    }
}

// What the seat holds of the corporation.
fn percent(books: &Books, corp: Corp, seat: Seat) -> u16
    ensures { result ≡ share (holder_in books.now) (Place.Seat seat) corp }
{
    u16::from(books.share(Place::Seat(seat), corp))
}

// What the seat holds of the corporation once the seller has sold so many shares of it.
fn percent_after_sale(books: &Books, corp: Corp, seller: Seat, count: u8, seat: Seat) -> u16
    ensures { result ≡ share_after_sale (holder_in books.now) corp seller count seat }
{
    let share = percent(books, corp, seat);
    if seat == seller {
        return share.saturating_sub(10 * u16::from(count));
    }
    share
}
