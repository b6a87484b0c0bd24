ghost use Rattle.std.specs.Prelude.{◌≡◌, ◌≤◌, sum_by};
ghost use Rattle.rr_roster.specs.Company.{corps};
ghost use Rattle.rr_books.specs.Book.{Book};
ghost use Rattle.rr_books.specs.State.{holder_in};
ghost use Rattle.rr_desk.specs.Position.Position.{IsPositionOf};
ghost use Rattle.rr_shares.specs.Limits.Holdings.{holdings_of, holdings_in};
ghost use Rattle.rr_shares.specs.Limits.Limits.{is_coloured, is_unlimited, privates_held, counted_of, certificates_counted, is_over_certificates, would_be_over_certificates, is_over_sixty, would_be_over_sixty, is_over_sixty_of_any, is_over_limit};

use rr_books::{Books, Cert, Corp, Place, Private, Seat, certificate_limit};
use rr_desk::Position;
use rr_roster::chart::{Chart, Zone};

/// How many of the seat's certificates count against the certificate limit: its open privates, and its certificates of
/// each corporation whose token isn't in a coloured zone.
pub fn certificates_counted(position: &Position, chart: &Chart, seat: Seat) -> u8
    ensures shown { result ≡ certificates_counted (holdings_in chart.now position.now) seat }
    ensures book { (book : Book) → IsPositionOf book position.now → result ≡ certificates_counted (holdings_of chart.now book) seat }
    ensures bound { result ≤ 78 }
{
    privates_held(position.books(), seat) + shares_counted(position, chart, seat)
}

/// Whether the seat is over the certificate limit of its table.
pub fn is_over_certificates(position: &Position, chart: &Chart, seat: Seat) -> bool
    ensures shown { result ≡ is_over_certificates (holdings_in chart.now position.now) seat }
    ensures book { (book : Book) → IsPositionOf book position.now → result ≡ is_over_certificates (holdings_of chart.now book) seat }
{
    certificates_counted(position, chart, seat) > certificate_limit(position.books().players())
}

/// Whether the seat would be over the certificate limit with one certificate of the corporation more, before any
/// exchange of the presidency. A certificate of a corporation in a coloured zone adds none.
pub fn would_be_over_certificates(
    position: &Position,
    chart: &Chart,
    seat: Seat,
    corp: Corp,
) -> bool
    ensures shown { result ≡ would_be_over_certificates (holdings_in chart.now position.now) seat corp }
    ensures book { (book : Book) → IsPositionOf book position.now → result ≡ would_be_over_certificates (holdings_of chart.now book) seat corp }
{
    let added = if is_coloured(position.market().zone(chart, corp)) {
        0
    } else {
        1
    };
    let limit = certificate_limit(position.books().players());
    certificates_counted(position, chart, seat) + added > limit
}

/// Whether the seat holds more than 60% of the corporation, which it may in orange and brown alone.
pub fn is_over_sixty(position: &Position, chart: &Chart, seat: Seat, corp: Corp) -> bool
    ensures shown { result ≡ is_over_sixty (holdings_in chart.now position.now) seat corp }
    ensures book { (book : Book) → IsPositionOf book position.now → result ≡ is_over_sixty (holdings_of chart.now book) seat corp }
{
    let percent = position.books().share(Place::Seat(seat), corp);
    !is_unlimited(position.market().zone(chart, corp)) && percent > 60
}

/// Whether the seat would hold more than 60% of the corporation with `added` percent of it more, outside orange and
/// brown.
pub fn would_be_over_sixty(
    position: &Position,
    chart: &Chart,
    seat: Seat,
    corp: Corp,
    added: u8,
) -> bool
    ensures shown { result ≡ would_be_over_sixty (holdings_in chart.now position.now) seat corp added }
    ensures book { (book : Book) → IsPositionOf book position.now → result ≡ would_be_over_sixty (holdings_of chart.now book) seat corp added }
{
    let percent = u16::from(position.books().share(Place::Seat(seat), corp));
    !is_unlimited(position.market().zone(chart, corp)) && percent + u16::from(added) > 60
}

/// Whether the seat holds too much: more certificates than the limit, or more than 60% of some corporation outside
/// orange and brown.
pub fn is_over_limit(position: &Position, chart: &Chart, seat: Seat) -> bool
    ensures shown { result ≡ is_over_limit (holdings_in chart.now position.now) seat }
    ensures book { (book : Book) → IsPositionOf book position.now → result ≡ is_over_limit (holdings_of chart.now book) seat }
{
    if is_over_certificates(position, chart, seat) {
        return true;
    }
    is_over_sixty_of_any(position, chart, seat)
}

// Whether the seat holds more than 60% of some corporation outside orange and brown.
#[tactic(auto, unfolding(crate::specs::Limits::Limits::is_over_sixty_of_any))]
fn is_over_sixty_of_any(position: &Position, chart: &Chart, seat: Seat) -> bool
    ensures { result ≡ is_over_sixty_of_any (holdings_in chart.now position.now) seat }
{
    Corp::ALL
        .iter()
        .any(|corp| is_over_sixty(position, chart, seat, *corp))
}

// How many open privates the seat holds.
fn privates_held(books: &Books, seat: Seat) -> u8
    ensures value { result ≡ privates_held (holder_in books.now) seat }
    ensures bound { result ≤ 6 }
{
    Private::ALL
        .iter()
        .filter(|private| books.holder(Cert::Private(**private)) == Place::Seat(seat))
        .count() as u8
}

// How many certificates of corporations count for the seat.
fn shares_counted(position: &Position, chart: &Chart, seat: Seat) -> u8
    ensures value { result ≡ sum_by (counted_of (holdings_in chart.now position.now) seat) corps }
    ensures bound { result ≤ 72 }
{
    let mut total = 0;
    for corp in Corp::ALL {
        total += counted_of(position, chart, seat, corp);
    }
    total
}

// How many certificates of the corporation count for the seat.
fn counted_of(position: &Position, chart: &Chart, seat: Seat, corp: Corp) -> u8
    ensures value { result ≡ counted_of (holdings_in chart.now position.now) seat corp }
    ensures bound { result ≤ 9 }
{
    if is_coloured(position.market().zone(chart, corp)) {
        return 0;
    }
    position.books().counted(seat, corp)
}

// Whether shares in the zone don't count against the certificate limit.
fn is_coloured(zone: Option<Zone>) -> bool
    ensures { result ≡ is_coloured zone }
{
    matches!(zone, Some(Zone::Yellow | Zone::Orange | Zone::Brown))
}

// Whether a seat may hold any percentage in the zone.
fn is_unlimited(zone: Option<Zone>) -> bool
    ensures { result ≡ is_unlimited zone }
{
    matches!(zone, Some(Zone::Orange | Zone::Brown))
}
