//! What the rules read of the books.
ghost use Rattle.std.specs.Prelude.{◌≡◌, ◌&&◌, ◌<◌, IfSome, Some, is_some};
ghost use Rattle.rr_books.specs.Book.{Book};
ghost use Rattle.rr_books.specs.State.{IsStateOf, holder_in, train_place_of};
ghost use Rattle.rr_trains.specs.Depot.Rules.{has_room, has_seller, is_out_of_bounds, is_president, is_short, is_transferable, may_trade, owner, player_at};
ghost use Rattle.rr_trains.specs.Depot.Situation.{situation_in, situation_of};

use crate::{has_train_at, is_on_sale, is_traded_in, phase, train_limit, trains_held};
use rr_books::{Books, Cert, Corp, Kind, Party, Place, Private, Seat, TrainSource};

/// Whether the corporation has fewer trains than the phase allows.
pub(crate) fn has_room(books: &Books, corp: Corp) -> bool
    ensures { result ≡ has_room (train_place_of books.now) corp }
{
    trains_held(books, Place::Corp(corp)) < train_limit(phase(books))
}

/// Whether the corporation has less than the amount.
pub(crate) fn is_short(books: &Books, corp: Corp, amount: u64) -> bool
    ensures { result ≡ is_short (situation_in books.now) corp amount }
{
    let cash = books.balance(Party::Corp(corp)).0;
    let Ok(amount) = i64::try_from(amount) else {
        return true;
    };
    cash < amount
}

/// Whether another corporation has a train of the kind.
pub(crate) fn has_seller(books: &Books, corp: Corp, kind: Kind, seller: Corp) -> bool
    ensures { result ≡ has_seller (train_place_of books.now) corp kind seller }
{
    seller != corp && has_train_at(books, Place::Corp(seller), kind)
}

/// Whether the seat is the corporation's president.
pub(crate) fn is_president(books: &Books, corp: Corp, seat: Seat) -> bool
    ensures { result ≡ is_president (holder_in books.now) corp seat }
{
    books.holder(Cert::President(corp)) == Place::Seat(seat)
}

/// Whether the corporation has a train that it may hand in for a D, and the bank sells one.
pub(crate) fn may_trade(books: &Books, corp: Corp, kind: Kind) -> bool
    ensures { result ≡ may_trade (train_place_of books.now) corp kind }
{
    is_traded_in(kind)
        && has_train_at(books, Place::Corp(corp), kind)
        && is_on_sale(books, Kind::Diesel, TrainSource::Bank)
}

/// Whether a player may sell the private to a corporation.
pub(crate) fn is_for_sale(books: &Books, private: Private) -> bool
    ensures { result ≡ is_transferable private && is_some (owner (situation_in books.now) private) }
{
    is_transferable(private) && owner(books, private).is_some()
}

fn is_transferable(private: Private) -> bool
    ensures { result ≡ is_transferable private }
{
    !matches!(private, Private::Bo)
}

/// The player that has the private.
pub(crate) fn owner(books: &Books, private: Private) -> Option<Seat>
    ensures shown { result ≡ owner (situation_in books.now) private }
    ensures book { (book : Book) → IsStateOf book books.now → result ≡ owner (situation_of book) private }
    ensures few { IfSome result (λ seat. seat.0 < 6) }
{
    player_at(books, books.holder(Cert::Private(private)))
}

// The player at the place, if it is one of the table.
fn player_at(books: &Books, place: Place) -> Option<Seat>
    ensures value { result ≡ player_at books.now.players (Some place) }
    ensures few { IfSome result (λ seat. seat.0 < 6) }
{
    match place {
        Place::Seat(seat) => {
            if seat.0 < books.players() {
                Some(seat)
            } else {
                None
            }
        }
        _ => None,
    }
}

/// Whether the price is above twice the face, or below half of it.
pub(crate) fn is_out_of_bounds(face: u16, price: u64) -> bool
    ensures { result ≡ is_out_of_bounds face price }
{
    let face = u64::from(face);
    2 * face < price || 2 * price < face
}
