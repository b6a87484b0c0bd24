ghost use Rattle.std.specs.Prelude.{◌≡◌};
ghost use Rattle.rr_books.specs.Book.{Book, train_holder};
ghost use Rattle.rr_books.specs.State.{IsStateOf, train_place_of};
ghost use Rattle.rr_trains.specs.Sales.{are_smaller_sold, is_early_diesel, is_no_smaller_offer, is_on_sale, is_released};

use crate::places::has_train_at;
use rr_books::{Books, Kind, Place, TrainSource};
use rr_market::operations::is_sold;

/// Whether a train of the kind is on sale there: in the pool any that is there, in the bank one of the offer once all
/// smaller kinds are sold, a D also once a 6 was sold.
pub fn is_on_sale(books: &Books, kind: Kind, source: TrainSource) -> bool
    ensures shown { result ≡ is_on_sale (train_place_of books.now) kind source }
    ensures book { (book : Book) → IsStateOf book books.now → result ≡ is_on_sale (train_holder book) kind source }
{
    match source {
        TrainSource::Bank => has_train_at(books, Place::Offer, kind) && is_released(books, kind),
        TrainSource::Pool => has_train_at(books, Place::Pool, kind),
    }
}

// Whether the bank may sell trains of the kind.
fn is_released(books: &Books, kind: Kind) -> bool
    ensures shown { result ≡ is_released (train_place_of books.now) kind }
    ensures book { (book : Book) → IsStateOf book books.now → result ≡ is_released (train_holder book) kind }
{
    released_shown(books, kind)
}

fn released_shown(books: &Books, kind: Kind) -> bool
    ensures { result ≡ is_released (train_place_of books.now) kind }
{
    are_smaller_sold(books, kind) || is_early_diesel(books, kind)
}

fn is_early_diesel(books: &Books, kind: Kind) -> bool
    ensures { result ≡ is_early_diesel (train_place_of books.now) kind }
{
    match kind {
        Kind::Diesel => is_sold(books, Kind::Six),
        _ => false,
    }
}

// Whether none of the smaller kinds is in the offer.
#[tactic(auto, unfolding(crate::specs::Sales::are_smaller_sold))]
fn are_smaller_sold(books: &Books, kind: Kind) -> bool
    ensures { result ≡ are_smaller_sold (train_place_of books.now) kind }
{
    Kind::ALL
        .iter()
        .all(|other| is_no_smaller_offer(books, kind, *other))
}

fn is_no_smaller_offer(books: &Books, kind: Kind, other: Kind) -> bool
    ensures { result ≡ is_no_smaller_offer (train_place_of books.now) kind other }
{
    kind.index() <= other.index() || !has_train_at(books, Place::Offer, other)
}
