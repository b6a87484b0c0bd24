ghost use Rattle.std.specs.Prelude.{◌≡◌, ◌+◌, ◌≤◌, slice_index, if◌then◌else◌};
ghost use Rattle.rr_roster.specs.Company.{corp_index};
ghost use Rattle.rr_books.specs.Book.{Book, train_holder};
ghost use Rattle.rr_books.specs.Shares.{is_at};
ghost use Rattle.rr_books.specs.State.{train_place_of};
ghost use Rattle.rr_desk.specs.Position.Position.{IsPositionOf};
ghost use Rattle.rr_trains.specs.Depot.Over.{is_any_over_limit};
ghost use Rattle.rr_trains.specs.Places.{trains_at, trains_held};

use crate::{phase, train_limit};
use rr_books::{Books, Corp, Kind, Place, Train};
use rr_desk::Position;

/// Whether some corporation of the table has more trains than the phase allows. It has to give some up before anything
/// else goes on.
pub fn is_over_limit_somewhere(position: &Position) -> bool
    ensures { (book : Book) → IsPositionOf book position.now → result ≡ is_any_over_limit (train_holder book) }
{
    is_any_over_limit(position.books())
}

#[tactic(auto, unfolding(crate::specs::Depot::Over::is_any_over_limit))]
fn is_any_over_limit(books: &Books) -> bool
    ensures { result ≡ is_any_over_limit (train_place_of books.now) }
{
    let limit = train_limit(phase(books));
    let held = held_by_corps(books);
    held.iter().any(|trains| limit < *trains)
}

// How many trains each corporation has, by its number. Each train is looked at once.
fn held_by_corps(books: &Books) -> [u8; 8]
    ensures { (corp : Corp) → slice_index result (corp_index corp) ≡ trains_held (train_place_of books.now) (Place.Corp corp) }
{
    let mut held = [0; 8];
    for kind in Kind::ALL {
        count_kind(books, kind, &mut held);
    }
    held
}

// Counts the trains of the kind.
fn count_kind(books: &Books, kind: Kind, held: &mut [u8; 8])
    requires { (corp : Corp) → slice_index held.old (corp_index corp) ≤ 100 }
    ensures { (corp : Corp) → slice_index held.new (corp_index corp) ≡ slice_index held.old (corp_index corp) + trains_at (train_place_of books.now) (Place.Corp corp) kind }
{
    for number in 0..books.train_count(kind) {
        let train = Train {
            kind,
            number: number + 1,
        };
        count_train(books.train_holder(train), held);
    }
}

// Counts a train of this holder.
fn count_train(holder: Option<Place>, held: &mut [u8; 8])
    requires { (corp : Corp) → slice_index held.old (corp_index corp) ≤ 254 }
    ensures { (corp : Corp) → slice_index held.new (corp_index corp) ≡ slice_index held.old (corp_index corp) + (if is_at holder (Place.Corp corp) then 1 else 0) }
{
    if let Some(Place::Corp(corp)) = holder {
        held[corp.index()] += 1;
    }
}
