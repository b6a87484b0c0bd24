ghost use Rattle.std.specs.Prelude.{◌≡◌, ◌≤◌, IfSome, true, sum_by};
ghost use Rattle.std.specs.Bool.{OnTrue};
ghost use Rattle.rr_roster.specs.Company.{kinds};
ghost use Rattle.rr_books.specs.Book.{Book, train_holder};
ghost use Rattle.rr_books.specs.State.{IsStateOf, has_train, train_place_of};
ghost use Rattle.rr_trains.specs.Places.{has_train_at, is_train_at, lowest_train, trains_at, trains_held};

use rr_books::{Books, Kind, Place, Train};

// The numbers that trains of a kind may have.
pub(crate) const NUMBERS: [u8; 20] = [
    1, 2, 3, 4, 5, 6, 7, 8, 9, 10, 11, 12, 13, 14, 15, 16, 17, 18, 19, 20,
];

/// Whether a train of the kind is at the place.
pub fn has_train_at(books: &Books, place: Place, kind: Kind) -> bool
    ensures shown { result ≡ has_train_at (train_place_of books.now) place kind }
    ensures book { (book : Book) → IsStateOf book books.now → result ≡ has_train_at (train_holder book) place kind }
{
    has_train_shown(books, place, kind)
}

#[tactic(auto, unfolding(crate::specs::Places::has_train_at))]
fn has_train_shown(books: &Books, place: Place, kind: Kind) -> bool
    ensures { result ≡ has_train_at (train_place_of books.now) place kind }
{
    NUMBERS.iter().any(|number| is_train_at(
        books,
        place,
        Train {
            kind,
            number: *number,
        },
    ))
}

/// How many trains of the kind are at the place.
pub fn trains_at(books: &Books, place: Place, kind: Kind) -> u8
    ensures shown { result ≡ trains_at (train_place_of books.now) place kind }
    ensures book { (book : Book) → IsStateOf book books.now → result ≡ trains_at (train_holder book) place kind }
    ensures bound { result ≤ 20 }
{
    count_at(books, place, kind)
}

#[tactic(auto, unfolding(crate::specs::Places::trains_at))]
fn count_at(books: &Books, place: Place, kind: Kind) -> u8
    ensures value { result ≡ trains_at (train_place_of books.now) place kind }
    ensures bound { result ≤ 20 }
{
    NUMBERS
        .iter()
        .filter(|number| is_train_at(
            books,
            place,
            Train {
                kind,
                number: **number,
            },
        ))
        .count() as u8
}

/// How many trains of all kinds are at the place.
pub fn trains_held(books: &Books, place: Place) -> u8
    ensures shown { result ≡ trains_held (train_place_of books.now) place }
    ensures book { (book : Book) → IsStateOf book books.now → result ≡ trains_held (train_holder book) place }
    ensures bound { result ≤ 120 }
{
    held(books, place)
}

#[tactic(auto, unfolding(crate::specs::Places::trains_held))]
fn held(books: &Books, place: Place) -> u8
    ensures value { result ≡ trains_held (train_place_of books.now) place }
    ensures bound { result ≤ 120 }
{
    counted(books, place)
}

fn counted(books: &Books, place: Place) -> u8
    ensures value { result ≡ sum_by (trains_at (train_place_of books.now) place) kinds }
    ensures bound { result ≤ 120 }
{
    let mut total = 0;
    for kind in Kind::ALL {
        total += trains_at(books, place, kind);
    }
    total
}

/// The train of the kind with the lowest number at the place, if one is there.
pub fn lowest_train(books: &Books, place: Place, kind: Kind) -> Option<Train>
    ensures shown { result ≡ lowest_train (train_place_of books.now) place kind }
    ensures book { (book : Book) → IsStateOf book books.now → result ≡ lowest_train (train_holder book) place kind }
    ensures there { IfSome result (λ train. has_train books.now train ≡ true) }
{
    lowest_shown(books, place, kind)
}

#[tactic(auto, unfolding(crate::specs::Places::lowest_train))]
fn lowest_shown(books: &Books, place: Place, kind: Kind) -> Option<Train>
    ensures value { result ≡ lowest_train (train_place_of books.now) place kind }
    ensures there { IfSome result (λ train. has_train books.now train ≡ true) }
{
    NUMBERS
        .iter()
        .map(|number| Train {
            kind,
            number: *number,
        })
        .find(|train| is_train_at(books, place, *train))
}

// Whether the train is at the place.
fn is_train_at(books: &Books, place: Place, train: Train) -> bool
    ensures value { result ≡ is_train_at (train_place_of books.now) place train }
    ensures there { OnTrue result (has_train books.now train ≡ true) }
{
    match books.train_holder(train) {
        Some(holder) => holder == place,
        None => false,
    }
}
