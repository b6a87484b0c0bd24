ghost use Rattle.std.specs.Prelude.{◌≡◌, ◌≤◌, find};
ghost use Rattle.rr_books.specs.Book.{Book, train_holder};
ghost use Rattle.rr_books.specs.State.{IsStateOf, train_place_of};
ghost use Rattle.rr_market.specs.Operations.Phases.{greatest_first, has_left, is_sold, phase, rounds_in_set};

use rr_books::{Books, Kind, Place, Train};

const GREATEST_FIRST: [Kind; 6] = [
    Kind::Diesel,
    Kind::Six,
    Kind::Five,
    Kind::Four,
    Kind::Three,
    Kind::Two,
];

// The numbers that trains of a kind may have.
const NUMBERS: [u8; 20] = [
    1, 2, 3, 4, 5, 6, 7, 8, 9, 10, 11, 12, 13, 14, 15, 16, 17, 18, 19, 20,
];

/// The phase of the game: the greatest kind of which a train has left the offer, and `Two` where none has.
pub fn phase(books: &Books) -> Kind
    ensures shown { result ≡ phase (train_place_of books.now) }
    ensures book { (book : Book) → IsStateOf book books.now → result ≡ phase (train_holder book) }
{
    phase_shown(books)
}

#[tactic(auto, unfolding(crate::specs::Operations::Phases::phase))]
fn phase_shown(books: &Books) -> Kind
    ensures { result ≡ phase (train_place_of books.now) }
{
    match greatest_sold(books) {
        Some(kind) => kind,
        None => Kind::Two,
    }
}

fn greatest_sold(books: &Books) -> Option<Kind>
    ensures { result ≡ find (is_sold (train_place_of books.now)) greatest_first }
{
    GREATEST_FIRST
        .iter()
        .copied()
        .find(|kind| is_sold(books, *kind))
}

/// Whether a train of the kind has left the offer. Where none has, the next one is the first of its kind.
pub fn is_sold(books: &Books, kind: Kind) -> bool
    ensures shown { result ≡ is_sold (train_place_of books.now) kind }
    ensures book { (book : Book) → IsStateOf book books.now → result ≡ is_sold (train_holder book) kind }
{
    is_sold_shown(books, kind)
}

#[tactic(auto, unfolding(crate::specs::Operations::Phases::is_sold))]
fn is_sold_shown(books: &Books, kind: Kind) -> bool
    ensures { result ≡ is_sold (train_place_of books.now) kind }
{
    NUMBERS.iter().any(|number| has_left(books.train_holder(Train {
        kind,
        number: *number,
    })))
}

fn has_left(place: Option<Place>) -> bool
    ensures { result ≡ has_left place }
{
    match place {
        Some(place) => place != Place::Offer,
        None => false,
    }
}

/// How many operating rounds a set has that begins in the phase.
pub fn rounds_in_set(phase: Kind) -> u8
    ensures value { result ≡ rounds_in_set phase }
    ensures least { 1 ≤ result }
    ensures greatest { result ≤ 3 }
{
    match phase {
        Kind::Two => 1,
        Kind::Three | Kind::Four => 2,
        Kind::Five | Kind::Six | Kind::Diesel => 3,
    }
}
