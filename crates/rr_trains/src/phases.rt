ghost use Rattle.std.specs.Prelude.{◌≡◌, ◌≤◌};
ghost use Rattle.rr_books.specs.Book.{Book, train_holder};
ghost use Rattle.rr_books.specs.State.{IsStateOf, train_place_of};
ghost use Rattle.rr_trains.specs.Phases.{is_over_train_limit, sells_privates, train_limit};

use crate::places::trains_held;
use rr_books::{Books, Corp, Kind, Place};
use rr_market::operations::phase;

/// How many trains a corporation may have in the phase.
pub fn train_limit(phase: Kind) -> u8
    ensures value { result ≡ train_limit phase }
    ensures least { 2 ≤ result }
    ensures greatest { result ≤ 4 }
{
    match phase {
        Kind::Two | Kind::Three => 4,
        Kind::Four => 3,
        Kind::Five | Kind::Six | Kind::Diesel => 2,
    }
}

/// Whether players may sell privates to corporations in the phase.
pub fn sells_privates(phase: Kind) -> bool
    ensures { result ≡ sells_privates phase }
{
    matches!(phase, Kind::Three | Kind::Four)
}

/// Whether the corporation has more trains than the phase allows, so that it must give some up.
pub fn is_over_train_limit(books: &Books, corp: Corp) -> bool
    ensures shown { result ≡ is_over_train_limit (train_place_of books.now) corp }
    ensures book { (book : Book) → IsStateOf book books.now → result ≡ is_over_train_limit (train_holder book) corp }
{
    trains_held(books, Place::Corp(corp)) > train_limit(phase(books))
}
