ghost use Rattle.std.specs.Prelude.{◌≡◌};
ghost use Rattle.rr_books.specs.Book.{Book};
ghost use Rattle.rr_desk.specs.Position.Position.{IsPositionOf};
ghost use Rattle.rr_stock.specs.Due.{due, due_in};

use rr_books::Seat;
use rr_desk::Position;

/// The seat whose turn it is, while a stock round is under way.
pub fn due(position: &Position) -> Option<Seat>
    ensures shown { result ≡ due_in position.now.rounds }
    ensures book { (book : Book) → IsPositionOf book position.now → result ≡ due book }
{
    seat_due(position)
}

// The seat in turn, by what runs along with the book.
fn seat_due(position: &Position) -> Option<Seat>
    ensures { result ≡ due_in position.now.rounds }
{
    let rounds = position.rounds();
    if !rounds.is_under_way() {
        return None;
    }
    Some(rounds.turn())
}
