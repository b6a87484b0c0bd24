ghost use Rattle.std.specs.Prelude.{◌≡◌};
ghost use Rattle.rr_books.specs.Book.{Book, holder};
ghost use Rattle.rr_books.specs.State.{IsStateOf, holder_in};
ghost use Rattle.rr_rounds.specs.Bids.Unsold.{cheapest, is_private, is_unsold, same_private};

use rr_books::{Books, Cert, Place, Private};

/// The cheapest private that isn't sold.
#[tactic(auto, unfolding(crate::specs::Bids::Unsold::cheapest))]
pub fn cheapest(books: &Books) -> Option<Private>
    ensures { result ≡ cheapest (holder_in books.now) }
{
    Private::ALL
        .iter()
        .copied()
        .find(|private| is_unsold(*private, books))
}

/// Whether the private isn't sold.
pub fn is_unsold(private: Private, books: &Books) -> bool
    ensures { result ≡ is_unsold (holder_in books.now) private }
{
    books.holder(Cert::Private(private)) == Place::Offer
}

/// Whether the two are one.
pub fn same_private(private: Private, other: Private) -> bool
    ensures { result ≡ same_private private other }
{
    private == other
}

/// Whether the private is the cheapest that isn't sold.
pub fn is_cheapest(private: Private, books: &Books) -> bool
    ensures { result ≡ is_private private (cheapest (holder_in books.now)) }
{
    match cheapest(books) {
        Some(other) => same_private(private, other),
        None => false,
    }
}
