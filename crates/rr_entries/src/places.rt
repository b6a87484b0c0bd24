//! The words of parties and places.
ghost use Rattle.std.specs.Prelude.{◌≡◌};
ghost use Rattle.rr_entries.specs.Words.{party_word, place_word, player_word};

use rr_books::{Party, Place, Seat};
use rr_words::Name;

/// The word of who pays or is paid.
pub(crate) fn party_word(players: &[Name], party: Party) -> &[u8]
    ensures { result.now ≡ party_word players.now party }
{
    match party {
        Party::Bank => b"bank",
        Party::Seat(seat) => player_word(players, seat),
        Party::Corp(corp) => corp.name().as_bytes(),
    }
}

/// The word of the place to which a certificate or a train goes.
pub(crate) fn place_word(players: &[Name], place: Place) -> &[u8]
    ensures { result.now ≡ place_word players.now place }
{
    match place {
        Place::Seat(seat) => player_word(players, seat),
        Place::Corp(corp) => corp.name().as_bytes(),
        Place::Offer => b"offer",
        Place::Pool => b"pool",
        Place::Gone => b"gone",
    }
}

// The name of the seat's player; no bytes if the table has no such seat.
fn player_word(players: &[Name], seat: Seat) -> &[u8]
    ensures { result.now ≡ player_word players.now seat }
{
    match players.get(usize::from(seat.0)) {
        Some(name) => name.as_bytes(),
        None => b"",
    }
}
