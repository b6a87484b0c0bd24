ghost use Rattle.std.specs.Prelude.{◌≡◌, OnOk, OnErr, IfErr};
ghost use Rattle.rr_books.specs.Book.{Book, holder};
ghost use Rattle.rr_books.specs.Shares.{is_at};
ghost use Rattle.rr_books.specs.State.{IsStateOf, holder_in};
ghost use Rattle.rr_desk.specs.Effects.{lowest_share, moves_lowest_share};
ghost use Rattle.rr_desk.specs.Desk.{AddsSome, Takes};

use crate::desk::Desk;
use rr_books::{Books, Cert, Corp, Entry, Place, Refusal, ShareNumber};

/// Moves the lowest of the corporation's 10% certificates that are at one place to another, if there is one.
///
/// # Errors
///
/// `OutOfMemory`, where there is one; the desk is as before then.
pub fn give_lowest_share(desk: &mut Desk, corp: Corp, from: Place, to: Place) -> Result<(), Refusal>
    ensures fault { IfErr result (λ fault. fault ≡ Refusal.OutOfMemory) }
    ensures takes { OnOk result (Takes (moves_lowest_share corp from to) desk.old desk.new) }
    ensures err { OnErr result (desk.new ≡ desk.old) }
    ensures needed { OnErr result (AddsSome (moves_lowest_share corp from to) desk.old) }
{
    match lowest_share(desk.books(), corp, from) {
        Some(cert) => desk.push(Entry::Move { cert, to }),
        None => Ok(()),
    }
}

/// The lowest of the corporation's 10% certificates that are at the place.
pub fn lowest_share(books: &Books, corp: Corp, place: Place) -> Option<Cert>
    ensures shown { result ≡ lowest_share (holder_in books.now) corp place }
    ensures book { (book : Book) → IsStateOf book books.now → result ≡ lowest_share (holder book) corp place }
{
    first_share_at(books, corp, place)
}

// The lowest of the corporation's 10% certificates that are at the place, by the tables of the books.
fn first_share_at(books: &Books, corp: Corp, place: Place) -> Option<Cert>
    ensures { result ≡ lowest_share (holder_in books.now) corp place }
{
    ShareNumber::ALL
        .iter()
        .map(|number| Cert::Share(corp, *number))
        .find(|cert| is_at(books, *cert, place))
}

// Whether the certificate is at the place.
fn is_at(books: &Books, cert: Cert, place: Place) -> bool
    ensures { result ≡ is_at (holder_in books.now cert) place }
{
    books.holder(cert) == place
}
