ghost use Rattle.std.specs.Prelude.{◌≡◌, ◌*◌, ◌≤◌, pos, OnOk, IfErr};
ghost use Rattle.rr_books.specs.Book.{Book, holder};
ghost use Rattle.rr_books.specs.State.{IsStateOf, holder_in};
ghost use Rattle.rr_desk.specs.Desk.{Takes};
ghost use Rattle.rr_shares.specs.Effects.{float, float_if_due, floats_now};

use rr_books::{Books, Corp, Entry, Marker, Money, Party, Place, Refusal};
use rr_desk::Desk;

/// Whether the corporation floats now: it has a par, hasn't floated, and 60% of it has left the offer.
pub fn floats_now(books: &Books, corp: Corp, par: Option<u16>, floated: bool) -> bool
    ensures shown { result ≡ floats_now (holder_in books.now) corp par floated }
    ensures book { (book : Book) → IsStateOf book books.now → result ≡ floats_now (holder book) corp par floated }
{
    match par {
        Some(_) => !floated && books.share(Place::Offer, corp) <= 40,
        None => false,
    }
}

/// The corporation floats: the bank pays it ten times its par.
///
/// # Errors
///
/// `OutOfMemory`; the corporation may have been paid then.
#[tactic(auto, unfolding(crate::specs::Effects::float))]
pub fn float(desk: &mut Desk, corp: Corp, par: u16) -> Result<(), Refusal>
    ensures fault { IfErr result (λ fault. fault ≡ Refusal.OutOfMemory) }
    ensures takes { OnOk result (Takes (float corp par) desk.old desk.new) }
{
    let capital = capital(par);
    desk.push(Entry::Pay {
        from: Party::Bank,
        to: Party::Corp(corp),
        amount: capital,
    })?;
    desk.push(Entry::Step(Marker::Float(corp)))?;
    Ok(())
}

// What a corporation of this par begins with.
fn capital(par: u16) -> Money
    ensures value { result.0 ≡ pos (10 * par) }
    ensures high { 10 * par ≤ 10000000000 }
{
    Money(10 * i64::from(par))
}

/// The corporation floats if it is to float now.
///
/// # Errors
///
/// `OutOfMemory`; the corporation may have been paid then.
#[tactic(auto, unfolding(crate::specs::Effects::float_if_due))]
pub fn float_if_due(
    desk: &mut Desk,
    corp: Corp,
    par: Option<u16>,
    floated: bool,
) -> Result<(), Refusal>
    ensures fault { IfErr result (λ fault. fault ≡ Refusal.OutOfMemory) }
    ensures takes { OnOk result (Takes (float_if_due corp par floated) desk.old desk.new) }
{
    if !floats_now(desk.books(), corp, par, floated) {
        return Ok(());
    }
    match par {
        Some(price) => {
            float(desk, corp, price)?;
            Ok(())
        }
        None => Ok(()),
    }
}
