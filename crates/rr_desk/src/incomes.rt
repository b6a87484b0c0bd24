ghost use Rattle.std.specs.Prelude.{◌≡◌, ◌<◌, ◌≤◌, ◌≤ℤ◌, pos, OnOk, OnErr, IfErr, IfSome};
ghost use Rattle.rr_roster.specs.Terms.{income_of};
ghost use Rattle.rr_books.specs.Book.{Book, holder, players};
ghost use Rattle.rr_books.specs.State.{IsStateOf, party_index};
ghost use Rattle.rr_desk.specs.Incomes.{dollars, owner, pay_incomes, pays_income};
ghost use Rattle.rr_desk.specs.Desk.{AddsSome, Takes};

use crate::desk::Desk;
use rr_books::{Books, Cert, Entry, Money, Party, Place, Private, Refusal};
use rr_roster::Roster;

/// A whole amount of dollars as money.
pub fn dollars(amount: u64) -> Money
    requires { amount ≤ 10000000000 }
    ensures value { result ≡ dollars amount }
    ensures low { pos 0 ≤ℤ result.0 }
    ensures high { result.0 ≤ℤ pos 10000000000 }
{
    Money(amount as i64)
}

/// The privates pay their owners out of the bank, the cheapest first: each the seat or corporation that has it. One
/// that no seat of the table and no corporation has pays nobody.
///
/// # Errors
///
/// `OutOfMemory`; some of the privates may have paid then.
pub fn pay_incomes(desk: &mut Desk, roster: &Roster) -> Result<(), Refusal>
    ensures fault { IfErr result (λ fault. fault ≡ Refusal.OutOfMemory) }
    ensures takes { OnOk result (Takes (pay_incomes roster.now) desk.old desk.new) }
{
    for private in Private::ALL {
        pay_income(private, desk, roster)?;
    }
    Ok(())
}

// The private pays its owner. One without an owner wants no memory.
#[tactic(auto, unfolding(crate::specs::Incomes::pays_income))]
fn pay_income(private: Private, desk: &mut Desk, roster: &Roster) -> Result<(), Refusal>
    ensures fault { IfErr result (λ fault. fault ≡ Refusal.OutOfMemory) }
    ensures takes { OnOk result (Takes (pays_income roster.now private) desk.old desk.new) }
    ensures needed { OnErr result (AddsSome (pays_income roster.now private) desk.old) }
{
    let income = income(private, roster);
    match owner(private, desk.books()) {
        Some(party) => {
            desk.push(Entry::Pay {
                from: Party::Bank,
                to: party,
                amount: income,
            })?;
            Ok(())
        }
        None => Ok(()),
    }
}

// What the private pays.
fn income(private: Private, roster: &Roster) -> Money
    ensures value { result.0 ≡ pos (income_of roster.now private) }
    ensures high { result.0 ≤ℤ pos 100 }
{
    Money(i64::from(roster.income(private)))
}

// Who gets the private's income: the seat or corporation that has it.
fn owner(private: Private, books: &Books) -> Option<Party>
    ensures book { (book : Book) → IsStateOf book books.now → result ≡ owner (players book) (holder book (Cert.Private private)) }
    ensures party { IfSome result (λ party. party_index party < 15) }
{
    match books.holder(Cert::Private(private)) {
        Place::Seat(seat) => {
            if seat.0 < books.players() {
                Some(Party::Seat(seat))
            } else {
                None
            }
        }
        Place::Corp(corp) => Some(Party::Corp(corp)),
        _ => None,
    }
}
