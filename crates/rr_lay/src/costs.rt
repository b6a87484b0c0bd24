//! What a corporation pays for tiles and tokens.
ghost use Rattle.std.specs.Prelude.{◌≡◌, None, Some, MatchResult, OnOk, IfErr};
ghost use Rattle.rr_books.specs.State.{cash_of};
ghost use Rattle.rr_desk.specs.Desk.{Takes};
ghost use Rattle.rr_lay.specs.Costs.{cost_verdict, pays_cost};
ghost use Rattle.rr_books.specs.declared.refusal.Refusal.TheVariants as B;

use rr_books::{Books, Corp, Entry, Money, Party, Refusal};
use rr_desk::Desk;

// Whether the corporation has the cost, if there is one.
pub(crate) fn judge_cost(books: &Books, corp: Corp, cost: Option<u16>) -> Result<(), Refusal>
    ensures { MatchResult result
        (λ _. cost_verdict (cash_of books.now) corp cost ≡ None)
        (λ fault. cost_verdict (cash_of books.now) corp cost ≡ Some fault) }
{
    let Some(cost) = cost else {
        return Ok(());
    };
    if books.balance(Party::Corp(corp)).0 < i64::from(cost) {
        return Err(Refusal::TooLittleCash);
    }
    Ok(())
}

// Pays the cost to the bank, if there is one.
pub(crate) fn pay_cost(desk: &mut Desk, corp: Corp, cost: Option<u16>) -> Result<(), Refusal>
    ensures fault { IfErr result (λ fault. fault ≡ B.OutOfMemory) }
    ensures takes { OnOk result (Takes (pays_cost corp cost) desk.old desk.new) }
{
    let Some(cost) = cost else {
        return Ok(());
    };
    desk.push(Entry::Pay {
        from: Party::Corp(corp),
        to: Party::Bank,
        amount: Money(i64::from(cost)),
    })?;
    Ok(())
}
