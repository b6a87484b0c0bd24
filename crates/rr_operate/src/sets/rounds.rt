//! Operating rounds, one after another.
ghost use Rattle.std.specs.Prelude.{◌≡◌, OnOk, IfErr};
ghost use Rattle.rr_books.specs.Book.{Book};
ghost use Rattle.rr_desk.specs.Position.Position.{IsPositionOf};
ghost use Rattle.rr_market.specs.Operations.Progress.{bank_owed, has_more_rounds, progress};
ghost use Rattle.rr_desk.specs.Desk.{Takes};
ghost use Rattle.rr_operate.specs.Sets.Rounds.{begins_round, ends_round, ends_set, passes_round, passes_rounds, round_is_over};

use rr_books::{Entry, Marker, Refusal};
use rr_desk::{Desk, Position, pay_incomes};
use rr_kit::Kit;
use rr_market::operations::Stage;
use rr_roster::Roster;

// Rounds without a turn pass, until a corporation is due, or the set is over.
#[tactic(auto, unfolding(crate::specs::Sets::Rounds::passes_rounds))]
pub(crate) fn pass_rounds(desk: &mut Desk, kit: &Kit) -> Result<(), Refusal>
    ensures fault { IfErr result (λ fault. fault ≡ Refusal.OutOfMemory) }
    ensures takes { OnOk result (Takes (passes_rounds kit.now.roster kit.now.chart) desk.old desk.new) }
{
    pass_round(desk, kit)?;
    pass_round(desk, kit)?;
    pass_round(desk, kit)?;
    Ok(())
}

// What follows on a round in which no corporation has a turn left.
#[tactic(auto, unfolding(crate::specs::Sets::Rounds::passes_round))]
fn pass_round(desk: &mut Desk, kit: &Kit) -> Result<(), Refusal>
    ensures fault { IfErr result (λ fault. fault ≡ Refusal.OutOfMemory) }
    ensures takes { OnOk result (Takes (passes_round kit.now.roster kit.now.chart) desk.old desk.new) }
{
    if !is_over(desk.position(), kit) {
        return Ok(());
    }
    end_round(desk, kit.roster())?;
    Ok(())
}

// Whether an operating round is under way in which no corporation has a turn left.
fn is_over(position: &Position, kit: &Kit) -> bool
    ensures { (book : Book) → IsPositionOf book position.now → result ≡ round_is_over kit.now.chart book }
{
    let operations = position.operations();
    operations.stage() == Stage::Operating && operations.due(kit.chart()).is_none()
}

// The set's next round begins, or the set is over.
fn end_round(desk: &mut Desk, roster: &Roster) -> Result<(), Refusal>
    ensures fault { IfErr result (λ fault. fault ≡ Refusal.OutOfMemory) }
    ensures takes { OnOk result (Takes (ends_round roster.now) desk.old desk.new) }
{
    if has_more_rounds(desk.position()) {
        begin_round(desk, roster)?;
        return Ok(());
    }
    end_set(desk, roster)?;
    Ok(())
}

fn has_more_rounds(position: &Position) -> bool
    ensures { (book : Book) → IsPositionOf book position.now → result ≡ has_more_rounds (progress book) }
{
    position.operations().has_more_rounds()
}

// An operating round begins, and the privates pay.
#[tactic(auto, unfolding(crate::specs::Sets::Rounds::begins_round))]
fn begin_round(desk: &mut Desk, roster: &Roster) -> Result<(), Refusal>
    ensures fault { IfErr result (λ fault. fault ≡ Refusal.OutOfMemory) }
    ensures takes { OnOk result (Takes (begins_round roster.now) desk.old desk.new) }
{
    desk.push(Entry::Step(Marker::Operating))?;
    pay_incomes(desk, roster)?;
    Ok(())
}

// The next stock round begins, unless the game is over.
#[tactic(auto, unfolding(crate::specs::Sets::Rounds::ends_set))]
fn end_set(desk: &mut Desk, roster: &Roster) -> Result<(), Refusal>
    ensures fault { IfErr result (λ fault. fault ≡ Refusal.OutOfMemory) }
    ensures takes { OnOk result (Takes (ends_set roster.now) desk.old desk.new) }
{
    if bank_owed(desk.position(), roster) {
        return Ok(());
    }
    desk.push(Entry::Step(Marker::Stock))?;
    Ok(())
}

fn bank_owed(position: &Position, roster: &Roster) -> bool
    ensures { (book : Book) → IsPositionOf book position.now → result ≡ bank_owed roster.now (progress book) }
{
    position.operations().bank_owed(roster)
}
