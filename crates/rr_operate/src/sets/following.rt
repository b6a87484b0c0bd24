//! What follows by itself on a command.
ghost use Rattle.std.specs.Prelude.{◌≡◌, OnOk, IfErr};
ghost use Rattle.rr_books.specs.Book.{Book};
ghost use Rattle.rr_desk.specs.Position.Position.{IsPositionOf};
ghost use Rattle.rr_rounds.specs.Round.{progress};
ghost use Rattle.rr_desk.specs.Desk.{Takes};
ghost use Rattle.rr_operate.specs.Sets.Following.{begins_set, goes_on_in_operating_round, goes_on_in_stock_round};

use crate::sets::rounds::pass_rounds;
use crate::sets::tokens::place_first_token;
use rr_books::Refusal;
use rr_desk::{Desk, Position, pay_incomes};
use rr_kit::Kit;

/// What follows by itself on a command of a stock round: nothing while the round is under way. Behind its end, which
/// has begun an operating round, the privates pay; rounds in which no corporation has a turn pass, each with its
/// incomes; and the corporation whose first turn begins gets a token at its home.
///
/// # Errors
///
/// `OutOfMemory`; some of it may have come about then.
#[tactic(auto, unfolding(crate::specs::Sets::Following::goes_on_in_stock_round))]
pub fn go_on_in_stock_round(desk: &mut Desk, kit: &Kit) -> Result<(), Refusal>
    ensures fault { IfErr result (λ fault. fault ≡ Refusal.OutOfMemory) }
    ensures takes { OnOk result (Takes (goes_on_in_stock_round kit.now) desk.old desk.new) }
{
    if is_under_way(desk.position()) {
        return Ok(());
    }
    begin_set(desk, kit)?;
    Ok(())
}

/// What follows by itself on a command of an operating round: behind the last turn of a round the next one of the set
/// begins, and behind the last round of a set a stock round, or the game is over where the bank has owed money. Rounds
/// in which no corporation has a turn pass, each with its incomes; and the corporation whose first turn begins gets a
/// token at its home.
///
/// # Errors
///
/// `OutOfMemory`; some of it may have come about then.
#[tactic(auto, unfolding(crate::specs::Sets::Following::goes_on_in_operating_round))]
pub fn go_on_in_operating_round(desk: &mut Desk, kit: &Kit) -> Result<(), Refusal>
    ensures fault { IfErr result (λ fault. fault ≡ Refusal.OutOfMemory) }
    ensures takes { OnOk result (Takes (goes_on_in_operating_round kit.now) desk.old desk.new) }
{
    pass_rounds(desk, kit)?;
    place_first_token(desk, kit)?;
    Ok(())
}

#[tactic(auto, unfolding(crate::specs::Sets::Following::begins_set))]
fn begin_set(desk: &mut Desk, kit: &Kit) -> Result<(), Refusal>
    ensures fault { IfErr result (λ fault. fault ≡ Refusal.OutOfMemory) }
    ensures takes { OnOk result (Takes (begins_set kit.now) desk.old desk.new) }
{
    pay_incomes(desk, kit.roster())?;
    go_on_in_operating_round(desk, kit)?;
    Ok(())
}

// Whether a stock round is under way.
fn is_under_way(position: &Position) -> bool
    ensures { (book : Book) → IsPositionOf book position.now → result ≡ (progress book).under_way }
{
    position.rounds().is_under_way()
}
