//! Whether a command comes in its order.
ghost use Rattle.std.specs.Prelude.{◌≡◌, None, Some, MatchResult};
ghost use Rattle.rr_books.specs.Book.{Book};
ghost use Rattle.rr_market.specs.Operations.Due.{due};
ghost use Rattle.rr_market.specs.Operations.Progress.{progress};
ghost use Rattle.rr_desk.specs.Position.Position.{IsPositionOf};
ghost use Rattle.rr_operate.specs.Order.{actor, is_discard, is_due, is_played, order_verdict, revenue_verdict, step_verdict, turn_of, verdict_at};

use crate::dividends::judge_pay;
use rr_books::{Act, Corp, Money, Refusal};
use rr_desk::Position;
use rr_kit::Kit;
use rr_market::operations::TurnStep;
use rr_trains::depot::is_over_limit_somewhere;

/// What the order of commands looks at.
#[derive(Clone, Copy, Debug)]
pub(crate) struct Turn {
    /// Whether some corporation of the table has more trains than the phase allows.
    pub is_over_limit: bool,
    pub step: TurnStep,
    /// The corporation whose turn it is.
    pub due: Option<Corp>,
}

/// Whether a command of a corporation's turn comes in its order, where its trains earned this revenue in this turn.
/// What the rules of the command itself say is asked behind that.
///
/// # Errors
///
/// The first of these that applies: `MustDiscardFirst` where some corporation is over its train limit, for any command
/// but `drop`; `WrongStep` where the step of the turn doesn't take the command, for one that isn't of a turn's own (a
/// forced purchase and what helps it have rules apart), and for `pay` without revenue; `NotYourTurn` where another
/// corporation is due, or none, but for `drop`, which any corporation over its limit says.
pub fn judge_order(kit: &Kit, position: &Position, revenue: Money, act: &Act) -> Result<(), Refusal>
    ensures { (book : Book) → IsPositionOf book position.now → MatchResult result
        (λ _. order_verdict kit.now book revenue act.now ≡ None)
        (λ fault. order_verdict kit.now book revenue act.now ≡ Some fault) }
{
    let turn = Turn::of(kit, position);
    turn.judge(revenue, act)?;
    Ok(())
}

impl Turn {
    /// What the position tells.
    fn of(kit: &Kit, position: &Position) -> Turn
        ensures { (book : Book) → IsPositionOf book position.now → result ≡ turn_of kit.now book }
    {
        Turn {
            is_over_limit: is_over_limit_somewhere(position),
            step: step(position),
            due: due(kit, position),
        }
    }

    // Whether the command comes in its order.
    #[tactic(auto, unfolding(crate::specs::Order::verdict_at))]
    fn judge(&self, revenue: Money, act: &Act) -> Result<(), Refusal>
        ensures { MatchResult result
            (λ _. verdict_at self.now revenue act.now ≡ None)
            (λ fault. verdict_at self.now revenue act.now ≡ Some fault) }
    {
        if self.is_over_limit && !is_discard(act) {
            return Err(Refusal::MustDiscardFirst);
        }
        self.judge_step(revenue, act)?;
        if !(is_discard(act) || is_due(self.due, actor(act))) {
            return Err(Refusal::NotYourTurn);
        }
        Ok(())
    }

    // Whether the step takes the command.
    #[tactic(auto, unfolding(crate::specs::Order::step_verdict))]
    fn judge_step(&self, revenue: Money, act: &Act) -> Result<(), Refusal>
        ensures { MatchResult result
            (λ _. step_verdict self.now revenue act.now ≡ None)
            (λ fault. step_verdict self.now revenue act.now ≡ Some fault) }
    {
        if !(self.step.takes(act) && is_played(act)) {
            return Err(Refusal::WrongStep);
        }
        judge_revenue(revenue, act)?;
        Ok(())
    }
}

fn step(position: &Position) -> TurnStep
    ensures { (book : Book) → IsPositionOf book position.now → result ≡ (progress book).step }
{
    position.operations().step()
}

fn due(kit: &Kit, position: &Position) -> Option<Corp>
    ensures { (book : Book) → IsPositionOf book position.now → result ≡ due kit.now.chart book }
{
    position.operations().due(kit.chart())
}

// Whether there is something to pay out, where that is to be done.
fn judge_revenue(revenue: Money, act: &Act) -> Result<(), Refusal>
    ensures { MatchResult result
        (λ _. revenue_verdict revenue act.now ≡ None)
        (λ fault. revenue_verdict revenue act.now ≡ Some fault) }
{
    match act {
        Act::PayOut { .. } => {
            judge_pay(revenue)?;
            Ok(())
        }
        _ => Ok(()),
    }
}

// Whether it is the one corporation that the other is.
fn is_due(due: Option<Corp>, actor: Option<Corp>) -> bool
    ensures { result ≡ is_due due actor }
{
    match (due, actor) {
        (Some(due), Some(actor)) => due == actor,
        _ => false,
    }
}

// The corporation that acts, in a command of a turn.
fn actor(act: &Act) -> Option<Corp>
    ensures { result ≡ actor act.now }
{
    match act {
        Act::Lay { corp, .. }
        | Act::Station { corp, .. }
        | Act::Run { corp, .. }
        | Act::RunBest { corp, .. }
        | Act::PayOut { corp }
        | Act::Hold { corp }
        | Act::BuyTrain { corp, .. }
        | Act::BuyTrainFrom { corp, .. }
        | Act::Trade { corp, .. }
        | Act::Discard { corp, .. }
        | Act::TakePrivate { corp, .. }
        | Act::Force { corp }
        | Act::End { corp } => Some(*corp),
        _ => None,
    }
}

// Whether it is a command of a turn's own: a forced purchase, a sale for one and a bankruptcy have rules apart.
fn is_played(act: &Act) -> bool
    ensures { result ≡ is_played act.now }
{
    matches!(
        act,
        Act::Lay { .. }
            | Act::Station { .. }
            | Act::Run { .. }
            | Act::RunBest { .. }
            | Act::PayOut { .. }
            | Act::Hold { .. }
            | Act::BuyTrain { .. }
            | Act::BuyTrainFrom { .. }
            | Act::Trade { .. }
            | Act::Discard { .. }
            | Act::TakePrivate { .. }
            | Act::End { .. }
    )
}

fn is_discard(act: &Act) -> bool
    ensures { result ≡ is_discard act.now }
{
    matches!(act, Act::Discard { .. })
}
