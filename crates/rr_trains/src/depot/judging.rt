ghost use Rattle.std.specs.Prelude.{◌≡◌, None, Some, MatchResult};
ghost use Rattle.rr_books.specs.Book.{Book};
ghost use Rattle.rr_desk.specs.Position.Position.{IsPositionOf};
ghost use Rattle.rr_trains.specs.Depot.Rules.{deal_verdict, discard_verdict, private_verdict, trade_verdict, train_verdict, verdict, verdict_in};
ghost use Rattle.rr_trains.specs.Depot.Situation.{situation_in};

use crate::depot::purchases::Deal;
use crate::depot::reading::{
    has_room, has_seller, is_for_sale, is_out_of_bounds, is_president, is_short, may_trade,
};
use crate::{has_train_at, is_on_sale, is_over_train_limit, phase, sells_privates};
use rr_books::{Act, Books, Corp, Kind, Place, Private, Refusal, TrainSource};
use rr_desk::Position;
use rr_roster::Roster;

/// Whether the rules allow what a corporation buys or gives up now. That the step takes such a command, that it is the
/// corporation's turn, and that no train has to be given up first, is asked elsewhere.
///
/// # Errors
///
/// The first of these that applies, for each command in this order:
///
/// - `train` from bank or pool: `NotOnSale`; `TrainLimit` where the corporation has as many trains as the phase before
///   the purchase allows; `TooLittleCash`.
/// - `train` from a corporation: `NotOnSale` where that is the corporation itself or has no such train; `NotYourTurn`
///   where the two seats aren't the two presidents; `PriceOutOfBounds` for a price of 0; `TrainLimit`; `TooLittleCash`.
/// - `trade`: `NotOnSale` where the kind isn't 4, 5 or 6, the corporation has none, or the bank sells no D;
///   `TooLittleCash` for the price of a D with a train handed in.
/// - `drop`: `WrongStep` where the corporation isn't over its limit; `NotOnSale` where it has no such train.
/// - `private`: `NotOnSale` but in the phases of 3 and 4; `NotForSale` where no player has the private, or it is the
///   B&O's; `PriceOutOfBounds` below half the face and above twice that; `TooLittleCash`.
///
/// `WrongStep` for any other command.
pub fn judge(roster: &Roster, position: &Position, act: &Act) -> Result<(), Refusal>
    ensures shown { MatchResult result
        (λ _. verdict_in roster.now (situation_in position.now.books) act.now ≡ None)
        (λ fault. verdict_in roster.now (situation_in position.now.books) act.now ≡ Some fault) }
    ensures verdict { (book : Book) → IsPositionOf book position.now → MatchResult result
        (λ _. verdict roster.now book act.now ≡ None)
        (λ fault. verdict roster.now book act.now ≡ Some fault) }
{
    judge_act(roster, position.books(), act)
}

// Whether the rules allow the command, by the tables of the books.
fn judge_act(roster: &Roster, books: &Books, act: &Act) -> Result<(), Refusal>
    ensures { MatchResult result
        (λ _. verdict_in roster.now (situation_in books.now) act.now ≡ None)
        (λ fault. verdict_in roster.now (situation_in books.now) act.now ≡ Some fault) }
{
    match act {
        Act::BuyTrain { corp, kind, source } => judge_train(roster, books, *corp, *kind, *source),
        Act::BuyTrainFrom {
            corp,
            kind,
            seller,
            price,
            president,
            seller_president,
        } => judge_deal(
            books,
            &Deal {
                corp: *corp,
                kind: *kind,
                seller: *seller,
                price: *price,
                president: *president,
                seller_president: *seller_president,
            },
        ),
        Act::Trade { corp, kind } => judge_trade(roster, books, *corp, *kind),
        Act::Discard { corp, kind } => judge_discard(books, *corp, *kind),
        Act::TakePrivate {
            corp,
            private,
            price,
        } => judge_private(roster, books, *corp, *private, *price),
        _ => Err(Refusal::WrongStep),
    }
}

// Whether the corporation may buy a train of the bank or the pool.
#[tactic(auto, unfolding(crate::specs::Depot::Rules::train_verdict))]
fn judge_train(
    roster: &Roster,
    books: &Books,
    corp: Corp,
    kind: Kind,
    source: TrainSource,
) -> Result<(), Refusal>
    ensures { MatchResult result
        (λ _. train_verdict roster.now (situation_in books.now) corp kind source ≡ None)
        (λ fault. train_verdict roster.now (situation_in books.now) corp kind source ≡ Some fault) }
{
    if !is_on_sale(books, kind, source) {
        return Err(Refusal::NotOnSale);
    }
    if !has_room(books, corp) {
        return Err(Refusal::TrainLimit);
    }
    if is_short(books, corp, u64::from(roster.price(kind))) {
        return Err(Refusal::TooLittleCash);
    }
    Ok(())
}

// Whether the corporation may buy the other one's train.
#[tactic(auto, unfolding(crate::specs::Depot::Rules::deal_verdict))]
fn judge_deal(books: &Books, deal: &Deal) -> Result<(), Refusal>
    ensures { MatchResult result
        (λ _. deal_verdict (situation_in books.now) deal.now ≡ None)
        (λ fault. deal_verdict (situation_in books.now) deal.now ≡ Some fault) }
{
    if !has_seller(books, deal.corp, deal.kind, deal.seller) {
        return Err(Refusal::NotOnSale);
    }
    if !is_president(books, deal.corp, deal.president) {
        return Err(Refusal::NotYourTurn);
    }
    if !is_president(books, deal.seller, deal.seller_president) {
        return Err(Refusal::NotYourTurn);
    }
    if deal.price == 0 {
        return Err(Refusal::PriceOutOfBounds);
    }
    if !has_room(books, deal.corp) {
        return Err(Refusal::TrainLimit);
    }
    if is_short(books, deal.corp, deal.price) {
        return Err(Refusal::TooLittleCash);
    }
    Ok(())
}

// Whether the corporation may hand in a train for a D.
#[tactic(auto, unfolding(crate::specs::Depot::Rules::trade_verdict))]
fn judge_trade(roster: &Roster, books: &Books, corp: Corp, kind: Kind) -> Result<(), Refusal>
    ensures { MatchResult result
        (λ _. trade_verdict roster.now (situation_in books.now) corp kind ≡ None)
        (λ fault. trade_verdict roster.now (situation_in books.now) corp kind ≡ Some fault) }
{
    if !may_trade(books, corp, kind) {
        return Err(Refusal::NotOnSale);
    }
    if is_short(books, corp, u64::from(roster.trade())) {
        return Err(Refusal::TooLittleCash);
    }
    Ok(())
}

// Whether the corporation has to give up a train, and has one of the kind.
#[tactic(auto, unfolding(crate::specs::Depot::Rules::discard_verdict))]
fn judge_discard(books: &Books, corp: Corp, kind: Kind) -> Result<(), Refusal>
    ensures { MatchResult result
        (λ _. discard_verdict (situation_in books.now) corp kind ≡ None)
        (λ fault. discard_verdict (situation_in books.now) corp kind ≡ Some fault) }
{
    if !is_over_train_limit(books, corp) {
        return Err(Refusal::WrongStep);
    }
    if !has_train_at(books, Place::Corp(corp), kind) {
        return Err(Refusal::NotOnSale);
    }
    Ok(())
}

// Whether the corporation may buy the private for the price.
#[tactic(auto, unfolding(crate::specs::Depot::Rules::private_verdict))]
fn judge_private(
    roster: &Roster,
    books: &Books,
    corp: Corp,
    private: Private,
    price: u64,
) -> Result<(), Refusal>
    ensures { MatchResult result
        (λ _. private_verdict roster.now (situation_in books.now) corp private price ≡ None)
        (λ fault. private_verdict roster.now (situation_in books.now) corp private price ≡ Some fault) }
{
    if !sells_privates(phase(books)) {
        return Err(Refusal::NotOnSale);
    }
    if !is_for_sale(books, private) {
        return Err(Refusal::NotForSale);
    }
    if is_out_of_bounds(roster.face(private), price) {
        return Err(Refusal::PriceOutOfBounds);
    }
    if is_short(books, corp, price) {
        return Err(Refusal::TooLittleCash);
    }
    Ok(())
}
