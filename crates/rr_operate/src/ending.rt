//! Whether a corporation must own a train, and so may not end its turn.
ghost use Rattle.std.specs.Prelude.{◌≡◌, true, None, IfOk, OnErr, MatchResult};
ghost use Rattle.std.specs.Bool.{Decides};
ghost use Rattle.std.specs.List.{list_any};
ghost use Rattle.rr_roster.specs.Company.{kinds};
ghost use Rattle.rr_books.specs.declared.acts.Act.TheVariants as A;
ghost use Rattle.rr_books.specs.Book.{Book, train_holder};
ghost use Rattle.rr_books.specs.State.{train_place_of};
ghost use Rattle.rr_desk.specs.Position.Position.{IsPositionOf};
ghost use Rattle.rr_routes.specs.declared.net.CentreLimit.TheVariants.{AtMost};
ghost use Rattle.rr_referee.specs.Trips.Having.{HasRoute};
ghost use Rattle.rr_running.specs.Running.{net_now};
ghost use Rattle.rr_operate.specs.Rows.{IsVerdictOfRow, MayJudgeRow, OwesTrain, could_buy_first, is_kind_on_sale};

use rr_books::{Books, Corp, Kind, Place, Refusal, TrainSource};
use rr_desk::Position;
use rr_kit::Kit;
use rr_referee::trips::has_route;
use rr_routes::CentreLimit;
use rr_running::net_now;
use rr_trains::{is_on_sale, trains_held};
use std::alloc::{AllocError, Global};

// Whether the corporation may end its turn: not where it must own a train.
pub(crate) fn judge_end(
    alloc: Global,
    kit: &Kit,
    position: &Position,
    corp: Corp,
) -> Result<(), Refusal>
    ensures { (book : Book) → IsPositionOf book position.now → MatchResult result
        (λ _. IsVerdictOfRow kit.now book (A.End corp) None)
        (λ fault. MayJudgeRow kit.now book (A.End corp) fault) }
{
    if owes_train(alloc, kit, position, corp)? {
        return Err(Refusal::MustOwnTrain);
    }
    Ok(())
}

/// Whether the corporation must own a train: it has none, one is on sale at the bank or in the pool, whatever it costs,
/// and it has a route.
///
/// # Errors
///
/// Want of memory alone, and only where it has no train and one is on sale.
pub fn owes_train(
    alloc: Global,
    kit: &Kit,
    position: &Position,
    corp: Corp,
) -> Result<bool, AllocError>
    ensures owes { (book : Book) → IsPositionOf book position.now → IfOk result (λ owes. Decides owes (OwesTrain kit.now book corp)) }
    ensures memory { (book : Book) → IsPositionOf book position.now → OnErr result (could_buy_first (train_holder book) corp ≡ true) }
{
    if !could_buy_first(position, corp) {
        return Ok(false);
    }
    has_route_now(alloc, kit, position, corp)
}

// Whether the corporation has a route as the board lies.
fn has_route_now(
    alloc: Global,
    kit: &Kit,
    position: &Position,
    corp: Corp,
) -> Result<bool, AllocError>
    ensures { (book : Book) → IsPositionOf book position.now → IfOk result (λ found. Decides found (HasRoute (net_now kit.now.board kit.now.tiles book corp) (AtMost 2))) }
{
    let net = net_now(alloc, kit, position, corp)?;
    has_route(alloc, &net, &CentreLimit::AtMost(2))
}

// Whether the corporation has no train, and one is on sale.
fn could_buy_first(position: &Position, corp: Corp) -> bool
    ensures { (book : Book) → IsPositionOf book position.now → result ≡ could_buy_first (train_holder book) corp }
{
    could_buy_shown(position.books(), corp)
}

#[tactic(auto, unfolding(crate::specs::Rows::could_buy_first))]
fn could_buy_shown(books: &Books, corp: Corp) -> bool
    ensures { result ≡ could_buy_first (train_place_of books.now) corp }
{
    trains_held(books, Place::Corp(corp)) == 0 && is_any_on_sale(books)
}

fn is_any_on_sale(books: &Books) -> bool
    ensures { result ≡ list_any (is_kind_on_sale (train_place_of books.now)) kinds }
{
    Kind::ALL.iter().any(|kind| is_kind_on_sale(books, *kind))
}

fn is_kind_on_sale(books: &Books, kind: Kind) -> bool
    ensures { result ≡ is_kind_on_sale (train_place_of books.now) kind }
{
    is_on_sale(books, kind, TrainSource::Bank) || is_on_sale(books, kind, TrainSource::Pool)
}
