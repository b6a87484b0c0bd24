//! The token that a corporation gets as its first turn begins.
ghost use Rattle.std.specs.Prelude.{◌≡◌, find, option_map, OnOk, IfErr};
ghost use Rattle.rr_books.specs.Book.{Book};
ghost use Rattle.rr_desk.specs.Layout.Layout.{stations};
ghost use Rattle.rr_market.specs.Operations.Due.{due};
ghost use Rattle.rr_desk.specs.Position.Position.{IsPositionOf};
ghost use Rattle.rr_desk.specs.Desk.{Takes};
ghost use Rattle.rr_operate.specs.Sets.Tokens.{has_token, is_home_of, is_token_of, places_at, places_first_token, places_first_token_of};

use rr_books::{Entry, Refusal};
use rr_desk::layout::Station;
use rr_desk::{Desk, Position};
use rr_kit::Kit;
use rr_kit::board::Home;
use rr_roster::Corp;

// The corporation that is due gets a token at its home, if it has none yet and the board has a home of it.
#[tactic(auto, unfolding(crate::specs::Sets::Tokens::places_first_token))]
pub(crate) fn place_first_token(desk: &mut Desk, kit: &Kit) -> Result<(), Refusal>
    ensures fault { IfErr result (λ fault. fault ≡ Refusal.OutOfMemory) }
    ensures takes { OnOk result (Takes (places_first_token kit.now.chart kit.now.board.homes) desk.old desk.new) }
{
    match due(desk.position(), kit) {
        Some(corp) => place_first_token_of(desk, kit.board().homes(), corp),
        None => Ok(()),
    }
}

fn due(position: &Position, kit: &Kit) -> Option<Corp>
    ensures { (book : Book) → IsPositionOf book position.now → result ≡ due kit.now.chart book }
{
    position.operations().due(kit.chart())
}

#[tactic(auto, unfolding(crate::specs::Sets::Tokens::places_first_token_of))]
fn place_first_token_of(desk: &mut Desk, homes: &[Home], corp: Corp) -> Result<(), Refusal>
    ensures fault { IfErr result (λ fault. fault ≡ Refusal.OutOfMemory) }
    ensures takes { OnOk result (Takes (places_first_token_of homes.now corp) desk.old desk.new) }
{
    if has_token(desk.position(), corp) {
        return Ok(());
    }
    place_at(desk, corp, home_of(homes, corp))?;
    Ok(())
}

fn place_at(desk: &mut Desk, corp: Corp, home: Option<Home>) -> Result<(), Refusal>
    ensures fault { IfErr result (λ fault. fault ≡ Refusal.OutOfMemory) }
    ensures takes { OnOk result (Takes (places_at corp home) desk.old desk.new) }
{
    match home {
        Some(home) => desk.push(Entry::Station {
            corp,
            hex: home.hex,
            centre: home.centre,
        }),
        None => Ok(()),
    }
}

// Whether the corporation has a token on the board.
fn has_token(position: &Position, corp: Corp) -> bool
    ensures { (book : Book) → IsPositionOf book position.now → result ≡ has_token (stations book) corp }
{
    is_among(position.layout().stations(), corp)
}

fn is_among(stations: &[Station], corp: Corp) -> bool
    ensures { result ≡ has_token stations.now corp }
{
    stations.iter().any(|station| station.corp == corp)
}

// The city at which the corporation begins.
fn home_of(homes: &[Home], corp: Corp) -> Option<Home>
    ensures { result ≡ find (is_home_of corp) homes.now }
{
    homes.iter().copied().find(|home| home.corp == corp)
}
