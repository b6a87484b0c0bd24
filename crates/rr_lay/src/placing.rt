//! Placing a token.
ghost use Rattle.std.specs.Prelude.{◌≡◌, None, Some, MatchResult, IfErr, IfOk, OnOk, ◌⊎◌, ◌↔◌, IsTrue};
ghost use Rattle.rr_roster.specs.Terms.{tokens_of};
ghost use Rattle.rr_books.specs.Book.{Book};
ghost use Rattle.rr_desk.specs.Layout.Layout.{stations};
ghost use Rattle.rr_network.specs.Network.{net_of};
ghost use Rattle.rr_network.specs.Walk.{ReachesNode, node_of};
ghost use Rattle.rr_desk.specs.Position.Position.{IsPositionOf};
ghost use Rattle.rr_desk.specs.Desk.{Takes};
ghost use Rattle.rr_lay.specs.Costs.{puts};
ghost use Rattle.rr_lay.specs.Position.{position_in, position_of};
ghost use Rattle.rr_lay.specs.Placing.{IsStationVerdict, IsVerdictOn, city_verdict, first_station_verdict, placed_by, slot_verdict, places_token, token_cost, token_verdict};
ghost use Rattle.rr_books.specs.declared.refusal.Refusal.TheVariants as B;

use crate::costs::{judge_cost, pay_cost};
use crate::slots::{city_slots, has_own_at, is_full, placed_by, token_cost};
use rr_books::{Act, Entry, Marker, Refusal};
use rr_desk::layout::{Layout, Station};
use rr_desk::{Desk, Position};
use rr_kit::Kit;
use rr_kit::board::Hex;
use rr_network::{Network, Reach, node_of};
use rr_roster::Corp;
use std::alloc::{AllocError, Global};

/// Judges placing a corporation's token in a city.
///
/// # Errors
///
/// The first that comes of these: `NoSuchName` for a hex that there isn't; `NoTokenLeft` where the corporation has
/// placed all its tokens; `NoSlot` where the centre is no city, each of its slots is filled, or kept for a
/// corporation whose home it is and that has no token anywhere yet, or the corporation has a token there;
/// `NotReached` where it doesn't reach the city; `TooLittleCash` for the cost. `OutOfMemory` where neither of the
/// first two comes.
pub fn judge_station(
    alloc: Global,
    kit: &Kit,
    position: &Position,
    station: &Station,
) -> Result<(), Refusal>
    ensures { (book : Book) → IsPositionOf book position.now → MatchResult result
        (λ _. IsStationVerdict kit.now.board kit.now.tiles (tokens_of kit.now.roster station.now.corp) (position_of book) station.now None)
        (λ fault. ((fault ≡ Refusal.OutOfMemory) × (first_station_verdict kit.now.board (tokens_of kit.now.roster station.now.corp) (position_of book) station.now ≡ None)) ⊎ IsStationVerdict kit.now.board kit.now.tiles (tokens_of kit.now.roster station.now.corp) (position_of book) station.now (Some fault)) }
{
    judge(alloc, kit, position, station)
}

/// Places a corporation's token in a city, for which it pays the bank: nothing for its first token, by a payment
/// of 0, 40 dollars for the second and 100 for each later one. The command's words, the payment, the token.
///
/// # Errors
///
/// `OutOfMemory`, also where `rr_desk::layout::MOST_STATIONS` tokens were placed already; the desk may have some of the
/// entries then.
pub fn play_station(desk: &mut Desk, station: &Station) -> Result<(), Refusal>
    ensures fault { IfErr result (λ fault. fault ≡ B.OutOfMemory) }
    ensures takes { OnOk result (Takes (places_token station.now) desk.old desk.new) }
{
    let cost = cost_of(desk.position(), station.corp);
    put(desk, station, cost)
}

// What the corporation's next token costs.
fn cost_of(position: &Position, corp: Corp) -> u16
    ensures shown { result ≡ token_cost (placed_by position.now.layout.stations corp) }
    ensures book { (book : Book) → IsPositionOf book position.now → result ≡ token_cost (placed_by (stations book) corp) }
{
    let placed = placed_by(position.layout().stations(), corp);
    token_cost(placed)
}

// Adds the words, the payment and the token.
#[tactic(auto, unfolding(crate::specs::Costs::puts))]
fn put(desk: &mut Desk, station: &Station, cost: u16) -> Result<(), Refusal>
    ensures fault { IfErr result (λ fault. fault ≡ B.OutOfMemory) }
    ensures takes { OnOk result (Takes (puts (Act.Station station.now.corp station.now.hex station.now.centre) station.now.corp (Some cost) (Entry.Station station.now.corp station.now.hex station.now.centre)) desk.old desk.new) }
{
    desk.push(Entry::Step(Marker::Act(Act::Station {
        corp: station.corp,
        hex: station.hex,
        centre: station.centre,
    })))?;
    pay_cost(desk, station.corp, Some(cost))?;
    desk.push(Entry::Station {
        corp: station.corp,
        hex: station.hex,
        centre: station.centre,
    })?;
    Ok(())
}

fn judge(alloc: Global, kit: &Kit, position: &Position, station: &Station) -> Result<(), Refusal>
    ensures { MatchResult result
        (λ _. IsStationVerdict kit.now.board kit.now.tiles (tokens_of kit.now.roster station.now.corp) (position_in position.now.books position.now.layout) station.now None)
        (λ fault. ((fault ≡ Refusal.OutOfMemory) × (first_station_verdict kit.now.board (tokens_of kit.now.roster station.now.corp) (position_in position.now.books position.now.layout) station.now ≡ None)) ⊎ IsStationVerdict kit.now.board kit.now.tiles (tokens_of kit.now.roster station.now.corp) (position_in position.now.books position.now.layout) station.now (Some fault)) }
{
    let Some(hex) = kit.board().hex(station.hex.as_bytes()) else {
        return Err(Refusal::NoSuchName);
    };
    judge_on(alloc, kit, position, station, hex)?;
    Ok(())
}

fn judge_on(
    alloc: Global,
    kit: &Kit,
    position: &Position,
    station: &Station,
    hex: &Hex,
) -> Result<(), Refusal>
    ensures { MatchResult result
        (λ _. IsVerdictOn kit.now.board kit.now.tiles (tokens_of kit.now.roster station.now.corp) (position_in position.now.books position.now.layout) station.now hex.now None)
        (λ fault. ((fault ≡ Refusal.OutOfMemory) × (token_verdict (tokens_of kit.now.roster station.now.corp) position.now.layout.stations station.now.corp ≡ None)) ⊎ IsVerdictOn kit.now.board kit.now.tiles (tokens_of kit.now.roster station.now.corp) (position_in position.now.books position.now.layout) station.now hex.now (Some fault)) }
{
    judge_slot(alloc, kit, position.layout(), station, hex)?;
    if !is_reached(alloc, kit, position.layout(), station)? {
        return Err(Refusal::NotReached);
    }
    let cost = cost_of(position, station.corp);
    judge_cost(position.books(), station.corp, Some(cost))?;
    Ok(())
}

// Whether a token is left, and the city takes it.
fn judge_slot(
    alloc: Global,
    kit: &Kit,
    layout: &Layout,
    station: &Station,
    hex: &Hex,
) -> Result<(), Refusal>
    ensures verdict { MatchResult result
        (λ _. slot_verdict kit.now.board kit.now.tiles (tokens_of kit.now.roster station.now.corp) layout.now hex.now station.now ≡ None)
        (λ fault. ((fault ≡ Refusal.OutOfMemory) × (token_verdict (tokens_of kit.now.roster station.now.corp) layout.now.stations station.now.corp ≡ None)) ⊎ (slot_verdict kit.now.board kit.now.tiles (tokens_of kit.now.roster station.now.corp) layout.now hex.now station.now ≡ Some fault)) }
    ensures token { IfOk result (λ _. token_verdict (tokens_of kit.now.roster station.now.corp) layout.now.stations station.now.corp ≡ None) }
{
    let tokens = kit.roster().tokens(station.corp);
    if tokens as usize <= placed_by(layout.stations(), station.corp) {
        return Err(Refusal::NoTokenLeft);
    }
    let slots = city_slots(alloc, kit.tiles(), layout.lays(), hex, station.centre)?;
    judge_city(kit, layout, station, slots)?;
    Ok(())
}

fn judge_city(
    kit: &Kit,
    layout: &Layout,
    station: &Station,
    slots: Option<u8>,
) -> Result<(), Refusal>
    ensures { MatchResult result
        (λ _. city_verdict kit.now.board.homes layout.now.stations station.now slots ≡ None)
        (λ fault. city_verdict kit.now.board.homes layout.now.stations station.now slots ≡ Some fault) }
{
    let Some(slots) = slots else {
        return Err(Refusal::NoSlot);
    };
    let stations = layout.stations();
    let homes = kit.board().homes();
    if is_full(homes, stations, &station.hex, station.centre, slots) {
        return Err(Refusal::NoSlot);
    }
    if has_own_at(stations, station.corp, &station.hex, station.centre) {
        return Err(Refusal::NoSlot);
    }
    Ok(())
}

// Whether the corporation reaches the city.
fn is_reached(
    alloc: Global,
    kit: &Kit,
    layout: &Layout,
    station: &Station,
) -> Result<bool, AllocError>
    ensures { IfOk result (λ answer. IsTrue answer ↔ ReachesNode (net_of kit.now.board kit.now.tiles layout.now) station.now.corp (node_of station.now)) }
{
    let network = Network::of(alloc, kit.board(), kit.tiles(), layout)?;
    let reach = Reach::of(alloc, &network, station.corp)?;
    let node = node_of(station);
    Ok(reach.has_node(&node))
}
