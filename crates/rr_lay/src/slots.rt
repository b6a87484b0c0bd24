//! The tokens on the board and the slots of cities.
ghost use Rattle.std.specs.Prelude.{◌≡◌, count_by, nat_le, IfOk};
ghost use Rattle.std.specs.List.{list_any};
ghost use Rattle.rr_kit.specs.Board.Plan.{is_home_at, slots_at};
ghost use Rattle.rr_network.specs.Network.{face_on};
ghost use Rattle.rr_lay.specs.Placing.{is_kept, is_own_at, is_token_at, is_token_of, placed_by, slots_taken, token_cost};

use rr_desk::layout::{Lay, Station};
use rr_kit::board::{Hex, Home, slots_at};
use rr_network::last_lay;
use rr_roster::Corp;
use rr_tiles::Manifest;
use rr_words::HexName;
use std::alloc::{AllocError, Global};

// How many tokens the corporation has placed.
pub(crate) fn placed_by(stations: &[Station], corp: Corp) -> usize
    ensures { result ≡ placed_by stations.now corp }
{
    stations
        .iter()
        .filter(|station| is_token_of(corp, station))
        .count()
}

fn is_token_of(corp: Corp, station: &Station) -> bool
    ensures { result ≡ is_token_of corp station.now }
{
    station.corp == corp
}

fn has_placed(stations: &[Station], corp: Corp) -> bool
    ensures { result ≡ list_any (is_token_of corp) stations.now }
{
    stations.iter().any(|station| is_token_of(corp, station))
}

// Whether the city's slots are all filled, or kept for corporations that have no token anywhere yet.
#[tactic(auto, unfolding(crate::specs::Placing::slots_taken))]
pub(crate) fn is_full(
    homes: &[Home],
    stations: &[Station],
    hex: &HexName,
    centre: u64,
    slots: u8,
) -> bool
    ensures { result ≡ nat_le slots (slots_taken homes.now stations.now hex.now centre) }
{
    let free = (slots as usize).saturating_sub(tokens_at(stations, hex, centre));
    free <= kept_at(homes, stations, hex, centre)
}

fn tokens_at(stations: &[Station], hex: &HexName, centre: u64) -> usize
    ensures { result ≡ count_by (is_token_at hex.now centre) stations.now }
{
    stations
        .iter()
        .filter(|station| is_token_at(hex, centre, station))
        .count()
}

fn is_token_at(hex: &HexName, centre: u64, station: &Station) -> bool
    ensures { result ≡ is_token_at hex.now centre station.now }
{
    station.hex == *hex && station.centre == centre
}

fn kept_at(homes: &[Home], stations: &[Station], hex: &HexName, centre: u64) -> usize
    ensures { result ≡ count_by (is_kept stations.now hex.now centre) homes.now }
{
    homes
        .iter()
        .filter(|home| is_kept(stations, hex, centre, home))
        .count()
}

fn is_kept(stations: &[Station], hex: &HexName, centre: u64, home: &Home) -> bool
    ensures { result ≡ is_kept stations.now hex.now centre home.now }
{
    is_home_at(hex, centre, home) && !has_placed(stations, home.corp)
}

fn is_home_at(hex: &HexName, centre: u64, home: &Home) -> bool
    ensures { result ≡ is_home_at hex.now centre home.now }
{
    home.hex == *hex && home.centre == centre
}

// Whether one of the corporation's tokens is in the city.
pub(crate) fn has_own_at(stations: &[Station], corp: Corp, hex: &HexName, centre: u64) -> bool
    ensures { result ≡ list_any (is_own_at corp hex.now centre) stations.now }
{
    stations
        .iter()
        .any(|station| is_own_at(corp, hex, centre, station))
}

fn is_own_at(corp: Corp, hex: &HexName, centre: u64, station: &Station) -> bool
    ensures { result ≡ is_own_at corp hex.now centre station.now }
{
    is_token_of(corp, station) && is_token_at(hex, centre, station)
}

// The slots of the centre of what lies on the hex, where it is a city.
pub(crate) fn city_slots(
    alloc: Global,
    tiles: &Manifest,
    lays: &[Lay],
    hex: &Hex,
    centre: u64,
) -> Result<Option<u8>, AllocError>
    ensures { IfOk result (λ slots. slots ≡ slots_at (face_on tiles.now lays.now hex.now).parts centre) }
{
    let Some(lay) = last_lay(lays, &hex.name) else {
        return Ok(slots_at(hex.tile.parts(), centre));
    };
    let Some(tile) = tiles.tile(lay.tile) else {
        return Ok(slots_at(hex.tile.parts(), centre));
    };
    let tile = tile.turned(alloc, lay.turn)?;
    Ok(slots_at(tile.parts(), centre))
}

// What a token costs behind so many of its corporation.
pub(crate) fn token_cost(before: usize) -> u16
    ensures { result ≡ token_cost before }
{
    match before {
        0 => 0,
        1 => 40,
        _ => 100,
    }
}
