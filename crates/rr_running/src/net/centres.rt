//! The centres of a net: those with a token of the corporation, those where its routes end, and what each is worth.
ghost use Rattle.std.specs.Prelude.{◌≡◌, ℕ, ◌≤◌, All, map, slice_index, IfOk};
ghost use Rattle.rr_running.specs.Net.Centres.{ends_routes, has_own_token, is_late, places, stands_at, value_in};
ghost use Rattle.rr_network.specs.Stops.{IsStop};
ghost use Rattle.rr_network.specs.Walk.{has_token, is_filled, is_other_at, token_at};
ghost use Rattle.rr_network.specs.declared.node.Node.TheVariants as N;

use rr_desk::layout::Station;
use rr_network::{CentreAt, Stop};
use rr_roster::{Corp, Kind as TrainKind};
use rr_tiles::Kind;
use std::alloc::{AllocError, Global};

// The places of the centres that have a token of the corporation.
pub(crate) fn token_places(
    alloc: Global,
    stops: &[Stop],
    stations: &[Station],
    corp: Corp,
) -> Result<Vec<usize>, AllocError>
    ensures { IfOk result (λ found. found.items ≡ places (has_own_token stations.now corp) stops.now) }
{
    let mut places = Vec::new(alloc);
    for (place, stop) in stops.iter().enumerate() {
        if !has_token(stations, corp, &stop.at) {
            continue;
        }
        places.push(place)?;
    }
    Ok(places)
}

// The places of the centres that none of its routes passes.
pub(crate) fn terminal_places(
    alloc: Global,
    stops: &[Stop],
    stations: &[Station],
    corp: Corp,
) -> Result<Vec<usize>, AllocError>
    ensures { IfOk result (λ found. found.items ≡ places (ends_routes stations.now corp) stops.now) }
{
    let mut places = Vec::new(alloc);
    for (place, stop) in stops.iter().enumerate() {
        if !ends_routes(stations, corp, stop) {
            continue;
        }
        places.push(place)?;
    }
    Ok(places)
}

fn has_token(stations: &[Station], corp: Corp, at: &CentreAt) -> bool
    ensures { result ≡ has_token stations.now corp (N.Centre at.now) }
{
    stations.iter().any(|station| is_own_at(corp, at, station))
}

fn is_own_at(corp: Corp, at: &CentreAt, station: &Station) -> bool
    ensures { result ≡ token_at corp (N.Centre at.now) station.now }
{
    station.corp == corp && stands_at(station, at)
}

fn stands_at(station: &Station, at: &CentreAt) -> bool
    ensures { result ≡ stands_at station.now at.now }
{
    at.hex == station.hex && at.number == station.centre as usize
}

fn ends_routes(stations: &[Station], corp: Corp, stop: &Stop) -> bool
    ensures { result ≡ ends_routes stations.now corp stop.now }
{
    match stop.kind {
        Kind::Town => false,
        Kind::City { slots } => is_filled(stations, corp, &stop.at, slots),
        Kind::OffBoard { .. } => true,
    }
}

// Whether the tokens of others take all slots.
fn is_filled(stations: &[Station], corp: Corp, at: &CentreAt, slots: u8) -> bool
    ensures { result ≡ is_filled stations.now corp (N.Centre at.now) slots }
{
    let others = stations
        .iter()
        .filter(|station| is_other_at(corp, at, station))
        .count();
    slots as usize <= others
}

fn is_other_at(corp: Corp, at: &CentreAt, station: &Station) -> bool
    ensures { result ≡ is_other_at corp (N.Centre at.now) station.now }
{
    station.corp != corp && stands_at(station, at)
}

// What each centre is worth in the phase.
pub(crate) fn values_in(
    alloc: Global,
    phase: TrainKind,
    stops: &[Stop],
) -> Result<Vec<u32>, AllocError>
    requires { All IsStop stops.now }
    ensures values { IfOk result (λ values. values.items ≡ map (value_in phase) stops.now) }
    ensures modest { IfOk result (λ values. (centre : ℕ) → slice_index values.items centre ≤ 990) }
{
    let mut values = Vec::new(alloc);
    for stop in stops {
        values.push(u32::from(value_in(phase, stop)))?;
    }
    Ok(values)
}

fn value_in(phase: TrainKind, stop: &Stop) -> u16
    ensures { result ≡ value_in phase stop.now }
{
    match stop.kind {
        Kind::OffBoard { later_value } if is_late(phase) => later_value,
        _ => stop.value,
    }
}

// Whether the phase is that of a 5 or of a later train.
fn is_late(phase: TrainKind) -> bool
    ensures { result ≡ is_late phase }
{
    match phase {
        TrainKind::Two | TrainKind::Three | TrainKind::Four => false,
        TrainKind::Five | TrainKind::Six | TrainKind::Diesel => true,
    }
}
