//! Where hexes, hexsides and centres stand in their lists, by keys made of their names: so each is found among few.
ghost use Rattle.std.specs.Prelude.{◌≡◌, map, IfOk};
ghost use Rattle.rr_network.specs.Keys.{hexside_key};
ghost use Rattle.rr_running.specs.Net.Indexing.{AreIndicesOf, IsIndexOf, hex_key, stop_key};

use rr_kit::board::Hex;
use rr_network::{Hexside, Stop, centre_key, hexside_key, name_key};
use rr_routes::reachability::Index;
use std::alloc::{AllocError, Global};

// The places of hexes, hexsides and centres by their keys.
#[derive(Drop)]
pub(crate) struct Indices {
    pub(crate) hexes: Index,
    pub(crate) sides: Index,
    pub(crate) stops: Index,
}

pub(crate) fn indices_of(
    alloc: Global,
    hexes: &[Hex],
    sides: &[Hexside],
    stops: &[Stop],
) -> Result<Indices, AllocError>
    ensures { IfOk result (λ indices. AreIndicesOf hexes.now sides.now stops.now indices) }
{
    let hexes = index_of_hexes(alloc, hexes)?;
    let sides = index_of_sides(alloc, sides)?;
    let stops = index_of_stops(alloc, stops)?;
    Ok(Indices {
        hexes,
        sides,
        stops,
    })
}

fn index_of_hexes(alloc: Global, hexes: &[Hex]) -> Result<Index, AllocError>
    ensures { IfOk result (λ index. IsIndexOf (map hex_key hexes.now) index) }
{
    let keys: Vec<usize> = hexes.iter().map(|hex| name_key(&hex.name)).collect(alloc)?;
    let index = index_of(alloc, keys.as_slice())?;
    Ok(index)
}

fn index_of_sides(alloc: Global, sides: &[Hexside]) -> Result<Index, AllocError>
    ensures { IfOk result (λ index. IsIndexOf (map hexside_key sides.now) index) }
{
    let keys: Vec<usize> = sides.iter().map(|side| hexside_key(side)).collect(alloc)?;
    let index = index_of(alloc, keys.as_slice())?;
    Ok(index)
}

fn index_of_stops(alloc: Global, stops: &[Stop]) -> Result<Index, AllocError>
    ensures { IfOk result (λ index. IsIndexOf (map stop_key stops.now) index) }
{
    let keys: Vec<usize> = stops
        .iter()
        .map(|stop| centre_key(&stop.at))
        .collect(alloc)?;
    let index = index_of(alloc, keys.as_slice())?;
    Ok(index)
}

// Each key's place, noted in order.
fn index_of(alloc: Global, keys: &[usize]) -> Result<Index, AllocError>
    ensures { IfOk result (λ index. IsIndexOf keys.now index) }
{
    let mut index = Index::with_rows(alloc, keys.len())?;
    for (place, key) in keys.iter().enumerate() {
        index.note(*key, place)?;
    }
    Ok(index)
}
