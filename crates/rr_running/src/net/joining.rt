//! The links of a net: hexes, hexsides and centres are named by places, so that links join where they did.
ghost use Rattle.std.specs.Prelude.{◌≡◌, ◌++◌, find, map, IfOk, OnOk};
ghost use Rattle.rr_kit.specs.Board.Plan.{has_name};
ghost use Rattle.rr_running.specs.Net.Indexing.{AreIndicesOf, IsIndexOf, hex_key, passes_at, stop_key};
ghost use Rattle.rr_running.specs.Net.Joining.{centre_place, hex_place, is_stop_at, node_of, placed_link, side_place, sides_in, sides_of};
ghost use Rattle.rr_network.specs.Keys.{hexside_key};
ghost use Rattle.rr_network.specs.Node.{same_hexside};

use crate::net::indexing::{Indices, indices_of};
use rr_kit::board::Hex;
use rr_network::{CentreAt, Hexside, Link, Network, Node, Stop, centre_key, hexside_key, name_key};
use rr_routes::reachability::Index;
use rr_routes::{Link as PlacedLink, Node as PlacedNode};
use rr_words::HexName;
use std::alloc::{AllocError, Global};

// The links in order, each with places in place of names.
pub(crate) fn placed_links(
    alloc: Global,
    hexes: &[Hex],
    network: &Network,
) -> Result<Vec<PlacedLink>, AllocError>
    ensures { IfOk result (λ links. links.items ≡ map (placed_link hexes.now (sides_in network.now.links) network.now.stops) network.now.links) }
{
    let sides = sides_in(alloc, network.links())?;
    let indices = indices_of(alloc, hexes, sides.as_slice(), network.stops())?;
    let links = links_by(alloc, hexes, sides.as_slice(), network, &indices)?;
    Ok(links)
}

fn links_by(
    alloc: Global,
    hexes: &[Hex],
    sides: &[Hexside],
    network: &Network,
    indices: &Indices,
) -> Result<Vec<PlacedLink>, AllocError>
    requires { AreIndicesOf hexes.now sides.now network.now.stops indices.now }
    ensures { IfOk result (λ links. links.items ≡ map (placed_link hexes.now sides.now network.now.stops) network.now.links) }
{
    let stops = network.stops();
    network
        .links()
        .iter()
        .map(|link| placed_link(hexes, sides, stops, indices, link))
        .collect(alloc)
}

// The hexsides at the ends of links, one for each end.
fn sides_in(alloc: Global, links: &[Link]) -> Result<Vec<Hexside>, AllocError>
    ensures { IfOk result (λ sides. sides.items ≡ sides_in links.now) }
{
    let mut sides = Vec::new(alloc);
    for link in links {
        add_sides(&mut sides, link)?;
    }
    Ok(sides)
}

fn add_sides(sides: &mut Vec<Hexside>, link: &Link) -> Result<(), AllocError>
    ensures { OnOk result (sides.new.items ≡ sides.old.items ++ sides_of link.now) }
{
    sides.push(link.side)?;
    match link.end {
        Node::Hexside(side) => {
            sides.push(side)?;
            Ok(())
        }
        Node::Centre(_) => Ok(()),
    }
}

fn placed_link(
    hexes: &[Hex],
    sides: &[Hexside],
    stops: &[Stop],
    indices: &Indices,
    link: &Link,
) -> PlacedLink
    requires { AreIndicesOf hexes.now sides.now stops.now indices.now }
    ensures { result ≡ placed_link hexes.now sides.now stops.now link.now }
{
    PlacedLink {
        hex: hex_place(hexes, &indices.hexes, &link.hex),
        side: side_place(sides, &indices.sides, &link.side),
        other: node_of(sides, stops, indices, &link.end),
    }
}

fn node_of(sides: &[Hexside], stops: &[Stop], indices: &Indices, node: &Node) -> PlacedNode
    requires sides { IsIndexOf (map hexside_key sides.now) indices.now.sides }
    requires stops { IsIndexOf (map stop_key stops.now) indices.now.stops }
    ensures { result ≡ node_of sides.now stops.now node.now }
{
    match node {
        Node::Hexside(side) => PlacedNode::Hexside(side_place(sides, &indices.sides, side)),
        Node::Centre(at) => PlacedNode::Centre(centre_place(stops, &indices.stops, at)),
    }
}

fn hex_place(hexes: &[Hex], index: &Index, name: &HexName) -> usize
    requires { IsIndexOf (map hex_key hexes.now) index.now }
    ensures { result ≡ hex_place hexes.now name.now }
{
    first_hex(hexes, index.noted_at(name_key(name)), name).unwrap_or(hexes.len())
}

// The first of the places at which the hex of that name stands.
fn first_hex(hexes: &[Hex], places: &[usize], name: &HexName) -> Option<usize>
    ensures { result ≡ find (passes_at (has_name name.now) hexes.now) places.now }
{
    places
        .iter()
        .copied()
        .find(|place| is_hex_at(hexes, name, *place))
}

fn is_hex_at(hexes: &[Hex], name: &HexName, place: usize) -> bool
    ensures { result ≡ passes_at (has_name name.now) hexes.now place }
{
    match hexes.get(place) {
        Some(hex) => hex.name == *name,
        None => false,
    }
}

fn side_place(sides: &[Hexside], index: &Index, side: &Hexside) -> usize
    requires { IsIndexOf (map hexside_key sides.now) index.now }
    ensures { result ≡ side_place sides.now side.now }
{
    first_side(sides, index.noted_at(hexside_key(side)), side).unwrap_or(sides.len())
}

fn first_side(sides: &[Hexside], places: &[usize], side: &Hexside) -> Option<usize>
    ensures { result ≡ find (passes_at (same_hexside side.now) sides.now) places.now }
{
    places
        .iter()
        .copied()
        .find(|place| is_side_at(sides, side, *place))
}

fn is_side_at(sides: &[Hexside], side: &Hexside, place: usize) -> bool
    ensures { result ≡ passes_at (same_hexside side.now) sides.now place }
{
    match sides.get(place) {
        Some(other) => same_hexside(side, other),
        None => false,
    }
}

fn same_hexside(side: &Hexside, other: &Hexside) -> bool
    ensures { result ≡ same_hexside side.now other.now }
{
    side.at.q == other.at.q && side.at.r == other.at.r && side.edge == other.edge
}

fn centre_place(stops: &[Stop], index: &Index, at: &CentreAt) -> usize
    requires { IsIndexOf (map stop_key stops.now) index.now }
    ensures { result ≡ centre_place stops.now at.now }
{
    first_stop(stops, index.noted_at(centre_key(at)), at).unwrap_or(stops.len())
}

fn first_stop(stops: &[Stop], places: &[usize], at: &CentreAt) -> Option<usize>
    ensures { result ≡ find (passes_at (is_stop_at at.now) stops.now) places.now }
{
    places
        .iter()
        .copied()
        .find(|place| is_stop_at(stops, at, *place))
}

fn is_stop_at(stops: &[Stop], at: &CentreAt, place: usize) -> bool
    ensures { result ≡ passes_at (is_stop_at at.now) stops.now place }
{
    match stops.get(place) {
        Some(stop) => stop.at.hex == at.hex && stop.at.number == at.number,
        None => false,
    }
}
