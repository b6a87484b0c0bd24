//! The steps of a walk: a link gone over from one end to the other.
ghost use Rattle.std.specs.Prelude.{◌≡◌, None, IfOk};
ghost use Rattle.std.specs.List.{fold};
ghost use Rattle.rr_network.specs.Indexes.{FindsKinds, first_kind};
ghost use Rattle.rr_network.specs.Walk.{backward, forward, has_token, is_filled, is_other_at, is_terminal, kind_at, kind_stops, may_follow, node_of, passes, steps_of, token_at};

use crate::key::centre_key;
use crate::network::Stop;
use crate::node::{CentreAt, Link, Node, same_centre, same_node};
use rr_desk::layout::Station;
use rr_roster::Corp;
use rr_routes::reachability::Index;
use rr_tiles::Kind;
use rr_words::HexName;
use std::alloc::{AllocError, Global};

/// A link, gone over from one end to the other.
#[derive(Clone, Copy, Debug)]
pub struct Step {
    /// The link's number, from 1.
    pub number: usize,
    pub hex: HexName,
    pub from: Node,
    pub to: Node,
}

// Each link in both directions.
pub(crate) fn steps_of(alloc: Global, links: &[Link]) -> Result<Vec<Step>, AllocError>
    ensures { IfOk result (λ steps. steps.items ≡ steps_of links.now) }
{
    let mut steps = Vec::with_capacity(alloc, 2 * links.len())?;
    for (i, link) in links.iter().enumerate() {
        steps.push(forward(i + 1, link))?;
        steps.push(backward(i + 1, link))?;
    }
    Ok(steps)
}

fn forward(number: usize, link: &Link) -> Step
    ensures { result ≡ forward number link.now }
{
    Step {
        number,
        hex: link.hex,
        from: Node::Hexside(link.side),
        to: link.end,
    }
}

fn backward(number: usize, link: &Link) -> Step
    ensures { result ≡ backward number link.now }
{
    Step {
        number,
        hex: link.hex,
        from: link.end,
        to: Node::Hexside(link.side),
    }
}

// Whether a walk may go on by the second step from the first, if its node isn't terminal.
pub(crate) fn may_follow(step: &Step, next: &Step) -> bool
    ensures { result ≡ may_follow step.now next.now }
{
    same_node(&step.to, &next.from) && passes(step, next)
}

fn passes(step: &Step, next: &Step) -> bool
    ensures { result ≡ passes step.now next.now }
{
    match step.to {
        Node::Hexside(_) => step.hex != next.hex,
        Node::Centre(_) => step.number != next.number,
    }
}

pub(crate) fn has_token(stations: &[Station], corp: Corp, node: &Node) -> bool
    ensures { result ≡ has_token stations.now corp node.now }
{
    stations.iter().any(|station| token_at(corp, node, station))
}

fn token_at(corp: Corp, node: &Node, station: &Station) -> bool
    ensures { result ≡ token_at corp node.now station.now }
{
    station.corp == corp && same_node(node, &node_of(station))
}

/// Where a token stands.
pub fn node_of(station: &Station) -> Node
    ensures { result ≡ node_of station.now }
{
    Node::Centre(CentreAt {
        hex: station.hex,
        number: station.centre as usize,
    })
}

// The places of the stops, by their centres.
pub(crate) fn index_of_stops(alloc: Global, stops: &[Stop]) -> Result<Index, AllocError>
    ensures { IfOk result (λ index. FindsKinds stops.now index) }
{
    let mut index = Index::with_rows(alloc, stops.len())?;
    for (place, stop) in stops.iter().enumerate() {
        index.note(centre_key(&stop.at), place)?;
    }
    Ok(index)
}

// Whether no walk of a corporation goes on from a node.
pub(crate) fn is_terminal(
    stops: &[Stop],
    index: &Index,
    stations: &[Station],
    corp: Corp,
    node: &Node,
) -> bool
    requires { FindsKinds stops.now index.now }
    ensures { result ≡ is_terminal stops.now stations.now corp node.now }
{
    match node {
        Node::Hexside(_) => false,
        Node::Centre(at) => match kind_at(stops, index, at) {
            Some(kind) => kind_stops(stations, corp, node, kind),
            None => false,
        },
    }
}

fn kind_at(stops: &[Stop], index: &Index, at: &CentreAt) -> Option<Kind>
    requires { FindsKinds stops.now index.now }
    ensures { result ≡ kind_at stops.now at.now }
{
    kind_among(stops, index.noted_at(centre_key(at)), at)
}

fn kind_among(stops: &[Stop], places: &[usize], at: &CentreAt) -> Option<Kind>
    ensures { result ≡ fold (first_kind stops.now at.now) None places.now }
{
    let mut found = None;
    for place in places {
        found = first_kind(stops, at, found, *place);
    }
    found
}

fn first_kind(stops: &[Stop], at: &CentreAt, found: Option<Kind>, place: usize) -> Option<Kind>
    ensures { result ≡ first_kind stops.now at.now found place }
{
    if found.is_some() {
        return found;
    }
    let stop = stops.get(place)?;
    if same_centre(&stop.at, at) {
        return Some(stop.kind);
    }
    None
}

fn kind_stops(stations: &[Station], corp: Corp, node: &Node, kind: Kind) -> bool
    ensures { result ≡ kind_stops stations.now corp node.now kind }
{
    match kind {
        Kind::Town => false,
        Kind::City { slots } => is_filled(stations, corp, node, slots),
        Kind::OffBoard { .. } => true,
    }
}

fn is_filled(stations: &[Station], corp: Corp, node: &Node, slots: u8) -> bool
    ensures { result ≡ is_filled stations.now corp node.now slots }
{
    let others = stations
        .iter()
        .filter(|station| is_other_at(corp, node, station))
        .count();
    slots as usize <= others
}

fn is_other_at(corp: Corp, node: &Node, station: &Station) -> bool
    ensures { result ≡ is_other_at corp node.now station.now }
{
    station.corp != corp && same_node(node, &node_of(station))
}
