//! The links that the corporation reaches, each gone over from either end.
use rr_checker::{CentreLimit, Fate, Net, Node, value};
use rr_routes::reachability::{Followers, Index, is_marked, reached};
use smallvec::SmallVec;
use std::alloc::{AllocError, Global};
use std::mem;

// What is found, or that memory was wanting: nothing else can fail here.
pub(crate) type Result<T> = std::result::Result<T, AllocError>;

// A link, gone over from one end to the other.
#[derive(Drop)]
struct Leg {
    // The link's place in the net.
    place: usize,
    hex: usize,
    from: Node,
    to: Node,
}

// A centre.
#[derive(Drop)]
pub(crate) struct Stop {
    // Its place among the centres of the net.
    centre: usize,
    // What it is worth.
    pub(crate) worth: u64,
    // Whether the corporation has a token there.
    pub(crate) has_token: bool,
    // Whether a walk ends there.
    pub(crate) is_terminal: bool,
}

// A track, gone over from one end to the other: the ends of it, as walks meet them.
#[derive(Drop)]
pub(crate) struct Way {
    // The link's place in the net.
    place: usize,
    // Whether it begins at a hexside.
    pub(crate) is_from_side: bool,
    // The other tracks that touch the node where it begins.
    pub(crate) others: SmallVec<usize, 4>,
    // The node where it ends, named by the first way that ends there.
    pub(crate) node: usize,
    // The stop where it ends.
    pub(crate) stop: Option<usize>,
}

// The links that matter, and how walks go on over them.
#[derive(Drop)]
pub(crate) struct Tracks {
    // Where what is found about them is kept.
    pub(crate) alloc: Global,
    // Which links of the net they are.
    pub(crate) reached: Vec<bool>,
    // Two for each track.
    pub(crate) ways: Vec<Way>,
    // For each way those that may follow it.
    pub(crate) graph: Vec<Followers>,
    // The ways that begin at a token.
    pub(crate) starts: Vec<usize>,
    // The centres, the greatest value first.
    pub(crate) stops: Vec<Stop>,
    // What the trains count at most.
    pub(crate) limits: Vec<CentreLimit>,
}

impl Tracks {
    // How many tracks there are.
    pub(crate) fn count(&self) -> usize {
        self.ways.len() / 2
    }

    // The link's place in the net.
    pub(crate) fn place_of(&self, track: usize) -> usize {
        match self.ways.get(track.saturating_mul(2)) {
            Some(way) => way.place,
            None => 0,
        }
    }

    // The node where the way ends.
    pub(crate) fn ending(&self, way: usize) -> usize {
        match self.ways.get(way) {
            Some(way) => way.node,
            None => 0,
        }
    }

    // The node where the way begins: there the same track's other way ends.
    pub(crate) fn beginning(&self, way: usize) -> usize {
        self.ending(way ^ 1)
    }

    // The hexside where the way ends.
    pub(crate) fn side_at(&self, way: usize) -> Option<usize> {
        match self.ways.get(way) {
            Some(way) if way.stop.is_none() => Some(way.node),
            Some(_) | None => None,
        }
    }

    // The centre where the way ends.
    pub(crate) fn stop_at(&self, way: usize) -> Option<&Stop> {
        let stop = self.ways.get(way)?.stop?;
        self.stops.get(stop)
    }
}

// The tracks that the corporation reaches.
pub(crate) fn reached_tracks(alloc: Global, net: &Net) -> Result<Tracks> {
    let reached = reached_links(alloc, net)?;
    let legs = legs_over(alloc, net, &reached)?;
    let departures = departures_of(alloc, &legs)?;
    let stops = stops_of(alloc, net, &legs, &departures)?;
    let ways = ways_of(alloc, net, &legs, &departures, &stops)?;
    let graph = graph_of(alloc, net, &legs, &departures)?;
    let starts = starts_of(alloc, net, &legs)?;
    let limits = Vec::from_slice(alloc, net.trains())?;
    Ok(Tracks {
        alloc,
        reached,
        ways,
        graph,
        starts,
        stops,
        limits,
    })
}

// Which links a walk from a token goes over.
fn reached_links(alloc: Global, net: &Net) -> Result<Vec<bool>> {
    let all = vec![in alloc; true; net.links().len()]?;
    let legs = legs_over(alloc, net, &all)?;
    let departures = departures_of(alloc, &legs)?;
    let graph = graph_of(alloc, net, &legs, &departures)?;
    let starts = starts_of(alloc, net, &legs)?;
    let ways = reached(alloc, &graph, &starts)?;
    let mut marks = Vec::new(alloc);
    for track in 0..all.len() {
        marks.push(goes_over(&ways, track))?;
    }
    Ok(marks)
}

// Both ways over each of the marked links.
fn legs_over(alloc: Global, net: &Net, marks: &[bool]) -> Result<Vec<Leg>> {
    let mut legs = Vec::new(alloc);
    for (place, link) in net.links().iter().enumerate() {
        if is_marked(marks, place) {
            let hex = link.hex;
            let side = Node::Hexside(link.side);
            let other = link.other;
            legs.push(Leg {
                place,
                hex,
                from: side,
                to: other,
            })?;
            legs.push(Leg {
                place,
                hex,
                from: other,
                to: side,
            })?;
        }
    }
    Ok(legs)
}

// Marks the place or takes its mark away, and tells whether that changed anything.
pub(crate) fn set_mark(marks: &mut Vec<bool>, place: usize, mark: bool) -> bool {
    match marks.get_mut(place) {
        Some(old) => mem::replace(old, mark) != mark,
        None => false,
    }
}

// Whether one of the track's two ways is marked.
pub(crate) fn goes_over(ways: &[bool], track: usize) -> bool {
    let first = track.saturating_mul(2);
    is_marked(ways, first) || is_marked(ways, first.saturating_add(1))
}

// The legs by the nodes where they begin.
fn departures_of(alloc: Global, legs: &[Leg]) -> Result<Index> {
    let mut departures = Index::with_rows(alloc, legs.len())?;
    for (place, leg) in legs.iter().enumerate() {
        departures.note(key_of(leg.from), place)?;
    }
    Ok(departures)
}

// Hexsides and centres are numbered apart.
fn key_of(node: Node) -> usize {
    match node {
        Node::Hexside(side) => side.wrapping_mul(2),
        Node::Centre(centre) => centre.wrapping_mul(2).wrapping_add(1),
    }
}

fn graph_of(alloc: Global, net: &Net, legs: &[Leg], departures: &Index) -> Result<Vec<Followers>> {
    let mut graph = Vec::new(alloc);
    for leg in legs {
        let followers = followers_of(alloc, net, legs, departures, leg)?;
        graph.push(followers)?;
    }
    Ok(graph)
}

fn followers_of(
    alloc: Global,
    net: &Net,
    legs: &[Leg],
    departures: &Index,
    leg: &Leg,
) -> Result<Followers> {
    let mut followers = Followers::new(alloc);
    if is_one_of(net.terminals(), leg.to) {
        return Ok(followers);
    }
    for place in departures.noted_at(key_of(leg.to)) {
        if let Some(next) = legs.get(*place) {
            if may_follow(leg, next) {
                followers.push(*place)?;
            }
        }
    }
    Ok(followers)
}

// A walk passes a hexside from one hex into the other, and any node to another link.
fn may_follow(leg: &Leg, next: &Leg) -> bool {
    leg.to == next.from && leg.place != next.place && (is_centre(leg.to) || leg.hex != next.hex)
}

fn is_centre(node: Node) -> bool {
    matches!(node, Node::Centre(_))
}

fn is_one_of(centres: &[usize], node: Node) -> bool {
    matches!(node, Node::Centre(centre) if centres.contains(&centre))
}

fn starts_of(alloc: Global, net: &Net, legs: &[Leg]) -> Result<Vec<usize>> {
    let mut starts = Vec::new(alloc);
    for (place, leg) in legs.iter().enumerate() {
        if is_one_of(net.tokens(), leg.from) {
            starts.push(place)?;
        }
    }
    Ok(starts)
}

// The centres that have a token or where ways end, the greatest value first.
fn stops_of(alloc: Global, net: &Net, legs: &[Leg], departures: &Index) -> Result<Vec<Stop>> {
    let mut stops = Vec::new(alloc);
    for centre in 0..net.values().len() {
        let has_token = net.tokens().contains(&centre);
        if has_token || first_to(legs, departures, Node::Centre(centre)).is_some() {
            stops.push(Stop {
                centre,
                worth: value(net, centre) as u64,
                has_token,
                is_terminal: net.terminals().contains(&centre),
            })?;
        }
    }
    stops.sort_by_key(|stop| u64::MAX.saturating_sub(stop.worth))?;
    Ok(stops)
}

// The first leg that ends at the node: the other one over a link begins there.
fn first_to(legs: &[Leg], departures: &Index, node: Node) -> Option<usize> {
    for place in departures.noted_at(key_of(node)) {
        if let Some(leg) = legs.get(*place) {
            if leg.from == node {
                return Some(*place ^ 1);
            }
        }
    }
    None
}

fn ways_of(
    alloc: Global,
    net: &Net,
    legs: &[Leg],
    departures: &Index,
    stops: &[Stop],
) -> Result<Vec<Way>> {
    let places = places_of(alloc, net, stops)?;
    let mut ways = Vec::new(alloc);
    for leg in legs {
        let others = others_at(alloc, legs, departures, leg)?;
        ways.push(Way {
            place: leg.place,
            is_from_side: !is_centre(leg.from),
            others,
            node: first_to(legs, departures, leg.to).unwrap_or(0),
            stop: place_at(&places, leg.to),
        })?;
    }
    Ok(ways)
}

// The other tracks that touch the node where the way begins.
fn others_at(
    alloc: Global,
    legs: &[Leg],
    departures: &Index,
    leg: &Leg,
) -> Result<SmallVec<usize, 4>> {
    let mut others = SmallVec::new(alloc);
    for way in departures.noted_at(key_of(leg.from)) {
        if let Some(other) = legs.get(*way) {
            if other.place != leg.place && other.from == leg.from {
                others.push(*way / 2)?;
            }
        }
    }
    Ok(others)
}

// For each centre of the net its place among the stops.
fn places_of(alloc: Global, net: &Net, stops: &[Stop]) -> Result<Vec<Option<usize>>> {
    let mut places = vec![in alloc; None; net.values().len()]?;
    for (place, stop) in stops.iter().enumerate() {
        if let Some(old) = places.get_mut(stop.centre) {
            *old = Some(place);
        }
    }
    Ok(places)
}

fn place_at(places: &[Option<usize>], node: Node) -> Option<usize> {
    match node {
        Node::Centre(centre) => *places.get(centre)?,
        Node::Hexside(_) => None,
    }
}

// Whether the train may run over the track.
pub(crate) fn may_use(fates: &[Fate], train: usize, track: usize) -> bool {
    match fates.get(track) {
        Some(Fate::Open) => true,
        Some(Fate::Of(owner)) => *owner == train,
        Some(Fate::Denied) | None => false,
    }
}

// Whether a train of the limit counts no more than so many.
pub(crate) fn has_counted(limit: &CentreLimit, counted: usize) -> bool {
    matches!(limit, CentreLimit::AtMost(most) if *most <= counted)
}
