//! Where a train goes: the links in order, and the nodes along them.
ghost use Rattle.std.specs.Prelude.{◌≡◌, ◌↔◌, ℕ, ◌+◌, ◌<◌, ◌==◌, ◌&&◌, ◌++◌, [], ◌∷◌, not, nat_lt, Some, IfOk, OnOk, MatchOption, Contains, length, slice_get};
ghost use Rattle.std.specs.Bool.{Decides};
ghost use Rattle.std.specs.List.{list_any};
ghost use Rattle.rr_routes.specs.declared.net.Node.TheVariants.{Centre};
ghost use Rattle.rr_routes.specs.Net.{Touches};
ghost use Rattle.rr_routes.specs.Routes.{EndsAreCentres, NoTerminalInside, NoneTwice, Route, Walk, centres};
ghost use Rattle.rr_checker.specs.Steps.{has_token, is_terminal, same_node};
ghost use Rattle.rr_checker.specs.Index.{IsIndexOf, IsNoted, TouchesAt, is_noted};
ghost use Rattle.rr_checker.specs.Own.{is_over, touches};
ghost use Rattle.rr_checker.specs.Trips.{GoesAt, IsOnlyWay, IsWay, far, far_end, hexes_differ, is_centre, joins, link_joins, node_at, passes_on, stands_at, trip_over};

use crate::index::{is_noted, node_key, noted_at};
use crate::own::{is_over, touches};
use crate::railway::Net;
use crate::step::{has_token, is_terminal, same_node};
use rr_routes::reachability::Index;
use rr_routes::{CentreLimit, Link, Node};
use std::alloc::{AllocError, Global};

/// The links of a train in order, and the nodes along them.
#[derive(Debug, Drop)]
pub struct Journey {
    pub links: Vec<usize>,
    pub nodes: Vec<Node>,
}

// A journey, and its links by their own numbers.
#[derive(Debug, Drop)]
pub(crate) struct Followed {
    pub(crate) journey: Journey,
    pub(crate) taken: Index,
}

// The only way over all the links that begins at the centre, if there is one.
pub(crate) fn follow(
    alloc: Global,
    net: &Net,
    own: &[usize],
    index: &Index,
    start: usize,
) -> Result<Followed, AllocError>
    requires { IsIndexOf (TouchesAt net.now own.now) index.now }
    ensures way { IfOk result (λ f. IsOnlyWay net.now own.now (Centre start) f.journey.links.items f.journey.nodes.items) }
    ensures own { IfOk result (λ f. (link : ℕ) → Contains f.journey.links.items link → Contains own.now link) }
    ensures taken { IfOk result (λ f. (link : ℕ) → IsNoted f.taken link ↔ Contains f.journey.links.items link) }
{
    let mut links = Vec::new(alloc);
    let mut nodes = Vec::new(alloc);
    let mut taken = Index::with_rows(alloc, own.len())?;
    let mut at = Node::Centre(start);
    nodes.push(at)?;
    for turn in 0..own.len() {
        match next_link(net, noted_at(index, &at), &taken, &at) {
            None => {
                let journey = Journey { links, nodes };
                return Ok(Followed { journey, taken });
            }
            Some(link) => {
                at = far_end(net, link, &at);
                taken.note(link, link)?;
                links.push(link)?;
                nodes.push(at)?;
            }
        }
    }
    let journey = Journey { links, nodes };
    Ok(Followed { journey, taken })
}

// The first of the links that touches the node and wasn't taken. Each link that was taken is noted at its own number.
fn next_link(net: &Net, own: &[usize], taken: &Index, at: &Node) -> Option<usize>
    ensures { MatchOption result ((link : ℕ) → Contains own.now link → Touches net.now link at.now → IsNoted taken.now link)
        (λ link. Contains own.now link × (Touches net.now link at.now × (IsNoted taken.now link → ⊥))) }
{
    for link in own {
        if is_next(net, taken, at, *link) {
            return Some(*link);
        }
    }
    None
}

fn is_next(net: &Net, taken: &Index, at: &Node, link: usize) -> bool
    ensures { result ≡ (touches net.now link at.now && not (is_noted taken.now link)) }
{
    touches(net, link, at) && !is_noted(taken, link)
}

/// The node at the other end of the link, for one who comes from the given node; that node where the net has no such
/// link. From a node that the link doesn't touch it gives its hexside.
pub fn far_end(net: &Net, link: usize, at: &Node) -> Node
    ensures { result ≡ far_end (slice_get net.now.links link) at.now }
{
    match net.links().get(link) {
        Some(link) => far(at, link),
        None => *at,
    }
}

fn far(at: &Node, link: &Link) -> Node
    ensures { result ≡ far at.now link.now }
{
    if same_node(at, &Node::Hexside(link.side)) {
        return link.other;
    }
    Node::Hexside(link.side)
}

// Whether the links and nodes are a route of a train of the limit.
pub(crate) fn is_route(
    alloc: Global,
    net: &Net,
    limit: &CentreLimit,
    links: &[usize],
    nodes: &[Node],
) -> Result<bool, AllocError>
    ensures { IfOk result (λ lawful. Decides lawful (Route net.now limit.now (trip_over links.now nodes.now))) }
{
    let counted = centres_of(alloc, nodes)?;
    if counts_over(limit, &counted) {
        return Ok(false);
    }
    is_way(alloc, net, links, nodes)
}

/// Whether these are more centres than a train of the limit counts.
pub fn counts_over(limit: &CentreLimit, counted: &[usize]) -> bool
    ensures { result ≡ is_over limit.now (length counted.now) }
{
    is_over(limit, counted.len())
}

/// The centres among the nodes, in order.
pub fn centres_of(alloc: Global, nodes: &[Node]) -> Result<Vec<usize>, AllocError>
    ensures { IfOk result (λ counted. counted.items ≡ centres nodes.now) }
{
    let mut counted = Vec::new(alloc);
    for node in nodes {
        push_centre(&mut counted, node)?;
    }
    Ok(counted)
}

// Puts the node behind the centres, if it is one.
pub(crate) fn push_centre(counted: &mut Vec<usize>, node: &Node) -> Result<(), AllocError>
    ensures { OnOk result (counted.new.items ≡ counted.old.items ++ centres (node.now ∷ [])) }
{
    match node {
        Node::Hexside(_) => Ok(()),
        Node::Centre(centre) => {
            counted.push(*centre)?;
            Ok(())
        }
    }
}

// Whether it is a path between centres, with a token on it and no terminal node inside.
fn is_way(alloc: Global, net: &Net, links: &[usize], nodes: &[Node]) -> Result<bool, AllocError>
    ensures { IfOk result (λ is_way. Decides is_way (IsWay net.now links.now nodes.now)) }
{
    if !is_walk(net, links, nodes) {
        return Ok(false);
    }
    let simple = is_simple_by_index(alloc, nodes)?;
    if !simple {
        return Ok(false);
    }
    if !ends_at_centres(nodes) {
        return Ok(false);
    }
    if !is_clear(net, nodes) {
        return Ok(false);
    }
    Ok(has_token_on(net, nodes))
}

// Whether no node stands twice. Of those before a node only the ones in its row of an index are looked at.
fn is_simple_by_index(alloc: Global, nodes: &[Node]) -> Result<bool, AllocError>
    ensures { IfOk result (λ simple. Decides simple (NoneTwice nodes.now)) }
{
    let mut seen = Index::with_rows(alloc, nodes.len())?;
    for (place, node) in nodes.iter().enumerate() {
        if stands_at_one(nodes, noted_at(&seen, node), node) {
            return Ok(false);
        }
        seen.note(node_key(node), place)?;
    }
    Ok(true)
}

// Whether the node stands at one of the places.
fn stands_at_one(nodes: &[Node], places: &[usize], node: &Node) -> bool
    ensures { result ≡ list_any (stands_at nodes.now node.now) places.now }
{
    places.iter().any(|place| stands_at(nodes, node, *place))
}

fn stands_at(nodes: &[Node], node: &Node, place: usize) -> bool
    ensures { result ≡ stands_at nodes.now node.now place }
{
    match nodes.get(place) {
        Some(other) => same_node(other, node),
        None => false,
    }
}

/// Whether the corporation has a token at one of the nodes.
pub fn has_token_on(net: &Net, nodes: &[Node]) -> bool
    ensures { result ≡ list_any (λ node. has_token net.now node) nodes.now }
{
    nodes.iter().any(|node| has_token(net, node))
}

/// Whether the links, one after the other, are a walk along the nodes: each joins two of them, none is followed by
/// itself, and at a hexside the walk passes from one hex into the other. A walk has a link.
pub fn is_walk(net: &Net, links: &[usize], nodes: &[Node]) -> bool
    ensures { Decides result (Walk net.now links.now nodes.now) }
{
    if links.is_empty() {
        return false;
    }
    if nodes.len() != links.len() + 1 {
        return false;
    }
    for place in 0..links.len() {
        if !goes_at(net, links, nodes, place) {
            return false;
        }
    }
    true
}

fn goes_at(net: &Net, links: &[usize], nodes: &[Node], place: usize) -> bool
    requires inside { place < length links.now }
    requires along { length nodes.now ≡ length links.now + 1 }
    ensures { Decides result (GoesAt net.now links.now nodes.now place) }
{
    if !joins(net, links[place], &nodes[place], &nodes[place + 1]) {
        return false;
    }
    if place + 1 == links.len() {
        return true;
    }
    passes_on(net, links[place], &nodes[place + 1], links[place + 1])
}

fn joins(net: &Net, place: usize, from: &Node, to: &Node) -> bool
    ensures { result ≡ joins net.now place from.now to.now }
{
    match net.links().get(place) {
        Some(link) => link_joins(from, to, link),
        None => false,
    }
}

fn link_joins(from: &Node, to: &Node, link: &Link) -> bool
    ensures { result ≡ link_joins from.now to.now link.now }
{
    let side = Node::Hexside(link.side);
    are_nodes(from, to, &side, &link.other) || are_nodes(from, to, &link.other, &side)
}

fn are_nodes(from: &Node, to: &Node, first: &Node, second: &Node) -> bool
    ensures { result ≡ (same_node from.now first.now && same_node to.now second.now) }
{
    same_node(from, first) && same_node(to, second)
}

// Whether a walk may go on from the one link over the node into the other.
fn passes_on(net: &Net, one: usize, node: &Node, other: usize) -> bool
    ensures { result ≡ passes_on net.now one node.now other }
{
    match node {
        Node::Hexside(_) => one != other && hexes_differ(net, one, other),
        Node::Centre(_) => one != other,
    }
}

fn hexes_differ(net: &Net, one: usize, other: usize) -> bool
    ensures { result ≡ hexes_differ (slice_get net.now.links one) (slice_get net.now.links other) }
{
    match net.links().get(one) {
        Some(first) => differs_from(net, first, other),
        None => true,
    }
}

fn differs_from(net: &Net, first: &Link, other: usize) -> bool
    ensures { result ≡ hexes_differ (Some first.now) (slice_get net.now.links other) }
{
    match net.links().get(other) {
        Some(second) => first.hex != second.hex,
        None => true,
    }
}

/// Whether no node stands twice.
pub fn is_simple(nodes: &[Node]) -> bool
    ensures { Decides result (NoneTwice nodes.now) }
{
    for place in 0..nodes.len() {
        if has_node(&nodes[..place], &nodes[place]) {
            return false;
        }
    }
    true
}

/// Whether the node stands among the nodes.
pub fn has_node(nodes: &[Node], node: &Node) -> bool
    ensures { result ≡ list_any (λ other. same_node other node.now) nodes.now }
{
    nodes.iter().any(|other| same_node(other, node))
}

/// Whether the first and the last of the nodes are centres; not so where there are none.
pub fn ends_at_centres(nodes: &[Node]) -> bool
    ensures { Decides result (EndsAreCentres nodes.now) }
{
    if nodes.is_empty() {
        return false;
    }
    are_centres(&nodes[0], &nodes[nodes.len() - 1])
}

fn are_centres(first: &Node, last: &Node) -> bool
    ensures { result ≡ (is_centre first.now && is_centre last.now) }
{
    is_centre(first) && is_centre(last)
}

fn is_centre(node: &Node) -> bool
    ensures { result ≡ is_centre node.now }
{
    match node {
        Node::Hexside(_) => false,
        Node::Centre(_) => true,
    }
}

/// Whether none of the nodes but the first and the last is terminal.
pub fn is_clear(net: &Net, nodes: &[Node]) -> bool
    ensures { Decides result (NoTerminalInside net.now nodes.now) }
{
    for place in 0..nodes.len() {
        if stops_at(net, nodes, place) {
            return false;
        }
    }
    true
}

fn stops_at(net: &Net, nodes: &[Node], place: usize) -> bool
    requires { place < length nodes.now }
    ensures { result ≡ (nat_lt 0 place && (nat_lt (place + 1) (length nodes.now) && is_terminal net.now (node_at nodes.now place))) }
{
    0 < place && place + 1 < nodes.len() && is_terminal(net, &nodes[place])
}
