//! The run over decided links, if there is one.
ghost use Rattle.std.specs.Prelude.{◌≡◌, ℕ, ◌<◌, ◌∷◌, ◌==◌, ◌&&◌, not, IfOk, MatchOption, Contains, List, map, slice_get};
ghost use Rattle.std.specs.Bool.{Decides};
ghost use Rattle.std.specs.List.{list_any};
ghost use Rattle.rr_routes.specs.Routes.{Route, Trip};
ghost use Rattle.rr_checker.specs.Index.{IsIndexOf, TouchesAt, noted_at};
ghost use Rattle.rr_checker.specs.Own.{touches};
ghost use Rattle.rr_checker.specs.Trips.{IsTripOver, NoneAt, NoneFrom, SameElements, centre_at, centre_of, is_missing, meets_another, trip_over};

use crate::index::{index_of_links, is_noted, noted_at};
use crate::own::{is_crowded_on, touches};
use crate::railway::Net;
use crate::trips::{Journey, follow, is_route};
use rr_routes::reachability::Index;
use rr_routes::{CentreLimit, Node};
use std::alloc::{AllocError, Global};

/// The trip over just these links: a route, or no links where there are none. None where there is no such route.
pub fn journey_over(
    alloc: Global,
    net: &Net,
    limit: &CentreLimit,
    own: &[usize],
) -> Result<Option<Journey>, AllocError>
    ensures { IfOk result (λ found. MatchOption found ((trip : Trip) → IsTripOver net.now limit.now own.now trip → ⊥)
        (λ journey. IsTripOver net.now limit.now own.now (trip_over journey.links.items journey.nodes.items))) }
{
    if own.is_empty() {
        return Ok(Some(Journey {
            links: Vec::new(alloc),
            nodes: Vec::new(alloc),
        }));
    }
    let index = index_of_links(alloc, net, own)?;
    if is_crowded_on(net, &index, own) {
        return Ok(None);
    }
    for link in own {
        if let Some(journey) = from_link(alloc, net, limit, own, &index, *link)? {
            return Ok(Some(journey));
        }
    }
    Ok(None)
}

// Such a trip that begins with the link. No other link of it touches the centre where it begins.
fn from_link(
    alloc: Global,
    net: &Net,
    limit: &CentreLimit,
    own: &[usize],
    index: &Index,
    link: usize,
) -> Result<Option<Journey>, AllocError>
    requires { IsIndexOf (TouchesAt net.now own.now) index.now }
    ensures { IfOk result (λ found. MatchOption found (NoneFrom net.now limit.now own.now link)
        (λ journey. IsTripOver net.now limit.now own.now (trip_over journey.links.items journey.nodes.items))) }
{
    match centre_at(net, link) {
        None => Ok(None),
        Some(centre) => {
            if meets_another_on(net, index, link, &Node::Centre(centre)) {
                return Ok(None);
            }
            from_centre(alloc, net, limit, own, index, centre)
        }
    }
}

fn meets_another_on(net: &Net, index: &Index, link: usize, node: &Node) -> bool
    ensures { result ≡ meets_another net.now (noted_at index.now node.now) link node.now }
{
    meets_another(net, noted_at(index, node), link, node)
}

// Whether another of the links touches the node.
fn meets_another(net: &Net, own: &[usize], link: usize, node: &Node) -> bool
    ensures { result ≡ meets_another net.now own.now link node.now }
{
    own.iter().any(|other| is_another(net, link, *other, node))
}

fn is_another(net: &Net, link: usize, other: usize, node: &Node) -> bool
    ensures { result ≡ (not (link == other) && touches net.now other node.now) }
{
    link != other && touches(net, other, node)
}

// Such a trip that begins at the centre.
fn from_centre(
    alloc: Global,
    net: &Net,
    limit: &CentreLimit,
    own: &[usize],
    index: &Index,
    centre: usize,
) -> Result<Option<Journey>, AllocError>
    requires { IsIndexOf (TouchesAt net.now own.now) index.now }
    ensures { IfOk result (λ found. MatchOption found (NoneAt net.now limit.now own.now centre)
        (λ journey. IsTripOver net.now limit.now own.now (trip_over journey.links.items journey.nodes.items))) }
{
    let followed = follow(alloc, net, own, index, centre)?;
    if is_missing(own, &followed.taken) {
        return Ok(None);
    }
    let journey = followed.journey;
    let lawful = is_route(alloc, net, limit, &journey.links, &journey.nodes)?;
    if !lawful {
        return Ok(None);
    }
    Ok(Some(journey))
}

// Whether one of the links isn't noted.
fn is_missing(own: &[usize], taken: &Index) -> bool
    ensures { result ≡ is_missing own.now taken.now }
{
    own.iter().any(|link| !is_noted(taken, *link))
}

/// The centre at the end of the link that isn't its hexside; none where that is a hexside too, or there is no such
/// link.
pub fn centre_at(net: &Net, link: usize) -> Option<usize>
    ensures { result ≡ centre_at (slice_get net.now.links link) }
{
    match net.links().get(link) {
        Some(link) => centre_of(&link.other),
        None => None,
    }
}

fn centre_of(node: &Node) -> Option<usize>
    ensures { result ≡ centre_of node.now }
{
    match node {
        Node::Hexside(_) => None,
        Node::Centre(centre) => Some(*centre),
    }
}
