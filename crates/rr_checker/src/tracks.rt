//! The steps over the links of a net, and which may follow which: made once for all that is searched over the net.
ghost use Rattle.std.specs.Prelude.{◌≡◌, IfOk, length};
ghost use Rattle.rr_routes.specs.Reachability.Index.{IsIndexOf};
ghost use Rattle.rr_routes.specs.Reachability.Places.{ArePassing, ArePlaces, IsGraphOf};
ghost use Rattle.rr_checker.specs.Steps.{follows, goes_on, has_token};
ghost use Rattle.rr_checker.specs.Searching.{ArrivesAt, BeginsAt, IsTracksOf};

use crate::centres::ranking;
use crate::index::{node_key, noted_at};
use crate::railway::Net;
use crate::step::{Step, has_token, is_terminal, may_follow, steps_of};
use rr_routes::reachability::{Followers, Index};
use std::alloc::{AllocError, Global};

// How walks go over a net.
#[derive(Debug, Drop)]
pub(crate) struct Tracks {
    // Both steps over each link.
    pub(crate) steps: Vec<Step>,
    // For each step the places of those by which a walk that ends with it may go on.
    pub(crate) graph: Vec<Followers>,
    // The places of the steps by which a walk may begin.
    pub(crate) starts: Vec<usize>,
    // The places of the steps, by the node where each ends.
    pub(crate) arrivals: Index,
    // The centres with a token and those where steps end, the greatest value first.
    pub(crate) centres: Vec<usize>,
}

pub(crate) fn tracks_of(alloc: Global, net: &Net) -> Result<Tracks, AllocError>
    ensures { IfOk result (λ tracks. IsTracksOf net.now tracks) }
{
    let steps = steps_of(alloc, net)?;
    let graph = graph_of(alloc, net, &steps)?;
    let starts = starts_of(alloc, net, &steps)?;
    let arrivals = arrivals_of(alloc, &steps)?;
    let centres = ranking(alloc, net, &steps)?;
    Ok(Tracks {
        steps,
        graph,
        starts,
        arrivals,
        centres,
    })
}

// The places of the steps by which a walk may begin.
fn starts_of(alloc: Global, net: &Net, steps: &[Step]) -> Result<Vec<usize>, AllocError>
    ensures { IfOk result (λ starts. ArePlaces (λ step. has_token net.now step.from) steps.now (length steps.now) starts.items) }
{
    let mut starts = Vec::new(alloc);
    for (place, step) in steps.iter().enumerate() {
        if !has_token(net, &step.from) {
            continue;
        }
        starts.push(place)?;
    }
    Ok(starts)
}

// For each step the places of those by which a walk that ends with it may go on.
fn graph_of(alloc: Global, net: &Net, steps: &[Step]) -> Result<Vec<Followers>, AllocError>
    ensures { IfOk result (λ graph. IsGraphOf (goes_on net.now) steps.now (length steps.now) graph.items) }
{
    let index = index_of(alloc, steps)?;
    let mut graph = Vec::new(alloc);
    for step in steps {
        let followers = followers_of(alloc, net, steps, &index, step)?;
        graph.push(followers)?;
    }
    Ok(graph)
}

// Only steps that begin where this one ends may follow it, so no others are looked at.
fn followers_of(
    alloc: Global,
    net: &Net,
    steps: &[Step],
    index: &Index,
    step: &Step,
) -> Result<Followers, AllocError>
    requires { IsIndexOf (BeginsAt steps.now (length steps.now)) index.now }
    ensures { IfOk result (λ places. ArePlaces (goes_on net.now step.now) steps.now (length steps.now) places) }
{
    if is_terminal(net, &step.to) {
        return Ok(Followers::new(alloc));
    }
    let followers = next_among(alloc, steps, noted_at(index, &step.to), step)?;
    Ok(followers)
}

// Those of the places at which a step may follow this one.
fn next_among(
    alloc: Global,
    steps: &[Step],
    places: &[usize],
    step: &Step,
) -> Result<Followers, AllocError>
    ensures { IfOk result (λ passing. ArePassing (follows steps.now step.now) places.now passing) }
{
    let mut passing = Followers::new(alloc);
    for place in places {
        if !follows(steps, step, *place) {
            continue;
        }
        passing.push(*place)?;
    }
    Ok(passing)
}

fn follows(steps: &[Step], step: &Step, place: usize) -> bool
    ensures { result ≡ follows steps.now step.now place }
{
    match steps.get(place) {
        Some(next) => may_follow(step, next),
        None => false,
    }
}

// The places of the steps, by the node that each begins at.
fn index_of(alloc: Global, steps: &[Step]) -> Result<Index, AllocError>
    ensures { IfOk result (λ index. IsIndexOf (BeginsAt steps.now (length steps.now)) index) }
{
    let mut index = Index::with_rows(alloc, steps.len())?;
    for (place, step) in steps.iter().enumerate() {
        index.note(node_key(&step.from), place)?;
    }
    Ok(index)
}

// The places of the steps, by the node that each ends at.
fn arrivals_of(alloc: Global, steps: &[Step]) -> Result<Index, AllocError>
    ensures { IfOk result (λ index. IsIndexOf (ArrivesAt steps.now (length steps.now)) index) }
{
    let mut index = Index::with_rows(alloc, steps.len())?;
    for (place, step) in steps.iter().enumerate() {
        index.note(node_key(&step.to), place)?;
    }
    Ok(index)
}
