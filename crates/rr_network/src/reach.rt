//! What a corporation reaches.
ghost use Rattle.std.specs.Prelude.{◌≡◌, ℕ, ◌+◌, ◌<◌, ◌↔◌, IfOk, Contains, length, true};
ghost use Rattle.std.specs.List.{list_any};
ghost use Rattle.rr_network.specs.Indexes.{AreOver, FindsKinds, begins_at, follows};
ghost use Rattle.rr_network.specs.Node.{same_node};
ghost use Rattle.rr_network.specs.declared.node.Node.{Node};
ghost use Rattle.rr_network.specs.declared.step.Step.{Step};
ghost use Rattle.rr_routes.specs.Reachability.Index.{IsIndexOf, StandsAt};
ghost use Rattle.rr_routes.specs.Reachability.Places.{ArePassing, ArePlaces, IsGraphOf};
ghost use Rattle.rr_network.specs.Walk.{EndsWalk, ReachesLink, ReachesNode, goes_on, has_token, reaches_link, reaches_node};

use crate::key::node_key;
use crate::network::Network;
use crate::node::{Link, Node, same_node};
use crate::step::{Step, has_token, index_of_stops, is_terminal, may_follow, steps_of};
use rr_desk::layout::Station;
use rr_roster::Corp;
use rr_routes::reachability::{Followers, Index, is_marked, marked_items, reached};
use std::alloc::{AllocError, Global};
use std::marker::Model;

/// The links and nodes that a corporation reaches.
///
/// A walk begins at one of its tokens and goes from link to link. It passes a hexside from one hex into
/// the other, never goes back over the link that it came by, and ends at an off-board area and at a
/// city whose slots are all filled by others.
#[derive(Debug, Drop)]
pub struct Reach {
    corp: Corp,
    stations: Vec<Station>,
    steps: Vec<Step>,
    // Whether a walk ends with the link of a number.
    over: Vec<bool>,
}

impl Model for Reach {
    ghost use Rattle.rr_network.specs.Indexes.{AreOver};
    ghost use Rattle.rr_network.specs.Walk.{Reached};

    ghost Value = { Reached };

    ghost view = { λ reach. record { corp = reach.corp; stations = reach.stations.items; steps = reach.steps.items } };

    ghost invariant = { λ reach. AreOver reach.steps.items reach.over.items };
}

impl Reach {
    /// What the corporation reaches in the network. Only memory can fail.
    ///
    /// The search takes as much time as there are links and ways to go on from each, and for each link as the board has
    /// tokens.
    pub fn of(alloc: Global, network: &Network, corp: Corp) -> Result<Reach, AllocError>
        ensures links { IfOk result (λ reach. (number : ℕ) → reaches_link reach number ≡ true ↔ ReachesLink network.now corp number) }
        ensures nodes { IfOk result (λ reach. (node : Node) → reaches_node reach node ≡ true ↔ ReachesNode network.now corp node) }
    {
        let stations = network.stations().to_vec(alloc)?;
        let steps = walks_of(alloc, network, corp)?;
        let over = links_over(alloc, network.links(), &steps)?;
        Ok(Reach {
            corp,
            stations,
            steps,
            over,
        })
    }

    /// Whether a walk ends with the link of a number, from 1.
    pub fn has_link(&self, number: usize) -> bool
        ensures { result ≡ reaches_link self.now number }
    {
        is_marked(&self.over, number)
    }

    /// Whether a walk ends at a node, or one of the corporation's tokens stands there.
    pub fn has_node(&self, node: &Node) -> bool
        ensures { result ≡ reaches_node self.now node.now }
    {
        has_token(&self.stations, self.corp, node) || self.ends_at(node)
    }

    fn ends_at(&self, node: &Node) -> bool
        ensures { result ≡ list_any (λ step. same_node node.now step.to) self.now.steps }
    {
        self.steps.iter().any(|step| same_node(node, &step.to))
    }
}

// For each number, up to that of the last link, whether one of the steps goes over that link.
fn links_over(alloc: Global, links: &[Link], steps: &[Step]) -> Result<Vec<bool>, AllocError>
    requires { (step : Step) → Contains steps.now step → step.number < length links.now + 1 }
    ensures { IfOk result (λ marks. AreOver steps.now marks.items) }
{
    let mut marks = vec![in alloc; false; links.len() + 1]?;
    for step in steps {
        marks[step.number] = true;
    }
    Ok(marks)
}

// The steps with which a walk of the corporation ends.
fn walks_of(alloc: Global, network: &Network, corp: Corp) -> Result<Vec<Step>, AllocError>
    ensures { IfOk result (λ ends. (step : Step) → Contains ends.items step ↔ EndsWalk network.now corp step) }
{
    let steps = steps_of(alloc, network.links())?;
    let graph = graph_of(alloc, network, corp, &steps)?;
    let starts = starts_of(alloc, network, corp, &steps)?;
    let marks = reached(alloc, &graph, &starts)?;
    let ends = marked_items(alloc, &steps, &marks)?;
    Ok(ends)
}

// The places of the steps by which a walk may begin.
fn starts_of(
    alloc: Global,
    network: &Network,
    corp: Corp,
    steps: &[Step],
) -> Result<Vec<usize>, AllocError>
    ensures { IfOk result (λ starts. ArePlaces (λ step. has_token network.now.stations corp step.from) steps.now (length steps.now) starts.items) }
{
    let mut starts = Vec::new(alloc);
    for (place, step) in steps.iter().enumerate() {
        if !has_token(network.stations(), corp, &step.from) {
            continue;
        }
        starts.push(place)?;
    }
    Ok(starts)
}

// For each step the places of those by which a walk that ends with it may go on.
fn graph_of(
    alloc: Global,
    network: &Network,
    corp: Corp,
    steps: &[Step],
) -> Result<Vec<Followers>, AllocError>
    ensures { IfOk result (λ graph. IsGraphOf (goes_on network.now corp) steps.now (length steps.now) graph.items) }
{
    let stops = index_of_stops(alloc, network.stops())?;
    let starts = index_of(alloc, steps)?;
    let mut graph = Vec::with_capacity(alloc, steps.len())?;
    for step in steps {
        let followers = followers_of(alloc, network, &stops, corp, steps, &starts, step)?;
        graph.push(followers)?;
    }
    Ok(graph)
}

// Only steps that begin where this one ends may follow it, so no others are looked at.
fn followers_of(
    alloc: Global,
    network: &Network,
    stops: &Index,
    corp: Corp,
    steps: &[Step],
    starts: &Index,
    step: &Step,
) -> Result<Followers, AllocError>
    requires kinds { FindsKinds network.now.stops stops.now }
    requires steps { IsIndexOf (StandsAt begins_at steps.now (length steps.now)) starts.now }
    ensures { IfOk result (λ places. ArePlaces (goes_on network.now corp step.now) steps.now (length steps.now) places) }
{
    if is_terminal(network.stops(), stops, network.stations(), corp, &step.to) {
        return Ok(Followers::new(alloc));
    }
    let followers = next_among(alloc, steps, starts.noted_at(node_key(&step.to)), step)?;
    Ok(followers)
}

// Those of the places at which a step may follow this one.
fn next_among(
    alloc: Global,
    steps: &[Step],
    places: &[usize],
    step: &Step,
) -> Result<Followers, AllocError>
    ensures { IfOk result (λ passing. ArePassing (follows steps.now step.now) places.now passing) }
{
    let mut passing = Followers::new(alloc);
    for place in places {
        if !follows(steps, step, *place) {
            continue;
        }
        passing.push(*place)?;
    }
    Ok(passing)
}

fn follows(steps: &[Step], step: &Step, place: usize) -> bool
    ensures { result ≡ follows steps.now step.now place }
{
    match steps.get(place) {
        Some(next) => may_follow(step, next),
        None => false,
    }
}

// The places of the steps, by the nodes at which they begin.
fn index_of(alloc: Global, steps: &[Step]) -> Result<Index, AllocError>
    ensures { IfOk result (λ index. IsIndexOf (StandsAt begins_at steps.now (length steps.now)) index) }
{
    let mut index = Index::with_rows(alloc, steps.len())?;
    for (place, step) in steps.iter().enumerate() {
        index.note(node_key(&step.from), place)?;
    }
    Ok(index)
}
