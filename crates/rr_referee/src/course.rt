//! Where the links of a word lead, and the first clause that they break.
ghost use Rattle.std.specs.Prelude.{◌≡◌, ◌∷◌, IfOk, MatchOption, MatchResult, Some};
ghost use Rattle.std.specs.Bool.{Decides};
ghost use Rattle.rr_routes.specs.declared.net.Node.TheVariants.{Centre};
ghost use Rattle.rr_checker.specs.Trips.{trip_over};
ghost use Rattle.rr_referee.specs.Sheets.{Ascends, Asks, BreaksWord, IsFirstBroken, IsRefusal, route_clauses};
ghost use Rattle.rr_referee.specs.Tests.{IsCourse, IsLawfulWord, IsOnlyCourse, IsRouteUp, onward, start_of};

use crate::word::{is_its_word, links_of};
use rr_books::{Clause, Refusal};
use rr_checker::{
    CentreLimit, Net, Node, centre_at, centres_of, counts_over, ends_at_centres, far_end,
    has_token_on, is_clear, is_simple, is_walk,
};
use rr_routes::sheets::TrainWord;
use std::alloc::{AllocError, Global};
use std::marker::Model;

// The links of a train in order, and the nodes along them.
#[derive(Debug, Drop)]
pub(crate) struct Journey {
    links: Vec<usize>,
    nodes: Vec<Node>,
}

impl Model for Journey {
    ghost use Rattle.rr_routes.specs.Routes.{Trip};

    ghost Value = { Trip };

    ghost view = { λ journey. record { links = journey.links.items; nodes = journey.nodes.items } };
}

impl Journey {
    pub(crate) fn nodes(&self) -> &[Node]
        ensures { result.now ≡ self.now.nodes }
    {
        &self.nodes
    }
}

// Where the train's word leads.
pub(crate) fn journey_of(
    alloc: Global,
    net: &Net,
    limit: &CentreLimit,
    word: &TrainWord,
) -> Result<Journey, Refusal>
    ensures { MatchResult result (λ journey. IsLawfulWord net.now limit.now word.now journey)
        (λ fault. IsRefusal (BreaksWord net.now limit.now (Some word.now)) fault) }
{
    if !is_its_word(net, limit, word) {
        return Err(Refusal::IllegalSheet(Clause::WrongWord));
    }
    let links = links_of(alloc, word)?;
    if links.is_empty() {
        return Ok(Journey {
            links,
            nodes: Vec::new(alloc),
        });
    }
    let journey = journey_over(alloc, net, limit, links)?;
    Ok(journey)
}

// The route over the links.
fn journey_over(
    alloc: Global,
    net: &Net,
    limit: &CentreLimit,
    links: Vec<usize>,
) -> Result<Journey, Refusal>
    ensures { MatchResult result (λ journey. (journey.links ≡ links.items) × IsRouteUp net.now limit.now journey)
        (λ fault. IsRefusal (IsFirstBroken (Asks net.now limit.now links.items) route_clauses) fault) }
{
    match start_of(net, &links) {
        None => Err(Refusal::IllegalSheet(Clause::NoWalk)),
        Some(centre) => {
            let nodes = nodes_from(alloc, net, centre, &links)?;
            match first_broken(alloc, net, limit, &links, &nodes)? {
                Some(clause) => Err(Refusal::IllegalSheet(clause)),
                None => Ok(Journey { links, nodes }),
            }
        }
    }
}

fn start_of(net: &Net, links: &[usize]) -> Option<usize>
    ensures { result ≡ start_of net.now links.now }
{
    match links {
        [] => None,
        [first, ..] => centre_at(net, *first),
    }
}

// The nodes along the links, from the centre on.
fn nodes_from(
    alloc: Global,
    net: &Net,
    centre: usize,
    links: &[usize],
) -> Result<Vec<Node>, AllocError>
    ensures { IfOk result (λ nodes. nodes.items ≡ Centre centre ∷ onward net.now (Centre centre) links.now) }
{
    let mut nodes = Vec::new(alloc);
    let mut at = Node::Centre(centre);
    nodes.push(at)?;
    for link in links {
        at = far_end(net, *link, &at);
        nodes.push(at)?;
    }
    Ok(nodes)
}

// The first clause that the links break; none where they are a route.
fn first_broken(
    alloc: Global,
    net: &Net,
    limit: &CentreLimit,
    links: &[usize],
    nodes: &[Node],
) -> Result<Option<Clause>, AllocError>
    requires { IsOnlyCourse net.now links.now nodes.now }
    ensures { IfOk result (λ found. MatchOption found (IsRouteUp net.now limit.now (trip_over links.now nodes.now))
        (λ clause. IsFirstBroken (Asks net.now limit.now links.now) route_clauses clause)) }
{
    if !is_course(net, links, nodes) {
        return Ok(Some(Clause::NoWalk));
    }
    if !is_simple(nodes) {
        return Ok(Some(Clause::NodeTwice));
    }
    if !is_clear(net, nodes) {
        return Ok(Some(Clause::TerminalInside));
    }
    if !has_token_on(net, nodes) {
        return Ok(Some(Clause::NoToken));
    }
    let counted = centres_of(alloc, nodes)?;
    if counts_over(limit, &counted) {
        return Ok(Some(Clause::TooManyCentres));
    }
    Ok(None)
}

// Whether the links are a walk between centres along the nodes, written from the end with the lower number.
fn is_course(net: &Net, links: &[usize], nodes: &[Node]) -> bool
    ensures { Decides result (IsCourse net.now links.now nodes.now) }
{
    if !ascends(links) {
        return false;
    }
    if !is_walk(net, links, nodes) {
        return false;
    }
    ends_at_centres(nodes)
}

fn ascends(links: &[usize]) -> bool
    ensures { Decides result (Ascends links.now) }
{
    if links.is_empty() {
        return false;
    }
    links[0] < links[links.len() - 1]
}
