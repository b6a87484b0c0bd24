//! The steps of a walk: a link gone over from one end to the other.
ghost use Rattle.std.specs.Prelude.{◌≡◌, ◌↔◌, ◌==◌, IfOk, Contains, length};
ghost use Rattle.std.specs.List.{list_any};
ghost use Rattle.rr_routes.specs.Certificates.{fate_of};
ghost use Rattle.rr_checker.specs.Steps.{HasStep, allows, backward, forward, has_token, is_terminal, may_follow, passes_at, same_node};

use crate::railway::Net;
use rr_routes::{Fate, Link, Node};
use std::alloc::{AllocError, Global};

/// A link, gone over from one end to the other.
#[derive(Clone, Copy, Debug)]
pub struct Step {
    /// The link's place.
    pub link: usize,
    pub hex: usize,
    pub from: Node,
    pub to: Node,
}

// Both steps over each link.
pub(crate) fn steps_of(alloc: Global, net: &Net) -> Result<Vec<Step>, AllocError>
    ensures { IfOk result (λ steps. (step : Step) → Contains steps.items step ↔ HasStep net.now (length net.now.links) step) }
{
    let mut steps = Vec::new(alloc);
    for (place, link) in net.links().iter().enumerate() {
        steps.push(forward(place, link))?;
        steps.push(backward(place, link))?;
    }
    Ok(steps)
}

pub(crate) fn may_use(fates: &[Fate], train: usize, link: usize) -> bool
    ensures { result ≡ allows (fate_of fates.now link) train }
{
    match fates.get(link) {
        Some(fate) => allows(fate, train),
        None => false,
    }
}

fn allows(fate: &Fate, train: usize) -> bool
    ensures { result ≡ allows fate.now train }
{
    match fate {
        Fate::Open => true,
        Fate::Denied => false,
        Fate::Of(owner) => *owner == train,
    }
}

fn forward(place: usize, link: &Link) -> Step
    ensures { result ≡ forward place link.now }
{
    Step {
        link: place,
        hex: link.hex,
        from: Node::Hexside(link.side),
        to: link.other,
    }
}

fn backward(place: usize, link: &Link) -> Step
    ensures { result ≡ backward place link.now }
{
    Step {
        link: place,
        hex: link.hex,
        from: link.other,
        to: Node::Hexside(link.side),
    }
}

// Whether a walk may go on by the second step from the first, if its node isn't terminal.
pub(crate) fn may_follow(step: &Step, next: &Step) -> bool
    ensures { result ≡ may_follow step.now next.now }
{
    same_node(&step.to, &next.from) && passes(step, next)
}

fn passes(step: &Step, next: &Step) -> bool
    ensures { result ≡ passes_at step.now.to step.now next.now }
{
    match step.to {
        Node::Hexside(_) => step.link != next.link && step.hex != next.hex,
        Node::Centre(_) => step.link != next.link,
    }
}

pub(crate) fn same_node(node: &Node, other: &Node) -> bool
    ensures { result ≡ same_node node.now other.now }
{
    match node {
        Node::Hexside(side) => match other {
            Node::Hexside(second) => *side == *second,
            Node::Centre(_) => false,
        },
        Node::Centre(centre) => match other {
            Node::Hexside(_) => false,
            Node::Centre(second) => *centre == *second,
        },
    }
}

pub(crate) fn has_token(net: &Net, node: &Node) -> bool
    ensures { result ≡ has_token net.now node.now }
{
    match node {
        Node::Hexside(_) => false,
        Node::Centre(centre) => is_among(net.tokens(), *centre),
    }
}

// Whether no walk goes on from the node.
pub(crate) fn is_terminal(net: &Net, node: &Node) -> bool
    ensures { result ≡ is_terminal net.now node.now }
{
    match node {
        Node::Hexside(_) => false,
        Node::Centre(centre) => is_among(net.terminals(), *centre),
    }
}

pub(crate) fn is_among(places: &[usize], place: usize) -> bool
    ensures { result ≡ list_any (λ other. other == place) places.now }
{
    places.iter().any(|other| *other == place)
}
