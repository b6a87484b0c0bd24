//! The ways on which a train comes from a node to the next centre.
ghost use Rattle.std.specs.Prelude.{IfOk, Contains};
ghost use Rattle.std.specs.Bool.{Decides};
ghost use Rattle.rr_referee.specs.Trips.Ways.{GoesOn, LeadsOn, Leaves, SomeLeaves};

use crate::trips::links::{apart_from, is_centre, touches};
use crate::trips::near::is_stranded;
use rr_checker::{Net, Node, far_end, is_walk};
use std::alloc::{AllocError, Global};

// Whether from one of the centres a way leads to another.
pub(crate) fn some_leaves(
    alloc: Global,
    net: &Net,
    own: &[usize],
    centres: &[usize],
) -> Result<bool, AllocError>
    ensures { IfOk result (λ found. Decides found (SomeLeaves net.now own.now centres.now)) }
{
    for centre in centres {
        let found = leaves(alloc, net, own, &Node::Centre(*centre))?;
        if found {
            return Ok(true);
        }
    }
    Ok(false)
}

// Whether a way leads from the node to a centre.
fn leaves(alloc: Global, net: &Net, own: &[usize], from: &Node) -> Result<bool, AllocError>
    ensures { IfOk result (λ found. Decides found (Leaves net.now own.now from.now)) }
{
    for link in own {
        let found = leads_on(alloc, net, own, *link, from)?;
        if found {
            return Ok(true);
        }
    }
    Ok(false)
}

// Whether a way leads over the link from the node to a centre.
fn leads_on(
    alloc: Global,
    net: &Net,
    own: &[usize],
    link: usize,
    from: &Node,
) -> Result<bool, AllocError>
    requires { Contains own.now link }
    ensures { IfOk result (λ found. Decides found (LeadsOn net.now own.now link from.now)) }
{
    if !touches(net, link, from) {
        return Ok(false);
    }
    let to = far_end(net, link, from);
    if is_centre(&to) {
        return Ok(true);
    }
    let left = apart_from(alloc, net, from, own)?;
    let stranded = is_stranded(alloc, net, link, &left)?;
    if stranded {
        return Ok(false);
    }
    for next in &left {
        if !goes_on(net, link, from, &to, *next) {
            continue;
        }
        let found = leads_on(alloc, net, &left, *next, &to)?;
        if found {
            return Ok(true);
        }
    }
    Ok(false)
}

// Whether a walk over the link from one node to the other goes on over the next link.
fn goes_on(net: &Net, link: usize, from: &Node, to: &Node, next: usize) -> bool
    ensures { Decides result (GoesOn net.now link from.now to.now next) }
{
    is_walk(net, &[link, next], &[*from, *to, far_end(net, next, to)])
}
