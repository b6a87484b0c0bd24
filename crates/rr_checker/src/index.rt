//! Links by the nodes that they touch.
ghost use Rattle.std.specs.Prelude.{◌≡◌, Some, IfOk, OnOk, slice_get};
ghost use Rattle.rr_routes.specs.Reachability.Index.{IsIndexOf};
ghost use Rattle.rr_checker.specs.Index.{TouchesAt, is_noted, node_key, noted_at, noted_at_ends};

use crate::railway::Net;
use crate::step::is_among;
use rr_routes::reachability::Index;
use rr_routes::{Link, Node};
use std::alloc::{AllocError, Global};

// Hexsides and centres are numbered from 0 by the board, so that few share a row; where they do, nothing is lost.
pub(crate) fn node_key(node: &Node) -> usize
    ensures { result ≡ node_key node.now }
{
    match node {
        Node::Hexside(side) => *side,
        Node::Centre(centre) => *centre,
    }
}

// The places noted at the node, among others.
pub(crate) fn noted_at<'a>(index: &'a Index, node: &Node) -> &'a [usize]
    ensures { result.now ≡ noted_at index.now node.now }
{
    index.noted_at(node_key(node))
}

// Whether the number is noted at itself.
pub(crate) fn is_noted(index: &Index, number: usize) -> bool
    ensures { result ≡ is_noted index.now number }
{
    is_among(index.noted_at(number), number)
}

// The links, by the nodes that they touch.
pub(crate) fn index_of_links(alloc: Global, net: &Net, links: &[usize]) -> Result<Index, AllocError>
    ensures { IfOk result (λ index. IsIndexOf (TouchesAt net.now links.now) index) }
{
    let mut index = Index::with_rows(alloc, links.len())?;
    for link in links {
        note_link(net, &mut index, *link)?;
    }
    Ok(index)
}

fn note_link(net: &Net, index: &mut Index, place: usize) -> Result<(), AllocError>
    ensures { OnOk result (index.new ≡ noted_at_ends index.old place (slice_get net.now.links place)) }
{
    match net.links().get(place) {
        Some(link) => note_ends(index, link, place),
        None => Ok(()),
    }
}

fn note_ends(index: &mut Index, link: &Link, place: usize) -> Result<(), AllocError>
    ensures { OnOk result (index.new ≡ noted_at_ends index.old place (Some link.now)) }
{
    index.note(link.side, place)?;
    index.note(node_key(&link.other), place)?;
    Ok(())
}
