//! The links that are a train's own, and what they touch.
ghost use Rattle.std.specs.Prelude.{◌≡◌, ◌||◌, IfOk, length, slice_get};
ghost use Rattle.std.specs.Bool.{Decides};
ghost use Rattle.std.specs.List.{filter, list_any};
ghost use Rattle.rr_routes.specs.declared.net.Node.TheVariants.{Hexside, Centre};
ghost use Rattle.rr_routes.specs.Net.{limit_of};
ghost use Rattle.rr_routes.specs.Certificates.{IsBad};
ghost use Rattle.rr_checker.specs.Searching.{IsTracksOf};
ghost use Rattle.rr_checker.specs.Own.{AreGoneOver, AreLinksWith, crowds, crowds_end_on, is_crowded_on, is_of, is_others, is_over, is_second, is_shared, is_shared_on, is_side_of, is_third, is_touched_on, is_unreached, link_touches, shares_end, shares_end_on, shares_side, some_link, touches};
ghost use Rattle.rr_checker.specs.Index.{noted_at};

use crate::index::{index_of_links, noted_at};
use crate::railway::Net;
use crate::reach::ends_of;
use crate::step::{Step, same_node};
use crate::tracks::Tracks;
use rr_routes::reachability::{Index, is_marked};
use rr_routes::{CentreLimit, Fate, Link, Node};
use std::alloc::{AllocError, Global};

// Whether the train can't run over all the links that are its own.
pub(crate) fn is_bad(
    alloc: Global,
    net: &Net,
    tracks: &Tracks,
    fates: &[Fate],
    train: usize,
) -> Result<bool, AllocError>
    requires { IsTracksOf net.now tracks.now }
    ensures { IfOk result (λ bad. Decides bad (IsBad net.now fates.now train)) }
{
    let own = own_links(alloc, fates, train)?;
    let others = others_links(alloc, fates, train)?;
    let ends = ends_of(alloc, tracks, fates, train)?;
    let reached = gone_over(alloc, net, &ends)?;
    let own_index = index_of_links(alloc, net, &own)?;
    let others_index = index_of_links(alloc, net, &others)?;
    let touched = touched_count(net, &own_index, &tracks.centres);
    let crowded = is_crowded_on(net, &own_index, &own);
    let shared = is_shared_on(net, &others_index, &own);
    Ok(runs_badly(net, train, crowded, shared, &own, &reached, touched))
}

fn runs_badly(
    net: &Net,
    train: usize,
    crowded: bool,
    shared: bool,
    own: &[usize],
    reached: &[bool],
    touched: usize,
) -> bool
    ensures { result ≡ (crowded || (is_over (limit_of net.now train) touched || (is_unreached reached.now own.now || shared))) }
{
    crowded || counts_fewer(net, train, touched) || is_unreached(reached, own) || shared
}

/// The links that are the train's own, in order.
pub fn own_links(alloc: Global, fates: &[Fate], train: usize) -> Result<Vec<usize>, AllocError>
    ensures { IfOk result (λ own. AreLinksWith (is_of train) fates.now own.items) }
{
    let mut own = Vec::new(alloc);
    for (link, fate) in fates.iter().enumerate() {
        if !is_of(train, fate) {
            continue;
        }
        own.push(link)?;
    }
    Ok(own)
}

fn is_of(train: usize, fate: &Fate) -> bool
    ensures { result ≡ is_of train fate.now }
{
    match fate {
        Fate::Open | Fate::Denied => false,
        Fate::Of(owner) => *owner == train,
    }
}

/// The links that are another train's own, in order.
pub fn others_links(alloc: Global, fates: &[Fate], train: usize) -> Result<Vec<usize>, AllocError>
    ensures { IfOk result (λ others. AreLinksWith (is_others train) fates.now others.items) }
{
    let mut others = Vec::new(alloc);
    for (link, fate) in fates.iter().enumerate() {
        if !is_others(train, fate) {
            continue;
        }
        others.push(link)?;
    }
    Ok(others)
}

fn is_others(train: usize, fate: &Fate) -> bool
    ensures { result ≡ is_others train fate.now }
{
    match fate {
        Fate::Open | Fate::Denied => false,
        Fate::Of(owner) => *owner != train,
    }
}

// How many of the centres are touched by links of the list that the index has by their nodes.
fn touched_count(net: &Net, index: &Index, centres: &[usize]) -> usize
    ensures { result ≡ length (filter (is_touched_on net.now index.now) centres.now) }
{
    centres
        .iter()
        .filter(|centre| is_touched_on(net, index, **centre))
        .count()
}

fn is_touched_on(net: &Net, index: &Index, centre: usize) -> bool
    ensures { result ≡ is_touched_on net.now index.now centre }
{
    touches_one(net, noted_at(index, &Node::Centre(centre)), centre)
}

// Whether one of the links touches the centre.
fn touches_one(net: &Net, links: &[usize], centre: usize) -> bool
    ensures { result ≡ list_any (λ link. touches net.now link (Centre centre)) links.now }
{
    links
        .iter()
        .any(|link| touches(net, *link, &Node::Centre(centre)))
}

fn counts_fewer(net: &Net, train: usize, count: usize) -> bool
    ensures { result ≡ is_over (limit_of net.now train) count }
{
    match net.trains().get(train) {
        Some(limit) => is_over(limit, count),
        None => 0 < count,
    }
}

pub(crate) fn is_over(limit: &CentreLimit, count: usize) -> bool
    ensures { result ≡ is_over limit.now count }
{
    match limit {
        CentreLimit::AtMost(most) => *most < count,
        CentreLimit::Unlimited => false,
    }
}

// Whether three of the links, which the index has by their nodes, meet at a node.
pub(crate) fn is_crowded_on(net: &Net, index: &Index, own: &[usize]) -> bool
    ensures { result ≡ is_crowded_on net.now index.now own.now }
{
    own.iter().any(|one| is_crowded_by(net, index, *one))
}

fn is_crowded_by(net: &Net, index: &Index, one: usize) -> bool
    ensures { result ≡ some_link (slice_get net.now.links one) (crowds_end_on net.now index.now one) }
{
    match net.links().get(one) {
        Some(link) => crowds_end(net, index, one, link),
        None => false,
    }
}

fn crowds_end(net: &Net, index: &Index, one: usize, link: &Link) -> bool
    ensures { result ≡ crowds_end_on net.now index.now one link.now }
{
    crowds_at(net, index, one, &Node::Hexside(link.side)) || crowds_at(net, index, one, &link.other)
}

fn crowds_at(net: &Net, index: &Index, one: usize, node: &Node) -> bool
    ensures { result ≡ crowds net.now (noted_at index.now node.now) one node.now }
{
    crowds(net, noted_at(index, node), one, node)
}

fn crowds(net: &Net, own: &[usize], one: usize, node: &Node) -> bool
    ensures { result ≡ crowds net.now own.now one node.now }
{
    own.iter().any(|two| is_second(net, own, node, one, *two))
}

fn is_second(net: &Net, own: &[usize], node: &Node, one: usize, two: usize) -> bool
    ensures { result ≡ is_second net.now own.now node.now one two }
{
    one != two && touches(net, two, node) && has_third(net, own, node, one, two)
}

fn has_third(net: &Net, own: &[usize], node: &Node, one: usize, two: usize) -> bool
    ensures { result ≡ list_any (is_third net.now node.now one two) own.now }
{
    own.iter()
        .any(|three| is_third(net, node, one, two, *three))
}

fn is_third(net: &Net, node: &Node, one: usize, two: usize, three: usize) -> bool
    ensures { result ≡ is_third net.now node.now one two three }
{
    one != three && two != three && touches(net, three, node)
}

pub(crate) fn touches(net: &Net, place: usize, node: &Node) -> bool
    ensures { result ≡ touches net.now place node.now }
{
    match net.links().get(place) {
        Some(link) => link_touches(node, link),
        None => false,
    }
}

fn link_touches(node: &Node, link: &Link) -> bool
    ensures { result ≡ link_touches node.now link.now }
{
    same_node(node, &Node::Hexside(link.side)) || same_node(node, &link.other)
}

// For each link of the net whether one of the steps goes over it.
fn gone_over(alloc: Global, net: &Net, ends: &[Step]) -> Result<Vec<bool>, AllocError>
    ensures { IfOk result (λ marks. AreGoneOver ends.now (length net.now.links) marks.items) }
{
    let mut marks = vec![in alloc; false; net.links().len()]?;
    for step in ends {
        if step.link >= marks.len() {
            continue;
        }
        marks[step.link] = true;
    }
    Ok(marks)
}

// Whether one of the links isn't among those reached.
fn is_unreached(reached: &[bool], own: &[usize]) -> bool
    ensures { result ≡ is_unreached reached.now own.now }
{
    own.iter().any(|link| !is_marked(reached, *link))
}

/// Whether links of the two lists touch one hexside.
pub fn is_shared(net: &Net, own: &[usize], others: &[usize]) -> bool
    ensures { result ≡ is_shared net.now own.now others.now }
{
    own.iter().any(|place| shares_side(net, others, *place))
}

fn shares_side(net: &Net, others: &[usize], place: usize) -> bool
    ensures { result ≡ shares_side net.now others.now place }
{
    match net.links().get(place) {
        Some(link) => shares_end(net, others, link),
        None => false,
    }
}

fn shares_end(net: &Net, others: &[usize], link: &Link) -> bool
    ensures { result ≡ shares_end net.now others.now link.now }
{
    is_side_of(net, others, &Node::Hexside(link.side)) || is_side_of(net, others, &link.other)
}

fn is_side_of(net: &Net, others: &[usize], node: &Node) -> bool
    ensures { result ≡ is_side_of net.now others.now node.now }
{
    match node {
        Node::Hexside(side) => touches_side(net, others, *side),
        Node::Centre(_) => false,
    }
}

// Whether links of the list touch a hexside that one of the others touches, which the index has by their nodes.
pub(crate) fn is_shared_on(net: &Net, index: &Index, own: &[usize]) -> bool
    ensures { result ≡ is_shared_on net.now index.now own.now }
{
    own.iter().any(|place| shares_side_on(net, index, *place))
}

fn shares_side_on(net: &Net, index: &Index, place: usize) -> bool
    ensures { result ≡ some_link (slice_get net.now.links place) (shares_end_on net.now index.now) }
{
    match net.links().get(place) {
        Some(link) => shares_end_on(net, index, link),
        None => false,
    }
}

fn shares_end_on(net: &Net, index: &Index, link: &Link) -> bool
    ensures { result ≡ shares_end_on net.now index.now link.now }
{
    is_side_on(net, index, &Node::Hexside(link.side)) || is_side_on(net, index, &link.other)
}

fn is_side_on(net: &Net, index: &Index, node: &Node) -> bool
    ensures { result ≡ is_side_of net.now (noted_at index.now node.now) node.now }
{
    is_side_of(net, noted_at(index, node), node)
}

fn touches_side(net: &Net, others: &[usize], side: usize) -> bool
    ensures { result ≡ list_any (λ other. touches net.now other (Hexside side)) others.now }
{
    others
        .iter()
        .any(|other| touches(net, *other, &Node::Hexside(side)))
}
