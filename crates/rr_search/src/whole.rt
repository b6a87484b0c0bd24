//! The tree that splits every link in turn, and the best run over its leaves.
ghost use Rattle.std.specs.Prelude.{◌≡◌, ◌+◌, ◌-◌, ◌*◌, ◌<◌, ◌≤◌, ℕ, Option, Some, IfOk, MatchResult, length};
ghost use Rattle.std.specs.Bool.{Decides};
ghost use Rattle.rr_routes.specs.Certificates.{node_count};
ghost use Rattle.rr_checker.specs.Choices.{choice_at};
ghost use Rattle.rr_search.specs.Found.{AreKinds, IsBestUnder, IsModest, IsSound};
ghost use Rattle.rr_search.specs.Whole.{IsDecidedTo, ShowsFrom, whole_size};
ghost use Rattle.rr_search.specs.declared.fault.Fault.TheVariants.{OutOfMemory};

use crate::fault::Fault;
use crate::found::Found;
use crate::full::best_over;
use rr_checker::{CertTree, Fate, Net};
use rr_roster::Kind;
use rr_routes::MOST_NODES;
use std::alloc::{AllocError, Global};

// Whether the whole tree of so many trains and links has at most so many nodes.
pub(crate) fn whole_fits(trains: usize, links: usize, limit: usize) -> bool
    requires few { trains ≤ 1000 }
    requires small { limit ≤ MOST_NODES }
    ensures { Decides result (whole_size trains links ≤ limit) }
{
    let mut size = 1;
    for link in 0..links {
        if limit < size {
            return false;
        }
        size = size_above(size, trains);
    }
    size <= limit
}

// How many nodes a split has over children of this size.
fn size_above(size: usize, trains: usize) -> usize
    requires few { trains ≤ 1000 }
    requires small { size ≤ MOST_NODES }
    ensures { result ≡ size * (trains + 1) + 1 }
{
    size * (trains + 1) + 1
}

// The tree that splits the links from this place on.
pub(crate) fn whole_tree(alloc: Global, net: &Net, link: usize) -> Result<CertTree, AllocError>
    requires { link ≤ length net.now.links }
    ensures shows { IfOk result (λ tree. ShowsFrom net.now link tree) }
    ensures counted { IfOk result (λ tree. node_count tree ≡ whole_size (length net.now.trains) (length net.now.links - link)) }
{
    if link == net.links().len() {
        return Ok(CertTree::Full);
    }
    let mut children = Vec::new(alloc);
    for choice in 0..net.trains().len() + 1 {
        let child = whole_tree(alloc, net, link + 1)?;
        children.push(child)?;
    }
    Ok(CertTree::Split(link, children))
}

// The best of what was found and of all runs that keep the fates, of which those of the links from this place on are
// open. The fates are as before.
pub(crate) fn explore(
    alloc: Global,
    net: &Net,
    kinds: &[Kind],
    fates: &mut Vec<Fate>,
    link: usize,
    mut found: Option<Found>,
) -> Result<Option<Found>, Fault>
    requires modest { IsModest net.now }
    requires kinds { AreKinds net.now kinds.now }
    requires inside { link ≤ length net.now.links }
    requires decided { IsDecidedTo net.now fates.old.items link }
    requires sound { IsSound net.now found }
    ensures best { MatchResult result (λ better. IsBestUnder net.now fates.old.items found better) (λ fault. fault ≡ OutOfMemory) }
    ensures same { IfOk result (λ better. fates.new.items ≡ fates.old.items) }
{
    if link == net.links().len() {
        return best_over(alloc, net, kinds, fates, found);
    }
    for place in 0..net.trains().len() + 1 {
        fates[link] = choice_at(place);
        found = explore(alloc, net, kinds, fates, link + 1, found)?;
    }
    fates[link] = Fate::Open;
    Ok(found)
}

// The cases of a split: denied to all, then of each train in turn.
pub(crate) fn choice_at(place: usize) -> Fate
    ensures { result ≡ choice_at place }
{
    if place == 0 {
        return Fate::Denied;
    }
    Fate::Of(place - 1)
}
