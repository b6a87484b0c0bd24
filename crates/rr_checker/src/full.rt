//! Whether the run over decided links, if there is one, earns at most the claim.
ghost use Rattle.std.specs.Prelude.{◌≡◌, IfOk, MatchOption, length};
ghost use Rattle.std.specs.Bool.{Decides};
ghost use Rattle.std.specs.List.{list_any};
ghost use Rattle.rr_routes.specs.Net.{limit_of};
ghost use Rattle.rr_routes.specs.Certificates.{IsFull};
ghost use Rattle.rr_checker.specs.Runs.{AreCounted, CountsOn, NoRunKeeps, is_stray, is_undecided};

use crate::centres::{Counted, left_of_all};
use crate::index::index_of_links;
use crate::journeys::journey_over;
use crate::own::{is_shared_on, others_links, own_links};
use crate::railway::Net;
use crate::trips::centres_of;
use rr_routes::{CentreLimit, Fate};
use std::alloc::{AllocError, Global};

// Whether every link is decided and the run over the links, if there is one, earns at most the claim.
#[inline(never)]
pub(crate) fn is_full(
    alloc: Global,
    net: &Net,
    claim: usize,
    fates: &[Fate],
) -> Result<bool, AllocError>
    ensures { IfOk result (λ full. Decides full (IsFull net.now claim fates.now)) }
{
    if has_open(fates) {
        return Ok(false);
    }
    if has_stray(fates, net.trains().len()) {
        return Ok(true);
    }
    match run_over(alloc, net, fates)? {
        None => Ok(true),
        Some(all) => Ok(left_of_all(net, claim, &all).is_some()),
    }
}

fn has_open(fates: &[Fate]) -> bool
    ensures { result ≡ list_any is_undecided fates.now }
{
    fates.iter().any(|fate| is_undecided(fate))
}

fn is_undecided(fate: &Fate) -> bool
    ensures { result ≡ is_undecided fate.now }
{
    match fate {
        Fate::Open => true,
        Fate::Denied | Fate::Of(_) => false,
    }
}

// Whether a link is of a train beyond so many.
fn has_stray(fates: &[Fate], count: usize) -> bool
    ensures { result ≡ list_any (is_stray count) fates.now }
{
    fates.iter().any(|fate| is_stray(count, fate))
}

fn is_stray(count: usize, fate: &Fate) -> bool
    ensures { result ≡ is_stray count fate.now }
{
    match fate {
        Fate::Open | Fate::Denied => false,
        Fate::Of(owner) => count <= *owner,
    }
}

// The centres that each train counts in a run over just the links that are its own; none where there is no such run.
fn run_over(alloc: Global, net: &Net, fates: &[Fate]) -> Result<Option<Vec<Counted>>, AllocError>
    ensures { IfOk result (λ found. MatchOption found (NoRunKeeps net.now fates.now) (λ all. AreCounted net.now fates.now (length net.now.trains) all.items)) }
{
    let mut all = Vec::new(alloc);
    for (train, limit) in net.trains().iter().enumerate() {
        match counted_by(alloc, net, fates, train, limit)? {
            None => return Ok(None),
            Some(counted) => all.push(counted)?,
        }
    }
    Ok(Some(all))
}

// The centres that the train counts on a trip over just the links that are its own.
fn counted_by(
    alloc: Global,
    net: &Net,
    fates: &[Fate],
    train: usize,
    limit: &CentreLimit,
) -> Result<Option<Counted>, AllocError>
    requires { limit.now ≡ limit_of net.now train }
    ensures { IfOk result (λ found. MatchOption found (NoRunKeeps net.now fates.now) (λ counted. CountsOn net.now fates.now train counted)) }
{
    let own = own_links(alloc, fates, train)?;
    let others = others_links(alloc, fates, train)?;
    let others_index = index_of_links(alloc, net, &others)?;
    if is_shared_on(net, &others_index, &own) {
        return Ok(None);
    }
    match journey_over(alloc, net, limit, &own)? {
        None => Ok(None),
        Some(journey) => {
            let centres = centres_of(alloc, &journey.nodes)?;
            Ok(Some(Counted::of(centres)))
        }
    }
}
