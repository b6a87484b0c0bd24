//! The run over decided links.
ghost use Rattle.std.specs.Prelude.{◌≡◌, ◌≤◌, ◌⊎◌, ℕ, ◌<◌, IfOk, MatchOption, MatchResult, Option, None, Some, List, length, map};
ghost use Rattle.rr_routes.specs.Net.{limit_of};
ghost use Rattle.rr_routes.specs.Routes.{Run, earned};
ghost use Rattle.rr_routes.specs.Certificates.{Keeps};
ghost use Rattle.rr_checker.specs.Runs.{IsOwnTrip, NoRunKeeps};
ghost use Rattle.rr_referee.specs.Sheets.{IsLegal};
ghost use Rattle.rr_search.specs.Found.{AreKinds, AreOwnTrips, EarnsAtLeast, IsBestUnder, IsModest, IsSound, trip_along};
ghost use Rattle.rr_search.specs.Whole.{IsDecidedTo};
ghost use Rattle.rr_search.specs.declared.fault.Fault.TheVariants.{OutOfMemory};

use crate::fault::Fault;
use crate::found::Found;
use crate::sheets::sheet_of;
use rr_books::Refusal;
use rr_checker::{
    CentreLimit, Fate, Journey, Net, is_shared, journey_over, others_links, own_links,
};
use rr_referee::legal;
use rr_roster::Kind;
use std::alloc::{AllocError, Global};

// What was found, or the run over the links that each train has, if that earns more.
pub(crate) fn best_over(
    alloc: Global,
    net: &Net,
    kinds: &[Kind],
    fates: &[Fate],
    found: Option<Found>,
) -> Result<Option<Found>, Fault>
    requires modest { IsModest net.now }
    requires kinds { AreKinds net.now kinds.now }
    requires decided { IsDecidedTo net.now fates.now (length net.now.links) }
    requires sound { IsSound net.now found }
    ensures { MatchResult result (λ better. IsBestUnder net.now fates.now found better) (λ fault. fault ≡ OutOfMemory) }
{
    match run_over(alloc, net, fates)? {
        None => Ok(found),
        Some(journeys) => {
            let other = found_by(alloc, net, kinds, fates, &journeys)?;
            Ok(Some(better_of(found, other)))
        }
    }
}

// The one that earns more.
fn better_of(found: Option<Found>, other: Found) -> Found
    ensures better { ((amount : ℕ) → EarnsAtLeast found amount → amount ≤ result.revenue) }
    ensures other { other.revenue ≤ result.revenue }
    ensures same { (found ≡ Some result) ⊎ (result ≡ other) }
{
    match found {
        None => other,
        Some(found) => {
            if found.revenue < other.revenue {
                return other;
            }
            found
        }
    }
}

// The sheet of the run over decided links, and what it earns.
fn found_by(
    alloc: Global,
    net: &Net,
    kinds: &[Kind],
    fates: &[Fate],
    journeys: &[Journey],
) -> Result<Found, Fault>
    requires modest { IsModest net.now }
    requires kinds { AreKinds net.now kinds.now }
    requires decided { IsDecidedTo net.now fates.now (length net.now.links) }
    requires own { AreOwnTrips net.now fates.now (length net.now.trains) (map trip_along journeys.now) }
    ensures { MatchResult result (λ found. IsBestUnder net.now fates.now None (Some found)) (λ fault. fault ≡ OutOfMemory) }
{
    let _count = net.links().len();
    let sheet = sheet_of(alloc, kinds, journeys)?;
    match legal(alloc, net, &sheet) {
        Ok(revenue) => Ok(Found { sheet, revenue }),
        Err(Refusal::IllegalSheet(_)) => unreachable!(),
        Err(_) => Err(Fault::OutOfMemory),
    }
}

// The journeys of a run over just the links that each train has; none where there is no such run.
fn run_over(alloc: Global, net: &Net, fates: &[Fate]) -> Result<Option<Vec<Journey>>, AllocError>
    ensures { IfOk result (λ found. MatchOption found (NoRunKeeps net.now fates.now)
        (λ journeys. AreOwnTrips net.now fates.now (length net.now.trains) (map trip_along journeys.items))) }
{
    let mut journeys = Vec::new(alloc);
    for (train, limit) in net.trains().iter().enumerate() {
        match journey_of(alloc, net, fates, train, limit)? {
            None => return Ok(None),
            Some(journey) => journeys.push(journey)?,
        }
    }
    Ok(Some(journeys))
}

// The journey of the train over just the links that are its own.
fn journey_of(
    alloc: Global,
    net: &Net,
    fates: &[Fate],
    train: usize,
    limit: &CentreLimit,
) -> Result<Option<Journey>, AllocError>
    requires { limit.now ≡ limit_of net.now train }
    ensures { IfOk result (λ found. MatchOption found (NoRunKeeps net.now fates.now) (λ journey. IsOwnTrip net.now fates.now train (trip_along journey))) }
{
    let own = own_links(alloc, fates, train)?;
    let others = others_links(alloc, fates, train)?;
    if is_shared(net, &own, &others) {
        return Ok(None);
    }
    let journey = journey_over(alloc, net, limit, &own)?;
    Ok(journey)
}
