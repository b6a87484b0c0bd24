//! Which links hang together, and whether they lead to a centre at all.
ghost use Rattle.std.specs.Prelude.{◌≡◌, true, not, IfOk, filter};
ghost use Rattle.std.specs.List.{list_any};
ghost use Rattle.rr_referee.specs.Trips.Near.{IsStranded, has_centre, meets};

use rr_checker::{Net, centre_at, is_shared};
use std::alloc::{AllocError, Global};

// Whether none of the links that hang together with the link leads to a centre. It goes over hexsides alone, whichever
// way a train would turn there, and stops at the first centre: so it takes little time where ways are short, and it
// spares a search of all ways through links that lead nowhere.
pub(crate) fn is_stranded(
    alloc: Global,
    net: &Net,
    link: usize,
    left: &[usize],
) -> Result<bool, AllocError>
    ensures { IfOk result (λ stranded. stranded ≡ true → IsStranded net.now link left.now) }
{
    let mut near = meeting(alloc, net, left, link)?;
    if some_centre(net, &near) {
        return Ok(false);
    }
    let mut rest = not_meeting(alloc, net, left, link)?;
    for done in 0..left.len() {
        if done == near.len() {
            return Ok(true);
        }
        let next = near[done];
        let met = meeting(alloc, net, &rest, next)?;
        if some_centre(net, &met) {
            return Ok(false);
        }
        rest = not_meeting(alloc, net, &rest, next)?;
        near.extend_from_slice(&met)?;
    }
    Ok(true)
}

// Those of the links that meet the link, in order.
fn meeting(alloc: Global, net: &Net, links: &[usize], link: usize) -> Result<Vec<usize>, AllocError>
    ensures { IfOk result (λ met. met.items ≡ filter (meets net.now link) links.now) }
{
    links
        .iter()
        .copied()
        .filter(|other| meets(net, link, *other))
        .collect(alloc)
}

// The others, in order.
fn not_meeting(
    alloc: Global,
    net: &Net,
    links: &[usize],
    link: usize,
) -> Result<Vec<usize>, AllocError>
    ensures { IfOk result (λ others. others.items ≡ filter (λ other. not (meets net.now link other)) links.now) }
{
    links
        .iter()
        .copied()
        .filter(|other| !meets(net, link, *other))
        .collect(alloc)
}

// Whether a hexside is an end of both links.
fn meets(net: &Net, link: usize, other: usize) -> bool
    ensures { result ≡ meets net.now link other }
{
    is_shared(net, &[link], &[other])
}

fn some_centre(net: &Net, links: &[usize]) -> bool
    ensures { result ≡ list_any (has_centre net.now) links.now }
{
    links.iter().any(|link| has_centre(net, *link))
}

fn has_centre(net: &Net, link: usize) -> bool
    ensures { result ≡ has_centre net.now link }
{
    centre_at(net, link).is_some()
}
