//! The sheet of a run.
ghost use Rattle.std.specs.Prelude.{◌≡◌, ℕ, suc, ◌+◌, ◌<◌, ◌^◌, IfOk, Contains, length, map, reverse};
ghost use Rattle.rr_search.specs.Found.{IsSheetFor};
ghost use Rattle.rr_search.specs.Orientation.{ascending, is_backward};
ghost use Rattle.rr_checker.specs.declared.trips.Journey.{Journey as Way};

use rr_checker::Journey;
use rr_roster::Kind;
use rr_routes::sheets::{LinkNumbers, Sheet, TrainWord};
use std::alloc::{AllocError, Global};

// A word for each journey, of the train's kind.
pub(crate) fn sheet_of(
    alloc: Global,
    kinds: &[Kind],
    journeys: &[Journey],
) -> Result<Sheet, AllocError>
    requires complete { length journeys.now ≡ length kinds.now }
    requires numbers { (way : Way) (link : ℕ) → Contains journeys.now way → Contains way.links.items link → link + 1 < 2 ^ 64 }
    ensures { IfOk result (λ sheet. IsSheetFor kinds.now journeys.now (length kinds.now) sheet) }
{
    let mut sheet = Sheet::new(alloc);
    for (train, kind) in kinds.iter().enumerate() {
        let journey = &journeys[train];
        let links = numbers_of(alloc, &journey.links)?;
        sheet.push(TrainWord { kind: *kind, links })?;
    }
    Ok(sheet)
}

// The numbers of the links, in the direction that begins with the lower one.
fn numbers_of(alloc: Global, links: &[usize]) -> Result<LinkNumbers, AllocError>
    requires { (link : ℕ) → Contains links.now link → link + 1 < 2 ^ 64 }
    ensures { IfOk result (λ numbers. numbers ≡ map suc (ascending links.now)) }
{
    let ordered = ascending(alloc, links)?;
    let mut numbers = LinkNumbers::new(alloc);
    for link in &ordered {
        numbers.push(*link as u64 + 1)?;
    }
    Ok(numbers)
}

fn ascending(alloc: Global, links: &[usize]) -> Result<Vec<usize>, AllocError>
    ensures { IfOk result (λ ordered. ordered.items ≡ ascending links.now) }
{
    if is_backward(links) {
        return links.iter().rev().copied().collect(alloc);
    }
    Vec::from_slice(alloc, links)
}

// Whether the last link's number is below the first's.
fn is_backward(links: &[usize]) -> bool
    ensures { result ≡ is_backward links.now }
{
    if links.is_empty() {
        return false;
    }
    links[links.len() - 1] < links[0]
}
