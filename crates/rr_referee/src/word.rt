//! What the word of a train says.
ghost use Rattle.std.specs.Prelude.{◌≡◌, ℕ, ◌<◌, ◌≤◌, IfOk, Contains, length, map, ◌-◌};
ghost use Rattle.std.specs.Bool.{Decides};
ghost use Rattle.std.specs.List.{list_any};
ghost use Rattle.rr_referee.specs.Sheets.{IsItsWord, limit_of_kind, links_of};
ghost use Rattle.rr_referee.specs.Tests.{is_no_link};

use crate::limit::limit_of_kind;
use rr_checker::{CentreLimit, Net};
use rr_roster::Kind;
use rr_routes::sheets::TrainWord;
use std::alloc::{AllocError, Global};

// Whether the word is of the train's kind and names links of the net.
pub(crate) fn is_its_word(net: &Net, limit: &CentreLimit, word: &TrainWord) -> bool
    ensures { Decides result (IsItsWord net.now limit.now word.now) }
{
    if !is_of_kind(limit, word.kind) {
        return false;
    }
    names_links(net, word.links.as_slice())
}

fn is_of_kind(limit: &CentreLimit, kind: Kind) -> bool
    ensures { Decides result (limit_of_kind kind ≡ limit.now) }
{
    limit_of_kind(kind) == *limit
}

fn names_links(net: &Net, numbers: &[u64]) -> bool
    ensures { Decides result ((number : ℕ) → Contains numbers.now number → (0 < number) × (number ≤ length net.now.links)) }
{
    !names_no_link(net.links().len() as u64, numbers)
}

// Whether one of the numbers is that of no link.
fn names_no_link(count: u64, numbers: &[u64]) -> bool
    ensures { result ≡ list_any (is_no_link count) numbers.now }
{
    numbers.iter().any(|number| is_no_link(count, *number))
}

// Links are numbered from 1.
fn is_no_link(count: u64, number: u64) -> bool
    ensures { result ≡ is_no_link count number }
{
    number == 0 || count < number
}

// The places of the links that the word names.
pub(crate) fn links_of(alloc: Global, word: &TrainWord) -> Result<Vec<usize>, AllocError>
    ensures { IfOk result (λ links. links.items ≡ links_of word.now) }
{
    places_of(alloc, word.links.as_slice())
}

fn places_of(alloc: Global, numbers: &[u64]) -> Result<Vec<usize>, AllocError>
    ensures { IfOk result (λ places. places.items ≡ map (λ number. number - 1) numbers.now) }
{
    let mut places = Vec::new(alloc);
    for number in numbers {
        places.push(number.saturating_sub(1) as usize)?;
    }
    Ok(places)
}
