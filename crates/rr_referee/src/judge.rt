//! Whether a sheet is that of a lawful run.
ghost use Rattle.std.specs.Prelude.{◌≡◌, ℕ, ◌≤◌, IfOk, MatchResult, length, slice_get};
ghost use Rattle.rr_routes.specs.Net.{limit_of, value};
ghost use Rattle.rr_referee.specs.Revenue.{revenue_of};
ghost use Rattle.rr_referee.specs.Sheets.{AreLawful, Breaks, BreaksWord, IsLegal, IsRefusal};
ghost use Rattle.rr_referee.specs.Tests.{BreaksAWord, IsLawfulAt};

use crate::apart::are_apart;
use crate::course::{Journey, journey_of};
use crate::revenue::revenue_of;
use rr_books::{Clause, Refusal};
use rr_checker::{CentreLimit, Net};
use rr_routes::sheets::{Sheet, TrainWord};
use std::alloc::Global;

/// Whether the sheet is that of a lawful run of the net's trains, and what the run earns. The sheet has a word for each
/// train, in the order of the trains; links are numbered from 1 in the order of the net. A train without links stays
/// where it is.
///
/// A net has at most 1,000 trains and 65,536 centres, each worth at most 65,535.
///
/// # Errors
///
/// `IllegalSheet` with the clause that is broken first: the clauses on one word are tried train by train, then whether
/// words are left over, then whether two routes use one hexside. `OutOfMemory` may come of any sheet.
pub fn legal(alloc: Global, net: &Net, sheet: &Sheet) -> Result<usize, Refusal>
    requires values { (centre : ℕ) → value net.now centre ≤ 65535 }
    requires centres { length net.now.values ≤ 65536 }
    requires trains { length net.now.trains ≤ 1000 }
    ensures judged { MatchResult result (λ revenue. IsLegal net.now sheet.now revenue) (λ fault. IsRefusal (Breaks net.now sheet.now) fault) }
    ensures shown { IfOk result (λ revenue. revenue ≡ revenue_of net.now sheet.now) }
    ensures bounded { IfOk result (λ revenue. revenue ≤ 4294901760000) }
{
    let words = sheet.as_slice();
    let journeys = journeys_of(alloc, net, words)?;
    if net.trains().len() < words.len() {
        return Err(Refusal::IllegalSheet(Clause::WrongWord));
    }
    if !are_apart(&journeys) {
        return Err(Refusal::IllegalSheet(Clause::SharedHexside));
    }
    let revenue = revenue_of(alloc, net, &journeys)?;
    Ok(revenue)
}

// Where the words of the trains lead.
fn journeys_of(alloc: Global, net: &Net, words: &[TrainWord]) -> Result<Vec<Journey>, Refusal>
    ensures { MatchResult result (λ journeys. AreLawful net.now words.now (length net.now.trains) journeys.items)
        (λ fault. IsRefusal (BreaksAWord net.now words.now) fault) }
{
    let mut journeys = Vec::new(alloc);
    for (train, limit) in net.trains().iter().enumerate() {
        let journey = journey_at(alloc, net, limit, words, train)?;
        journeys.push(journey)?;
    }
    Ok(journeys)
}

// Where the train of that place goes.
fn journey_at(
    alloc: Global,
    net: &Net,
    limit: &CentreLimit,
    words: &[TrainWord],
    train: usize,
) -> Result<Journey, Refusal>
    requires { limit.now ≡ limit_of net.now train }
    ensures { MatchResult result (λ journey. IsLawfulAt net.now (limit_of net.now train) words.now train journey)
        (λ fault. IsRefusal (BreaksWord net.now (limit_of net.now train) (slice_get words.now train)) fault) }
{
    match words.get(train) {
        None => Err(Refusal::IllegalSheet(Clause::WrongWord)),
        Some(word) => journey_of(alloc, net, limit, word),
    }
}
