//! What a train reaches over the links that it may use.
ghost use Rattle.std.specs.Prelude.{◌≡◌, IfOk, map};
ghost use Rattle.rr_routes.specs.Net.{Net};
ghost use Rattle.rr_routes.specs.Certificates.{MayUse, fate_of};
ghost use Rattle.rr_checker.specs.Steps.{allows};
ghost use Rattle.rr_checker.specs.Searching.{AreEndMarks, AreEnds, IsTracksOf};

use crate::step::{Step, may_use};
use crate::tracks::Tracks;
use rr_routes::Fate;
use rr_routes::reachability::{marked_items, reached_within};
use std::alloc::{AllocError, Global};

// The steps with which walks of the train end.
pub(crate) fn ends_of(
    alloc: Global,
    tracks: &Tracks,
    fates: &[Fate],
    train: usize,
) -> Result<Vec<Step>, AllocError>
    ensures { IfOk result (λ ends. (net : Net) → IsTracksOf net tracks.now → AreEnds net (MayUse fates.now train) ends.items) }
{
    let marks = marks_of(alloc, tracks, fates, train)?;
    let ends = marked_items(alloc, &tracks.steps, &marks)?;
    Ok(ends)
}

// For each step whether a walk of the train ends with it.
pub(crate) fn marks_of(
    alloc: Global,
    tracks: &Tracks,
    fates: &[Fate],
    train: usize,
) -> Result<Vec<bool>, AllocError>
    ensures { IfOk result (λ marks. (net : Net) → IsTracksOf net tracks.now → AreEndMarks net (MayUse fates.now train) tracks.now.steps.items marks.items) }
{
    let allowed = allowed_of(alloc, &tracks.steps, fates, train)?;
    let marks = reached_within(alloc, &tracks.graph, &tracks.starts, &allowed)?;
    Ok(marks)
}

// For each step whether the train may use its link.
fn allowed_of(
    alloc: Global,
    steps: &[Step],
    fates: &[Fate],
    train: usize,
) -> Result<Vec<bool>, AllocError>
    ensures { IfOk result (λ allowed. allowed.items ≡ map (λ step. allows (fate_of fates.now step.link) train) steps.now) }
{
    steps
        .iter()
        .map(|step| may_use(fates, train, step.link))
        .collect(alloc)
}
