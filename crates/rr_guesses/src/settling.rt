//! A best-first search for the splits of a tree: where it promises to be largest it is looked into, and then the split
//! that promises the fewest nodes is kept.
use crate::choice::{first_bids, promise_of, promise_under};
use crate::graph::{Result, Tracks};
use crate::growth::{Growth, Weights};
use crate::lost::{Holding, holdings_of, least_worth, lost_tracks, may_go_to};
use crate::plan::{Branching, Decision, Plan, fates_of, mark_of};
use crate::sights::{Outlook, outlook_of};
use rr_checker::Fate;

const WEIGHTS: Weights = Weights {
    least: 576,
    doubling: 28,
    near: 90,
    looks: 60_000,
};

// On how many tracks at most a plan is made: on more the first few cases would take all looks.
const MOST_TRACKS: usize = 300;

// How many splits of a case are looked into.
const SPLITS: usize = 4;

// How often the cases below one are looked into before its split is kept: once for so many nodes that it promises, in
// sixteenths, within bounds.
const TURN: u64 = 64;

const FEWEST_TURNS: u64 = 4;

const MOST_TURNS: u64 = 40;

// A case that is looked into: its place, what the trains reach, and what their tracks touch.
#[derive(Drop)]
struct Scene {
    place: usize,
    outlook: Outlook,
    holdings: Vec<Holding>,
}

// A plan of the splits that show that no run earns more than the claim; none on too many tracks.
pub(crate) fn planned(tracks: &Tracks, claim: u64) -> Result<Option<Plan>> {
    if tracks.count() > MOST_TRACKS {
        return Ok(None);
    }
    let mut growth = Growth::new(tracks, claim, WEIGHTS, 0)?;
    let mut plan = Plan::new(tracks.alloc)?;
    let promise = promise_of(tracks, &mut growth)?;
    let first = plan.add(tracks.alloc, None, 0, promise)?;
    settle(tracks, &mut growth, &mut plan, first, tracks.count())?;
    Ok(Some(plan))
}

// Looks into the case, keeps its best split, and settles the cases below it.
fn settle(
    tracks: &Tracks,
    growth: &mut Growth,
    plan: &mut Plan,
    place: usize,
    depth: usize,
) -> Result<()> {
    if depth == 0 {
        return Ok(());
    }
    look_below(tracks, growth, plan, place)?;
    if growth.looks == 0 || plan.is_settled(place) {
        return Ok(());
    }
    plan.keep_best(place);
    let cases = plan.cases_below(tracks.alloc, place)?;
    for case in &cases {
        settle(tracks, growth, plan, *case, depth - 1)?;
    }
    plan.weigh(place);
    Ok(())
}

fn look_below(tracks: &Tracks, growth: &mut Growth, plan: &mut Plan, place: usize) -> Result<()> {
    let turns = plan.promise_at(place) / TURN;
    for _turn in 0..turns.max(FEWEST_TURNS).min(MOST_TURNS) {
        if growth.looks == 0 || plan.is_settled(place) {
            break;
        }
        look_once(tracks, growth, plan, place)?;
    }
    Ok(())
}

// Opens the case below that promises most, and weighs all above it anew.
fn look_once(tracks: &Tracks, growth: &mut Growth, plan: &mut Plan, place: usize) -> Result<()> {
    let path = path_from(tracks, plan, place)?;
    if let Some(last) = path.last() {
        if !plan.is_opened(*last) {
            growth.fates = fates_of(tracks, plan, *last)?;
            let splits = splits_of(tracks, growth, plan, *last)?;
            plan.open(*last, splits);
        }
    }
    for case in path.iter().rev() {
        plan.weigh(*case);
    }
    Ok(())
}

// The cases from that one down to one that promises most.
fn path_from(tracks: &Tracks, plan: &Plan, place: usize) -> Result<Vec<usize>> {
    let mut path = Vec::new(tracks.alloc);
    path.push(place)?;
    let mut at = place;
    for _turn in 0..tracks.count() {
        let Some(next) = plan.hardest_below(at) else {
            break;
        };
        path.push(next)?;
        at = next;
    }
    Ok(path)
}

// Splits that the case may go on with; none where lost tracks denied are enough, or where no leaf `b` can stand.
fn splits_of(
    tracks: &Tracks,
    growth: &mut Growth,
    plan: &mut Plan,
    place: usize,
) -> Result<Vec<Branching>> {
    let mut splits = Vec::new(tracks.alloc);
    let outlook = outlook_of(tracks, &growth.fates, &[])?;
    let holdings = holdings_of(tracks, &growth.fates)?;
    let lost = lost_tracks(tracks, &growth.fates, &holdings, &outlook)?;
    let rest = outlook_of(tracks, &growth.fates, &lost)?;
    if rest.is_closed(growth.claim) || growth.claim < least_worth(tracks, &holdings) {
        return Ok(splits);
    }
    let mut bids = first_bids(tracks, growth, &rest, &lost)?;
    bids.truncate(SPLITS);
    let scene = Scene {
        place,
        outlook,
        holdings,
    };
    for bid in &bids {
        let split = branching(tracks, growth, plan, &scene, bid.track)?;
        splits.push(split)?;
    }
    Ok(splits)
}

// The split of the track at the case.
fn branching(
    tracks: &Tracks,
    growth: &mut Growth,
    plan: &mut Plan,
    scene: &Scene,
    track: usize,
) -> Result<Branching> {
    let mut cases = Vec::new(tracks.alloc);
    let denied = case_under(tracks, growth, plan, scene.place, track, Fate::Denied)?;
    cases.push(denied)?;
    for (train, holding) in scene.holdings.iter().enumerate() {
        let mut case = None;
        if may_go_to(tracks, &growth.fates, holding, &scene.outlook, track, train) {
            case = case_under(tracks, growth, plan, scene.place, track, Fate::Of(train))?;
        }
        cases.push(case)?;
    }
    Ok(Branching { track, cases })
}

// The case below in which the track has that fate; none where a leaf stands. The fates are as before.
fn case_under(
    tracks: &Tracks,
    growth: &mut Growth,
    plan: &mut Plan,
    above: usize,
    track: usize,
    fate: Fate,
) -> Result<Option<usize>> {
    growth.set_fate(track, fate);
    let last = Decision { above, track, fate };
    let case = case_after(tracks, growth, plan, last)?;
    growth.set_fate(track, Fate::Open);
    Ok(case)
}

fn case_after(
    tracks: &Tracks,
    growth: &mut Growth,
    plan: &mut Plan,
    last: Decision,
) -> Result<Option<usize>> {
    growth.looks = growth.looks.saturating_sub(1);
    let outlook = outlook_of(tracks, &growth.fates, &[])?;
    if outlook.is_closed(growth.claim) {
        return Ok(None);
    }
    let mark = mark_of(&growth.fates, &outlook);
    if let Some(case) = plan.case_of(mark) {
        return Ok(Some(case));
    }
    let promise = promise_under(tracks, growth, &outlook)?;
    let case = plan.add(tracks.alloc, Some(last), mark, promise)?;
    Ok(Some(case))
}
