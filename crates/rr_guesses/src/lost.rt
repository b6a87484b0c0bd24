//! The tracks that trains can't have beside those that are decided.
use crate::graph::{Result, Tracks, set_mark};
use crate::sights::{Outlook, worth_of};
use rr_checker::{CentreLimit, Fate};
use rr_routes::reachability::is_marked;

// The centres that the tracks of a train touch, and how many these are.
#[derive(Drop)]
pub(crate) struct Holding {
    stops: Vec<bool>,
    count: usize,
}

// What each train's tracks touch.
pub(crate) fn holdings_of(tracks: &Tracks, fates: &[Fate]) -> Result<Vec<Holding>> {
    let mut holdings = Vec::new(tracks.alloc);
    for train in 0..tracks.limits.len() {
        let holding = holding_of(tracks, fates, train)?;
        holdings.push(holding)?;
    }
    Ok(holdings)
}

pub(crate) fn holding_of(tracks: &Tracks, fates: &[Fate], train: usize) -> Result<Holding> {
    let mut stops = vec![in tracks.alloc; false; tracks.stops.len()]?;
    let mut count = 0usize;
    for (track, fate) in fates.iter().enumerate() {
        if *fate == Fate::Of(train) {
            if let Some(stop) = stop_on(tracks, track) {
                if set_mark(&mut stops, stop, true) {
                    count = count.saturating_add(1);
                }
            }
        }
    }
    Ok(Holding { stops, count })
}

// The centre that the track touches: one of its ends at least is a hexside.
fn stop_on(tracks: &Tracks, track: usize) -> Option<usize> {
    let way = tracks.ways.get(track.saturating_mul(2))?;
    way.stop
}

// What the trains count at least in a leaf `b`, whichever tracks they have besides.
pub(crate) fn least_worth(tracks: &Tracks, holdings: &[Holding]) -> u64 {
    let mut worth = 0u64;
    for (train, holding) in holdings.iter().enumerate() {
        if let Some(limit) = tracks.limits.get(train) {
            worth = worth.saturating_add(worth_of(tracks, limit, &holding.stops));
        }
    }
    worth
}

// Which open tracks no train can have: it doesn't reach them, or they clash with its own.
pub(crate) fn lost_tracks(
    tracks: &Tracks,
    fates: &[Fate],
    holdings: &[Holding],
    outlook: &Outlook,
) -> Result<Vec<bool>> {
    let mut lost = Vec::new(tracks.alloc);
    for (track, fate) in fates.iter().enumerate() {
        let is_lost = *fate == Fate::Open
            && !may_go_to_any(tracks, fates, holdings, outlook, track);
        lost.push(is_lost)?;
    }
    Ok(lost)
}

fn may_go_to_any(
    tracks: &Tracks,
    fates: &[Fate],
    holdings: &[Holding],
    outlook: &Outlook,
    track: usize,
) -> bool {
    for (train, holding) in holdings.iter().enumerate() {
        if may_go_to(tracks, fates, holding, outlook, track, train) {
            return true;
        }
    }
    false
}

// Whether the train reaches the track, and nothing clashes with it: the track would be a third one of the train at a
// node, would touch one centre too many, or would share a hexside with another train.
pub(crate) fn may_go_to(
    tracks: &Tracks,
    fates: &[Fate],
    holding: &Holding,
    outlook: &Outlook,
    track: usize,
    train: usize,
) -> bool {
    let first = track.saturating_mul(2);
    outlook.reaches(train, track)
        && !meets_badly(tracks, fates, first, train)
        && !meets_badly(tracks, fates, first.saturating_add(1), train)
        && !counts_over(tracks, holding, track, train)
}

// Whether two tracks of the train meet where the way begins, or one of another train touches the hexside there.
fn meets_badly(tracks: &Tracks, fates: &[Fate], way: usize, train: usize) -> bool {
    let Some(way) = tracks.ways.get(way) else {
        return false;
    };
    let mut own = 0usize;
    for track in &way.others {
        if let Some(Fate::Of(owner)) = fates.get(*track) {
            if *owner == train {
                own = own.saturating_add(1);
            } else if way.is_from_side {
                return true;
            }
        }
    }
    own >= 2
}

fn counts_over(tracks: &Tracks, holding: &Holding, track: usize, train: usize) -> bool {
    let Some(CentreLimit::AtMost(most)) = tracks.limits.get(train) else {
        return false;
    };
    match stop_on(tracks, track) {
        Some(stop) => *most <= holding.count && !is_marked(&holding.stops, stop),
        None => false,
    }
}
