//! What trains reach under the fates of the tracks.
use crate::graph::{Result, Tracks, goes_over, has_counted, may_use, set_mark};
use rr_checker::{CentreLimit, Fate};
use rr_routes::reachability::is_marked;

// What the trains reach.
#[derive(Drop)]
pub(crate) struct Outlook {
    // For each train marks of the ways that it goes over.
    pub(crate) sights: Vec<Vec<bool>>,
    // The greatest values that they count there, together.
    pub(crate) worth: u64,
    // A train that doesn't reach a track of its own.
    pub(crate) stranded: Option<usize>,
}

impl Outlook {
    // Whether no run keeps the fates and earns more than the claim.
    pub(crate) fn is_closed(&self, claim: u64) -> bool {
        self.worth <= claim || self.stranded.is_some()
    }

    // Whether the train goes over the track.
    pub(crate) fn reaches(&self, train: usize, track: usize) -> bool {
        match self.sights.get(train) {
            Some(ways) => goes_over(ways, track),
            None => false,
        }
    }

    // Whether some train reaches the track.
    pub(crate) fn is_seen(&self, track: usize) -> bool {
        for ways in &self.sights {
            if goes_over(ways, track) {
                return true;
            }
        }
        false
    }

    // A train that doesn't reach a track of its own.
    fn stranded_train(&self, fates: &[Fate]) -> Option<usize> {
        for (track, fate) in fates.iter().enumerate() {
            if let Fate::Of(owner) = fate {
                if !self.reaches(*owner, track) {
                    return Some(*owner);
                }
            }
        }
        None
    }
}

// What the trains reach under the fates, without the marked tracks.
pub(crate) fn outlook_of(tracks: &Tracks, fates: &[Fate], without: &[bool]) -> Result<Outlook> {
    let mut outlook = Outlook {
        sights: Vec::new(tracks.alloc),
        worth: 0,
        stranded: None,
    };
    for (train, limit) in tracks.limits.iter().enumerate() {
        let ways = reached_ways(tracks, fates, without, train)?;
        let worth = sight_worth(tracks, limit, &ways)?;
        outlook.worth = outlook.worth.saturating_add(worth);
        outlook.sights.push(ways)?;
    }
    outlook.stranded = outlook.stranded_train(fates);
    Ok(outlook)
}

// Marks of the ways that the train goes over.
fn reached_ways(
    tracks: &Tracks,
    fates: &[Fate],
    without: &[bool],
    train: usize,
) -> Result<Vec<bool>> {
    let mut ways = vec![in tracks.alloc; false; tracks.ways.len()]?;
    let mut pending = Vec::new(tracks.alloc);
    let starts = &tracks.starts;
    visit(fates, without, train, starts, &mut ways, &mut pending)?;
    for _turn in 0..tracks.ways.len() {
        let Some(way) = pending.pop() else {
            break;
        };
        if let Some(followers) = tracks.graph.get(way) {
            let next = followers.as_slice();
            visit(fates, without, train, next, &mut ways, &mut pending)?;
        }
    }
    Ok(ways)
}

// Marks those of the ways that may be used, and notes the newly marked ones as pending.
fn visit(
    fates: &[Fate],
    without: &[bool],
    train: usize,
    next: &[usize],
    ways: &mut Vec<bool>,
    pending: &mut Vec<usize>,
) -> Result<()> {
    for way in next {
        let track = *way / 2;
        if may_use(fates, train, track)
            && !is_marked(without, track)
            && set_mark(ways, *way, true)
        {
            pending.push(*way)?;
        }
    }
    Ok(())
}

// The greatest values that a train of the limit counts where it goes over the marked ways.
fn sight_worth(tracks: &Tracks, limit: &CentreLimit, ways: &[bool]) -> Result<u64> {
    let mut stops = vec![in tracks.alloc; false; tracks.stops.len()]?;
    for (place, way) in tracks.ways.iter().enumerate() {
        if let Some(stop) = way.stop {
            if is_marked(ways, place) {
                set_mark(&mut stops, stop, true);
            }
        }
    }
    Ok(worth_of(tracks, limit, &stops))
}

// The greatest values that a train of the limit counts among the marked centres and those with a token.
pub(crate) fn worth_of(tracks: &Tracks, limit: &CentreLimit, marks: &[bool]) -> u64 {
    let mut counted = 0usize;
    let mut worth = 0u64;
    for (place, stop) in tracks.stops.iter().enumerate() {
        if has_counted(limit, counted) {
            return worth;
        }
        if stop.has_token || is_marked(marks, place) {
            counted = counted.saturating_add(1);
            worth = worth.saturating_add(stop.worth);
        }
    }
    worth
}
