//! A plan of the splits of a tree: cases of what is decided, and the splits that were looked into at each.
use crate::graph::{Result, Tracks, goes_over};
use crate::sights::Outlook;
use rr_checker::Fate;
use rr_routes::reachability::Index;
use std::alloc::Global;

// What a leaf promises: promises are in sixteenths of a node.
pub(crate) const LEAF: u64 = 16;

// How many rows the cases are noted in.
const ROWS: usize = 4096;

// The case that another goes on from, and the fate that it decides.
#[derive(Clone, Copy)]
pub(crate) struct Decision {
    pub(crate) above: usize,
    pub(crate) track: usize,
    pub(crate) fate: Fate,
}

// What is decided, by the decision that was the last, and the splits that it may go on with.
#[derive(Drop)]
struct Case {
    last: Option<Decision>,
    // The same in all cases in which trains have and reach the same tracks, and hardly in another.
    mark: u64,
    // How many nodes the tree for it promises to have.
    promise: u64,
    // Whether nothing is left to look into for the split that promises least.
    is_settled: bool,
    is_opened: bool,
    // Whether its best split is kept, whatever the others promise.
    is_kept: bool,
    splits: Vec<Branching>,
    best: usize,
}

// A split of a track, and the cases in which it is denied and given to each train; none where that is a leaf.
#[derive(Drop)]
pub(crate) struct Branching {
    pub(crate) track: usize,
    pub(crate) cases: Vec<Option<usize>>,
}

// The cases that were met, each by its place; the first has nothing decided.
#[derive(Drop)]
pub(crate) struct Plan {
    cases: Vec<Case>,
    places: Index,
}

impl Plan {
    pub(crate) fn new(alloc: Global) -> Result<Plan> {
        Ok(Plan {
            cases: Vec::new(alloc),
            places: Index::with_rows(alloc, ROWS)?,
        })
    }

    // Adds a case, and gives its place.
    pub(crate) fn add(
        &mut self,
        alloc: Global,
        last: Option<Decision>,
        mark: u64,
        promise: u64,
    ) -> Result<usize> {
        let place = self.cases.len();
        self.cases.push(Case {
            last,
            mark,
            promise,
            is_settled: false,
            is_opened: false,
            is_kept: false,
            splits: Vec::new(alloc),
            best: 0,
        })?;
        self.places.note(mark as usize, place)?;
        Ok(place)
    }

    // The case of the mark.
    pub(crate) fn case_of(&self, mark: u64) -> Option<usize> {
        for place in self.places.noted_at(mark as usize) {
            if let Some(case) = self.cases.get(*place) {
                if case.mark == mark {
                    return Some(*place);
                }
            }
        }
        None
    }

    // The last decision of the case.
    pub(crate) fn last_of(&self, place: usize) -> Option<Decision> {
        let case = self.cases.get(place)?;
        case.last
    }

    // The split of the case that promises the fewest nodes.
    pub(crate) fn split_at(&self, place: usize) -> Option<&Branching> {
        let case = self.cases.get(place)?;
        case.splits.get(case.best)
    }

    pub(crate) fn promise_at(&self, place: usize) -> u64 {
        match self.cases.get(place) {
            Some(case) => case.promise,
            None => LEAF,
        }
    }

    pub(crate) fn is_settled(&self, place: usize) -> bool {
        match self.cases.get(place) {
            Some(case) => case.is_settled,
            None => true,
        }
    }

    pub(crate) fn is_opened(&self, place: usize) -> bool {
        match self.cases.get(place) {
            Some(case) => case.is_opened,
            None => true,
        }
    }

    // The case below the best split that promises the most nodes, of those that aren't settled.
    pub(crate) fn hardest_below(&self, place: usize) -> Option<usize> {
        let split = self.split_at(place)?;
        let mut hardest = None;
        let mut most = 0;
        for below in &split.cases {
            if let Some(case) = below {
                let promise = self.promise_at(*case);
                if most < promise && !self.is_settled(*case) {
                    most = promise;
                    hardest = Some(*case);
                }
            }
        }
        hardest
    }

    // The cases below the best split, those that promise most first.
    pub(crate) fn cases_below(&self, alloc: Global, place: usize) -> Result<Vec<usize>> {
        let mut cases = Vec::new(alloc);
        if let Some(split) = self.split_at(place) {
            for below in &split.cases {
                if let Some(case) = below {
                    cases.push(*case)?;
                }
            }
        }
        cases.sort_by_key(|case| u64::MAX.saturating_sub(self.promise_at(*case)))?;
        Ok(cases)
    }

    // Lets the case go on with these splits, or with none: then a leaf stands soon below it.
    pub(crate) fn open(&mut self, place: usize, splits: Vec<Branching>) {
        if let Some(case) = self.cases.get_mut(place) {
            case.is_opened = true;
            case.is_settled = splits.is_empty();
            case.splits = splits;
        }
    }

    // Keeps the split that promises the fewest nodes now.
    pub(crate) fn keep_best(&mut self, place: usize) {
        if let Some(case) = self.cases.get_mut(place) {
            case.is_kept = true;
        }
    }

    // Has the case promise what its splits do.
    pub(crate) fn weigh(&mut self, place: usize) {
        let Some(best) = self.least_split(place) else {
            return;
        };
        if let Some(case) = self.cases.get_mut(place) {
            case.best = best;
        }
        if let Some(split) = self.split_at(place) {
            let promise = self.promise_over(split);
            let is_settled = self.is_settled_over(split);
            if let Some(case) = self.cases.get_mut(place) {
                case.promise = promise;
                case.is_settled = is_settled;
            }
        }
    }

    // The place of the split that is kept, or that promises the fewest nodes.
    fn least_split(&self, place: usize) -> Option<usize> {
        let case = self.cases.get(place)?;
        if case.is_kept {
            return Some(case.best);
        }
        let mut best = None;
        let mut least = u64::MAX;
        for (at, split) in case.splits.iter().enumerate() {
            let promise = self.promise_over(split);
            if promise < least {
                least = promise;
                best = Some(at);
            }
        }
        best
    }

    fn promise_over(&self, split: &Branching) -> u64 {
        let mut promise = LEAF;
        for below in &split.cases {
            let more = match below {
                Some(case) => self.promise_at(*case),
                None => LEAF,
            };
            promise = promise.saturating_add(more);
        }
        promise
    }

    fn is_settled_over(&self, split: &Branching) -> bool {
        for below in &split.cases {
            if let Some(case) = below {
                if !self.is_settled(*case) {
                    return false;
                }
            }
        }
        true
    }
}

// A mark of what trains have and reach.
pub(crate) fn mark_of(fates: &[Fate], outlook: &Outlook) -> u64 {
    let mut mark = 1u64;
    for (track, fate) in fates.iter().enumerate() {
        if let Fate::Of(owner) = fate {
            mark = mixed(mixed(mark, track as u64), *owner as u64);
        }
    }
    for ways in &outlook.sights {
        mark = mixed(mark_over(fates.len(), ways), mark);
    }
    mark
}

// A mark of the tracks that the marked ways go over.
fn mark_over(count: usize, ways: &[bool]) -> u64 {
    let mut mark = 1u64;
    for track in 0..count {
        if goes_over(ways, track) {
            mark = mixed(mark, track as u64);
        }
    }
    mark
}

fn mixed(mark: u64, more: u64) -> u64 {
    let sum = mark.rotate_left(23) ^ more;
    sum.wrapping_mul(0x9E37_79B9_7F4A_7C15)
}

// What is decided in the case.
pub(crate) fn fates_of(tracks: &Tracks, plan: &Plan, place: usize) -> Result<Vec<Fate>> {
    let mut fates = vec![in tracks.alloc; Fate::Open; tracks.count()]?;
    let mut at = place;
    for _turn in 0..tracks.count() {
        let Some(decision) = plan.last_of(at) else {
            break;
        };
        if let Some(old) = fates.get_mut(decision.track) {
            *old = decision.fate;
        }
        at = decision.above;
    }
    Ok(fates)
}
