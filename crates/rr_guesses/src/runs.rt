//! The best run of all trains over their routes.
use crate::graph::{Result, Tracks, set_mark};
use crate::routes::{Hub, Line, hubs_of, lines_over, tracks_on};
use rr_roster::Kind;
use rr_routes::reachability::is_marked;
use rr_routes::sheets::{LinkNumbers, Sheet, TrainWord};
use std::alloc::Global;

// How many routes are tried beside others.
const TRIES: usize = 200_000;

// The best run so far and the present one, in `picks`: for the trains from the last to the first the place of its
// route, if it has one. The hexsides of the present one, and how many routes may still be tried.
#[derive(Drop)]
struct Trial {
    alloc: Global,
    best: Vec<Option<usize>>,
    // What the best run earns; none where no run is found yet.
    worth: Option<u64>,
    picks: Vec<Option<usize>>,
    taken: Vec<bool>,
    tries: usize,
}

impl Trial {
    fn new(alloc: Global, nodes: usize, tries: usize) -> Result<Trial> {
        Ok(Trial {
            alloc,
            best: Vec::new(alloc),
            worth: None,
            picks: Vec::new(alloc),
            taken: vec![in alloc; false; nodes]?,
            tries,
        })
    }

    // The place of the train's route in the best run.
    fn pick_of(&self, train: usize) -> Option<usize> {
        let place = self.best.len().checked_sub(train)?.checked_sub(1)?;
        *self.best.get(place)?
    }

    // Keeps the present run, if it earns more than the best so far.
    fn keep(&mut self, worth: u64) -> Result<()> {
        if self.worth < Some(worth) {
            self.best = Vec::from_slice(self.alloc, &self.picks)?;
            self.worth = Some(worth);
        }
        Ok(())
    }

    fn has_room_for(&self, tracks: &Tracks, line: &Line) -> bool {
        self.has_room_over(tracks, line.back) && self.has_room_over(tracks, line.on)
    }

    fn has_room_over(&self, tracks: &Tracks, ways: &[usize]) -> bool {
        for way in ways {
            if let Some(side) = tracks.side_at(*way) {
                if is_marked(&self.taken, side) {
                    return false;
                }
            }
        }
        true
    }
}

// The sheet of a run that earns much, and what it earns.
pub(crate) fn good_sheet(tracks: &Tracks, kinds: &[Kind]) -> Result<(Sheet, u64)> {
    let hubs = hubs_of_all(tracks)?;
    let trains = lines_of_all(tracks, &hubs)?;
    let mut trial = Trial::new(tracks.alloc, tracks.ways.len(), TRIES)?;
    improve(tracks, &trains, trains.len(), 0, &mut trial)?;
    let sheet = written(tracks, &trains, kinds, &trial)?;
    Ok((sheet, trial.worth.unwrap_or(0)))
}

// For each train the tokens, with the paths from them.
fn hubs_of_all(tracks: &Tracks) -> Result<Vec<Vec<Hub>>> {
    let mut hubs = Vec::new(tracks.alloc);
    for limit in &tracks.limits {
        let own = hubs_of(tracks, limit)?;
        hubs.push(own)?;
    }
    Ok(hubs)
}

// For each train its routes, the best first.
fn lines_of_all<'a>(tracks: &Tracks, hubs: &'a [Vec<Hub>]) -> Result<Vec<Vec<Line<'a>>>> {
    let mut trains = Vec::new(tracks.alloc);
    for (limit, own) in tracks.limits.iter().zip(hubs) {
        let lines = lines_over(tracks, limit, own)?;
        trains.push(lines)?;
    }
    Ok(trains)
}

// The best run as a sheet.
fn written(tracks: &Tracks, trains: &[Vec<Line>], kinds: &[Kind], trial: &Trial) -> Result<Sheet> {
    let mut sheet = Sheet::new(tracks.alloc);
    for (train, kind) in kinds.iter().enumerate() {
        let links = match picked(trains, train, trial.pick_of(train)) {
            Some(line) => numbers_of(tracks, line)?,
            None => LinkNumbers::new(tracks.alloc),
        };
        sheet.push(TrainWord { kind: *kind, links })?;
    }
    Ok(sheet)
}

fn picked<'a, 'b>(
    trains: &'a [Vec<Line<'b>>],
    train: usize,
    pick: Option<usize>,
) -> Option<&'a Line<'b>> {
    trains.get(train)?.get(pick?)
}

fn numbers_of(tracks: &Tracks, line: &Line) -> Result<LinkNumbers> {
    let mut numbers = LinkNumbers::new(tracks.alloc);
    let route = tracks_on(tracks, line)?;
    for track in &route {
        let place = tracks.place_of(*track) as u64;
        numbers.push(place.saturating_add(1))?;
    }
    Ok(numbers)
}

// Tries the routes of the first so many trains beside what is taken, and keeps the best run. `trains` has the routes of
// each, the best first.
fn improve(
    tracks: &Tracks,
    trains: &[Vec<Line>],
    left: usize,
    worth: u64,
    trial: &mut Trial,
) -> Result<()> {
    if left == 0 {
        return trial.keep(worth);
    }
    let rest = most_of(trains, left - 1);
    if let Some(lines) = trains.get(left - 1) {
        for (place, line) in lines.iter().enumerate() {
            let most = worth.saturating_add(line.worth);
            if trial.tries == 0 || Some(most.saturating_add(rest)) <= trial.worth {
                break;
            }
            trial.tries = trial.tries.saturating_sub(1);
            if trial.has_room_for(tracks, line) {
                trial.picks.push(Some(place))?;
                mark_sides(tracks, line, true, trial);
                improve(tracks, trains, left - 1, most, trial)?;
                mark_sides(tracks, line, false, trial);
                trial.picks.pop();
            }
        }
    }
    trial.picks.push(None)?;
    improve(tracks, trains, left - 1, worth, trial)?;
    trial.picks.pop();
    Ok(())
}

// Marks the hexsides on the route, or takes their marks away.
fn mark_sides(tracks: &Tracks, line: &Line, mark: bool, trial: &mut Trial) {
    mark_sides_over(tracks, line.back, mark, trial);
    mark_sides_over(tracks, line.on, mark, trial);
}

fn mark_sides_over(tracks: &Tracks, ways: &[usize], mark: bool, trial: &mut Trial) {
    for way in ways {
        if let Some(side) = tracks.side_at(*way) {
            set_mark(&mut trial.taken, side, mark);
        }
    }
}

// What the first so many trains earn at most.
fn most_of(trains: &[Vec<Line>], count: usize) -> u64 {
    let mut most = 0u64;
    for train in 0..count {
        if let Some(lines) = trains.get(train) {
            if let Some(line) = lines.first() {
                most = most.saturating_add(line.worth);
            }
        }
    }
    most
}
