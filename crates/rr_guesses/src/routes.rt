//! The routes over the tracks: a path from a token to a centre, or two that have nothing but the token in common.
use crate::graph::{Result, Tracks, has_counted, set_mark};
use rr_checker::CentreLimit;
use rr_routes::reachability::is_marked;
use smallvec::SmallVec;

// How many paths from one token are followed at most.
const ARMS: usize = 4000;

// How many ways are followed in looking for them at most.
const STEPS: usize = 500_000;

// How many of them, those that earn most, are joined in pairs.
const JOINED: usize = 400;

// How many routes of a train are kept, those that earn most.
const LINES: usize = 5000;

// A path from a token to a centre: its ways, the centres on it but for the token, and what these are worth.
#[derive(Drop)]
struct Arm {
    ways: SmallVec<usize, 12>,
    centres: usize,
    worth: u64,
}

// The path that is followed, the nodes on it or not to be on it, and the paths found.
#[derive(Drop)]
struct Walker {
    limit: CentreLimit,
    ways: Vec<usize>,
    centres: usize,
    worth: u64,
    shut: Vec<bool>,
    arms: Vec<Arm>,
    // How many ways may still be followed.
    steps: usize,
}

// A token, and the paths from it, the best first.
#[derive(Drop)]
pub(crate) struct Hub {
    token: usize,
    arms: Vec<Arm>,
}

// A route as the paths that it goes over, back over the first to a token and on over the second, and what it earns.
#[derive(Drop)]
pub(crate) struct Line<'a> {
    pub(crate) back: &'a [usize],
    pub(crate) on: &'a [usize],
    pub(crate) worth: u64,
}

// Routes of a train of the limit over the paths from these tokens, the best first.
pub(crate) fn lines_over<'a>(
    tracks: &Tracks,
    limit: &CentreLimit,
    hubs: &'a [Hub],
) -> Result<Vec<Line<'a>>> {
    let mut lines = Vec::new(tracks.alloc);
    for hub in hubs {
        add_lines(tracks, limit, hub, &mut lines)?;
    }
    lines.sort_by_key(|line| u64::MAX.saturating_sub(line.worth))?;
    lines.truncate(LINES);
    Ok(lines)
}

// The tokens, each with the paths that pass none of the earlier ones.
pub(crate) fn hubs_of(tracks: &Tracks, limit: &CentreLimit) -> Result<Vec<Hub>> {
    let mut hubs = Vec::new(tracks.alloc);
    let mut earlier = vec![in tracks.alloc; false; tracks.ways.len()]?;
    for start in &tracks.starts {
        let token = tracks.beginning(*start);
        if set_mark(&mut earlier, token, true) {
            let arms = arms_of(tracks, limit, token, &earlier)?;
            hubs.push(Hub { token, arms })?;
        }
    }
    Ok(hubs)
}

// Adds the routes over the token.
fn add_lines<'a>(
    tracks: &Tracks,
    limit: &CentreLimit,
    hub: &'a Hub,
    lines: &mut Vec<Line<'a>>,
) -> Result<()> {
    let Some(stop) = tracks.stop_at(hub.token) else {
        return Ok(());
    };
    add_single(stop.worth, &hub.arms, lines)?;
    if stop.is_terminal {
        return Ok(());
    }
    let joined = hub.arms.get(..JOINED).unwrap_or(&hub.arms);
    add_paired(tracks, limit, stop.worth, joined, lines)
}

// Adds the routes of one path each.
fn add_single<'a>(own: u64, arms: &'a [Arm], lines: &mut Vec<Line<'a>>) -> Result<()> {
    for arm in arms {
        lines.push(Line {
            back: &[],
            on: arm.ways.as_slice(),
            worth: own.saturating_add(arm.worth),
        })?;
    }
    Ok(())
}

// Adds the routes of two paths each.
fn add_paired<'a>(
    tracks: &Tracks,
    limit: &CentreLimit,
    own: u64,
    arms: &'a [Arm],
    lines: &mut Vec<Line<'a>>,
) -> Result<()> {
    let mut nodes = vec![in tracks.alloc; false; tracks.ways.len()]?;
    for (place, arm) in arms.iter().enumerate() {
        mark_nodes(tracks, arm, true, &mut nodes);
        add_pairs(tracks, limit, own, arm, &nodes, &arms[..place], lines)?;
        mark_nodes(tracks, arm, false, &mut nodes);
    }
    Ok(())
}

// Adds the routes over the path, which has the marked nodes, and one of the others.
fn add_pairs<'a>(
    tracks: &Tracks,
    limit: &CentreLimit,
    own: u64,
    arm: &'a Arm,
    nodes: &[bool],
    others: &'a [Arm],
    lines: &mut Vec<Line<'a>>,
) -> Result<()> {
    let worth = own.saturating_add(arm.worth);
    for other in others {
        let centres = arm.centres.saturating_add(other.centres);
        if !has_counted(limit, centres) && !meets(tracks, nodes, other) {
            lines.push(Line {
                back: arm.ways.as_slice(),
                on: other.ways.as_slice(),
                worth: worth.saturating_add(other.worth),
            })?;
        }
    }
    Ok(())
}

// Marks the nodes on the path, or takes their marks away.
fn mark_nodes(tracks: &Tracks, arm: &Arm, mark: bool, nodes: &mut Vec<bool>) {
    for way in &arm.ways {
        set_mark(nodes, tracks.ending(*way), mark);
    }
}

fn meets(tracks: &Tracks, nodes: &[bool], arm: &Arm) -> bool {
    for way in &arm.ways {
        if is_marked(nodes, tracks.ending(*way)) {
            return true;
        }
    }
    false
}

// The paths from the token, within the limit, that pass none of the earlier tokens, the best first.
fn arms_of(
    tracks: &Tracks,
    limit: &CentreLimit,
    token: usize,
    earlier: &[bool],
) -> Result<Vec<Arm>> {
    let mut walker = Walker {
        limit: *limit,
        ways: Vec::new(tracks.alloc),
        centres: 0,
        worth: 0,
        shut: Vec::from_slice(tracks.alloc, earlier)?,
        arms: Vec::new(tracks.alloc),
        steps: STEPS,
    };
    for start in &tracks.starts {
        if tracks.beginning(*start) == token {
            follow(tracks, *start, &mut walker, tracks.ways.len())?;
        }
    }
    let mut arms = walker.arms;
    arms.sort_by_key(|arm| u64::MAX.saturating_sub(arm.worth))?;
    Ok(arms)
}

// Goes on over the way from the path that is followed, and notes each centre that it comes to.
fn follow(tracks: &Tracks, way: usize, walker: &mut Walker, depth: usize) -> Result<()> {
    let node = tracks.ending(way);
    if depth == 0 || walker.steps == 0 || walker.arms.len() >= ARMS {
        return Ok(());
    }
    walker.steps = walker.steps.saturating_sub(1);
    if !set_mark(&mut walker.shut, node, true) {
        return Ok(());
    }
    let (centres, worth) = (walker.centres, walker.worth);
    walker.ways.push(way)?;
    if let Some(stop) = tracks.stop_at(way) {
        walker.centres = centres.saturating_add(1);
        walker.worth = worth.saturating_add(stop.worth);
        note(tracks, walker)?;
    }
    // The token counts too.
    if !has_counted(&walker.limit, walker.centres.saturating_add(1)) {
        if let Some(followers) = tracks.graph.get(way) {
            for next in followers.as_slice() {
                follow(tracks, *next, walker, depth - 1)?;
            }
        }
    }
    walker.ways.pop();
    walker.centres = centres;
    walker.worth = worth;
    set_mark(&mut walker.shut, node, false);
    Ok(())
}

// Notes the path that is followed.
fn note(tracks: &Tracks, walker: &mut Walker) -> Result<()> {
    let ways = SmallVec::from_slice(tracks.alloc, &walker.ways)?;
    walker.arms.push(Arm {
        ways,
        centres: walker.centres,
        worth: walker.worth,
    })?;
    Ok(())
}

// The tracks of the route in order, in the direction that begins with the lower one.
pub(crate) fn tracks_on(tracks: &Tracks, line: &Line) -> Result<Vec<usize>> {
    let mut route = Vec::new(tracks.alloc);
    add_tracks(line.back, &mut route)?;
    route.reverse();
    add_tracks(line.on, &mut route)?;
    if route.last() < route.first() {
        route.reverse();
    }
    Ok(route)
}

fn add_tracks(ways: &[usize], route: &mut Vec<usize>) -> Result<()> {
    for way in ways {
        route.push(*way / 2)?;
    }
    Ok(())
}
