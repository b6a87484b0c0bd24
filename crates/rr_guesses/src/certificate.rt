//! The search for a certificate: a tree that splits the tracks in dispute, and takes from all trains the tracks that
//! none of them can have.
use crate::choice::{Ranked, best_split, sort_ranked};
use crate::graph::{Result, Tracks, set_mark};
use crate::growth::{Growth, Level, Weights};
use crate::lost::{holding_of, holdings_of, least_worth, lost_tracks, may_go_to};
use crate::plan::{Branching, Plan};
use crate::settling::planned;
use crate::sights::{Outlook, outlook_of};
use rr_checker::{CertTree, Fate};

const WEIGHTS: Weights = Weights {
    least: 64,
    doubling: 10,
    near: 90,
    looks: 8_000,
};

// What becomes of a node.
#[derive(Drop)]
enum Finding {
    Leaf(CertTree),
    Split(usize),
    GivenUp,
}

// A tree of at most so many nodes that shows that no run earns more than the claim, if one is found: over a plan of
// its splits, or with the splits that promise most at each node.
pub(crate) fn tree_for(
    tracks: &Tracks,
    claim: u64,
    is_planned: bool,
    nodes: usize,
) -> Result<Option<CertTree>> {
    let plan = match is_planned {
        true => planned(tracks, claim)?,
        false => Some(Plan::new(tracks.alloc)?),
    };
    let Some(plan) = plan else {
        return Ok(None);
    };
    let mut growth = Growth::new(tracks, claim, WEIGHTS, nodes)?;
    let root = Node {
        case: Some(0),
        last: None,
        depth: nodes,
    };
    let mut trees = Vec::new(tracks.alloc);
    if !tree_under(tracks, &mut growth, &plan, root, &mut trees)? {
        return Ok(None);
    }
    match trees.pop() {
        Some(tree) if growth.has_full => {
            let whole = with_outer(tracks, tree)?;
            Ok(Some(whole))
        }
        other => Ok(other),
    }
}

// The tree in front of which the links out of reach are denied.
fn with_outer(tracks: &Tracks, tree: CertTree) -> Result<CertTree> {
    let mut tree = tree;
    for (place, is_reached) in tracks.reached.iter().enumerate() {
        if !*is_reached {
            tree = denied_before(tracks, tree, place)?;
        }
    }
    Ok(tree)
}

// A split of a link that no train can have, with the tree where it is denied.
fn denied_before(tracks: &Tracks, tree: CertTree, place: usize) -> Result<CertTree> {
    let mut children = Vec::new(tracks.alloc);
    children.push(tree)?;
    for train in 0..tracks.limits.len() {
        children.push(CertTree::Bad(train))?;
    }
    Ok(CertTree::Split(place, children))
}

// A node that the tree is grown from: the case of the plan, the track that was split last, and how many splits may
// stand below.
#[derive(Clone, Copy)]
struct Node {
    case: Option<usize>,
    last: Option<usize>,
    depth: usize,
}

// Puts a tree that shows the same under what is decided so far behind the others, and tells whether one was found.
fn tree_under(
    tracks: &Tracks,
    growth: &mut Growth,
    plan: &Plan,
    node: Node,
    trees: &mut Vec<CertTree>,
) -> Result<bool> {
    if node.depth == 0 {
        return Ok(false);
    }
    let split = split_at(plan, node.case);
    let track = match node_at(tracks, growth, split, node.last)? {
        Finding::Leaf(leaf) => {
            trees.push(leaf)?;
            return Ok(true);
        }
        Finding::GivenUp => return Ok(false),
        Finding::Split(track) => track,
    };
    let trains = tracks.limits.len();
    let mut children = Vec::new(tracks.alloc);
    for turn in 0..trains.saturating_add(1) {
        growth.set_fate(track, choice_at(trains.saturating_sub(turn)));
        let below = Node {
            case: case_below(split, track, trains.saturating_sub(turn)),
            last: Some(track),
            depth: node.depth - 1,
        };
        if !tree_under(tracks, growth, plan, below, &mut children)? {
            return Ok(false);
        }
    }
    growth.set_fate(track, Fate::Open);
    children.reverse();
    let split = CertTree::Split(tracks.place_of(track), children);
    trees.push(left_level(tracks, growth, split)?)?;
    Ok(true)
}

fn split_at(plan: &Plan, case: Option<usize>) -> Option<&Branching> {
    plan.split_at(case?)
}

// The case of the planned split in which the track has the fate of that place.
fn case_below(split: Option<&Branching>, track: usize, place: usize) -> Option<usize> {
    let split = split?;
    if split.track != track {
        return None;
    }
    *split.cases.get(place)?
}

// The case of a split at that place: denied to all, then given to each train in turn.
fn choice_at(place: usize) -> Fate {
    match place.checked_sub(1) {
        Some(train) => Fate::Of(train),
        None => Fate::Denied,
    }
}

// The tree with what its level denies in front of it; the level is left. (Out of line: the recursion's frame stays
// small.)
#[inline(never)]
fn left_level(tracks: &Tracks, growth: &mut Growth, tree: CertTree) -> Result<CertTree> {
    let mut tree = tree;
    if let Some(level) = growth.levels.pop() {
        for track in &level.denied {
            growth.set_fate(*track, Fate::Open);
            tree = denied_before(tracks, tree, tracks.place_of(*track))?;
        }
    }
    Ok(tree)
}

// A leaf where one stands, else the track to split, at a level of its own. (Out of line, too.)
#[inline(never)]
fn node_at(
    tracks: &Tracks,
    growth: &mut Growth,
    planned: Option<&Branching>,
    last: Option<usize>,
) -> Result<Finding> {
    if !growth.spend(1) {
        return Ok(Finding::GivenUp);
    }
    let outlook = outlook_of(tracks, &growth.fates, &[])?;
    if let Some(leaf) = leaf_of(growth, &outlook) {
        return Ok(Finding::Leaf(leaf));
    }
    if let Some(leaf) = clash_of(tracks, growth, &outlook, last)? {
        return Ok(Finding::Leaf(leaf));
    }
    grown(tracks, growth, planned, &outlook)
}

fn leaf_of(growth: &Growth, outlook: &Outlook) -> Option<CertTree> {
    match outlook.stranded {
        Some(train) => Some(CertTree::Bad(train)),
        None if outlook.worth <= growth.claim => Some(CertTree::Bound),
        None => None,
    }
}

// The leaf where a train can't have the track that it was just given.
fn clash_of(
    tracks: &Tracks,
    growth: &mut Growth,
    outlook: &Outlook,
    last: Option<usize>,
) -> Result<Option<CertTree>> {
    let Some(track) = last else {
        return Ok(None);
    };
    let Some(Fate::Of(train)) = growth.fates.get(track).copied() else {
        return Ok(None);
    };
    growth.set_fate(track, Fate::Open);
    let holding = holding_of(tracks, &growth.fates, train)?;
    let fits = may_go_to(tracks, &growth.fates, &holding, outlook, track, train);
    growth.set_fate(track, Fate::Of(train));
    if fits {
        return Ok(None);
    }
    Ok(Some(CertTree::Bad(train)))
}

// A level for the node; a leaf where denying the lost tracks is enough, else the track to split.
fn grown(
    tracks: &Tracks,
    growth: &mut Growth,
    planned: Option<&Branching>,
    outlook: &Outlook,
) -> Result<Finding> {
    let holdings = holdings_of(tracks, &growth.fates)?;
    let lost = lost_tracks(tracks, &growth.fates, &holdings, outlook)?;
    let rest = outlook_of(tracks, &growth.fates, &lost)?;
    add_level(tracks, growth, &lost)?;
    if rest.is_closed(growth.claim) {
        return closed(tracks, growth, lost);
    }
    if growth.claim < least_worth(tracks, &holdings) {
        if let Some(finding) = filled(tracks, growth, &lost)? {
            return Ok(finding);
        }
    }
    match chosen_split(tracks, growth, planned, &rest, &lost)? {
        Some(track) => Ok(Finding::Split(track)),
        None => Ok(Finding::GivenUp),
    }
}

// The planned track where it is open still, else the one that promises most.
fn chosen_split(
    tracks: &Tracks,
    growth: &mut Growth,
    planned: Option<&Branching>,
    outlook: &Outlook,
    lost: &[bool],
) -> Result<Option<usize>> {
    if let Some(split) = planned {
        if growth.fates.get(split.track) == Some(&Fate::Open) {
            return Ok(Some(split.track));
        }
    }
    best_split(tracks, growth, outlook, lost)
}

fn add_level(tracks: &Tracks, growth: &mut Growth, lost: &[bool]) -> Result<()> {
    let level = Level {
        lost: Vec::from_slice(tracks.alloc, lost)?,
        denied: Vec::new(tracks.alloc),
    };
    growth.levels.push(level)?;
    Ok(())
}

// Where no leaf `b` can stand below: all lost tracks are denied, and where no other is open the leaf is full.
fn filled(tracks: &Tracks, growth: &mut Growth, lost: &[bool]) -> Result<Option<Finding>> {
    if !growth.has_full {
        growth.has_full = true;
        let outer = tracks.reached.len().saturating_sub(tracks.count());
        let each = tracks.limits.len().saturating_add(1);
        if !growth.spend(outer.saturating_mul(each)) {
            return Ok(Some(Finding::GivenUp));
        }
    }
    if !deny(tracks, growth, lost)? {
        return Ok(Some(Finding::GivenUp));
    }
    if growth.fates.contains(&Fate::Open) {
        return Ok(None);
    }
    let leaf = left_level(tracks, growth, CertTree::Full)?;
    Ok(Some(Finding::Leaf(leaf)))
}

// The leaf that stands where enough of the lost tracks are denied.
fn closed(tracks: &Tracks, growth: &mut Growth, lost: Vec<bool>) -> Result<Finding> {
    let enough = enough_of(tracks, growth, lost)?;
    if !deny(tracks, growth, &enough)? {
        return Ok(Finding::GivenUp);
    }
    let outlook = outlook_of(tracks, &growth.fates, &[])?;
    match leaf_of(growth, &outlook) {
        None => Ok(Finding::GivenUp),
        Some(leaf) => {
            let tree = left_level(tracks, growth, leaf)?;
            Ok(Finding::Leaf(tree))
        }
    }
}

// Those of the lost tracks that are enough. The ones that were lost last go first: the others are denied for more of
// the tree.
fn enough_of(tracks: &Tracks, growth: &Growth, lost: Vec<bool>) -> Result<Vec<bool>> {
    let mut enough = lost;
    let order = order_of(tracks, growth, &enough)?;
    for it in &order {
        set_mark(&mut enough, it.track, false);
        let outlook = outlook_of(tracks, &growth.fates, &enough)?;
        if !outlook.is_closed(growth.claim) {
            set_mark(&mut enough, it.track, true);
        }
    }
    Ok(enough)
}

// The marked tracks, those of the lowest levels first.
fn order_of(tracks: &Tracks, growth: &Growth, marks: &[bool]) -> Result<Vec<Ranked>> {
    let mut order = Vec::new(tracks.alloc);
    for (track, is_marked) in marks.iter().enumerate() {
        if *is_marked {
            let level = growth.level_of(track) as u64;
            let rank = u64::MAX.saturating_sub(level);
            order.push(Ranked { track, rank })?;
        }
    }
    sort_ranked(&mut order)?;
    Ok(order)
}

// Denies the marked tracks, each at the highest level that can, and tells whether there were nodes for that.
fn deny(tracks: &Tracks, growth: &mut Growth, marks: &[bool]) -> Result<bool> {
    let each = tracks.limits.len().saturating_add(1);
    for (track, is_marked) in marks.iter().enumerate() {
        if *is_marked {
            if !growth.spend(each) {
                return Ok(false);
            }
            let place = growth.level_of(track);
            if let Some(level) = growth.levels.get_mut(place) {
                level.denied.push(track)?;
            }
            growth.set_fate(track, Fate::Denied);
        }
    }
    Ok(true)
}
