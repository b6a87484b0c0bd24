//! What a search for a certificate has decided, and what it may still spend.
use crate::graph::{Result, Tracks};
use rr_checker::Fate;
use rr_routes::reachability::is_marked;

// How many steps from way to way a search may take in its looks: on a large board it looks less often.
const STEPS: usize = 16_000_000;

// How a search guesses at the size of trees, and how often it may look at what the trains reach.
#[derive(Clone, Copy)]
pub(crate) struct Weights {
    // What a tree is, in sixteenths of a node, where the greatest values in reach hardly exceed the claim.
    pub(crate) least: u64,
    // A tree doubles where they exceed it by this much more.
    pub(crate) doubling: u64,
    // What a track beside decided ones weighs, in hundredths.
    pub(crate) near: u64,
    pub(crate) looks: usize,
}

// A node above the present one, or that one: the tracks that no train can have there, and those of them that are denied
// in front of its split. What is denied there is denied in the whole tree below.
#[derive(Drop)]
pub(crate) struct Level {
    pub(crate) lost: Vec<bool>,
    pub(crate) denied: Vec<usize>,
}

// What is decided so far, and what may still be spent: nodes of the tree, and looks at what the trains reach.
#[derive(Drop)]
pub(crate) struct Growth {
    // What no run is to earn more than.
    pub(crate) claim: u64,
    pub(crate) weights: Weights,
    pub(crate) fates: Vec<Fate>,
    pub(crate) levels: Vec<Level>,
    pub(crate) nodes: usize,
    pub(crate) looks: usize,
    // Whether the tree has a full leaf, under which the links out of reach are decided too.
    pub(crate) has_full: bool,
}

impl Growth {
    pub(crate) fn new(
        tracks: &Tracks,
        claim: u64,
        weights: Weights,
        nodes: usize,
    ) -> Result<Growth> {
        let most = STEPS.checked_div(steps_of(tracks)).unwrap_or(STEPS);
        Ok(Growth {
            claim,
            weights,
            fates: vec![in tracks.alloc; Fate::Open; tracks.count()]?,
            levels: Vec::new(tracks.alloc),
            nodes,
            looks: weights.looks.min(most),
            has_full: false,
        })
    }

    pub(crate) fn set_fate(&mut self, track: usize, fate: Fate) {
        if let Some(old) = self.fates.get_mut(track) {
            *old = fate;
        }
    }

    // Spends so many nodes, if there are so many.
    pub(crate) fn spend(&mut self, nodes: usize) -> bool {
        let has_so_many = nodes <= self.nodes;
        self.nodes = self.nodes.saturating_sub(nodes);
        has_so_many
    }

    // The highest level at which no train can have the track.
    pub(crate) fn level_of(&self, track: usize) -> usize {
        for (place, level) in self.levels.iter().enumerate() {
            if is_marked(&level.lost, track) {
                return place;
            }
        }
        self.levels.len()
    }
}

// How many steps from way to way there are.
fn steps_of(tracks: &Tracks) -> usize {
    let mut steps = 0usize;
    for followers in &tracks.graph {
        steps = steps.saturating_add(followers.as_slice().len());
    }
    steps
}
