//! A graph small enough to be followed by hand.
use rr_routes::reachability::{Followers, Index, is_marked, marked_items, reached, reached_within};
use std::alloc::Global;
use std::process::Abort;

// The calls below have no contracts, so that what a test does costs its proof little.

/// The states that follow each of the states from 0.
static STATES: [&[usize]; 7] = [&[1], &[2, 4], &[0], &[2], &[], &[6], &[5]];

fn graph(rt: &impl Abort, alloc: Global) -> Vec<Followers> {
    let mut graph = Vec::new(alloc);
    for states in &STATES {
        graph
            .push(followers(rt, alloc, *states))
            .expect(rt, "memory");
    }
    graph
}

fn followers(rt: &impl Abort, alloc: Global, states: &[usize]) -> Followers {
    let mut followers = Followers::new(alloc);
    for state in states {
        followers.push(*state).expect(rt, "memory");
    }
    followers
}

fn keeps(rt: &impl Abort, alloc: Global, states: &[usize]) -> bool {
    let followers = followers(rt, alloc, states);
    followers.as_slice() == states
}

#[test]
fn keeps_followers(rt: HostRuntime) {
    let rt = &rt;
    assert!(rt; keeps(rt, rt.alloc(), &[]) && keeps(rt, rt.alloc(), &[7, 2]));
}

/// Whether just the states with these marks are reached.
fn reaches(
    rt: &impl Abort,
    alloc: Global,
    graph: &[Followers],
    starts: &[usize],
    wanted: &[bool],
) -> bool {
    let marks = reached(alloc, graph, starts).expect(rt, "memory");
    marks.as_slice() == wanted
}

/// Some states, and marks of those that are reached from them.
static REACHED: [(&[usize], [bool; 7]); 4] = [
    (&[0], [true, true, true, false, true, false, false]),
    (&[4, 6], [false, false, false, false, true, true, true]),
    (&[], [false; 7]),
    // 9 is no state
    (&[9, 3, 5], [true; 7]),
];

#[test]
fn goes_round_and_ends(rt: HostRuntime) {
    let rt = &rt;
    let graph = graph(rt, rt.alloc());
    for (starts, wanted) in &REACHED {
        assert!(rt; reaches(rt, rt.alloc(), &graph, *starts, wanted));
    }
}

/// Whether just the states with these marks are reached over the allowed ones.
fn reaches_within(
    rt: &impl Abort,
    alloc: Global,
    graph: &[Followers],
    starts: &[usize],
    allowed: &[bool],
    wanted: &[bool],
) -> bool {
    let marks = reached_within(alloc, graph, starts, allowed).expect(rt, "memory");
    marks.as_slice() == wanted
}

/// Some states, marks of those that are allowed, and of those that are reached.
static REACHED_WITHIN: [(&[usize], &[bool], [bool; 7]); 3] = [
    (
        &[0],
        &[true, true, false, true, true, true, true],
        [true, true, false, false, true, false, false],
    ),
    (
        &[0, 6],
        &[false, true, true, true, true, true, true],
        [false, false, false, false, false, true, true],
    ),
    // a state without a mark isn't allowed
    (
        &[0],
        &[true, true],
        [true, true, false, false, false, false, false],
    ),
];

#[test]
fn goes_over_allowed_states_alone(rt: HostRuntime) {
    let rt = &rt;
    let graph = graph(rt, rt.alloc());
    for (starts, allowed, wanted) in &REACHED_WITHIN {
        assert!(rt; reaches_within(rt, rt.alloc(), &graph, *starts, *allowed, wanted));
    }
}

#[test]
fn reads_marks(rt: HostRuntime) {
    let marks = [true, false].as_slice();
    let read = [
        is_marked(marks, 0),
        is_marked(marks, 1),
        is_marked(marks, 2),
    ];
    assert!(rt; read == [true, false, false]);
}

#[test]
fn takes_the_marked_items(rt: HostRuntime) {
    let rt = &rt;
    let marked = marked_items(rt.alloc(), &[7, 8, 9, 8], &[true, false, true]);
    let marked = marked.expect(rt, "memory");
    assert!(rt; marked.as_slice() == [7, 9].as_slice());
}

/// Keys, and a place noted at each.
static NOTES: [(usize, usize); 3] = [(0, 5), (3, 6), (2, 7)];

/// Whether an index of so many rows, with these notes, has just these places noted at the key and at those of its row.
fn has_noted(
    rt: &impl Abort,
    alloc: Global,
    rows: usize,
    notes: &[(usize, usize)],
    key: usize,
    places: &[usize],
) -> bool {
    let mut index = Index::with_rows(alloc, rows).expect(rt, "memory");
    for (noted, place) in notes {
        index.note(*noted, *place).expect(rt, "memory");
    }
    index.noted_at(key) == places
}

#[test]
fn notes_places_by_keys(rt: HostRuntime) {
    let rt = &rt;
    let alloc = rt.alloc();
    let noted = [
        has_noted(rt, alloc, 2, &NOTES, 0, &[5, 7]),
        has_noted(rt, alloc, 2, &NOTES, 1, &[6]),
        has_noted(rt, alloc, 0, &[], 9, &[]),
    ];
    assert!(rt; noted == [true; 3]);
}
