//! Nets on which a corporation has a route, and nets on which it has none.
use crate::small::{EXPRESS, TWO, links, net_over};
use rr_checker::CentreLimit;
use rr_referee::trips::has_route;
use rr_referee::trips::laws::two_centres_are_enough;
use std::alloc::Global;
use std::process::Abort;

// The calls below have no contracts, so that what a test does costs its proof little.

/// Links, the centre with a token, how many centres a train counts, and whether the corporation has a route.
type Case = (&'static str, usize, CentreLimit, bool);

/// Whether a corporation with a token in that centre alone has a route on the net of these links.
fn has(rt: &impl Abort, alloc: Global, text: &str, token: usize, limit: CentreLimit) -> bool {
    let links = links(rt, alloc, text);
    let net = net_over(rt, alloc, links, token, &[1], &[limit]);
    has_route(alloc, &net, &limit).expect(rt, "memory")
}

/// Stops where a corporation hasn't a route as is said.
fn check_cases(rt: &impl Abort, alloc: Global, cases: &[Case]) {
    for (links, token, limit, wanted) in cases {
        assert!(rt; has(rt, alloc, *links, *token, *limit) == *wanted);
    }
}

static TWO_CENTRES: [Case; 4] = [
    ("00c0 10c1", 0, TWO, true),
    ("00c0 10c1", 1, EXPRESS, true),
    ("00c0 10c1", 0, CentreLimit::AtMost(1), false),
    ("00c0 10c1", 2, TWO, false),
];

#[test]
fn two_centres_are_a_route(rt: HostRuntime) {
    check_cases(&rt, rt.alloc(), &TWO_CENTRES);
}

static USED_TWICE: [Case; 5] = [
    // a city and a track on one hexside, and behind it tracks that lead back to it
    ("00c0 00s1 10s2 13s0 22s4 34s3 41c1", 0, TWO, false),
    ("00c0 00s1 10s2 13s0 22s4 34s3 41c1", 1, TWO, false),
    // with a track on which the way needn't come back
    ("00c0 00s1 10s2 13s0 22s4 34s3 41c1 24s1", 0, TWO, true),
    // from a city to itself
    ("00c0 01c0 10s1", 0, TWO, false),
    // back into the same hex
    ("00c0 00s1 11c1", 0, TWO, false),
];

#[test]
fn no_route_is_seen_where_a_hexside_is_used_twice(rt: HostRuntime) {
    check_cases(&rt, rt.alloc(), &USED_TWICE);
}

#[test]
fn laws_are_called() {
    two_centres_are_enough();
}
