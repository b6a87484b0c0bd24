//! Certificates on the small nets, and the parts of a route.
use crate::sheets::deep_text;
use crate::small::{Centres, EXPRESS, Plan, ROW, THREE, TWO, net_of, net_of_row};
use rr_checker::{
    CentreLimit, Net, Node, centre_at, centres_of, check, counts_over, ends_at_centres, far_end,
    has_node, has_token_on, is_clear, is_simple, is_walk, value,
};
use rr_routes::sheets::read_certificate;
use std::alloc::Global;
use std::process::Abort;

// The calls below have no contracts, so that what a test does costs its proof little.

/// Whether the certificate, as one of so many trains, is accepted for the claim on the net of one train.
fn is_accepted(
    rt: &impl Abort,
    alloc: Global,
    plan: &Plan,
    limit: CentreLimit,
    claim: usize,
    trains: usize,
    certificate: &[u8],
) -> bool {
    let net = net_of(rt, alloc, plan, &[limit]);
    let tree = read_certificate(alloc, trains, certificate).expect(rt, "a certificate");
    check(alloc, &net, claim, &tree).expect(rt, "memory")
}

/// A net of one train and how many centres that counts; a claim, a certificate, and whether it is accepted.
type Case = (Plan, CentreLimit, usize, &'static str, bool);

/// Stops where a certificate isn't judged as is said.
fn check_cases(rt: &impl Abort, alloc: Global, cases: &[Case]) {
    for (plan, limit, claim, certificate, wanted) in cases {
        let certificate = certificate.as_bytes();
        let accepted = is_accepted(rt, alloc, plan, *limit, *claim, 1, certificate);
        assert!(rt; accepted == *wanted);
    }
}

/// What the net of the row has for a diesel.
static OF_ROW: Centres = Centres {
    tokens: &[0],
    terminals: &[3],
    values: &[20, 10, 30, 40, 50],
    trains: &[EXPRESS],
};

#[test]
fn keeps_what_it_is_given(rt: HostRuntime) {
    let rt = &rt;
    let net = net_of_row(rt, rt.alloc(), EXPRESS);
    assert!(rt; net.links().len() == 7 && OF_ROW.are_those_of(&net));
}

// over the link behind the town a 2 earns no more than 30, nor without the first link
const THIRTY: &str = "s5 b s1 b s4 x1 x1";

// a 2 reaches 20 and 10 without link 5, 20 alone without the first link too, and else 40 and 30
const THREE_REACHES: &str = "s5 s1 b b b";

static ONE_TRAIN: [Case; 10] = [
    (ROW, TWO, 30, THIRTY, true),
    (ROW, TWO, 20, THIRTY, false),
    (ROW, THREE, 60, "s7 b s1 b s4 x1 s6 x1 x1", true),
    (ROW, THREE, 60, "b", false),
    (ROW, THREE, 90, "b", true),
    (ROW, EXPRESS, 100, "b", true),
    (ROW, EXPRESS, 99, "b", false),
    (ROW, TWO, 30, THREE_REACHES, false),
    (ROW, TWO, 69, THREE_REACHES, false),
    (ROW, TWO, 70, THREE_REACHES, true),
];

#[test]
fn judges_one_train(rt: HostRuntime) {
    check_cases(&rt, rt.alloc(), &ONE_TRAIN);
}

#[test]
fn judges_the_form_of_a_tree(rt: HostRuntime) {
    let rt = &rt;
    let alloc = rt.alloc();
    // a split without the case of the train
    assert!(rt; !is_accepted(rt, alloc, &ROW, TWO, 1000, 0, b"s5 b"));
    // a link that is split again where it is decided, 2,047 levels deep
    let deep = deep_text(rt, alloc, b"s1 b ", 2_047, b'f');
    assert!(rt; !is_accepted(rt, alloc, &ROW, TWO, 30, 1, &deep));
}

/// Two centres, each with a link of its own.
const APART: Plan = Plan {
    links: "00c0 10c1",
    token: 0,
    terminals: &[],
};

/// One centre that both links touch.
const JOINED: Plan = Plan {
    links: "00c0 11c0",
    token: 0,
    terminals: &[],
};

static FULL_LEAVES: [Case; 3] = [
    (APART, TWO, 30, "s1 s2 f f s2 f f", true),
    (APART, TWO, 20, "s1 s2 f f s2 f f", false),
    (APART, TWO, 30, "f", false),
];

#[test]
fn judges_full_leaves(rt: HostRuntime) {
    check_cases(&rt, rt.alloc(), &FULL_LEAVES);
}

/// Both links are the train's own.
const OWN: &str = "s1 b s2 b x1";

static TOUCHED_CENTRES: [Case; 4] = [
    (APART, CentreLimit::AtMost(1), 30, OWN, true),
    (APART, CentreLimit::AtMost(2), 30, OWN, false),
    (JOINED, CentreLimit::AtMost(0), 30, OWN, true),
    (JOINED, CentreLimit::AtMost(1), 30, OWN, false),
];

#[test]
fn judges_leaves_by_the_centres_that_are_touched(rt: HostRuntime) {
    check_cases(&rt, rt.alloc(), &TOUCHED_CENTRES);
}

/// The nodes along the first three links of the row.
static NODES: [Node; 4] = [
    Node::Centre(0),
    Node::Hexside(0),
    Node::Hexside(1),
    Node::Centre(1),
];

/// Whether the nodes are those of a walk over the links, one with a token that may be a route.
fn are_along(net: &Net, links: &[usize], nodes: &[Node]) -> bool {
    is_walk(net, links, nodes)
        && is_simple(nodes)
        && ends_at_centres(nodes)
        && is_clear(net, nodes)
        && has_token_on(net, nodes)
}

/// Whether these are the centres among the nodes, and no more than a 2 counts.
fn has_centres(rt: &impl Abort, alloc: Global, nodes: &[Node], centres: &[usize]) -> bool {
    let counted = centres_of(alloc, nodes).expect(rt, "memory");
    counted.as_slice() == centres && !counts_over(&TWO, &counted)
}

#[test]
fn tells_the_parts_of_a_route(rt: HostRuntime) {
    let rt = &rt;
    let net = net_of_row(rt, rt.alloc(), TWO);
    let told = [
        are_along(&net, &[0, 1, 2], &NODES),
        has_node(&NODES, &Node::Hexside(1)),
        has_centres(rt, rt.alloc(), &NODES, &[0, 1]),
    ];
    assert!(rt; told == [true; 3]);
}

fn is_told(net: &Net) -> bool {
    far_end(net, 1, &Node::Hexside(0)) == Node::Hexside(1)
        && centre_at(net, 2) == Some(1)
        && value(net, 3) == 40
}

#[test]
fn tells_of_links_and_centres(rt: HostRuntime) {
    let rt = &rt;
    let net = net_of_row(rt, rt.alloc(), TWO);
    assert!(rt; is_told(&net));
}
