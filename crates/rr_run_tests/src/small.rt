//! Nets small enough to be judged by hand.
ghost use Rattle.rr_search.specs.Found.{IsModest};

use rr_checker::{CentreLimit, Link, Net, Node};
use std::alloc::Global;
use std::process::Abort;

pub(crate) const TWO: CentreLimit = CentreLimit::AtMost(2);

pub(crate) const THREE: CentreLimit = CentreLimit::AtMost(3);

pub(crate) const EXPRESS: CentreLimit = CentreLimit::Unlimited;

/// A net but for its trains.
#[derive(Clone, Copy)]
pub(crate) struct Plan {
    /// Each link as its hex, the hexside at one end, and the hexside or the centre at the other.
    pub(crate) links: &'static str,
    /// The one centre with a token.
    pub(crate) token: usize,
    /// The centres that no route passes.
    pub(crate) terminals: &'static [usize],
}

const LINKS_OF_ROW: &str = "00c0 10s1 21c1 22c1 32c2 33c2 43c3";

/// A city with the token, a track, a town, a city and an off-board area in a row.
pub(crate) const ROW: Plan = Plan {
    links: LINKS_OF_ROW,
    token: 0,
    terminals: &[3],
};

/// The row, where others fill the second city.
pub(crate) const FILLED_ROW: Plan = Plan {
    links: LINKS_OF_ROW,
    token: 0,
    terminals: &[2, 3],
};

pub(crate) fn links(rt: &impl Abort, alloc: Global, text: &str) -> Vec<Link> {
    let mut links = Vec::new(alloc);
    for word in text.split_ascii_whitespace() {
        links.push(link(rt, word.as_bytes())).expect(rt, "memory");
    }
    links
}

fn link(rt: &impl Abort, word: &[u8]) -> Link {
    let [hex, side, kind, end] = word else {
        panic!(rt; "a link of another form");
    };
    let end = digit(*end);
    let other = match *kind {
        b's' => Node::Hexside(end),
        _ => Node::Centre(end),
    };
    let hex = digit(*hex);
    let side = digit(*side);
    Link { hex, side, other }
}

fn digit(character: u8) -> usize {
    usize::from(character.wrapping_sub(b'0'))
}

/// What a net has beside its links.
pub(crate) struct Centres {
    pub(crate) tokens: &'static [usize],
    pub(crate) terminals: &'static [usize],
    pub(crate) values: &'static [u32],
    pub(crate) trains: &'static [CentreLimit],
}

impl Centres {
    pub(crate) fn are_those_of(&self, net: &Net) -> bool {
        net.tokens() == self.tokens
            && net.terminals() == self.terminals
            && net.values() == self.values
            && net.trains() == self.trains
    }
}

/// A net with one token, and with what each of its first centres is worth.
pub(crate) fn net_over(
    rt: &impl Abort,
    alloc: Global,
    links: Vec<Link>,
    token: usize,
    terminals: &[usize],
    limits: &[CentreLimit],
) -> Net
    ensures { IsModest result }
{
    assert!(rt; limits.len() <= 1000);
    let tokens = Vec::from_slice(alloc, &[token]).expect(rt, "memory");
    let terminals = Vec::from_slice(alloc, terminals).expect(rt, "memory");
    let values = Vec::from_slice(alloc, &[20, 10, 30, 40, 50]).expect(rt, "memory");
    let trains = Vec::from_slice(alloc, limits).expect(rt, "memory");
    Net::new(links, tokens, terminals, values, trains)
}

/// The net of the row, for one train that counts so many centres.
pub(crate) fn net_of_row(rt: &impl Abort, alloc: Global, limit: CentreLimit) -> Net
    ensures { IsModest result }
{
    net_of(rt, alloc, &ROW, &[limit])
}

/// The net of the plan, for trains that count so many centres.
pub(crate) fn net_of(rt: &impl Abort, alloc: Global, plan: &Plan, limits: &[CentreLimit]) -> Net
    ensures { IsModest result }
{
    let links = links(rt, alloc, plan.links);
    net_over(rt, alloc, links, plan.token, plan.terminals, limits)
}
