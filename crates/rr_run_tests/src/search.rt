//! What the search finds on the small nets, and beside plain enumeration on nets that look random.
ghost use Rattle.rr_search.specs.Found.{IsModest};

use crate::sheets::{add_word, is_word};
use crate::small::{EXPRESS, Plan, ROW, THREE, TWO, net_of, net_of_row, net_over};
use rr_checker::{CentreLimit, CertTree, Link, Net, Node, check};
use rr_guesses::guess;
use rr_referee::{legal, limit_of_kind};
use rr_roster::Kind;
use rr_routes::MOST_NODES;
use rr_routes::sheets::Sheet;
use rr_search::{Fault, best};
use std::alloc::{AllocError, Global};
use std::process::Abort;

// The calls below have as few contracts as they can, so that what a test does costs its proof little.

/// The run of one train: its kind, its links, and what it earns.
type Run = (Kind, &'static [u64], usize);

/// Whether the sheet has one word, that of a train of the kind with these links.
fn is_sheet(sheet: &Sheet, kind: Kind, links: &[u64]) -> bool {
    match sheet.as_slice() {
        [word] => is_word(word, kind, links),
        _ => false,
    }
}

/// Stops where another run was found, or the tree doesn't show that nothing earns more than this one.
fn check_run(rt: &impl Abort, alloc: Global, net: &Net, found: &(Sheet, CertTree), wanted: Run) {
    let (sheet, tree) = found;
    let (kind, links, revenue) = wanted;
    assert!(rt; is_sheet(sheet, kind, links));
    assert!(rt; is_shown(rt, alloc, net, revenue, tree));
    assert!(rt; !is_shown(rt, alloc, net, revenue.saturating_sub(1), tree));
}

/// Whether the tree shows that nothing earns more than so much.
fn is_shown(rt: &impl Abort, alloc: Global, net: &Net, claim: usize, tree: &CertTree) -> bool {
    check(alloc, net, claim, tree).expect(rt, "memory")
}

const TO_THE_TOWN: Run = (Kind::Two, &[1, 2, 3], 30);

#[test]
fn guesses_a_run_and_its_certificate(rt: HostRuntime) {
    let rt = &rt;
    let alloc = rt.alloc();
    let net = net_of_row(rt, alloc, TWO);
    let guessed = guess(alloc, &net, &[Kind::Two], MOST_NODES).expect(rt, "memory");
    let found = guessed.expect(rt, "a guess");
    check_run(rt, alloc, &net, &found, TO_THE_TOWN);
}

/// Stops where the search doesn't find this run of one train, with its certificate.
fn check_best(rt: &impl Abort, alloc: Global, plan: &Plan, wanted: Run) {
    let (kind, _, _) = wanted;
    let net = net_of(rt, alloc, plan, &[limit_of_kind(kind)]);
    let found = best(alloc, &net, MOST_NODES).expect(rt, "a run");
    check_run(rt, alloc, &net, &found, wanted);
}

#[test]
fn runs_a_two_to_the_town(rt: HostRuntime) {
    check_best(&rt, rt.alloc(), &ROW, TO_THE_TOWN);
}

const OFF_THE_BOARD: Run = (Kind::Diesel, &[1, 2, 3, 4, 5, 6, 7], 100);

#[test]
fn runs_a_diesel_off_the_board(rt: HostRuntime) {
    check_best(&rt, rt.alloc(), &ROW, OFF_THE_BOARD);
}

/// Twelve links in a row.
const LONG_ROW: Plan = Plan {
    links: "00c0 10s1 21c1 22c1 32s3 43c2 44c2 54s5 65c3 66c3 76s7 87c4",
    token: 2,
    terminals: &[4],
};

const ALL_ALONG: Run = (Kind::Diesel, &[1, 2, 3, 4, 5, 6, 7, 8, 9, 10, 11, 12], 150);

// The tree that splits each of the links for a diesel has 8,191 nodes.
#[test]
fn finds_more_than_the_whole_tree_shows(rt: HostRuntime) {
    check_best(&rt, rt.alloc(), &LONG_ROW, ALL_ALONG);
}

/// Why nothing is found for a train that counts so many centres, within so many nodes.
fn refusal(rt: &impl Abort, alloc: Global, centres: usize, nodes: usize) -> Option<Fault> {
    assert!(rt; nodes <= MOST_NODES);
    let net = net_of_row(rt, alloc, CentreLimit::AtMost(centres));
    best(alloc, &net, nodes).err()
}

#[test]
fn gives_up_where_it_may(rt: HostRuntime) {
    let rt = &rt;
    // each tree has a node, and no kind of train counts seven centres
    let no_tree = refusal(rt, rt.alloc(), 2, 0);
    let no_kind = refusal(rt, rt.alloc(), 7, MOST_NODES);
    assert!(rt; [no_tree, no_kind] == [Some(Fault::NoCertificate); 2]);
}

/// Numbers that look random: a linear congruence.
#[derive(Drop)]
struct Dice {
    state: u64,
}

impl Dice {
    /// A number from 0 to 3.
    fn roll(&mut self) -> usize {
        self.state = self.state.wrapping_mul(1_103_515_245).wrapping_add(12_345);
        (self.state >> 16) as usize % 4
    }
}

/// A link in one of four hexes, from one of four hexsides to another or to one of four centres.
fn random_link(dice: &mut Dice) -> Link {
    let hex = dice.roll();
    let side = dice.roll();
    let end = dice.roll();
    let other = match dice.roll() {
        0 => Node::Hexside(end),
        _ => Node::Centre(end),
    };
    Link { hex, side, other }
}

fn random_net(
    rt: &impl Abort,
    alloc: Global,
    dice: &mut Dice,
    count: u64,
    limits: &[CentreLimit],
) -> Net
    ensures { IsModest result }
{
    let mut links = Vec::new(alloc);
    for _link in 0..count {
        links.push(random_link(dice)).expect(rt, "memory");
    }
    let token = dice.roll();
    net_over(rt, alloc, links, token, &[3], limits)
}

/// The most links that a word below has.
const MOST_LINKS: usize = 6;

/// Different links in order.
#[derive(Clone, Copy)]
struct Word {
    links: [u64; MOST_LINKS],
    count: usize,
}

impl Word {
    fn as_slice(&self) -> &[u64] {
        &self.links[..self.count.min(MOST_LINKS)]
    }

    /// The word with one link more, if there is room for that and the word hasn't it.
    fn with(&self, link: u64) -> Option<Word> {
        if self.count >= MOST_LINKS {
            return None;
        }
        if self.as_slice().contains(&link) {
            return None;
        }
        let mut longer = *self;
        longer.links[self.count] = link;
        longer.count = self.count + 1;
        Some(longer)
    }
}

/// Adds the words that are one link longer than this one, which has so many to choose from.
fn add_longer(words: &mut Vec<Word>, word: &Word, count: u64) -> Result<(), AllocError> {
    for link in 1..=count {
        if let Some(longer) = word.with(link) {
            words.push(longer)?;
        }
    }
    Ok(())
}

/// Each list of different links of so many, from the shortest to the longest.
fn all_words(alloc: Global, count: u64) -> Result<Vec<Word>, AllocError> {
    let mut words = Vec::new(alloc);
    words.push(Word {
        links: [0; MOST_LINKS],
        count: 0,
    })?;
    // 2,000 words are more than there are of six links
    for place in 0..2000 {
        let Some(word) = words.get(place) else {
            break;
        };
        let word = *word;
        add_longer(&mut words, &word, count)?;
    }
    Ok(words)
}

/// The sheet on which the first train has the one word, and the other, if there is one, the other word.
fn sheet_of(rt: &impl Abort, alloc: Global, kinds: &[Kind], word: &[u64], other: &[u64]) -> Sheet {
    let mut sheet = Sheet::new(alloc);
    for (place, kind) in kinds.iter().enumerate() {
        let links = if place == 0 { word } else { other };
        add_word(rt, alloc, &mut sheet, *kind, links);
    }
    sheet
}

/// What the run by these words earns, if it is legal.
fn revenue(
    rt: &impl Abort,
    alloc: Global,
    net: &Net,
    kinds: &[Kind],
    words: [&[u64]; 2],
) -> Option<usize>
    requires { IsModest net.now }
{
    let [word, other] = words;
    let sheet = sheet_of(rt, alloc, kinds, word, other);
    legal(alloc, net, &sheet).ok()
}

/// Which of two trains.
#[derive(Clone, Copy)]
enum Train {
    First,
    Second,
}

/// The words where this train runs, and the other one stays.
fn alone(train: Train, word: &Word) -> [&[u64]; 2] {
    match train {
        Train::First => [word.as_slice(), &[]],
        Train::Second => [&[], word.as_slice()],
    }
}

/// Those of the words that are routes of the train, where the other one stays.
fn routes(
    rt: &impl Abort,
    alloc: Global,
    net: &Net,
    kinds: &[Kind],
    train: Train,
    words: &[Word],
) -> Vec<Word>
    requires { IsModest net.now }
{
    let mut routes = Vec::new(alloc);
    for word in words {
        if revenue(rt, alloc, net, kinds, alone(train, word)).is_some() {
            routes.push(*word).expect(rt, "memory");
        }
    }
    routes
}

/// The most that a run earns which has this route of the first train, and one of these of the other.
fn most_beside(
    rt: &impl Abort,
    alloc: Global,
    net: &Net,
    kinds: &[Kind],
    route: &Word,
    others: &[Word],
) -> usize
    requires { IsModest net.now }
{
    let mut most = 0;
    for other in others {
        let words = [route.as_slice(), other.as_slice()];
        let earned = revenue(rt, alloc, net, kinds, words);
        most = earned.unwrap_or(0).max(most);
    }
    most
}

/// The most that any run earns whose trains have words of these, by trying them all.
fn most_of_all(
    rt: &impl Abort,
    alloc: Global,
    net: &Net,
    kinds: &[Kind],
    words: &[Word],
    others: &[Word],
) -> usize
    requires { IsModest net.now }
{
    let first = routes(rt, alloc, net, kinds, Train::First, words);
    let second = routes(rt, alloc, net, kinds, Train::Second, others);
    let mut most = 0;
    for route in &first {
        most = most_beside(rt, alloc, net, kinds, route, &second).max(most);
    }
    most
}

/// What the run earns that the search finds, with a certificate that nothing earns more.
fn best_revenue(rt: &impl Abort, alloc: Global, net: &Net) -> usize
    requires { IsModest net.now }
{
    let (sheet, tree) = best(alloc, net, MOST_NODES).expect(rt, "a run");
    let revenue = legal(alloc, net, &sheet).expect(rt, "a legal sheet");
    assert!(rt; is_shown(rt, alloc, net, revenue, &tree));
    revenue
}

/// Nets that look random, and the trains on them.
struct Series {
    /// With what the dice begin.
    seed: u64,
    /// How many links each net has: so few that it has a certificate.
    links: u64,
    /// How many of them a second train has to choose from, if there is one.
    others: u64,
    kinds: &'static [Kind],
    limits: &'static [CentreLimit],
}

/// Compares what is found with plain enumeration, on each of fifty nets.
fn compare(rt: &impl Abort, alloc: Global, series: &Series) {
    let words = all_words(alloc, series.links).expect(rt, "memory");
    let others = all_words(alloc, series.others).expect(rt, "memory");
    let mut dice = Dice { state: series.seed };
    for _net in 0..50 {
        let net = random_net(rt, alloc, &mut dice, series.links, series.limits);
        let most = most_of_all(rt, alloc, &net, series.kinds, &words, &others);
        assert!(rt; best_revenue(rt, alloc, &net) == most);
    }
}

static ONE_TRAIN: Series = Series {
    seed: 1830,
    links: 6,
    others: 0,
    kinds: &[Kind::Three],
    limits: &[THREE],
};

#[test]
fn agrees_with_all_runs_of_one_train(rt: HostRuntime) {
    compare(&rt, rt.alloc(), &ONE_TRAIN);
}

static TWO_TRAINS: Series = Series {
    seed: 1846,
    links: 5,
    others: 5,
    kinds: &[Kind::Two, Kind::Diesel],
    limits: &[TWO, EXPRESS],
};

#[test]
fn agrees_with_all_runs_of_two_trains(rt: HostRuntime) {
    compare(&rt, rt.alloc(), &TWO_TRAINS);
}
