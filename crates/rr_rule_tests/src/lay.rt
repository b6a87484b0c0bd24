//! Tiles and tokens on the small board, with PRR's first token in A.
use crate::fixtures::{B, ROSTER, follow, give, position};
use rr_books::{Cert, Corp, Entry, Kind, Marker, Money, Party, Place, Private, Train};
use rr_desk::layout::{Lay, Station};
use rr_desk::{Desk, Position};
use rr_kit::Kit;
use rr_lay::laws::{one_verdict_on_a_tile, one_verdict_on_a_token};
use rr_words::HexName;
use std::alloc::Global;
use std::process::Abort;

const SMALL: &str = "hex A 0,0 grey c20/1:5
hex B 1,0 yellow 2-5
hex C 2,0 grey t10:2,5
hex D 3,0 grey c30/1:2,5
hex E 4,0 red o40/40:2
hex F 1,1 white cost=30
home PRR A 1
home NYC D 1
block SV F
";

// D has a second slot.
const WIDER: &str = "hex A 0,0 grey c20/1:5
hex B 1,0 yellow 2-5
hex C 2,0 grey t10:2,5
hex D 3,0 grey c30/2:2,5
home PRR A 1
home NYC D 1
";

const TILES: &[u8] = b"yellow 7 x4 0-1
green 23 x3 0-3 0-4
green 24 x3 0-3 0-2
";

const PRR: Corp = Corp::Prr;

// The calls below have no contracts, so that what a test does costs its proof little.

/// The kit with this board.
fn kit(rt: &impl Abort, alloc: Global, board: &str) -> Kit {
    Kit::read(alloc, b"100p\n", ROSTER.as_bytes(), TILES, board.as_bytes()).expect(rt, "a kit")
}

fn name(rt: &impl Abort, word: &str) -> HexName {
    HexName::read(word.as_bytes()).expect(rt, "a hex's name")
}

/// The first 3 goes to a place.
fn give_three(rt: &impl Abort, table: &mut Position, to: Place) {
    let kind = Kind::Three;
    let train = Train { kind, number: 1 };
    assert!(rt; table.books().has_train(train));
    follow(rt, table, Entry::Train { train, to });
}

/// A token of the corporation stands in the first centre of a hex.
fn station(rt: &impl Abort, table: &mut Position, corp: Corp, hex: &str) {
    let hex = name(rt, hex);
    let centre = 1;
    follow(rt, table, Entry::Station { corp, hex, centre });
}

/// Two players, and PRR at home with 100 dollars. The first place has the SV, the second one the first 3.
fn at_home(rt: &impl Abort, alloc: Global, sv: Place, three: Place) -> Position {
    let mut table = position(rt, alloc, 2);
    let pay = Entry::Pay {
        from: Party::Bank,
        to: Party::Corp(PRR),
        amount: Money(100),
    };
    follow(rt, &mut table, pay);
    give(rt, &mut table, Cert::Private(Private::Sv), sv);
    give_three(rt, &mut table, three);
    station(rt, &mut table, PRR, "A");
    table
}

/// How many entries a command added, whether its words come first, and PRR's money then.
type Added = (usize, bool, i64);

/// What a command added, or the number of its fault.
type Outcome = Result<Added, u8>;

fn begins_with_words(entries: &[Entry]) -> bool {
    matches!(entries, [Entry::Step(Marker::Act(_)), ..])
}

/// What was taken. The table is as it is behind it.
fn settle(desk: Desk, table: &mut Position) -> Added {
    let (position, entries) = desk.into_parts();
    *table = *position;
    let entries = entries.as_slice();
    let cash = table.books().balance(Party::Corp(PRR)).0;
    (entries.len(), begins_with_words(entries), cash)
}

/// Lays a tile for PRR.
fn lay(rt: &impl Abort, alloc: Global, kit: &Kit, table: &mut Position, lay: &Lay) -> Outcome {
    if let Err(fault) = rr_lay::judge_lay(alloc, kit, table, PRR, lay) {
        return Err(fault.number());
    }
    let mut desk = Desk::new(alloc, table).expect(rt, "memory");
    rr_lay::play_lay(kit, &mut desk, PRR, lay).expect(rt, "memory");
    Ok(settle(desk, table))
}

/// Places PRR's token in a centre of a hex.
fn place(
    rt: &impl Abort,
    alloc: Global,
    kit: &Kit,
    table: &mut Position,
    station: &Station,
) -> Outcome {
    if let Err(fault) = rr_lay::judge_station(alloc, kit, table, station) {
        return Err(fault.number());
    }
    let mut desk = Desk::new(alloc, table).expect(rt, "memory");
    rr_lay::play_station(&mut desk, station).expect(rt, "memory");
    Ok(settle(desk, table))
}

/// A tile on the hex of this name, turned.
fn tile_on(rt: &impl Abort, hex: &str, tile: u16, turn: u8) -> Lay {
    let hex = name(rt, hex);
    Lay { hex, tile, turn }
}

/// PRR's token in a centre of the hex of this name.
fn token_in(rt: &impl Abort, hex: &str, centre: u64) -> Station {
    let hex = name(rt, hex);
    let corp = PRR;
    Station { corp, hex, centre }
}

/// How many tiles were laid, and how many tokens are on the board.
fn sizes(table: &Position) -> (usize, usize) {
    let layout = table.layout();
    (layout.lays().len(), layout.stations().len())
}

/// What comes of a tile and of a token, and what is on the board.
#[derive(Clone, Copy)]
enum Step {
    /// PRR lays this tile on the hex of this name, turned so.
    Lays(&'static str, u16, u8, Outcome),
    /// PRR places a token in this centre of the hex of this name.
    Places(&'static str, u64, Outcome),
    /// NYC's token comes into the first centre of D.
    FillsD,
    /// So many tiles were laid, and so many tokens are on the board.
    Has(usize, usize),
}

use Step::{FillsD, Has, Lays, Places};

fn is_right(rt: &impl Abort, alloc: Global, kit: &Kit, table: &mut Position, step: Step) -> bool {
    match step {
        Lays(hex, tile, turn, wanted) => {
            lay(rt, alloc, kit, table, &tile_on(rt, hex, tile, turn)) == wanted
        }
        Places(hex, centre, wanted) => {
            place(rt, alloc, kit, table, &token_in(rt, hex, centre)) == wanted
        }
        FillsD => {
            station(rt, table, Corp::Nyc, "D");
            true
        }
        Has(tiles, tokens) => sizes(table) == (tiles, tokens),
    }
}

/// Where the SV is, and where the first 3 is.
type Start = (Place, Place);

/// Whether the steps go as they say on this board, one behind the other.
fn goes_so(rt: &impl Abort, alloc: Global, board: &str, start: Start, steps: &[Step]) -> bool {
    let kit = kit(rt, alloc, board);
    let (sv, three) = start;
    let mut table = at_home(rt, alloc, sv, three);
    let mut right = true;
    for step in steps {
        right = right && is_right(rt, alloc, &kit, &mut table, *step);
    }
    right
}

/// Where the first 3 is, and a tile that is refused while the SV is in the offering.
static REFUSED_TILES: [(Place, Step); 6] = [
    (Place::Offer, Lays("B", 23, 2, Err(32))),
    (Place::Gone, Lays("B", 24, 2, Err(34))),
    (Place::Gone, Lays("Z", 7, 0, Err(1))),
    (Place::Gone, Lays("F", 8, 0, Err(1))),
    (Place::Gone, Lays("A", 23, 0, Err(32))),
    (Place::Gone, Lays("F", 7, 0, Err(34))),
];

#[test]
fn what_there_is_not_cannot_be_laid(rt: HostRuntime) {
    for (three, step) in &REFUSED_TILES {
        let steps = [*step, Has(0, 1)];
        assert!(rt; goes_so(&rt, rt.alloc(), SMALL, (Place::Offer, *three), &steps));
    }
}

static A_GREEN_TILE: [Step; 2] = [Lays("B", 23, 2, Ok((3, true, 100))), Has(1, 1)];

#[test]
fn green_from_the_first_3(rt: HostRuntime) {
    let start = (Place::Offer, Place::Gone);
    assert!(rt; goes_so(&rt, rt.alloc(), SMALL, start, &A_GREEN_TILE));
}

/// A tile on F behind one on B, where a player has the SV.
static BLOCKED: [Step; 2] = [
    Lays("B", 23, 2, Ok((3, true, 100))),
    Lays("F", 7, 3, Err(36)),
];

/// The same where PRR has it.
static NOT_BLOCKED: [Step; 2] = [
    Lays("B", 23, 2, Ok((3, true, 100))),
    Lays("F", 7, 3, Ok((3, true, 70))),
];

#[test]
fn a_private_blocks_while_a_player_holds_it(rt: HostRuntime) {
    let of_player = (Place::Seat(B), Place::Gone);
    assert!(rt; goes_so(&rt, rt.alloc(), SMALL, of_player, &BLOCKED));
    let of_prr = (Place::Corp(PRR), Place::Gone);
    assert!(rt; goes_so(&rt, rt.alloc(), SMALL, of_prr, &NOT_BLOCKED));
}

/// The SV and the first 3 are in the offering.
const AT_FIRST: Start = (Place::Offer, Place::Offer);

static REFUSED_TOKENS: [Step; 3] = [
    Places("Z", 1, Err(1)),
    Places("C", 1, Err(37)),
    Places("D", 1, Err(37)),
];

#[test]
fn the_second_token_has_its_places(rt: HostRuntime) {
    assert!(rt; goes_so(&rt, rt.alloc(), SMALL, AT_FIRST, &REFUSED_TOKENS));
}

static A_SECOND_TOKEN: [Step; 3] = [
    Places("D", 257, Err(37)),
    Places("D", 1, Ok((3, true, 60))),
    Places("D", 1, Err(37)),
];

#[test]
fn the_second_token(rt: HostRuntime) {
    assert!(rt; goes_so(&rt, rt.alloc(), WIDER, AT_FIRST, &A_SECOND_TOKEN));
}

static A_FILLED_CITY: [Step; 3] = [FillsD, Places("D", 1, Err(37)), Has(0, 2)];

#[test]
fn a_filled_city_takes_no_token(rt: HostRuntime) {
    assert!(rt; goes_so(&rt, rt.alloc(), SMALL, AT_FIRST, &A_FILLED_CITY));
}

#[test]
fn laws_are_called() {
    one_verdict_on_a_tile();
    one_verdict_on_a_token();
}
