//! What is laid on the small board, the links and centres there, and what two corporations reach.
use crate::board::{Piece, laid, name, small_board, tiles};
use rr_desk::layout::{Lay, Station};
use rr_kit::board::Place;
use rr_network::{
    Axial, CentreAt, Hexside, Link, Network, Node, Reach, Stop, across, centre_key, hexside_at,
    hexside_key, last_lay, laws, name_key, node_of, same_node,
};
use rr_roster::Corp;
use rr_tiles::Kind;
use std::alloc::Global;
use std::process::Abort;

/// PRR's token, and a tile that makes two tracks of the one on B.
const TWO_TRACKS: &[Piece] = &[Piece::Prr, Piece::Tile(2)];

/// The same, and NYC's token, which fills the city on D.
const FILLED_CITY: &[Piece] = &[Piece::Prr, Piece::Tile(2), Piece::Nyc];

// The calls below have no contracts, so that what a test does costs its proof little.

fn network(rt: &impl Abort, alloc: Global, pieces: &[Piece]) -> Network {
    let board = small_board(rt, alloc);
    let tiles = tiles(rt, alloc);
    let layout = laid(rt, pieces);
    let network = Network::of(alloc, &board, &tiles, &layout).expect(rt, "memory");
    network.keeps_rules();
    network
}

/// The one city, town or off-board area of the hex.
fn centre(rt: &impl Abort, hex: &[u8]) -> Node {
    Node::Centre(CentreAt {
        hex: name(rt, hex),
        number: 1,
    })
}

/// The place of a hex, and an edge of it.
type Side = (i8, i8, u8);

fn hexside(side: Side) -> Hexside {
    let (q, r, edge) = side;
    hexside_at(&Place { q, r }, edge)
}

/// Whether tile 23 was laid alone, on B and turned by 2.
fn is_only_tile(lays: &[Lay]) -> bool {
    match lays {
        [lay] => lay.hex.as_bytes() == b"B".as_slice() && (lay.tile, lay.turn) == (23, 2),
        _ => false,
    }
}

/// Whether PRR's token was put alone, on this centre, the first of its hex.
fn is_only_token(stations: &[Station], centre: &Node) -> bool {
    match stations {
        [station] => {
            (station.corp, station.centre) == (Corp::Prr, 1) && same_node(&node_of(station), centre)
        }
        _ => false,
    }
}

#[test]
fn keeps_what_was_put(rt: HostRuntime) {
    let rt = &rt;
    let layout = laid(rt, TWO_TRACKS);
    let lays = layout.lays();
    let kept = [
        is_only_tile(lays),
        last_lay(lays, &name(rt, b"B")).is_some(),
        last_lay(lays, &name(rt, b"A")).is_none(),
        is_only_token(layout.stations(), &centre(rt, b"A")),
    ];
    assert!(rt; kept == [true; 4]);
}

/// Whether the edge of the hex at 1,0 is one hexside with an edge of the hex across it, at q and r, and not with the
/// edge of the same number there.
fn is_shared(edge: u8, q: i8, r: i8, facing: u8) -> bool {
    let place = Place { q: 1, r: 0 };
    let side = hexside_at(&place, edge);
    let beyond = Axial {
        q: i16::from(q),
        r: i16::from(r),
    };
    across(&place, edge) == beyond
        && side == hexside((q, r, facing))
        && side != hexside((q, r, edge))
}

/// An edge, the hex across it, and the edge there that faces it.
static FACING: [(u8, i8, i8, u8); 6] = [
    (0, 1, 1, 3),
    (1, 0, 1, 4),
    (2, 0, 0, 5),
    (3, 1, -1, 0),
    (4, 2, -1, 1),
    (5, 2, 0, 2),
];

#[test]
fn shares_hexsides(rt: HostRuntime) {
    for (edge, q, r, facing) in &FACING {
        assert!(rt; is_shared(*edge, *q, *r, *facing));
    }
    laws::hexsides();
    laws::hexes_keep_their_centres();
}

/// Whether a link lies on the hex, from a hexside of the board to another one, or else to the centre of the hex.
fn is_link(rt: &impl Abort, link: &Link, hex: &[u8], side: Side, end: Option<Side>) -> bool {
    let end = match end {
        Some(other) => Node::Hexside(hexside(other)),
        None => centre(rt, hex),
    };
    link.hex == name(rt, hex) && link.side == hexside(side) && link.end == end
}

/// What lies on the board, and how many links it makes; the place of one, its hex and its ends, as `is_link` has them.
type LinkCase = (
    &'static [Piece],
    usize,
    usize,
    &'static [u8],
    Side,
    Option<Side>,
);

fn is_made(rt: &impl Abort, alloc: Global, case: &LinkCase) -> bool {
    let (pieces, count, place, hex, side, end) = case;
    let network = network(rt, alloc, *pieces);
    let links = network.links();
    match links.get(*place) {
        Some(link) => links.len() == *count && is_link(rt, link, *hex, *side, *end),
        None => false,
    }
}

/// Stops where a link isn't made as is said.
fn check_links(rt: &impl Abort, alloc: Global, cases: &[LinkCase]) {
    for case in cases {
        assert!(rt; is_made(rt, alloc, case));
    }
}

static NUMBERED: [LinkCase; 4] = [
    (TWO_TRACKS, 8, 0, b"A", (0, 0, 5), None),
    (TWO_TRACKS, 8, 1, b"B", (1, 0, 2), Some((1, 0, 5))),
    (TWO_TRACKS, 8, 2, b"B", (0, 0, 5), Some((1, 1, 3))),
    (TWO_TRACKS, 8, 7, b"E", (4, 0, 2), None),
];

#[test]
fn numbers_the_links(rt: HostRuntime) {
    check_links(&rt, rt.alloc(), &NUMBERED);
}

/// What is laid twice: the tile lies as it was turned the second time.
const TURNED: &[Piece] = &[Piece::Prr, Piece::Tile(2), Piece::Tile(0)];

static PRINTED_AND_LAID: [LinkCase; 2] = [
    (&[], 7, 1, b"B", (1, 0, 2), Some((1, 0, 5))),
    (TURNED, 8, 1, b"B", (1, 0, 0), Some((1, 0, 3))),
];

#[test]
fn lays_the_last_tile(rt: HostRuntime) {
    check_links(&rt, rt.alloc(), &PRINTED_AND_LAID);
}

/// Whether there are four centres, and behind the first one a town with this node and the value 10, a city and an
/// off-board area.
fn are_stops(stops: &[Stop], node: &Node) -> bool {
    match stops {
        [_, town, city, area] => {
            let kinds = [town.kind, city.kind, area.kind];
            let wanted = [
                Kind::Town,
                Kind::City { slots: 1 },
                Kind::OffBoard { later_value: 40 },
            ];
            same_node(&Node::Centre(town.at), node) && town.value == 10 && kinds == wanted
        }
        _ => false,
    }
}

/// Whether the network has those centres, and one token.
fn has_stops(rt: &impl Abort, alloc: Global) -> bool {
    let network = network(rt, alloc, TWO_TRACKS);
    are_stops(network.stops(), &centre(rt, b"C")) && network.stations().len() == 1
}

#[test]
fn numbers_the_centres(rt: HostRuntime) {
    assert!(rt; has_stops(&rt, rt.alloc()));
}

/// Whether just the links of these numbers are reached.
fn has_just(reach: &Reach, numbers: &[usize]) -> bool {
    for number in 0..10 {
        if reach.has_link(number) != numbers.contains(&number) {
            return false;
        }
    }
    true
}

/// What lies on the board, a corporation and the links that it reaches; whether it reaches the city on D, and whether
/// the hexside behind that.
type ReachCase = (&'static [Piece], Corp, &'static [usize], bool, bool);

fn is_reached(rt: &impl Abort, alloc: Global, case: &ReachCase) -> bool {
    let (pieces, corp, numbers, city, behind) = case;
    let network = network(rt, alloc, *pieces);
    let reach = Reach::of(alloc, &network, *corp).expect(rt, "memory");
    has_just(&reach, *numbers)
        && reach.has_node(&centre(rt, b"D")) == *city
        && reach.has_node(&Node::Hexside(hexside((4, 0, 2)))) == *behind
}

/// Stops where a corporation reaches more than is said, or less.
fn check_reaches(rt: &impl Abort, alloc: Global, cases: &[ReachCase]) {
    for case in cases {
        assert!(rt; is_reached(rt, alloc, case));
    }
}

static PRR_ALONE: [ReachCase; 2] = [
    (TWO_TRACKS, Corp::Prr, &[1, 2, 3, 4, 5, 6, 7, 8], true, true),
    (TWO_TRACKS, Corp::Nyc, &[], false, false),
];

#[test]
fn reaches_all_alone(rt: HostRuntime) {
    check_reaches(&rt, rt.alloc(), &PRR_ALONE);
}

static TO_A_FILLED_CITY: [ReachCase; 1] = [(
    FILLED_CITY,
    Corp::Prr,
    &[1, 2, 3, 4, 5, 6],
    true,
    false,
)];

#[test]
fn stops_at_a_filled_city(rt: HostRuntime) {
    check_reaches(&rt, rt.alloc(), &TO_A_FILLED_CITY);
}

static FROM_ITS_OWN_CITY: [ReachCase; 1] = [(
    FILLED_CITY,
    Corp::Nyc,
    &[1, 2, 4, 5, 6, 7, 8],
    true,
    true,
)];

#[test]
fn goes_on_from_its_own_city(rt: HostRuntime) {
    check_reaches(&rt, rt.alloc(), &FROM_ITS_OWN_CITY);
}

// 65 is the letter A; each further part comes behind 127 times what there is.
#[test]
fn has_keys(rt: HostRuntime) {
    let rt = &rt;
    let hex = name(rt, b"A");
    let at = Axial { q: -1, r: 2 };
    let keys = [
        name_key(&hex),
        name_key(&name(rt, b"A1")),
        centre_key(&CentreAt { hex, number: 2 }),
        hexside_key(&Hexside { at, edge: 1 }),
    ];
    assert!(rt; keys == [65, 65 * 127 + 49, 65 * 127 + 2, (127 + 4) * 127 + 1]);
}
