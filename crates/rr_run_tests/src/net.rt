//! Nets of boards.
use crate::board::{Piece, laid, small_board, tiles};
use crate::small::{Centres, EXPRESS, THREE, TWO, links};
use rr_checker::Net;
use rr_desk::layout::Layout;
use rr_kit::board::Board;
use rr_network::Network;
use rr_roster::{Corp, Kind};
use rr_running::net::{laws, net_of, net_on_board};
use std::alloc::Global;
use std::process::Abort;

// The calls below have no contracts, so that what a test does costs its proof little.

/// The net of a corporation with one 2-train on the small board.
fn net(rt: &impl Abort, alloc: Global, pieces: &[Piece], corp: Corp) -> Net {
    let board = small_board(rt, alloc);
    let tiles = tiles(rt, alloc);
    let layout = laid(rt, pieces);
    let net = net_on_board(
        alloc,
        &board,
        &tiles,
        &layout,
        corp,
        &[Kind::Two],
        Kind::Two,
    );
    net.expect(rt, "memory")
}

/// Whether PRR's net has so many links, and behind the first ones those of the text.
fn has_links(
    rt: &impl Abort,
    alloc: Global,
    pieces: &[Piece],
    count: usize,
    first: usize,
    text: &str,
) -> bool {
    let net = net(rt, alloc, pieces, Corp::Prr);
    let wanted = links(rt, alloc, text);
    match net.links().get(first..) {
        Some(behind) => net.links().len() == count && behind.starts_with(&wanted),
        None => false,
    }
}

#[test]
fn joins_the_links(rt: HostRuntime) {
    let rt = &rt;
    let text = "00c0 10s2 22c1 24c1 34c2 36c2 46c3";
    assert!(rt; has_links(rt, rt.alloc(), &[Piece::Prr], 7, 0, text));
    laws::hexsides_are_told_apart();
    laws::reaches_are_one();
}

#[test]
fn joins_the_links_of_a_tile(rt: HostRuntime) {
    let rt = &rt;
    let pieces = [Piece::Prr, Piece::Tile(2)];
    assert!(rt; has_links(rt, rt.alloc(), &pieces, 8, 1, "10s2 10s4 22c1"));
}

/// What lies on the small board, a corporation, and what its net has there.
type Case = (&'static [Piece], Corp, Centres);

fn has_centres(
    rt: &impl Abort,
    alloc: Global,
    pieces: &[Piece],
    corp: Corp,
    wanted: &Centres,
) -> bool {
    let net = net(rt, alloc, pieces, corp);
    wanted.are_those_of(&net)
}

/// Stops where a net hasn't what is said.
fn check_cases(rt: &impl Abort, alloc: Global, cases: &[Case]) {
    for (pieces, corp, wanted) in cases {
        assert!(rt; has_centres(rt, alloc, *pieces, *corp, wanted));
    }
}

static ALONE: [Case; 1] = [(
    &[Piece::Prr],
    Corp::Prr,
    Centres {
        tokens: &[0],
        terminals: &[3],
        values: &[20, 10, 30, 40],
        trains: &[TWO],
    },
)];

#[test]
fn knows_the_centres(rt: HostRuntime) {
    check_cases(&rt, rt.alloc(), &ALONE);
}

static FILLED_CITIES: [Case; 2] = [
    (
        &[Piece::Prr, Piece::Nyc],
        Corp::Prr,
        Centres {
            tokens: &[0],
            terminals: &[2, 3],
            values: &[20, 10, 30, 40],
            trains: &[TWO],
        },
    ),
    (
        &[Piece::Prr, Piece::Nyc],
        Corp::Nyc,
        Centres {
            tokens: &[2],
            terminals: &[0, 3],
            values: &[20, 10, 30, 40],
            trains: &[TWO],
        },
    ),
];

#[test]
fn ends_where_others_fill_a_city(rt: HostRuntime) {
    check_cases(&rt, rt.alloc(), &FILLED_CITIES);
    laws::nodes_are_alike();
    laws::own_cities_are_open();
}

/// The net of a diesel and a 3 on a board that is a port alone.
fn net_of_port(rt: &impl Abort, alloc: Global, phase: Kind) -> Net {
    let port = Board::read(alloc, "hex P 0,0 red o30/60:2").expect(rt, "a board");
    let tiles = tiles(rt, alloc);
    let network = Network::of(alloc, &port, &tiles, &Layout::new()).expect(rt, "memory");
    let trains = [Kind::Diesel, Kind::Three];
    let net = net_of(alloc, &port, &network, Corp::Prr, &trains, phase);
    net.expect(rt, "memory")
}

/// Whether the port is worth so much, and the trains count what they do in any phase.
fn has_value(rt: &impl Abort, alloc: Global, phase: Kind, value: u32) -> bool {
    let net = net_of_port(rt, alloc, phase);
    let trains = [EXPRESS, THREE].as_slice();
    net.values() == [value].as_slice() && net.trains() == trains
}

/// Phases, and what the port is worth in each.
static VALUES: [(Kind, u32); 4] = [
    (Kind::Two, 30),
    (Kind::Four, 30),
    (Kind::Five, 60),
    (Kind::Diesel, 60),
];

#[test]
fn has_the_values_of_the_phase(rt: HostRuntime) {
    let rt = &rt;
    for (phase, value) in &VALUES {
        assert!(rt; has_value(rt, rt.alloc(), *phase, *value));
    }
}
