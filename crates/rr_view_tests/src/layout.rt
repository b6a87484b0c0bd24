//! The tiles and tokens on the board, entry by entry.
use crate::opening::check;
use rr_books::{Corp, Entry, Marker};
use rr_desk::layout::{Layout, MOST_LAYS};
use rr_words::HexName;
use std::process::Abort;

pub(crate) fn hex(rt: &impl Abort) -> HexName {
    HexName::read(b"E11").expect(rt, "a name")
}

/// Follows one entry more, for which there is room.
fn follow(rt: &impl Abort, layout: &mut Layout, entry: &Entry) {
    assert!(rt; layout.has_room(entry));
    layout.follow(entry);
}

/// Follows the entry so many times. It is let go here and in no test: that is proved once.
fn follow_times(rt: &impl Abort, layout: &mut Layout, entry: Entry, times: usize) {
    for _time in 0..times {
        follow(rt, layout, &entry);
    }
    drop(entry);
}

fn has_room(layout: &Layout, entry: Entry) -> bool {
    let has_room = layout.has_room(&entry);
    drop(entry);
    has_room
}

fn lay(rt: &impl Abort, tile: u16, turn: u8) -> Entry {
    Entry::Lay {
        hex: hex(rt),
        tile,
        turn,
    }
}

fn token(rt: &impl Abort) -> Entry {
    Entry::Station {
        corp: Corp::Prr,
        hex: hex(rt),
        centre: 1,
    }
}

/// The number and the turn of the tile that was laid behind so many others.
fn tile(layout: &Layout, before: usize) -> Option<(u16, u8)> {
    let lay = layout.lays().get(before)?;
    Some((lay.tile, lay.turn))
}

#[test]
fn tiles_and_tokens_are_kept_in_their_order(rt: HostRuntime) {
    let rt = &rt;
    let mut layout = Layout::new();
    follow_times(rt, &mut layout, lay(rt, 57, 2), 1);
    follow_times(rt, &mut layout, token(rt), 1);
    follow_times(rt, &mut layout, Entry::Step(Marker::Stock), 1);
    follow_times(rt, &mut layout, lay(rt, 14, 5), 1);
    let tiles = [tile(&layout, 0), tile(&layout, 1), tile(&layout, 2)];
    check(rt, "tiles", tiles, [Some((57, 2)), Some((14, 5)), None]);
    check(rt, "tokens", layout.stations().len(), 1);
}

#[test]
fn a_full_board_has_no_room_for_a_tile(rt: HostRuntime) {
    let rt = &rt;
    let mut layout = Layout::new();
    follow_times(rt, &mut layout, lay(rt, 57, 0), MOST_LAYS);
    check(rt, "tiles", layout.lays().len(), 600);
    let tile_fits = has_room(&layout, lay(rt, 57, 0));
    check(rt, "room for a tile", tile_fits, false);
    let token_fits = has_room(&layout, token(rt));
    check(rt, "room for a token", token_fits, true);
}

#[test]
fn a_board_has_room_for_48_tokens(rt: HostRuntime) {
    let rt = &rt;
    let mut layout = Layout::new();
    follow_times(rt, &mut layout, token(rt), 48);
    check(rt, "tokens", layout.stations().len(), 48);
    let token_fits = has_room(&layout, token(rt));
    check(rt, "room for a token", token_fits, false);
}
