//! The shipped manifest's tiles, their turns, what they keep, and texts that are no manifest.
use crate::shown::is_shown;
use rr_tiles::{Colour, Edge, Fault, Kind, Label, Manifest, Part, Tile, keeps};
use std::alloc::Global;
use std::process::Abort;

const SHIPPED: &str = "yellow 3 x2 t10:0,1
yellow 4 x2 t10:0,3
yellow 7 x4 0-1
yellow 8 x8 0-2
yellow 9 x7 0-3
yellow 57 x4 c20/1:0,3
yellow 58 x2 t10:0,2
green 14 x3 c30/2:0,1,3,4
green 15 x2 c30/2:0,1,2,3
green 16 x1 0-2 1-3
green 18 x1 0-3 1-2
green 19 x1 0-3 2-4
green 20 x1 0-3 1-4
green 23 x3 0-3 0-4
green 24 x3 0-3 0-2
green 25 x1 0-2 0-4
green 26 x1 0-3 0-5
green 27 x1 0-3 0-1
green 28 x1 0-4 0-5
green 29 x1 0-2 0-1
brown 39 x1 0-2 0-1 1-2
brown 40 x1 0-2 2-4 0-4
brown 41 x2 0-3 0-1 1-3
brown 42 x2 0-3 3-5 0-5
brown 43 x2 0-3 0-2 1-3 1-2
brown 44 x1 0-3 1-4 0-1 3-4
brown 45 x2 0-3 2-4 0-4 2-3
brown 46 x2 0-3 2-4 3-4 0-2
brown 47 x1 0-3 1-4 1-3 0-4
brown 63 x3 c40/2:0,1,2,3,4,5
brown 70 x1 0-1 0-2 1-3 2-3
";

// The calls below have no contracts and assert nothing, so that what a test does costs its proof little.

fn manifest(rt: &impl Abort, alloc: Global) -> Manifest {
    Manifest::read(alloc, SHIPPED).expect(rt, "a manifest")
}

/// A number, a colour and a count.
static SUPPLIES: [(u16, Colour, u8); 31] = [
    (3, Colour::Yellow, 2),
    (4, Colour::Yellow, 2),
    (7, Colour::Yellow, 4),
    (8, Colour::Yellow, 8),
    (9, Colour::Yellow, 7),
    (57, Colour::Yellow, 4),
    (58, Colour::Yellow, 2),
    (14, Colour::Green, 3),
    (15, Colour::Green, 2),
    (16, Colour::Green, 1),
    (18, Colour::Green, 1),
    (19, Colour::Green, 1),
    (20, Colour::Green, 1),
    (23, Colour::Green, 3),
    (24, Colour::Green, 3),
    (25, Colour::Green, 1),
    (26, Colour::Green, 1),
    (27, Colour::Green, 1),
    (28, Colour::Green, 1),
    (29, Colour::Green, 1),
    (39, Colour::Brown, 1),
    (40, Colour::Brown, 1),
    (41, Colour::Brown, 2),
    (42, Colour::Brown, 2),
    (43, Colour::Brown, 2),
    (44, Colour::Brown, 1),
    (45, Colour::Brown, 2),
    (46, Colour::Brown, 2),
    (47, Colour::Brown, 1),
    (63, Colour::Brown, 3),
    (70, Colour::Brown, 1),
];

static OTHER_NUMBERS: [u16; 7] = [0, 1, 2, 5, 17, 64, 999];

/// Whether the manifest has this colour and count of a number, by themselves and in the supply.
fn is_supplied(manifest: &Manifest, number: u16, colour: Colour, count: u8) -> bool {
    let told = manifest.colour(number) == Some(colour) && manifest.count(number) == Some(count);
    match manifest.supply(number) {
        Some(supply) => {
            told && supply.number == number && supply.colour == colour && supply.count == count
        }
        None => false,
    }
}

/// Whether the manifest has these supplies.
fn are_supplied(manifest: &Manifest, supplies: &[(u16, Colour, u8)]) -> bool {
    for (number, colour, count) in supplies {
        if !is_supplied(manifest, *number, *colour, *count) {
            return false;
        }
    }
    manifest.supplies().len() == supplies.len()
}

#[test]
fn reads_the_shipped_manifest(rt: HostRuntime) {
    let manifest = manifest(&rt, rt.alloc());
    assert!(rt; are_supplied(&manifest, &SUPPLIES));
}

fn are_unknown(manifest: &Manifest, numbers: &[u16]) -> bool {
    for number in numbers {
        if manifest.tile(*number).is_some() || manifest.count(*number).is_some() {
            return false;
        }
    }
    true
}

#[test]
fn has_no_other_numbers(rt: HostRuntime) {
    let manifest = manifest(&rt, rt.alloc());
    assert!(rt; are_unknown(&manifest, &OTHER_NUMBERS));
}

/// The edges of the track at a place among a tile's parts
fn track_at(tile: &Tile, place: usize) -> Option<(u8, u8)> {
    match tile.parts().get(place)? {
        Part::Track(track) => Some((track.from.number(), track.to.number())),
        Part::Centre(_) => None,
    }
}

/// Whether the tile has these tracks and nothing else, in this order, and no label
fn has_tracks(tile: &Tile, tracks: &[(u8, u8)]) -> bool {
    for (place, track) in tracks.iter().enumerate() {
        if track_at(tile, place) != Some(*track) {
            return false;
        }
    }
    tile.parts().len() == tracks.len() && tile.label().is_none()
}

fn are_edges(edges: &[Edge], numbers: &[u8]) -> bool {
    for (edge, number) in edges.iter().zip(numbers) {
        if edge.number() != *number {
            return false;
        }
    }
    edges.len() == numbers.len()
}

/// Whether what stands at a place of the tile is a centre of this kind and value with these edges.
fn has_centre(tile: &Tile, place: usize, kind: Kind, value: u16, edges: &[u8]) -> bool {
    match tile.parts().get(place) {
        Some(Part::Centre(centre)) => {
            centre.kind == kind
                && centre.value == value
                && are_edges(centre.edges.as_slice(), edges)
        }
        _ => false,
    }
}

/// A tile, and its tracks.
static TRACKS: [(u16, &[(u8, u8)]); 11] = [
    (7, &[(0, 1)]),
    (8, &[(0, 2)]),
    (9, &[(0, 3)]),
    (16, &[(0, 2), (1, 3)]),
    (23, &[(0, 3), (0, 4)]),
    (29, &[(0, 2), (0, 1)]),
    (39, &[(0, 2), (0, 1), (1, 2)]),
    (42, &[(0, 3), (3, 5), (0, 5)]),
    (44, &[(0, 3), (1, 4), (0, 1), (3, 4)]),
    (47, &[(0, 3), (1, 4), (1, 3), (0, 4)]),
    (70, &[(0, 1), (0, 2), (1, 3), (2, 3)]),
];

fn are_drawn(manifest: &Manifest, tiles: &[(u16, &[(u8, u8)])]) -> bool {
    for (number, tracks) in tiles {
        let drawn = match manifest.tile(*number) {
            Some(tile) => has_tracks(tile, *tracks),
            None => false,
        };
        if !drawn {
            return false;
        }
    }
    true
}

#[test]
fn reads_tracks(rt: HostRuntime) {
    let manifest = manifest(&rt, rt.alloc());
    assert!(rt; are_drawn(&manifest, &TRACKS));
}

/// Whether the tile has one part, a centre of this kind and value with these edges.
fn is_centre(tile: &Tile, kind: Kind, value: u16, edges: &[u8]) -> bool {
    has_centre(tile, 0, kind, value, edges) && tile.parts().len() == 1
}

/// A tile, and the kind, the value and the edges of its centre.
static CENTRES: [(u16, Kind, u16, &[u8]); 5] = [
    (3, Kind::Town, 10, &[0, 1]),
    (58, Kind::Town, 10, &[0, 2]),
    (57, Kind::City { slots: 1 }, 20, &[0, 3]),
    (14, Kind::City { slots: 2 }, 30, &[0, 1, 3, 4]),
    (63, Kind::City { slots: 2 }, 40, &[0, 1, 2, 3, 4, 5]),
];

fn are_centred(manifest: &Manifest, tiles: &[(u16, Kind, u16, &[u8])]) -> bool {
    for (number, kind, value, edges) in tiles {
        let right = match manifest.tile(*number) {
            Some(tile) => is_centre(tile, *kind, *value, *edges),
            None => false,
        };
        if !right {
            return false;
        }
    }
    true
}

#[test]
fn reads_centres(rt: HostRuntime) {
    let manifest = manifest(&rt, rt.alloc());
    assert!(rt; are_centred(&manifest, &CENTRES));
}

fn tile_of(alloc: Global, text: &str) -> Option<Tile> {
    let words = rr_words::words(alloc, text.as_bytes()).ok()?;
    Tile::read(alloc, &words).ok()?
}

const LABEL: Label = Label {
    first: b'N',
    second: Some(b'Y'),
};

/// Whether the tile has a track, an off-board area, a town without edges, and a label.
fn is_of_the_board(tile: &Tile) -> [bool; 5] {
    let area = Kind::OffBoard { later_value: 60 };
    [
        track_at(tile, 0) == Some((3, 1)),
        has_centre(tile, 1, area, 40, &[2]),
        has_centre(tile, 2, Kind::Town, 0, &[]),
        tile.parts().len() == 3,
        tile.label() == Some(LABEL),
    ]
}

fn is_read(alloc: Global, text: &str) -> bool {
    match tile_of(alloc, text) {
        Some(tile) => is_of_the_board(&tile) == [true; 5],
        None => false,
    }
}

#[test]
fn reads_a_tile_of_the_board(rt: HostRuntime) {
    assert!(rt; is_read(rt.alloc(), "3-1 L=NY o40/60:2 t0:"));
}

/// The tile of a number, turned; none if the manifest lacks it, or memory is wanted.
fn turned(manifest: &Manifest, alloc: Global, number: u16, turn: u8) -> Option<Tile> {
    manifest.tile(number)?.turned(alloc, turn).ok()
}

/// A tile, a turn, and the tracks of the turned tile.
static TURNED_TRACKS: [(u16, u8, &[(u8, u8)]); 12] = [
    (23, 0, &[(0, 3), (0, 4)]),
    (23, 1, &[(1, 4), (1, 5)]),
    (23, 2, &[(2, 5), (2, 0)]),
    (23, 3, &[(3, 0), (3, 1)]),
    (23, 4, &[(4, 1), (4, 2)]),
    (23, 5, &[(5, 2), (5, 3)]),
    (39, 0, &[(0, 2), (0, 1), (1, 2)]),
    (39, 1, &[(1, 3), (1, 2), (2, 3)]),
    (39, 2, &[(2, 4), (2, 3), (3, 4)]),
    (39, 3, &[(3, 5), (3, 4), (4, 5)]),
    (39, 4, &[(4, 0), (4, 5), (5, 0)]),
    (39, 5, &[(5, 1), (5, 0), (0, 1)]),
];

fn is_tracked(manifest: &Manifest, alloc: Global, row: &(u16, u8, &[(u8, u8)])) -> bool {
    let (number, turn, tracks) = row;
    match turned(manifest, alloc, *number, *turn) {
        Some(tile) => has_tracks(&tile, *tracks),
        None => false,
    }
}

fn are_tracked(manifest: &Manifest, alloc: Global, tiles: &[(u16, u8, &[(u8, u8)])]) -> bool {
    for row in tiles {
        if !is_tracked(manifest, alloc, row) {
            return false;
        }
    }
    true
}

#[test]
fn turns_tracks(rt: HostRuntime) {
    let manifest = manifest(&rt, rt.alloc());
    assert!(rt; are_tracked(&manifest, rt.alloc(), &TURNED_TRACKS));
}

/// The turns of tile 57, and the edges of its city.
static TURNED_CITIES: [(u8, [u8; 2]); 6] = [
    (0, [0, 3]),
    (1, [1, 4]),
    (2, [2, 5]),
    (3, [3, 0]),
    (4, [4, 1]),
    (5, [5, 2]),
];

fn is_turned_city(manifest: &Manifest, alloc: Global, turn: u8, edges: &[u8]) -> bool {
    match turned(manifest, alloc, 57, turn) {
        Some(tile) => has_centre(&tile, 0, Kind::City { slots: 1 }, 20, edges),
        None => false,
    }
}

fn are_turned_cities(manifest: &Manifest, alloc: Global, turns: &[(u8, [u8; 2])]) -> bool {
    for (turn, edges) in turns {
        if !is_turned_city(manifest, alloc, *turn, edges) {
            return false;
        }
    }
    true
}

#[test]
fn turns_a_city(rt: HostRuntime) {
    let manifest = manifest(&rt, rt.alloc());
    assert!(rt; are_turned_cities(&manifest, rt.alloc(), &TURNED_CITIES));
}

/// Whether a turn takes the edge to this one.
fn is_turned_edge(edge: u8, turn: u8, wanted: u8) -> bool {
    match Edge::new(edge) {
        Some(edge) => edge.turned(turn).number() == wanted,
        None => false,
    }
}

#[test]
fn turns_an_edge(rt: HostRuntime) {
    assert!(rt; is_turned_edge(5, 3, 2) && Edge::new(6).is_none());
}

/// Two tiles of the manifest, a turn, and whether the second tile, turned, keeps what the first has.
static KEPT: [(u16, u16, u8, bool); 15] = [
    (9, 23, 0, true),
    (9, 23, 1, false),
    (9, 23, 3, true),
    (57, 14, 0, true),
    (57, 14, 1, false),
    (57, 15, 0, true),
    (57, 15, 1, false),
    (57, 15, 3, true),
    (14, 63, 4, true),
    (63, 14, 0, false),
    (4, 57, 0, false),
    (57, 4, 0, false),
    (16, 43, 0, true),
    (16, 43, 1, false),
    (7, 57, 0, false),
];

fn is_kept(manifest: &Manifest, old: u16, new: u16, turn: u8) -> Option<bool> {
    Some(keeps(manifest.tile(old)?, manifest.tile(new)?, turn))
}

fn are_kept(manifest: &Manifest, tiles: &[(u16, u16, u8, bool)]) -> bool {
    for (old, new, turn, kept) in tiles {
        if is_kept(manifest, *old, *new, *turn) != Some(*kept) {
            return false;
        }
    }
    true
}

#[test]
fn keeps_what_lies_there(rt: HostRuntime) {
    let manifest = manifest(&rt, rt.alloc());
    assert!(rt; are_kept(&manifest, &KEPT));
}

/// The texts of two tiles, a turn, and whether the second tile, turned, keeps what the first has.
static KEPT_TEXTS: [(&str, &str, u8, bool); 11] = [
    ("c20/1:0 L=B", "L=B c40/1:0,1", 0, true),
    ("L=B c40/1:0,1", "c20/1:0 L=B", 0, false),
    ("c20/1:0 L=B", "c20/1:0", 0, false),
    ("c20/1:0", "c20/1:0 L=B", 0, false),
    ("c20/1:0", "c20/2:0", 0, true),
    ("c20/2:0", "c20/1:0", 0, false),
    ("t10:0 t10:3", "t10:0 t10:3", 0, true),
    ("t10:0 t10:3", "t10:3 t10:0", 0, false),
    ("t10:0 t10:3", "t10:3 t10:0", 3, true),
    ("t10:0 t10:3", "t10:0,3", 0, false),
    ("t10:0,3", "t10:0 t10:3", 0, false),
];

fn is_text_kept(alloc: Global, old: &str, new: &str, turn: u8) -> Option<bool> {
    let before = tile_of(alloc, old)?;
    let after = tile_of(alloc, new)?;
    Some(keeps(&before, &after, turn))
}

fn are_texts_kept(alloc: Global, tiles: &[(&str, &str, u8, bool)]) -> bool {
    for (old, new, turn, kept) in tiles {
        if is_text_kept(alloc, *old, *new, *turn) != Some(*kept) {
            return false;
        }
    }
    true
}

#[test]
fn keeps_labels_and_centres(rt: HostRuntime) {
    assert!(rt; are_texts_kept(rt.alloc(), &KEPT_TEXTS));
}

const WRONG_LINES: &str = "yellow 7 x4 0-0
yellow 7 x4 0-1 1-0
yellow 7 x4 0-6
yellow 7 x4 01
yellow 7 x51 0-1
yellow 7 x0 0-1
yellow 7 4 0-1
yellow 7
yellow 0 x1
yellow 1000 x1
yellow 07 x1
red 7 x1 0-1
yellow 7 x4 t15:0
yellow 7 x4 t1000:0
yellow 7 x4 t10
yellow 7 x4 t10:0,0
yellow 7 x4 t10:0,
yellow 7 x4 c20:1
yellow 7 x4 c20/0:1
yellow 7 x4 c20/5:1
yellow 7 x4 o40/40:2
yellow 7 x4 L=b
yellow 7 x4 L=ABC
yellow 7 x4 L=A L=A";

/// Texts, and the line that is told to be wrong, if one is.
static TEXTS: [(&str, Option<usize>); 7] = [
    ("yellow 7 x4 0-1\nyellow 7 x4 0-2", Some(2)),
    (
        "# tiles\n\nyellow 7 x4 0-1\n  \ngreen 8 x1 5-5\nred\n",
        Some(5),
    ),
    ("yellow 7 x4 é", Some(0)),
    ("", None),
    ("# none\r\n", None),
    ("yellow 7 x4", None),
    (
        "yellow 7 x4 t10:\r\nbrown  999  x50  5-0 c0/4:5,1 L=Z",
        None,
    ),
];

/// Whether the text is told to be wrong in this line, or is read where none is.
fn is_told(alloc: Global, text: &str, wrong: Option<usize>) -> bool {
    match Manifest::read(alloc, text) {
        Ok(_) => wrong.is_none(),
        Err(Fault::BadManifest { line }) => wrong == Some(line),
        Err(Fault::OutOfMemory) => false,
    }
}

/// Whether each line of the text is wrong as a text of its own.
fn is_each_wrong(alloc: Global, texts: &str) -> bool {
    for text in texts.lines() {
        if !is_told(alloc, text, Some(1)) {
            return false;
        }
    }
    true
}

fn are_told(alloc: Global, texts: &[(&str, Option<usize>)]) -> bool {
    for (text, wrong) in texts {
        if !is_told(alloc, *text, *wrong) {
            return false;
        }
    }
    true
}

#[test]
fn refuses_wrong_lines(rt: HostRuntime) {
    assert!(rt; is_each_wrong(rt.alloc(), WRONG_LINES));
}

#[test]
fn names_the_first_wrong_line_or_accepts_the_text(rt: HostRuntime) {
    assert!(rt; are_told(rt.alloc(), &TEXTS));
}

/// A comment of so many bytes.
fn comment(rt: &impl Abort, alloc: Global, bytes: usize) -> String {
    let mut text = String::new(alloc);
    for _ in 0..bytes {
        text.push('#').expect(rt, "memory");
    }
    text
}

#[test]
fn refuses_a_text_too_long(rt: HostRuntime) {
    let longest = comment(&rt, rt.alloc(), 65_536);
    let longer = comment(&rt, rt.alloc(), 65_537);
    let is_read = is_told(rt.alloc(), longest.as_str(), None);
    assert!(rt; is_read && is_told(rt.alloc(), longer.as_str(), Some(0)));
}

#[test]
fn faults_have_words(rt: HostRuntime) {
    let bad = Fault::BadManifest { line: 17 };
    assert!(rt; is_shown(rt.alloc(), &bad, "bad manifest 17"));
    assert!(rt; is_shown(rt.alloc(), &Fault::OutOfMemory, "out of memory"));
}
