//! A small kit, and kits that are refused.
use rr_kit::{Fault, Kit, laws};
use rr_roster::Private;
use std::alloc::Global;

const CHART: &[u8] = b"60y 67 71 76 82 90 100p\n";

const BOARD: &[u8] = b"hex A 0,0 white\n";

const TILES: &[u8] = b"yellow 7 x4 0-1\n";

const ROSTER: &str = r#"private = [
 {name="SV", face=20, income=5}, {name="C&SL", face=40, income=10},
 {name="D&H", face=70, income=15}, {name="M&H", face=110, income=20},
 {name="C&A", face=160, income=25}, {name="B&O", face=220, income=30}]
corporation = [
 {name="PRR", tokens=4}, {name="NYC", tokens=4}, {name="CPR", tokens=4},
 {name="B&O", tokens=3}, {name="C&O", tokens=3}, {name="ERIE", tokens=3},
 {name="NYNH", tokens=2}, {name="B&M", tokens=2}]
train = [
 {name="2", price=80, count=6}, {name="3", price=180, count=5},
 {name="4", price=300, count=4}, {name="5", price=450, count=3},
 {name="6", price=630, count=2}, {name="D", price=1100, count=6, trade=800}]
"#;

// The calls below have no contracts and assert nothing, so that what a test does costs its proof little.

/// What each of the kit's texts says first.
fn has_its_texts(kit: &Kit) -> bool {
    let face = kit.roster().face(Private::Sv);
    let pars = kit.chart().par_cells().len();
    let count = kit.tiles().count(7);
    let hexes = kit.board().hexes().len();
    face == 20 && pars == 1 && count == Some(4) && hexes == 1
}

fn is_read(alloc: Global) -> bool {
    match Kit::read(alloc, CHART, ROSTER.as_bytes(), TILES, BOARD) {
        Ok(kit) => has_its_texts(&kit),
        Err(_) => false,
    }
}

#[test]
fn a_kit_has_what_its_texts_spell(rt: HostRuntime) {
    assert!(rt; is_read(rt.alloc()));
}

/// Whether the texts of a kit are refused for this.
fn is_refused(
    alloc: Global,
    chart: &[u8],
    roster: &[u8],
    tiles: &[u8],
    board: &[u8],
    fault: Fault,
) -> bool {
    Kit::read(alloc, chart, roster, tiles, board).err() == Some(fault)
}

fn are_refused(alloc: Global) -> [bool; 4] {
    let roster = ROSTER.as_bytes();
    let chart = Fault::BadChart { line: 0, word: 0 };
    [
        is_refused(alloc, b"100\n", b"x", b"x", b"x", chart),
        is_refused(alloc, CHART, b"x", b"x", b"x", Fault::BadRoster),
        is_refused(alloc, CHART, roster, b"x\n", b"x", Fault::BadManifest(1)),
        is_refused(alloc, CHART, roster, b"", b"\nx\n", Fault::BadBoard(2)),
    ]
}

#[test]
fn the_first_wrong_text_is_told(rt: HostRuntime) {
    assert!(rt; are_refused(rt.alloc()) == [true; 4]);
    assert!(rt; Fault::BadBoard(2).number() == 7);
}

#[test]
fn states_laws() {
    laws::kits_are_told_apart();
    laws::memory_is_wanted_for_texts();
    laws::most_centres();
}
