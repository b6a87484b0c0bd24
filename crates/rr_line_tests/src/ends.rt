//! How many commands are kept at the ends of turns, each count worked by hand.
use crate::calls::check;
use rr_turns::{Ends, MOST_COMMANDS, laws};
use rr_words::spelling::{Cursor, Spell};
use std::process::Abort;

// The calls below have no contracts, so that what a test does costs its proof little.

/// The opening's count and these behind it, each of which is greater than the one before.
fn ends_at(counts: &[usize]) -> Ends {
    let mut ends = Ends::opening();
    for count in counts {
        if ends.last() < *count && *count <= MOST_COMMANDS {
            ends.add(*count);
        }
    }
    ends
}

/// The first turn at whose end another count is kept, of these from turn 0 on.
fn first_other(ends: &Ends, counts: &[Option<usize>]) -> Option<usize> {
    for (turn, count) in counts.iter().enumerate() {
        if ends.kept_at(turn) != *count {
            return Some(turn);
        }
    }
    None
}

/// How many turns have ended, and the count of the last.
fn turns_and_last(ends: &Ends) -> (usize, usize) {
    (ends.turns(), ends.last())
}

fn spelled(rt: &(impl Abort + AllocGlobal), ends: &Ends) -> Vec<u8> {
    let mut bytes = Vec::new(rt.alloc());
    ends.write(&mut bytes).expect(rt, "memory");
    bytes
}

fn read(bytes: &[u8]) -> Option<Ends> {
    Ends::read(&mut Cursor::of(bytes))
}

/// Whether these bytes are read as the counts that were written.
fn comes_back(bytes: &[u8], counts: &[Option<usize>]) -> bool {
    match read(bytes) {
        Some(ends) => first_other(&ends, counts).is_none(),
        None => false,
    }
}

static COUNTS: [usize; 5] = [2, 5, 64, 65, 4_096];

static TOLD: [Option<usize>; 7] = [
    Some(1),
    Some(2),
    Some(5),
    Some(64),
    Some(65),
    Some(4_096),
    None,
];

#[test]
fn counts_are_told_turn_by_turn(rt: HostRuntime) {
    let rt = &rt;
    let ends = ends_at(&COUNTS);
    check(rt, "first other turn", first_other(&ends, &TOLD), None);
    check(rt, "turns and last", turns_and_last(&ends), (5, 4_096));
}

#[test]
fn the_opening_is_the_end_of_turn_0(rt: HostRuntime) {
    let rt = &rt;
    let ends = Ends::opening();
    let told = first_other(&ends, &[Some(1), None]);
    check(rt, "first other turn", told, None);
    check(rt, "turns and last", turns_and_last(&ends), (0, 1));
}

/// A turn, how many turns have ended up to it, and the count of the last.
static FRONTS: [(usize, usize, usize); 5] = [
    (0, 0, 1),
    (2, 2, 5),
    (3, 3, 64),
    (5, 5, 4_096),
    (9, 5, 4_096),
];

#[test]
fn ends_of_later_turns_are_left_out(rt: HostRuntime) {
    let ends = ends_at(&COUNTS);
    for &(turn, turns, last) in &FRONTS {
        let front = ends.through(turn);
        check(&rt, "turns and last", turns_and_last(&front), (turns, last));
    }
}

/// Places of bytes that spell the counts, and the bytes.
static BITS: [(usize, u8); 6] = [(0, 128), (6, 0), (7, 19), (15, 1), (504, 128), (511, 0)];

/// The place of the first of these bytes that is another.
fn first_other_byte(bytes: &[u8], wanted: &[(usize, u8)]) -> Option<usize> {
    for (place, byte) in wanted {
        if bytes.get(*place) != Some(byte) {
            return Some(*place);
        }
    }
    None
}

#[test]
fn each_count_has_its_bit(rt: HostRuntime) {
    let rt = &rt;
    let bytes = spelled(rt, &ends_at(&COUNTS));
    check(rt, "length", bytes.len(), 512);
    check(rt, "first other", first_other_byte(&bytes, &BITS), None);
    check(rt, "again", comes_back(&bytes, &TOLD), true);
}

/// The bytes of counts, of which the eighth is this one, and the others 0.
fn bytes_with(eighth: u8) -> [u8; 512] {
    let mut bytes = [0u8; 512];
    bytes[7] = eighth;
    bytes
}

/// Whether counts are read from all bytes but the last, if there is one.
fn is_read_short(bytes: &[u8]) -> Option<bool> {
    let front = bytes.get(..bytes.len().checked_sub(1)?)?;
    Some(read(front).is_some())
}

#[test]
fn none_are_read_without_the_opening(rt: HostRuntime) {
    let rt = &rt;
    check(rt, "0", read(&bytes_with(0)).is_some(), false);
    check(rt, "2", read(&bytes_with(2)).is_some(), false);
    let bytes = bytes_with(3);
    check(rt, "one less", is_read_short(&bytes), Some(false));
    let counts = [Some(1), Some(2), None];
    check(rt, "again", comes_back(&bytes, &counts), true);
}

/// How many turns a table of these counts has ended, its count of turn 1, and the last one where it is taken back to
/// turn 0.
fn told_by_laws(ends: &Ends) -> (usize, Option<usize>, usize) {
    (
        laws::ended_turns::<u8>(ends),
        laws::count_of_a_back::<u8>(ends, 1),
        laws::ends_of_a_back::<u8>(ends, 0).last(),
    )
}

#[test]
fn counts_are_those_of_a_table(rt: HostRuntime) {
    laws::ends_are_within_the_commands::<u8>();
    let mut ends = Ends::opening();
    if ends.last() < 3 {
        laws::one_end_more::<u8>(&mut ends, 3);
    }
    check(&rt, "told", told_by_laws(&ends), (1, Some(3), 1));
}
