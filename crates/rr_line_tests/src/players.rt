//! The players of a table as bytes.
use crate::calls::{check, command, seated};
use rr_code::Players;
use rr_words::spelling::{Cursor, Spell};
use std::process::Abort;

// The calls below have no contracts, so that what a test does costs its proof little.

// The value of which these are all the bytes.
fn read<T: Spell + Copy>(bytes: &[u8]) -> Option<T> {
    let mut cursor = Cursor::of(bytes);
    let value = T::read(&mut cursor)?;
    if cursor.is_empty() { Some(value) } else { None }
}

fn spelled<T: Spell>(rt: &(impl Abort + AllocGlobal), value: &T) -> Vec<u8> {
    let mut bytes = Vec::new(rt.alloc());
    value.write(&mut bytes).expect(rt, "memory");
    bytes
}

// Whether these are the bytes of the players that the command seats, who are read from them again.
fn is_spelled(rt: &(impl Abort + AllocGlobal), opening: &str, bytes: &[u8]) -> bool {
    let players = seated(command(rt, opening)).expect(rt, "players");
    spelled(rt, &players).as_slice() == bytes && read::<Players>(bytes) == Some(players)
}

static OPENINGS: [(&str, &[u8]); 3] = [
    ("open a b", b"\x02\x01a\x01b"),
    ("open ann b9 a", b"\x03\x03ann\x02b9\x01a"),
    (
        "open f e abcdefghijkl d c b",
        b"\x06\x01f\x01e\x0cabcdefghijkl\x01d\x01c\x01b",
    ),
];

#[test]
fn players_are_spelled(rt: HostRuntime) {
    let rt = &rt;
    for &(opening, bytes) in &OPENINGS {
        check(rt, opening, is_spelled(rt, opening, bytes), true);
    }
}

/// Bytes that no players have, and what they tell.
static NO_PLAYERS: [(&str, &[u8]); 13] = [
    ("nothing", b""),
    ("no player", b"\x00"),
    ("one player", b"\x01\x01a"),
    ("seven players", b"\x07\x01a\x01b\x01c\x01d\x01e\x01f\x01g"),
    ("one twice", b"\x03\x01a\x01b\x01a"),
    ("a capital letter", b"\x02\x01a\x01B"),
    ("no letter", b"\x02\x01a\x00"),
    ("a word that stands for another", b"\x02\x01a\x04bank"),
    ("a letter too many", b"\x02\x01a\x0dabcdefghijklm"),
    ("no name of two", b"\x02"),
    ("one name of two", b"\x02\x01a"),
    ("one letter of two", b"\x02\x01a\x02b"),
    ("a byte more", b"\x02\x01a\x01b\x00"),
];

#[test]
fn bytes_that_no_players_have_are_refused(rt: HostRuntime) {
    for &(what, bytes) in &NO_PLAYERS {
        check(&rt, what, read::<Players>(bytes).is_some(), false);
    }
}
