//! Names, numbers, and lines and texts cut into words.
use rr_words::{HexName, Name, Row, laws, number, rows, small_number, split_word, words};
use std::alloc::Global;

// The calls below have no contracts and assert nothing, so that what a test does costs its proof little.

/// A word, and whether it names a table and a player.
static NAMES: [(&str, bool, bool); 14] = [
    ("a", true, true),
    ("game7", true, true),
    ("abcdefghijkl", true, true),
    ("banks", true, true),
    ("abcdefghijklm", true, false),
    ("abcdefghijklmnop", true, false),
    ("bank", true, false),
    ("offer", true, false),
    ("pool", true, false),
    ("abcdefghijklmnopq", false, false),
    ("7a", false, false),
    ("Ann", false, false),
    ("an-n", false, false),
    ("", false, false),
];

fn is_table(word: &str) -> bool {
    Name::table(word.as_bytes()).is_some()
}

fn is_player(word: &str) -> bool {
    Name::player(word.as_bytes()).is_some()
}

/// Whether each of the words names a table, or a player, as is said.
fn are_names(words: &[(&str, bool, bool)]) -> bool {
    for (word, table, player) in words {
        if is_table(*word) != *table || is_player(*word) != *player {
            return false;
        }
    }
    true
}

#[test]
fn reads_names(rt: HostRuntime) {
    assert!(rt; are_names(&NAMES));
}

/// Whether the words name the same, the first one a player and the other one a table.
fn is_same_name(player: &[u8], table: &[u8]) -> Option<bool> {
    Some(Name::player(player)? == Name::table(table)?)
}

fn keeps_its_bytes(player: &[u8]) -> bool {
    match Name::player(player) {
        Some(name) => name.as_bytes() == player,
        None => false,
    }
}

#[test]
fn compares_names(rt: HostRuntime) {
    let same = is_same_name(b"ann", b"ann") == Some(true);
    let other = is_same_name(b"ann", b"anna") == Some(false);
    assert!(rt; same && other && keeps_its_bytes(b"ann"));
}

/// A word, and whether it names a hex.
static HEXES: [(&str, bool); 7] = [
    ("B10", true),
    ("H", true),
    ("7", true),
    ("ABC4", true),
    ("ABCD5", false),
    ("b10", false),
    ("", false),
];

/// Whether the word names a hex as is said, and its bytes are held if it does.
fn is_hex(word: &str, is_read: bool) -> bool {
    match HexName::read(word.as_bytes()) {
        Some(hex) => is_read && hex.as_bytes() == word.as_bytes(),
        None => !is_read,
    }
}

fn are_hexes(words: &[(&str, bool)]) -> bool {
    for (word, is_read) in words {
        if !is_hex(*word, *is_read) {
            return false;
        }
    }
    true
}

#[test]
fn reads_names_of_hexes(rt: HostRuntime) {
    assert!(rt; are_hexes(&HEXES));
}

static NUMBERS: [(&str, Option<u64>); 11] = [
    ("0", Some(0)),
    ("7", Some(7)),
    ("1830", Some(1830)),
    ("9999999999", Some(9_999_999_999)),
    ("10000000000", None),
    ("00", None),
    ("07", None),
    ("", None),
    ("-1", None),
    ("+1", None),
    ("1x", None),
];

/// Numbers from 5 to 10.
static SMALL_NUMBERS: [(&str, Option<u16>); 5] = [
    ("5", Some(5)),
    ("10", Some(10)),
    ("4", None),
    ("11", None),
    ("65546", None),
];

/// Whether each of the words is read as its number.
fn are_numbers(words: &[(&str, Option<u64>)]) -> bool {
    for (word, wanted) in words {
        if number(word.as_bytes()) != *wanted {
            return false;
        }
    }
    true
}

fn are_small_numbers(words: &[(&str, Option<u16>)]) -> bool {
    for (word, wanted) in words {
        if small_number(word.as_bytes(), 5, 10) != *wanted {
            return false;
        }
    }
    true
}

#[test]
fn reads_numbers(rt: HostRuntime) {
    assert!(rt; are_numbers(&NUMBERS));
}

#[test]
fn reads_small_numbers(rt: HostRuntime) {
    assert!(rt; are_small_numbers(&SMALL_NUMBERS));
}

fn are_words(found: &[&[u8]], wanted: &[&str]) -> bool {
    for (word, text) in found.iter().zip(wanted) {
        if *word != text.as_bytes() {
            return false;
        }
    }
    found.len() == wanted.len()
}

static LINE: [&str; 5] = ["1", "t", "bid", "", "CA"];

/// Whether the line is cut into these words.
fn is_cut(alloc: Global, line: &str, wanted: &[&str]) -> bool {
    match words(alloc, line.as_bytes()) {
        Ok(found) => are_words(&found, wanted),
        Err(_) => false,
    }
}

#[test]
fn cuts_lines(rt: HostRuntime) {
    let cut = is_cut(rt.alloc(), "1 t bid  CA", &LINE);
    assert!(rt; cut && is_cut(rt.alloc(), "", &[""]));
}

/// Whether the line is split into its first word and this rest.
fn is_split(line: &[u8], first: &[u8], rest: Option<&[u8]>) -> bool {
    let (word, left) = split_word(line);
    word == first && left == rest
}

#[test]
fn splits_lines(rt: HostRuntime) {
    let split = is_split(b"bid CA 45", b"bid", Some(b"CA 45"));
    assert!(rt; split && is_split(b"done", b"done", None));
}

/// The numbers and the words of rows.
static ROWS: [(usize, &[&str]); 2] = [
    (3, &["hex", "A", "0,0", "white"]),
    (5, &["block", "CS", "A"]),
];

fn are_rows(found: &[Row], wanted: &[(usize, &[&str])]) -> bool {
    for (row, (number, words)) in found.iter().zip(wanted) {
        if row.number != *number || !are_words(&row.words, *words) {
            return false;
        }
    }
    found.len() == wanted.len()
}

/// Whether the text has these rows.
fn has_rows(alloc: Global, text: &str, wanted: &[(usize, &[&str])]) -> bool {
    match rows(alloc, text) {
        Ok(Some(found)) => are_rows(&found, wanted),
        _ => false,
    }
}

/// Whether the text is refused, as one of other bytes is.
fn has_none(alloc: Global, text: &str) -> bool {
    match rows(alloc, text) {
        Ok(found) => found.is_none(),
        Err(_) => false,
    }
}

#[test]
fn reads_rows(rt: HostRuntime) {
    let text = "# a board\r\n\nhex A  0,0 white\r\n   \n block CS A";
    let read = has_rows(rt.alloc(), text, &ROWS);
    assert!(rt; read && has_none(rt.alloc(), "hex é"));
}

#[test]
fn states_laws() {
    laws::words_and_lines();
    laws::spellings();
    laws::names();
    laws::rows();
}
