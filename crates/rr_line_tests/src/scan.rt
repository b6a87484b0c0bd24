//! The words of a line, one after another.
use crate::calls::check;
use rr_orders::scan::{
    Words, next_player, next_table, only_table, read_corp, read_private, write_number, write_word,
};
use rr_roster::{Corp, Private};
use rr_words::Name;
use std::process::Abort;

// The calls below have no contracts, so that what a test does costs its proof little.

/// What is asked of the words that are left, and its answer.
#[derive(Clone, Copy)]
enum Step {
    Next(Option<&'static [u8]>),
    Rest(Option<&'static [u8]>),
    IsAtEnd(bool),
}

use Step::{IsAtEnd, Next, Rest};

fn is_right(words: &mut Words, step: Step) -> bool {
    match step {
        Next(word) => words.next() == word,
        Rest(text) => words.rest() == text,
        IsAtEnd(wanted) => words.end().is_some() == wanted,
    }
}

/// The first of the steps that goes otherwise, one behind the other.
fn first_unlike(words: &mut Words, steps: &[Step]) -> Option<usize> {
    for (place, step) in steps.iter().enumerate() {
        if !is_right(words, *step) {
            return Some(place);
        }
    }
    None
}

static TWO_WORDS: [Step; 8] = [
    IsAtEnd(false),
    Rest(Some(b"lay PRR")),
    Next(Some(b"lay")),
    Rest(Some(b"PRR")),
    Next(Some(b"PRR")),
    IsAtEnd(true),
    Rest(None),
    Next(None),
];

#[test]
fn takes_word_after_word(rt: HostRuntime) {
    let mut words = Words::of(b"lay PRR");
    let unlike = first_unlike(&mut words, &TWO_WORDS);
    check(&rt, "first unlike", unlike, None);
}

/// Whether this is the only word of the line, or there are several.
fn is_last(line: &str, word: Option<&[u8]>) -> bool {
    Words::of(line.as_bytes()).last() == word
}

static LAST_WORDS: [(&str, Option<&[u8]>); 4] = [
    ("PRR", Some(b"PRR")),
    ("PRR B", None),
    ("PRR ", None),
    ("", Some(b"")),
];

#[test]
fn takes_the_last_word_alone(rt: HostRuntime) {
    for &(line, word) in &LAST_WORDS {
        check(&rt, line, is_last(line, word), true);
    }
}

/// What takes a name out of a line.
#[derive(Clone, Copy)]
enum Taker {
    NextTable,
    OnlyTable,
    NextPlayer,
}

use Taker::{NextPlayer, NextTable, OnlyTable};

fn take(taker: Taker, line: &str) -> Option<Name> {
    let mut words = Words::of(line.as_bytes());
    match taker {
        NextTable => next_table(&mut words),
        OnlyTable => only_table(&mut words),
        NextPlayer => next_player(&mut words),
    }
}

/// Whether a name is taken that is spelled so, or none.
fn is_taken(taker: Taker, line: &str, spelling: Option<&[u8]>) -> bool {
    match take(taker, line) {
        Some(name) => spelling == Some(name.as_bytes()),
        None => spelling.is_none(),
    }
}

static NAMES: [(Taker, &str, Option<&[u8]>); 6] = [
    (NextTable, "bank ann", Some(b"bank")),
    (OnlyTable, "t1", Some(b"t1")),
    (OnlyTable, "t1 t2", None),
    (NextPlayer, "ann bob", Some(b"ann")),
    (NextPlayer, "bank ann", None),
    (NextPlayer, " ann", None),
];

#[test]
fn takes_names_of_tables_and_players(rt: HostRuntime) {
    for &(taker, line, spelling) in &NAMES {
        check(&rt, line, is_taken(taker, line, spelling), true);
    }
}

#[test]
fn reads_companies_by_their_whole_names(rt: HostRuntime) {
    let rt = &rt;
    let corps = [read_corp(b"ERIE"), read_corp(b"ERI"), read_corp(b"SV")];
    check(rt, "corporations", corps, [Some(Corp::Erie), None, None]);
    let privates = [read_private(b"C&SL"), read_private(b"PRR")];
    check(rt, "privates", privates, [Some(Private::Csl), None]);
}

#[test]
fn writes_words_behind_what_stands_there(rt: HostRuntime) {
    let rt = &rt;
    let mut out = Vec::new(rt.alloc());
    write_word(b"lay", &mut out).expect(rt, "memory");
    write_number(0, &mut out).expect(rt, "memory");
    write_number(18_446_744_073_709_551_615, &mut out).expect(rt, "memory");
    let is_right = out.as_slice() == b" lay 0 18446744073709551615".as_slice();
    check(rt, "words", is_right, true);
}
