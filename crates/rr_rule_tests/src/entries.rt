//! The entries of openings and commands, and the words of entries.
use crate::fixtures::roster;
use crate::games::{AUCTION, entries, kit, played, players};
use rr_books::{Corp, Entry, Kind, Marker, Money, Party, Place, Train, Words};
use rr_desk::Entries;
use rr_entries::{opening_entries, text_of};
use rr_words::Name;
use std::alloc::Global;
use std::process::Abort;

// The calls below have no contracts, so that what a test does costs its proof little.

/// The words of these books.
fn text(rt: &impl Abort, alloc: Global, players: &[Name], books: &[Entries]) -> Vec<u8> {
    text_of(alloc, players, books).expect(rt, "memory")
}

/// Whether these are the words of the books.
pub(crate) fn have_words(
    rt: &impl Abort,
    alloc: Global,
    players: &[Name],
    books: &[Entries],
    words: &[u8],
) -> bool {
    text(rt, alloc, players, books).as_slice() == words
}

/// How many of the usual commands are played, a command that is lawful then, and the words of the entries that it adds.
type Row = (usize, &'static [u8], &'static [u8]);

static ADDED: [Row; 4] = [
    (0, b"buy a", b" move SV a ; pay a bank 20"),
    (0, b"bid a C&SL 45", b""),
    (
        AUCTION,
        b"par a PRR 100",
        b" mark PRR 0 6 ; move PRR-P a ; pay a bank 200",
    ),
    (AUCTION, b"done a", b""),
];

fn is_added(rt: &impl Abort, alloc: Global, row: Row) -> bool {
    let (count, command, words) = row;
    let kit = kit(rt, alloc);
    let game = played(rt, alloc, &kit, count);
    match entries(rt, alloc, &kit, &game, command) {
        Ok(added) => have_words(rt, alloc, game.players(), &[added], words),
        Err(_) => false,
    }
}

#[test]
fn a_command_adds_its_entries(rt: HostRuntime) {
    let rt = &rt;
    let mut right = true;
    for row in &ADDED {
        right = right && is_added(rt, rt.alloc(), *row);
    }
    assert!(rt; right);
}

/// The entries of an opening that have words: two payments, 78 certificates and 26 trains.
const OPENING: usize = 106;

const FIRST: &[u8] =
    b" pay bank a 1200 ; pay bank b 1200 ; move SV offer ; move C&SL offer ; move D&H offer";

const LAST: &[u8] = b" ; train D-5 offer ; train D-6 offer";

/// The words of the opening of a and b.
fn opening(rt: &impl Abort, alloc: Global) -> Vec<u8> {
    let players = players(rt, b"open a b");
    let names = players.as_slice();
    assert!(rt; names.len() <= 6);
    let entries = opening_entries(alloc, names, &roster(rt, alloc)).expect(rt, "memory");
    text(rt, alloc, names, &[entries])
}

/// Whether a text has the first and the last words of the opening, and a separator between each two
/// entries with words.
fn is_an_opening(text: &[u8]) -> bool {
    let separators = text.iter().filter(|byte| **byte == b';').count();
    (text.starts_with(FIRST), text.ends_with(LAST), separators) == (true, true, OPENING - 1)
}

#[test]
fn an_opening_has_its_entries(rt: HostRuntime) {
    let rt = &rt;
    assert!(rt; is_an_opening(opening(rt, rt.alloc()).as_slice()));
}

fn train_to(kind: Kind, number: u8, to: Place) -> Entry {
    Entry::Train {
        train: Train { kind, number },
        to,
    }
}

fn payment(from: Corp, to: Corp, dollars: i64) -> Entry {
    Entry::Pay {
        from: Party::Corp(from),
        to: Party::Corp(to),
        amount: Money(dollars),
    }
}

/// A run of no train.
fn empty_best(alloc: Global, corp: Corp) -> Entry {
    Entry::Best {
        corp,
        sheet: Words::none(alloc),
        certificate: Words::none(alloc),
    }
}

/// Entries of which four have words.
fn rare(rt: &impl Abort, alloc: Global) -> Entries {
    let mut entries = Entries::new(alloc);
    add(rt, Entry::Step(Marker::Operating), &mut entries);
    add(rt, train_to(Kind::Four, 2, Place::Pool), &mut entries);
    add(rt, payment(Corp::Erie, Corp::Prr, 0), &mut entries);
    add(rt, train_to(Kind::Two, 6, Place::Gone), &mut entries);
    add(rt, payment(Corp::Erie, Corp::Prr, 1), &mut entries);
    add(rt, empty_best(alloc, Corp::Nynh), &mut entries);
    add(rt, Entry::Step(Marker::Stock), &mut entries);
    entries
}

fn add(rt: &impl Abort, entry: Entry, entries: &mut Entries) {
    entries.push(entry).expect(rt, "memory");
}

/// Their words, and the same once more.
const TWICE: &[u8] = b" train 4-2 pool ; train 2-6 gone ; pay ERIE PRR 1 ; best NYNH ; \
    train 4-2 pool ; train 2-6 gone ; pay ERIE PRR 1 ; best NYNH";

/// Whether the entries of three commands, of which the second one adds none, are written one after another.
fn rare_are_written(rt: &impl Abort, alloc: Global) -> bool {
    let books = [rare(rt, alloc), Entries::new(alloc), rare(rt, alloc)];
    have_words(rt, alloc, &[], &books, TWICE)
}

#[test]
fn entries_without_words_get_no_separator(rt: HostRuntime) {
    let rt = &rt;
    assert!(rt; rare_are_written(rt, rt.alloc()));
}
