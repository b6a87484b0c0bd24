//! The words of entries, with a separator between each two.
ghost use Rattle.std.specs.Prelude.{◌≡◌, ◌++◌, [], ◌∷◌, List, ℕ, IfOk, OnOk};
ghost use Rattle.rr_books.specs.declared.entries.Entry.{Entry as AnyEntry};
ghost use Rattle.rr_entries.specs.Words.{book_words, entry_words, joined, spaced};
ghost use Rattle.rr_entries.specs.Writing.{separator_after, with_entries, with_words};

use crate::certificates::{write_certificate, write_train_name};
use crate::places::{party_word, place_word};
use rr_books::{Cell, Cert, Entry, Money, Party, Place, Train};
use rr_desk::Entries;
use rr_orders::scan::{write_number, write_word};
use rr_roster::Corp;
use rr_words::{HexName, Name};
use std::alloc::{AllocError, Global};

/// The words of the entries of several commands: each word after a space, and the word `;` between
/// each two entries. A step has no words, and neither has a payment of 0; they get no separator.
/// `players` are the names in seating order; the entries of each command are a list of their own.
///
/// # Errors
///
/// `AllocError` alone.
pub fn text_of(alloc: Global, players: &[Name], books: &[Entries]) -> Result<Vec<u8>, AllocError>
    ensures { IfOk result (λ text. text.items ≡ spaced (book_words players.now (joined books.now))) }
{
    let mut text = Vec::new(alloc);
    for entries in books {
        write_entries(players, entries.as_slice(), &mut text)?;
    }
    Ok(text)
}

fn write_entries(players: &[Name], entries: &[Entry], text: &mut Vec<u8>) -> Result<(), AllocError>
    ensures { OnOk result (text.new.items ≡ with_entries players.now text.old.items entries.now) }
{
    for entry in entries {
        write_entry(players, entry, text)?;
    }
    Ok(())
}

fn write_entry(players: &[Name], entry: &Entry, text: &mut Vec<u8>) -> Result<(), AllocError>
    ensures { OnOk result (text.new.items ≡ with_words text.old.items (entry_words players.now entry.now)) }
{
    match entry {
        Entry::Pay { from, to, amount } => write_payment(players, *from, *to, *amount, text),
        Entry::Move { cert, to } => write_move(players, *cert, *to, text),
        Entry::Mark { corp, cell } => write_mark(*corp, *cell, text),
        Entry::Lay { hex, tile, turn } => write_lay(hex, *tile, *turn, text),
        Entry::Station { corp, hex, centre } => write_station(*corp, hex, *centre, text),
        Entry::Train { train, to } => write_train(players, *train, *to, text),
        Entry::Best {
            corp,
            sheet,
            certificate: _,
        } => write_best(*corp, sheet.as_bytes(), text),
        Entry::Step(_) => Ok(()),
    }
}

fn write_payment(
    players: &[Name],
    from: Party,
    to: Party,
    amount: Money,
    text: &mut Vec<u8>,
) -> Result<(), AllocError>
    ensures { OnOk result (text.new.items ≡ with_words text.old.items (entry_words players.now (AnyEntry.Pay from to amount))) }
{
    if amount.0 == 0 {
        return Ok(());
    }
    write_head(b"pay", text)?;
    write_word(party_word(players, from), text)?;
    write_word(party_word(players, to), text)?;
    write_word(itoa::Buffer::new().format(amount.0).as_bytes(), text)
}

fn write_move(players: &[Name], cert: Cert, to: Place, text: &mut Vec<u8>) -> Result<(), AllocError>
    ensures { OnOk result (text.new.items ≡ with_words text.old.items (entry_words players.now (AnyEntry.Move cert to))) }
{
    write_head(b"move", text)?;
    write_certificate(cert, text)?;
    write_word(place_word(players, to), text)
}

fn write_mark(corp: Corp, cell: Cell, text: &mut Vec<u8>) -> Result<(), AllocError>
    ensures { (players : List (List ℕ)) → OnOk result (text.new.items ≡ with_words text.old.items (entry_words players (AnyEntry.Mark corp cell))) }
{
    write_head(b"mark", text)?;
    write_word(corp.name().as_bytes(), text)?;
    write_number(u64::from(cell.row), text)?;
    write_number(u64::from(cell.column), text)
}

fn write_lay(hex: &HexName, tile: u16, turn: u8, text: &mut Vec<u8>) -> Result<(), AllocError>
    ensures { (players : List (List ℕ)) → OnOk result (text.new.items ≡ with_words text.old.items (entry_words players (AnyEntry.Lay hex.now tile turn))) }
{
    write_head(b"lay", text)?;
    write_word(hex.as_bytes(), text)?;
    write_number(u64::from(tile), text)?;
    write_number(u64::from(turn), text)
}

fn write_station(
    corp: Corp,
    hex: &HexName,
    centre: u64,
    text: &mut Vec<u8>,
) -> Result<(), AllocError>
    ensures { (players : List (List ℕ)) → OnOk result (text.new.items ≡ with_words text.old.items (entry_words players (AnyEntry.Station corp hex.now centre))) }
{
    write_head(b"station", text)?;
    write_word(corp.name().as_bytes(), text)?;
    write_word(hex.as_bytes(), text)?;
    write_number(centre, text)
}

fn write_train(
    players: &[Name],
    train: Train,
    to: Place,
    text: &mut Vec<u8>,
) -> Result<(), AllocError>
    ensures { OnOk result (text.new.items ≡ with_words text.old.items (entry_words players.now (AnyEntry.Train train to))) }
{
    write_head(b"train", text)?;
    write_train_name(train, text)?;
    write_word(place_word(players, to), text)
}

fn write_best(corp: Corp, sheet: &[u8], text: &mut Vec<u8>) -> Result<(), AllocError>
    ensures { (players : List (List ℕ)) (certificate : List ℕ) → OnOk result (text.new.items ≡ with_words text.old.items (entry_words players (AnyEntry.Best corp sheet.now certificate))) }
{
    write_head(b"best", text)?;
    write_word(corp.name().as_bytes(), text)?;
    if sheet.is_empty() {
        return Ok(());
    }
    write_word(sheet, text)
}

// The first word of an entry, after a separator if an earlier entry has words.
fn write_head(word: &[u8], text: &mut Vec<u8>) -> Result<(), AllocError>
    ensures { OnOk result (text.new.items ≡ text.old.items ++ separator_after text.old.items ++ spaced (word.now ∷ [])) }
{
    write_separator(text)?;
    write_word(word, text)
}

// The text is empty until an entry with words is written.
fn write_separator(text: &mut Vec<u8>) -> Result<(), AllocError>
    ensures { OnOk result (text.new.items ≡ text.old.items ++ separator_after text.old.items) }
{
    if text.is_empty() {
        return Ok(());
    }
    write_word(b";", text)
}
