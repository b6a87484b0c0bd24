//! A line of a manifest.
ghost use Rattle.std.specs.Prelude.{◌≡◌, IfOk, map};
ghost use Rattle.rr_words.specs.Numeral.{small_number_of};
ghost use Rattle.rr_tiles.specs.Supply.{colour_of, count_of, has_off_board, head_of, is_off_board, supply_of};

use crate::part::{Kind, Part};
use crate::tile::Tile;
use rr_words::small_number;
use std::alloc::{AllocError, Global};

/// The colour of a tile of a manifest.
#[derive(Clone, Copy, Debug, PartialEq, Eq)]
pub enum Colour {
    Yellow,
    Green,
    Brown,
}

/// The tiles of one number.
#[derive(Debug, Drop)]
pub struct Supply {
    pub colour: Colour,
    /// From 1 to 999.
    pub number: u16,
    /// How many such tiles there are, from 1 to 50.
    pub count: u8,
    pub tile: Tile,
}

// The supply of a line's words.
pub(crate) fn read_supply(alloc: Global, words: &[&[u8]]) -> Result<Option<Supply>, AllocError>
    ensures { IfOk result (λ read. read ≡ supply_of (map (λ word. word.now) words.now)) }
{
    let [colour, number, count, text @ ..] = words else {
        return Ok(None);
    };
    let Some((colour, number, count)) = head_of(colour, number, count) else {
        return Ok(None);
    };
    let Some(tile) = Tile::read(alloc, text)? else {
        return Ok(None);
    };
    if has_off_board(tile.parts()) {
        return Ok(None);
    }
    Ok(Some(Supply {
        colour,
        number,
        count,
        tile,
    }))
}

fn head_of(colour: &[u8], number: &[u8], count: &[u8]) -> Option<(Colour, u16, u8)>
    ensures { result ≡ head_of colour.now number.now count.now }
{
    let colour = colour_of(colour)?;
    let number = small_number(number, 1, 999)?;
    let count = count_of(count)?;
    Some((colour, number, count))
}

fn colour_of(word: &[u8]) -> Option<Colour>
    ensures { result ≡ colour_of word.now }
{
    if word == b"yellow".as_slice() {
        return Some(Colour::Yellow);
    }
    if word == b"green".as_slice() {
        return Some(Colour::Green);
    }
    if word == b"brown".as_slice() {
        return Some(Colour::Brown);
    }
    None
}

fn count_of(word: &[u8]) -> Option<u8>
    ensures { result ≡ count_of word.now }
{
    match word {
        [b'x', digits @ ..] => small_count(digits),
        _ => None,
    }
}

fn small_count(digits: &[u8]) -> Option<u8>
    ensures { result ≡ small_number_of digits.now 1 50 }
{
    let count = small_number(digits, 1, 50)?;
    Some(count as u8)
}

fn has_off_board(parts: &[Part]) -> bool
    ensures { result ≡ has_off_board parts.now }
{
    parts.iter().any(is_off_board)
}

fn is_off_board(part: &Part) -> bool
    ensures { result ≡ is_off_board part.now }
{
    match part {
        Part::Centre(centre) => match centre.kind {
            Kind::OffBoard { .. } => true,
            Kind::Town | Kind::City { .. } => false,
        },
        Part::Track(_) => false,
    }
}
