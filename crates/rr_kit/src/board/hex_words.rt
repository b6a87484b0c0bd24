//! The words of a line that names a hex.
ghost use Rattle.std.specs.Prelude.{◌≡◌, ℕ, ◌<◌, length, map, option_map, IfOk, IfSome};
ghost use Rattle.rr_kit.specs.Board.Words.{behind_cost, behind_st, colour_of, coordinate_of, cost_and_tile, place_of};
ghost use Rattle.rr_kit.specs.Board.Lines.{hex_of};
ghost use Rattle.rr_tiles.specs.Reading.{cut_of, place_of as first_place_of};

use crate::board::hex::{Colour, Hex, Place};
use rr_tiles::Tile;
use rr_words::{HexName, small_number};
use std::alloc::{AllocError, Global};

pub(crate) fn read_hex(
    alloc: Global,
    name: &[u8],
    place: &[u8],
    colour: &[u8],
    rest: &[&[u8]],
) -> Result<Option<Hex>, AllocError>
    ensures { IfOk result (λ read. read ≡ hex_of name.now place.now colour.now (map (λ word. word.now) rest.now)) }
{
    let Some(name) = HexName::read(name) else {
        return Ok(None);
    };
    let Some(place) = place_of(place) else {
        return Ok(None);
    };
    let Some(colour) = colour_of(colour) else {
        return Ok(None);
    };
    let Some((cost, words)) = cost_and_tile(rest) else {
        return Ok(None);
    };
    let Some(tile) = Tile::read(alloc, words)? else {
        return Ok(None);
    };
    Ok(Some(Hex {
        name,
        place,
        colour,
        cost,
        tile,
    }))
}

fn place_of(word: &[u8]) -> Option<Place>
    ensures { result ≡ place_of word.now }
{
    let (q, r) = cut(word, b',')?;
    let q = coordinate_of(q)?;
    let r = coordinate_of(r)?;
    Some(Place { q, r })
}

// What stands before and behind the first of these characters.
fn cut(word: &[u8], mark: u8) -> Option<(&[u8], &[u8])>
    ensures { option_map (λ parts. (parts.0.now, parts.1.now)) result ≡ cut_of mark word.now }
{
    match first_place(word, mark) {
        Some(at) => Some((&word[..at], &word[at + 1..])),
        None => None,
    }
}

fn first_place(word: &[u8], mark: u8) -> Option<usize>
    ensures value { result ≡ first_place_of mark word.now }
    ensures bounded { IfSome result (λ at. at < length word.now) }
{
    word.iter().position(|c| *c == mark)
}

fn coordinate_of(word: &[u8]) -> Option<i8>
    ensures { result ≡ coordinate_of word.now }
{
    match word {
        [] => None,
        [b'-', digits @ ..] => {
            let n = small_number(digits, 1, 50)?;
            Some(-(n as i8))
        }
        _ => {
            let n = small_number(word, 0, 50)?;
            Some(n as i8)
        }
    }
}

fn colour_of(word: &[u8]) -> Option<Colour>
    ensures { result ≡ colour_of word.now }
{
    if word == b"white".as_slice() {
        return Some(Colour::White);
    }
    if word == b"yellow".as_slice() {
        return Some(Colour::Yellow);
    }
    if word == b"green".as_slice() {
        return Some(Colour::Green);
    }
    if word == b"brown".as_slice() {
        return Some(Colour::Brown);
    }
    if word == b"grey".as_slice() {
        return Some(Colour::Grey);
    }
    if word == b"red".as_slice() {
        return Some(Colour::Red);
    }
    None
}

// The cost, which is 0 where no word names it, and the words of the tile.
fn cost_and_tile<'a, 'b>(rest: &'a [&'b [u8]]) -> Option<(u16, &'a [&'b [u8]])>
    ensures { option_map (λ read. (read.0, map (λ word. word.now) read.1.now)) result ≡ cost_and_tile (map (λ word. word.now) rest.now) }
{
    match rest {
        [] => Some((0, rest)),
        [word, words @ ..] => match behind_cost(word) {
            Some(digits) => {
                let cost = small_number(digits, 0, 500)?;
                Some((cost, words))
            }
            None => Some((0, rest)),
        },
    }
}

fn behind_cost(word: &[u8]) -> Option<&[u8]>
    ensures { option_map (λ rest. rest.now) result ≡ behind_cost word.now }
{
    match word {
        [b'c', b'o', rest @ ..] => behind_st(rest),
        _ => None,
    }
}

fn behind_st(word: &[u8]) -> Option<&[u8]>
    ensures { option_map (λ rest. rest.now) result ≡ behind_st word.now }
{
    match word {
        [b's', b't', b'=', rest @ ..] => Some(rest),
        _ => None,
    }
}
