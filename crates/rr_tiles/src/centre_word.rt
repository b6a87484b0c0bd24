//! The kind and the value of a centre, which stand before the colon of its word.
ghost use Rattle.std.specs.Prelude.{◌≡◌, ◌<◌, length, option_map, IfSome};
ghost use Rattle.rr_tiles.specs.Reading.{cut_of, front_of, kind_of, place_of, value_of};

use crate::part::Kind;
use rr_words::small_number;

// What stands before and behind the first of these characters.
pub(crate) fn cut(word: &[u8], mark: u8) -> Option<(&[u8], &[u8])>
    ensures { option_map (λ parts. (parts.0.now, parts.1.now)) result ≡ cut_of mark word.now }
{
    match place_of(word, mark) {
        Some(at) => Some((&word[..at], &word[at + 1..])),
        None => None,
    }
}

fn place_of(word: &[u8], mark: u8) -> Option<usize>
    ensures value { result ≡ place_of mark word.now }
    ensures bounded { IfSome result (λ at. at < length word.now) }
{
    word.iter().position(|c| *c == mark)
}

pub(crate) fn front_of(letter: u8, front: &[u8]) -> Option<(Kind, u16)>
    ensures { result ≡ front_of letter front.now }
{
    if letter == b't' {
        return Some((Kind::Town, value_of(front)?));
    }
    let (value, more) = cut(front, b'/')?;
    let value = value_of(value)?;
    let kind = kind_of(letter, more)?;
    Some((kind, value))
}

fn kind_of(letter: u8, word: &[u8]) -> Option<Kind>
    ensures { result ≡ kind_of letter word.now }
{
    if letter == b'c' {
        let slots = small_number(word, 1, 4)?;
        return Some(Kind::City { slots: slots as u8 });
    }
    let later_value = value_of(word)?;
    Some(Kind::OffBoard { later_value })
}

// A multiple of 10 from 0 to 990.
fn value_of(word: &[u8]) -> Option<u16>
    ensures { result ≡ value_of word.now }
{
    let value = small_number(word, 0, 990)?;
    if value % 10 == 0 { Some(value) } else { None }
}
