//! The words that name corporations, privates and cities.
ghost use Rattle.std.specs.Prelude.{◌≡◌};
ghost use Rattle.rr_words.specs.Numeral.{small_number_of};
ghost use Rattle.rr_kit.specs.Board.Plan.{slots_at, slots_of};
ghost use Rattle.rr_kit.specs.Board.Words.{corp_of, private_of};

use crate::board::hex::GREATEST_CENTRE;
use rr_roster::{Corp, Private};
use rr_tiles::{Kind, Part};
use rr_words::small_number;

pub(crate) fn corp_of(word: &[u8]) -> Option<Corp>
    ensures { result ≡ corp_of word.now }
{
    Corp::from_name(word)
}

pub(crate) fn private_of(word: &[u8]) -> Option<Private>
    ensures { result ≡ private_of word.now }
{
    Private::from_name(word)
}

// The number by which a word names a city among its hex's centres.
pub(crate) fn centre_of(word: &[u8]) -> Option<u64>
    ensures { result ≡ small_number_of word.now 1 GREATEST_CENTRE }
{
    let centre = small_number(word, 1, GREATEST_CENTRE)?;
    Some(u64::from(centre))
}

/// The slots of the centre of a number, from 1, among the parts of a tile, where it is a city.
pub fn slots_at(parts: &[Part], number: u64) -> Option<u8>
    ensures { result ≡ slots_at parts.now number }
{
    match parts {
        [] => None,
        [Part::Track(_), rest @ ..] => slots_at(rest, number),
        [Part::Centre(centre), rest @ ..] => {
            if number == 1 {
                return slots_of(&centre.kind);
            }
            slots_at(rest, number.saturating_sub(1))
        }
    }
}

fn slots_of(kind: &Kind) -> Option<u8>
    ensures { result ≡ slots_of kind.now }
{
    match kind {
        Kind::City { slots } => Some(*slots),
        _ => None,
    }
}
