//! Tiles and tokens: reading the words behind the first, and writing them.
ghost use Rattle.std.specs.Prelude.{◌≡◌, ◌∷◌, ◌++◌, codes, IfSome, OnOk, ◌≤◌, decimal};
ghost use Rattle.rr_words.specs.Numeral.{small_number_of};
ghost use Rattle.rr_orders.specs.Scan.Writing.{Continues};
ghost use Rattle.rr_orders.specs.Order.{IsOrder, spelling, text};
ghost use Rattle.rr_orders.specs.Reading.{read_lay, read_station};

use crate::order::Order;
use crate::scan::{Words, read_corp, write_number, write_word};
use rr_roster::Corp;
use rr_words::{HexName, number, small_number};
use std::alloc::AllocError;

pub fn read_lay<'a>(words: &mut Words<'a>) -> Option<Order<'a>>
    ensures exact { result ≡ read_lay words.old }
    ensures found { IfSome result (λ order. IsOrder order × (codes "lay" ∷ words.old ≡ spelling order)) }
{
    let corp = read_corp(words.next()?)?;
    let hex = HexName::read(words.next()?)?;
    let tile = small_number(words.next()?, 1, 999)?;
    let turn = read_turn(words.last()?)?;
    Some(Order::Lay {
        corp,
        hex,
        tile,
        turn,
    })
}

// A tile lies in one of six ways.
fn read_turn(word: &[u8]) -> Option<u8>
    ensures value { result ≡ small_number_of word.now 0 5 }
    ensures spelled { IfSome result (λ turn. (turn ≤ 5) × (word.now ≡ decimal turn)) }
{
    let turn = small_number(word, 0, 5)?;
    Some(turn as u8)
}

pub fn read_station<'a>(words: &mut Words<'a>) -> Option<Order<'a>>
    ensures exact { result ≡ read_station words.old }
    ensures found { IfSome result (λ order. IsOrder order × (codes "station" ∷ words.old ≡ spelling order)) }
{
    let corp = read_corp(words.next()?)?;
    let hex = HexName::read(words.next()?)?;
    let centre = number(words.last()?)?;
    Some(Order::Station { corp, hex, centre })
}

pub fn write_lay(
    corp: Corp,
    hex: &HexName,
    tile: u16,
    turn: u8,
    out: &mut Vec<u8>,
) -> Result<(), AllocError>
    ensures ok { OnOk result (out.new.items ≡ out.old.items ++ text (Order.Lay corp hex.now tile turn)) }
    ensures kept { Continues out.old.items out.new.items }
{
    out.extend_from_slice(b"lay")?;
    write_word(corp.name().as_bytes(), out)?;
    write_word(hex.as_bytes(), out)?;
    write_number(u64::from(tile), out)?;
    write_number(u64::from(turn), out)
}

pub fn write_station(
    corp: Corp,
    hex: &HexName,
    centre: u64,
    out: &mut Vec<u8>,
) -> Result<(), AllocError>
    ensures ok { OnOk result (out.new.items ≡ out.old.items ++ text (Order.Station corp hex.now centre)) }
    ensures kept { Continues out.old.items out.new.items }
{
    out.extend_from_slice(b"station")?;
    write_word(corp.name().as_bytes(), out)?;
    write_word(hex.as_bytes(), out)?;
    write_number(centre, out)
}
