//! A board as its lines are read, one after the other.
ghost use Rattle.std.specs.Prelude.{◌≡◌, ◌∷◌, map, option_and_then, count_by, IfOk, MatchResult, if◌then◌else◌, Some, None};
ghost use Rattle.std.specs.List.{list_any};
ghost use Rattle.rr_kit.specs.Board.Plan.{has_same_name_or_place, is_coloured_right, is_home_at, is_home_of, is_off_board, is_off_board_part, is_red, may_take_hex, may_take_home, same_place};

use crate::board::fault::Fault;
use crate::board::hex::{Block, Colour, Hex, Home, Place, hex_named};
use crate::board::hex_words::read_hex;
use crate::board::home_words::{centre_of, corp_of, private_of, slots_at};
use rr_roster::Corp;
use rr_tiles::{Kind, Part};
use rr_words::{HexName, Row};
use std::alloc::{AllocError, Global};
use std::marker::Model;

const HEXES: usize = 200;

/// What the lines so far name.
#[derive(Debug, Drop)]
pub(crate) struct Draft {
    pub(crate) hexes: Vec<Hex>,
    pub(crate) homes: Vec<Home>,
    pub(crate) blocks: Vec<Block>,
}

impl Model for Draft {
    ghost use Rattle.rr_kit.specs.Board.Plan.{Plan};

    ghost Value = { Plan };

    ghost view = { λ draft. record { hexes = draft.hexes.items; homes = draft.homes.items; blocks = draft.blocks.items } };
}

impl Draft {
    ghost use Rattle.rr_kit.specs.Board.Plan.{bare};
    ghost use Rattle.rr_words.specs.Text.{row_of};
    ghost use Rattle.rr_kit.specs.Board.Lines.{add_hex, add_home, add_block, add_line, block_of, home_of, with_hex};
    ghost use Rattle.rr_kit.specs.Board.Reading.{SpellsRows, IsRowsFault};

    // What the rows of a text name, or the first wrong one.
    pub(crate) fn read_rows(alloc: Global, rows: &[Row]) -> Result<Draft, Fault>
        ensures { MatchResult result
            (λ draft. SpellsRows (map row_of rows.now) draft)
            (λ fault. IsRowsFault (map row_of rows.now) fault) }
    {
        let mut draft = Draft::bare(alloc);
        for row in rows {
            if !draft.take(alloc, &row.words)? {
                return Err(Fault::BadBoard { line: row.number });
            }
        }
        Ok(draft)
    }

    fn bare(alloc: Global) -> Draft
        ensures { result ≡ bare }
    {
        Draft {
            hexes: Vec::new(alloc),
            homes: Vec::new(alloc),
            blocks: Vec::new(alloc),
        }
    }

    // Adds what a line says; `false` of a line that says nothing or what the board may not have.
    fn take(&mut self, alloc: Global, words: &[&[u8]]) -> Result<bool, AllocError>
        ensures { IfOk result (λ taken. (if taken then Some self.new else None) ≡ add_line self.old (map (λ word. word.now) words.now)) }
    {
        let [head, rest @ ..] = words else {
            return Ok(false);
        };
        if *head == b"hex".as_slice() {
            return self.take_hex(alloc, rest);
        }
        if *head == b"home".as_slice() {
            return self.take_home(rest);
        }
        if *head == b"block".as_slice() {
            return self.take_block(rest);
        }
        Ok(false)
    }

    fn take_hex(&mut self, alloc: Global, words: &[&[u8]]) -> Result<bool, AllocError>
        ensures { IfOk result (λ taken. (if taken then Some self.new else None) ≡ add_hex self.old (map (λ word. word.now) words.now)) }
    {
        let [name, place, colour, rest @ ..] = words else {
            return Ok(false);
        };
        let hex = read_hex(alloc, name, place, colour, rest)?;
        let taken = self.add_hex(hex)?;
        Ok(taken)
    }

    fn add_hex(&mut self, hex: Option<Hex>) -> Result<bool, AllocError>
        ensures { IfOk result (λ taken. (if taken then Some self.new else None) ≡ option_and_then (with_hex self.old) hex) }
    {
        let Some(hex) = hex else {
            return Ok(false);
        };
        if !may_take_hex(&self.hexes, &hex) {
            return Ok(false);
        }
        self.hexes.push(hex)?;
        Ok(true)
    }

    fn take_home(&mut self, words: &[&[u8]]) -> Result<bool, AllocError>
        ensures { IfOk result (λ taken. (if taken then Some self.new else None) ≡ add_home self.old (map (λ word. word.now) words.now)) }
    {
        let [corp, hex, centre] = words else {
            return Ok(false);
        };
        let taken = self.add_home(corp, hex, centre)?;
        Ok(taken)
    }

    fn add_home(&mut self, corp: &[u8], hex: &[u8], centre: &[u8]) -> Result<bool, AllocError>
        ensures { IfOk result (λ taken. (if taken then Some self.new else None) ≡ home_of self.old corp.now hex.now centre.now) }
    {
        let Some(corp) = corp_of(corp) else {
            return Ok(false);
        };
        let Some(centre) = centre_of(centre) else {
            return Ok(false);
        };
        let Some(hex) = hex_named(&self.hexes, hex) else {
            return Ok(false);
        };
        let Some(slots) = slots_at(hex.tile.parts(), centre) else {
            return Ok(false);
        };
        let hex = hex.name;
        let home = Home { corp, hex, centre };
        if !may_take_home(&self.homes, &home, slots) {
            return Ok(false);
        }
        self.homes.push(home)?;
        Ok(true)
    }

    fn take_block(&mut self, words: &[&[u8]]) -> Result<bool, AllocError>
        ensures { IfOk result (λ taken. (if taken then Some self.new else None) ≡ add_block self.old (map (λ word. word.now) words.now)) }
    {
        let [private, hex] = words else {
            return Ok(false);
        };
        let taken = self.add_block(private, hex)?;
        Ok(taken)
    }

    fn add_block(&mut self, private: &[u8], hex: &[u8]) -> Result<bool, AllocError>
        ensures { IfOk result (λ taken. (if taken then Some self.new else None) ≡ block_of self.old private.now hex.now) }
    {
        let Some(private) = private_of(private) else {
            return Ok(false);
        };
        let Some(hex) = hex_named(&self.hexes, hex) else {
            return Ok(false);
        };
        let hex = hex.name;
        self.blocks.push(Block { private, hex })?;
        Ok(true)
    }
}

fn may_take_hex(hexes: &[Hex], hex: &Hex) -> bool
    ensures { result ≡ may_take_hex hexes.now hex.now }
{
    hexes.len() < HEXES && is_coloured_right(hex) && !has_name_or_place_of(hexes, hex)
}

fn has_name_or_place_of(hexes: &[Hex], hex: &Hex) -> bool
    ensures { result ≡ list_any (has_same_name_or_place hex.now) hexes.now }
{
    hexes.iter().any(|other| other.name == hex.name || same_place(&other.place, &hex.place))
}

fn same_place(place: &Place, other: &Place) -> bool
    ensures { result ≡ same_place place.now other.now }
{
    place.q == other.q && place.r == other.r
}

fn is_coloured_right(hex: &Hex) -> bool
    ensures { result ≡ is_coloured_right hex.now }
{
    is_red(hex.colour) || !has_off_board(hex.tile.parts())
}

fn is_red(colour: Colour) -> bool
    ensures { result ≡ is_red colour }
{
    match colour {
        Colour::Red => true,
        _ => false,
    }
}

fn has_off_board(parts: &[Part]) -> bool
    ensures { result ≡ list_any is_off_board_part parts.now }
{
    parts.iter().any(|part| is_off_board_part(part))
}

fn is_off_board_part(part: &Part) -> bool
    ensures { result ≡ is_off_board_part part.now }
{
    match part {
        Part::Track(_) => false,
        Part::Centre(centre) => is_off_board(&centre.kind),
    }
}

fn is_off_board(kind: &Kind) -> bool
    ensures { result ≡ is_off_board kind.now }
{
    match kind {
        Kind::OffBoard { .. } => true,
        _ => false,
    }
}

fn may_take_home(homes: &[Home], home: &Home, slots: u8) -> bool
    ensures { result ≡ may_take_home homes.now home.now slots }
{
    !has_home(homes, home.corp) && count_at(homes, &home.hex, home.centre) < slots as usize
}

fn has_home(homes: &[Home], corp: Corp) -> bool
    ensures { result ≡ list_any (is_home_of corp) homes.now }
{
    homes.iter().any(|home| home.corp == corp)
}

fn count_at(homes: &[Home], hex: &HexName, centre: u64) -> usize
    ensures { result ≡ count_by (is_home_at hex.now centre) homes.now }
{
    homes
        .iter()
        .filter(|home| home.hex == *hex && home.centre == centre)
        .count()
}
