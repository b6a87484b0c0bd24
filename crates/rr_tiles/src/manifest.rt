//! The manifest of a kit: its tiles by their numbers.
ghost use Rattle.std.specs.Prelude.{◌≡◌, [], IfOk, map, option_map, if◌then◌else◌, Some, None};
ghost use Rattle.std.specs.Option.{option_copied};

use crate::fault::Fault;
use crate::supply::{Colour, Supply, read_supply};
use crate::tile::Tile;
use rr_words::text::Row;
use std::alloc::{AllocError, Global};
use std::marker::Model;

/// The tiles that a kit has, in the order of its text.
#[derive(Debug, Drop)]
pub struct Manifest {
    supplies: Vec<Supply>,
}

impl Model for Manifest {
    ghost use Rattle.std.specs.Prelude.{List, All};
    ghost use Rattle.rr_tiles.specs.Manifest.{IsManifest};
    ghost use Rattle.rr_tiles.specs.declared.supply.Supply.{Supply};

    ghost Value = { List Supply };

    ghost view = { λ manifest. manifest.supplies.items };

    ghost invariant = { λ manifest. IsManifest manifest.supplies.items };
}

impl Manifest {
    ghost use Rattle.std.specs.Prelude.{MatchResult, IfSome, List, ◌≤◌};
    ghost use Rattle.rr_words.specs.Text.{row_of};
    ghost use Rattle.rr_tiles.specs.Manifest.{IsLinesFault, IsManifest, IsRefusal, IsSupply, Spells, SpellsLines};
    ghost use Rattle.rr_tiles.specs.Supply.{add_line, has_number, supply_at};
    ghost use Rattle.rr_tiles.specs.declared.supply.Supply.{Supply};

    /// Reads a manifest from its text.
    ///
    /// A line is `<colour> <number> x<count>` and the text of a tile, as `Tile::read` takes it, without
    /// an off-board area. The colour is yellow, green or brown, the number is from 1 to 999, and no two
    /// lines have one, and the count is from 1 to 50. One or more spaces separate words. Empty lines,
    /// lines of spaces alone and lines that begin with `#` are skipped, but are counted.
    ///
    /// # Errors
    ///
    /// `BadManifest` with the first wrong line, or with 0 where the text is not ASCII or is longer than
    /// 65,536 bytes; `OutOfMemory` at any text of ASCII that is no longer.
    pub fn read(alloc: Global, text: &str) -> Result<Manifest, Fault>
        ensures read { MatchResult result (λ manifest. Spells text.now manifest) (λ fault. IsRefusal text.now fault) }
        ensures only { IfOk result (λ manifest. (other : List Supply) → Spells text.now other → other ≡ manifest) }
    {
        let Some(lines) = rr_words::rows(alloc, text)? else {
            return Err(Fault::BadManifest { line: 0 });
        };
        let manifest = Manifest::read_lines(alloc, &lines)?;
        Ok(manifest)
    }

    fn read_lines(alloc: Global, lines: &[Row]) -> Result<Manifest, Fault>
        ensures { MatchResult result
            (λ manifest. SpellsLines (map row_of lines.now) manifest)
            (λ fault. IsLinesFault (map row_of lines.now) fault) }
    {
        let mut manifest = Manifest::empty(alloc);
        for line in lines {
            if !manifest.take(alloc, &line.words)? {
                return Err(Fault::BadManifest { line: line.number });
            }
        }
        Ok(manifest)
    }

    /// The tiles, in the order of the text.
    pub fn supplies(&self) -> &[Supply]
        ensures value { result.now ≡ self.now }
        ensures sound { IsManifest self.now }
    {
        &self.supplies
    }

    /// The tiles of a number, if there are any.
    pub fn supply(&self, number: u16) -> Option<&Supply>
        ensures value { option_copied result ≡ supply_at self.now number }
        ensures sound { IfSome result (λ supply. IsSupply supply.now) }
    {
        self.supplies.iter().find(|supply| supply.number == number)
    }

    /// The tile of a number, if there is one.
    pub fn tile(&self, number: u16) -> Option<&Tile>
        ensures { option_copied result ≡ option_map (λ supply. supply.tile) (supply_at self.now number) }
    {
        let supply = self.supply(number)?;
        Some(&supply.tile)
    }

    /// The colour of a number's tiles, if there are any.
    pub fn colour(&self, number: u16) -> Option<Colour>
        ensures { result ≡ option_map (λ supply. supply.colour) (supply_at self.now number) }
    {
        let supply = self.supply(number)?;
        Some(supply.colour)
    }

    /// How many tiles of a number there are, from 1 to 50, if there are any.
    pub fn count(&self, number: u16) -> Option<u8>
        ensures value { result ≡ option_map (λ supply. supply.count) (supply_at self.now number) }
        ensures bounded { IfSome result (λ count. (1 ≤ count) × (count ≤ 50)) }
    {
        let supply = self.supply(number)?;
        Some(supply.count)
    }

    fn empty(alloc: Global) -> Manifest
        ensures { result ≡ [] }
    {
        Manifest {
            supplies: Vec::new(alloc),
        }
    }

    // Adds what the words of a line spell; `false` where they spell nothing, or a number that is here.
    fn take(&mut self, alloc: Global, words: &[&[u8]]) -> Result<bool, AllocError>
        ensures { IfOk result (λ taken. (if taken then Some self.new else None) ≡ add_line self.old (map (λ word. word.now) words.now)) }
    {
        let Some(supply) = read_supply(alloc, words)? else {
            return Ok(false);
        };
        if self.has_number(supply.number) {
            return Ok(false);
        }
        self.supplies.push(supply)?;
        Ok(true)
    }

    fn has_number(&self, number: u16) -> bool
        ensures { result ≡ has_number self.now number }
    {
        self.supplies.iter().any(|supply| supply.number == number)
    }
}
