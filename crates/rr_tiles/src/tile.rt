//! A tile, and how words spell it.
ghost use Rattle.std.specs.Prelude.{◌≡◌, IfOk, map, if◌then◌else◌, Some, None};
ghost use Rattle.rr_tiles.specs.Reading.{is_double};
ghost use Rattle.rr_tiles.specs.Tile.{has_track};

use crate::element::{Element, read_element};
use crate::part::{Label, Part, Track};
use std::alloc::{AllocError, Global};
use std::marker::Model;

/// A tile: its tracks and centres in the order of its text, and maybe a label.
#[derive(Debug, Drop)]
pub struct Tile {
    parts: Vec<Part>,
    label: Option<Label>,
}

impl Model for Tile {
    ghost use Rattle.rr_tiles.specs.Tile.{Face};
    ghost use Rattle.rr_tiles.specs.Sound.{IsTile};

    ghost Value = { Face };

    ghost view = { λ tile. record { parts = tile.parts.items; label = tile.label } };

    ghost invariant = { λ tile. IsTile (record { parts = tile.parts.items; label = tile.label }) };
}

impl Tile {
    ghost use Rattle.std.specs.Prelude.{MatchOption, IfSome, ℕ, List};
    ghost use Rattle.rr_tiles.specs.Sound.{IsTile, IsPart, IsLabel};
    ghost use Rattle.rr_tiles.specs.Spelling.{SpellsTile};
    ghost use Rattle.rr_tiles.specs.Tile.{Face, blank, turned};
    ghost use Rattle.rr_tiles.specs.Reading.{add_part, add_label, add_word, tile_of};

    /// Reads a tile from the words of its text; `None` where they spell none.
    ///
    /// A word is `a-b`, a track between two different edges; `tV:edges`, a town; `cV/S:edges`, a city
    /// with 1 to 4 slots; `oV/W:edges`, an off-board area worth V, from the first 5 train on W; or
    /// `L=X`, a label of one or two capital letters. Edges are 0 to 5, joined by commas: none stands
    /// twice in a centre, and there may be none. Values are multiples of 10 from 0 to 990. No track
    /// stands twice, and 0-1 and 1-0 are one track. There is at most one label.
    ///
    /// Only memory can fail.
    pub fn read(alloc: Global, words: &[&[u8]]) -> Result<Option<Tile>, AllocError>
        ensures value { IfOk result (λ read. read ≡ tile_of (map (λ word. word.now) words.now)) }
        ensures spelled { IfOk result (λ read. MatchOption read
            ((other : Face) → ¬ SpellsTile (map (λ word. word.now) words.now) other)
            (λ tile. SpellsTile (map (λ word. word.now) words.now) tile)) }
        ensures only { IfOk result (λ read. IfSome read (λ tile. (other : Face) → SpellsTile (map (λ word. word.now) words.now) other → other ≡ tile)) }
    {
        Tile::read_words(alloc, words)
    }

    fn read_words(alloc: Global, words: &[&[u8]]) -> Result<Option<Tile>, AllocError>
        ensures { IfOk result (λ read. read ≡ tile_of (map (λ word. word.now) words.now)) }
    {
        let mut tile = Tile::blank(alloc);
        for word in words {
            if !tile.take(alloc, word)? {
                return Ok(None);
            }
        }
        Ok(Some(tile))
    }

    /// The tracks and the centres, in the order of the text. The links of a tile have this order: a
    /// track is one link, and each edge of a centre is one link.
    pub fn parts(&self) -> &[Part]
        ensures value { result.now ≡ self.now.parts }
        ensures sound { IsTile self.now }
    {
        &self.parts
    }

    /// The label, if there is one.
    pub fn label(&self) -> Option<Label>
        ensures value { result ≡ self.now.label }
        ensures sound { IsTile self.now }
    {
        let Tile { label, .. } = self;
        *label
    }

    /// Where a turn by `turn` sixths takes the tile: edge e goes to e + turn modulo 6, and the parts
    /// keep their order.
    ///
    /// Only memory can fail.
    pub fn turned(&self, alloc: Global, turn: u8) -> Result<Tile, AllocError>
        ensures { IfOk result (λ tile. tile ≡ turned turn self.now) }
    {
        let mut parts = Vec::new(alloc);
        for part in &self.parts {
            let part = part.turned(alloc, turn)?;
            parts.push(part)?;
        }
        Ok(Tile {
            parts,
            label: self.label,
        })
    }

    fn blank(alloc: Global) -> Tile
        ensures { result ≡ blank }
    {
        Tile {
            parts: Vec::new(alloc),
            label: None,
        }
    }

    // Adds what a word spells; `false` of a word that spells nothing or what the tile may not have.
    fn take(&mut self, alloc: Global, word: &[u8]) -> Result<bool, AllocError>
        ensures { IfOk result (λ taken. (if taken then Some self.new else None) ≡ add_word self.old word.now) }
    {
        let Some(element) = read_element(alloc, word)? else {
            return Ok(false);
        };
        match element {
            Element::Part(part) => self.take_part(part),
            Element::Label(label) => Ok(self.take_label(label)),
        }
    }

    fn take_part(&mut self, part: Part) -> Result<bool, AllocError>
        requires { IsPart part }
        ensures { IfOk result (λ taken. (if taken then Some self.new else None) ≡ add_part self.old part) }
    {
        if is_double(&self.parts, &part) {
            return Ok(false);
        }
        self.parts.push(part)?;
        Ok(true)
    }

    fn take_label(&mut self, label: Label) -> bool
        requires { IsLabel label }
        ensures { (if result then Some self.new else None) ≡ add_label self.old label }
    {
        if self.label.is_some() {
            return false;
        }
        self.label = Some(label);
        true
    }
}

// Whether the part is a track that is there already.
fn is_double(parts: &[Part], part: &Part) -> bool
    ensures { result ≡ is_double parts.now part.now }
{
    match part {
        Part::Track(track) => has_track(parts, track),
        Part::Centre(_) => false,
    }
}

fn has_track(parts: &[Part], track: &Track) -> bool
    ensures { result ≡ has_track parts.now track.now }
{
    parts.iter().any(|part| part.is_track(track))
}
