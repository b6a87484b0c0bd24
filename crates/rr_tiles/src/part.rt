//! What a tile has: tracks, centres and a label.
ghost use Rattle.std.specs.Prelude.{◌≡◌, IfOk};
ghost use Rattle.rr_tiles.specs.Tile.{is_same_track, is_track_of, turned_part, turned_track};

use crate::edge::{Edge, Edges};
use std::alloc::{AllocError, Global};

/// A track between two different edges.
#[derive(Clone, Copy, Debug, PartialEq, Eq)]
pub struct Track {
    pub from: Edge,
    pub to: Edge,
}

/// What a centre is.
#[derive(Clone, Copy, Debug, PartialEq, Eq)]
pub enum Kind {
    Town,
    /// A city with 1 to 4 slots for tokens.
    City { slots: u8 },
    /// An off-board area, which has another value from the first 5 train on: a multiple of 10 from
    /// 0 to 990. No tile of a manifest has one.
    OffBoard { later_value: u16 },
}

/// A town, a city or an off-board area.
#[derive(Debug, Drop)]
pub struct Centre {
    pub kind: Kind,
    /// A multiple of 10 from 0 to 990.
    pub value: u16,
    /// The edges that the centre is linked with, none of them twice. There may be none.
    pub edges: Edges,
}

/// A track or a centre.
#[derive(Debug, Drop)]
pub enum Part {
    Track(Track),
    Centre(Centre),
}

/// One or two capital letters.
#[derive(Clone, Copy, Debug, PartialEq, Eq)]
pub struct Label {
    pub first: u8,
    pub second: Option<u8>,
}

impl Track {
    // Where a turn takes the track.
    pub(crate) fn turned(&self, turn: u8) -> Track
        ensures { result ≡ turned_track turn self.now }
    {
        Track {
            from: self.from.turned(turn),
            to: self.to.turned(turn),
        }
    }

    // 0-1 and 1-0 are one track.
    pub(crate) fn is_same(&self, other: &Track) -> bool
        ensures { result ≡ is_same_track self.now other.now }
    {
        (self.from == other.from && self.to == other.to)
            || (self.from == other.to && self.to == other.from)
    }
}

impl Part {
    // Whether the part is this track.
    pub(crate) fn is_track(&self, track: &Track) -> bool
        ensures { result ≡ is_track_of track.now self.now }
    {
        match self {
            Part::Track(other) => track.is_same(other),
            Part::Centre(_) => false,
        }
    }

    // Where a turn takes the part.
    pub(crate) fn turned(&self, alloc: Global, turn: u8) -> Result<Part, AllocError>
        ensures { IfOk result (λ part. part ≡ turned_part turn self.now) }
    {
        match self {
            Part::Track(track) => Ok(Part::Track(track.turned(turn))),
            Part::Centre(centre) => {
                let edges = centre.edges.turned(alloc, turn)?;
                Ok(Part::Centre(Centre {
                    kind: centre.kind,
                    value: centre.value,
                    edges,
                }))
            }
        }
    }
}
