//! Which tile may take the place of another: it keeps what is there.
ghost use Rattle.std.specs.Prelude.{◌≡◌, ◌<◌, ◌↔◌, [], ◌∷◌, length, IsTrue, MatchOption};
ghost use Rattle.rr_tiles.specs.Tile.{centres_of, turned};
ghost use Rattle.rr_tiles.specs.Keeping.{Keeps, keeps_tracks, keeps_track, keeps_centres, keeps_centre, keeps_kind, keeps_edges, has_turned_edge, has_turned_track, is_turned_track};

use crate::edge::{Edge, Edges};
use crate::part::{Centre, Kind, Part, Track};
use crate::tile::Tile;

/// Whether the new tile, turned by `turn` sixths, keeps what the old one has: each of its tracks;
/// its label; as many centres, each of the kind of the old one of its number and with at least its
/// edges; and a city has no fewer slots. Values may differ.
pub fn keeps(old: &Tile, new: &Tile, turn: u8) -> bool
    ensures { IsTrue result ↔ Keeps old.now (turned turn new.now) }
{
    if old.label() != new.label() {
        return false;
    }
    if !keeps_tracks(old.parts(), new.parts(), turn) {
        return false;
    }
    keeps_centres(old.parts(), new.parts(), turn)
}

fn keeps_tracks(old: &[Part], new: &[Part], turn: u8) -> bool
    ensures { result ≡ keeps_tracks turn new.now old.now }
{
    old.iter().all(|part| keeps_track(part, new, turn))
}

fn keeps_track(part: &Part, new: &[Part], turn: u8) -> bool
    ensures { result ≡ keeps_track turn new.now part.now }
{
    match part {
        Part::Track(track) => has_turned_track(new, track, turn),
        Part::Centre(_) => true,
    }
}

fn has_turned_track(new: &[Part], track: &Track, turn: u8) -> bool
    ensures { result ≡ has_turned_track turn new.now track.now }
{
    new.iter().any(|part| is_turned_track(part, track, turn))
}

fn is_turned_track(part: &Part, track: &Track, turn: u8) -> bool
    ensures { result ≡ is_turned_track turn track.now part.now }
{
    match part {
        Part::Track(other) => track.is_same(&other.turned(turn)),
        Part::Centre(_) => false,
    }
}

fn keeps_centres(old: &[Part], new: &[Part], turn: u8) -> bool
    ensures { result ≡ keeps_centres turn (centres_of old.now) (centres_of new.now) }
{
    let Some((old_centre, old_rest)) = first_centre(old) else {
        return first_centre(new).is_none();
    };
    let Some((new_centre, new_rest)) = first_centre(new) else {
        return false;
    };
    if !keeps_centre(old_centre, new_centre, turn) {
        return false;
    }
    keeps_centres(old_rest, new_rest, turn)
}

// The first centre, and the parts behind it.
fn first_centre(parts: &[Part]) -> Option<(&Centre, &[Part])>
    ensures { MatchOption result
        (centres_of parts.now ≡ [])
        (λ found. (centres_of parts.now ≡ found.0.now ∷ centres_of found.1.now) × (length found.1.now < length parts.now)) }
{
    match parts {
        [] => None,
        [Part::Centre(centre), rest @ ..] => Some((centre, rest)),
        [Part::Track(_), rest @ ..] => first_centre(rest),
    }
}

fn keeps_centre(old: &Centre, new: &Centre, turn: u8) -> bool
    ensures { result ≡ keeps_centre turn old.now new.now }
{
    keeps_kind(old.kind, new.kind) && keeps_edges(&old.edges, &new.edges, turn)
}

fn keeps_kind(old: Kind, new: Kind) -> bool
    ensures { result ≡ keeps_kind old new }
{
    match (old, new) {
        (Kind::Town, Kind::Town) => true,
        (Kind::City { slots: before }, Kind::City { slots: after }) => before <= after,
        (Kind::OffBoard { .. }, Kind::OffBoard { .. }) => true,
        _ => false,
    }
}

fn keeps_edges(old: &Edges, new: &Edges, turn: u8) -> bool
    ensures { result ≡ keeps_edges turn new.now old.now }
{
    old.as_slice()
        .iter()
        .all(|edge| has_turned_edge(new, *edge, turn))
}

fn has_turned_edge(new: &Edges, edge: Edge, turn: u8) -> bool
    ensures { result ≡ has_turned_edge turn new.now edge }
{
    new.as_slice()
        .iter()
        .any(|other| other.turned(turn) == edge)
}
