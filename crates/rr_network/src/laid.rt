//! The last tile of each hex, found by the hex's name.
ghost use Rattle.std.specs.Prelude.{◌≡◌, None, IfOk, slice_get};
ghost use Rattle.std.specs.List.{fold};
ghost use Rattle.rr_desk.specs.Layout.Layout.{last_lay};
ghost use Rattle.rr_network.specs.Indexes.{FindsLays, later_lay};

use crate::key::name_key;
use rr_desk::layout::Lay;
use rr_routes::reachability::Index;
use rr_words::HexName;
use std::alloc::{AllocError, Global};

// The places of the lays, by the names of their hexes.
pub(crate) fn index_of_lays(alloc: Global, lays: &[Lay]) -> Result<Index, AllocError>
    ensures { IfOk result (λ index. FindsLays lays.now index) }
{
    let mut index = Index::with_rows(alloc, lays.len())?;
    for (place, lay) in lays.iter().enumerate() {
        index.note(name_key(&lay.hex), place)?;
    }
    Ok(index)
}

pub(crate) fn lay_on(lays: &[Lay], index: &Index, hex: &HexName) -> Option<Lay>
    requires { FindsLays lays.now index.now }
    ensures { result ≡ last_lay lays.now hex.now }
{
    last_among(lays, index.noted_at(name_key(hex)), hex)
}

fn last_among(lays: &[Lay], places: &[usize], hex: &HexName) -> Option<Lay>
    ensures { result ≡ fold (later_lay lays.now hex.now) None places.now }
{
    let mut last = None;
    for place in places {
        last = later_lay(lays, hex, last, *place);
    }
    last
}

fn later_lay(lays: &[Lay], hex: &HexName, before: Option<Lay>, place: usize) -> Option<Lay>
    ensures { result ≡ later_lay lays.now hex.now before place }
{
    match lays.get(place) {
        Some(lay) => {
            if lay.hex == *hex {
                return Some(*lay);
            }
            before
        }
        None => before,
    }
}
