//! A run and a certificate from a search that may fail: given only where the judges of both accept them.
ghost use Rattle.std.specs.Prelude.{◌≡◌, IfOk, IfSome, true};
ghost use Rattle.rr_guesses.specs.Certified.{IsCertified, IsModest};

use crate::certificate::tree_for;
use crate::graph::reached_tracks;
use crate::runs::good_sheet;
use rr_books::Refusal;
use rr_checker::{CertTree, Net, check};
use rr_referee::legal;
use rr_roster::Kind;
use rr_routes::sheets::Sheet;
use std::alloc::{AllocError, Global};

/// A legal sheet of the net's trains, whose kinds these are in order, and a certificate of at most `limit` nodes that
/// no legal sheet earns more, if a guess finds both. That none is found says nothing of the net.
///
/// A guess tries at most 200,000 routes. A tree is grown at once, and if that fails over a plan of its splits: growing
/// and planning end once they have looked 8,000 and 60,000 times at what the trains reach, on a large board earlier.
/// Only memory can fail.
pub fn guess(
    alloc: Global,
    net: &Net,
    kinds: &[Kind],
    limit: usize,
) -> Result<Option<(Sheet, CertTree)>, AllocError>
    requires { IsModest net.now }
    ensures { IfOk result (λ found. IfSome found (λ both. IsCertified net.now limit both.0 both.1)) }
{
    let tracks = reached_tracks(alloc, net)?;
    let (sheet, worth) = good_sheet(&tracks, kinds)?;
    for is_planned in [false, true] {
        if let Some(tree) = tree_for(&tracks, worth, is_planned, limit)? {
            if stands(alloc, net, &sheet, &tree, limit)? {
                return Ok(Some((sheet, tree)));
            }
        }
    }
    Ok(None)
}

// Whether the sheet is legal, and the tree within the limit and accepted for its revenue.
fn stands(
    alloc: Global,
    net: &Net,
    sheet: &Sheet,
    tree: &CertTree,
    limit: usize,
) -> Result<bool, AllocError>
    requires { IsModest net.now }
    ensures { IfOk result (λ stands. stands ≡ true → IsCertified net.now limit sheet.now tree.now) }
{
    if tree.nodes_left(limit).is_none() {
        return Ok(false);
    }
    match legal(alloc, net, sheet) {
        Ok(revenue) => check(alloc, net, revenue, tree),
        Err(Refusal::OutOfMemory) => Err(AllocError),
        Err(_) => Ok(false),
    }
}
