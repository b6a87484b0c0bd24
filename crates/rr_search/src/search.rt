//! The search for the run that earns most.
ghost use Rattle.std.specs.Prelude.{◌≡◌, ◌<◌, ◌≤◌, ℕ, ◌⊎◌, MatchResult, length};
ghost use Rattle.rr_routes.specs.Net.{value};
ghost use Rattle.rr_search.specs.Found.{AreKinds, HasNoSheet, IsCertified, IsModest};
ghost use Rattle.rr_search.specs.Whole.{whole_size};
ghost use Rattle.rr_search.specs.declared.fault.Fault.TheVariants.{NoCertificate, OutOfMemory};

use crate::fault::Fault;
use crate::kinds::kinds_of;
use crate::whole::{explore, whole_fits, whole_tree};
use rr_checker::{CertTree, Fate, Net};
use rr_guesses::guess;
use rr_roster::Kind;
use rr_routes::MOST_NODES;
use rr_routes::sheets::Sheet;
use std::alloc::Global;

/// A legal sheet of the net's trains, and a certificate of at most `limit` nodes that no legal sheet earns more.
///
/// A net has at most 1,000 trains and 65,536 centres, each worth at most 65,535.
///
/// # Errors
///
/// `NoCertificate` comes only where the whole tree, which splits every link of the net in turn, has more nodes than the
/// limit, or where no sheet is legal, since a train of the net is of no kind; else `OutOfMemory`.
pub fn best(alloc: Global, net: &Net, limit: usize) -> Result<(Sheet, CertTree), Fault>
    requires small { limit ≤ MOST_NODES }
    requires values { (centre : ℕ) → value net.now centre ≤ 65535 }
    requires centres { length net.now.values ≤ 65536 }
    requires trains { length net.now.trains ≤ 1000 }
    ensures { MatchResult result (λ found. IsCertified net.now limit found.0 found.1) (λ fault. (fault ≡ OutOfMemory)
        ⊎ ((fault ≡ NoCertificate) × ((limit < whole_size (length net.now.trains) (length net.now.links)) ⊎ HasNoSheet net.now))) }
{
    match kinds_of(alloc, net)? {
        None => Err(Fault::NoCertificate),
        Some(kinds) => certified(alloc, net, &kinds, limit),
    }
}

fn certified(
    alloc: Global,
    net: &Net,
    kinds: &[Kind],
    limit: usize,
) -> Result<(Sheet, CertTree), Fault>
    requires small { limit ≤ MOST_NODES }
    requires modest { IsModest net.now }
    requires kinds { AreKinds net.now kinds.now }
    ensures { MatchResult result (λ found. IsCertified net.now limit found.0 found.1) (λ fault. (fault ≡ OutOfMemory)
        ⊎ ((fault ≡ NoCertificate) × (limit < whole_size (length net.now.trains) (length net.now.links)))) }
{
    if let Some(found) = guess(alloc, net, kinds, limit)? {
        return Ok(found);
    }
    if !whole_fits(net.trains().len(), net.links().len(), limit) {
        return Err(Fault::NoCertificate);
    }
    let found = by_whole_tree(alloc, net, kinds, limit)?;
    Ok(found)
}

// The best run over all leaves of the whole tree, and that tree.
fn by_whole_tree(
    alloc: Global,
    net: &Net,
    kinds: &[Kind],
    limit: usize,
) -> Result<(Sheet, CertTree), Fault>
    requires small { limit ≤ MOST_NODES }
    requires fits { whole_size (length net.now.trains) (length net.now.links) ≤ limit }
    requires modest { IsModest net.now }
    requires kinds { AreKinds net.now kinds.now }
    ensures { MatchResult result (λ found. IsCertified net.now limit found.0 found.1) (λ fault. fault ≡ OutOfMemory) }
{
    let mut fates = vec![in alloc; Fate::Open; net.links().len()]?;
    let tree = whole_tree(alloc, net, 0)?;
    match explore(alloc, net, kinds, &mut fates, 0, None)? {
        None => unreachable!(),
        Some(found) => Ok((found.sheet, tree)),
    }
}
