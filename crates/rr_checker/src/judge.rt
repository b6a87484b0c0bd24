//! Whether a certificate is accepted for a claim.
ghost use Rattle.std.specs.Prelude.{◌≡◌, ◌≤◌, IfOk, length, true};
ghost use Rattle.std.specs.Bool.{Decides};
ghost use Rattle.rr_routes.specs.declared.certificate.Fate.TheVariants.{Open};
ghost use Rattle.rr_routes.specs.Certificates.{Accepts, AcceptsUnder, IsBad, fate_of};
ghost use Rattle.rr_checker.specs.Searching.{IsTracksOf};
ghost use Rattle.rr_checker.specs.Known.{AreKnown, with_owner};
ghost use Rattle.rr_checker.specs.Choices.{AcceptsBad, choice_at};

use crate::centres::is_bounded;
use crate::full::is_full;
use crate::own::is_bad;
use crate::railway::Net;
use crate::tracks::{Tracks, tracks_of};
use rr_routes::{CertTree, Fate, MOST_NODES};
use std::alloc::{AllocError, Global};

/// Whether the certificate is accepted for the claim, a tree of at most `MOST_NODES` nodes. If it is, no run of the net
/// earns more. Only memory can fail.
pub fn check(alloc: Global, net: &Net, claim: usize, tree: &CertTree) -> Result<bool, AllocError>
    ensures { IfOk result (λ accepted. Decides accepted (Accepts net.now claim tree.now)) }
{
    if tree.nodes_left(MOST_NODES).is_none() {
        return Ok(false);
    }
    let tracks = tracks_of(alloc, net)?;
    let mut fates = vec![in alloc; Fate::Open; net.links().len()]?;
    let mut known = vec![in alloc; None; net.trains().len()]?;
    let shown = check_at(alloc, net, &tracks, claim, tree, &mut fates, &mut known)?;
    Ok(shown)
}

// Whether the tree shows under the fates that no run earns more than the claim. If it does, the fates are as before, and
// what is known of the trains under them is right. It goes as deep as the tree, so what judges a leaf isn't to lie
// within its frame on the stack.
fn check_at(
    alloc: Global,
    net: &Net,
    tracks: &Tracks,
    claim: usize,
    tree: &CertTree,
    fates: &mut Vec<Fate>,
    known: &mut Vec<Option<usize>>,
) -> Result<bool, AllocError>
    requires tracks { IsTracksOf net.now tracks.now }
    requires known { AreKnown net.now fates.old.items known.old.items }
    ensures shown { IfOk result (λ shown. Decides shown (AcceptsUnder net.now claim fates.old.items tree.now)) }
    ensures same { IfOk result (λ shown. shown ≡ true → fates.new.items ≡ fates.old.items) }
    ensures known { IfOk result (λ shown. shown ≡ true → AreKnown net.now fates.old.items known.new.items) }
{
    match tree {
        CertTree::Bound => is_bounded(alloc, net, tracks, claim, fates, known),
        CertTree::Bad(train) => is_bad_train(alloc, net, tracks, fates, *train),
        CertTree::Full => is_full(alloc, net, claim, fates),
        CertTree::Split(link, children) => {
            if !is_open(fates, *link) {
                return Ok(false);
            }
            if children.len() != net.trains().len() + 1 {
                return Ok(false);
            }
            // What is known of each train in the cases in which it may not use the link.
            let mut without = vec![in alloc; None; net.trains().len()]?;
            for (place, child) in children.iter().enumerate() {
                fates[*link] = choice_at(place);
                exchange_owner(known, &mut without, place);
                if !check_at(alloc, net, tracks, claim, child, fates, &mut without)? {
                    return Ok(false);
                }
                exchange_owner(known, &mut without, place);
            }
            fates[*link] = Fate::Open;
            Ok(true)
        }
    }
}

// What is known of the train whose own the link is in this case of a split changes places: it reaches what it reached
// before the split. In the first case there is no such train.
fn exchange_owner(known: &mut Vec<Option<usize>>, without: &mut Vec<Option<usize>>, place: usize)
    requires inside { place ≤ length known.old.items }
    requires as_many { length without.old.items ≡ length known.old.items }
    ensures known { known.new.items ≡ with_owner known.old.items without.old.items place }
    ensures without { without.new.items ≡ with_owner without.old.items known.old.items place }
{
    if place == 0 {
        return;
    }
    let owner = place - 1;
    let before = known[owner];
    known[owner] = without[owner];
    without[owner] = before;
}

#[inline(never)]
fn is_bad_train(
    alloc: Global,
    net: &Net,
    tracks: &Tracks,
    fates: &[Fate],
    train: usize,
) -> Result<bool, AllocError>
    requires { IsTracksOf net.now tracks.now }
    ensures { IfOk result (λ bad. Decides bad (AcceptsBad net.now fates.now train)) }
{
    if net.trains().len() <= train {
        return Ok(false);
    }
    let bad = is_bad(alloc, net, tracks, fates, train)?;
    Ok(bad)
}

fn is_open(fates: &[Fate], link: usize) -> bool
    ensures { Decides result (fate_of fates.now link ≡ Open) }
{
    match fates.get(link) {
        Some(Fate::Open) => true,
        Some(_) | None => false,
    }
}

// The cases of a split: denied to all, then of each train in turn.
fn choice_at(place: usize) -> Fate
    ensures { result ≡ choice_at place }
{
    if place == 0 {
        return Fate::Denied;
    }
    Fate::Of(place - 1)
}
