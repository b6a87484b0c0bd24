//! Certificates as texts.
ghost use Rattle.std.specs.Prelude.{◌≡◌, ◌+◌, ◌∷◌, ◌++◌, decimal, IfErr, IfOk, IsOkUnless, MatchResult, OnOk, map};
ghost use Rattle.rr_routes.specs.declared.certificate.CertTree.{CertTree};
ghost use Rattle.rr_routes.specs.Sheets.Certificate.{IsRefusal, Spells, certificate_text, word_text, words_of};
ghost use Rattle.rr_words.specs.Line.{line_of};
ghost use Rattle.rr_routes.specs.Sheets.Growing.{IsStop, IsTreeOf};

use crate::sheets::fault::Fault;
use crate::sheets::forest::Forest;
use crate::sheets::word::{CertWord, cert_words};
use crate::sheets::writing::write_place;
use crate::{CertTree, MOST_NODES};
use std::alloc::{AllocError, Global};

/// Reads the words of a certificate, with one space between each two: a tree in preorder, in which links and trains are
/// numbered from 1. `s` and a link's number is a split, whose children follow, one more than the trains; `b`, `x` and a
/// train's number, and `f` are leaves. A number has at most ten digits, and the first of several is not 0.
///
/// # Errors
/// `Malformed` where a word has none of these forms; else `CertificateRefused` where a number is 0, or the words aren't
/// those of just one tree, or the tree has more than `MOST_NODES` nodes; `OutOfMemory` where it can't be held.
pub fn read_certificate(alloc: Global, trains: usize, text: &[u8]) -> Result<CertTree, Fault>
    ensures { MatchResult result (λ tree. Spells text.now trains tree) (λ fault. IsRefusal text.now trains fault) }
{
    let Some(words) = cert_words(alloc, text)? else {
        return Err(Fault::Malformed);
    };
    let tree = grow(alloc, trains, &words)?;
    Ok(tree)
}

fn grow(alloc: Global, trains: usize, words: &[CertWord]) -> Result<CertTree, Fault>
    ensures tree { IfOk result (λ tree. IsTreeOf trains words.now tree) }
    ensures stopped { IfErr result (λ fault. IsStop fault ((tree : CertTree) → ¬ IsTreeOf trains words.now tree)) }
{
    if words.len() > MOST_NODES {
        return Err(Fault::CertificateRefused);
    }
    let mut forest = Forest::new(alloc);
    let mut left = words;
    while let Some((word, before)) = left.split_last() {
        forest.grow(trains, *word)?;
        left = before;
    }
    match forest.single() {
        Some(tree) => Ok(tree),
        None => Err(Fault::CertificateRefused),
    }
}

/// The text of a certificate. `read_certificate` reads it as a tree with the same nodes, if this one is regular and
/// small and no number has more than ten digits.
///
/// # Errors
/// `OutOfMemory` where the text can't be held.
pub fn write_certificate(alloc: Global, tree: &CertTree) -> Result<Vec<u8>, Fault>
    ensures text { IfOk result (λ text. text.items ≡ certificate_text tree.now) }
    ensures memory { IsOkUnless result Fault.OutOfMemory }
{
    let mut text = Vec::new(alloc);
    write_tree(tree, &mut text)?;
    Ok(text)
}

fn write_tree(tree: &CertTree, out: &mut Vec<u8>) -> Result<(), AllocError>
    ensures { OnOk result (out.new.items ≡ out.old.items ++ line_of (map word_text (words_of tree.now))) }
{
    match tree {
        CertTree::Bound => {
            out.push(b'b')?;
            Ok(())
        }
        CertTree::Bad(train) => write_numbered(b'x', *train, out),
        CertTree::Full => {
            out.push(b'f')?;
            Ok(())
        }
        CertTree::Split(link, children) => {
            write_numbered(b's', *link, out)?;
            for child in children {
                out.push(b' ')?;
                write_tree(child, out)?;
            }
            Ok(())
        }
    }
}

// The letter, and the number of what has this place.
fn write_numbered(letter: u8, place: usize, out: &mut Vec<u8>) -> Result<(), AllocError>
    ensures { OnOk result (out.new.items ≡ out.old.items ++ letter ∷ decimal (place + 1)) }
{
    out.push(letter)?;
    write_place(place, out)?;
    Ok(())
}
