//! Trees that grow from the words of a certificate, the last word first.
ghost use Rattle.std.specs.Prelude.{◌≡◌, ◌≢◌, ℕ, ◌+◌, ◌≤◌, List, [], ◌∷◌, ◌++◌, OnOk, IfOk, IfErr, IsOkUnless, MatchOption, length, reverse};
ghost use Rattle.rr_routes.specs.declared.certificate.CertTree.{CertTree};
ghost use Rattle.rr_routes.specs.Sheets.Growing.{IsForest, IsStop};
ghost use Rattle.rr_routes.specs.declared.sheets.word.CertWord.{CertWord};

use crate::CertTree;
use crate::sheets::fault::Fault;
use crate::sheets::word::CertWord;
use std::alloc::{AllocError, Global};
use std::marker::Model;

/// The trees that stand behind a place in a certificate, in the order of its words.
#[derive(Drop)]
pub struct Forest {
    // The last of them first.
    trees: Vec<CertTree>,
}

impl Model for Forest {
    ghost use Rattle.std.specs.Prelude.{List, reverse};
    ghost use Rattle.std.specs.Coded.{codes};
    ghost use Rattle.rr_routes.specs.declared.certificate.CertTree.{CertTree};
    ghost use Rattle.rr_routes.specs.contracts.certificate.CertTree as tree;

    ghost Value = { List CertTree };

    ghost coded = { Prim.hlevel (codes, tree.the_row.coded) };

    ghost view = { λ s. reverse s.trees.items };
}

impl Forest {
    pub fn new(alloc: Global) -> Forest
        ensures { result ≡ [] }
    {
        Forest {
            trees: Vec::new(alloc),
        }
    }

    /// Puts the word before the words of the trees: a leaf is a tree more, a split takes the first trees as its
    /// children.
    ///
    /// # Errors
    /// `CertificateRefused` where there are too few trees for the split, or the number is 0; `OutOfMemory` where the
    /// tree can't be held.
    pub fn grow(&mut self, trains: usize, word: CertWord) -> Result<(), Fault>
        ensures grown { OnOk result ((behind : List CertWord) → IsForest trains behind self.old → IsForest trains (word ∷ behind) self.new) }
        ensures stopped { IfErr result (λ fault. IsStop fault ((behind : List CertWord) (other : List CertTree) →
            IsForest trains behind self.old → ¬ IsForest trains (word ∷ behind) other)) }
    {
        match word {
            CertWord::Bound => self.plant(CertTree::Bound),
            CertWord::Bad(number) => {
                let Some(train) = place_of(number) else {
                    return Err(Fault::CertificateRefused);
                };
                self.plant(CertTree::Bad(train))
            }
            CertWord::Full => self.plant(CertTree::Full),
            CertWord::Split(number) => {
                let Some(link) = place_of(number) else {
                    return Err(Fault::CertificateRefused);
                };
                let Some(children) = self.take_children(trains)? else {
                    return Err(Fault::CertificateRefused);
                };
                self.plant(CertTree::Split(link, children))
            }
        }
    }

    fn plant(&mut self, tree: CertTree) -> Result<(), Fault>
        ensures planted { OnOk result (self.new ≡ tree ∷ self.old) }
        ensures memory { IsOkUnless result Fault.OutOfMemory }
    {
        self.trees.push(tree)?;
        Ok(())
    }

    // The first trees, one more than the trains, if there are so many.
    fn take_children(&mut self, trains: usize) -> Result<Option<Vec<CertTree>>, AllocError>
        ensures { IfOk result (λ taken. MatchOption taken
            (length self.old ≤ trains)
            (λ children. (self.old ≡ children.items ++ self.new) × (length children.items ≡ trains + 1))) }
    {
        if self.trees.len() <= trains {
            return Ok(None);
        }
        let children = self.trees.split_off(self.trees.len() - trains - 1)?;
        Ok(Some(reversed(children)))
    }

    /// The tree, if there is just one.
    pub fn single(mut self) -> Option<CertTree>
        ensures { MatchOption result (length self ≢ 1) (λ tree. self ≡ tree ∷ []) }
    {
        let tree = self.trees.pop()?;
        if self.trees.is_empty() {
            Some(tree)
        } else {
            None
        }
    }
}

fn reversed(mut trees: Vec<CertTree>) -> Vec<CertTree>
    ensures { result.items ≡ reverse trees.items }
{
    trees.as_mut_slice().reverse();
    trees
}

// The place of what is numbered from 1.
fn place_of(number: u64) -> Option<usize>
    ensures { MatchOption result (number ≡ 0) (λ place. place + 1 ≡ number) }
{
    if number == 0 {
        None
    } else {
        Some((number - 1) as usize)
    }
}
