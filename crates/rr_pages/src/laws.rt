//! What the definitions of chains, roots and free pages say.
ghost use Rattle.std.specs.Prelude.{◌≡◌, ℕ, Bool, List};
ghost use Rattle.rr_pages.specs.declared.root.Root.{Root};
ghost use Rattle.rr_pages.specs.Laws as laws;

use crate::page::{FIRST_DATA, LEAST_PAGES, LINK_BYTES, MOST_PAGES, MOST_USED, OPEN, PAGE_BYTES};
use crate::root::ROOT_BYTES;

/// Wherever pages stand as a chain was laid into them, they are that chain.
pub fn laid_pages_are_the_chain()
    ensures { laws.LaidAreChain }
{}

/// A root that stands after a gate as it was spelled is that root.
pub fn spelled_roots_read_back()
    ensures { laws.RootsReadBack }
{}

/// A file has one root at most that an opening takes, and none where it is no store or a field of a root is bad.
pub fn one_root_is_taken()
    ensures one { laws.OneTaken }
    ensures no_store { laws.NoStoreTaken }
    ensures no_bad_field { laws.NoBadTaken }
{}

/// Pages that are taken one after another, each as the first free one, are data pages that the present root doesn't
/// reach, and no two of them are the same.
pub fn taken_pages_are_free()
    ensures { laws.TakenAreFree }
{}

/// A chain that stands on data pages not reached before is read whole, and one that is reported broken isn't there.
pub fn standing_chains_are_read()
    ensures whole { laws.StandingRead }
    ensures broken { laws.BrokenNone }
{}

/// The numbers of a file: a page has 4,096 bytes, a data page 4,086 of its chain after a head of 10. Data begins on
/// page 514, and a file has 515 to 65,536 pages. A root has 35 bytes after its gate, and the byte A5 hex opens a gate.
pub fn sizes()
    ensures page { PAGE_BYTES ≡ 4096 }
    ensures link { LINK_BYTES ≡ 10 }
    ensures used { MOST_USED ≡ 4086 }
    ensures data { FIRST_DATA ≡ 514 }
    ensures least { LEAST_PAGES ≡ 515 }
    ensures most { MOST_PAGES ≡ 65536 }
    ensures root { ROOT_BYTES ≡ 35 }
    ensures open { OPEN ≡ 0xa5 }
{}
