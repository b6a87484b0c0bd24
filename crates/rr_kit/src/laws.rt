//! Laws of the definitions, the contracts of functions that do nothing.
ghost use Rattle.std.specs.Prelude.{◌≡◌, ℕ, List};
ghost use Rattle.rr_words.specs.Text.{IsSmallAscii};
ghost use Rattle.rr_kit.specs.Kits.{IsShortText, OneKit, RefusesBoard, RefusesChart, RefusesManifest, RefusesRoster};

use crate::board::{GREATEST_CENTRE, MOST_CENTRES};
use crate::fault::Fault;

/// The four texts of a kit spell one kit.
pub fn kits_are_told_apart()
    ensures { OneKit }
{}

/// Bytes that are no text, or too many, are never answered with 'out of memory': they have faults of their own.
pub fn memory_is_wanted_for_texts()
    ensures chart { (text : List ℕ) → RefusesChart text Fault.OutOfMemory → IsSmallAscii text }
    ensures roster { (text : List ℕ) → RefusesRoster text Fault.OutOfMemory → IsShortText text }
    ensures tiles { (text : List ℕ) → RefusesManifest text Fault.OutOfMemory → IsSmallAscii text }
    ensures board { (text : List ℕ) → RefusesBoard text Fault.OutOfMemory → IsSmallAscii text }
{}

/// A board has at most 65,536 centres, and a home names its city by a number of at most 65,535.
pub fn most_centres()
    ensures most { MOST_CENTRES ≡ 65536 }
    ensures greatest { GREATEST_CENTRE ≡ 65535 }
{}
