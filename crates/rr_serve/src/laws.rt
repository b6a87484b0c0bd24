//! What the definitions of lines and of replies say. The calls do nothing: their contracts hold of all lists of bytes.
ghost use Rattle.std.specs.Prelude.{◌≡◌, ℕ, ◌+◌, ◌<◌, ◌≤◌, List, ◌++◌, length};
ghost use Rattle.std.specs.List.{concat};
ghost use Rattle.rr_serve.specs.Lines.{Splits, taken};
ghost use Rattle.rr_serve.specs.Streams.{OutputState, AreSent};

use rr_words::LONGEST_LINE;

/// An input splits into lines and a rest in exactly one way, and as more of it comes, the lines so far stay.
pub fn splitting()
    ensures splits { (input : List ℕ) → (lines : List (List ℕ)) × (rest : List ℕ) × Splits input lines rest }
    ensures only { (input : List ℕ) (lines others : List (List ℕ)) (rest other : List ℕ) →
        Splits input lines rest → Splits input others other → (others ≡ lines) × (other ≡ rest) }
    ensures stays { (input more : List ℕ) (lines others : List (List ℕ)) (rest other : List ℕ) →
        Splits input lines rest → Splits (input ++ more) others other →
        ((later : List (List ℕ)) × (others ≡ lines ++ later)) }
{}

/// What is handed on of a line is the line, or shows that it is too long.
pub fn taking()
    ensures whole { (line : List ℕ) → length line ≤ LONGEST_LINE → taken line ≡ line }
    ensures too_long { (line : List ℕ) → LONGEST_LINE < length line → length (taken line) ≡ LONGEST_LINE + 1 }
{}

/// What replies that were sent come to: just they are written, each has its flush, nothing is held back, and nothing
/// failed.
pub fn sending()
    ensures written { (before : OutputState) (replies : List (List ℕ)) (after : OutputState) → AreSent before replies after →
        after.written ≡ before.written ++ concat replies }
    ensures flushes { (before : OutputState) (replies : List (List ℕ)) (after : OutputState) → AreSent before replies after →
        after.flushes ≡ before.flushes + length replies }
    ensures flushed { (before : OutputState) (replies : List (List ℕ)) (after : OutputState) → AreSent before replies after →
        before.flushed ≡ before.written → after.flushed ≡ after.written }
    ensures none_failed { (before : OutputState) (replies : List (List ℕ)) (after : OutputState) → AreSent before replies after →
        after.failures ≡ before.failures }
{}
