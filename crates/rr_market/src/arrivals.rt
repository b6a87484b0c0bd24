ghost use Rattle.std.specs.Prelude.{◌≡◌, true, false, nat_lt, slice_index, MatchOption};
ghost use Rattle.rr_roster.specs.Company.{corp_index};
ghost use Rattle.rr_books.specs.Same.{same_corp};
ghost use Rattle.rr_market.specs.Arrivals.{AreRanks, are_ranks, lowered, ranks_after};

use rr_books::Corp;
use std::marker::Model;

/// Which corporation's token moved more recently than which: a different number from 0 to 7 for each.
#[derive(Clone, Copy, Debug)]
pub(crate) struct Arrivals {
    ranks: [u8; 8],
}

impl Model for Arrivals {
    ghost use Rattle.std.specs.Prelude.{ℕ, List};
    ghost use Rattle.rr_market.specs.Arrivals.{AreRanks};

    ghost Value = { List ℕ };

    ghost view = { λ a. a.ranks };

    ghost invariant = { λ a. AreRanks a.ranks };

    ghost inverse = { λ ranks. record { ranks = ranks } };
}

impl Arrivals {
    // Any order, before a token has moved.
    pub(crate) fn new() -> Arrivals {
        Arrivals {
            ranks: [0, 1, 2, 3, 4, 5, 6, 7],
        }
    }

    // The order that these numbers tell, if they are eight different ones from 0 to 7.
    #[tactic(auto, using(crate::proofs::PartLemmas::ranks_tested, crate::proofs::PartLemmas::ranks_test))]
    pub(crate) fn from_ranks(ranks: [u8; 8]) -> Option<Arrivals>
        ensures { MatchOption result (AreRanks ranks → ⊥) (λ arrivals. AreRanks ranks × (arrivals ≡ ranks)) }
    {
        if !are_ranks(&ranks) {
            return None;
        }
        Some(Arrivals { ranks })
    }

    // The number of each corporation.
    pub(crate) fn ranks(&self) -> [u8; 8]
        ensures value { result ≡ self.now }
        ensures sound { AreRanks result }
    {
        self.ranks
    }

    // The corporation's number: greater than those of all whose token moved last before its own did.
    pub(crate) fn of(&self, corp: Corp) -> u8
        ensures { result ≡ slice_index self.now (corp_index corp) }
    {
        self.ranks[corp.index()]
    }

    // The corporation's token moved now. The others keep their order.
    pub(crate) fn note(&mut self, corp: Corp)
        ensures value { self.new ≡ ranks_after self.old (corp_index corp) }
        ensures last { (c : Corp) → same_corp c corp ≡ false → nat_lt (slice_index self.new (corp_index c)) (slice_index self.new (corp_index corp)) ≡ true }
        ensures others { (c d : Corp) → same_corp c corp ≡ false → same_corp d corp ≡ false → nat_lt (slice_index self.new (corp_index c)) (slice_index self.new (corp_index d)) ≡ nat_lt (slice_index self.old (corp_index c)) (slice_index self.old (corp_index d)) }
    {
        let moved = corp.index();
        let before = self.ranks[moved];
        for rank in self.ranks.iter_mut() {
            *rank = lowered(before, *rank);
        }
        self.ranks[moved] = 7;
    }
}

// A rank, one less where it is above one that moves away.
fn lowered(before: u8, rank: u8) -> u8
    ensures { result ≡ lowered before rank }
{
    if rank > before { rank - 1 } else { rank }
}

// Whether these are different numbers below 8.
fn are_ranks(ranks: &[u8]) -> bool
    ensures { result ≡ are_ranks ranks.now }
{
    match ranks {
        [] => true,
        [first, others @ ..] => *first < 8 && !others.contains(first) && are_ranks(others),
    }
}
