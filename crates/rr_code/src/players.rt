ghost use Rattle.std.specs.Prelude.{◌≡◌, ◌≢◌, ◌≤◌, length, SomeIff, All, AllPairs};
ghost use Rattle.rr_words.specs.Name.{IsPlayerName};
ghost use Rattle.rr_code.specs.Players.{all_different, is_among, ArePlayers};

use rr_orders::scan::Words;
use rr_words::Name;
use std::marker::Model;

/// The most players of a table.
pub(crate) const MOST_PLAYERS: usize = 6;

/// The players of a table, in seating order: 2 to 6 different names.
#[derive(Clone, Copy, Debug, PartialEq, Eq)]
pub struct Players {
    pub(crate) names: [Name; MOST_PLAYERS],
    pub(crate) count: usize,
}

impl Model for Players {
    ghost use Rattle.std.specs.Prelude.{ℕ, List, length, take};
    ghost use Rattle.rr_code.specs.Players.{ArePlayers, IsFilled, filled, length-take-filled, filled-take};

    ghost Value = { List (List ℕ) };

    ghost view = { λ s. take s.count s.names };

    ghost invariant = { λ s. IsFilled s.count s.names × ArePlayers (take s.count s.names) };

    ghost inverse = { λ names. record { names = filled names; count = length names } };

    ghost inverse_ok = { λ s h i. record {
      names = filled-take s.count s.names h.0 i;
      count = length-take-filled s.count s.names h.0 i;
    } };
}

impl Players {
    /// The names, in seating order.
    pub fn as_slice(&self) -> &[Name]
        ensures value { result.now ≡ self.now }
        ensures players { ArePlayers self.now }
        ensures names { All IsPlayerName self.now }
        ensures different { AllPairs (λ name other. name ≢ other) self.now }
        ensures at_least { 2 ≤ length self.now }
        ensures at_most { length self.now ≤ 6 }
    {
        &self.names[..self.count]
    }

    /// Reads all words that are left as players.
    pub(crate) fn read(words: &mut Words) -> Option<Players>
        ensures { SomeIff result (ArePlayers words.old) words.old }
    {
        let first = Name::player(words.next()?)?;
        let mut names = [first; MOST_PLAYERS];
        let mut count = 1;
        while let Some(word) = words.next() {
            let name = Name::player(word)?;
            if count == MOST_PLAYERS {
                return None;
            }
            names[count] = name;
            count += 1;
        }
        if count < 2 {
            return None;
        }
        if !all_different(&names[..count]) {
            return None;
        }
        Some(Players { names, count })
    }
}

pub(crate) fn all_different(names: &[Name]) -> bool
    ensures { result ≡ all_different names.now }
{
    match names {
        [] => true,
        [first, others @ ..] => !is_among(first, others) && all_different(others),
    }
}

fn is_among(name: &Name, others: &[Name]) -> bool
    ensures { result ≡ is_among name.now others.now }
{
    others.contains(name)
}
