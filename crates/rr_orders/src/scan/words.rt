//! The words of a line, one after another.
ghost use Rattle.std.specs.Prelude.{◌≡◌, ℕ, List, [], ◌∷◌, ◌≢◌, MatchOption};
ghost use Rattle.rr_words.specs.Line.{words_of};

use rr_words::split_word;
use std::marker::Model;

/// The words of a line that are still to be read. Two spaces in a row have an empty word between them.
#[derive(Drop)]
pub struct Words<'a> {
    rest: Option<&'a [u8]>,
}

impl<'a> Model for Words<'a> {
    ghost use Rattle.std.specs.Prelude.{ℕ, List};
    ghost use Rattle.rr_orders.specs.Scan.Words.{words_left};

    ghost Value = { List (List ℕ) };

    ghost view = { λ s. words_left s.rest };
}

impl<'a> Words<'a> {
    /// The words of a line, which is cut at each single space: an empty line has one empty word.
    pub fn of(line: &'a [u8]) -> Words<'a>
        ensures { result ≡ words_of line.now }
    {
        Words { rest: Some(line) }
    }

    /// The next word, if there is one, which is then read.
    pub fn next(&mut self) -> Option<&'a [u8]>
        ensures { MatchOption result ((self.old ≡ []) × (self.new ≡ [])) (λ word. self.old ≡ word.now ∷ self.new) }
    {
        let line = self.rest?;
        let (word, rest) = split_word(line);
        self.rest = rest;
        Some(word)
    }

    /// The next word, if it is the only one that is left.
    pub fn last(&mut self) -> Option<&'a [u8]>
        ensures { MatchOption result ((word : List ℕ) → self.old ≢ word ∷ []) (λ word. self.old ≡ word.now ∷ []) }
    {
        let word = self.next()?;
        self.end()?;
        Some(word)
    }

    /// Something if no word is left.
    pub fn end(&self) -> Option<()>
        ensures { MatchOption result (self.now ≢ []) (λ _. self.now ≡ []) }
    {
        match self.rest {
            None => Some(()),
            Some(_) => None,
        }
    }

    /// The bytes of all words that are left, with the spaces between them; `None` where no word is left.
    pub fn rest(&self) -> Option<&'a [u8]>
        ensures { MatchOption result (self.now ≡ []) (λ text. self.now ≡ words_of text.now) }
    {
        self.rest
    }
}
