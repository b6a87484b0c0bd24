//! The sheet of a run: a word for each train.
ghost use Rattle.std.specs.Prelude.{◌≡◌, ℕ, List, [], ◌∷◌, ◌++◌, OnOk, OnErr, IfOk, MatchResult, IsOkUnless, Some, map};
ghost use Rattle.rr_words.specs.Line.{line_of};
ghost use Rattle.rr_words.specs.Numeral.{number_of};
ghost use Rattle.rr_routes.specs.Sheets.Each.{each};
ghost use Rattle.rr_routes.specs.Sheets.Reading.{kind_of, links_of, train_of, sheet_of};
ghost use Rattle.rr_routes.specs.Sheets.Sheet.{IsSheetRefusal, SpellsSheet, links_text, text_of, train_text};
ghost use Rattle.rr_routes.specs.declared.sheets.sheet.TrainWord.{TrainWord};

use crate::sheets::fault::Fault;
use crate::sheets::writing::write_number;
use rr_roster::Kind;
use rr_words::number;
use smallvec::SmallVec;
use std::alloc::{AllocError, Global};
use std::marker::Model;

/// The numbers of the links of a route, in order along it. The board's links are numbered from 1.
#[derive(Debug, Drop)]
pub struct LinkNumbers {
    // 12 are room for any route on the kit's board, and for nineteen in twenty of those in `games/`.
    numbers: SmallVec<u64, 12>,
}

impl Model for LinkNumbers {
    ghost use Rattle.std.specs.Prelude.{List, ℕ};

    ghost Value = { List ℕ };

    ghost view = { λ l. l.numbers.items };
}

impl LinkNumbers {
    /// No link: the train stays where it is.
    pub fn new(alloc: Global) -> LinkNumbers
        ensures { result ≡ [] }
    {
        LinkNumbers {
            numbers: SmallVec::new(alloc),
        }
    }

    /// Adds a link at the end of the route.
    pub fn push(&mut self, number: u64) -> Result<(), AllocError>
        ensures ok { OnOk result (self.new ≡ self.old ++ number ∷ []) }
        ensures err { OnErr result (self.new ≡ self.old) }
    {
        self.numbers.push(number)?;
        Ok(())
    }

    /// The numbers, in order along the route.
    pub fn as_slice(&self) -> &[u64]
        ensures { result.now ≡ self.now }
    {
        self.numbers.as_slice()
    }

    // The numbers that a text spells, with a hyphen between each two; none for a hyphen alone.
    fn read(alloc: Global, text: &[u8]) -> Result<Option<LinkNumbers>, AllocError>
        ensures { IfOk result (λ read. read ≡ links_of text.now) }
    {
        if text == b"-".as_slice() {
            return Ok(Some(LinkNumbers::new(alloc)));
        }
        let words: Vec<&[u8]> = text.split(|c| *c == b'-').collect(alloc)?;
        LinkNumbers::read_words(alloc, &words)
    }

    fn read_words(alloc: Global, words: &[&[u8]]) -> Result<Option<LinkNumbers>, AllocError>
        ensures { IfOk result (λ read. read ≡ each number_of (map (λ word. word.now) words.now)) }
    {
        let mut links = LinkNumbers::new(alloc);
        for word in words {
            let Some(link) = number(word) else {
                return Ok(None);
            };
            links.push(link)?;
        }
        Ok(Some(links))
    }

    fn write(&self, out: &mut Vec<u8>) -> Result<(), AllocError>
        ensures { OnOk result (out.new.items ≡ out.old.items ++ links_text self.now) }
    {
        let [first, rest @ ..] = self.as_slice() else {
            out.push(b'-')?;
            return Ok(());
        };
        write_number(*first, out)?;
        for number in rest {
            out.push(b'-')?;
            write_number(*number, out)?;
        }
        Ok(())
    }
}

/// What one train does in a run: its kind, and the links of its route, none where it has none.
#[derive(Debug, Drop)]
pub struct TrainWord {
    pub kind: Kind,
    pub links: LinkNumbers,
}

impl TrainWord {
    fn read(alloc: Global, word: &[u8]) -> Result<Option<TrainWord>, AllocError>
        ensures { IfOk result (λ read. read ≡ train_of word.now) }
    {
        let [letter, b'=', text @ ..] = word else {
            return Ok(None);
        };
        let Some(kind) = kind_of(*letter) else {
            return Ok(None);
        };
        let Some(links) = LinkNumbers::read(alloc, text)? else {
            return Ok(None);
        };
        Ok(Some(TrainWord { kind, links }))
    }

    fn write(&self, out: &mut Vec<u8>) -> Result<(), AllocError>
        ensures { OnOk result (out.new.items ≡ out.old.items ++ train_text self.now) }
    {
        out.extend_from_slice(self.kind.name().as_bytes())?;
        out.push(b'=')?;
        self.links.write(out)?;
        Ok(())
    }
}

pub(crate) fn kind_of(letter: u8) -> Option<Kind>
    ensures { result ≡ kind_of (letter ∷ []) }
{
    Kind::from_name(&[letter])
}

/// The sheet of a run: a word for each train that the corporation holds, by kind and then by number.
#[derive(Debug, Drop)]
pub struct Sheet {
    words: Vec<TrainWord>,
}

impl Model for Sheet {
    ghost use Rattle.std.specs.Prelude.{List};
    ghost use Rattle.rr_routes.specs.declared.sheets.sheet.TrainWord.{TrainWord};

    ghost Value = { List TrainWord };

    ghost view = { λ s. s.words.items };
}

impl Sheet {
    /// The sheet of a corporation without trains.
    pub fn new(alloc: Global) -> Sheet
        ensures { result ≡ [] }
    {
        Sheet {
            words: Vec::new(alloc),
        }
    }

    /// Adds the word of the next train.
    pub fn push(&mut self, word: TrainWord) -> Result<(), AllocError>
        ensures ok { OnOk result (self.new ≡ self.old ++ word ∷ []) }
        ensures err { OnErr result (self.new ≡ self.old) }
    {
        self.words.push(word)?;
        Ok(())
    }

    /// The words, in their order.
    pub fn as_slice(&self) -> &[TrainWord]
        ensures { result.now ≡ self.now }
    {
        self.words.as_slice()
    }

    /// Reads the words of a sheet, with one space between each two; the empty text is the sheet without words. A word
    /// is a kind of train, `=`, and the numbers of links with `-` between each two, or `-` alone for no link. A number
    /// has at most ten digits, and the first of several is not 0. That the links exist and make a route isn't judged
    /// here.
    ///
    /// # Errors
    /// `Malformed` where the text is of another form, `OutOfMemory` where it can't be held.
    pub fn read(alloc: Global, text: &[u8]) -> Result<Sheet, Fault>
        ensures read { MatchResult result (λ sheet. SpellsSheet text.now sheet) (λ fault. IsSheetRefusal text.now fault) }
        ensures only { IfOk result (λ sheet. (other : List TrainWord) → SpellsSheet text.now other → other ≡ sheet) }
        ensures value { IfOk result (λ sheet. sheet_of text.now ≡ Some sheet) }
    {
        match Sheet::read_text(alloc, text)? {
            Some(sheet) => Ok(sheet),
            None => Err(Fault::Malformed),
        }
    }

    fn read_text(alloc: Global, text: &[u8]) -> Result<Option<Sheet>, AllocError>
        ensures { IfOk result (λ read. read ≡ sheet_of text.now) }
    {
        if text.is_empty() {
            return Ok(Some(Sheet::new(alloc)));
        }
        let words = rr_words::words(alloc, text)?;
        Sheet::read_words(alloc, &words)
    }

    fn read_words(alloc: Global, words: &[&[u8]]) -> Result<Option<Sheet>, AllocError>
        ensures { IfOk result (λ read. read ≡ each train_of (map (λ word. word.now) words.now)) }
    {
        let mut sheet = Sheet::new(alloc);
        for word in words {
            let Some(train) = TrainWord::read(alloc, word)? else {
                return Ok(None);
            };
            sheet.push(train)?;
        }
        Ok(Some(sheet))
    }

    /// The text of the sheet. `read` reads it as this sheet, if no number has more than ten digits.
    ///
    /// # Errors
    /// `OutOfMemory` where the text can't be held.
    pub fn to_text(&self, alloc: Global) -> Result<Vec<u8>, Fault>
        ensures text { IfOk result (λ text. text.items ≡ text_of self.now) }
        ensures memory { IsOkUnless result Fault.OutOfMemory }
    {
        let mut text = Vec::new(alloc);
        self.write(&mut text)?;
        Ok(text)
    }

    fn write(&self, out: &mut Vec<u8>) -> Result<(), AllocError>
        ensures { OnOk result (out.new.items ≡ out.old.items ++ text_of self.now) }
    {
        match self.as_slice() {
            [] => Ok(()),
            [first, rest @ ..] => write_words(first, rest, out),
        }
    }
}

// Words with one space between each two.
fn write_words(first: &TrainWord, rest: &[TrainWord], out: &mut Vec<u8>) -> Result<(), AllocError>
    ensures { OnOk result (out.new.items ≡ out.old.items ++ line_of (map train_text (first.now ∷ rest.now))) }
{
    first.write(out)?;
    for word in rest {
        out.push(b' ')?;
        word.write(out)?;
    }
    Ok(())
}
