//! The words of a certificate.
ghost use Rattle.std.specs.Prelude.{◌≡◌, IfOk, map, option_map};
ghost use Rattle.rr_routes.specs.Sheets.Each.{each};
ghost use Rattle.rr_routes.specs.Sheets.Reading.{cert_word_of, cert_words_of, leaf_of};

use rr_words::number;
use std::alloc::{AllocError, Global};

/// A word of a certificate, with the number that it names, as written: links and trains are numbered from 1.
#[derive(Clone, Copy, Debug, PartialEq, Eq)]
pub enum CertWord {
    Bound,
    Bad(u64),
    Full,
    Split(u64),
}

impl CertWord {
    pub(crate) fn read(word: &[u8]) -> Option<CertWord>
        ensures { result ≡ cert_word_of word.now }
    {
        match word {
            [b's', digits @ ..] => Some(CertWord::Split(number(digits)?)),
            [b'x', digits @ ..] => Some(CertWord::Bad(number(digits)?)),
            _ => leaf_of(word),
        }
    }
}

fn leaf_of(word: &[u8]) -> Option<CertWord>
    ensures { result ≡ leaf_of word.now }
{
    if word == b"b".as_slice() {
        return Some(CertWord::Bound);
    }
    if word == b"f".as_slice() {
        return Some(CertWord::Full);
    }
    None
}

// The words of a text, if each has one of the forms; no word in an empty text.
pub fn cert_words(alloc: Global, text: &[u8]) -> Result<Option<Vec<CertWord>>, AllocError>
    ensures { IfOk result (λ read. option_map (λ words. words.items) read ≡ cert_words_of text.now) }
{
    if text.is_empty() {
        return Ok(Some(Vec::new(alloc)));
    }
    let words = rr_words::words(alloc, text)?;
    read_words(alloc, &words)
}

fn read_words(alloc: Global, words: &[&[u8]]) -> Result<Option<Vec<CertWord>>, AllocError>
    ensures { IfOk result (λ read. option_map (λ words. words.items) read ≡ each cert_word_of (map (λ word. word.now) words.now)) }
{
    let mut read = Vec::new(alloc);
    for word in words {
        let Some(word) = CertWord::read(word) else {
            return Ok(None);
        };
        read.push(word)?;
    }
    Ok(Some(read))
}
