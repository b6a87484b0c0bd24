//! Whether a text has the form of a sheet or of a certificate, told where it stands: nothing is held.
ghost use Rattle.std.specs.Prelude.{◌≡◌, is_some};
ghost use Rattle.std.specs.Bool.{Decides};
ghost use Rattle.std.specs.List.{list_all, slice_split};
ghost use Rattle.rr_words.specs.Line.{words_of};
ghost use Rattle.rr_words.specs.Numeral.{number_of};
ghost use Rattle.rr_routes.specs.Sheets.Certificate.{HasForm};
ghost use Rattle.rr_routes.specs.Sheets.Reading.{cert_word_of, cert_words_of, is_hyphen, links_of, sheet_of, train_of};
ghost use Rattle.rr_routes.specs.Sheets.Sheet.{SpellsSomeSheet};

use crate::sheets::sheet::kind_of;
use crate::sheets::word::CertWord;
use rr_words::number;

/// Whether the text spells a sheet, as `Sheet::read` reads it: the empty text does, and words with one space between
/// each two, if each is a kind of train, `=`, and the numbers of links with `-` between each two, or `-` alone. It
/// takes no memory.
pub fn is_sheet(text: &[u8]) -> bool
    ensures read { result ≡ is_some (sheet_of text.now) }
    ensures spelled { Decides result (SpellsSomeSheet text.now) }
{
    if text.is_empty() {
        return true;
    }
    are_train_words(text)
}

/// Whether each word of the text, with one space between each two, has one of the forms of a certificate's words: `s`
/// or `x` and a number of at most ten digits, `b`, or `f`. The empty text has no word, and so has the form. Whether the
/// words are a tree isn't asked. It takes no memory.
pub fn is_certificate(text: &[u8]) -> bool
    ensures read { result ≡ is_some (cert_words_of text.now) }
    ensures form { Decides result (HasForm text.now) }
{
    if text.is_empty() {
        return true;
    }
    are_certificate_words(text)
}

fn are_train_words(text: &[u8]) -> bool
    ensures { result ≡ list_all (λ word. is_some (train_of word)) (words_of text.now) }
{
    text.split(|c| *c == b' ').all(|word| is_train_word(word))
}

fn is_train_word(word: &[u8]) -> bool
    ensures { result ≡ is_some (train_of word.now) }
{
    let [letter, b'=', text @ ..] = word else {
        return false;
    };
    match kind_of(*letter) {
        None => false,
        Some(_) => are_links(text),
    }
}

fn are_links(text: &[u8]) -> bool
    ensures { result ≡ is_some (links_of text.now) }
{
    if text == b"-".as_slice() {
        return true;
    }
    are_numbers(text)
}

fn are_numbers(text: &[u8]) -> bool
    ensures { result ≡ list_all (λ word. is_some (number_of word)) (slice_split is_hyphen text.now) }
{
    text.split(|c| *c == b'-').all(|word| is_number(word))
}

fn is_number(word: &[u8]) -> bool
    ensures { result ≡ is_some (number_of word.now) }
{
    number(word).is_some()
}

fn are_certificate_words(text: &[u8]) -> bool
    ensures { result ≡ list_all (λ word. is_some (cert_word_of word)) (words_of text.now) }
{
    text.split(|c| *c == b' ')
        .all(|word| is_certificate_word(word))
}

fn is_certificate_word(word: &[u8]) -> bool
    ensures { result ≡ is_some (cert_word_of word.now) }
{
    CertWord::read(word).is_some()
}
