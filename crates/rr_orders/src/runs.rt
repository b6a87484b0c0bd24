//! Runs: reading the words behind the first, and writing them.
ghost use Rattle.std.specs.Prelude.{◌≡◌, ◌∷◌, ◌++◌, ◌+◌, ◌≤◌, length, None, Some, codes, IfSome, MatchOption, OnOk};
ghost use Rattle.rr_orders.specs.Scan.Words.{words_left};
ghost use Rattle.rr_orders.specs.Scan.Writing.{Continues};
ghost use Rattle.rr_orders.specs.Order.{IsOrder, spelling, text};
ghost use Rattle.rr_orders.specs.Texts.{added, cut_at_best, words_before};
ghost use Rattle.rr_orders.specs.Reading.{read_run};

use crate::order::Order;
use crate::scan::{Words, read_corp, write_word};
use crate::texts::{CertificateWords, SheetWords};
use rr_roster::Corp;
use std::alloc::AllocError;

/// Words up to the one word `best` are a sheet, and those behind it a certificate.
pub fn read_run<'a>(words: &mut Words<'a>) -> Option<Order<'a>>
    ensures exact { result ≡ read_run words.old }
    ensures found { IfSome result (λ order. IsOrder order × (codes "run" ∷ words.old ≡ spelling order)) }
{
    let corp = read_corp(words.next()?)?;
    let text = words.rest();
    let Some((sheet, certificate)) = cut_at_best(text) else {
        let sheet = SheetWords::of(text)?;
        return Some(Order::Run { corp, sheet });
    };
    let sheet = SheetWords::of(sheet)?;
    let certificate = CertificateWords::of(certificate)?;
    Some(Order::RunBest {
        corp,
        sheet,
        certificate,
    })
}

type Part<'a> = Option<&'a [u8]>;

// What stands before the first word `best` of a text, and behind it.
fn cut_at_best(left: Part<'_>) -> Option<(Part<'_>, Part<'_>)>
    ensures { MatchOption result
        (cut_at_best (words_left left.entry) ≡ None)
        (λ cut. cut_at_best (words_left left.entry) ≡ Some (words_left cut.0, words_left cut.1)) }
{
    let text = left?;
    let mut words = Words::of(text);
    let mut before = 0;
    while let Some(word) = words.next() {
        if word == b"best".as_slice() {
            return Some((front(text, before), words.rest()));
        }
        before += word.len() + 1;
    }
    None
}

// The words in the first bytes of a text, each with a space behind it, without the last space.
fn front(text: &[u8], bytes: usize) -> Part<'_>
    requires { bytes ≤ length text.now + 1 }
    ensures { words_left result ≡ words_before bytes text.now }
{
    if bytes == 0 {
        return None;
    }
    Some(&text[..bytes - 1])
}

pub fn write_run(corp: Corp, sheet: &SheetWords, out: &mut Vec<u8>) -> Result<(), AllocError>
    ensures ok { OnOk result (out.new.items ≡ out.old.items ++ text (Order.Run corp sheet.now)) }
    ensures kept { Continues out.old.items out.new.items }
{
    out.extend_from_slice(b"run")?;
    write_word(corp.name().as_bytes(), out)?;
    write_part(sheet.as_bytes(), out)
}

pub fn write_best(
    corp: Corp,
    sheet: &SheetWords,
    certificate: &CertificateWords,
    out: &mut Vec<u8>,
) -> Result<(), AllocError>
    ensures ok { OnOk result (out.new.items ≡ out.old.items ++ text (Order.RunBest corp sheet.now certificate.now)) }
    ensures kept { Continues out.old.items out.new.items }
{
    write_run(corp, sheet, out)?;
    write_word(b"best", out)?;
    write_part(certificate.as_bytes(), out)
}

// Appends a space and the words, if there are any.
fn write_part(part: &[u8], out: &mut Vec<u8>) -> Result<(), AllocError>
    ensures ok { OnOk result (out.new.items ≡ out.old.items ++ added part.now) }
    ensures kept { Continues out.old.items out.new.items }
{
    if part.is_empty() {
        return Ok(());
    }
    write_word(part, out)
}
