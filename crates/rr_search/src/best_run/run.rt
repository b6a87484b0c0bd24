//! A run in the words of its command.
ghost use Rattle.std.specs.Prelude.{◌≡◌};

use rr_books::Money;
use std::marker::Model;

/// A run of a corporation that earns most, with the words of the command that runs it.
#[derive(Debug, Drop)]
pub struct BestRun {
    words: Vec<u8>,
    sheet: Vec<u8>,
    certificate: Vec<u8>,
    revenue: Money,
}

impl Model for BestRun {
    ghost use Rattle.rr_search.specs.BestRun.Worded.{WordedRun};

    ghost Value = { WordedRun };

    ghost view = { λ r. record { words = r.words.items; sheet = r.sheet.items; certificate = r.certificate.items; revenue = r.revenue } };
}

impl BestRun {
    pub(crate) fn new(
        words: Vec<u8>,
        sheet: Vec<u8>,
        certificate: Vec<u8>,
        revenue: Money,
    ) -> BestRun
        ensures words { result.words ≡ words.items }
        ensures sheet { result.sheet ≡ sheet.items }
        ensures certificate { result.certificate ≡ certificate.items }
        ensures revenue { result.revenue ≡ revenue }
    {
        BestRun {
            words,
            sheet,
            certificate,
            revenue,
        }
    }

    /// The words of the command as a table keeps them, with one space between each two and without a stamp and the
    /// table's name: `run`, the corporation, the sheet, `best` and the certificate.
    pub fn as_bytes(&self) -> &[u8]
        ensures { result.now ≡ self.now.words }
    {
        &self.words
    }

    /// The words of the sheet, with one space between each two; empty for a corporation without trains.
    pub fn sheet(&self) -> &[u8]
        ensures { result.now ≡ self.now.sheet }
    {
        &self.sheet
    }

    /// The words of the certificate, with one space between each two.
    pub fn certificate(&self) -> &[u8]
        ensures { result.now ≡ self.now.certificate }
    {
        &self.certificate
    }

    /// What the run earns, in dollars.
    pub fn revenue(&self) -> Money
        ensures { result ≡ self.now.revenue }
    {
        self.revenue
    }
}
