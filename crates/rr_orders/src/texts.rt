//! The words of sheets and certificates, where they stand in a line.
ghost use Rattle.std.specs.Prelude.{◌≡◌, IfSome, bytes_eq};
ghost use Rattle.std.specs.Cmp.{partial_equiv_from_equiv};
ghost use Rattle.std.specs.Cmp.Lexicographic.{nat_list_eq_equiv};
ghost use Rattle.rr_orders.specs.Scan.Words.{words_left};
ghost use Rattle.rr_orders.specs.Texts.{IsCertificateText, IsSheetText, certificate_text, parts, sheet_text};

use rr_routes::sheets::{is_certificate, is_sheet};
use std::marker::Model;

/// The words of a run's sheet, lent from the line that has them: a word for each train, or none.
#[derive(Debug, Drop)]
pub struct SheetWords<'a> {
    sheet: &'a [u8],
}

impl<'a> Model for SheetWords<'a> {
    ghost use Rattle.std.specs.Prelude.{ℕ, List};
    ghost use Rattle.rr_orders.specs.Texts.{IsSheetText};

    ghost Value = { List ℕ };

    ghost view = { λ s. s.sheet.now };

    ghost invariant = { λ s. IsSheetText s.sheet.now };
}

// Sheets are equal where their words are.
impl<'a> PartialEq for SheetWords<'a> {
    ghost eq = { bytes_eq };

    ghost laws = { partial_equiv_from_equiv nat_list_eq_equiv };

    fn eq(&self, other: &Self) -> bool {
        self.as_bytes() == other.as_bytes()
    }
}

impl<'a> Eq for SheetWords<'a> {
    ghost laws = { nat_list_eq_equiv };
}

impl<'a> SheetWords<'a> {
    /// The sheet that the words of a text are, or the one without a word; `None` where they are none.
    pub(crate) fn of(text: Option<&'a [u8]>) -> Option<SheetWords<'a>>
        ensures exact { result ≡ sheet_text (words_left text.entry) }
        ensures found { IfSome result (λ sheet. IsSheetText sheet × (words_left text.entry ≡ parts sheet)) }
    {
        let Some(text) = text else {
            return Some(SheetWords { sheet: &[] });
        };
        if text.is_empty() {
            return None;
        }
        if !is_sheet(text) {
            return None;
        }
        Some(SheetWords { sheet: text })
    }

    /// The words with one space between each two; empty where there is none.
    pub fn as_bytes(&self) -> &[u8]
        ensures value { result.now ≡ self.now }
        ensures sheet { IsSheetText self.now }
    {
        self.sheet
    }
}

/// The words of a run's certificate, lent from the line that has them. Whether they are a tree isn't asked.
#[derive(Debug, Drop)]
pub struct CertificateWords<'a> {
    certificate: &'a [u8],
}

impl<'a> Model for CertificateWords<'a> {
    ghost use Rattle.std.specs.Prelude.{ℕ, List};
    ghost use Rattle.rr_orders.specs.Texts.{IsCertificateText};

    ghost Value = { List ℕ };

    ghost view = { λ s. s.certificate.now };

    ghost invariant = { λ s. IsCertificateText s.certificate.now };
}

// Certificates are equal where their words are.
impl<'a> PartialEq for CertificateWords<'a> {
    ghost eq = { bytes_eq };

    ghost laws = { partial_equiv_from_equiv nat_list_eq_equiv };

    fn eq(&self, other: &Self) -> bool {
        self.as_bytes() == other.as_bytes()
    }
}

impl<'a> Eq for CertificateWords<'a> {
    ghost laws = { nat_list_eq_equiv };
}

impl<'a> CertificateWords<'a> {
    /// The certificate that the words of a text are, or the one without a word; `None` where they are none.
    pub(crate) fn of(text: Option<&'a [u8]>) -> Option<CertificateWords<'a>>
        ensures exact { result ≡ certificate_text (words_left text.entry) }
        ensures found { IfSome result (λ certificate. IsCertificateText certificate × (words_left text.entry ≡ parts certificate)) }
    {
        let Some(text) = text else {
            return Some(CertificateWords { certificate: &[] });
        };
        if text.is_empty() {
            return None;
        }
        if !is_certificate(text) {
            return None;
        }
        Some(CertificateWords { certificate: text })
    }

    /// The words with one space between each two; empty where there is none.
    pub fn as_bytes(&self) -> &[u8]
        ensures value { result.now ≡ self.now }
        ensures certificate { IsCertificateText self.now }
    {
        self.certificate
    }
}
