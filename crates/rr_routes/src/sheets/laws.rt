//! What always holds of the texts of sheets and certificates. The functions do nothing: a caller's proof cites what
//! they ensure.
ghost use Rattle.std.specs.Prelude.{◌≡◌, ◌↔◌, ℕ, List, All, Some, length};
ghost use Rattle.rr_routes.specs.Certificates.{Accepts};
ghost use Rattle.rr_routes.specs.Net.{Net};
ghost use Rattle.rr_routes.specs.declared.certificate.CertTree.{CertTree};
ghost use Rattle.rr_routes.specs.Sheets.Certificate.{HasShortNumber, IsSame, Spells, certificate_text, words_of};
ghost use Rattle.rr_routes.specs.Sheets.Reading.{sheet_in, sheet_of};
ghost use Rattle.rr_routes.specs.Sheets.Sheet.{SpellsSheet};
ghost use Rattle.rr_routes.specs.declared.sheets.sheet.TrainWord.{TrainWord};

/// A text spells at most one sheet and one certificate, and certificates of one text are accepted alike.
pub fn one_meaning()
    ensures sheet { (text : List ℕ) (sheet other : List TrainWord) → SpellsSheet text sheet → SpellsSheet text other → sheet ≡ other }
    ensures certificate { (text : List ℕ) (trains : ℕ) (tree other : CertTree) → Spells text trains tree → Spells text trains other →
        IsSame tree other }
    ensures accepted { (text : List ℕ) (trains : ℕ) (tree other : CertTree) → Spells text trains tree → Spells text trains other →
        (net : Net) (claim : ℕ) → Accepts net claim tree → Accepts net claim other }
{}

/// A text is read as a sheet exactly if it spells that sheet, and then has that sheet's words in it.
pub fn read_is_spelled()
    ensures read { (text : List ℕ) (sheet : List TrainWord) → (sheet_of text ≡ Some sheet) ↔ SpellsSheet text sheet }
    ensures words { (text : List ℕ) (sheet : List TrainWord) → SpellsSheet text sheet → sheet_in text ≡ sheet }
{}

/// What is written of an accepted certificate is read as a certificate, where its numbers have at most ten digits.
pub fn accepted_is_spelled()
    ensures { (net : Net) (claim : ℕ) (tree : CertTree) → Accepts net claim tree → All HasShortNumber (words_of tree) →
        Spells (certificate_text tree) (length net.trains) tree }
{}
