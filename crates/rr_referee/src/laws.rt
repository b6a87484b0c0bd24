//! Laws of sheets, each the contract of a function that does nothing.
ghost use Rattle.std.specs.Prelude.{◌≡◌, ℕ, ◌≤◌, List};
ghost use Rattle.rr_routes.specs.Net.{Net};
ghost use Rattle.rr_routes.specs.Routes.{Trip, Run, Optimal, earned};
ghost use Rattle.rr_routes.specs.Certificates.{Accepts};
ghost use Rattle.rr_routes.specs.declared.certificate.CertTree.{CertTree};
ghost use Rattle.rr_routes.specs.declared.sheets.sheet.TrainWord.{TrainWord};
ghost use Rattle.rr_referee.specs.Revenue.{revenue_of};
ghost use Rattle.rr_referee.specs.Sheets.{Breaks, IsLegal, IsSheetOf};
ghost use Rattle.rr_books.specs.declared.clause.Clause.{Clause};

/// If a sheet is legal and a certificate is accepted for its revenue, no legal sheet of the net earns more, and its run
/// is optimal.
pub fn optimal()
    ensures run { (net : Net) (sheet : List TrainWord) (claim : ℕ) (tree : CertTree) → Accepts net claim tree →
        (legal : IsLegal net sheet claim) → Optimal net legal.run }
    ensures sheets { (net : Net) (sheet other : List TrainWord) (claim revenue : ℕ) (tree : CertTree) → IsLegal net sheet claim →
        Accepts net claim tree → IsLegal net other revenue → revenue ≤ claim }
{}

/// A legal sheet has one revenue: what its words earn.
pub fn revenue()
    ensures { (net : Net) (sheet : List TrainWord) (revenue : ℕ) → IsLegal net sheet revenue → revenue ≡ revenue_of net sheet }
{}

/// A sheet is legal exactly if it is that of a lawful run. It is that of one run alone, whose revenue it has, and
/// breaks no clause; and no sheet breaks two clauses first.
pub fn sheets()
    ensures legal { (net : Net) (sheet : List TrainWord) (run : List Trip) → IsSheetOf net sheet run → Run net run → IsLegal net sheet (earned net run) }
    ensures one_run { (net : Net) (sheet : List TrainWord) (run other : List Trip) → IsSheetOf net sheet run → Run net run →
        IsSheetOf net sheet other → Run net other → run ≡ other }
    ensures none_broken { (net : Net) (sheet : List TrainWord) (revenue : ℕ) (clause : Clause) → IsLegal net sheet revenue → Breaks net sheet clause → ⊥ }
    ensures one_clause { (net : Net) (sheet : List TrainWord) (one other : Clause) → Breaks net sheet one → Breaks net sheet other → one ≡ other }
{}
