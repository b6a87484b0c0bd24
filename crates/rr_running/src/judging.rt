//! Judges the run that a corporation proposes.
ghost use Rattle.std.specs.Prelude.{◌≡◌, ℕ, ◌≤◌, ◌≤ℤ◌, ◌⊎◌, None, Some, pos, length, IfOk, MatchResult};
ghost use Rattle.rr_kit.specs.declared.board.hex.TheConstants.{MOST_CENTRES};
ghost use Rattle.rr_books.specs.Book.{Book};
ghost use Rattle.rr_desk.specs.Incomes.{dollars};
ghost use Rattle.rr_desk.specs.Position.Position.{IsPositionOf};
ghost use Rattle.rr_routes.specs.Net.{value};
ghost use Rattle.rr_routes.specs.Sheets.Sheet.{SpellsSheet, SpellsSomeSheet};
ghost use Rattle.rr_running.specs.Running.{IsBestRunVerdict, IsCertificateRefusal, IsRunVerdict, IsVerdictOn, Shows, earned_on, net_now, run_revenue};

use crate::nets::net_now;
use rr_books::{Clause, Corp, Money, Refusal};
use rr_checker::{Net, check};
use rr_desk::Position;
use rr_kit::Kit;
use rr_referee::legal;
use rr_routes::sheets::{Sheet, read_certificate};
use std::alloc::Global;

/// A run that is said to earn the most.
#[derive(Clone, Copy, Debug)]
pub struct BestRun<'a> {
    /// The words of its sheet, with one space between each two.
    pub words: &'a [u8],
    /// The words of the certificate that no run earns more.
    pub certificate: &'a [u8],
}

/// Judges a run of the corporation by the words of its sheet, with one space between each two, and gives its revenue: a
/// dollar amount, 0 for the empty sheet of a corporation without trains.
///
/// # Errors
///
/// `IllegalSheet` with the first clause that the sheet breaks; of words that spell no sheet this is `WrongWord`.
/// `OutOfMemory`, also where a network has more than 65,536 centres, which none of a board has.
pub fn judge_run(
    alloc: Global,
    kit: &Kit,
    position: &Position,
    corp: Corp,
    words: &[u8],
) -> Result<Money, Refusal>
    ensures judged { (book : Book) → IsPositionOf book position.now → MatchResult result
        (λ revenue. IsRunVerdict kit.now book corp words.now None × (revenue ≡ run_revenue kit.now book corp words.now))
        (λ fault. (fault ≡ Refusal.OutOfMemory) ⊎ IsRunVerdict kit.now book corp words.now (Some fault)) }
    ensures least { IfOk result (λ revenue. pos 0 ≤ℤ revenue.0) }
    ensures greatest { IfOk result (λ revenue. revenue.0 ≤ℤ pos 7785676800) }
{
    let net = net_now(alloc, kit, position, corp)?;
    let revenue = earned_by(alloc, &net, words)?;
    Ok(amount(revenue))
}

/// Judges a run of the corporation by the words of its sheet, with a certificate that no run earns more, and gives its
/// revenue.
///
/// # Errors
///
/// Those of `judge_run`, and then `CertificateRefused` where the text spells no certificate for so many trains, or one
/// that doesn't show it.
pub fn judge_best_run(
    alloc: Global,
    kit: &Kit,
    position: &Position,
    corp: Corp,
    run: &BestRun<'_>,
) -> Result<Money, Refusal>
    ensures judged { (book : Book) → IsPositionOf book position.now → MatchResult result
        (λ revenue. IsBestRunVerdict kit.now book corp run.now.words.now run.now.certificate.now None × (revenue ≡ run_revenue kit.now book corp run.now.words.now))
        (λ fault. (fault ≡ Refusal.OutOfMemory) ⊎ IsBestRunVerdict kit.now book corp run.now.words.now run.now.certificate.now (Some fault)) }
    ensures least { IfOk result (λ revenue. pos 0 ≤ℤ revenue.0) }
    ensures greatest { IfOk result (λ revenue. revenue.0 ≤ℤ pos 7785676800) }
{
    let net = net_now(alloc, kit, position, corp)?;
    let earned = earned_by(alloc, &net, run.words)?;
    judge_certificate(alloc, &net, earned, run.certificate)?;
    Ok(amount(earned))
}

// What the run of these words earns on the net.
fn earned_by(alloc: Global, net: &Net, words: &[u8]) -> Result<usize, Refusal>
    requires values { (centre : ℕ) → value net.now centre ≤ 990 }
    requires centres { length net.now.values ≤ MOST_CENTRES }
    requires trains { length net.now.trains ≤ 120 }
    ensures judged { MatchResult result
        (λ earned. IsVerdictOn net.now words.now None × (earned ≡ earned_on net.now words.now))
        (λ fault. (fault ≡ Refusal.OutOfMemory) ⊎ IsVerdictOn net.now words.now (Some fault)) }
    ensures greatest { IfOk result (λ earned. earned ≤ 7785676800) }
{
    let sheet = sheet_of(alloc, words)?;
    let earned = legal(alloc, net, &sheet)?;
    Ok(earned)
}

// The sheet that the words spell.
fn sheet_of(alloc: Global, words: &[u8]) -> Result<Sheet, Refusal>
    ensures { MatchResult result
        (λ sheet. SpellsSheet words.now sheet)
        (λ fault. (fault ≡ Refusal.OutOfMemory) ⊎ ((fault ≡ Refusal.IllegalSheet Clause.WrongWord) × (SpellsSomeSheet words.now → ⊥))) }
{
    match Sheet::read(alloc, words) {
        Ok(sheet) => Ok(sheet),
        Err(rr_routes::sheets::Fault::OutOfMemory) => Err(Refusal::OutOfMemory),
        Err(_) => Err(Refusal::IllegalSheet(Clause::WrongWord)),
    }
}

// Whether the text shows that no run of the net earns more.
fn judge_certificate(alloc: Global, net: &Net, earned: usize, text: &[u8]) -> Result<(), Refusal>
    ensures { MatchResult result
        (λ _. Shows net.now text.now earned)
        (λ fault. IsCertificateRefusal net.now text.now earned fault) }
{
    let tree = match read_certificate(alloc, net.trains().len(), text) {
        Ok(tree) => tree,
        Err(rr_routes::sheets::Fault::OutOfMemory) => return Err(Refusal::OutOfMemory),
        Err(_) => return Err(Refusal::CertificateRefused),
    };
    if !check(alloc, net, earned, &tree)? {
        return Err(Refusal::CertificateRefused);
    }
    Ok(())
}

// So many dollars.
fn amount(earned: usize) -> Money
    requires { earned ≤ 7785676800 }
    ensures value { result ≡ dollars earned }
    ensures least { pos 0 ≤ℤ result.0 }
    ensures greatest { result.0 ≤ℤ pos 7785676800 }
{
    Money(earned as i64)
}
