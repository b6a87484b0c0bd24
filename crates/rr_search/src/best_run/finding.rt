//! The search for the best run of a corporation.
ghost use Rattle.std.specs.Prelude.{◌≡◌, ℕ, ◌≤◌, ◌≤ℤ◌, ◌⊎◌, IfOk, MatchResult, None, length, pos};
ghost use Rattle.rr_search.specs.BestRun.Worded.{HasLegal, IsBestOn, IsInWords, MayLackRun, MayRefuse};
ghost use Rattle.rr_books.specs.Book.{Book};
ghost use Rattle.rr_desk.specs.Incomes.{dollars};
ghost use Rattle.rr_orders.specs.Order.{SpellsOrder};
ghost use Rattle.rr_orders.specs.declared.order.Order.TheVariants.{RunBest};
ghost use Rattle.rr_desk.specs.Position.Position.{IsPositionOf};
ghost use Rattle.rr_routes.specs.Net.{value};
ghost use Rattle.rr_referee.specs.Revenue.{revenue_of};
ghost use Rattle.rr_running.specs.Running.{IsBestRunVerdict, net_now, run_revenue};
ghost use Rattle.rr_search.specs.declared.fault.Fault.TheVariants.{NoCertificate, OutOfMemory};

use crate::best_run::run::BestRun;
use crate::best_run::wording::{certificate_text, command_text, sheet_text};
use crate::{Fault, best};
use rr_books::{Corp, Money, Refusal};
use rr_checker::{CertTree, Net};
use rr_desk::Position;
use rr_kit::Kit;
use rr_referee::legal;
use rr_routes::MOST_NODES;
use rr_routes::sheets::Sheet;
use rr_running::net_now;
use std::alloc::Global;

/// The most links that numbers of ten digits name.
const MOST_LINKS: usize = 9_999_999_999;

/// Searches for the run of the corporation that earns most on the board as it lies, and gives it in the words of the
/// command that runs it, in at most `most` bytes. A corporation without trains has a sheet without words, which
/// earns 0.
///
/// # Errors
///
/// `NoCertificate` comes only where the tree that splits every link of the board in turn has more than `MOST_NODES`
/// nodes, or where the words of a best run with its certificate are longer than `most`; else `OutOfMemory`.
pub fn best_run(
    alloc: Global,
    kit: &Kit,
    position: &Position,
    corp: Corp,
    most: usize,
) -> Result<BestRun, Fault>
    ensures spelled { IfOk result (λ run. SpellsOrder run.words (RunBest corp run.sheet run.certificate)) }
    ensures fits { IfOk result (λ run. length run.words ≤ most) }
    ensures found { (book : Book) → IsPositionOf book position.now → MatchResult result
        (λ run. IsBestRunVerdict kit.now book corp run.sheet run.certificate None × (run.revenue ≡ run_revenue kit.now book corp run.sheet))
        (λ fault. (fault ≡ OutOfMemory) ⊎ ((fault ≡ NoCertificate) × MayLackRun (net_now kit.now.board kit.now.tiles book corp) corp most)) }
    ensures least { IfOk result (λ run. pos 0 ≤ℤ run.revenue.0) }
{
    let net = net_now(alloc, kit, position, corp)?;
    let run = best_over(alloc, &net, corp, most)?;
    Ok(run)
}

// The best run over the net, in at most so many bytes.
fn best_over(alloc: Global, net: &Net, corp: Corp, most: usize) -> Result<BestRun, Fault>
    requires values { (centre : ℕ) → value net.now centre ≤ 990 }
    requires centres { length net.now.values ≤ 65536 }
    requires trains { length net.now.trains ≤ 120 }
    ensures { MatchResult result (λ run. IsBestOn net.now corp run × (length run.words ≤ most)) (λ fault. MayRefuse net.now corp most fault) }
{
    if net.links().len() > MOST_LINKS {
        return Err(Fault::NoCertificate);
    }
    let (sheet, tree) = best(alloc, net, MOST_NODES)?;
    let run = worded(alloc, net, corp, &sheet, &tree)?;
    if run.as_bytes().len() > most {
        return Err(Fault::NoCertificate);
    }
    Ok(run)
}

// The run of the sheet, in words.
fn worded(
    alloc: Global,
    net: &Net,
    corp: Corp,
    sheet: &Sheet,
    tree: &CertTree,
) -> Result<BestRun, Fault>
    requires values { (centre : ℕ) → value net.now centre ≤ 990 }
    requires centres { length net.now.values ≤ 65536 }
    requires trains { length net.now.trains ≤ 120 }
    requires legal { HasLegal net.now sheet.now }
    ensures { MatchResult result (λ run. IsInWords net.now corp sheet.now tree.now run) (λ fault. fault ≡ OutOfMemory) }
{
    let revenue = revenue_of(alloc, net, sheet)?;
    let sheet = sheet_text(alloc, sheet)?;
    let certificate = certificate_text(alloc, tree)?;
    let words = command_text(alloc, corp, &sheet, &certificate)?;
    Ok(BestRun::new(words, sheet, certificate, revenue))
}

// What a legal sheet earns.
fn revenue_of(alloc: Global, net: &Net, sheet: &Sheet) -> Result<Money, Fault>
    requires values { (centre : ℕ) → value net.now centre ≤ 990 }
    requires centres { length net.now.values ≤ 65536 }
    requires trains { length net.now.trains ≤ 120 }
    requires legal { HasLegal net.now sheet.now }
    ensures { MatchResult result (λ revenue. revenue ≡ dollars (revenue_of net.now sheet.now)) (λ fault. fault ≡ OutOfMemory) }
{
    match legal(alloc, net, sheet) {
        Ok(revenue) => Ok(Money(revenue as i64)),
        Err(Refusal::IllegalSheet(_)) => unreachable!(),
        Err(_) => Err(Fault::OutOfMemory),
    }
}
