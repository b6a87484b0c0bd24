//! The search for the best run of a corporation at a table.
ghost use Rattle.rr_words.specs.declared.line.TheConstants.{LONGEST_LINE};
ghost use Rattle.std.specs.Prelude.{◌≡◌, ◌+◌, ◌≤◌, false, None, Some, IfErr, IfOk, MatchResult, decimal, length};
ghost use Rattle.rr_game.specs.History.Tables.{IsPlayed, kept_in};
ghost use Rattle.rr_orders.specs.Order.{SpellsOrder};
ghost use Rattle.rr_orders.specs.declared.order.Order.TheVariants.{RunBest};
ghost use Rattle.rr_store.specs.Holding.{GamesArePlayed, held_of};
ghost use Rattle.rr_store.specs.World.{table_named};
ghost use Rattle.rr_moderator.specs.Durability.{SaysNeither};
ghost use Rattle.rr_moderator.specs.Fault.{refusal_of};
ghost use Rattle.rr_moderator.specs.Best.{IsBestRun, LacksRun, room_behind, run_verdict};

use crate::fault::Fault;
use itoa::Buffer;
use rr_disk::Disk;
use rr_roster::Corp;
use rr_search::best_run::{BestRun, best_run};
use rr_store::{Store, Table};
use rr_tables::records;
use rr_words::{LONGEST_LINE, Name};
use std::alloc::Global;

/// Finds a best run of the corporation, by a request with this stamp, whose line is no longer than a line may be.
///
/// # Errors
/// What refuses a run of the corporation before its sheet and its certificate are looked at; then `NoCertificate` where
/// the search gives none, and `OutOfMemory`.
pub(crate) fn find_best<D: Disk + Drop>(
    alloc: Global,
    store: &Store<D>,
    stamp: u64,
    name: &Name,
    corp: Corp,
) -> Result<BestRun, Fault>
    requires { (held_of store.now).broken ≡ false }
    ensures words { IfOk result (λ run. SpellsOrder run.words (RunBest corp run.sheet run.certificate)) }
    ensures short { IfOk result (λ run. length run.sheet ≤ LONGEST_LINE) }
    ensures calm { IfErr result (λ fault. SaysNeither (refusal_of fault)) }
    ensures found { GamesArePlayed store.now → MatchResult result
        (λ run. IsBestRun (held_of store.now).kit (table_named (held_of store.now).tables name.now) stamp name.now corp run.sheet run.certificate)
        (λ fault. LacksRun (held_of store.now).kit (table_named (held_of store.now).tables name.now) stamp name.now corp fault) }
{
    let table = runs_at(alloc, store, stamp, name, corp)?;
    let most = room_behind(stamp, name);
    let position = table.game().standing().position();
    let run = best_run(alloc, store.kit(), position, corp, most)?;
    Ok(run)
}

/// The table of this name, where the corporation may run now.
fn runs_at<'a, D: Disk + Drop>(
    alloc: Global,
    store: &'a Store<D>,
    stamp: u64,
    name: &Name,
    corp: Corp,
) -> Result<&'a Table, records::Fault>
    requires { (held_of store.now).broken ≡ false }
    ensures { GamesArePlayed store.now → MatchResult result
        (λ table. (table_named (held_of store.now).tables name.now ≡ Some (kept_in table.now))
        × IsPlayed (held_of store.now).kit table.now
        × (run_verdict (held_of store.now).kit (table_named (held_of store.now).tables name.now) stamp corp ≡ None))
        (λ fault. run_verdict (held_of store.now).kit (table_named (held_of store.now).tables name.now) stamp corp ≡ Some fault) }
{
    let table = match store.table(name) {
        Ok(table) => table,
        // The device works, so no table has this name.
        Err(_) => return Err(records::Fault::NoSuchTable),
    };
    table.judge_run(alloc, stamp, corp, store.kit())?;
    Ok(table)
}

/// How many bytes a line leaves to a run's words, behind the stamp and the table's name.
fn room_behind(stamp: u64, name: &Name) -> usize
    ensures value { result ≡ room_behind stamp name.now }
    ensures whole { result + (length (decimal stamp) + length name.now + 2) ≡ LONGEST_LINE }
{
    let mut buffer = Buffer::new();
    let digits = buffer.format(stamp).len();
    LONGEST_LINE - (digits + name.as_bytes().len() + 2)
}
