//! The snapshots that were read of a file: games that the first commands of its tables make.
ghost use Rattle.std.specs.Prelude.{◌≡◌, ◌≢◌, ◌↔◌, ◌⊎◌, [], ◌∷◌, ◌++◌, All, IsTrue, IfOk, IfErr, MatchOption, OnOk};
ghost use Rattle.std.specs.List.{AllZip};
ghost use Rattle.std.specs.Option.{option_copied};
ghost use Rattle.std.specs.Rc.{rc_slice_items};
ghost use Rattle.rr_checkpoint.specs.Plan.Standing.{standing_chain, standing_chains};
ghost use Rattle.rr_game.specs.History.GameBytes.{SpellsGame, SpellsOneGame};
ghost use Rattle.rr_store.specs.Recovery.Shown.{IsLast, KeepsShown, SpellsItsGame, SpellsTheGame, later, shown_at, shown_in};

use crate::recovery::Fault;
use rr_checkpoint::plan::StandingSnapshot;
use rr_game::Game;
use rr_game::history::{KeptCommands, Snapshot};
use rr_pages::Damage;
use rr_reading::dir::SnapshotEntry;
use std::alloc::Global;

/// What a directory says of its snapshots, and these with their chains, in the same order.
#[derive(Clone, Copy)]
pub(crate) struct Snapshots<'a> {
    pub(crate) entries: &'a [SnapshotEntry],
    pub(crate) chains: &'a [StandingSnapshot],
}

/// Whether each snapshot is a game that has played as many commands as it tells.
pub(crate) fn tell_games(snapshots: Snapshots) -> Result<bool, Fault>
    ensures told { IfOk result (λ told. IsTrue told
        ↔ All SpellsItsGame (shown_in snapshots.entry.entries.now (standing_chains snapshots.entry.chains.now))) }
    ensures memory { IfErr result (λ fault. fault ≡ Fault.OutOfMemory) }
{
    tell_each(snapshots.entries, snapshots.chains)
}

fn tell_each(entries: &[SnapshotEntry], chains: &[StandingSnapshot]) -> Result<bool, Fault>
    ensures told { IfOk result (λ told. IsTrue told
        ↔ All SpellsItsGame (shown_in entries.now (standing_chains chains.now))) }
    ensures memory { IfErr result (λ fault. fault ≡ Fault.OutOfMemory) }
{
    for (entry, chain) in entries.iter().zip(chains) {
        let told = tells_game(entry, chain)?;
        if !told {
            return Ok(false);
        }
    }
    Ok(true)
}

fn tells_game(entry: &SnapshotEntry, chain: &StandingSnapshot) -> Result<bool, Fault>
    ensures told { IfOk result (λ told. IsTrue told ↔ SpellsOneGame (rc_slice_items chain.now.bytes) entry.now.kept) }
    ensures memory { IfErr result (λ fault. fault ≡ Fault.OutOfMemory) }
{
    let snapshot = read_shown(entry, chain)?;
    Ok(snapshot.is_some())
}

/// The snapshot whose bytes a chain has, if they are a game that has played as many commands as the entry says.
pub(crate) fn read_shown(
    entry: &SnapshotEntry,
    chain: &StandingSnapshot,
) -> Result<Option<Snapshot>, Fault>
    ensures value { IfOk result (λ found. MatchOption found
        (SpellsOneGame (rc_slice_items chain.now.bytes) entry.now.kept → ⊥)
        (λ snapshot. SpellsGame (rc_slice_items chain.now.bytes) entry.now.kept snapshot)) }
    ensures memory { IfErr result (λ fault. fault ≡ Fault.OutOfMemory) }
{
    match Snapshot::read(&chain.bytes) {
        Ok(Some(snapshot)) => Ok(of_count(snapshot, entry.kept)),
        Ok(None) => Ok(None),
        Err(_) => Err(Fault::OutOfMemory),
    }
}

/// The snapshot, if its game has played so many commands.
fn of_count(snapshot: Snapshot, count: u32) -> Option<Snapshot>
    ensures { MatchOption result (snapshot.played ≢ count)
        (λ found. (found ≡ snapshot) × (snapshot.played ≡ count)) }
{
    if snapshot.played() != count as usize {
        return None;
    }
    Some(snapshot)
}

/// The snapshots of the table at this place, and no command.
pub(crate) fn snapshots_at(
    alloc: Global,
    index: usize,
    entries: &[SnapshotEntry],
    chains: &[StandingSnapshot],
) -> Result<KeptCommands, Fault>
    ensures none { IfOk result (λ kept. kept.commands ≡ []) }
    ensures shown { IfOk result (λ kept.
        AllZip SpellsTheGame (shown_at index entries.now (standing_chains chains.now)) kept.snapshots) }
    ensures refused { IfErr result (λ fault. (fault ≡ Fault.OutOfMemory)
        ⊎ ((fault ≡ Fault.Damaged Damage.Kept)
        × (All SpellsItsGame (shown_at index entries.now (standing_chains chains.now)) → ⊥))) }
{
    let mut kept = KeptCommands::new(alloc);
    for (entry, chain) in entries.iter().zip(chains) {
        keep_shown(index, entry, chain, &mut kept)?;
    }
    Ok(kept)
}

/// Keeps a snapshot, if it is one of the table at this place.
fn keep_shown(
    index: usize,
    entry: &SnapshotEntry,
    chain: &StandingSnapshot,
    kept: &mut KeptCommands,
) -> Result<(), Fault>
    ensures shown { OnOk result (KeepsShown (shown_at index (entry.now ∷ []) (standing_chain chain.now ∷ []))
        kept.old.snapshots kept.new.snapshots) }
    ensures refused { IfErr result (λ fault. (fault ≡ Fault.OutOfMemory)
        ⊎ ((fault ≡ Fault.Damaged Damage.Kept)
        × (All SpellsItsGame (shown_at index (entry.now ∷ []) (standing_chain chain.now ∷ [])) → ⊥))) }
    ensures commands { kept.new.commands ≡ kept.old.commands }
{
    if entry.table as usize != index {
        return Ok(());
    }
    match read_shown(entry, chain)? {
        Some(snapshot) => keep_snapshot(kept, snapshot),
        None => Err(Fault::Damaged(Damage::Kept)),
    }
}

fn keep_snapshot(kept: &mut KeptCommands, snapshot: Snapshot) -> Result<(), Fault>
    ensures kept { OnOk result (kept.new.snapshots ≡ kept.old.snapshots ++ snapshot ∷ []) }
    ensures commands { kept.new.commands ≡ kept.old.commands }
    ensures memory { IfErr result (λ fault. fault ≡ Fault.OutOfMemory) }
{
    match kept.keep_snapshot(snapshot) {
        Ok(()) => Ok(()),
        Err(_) => Err(Fault::OutOfMemory),
    }
}

/// The game of these snapshots that has played the most commands.
pub(crate) fn last_game(alloc: Global, snapshots: &[Snapshot]) -> Result<Option<Game>, Fault>
    ensures last { IfOk result (IsLast snapshots.now) }
    ensures memory { IfErr result (λ fault. fault ≡ Fault.OutOfMemory) }
{
    match last_of(snapshots) {
        Some(snapshot) => game_of(alloc, snapshot),
        None => Ok(None),
    }
}

fn game_of(alloc: Global, snapshot: &Snapshot) -> Result<Option<Game>, Fault>
    ensures game { IfOk result (λ game. game ≡ Some snapshot.now) }
    ensures memory { IfErr result (λ fault. fault ≡ Fault.OutOfMemory) }
{
    match snapshot.game(alloc) {
        Ok(game) => Ok(Some(game)),
        Err(_) => Err(Fault::OutOfMemory),
    }
}

/// The snapshot behind the most commands.
fn last_of(snapshots: &[Snapshot]) -> Option<&Snapshot>
    ensures { IsLast snapshots.now (option_copied result) }
{
    let mut last = None;
    for snapshot in snapshots {
        last = later(snapshot, last);
    }
    last
}

/// The snapshot, where it is behind more commands than the other, and else the other.
fn later<'a>(snapshot: &'a Snapshot, other: Option<&'a Snapshot>) -> Option<&'a Snapshot>
    ensures { option_copied result ≡ later snapshot.now (option_copied other.entry) }
{
    match other {
        Some(last) if snapshot.played() <= last.played() => other,
        _ => Some(snapshot),
    }
}
