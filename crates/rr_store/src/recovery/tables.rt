//! All tables of a directory, in its order.
ghost use Rattle.std.specs.Prelude.{◌≡◌, ◌↔◌, ℕ, ◌+◌, ◌*◌, ◌^◌, ◌<◌, ◌≤◌, [], ◌∷◌, ◌++◌, None, All, length, IsTrue, IfOk, IfErr, OnOk};
ghost use Rattle.rr_game.specs.History.Tables.{HasItsSnapshots, IsPlayed, kept_in};
ghost use Rattle.rr_reading.specs.Dir.Directory.{AreTables};
ghost use Rattle.rr_reading.specs.declared.dir.directory.TheConstants.{MOST_KEPT};
ghost use Rattle.rr_reading.specs.Held.{tables_in};
ghost use Rattle.rr_reading.specs.Lending.Chains.{all_of};
ghost use Rattle.rr_reading.specs.Lending.Commands.{bytes_at};
ghost use Rattle.rr_store.specs.Recovery.Fault.{IsOrBreaks};
ghost use Rattle.rr_store.specs.Recovery.Reading.{OnlyReads};
ghost use Rattle.rr_store.specs.Recovery.Restoring.{IsFreeFor, Puts};
ghost use Rattle.rr_store.specs.Recovery.Shown.{AreShown, ShowsPlayOf, SpellsItsGame, shown_of};
ghost use Rattle.rr_store.specs.Recovery.Told.{TellTables, TellsTable};
ghost use Rattle.rr_store.specs.Replayed.{AreItsCounts, PlaysTable, PlaysTables, counts_shown, counts_then, plays_behind};
ghost use Rattle.rr_tables.specs.Records.Played.{ArePlayedTables, IsPlayedTable};
ghost use Rattle.rr_tables.specs.Records.World.{TableState, World, table_named};
ghost use Rattle.rr_tables.specs.Tables.{ArePlayed, HaveTheirSnapshots, world_of};
ghost use Rattle.rr_tables.specs.Writable.{IsWritable};

use crate::recovery::Fault;
use crate::recovery::playing::play_all;
use crate::recovery::plays::Restored;
use crate::recovery::shown::Snapshots;
use rr_disk::Disk;
use rr_game::history::Table;
use rr_kit::Kit;
use rr_pages::Damage;
use rr_reading::dir::TableEntry;
use rr_reading::lending::Commands;
use rr_tables::{MOST_TABLES, Tables};
use rr_turns::LAST_STAMP;
use rr_words::Name;
use std::alloc::Global;

/// The tables of these entries, each played from its chain.
pub(crate) fn restore_tables<D: Disk>(
    alloc: Global,
    disk: &mut D,
    kit: Kit,
    entries: &[TableEntry],
    chains: &mut Commands,
    snapshots: Snapshots,
) -> Result<Restored<Tables>, Fault>
    // A directory names as many tables as chains of such.
    ensures told { IfOk result (λ restored. D.Honest disk.new → length entries.now ≡ length (all_of chains.old.chains)
        → TellTables entries.now (tables_in (D.state disk.old).content chains.old) (world_of restored.value)) }
    ensures kit { IfOk result (λ restored. restored.value.kit ≡ kit) }
    // Where each snapshot shows the play of the commands before it, each table was played.
    ensures played { IfOk result (λ restored. AreShown kit snapshots.entry (world_of restored.value)
        → ArePlayed restored.value × ArePlayedTables kit (world_of restored.value)) }
    ensures snapshots { IfOk result (λ restored. HaveTheirSnapshots restored.value) }
    // Each snapshot of these tables was read as a game.
    ensures games { IfOk result (λ restored. (place : ℕ) → place < length entries.now
        → All SpellsItsGame (shown_of place snapshots.entry)) }
    ensures plays { IfOk result (λ restored. D.Honest disk.new → AreShown kit snapshots.entry (world_of restored.value)
        → PlaysTables kit (λ place. counts_shown (shown_of place snapshots.entry)) 0 (world_of restored.value) restored.plays) }
    ensures few_plays { IfOk result (λ restored. restored.plays ≤ MOST_TABLES * 2 ^ 33) }
    ensures refused { IfErr result (IsOrBreaks Damage.Kept (D.Honest disk.new
        → length entries.now ≡ length (all_of chains.old.chains) → AreTables entries.now → (tables : World) → TellTables entries.now (tables_in (D.state disk.old).content chains.old) tables
        → AreShown kit snapshots.entry tables → ArePlayedTables kit tables → ⊥)) }
    ensures only_reads { OnlyReads D.Disk disk.old disk.new chains.old chains.new result }
{
    let mut tables = no_tables(alloc, kit)?;
    let mut plays = 0;
    for (index, entry) in entries.iter().enumerate() {
        let played = restore_table(alloc, disk, &mut tables, entry, chains, index, snapshots)?;
        plays += played;
    }
    Ok(Restored {
        value: tables,
        plays,
    })
}

fn no_tables(alloc: Global, kit: Kit) -> Result<Tables, Fault>
    ensures none { IfOk result (λ tables. world_of tables ≡ []) }
    ensures kit { IfOk result (λ tables. tables.kit ≡ kit) }
    ensures played { IfOk result ArePlayed }
    ensures snapshots { IfOk result HaveTheirSnapshots }
    ensures memory { IfErr result (λ fault. fault ≡ Fault.OutOfMemory) }
{
    match Tables::new(alloc, kit) {
        Ok(tables) => Ok(tables),
        Err(_) => Err(Fault::OutOfMemory),
    }
}

/// Puts the table of an entry behind the others, and tells how many commands were played for it.
fn restore_table<D: Disk>(
    alloc: Global,
    disk: &mut D,
    tables: &mut Tables,
    entry: &TableEntry,
    chains: &mut Commands,
    index: usize,
    snapshots: Snapshots,
) -> Result<u64, Fault>
    ensures put { IfOk result (λ plays. (state : TableState) × Puts entry.now (world_of tables.old) state (world_of tables.new)
        × (D.Honest disk.new
        → TellsTable entry.now (bytes_at (D.state disk.old).content chains.old index) (entry.now.name, state))
        × (All (ShowsPlayOf tables.old.kit state.commands) (shown_of index snapshots.entry)
        → IsPlayedTable tables.old.kit state × (ArePlayed tables.old → ArePlayed tables.new))
        × (D.Honest disk.new → All (ShowsPlayOf tables.old.kit state.commands) (shown_of index snapshots.entry)
        → PlaysTable tables.old.kit state (counts_shown (shown_of index snapshots.entry)) plays)) }
    ensures snapshots { IfOk result (λ plays. HaveTheirSnapshots tables.old → HaveTheirSnapshots tables.new) }
    ensures games { IfOk result (λ plays. All SpellsItsGame (shown_of index snapshots.entry)) }
    ensures few_plays { IfOk result (λ plays. plays < 2 ^ 33) }
    ensures few_tables { IfOk result (λ plays. length (world_of tables.old) < MOST_TABLES) }
    ensures refused { IfErr result (IsOrBreaks Damage.Kept (D.Honest disk.new
        → IsFreeFor (world_of tables.old) entry.now → entry.now.kept ≤ MOST_KEPT → (state : TableState)
        → TellsTable entry.now (bytes_at (D.state disk.old).content chains.old index) (entry.now.name, state)
        → All (ShowsPlayOf tables.old.kit state.commands) (shown_of index snapshots.entry)
        → IsPlayedTable tables.old.kit state → ⊥)) }
    ensures kit { tables.new.kit ≡ tables.old.kit }
    ensures only_reads { OnlyReads D.Disk disk.old disk.new chains.old chains.new result }
{
    if !is_free_for(tables, entry) {
        return Err(Fault::Damaged(Damage::Kept));
    }
    let Restored { value, plays } = restore_whole(
        alloc,
        disk,
        tables.kit(),
        entry,
        chains,
        index,
        snapshots,
    )?;
    put_table(alloc, tables, entry.name, value)?;
    Ok(plays)
}

/// Whether an entry may stand behind those of the tables. One of a directory may.
fn is_free_for(tables: &Tables, entry: &TableEntry) -> bool
    ensures { IsTrue result ↔ IsFreeFor (world_of tables.now) entry.now }
{
    if entry.stamp > LAST_STAMP || tables.count() >= MOST_TABLES {
        return false;
    }
    tables.table(&entry.name).is_err()
}

/// Puts a table behind the others, in a box: a map moves its values about.
fn put_table(alloc: Global, tables: &mut Tables, name: Name, table: Table) -> Result<(), Fault>
    requires few { length (world_of tables.old) < MOST_TABLES }
    requires own_name { table_named (world_of tables.old) name ≡ None }
    requires writable { IsWritable (kept_in table) }
    ensures last { OnOk result (world_of tables.new ≡ world_of tables.old ++ (name, kept_in table) ∷ []) }
    ensures played { OnOk result (ArePlayed tables.old → IsPlayed tables.old.kit table → ArePlayed tables.new) }
    ensures snapshots { OnOk result (HaveTheirSnapshots tables.old → HasItsSnapshots table → HaveTheirSnapshots tables.new) }
    ensures kit { tables.new.kit ≡ tables.old.kit }
    ensures memory { IfErr result (λ fault. fault ≡ Fault.OutOfMemory) }
{
    let boxed = Box::new(alloc, table)?;
    tables.put(name, boxed);
    Ok(())
}

/// The table of an entry with the snapshots that it is to have: where the file's don't make them all, it is played
/// again from its opening, which does.
fn restore_whole<D: Disk>(
    alloc: Global,
    disk: &mut D,
    kit: &Kit,
    entry: &TableEntry,
    chains: &mut Commands,
    index: usize,
    snapshots: Snapshots,
) -> Result<Restored<Table>, Fault>
    requires { entry.now.stamp ≤ LAST_STAMP }
    ensures told { IfOk result (λ restored. D.Honest disk.new → TellsTable entry.now
        (bytes_at (D.state disk.old).content chains.old index) (entry.now.name, kept_in restored.value)) }
    ensures played { IfOk result (λ restored.
        All (ShowsPlayOf kit.now (kept_in restored.value).commands) (shown_of index snapshots.entry)
        → IsPlayed kit.now restored.value × IsPlayedTable kit.now (kept_in restored.value)) }
    ensures named { IfOk result (λ restored. HasItsSnapshots restored.value) }
    ensures writable { IfOk result (λ restored. IsWritable (kept_in restored.value)) }
    ensures plays { IfOk result (λ restored. D.Honest disk.new
        → All (ShowsPlayOf kit.now (kept_in restored.value).commands) (shown_of index snapshots.entry)
        → PlaysTable kit.now (kept_in restored.value) (counts_shown (shown_of index snapshots.entry)) restored.plays) }
    ensures few_plays { IfOk result (λ restored. restored.plays < 2 ^ 33) }
    ensures games { IfOk result (λ restored. All SpellsItsGame (shown_of index snapshots.entry)) }
    ensures refused { IfErr result (IsOrBreaks Damage.Kept (D.Honest disk.new → entry.now.kept ≤ MOST_KEPT
        → (state : TableState)
        → TellsTable entry.now (bytes_at (D.state disk.old).content chains.old index) (entry.now.name, state)
        → All (ShowsPlayOf kit.now state.commands) (shown_of index snapshots.entry)
        → IsPlayedTable kit.now state → ⊥)) }
    ensures only_reads { OnlyReads D.Disk disk.old disk.new chains.old chains.new result }
{
    let told = restore_from(alloc, disk, kit, entry, chains, index, snapshots)?;
    if told.value.has_its_snapshots() {
        return Ok(told);
    }
    let none = Snapshots {
        entries: &[],
        chains: &[],
    };
    let played = restore_from(alloc, disk, kit, entry, chains, index, none)?;
    Ok(Restored {
        value: played.value,
        plays: told.plays + played.plays,
    })
}

/// The table of an entry, played from the last of these snapshots, or from its opening where it has none.
fn restore_from<D: Disk>(
    alloc: Global,
    disk: &mut D,
    kit: &Kit,
    entry: &TableEntry,
    chains: &mut Commands,
    index: usize,
    snapshots: Snapshots,
) -> Result<Restored<Table>, Fault>
    requires { entry.now.stamp ≤ LAST_STAMP }
    ensures told { IfOk result (λ restored. D.Honest disk.new → TellsTable entry.now
        (bytes_at (D.state disk.old).content chains.old index) (entry.now.name, kept_in restored.value)) }
    ensures played { IfOk result (λ restored.
        All (ShowsPlayOf kit.now (kept_in restored.value).commands) (shown_of index snapshots.entry)
        → IsPlayed kit.now restored.value × IsPlayedTable kit.now (kept_in restored.value)) }
    ensures named { IfOk result (λ restored. shown_of index snapshots.entry ≡ [] → HasItsSnapshots restored.value) }
    ensures writable { IfOk result (λ restored. IsWritable (kept_in restored.value)) }
    ensures plays { IfOk result (λ restored.
        restored.plays ≡ plays_behind entry.now.kept (counts_shown (shown_of index snapshots.entry))) }
    ensures few_plays { IfOk result (λ restored. restored.plays < 2 ^ 32) }
    ensures shown { IfOk result (λ restored.
        All (ShowsPlayOf kit.now (kept_in restored.value).commands) (shown_of index snapshots.entry)
        → (HasItsSnapshots restored.value ↔ AreItsCounts kit.now (kept_in restored.value)
        (counts_then kit.now (kept_in restored.value) (counts_shown (shown_of index snapshots.entry))))) }
    ensures games { IfOk result (λ restored. All SpellsItsGame (shown_of index snapshots.entry)) }
    ensures refused { IfErr result (IsOrBreaks Damage.Kept (D.Honest disk.new → entry.now.kept ≤ MOST_KEPT
        → (state : TableState)
        → TellsTable entry.now (bytes_at (D.state disk.old).content chains.old index) (entry.now.name, state)
        → All (ShowsPlayOf kit.now state.commands) (shown_of index snapshots.entry)
        → IsPlayedTable kit.now state → ⊥)) }
    ensures only_reads { OnlyReads D.Disk disk.old disk.new chains.old chains.new result }
{
    let Restored { value, plays } = play_all(
        alloc, disk, kit, chains, index, entry.kept, snapshots,
    )?;
    let mut table = value;
    let floor = u64::from(entry.floor);
    if floor > table.turns() {
        return Err(Fault::Damaged(Damage::Kept));
    }
    table.resume(floor, entry.stamp);
    Ok(Restored {
        value: table,
        plays,
    })
}
