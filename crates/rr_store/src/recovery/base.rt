//! The tables of a root before its records: what was read is taken as it comes, and where it is refused, it is asked
//! first whether the file's form is broken.
ghost use Rattle.std.specs.Prelude.{◌↔◌, ◌*◌, ◌^◌, ◌≤◌, IfOk, IfErr, IsTrue};
ghost use Rattle.rr_kit.specs.Kits.{SpellsKit};
ghost use Rattle.rr_reading.specs.declared.dir.directory.TheConstants.{MOST_TABLES};
ghost use Rattle.rr_reading.specs.Held.{TextChains, chains_held};
ghost use Rattle.rr_store.specs.Recovery.Base.{IsOfDirectory, IsRightBase, IsWellFormed, RefusesBase, TellsInPlace, named_by};
ghost use Rattle.rr_store.specs.Recovery.Fault.{IsOfDevice};
ghost use Rattle.rr_store.specs.Recovery.Reading.{OnlyReads, OnlyReadsTold};
ghost use Rattle.rr_store.specs.Recovery.Shown.{AreShown, shown_of};
ghost use Rattle.rr_store.specs.Recovery.Texts.{texts_in};
ghost use Rattle.rr_store.specs.Replayed.{PlaysTables, counts_shown};
ghost use Rattle.rr_tables.specs.Records.Played.{ArePlayedTables};
ghost use Rattle.rr_tables.specs.Tables.{ArePlayed, HaveTheirSnapshots, world_of};

use crate::recovery::Fault;
use crate::recovery::plays::Restored;
use crate::recovery::shown::{Snapshots, tell_games};
use crate::recovery::tables::restore_tables;
use crate::recovery::texts::{read_kit, tell_bank};
use crate::recovery::words::tell_words;
use rr_disk::Disk;
use rr_pages::Damage;
use rr_reading::KitTexts;
use rr_reading::dir::TableEntry;
use rr_reading::lending::Commands;
use rr_tables::Tables;
use std::alloc::Global;

/// The tables of the root, before its records. Each kept command is read once, and again where snapshots lack, or a
/// refused file is asked for its form.
pub(crate) fn recover_base<D: Disk>(
    alloc: Global,
    disk: &mut D,
    entries: &[TableEntry],
    texts: &KitTexts,
    bank: Option<u64>,
    chains: &mut Commands,
    snapshots: Snapshots,
) -> Result<Restored<Tables>, Fault>
    ensures right { IfOk result (λ restored. D.Honest disk.new
        → IsOfDirectory (named_by (D.state disk.old).content bank (chains_held texts.now) entries.now chains.old snapshots.entry)
        → IsRightBase (named_by (D.state disk.old).content bank (chains_held texts.now) entries.now chains.old snapshots.entry)
        (chains_held texts.now) restored.value.kit (world_of restored.value)) }
    // Where each snapshot shows the play of the commands before it, each table was played.
    ensures played { IfOk result (λ restored. AreShown restored.value.kit snapshots.entry (world_of restored.value)
        → ArePlayed restored.value × ArePlayedTables restored.value.kit (world_of restored.value)) }
    ensures snapshots { IfOk result (λ restored. HaveTheirSnapshots restored.value) }
    ensures kit { IfOk result (λ restored. SpellsKit (texts_in (chains_held texts.now)) restored.value.kit) }
    ensures plays { IfOk result (λ restored. D.Honest disk.new
        → AreShown restored.value.kit snapshots.entry (world_of restored.value)
        → PlaysTables restored.value.kit (λ place. counts_shown (shown_of place snapshots.entry)) 0
        (world_of restored.value) restored.plays) }
    ensures few_plays { IfOk result (λ restored. restored.plays ≤ MOST_TABLES * 2 ^ 33) }
    ensures refused { IfErr result (λ fault. D.Honest disk.new
        → IsOfDirectory (named_by (D.state disk.old).content bank (chains_held texts.now) entries.now chains.old snapshots.entry)
        → RefusesBase (named_by (D.state disk.old).content bank (chains_held texts.now) entries.now chains.old snapshots.entry)
        (chains_held texts.now) fault) }
    ensures only_reads { OnlyReads D.Disk disk.old disk.new chains.old chains.new result }
{
    match restore_base(alloc, disk, entries, texts, bank, chains, snapshots) {
        Ok(restored) => Ok(restored),
        Err(Fault::Disk(fault)) => Err(Fault::Disk(fault)),
        Err(Fault::Damaged(damage)) => {
            let refused = Fault::Damaged(damage);
            Err(refusal(
                alloc, disk, entries, texts, bank, chains, snapshots, refused,
            ))
        }
        Err(Fault::OutOfMemory) => {
            let refused = Fault::OutOfMemory;
            Err(refusal(
                alloc, disk, entries, texts, bank, chains, snapshots, refused,
            ))
        }
    }
}

/// The same of a file whose form is right.
fn restore_base<D: Disk>(
    alloc: Global,
    disk: &mut D,
    entries: &[TableEntry],
    texts: &KitTexts,
    bank: Option<u64>,
    chains: &mut Commands,
    snapshots: Snapshots,
) -> Result<Restored<Tables>, Fault>
    ensures right { IfOk result (λ restored. D.Honest disk.new
        → IsOfDirectory (named_by (D.state disk.old).content bank (chains_held texts.now) entries.now chains.old snapshots.entry)
        → IsRightBase (named_by (D.state disk.old).content bank (chains_held texts.now) entries.now chains.old snapshots.entry)
        (chains_held texts.now) restored.value.kit (world_of restored.value)) }
    ensures played { IfOk result (λ restored. AreShown restored.value.kit snapshots.entry (world_of restored.value)
        → ArePlayed restored.value × ArePlayedTables restored.value.kit (world_of restored.value)) }
    ensures snapshots { IfOk result (λ restored. HaveTheirSnapshots restored.value) }
    ensures kit { IfOk result (λ restored. SpellsKit (texts_in (chains_held texts.now)) restored.value.kit) }
    ensures plays { IfOk result (λ restored. D.Honest disk.new
        → AreShown restored.value.kit snapshots.entry (world_of restored.value)
        → PlaysTables restored.value.kit (λ place. counts_shown (shown_of place snapshots.entry)) 0
        (world_of restored.value) restored.plays) }
    ensures few_plays { IfOk result (λ restored. restored.plays ≤ MOST_TABLES * 2 ^ 33) }
    // Whether the form is right isn't told.
    ensures refused { IfErr result (λ fault. D.Honest disk.new
        → IsOfDirectory (named_by (D.state disk.old).content bank (chains_held texts.now) entries.now chains.old snapshots.entry)
        → IsWellFormed (named_by (D.state disk.old).content bank (chains_held texts.now) entries.now chains.old snapshots.entry)
        → RefusesBase (named_by (D.state disk.old).content bank (chains_held texts.now) entries.now chains.old snapshots.entry)
        (chains_held texts.now) fault) }
    ensures only_reads { OnlyReads D.Disk disk.old disk.new chains.old chains.new result }
{
    let kit = read_kit(alloc, texts, bank)?;
    let restored = restore_tables(alloc, disk, kit, entries, chains, snapshots)?;
    Ok(restored)
}

/// What is told where the tables are refused with a fault that isn't the device's: a broken form comes before it.
fn refusal<D: Disk>(
    alloc: Global,
    disk: &mut D,
    entries: &[TableEntry],
    texts: &KitTexts,
    bank: Option<u64>,
    chains: &mut Commands,
    snapshots: Snapshots,
    refused: Fault,
) -> Fault
    requires { IsOfDevice refused → ⊥ }
    ensures told { D.Honest disk.new
        → IsOfDirectory (named_by (D.state disk.old).content bank (chains_held texts.now) entries.now chains.old snapshots.entry)
        → TellsInPlace (named_by (D.state disk.old).content bank (chains_held texts.now) entries.now chains.old snapshots.entry) refused result }
    ensures only_reads { OnlyReadsTold D.Disk disk.old disk.new chains.old chains.new result }
{
    match tell_form(alloc, disk, entries, texts, bank, chains, snapshots) {
        Ok(true) => refused,
        Ok(false) => Fault::Damaged(Damage::Form),
        Err(fault) => fault,
    }
}

/// Whether the kept words are those of lines, and each snapshot is a game that has played as many commands as it tells.
fn tell_form<D: Disk>(
    alloc: Global,
    disk: &mut D,
    entries: &[TableEntry],
    texts: &KitTexts,
    bank: Option<u64>,
    chains: &mut Commands,
    snapshots: Snapshots,
) -> Result<bool, Fault>
    ensures told { IfOk result (λ told. D.Honest disk.new
        → IsOfDirectory (named_by (D.state disk.old).content bank (chains_held texts.now) entries.now chains.old snapshots.entry)
        → (IsTrue told ↔ IsWellFormed (named_by (D.state disk.old).content bank (chains_held texts.now) entries.now chains.old snapshots.entry))) }
    // Memory is wanted behind right words alone.
    ensures refused { IfErr result (λ fault. D.Honest disk.new → (others : TextChains)
        → RefusesBase (named_by (D.state disk.old).content bank (chains_held texts.now) entries.now chains.old snapshots.entry) others fault) }
    ensures only_reads { OnlyReads D.Disk disk.old disk.new chains.old chains.new result }
{
    let told = tell_words(disk, entries, chains)?;
    if !told {
        return Ok(false);
    }
    let games = tell_games(snapshots)?;
    if !games {
        return Ok(false);
    }
    let banked = tell_bank(alloc, texts, bank)?;
    Ok(banked)
}
