// The chains that a directory names: those of the texts, then of each table, and of each snapshot.
ghost use Rattle.std.specs.Prelude.{◌≡◌, ◌+◌, ◌≤◌, ◌++◌, length, map, IfOk, IfErr, OnOk};
ghost use Rattle.rr_reading.specs.Dir.Directory.{directory_of};
ghost use Rattle.rr_reading.specs.Dir.Heads.{head_of, heads_of};
ghost use Rattle.rr_reading.specs.Texts.{named_after};
ghost use Rattle.rr_reading.specs.declared.dir.directory.SnapshotEntry.{SnapshotEntry as OfSnapshot};
ghost use Rattle.rr_reading.specs.declared.dir.directory.TableEntry.{TableEntry as OfTable};

use crate::Fault;
use crate::dir::{ChainRef, Dir, SnapshotEntry, TableEntry};
use rr_pages::FollowedChain;
use std::alloc::Global;

// Where they stand.
pub(crate) fn named_chains(alloc: Global, dir: &Dir) -> Result<Vec<ChainRef>, Fault>
    ensures heads { IfOk result (λ chains. map head_of chains.items ≡ heads_of (directory_of dir.now)) }
    ensures each { IfOk result (λ chains. length chains.items ≡ length dir.now.tables.items + (length dir.now.snapshots.items + 4)) }
    ensures memory { IfErr result (λ fault. fault ≡ Fault.OutOfMemory) }
{
    let kit = dir.kit;
    let mut chains = vec![in alloc; kit.chart, kit.roster, kit.tiles, kit.board]?;
    add_tables(&mut chains, &dir.tables)?;
    add_snapshots(&mut chains, &dir.snapshots)?;
    Ok(chains)
}

fn add_tables(chains: &mut Vec<ChainRef>, tables: &[TableEntry]) -> Result<(), Fault>
    ensures heads { OnOk result (map head_of chains.new.items
        ≡ map head_of chains.old.items ++ map (λ (table : OfTable). head_of table.chain) tables.now) }
    ensures each { OnOk result (length chains.new.items ≡ length chains.old.items + length tables.now) }
    ensures memory { IfErr result (λ fault. fault ≡ Fault.OutOfMemory) }
{
    for table in tables {
        chains.push(table.chain)?;
    }
    Ok(())
}

fn add_snapshots(chains: &mut Vec<ChainRef>, snapshots: &[SnapshotEntry]) -> Result<(), Fault>
    ensures heads { OnOk result (map head_of chains.new.items
        ≡ map head_of chains.old.items ++ map (λ (snapshot : OfSnapshot). head_of snapshot.chain) snapshots.now) }
    ensures each { OnOk result (length chains.new.items ≡ length chains.old.items + length snapshots.now) }
    ensures memory { IfErr result (λ fault. fault ≡ Fault.OutOfMemory) }
{
    for snapshot in snapshots {
        chains.push(snapshot.chain)?;
    }
    Ok(())
}

// The chains of a kit's texts, as they were followed.
#[derive(Drop)]
pub(crate) struct FollowedTexts {
    pub(crate) chart: FollowedChain,
    pub(crate) roster: FollowedChain,
    pub(crate) tiles: FollowedChain,
    pub(crate) board: FollowedChain,
}

// Takes the texts' chains from the front of all, and leaves the others.
pub(crate) fn take_texts(chains: &mut Vec<FollowedChain>) -> FollowedTexts
    requires { 4 ≤ length chains.old.items }
    ensures { chains.old.items ≡ named_after result chains.new.items }
{
    let chart = chains.remove(0);
    let roster = chains.remove(0);
    let tiles = chains.remove(0);
    let board = chains.remove(0);
    FollowedTexts {
        chart,
        roster,
        tiles,
        board,
    }
}
