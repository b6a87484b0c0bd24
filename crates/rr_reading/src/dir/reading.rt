//! How the parts of a directory are read.
ghost use Rattle.std.specs.Prelude.{◌≡◌, ◌≢◌, None, ℕ, List, ◌<◌, ◌≤◌, ◌^◌, ◌++◌, ◌↔◌, length, All, AllPairs, Any, IsTrue, MatchOption, IfOk, IsErrOf};
ghost use Rattle.std.specs.List.{flat_map};
ghost use Rattle.rr_words.specs.Name.{IsTableName};
ghost use Rattle.rr_reading.specs.Dir.Directory.{Directory, IsDirectory, BeginsDirectory, BeginsKit, BeginsTables, Spells, directory_of, spelled_rest, spelled_chain, spelled_kit, spelled_name, spelled_state, spelled_table, spelled_tables, HasChains, FitsBytes, IsChain, IsKit, IsTable, AreTables, IsSnapshot, AreSnapshots, ComesBefore, spelled_snapshot, spelled_snapshots};
ghost use Rattle.rr_words.specs.Spelling.Number.{spelled_number};
ghost use Rattle.rr_reading.specs.declared.dir.directory.KitChains.{KitChains as OfKit};
ghost use Rattle.rr_reading.specs.declared.dir.directory.SnapshotEntry.{SnapshotEntry as OfSnapshot};
ghost use Rattle.rr_reading.specs.declared.dir.directory.TableEntry.{TableEntry as OfTable};
ghost use Rattle.rr_reading.specs.declared.dir.version.Version.TheVariants.{One, Two};

use crate::dir::directory::{
    ChainRef, Dir, KitChains, MOST_KEPT, MOST_SNAPSHOT_BYTES, MOST_SNAPSHOTS, MOST_TABLES,
    MOST_TEXT, SnapshotEntry, TableEntry,
};
use crate::dir::fault::Fault;
use rr_turns::LAST_STAMP;
use rr_words::Name;
use rr_words::spelling::Cursor;
use std::alloc::Global;

// A directory of version 1, with which the bytes end.
pub(crate) fn read_unbanked(alloc: Global, cursor: &mut Cursor) -> Result<Dir, Fault>
    ensures found { IfOk result (λ dir. Spells One cursor.old (directory_of dir)) }
    ensures damaged { IsErrOf result Fault.Damaged → (d : Directory) → Spells One cursor.old d → ⊥ }
    ensures memory { IsErrOf result Fault.OutOfMemory → BeginsDirectory One cursor.old }
{
    read_rest(alloc, cursor, None)
}

// A directory of version 2, which begins with the bank. The bytes end with it.
pub(crate) fn read_banked(alloc: Global, cursor: &mut Cursor) -> Result<Dir, Fault>
    ensures found { IfOk result (λ dir. Spells Two cursor.old (directory_of dir)) }
    ensures damaged { IsErrOf result Fault.Damaged → (d : Directory) → Spells Two cursor.old d → ⊥ }
    ensures memory { IsErrOf result Fault.OutOfMemory → BeginsDirectory Two cursor.old }
{
    let Some(bank) = cursor.u64() else {
        return Err(Fault::Damaged);
    };
    read_rest(alloc, cursor, Some(bank))
}

// What both versions have, after this bank or none. The bytes end with it.
fn read_rest(alloc: Global, cursor: &mut Cursor, bank: Option<u64>) -> Result<Dir, Fault>
    ensures found { IfOk result (λ dir. IsDirectory (directory_of dir) × (cursor.old ≡ spelled_rest (directory_of dir)) × (dir.bank ≡ bank)) }
    ensures damaged { IsErrOf result Fault.Damaged → (d : Directory) → IsDirectory d → cursor.old ≢ spelled_rest d }
    ensures memory { IsErrOf result Fault.OutOfMemory → BeginsKit cursor.old }
{
    let Some(kit) = next_kit(cursor) else {
        return Err(Fault::Damaged);
    };
    let tables = next_tables(alloc, cursor)?;
    let snapshots = last_snapshots(alloc, cursor, &tables)?;
    Ok(Dir {
        bank,
        kit,
        tables,
        snapshots,
    })
}

// The snapshots of these tables, with which the bytes end: none, where they end already.
fn last_snapshots(
    alloc: Global,
    cursor: &mut Cursor,
    tables: &[TableEntry],
) -> Result<Vec<SnapshotEntry>, Fault>
    requires { AreTables tables.now }
    ensures found { IfOk result (λ snapshots. AreSnapshots tables.now snapshots.items × (cursor.old ≡ spelled_snapshots snapshots.items)) }
    ensures damaged { IsErrOf result Fault.Damaged
        → (snapshots : List OfSnapshot) → AreSnapshots tables.now snapshots → cursor.old ≢ spelled_snapshots snapshots }
    ensures memory { IsErrOf result Fault.OutOfMemory → 1 ≤ length tables.now }
{
    if cursor.is_empty() {
        return Ok(Vec::new(alloc));
    }
    let Some(number) = next_snapshot_count(cursor) else {
        return Err(Fault::Damaged);
    };
    let snapshots = next_snapshots(alloc, cursor, tables, number)?;
    if !cursor.is_empty() {
        return Err(Fault::Damaged);
    }
    Ok(snapshots)
}

// So many snapshots of these tables, each behind the one before it.
fn next_snapshots(
    alloc: Global,
    cursor: &mut Cursor,
    tables: &[TableEntry],
    number: u16,
) -> Result<Vec<SnapshotEntry>, Fault>
    requires { AreTables tables.now }
    ensures found { IfOk result (λ snapshots. (length snapshots.items ≡ number) × All (IsSnapshot tables.now) snapshots.items
        × AllPairs ComesBefore snapshots.items × (cursor.old ≡ flat_map spelled_snapshot snapshots.items ++ cursor.new)) }
    ensures damaged { IsErrOf result Fault.Damaged
        → (snapshots : List OfSnapshot) (rest : List ℕ) → length snapshots ≡ number → All (IsSnapshot tables.now) snapshots
        → AllPairs ComesBefore snapshots → cursor.old ≢ flat_map spelled_snapshot snapshots ++ rest }
    ensures memory { IsErrOf result Fault.OutOfMemory → 1 ≤ length tables.now }
{
    let mut snapshots: Vec<SnapshotEntry> = Vec::new(alloc);
    for _ in 0..number {
        let Some(snapshot) = next_snapshot(cursor, tables) else {
            return Err(Fault::Damaged);
        };
        if !comes_behind(&snapshots, &snapshot) {
            return Err(Fault::Damaged);
        }
        snapshots.push(snapshot)?;
    }
    Ok(snapshots)
}

// A number of snapshots is at least one.
fn next_snapshot_count(cursor: &mut Cursor) -> Option<u16>
    ensures { MatchOption result
        ((number : ℕ) (rest : List ℕ) → 1 ≤ number → number ≤ MOST_SNAPSHOTS → cursor.old ≢ spelled_number 2 number ++ rest)
        (λ number. (1 ≤ number) × (number ≤ MOST_SNAPSHOTS) × (cursor.old ≡ spelled_number 2 number ++ cursor.new)) }
{
    let number = cursor.u16()?;
    if number != 0 && usize::from(number) <= MOST_SNAPSHOTS {
        Some(number)
    } else {
        None
    }
}

// Whether it may stand behind these, which rise: behind the last of them.
fn comes_behind(snapshots: &[SnapshotEntry], snapshot: &SnapshotEntry) -> bool
    ensures { AllPairs ComesBefore snapshots.now → (IsTrue result ↔ All (λ other. ComesBefore other snapshot.now) snapshots.now) }
{
    match snapshots.last() {
        None => true,
        Some(last) => comes_before(last, snapshot),
    }
}

fn comes_before(snapshot: &SnapshotEntry, other: &SnapshotEntry) -> bool
    ensures { IsTrue result ↔ ComesBefore snapshot.now other.now }
{
    if snapshot.table == other.table {
        snapshot.kept < other.kept
    } else {
        snapshot.table < other.table
    }
}

fn next_snapshot(cursor: &mut Cursor, tables: &[TableEntry]) -> Option<SnapshotEntry>
    requires { AreTables tables.now }
    ensures { MatchOption result
        ((snapshot : OfSnapshot) (rest : List ℕ) → IsSnapshot tables.now snapshot → cursor.old ≢ spelled_snapshot snapshot ++ rest)
        (λ snapshot. IsSnapshot tables.now snapshot × (cursor.old ≡ spelled_snapshot snapshot ++ cursor.new)) }
{
    let snapshot = next_snapshot_entry(cursor)?;
    let table = tables.get(usize::from(snapshot.table))?;
    if fits_table(&snapshot, table) {
        Some(snapshot)
    } else {
        None
    }
}

// Whether its table keeps as many commands as it plays, and it has no more bytes than it may.
fn fits_table(snapshot: &SnapshotEntry, table: &TableEntry) -> bool
    ensures { IsTrue result ↔ ((1 ≤ snapshot.now.kept) × (snapshot.now.kept ≤ table.now.kept) × (snapshot.now.chain.length ≤ MOST_SNAPSHOT_BYTES)) }
{
    1 <= snapshot.kept
        && snapshot.kept <= table.kept
        && snapshot.chain.length <= MOST_SNAPSHOT_BYTES
}

fn next_snapshot_entry(cursor: &mut Cursor) -> Option<SnapshotEntry>
    ensures { MatchOption result
        (length cursor.old < 18)
        (λ snapshot. (snapshot.table < 2 ^ 16) × (snapshot.kept < 2 ^ 32) × IsChain snapshot.chain
        × (cursor.old ≡ spelled_snapshot snapshot ++ cursor.new)) }
{
    let table = cursor.u16()?;
    let kept = cursor.u32()?;
    let chain = next_chain(cursor)?;
    Some(SnapshotEntry { table, kept, chain })
}

fn next_kit(cursor: &mut Cursor) -> Option<KitChains>
    ensures { MatchOption result
        ((kit : OfKit) (rest : List ℕ) → IsKit kit → cursor.old ≢ spelled_kit kit ++ rest)
        (λ kit. IsKit kit × (cursor.old ≡ spelled_kit kit ++ cursor.new)) }
{
    let kit = next_kit_chains(cursor)?;
    if are_texts(&kit) { Some(kit) } else { None }
}

fn are_texts(kit: &KitChains) -> bool
    ensures { IsTrue result ↔ ((kit.now.chart.length ≤ MOST_TEXT) × (kit.now.roster.length ≤ MOST_TEXT) × (kit.now.tiles.length ≤ MOST_TEXT) × (kit.now.board.length ≤ MOST_TEXT)) }
{
    kit.chart.length <= MOST_TEXT
        && kit.roster.length <= MOST_TEXT
        && kit.tiles.length <= MOST_TEXT
        && kit.board.length <= MOST_TEXT
}

fn next_kit_chains(cursor: &mut Cursor) -> Option<KitChains>
    ensures { MatchOption result (length cursor.old < 48) (λ kit. HasChains kit × (cursor.old ≡ spelled_kit kit ++ cursor.new)) }
{
    let chart = next_chain(cursor)?;
    let roster = next_chain(cursor)?;
    let tiles = next_chain(cursor)?;
    let board = next_chain(cursor)?;
    Some(KitChains {
        chart,
        roster,
        tiles,
        board,
    })
}

fn next_chain(cursor: &mut Cursor) -> Option<ChainRef>
    ensures { MatchOption result (length cursor.old < 12) (λ chain. IsChain chain × (cursor.old ≡ spelled_chain chain ++ cursor.new)) }
{
    let head = cursor.u64()?;
    let length = cursor.u32()?;
    Some(ChainRef { head, length })
}

fn next_tables(alloc: Global, cursor: &mut Cursor) -> Result<Vec<TableEntry>, Fault>
    ensures found { IfOk result (λ tables. AreTables tables.items × (cursor.old ≡ spelled_tables tables.items ++ cursor.new)) }
    ensures damaged { IsErrOf result Fault.Damaged
        → (tables : List OfTable) (rest : List ℕ) → AreTables tables → cursor.old ≢ spelled_tables tables ++ rest }
    ensures memory { IsErrOf result Fault.OutOfMemory → BeginsTables cursor.old }
{
    let Some(count) = next_count(cursor) else {
        return Err(Fault::Damaged);
    };
    let mut tables = Vec::new(alloc);
    for _ in 0..count {
        let Some(table) = next_table(cursor) else {
            return Err(Fault::Damaged);
        };
        if is_named(&tables, &table.name) {
            return Err(Fault::Damaged);
        }
        tables.push(table)?;
    }
    Ok(tables)
}

fn next_count(cursor: &mut Cursor) -> Option<u16>
    ensures { MatchOption result
        ((count : ℕ) (rest : List ℕ) → count ≤ MOST_TABLES → cursor.old ≢ spelled_number 2 count ++ rest)
        (λ count. (count ≤ MOST_TABLES) × (cursor.old ≡ spelled_number 2 count ++ cursor.new)) }
{
    let count = cursor.u16()?;
    if usize::from(count) <= MOST_TABLES {
        Some(count)
    } else {
        None
    }
}

fn is_named(tables: &[TableEntry], name: &Name) -> bool
    ensures { IsTrue result ↔ Any (λ table. table.name ≡ name.now) tables.now }
{
    tables.iter().any(|table| table.name == *name)
}

fn next_table(cursor: &mut Cursor) -> Option<TableEntry>
    ensures { MatchOption result
        ((table : OfTable) (rest : List ℕ) → IsTable table → cursor.old ≢ spelled_table table ++ rest)
        (λ table. IsTable table × (cursor.old ≡ spelled_table table ++ cursor.new)) }
{
    let name = next_name(cursor)?;
    let table = next_entry(cursor, name)?;
    if is_within_limits(&table) {
        Some(table)
    } else {
        None
    }
}

fn is_within_limits(table: &TableEntry) -> bool
    ensures { IsTrue result ↔ ((table.now.stamp ≤ LAST_STAMP) × (1 ≤ table.now.kept) × (table.now.kept ≤ MOST_KEPT)) }
{
    table.stamp <= LAST_STAMP && 1 <= table.kept && table.kept <= MOST_KEPT
}

fn next_name(cursor: &mut Cursor) -> Option<Name>
    ensures { MatchOption result
        ((name : List ℕ) (rest : List ℕ) → IsTableName name → cursor.old ≢ spelled_name name ++ rest)
        (λ name. IsTableName name × (cursor.old ≡ spelled_name name ++ cursor.new)) }
{
    let count = cursor.u8()?;
    let word = cursor.bytes(usize::from(count))?;
    let name = Name::table(word)?;
    Some(name)
}

// The rest of the table of this name.
fn next_entry(cursor: &mut Cursor, name: Name) -> Option<TableEntry>
    ensures { MatchOption result
        (length cursor.old < 28)
        (λ table. (table.name ≡ name) × FitsBytes table × (cursor.old ≡ spelled_state table ++ cursor.new)) }
{
    let stamp = cursor.u64()?;
    let floor = cursor.u32()?;
    let kept = cursor.u32()?;
    let chain = next_chain(cursor)?;
    Some(TableEntry {
        name,
        stamp,
        floor,
        kept,
        chain,
    })
}
