//! Opening a file: after one sync its bytes are read, and its tables are recovered by the rules of the game.
ghost use Rattle.std.specs.Prelude.{◌≡◌, false, IfOk, IfErr, None, Ok, Err};
ghost use Rattle.rr_checkpoint.specs.Writer as writer;
ghost use Rattle.rr_disk.specs.Disk.{DiskState, counted};
ghost use Rattle.rr_images.specs.Layout.{Keeps as KeepsFile};
ghost use Rattle.rr_kit.specs.declared.kit.Kit.{Kit as AnyKit};
ghost use Rattle.rr_kit.specs.Kits.{KitTexts, SpellsKit};
ghost use Rattle.rr_log.specs.Opening.Carrying.{CarriesRead};
ghost use Rattle.rr_log.specs.Opening.Place.{GoesBehind};
ghost use Rattle.rr_log.specs.Opening.Syncing.{WasSynced};
ghost use Rattle.rr_pages.specs.Journal.Reading.{lines};
ghost use Rattle.rr_tables.specs.Records.Headline.{KeepsTables};
ghost use Rattle.rr_tables.specs.Records.Taking.{table_files};
ghost use Rattle.rr_tables.specs.Records.World.{World};
ghost use Rattle.rr_tables.specs.Records.Words.{in_words};
ghost use Rattle.rr_tables.specs.Tables.{ArePlayed, HaveTheirSnapshots, world_of};
ghost use Rattle.rr_reading.specs.Worlds.World as words;
ghost use Rattle.rr_store.specs.Allowing.{Between};
ghost use Rattle.rr_store.specs.Fault.{CountsEnd, CountsFailure, OnDevice, OnDeviceFault};
ghost use Rattle.rr_store.specs.Files.{AreTablesOf, StandsFor};
ghost use Rattle.rr_store.specs.Holding.{Carries, GamesArePlayed, GamesHaveSnapshots, disk_of, file_of, held_of, put_off_of, replayed_of, ticks_left};
ghost use Rattle.rr_store.specs.Named.{NamesComing, NamesRoots, NamesSnapshots, SnapshotsAreShort};
ghost use Rattle.rr_store.specs.Opening.{IsFound, IsNoVerdict, IsSyncedFirst, OpenAllows, Refuses};
ghost use Rattle.rr_store.specs.Replayed.{ReplaysFile};

use crate::fault::Fault;
use crate::found::Found;
use crate::journal::FileJournal;
use crate::recovery::{Recovered, recover};
use crate::store::Store;
use rr_disk::Disk;
use rr_log::Log;
use rr_log::opening::{Opened, open_file};
use rr_reading::worlds::Worlds;
use rr_tables::records::TableRules;
use rr_words::LONGEST_LINE;
use std::alloc::Global;

/// Why a file couldn't be opened, and the disk, whose bytes are as they were.
#[derive(Drop)]
pub struct Refused<D: Drop> {
    pub fault: Fault,
    pub disk: D,
}

/// Opens a file that `format` made. It makes a sync, and no write. The file's snapshots are trusted: the commands before
/// one aren't judged. A table that was played on from its last one and still has others than it is to have, as of a file
/// of a program that wrote fewer, is played once more, from its opening.
///
/// # Errors
/// `DeviceFailed`; `NotAStore` if the file is too short, has no open root, or has one of another version than 1 and 2;
/// `Damaged` with the least clause that it breaks: 1 to 5 of its bytes, 5 also if kept words are no request's, a snapshot
/// is no game, or the directory says another bank than the roster; 6 if a text of the kit is wrong, or the roster of a
/// directory of version 1 names a bank; 7 if a table keeps what wasn't played or a floor above its turns; and 8 if a
/// record isn't a request that its table could take. Of a file with a snapshot that shows another game than its commands
/// play, either of the last two may be returned. Else `OutOfMemory` alone, and only if a root is taken.
pub fn open<D: Disk + Drop>(alloc: Global, disk: D) -> Result<Store<D>, Refused<D>>
    // The store holds the world for which the file stands; it stands for one, unless a snapshot shows another game than
    // its commands play. Else the file breaks a clause, or the device failed or memory was wanted. Whatever is answered,
    // the sync was made, unless the device failed.
    ensures opened { IfOk result (λ store. D.Honest (disk_of store) → (texts : KitTexts)
        × Between (D.past disk) (D.state disk) (D.past (disk_of store)) (D.state (disk_of store))
        (λ moments. OpenAllows (D.state disk) moments (D.state (disk_of store)) (Ok (texts, (held_of store).tables)))
        × SpellsKit texts (held_of store).kit) }
    ensures left { IfErr result (λ refused. D.Honest refused.disk
        → Between (D.past disk) (D.state disk) (D.past refused.disk) (D.state refused.disk)
        (λ moments. OpenAllows (D.state disk) moments (D.state refused.disk) (Err refused.fault))) }

    // Where the file is one of ours, the store goes on with it.
    ensures carries { IfOk result (λ store. D.Honest (disk_of store) → (texts : KitTexts)
        → KeepsTables texts (held_of store).tables (D.state disk).content → Carries D.state store texts) }

    // And then it is refused only where the device failed or memory was wanted.
    ensures only { IfErr result (λ refused. D.Honest refused.disk → (texts : KitTexts) (kit : AnyKit) (tables : World)
        → SpellsKit texts kit → AreTablesOf kit tables
        → KeepsTables texts tables (D.state disk).content → IsNoVerdict refused.fault) }

    // Whatever the disk gave, the kit is a right one.
    ensures kit { IfOk result (λ store. (texts : KitTexts) × SpellsKit texts (held_of store).kit) }

    // And where the file stands for a world, each table in memory was played: its game is the play of the commands that
    // it keeps.
    ensures played { IfOk result (λ store. D.Honest (disk_of store) → (texts : KitTexts) (tables : World)
        → StandsFor (D.state disk).content texts tables → GamesArePlayed store) }

    // Each has its snapshots then, whichever the file has.
    ensures snapshots { IfOk result (λ store. D.Honest (disk_of store) → (texts : KitTexts) (tables : World)
        → StandsFor (D.state disk).content texts tables → GamesHaveSnapshots store) }

    // Where no snapshot of the kit is too long for a file, the next root is to name just the snapshots that its tables are
    // to have, also that of a checkpoint found begun;
    ensures comes { IfOk result (λ store. D.Honest (disk_of store) → (texts : KitTexts)
        → KeepsTables texts (held_of store).tables (D.state disk).content → SnapshotsAreShort (held_of store).kit
        → NamesComing D.state store texts) }
    // and where the file's root names just these, as a new file's does, so does the store's.
    ensures names { IfOk result (λ store. D.Honest (disk_of store) → (texts : KitTexts)
        → KeepsTables texts (held_of store).tables (D.state disk).content → SnapshotsAreShort (held_of store).kit
        → NamesSnapshots (held_of store).kit (D.state disk).content → NamesRoots D.state store texts) }

    // And for that so many commands are played.
    ensures replayed { IfOk result (λ store. D.Honest (disk_of store) → (texts : KitTexts) (tables : World)
        → StandsFor (D.state disk).content texts tables
        → ReplaysFile (D.state disk).content (held_of store).kit (replayed_of store)) }
    // No commit put off a checkpoint yet.
    ensures put_off { IfOk result (λ store. put_off_of store ≡ None) }
    ensures whole { IfOk result (λ store. (held_of store).broken ≡ false) }
    ensures honest { IfOk result (λ store. D.Honest (disk_of store) → D.Honest disk) }
    ensures honest_left { IfErr result (λ refused. D.Honest refused.disk → D.Honest disk) }
    ensures works { IfOk result (λ store. D.Works (disk_of store) → D.Works disk) }
    ensures works_left { IfErr result (λ refused. D.Works refused.disk → D.Works disk) }
    ensures writes { IfOk result (λ store. D.write_count (disk_of store) ≡ D.write_count disk) }
    ensures writes_left { IfErr result (λ refused. D.write_count refused.disk ≡ D.write_count disk) }
    ensures syncs { IfOk result (λ store. D.sync_count (disk_of store) ≡ counted (D.sync_count disk)) }
    ensures syncs_left { IfErr result (λ refused. D.sync_count refused.disk ≡ counted (D.sync_count disk)) }
    ensures no_fault { IfOk result (λ store. D.fault_count (disk_of store) ≡ D.fault_count disk) }
    ensures device { IfErr result (λ refused. OnDevice refused.fault (D.Works refused.disk → ⊥)) }
    ensures fault { IfErr result (λ refused.
        CountsFailure (D.fault_count disk) (D.fault_count refused.disk) refused.fault) }
{
    let mut disk = disk;
    match find(alloc, &mut disk) {
        Ok(found) => Ok(begin(alloc, disk, found)),
        Err(fault) => Err(Refused { fault, disk }),
    }
}

/// Reads the file behind a sync, and recovers its tables.
fn find<D: Disk>(alloc: Global, disk: &mut D) -> Result<Found, Fault>
    ensures found { IfOk result (λ found. D.Honest disk.new → IsFound (D.state disk.old).content found) }
    ensures kit { IfOk result (λ found. (texts : KitTexts) × SpellsKit texts found.recovered.tables.kit) }
    ensures replayed { IfOk result (λ found. D.Honest disk.new → (texts : KitTexts) (tables : World)
        → StandsFor (D.state disk.old).content texts tables
        → ReplaysFile (D.state disk.old).content found.recovered.tables.kit found.recovered.replayed) }
    ensures goes_on { IfOk result (λ found. D.Honest disk.new → (world : words.World)
        → KeepsFile table_files (D.state disk.old).content world
        → CarriesRead table_files found.opened (D.state disk.new) world) }
    ensures place { IfOk result (λ found. D.Honest disk.new → GoesBehind (writer.taken_of found.opened.writer).root
        (lines found.opened.near.records.items) (lines found.opened.far.records.items)
        (writer.place_of found.opened.writer)) }
    ensures resting { IfOk result (λ found. writer.ticks_left_of found.opened.writer ≡ 0) }
    ensures synced { IfOk result (λ found. D.Honest disk.new
        → WasSynced (D.past disk.old) (D.state disk.old) (D.past disk.new) (D.state disk.new)) }
    ensures left { IfErr result (λ fault. D.Honest disk.new
        → IsSyncedFirst fault (D.past disk.old) (D.state disk.old) (D.past disk.new) (D.state disk.new)) }
    ensures refused { IfErr result (λ fault. D.Honest disk.new → Refuses (D.state disk.old).content fault) }
    ensures only { IfErr result (λ fault. D.Honest disk.new → (texts : KitTexts) (kit : AnyKit) (tables : World)
        → SpellsKit texts kit → AreTablesOf kit tables
        → KeepsTables texts tables (D.state disk.old).content → IsNoVerdict fault) }
    ensures device { OnDeviceFault result (D.Works disk.new → ⊥) }
    ensures fault { CountsEnd (D.fault_count disk.old) (D.fault_count disk.new) result }
    ensures writes { D.write_count disk.new ≡ D.write_count disk.old }
    ensures syncs { D.sync_count disk.new ≡ counted (D.sync_count disk.old) }
    ensures honest { D.Honest disk.new → D.Honest disk.old }
    ensures works { D.Works disk.new → D.Works disk.old }
{
    let mut opened = open_file::<D, Worlds<TableRules>>(alloc, disk)?;
    let recovered = recover::<D, TableRules>(alloc, disk, &mut opened)?;
    let found = with_buffer(alloc, opened, recovered)?;
    Ok(found)
}

/// The same with room for a line.
fn with_buffer(
    alloc: Global,
    opened: Opened<Worlds<TableRules>>,
    recovered: Recovered,
) -> Result<Found, Fault>
    ensures found { IfOk result (λ found. (found.opened ≡ opened) × (found.recovered ≡ recovered)) }
    ensures memory { IfErr result (λ fault. fault ≡ Fault.OutOfMemory) }
{
    let buffer = make_buffer(alloc)?;
    Ok(Found {
        opened,
        recovered,
        buffer,
    })
}

fn make_buffer(alloc: Global) -> Result<Vec<u8>, Fault>
    ensures { IfErr result (λ fault. fault ≡ Fault.OutOfMemory) }
{
    let buffer = Vec::with_capacity(alloc, LONGEST_LINE)?;
    Ok(buffer)
}

/// The store of what was found on this disk.
fn begin<D: Disk + Drop>(alloc: Global, disk: D, found: Found) -> Store<D>
    ensures disk { disk_of result ≡ disk }
    ensures kit { (held_of result).kit ≡ found.recovered.tables.kit }
    ensures tables { (held_of result).tables ≡ world_of found.recovered.tables }
    ensures replayed { replayed_of result ≡ found.recovered.replayed }
    ensures whole { (held_of result).broken ≡ false }
    ensures carries { (texts : KitTexts) → IsFound (D.state disk).content found
        → writer.ticks_left_of found.opened.writer ≡ 0
        → GoesBehind (writer.taken_of found.opened.writer).root (lines found.opened.near.records.items)
        (lines found.opened.far.records.items) (writer.place_of found.opened.writer)
        → CarriesRead table_files found.opened (D.state disk) (in_words texts (world_of found.recovered.tables))
        → Carries D.state result texts }
    ensures put_off { put_off_of result ≡ None }
    ensures resting { ticks_left result ≡ writer.ticks_left_of found.opened.writer }
    ensures base { (file_of result).base ≡ found.recovered.base }
    ensures played { ArePlayed found.recovered.tables → GamesArePlayed result }
    ensures snapshots { HaveTheirSnapshots found.recovered.tables → GamesHaveSnapshots result }
{
    let Found {
        opened,
        recovered,
        buffer,
    } = found;
    let Recovered {
        tables,
        kit,
        base,
        replayed,
    } = recovered;
    let Opened {
        writer,
        dir: _,
        directory: _,
        texts: _,
        tables: _,
        snapshots,
        near: _,
        far: _,
    } = opened;
    let file = Log::new(alloc, disk, writer, kit, snapshots, base);
    Store {
        alloc,
        journal: FileJournal {
            file,
            buffer,
            put_off: None,
        },
        tables,
        replayed,
    }
}
