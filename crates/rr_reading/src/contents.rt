ghost use Rattle.std.specs.Prelude.{◌≡◌, ◌+◌, ◌*◌, ◌<◌, ◌≤◌, ◌++◌, Bool, true, not, length, map, drop, IfOk, IfErr};
ghost use Rattle.rr_pages.specs.Journal.Layout.{other_half};
ghost use Rattle.rr_reading.specs.Dir.Directory.{directory_of};
ghost use Rattle.rr_pages.specs.ReachedPages.{marks_of};
ghost use Rattle.rr_reading.specs.Chains.{held, held_in, all_held_in, AreOfForm};
ghost use Rattle.rr_reading.specs.Faults.{CountsFault, OnDeviceFault};
ghost use Rattle.rr_reading.specs.Held.{GoesOn, chains_held, chains_of, tables_in};
ghost use Rattle.rr_reading.specs.Lending.Chains.{all_of, count_of};
ghost use Rattle.rr_reading.specs.Lending.Fitting.{each_fits};
ghost use Rattle.rr_reading.specs.Reading.{TakesRoot, HoldsChains, Reads, Refuses};
ghost use Rattle.rr_reading.specs.Told.{RefusesForm};
ghost use Rattle.rr_pages.specs.declared.page.TheConstants.{PAGE_BYTES};

use crate::Fault;
use crate::chains::follow_chains;
use crate::dir::Dir;
use crate::directory::{FoundDirectory, read_directory};
use crate::forms::judge_forms;
use crate::lending::{Chains, Commands, JoiningBuffer};
use crate::named::{named_chains, take_texts};
use crate::records::{FoundRecords, read_records};
use crate::root::{page_count, read_root};
use crate::texts::{read_snapshots, read_texts};
use rr_disk::Disk;
use rr_pages::journal::Scanned;
use rr_pages::{FollowedChain, ReachedPages, ReadChain, Root, Taken};
use std::alloc::Global;

/// The chains of a kit's texts, whose bytes are the texts.
#[derive(Drop)]
pub struct KitTexts {
    pub chart: ReadChain,
    pub roster: ReadChain,
    pub tiles: ReadChain,
    pub board: ReadChain,
}

/// What a file holds.
#[derive(Drop)]
pub struct Contents {
    pub taken: Taken,
    pub dir: Dir,
    /// The directory's chain, whose bytes aren't kept.
    pub directory: FollowedChain,
    pub texts: KitTexts,
    /// The kept commands in the chain of each table, in the order of the directory: as many as that says.
    pub tables: Commands,
    /// The bytes of the snapshots, in the order of the directory. Whether they show games isn't judged.
    pub snapshots: Vec<ReadChain>,
    /// The pages of all these chains.
    pub reached: ReachedPages,
    /// The records in the half that the root names, and why they end.
    pub near: Scanned,
    /// Those in the other half, numbered on.
    pub far: Scanned,
}

// What the chains of a root hold.
#[derive(Drop)]
struct FoundChains {
    dir: Dir,
    directory: FollowedChain,
    texts: KitTexts,
    tables: Commands,
    snapshots: Vec<ReadChain>,
    reached: ReachedPages,
}

// What the chains that a directory names hold.
#[derive(Drop)]
struct FoundNamed {
    texts: KitTexts,
    tables: Commands,
    snapshots: Vec<ReadChain>,
}

/// Reads a store's file, as far as no rule of the game is needed. It writes nothing, and neither syncs.
///
/// # Errors
/// `NotAStore` where the file has fewer than 515 pages, no open root, or an open root of a version that isn't known;
/// else `Damaged` with the least clause that it breaks: of each open root, and then over all chains that can be found,
/// those of the directory and, where that can be read, of the texts, tables and snapshots that it names. A chain that
/// breaks off is judged as far as it goes. Else `Disk` or `OutOfMemory` alone: `Disk` never where the disk works, and
/// `OutOfMemory` only where a root is taken. A record that is damaged is told by the end of its half: texts that are
/// refused and commands that aren't lawful come before it.
pub fn read_file<D: Disk>(alloc: Global, disk: &mut D) -> Result<Contents, Fault>
    ensures read { D.Honest disk.new → Reads (D.state disk.old).content result }
    ensures near { IfOk result (λ contents. GoesOn contents.taken.root.half contents.near) }
    ensures far { IfOk result (λ contents. GoesOn (other_half contents.taken.root.half) contents.far) }
    ensures within { IfOk result (λ contents. PAGE_BYTES * count_of contents.tables.chains ≤ D.file_len disk.old) }
    ensures fault { CountsFault (D.fault_count disk.old) (D.fault_count disk.new) result }
    ensures honest { D.Honest disk.new → D.Honest disk.old }
    ensures same_state { D.Honest disk.new → D.state disk.new ≡ D.state disk.old }
    ensures same_past { D.Honest disk.new → D.past disk.new ≡ D.past disk.old }
    ensures writes { D.write_count disk.new ≡ D.write_count disk.old }
    ensures syncs { D.sync_count disk.new ≡ D.sync_count disk.old }
    ensures device { OnDeviceFault result (D.Works disk.new → ⊥) }
    ensures works { D.Works disk.new → D.Works disk.old }
    ensures same_len { D.file_len disk.new ≡ D.file_len disk.old }
{
    let taken = read_root(disk)?;
    let found = read_found(alloc, disk, &taken.root)?;
    let records = read_records(alloc, disk, &taken.root)?;
    let FoundChains {
        dir,
        directory,
        texts,
        tables,
        snapshots,
        reached,
    } = found;
    let FoundRecords { near, far } = records;
    Ok(Contents {
        taken,
        dir,
        directory,
        texts,
        tables,
        snapshots,
        reached,
        near,
        far,
    })
}

// Reads all chains of the root that is taken.
fn read_found<D: Disk>(alloc: Global, disk: &mut D, root: &Root) -> Result<FoundChains, Fault>
    ensures found { IfOk result (λ found. D.Honest disk.new → (side : Bool) → TakesRoot (D.state disk.old).content side root.now
        → HoldsChains (D.state disk.old).content side root.now (directory_of found.dir) (held_in (D.state disk.old).content found.directory)
        (chains_held found.texts) (tables_in (D.state disk.old).content found.tables) (map held found.snapshots.items)
        (marks_of found.reached)) }
    ensures refused { IfErr result (λ fault. D.Honest disk.new → (side : Bool) → TakesRoot (D.state disk.old).content side root.now
        → Refuses (D.state disk.old).content fault) }
    ensures pages { IfOk result (λ found. count_of found.tables.chains ≤ root.now.pages) }
    ensures fault { CountsFault (D.fault_count disk.old) (D.fault_count disk.new) result }
    ensures honest { D.Honest disk.new → D.Honest disk.old }
    ensures same_state { D.Honest disk.new → D.state disk.new ≡ D.state disk.old }
    ensures same_past { D.Honest disk.new → D.past disk.new ≡ D.past disk.old }
    ensures writes { D.write_count disk.new ≡ D.write_count disk.old }
    ensures syncs { D.sync_count disk.new ≡ D.sync_count disk.old }
    ensures device { OnDeviceFault result (D.Works disk.new → D.file_len disk.old < PAGE_BYTES * root.now.pages) }
    ensures works { D.Works disk.new → D.Works disk.old }
    ensures same_len { D.file_len disk.new ≡ D.file_len disk.old }
{
    let FoundDirectory {
        dir,
        chain,
        mut reached,
    } = read_directory(alloc, disk, root)?;
    let count = page_count(root.pages);
    let named = named_chains(alloc, &dir)?;
    let chains = follow_chains(alloc, disk, count, &mut reached, &named)?;
    let FoundNamed {
        texts,
        tables,
        snapshots,
    } = find_named(alloc, disk, count, &dir, chains)?;
    Ok(FoundChains {
        dir,
        directory: chain,
        texts,
        tables,
        snapshots,
        reached,
    })
}

// What is in the chains that a directory names, as they were followed.
fn find_named<D: Disk>(
    alloc: Global,
    disk: &mut D,
    count: u32,
    dir: &Dir,
    chains: Vec<FollowedChain>,
) -> Result<FoundNamed, Fault>
    requires many { length dir.now.tables.items + (length dir.now.snapshots.items + 4) ≡ length chains.items }
    requires fit { each_fits count chains.items ≡ true }
    ensures found { IfOk result (λ found. D.Honest disk.new → all_held_in (D.state disk.old).content chains.items
        ≡ chains_of (chains_held found.texts)
        (tables_in (D.state disk.old).content found.tables ++ map held found.snapshots.items)) }
    ensures counted { IfOk result (λ found. D.Honest disk.new
        → length (tables_in (D.state disk.old).content found.tables) ≡ length dir.now.tables.items) }
    ensures forms { IfOk result (λ found. D.Honest disk.new
        → AreOfForm dir.now.tables.items (tables_in (D.state disk.old).content found.tables)) }
    ensures pages { IfOk result (λ found. count_of found.tables.chains ≡ count) }
    ensures refused { IfErr result (λ fault. D.Honest disk.new
        → RefusesForm fault (AreOfForm dir.now.tables.items (all_held_in (D.state disk.old).content (drop 4 chains.items)))) }
    ensures fault { CountsFault (D.fault_count disk.old) (D.fault_count disk.new) result }
    ensures honest { D.Honest disk.new → D.Honest disk.old }
    ensures same_state { D.Honest disk.new → D.state disk.new ≡ D.state disk.old }
    ensures same_past { D.Honest disk.new → D.past disk.new ≡ D.past disk.old }
    ensures writes { D.write_count disk.new ≡ D.write_count disk.old }
    ensures syncs { D.sync_count disk.new ≡ D.sync_count disk.old }
    ensures device { OnDeviceFault result (D.Works disk.new → D.file_len disk.old < PAGE_BYTES * count) }
    ensures works { D.Works disk.new → D.Works disk.old }
    ensures same_len { D.file_len disk.new ≡ D.file_len disk.old }
{
    let mut chains = chains;
    let followed = take_texts(&mut chains);
    let texts = read_texts(alloc, disk, &followed)?;
    let of_snapshots = chains.split_off(dir.tables.len())?;
    let mut tables = lend(alloc, count, chains)?;
    judge_forms(disk, &dir.tables, &mut tables)?;
    let snapshots = read_snapshots(alloc, disk, &of_snapshots)?;
    Ok(FoundNamed {
        texts,
        tables,
        snapshots,
    })
}

fn lend(alloc: Global, count: u32, chains: Vec<FollowedChain>) -> Result<Commands, Fault>
    requires { each_fits count chains.items ≡ true }
    ensures all { IfOk result (λ tables. all_of tables.chains ≡ chains.items) }
    ensures pages { IfOk result (λ tables. count_of tables.chains ≡ count) }
    ensures memory { IfErr result (λ fault. fault ≡ Fault.OutOfMemory) }
{
    let chains = Chains::new(alloc, count, chains)?;
    let joined = JoiningBuffer::new(alloc)?;
    Ok(Commands::new(chains, joined))
}
