ghost use Rattle.std.specs.Prelude.{◌≡◌, ◌*◌, ◌<◌, ◌≤◌, ◌^◌, ℕ, List, not, length, IfOk, IfErr, IsErrOf};
ghost use Rattle.rr_checkpoint.specs.Writer.{free_of, place_of, taken_of, ticks_left_of};
ghost use Rattle.rr_disk.specs.Disk.{IsImage, counted};
ghost use Rattle.rr_disk.specs.Moments.{LeavesOnly};
ghost use Rattle.rr_images.specs.Codec.{IsExact};
ghost use Rattle.rr_images.specs.Layout.{Keeps, Stands};
ghost use Rattle.rr_log.specs.Opening.Carrying.{CarriesRead};
ghost use Rattle.rr_log.specs.Opening.Opened.{AreOfEntries, held_by};
ghost use Rattle.rr_log.specs.Opening.Place.{GoesBehind};
ghost use Rattle.rr_log.specs.Opening.Syncing.{IsSynced};
ghost use Rattle.rr_pages.specs.FreePages.{coming_of};
ghost use Rattle.rr_pages.specs.Journal.Layout.{other_half};
ghost use Rattle.rr_pages.specs.Journal.Reading.{lines};
ghost use Rattle.rr_pages.specs.Sets.{IsEmpty};
ghost use Rattle.rr_reading.specs.Faults.{CountsFault, IsNoVerdict, OnDeviceFault};
ghost use Rattle.rr_reading.specs.Held.{GoesOn, held_of};
ghost use Rattle.rr_reading.specs.Lending.Chains.{count_of};
ghost use Rattle.rr_pages.specs.declared.page.TheConstants.{PAGE_BYTES};
ghost use Rattle.rr_reading.specs.Laws.{NamesChains, SpellsForms};
ghost use Rattle.rr_reading.specs.Reading.{Holds, Refuses};

use crate::opening::Opened;
use crate::opening::place::next_place;
use crate::opening::standing::standing_snapshots;
use rr_checkpoint::Writer;
use rr_disk::Disk;
use rr_images::Codec;
use rr_pages::FreePages;
use rr_pages::journal::RecordBuffer;
use rr_reading::{Contents, Fault, read_file};
use std::alloc::Global;

/// Opens a store's file: one sync, and then reads alone.
///
/// What needs the rules of the game isn't judged here: whether the texts are a kit's, and whether the commands that are
/// kept and those of the records are lawful (clauses 6 and 7). A record that is damaged (clause 8,
/// `Opened::is_damaged`) comes behind these, and so doesn't refuse the file here: the caller judges all three, and
/// where one is broken drops the writer.
///
/// Records in the half that the root doesn't name tell that a checkpoint was begun there: the next record goes behind
/// them, and the checkpoint is to be made anew. Without one the next record goes on in the root's half.
///
/// # Errors
/// `Disk` where the sync failed, before anything was read, or a read did; where the disk works, neither does.
/// `NotAStore` and `Damaged` as `read_file` tells them, with the least of the clauses 1 to 5 that is broken. Else
/// `OutOfMemory` alone, and only where a root is taken. After each of them the bytes are as they were.
pub fn open_file<D: Disk, C: Codec>(alloc: Global, disk: &mut D) -> Result<Opened<C>, Fault>
    // What is given is what the file holds, and the next record goes behind it.
    ensures holds { IfOk result (λ opened. D.Honest disk.new → Holds (D.state disk.old).content (held_by (D.state disk.old).content opened)) }
    ensures snapshots { IfOk result (λ opened. D.Honest disk.new → AreOfEntries opened.dir.snapshots.items opened.snapshots.items) }
    ensures place { IfOk result (λ opened. D.Honest disk.new
        → GoesBehind (taken_of opened.writer).root (lines opened.near.records.items) (lines opened.far.records.items) (place_of opened.writer)) }
    // The near records are in the half that the root names, and the far ones in the other.
    ensures near { IfOk result (λ opened. GoesOn (taken_of opened.writer).root.half opened.near) }
    ensures far { IfOk result (λ opened. GoesOn (other_half (taken_of opened.writer).root.half) opened.far) }
    ensures resting { IfOk result (λ opened. ticks_left_of opened.writer ≡ 0) }
    ensures coming { IfOk result (λ opened. IsEmpty (coming_of (free_of opened.writer))) }
    // The pages of its tables' chains lie within the file.
    ensures within { IfOk result (λ opened. PAGE_BYTES * count_of opened.tables.chains ≤ D.file_len disk.old) }

    // Where the file is one of ours, the writer carries its world, by a layout that is what was read.
    ensures carries { IfOk result (λ opened. D.Honest disk.new → IsExact C.codec → NamesChains C.codec
        → (world : C.codec.World) → Keeps C.codec (D.state disk.old).content world
        → CarriesRead C.codec opened (D.state disk.new) world) }

    // Why it is refused; and one that stands for a world is refused only where the device failed or memory was wanted.
    ensures refused { IfErr result (λ fault. D.Honest disk.new → Refuses (D.state disk.old).content fault) }
    ensures only { IfErr result (λ fault. D.Honest disk.new → IsExact C.codec → NamesChains C.codec
        → SpellsForms C.codec → (world : C.codec.World) → Stands C.codec (D.state disk.old).content world
        → IsNoVerdict fault) }

    // It syncs once and writes nothing, so that a stop leaves only what it could leave before.
    ensures synced { D.Honest disk.new
        → IsSynced result (D.past disk.old) (D.state disk.old) (D.past disk.new) (D.state disk.new) }
    ensures stops { D.Honest disk.new
        → LeavesOnly (D.past disk.old) (D.state disk.old) (D.past disk.new) (D.state disk.new)
        (IsImage (D.state disk.old)) }
    ensures bytes { D.Honest disk.new → (D.state disk.new).content ≡ (D.state disk.old).content }
    ensures writes { D.write_count disk.new ≡ D.write_count disk.old }
    ensures syncs { D.sync_count disk.new ≡ counted (D.sync_count disk.old) }

    ensures fault { CountsFault (D.fault_count disk.old) (D.fault_count disk.new) result }
    ensures honest { D.Honest disk.new → D.Honest disk.old }
    ensures device { OnDeviceFault result (D.Works disk.new → ⊥) }
    ensures works { D.Works disk.new → D.Works disk.old }
    ensures same_len { D.file_len disk.new ≡ D.file_len disk.old }
{
    sync(disk)?;
    let contents = read_file(alloc, disk)?;
    let opened = begin::<C>(alloc, contents)?;
    Ok(opened)
}

fn sync<D: Disk>(disk: &mut D) -> Result<(), Fault>
    ensures synced { D.Honest disk.new
        → IsSynced result (D.past disk.old) (D.state disk.old) (D.past disk.new) (D.state disk.new) }
    ensures only { IfErr result IsNoVerdict }
    ensures memory { IsErrOf result Fault.OutOfMemory → ⊥ }
    ensures fault { CountsFault (D.fault_count disk.old) (D.fault_count disk.new) result }
    ensures writes { D.write_count disk.new ≡ D.write_count disk.old }
    ensures syncs { D.sync_count disk.new ≡ counted (D.sync_count disk.old) }
    ensures honest { D.Honest disk.new → D.Honest disk.old }
    ensures device { OnDeviceFault result (D.Works disk.new → ⊥) }
    ensures works { D.Works disk.new → D.Works disk.old }
    ensures same_len { D.file_len disk.new ≡ D.file_len disk.old }
{
    match disk.sync() {
        Ok(()) => Ok(()),
        Err(fault) => Err(Fault::Disk(fault)),
    }
}

// What an opening gives of a file with these contents.
fn begin<C: Codec>(alloc: Global, contents: Contents) -> Result<Opened<C>, Fault>
    requires near { GoesOn contents.taken.root.half contents.near }
    requires far { GoesOn (other_half contents.taken.root.half) contents.far }
    ensures taken { IfOk result (λ opened. taken_of opened.writer ≡ contents.taken) }
    ensures held { IfOk result (λ opened. length contents.dir.snapshots.items ≡ length contents.snapshots.items
        → (file : List ℕ) → held_by file opened ≡ held_of file contents) }
    ensures snapshots { IfOk result (λ opened. length contents.dir.snapshots.items ≡ length contents.snapshots.items
        → AreOfEntries opened.dir.snapshots.items opened.snapshots.items) }
    ensures place { IfOk result (λ opened. contents.taken.root.first < 2 ^ 63
        → GoesBehind contents.taken.root (lines contents.near.records.items) (lines contents.far.records.items) (place_of opened.writer)) }
    ensures near { IfOk result (λ opened. GoesOn contents.taken.root.half opened.near) }
    ensures far { IfOk result (λ opened. GoesOn (other_half contents.taken.root.half) opened.far) }
    ensures resting { IfOk result (λ opened. ticks_left_of opened.writer ≡ 0) }
    ensures coming { IfOk result (λ opened. IsEmpty (coming_of (free_of opened.writer))) }
    ensures pages { IfOk result (λ opened. count_of opened.tables.chains ≡ count_of contents.tables.chains) }
    ensures memory { IfErr result (λ fault. fault ≡ Fault.OutOfMemory) }
{
    let Contents {
        taken,
        dir,
        directory,
        texts,
        tables,
        snapshots,
        reached,
        near,
        far,
    } = contents;
    let place = next_place(&taken.root, &near, &far);
    let free = FreePages::new(alloc, reached)?;
    let buffer = RecordBuffer::new(alloc)?;
    let standing = standing_snapshots(alloc, &dir.snapshots, snapshots)?;
    Ok(Opened {
        writer: Writer::new(taken, place, free, buffer),
        dir,
        directory,
        texts,
        tables,
        snapshots: standing,
        near,
        far,
    })
}
