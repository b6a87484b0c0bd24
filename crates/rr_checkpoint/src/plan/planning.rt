ghost use Rattle.std.specs.Prelude.{◌≡◌, ◌⊎◌, ℕ, ◌+◌, ◌^◌, ◌<◌, ◌≤◌, Bool, List, length, map, IfOk, IfErr, IsErrOf, OnErr};
ghost use Rattle.rr_checkpoint.specs.Planning.{MayBegin, coming_root_of};
ghost use Rattle.rr_checkpoint.specs.Writer.{Carries, free_of, place_of, taken_of, ticks_left_of};
ghost use Rattle.rr_reading.specs.Dir.Directory.{directory_of, spelling};
ghost use Rattle.rr_disk.specs.Disk.{DiskState};
ghost use Rattle.rr_pages.specs.FreePages.{present_of, coming_of};
ghost use Rattle.rr_pages.specs.Sets.{IsEmpty, TakesFree, TooFewFree, all_marked};
ghost use Rattle.rr_reading.specs.Reading.{NoneReached};
ghost use Rattle.rr_checkpoint.specs.Plan.Laying.{fresh_pages, needed_pages};
ghost use Rattle.rr_checkpoint.specs.Plan.Planning.{IsOfLayout, HoldsAll};
ghost use Rattle.rr_checkpoint.specs.Plan.Standing.{StandIn, standing_as, staying_pages};
ghost use Rattle.rr_checkpoint.specs.Plan.Transcript.{snapshots_of, tables_of};
ghost use Rattle.rr_checkpoint.specs.Plan.Writing.{OnlyTakes};
ghost use Rattle.rr_reading.specs.Worlds.Spelling.{worlds};
ghost use Rattle.rr_reading.specs.Worlds.World.{World};
ghost use Rattle.rr_reading.specs.declared.dir.directory.TheConstants.{MOST_SNAPSHOTS, MOST_TABLES};

use crate::Writer;
use crate::plan::keeping::{keep_standing, keep_texts};
use crate::plan::laying::lay_chains;
use crate::plan::{KitPages, Planned, StandingSnapshot, Transcript};
use rr_pages::Fault;
use rr_reading::dir::{Dir, NEWEST, Version};
use rr_reading::worlds::{Rules, Worlds};
use std::alloc::Global;

/// Makes the plan of a checkpoint: the coming root keeps the texts of the kit where they stand, and holds the tables
/// and the snapshots of the transcript. Of these the ones that stand already stay, where both lists rise by table and
/// count: they are gone through side by side. Its fresh pages are those that the tables, the other snapshots and their
/// directory take, and no others. No checkpoint is under way, and pages that were taken for one are given back first.
///
/// # Errors
/// `FileFull` where fewer pages are free, beside those of what stays, than the rest takes, and no plan is made then;
/// else `OutOfMemory` alone. Then the pages that were taken are given back.
pub fn plan_checkpoint<R: Rules>(
    alloc: Global,
    writer: &mut Writer<Worlds<R>>,
    kit: &KitPages,
    standing: &[StandingSnapshot],
    transcript: &Transcript,
) -> Result<Planned, Fault>
    requires resting { ticks_left_of writer.old ≡ 0 }
    requires root { (taken_of writer.old).root.number + 1 < 2 ^ 63 }
    requires number { (place_of writer.old).number < 2 ^ 63 }

    ensures plan { IfOk result (λ planned. (state : DiskState) (world : World)
        → (carries : Carries (worlds R.rules) writer.old state world)
        → (of : IsOfLayout R.rules kit.now standing.now transcript.now carries.layout)
        → (may : MayBegin (worlds R.rules) carries.layout (free_of writer.new) planned.plan)
        × StandIn of.texts planned.standing.items may.holding
        × HoldsAll of.texts carries.layout.middle (snapshots_of transcript.now) may.holding) }
    // Each of them is one of the transcript's, in its order.
    ensures standing { IfOk result (λ planned. map standing_as planned.standing.items ≡ snapshots_of transcript.now) }
    ensures root { IfOk result (λ planned. planned.plan.root
        ≡ coming_root_of writer.old planned.plan.root.directory planned.plan.fresh.items) }
    ensures some { IfOk result (λ planned. 0 < length planned.plan.fresh.items) }
    ensures count { IfOk result (λ planned. length planned.plan.fresh.items
        ≡ needed_pages standing.now (tables_of transcript.now) (snapshots_of transcript.now)) }
    ensures laid { IfOk result (λ planned. (none : List Bool) → NoneReached none
        → TakesFree (present_of (free_of writer.old))
        (all_marked none (staying_pages kit.now standing.now (snapshots_of transcript.now))) (fresh_pages planned.plan)
        (coming_of (free_of writer.new))) }
    ensures fits { IfOk result (λ _. (none : List Bool) → NoneReached none
        → TooFewFree (present_of (free_of writer.old))
        (all_marked none (staying_pages kit.now standing.now (snapshots_of transcript.now)))
        (needed_pages standing.now (tables_of transcript.now) (snapshots_of transcript.now)) → ⊥) }
    ensures full { IsErrOf result Fault.FileFull → (none : List Bool) → NoneReached none
        → TooFewFree (present_of (free_of writer.old))
        (all_marked none (staying_pages kit.now standing.now (snapshots_of transcript.now)))
        (needed_pages standing.now (tables_of transcript.now) (snapshots_of transcript.now)) }
    ensures err { IfErr result (λ fault. (fault ≡ Fault.FileFull) ⊎ (fault ≡ Fault.OutOfMemory)) }
    ensures given_back { OnErr result (IsEmpty (coming_of (free_of writer.new))) }
    ensures only { OnlyTakes (worlds R.rules) writer.old writer.new }
{
    writer.abandon();
    match make_plan(alloc, writer, kit, standing, transcript) {
        Ok(planned) => Ok(planned),
        Err(fault) => {
            writer.abandon();
            Err(fault)
        }
    }
}

// The same where no page is taken for the coming root.
fn make_plan<R: Rules>(
    alloc: Global,
    writer: &mut Writer<Worlds<R>>,
    kit: &KitPages,
    standing: &[StandingSnapshot],
    transcript: &Transcript,
) -> Result<Planned, Fault>
    requires resting { ticks_left_of writer.old ≡ 0 }
    requires root { (taken_of writer.old).root.number + 1 < 2 ^ 63 }
    requires number { (place_of writer.old).number < 2 ^ 63 }
    requires nothing { IsEmpty (coming_of (free_of writer.old)) }
    ensures plan { IfOk result (λ planned. (state : DiskState) (world : World)
        → (carries : Carries (worlds R.rules) writer.old state world)
        → (of : IsOfLayout R.rules kit.now standing.now transcript.now carries.layout)
        → (may : MayBegin (worlds R.rules) carries.layout (free_of writer.new) planned.plan)
        × StandIn of.texts planned.standing.items may.holding
        × HoldsAll of.texts carries.layout.middle (snapshots_of transcript.now) may.holding) }
    ensures standing { IfOk result (λ planned. map standing_as planned.standing.items ≡ snapshots_of transcript.now) }
    ensures root { IfOk result (λ planned. planned.plan.root
        ≡ coming_root_of writer.old planned.plan.root.directory planned.plan.fresh.items) }
    ensures some { IfOk result (λ planned. 0 < length planned.plan.fresh.items) }
    ensures count { IfOk result (λ planned. length planned.plan.fresh.items
        ≡ needed_pages standing.now (tables_of transcript.now) (snapshots_of transcript.now)) }
    ensures laid { IfOk result (λ planned. TakesFree (present_of (free_of writer.old))
        (all_marked (coming_of (free_of writer.old)) (staying_pages kit.now standing.now (snapshots_of transcript.now)))
        (fresh_pages planned.plan) (coming_of (free_of writer.new))) }
    ensures full { IsErrOf result Fault.FileFull → TooFewFree (present_of (free_of writer.old))
        (all_marked (coming_of (free_of writer.old)) (staying_pages kit.now standing.now (snapshots_of transcript.now)))
        (needed_pages standing.now (tables_of transcript.now) (snapshots_of transcript.now)) }
    ensures err { IfErr result (λ fault. (fault ≡ Fault.FileFull) ⊎ (fault ≡ Fault.OutOfMemory)) }
    ensures only { OnlyTakes (worlds R.rules) writer.old writer.new }
{
    keep_texts(writer, kit);
    keep_standing(writer, standing, &transcript.snapshots);
    let mut fresh = Vec::new(alloc);
    let laid = lay_chains(alloc, writer, &mut fresh, kit, standing, transcript)?;
    let directory = directory_bytes(alloc, NEWEST, &laid.dir)?;
    let plan = writer.plan(alloc, fresh, &directory)?;
    Ok(Planned {
        plan,
        standing: laid.standing,
    })
}

// The bytes of a directory in the form of this version.
fn directory_bytes(alloc: Global, version: Version, dir: &Dir) -> Result<Vec<u8>, Fault>
    requires tables { length dir.now.tables.items ≤ MOST_TABLES }
    requires snapshots { length dir.now.snapshots.items ≤ MOST_SNAPSHOTS }
    ensures bytes { IfOk result (λ bytes. bytes.items ≡ spelling version (directory_of dir.now)) }
    ensures memory { IfErr result (λ fault. fault ≡ Fault.OutOfMemory) }
{
    let mut bytes = Vec::new(alloc);
    if dir.write(version, &mut bytes).is_err() {
        return Err(Fault::OutOfMemory);
    }
    Ok(bytes)
}
