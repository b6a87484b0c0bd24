// The plan of a checkpoint.
ghost use Rattle.std.specs.Prelude.{◌≡◌, ◌⊎◌, ◌^◌, ◌+◌, ◌<◌, ◌≤◌, Bool, List, length, map, IfOk, IfErr, IsErrOf, IsTrue, None, ◌↔◌};
ghost use Rattle.rr_checkpoint.specs.Planning.{MayBegin};
ghost use Rattle.rr_checkpoint.specs.Writer as file;
ghost use Rattle.rr_disk.specs.Disk.{DiskState};
ghost use Rattle.rr_log.specs.Fault.{IsWant};
ghost use Rattle.rr_log.specs.Lent.{AreLentOf, lent_in, lent_of, pages_of};
ghost use Rattle.rr_log.specs.Log.{IsPastLast};
ghost use Rattle.rr_pages.specs.FreePages.{present_of};
ghost use Rattle.rr_pages.specs.Sets.{TooFewFree, all_marked};
ghost use Rattle.rr_reading.specs.Reading.{NoneReached};
ghost use Rattle.rr_checkpoint.specs.Plan.Planning.{IsOfLayout, HoldsAll};
ghost use Rattle.rr_checkpoint.specs.Plan.Standing.{StandIn, standing_as, staying_pages};
ghost use Rattle.rr_checkpoint.specs.Plan.Transcript.{snapshots_of};
ghost use Rattle.rr_checkpoint.specs.Plan.Writing.{OnlyTakes};
ghost use Rattle.rr_reading.specs.Worlds.Spelling.{worlds};
ghost use Rattle.rr_reading.specs.Worlds.World.{World};

use crate::{Fault, Log, TablesInWords};
use rr_checkpoint::Writer;
use rr_checkpoint::plan::{KitPages, Planned, StandingSnapshot, Transcript, plan_checkpoint};
use rr_disk::Disk;
use rr_reading::worlds::{Rules, Worlds};
use std::alloc::Global;

// No record and no root has this number or a greater one.
const PAST_LAST: u64 = 9_223_372_036_854_775_807;

// Whether no record and no root may have this number.
pub(crate) fn is_past_last(number: u64) -> bool
    ensures { IsTrue result ↔ IsPastLast number }
{
    number >= PAST_LAST
}

// The plan of a checkpoint that writes the tables and snapshots of a transcript.
fn plan_of<R: Rules>(
    alloc: Global,
    writer: &mut Writer<Worlds<R>>,
    kit: &KitPages,
    standing: &[StandingSnapshot],
    transcript: &Transcript,
) -> Result<Planned, Fault>
    requires resting { file.ticks_left_of writer.old ≡ 0 }
    requires root { (file.taken_of writer.old).root.number + 1 < 2 ^ 63 }
    requires number { (file.place_of writer.old).number < 2 ^ 63 }
    ensures plan { IfOk result (λ planned. (state : DiskState) (world : World)
        → (carries : file.Carries (worlds R.rules) writer.old state world)
        → (of : IsOfLayout R.rules kit.now standing.now transcript.now carries.layout)
        → (may : MayBegin (worlds R.rules) carries.layout (file.free_of writer.new) planned.plan)
        × StandIn of.texts planned.standing.items may.holding
        × HoldsAll of.texts carries.layout.middle (snapshots_of transcript.now) may.holding) }
    ensures standing { IfOk result (λ planned. map standing_as planned.standing.items ≡ snapshots_of transcript.now) }
    ensures some { IfOk result (λ planned. 0 < length planned.plan.fresh.items) }
    ensures count { IfOk result (λ planned. length planned.plan.fresh.items
        ≡ pages_of standing.now (lent_in transcript.now)) }
    ensures fits { IfOk result (λ _. (none : List Bool) → NoneReached none
        → TooFewFree (present_of (file.free_of writer.old))
        (all_marked none (staying_pages kit.now standing.now (snapshots_of transcript.now)))
        (pages_of standing.now (lent_in transcript.now)) → ⊥) }
    ensures full { IsErrOf result Fault.FileFull → (none : List Bool) → NoneReached none
        → TooFewFree (present_of (file.free_of writer.old))
        (all_marked none (staying_pages kit.now standing.now (snapshots_of transcript.now)))
        (pages_of standing.now (lent_in transcript.now)) }
    ensures err { IfErr result IsWant }
    ensures only { OnlyTakes (worlds R.rules) writer.old writer.new }
{
    match plan_checkpoint(alloc, writer, kit, standing, transcript) {
        Ok(planned) => Ok(planned),
        Err(rr_pages::Fault::FileFull) => Err(Fault::FileFull),
        Err(_) => Err(Fault::OutOfMemory),
    }
}

impl<D: Disk + Drop, R: Rules> Log<D, R> {
    ghost use Rattle.rr_log.specs.Calls.{IsFileFull, IsUnchanged, tables_due};
    ghost use Rattle.rr_log.specs.Carrying.{Carries, IsPlanned};
    ghost use Rattle.rr_log.specs.Log.{next_number, place_of, root_number, ticks_left};

    // Makes the plan of the checkpoint that is to begin. Where an opening found one begun, it writes the tables and
    // snapshots from before the first record of the other half, and else those that are lent.
    pub(crate) fn plan<T: TablesInWords>(&mut self, tables: &T) -> Result<Planned, Fault>
        requires { ticks_left self.old ≡ 0 }
        ensures plan { IfOk result (λ planned. (state : DiskState) (world : World) → AreLentOf R.rules world (lent_of T.TablesInWords tables.now)
            → (carries : Carries R.rules self.old state world)
            → IsPlanned R.rules self.new planned state world carries.carried.layout
            (tables_due self.old.base (lent_of T.TablesInWords tables.now)).snapshots) }
        ensures standing { IfOk result (λ planned. map standing_as planned.standing.items
            ≡ (tables_due self.old.base (lent_of T.TablesInWords tables.now)).snapshots) }
        ensures some { IfOk result (λ planned. 0 < length planned.plan.fresh.items) }
        // Where an opening found the checkpoint begun, what is lent doesn't matter.
        ensures found { IfOk result (λ planned. (state : DiskState) (world : World) → ((place_of self.old).begun ≡ None → ⊥)
            → (carries : Carries R.rules self.old state world)
            → IsPlanned R.rules self.new planned state world carries.carried.layout
            (tables_due self.old.base (lent_of T.TablesInWords tables.now)).snapshots) }
        ensures count { IfOk result (λ planned. length planned.plan.fresh.items
            ≡ pages_of self.old.standing.items (tables_due self.old.base (lent_of T.TablesInWords tables.now))) }
        ensures fits { IfOk result (λ _. IsFileFull self.old (lent_of T.TablesInWords tables.now) → ⊥) }
        ensures carries { (state : DiskState) (world : World) → (carries : Carries R.rules self.old state world)
            → (then : Carries R.rules self.new state world) × (then.carried.layout ≡ carries.carried.layout) }
        ensures full { IsErrOf result Fault.FileFull → IsFileFull self.old (lent_of T.TablesInWords tables.now) }
        ensures full_behind { IsErrOf result Fault.FileFull → IsFileFull self.new (lent_of T.TablesInWords tables.now) }
        ensures err { IfErr result IsWant }
        ensures unchanged { IsUnchanged self.old self.new }
    {
        if self.has_last_number() {
            return Err(Fault::FileFull);
        }
        match &self.base {
            Some(base) => {
                let planned = plan_of(
                    self.alloc,
                    &mut self.writer,
                    &self.kit,
                    &self.standing,
                    base,
                )?;
                Ok(planned)
            }
            None => {
                let transcript = lent(self.alloc, tables)?;
                let planned = plan_of(
                    self.alloc,
                    &mut self.writer,
                    &self.kit,
                    &self.standing,
                    &transcript,
                )?;
                Ok(planned)
            }
        }
    }

    // Whether the number of the next record, or of the coming root, would be past the last.
    fn has_last_number(&self) -> bool
        ensures { IsTrue result ↔ (IsPastLast (next_number self.now) ⊎ IsPastLast (root_number self.now + 1)) }
    {
        if is_past_last(self.writer.place().number) {
            return true;
        }
        self.writer.taken().root.number >= PAST_LAST - 1
    }
}

// The tables that are lent, with the snapshots, as a transcript.
fn lent<T: TablesInWords>(alloc: Global, tables: &T) -> Result<Transcript, Fault>
    ensures lent { IfOk result (λ transcript. lent_in transcript ≡ lent_of T.TablesInWords tables.now) }
    ensures err { IfErr result (λ fault. fault ≡ Fault.OutOfMemory) }
{
    match tables.transcript(alloc) {
        Ok(transcript) => Ok(transcript),
        Err(_) => Err(Fault::OutOfMemory),
    }
}
