ghost use Rattle.std.specs.Prelude.{◌≡◌, ◌⊎◌, ◌↔◌, ◌+◌, ◌*◌, ◌^◌, ◌<◌, ◌≤◌, not, length, OnOk, OnErr, IfOk, IsErrOf, None};
ghost use Rattle.rr_disk.specs.Disk as device;
ghost use Rattle.rr_disk.specs.Disk.{counted};
ghost use Rattle.rr_images.specs.Holding.{Holding, reached_of};
ghost use Rattle.rr_images.specs.Layout.{IsSameRoot};
ghost use Rattle.rr_images.specs.Progress.{IsPlan};
ghost use Rattle.rr_pages.specs.Faults.{CountsFault, OnDeviceFault, OnlyHalf};
ghost use Rattle.rr_pages.specs.Journal.Layout.{HasRoom};
ghost use Rattle.rr_pages.specs.declared.fault.Fault.TheVariants as pages;
ghost use Rattle.rr_pages.specs.FreePages.{present_of, coming_of};
ghost use Rattle.rr_pages.specs.Sets.{Has};
ghost use Rattle.rr_checkpoint.specs.Calls.{IsRootAt, LeavesKept, LeavesEither, Renews, StaysTaken};
ghost use Rattle.rr_checkpoint.specs.Checkpoint.{HasPageLeft, plan_of, begun, left_of};
ghost use Rattle.rr_checkpoint.specs.Growing.{AreReclaimed, FreesAt, GrowsWhereFull, IsPacked};
ghost use Rattle.rr_checkpoint.specs.Holds.{HoldsOn, HoldsAsBegun, HoldsWithRecord, HoldsRenewed, HoldsBehind, RestsBehind};

use crate::Place;
use crate::checkpoint::{Checkpoint, Stage};
use rr_disk::{Disk, Fault, write};
use rr_images::Codec;
use rr_pages::journal::{Half, RecordBuffer};
use rr_pages::{FreePages, PAGE_BYTES, Roots, Taken, shut};
use std::marker::PhantomData;

// What is known of the file of a store between two calls.
#[derive(Drop)]
pub(crate) struct OpenFile<C> {
    pub(crate) taken: Taken,
    pub(crate) place: Place,
    pub(crate) free: FreePages,
    pub(crate) buffer: RecordBuffer,
    pub(crate) codec: PhantomData<C>,
}

// The half of the journal that is a half of it.
impl<C: Codec> OpenFile<C> {
    ghost use Rattle.rr_checkpoint.specs.OpenFile.{CarriesWith};
    ghost use Rattle.rr_checkpoint.specs.Writer.{told_at};

    // Appends a record.
    pub(crate) fn append<D: Disk>(
        &mut self,
        disk: &mut D,
        line: &[u8],
    ) -> Result<(), rr_pages::Fault>
        requires some { 0 < length line.now }
        requires number { self.old.place.number < 2 ^ 63 }

        ensures carries { OnOk result (D.Honest disk.new → (old new : C.codec.World) → C.codec.Takes line.now old new
            → (checkpoint : _) → (carries : CarriesWith C.codec self.old checkpoint (D.state disk.old) old)
            → (then : CarriesWith C.codec self.new checkpoint (D.state disk.new) new)
            × HoldsWithRecord carries.layout carries.holding line.now new then.layout then.holding) }
        ensures stops { D.Honest disk.new → (old new : C.codec.World) → C.codec.Takes line.now old new
            → (checkpoint : _) → (carries : CarriesWith C.codec self.old checkpoint (D.state disk.old) old)
            → LeavesEither C.codec (IsSameRoot carries.layout) (D.past disk.old) (D.state disk.old) (D.past disk.new)
            (D.state disk.new) old new }
        ensures full { IsErrOf result pages.HalfFull
            ↔ (HasRoom self.old.place.half.next_slot (length line.now) → ⊥) }
        ensures same { IsErrOf result pages.HalfFull → self.new ≡ self.old }
        ensures no_call { IsErrOf result pages.HalfFull → disk.new ≡ disk.old }
        ensures only { OnlyHalf result }
        ensures number { OnOk result (self.new.place.number ≡ self.old.place.number + 1) }
        ensures begun { self.new.place.begun ≡ self.old.place.begun }
        ensures free { self.new.free ≡ self.old.free }
        ensures same_len { D.Honest disk.new → (checkpoint : _) (world : C.codec.World)
            → CarriesWith C.codec self.old checkpoint (D.state disk.old) world
            → D.file_len disk.new ≡ D.file_len disk.old }

        ensures honest { D.Honest disk.new → D.Honest disk.old }
        ensures fault { CountsFault (D.fault_count disk.old) (D.fault_count disk.new) result }
        ensures writes { D.write_count disk.new ≤ D.write_count disk.old + 2 }
        ensures syncs { D.sync_count disk.new ≤ D.sync_count disk.old + 2 }
        ensures all_writes { OnOk result (D.write_count disk.new ≡ counted (counted (D.write_count disk.old))) }
        ensures all_syncs { OnOk result (D.sync_count disk.new ≡ counted (counted (D.sync_count disk.old))) }
        ensures device { OnDeviceFault result (D.Works disk.new → ⊥) }
        ensures works { D.Works disk.new → D.Works disk.old }
    {
        if !self.place.half.has_room(line.len()) {
            return Err(rr_pages::Fault::HalfFull);
        }
        self.place
            .half
            .append(disk, &mut self.buffer, self.place.number, line)?;
        self.place.number += 1;
        Ok(())
    }

    // Begins a checkpoint: slot 0 of the half that the root doesn't name is shut, and records go there.
    pub(crate) fn begin<D: Disk>(&mut self, disk: &mut D) -> Result<(), Fault>
        requires { self.old.place.begun ≡ None }
        ensures carries { OnOk result (D.Honest disk.new → (world : C.codec.World)
            → (carries : CarriesWith C.codec self.old None (D.state disk.old) world)
            → (plan : _) (holding : Holding) → IsPlan C.codec carries.layout (plan_of plan holding)
            → Has (coming_of self.old.free) (reached_of holding)
            → plan.root.number ≡ self.old.taken.root.number + 1 → IsPacked self.old.free plan
            → (then : CarriesWith C.codec self.new (Some (begun plan)) (D.state disk.new) world)
            × HoldsAsBegun carries.layout holding then.layout then.holding) }
        ensures number { self.new.place.number ≡ self.old.place.number }
        ensures slots { self.new.place.half.next_slot ≤ self.old.place.half.next_slot }
        ensures fresh { OnOk result (self.new.place.half.next_slot ≡ 0) }
        ensures taken { self.new.taken ≡ self.old.taken }
        ensures free { self.new.free ≡ self.old.free }
        ensures same_len { D.Honest disk.new → (world : C.codec.World)
            → CarriesWith C.codec self.old None (D.state disk.old) world
            → D.file_len disk.new ≡ D.file_len disk.old }
        ensures stops { D.Honest disk.new → (world : C.codec.World)
            → (carries : CarriesWith C.codec self.old None (D.state disk.old) world)
            → LeavesKept C.codec (IsSameRoot carries.layout) (D.past disk.old) (D.state disk.old) (D.past disk.new)
            (D.state disk.new) world }
        ensures honest { D.Honest disk.new → D.Honest disk.old }
        ensures fault { device.CountsFault (D.fault_count disk.old) (D.fault_count disk.new) result }
        ensures device { OnErr result (D.Honest disk.new → (world : C.codec.World)
            → CarriesWith C.codec self.old None (D.state disk.old) world → D.Works disk.new → ⊥) }
        ensures writes { D.write_count disk.new ≤ D.write_count disk.old + 1 }
        ensures syncs { D.sync_count disk.new ≤ D.sync_count disk.old + 1 }
        ensures works { D.Works disk.new → D.Works disk.old }
    {
        let half = Half {
            index: self.taken.root.half.other(),
            next_slot: 0,
        };
        shut(disk, half.next_gate())?;
        self.place = Place {
            half,
            number: self.place.number,
            begun: Some(self.place.number),
        };
        Ok(())
    }

    // Makes the next step of a checkpoint. Behind the last one there is none.
    pub(crate) fn advance<D: Disk>(
        &mut self,
        disk: &mut D,
        checkpoint: Checkpoint,
    ) -> Result<Option<Checkpoint>, Fault>
        ensures carries { IfOk result (λ next. D.Honest disk.new → (world : C.codec.World)
            → (carries : CarriesWith C.codec self.old (Some checkpoint) (D.state disk.old) world)
            → (then : CarriesWith C.codec self.new next (D.state disk.new) world)
            × HoldsBehind next carries.layout carries.holding then.layout then.holding) }
        ensures renews { IfOk result (λ next. D.Honest disk.new → (world : C.codec.World)
            → (carries : CarriesWith C.codec self.old (Some checkpoint) (D.state disk.old) world)
            → Renews C.codec carries.layout next (D.state disk.new) world) }
        ensures stops { D.Honest disk.new → (world : C.codec.World)
            → (carries : CarriesWith C.codec self.old (Some checkpoint) (D.state disk.old) world)
            → LeavesKept C.codec (IsRootAt (left_of (Some checkpoint)) carries.layout carries.holding)
            (D.past disk.old) (D.state disk.old) (D.past disk.new) (D.state disk.new) world }
        ensures left { IfOk result (λ next. left_of (Some checkpoint) ≡ left_of next + 1) }
        ensures page { OnOk result (HasPageLeft checkpoint → (D.write_count disk.new ≡ counted (D.write_count disk.old))
            × (D.sync_count disk.new ≡ D.sync_count disk.old)) }
        ensures taken { IfOk result (λ next. StaysTaken next self.old.taken self.new.taken) }
        ensures err { OnErr result (self.new.taken ≡ self.old.taken) }
        ensures frees { IfOk result (λ next. FreesAt (told_at next) self.old.free self.new.free) }
        ensures same_free { OnErr result (self.new.free ≡ self.old.free) }
        ensures grows { D.Honest disk.new → (world : C.codec.World)
            → CarriesWith C.codec self.old (Some checkpoint) (D.state disk.old) world
            → GrowsWhereFull (present_of self.old.free) (coming_of self.old.free) (D.file_len disk.old)
            (D.file_len disk.new) }
        ensures same_len { D.Honest disk.new → (world : C.codec.World)
            → CarriesWith C.codec self.old (Some checkpoint) (D.state disk.old) world
            → left_of (Some checkpoint) ≤ 3 → D.file_len disk.new ≡ D.file_len disk.old }
        ensures rests { IfOk result (λ next. RestsBehind next self.new.place.begun) }
        ensures number { self.new.place.number ≡ self.old.place.number }
        ensures half { self.new.place.half ≡ self.old.place.half }
        ensures honest { D.Honest disk.new → D.Honest disk.old }
        ensures fault { device.CountsFault (D.fault_count disk.old) (D.fault_count disk.new) result }
        ensures device { OnErr result (D.Honest disk.new → (world : C.codec.World)
            → CarriesWith C.codec self.old (Some checkpoint) (D.state disk.old) world → D.Works disk.new → ⊥) }
        ensures writes { D.write_count disk.new ≤ D.write_count disk.old + 1 }
        ensures syncs { D.sync_count disk.new ≤ D.sync_count disk.old + 1 }
        ensures works { D.Works disk.new → D.Works disk.old }
    {
        match checkpoint.stage {
            Stage::Writing(written) => {
                let next = self.write_page(disk, checkpoint, written)?;
                Ok(Some(next))
            }
            Stage::Shut => {
                let next = self.fill(disk, checkpoint)?;
                Ok(Some(next))
            }
            Stage::Filled => {
                self.open(disk, &checkpoint)?;
                Ok(None)
            }
        }
    }

    // Writes the next fresh page, or shuts the stale root's gate once all of them are written.
    fn write_page<D: Disk>(
        &self,
        disk: &mut D,
        mut checkpoint: Checkpoint,
        written: usize,
    ) -> Result<Checkpoint, Fault>
        requires stage { checkpoint.stage ≡ Stage.Writing written }
        ensures carries { IfOk result (λ next. D.Honest disk.new → (world : C.codec.World)
            → (carries : CarriesWith C.codec self.now (Some checkpoint) (D.state disk.old) world)
            → (then : CarriesWith C.codec self.now (Some next) (D.state disk.new) world)
            × HoldsOn carries.layout carries.holding then.layout then.holding) }
        ensures stops { D.Honest disk.new → (world : C.codec.World)
            → (carries : CarriesWith C.codec self.now (Some checkpoint) (D.state disk.old) world)
            → LeavesKept C.codec (IsRootAt (left_of (Some checkpoint)) carries.layout carries.holding)
            (D.past disk.old) (D.state disk.old) (D.past disk.new) (D.state disk.new) world }
        ensures left { IfOk result (λ next. left_of (Some checkpoint) ≡ left_of (Some next) + 1) }
        ensures page { OnOk result (HasPageLeft checkpoint → (D.write_count disk.new ≡ counted (D.write_count disk.old))
            × (D.sync_count disk.new ≡ D.sync_count disk.old)) }
        ensures grows { D.Honest disk.new → (world : C.codec.World)
            → CarriesWith C.codec self.now (Some checkpoint) (D.state disk.old) world
            → GrowsWhereFull (present_of self.now.free) (coming_of self.now.free) (D.file_len disk.old)
            (D.file_len disk.new) }
        ensures same_len { D.Honest disk.new → (world : C.codec.World)
            → CarriesWith C.codec self.now (Some checkpoint) (D.state disk.old) world
            → left_of (Some checkpoint) ≤ 3 → D.file_len disk.new ≡ D.file_len disk.old }
        ensures honest { D.Honest disk.new → D.Honest disk.old }
        ensures fault { device.CountsFault (D.fault_count disk.old) (D.fault_count disk.new) result }
        ensures device { OnErr result (D.Honest disk.new → (world : C.codec.World)
            → CarriesWith C.codec self.now (Some checkpoint) (D.state disk.old) world → D.Works disk.new → ⊥) }
        ensures writes { D.write_count disk.new ≤ D.write_count disk.old + 1 }
        ensures syncs { D.sync_count disk.new ≤ D.sync_count disk.old + 1 }
        ensures works { D.Works disk.new → D.Works disk.old }
    {
        match checkpoint.plan.fresh.get(written) {
            None => self.shut_stale(disk, checkpoint, written),
            Some(fresh) => {
                write(disk, PAGE_BYTES * u64::from(fresh.page), &fresh.bytes)?;
                checkpoint.stage = Stage::Writing(written + 1);
                Ok(checkpoint)
            }
        }
    }

    fn shut_stale<D: Disk>(
        &self,
        disk: &mut D,
        mut checkpoint: Checkpoint,
        written: usize,
    ) -> Result<Checkpoint, Fault>
        requires stage { checkpoint.stage ≡ Stage.Writing written }
        requires all { length checkpoint.plan.fresh.items ≤ written }
        ensures carries { IfOk result (λ next. D.Honest disk.new → (world : C.codec.World)
            → (carries : CarriesWith C.codec self.now (Some checkpoint) (D.state disk.old) world)
            → (then : CarriesWith C.codec self.now (Some next) (D.state disk.new) world)
            × HoldsOn carries.layout carries.holding then.layout then.holding) }
        ensures stops { D.Honest disk.new → (world : C.codec.World)
            → (carries : CarriesWith C.codec self.now (Some checkpoint) (D.state disk.old) world)
            → LeavesKept C.codec (IsRootAt (left_of (Some checkpoint)) carries.layout carries.holding)
            (D.past disk.old) (D.state disk.old) (D.past disk.new) (D.state disk.new) world }
        ensures left { IfOk result (λ next. left_of (Some checkpoint) ≡ left_of (Some next) + 1) }
        ensures same_len { D.Honest disk.new → (world : C.codec.World)
            → CarriesWith C.codec self.now (Some checkpoint) (D.state disk.old) world
            → D.file_len disk.new ≡ D.file_len disk.old }
        ensures honest { D.Honest disk.new → D.Honest disk.old }
        ensures fault { device.CountsFault (D.fault_count disk.old) (D.fault_count disk.new) result }
        ensures device { OnErr result (D.Honest disk.new → (world : C.codec.World)
            → CarriesWith C.codec self.now (Some checkpoint) (D.state disk.old) world → D.Works disk.new → ⊥) }
        ensures writes { D.write_count disk.new ≤ D.write_count disk.old + 1 }
        ensures syncs { D.sync_count disk.new ≤ D.sync_count disk.old + 1 }
        ensures works { D.Works disk.new → D.Works disk.old }
    {
        let roots = Roots {
            taken: self.taken.side,
        };
        roots.close(disk)?;
        checkpoint.stage = Stage::Shut;
        Ok(checkpoint)
    }

    // Writes the coming root behind the stale root's gate.
    fn fill<D: Disk>(&self, disk: &mut D, mut checkpoint: Checkpoint) -> Result<Checkpoint, Fault>
        requires stage { checkpoint.stage ≡ Stage.Shut }
        ensures carries { IfOk result (λ next. D.Honest disk.new → (world : C.codec.World)
            → (carries : CarriesWith C.codec self.now (Some checkpoint) (D.state disk.old) world)
            → (then : CarriesWith C.codec self.now (Some next) (D.state disk.new) world)
            × HoldsOn carries.layout carries.holding then.layout then.holding) }
        ensures stops { D.Honest disk.new → (world : C.codec.World)
            → (carries : CarriesWith C.codec self.now (Some checkpoint) (D.state disk.old) world)
            → LeavesKept C.codec (IsRootAt (left_of (Some checkpoint)) carries.layout carries.holding)
            (D.past disk.old) (D.state disk.old) (D.past disk.new) (D.state disk.new) world }
        ensures left { IfOk result (λ next. left_of (Some checkpoint) ≡ left_of (Some next) + 1) }
        ensures same_len { D.Honest disk.new → (world : C.codec.World)
            → CarriesWith C.codec self.now (Some checkpoint) (D.state disk.old) world
            → D.file_len disk.new ≡ D.file_len disk.old }
        ensures honest { D.Honest disk.new → D.Honest disk.old }
        ensures fault { device.CountsFault (D.fault_count disk.old) (D.fault_count disk.new) result }
        ensures device { OnErr result (D.Honest disk.new → (world : C.codec.World)
            → CarriesWith C.codec self.now (Some checkpoint) (D.state disk.old) world → D.Works disk.new → ⊥) }
        ensures writes { D.write_count disk.new ≤ D.write_count disk.old + 1 }
        ensures syncs { D.sync_count disk.new ≤ D.sync_count disk.old + 1 }
        ensures works { D.Works disk.new → D.Works disk.old }
    {
        let roots = Roots {
            taken: self.taken.side,
        };
        roots.fill(disk, &checkpoint.plan.root)?;
        checkpoint.stage = Stage::Filled;
        Ok(checkpoint)
    }

    // Opens that gate: the coming root is taken, and pages that it doesn't reach are free.
    fn open<D: Disk>(&mut self, disk: &mut D, checkpoint: &Checkpoint) -> Result<(), Fault>
        requires stage { checkpoint.now.stage ≡ Stage.Filled }
        ensures carries { OnOk result (D.Honest disk.new → (world : C.codec.World)
            → (carries : CarriesWith C.codec self.old (Some checkpoint.now) (D.state disk.old) world)
            → (then : CarriesWith C.codec self.new None (D.state disk.new) world)
            × HoldsRenewed carries.layout carries.holding then.layout) }
        ensures renews { OnOk result (D.Honest disk.new → (world : C.codec.World)
            → (carries : CarriesWith C.codec self.old (Some checkpoint.now) (D.state disk.old) world)
            → Renews C.codec carries.layout None (D.state disk.new) world) }
        ensures stops { D.Honest disk.new → (world : C.codec.World)
            → (carries : CarriesWith C.codec self.old (Some checkpoint.now) (D.state disk.old) world)
            → LeavesKept C.codec (IsRootAt (left_of (Some checkpoint.now)) carries.layout carries.holding)
            (D.past disk.old) (D.state disk.old) (D.past disk.new) (D.state disk.new) world }
        ensures number { self.new.place.number ≡ self.old.place.number }
        ensures half { self.new.place.half ≡ self.old.place.half }
        ensures rests { OnOk result (self.new.place.begun ≡ None) }
        ensures err { OnErr result (self.new.taken ≡ self.old.taken) }
        ensures frees { OnOk result (AreReclaimed self.old.free self.new.free) }
        ensures same_free { OnErr result (self.new.free ≡ self.old.free) }
        ensures same_len { D.Honest disk.new → (world : C.codec.World)
            → CarriesWith C.codec self.old (Some checkpoint.now) (D.state disk.old) world
            → D.file_len disk.new ≡ D.file_len disk.old }
        ensures honest { D.Honest disk.new → D.Honest disk.old }
        ensures fault { device.CountsFault (D.fault_count disk.old) (D.fault_count disk.new) result }
        ensures device { OnErr result (D.Honest disk.new → (world : C.codec.World)
            → CarriesWith C.codec self.old (Some checkpoint.now) (D.state disk.old) world → D.Works disk.new → ⊥) }
        ensures writes { D.write_count disk.new ≤ D.write_count disk.old + 1 }
        ensures syncs { D.sync_count disk.new ≤ D.sync_count disk.old + 1 }
        ensures works { D.Works disk.new → D.Works disk.old }
    {
        let mut roots = Roots {
            taken: self.taken.side,
        };
        roots.open(disk)?;
        self.taken = Taken {
            side: roots.taken,
            root: checkpoint.plan.root,
        };
        self.place.begun = None;
        self.free.reclaim();
        Ok(())
    }
}
