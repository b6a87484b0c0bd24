// Checkpoints, in ticks.
ghost use Rattle.std.specs.Prelude.{◌≡◌, ◌⊎◌, ◌↔◌, ◌+◌, ◌<◌, ◌≤◌, false, List, OnOk, OnErr, IfOk, IfErr, IsErrOf, IsTrue, None};
ghost use Rattle.rr_checkpoint.specs.Calls.{IsRootAt, LeavesKept};
ghost use Rattle.rr_checkpoint.specs.Growing.{AreReclaimed, GrowsWhereFull};
ghost use Rattle.rr_checkpoint.specs.Holds.{IsRenewed};
ghost use Rattle.rr_checkpoint.specs.Writer.{RenewsAt, Lowers};
ghost use Rattle.rr_disk.specs.Moments.{EachImage};
ghost use Rattle.rr_images.specs.Calls.{TakesNewer};
ghost use Rattle.rr_images.specs.Layout.{IsComingRoot, IsEitherRoot};
ghost use Rattle.rr_log.specs.Fault.{CountsFault, IsWant, OnDeviceFault, ends_broken};
ghost use Rattle.rr_log.specs.Lent.{AreLentOf, lent_of};
ghost use Rattle.rr_pages.specs.FreePages.{coming_of, present_of};
ghost use Rattle.rr_reading.specs.Worlds.Spelling.{worlds};
ghost use Rattle.rr_reading.specs.Worlds.World.{Snapshot, World};

use crate::{Fault, Log, TablesInWords};
use rr_checkpoint::Tick;
use rr_checkpoint::plan::Planned;
use rr_disk::Disk;
use rr_reading::worlds::Rules;

// So many slots of a half are used where a checkpoint is to begin.
const MANY_SLOTS: u8 = 128;

impl<D: Disk + Drop, R: Rules> Log<D, R> {
    ghost use Rattle.rr_log.specs.Calls.{IsBegunOn, IsFileFull, IsUnchanged, LowersFrom, NumbersRoot, TakesRootOf, as_begun, first_left, tables_due, ticks_due};
    ghost use Rattle.rr_log.specs.Carrying.{Carries, HoldsWorld};
    ghost use Rattle.rr_log.specs.Growing.{Grows, TakesPages};
    ghost use Rattle.rr_log.specs.Log.{disk_of, free_of, is_broken, known_snapshots, next_number, place_of, root_number, ticks_left, HasNoneBegun, IsDue};
    ghost use Rattle.rr_log.specs.Roots.{IsRootWithin, KeepsRoots, TakesRoot};

    /// Makes one step of a checkpoint: it goes on with the one under way, or begins one where an opening found it begun
    /// or at least 128 slots of the half in use are used. The tables are those of the world that the log carries, and
    /// the snapshots show games there: a first tick takes them, and all memory that the later ones need. A checkpoint
    /// of p pages has p + 4 ticks, and p + 3 where an opening found it begun, since its first tick writes the first
    /// page then.
    ///
    /// # Errors
    /// `OpenAgain`; `DeviceFailed`, after which the log is broken; in a first tick also `FileFull` and `OutOfMemory`,
    /// before any device call: then the log goes on, and the next tick begins anew.
    pub fn tick<T: TablesInWords>(&mut self, tables: &T) -> Result<Tick, Fault>
        // Whatever a stop leaves at any moment keeps the world under the root from before, or within the last step under
        // the coming one, and the log carries it on.
        ensures stops { D.Honest (disk_of self.new) → (world : World)
            → (carries : Carries R.rules self.old (D.state (disk_of self.old)) world)
            → LeavesKept (worlds R.rules) (IsRootAt (ticks_left self.old) carries.carried.layout carries.carried.holding)
            (D.past (disk_of self.old)) (D.state (disk_of self.old))
            (D.past (disk_of self.new)) (D.state (disk_of self.new)) world }
        ensures carries { D.Honest (disk_of self.new) → is_broken self.new ≡ false → (world : World)
            → AreLentOf R.rules world (lent_of T.TablesInWords tables.now) → Carries R.rules self.old (D.state (disk_of self.old)) world
            → Carries R.rules self.new (D.state (disk_of self.new)) world }
        ensures renews { IfOk result (λ tick. D.Honest (disk_of self.new) → (world : World)
            → (carries : Carries R.rules self.old (D.state (disk_of self.old)) world)
            → RenewsAt (worlds R.rules) tick carries.carried.layout (D.state (disk_of self.new)) world) }
        // What becomes of the root that is taken and of the coming one: where a checkpoint is begun, that is to hold these
        // snapshots.
        ensures roots { is_broken self.new ≡ false → D.Honest (disk_of self.new) → (world : World)
            → AreLentOf R.rules world (lent_of T.TablesInWords tables.now)
            → (carries : Carries R.rules self.old (D.state (disk_of self.old)) world)
            → (then : Carries R.rules self.new (D.state (disk_of self.new)) world)
            × KeepsRoots self.old self.new (tables_due self.old.base (lent_of T.TablesInWords tables.now)).snapshots
            carries.carried.layout carries.carried.holding then.carried.layout then.carried.holding }

        // How far it comes.
        ensures left { IfOk result (λ tick.
            LowersFrom (first_left self.old (lent_of T.TablesInWords tables.now)) tick (ticks_left self.old) (ticks_left self.new)) }
        ensures most { IfOk result (λ tick. ticks_left self.old ≡ 0
            → ticks_left self.new < ticks_due self.old (lent_of T.TablesInWords tables.now)) }
        ensures idle { (result ≡ Ok Tick.Idle) ↔ ((is_broken self.old ≡ false) × (ticks_left self.old ≡ 0)
            × (IsDue (place_of self.old) → ⊥)) }
        ensures rests { result ≡ Ok Tick.Idle → self.new ≡ self.old }
        ensures known { IfOk result (λ tick. 0 < ticks_left self.old → known_snapshots self.new ≡ known_snapshots self.old) }
        ensures comes_to_know { IfOk result (λ tick. ticks_left self.old ≡ 0 → 0 < ticks_left self.new
            → known_snapshots self.new ≡ (tables_due self.old.base (lent_of T.TablesInWords tables.now)).snapshots) }
        ensures number { next_number self.new ≡ next_number self.old }
        ensures root { IfOk result (λ tick. D.Honest (disk_of self.new) → (world : World)
            → Carries R.rules self.old (D.state (disk_of self.old)) world
            → NumbersRoot tick (root_number self.old) (root_number self.new)) }
        ensures fits { IfOk result (λ tick. ticks_left self.old ≡ 0 → IsDue (place_of self.old)
            → IsFileFull self.old (lent_of T.TablesInWords tables.now) → ⊥) }

        // When each refusal comes, and what it leaves.
        ensures again { IsErrOf result Fault.OpenAgain ↔ IsTrue (is_broken self.old) }
        ensures untouched { IsErrOf result Fault.OpenAgain → self.new ≡ self.old }
        ensures broken { is_broken self.new ≡ ends_broken result }
        ensures full { IsErrOf result Fault.FileFull → IsFileFull self.old (lent_of T.TablesInWords tables.now) }
        ensures full_behind { IsErrOf result Fault.FileFull → IsFileFull self.new (lent_of T.TablesInWords tables.now) }
        ensures first { IfErr result (λ fault. IsWant fault → ticks_left self.old ≡ 0) }
        ensures due { IfErr result (λ fault. IsWant fault → IsDue (place_of self.old)) }
        ensures unchanged { IfErr result (λ fault. IsWant fault → IsUnchanged self.old self.new) }
        ensures room { IsErrOf result Fault.HalfFull → ⊥ }
        ensures fault { CountsFault (D.fault_count (disk_of self.old)) (D.fault_count (disk_of self.new)) result }
        ensures device { OnDeviceFault result (D.Honest (disk_of self.new) → (world : World)
            → Carries R.rules self.old (D.state (disk_of self.old)) world → D.Works (disk_of self.new) → ⊥) }

        // The file becomes longer only by a page of a checkpoint, and only where no page under its end is free.
        ensures grows { D.Honest (disk_of self.new) → (world : World)
            → Carries R.rules self.old (D.state (disk_of self.old)) world
            → Grows D.file_len self.old self.new }
        ensures pages { TakesPages self.old self.new }

        ensures writes { D.write_count (disk_of self.new) ≤ D.write_count (disk_of self.old) + 1 }
        ensures syncs { D.sync_count (disk_of self.new) ≤ D.sync_count (disk_of self.old) + 1 }
        ensures honest { D.Honest (disk_of self.new) → D.Honest (disk_of self.old) }
        ensures works { D.Works (disk_of self.new) → D.Works (disk_of self.old) }
    {
        if self.broken {
            return Err(Fault::OpenAgain);
        }
        self.step(tables)
    }

    // The same of a log that isn't broken.
    pub(crate) fn step<T: TablesInWords>(&mut self, tables: &T) -> Result<Tick, Fault>
        requires { is_broken self.old ≡ false }
        ensures stops { D.Honest (disk_of self.new) → (world : World)
            → (carries : Carries R.rules self.old (D.state (disk_of self.old)) world)
            → LeavesKept (worlds R.rules) (IsRootAt (ticks_left self.old) carries.carried.layout carries.carried.holding)
            (D.past (disk_of self.old)) (D.state (disk_of self.old))
            (D.past (disk_of self.new)) (D.state (disk_of self.new)) world }
        ensures carries { D.Honest (disk_of self.new) → is_broken self.new ≡ false → (world : World)
            → AreLentOf R.rules world (lent_of T.TablesInWords tables.now) → Carries R.rules self.old (D.state (disk_of self.old)) world
            → Carries R.rules self.new (D.state (disk_of self.new)) world }
        ensures renews { IfOk result (λ tick. D.Honest (disk_of self.new) → (world : World)
            → (carries : Carries R.rules self.old (D.state (disk_of self.old)) world)
            → RenewsAt (worlds R.rules) tick carries.carried.layout (D.state (disk_of self.new)) world) }
        ensures renewed { is_broken self.new ≡ false → ticks_left self.old ≡ 1 → D.Honest (disk_of self.new)
            → (world : World) → (carries : Carries R.rules self.old (D.state (disk_of self.old)) world)
            → (then : Carries R.rules self.new (D.state (disk_of self.new)) world)
            × IsRenewed carries.carried.layout then.carried.layout }
        ensures roots { is_broken self.new ≡ false → D.Honest (disk_of self.new) → (world : World)
            → AreLentOf R.rules world (lent_of T.TablesInWords tables.now)
            → (carries : Carries R.rules self.old (D.state (disk_of self.old)) world)
            → (then : Carries R.rules self.new (D.state (disk_of self.new)) world)
            × KeepsRoots self.old self.new (tables_due self.old.base (lent_of T.TablesInWords tables.now)).snapshots
            carries.carried.layout carries.carried.holding then.carried.layout then.carried.holding }
        ensures left { IfOk result (λ tick.
            LowersFrom (first_left self.old (lent_of T.TablesInWords tables.now)) tick (ticks_left self.old) (ticks_left self.new)) }
        ensures most { IfOk result (λ tick. ticks_left self.old ≡ 0
            → ticks_left self.new < ticks_due self.old (lent_of T.TablesInWords tables.now)) }
        ensures nothing { is_broken self.new ≡ false → ticks_left self.old ≡ 0 → ticks_left self.new ≡ 0
            → disk_of self.new ≡ disk_of self.old }
        ensures idle { (result ≡ Ok Tick.Idle) ↔ ((ticks_left self.old ≡ 0) × (IsDue (place_of self.old) → ⊥)) }
        ensures rests { result ≡ Ok Tick.Idle → self.new ≡ self.old }
        ensures known { IfOk result (λ tick. 0 < ticks_left self.old → known_snapshots self.new ≡ known_snapshots self.old) }
        ensures comes_to_know { IfOk result (λ tick. ticks_left self.old ≡ 0 → 0 < ticks_left self.new
            → known_snapshots self.new ≡ (tables_due self.old.base (lent_of T.TablesInWords tables.now)).snapshots) }
        ensures number { next_number self.new ≡ next_number self.old }
        ensures root { IfOk result (λ tick. D.Honest (disk_of self.new) → (world : World)
            → Carries R.rules self.old (D.state (disk_of self.old)) world
            → NumbersRoot tick (root_number self.old) (root_number self.new)) }
        ensures fits { IfOk result (λ tick. ticks_left self.old ≡ 0 → IsDue (place_of self.old)
            → IsFileFull self.old (lent_of T.TablesInWords tables.now) → ⊥) }
        ensures slots { (place_of self.new).half.next_slot ≤ (place_of self.old).half.next_slot }
        ensures few { IfOk result (λ tick. ticks_left self.old ≡ 0 → (place_of self.old).begun ≡ None
            → (place_of self.new).half.next_slot < 128) }
        ensures resting { IfOk result (λ tick. ticks_left self.new ≡ 0 → (place_of self.new).begun ≡ None) }
        ensures half { IfOk result (λ tick. ((place_of self.new).half ≡ (place_of self.old).half)
            ⊎ (4 ≤ ticks_left self.new)) }
        ensures broken { is_broken self.new ≡ ends_broken result }
        ensures err { IfErr result (λ fault. IsWant fault ⊎ (fault ≡ Fault.DeviceFailed)) }
        ensures full { IsErrOf result Fault.FileFull → IsFileFull self.old (lent_of T.TablesInWords tables.now) }
        ensures full_behind { IsErrOf result Fault.FileFull → IsFileFull self.new (lent_of T.TablesInWords tables.now) }
        ensures first { IfErr result (λ fault. IsWant fault → ticks_left self.old ≡ 0) }
        ensures due { IfErr result (λ fault. IsWant fault → IsDue (place_of self.old)) }
        ensures unchanged { IfErr result (λ fault. IsWant fault → IsUnchanged self.old self.new) }
        ensures fault { CountsFault (D.fault_count (disk_of self.old)) (D.fault_count (disk_of self.new)) result }
        ensures device { OnDeviceFault result (D.Honest (disk_of self.new) → (world : World)
            → Carries R.rules self.old (D.state (disk_of self.old)) world → D.Works (disk_of self.new) → ⊥) }
        ensures grows { D.Honest (disk_of self.new) → (world : World)
            → Carries R.rules self.old (D.state (disk_of self.old)) world
            → Grows D.file_len self.old self.new }
        ensures pages { TakesPages self.old self.new }
        ensures writes { D.write_count (disk_of self.new) ≤ D.write_count (disk_of self.old) + 1 }
        ensures syncs { D.sync_count (disk_of self.new) ≤ D.sync_count (disk_of self.old) + 1 }
        ensures honest { D.Honest (disk_of self.new) → D.Honest (disk_of self.old) }
        ensures works { D.Works (disk_of self.new) → D.Works (disk_of self.old) }
    {
        if self.writer.ticks_left() > 0 {
            return self.go_on();
        }
        if !self.is_due() {
            return Ok(Tick::Idle);
        }
        self.begin(tables)?;
        Ok(Tick::More)
    }

    // Whether a checkpoint is to begin where none is under way.
    fn is_due(&self) -> bool
        ensures { IsTrue result ↔ IsDue (place_of self.now) }
    {
        let place = self.writer.place();
        if place.begun.is_some() {
            return true;
        }
        place.half.next_slot >= MANY_SLOTS
    }

    // The next step of the checkpoint under way.
    fn go_on(&mut self) -> Result<Tick, Fault>
        requires whole { is_broken self.old ≡ false }
        requires under_way { 0 < ticks_left self.old }
        ensures stops { D.Honest (disk_of self.new) → (world : World)
            → (carries : Carries R.rules self.old (D.state (disk_of self.old)) world)
            → LeavesKept (worlds R.rules) (IsRootAt (ticks_left self.old) carries.carried.layout carries.carried.holding)
            (D.past (disk_of self.old)) (D.state (disk_of self.old))
            (D.past (disk_of self.new)) (D.state (disk_of self.new)) world }
        ensures carries { D.Honest (disk_of self.new) → is_broken self.new ≡ false → (world : World)
            → Carries R.rules self.old (D.state (disk_of self.old)) world
            → Carries R.rules self.new (D.state (disk_of self.new)) world }
        ensures renews { IfOk result (λ tick. D.Honest (disk_of self.new) → (world : World)
            → (carries : Carries R.rules self.old (D.state (disk_of self.old)) world)
            → RenewsAt (worlds R.rules) tick carries.carried.layout (D.state (disk_of self.new)) world) }
        ensures renewed { is_broken self.new ≡ false → ticks_left self.old ≡ 1 → D.Honest (disk_of self.new)
            → (world : World) → (carries : Carries R.rules self.old (D.state (disk_of self.old)) world)
            → (then : Carries R.rules self.new (D.state (disk_of self.new)) world)
            × IsRenewed carries.carried.layout then.carried.layout }
        // What becomes of the roots, whatever snapshots are due, since no checkpoint is begun.
        ensures roots { is_broken self.new ≡ false → D.Honest (disk_of self.new) → (due : List Snapshot) → (world : World)
            → (carries : Carries R.rules self.old (D.state (disk_of self.old)) world)
            → (then : Carries R.rules self.new (D.state (disk_of self.new)) world)
            × KeepsRoots self.old self.new due carries.carried.layout carries.carried.holding
            then.carried.layout then.carried.holding }
        ensures left { IfOk result (λ tick. Lowers tick (ticks_left self.old) (ticks_left self.new)) }
        ensures root { IfOk result (λ tick. D.Honest (disk_of self.new) → (world : World)
            → Carries R.rules self.old (D.state (disk_of self.old)) world
            → NumbersRoot tick (root_number self.old) (root_number self.new)) }
        ensures resting { IfOk result (λ tick. ticks_left self.new ≡ 0 → (place_of self.new).begun ≡ None) }
        ensures known { known_snapshots self.new ≡ known_snapshots self.old }
        ensures number { next_number self.new ≡ next_number self.old }
        ensures half { (place_of self.new).half ≡ (place_of self.old).half }
        ensures broken { is_broken self.new ≡ ends_broken result }
        ensures err { IfErr result (λ fault. fault ≡ Fault.DeviceFailed) }
        ensures fault { CountsFault (D.fault_count (disk_of self.old)) (D.fault_count (disk_of self.new)) result }
        ensures device { OnDeviceFault result (D.Honest (disk_of self.new) → (world : World)
            → Carries R.rules self.old (D.state (disk_of self.old)) world → D.Works (disk_of self.new) → ⊥) }
        ensures grows { D.Honest (disk_of self.new) → (world : World)
            → Carries R.rules self.old (D.state (disk_of self.old)) world
            → Grows D.file_len self.old self.new }
        ensures pages { TakesPages self.old self.new }
        ensures writes { D.write_count (disk_of self.new) ≤ D.write_count (disk_of self.old) + 1 }
        ensures syncs { D.sync_count (disk_of self.new) ≤ D.sync_count (disk_of self.old) + 1 }
        ensures honest { D.Honest (disk_of self.new) → D.Honest (disk_of self.old) }
        ensures works { D.Works (disk_of self.new) → D.Works (disk_of self.old) }
    {
        match self.writer.tick(&mut self.disk) {
            Ok(tick) => Ok(tick),
            Err(_) => {
                self.broken = true;
                Err(Fault::DeviceFailed)
            }
        }
    }

    // The first step of a checkpoint: its plan, and then what its first tick writes or syncs.
    fn begin<T: TablesInWords>(&mut self, tables: &T) -> Result<(), Fault>
        requires whole { is_broken self.old ≡ false }
        requires resting { ticks_left self.old ≡ 0 }
        ensures stops { D.Honest (disk_of self.new) → (world : World)
            → (carries : Carries R.rules self.old (D.state (disk_of self.old)) world)
            → LeavesKept (worlds R.rules) (IsRootAt (ticks_left self.old) carries.carried.layout carries.carried.holding)
            (D.past (disk_of self.old)) (D.state (disk_of self.old))
            (D.past (disk_of self.new)) (D.state (disk_of self.new)) world }
        ensures carries { D.Honest (disk_of self.new) → is_broken self.new ≡ false → (world : World)
            → AreLentOf R.rules world (lent_of T.TablesInWords tables.now) → Carries R.rules self.old (D.state (disk_of self.old)) world
            → Carries R.rules self.new (D.state (disk_of self.new)) world }
        ensures starts { OnOk result (D.Honest (disk_of self.new) → (world : World) → AreLentOf R.rules world (lent_of T.TablesInWords tables.now)
            → (carries : Carries R.rules self.old (D.state (disk_of self.old)) world)
            → (then : Carries R.rules self.new (D.state (disk_of self.new)) world)
            × IsBegunOn carries.carried.layout then.carried.layout) }
        ensures roots { is_broken self.new ≡ false → D.Honest (disk_of self.new) → (world : World)
            → AreLentOf R.rules world (lent_of T.TablesInWords tables.now)
            → (carries : Carries R.rules self.old (D.state (disk_of self.old)) world)
            → (then : Carries R.rules self.new (D.state (disk_of self.new)) world)
            × KeepsRoots self.old self.new (tables_due self.old.base (lent_of T.TablesInWords tables.now)).snapshots
            carries.carried.layout carries.carried.holding then.carried.layout then.carried.holding }
        ensures left { OnOk result (ticks_left self.new ≡ first_left self.old (lent_of T.TablesInWords tables.now)) }
        ensures some { OnOk result (3 ≤ ticks_left self.new) }
        ensures most { OnOk result (ticks_left self.new < ticks_due self.old (lent_of T.TablesInWords tables.now)) }
        ensures known { OnOk result (known_snapshots self.new ≡ (tables_due self.old.base (lent_of T.TablesInWords tables.now)).snapshots) }
        ensures number { next_number self.new ≡ next_number self.old }
        ensures slots { (place_of self.new).half.next_slot ≤ (place_of self.old).half.next_slot }
        ensures fresh { OnOk result ((place_of self.old).begun ≡ None → (place_of self.new).half.next_slot ≡ 0) }
        ensures half { OnOk result (((place_of self.new).half ≡ (place_of self.old).half) ⊎ (4 ≤ ticks_left self.new)) }
        ensures fits { OnOk result (IsFileFull self.old (lent_of T.TablesInWords tables.now) → ⊥) }
        ensures root { root_number self.new ≡ root_number self.old }
        ensures broken { is_broken self.new ≡ ends_broken result }
        ensures err { IfErr result (λ fault. IsWant fault ⊎ (fault ≡ Fault.DeviceFailed)) }
        ensures full { IsErrOf result Fault.FileFull → IsFileFull self.old (lent_of T.TablesInWords tables.now) }
        ensures full_behind { IsErrOf result Fault.FileFull → IsFileFull self.new (lent_of T.TablesInWords tables.now) }
        ensures unchanged { IfErr result (λ fault. IsWant fault → IsUnchanged self.old self.new) }
        ensures fault { CountsFault (D.fault_count (disk_of self.old)) (D.fault_count (disk_of self.new)) result }
        ensures device { OnDeviceFault result (D.Honest (disk_of self.new) → (world : World)
            → Carries R.rules self.old (D.state (disk_of self.old)) world → D.Works (disk_of self.new) → ⊥) }
        ensures grows { D.Honest (disk_of self.new) → (world : World)
            → Carries R.rules self.old (D.state (disk_of self.old)) world
            → Grows D.file_len self.old self.new }
        ensures pages { present_of (free_of self.new) ≡ present_of (free_of self.old) }
        ensures writes { D.write_count (disk_of self.new) ≤ D.write_count (disk_of self.old) + 1 }
        ensures syncs { D.sync_count (disk_of self.new) ≤ D.sync_count (disk_of self.old) + 1 }
        ensures honest { D.Honest (disk_of self.new) → D.Honest (disk_of self.old) }
        ensures works { D.Works (disk_of self.new) → D.Works (disk_of self.old) }
    {
        let Planned { plan, standing } = self.plan(tables)?;
        match self.writer.begin(&mut self.disk, plan) {
            Ok(()) => {
                self.base = None;
                self.standing = standing;
                Ok(())
            }
            Err(_) => {
                self.broken = true;
                Err(Fault::DeviceFailed)
            }
        }
    }

    /// Makes a whole checkpoint: begins one where none is under way, and makes all ticks that are left. The tables are
    /// those of the world that the log carries, and the snapshots show games there.
    ///
    /// # Errors
    /// `OpenAgain`; `DeviceFailed`, after which the log is broken; where it begins one also `FileFull` and
    /// `OutOfMemory`, before any device call: then the log goes on.
    pub fn checkpoint<T: TablesInWords>(&mut self, tables: &T) -> Result<(), Fault>
        // Whatever a stop leaves at any moment keeps the world under the root from before, or under the one that the
        // checkpoint takes, and the log carries it on.
        ensures stops { D.Honest (disk_of self.new) → (world : World) → AreLentOf R.rules world (lent_of T.TablesInWords tables.now)
            → (carries : Carries R.rules self.old (D.state (disk_of self.old)) world)
            → LeavesKept (worlds R.rules) (IsRootWithin self.old
            (tables_due self.old.base (lent_of T.TablesInWords tables.now)).snapshots
            carries.carried.layout carries.carried.holding)
            (D.past (disk_of self.old)) (D.state (disk_of self.old))
            (D.past (disk_of self.new)) (D.state (disk_of self.new)) world }
        ensures carries { D.Honest (disk_of self.new) → is_broken self.new ≡ false → (world : World)
            → AreLentOf R.rules world (lent_of T.TablesInWords tables.now) → Carries R.rules self.old (D.state (disk_of self.old)) world
            → Carries R.rules self.new (D.state (disk_of self.new)) world }

        // Then each file that a stop may leave takes a newer root. Its chains spell the world as the checkpoint began,
        // and only the records since then stand behind it. Where none was begun before, that is the world itself, and
        // no record.
        ensures renews { OnOk result (D.Honest (disk_of self.new) → (world : World) → AreLentOf R.rules world (lent_of T.TablesInWords tables.now)
            → (carries : Carries R.rules self.old (D.state (disk_of self.old)) world)
            → EachImage (D.state (disk_of self.new)) (TakesNewer (worlds R.rules) (as_begun carries.carried.layout) world)) }
        ensures whole { OnOk result (HasNoneBegun (place_of self.old) → D.Honest (disk_of self.new) → (world : World)
            → AreLentOf R.rules world (lent_of T.TablesInWords tables.now) → Carries R.rules self.old (D.state (disk_of self.old)) world
            → EachImage (D.state (disk_of self.new)) (TakesRootOf (worlds R.rules) (root_number self.old) world)) }
        ensures root { OnOk result (D.Honest (disk_of self.new) → (world : World) → AreLentOf R.rules world (lent_of T.TablesInWords tables.now)
            → Carries R.rules self.old (D.state (disk_of self.old)) world
            → root_number self.new ≡ root_number self.old + 1) }
        // The root that it writes holds the snapshots too.
        ensures holds { OnOk result (ticks_left self.old ≡ 0 → D.Honest (disk_of self.new) → (world : World)
            → AreLentOf R.rules world (lent_of T.TablesInWords tables.now)
            → (carries : Carries R.rules self.old (D.state (disk_of self.old)) world)
            → (then : Carries R.rules self.new (D.state (disk_of self.new)) world)
            × HoldsWorld carries.carried.layout.middle
            (tables_due self.old.base (lent_of T.TablesInWords tables.now)).snapshots then.carried.layout.holding) }
        // Which root is taken then: the one that was coming, or the one of the checkpoint that it begins.
        ensures takes_root { OnOk result (D.Honest (disk_of self.new) → (world : World)
            → AreLentOf R.rules world (lent_of T.TablesInWords tables.now)
            → (carries : Carries R.rules self.old (D.state (disk_of self.old)) world)
            → (then : Carries R.rules self.new (D.state (disk_of self.new)) world)
            × TakesRoot self.old (tables_due self.old.base (lent_of T.TablesInWords tables.now)).snapshots
            carries.carried.layout carries.carried.holding then.carried.layout) }
        // Where it is refused and the log goes on, the root that is taken stays.
        ensures roots { OnErr result (is_broken self.new ≡ false → D.Honest (disk_of self.new) → (world : World)
            → AreLentOf R.rules world (lent_of T.TablesInWords tables.now)
            → (carries : Carries R.rules self.old (D.state (disk_of self.old)) world)
            → (then : Carries R.rules self.new (D.state (disk_of self.new)) world)
            × KeepsRoots self.old self.new (tables_due self.old.base (lent_of T.TablesInWords tables.now)).snapshots
            carries.carried.layout carries.carried.holding then.carried.layout then.carried.holding) }
        ensures left { OnOk result (ticks_left self.new ≡ 0) }
        ensures rests { OnOk result ((place_of self.new).begun ≡ None) }
        ensures half { 0 < ticks_left self.old → (place_of self.new).half ≡ (place_of self.old).half }
        ensures known { OnOk result (ticks_left self.old ≡ 0 → known_snapshots self.new ≡ (tables_due self.old.base (lent_of T.TablesInWords tables.now)).snapshots) }
        ensures number { next_number self.new ≡ next_number self.old }
        ensures fits { OnOk result (ticks_left self.old ≡ 0 → IsFileFull self.old (lent_of T.TablesInWords tables.now) → ⊥) }

        // When each refusal comes, and what it leaves.
        ensures again { IsErrOf result Fault.OpenAgain ↔ IsTrue (is_broken self.old) }
        ensures untouched { IsErrOf result Fault.OpenAgain → self.new ≡ self.old }
        ensures broken { is_broken self.new ≡ ends_broken result }
        ensures full { IsErrOf result Fault.FileFull → IsFileFull self.old (lent_of T.TablesInWords tables.now) }
        ensures full_behind { IsErrOf result Fault.FileFull → IsFileFull self.new (lent_of T.TablesInWords tables.now) }
        ensures first { IfErr result (λ fault. IsWant fault → ticks_left self.old ≡ 0) }
        ensures unchanged { IfErr result (λ fault. IsWant fault → IsUnchanged self.old self.new) }
        ensures room { IsErrOf result Fault.HalfFull → ⊥ }
        ensures fault { CountsFault (D.fault_count (disk_of self.old)) (D.fault_count (disk_of self.new)) result }
        ensures device { OnDeviceFault result (D.Honest (disk_of self.new) → (world : World) → AreLentOf R.rules world (lent_of T.TablesInWords tables.now)
            → Carries R.rules self.old (D.state (disk_of self.old)) world → D.Works (disk_of self.new) → ⊥) }

        // The file becomes longer only where no page under its end is free: each is reached by the root from before, or
        // by the one that is written, which is taken then unless a device call failed.
        ensures grows { OnOk result (D.Honest (disk_of self.new) → (world : World)
            → AreLentOf R.rules world (lent_of T.TablesInWords tables.now)
            → Carries R.rules self.old (D.state (disk_of self.old)) world
            → GrowsWhereFull (present_of (free_of self.old)) (present_of (free_of self.new))
            (D.file_len (disk_of self.old)) (D.file_len (disk_of self.new))) }
        ensures grows_so_far { OnErr result (D.Honest (disk_of self.new) → (world : World)
            → AreLentOf R.rules world (lent_of T.TablesInWords tables.now)
            → Carries R.rules self.old (D.state (disk_of self.old)) world
            → GrowsWhereFull (present_of (free_of self.old)) (coming_of (free_of self.new))
            (D.file_len (disk_of self.old)) (D.file_len (disk_of self.new))) }
        ensures reclaims { OnOk result (0 < ticks_left self.old → AreReclaimed (free_of self.old) (free_of self.new)) }
        ensures same_free { OnErr result (0 < ticks_left self.old → free_of self.new ≡ free_of self.old) }

        // A write and a sync at most for each tick that is left, or for each of the checkpoint that begins.
        ensures writes { 0 < ticks_left self.old
            → D.write_count (disk_of self.new) ≤ D.write_count (disk_of self.old) + ticks_left self.old }
        ensures syncs { 0 < ticks_left self.old
            → D.sync_count (disk_of self.new) ≤ D.sync_count (disk_of self.old) + ticks_left self.old }
        ensures all_writes { ticks_left self.old ≡ 0 → D.write_count (disk_of self.new)
            ≤ D.write_count (disk_of self.old) + ticks_due self.old (lent_of T.TablesInWords tables.now) }
        ensures all_syncs { ticks_left self.old ≡ 0 → D.sync_count (disk_of self.new)
            ≤ D.sync_count (disk_of self.old) + ticks_due self.old (lent_of T.TablesInWords tables.now) }
        ensures honest { D.Honest (disk_of self.new) → D.Honest (disk_of self.old) }
        ensures works { D.Works (disk_of self.new) → D.Works (disk_of self.old) }
    {
        if self.broken {
            return Err(Fault::OpenAgain);
        }
        if self.writer.ticks_left() > 0 {
            return self.finish();
        }
        self.begin(tables)?;
        self.finish()?;
        Ok(())
    }

    // All ticks that are left.
    fn finish(&mut self) -> Result<(), Fault>
        requires whole { is_broken self.old ≡ false }
        requires under_way { 0 < ticks_left self.old }
        ensures stops { D.Honest (disk_of self.new) → (world : World)
            → (carries : Carries R.rules self.old (D.state (disk_of self.old)) world)
            → LeavesKept (worlds R.rules) (IsEitherRoot carries.carried.layout carries.carried.holding)
            (D.past (disk_of self.old)) (D.state (disk_of self.old))
            (D.past (disk_of self.new)) (D.state (disk_of self.new)) world }
        ensures carries { D.Honest (disk_of self.new) → is_broken self.new ≡ false → (world : World)
            → Carries R.rules self.old (D.state (disk_of self.old)) world
            → Carries R.rules self.new (D.state (disk_of self.new)) world }
        ensures renews { OnOk result (D.Honest (disk_of self.new) → (world : World)
            → (carries : Carries R.rules self.old (D.state (disk_of self.old)) world)
            → EachImage (D.state (disk_of self.new)) (TakesNewer (worlds R.rules) carries.carried.layout world)) }
        ensures renewed { OnOk result (D.Honest (disk_of self.new) → (world : World)
            → (carries : Carries R.rules self.old (D.state (disk_of self.old)) world)
            → (then : Carries R.rules self.new (D.state (disk_of self.new)) world)
            × IsRenewed carries.carried.layout then.carried.layout) }
        // The root that is taken then is the one that was coming.
        ensures takes_root { OnOk result (D.Honest (disk_of self.new) → (world : World)
            → (carries : Carries R.rules self.old (D.state (disk_of self.old)) world)
            → (then : Carries R.rules self.new (D.state (disk_of self.new)) world)
            × IsComingRoot carries.carried.layout carries.carried.holding then.carried.layout) }
        ensures left { OnOk result (ticks_left self.new ≡ 0) }
        ensures rests { OnOk result ((place_of self.new).begun ≡ None) }
        ensures known { known_snapshots self.new ≡ known_snapshots self.old }
        ensures number { next_number self.new ≡ next_number self.old }
        ensures half { (place_of self.new).half ≡ (place_of self.old).half }
        ensures broken { is_broken self.new ≡ ends_broken result }
        ensures err { IfErr result (λ fault. fault ≡ Fault.DeviceFailed) }
        ensures fault { CountsFault (D.fault_count (disk_of self.old)) (D.fault_count (disk_of self.new)) result }
        ensures device { OnDeviceFault result (D.Honest (disk_of self.new) → (world : World)
            → Carries R.rules self.old (D.state (disk_of self.old)) world → D.Works (disk_of self.new) → ⊥) }
        ensures grows { D.Honest (disk_of self.new) → (world : World)
            → Carries R.rules self.old (D.state (disk_of self.old)) world
            → GrowsWhereFull (present_of (free_of self.old)) (coming_of (free_of self.old))
            (D.file_len (disk_of self.old)) (D.file_len (disk_of self.new)) }
        ensures frees { OnOk result (AreReclaimed (free_of self.old) (free_of self.new)) }
        ensures same_free { OnErr result (free_of self.new ≡ free_of self.old) }
        ensures writes { D.write_count (disk_of self.new) ≤ D.write_count (disk_of self.old) + ticks_left self.old }
        ensures syncs { D.sync_count (disk_of self.new) ≤ D.sync_count (disk_of self.old) + ticks_left self.old }
        ensures honest { D.Honest (disk_of self.new) → D.Honest (disk_of self.old) }
        ensures works { D.Works (disk_of self.new) → D.Works (disk_of self.old) }
    {
        match self.writer.finish(&mut self.disk) {
            Ok(()) => Ok(()),
            Err(_) => {
                self.broken = true;
                Err(Fault::DeviceFailed)
            }
        }
    }
}
