// Records.
ghost use Rattle.std.specs.Prelude.{◌≡◌, ◌⊎◌, ◌↔◌, ◌+◌, ◌^◌, ◌<◌, ◌≤◌, false, List, length, IfOk, IfErr, IsErrOf, IsTrue, OnOk, None, Ok, Err};
ghost use Rattle.rr_checkpoint.specs.Calls.{IsRootAt, LeavesKept, LeavesEither};
ghost use Rattle.rr_checkpoint.specs.Holds.{IsRenewed};
ghost use Rattle.rr_disk.specs.Moments.{EachImage};
ghost use Rattle.rr_images.specs.Calls.{TakesNewer};
ghost use Rattle.rr_images.specs.Layout.{IsSameRoot};
ghost use Rattle.rr_images.specs.Steps.{with_line};
ghost use Rattle.rr_log.specs.Fault.{CountsFault, IsWant, OnDeviceFault, ends_broken};
ghost use Rattle.rr_log.specs.Lent.{AreLentOf, lent_of};
ghost use Rattle.rr_log.specs.PuttingOff.{reason_of};
ghost use Rattle.rr_reading.specs.Worlds.Spelling.{worlds};
ghost use Rattle.rr_reading.specs.Worlds.World.{Snapshot, World};

use crate::planning::is_past_last;
use crate::{Fault, Log, TablesInWords};
use rr_disk::Disk;
use rr_reading::worlds::Rules;

/// Why the first step of a checkpoint that was due was put off.
#[derive(Clone, Copy, Debug, PartialEq, Eq)]
pub enum PutOff {
    /// Fewer pages are free than the checkpoint needs, or a number would be past the last.
    FileFull,
    /// A request for memory was refused.
    OutOfMemory,
}

impl<D: Disk + Drop, R: Rules> Log<D, R> {
    ghost use Rattle.rr_log.specs.Calls.{IsFileFull, MayRefuse, MeetsFullFile, NumberBehind, first_left, layout_behind, tables_due, ticks_due, world_behind};
    ghost use Rattle.rr_log.specs.Carrying.{Carries, HaveSameTexts};
    ghost use Rattle.rr_log.specs.Growing.{Grows, TakesPages};
    ghost use Rattle.rr_log.specs.Log.{disk_of, free_of, is_broken, next_number, place_of, ticks_left, HasNoRoom, IsDue, IsTooLong};
    ghost use Rattle.rr_log.specs.PuttingOff.{BeginsIfDue};
    ghost use Rattle.rr_log.specs.Roots.{KeepsRoots};

    /// Keeps a record. After `Ok` it is safe. Before it a tick is made, where a checkpoint is under way or is to begin;
    /// the tables are those of the world before the record, and the snapshots show games there. A line has a byte at
    /// least. If a checkpoint was due and its first tick was put off, the reason is returned.
    ///
    /// # Errors
    /// `OpenAgain`, with nothing changed; `DeviceFailed`, after which the record is on the disk or not, and the log is
    /// broken; `HalfFull` where the half in use has no room for the record, of which nothing is written then. What
    /// refuses the tick (`FileFull`, `OutOfMemory`) is put off, and told in place of `HalfFull` alone. `FileFull` also
    /// where the record's number would be 2^63 - 1 or more.
    pub fn keep<T: TablesInWords>(
        &mut self,
        tables: &T,
        line: &[u8],
    ) -> Result<Option<PutOff>, Fault>
        requires { 0 < length line.now }

        // Whatever a stop leaves at any moment keeps the world from before the record, or the one behind it, under the
        // root from before or, where the tick is the last one of a checkpoint, under the coming one; and the log carries
        // on the world that the answer tells.
        ensures stops { D.Honest (disk_of self.new) → (old new : World) → R.rules.takes line.now old new
            → HaveSameTexts old new → AreLentOf R.rules old (lent_of T.TablesInWords tables.now)
            → (carries : Carries R.rules self.old (D.state (disk_of self.old)) old)
            → LeavesEither (worlds R.rules) (IsRootAt (ticks_left self.old) carries.carried.layout carries.carried.holding)
            (D.past (disk_of self.old)) (D.state (disk_of self.old))
            (D.past (disk_of self.new)) (D.state (disk_of self.new)) old new }
        ensures carries { D.Honest (disk_of self.new) → is_broken self.new ≡ false → (old new : World)
            → R.rules.takes line.now old new → HaveSameTexts old new → AreLentOf R.rules old (lent_of T.TablesInWords tables.now)
            → Carries R.rules self.old (D.state (disk_of self.old)) old
            → Carries R.rules self.new (D.state (disk_of self.new)) (world_behind result old new) }
        ensures number { NumberBehind result (next_number self.old) (next_number self.new) }

        // How far a checkpoint comes. Where the tick was its last, each file that a stop may leave takes a newer root:
        // its chains spell the world as the checkpoint began, and only the records since then stand behind it, this one
        // too if it is kept.
        ensures renews { is_broken self.new ≡ false → ticks_left self.old ≡ 1 → ticks_left self.new ≡ 0
            → D.Honest (disk_of self.new) → (old new : World) → R.rules.takes line.now old new → HaveSameTexts old new
            → (carries : Carries R.rules self.old (D.state (disk_of self.old)) old)
            → EachImage (D.state (disk_of self.new)) (TakesNewer (worlds R.rules)
            (layout_behind result carries.carried.layout line.now new) (world_behind result old new)) }
        // What becomes of the root that is taken and of the coming one: where the tick began a checkpoint, that is to
        // hold these snapshots.
        ensures roots { is_broken self.new ≡ false → D.Honest (disk_of self.new) → (old new : World)
            → R.rules.takes line.now old new → HaveSameTexts old new
            → AreLentOf R.rules old (lent_of T.TablesInWords tables.now)
            → (carries : Carries R.rules self.old (D.state (disk_of self.old)) old)
            → (then : Carries R.rules self.new (D.state (disk_of self.new)) (world_behind result old new))
            × KeepsRoots self.old self.new (tables_due self.old.base (lent_of T.TablesInWords tables.now)).snapshots
            carries.carried.layout carries.carried.holding then.carried.layout then.carried.holding }
        ensures most { is_broken self.new ≡ false → ticks_left self.old ≡ 0
            → ticks_left self.new < ticks_due self.old (lent_of T.TablesInWords tables.now) }
        ensures left { is_broken self.new ≡ false → next_number self.old + 1 < 2 ^ 63 → 0 < ticks_left self.old
            → ticks_left self.old ≡ ticks_left self.new + 1 }
        ensures comes { IsErrOf result Fault.HalfFull → 0 < ticks_left self.old
            → ticks_left self.old ≡ ticks_left self.new + 1 }
        ensures rests { ticks_left self.old ≡ 0 → (IsDue (place_of self.old) → ⊥) → ticks_left self.new ≡ 0 }
        ensures begins { is_broken self.new ≡ false → ticks_left self.old ≡ 0
            → (ticks_left self.new ≡ 0) ⊎ (ticks_left self.new ≡ first_left self.old (lent_of T.TablesInWords tables.now)) }
        // With a record that is kept, a checkpoint begins if one was due and none was under way; or the reason is returned
        // why its first tick was put off.
        ensures begins_due { IfOk result (BeginsIfDue self.old self.new (lent_of T.TablesInWords tables.now)) }
        ensures resting { IsErrOf result Fault.HalfFull → ticks_left self.new ≡ 0 → (place_of self.new).begun ≡ None }
        ensures nothing { IfErr result (λ fault. is_broken self.new ≡ false → ticks_left self.old ≡ 0
            → ticks_left self.new ≡ 0 → disk_of self.new ≡ disk_of self.old) }
        // Room is made by a checkpoint that begins.
        ensures makes_room { OnOk result (HasNoRoom (place_of self.old) (length line.now) → 4 ≤ ticks_left self.new) }

        // When each refusal comes.
        ensures again { IsErrOf result Fault.OpenAgain ↔ IsTrue (is_broken self.old) }
        ensures untouched { IsErrOf result Fault.OpenAgain → self.new ≡ self.old }
        ensures broken { is_broken self.new ≡ ends_broken result }
        ensures refused { IfErr result (MayRefuse (place_of self.new) (length line.now)) }
        ensures full { IsErrOf result Fault.HalfFull → HasNoRoom (place_of self.old) (length line.now) }
        ensures full_file { IsErrOf result Fault.FileFull
            → MeetsFullFile self.new (lent_of T.TablesInWords tables.now) (length line.now) }
        ensures long { IsErrOf result Fault.HalfFull → ticks_left self.old ≡ 0 → (place_of self.old).begun ≡ None
            → IsTooLong (length line.now) }
        ensures memory { IsErrOf result Fault.OutOfMemory → (ticks_left self.old ≡ 0) × IsDue (place_of self.old) }
        ensures fault { CountsFault (D.fault_count (disk_of self.old)) (D.fault_count (disk_of self.new)) result }
        ensures device { OnDeviceFault result (D.Honest (disk_of self.new) → (world : World)
            → Carries R.rules self.old (D.state (disk_of self.old)) world → D.Works (disk_of self.new) → ⊥) }

        // A record lies within the file, which becomes longer only by a page of a checkpoint, and only where no page
        // under its end is free.
        ensures grows { D.Honest (disk_of self.new) → (world : World)
            → AreLentOf R.rules world (lent_of T.TablesInWords tables.now)
            → Carries R.rules self.old (D.state (disk_of self.old)) world
            → Grows D.file_len self.old self.new }
        ensures pages { TakesPages self.old self.new }

        // Two of each are the record's, and one the tick's, where it is one of a checkpoint. Where the half is full
        // only the tick's are made.
        ensures writes { D.write_count (disk_of self.new) ≤ D.write_count (disk_of self.old) + 3 }
        ensures syncs { D.sync_count (disk_of self.new) ≤ D.sync_count (disk_of self.old) + 3 }
        ensures tick_writes { IsErrOf result Fault.HalfFull
            → D.write_count (disk_of self.new) ≤ D.write_count (disk_of self.old) + 1 }
        ensures tick_syncs { IsErrOf result Fault.HalfFull
            → D.sync_count (disk_of self.new) ≤ D.sync_count (disk_of self.old) + 1 }
        ensures own_writes { ticks_left self.old ≡ 0 → (IsDue (place_of self.old) → ⊥)
            → D.write_count (disk_of self.new) ≤ D.write_count (disk_of self.old) + 2 }
        ensures own_syncs { ticks_left self.old ≡ 0 → (IsDue (place_of self.old) → ⊥)
            → D.sync_count (disk_of self.new) ≤ D.sync_count (disk_of self.old) + 2 }
        ensures honest { D.Honest (disk_of self.new) → D.Honest (disk_of self.old) }
        ensures works { D.Works (disk_of self.new) → D.Works (disk_of self.old) }
    {
        if self.broken {
            return Err(Fault::OpenAgain);
        }
        if is_past_last(self.writer.place().number) {
            return Err(Fault::FileFull);
        }
        let full = self.tick_before(tables)?;
        self.append(line, full)?;
        Ok(reason(full))
    }

    // Makes the tick that comes before a record, and gives what is told if the record then has no room.
    fn tick_before<T: TablesInWords>(&mut self, tables: &T) -> Result<Fault, Fault>
        requires { is_broken self.old ≡ false }
        ensures stops { D.Honest (disk_of self.new) → (world : World)
            → (carries : Carries R.rules self.old (D.state (disk_of self.old)) world)
            → LeavesKept (worlds R.rules) (IsRootAt (ticks_left self.old) carries.carried.layout carries.carried.holding)
            (D.past (disk_of self.old)) (D.state (disk_of self.old))
            (D.past (disk_of self.new)) (D.state (disk_of self.new)) world }
        ensures carries { D.Honest (disk_of self.new) → is_broken self.new ≡ false → (world : World)
            → AreLentOf R.rules world (lent_of T.TablesInWords tables.now) → Carries R.rules self.old (D.state (disk_of self.old)) world
            → Carries R.rules self.new (D.state (disk_of self.new)) world }
        ensures renewed { is_broken self.new ≡ false → ticks_left self.old ≡ 1 → D.Honest (disk_of self.new)
            → (world : World) → (carries : Carries R.rules self.old (D.state (disk_of self.old)) world)
            → (then : Carries R.rules self.new (D.state (disk_of self.new)) world)
            × IsRenewed carries.carried.layout then.carried.layout }
        ensures roots { is_broken self.new ≡ false → D.Honest (disk_of self.new) → (world : World)
            → AreLentOf R.rules world (lent_of T.TablesInWords tables.now)
            → (carries : Carries R.rules self.old (D.state (disk_of self.old)) world)
            → (then : Carries R.rules self.new (D.state (disk_of self.new)) world)
            × KeepsRoots self.old self.new (tables_due self.old.base (lent_of T.TablesInWords tables.now)).snapshots
            carries.carried.layout carries.carried.holding then.carried.layout then.carried.holding }
        ensures full { IfOk result (λ full. IsWant full ⊎ (full ≡ Fault.HalfFull)) }
        ensures want { IfOk result (λ full. IsWant full → (ticks_left self.old ≡ 0) × IsDue (place_of self.old)) }
        ensures err { IfErr result (λ fault. fault ≡ Fault.DeviceFailed) }
        ensures left { is_broken self.new ≡ false → 0 < ticks_left self.old
            → ticks_left self.old ≡ ticks_left self.new + 1 }
        ensures idle { ticks_left self.old ≡ 0 → (IsDue (place_of self.old) → ⊥) → self.new ≡ self.old }
        ensures begins { is_broken self.new ≡ false → ticks_left self.old ≡ 0
            → (ticks_left self.new ≡ 0) ⊎ (ticks_left self.new ≡ first_left self.old (lent_of T.TablesInWords tables.now)) }
        ensures nothing { is_broken self.new ≡ false → ticks_left self.old ≡ 0 → ticks_left self.new ≡ 0
            → disk_of self.new ≡ disk_of self.old }
        ensures most { is_broken self.new ≡ false → ticks_left self.old ≡ 0
            → ticks_left self.new < ticks_due self.old (lent_of T.TablesInWords tables.now) }
        ensures few { IfOk result (λ full. full ≡ Fault.HalfFull → ticks_left self.old ≡ 0
            → (place_of self.old).begun ≡ None → (place_of self.new).half.next_slot < 128) }
        ensures resting { IfOk result (λ full. full ≡ Fault.HalfFull → ticks_left self.new ≡ 0
            → (place_of self.new).begun ≡ None) }
        ensures half { IfOk result (λ full. ((place_of self.new).half ≡ (place_of self.old).half)
            ⊎ (4 ≤ ticks_left self.new)) }
        ensures full_file { IfOk result (λ full. full ≡ Fault.FileFull
            → (ticks_left self.new ≡ 0) × IsFileFull self.new (lent_of T.TablesInWords tables.now)) }
        ensures begins_due { IfOk result (λ full.
            BeginsIfDue self.old self.new (lent_of T.TablesInWords tables.now) (reason_of full)) }
        ensures number { next_number self.new ≡ next_number self.old }
        ensures slots { (place_of self.new).half.next_slot ≤ (place_of self.old).half.next_slot }
        ensures broken { is_broken self.new ≡ ends_broken result }
        ensures fault { CountsFault (D.fault_count (disk_of self.old)) (D.fault_count (disk_of self.new)) result }
        ensures device { OnDeviceFault result (D.Honest (disk_of self.new) → (world : World)
            → Carries R.rules self.old (D.state (disk_of self.old)) world → D.Works (disk_of self.new) → ⊥) }
        ensures grows { D.Honest (disk_of self.new) → (world : World)
            → Carries R.rules self.old (D.state (disk_of self.old)) world
            → Grows D.file_len self.old self.new }
        ensures pages { TakesPages self.old self.new }
        ensures writes { D.write_count (disk_of self.new) ≤ D.write_count (disk_of self.old) + 1 }
        ensures syncs { D.sync_count (disk_of self.new) ≤ D.sync_count (disk_of self.old) + 1 }
        ensures honest { D.Honest (disk_of self.new) → D.Honest (disk_of self.old) }
        ensures works { D.Works (disk_of self.new) → D.Works (disk_of self.old) }
    {
        match self.step(tables) {
            Ok(_) => Ok(Fault::HalfFull),
            Err(fault) => put_off(fault),
        }
    }

    // Appends the record. This is told where it has no room.
    fn append(&mut self, line: &[u8], full: Fault) -> Result<(), Fault>
        requires some { 0 < length line.now }
        requires whole { is_broken self.old ≡ false }
        requires number { next_number self.old < 2 ^ 63 }
        requires full { IsWant full ⊎ (full ≡ Fault.HalfFull) }
        ensures stops { D.Honest (disk_of self.new) → (old new : World) → R.rules.takes line.now old new
            → (carries : Carries R.rules self.old (D.state (disk_of self.old)) old)
            → LeavesEither (worlds R.rules) (IsSameRoot carries.carried.layout)
            (D.past (disk_of self.old)) (D.state (disk_of self.old))
            (D.past (disk_of self.new)) (D.state (disk_of self.new)) old new }
        ensures carries { D.Honest (disk_of self.new) → is_broken self.new ≡ false → (old new : World)
            → R.rules.takes line.now old new → HaveSameTexts old new
            → Carries R.rules self.old (D.state (disk_of self.old)) old
            → Carries R.rules self.new (D.state (disk_of self.new)) (world_behind result old new) }
        ensures appends { OnOk result (D.Honest (disk_of self.new) → (old new : World) → R.rules.takes line.now old new
            → HaveSameTexts old new → (carries : Carries R.rules self.old (D.state (disk_of self.old)) old)
            → (then : Carries R.rules self.new (D.state (disk_of self.new)) new)
            × (then.carried.layout ≡ with_line carries.carried.layout line.now new)) }
        // Both roots stay, whatever snapshots are due, since no checkpoint is begun.
        ensures roots { is_broken self.new ≡ false → D.Honest (disk_of self.new) → (due : List Snapshot) → (old new : World)
            → R.rules.takes line.now old new → HaveSameTexts old new
            → (carries : Carries R.rules self.old (D.state (disk_of self.old)) old)
            → (then : Carries R.rules self.new (D.state (disk_of self.new)) (world_behind result old new))
            × KeepsRoots self.old self.new due carries.carried.layout carries.carried.holding
            then.carried.layout then.carried.holding }
        ensures number { NumberBehind result (next_number self.old) (next_number self.new) }
        ensures left { ticks_left self.new ≡ ticks_left self.old }
        ensures broken { is_broken self.new ≡ ends_broken result }
        ensures refused { IfErr result (MayRefuse (place_of self.new) (length line.now)) }
        ensures full { IsErrOf result full → HasNoRoom (place_of self.old) (length line.now) }
        ensures room { OnOk result (HasNoRoom (place_of self.old) (length line.now) → ⊥) }
        ensures same { IsErrOf result full → self.new ≡ self.old }
        ensures err { IfErr result (λ fault. (fault ≡ full) ⊎ (fault ≡ Fault.DeviceFailed)) }
        ensures fault { CountsFault (D.fault_count (disk_of self.old)) (D.fault_count (disk_of self.new)) result }
        ensures device { OnDeviceFault result (D.Works (disk_of self.new) → ⊥) }
        ensures free { free_of self.new ≡ free_of self.old }
        ensures same_len { D.Honest (disk_of self.new) → (world : World)
            → Carries R.rules self.old (D.state (disk_of self.old)) world
            → D.file_len (disk_of self.new) ≡ D.file_len (disk_of self.old) }
        ensures writes { D.write_count (disk_of self.new) ≤ D.write_count (disk_of self.old) + 2 }
        ensures syncs { D.sync_count (disk_of self.new) ≤ D.sync_count (disk_of self.old) + 2 }
        ensures honest { D.Honest (disk_of self.new) → D.Honest (disk_of self.old) }
        ensures works { D.Works (disk_of self.new) → D.Works (disk_of self.old) }
    {
        match self.writer.append(&mut self.disk, line) {
            Ok(()) => Ok(()),
            Err(rr_pages::Fault::HalfFull) => Err(full),
            Err(rr_pages::Fault::Disk(_)) => {
                self.broken = true;
                Err(Fault::DeviceFailed)
            }
            Err(
                rr_pages::Fault::FileFull
                | rr_pages::Fault::Damaged(_)
                | rr_pages::Fault::NotAStore
                | rr_pages::Fault::OutOfMemory,
            ) => unreachable!(),
        }
    }
}

// What becomes of the refusal of a tick before a record: that of the device is told, any other put off.
fn put_off(fault: Fault) -> Result<Fault, Fault>
    requires { IsWant fault ⊎ (fault ≡ Fault.DeviceFailed) }
    ensures want { IfOk result (λ full. (full ≡ fault) × IsWant fault) }
    ensures device { IfErr result (λ told. (told ≡ fault) × (fault ≡ Fault.DeviceFailed)) }
{
    match fault {
        Fault::DeviceFailed => Err(fault),
        Fault::HalfFull | Fault::FileFull | Fault::OpenAgain | Fault::OutOfMemory => Ok(fault),
    }
}

// Why the tick was put off after which this is told if the record has no room.
fn reason(full: Fault) -> Option<PutOff>
    ensures { result ≡ reason_of full }
{
    match full {
        Fault::FileFull => Some(PutOff::FileFull),
        Fault::OutOfMemory => Some(PutOff::OutOfMemory),
        Fault::DeviceFailed | Fault::HalfFull | Fault::OpenAgain => None,
    }
}
