ghost use Rattle.std.specs.Prelude.{◌≡◌, ◌-◌, false, map};
ghost use Rattle.rr_checkpoint.specs.Plan.Standing.{StandIn, standing_as};
ghost use Rattle.rr_checkpoint.specs.Writer as file;
ghost use Rattle.rr_disk.specs.Disk.{DiskState};
ghost use Rattle.rr_reading.specs.Worlds.Spelling.{worlds};
ghost use Rattle.rr_reading.specs.Worlds.World.{World};

use rr_checkpoint::Writer;
use rr_checkpoint::plan::{KitPages, StandingSnapshot, Transcript};
use rr_disk::Disk;
use rr_reading::worlds::{Rules, Worlds};
use std::alloc::Global;

/// The open file of a store: its disk, what writes to it, and where the texts of its kit and its snapshots stand.
#[derive(Drop)]
pub struct Log<D: Drop, R> {
    pub(crate) alloc: Global,
    pub(crate) disk: D,
    pub(crate) writer: Writer<Worlds<R>>,
    pub(crate) kit: KitPages,
    // Where the snapshots of the root that is taken stand; while a checkpoint is under way, those of the coming one.
    pub(crate) standing: Vec<StandingSnapshot>,
    // Where an opening found a checkpoint begun, and until its plan is made: the tables and snapshots from before the
    // first record of the other half.
    pub(crate) base: Option<Transcript>,
    pub(crate) broken: bool,
}

impl<D: Disk + Drop, R: Rules> Log<D, R> {
    ghost use Rattle.rr_log.specs.Carrying.{Carries, HoldsKit, IsBase};
    ghost use Rattle.rr_log.specs.Log.{disk_of, writer_of, is_broken, known_snapshots, next_number, ticks_left};

    /// A log on a disk of which an opening made this writer. `standing` are the snapshots that the root holds, in the
    /// directory's order; `base` is there exactly where the opening found a checkpoint begun.
    pub fn new(
        alloc: Global,
        disk: D,
        writer: Writer<Worlds<R>>,
        kit: KitPages,
        standing: Vec<StandingSnapshot>,
        base: Option<Transcript>,
    ) -> Log<D, R>
        ensures carries { (state : DiskState) (world : World)
            → (carries : file.Carries (worlds R.rules) writer state world) → file.ticks_left_of writer ≡ 0
            → (holds : HoldsKit kit carries.layout world)
            → StandIn holds.texts standing.items carries.layout.holding
            → IsBase R.rules (file.place_of writer).begun base carries.layout.middle
            → Carries R.rules result state world }
        ensures known { known_snapshots result ≡ map standing_as standing.items }
        ensures disk { disk_of result ≡ disk }
        ensures writer { writer_of result ≡ writer }
        ensures base { result.base ≡ base }
        ensures whole { is_broken result ≡ false }
    {
        Log {
            alloc,
            disk,
            writer,
            kit,
            standing,
            base,
            broken: false,
        }
    }

    /// A device call failed, and each call is refused until the file is opened again.
    pub fn is_broken(&self) -> bool
        ensures { result ≡ is_broken self.now }
    {
        self.broken
    }

    /// The number before the next record's: that of the last record, 0 in a new file.
    pub fn last(&self) -> u64
        ensures { result ≡ next_number self.now - 1 }
    {
        self.writer.place().number.saturating_sub(1)
    }

    /// How many ticks the checkpoint under way has left, 0 without one.
    pub fn ticks_left(&self) -> usize
        ensures { result ≡ ticks_left self.now }
    {
        self.writer.ticks_left()
    }

    /// The disk that the file stood on.
    pub fn into_disk(self) -> D
        ensures { result ≡ disk_of self }
    {
        self.disk
    }
}
