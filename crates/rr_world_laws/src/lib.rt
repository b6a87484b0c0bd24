//! Laws on files and worlds: whatever comes to a store's file, each world that it keeps is sound; a file opens or is
//! refused and never both; two fronts of the accepted requests never have one world; whatever lines are served are
//! calls of a store; and few commands are played to open a file. The calls do nothing, except the one that opens a
//! file: their contracts hold of all files, worlds and schedules.
//!
//! Stands on `rr_moderator`, `rr_store`, `rr_tables` and `rr_laws`; nothing of the program stands on it. Its promise:
//! the laws `whatever_comes_is_sound`, `standing_files_open`, `sessions_go_on`, `services_go_on` and
//! `histories_play_few`, at the root.
#![tactic(auto)]

mod disk_types;

ghost use Rattle.std.specs.Prelude.{IfOk};
ghost use Rattle.rr_kit.specs.Kits.{KitTexts};
ghost use Rattle.rr_store.specs.Allowing.{Keeps};
ghost use Rattle.rr_store.specs.Events.{Opens};
ghost use Rattle.rr_store.specs.Holding.{Carries, disk_of, held_of};
ghost use Rattle.rr_world_laws.specs.FewPlays.{HistoriesBegin, HistoriesEnd, HistoriesGoOn, HistoriesNameSnapshots, HistoriesPlayFew, HistoriesStay, KitsHaveShortSnapshots, OpensNamed};
ghost use Rattle.rr_world_laws.specs.Services.{ProgramsGoOn, ServicesGoOn, ServicesKeepInTime, SessionsJoin};
ghost use Rattle.rr_world_laws.specs.Sessions.{SafeSessionsGoOn, SessionsAreSound, SessionsGoOn, SoundSessionsGoOn};
ghost use Rattle.rr_world_laws.specs.Worlds.{FilesAreSound, RightKitsAreNotWrong, StandingFilesOpen, WhateverComesIsSound, WorldsAreSound, WorldsDiffer};

pub use disk_types::{OneType, OneTypeMore, Programs, ProgramsOnDisks};
use rr_disk::Disk;
use rr_store::{Refused, Store, open};
use std::alloc::Global;

/// Whatever commits, steps of checkpoints, faults, crashes and openings come to a new file, each image keeps the world
/// of the acknowledged requests, or that with the pending one. In it each table is in order, no run of a corporation's
/// trains earned more than one paid as best, and each dividend that was paid or withheld was right.
pub fn whatever_comes_is_sound()
    ensures { WhateverComesIsSound }
{
    rr_tables::records::laws::prefix();
    rr_laws::plays_go_on();
    rr_laws::sound();
    rr_laws::best_runs_were_best();
    rr_laws::never_pays_a_wrong_dividend();
    rr_laws::kits_name_corporations();
}

/// Whatever calls are made one after another on a new file, with stops and killed programs within them, stops between
/// them, and openings after these, the law over sessions holds, each world that a stop may leave is sound, and so is
/// what a store holds that isn't broken.
pub fn sessions_are_sound<D: Disk>()
    ensures { SessionsAreSound D.Honest D.Works D.state D.past D.fault_count D.write_count D.sync_count }
{
    whatever_comes_is_sound();
}

/// If a program ends, is killed or is cut off by a crash, and another one is started on what it left, what both do is
/// one schedule, safe over all acknowledged requests of both. What was left need not be synced, and the second disk
/// value may be of any type. This holds however many programs ran before.
pub fn sessions_go_on<D: Disk, E: Disk>()
    ensures two { SessionsGoOn D.Honest D.Works D.state D.past D.fault_count D.write_count D.sync_count
        E.Honest E.Works E.state E.past E.fault_count E.write_count E.sync_count }
    ensures all { SafeSessionsGoOn D.Honest D.Works D.state D.past D.fault_count D.write_count D.sync_count
        E.Honest E.Works E.state E.past E.fault_count E.write_count E.sync_count }
{
    rr_store::laws::sessions_are_safe::<D>();
}

/// What is kept stays sound after a restart: if the first program began on a new file, each world that a crash may
/// leave of a later one's disk is sound, however many ran before. So is what its store holds, unless the device failed.
pub fn sessions_that_go_on_are_sound<D: Disk, E: Disk>()
    ensures { SoundSessionsGoOn D.Honest D.Works D.state D.past D.fault_count D.write_count D.sync_count
        E.Honest E.Works E.state E.past E.fault_count E.write_count E.sync_count }
{
    whatever_comes_is_sound();
}

/// The lines that a moderator answers are calls of its store, at most one commit for a line, and go on safely with
/// whatever was done before. This holds of all lines, and wherever a crash cuts them off or their program is killed:
/// the tables that each image keeps are those of the requests that were acknowledged before and of the lines that were
/// answered `ok` by then, or these with a request for which the line then under way asks.
pub fn services_go_on<D: Disk, E: Disk>()
    ensures services { ServicesGoOn D.Honest D.Works D.state D.past D.fault_count D.write_count D.sync_count
        E.Honest E.Works E.state E.past E.fault_count E.write_count E.sync_count }
    // And where a program opens what was left, by an opening's contract, and then serves.
    ensures programs { ProgramsGoOn D.Honest D.Works D.state D.past D.fault_count D.write_count D.sync_count
        E.Honest E.Works E.state E.past E.fault_count E.write_count E.sync_count }
    // Behind a service comes another one, or a checkpoint.
    ensures join { SessionsJoin E.Honest E.Works E.state E.past E.fault_count E.write_count E.sync_count }
{}

/// At each moment of a service each file that a crash may leave keeps the tables of the requests accepted by then, or
/// those with the pending one of the line under way. Between two lines it keeps just the former, unless the device
/// failed. The moderator's disk has to carry what it holds.
pub fn services_keep_in_time<D: Disk>()
    ensures { ServicesKeepInTime D.Honest D.Works D.state D.past D.fault_count D.write_count D.sync_count }
{}

/// Whatever lawful requests led to a world, each of its tables is in order and had no run as best but one that was,
/// with a kit whose roster names each corporation. With a right kit each of its dividends was right, too.
pub fn worlds_are_sound()
    ensures { WorldsAreSound }
{
    rr_laws::plays_go_on();
    rr_laws::sound();
    rr_laws::best_runs_were_best();
    rr_laws::never_pays_a_wrong_dividend();
}

/// Each file that stands for a world stands for one whose tables are so.
pub fn files_are_sound()
    ensures { FilesAreSound }
{
    rr_laws::sound();
    rr_laws::best_runs_were_best();
    rr_laws::never_pays_a_wrong_dividend();
    rr_laws::kits_name_corporations();
}

/// A kit is right or wrong, and never both.
pub fn right_kits_are_not_wrong()
    ensures { RightKitsAreNotWrong }
{}

/// A file opens or is refused, and never both: one that stands for a world is refused only if the device fails or
/// memory runs out.
pub fn standing_files_open()
    ensures { StandingFilesOpen }
{}

/// Whatever a stop leaves of a disk that carries what a store holds stands for that.
pub fn carried_files_stand<D: Disk + Drop>(store: &Store<D>)
    ensures { (texts : KitTexts) → Carries D.state store.now texts
        → Keeps (D.state (disk_of store.now)) texts (held_of store.now).tables }
{
    let _broken = store.is_broken();
}

/// Two fronts of the accepted requests, one longer than the other, never have one world.
pub fn worlds_differ()
    ensures { WorldsDiffer }
{}

/// Whatever the kit, no snapshot of tables that were played by its rules is too long for a file: so a checkpoint is lent
/// each.
pub fn snapshots_are_short()
    ensures { KitsHaveShortSnapshots }
{
    rr_laws::games_are_short();
}

/// An opening is one of which histories speak.
///
/// # Errors
/// As of `rr_store::open`.
pub fn open_in_a_history<D: Disk + Drop>(alloc: Global, disk: D) -> Result<Store<D>, Refused<D>>
    ensures opens { Opens D.Honest D.state D.past disk result }
    ensures named { IfOk result (λ store. OpensNamed D.Honest D.state disk store) }
{
    open(alloc, disk)
}

/// Few commands are played to open a file, whatever programs opened it since it was new, each with a type of disk that
/// may be its own, and whatever commits, ticks and checkpoints they made. What a crash leaves between two calls, or at
/// any moment of one, keeps tables, and its root has exactly the snapshots that each needs. So does what a call leaves
/// whose device failed.
pub fn histories_play_few<P: ProgramsOnDisks>()
    // A file that was formatted begins a history. It goes on when a program ends, also after a call whose device failed.
    ensures begin { HistoriesBegin P.programs }
    ensures go_on { HistoriesGoOn P.programs }
    ensures end { HistoriesEnd P.programs }
    // It also goes on if a crash comes within an opening.
    ensures stay { HistoriesStay P.programs }

    // Its root is so, and each opening plays few commands.
    ensures named { HistoriesNameSnapshots P.programs }
    ensures few { HistoriesPlayFew P.programs }
{
    snapshots_are_short();
    rr_store::laws::openings_play_few();
}
