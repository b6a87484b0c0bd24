//! What the definitions of files and worlds say, and the law over sessions. The functions do nothing: their contracts
//! hold of all files, worlds and disks.
ghost use Rattle.rr_store.specs.Events.{CommitsAreEvents, OpensAreEvents, StepsAreEvents};
ghost use Rattle.rr_store.specs.Laws.{BareTablesArePlayedOnce, FewAreLeft, LentRootsAreNamed, NumbersAreInTheFile, OneWorld};
ghost use Rattle.rr_store.specs.Named.{CallsKeepNames, CheckpointsPlayFew, NamedRootsPlayFew, NewFilesNameSnapshots, NoneIsComingAtRest, OpeningsPlayFew, ShortSnapshotsAreLent};
ghost use Rattle.rr_store.specs.Sessions.{OpeningsAndRequestsAreSessions, PartsOfWritesAreLeft, SessionsAreSafe};

use rr_checkpoint::Tick;
use rr_disk::Disk;

/// A file stands for one kit and one world.
pub fn one_world()
    ensures { OneWorld }
{}

/// The numbers that a store returns are in its file, whatever a stop leaves of it: the number of the last record, as
/// `last` returns it, and that of the current root.
pub fn numbers_are_in_the_file<D: Disk>()
    ensures { NumbersAreInTheFile D.state }
{}

/// If a directory names the snapshots that each table needs, few commands are left to be played after the last ones.
pub fn few_are_left()
    // Fewer than 64 of a table whose snapshots are just those that it is to have;
    ensures few { FewAreLeft }
    // all behind its opening of one of which there is none;
    ensures bare { BareTablesArePlayedOnce }
    // and it names just those of each table, where it is written of what played tables with their snapshots lend.
    ensures named { LentRootsAreNamed }
{}

/// An opening plays few commands of a file whose root has exactly the snapshots that each table needs.
/// `Store::checkpoint` says that each file which it leaves has such a root (`names`), `named_roots_play_few` says so of
/// one that is made by steps, and `open` returns how many commands it played (`replayed`).
pub fn openings_play_few()
    // Fewer than 64 of each table in the root, beside those of the records;
    ensures few { OpeningsPlayFew }
    // and where no record stands behind the root, as behind a checkpoint, fewer than 64 of each table that is held.
    ensures behind_a_checkpoint { CheckpointsPlayFew }
    // A new file has such a root.
    ensures new_files { NewFilesNameSnapshots }
{}

/// Few commands are played to open what a stop between calls leaves of a store whose roots have exactly the snapshots
/// that each table needs. Each call that doesn't break the store keeps that they have them, and that the next root is
/// to have them; after the last step of a checkpoint the next root is current (`names` and `renews_names` of `Steps`
/// and `Commits`). An opening of a file with such a root begins with such roots (`names` of `open`).
pub fn named_roots_play_few<D: Disk>()
    ensures images { NamedRootsPlayFew D.state }
    // Where no checkpoint is under way, and none was found begun, nothing is asked of a coming root;
    ensures at_rest { NoneIsComingAtRest D.state }
    // such a store lends a checkpoint what it is to have, if no snapshot is too long for a file;
    ensures lends { ShortSnapshotsAreLent D.state }
    // and what each call keeps, all of them keep.
    ensures calls { CallsKeepNames D.state }
{}

/// Calls on a store are events that the law over schedules allows, however they end and wherever a crash cuts them off.
/// That is so of a commit, a tick and a checkpoint on a store that isn't broken, and of an opening of a file that keeps
/// tables of a right kit.
pub fn calls_are_events<D: Disk>()
    ensures commits { CommitsAreEvents D.Honest D.Works D.state D.past D.fault_count D.write_count D.sync_count }
    ensures ticks { StepsAreEvents D.Honest D.Works D.state D.past D.fault_count D.write_count D.sync_count Tick }
    ensures checkpoints { StepsAreEvents D.Honest D.Works D.state D.past D.fault_count D.write_count D.sync_count (Unit {0}) }
    ensures opens { OpensAreEvents D.Honest D.Works D.state D.past D.fault_count D.write_count D.sync_count }
{}

/// Whatever calls are made on a file that keeps tables of a right kit, with crashes, killed programs and openings, each
/// file that a crash may leave keeps the tables of the acknowledged requests, or those with the pending one. Crashes
/// may come within calls and between them, and openings after these. A store that isn't broken holds just the
/// acknowledged ones, and no opening is refused.
pub fn sessions_are_safe<D: Disk>()
    ensures safe { SessionsAreSafe D.Honest D.Works D.state D.past D.fault_count D.write_count D.sync_count }
    // What a killed program leaves may be a write in part.
    ensures parts { PartsOfWritesAreLeft }
    // There are such sessions.
    ensures example { OpeningsAndRequestsAreSessions D.Honest D.Works D.state D.past D.fault_count D.write_count D.sync_count }
{}
