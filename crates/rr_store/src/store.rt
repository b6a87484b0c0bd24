ghost use Rattle.std.specs.Prelude.{◌≡◌, ◌↔◌, ◌+◌, ◌<◌, ◌≤◌, true, false, IfOk, MatchResult, OnErr, OnOk, Some, slice_get, length};
ghost use Rattle.std.specs.Option.{option_copied};
ghost use Rattle.rr_checkpoint.specs.Growing.{AreReclaimed, GrowsWhereFull};
ghost use Rattle.rr_checkpoint.specs.Writer.{RenewsAt};
ghost use Rattle.rr_code.specs.Request.{IsRequest};
ghost use Rattle.rr_disk.specs.Moments.{EachImage};
ghost use Rattle.rr_game.specs.History.Tables.{IsPlayed, kept_in};
ghost use Rattle.rr_images.specs.Calls.{TakesNewer};
ghost use Rattle.rr_kit.specs.Kits.{KitTexts};
ghost use Rattle.rr_reading.specs.declared.dir.directory.TheConstants.{MOST_TABLES};
ghost use Rattle.rr_log.specs.Calls.{IsFileFull, LowersFrom, NumbersRoot, TakesRootOf, as_begun, first_left, ticks_due};
ghost use Rattle.rr_log.specs.Growing.{Grows, TakesPages};
ghost use Rattle.rr_pages.specs.FreePages.{coming_of, present_of};
ghost use Rattle.rr_tables.specs.Records.Taking.{table_files};
ghost use Rattle.rr_tables.specs.Records.Words.{in_words};
ghost use Rattle.rr_store.specs.Held.{LacksTable};
ghost use Rattle.rr_store.specs.World.{names, table_named};
ghost use Rattle.rr_words.specs.Name.{IsTableName};

use crate::fault::Fault;
use crate::journal::FileJournal;
use rr_checkpoint::Tick;
use rr_code::{Command, Request};
use rr_disk::Disk;
use rr_game::history::Table;
use rr_kit::Kit;
use rr_log::PutOff;
use rr_tables::Tables;
use rr_words::Name;
use std::alloc::Global;

/// An open file, and the tables that it keeps.
#[derive(Drop)]
pub struct Store<D: Drop> {
    pub(crate) alloc: Global,
    pub(crate) journal: FileJournal<D>,
    pub(crate) tables: Tables,
    pub(crate) replayed: u64,
}

impl<D: Disk + Drop> Store<D> {
    ghost use Rattle.rr_store.specs.Committing.{Commits};
    ghost use Rattle.rr_store.specs.Holding.{Carries, GamesArePlayed, GamesHaveSnapshots, HasNoneBegun, IsUnchanged, Rests, disk_of, file_of, free_of, held_of, lent_of, last_of, put_off_of, replayed_of, root_of, ticks_left};
    ghost use Rattle.rr_store.specs.Named.{HasShortSnapshots, LendsNamed, NamesComing, NamesRoots, NamesSnapshots};
    ghost use Rattle.rr_store.specs.Ticking.{MakesFew, Steps};

    /// The disk on which the file stands, with all that it went through.
    pub fn into_disk(self) -> D
        ensures { result ≡ disk_of self }
    {
        let Store {
            alloc: _,
            journal,
            tables: _,
            replayed: _,
        } = self;
        let FileJournal {
            file,
            buffer: _,
            put_off: _,
        } = journal;
        file.into_disk()
    }

    /// Lets a table take a request with this stamp, and keeps it in the file; gives the table's new stamp. From `Ok` on
    /// the request is safe. Before it a step of a checkpoint is made, where one is under way or due; where the half in
    /// use has no room meanwhile, the checkpoint is ended first. If a checkpoint was due and its first step was put off,
    /// `put_off` then says why.
    ///
    /// # Errors
    /// `OpenAgain` first, where the device failed before. Then what refuses the request: for an opening `StaleStamp`
    /// and `TooManyTables`; for another request `NoSuchTable`, `StaleStamp`, `TooManyCommands`, and then `TurnNotKept`
    /// for one that takes the table back or forgets, or what the game refuses. Then `OutOfMemory`, and `FileFull` where
    /// the request's record takes more than eight slots, where its number would be 2^63 - 1 or more, or where the half in
    /// use has no room for it and a checkpoint finds too few free pages or no number for its root. After `DeviceFailed`
    /// the request may be in the file or not, and the store is broken.
    pub fn commit(
        &mut self,
        name: &Name,
        stamp: u64,
        request: &Request<Command>,
    ) -> Result<u64, Fault>
        requires name { IsTableName name.now }
        requires request { IsRequest request.now }
        ensures { Commits D.Honest D.Works D.state D.past D.fault_count D.write_count D.sync_count self.old name.now stamp request.now self.new result }
    {
        if self.journal.file.is_broken() {
            return Err(Fault::OpenAgain);
        }
        let taken = self
            .tables
            .take(self.alloc, stamp, name, request, &mut self.journal)?;
        Ok(taken.stamp)
    }

    /// A device call failed: each call that can be refused is, until the file is opened again.
    pub fn is_broken(&self) -> bool
        ensures { result ≡ (held_of self.now).broken }
    {
        self.journal.file.is_broken()
    }

    /// How many commands the opening of this store played: as often as it stepped a game, where an opening of a table is
    /// no step. `open` says which they are (`ReplaysFile`): of each table in the root those behind its last snapshot, or
    /// behind its opening where there is none; if the table then had other snapshots than it is to have, all behind its
    /// opening as well; and of each record in turn as many as `Taken::plays` tells. A store that is broken tells it too.
    pub fn replayed(&self) -> u64
        ensures { result ≡ replayed_of self.now }
    {
        self.replayed
    }

    /// Why the first step of a checkpoint that was due was put off with the last request that was taken: the file was
    /// full, or memory was refused. `None` if none was put off then, and of a store that took no request since it was
    /// opened. A refusal, a tick and a checkpoint leave it as it was.
    pub fn put_off(&self) -> Option<PutOff>
        ensures { result ≡ put_off_of self.now }
    {
        self.journal.put_off
    }

    /// What the tables are played with.
    pub fn kit(&self) -> &Kit
        ensures { result.now ≡ (held_of self.now).kit }
    {
        self.tables.kit()
    }

    /// How many tables there are.
    ///
    /// # Errors
    /// `OpenAgain`.
    pub fn count(&self) -> Result<usize, Fault>
        ensures count { MatchResult result
            (λ count. ((held_of self.now).broken ≡ false) × (count ≡ length (held_of self.now).tables))
            (λ fault. ((held_of self.now).broken ≡ true) × (fault ≡ Fault.OpenAgain)) }
        ensures few { IfOk result (λ count. count ≤ MOST_TABLES) }
    {
        if self.journal.file.is_broken() {
            return Err(Fault::OpenAgain);
        }
        Ok(self.tables.count())
    }

    /// The name of the table at a place in the order of opening, from 0, if there is one.
    ///
    /// # Errors
    /// `OpenAgain`.
    pub fn name(&self, place: usize) -> Result<Option<&Name>, Fault>
        ensures { MatchResult result
            (λ found. ((held_of self.now).broken ≡ false) × (option_copied found ≡ slice_get (names (held_of self.now).tables) place))
            (λ fault. ((held_of self.now).broken ≡ true) × (fault ≡ Fault.OpenAgain)) }
    {
        if self.journal.file.is_broken() {
            return Err(Fault::OpenAgain);
        }
        Ok(self.tables.name(place))
    }

    /// The table of this name.
    ///
    /// # Errors
    /// `OpenAgain` first, then `NoSuchTable`.
    pub fn table(&self, name: &Name) -> Result<&Table, Fault>
        ensures found { MatchResult result
            (λ table. ((held_of self.now).broken ≡ false) × (table_named (held_of self.now).tables name.now ≡ Some (kept_in table.now)))
            (λ fault. LacksTable (held_of self.now) name.now fault) }
        ensures played { IfOk result (λ table. GamesArePlayed self.now → IsPlayed (held_of self.now).kit table.now) }
    {
        if self.journal.file.is_broken() {
            return Err(Fault::OpenAgain);
        }
        match self.tables.table(name) {
            Ok(table) => Ok(table),
            Err(_) => Err(Fault::NoSuchTable),
        }
    }

    /// The number of the last request that was accepted, counted over all tables from 1; 0 where there is none.
    ///
    /// # Errors
    /// `OpenAgain`.
    pub fn last(&self) -> Result<u64, Fault>
        ensures { MatchResult result
            (λ last. ((held_of self.now).broken ≡ false) × (last ≡ last_of self.now))
            (λ fault. ((held_of self.now).broken ≡ true) × (fault ≡ Fault.OpenAgain)) }
    {
        if self.journal.file.is_broken() {
            return Err(Fault::OpenAgain);
        }
        Ok(self.journal.file.last())
    }

    /// Makes one step of a checkpoint: it goes on with the one under way, or begins one where an opening found it begun
    /// or at least 128 slots of the half in use are used. The first step takes all memory and pages that the later ones
    /// need. A checkpoint of p pages has p + 4 steps, and p + 3 where an opening found it begun: its first step writes
    /// a page then.
    ///
    /// # Errors
    /// `OpenAgain`; `DeviceFailed`, after which the store is broken; in a first step also `FileFull` and `OutOfMemory`,
    /// before any device call: then the store goes on, and the next tick begins anew.
    pub fn tick(&mut self) -> Result<Tick, Fault>
        ensures steps { Steps D.Honest D.Works D.state D.past D.fault_count self.old result self.new }
        ensures left { IfOk result (λ tick. LowersFrom (first_left (file_of self.old) (lent_of self.old)) tick
            (ticks_left self.old) (ticks_left self.new)) }
        ensures most { IfOk result (λ tick. ticks_left self.old ≡ 0
            → ticks_left self.new < ticks_due (file_of self.old) (lent_of self.old)) }
        ensures idle { (result ≡ Ok Tick.Idle) ↔ (((held_of self.old).broken ≡ false) × Rests self.old) }
        ensures rests { result ≡ Ok Tick.Idle → IsUnchanged self.old self.new }

        // A first step is made only where its checkpoint's pages fit, and its numbers: else the file is full.
        ensures fits { IfOk result (λ tick. ticks_left self.old ≡ 0 → (Rests self.old → ⊥)
            → IsFileFull (file_of self.old) (lent_of self.old) → ⊥) }
        // The number of the root that is taken: one more behind the last step, and else the same.
        ensures root { IfOk result (λ tick. D.Honest (disk_of self.new) → (texts : KitTexts) → Carries D.state self.old texts
            → NumbersRoot tick (root_of self.old) (root_of self.new)) }

        // Behind the last step each file that a stop may leave takes a newer root. Its chains spell the world as the
        // checkpoint began, and only the records since then stand behind it.
        ensures renews { IfOk result (λ tick. D.Honest (disk_of self.new) → (texts : KitTexts) → (carries : Carries D.state self.old texts)
            → RenewsAt table_files tick carries.file.carried.layout (D.state (disk_of self.new)) (in_words texts (held_of self.old).tables)) }
        ensures replayed { replayed_of self.new ≡ replayed_of self.old }
        ensures put_off { put_off_of self.new ≡ put_off_of self.old }

        // The file becomes longer only by a page of a checkpoint, and only where no page under its end is free.
        ensures grows { D.Honest (disk_of self.new) → (texts : KitTexts) → Carries D.state self.old texts
            → Grows D.file_len (file_of self.old) (file_of self.new) }
        ensures pages { TakesPages (file_of self.old) (file_of self.new) }
        ensures writes { D.write_count (disk_of self.new) ≤ D.write_count (disk_of self.old) + 1 }
        ensures syncs { D.sync_count (disk_of self.new) ≤ D.sync_count (disk_of self.old) + 1 }
    {
        let tick = self.journal.file.tick(&self.tables)?;
        Ok(tick)
    }

    /// Makes a whole checkpoint: all steps of the one under way that are left, or those of a new one.
    ///
    /// # Errors
    /// As of `tick`; `FileFull` and `OutOfMemory` before any device call.
    pub fn checkpoint(&mut self) -> Result<(), Fault>
        ensures steps { Steps D.Honest D.Works D.state D.past D.fault_count self.old result self.new }
        ensures left { OnOk result (ticks_left self.new ≡ 0) }

        // Then each file that a stop may leave takes a newer root. Its chains spell the world as the checkpoint began,
        // and only the records since then stand behind it. Where none was begun before, that is what the store holds,
        // and no record.
        ensures renews { OnOk result (D.Honest (disk_of self.new) → (texts : KitTexts) → (carries : Carries D.state self.old texts)
            → EachImage (D.state (disk_of self.new)) (TakesNewer table_files (as_begun carries.file.carried.layout) (in_words texts (held_of self.old).tables))) }
        ensures whole { OnOk result (HasNoneBegun self.old → D.Honest (disk_of self.new) → (texts : KitTexts) → Carries D.state self.old texts
            → EachImage (D.state (disk_of self.new)) (TakesRootOf table_files (root_of self.old) (in_words texts (held_of self.old).tables))) }
        ensures root { OnOk result (D.Honest (disk_of self.new) → (texts : KitTexts) → Carries D.state self.old texts
            → root_of self.new ≡ root_of self.old + 1) }

        // And its root has of each table just the snapshots that it is to have, so that few commands are played to open
        // it.
        ensures names { OnOk result (ticks_left self.old ≡ 0 → HasNoneBegun self.old → D.Honest (disk_of self.new)
            → (texts : KitTexts) → Carries D.state self.old texts → GamesHaveSnapshots self.old → HasShortSnapshots self.old
            → EachImage (D.state (disk_of self.new)) (NamesSnapshots (held_of self.old).kit)) }
        // Of one that was under way, if the root that was coming was to have them.
        ensures takes_named { OnOk result (D.Honest (disk_of self.new) → (texts : KitTexts) → Carries D.state self.old texts
            → (ticks_left self.old ≡ 0 → LendsNamed self.old)
            → NamesComing D.state self.old texts → NamesRoots D.state self.new texts) }
        ensures fits { OnOk result (ticks_left self.old ≡ 0
            → IsFileFull (file_of self.old) (lent_of self.old) → ⊥) }
        ensures replayed { replayed_of self.new ≡ replayed_of self.old }
        ensures put_off { put_off_of self.new ≡ put_off_of self.old }

        // The file becomes longer only where no page under its end is free: each is reached by the root from before, or
        // by the one that is written, which is taken then unless a device call failed.
        ensures grows { OnOk result (D.Honest (disk_of self.new) → (texts : KitTexts) → Carries D.state self.old texts
            → GrowsWhereFull (present_of (free_of self.old)) (present_of (free_of self.new))
            (D.file_len (disk_of self.old)) (D.file_len (disk_of self.new))) }
        ensures grows_so_far { OnErr result (D.Honest (disk_of self.new) → (texts : KitTexts)
            → Carries D.state self.old texts → GrowsWhereFull (present_of (free_of self.old)) (coming_of (free_of self.new))
            (D.file_len (disk_of self.old)) (D.file_len (disk_of self.new))) }
        ensures reclaims { OnOk result (0 < ticks_left self.old → AreReclaimed (free_of self.old) (free_of self.new)) }
        ensures same_free { OnErr result (0 < ticks_left self.old → free_of self.new ≡ free_of self.old) }
        ensures writes { MakesFew D.write_count self.old self.new }
        ensures syncs { MakesFew D.sync_count self.old self.new }
    {
        self.journal.file.checkpoint(&self.tables)?;
        Ok(())
    }

    /// How many ticks the checkpoint under way has left, 0 without one.
    pub fn ticks_left(&self) -> usize
        ensures { result ≡ ticks_left self.now }
    {
        self.journal.file.ticks_left()
    }
}
