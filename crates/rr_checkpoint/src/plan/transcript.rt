ghost use Rattle.std.specs.Prelude.{◌≡◌, ◌≢◌, ◌<◌, ◌≤◌, ◌++◌, [], ◌∷◌, All, AllPairs, length, map, OnOk, OnErr, IsOkUnless};
ghost use Rattle.std.proofs.Props.{props};
ghost use Rattle.rr_checkpoint.specs.Plan.Snapshots.{IsCounted, IsSnapshotOf, StandsBefore, snapshot_of};
ghost use Rattle.rr_reading.specs.declared.dir.directory.TheConstants.{MOST_SNAPSHOTS, MOST_TABLES};

use crate::plan::{SnapshotTranscript, TableTranscript};
use rr_pages::Fault;
use std::alloc::Global;

/// The tables of a store at a moment, in order of opening: at most 64, each with a name of its own and with a command
/// at least; and snapshots of their games: at most 4,096, by table and rising. It is what a checkpoint writes, whatever
/// is played meanwhile.
#[derive(Drop)]
pub struct Transcript {
    pub(crate) tables: Vec<TableTranscript>,
    pub(crate) snapshots: Vec<SnapshotTranscript>,
    ghost some_kept: { All (λ table. 1 ≤ table.kept) tables.items } by { Prim.hlevel props },
    ghost own_names: { AllPairs (λ table other. table.name ≢ other.name) tables.items } by { Prim.hlevel props },
    ghost few: { length tables.items ≤ MOST_TABLES },
    ghost counted: { All (IsCounted (map (λ table. table.kept) tables.items)) (map snapshot_of snapshots.items) } by { Prim.hlevel props },
    ghost rising: { AllPairs StandsBefore (map snapshot_of snapshots.items) } by { Prim.hlevel props },
    ghost few_snapshots: { length snapshots.items ≤ MOST_SNAPSHOTS },
}

impl Transcript {
    ghost use Rattle.rr_checkpoint.specs.Plan.Transcript.{commands_of, snapshots_of, table_of, tables_of};

    /// Of a store without a table.
    pub fn new(alloc: Global) -> Transcript
        ensures tables { tables_of result ≡ [] }
        ensures snapshots { snapshots_of result ≡ [] }
    {
        Transcript {
            tables: Vec::new(alloc),
            snapshots: Vec::new(alloc),
        }
    }

    /// Puts a table behind those that are there.
    ///
    /// # Errors
    /// `OutOfMemory`; then the tables are those from before.
    pub fn push(&mut self, table: TableTranscript) -> Result<(), Fault>
        requires room { length (tables_of self.old) < MOST_TABLES }
        requires some { 1 ≤ length (commands_of table) }
        requires own_name { All (λ other. other.name ≢ (table_of table).name) (tables_of self.old) }
        ensures ok { OnOk result (tables_of self.new ≡ tables_of self.old ++ table_of table ∷ []) }
        ensures err { OnErr result (tables_of self.new ≡ tables_of self.old) }
        ensures snapshots { snapshots_of self.new ≡ snapshots_of self.old }
        ensures memory { IsOkUnless result Fault.OutOfMemory }
    {
        self.tables.push(table)?;
        Ok(())
    }

    /// Puts a snapshot of a table that is there behind the others.
    ///
    /// # Errors
    /// `OutOfMemory`; then the snapshots are those from before.
    pub fn push_snapshot(&mut self, snapshot: SnapshotTranscript) -> Result<(), Fault>
        requires room { length (snapshots_of self.old) < MOST_SNAPSHOTS }
        requires of_table { IsSnapshotOf (tables_of self.old) (snapshot_of snapshot) }
        requires behind { All (λ other. StandsBefore other (snapshot_of snapshot)) (snapshots_of self.old) }
        ensures ok { OnOk result (snapshots_of self.new ≡ snapshots_of self.old ++ snapshot_of snapshot ∷ []) }
        ensures err { OnErr result (snapshots_of self.new ≡ snapshots_of self.old) }
        ensures tables { tables_of self.new ≡ tables_of self.old }
        ensures memory { IsOkUnless result Fault.OutOfMemory }
    {
        self.snapshots.push(snapshot)?;
        Ok(())
    }
}
