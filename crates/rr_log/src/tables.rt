ghost use Rattle.std.specs.Prelude.{◌≡◌, List, IfOk, IfErr};
ghost use Rattle.rr_checkpoint.specs.Plan.Transcript.{snapshots_of, tables_of};
ghost use Rattle.rr_reading.specs.Worlds.World.{Snapshot, Table};

use rr_checkpoint::plan::Transcript;
use rr_pages::Fault;
use std::alloc::Global;

/// Tables that are lent to be written by a checkpoint, and snapshots of their games.
pub trait TablesInWords {
    /// What they are in words.
    ghost tables: { Self → List Table };
    /// The snapshots that are to stand beside them.
    ghost snapshots: { Self → List Snapshot };

    /// The tables and the snapshots as a transcript.
    ///
    /// # Errors
    /// `OutOfMemory` alone.
    fn transcript(&self, alloc: Global) -> Result<Transcript, Fault>
        ensures tables { IfOk result (λ transcript. tables_of transcript ≡ tables self.now) }
        ensures snapshots { IfOk result (λ transcript. snapshots_of transcript ≡ snapshots self.now) }
        ensures memory { IfErr result (λ fault. fault ≡ Fault.OutOfMemory) };
}
