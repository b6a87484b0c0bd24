// Where the snapshots stand that were read of a file.
ghost use Rattle.std.specs.Prelude.{◌≡◌, IfErr, IfOk, length, map};
ghost use Rattle.rr_checkpoint.specs.Plan.Standing.{standing_chains};
ghost use Rattle.rr_log.specs.Opening.Opened.{AreOfEntries};
ghost use Rattle.rr_reading.specs.Chains.{held};

use rr_checkpoint::plan::StandingSnapshot;
use rr_pages::ReadChain;
use rr_reading::Fault;
use rr_reading::dir::SnapshotEntry;
use std::alloc::Global;

// The snapshots of these entries, each in the chain of the same place. A chain is let go of as its snapshot is made.
pub(crate) fn standing_snapshots(
    alloc: Global,
    entries: &[SnapshotEntry],
    chains: Vec<ReadChain>,
) -> Result<Vec<StandingSnapshot>, Fault>
    ensures chains { IfOk result (λ standing. length entries.now ≡ length chains.items
        → standing_chains standing.items ≡ map held chains.items) }
    ensures entries { IfOk result (λ standing. length entries.now ≡ length chains.items
        → AreOfEntries entries.now standing.items) }
    ensures memory { IfErr result (λ fault. fault ≡ Fault.OutOfMemory) }
{
    let mut standing = Vec::new(alloc);
    for (entry, chain) in entries.iter().zip(chains) {
        let snapshot = StandingSnapshot::of(entry, chain)?;
        standing.push(snapshot)?;
    }
    Ok(standing)
}
