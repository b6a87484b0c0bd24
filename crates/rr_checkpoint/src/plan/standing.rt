ghost use Rattle.std.specs.Prelude.{◌≡◌, ◌≤◌, length, IfOk, IsOkUnless};
ghost use Rattle.std.specs.Option.{option_copied};
ghost use Rattle.std.specs.Rc.{rc_slice_items};
ghost use Rattle.rr_checkpoint.specs.Plan.Snapshots.{snapshot_of};
ghost use Rattle.rr_checkpoint.specs.Plan.Standing.{behind, comes_before, entry_of, from, if_same, is_same, standing_as, standing_chain};
ghost use Rattle.rr_pages.specs.Laying.{head_of};
ghost use Rattle.rr_reading.specs.Chains.{held};
ghost use Rattle.rr_reading.specs.declared.dir.directory.TheConstants.{MOST_SNAPSHOT_BYTES};

use crate::Plan;
use crate::plan::SnapshotTranscript;
use rr_pages::{Fault, ReadChain};
use rr_reading::dir::{ChainRef, SnapshotEntry};
use std::alloc::Global;
use std::rc::RcSlice;

/// A snapshot that a root holds: the place of its table in the directory, how many of that table's kept commands were
/// played, the pages of its chain, and the bytes that they hold, which are shared with whoever else holds the snapshot.
#[derive(Drop)]
pub struct StandingSnapshot {
    pub table: u16,
    pub kept: u32,
    pub pages: Vec<u32>,
    pub bytes: RcSlice<u8>,
}

/// The plan of a checkpoint, and where the snapshots of the coming root will stand, in the directory's order.
#[derive(Drop)]
pub struct Planned {
    pub plan: Plan,
    pub standing: Vec<StandingSnapshot>,
}

impl StandingSnapshot {
    /// The snapshot of this entry of a directory, where its chain was read. Nothing is copied.
    ///
    /// # Errors
    /// `OutOfMemory`.
    pub fn of(entry: &SnapshotEntry, chain: ReadChain) -> Result<StandingSnapshot, Fault>
        ensures table { IfOk result (λ standing. standing.table ≡ entry.now.table) }
        ensures kept { IfOk result (λ standing. standing.kept ≡ entry.now.kept) }
        ensures chain { IfOk result (λ standing. standing_chain standing ≡ held chain) }
        ensures memory { IsOkUnless result Fault.OutOfMemory }
    {
        Ok(StandingSnapshot {
            table: entry.table,
            kept: entry.kept,
            pages: chain.pages,
            bytes: RcSlice::from_vec(chain.bytes)?,
        })
    }

    // The same once more, which shares its bytes.
    pub(crate) fn copied(&self, alloc: Global) -> Result<StandingSnapshot, Fault>
        ensures snapshot { IfOk result (λ copy. standing_as copy ≡ standing_as self.now) }
        ensures chain { IfOk result (λ copy. standing_chain copy ≡ standing_chain self.now) }
        ensures memory { IsOkUnless result Fault.OutOfMemory }
    {
        Ok(StandingSnapshot {
            table: self.table,
            kept: self.kept,
            pages: self.pages.to_vec(alloc)?,
            bytes: self.bytes.clone()?,
        })
    }

    // What a directory says of it.
    pub(crate) fn entry(&self) -> SnapshotEntry
        requires { length (rc_slice_items self.now.bytes) ≤ MOST_SNAPSHOT_BYTES }
        ensures { result ≡ entry_of self.now }
    {
        SnapshotEntry {
            table: self.table,
            kept: self.kept,
            chain: ChainRef {
                head: first_page(&self.pages),
                length: self.bytes.len() as u32,
            },
        }
    }

    fn comes_before(&self, snapshot: &SnapshotTranscript) -> bool
        ensures { result ≡ comes_before (standing_as self.now) (snapshot_of snapshot.now) }
    {
        self.table < snapshot.table || (self.table == snapshot.table && self.kept < snapshot.kept)
    }

    fn is_same(&self, snapshot: &SnapshotTranscript) -> bool
        ensures { result ≡ is_same (standing_as self.now) (snapshot_of snapshot.now) }
    {
        self.table == snapshot.table
            && self.kept == snapshot.kept
            && self.bytes.as_slice() == snapshot.bytes.as_slice()
    }
}

// The first of a chain's pages, 0 without one.
fn first_page(pages: &[u32]) -> u64
    ensures { result ≡ head_of pages.now }
{
    match pages.first() {
        Some(page) => u64::from(*page),
        None => 0,
    }
}

// Those from the first on that doesn't come before the snapshot.
pub(crate) fn those_from<'a>(
    standing: &'a [StandingSnapshot],
    snapshot: &SnapshotTranscript,
) -> &'a [StandingSnapshot]
    ensures { result.now ≡ from (snapshot_of snapshot.now) standing.now }
{
    let mut rest = standing;
    while !rest.is_empty() {
        if !rest[0].comes_before(snapshot) {
            return rest;
        }
        rest = &rest[1..];
    }
    rest
}

// The first, if it is the snapshot.
pub(crate) fn first_if_same<'a>(
    standing: &'a [StandingSnapshot],
    snapshot: &SnapshotTranscript,
) -> Option<&'a StandingSnapshot>
    ensures { option_copied result ≡ if_same (snapshot_of snapshot.now) standing.now }
{
    let first = standing.first()?;
    if first.is_same(snapshot) {
        return Some(first);
    }
    None
}

// Where the first was taken, the others.
pub(crate) fn those_behind<'a>(
    standing: &'a [StandingSnapshot],
    taken: Option<&StandingSnapshot>,
) -> &'a [StandingSnapshot]
    ensures { result.now ≡ behind (option_copied taken.entry) standing.now }
{
    if taken.is_none() || standing.is_empty() {
        return standing;
    }
    &standing[1..]
}
