// The records of both halves.
ghost use Rattle.std.specs.Prelude.{◌≡◌, ◌+◌, ◌*◌, ◌≤◌, ◌<◌, ◌^◌, not, length, IfOk, IfErr};
ghost use Rattle.rr_pages.specs.Journal.Layout.{other_half};
ghost use Rattle.rr_pages.specs.Journal.Reading.{lines};
ghost use Rattle.rr_pages.specs.Journal.Run.{Run};
ghost use Rattle.rr_reading.specs.Faults.{CountsFault, IsNoVerdict, OnDeviceFault};
ghost use Rattle.rr_reading.specs.Held.{GoesOn};
ghost use Rattle.rr_pages.specs.declared.page.TheConstants.{FIRST_DATA, PAGE_BYTES};
ghost use Rattle.rr_pages.specs.declared.journal.layout.TheConstants.{LAST_SLOT};

use crate::Fault;
use crate::root::first_number;
use rr_disk::Disk;
use rr_pages::Root;
use rr_pages::journal::{HalfIndex, Scanned, scan};
use std::alloc::Global;

// The records behind a root.
#[derive(Drop)]
pub(crate) struct FoundRecords {
    pub(crate) near: Scanned,
    pub(crate) far: Scanned,
}

// Reads the half that the root names, and then the other one, whose records are numbered on.
pub(crate) fn read_records<D: Disk>(
    alloc: Global,
    disk: &mut D,
    root: &Root,
) -> Result<FoundRecords, Fault>
    ensures near { IfOk result (λ found. D.Honest disk.new → root.now.first < 2 ^ 63
        → Run (D.state disk.old).content root.now.half 0 root.now.first
        (lines found.near.records.items) found.near.end) }
    ensures far { IfOk result (λ found. D.Honest disk.new → root.now.first < 2 ^ 63
        → Run (D.state disk.old).content (other_half root.now.half) 0 (root.now.first + length (lines found.near.records.items))
        (lines found.far.records.items) found.far.end) }
    ensures near_part { IfOk result (λ found. GoesOn root.now.half found.near) }
    ensures far_part { IfOk result (λ found. GoesOn (other_half root.now.half) found.far) }
    ensures only { IfErr result IsNoVerdict }
    ensures fault { CountsFault (D.fault_count disk.old) (D.fault_count disk.new) result }
    ensures honest { D.Honest disk.new → D.Honest disk.old }
    ensures same_state { D.Honest disk.new → D.state disk.new ≡ D.state disk.old }
    ensures same_past { D.Honest disk.new → D.past disk.new ≡ D.past disk.old }
    ensures writes { D.write_count disk.new ≡ D.write_count disk.old }
    ensures syncs { D.sync_count disk.new ≡ D.sync_count disk.old }
    ensures device { OnDeviceFault result (D.Works disk.new → D.file_len disk.old < PAGE_BYTES * FIRST_DATA) }
    ensures works { D.Works disk.new → D.Works disk.old }
    ensures same_len { D.file_len disk.new ≡ D.file_len disk.old }
{
    let first = first_number(root.first);
    let near = read_half(alloc, disk, root.half, first)?;
    let next = first + near.records.len() as u64;
    let far = read_half(alloc, disk, root.half.other(), next)?;
    Ok(FoundRecords { near, far })
}

fn read_half<D: Disk>(
    alloc: Global,
    disk: &mut D,
    half: HalfIndex,
    first: u64,
) -> Result<Scanned, Fault>
    requires { first + LAST_SLOT < 2 ^ 64 }
    ensures run { IfOk result (λ scanned. D.Honest disk.new
        → Run (D.state disk.old).content half 0 first (lines scanned.records.items) scanned.end) }
    ensures half { IfOk result (λ scanned. GoesOn half scanned) }
    ensures few { IfOk result (λ scanned. length scanned.records.items ≤ LAST_SLOT) }
    ensures only { IfErr result IsNoVerdict }
    ensures fault { CountsFault (D.fault_count disk.old) (D.fault_count disk.new) result }
    ensures honest { D.Honest disk.new → D.Honest disk.old }
    ensures same_state { D.Honest disk.new → D.state disk.new ≡ D.state disk.old }
    ensures same_past { D.Honest disk.new → D.past disk.new ≡ D.past disk.old }
    ensures writes { D.write_count disk.new ≡ D.write_count disk.old }
    ensures syncs { D.sync_count disk.new ≡ D.sync_count disk.old }
    ensures device { OnDeviceFault result (D.Works disk.new → D.file_len disk.old < PAGE_BYTES * FIRST_DATA) }
    ensures works { D.Works disk.new → D.Works disk.old }
    ensures same_len { D.file_len disk.new ≡ D.file_len disk.old }
{
    let scanned = scan(alloc, disk, half, first)?;
    Ok(scanned)
}
