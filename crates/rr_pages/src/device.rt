ghost use Rattle.std.specs.Prelude.{◌≡◌, ◌⊎◌, ◌+◌, ◌^◌, ◌<◌, ◌≤◌, OnOk, OnErr};
ghost use Rattle.rr_disk.specs.Calls.{account, after_steps};
ghost use Rattle.rr_disk.specs.Disk.{counted, CountsFault};
ghost use Rattle.rr_disk.specs.Moments.{LeavesOnly};
ghost use Rattle.rr_pages.specs.Device.{Shuts, MayShut, shutting, StopsShutting};

use crate::page::OPEN;
use rr_disk::{Disk, Fault, put};

/// Shuts a gate and syncs. It writes only where the gate is open: a write to a shut gate that a stop cuts short could
/// open it.
///
/// # Errors
/// `DeviceFailed` where a device call fails. A disk that works refuses none but the read of a gate past the file's end,
/// and a write that ends past byte 2^63.
pub fn shut<D: Disk>(disk: &mut D, at: u64) -> Result<(), Fault>
    ensures done { OnOk result (D.Honest disk.new → Shuts (D.state disk.old) at (D.state disk.new)) }
    ensures any_moment { D.Honest disk.new
        → LeavesOnly (D.past disk.old) (D.state disk.old) (D.past disk.new) (D.state disk.new)
        (MayShut (D.state disk.old) at) }
    ensures calls { OnOk result (D.Honest disk.new → account D.Disk disk.new
        ≡ after_steps (account D.Disk disk.old) (shutting (D.state disk.old) at)) }
    ensures stops { OnErr result (D.Honest disk.new
        → StopsShutting (account D.Disk disk.old) at (account D.Disk disk.new)) }
    ensures honest { D.Honest disk.new → D.Honest disk.old }
    ensures fault { CountsFault (D.fault_count disk.old) (D.fault_count disk.new) result }
    ensures writes { D.write_count disk.new ≤ D.write_count disk.old + 1 }
    ensures syncs { D.sync_count disk.new ≤ D.sync_count disk.old + 1 }
    ensures synced { OnOk result (D.sync_count disk.new ≡ counted (D.sync_count disk.old)) }
    ensures works { D.Works disk.new → D.Works disk.old }
    ensures refused { OnErr result (D.Works disk.new → (D.file_len disk.old < at + 1) ⊎ (2 ^ 63 < at + 1)) }
{
    let mut gate = [0u8; 1];
    disk.read_at(at, &mut gate)?;
    if gate[0] == OPEN {
        return put(disk, at, &[0]);
    }
    disk.sync()?;
    Ok(())
}
