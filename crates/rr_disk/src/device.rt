// The calls by which what a store keeps comes to a disk.
ghost use Rattle.std.specs.Prelude.{◌≡◌, ◌+◌, ◌^◌, ◌<◌, ◌≤◌, ◌∷◌, [], length, OnOk, OnErr};
ghost use Rattle.rr_disk.specs.Calls.{Step, Write, Sync, account, after_steps, StopsWithin};
ghost use Rattle.rr_disk.specs.Disk.{after_write, after_sync, length_after, CountsFault, counted};
ghost use Rattle.rr_disk.specs.Moments.{LeavesOnly, TornFrom};

use crate::{Disk, Fault};

/// One write. It waits for a later sync: until then a stop may leave any bytes in its range.
///
/// # Errors
/// `DeviceFailed` where the write fails, of which a part may have gone out. A disk that works refuses none but one that
/// ends past byte 2^63.
pub fn write<D: Disk>(disk: &mut D, at: u64, bytes: &[u8]) -> Result<(), Fault>
    ensures honest { D.Honest disk.new → D.Honest disk.old }
    ensures done { OnOk result (D.Honest disk.new
        → D.state disk.new ≡ after_write (D.state disk.old) at bytes.now) }
    ensures passed { OnOk result (D.Honest disk.new → D.past disk.new ≡ D.state disk.old ∷ D.past disk.old) }
    ensures calls { OnOk result (D.Honest disk.new
        → account D.Disk disk.new ≡ after_steps (account D.Disk disk.old) (Write at bytes.now ∷ [])) }
    ensures stops { OnErr result (D.Honest disk.new
        → StopsWithin (account D.Disk disk.old) (Write at bytes.now ∷ []) (account D.Disk disk.new)) }
    ensures any_moment { D.Honest disk.new
        → LeavesOnly (D.past disk.old) (D.state disk.old) (D.past disk.new) (D.state disk.new)
        (TornFrom (D.state disk.old) at (length bytes.now)) }

    ensures fault { CountsFault (D.fault_count disk.old) (D.fault_count disk.new) result }
    ensures writes { D.write_count disk.new ≡ counted (D.write_count disk.old) }
    ensures syncs { D.sync_count disk.new ≡ D.sync_count disk.old }

    ensures works { D.Works disk.new → D.Works disk.old }
    ensures refused { OnErr result (D.Works disk.new → 2 ^ 63 < at + length bytes.now) }
    ensures len { OnOk result (D.file_len disk.new ≡ length_after (D.file_len disk.old) at (length bytes.now)) }
{
    disk.write_at(at, bytes)?;
    Ok(())
}

/// One write, and the sync that makes it durable.
///
/// # Errors
/// `DeviceFailed` where one of the two fails; the bytes, or a part of them, may have gone out then. A disk that works
/// refuses none but a write that ends past byte 2^63.
pub fn put<D: Disk>(disk: &mut D, at: u64, bytes: &[u8]) -> Result<(), Fault>
    ensures honest { D.Honest disk.new → D.Honest disk.old }
    ensures done { OnOk result (D.Honest disk.new
        → D.state disk.new ≡ after_sync (after_write (D.state disk.old) at bytes.now)) }
    ensures passed { OnOk result (D.Honest disk.new
        → D.past disk.new ≡ after_write (D.state disk.old) at bytes.now ∷ D.state disk.old ∷ D.past disk.old) }
    // The write is made once and then the sync, and nothing behind one that failed.
    ensures calls { OnOk result (D.Honest disk.new
        → account D.Disk disk.new ≡ after_steps (account D.Disk disk.old) (Write at bytes.now ∷ Sync ∷ [])) }
    ensures stops { OnErr result (D.Honest disk.new
        → StopsWithin (account D.Disk disk.old) (Write at bytes.now ∷ Sync ∷ []) (account D.Disk disk.new)) }
    ensures any_moment { D.Honest disk.new
        → LeavesOnly (D.past disk.old) (D.state disk.old) (D.past disk.new) (D.state disk.new)
        (TornFrom (D.state disk.old) at (length bytes.now)) }

    ensures fault { CountsFault (D.fault_count disk.old) (D.fault_count disk.new) result }
    ensures writes { D.write_count disk.new ≡ counted (D.write_count disk.old) }
    ensures syncs { D.sync_count disk.new ≤ D.sync_count disk.old + 1 }
    ensures synced { OnOk result (D.sync_count disk.new ≡ counted (D.sync_count disk.old)) }

    ensures works { D.Works disk.new → D.Works disk.old }
    ensures refused { OnErr result (D.Works disk.new → 2 ^ 63 < at + length bytes.now) }
    ensures len { OnOk result (D.file_len disk.new ≡ length_after (D.file_len disk.old) at (length bytes.now)) }
{
    write(disk, at, bytes)?;
    disk.sync()?;
    Ok(())
}
