ghost use Rattle.std.specs.Prelude.{◌≡◌, ◌+◌, ◌^◌, ◌<◌, ◌≤◌, ◌∷◌, List, ℕ, length, OnOk, OnErr};
ghost use Rattle.rr_disk.specs.Disk.{DiskState, IsImage, IsAt, after_write, after_sync, FailedWrite, length_after, CountsFault, counted};

use crate::Fault;

/// A file of bytes on a device that may fail at any call and may stop at any moment.
///
/// What is said of bytes holds of a disk that is `Honest` after the call. Whether it is, no code asks.
pub trait Disk {
    /// What the disk holds.
    ghost state: { Self → DiskState };

    /// The state before each write and sync, newest first.
    ghost past: { Self → List DiskState };

    /// How many device calls failed, how many writes and how many syncs were made, up to 2^64 - 1 each.
    ghost fault_count: { Self → ℕ };

    ghost write_count: { Self → ℕ };

    ghost sync_count: { Self → ℕ };

    /// The length of the file in bytes, as the device tells it.
    ghost file_len: { Self → ℕ };

    /// The device did so far what these clauses say.
    ghost Honest: { Self → Type 0 };

    /// The device refused no call so far that it has to take: no read within the file, no write that ends at byte 2^63
    /// or before, no sync.
    ghost Works: { Self → Type 0 };

    /// The length of the file in bytes. No device call.
    fn len(&self) -> u64
        ensures told { result ≡ file_len self.now }
        ensures content { Honest self.now → result ≡ length (state self.now).content };

    /// Reads all of `into` from byte `at` on. A read past the end is a fault, and after a fault `into` may hold
    /// anything.
    fn read_at(&mut self, at: u64, into: &mut [u8]) -> Result<(), Fault>
        ensures honest { Honest self.new → Honest self.old }
        ensures bytes { OnOk result (Honest self.new → IsAt (state self.old).content at into.new) }
        ensures same_state { Honest self.new → state self.new ≡ state self.old }
        ensures same_past { Honest self.new → past self.new ≡ past self.old }
        ensures fault { CountsFault (fault_count self.old) (fault_count self.new) result }
        ensures writes { write_count self.new ≡ write_count self.old }
        ensures syncs { sync_count self.new ≡ sync_count self.old }
        ensures works { Works self.new → Works self.old }
        ensures refused { OnErr result (Works self.new → file_len self.old < at + length into.old) }
        ensures same_len { file_len self.new ≡ file_len self.old };

    /// Writes these bytes from byte `at` on. A gap between the end and `at` becomes zeros; an empty write changes
    /// nothing. A write that ends past byte 2^63 is a fault.
    fn write_at(&mut self, at: u64, bytes: &[u8]) -> Result<(), Fault>
        ensures honest { Honest self.new → Honest self.old }
        ensures written { OnOk result (Honest self.new → state self.new ≡ after_write (state self.old) at bytes.now) }
        ensures passed { OnOk result (Honest self.new → past self.new ≡ state self.old ∷ past self.old) }
        ensures failed { OnErr result (Honest self.new → FailedWrite at (length bytes.now) (past self.old) (state self.old) (past self.new) (state self.new)) }
        ensures within { OnOk result (at + length bytes.now ≤ 2 ^ 63) }
        ensures fault { CountsFault (fault_count self.old) (fault_count self.new) result }
        ensures writes { write_count self.new ≡ counted (write_count self.old) }
        ensures syncs { sync_count self.new ≡ sync_count self.old }
        ensures works { Works self.new → Works self.old }
        ensures refused { OnErr result (Works self.new → 2 ^ 63 < at + length bytes.now) }
        ensures len { OnOk result (file_len self.new ≡ length_after (file_len self.old) at (length bytes.now)) };

    /// After it a stop leaves what a read gives. One that fails settles nothing.
    fn sync(&mut self) -> Result<(), Fault>
        ensures honest { Honest self.new → Honest self.old }
        ensures settled { OnOk result (Honest self.new → state self.new ≡ after_sync (state self.old)) }
        ensures passed { OnOk result (Honest self.new → past self.new ≡ state self.old ∷ past self.old) }
        ensures failed_state { OnErr result (Honest self.new → state self.new ≡ state self.old) }
        ensures failed_past { OnErr result (Honest self.new → past self.new ≡ past self.old) }
        ensures fault { CountsFault (fault_count self.old) (fault_count self.new) result }
        ensures writes { write_count self.new ≡ write_count self.old }
        ensures syncs { sync_count self.new ≡ counted (sync_count self.old) }
        ensures works { Works self.new → Works self.old }
        ensures refused { OnErr result (Works self.new → ⊥) }
        ensures same_len { file_len self.new ≡ file_len self.old };

    /// How many device calls failed so far, up to 2^64 - 1.
    fn faults(&self) -> u64
        ensures { result ≡ fault_count self.now };

    /// How many writes were asked for so far, failed ones included, up to 2^64 - 1.
    fn writes(&self) -> u64
        ensures { result ≡ write_count self.now };

    /// How many syncs were asked for so far, failed ones included, up to 2^64 - 1.
    fn syncs(&self) -> u64
        ensures { result ≡ sync_count self.now };

    /// A stop may leave what a read gives.
    ghost content_may_stay: { (disk : Self) → Honest disk → IsImage (state disk) (state disk).content };

    /// The device tells how many bytes a read gives.
    ghost length_is_told: { (disk : Self) → Honest disk → file_len disk ≡ length (state disk).content };
}
