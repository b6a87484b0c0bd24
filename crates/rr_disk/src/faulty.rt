ghost use Rattle.std.specs.Prelude.{◌≡◌, ◌+◌, ◌-◌, ◌^◌, ◌<◌, ◌≤◌, ◌∷◌, ℕ, true, false, length, take, OnOk, OnErr, IsErrOf, IsSome};
ghost use Rattle.rr_disk.specs.Disk.{IsAt, after_write, after_sync, FailedWrite, length_after, CountsFault, counted};
ghost use Rattle.rr_disk.specs.Plan.{strike_of, plan_after};

use crate::plan::Plan;
use crate::{Disk, Fault};

/// A disk that fails at device calls chosen beforehand. Reads, writes and syncs are device calls, counted from 0. It
/// works as long as the disk beneath does and none of these calls has come.
#[derive(Drop)]
pub struct FaultyDisk<D: Disk + Drop> {
    disk: D,
    plan: Plan,
    /// A call failed that was to fail.
    struck: bool,
    faults: u64,
    writes: u64,
    syncs: u64,
}

impl<D: Disk + Drop> FaultyDisk<D> {
    ghost use Rattle.rr_disk.specs.Faulty.{beneath, plan_of, is_struck, faults_of, writes_of, syncs_of};

    /// `calls` device calls go through; the next and all later ones fail without reaching the disk.
    pub fn after(disk: D, calls: u64) -> FaultyDisk<D>
        ensures beneath { beneath result ≡ disk }
        ensures plan { plan_of result ≡ Plan.After calls }
        ensures works { is_struck result ≡ false }
        ensures faults { faults_of result ≡ 0 }
        ensures writes { writes_of result ≡ 0 }
        ensures syncs { syncs_of result ≡ 0 }
    {
        FaultyDisk {
            disk,
            plan: Plan::After(calls),
            struck: false,
            faults: 0,
            writes: 0,
            syncs: 0,
        }
    }

    /// `calls` device calls go through and the next one alone fails, if it is a write after `bytes` of its bytes went
    /// out. A read or a sync fails without reaching the disk.
    pub fn once(disk: D, calls: u64, bytes: usize) -> FaultyDisk<D>
        ensures beneath { beneath result ≡ disk }
        ensures plan { plan_of result ≡ Plan.Once calls bytes }
        ensures works { is_struck result ≡ false }
        ensures faults { faults_of result ≡ 0 }
        ensures writes { writes_of result ≡ 0 }
        ensures syncs { syncs_of result ≡ 0 }
    {
        FaultyDisk {
            disk,
            plan: Plan::Once(calls, bytes),
            struck: false,
            faults: 0,
            writes: 0,
            syncs: 0,
        }
    }

    /// The disk beneath.
    pub fn into_inner(self) -> D
        ensures { result ≡ beneath self }
    {
        let FaultyDisk {
            disk,
            plan: _,
            struck: _,
            faults: _,
            writes: _,
            syncs: _,
        } = self;
        disk
    }
}

impl<D: Disk + Drop> Disk for FaultyDisk<D> {
    ghost use Rattle.rr_disk.specs.Faulty.{beneath, plan_of, is_struck, faults_of, writes_of, syncs_of};

    ghost state = { λ faulty. D.state faulty.disk };

    ghost past = { λ faulty. D.past faulty.disk };

    ghost fault_count = { λ faulty. faulty.faults };

    ghost write_count = { λ faulty. faulty.writes };

    ghost sync_count = { λ faulty. faulty.syncs };

    ghost file_len = { λ faulty. D.file_len faulty.disk };

    ghost Honest = { λ faulty. D.Honest faulty.disk };

    ghost Works = { λ faulty. D.Works faulty.disk × (faulty.struck ≡ false) };

    fn len(&self) -> u64 {
        self.disk.len()
    }

    fn read_at(&mut self, at: u64, into: &mut [u8]) -> Result<(), Fault>
        ensures honest { D.Honest (beneath self.new) → D.Honest (beneath self.old) }
        ensures bytes { OnOk result (D.Honest (beneath self.new) → IsAt (D.state (beneath self.old)).content at into.new) }
        ensures same_state { D.Honest (beneath self.new) → D.state (beneath self.new) ≡ D.state (beneath self.old) }
        ensures same_past { D.Honest (beneath self.new) → D.past (beneath self.new) ≡ D.past (beneath self.old) }
        ensures fault { CountsFault (faults_of self.old) (faults_of self.new) result }
        ensures writes { writes_of self.new ≡ writes_of self.old }
        ensures syncs { syncs_of self.new ≡ syncs_of self.old }
        ensures works { D.Works (beneath self.new) → D.Works (beneath self.old) }
        ensures refused { OnErr result (D.Works (beneath self.new) → is_struck self.new ≡ false
            → D.file_len (beneath self.old) < at + length into.old) }
        ensures same_len { D.file_len (beneath self.new) ≡ D.file_len (beneath self.old) }

        // Which call fails.
        ensures plan { plan_of self.new ≡ plan_after (plan_of self.old) }
        ensures struck { IsSome (strike_of (plan_of self.old)) → IsErrOf result Fault.DeviceFailed }
        ensures told { IsSome (strike_of (plan_of self.old)) → is_struck self.new ≡ true }
        ensures untold { strike_of (plan_of self.old) ≡ None → is_struck self.new ≡ is_struck self.old }
        ensures unreached { IsSome (strike_of (plan_of self.old)) → beneath self.new ≡ beneath self.old }
        ensures through { strike_of (plan_of self.old) ≡ None → CountsFault (D.fault_count (beneath self.old)) (D.fault_count (beneath self.new)) result }
    {
        if self.plan.take_turn().is_some() {
            self.struck = true;
            self.faults = self.faults.saturating_add(1);
            return Err(Fault::DeviceFailed);
        }
        if let Err(fault) = self.disk.read_at(at, into) {
            self.faults = self.faults.saturating_add(1);
            return Err(fault);
        }
        Ok(())
    }

    fn write_at(&mut self, at: u64, bytes: &[u8]) -> Result<(), Fault>
        ensures honest { D.Honest (beneath self.new) → D.Honest (beneath self.old) }
        ensures written { OnOk result (D.Honest (beneath self.new) → D.state (beneath self.new) ≡ after_write (D.state (beneath self.old)) at bytes.now) }
        ensures passed { OnOk result (D.Honest (beneath self.new) → D.past (beneath self.new) ≡ D.state (beneath self.old) ∷ D.past (beneath self.old)) }
        ensures failed { OnErr result (D.Honest (beneath self.new) → FailedWrite at (length bytes.now) (D.past (beneath self.old)) (D.state (beneath self.old)) (D.past (beneath self.new)) (D.state (beneath self.new))) }
        ensures within { OnOk result (at + length bytes.now ≤ 2 ^ 63) }
        ensures fault { CountsFault (faults_of self.old) (faults_of self.new) result }
        ensures writes { writes_of self.new ≡ counted (writes_of self.old) }
        ensures syncs { syncs_of self.new ≡ syncs_of self.old }
        ensures works { D.Works (beneath self.new) → D.Works (beneath self.old) }
        ensures refused { OnErr result (D.Works (beneath self.new) → is_struck self.new ≡ false
            → 2 ^ 63 < at + length bytes.now) }
        ensures len { OnOk result (D.file_len (beneath self.new) ≡ length_after (D.file_len (beneath self.old)) at (length bytes.now)) }

        // Which call fails, and what goes out before it does.
        ensures plan { plan_of self.new ≡ plan_after (plan_of self.old) }
        ensures struck { IsSome (strike_of (plan_of self.old)) → IsErrOf result Fault.DeviceFailed }
        ensures told { IsSome (strike_of (plan_of self.old)) → is_struck self.new ≡ true }
        ensures untold { strike_of (plan_of self.old) ≡ None → is_struck self.new ≡ is_struck self.old }
        ensures unreached { strike_of (plan_of self.old) ≡ Some 0 → beneath self.new ≡ beneath self.old }
        ensures front { (out : ℕ) → strike_of (plan_of self.old) ≡ Some out → D.fault_count (beneath self.new) ≡ D.fault_count (beneath self.old)
            → D.fault_count (beneath self.old) < 2 ^ 64 - 1 → D.Honest (beneath self.new) → D.state (beneath self.new) ≡ after_write (D.state (beneath self.old)) at (take out bytes.now) }
        ensures through { strike_of (plan_of self.old) ≡ None → CountsFault (D.fault_count (beneath self.old)) (D.fault_count (beneath self.new)) result }
    {
        self.writes = self.writes.saturating_add(1);
        if let Some(out) = self.plan.take_turn() {
            self.struck = true;
            self.faults = self.faults.saturating_add(1);
            let front = &bytes[..out.min(bytes.len())];
            if !front.is_empty() {
                let _ = self.disk.write_at(at, front);
            }
            return Err(Fault::DeviceFailed);
        }
        if let Err(fault) = self.disk.write_at(at, bytes) {
            self.faults = self.faults.saturating_add(1);
            return Err(fault);
        }
        Ok(())
    }

    fn sync(&mut self) -> Result<(), Fault>
        ensures honest { D.Honest (beneath self.new) → D.Honest (beneath self.old) }
        ensures settled { OnOk result (D.Honest (beneath self.new) → D.state (beneath self.new) ≡ after_sync (D.state (beneath self.old))) }
        ensures passed { OnOk result (D.Honest (beneath self.new) → D.past (beneath self.new) ≡ D.state (beneath self.old) ∷ D.past (beneath self.old)) }
        ensures failed_state { OnErr result (D.Honest (beneath self.new) → D.state (beneath self.new) ≡ D.state (beneath self.old)) }
        ensures failed_past { OnErr result (D.Honest (beneath self.new) → D.past (beneath self.new) ≡ D.past (beneath self.old)) }
        ensures fault { CountsFault (faults_of self.old) (faults_of self.new) result }
        ensures writes { writes_of self.new ≡ writes_of self.old }
        ensures syncs { syncs_of self.new ≡ counted (syncs_of self.old) }
        ensures works { D.Works (beneath self.new) → D.Works (beneath self.old) }
        ensures refused { OnErr result (D.Works (beneath self.new) → is_struck self.new ≡ false → ⊥) }
        ensures same_len { D.file_len (beneath self.new) ≡ D.file_len (beneath self.old) }

        // Which call fails.
        ensures plan { plan_of self.new ≡ plan_after (plan_of self.old) }
        ensures struck { IsSome (strike_of (plan_of self.old)) → IsErrOf result Fault.DeviceFailed }
        ensures told { IsSome (strike_of (plan_of self.old)) → is_struck self.new ≡ true }
        ensures untold { strike_of (plan_of self.old) ≡ None → is_struck self.new ≡ is_struck self.old }
        ensures unreached { IsSome (strike_of (plan_of self.old)) → beneath self.new ≡ beneath self.old }
        ensures through { strike_of (plan_of self.old) ≡ None → CountsFault (D.fault_count (beneath self.old)) (D.fault_count (beneath self.new)) result }
    {
        self.syncs = self.syncs.saturating_add(1);
        if self.plan.take_turn().is_some() {
            self.struck = true;
            self.faults = self.faults.saturating_add(1);
            return Err(Fault::DeviceFailed);
        }
        if let Err(fault) = self.disk.sync() {
            self.faults = self.faults.saturating_add(1);
            return Err(fault);
        }
        Ok(())
    }

    fn faults(&self) -> u64 {
        self.faults
    }

    fn writes(&self) -> u64 {
        self.writes
    }

    fn syncs(&self) -> u64 {
        self.syncs
    }

    ghost content_may_stay = { λ faulty honest. D.content_may_stay faulty.disk honest };

    ghost length_is_told = { λ faulty honest. D.length_is_told faulty.disk honest };
}
