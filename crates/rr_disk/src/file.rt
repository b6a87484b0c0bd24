ghost use Rattle.std.specs.Prelude.{◌≡◌, ◌↔◌, ◌+◌, ◌-◌, ◌^◌, ◌<◌, ◌≤◌, ◌||◌, [], ◌∷◌, true, false, length, OnOk, OnErr, IfOk, IsTrue, IsOkUnless};
ghost use Rattle.rr_disk.specs.Disk.{IsImage, FailedWrite, length_after, CountsFault, counted};
ghost use Rattle.rr_disk.specs.Events.{Agree, state_after, past_after};

use crate::bytes::end_of;
use crate::file_record::{FileCall, FileRecord};
use crate::{Disk, Fault, Start};
use std::fs::{File, OpenOptions};
use std::io;
use std::marker::PhantomData;
use std::os::unix::fs::FileExt;
use std::rt::Files;

/// A file of the system, which held what `S` says as it was opened. It notes each call and its answer, for clauses
/// alone: it is honest where the answers are those of a file that held that, and keeps what the clauses of `Disk` say.
/// This is a premise, which no code can test. Whether it works is known: whether the system refused a call that it has
/// to take.
#[derive(Drop)]
pub struct FileDisk<S: Start> {
    file: File,
    len: u64,
    /// The system refused a call that it has to take.
    refused: bool,
    faults: u64,
    writes: u64,
    syncs: u64,
    record: FileRecord,
    start: PhantomData<S>,
    ghost len_is: { Agree S.Start.held record.events → len ≡ length (state_after S.Start.held record.events).content },
    ghost may_stay: { IsImage (state_after S.Start.held record.events) (state_after S.Start.held record.events).content },
}

impl<S: Start> FileDisk<S> {
    ghost use Rattle.rr_disk.specs.File.{len_of, has_refused, events_of, file_faults, file_writes, file_syncs};

    /// Opens a file for reading and writing, and where it is absent and `make` is set makes an empty one.
    /// What can't be opened so, or is no plain file, is a fault. A value of `S` opens one file.
    pub fn open<R: Files<File = File>>(
        rt: &R,
        path: &str,
        make: bool,
        _start: S,
    ) -> Result<FileDisk<S>, Fault>
        // It held what `S` says, if its length is the length of that.
        ensures held { IfOk result (λ disk. state_after S.held (events_of disk) ≡ S.held) }
        ensures past { IfOk result (λ disk. past_after S.held (events_of disk) ≡ []) }
        ensures agrees { IfOk result (λ disk. len_of disk ≡ length S.held.content → Agree S.held (events_of disk)) }

        ensures works { IfOk result (λ disk. has_refused disk ≡ false) }
        ensures faults { IfOk result (λ disk. file_faults disk ≡ 0) }
        ensures writes { IfOk result (λ disk. file_writes disk ≡ 0) }
        ensures syncs { IfOk result (λ disk. file_syncs disk ≡ 0) }
        ensures fault { IsOkUnless result Fault.DeviceFailed }
    {
        let file = open_file(rt, path, make).map_err(|_| Fault::DeviceFailed)?;
        let metadata = file.metadata().map_err(|_| Fault::DeviceFailed)?;
        if !metadata.is_file() {
            return Err(Fault::DeviceFailed);
        }
        let len = metadata.len();
        let mut record = FileRecord::new();
        record.note(&[FileCall::Length { len }], &[]);
        Ok(FileDisk {
            file,
            len,
            refused: false,
            faults: 0,
            writes: 0,
            syncs: 0,
            record,
            start: PhantomData,
        })
    }

    // Counts a call that failed, and notes whether the system had to take it.
    fn fails(&mut self, owed: bool) -> Fault
        ensures fault { result ≡ Fault.DeviceFailed }
        ensures events { events_of self.new ≡ events_of self.old }
        ensures works { has_refused self.new ≡ (has_refused self.old || owed) }
        ensures faults { file_faults self.new ≡ counted (file_faults self.old) }
        ensures len { len_of self.new ≡ len_of self.old }
        ensures writes { file_writes self.new ≡ file_writes self.old }
        ensures syncs { file_syncs self.new ≡ file_syncs self.old }
    {
        self.refused = self.refused || owed;
        self.faults = self.faults.saturating_add(1);
        Fault::DeviceFailed
    }
}

fn open_file<R: Files<File = File>>(rt: &R, path: &str, make: bool) -> io::Result<File> {
    OpenOptions::new()
        .read(true)
        .write(true)
        .create(make)
        .open(rt, path)
}

// Whether so many bytes from this place on lie within a file of this length.
fn lies_within(len: u64, at: u64, count: usize) -> bool
    ensures { IsTrue result ↔ (at + count ≤ len) }
{
    at <= len && count as u64 <= len - at
}

// How long a file is after a write of so many bytes that ends there.
fn len_behind(len: u64, end: u64, added: usize) -> u64
    requires { added ≤ end }
    ensures { result ≡ length_after len (end - added) added }
{
    if added == 0 { len } else { len.max(end) }
}

impl<S: Start> Disk for FileDisk<S> {
    ghost use Rattle.rr_disk.specs.File.{len_of, has_refused, events_of, file_faults, file_writes, file_syncs};

    ghost state = { λ disk. state_after S.Start.held disk.record.events };

    ghost past = { λ disk. past_after S.Start.held disk.record.events };

    ghost fault_count = { λ disk. disk.faults };

    ghost write_count = { λ disk. disk.writes };

    ghost sync_count = { λ disk. disk.syncs };

    ghost file_len = { λ disk. disk.len };

    ghost Honest = { λ disk. Agree S.Start.held disk.record.events };

    ghost Works = { λ disk. disk.refused ≡ false };

    fn len(&self) -> u64 {
        self.len
    }

    fn read_at(&mut self, at: u64, into: &mut [u8]) -> Result<(), Fault>
        ensures within { OnOk result (at + length into.new ≤ len_of self.old) }
        ensures len { len_of self.new ≡ len_of self.old }
        ensures fault { CountsFault (file_faults self.old) (file_faults self.new) result }
        ensures writes { file_writes self.new ≡ file_writes self.old }
        ensures syncs { file_syncs self.new ≡ file_syncs self.old }

        // What it gave is noted.
        ensures noted { OnOk result (events_of self.new ≡ (FileCall.Read at, into.new) ∷ events_of self.old) }
        ensures unnoted { OnErr result (events_of self.new ≡ events_of self.old) }

        // The system had to take each read within the file.
        ensures works { OnOk result (has_refused self.new ≡ has_refused self.old) }
        ensures refused { OnErr result (at + length into.old ≤ len_of self.old → has_refused self.new ≡ true) }
        ensures far { len_of self.old < at + length into.old → has_refused self.new ≡ has_refused self.old }
    {
        if !lies_within(self.len, at, into.len()) {
            return Err(self.fails(false));
        }
        if self.file.read_exact_at(into, at).is_err() {
            return Err(self.fails(true));
        }
        self.record.note(&[FileCall::Read { at }], into);
        Ok(())
    }

    fn write_at(&mut self, at: u64, bytes: &[u8]) -> Result<(), Fault>
        ensures within { OnOk result (at + length bytes.now ≤ 2 ^ 63) }
        ensures len { OnOk result (len_of self.new ≡ length_after (len_of self.old) at (length bytes.now)) }
        ensures fault { CountsFault (file_faults self.old) (file_faults self.new) result }
        ensures writes { file_writes self.new ≡ counted (file_writes self.old) }
        ensures syncs { file_syncs self.new ≡ file_syncs self.old }

        // It is noted, unless it was none that the system has to take.
        ensures noted { OnOk result (events_of self.new ≡ (FileCall.Write at, bytes.now) ∷ events_of self.old) }
        ensures failed { OnErr result (at + length bytes.now ≤ 2 ^ 63
            → events_of self.new ≡ (FileCall.FailedWrite at, bytes.now) ∷ events_of self.old) }
        ensures unnoted { 2 ^ 63 < at + length bytes.now → events_of self.new ≡ events_of self.old }
        ensures fails { OnErr result (Agree S.held (events_of self.new) → FailedWrite at (length bytes.now)
            (past_after S.held (events_of self.old)) (state_after S.held (events_of self.old))
            (past_after S.held (events_of self.new)) (state_after S.held (events_of self.new))) }

        // The system had to take each write that ends by 2^63.
        ensures works { OnOk result (has_refused self.new ≡ has_refused self.old) }
        ensures refused { OnErr result (at + length bytes.now ≤ 2 ^ 63 → has_refused self.new ≡ true) }
        ensures far { 2 ^ 63 < at + length bytes.now → has_refused self.new ≡ has_refused self.old }
    {
        self.writes = self.writes.saturating_add(1);
        let Some(end) = end_of(at, bytes.len()) else {
            return Err(self.fails(false));
        };
        if self.file.write_all_at(bytes, at).is_err() {
            self.record.note(&[FileCall::FailedWrite { at }], bytes);
            return Err(self.fails(true));
        }
        self.record.note(&[FileCall::Write { at }], bytes);
        self.len = len_behind(self.len, end, bytes.len());
        Ok(())
    }

    fn sync(&mut self) -> Result<(), Fault>
        ensures len { len_of self.new ≡ len_of self.old }
        ensures fault { CountsFault (file_faults self.old) (file_faults self.new) result }
        ensures writes { file_writes self.new ≡ file_writes self.old }
        ensures syncs { file_syncs self.new ≡ counted (file_syncs self.old) }

        // One that succeeds is noted.
        ensures noted { OnOk result (events_of self.new ≡ (FileCall.Sync, []) ∷ events_of self.old) }
        ensures unnoted { OnErr result (events_of self.new ≡ events_of self.old) }

        // The system had to take it.
        ensures works { OnOk result (has_refused self.new ≡ has_refused self.old) }
        ensures refused { OnErr result (has_refused self.new ≡ true) }
    {
        self.syncs = self.syncs.saturating_add(1);
        // It leaves out the file's times alone: a length that a write made greater is needed to read, and so kept.
        if self.file.sync_data().is_err() {
            return Err(self.fails(true));
        }
        self.record.note(&[FileCall::Sync], &[]);
        Ok(())
    }

    fn faults(&self) -> u64 {
        self.faults
    }

    fn writes(&self) -> u64 {
        self.writes
    }

    fn syncs(&self) -> u64 {
        self.syncs
    }

    ghost content_may_stay = { λ disk honest. disk.may_stay };

    ghost length_is_told = { λ disk honest. disk.len_is honest };
}
