//! The files that the words name.
ghost use Rattle.std.specs.Prelude.{◌≡◌, ◌≢◌, ◌⊎◌, [], ◌∷◌, IfErr, IfOk};
ghost use Rattle.rr_cli.specs.Calls.{was_not_opened, was_not_read, was_opened, was_read};

use crate::path_record::{PathCall, PathRecord};
use rr_disk::{Disk, FileDisk, Start};
use rr_moderator::Fault;
use std::fs;
use std::fs::File;
use std::io::ErrorKind;
use std::rt::Files;

/// Files by their paths. The one that is opened held what `S` says, if the length that it tells is the length of that.
pub trait FileSystem<S: Start> {
    ghost use Rattle.std.specs.Prelude.{List};
    ghost use Rattle.rr_moderator.specs.declared.fault.Fault.TheVariants.{DeviceFailed, OutOfMemory, StreamFailed};
    ghost use Rattle.rr_cli.specs.Calls.{PathEvent};
    ghost use Rattle.rr_cli.specs.Files.{IsJustOpened};

    /// A file that was opened.
    type Opened: Disk + Drop;

    /// The calls so far, the newest first.
    ghost calls: { Self → List PathEvent };

    /// Reads a whole file. It fails with `OutOfMemory` if memory was refused, and with `StreamFailed` if the file can't be
    /// read for any other cause.
    fn read(&mut self, path: &str) -> Result<Vec<u8>, Fault>
        ensures read { IfOk result (λ text. calls self.new ≡ was_read path.now text.items ∷ calls self.old) }
        ensures not_read { IfErr result (λ fault. calls self.new ≡ was_not_read path.now fault ∷ calls self.old) }
        ensures fault { IfErr result (λ fault. (fault ≡ StreamFailed) ⊎ (fault ≡ OutOfMemory)) };

    /// Opens a file for reading and writing. If it is absent and `make` is true, it makes an empty one. It fails with
    /// `DeviceFailed` if the file can't be opened. A value of `S` opens one file.
    fn open(&mut self, path: &str, make: bool, start: S) -> Result<Self::Opened, Fault>
        ensures opened { IfOk result (λ disk. calls self.new ≡ was_opened path.now make ∷ calls self.old) }
        ensures held { IfOk result (IsJustOpened Self.Opened.Disk S.held) }
        ensures not_opened { IfErr result (λ fault. calls self.new ≡ was_not_opened path.now make ∷ calls self.old) }
        ensures fault { IfErr result (λ fault. fault ≡ DeviceFailed) };
}

/// The files of the system. It notes each call and how it ended, for clauses alone. That the call was made so is a
/// premise, which no code can test.
#[derive(Drop)]
pub struct HostFiles<'a, R> {
    rt: &'a R,
    record: PathRecord,
}

impl<'a, R: Files<File = File> + AllocGlobal> HostFiles<'a, R> {
    ghost use Rattle.rr_cli.specs.Files.{calls_of};

    pub fn new(rt: &'a R) -> HostFiles<'a, R>
        ensures { calls_of result ≡ [] }
    {
        HostFiles {
            rt,
            record: PathRecord::new(),
        }
    }
}

impl<'a, S: Start, R: Files<File = File> + AllocGlobal> FileSystem<S> for HostFiles<'a, R> {
    ghost use Rattle.rr_cli.specs.Files.{calls_of};

    type Opened = FileDisk<S>;

    ghost calls = { λ files. calls_of files };

    fn read(&mut self, path: &str) -> Result<Vec<u8>, Fault> {
        match fs::read(self.rt, path) {
            Ok(text) => {
                self.record
                    .note(&[PathCall::Read], path.as_bytes(), text.as_slice());
                Ok(text)
            }
            Err(error) => {
                let fault = fault_of(error.kind());
                self.record
                    .note(&[PathCall::NotRead(fault)], path.as_bytes(), &[]);
                Err(fault)
            }
        }
    }

    fn open(&mut self, path: &str, make: bool, start: S) -> Result<FileDisk<S>, Fault> {
        match FileDisk::open(self.rt, path, make, start) {
            Ok(disk) => {
                self.record
                    .note(&[PathCall::Opened { make }], path.as_bytes(), &[]);
                Ok(disk)
            }
            Err(_) => {
                self.record
                    .note(&[PathCall::NotOpened { make }], path.as_bytes(), &[]);
                Err(Fault::DeviceFailed)
            }
        }
    }
}

/// The fault of a call of the system that failed so: `OutOfMemory` if memory was refused, else `StreamFailed`.
pub fn fault_of(kind: ErrorKind) -> Fault
    ensures memory { kind ≡ ErrorKind.OutOfMemory → result ≡ Fault.OutOfMemory }
    ensures other { kind ≢ ErrorKind.OutOfMemory → result ≡ Fault.StreamFailed }
{
    if kind == ErrorKind::OutOfMemory {
        Fault::OutOfMemory
    } else {
        Fault::StreamFailed
    }
}
