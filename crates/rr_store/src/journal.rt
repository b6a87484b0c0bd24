//! The open file, as what keeps the records of requests.
ghost use Rattle.std.specs.Prelude.{◌≡◌, OnErr};

use crate::keeping::{keep_record, spell};
use rr_code::{Command, Request};
use rr_disk::Disk;
use rr_log::{Fault, Log, PutOff};
use rr_tables::records::TableRules;
use rr_tables::{Journal, Tables};
use rr_words::Name;

/// The open file, the room in which a record is spelled, and why the first step of a checkpoint was put off with the last
/// record that was kept.
#[derive(Drop)]
pub(crate) struct FileJournal<D: Drop> {
    pub(crate) file: Log<D, TableRules>,
    pub(crate) buffer: Vec<u8>,
    pub(crate) put_off: Option<PutOff>,
}

impl<D: Disk + Drop> Journal for FileJournal<D> {
    ghost use Rattle.rr_store.specs.Keeping.{Keeping, with_reason};

    ghost Keeps = { λ old lent bytes result new. Keeping D.Honest D.Works D.state D.past D.fault_count D.write_count D.sync_count old.file lent bytes (with_reason result new.put_off) new.file
        × OnErr result (new.put_off ≡ old.put_off) };

    fn keep(
        &mut self,
        tables: &Tables,
        name: &Name,
        request: &Request<Command>,
    ) -> Result<(), Fault> {
        if self.file.is_broken() {
            return Err(Fault::OpenAgain);
        }
        match spell(name, request, &mut self.buffer) {
            Ok(()) => {}
            // (a request's words are always of its form)
            Err(_) => return Err(Fault::OutOfMemory),
        }
        let put_off = keep_record(&mut self.file, tables, self.buffer.as_slice())?;
        self.put_off = put_off;
        Ok(())
    }
}
