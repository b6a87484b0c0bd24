//! A record in the open file.
ghost use Rattle.std.specs.Prelude.{◌≡◌, ◌↔◌, ◌<◌, IsErrOf, IsTrue, OnOk, length};
ghost use Rattle.rr_code.specs.Request.{record_text};
ghost use Rattle.rr_log.specs.Lent.{lent_of};
ghost use Rattle.rr_store.specs.Keeping.{Keeping, told_of};

use rr_code::{Command, Request, write_request};
use rr_disk::Disk;
use rr_log::{Fault, Log, PutOff, TablesInWords};
use rr_tables::records::TableRules;
use rr_words::Name;

/// Keeps a record. Where the half in use has no room for it, a checkpoint under way is ended first. Then the next one,
/// which begins with the second attempt, makes room, unless the record takes more than eight slots. If a checkpoint was
/// due and its first step was put off, the reason is returned.
pub(crate) fn keep_record<D: Disk + Drop, T: TablesInWords>(
    file: &mut Log<D, TableRules>,
    tables: &T,
    line: &[u8],
) -> Result<Option<PutOff>, Fault>
    requires { 0 < length line.now }
    ensures { Keeping D.Honest D.Works D.state D.past D.fault_count D.write_count D.sync_count file.old (lent_of T.TablesInWords tables.now) line.now result file.new }
{
    let kept = file.keep(tables, line);
    if !is_half_full(&kept) {
        return kept;
    }
    if file.ticks_left() > 0 {
        file.checkpoint(tables)?;
    }
    match file.keep(tables, line) {
        Ok(put_off) => Ok(put_off),
        Err(fault) => Err(told(fault)),
    }
}

/// Whether the half had no room.
fn is_half_full(kept: &Result<Option<PutOff>, Fault>) -> bool
    ensures { IsTrue result ↔ IsErrOf kept.now Fault.HalfFull }
{
    match kept {
        Ok(_) => false,
        Err(fault) => *fault == Fault::HalfFull,
    }
}

/// What is told where a second attempt to keep a record fails: a half without room is a full file then.
fn told(fault: Fault) -> Fault
    ensures { result ≡ told_of fault }
{
    match fault {
        Fault::HalfFull => Fault::FileFull,
        Fault::DeviceFailed | Fault::FileFull | Fault::OpenAgain | Fault::OutOfMemory => fault,
    }
}

/// Spells the record of what is asked of a table.
pub(crate) fn spell(
    name: &Name,
    request: &Request<Command>,
    buffer: &mut Vec<u8>,
) -> Result<(), rr_code::Fault>
    ensures ok { OnOk result (buffer.new.items ≡ record_text name.now request.now) }
    ensures some { OnOk result (0 < length buffer.new.items) }
{
    buffer.clear();
    buffer.extend_from_slice(name.as_bytes())?;
    buffer.extend_from_slice(b" ")?;
    write_request(request, buffer)?;
    Ok(())
}
