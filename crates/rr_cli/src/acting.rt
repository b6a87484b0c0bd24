//! What the program does with a plan, over a disk, a reader and a writer.
ghost use Rattle.std.specs.Prelude.{◌≡◌, false, MatchResult};
ghost use Rattle.rr_store.specs.Lent.{lent_texts};
ghost use Rattle.rr_moderator.specs.Fault.{refusal_of};
ghost use Rattle.rr_moderator.specs.Holding.{IsSummary, held_of};
ghost use Rattle.rr_cli.specs.Acting.{Acts, Begins, Checks, Formats, IsAcknowledged, IsRefused, IsRefusedFile};
ghost use Rattle.rr_cli.specs.Acting.{IsTold, Serves, ending_of};

use crate::{Ending, Plan, status};
use rr_disk::Disk;
use rr_moderator::{Fault, Moderator, Refused, Summary, Texts};
use rr_serve::{Input, Output, send};
use std::alloc::Global;

/// Does what the plan asks, and gives the status with which the program ends, and the disk.
///
/// `format` writes `ok` or its refusal. `serve` and `check` write a refusal where the file can't be opened; once it is
/// open, `serve` writes replies alone, and `check` one line that tells how much the file holds. The texts are used by
/// `format` alone, and the reader by `serve` alone.
pub fn act<D: Disk + Drop, I: Input, O: Output>(
    alloc: Global,
    plan: &Plan,
    texts: Texts<'_>,
    disk: D,
    reader: &mut I,
    writer: &mut O,
) -> (u8, D)
    ensures { Acts D.Honest D.Works D.state D.past D.fault_count D.write_count D.sync_count plan.now (lent_texts texts.entry) disk result.1 (I.state reader.old) (I.state reader.new)
        (O.state writer.old) (O.state writer.new) result.0 }
{
    match plan {
        Plan::Format { .. } => format(alloc, texts, disk, writer),
        Plan::Serve { .. } => serve(alloc, disk, reader, writer),
        Plan::Check { .. } => check(alloc, disk, writer),
    }
}

fn format<D: Disk + Drop, O: Output>(
    alloc: Global,
    texts: Texts<'_>,
    mut disk: D,
    writer: &mut O,
) -> (u8, D)
    ensures { Formats D.Honest D.Works D.state D.past D.fault_count D.write_count D.sync_count (lent_texts texts.entry) disk result.1
        (O.state writer.old) (O.state writer.new) result.0 }
{
    match rr_moderator::format(alloc, &mut disk, texts) {
        Ok(()) => {
            let ending = acknowledge(b"ok\n", writer);
            (status(ending), disk)
        }
        Err(fault) => {
            let ending = refuse(Fault::from(fault), writer);
            (status(ending), disk)
        }
    }
}

fn serve<D: Disk + Drop, I: Input, O: Output>(
    alloc: Global,
    disk: D,
    reader: &mut I,
    writer: &mut O,
) -> (u8, D)
    ensures { Serves D.Honest D.Works D.state D.past D.fault_count D.write_count D.sync_count disk result.1 (I.state reader.old) (I.state reader.new)
        (O.state writer.old) (O.state writer.new) result.0 }
{
    match open(alloc, disk, writer) {
        Ok(mut moderator) => {
            let ending = ending_of(moderator.serve(reader, writer));
            (status(ending), moderator.into_disk())
        }
        Err(refused) => refused,
    }
}

fn check<D: Disk + Drop, O: Output>(alloc: Global, disk: D, writer: &mut O) -> (u8, D)
    ensures { Checks D.Honest D.Works D.state D.past D.fault_count D.write_count D.sync_count disk result.1
        (O.state writer.old) (O.state writer.new) result.0 }
{
    match open(alloc, disk, writer) {
        Ok(moderator) => {
            let ending = tell(summary_of(&moderator), writer);
            (status(ending), moderator.into_disk())
        }
        Err(refused) => refused,
    }
}

/// Opens the file, or writes why it is refused, and gives the status with which the program ends then, and the disk.
fn open<D: Disk + Drop, O: Output>(
    alloc: Global,
    disk: D,
    writer: &mut O,
) -> Result<Moderator<D>, (u8, D)>
    ensures { MatchResult result
        (λ moderator. Begins D.Honest D.Works D.state D.past D.fault_count D.write_count D.sync_count disk moderator
        × (O.state writer.new ≡ O.state writer.old))
        (λ refused. IsRefusedFile D.Honest D.Works D.state D.past D.fault_count D.write_count D.sync_count disk refused.1
        (O.state writer.old) (O.state writer.new) refused.0) }
{
    match Moderator::open(alloc, disk) {
        Ok(moderator) => Ok(moderator),
        Err(refused) => {
            let Refused { fault, disk } = refused;
            let ending = refuse(Fault::from(fault), writer);
            Err((status(ending), disk))
        }
    }
}

/// How a run ends whose serving ended so.
fn ending_of(served: Result<(), Fault>) -> Ending
    ensures { result ≡ ending_of served }
{
    match served {
        Ok(()) => Ending::Done,
        Err(fault) => Ending::Faulted(fault),
    }
}

/// How much a file holds whose device hasn't failed.
fn summary_of<D: Disk + Drop>(moderator: &Moderator<D>) -> Summary
    requires { (held_of moderator.now).broken ≡ false }
    ensures { IsSummary moderator.now result }
{
    moderator.summary().unwrap()
}

/// Writes how much a file holds.
fn tell<O: Output>(summary: Summary, writer: &mut O) -> Ending
    ensures { IsTold summary (O.state writer.old) (O.state writer.new) result }
{
    let line = summary.line();
    acknowledge(line.as_bytes(), writer)
}

/// Writes the line of what was done and flushes it.
fn acknowledge<O: Output>(line: &[u8], writer: &mut O) -> Ending
    ensures { IsAcknowledged line.now (O.state writer.old) (O.state writer.new) result }
{
    match send(writer, line) {
        Ok(()) => Ending::Done,
        Err(_) => Ending::Faulted(Fault::StreamFailed),
    }
}

/// Writes the refusal as one line, which takes no memory, and tells how the program ends.
pub fn refuse<O: Output>(fault: Fault, writer: &mut O) -> Ending
    ensures { IsRefused fault (O.state writer.old) (O.state writer.new) result }
{
    let refusal = fault.refusal();
    write_refusal(fault, refusal.as_bytes(), writer)
}

fn write_refusal<O: Output>(fault: Fault, refusal: &[u8], writer: &mut O) -> Ending
    requires { refusal.now ≡ refusal_of fault }
    ensures { IsRefused fault (O.state writer.old) (O.state writer.new) result }
{
    match send(writer, refusal) {
        Ok(()) => Ending::Faulted(fault),
        Err(_) => Ending::Faulted(Fault::StreamFailed),
    }
}
