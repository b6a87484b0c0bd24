//! Calls without their contracts, so that what a test does costs its proof little. Those over any disk and any streams
//! cost it less than those over certain ones.
use rr_cli::{Ended, Ending, FileSystem, Plan, act, refuse, run};
use rr_disk::{Disk, MemoryDisk, Start};
use rr_moderator::{Fault, Moderator, Refused, Summary, Texts, format};
use rr_serve::{CountingReader, CountingWriter, Input, Output};
use std::alloc::Global;

pub(crate) fn content(disk: &MemoryDisk) -> &[u8] {
    disk.content()
}

pub(crate) fn format_with<D: Disk>(
    alloc: Global,
    disk: &mut D,
    texts: Texts<'_>,
) -> Result<(), rr_store::Fault> {
    format(alloc, disk, texts)
}

pub(crate) fn open<D: Disk + Drop>(alloc: Global, disk: D) -> Result<Moderator<D>, Refused<D>> {
    Moderator::open(alloc, disk)
}

pub(crate) fn disk_of<D: Disk + Drop>(moderator: Moderator<D>) -> D {
    moderator.into_disk()
}

pub(crate) fn serve<D: Disk + Drop, I: Input, O: Output>(
    moderator: &mut Moderator<D>,
    reader: &mut I,
    writer: &mut O,
) -> Result<(), Fault> {
    moderator.serve(reader, writer)
}

pub(crate) fn write_reply<D: Disk + Drop, O: Output>(
    moderator: &mut Moderator<D>,
    line: &[u8],
    writer: &mut O,
) -> Result<(), Fault> {
    moderator.line(line, writer)
}

pub(crate) fn make_checkpoint<D: Disk + Drop>(
    moderator: &mut Moderator<D>,
) -> Result<(), rr_store::Fault> {
    moderator.checkpoint()
}

pub(crate) fn sum_up<D: Disk + Drop>(moderator: &Moderator<D>) -> Result<Summary, Fault> {
    moderator.summary()
}

/// Carries a plan out: the status with which the program ends, and the disk.
pub(crate) fn carry_out<D: Disk + Drop, I: Input, O: Output>(
    alloc: Global,
    plan: &Plan,
    texts: Texts<'_>,
    disk: D,
    reader: &mut I,
    writer: &mut O,
) -> (u8, D) {
    act(alloc, plan, texts, disk, reader, writer)
}

/// Runs the program with these words: the status with which it ends, and the file that it leaves.
pub(crate) fn run_words<S: Start, F: FileSystem<S>, I: Input, O: Output, E: Output>(
    alloc: Global,
    words: &[&str],
    start: S,
    files: &mut F,
    reader: &mut I,
    writer: &mut O,
    errors: &mut E,
) -> Ended<F::Opened> {
    run(alloc, words, start, files, reader, writer, errors)
}

pub(crate) fn refuse_to<O: Output>(fault: Fault, writer: &mut O) -> Ending {
    refuse(fault, writer)
}

pub(crate) fn reader_of(bytes: &[u8]) -> CountingReader<&[u8]> {
    CountingReader::new(bytes)
}

pub(crate) fn empty_writer(alloc: Global) -> CountingWriter<Vec<u8>> {
    CountingWriter::new(Vec::new(alloc))
}

pub(crate) fn has_written(writer: CountingWriter<Vec<u8>>, wanted: &[u8]) -> bool {
    writer.into_inner().as_slice() == wanted
}
