//! The program from its words on.
ghost use Rattle.std.specs.Prelude.{◌≡◌, ◌⊎◌, None, IfErr, IfOk};
ghost use Rattle.clap.specs.Walk.{texts};
ghost use Rattle.rr_moderator.specs.declared.fault.Fault.TheVariants.{OutOfMemory, StreamFailed};
ghost use Rattle.rr_cli.specs.Ending.{status_of};
ghost use Rattle.rr_cli.specs.Plan.{kit_paths};
ghost use Rattle.rr_cli.specs.Running.{ActsOn, ActsOnFile, CarriesOut, EndsRefused, FailsToRead, Runs, TellsText, after_kit, texts_in};

use crate::files::FileSystem;
use crate::{Ended, Ending, Fault, Plan, act, plan, refuse, status};
use rr_disk::{Disk, Start};
use rr_moderator::Texts;
use rr_serve::{Input, Output, send};
use std::alloc::Global;

/// Does what the words after the program's name ask, and returns the status with which the program ends, and the file as
/// it is then.
///
/// If the words are refused, or ask for help, some text is written to `errors`; all else is written to `writer`. The
/// kit's files are read first, in the order chart, roster, tiles, board, up to one that can't be read. Then FILE is
/// opened, and `format` makes it if it is absent. Only `serve` reads `reader`. What the file held as it was opened is
/// said by the type `S`, which no code can see. So this is proved for every content of the file.
pub fn run<S: Start, F: FileSystem<S>, I: Input, O: Output, E: Output>(
    alloc: Global,
    words: &[&str],
    start: S,
    files: &mut F,
    reader: &mut I,
    writer: &mut O,
    errors: &mut E,
) -> Ended<F::Opened>
    ensures { Runs F.Opened.Disk S.held (texts words.entry.now) (F.calls files.old) (F.calls files.new) (I.state reader.old) (I.state reader.new)
        (O.state writer.old) (O.state writer.new) (E.state errors.old) (E.state errors.new) result }
{
    match plan(alloc, words) {
        Ok(plan) => carry_out(alloc, &plan, start, files, reader, writer),
        Err(Fault::Words(text)) => refuse_words(text.as_str(), errors),
        Err(Fault::OutOfMemory) => end(rr_moderator::Fault::OutOfMemory, writer),
    }
}

/// Writes the refusal, and ends the program, which has opened no file.
fn end<D: Drop, O: Output>(fault: rr_moderator::Fault, writer: &mut O) -> Ended<D>
    ensures { EndsRefused fault (O.state writer.old) (O.state writer.new) result }
{
    Ended {
        status: status(refuse(fault, writer)),
        left: None,
    }
}

/// Writes this text, and ends the program as its words are refused. The status is the same whether or not the text could
/// be written.
fn refuse_words<D: Drop, E: Output>(text: &str, errors: &mut E) -> Ended<D>
    ensures status { result.status ≡ status_of Ending.WordsRefused }
    ensures left { result.left ≡ None }
    ensures told { TellsText text.now (E.state errors.old) (E.state errors.new) }
{
    let _ = send(errors, text.as_bytes());
    Ended {
        status: status(Ending::WordsRefused),
        left: None,
    }
}

/// The texts of a kit, read from its files.
#[derive(Drop)]
struct Kit {
    chart: Vec<u8>,
    roster: Vec<u8>,
    tiles: Vec<u8>,
    board: Vec<u8>,
}

/// Reads the files of the plan's kit, opens its file, and does what it asks.
fn carry_out<S: Start, F: FileSystem<S>, I: Input, O: Output>(
    alloc: Global,
    plan: &Plan,
    start: S,
    files: &mut F,
    reader: &mut I,
    writer: &mut O,
) -> Ended<F::Opened>
    ensures { CarriesOut F.Opened.Disk S.held plan.now (F.calls files.old) (F.calls files.new) (I.state reader.old) (I.state reader.new)
        (O.state writer.old) (O.state writer.new) result }
{
    match read_kit(alloc, plan, files) {
        Ok(kit) => act_on_file(alloc, plan, &kit, start, files, reader, writer),
        Err(unread) => end(unread, writer),
    }
}

/// Opens the plan's file, and does what it asks with this kit.
fn act_on_file<S: Start, F: FileSystem<S>, I: Input, O: Output>(
    alloc: Global,
    plan: &Plan,
    kit: &Kit,
    start: S,
    files: &mut F,
    reader: &mut I,
    writer: &mut O,
) -> Ended<F::Opened>
    ensures { ActsOnFile F.Opened.Disk S.held plan.now (texts_in kit.now) (F.calls files.old) (F.calls files.new)
        (I.state reader.old) (I.state reader.new) (O.state writer.old) (O.state writer.new) result }
{
    match files.open(plan.file(), plan.makes_file(), start) {
        Ok(disk) => {
            let (status, left) = act_with(alloc, plan, kit, disk, reader, writer);
            Ended {
                status,
                left: Some(left),
            }
        }
        Err(fault) => end(fault, writer),
    }
}

/// Does what the plan asks with this kit, and returns the status with which the program ends, and the disk.
fn act_with<D: Disk + Drop, I: Input, O: Output>(
    alloc: Global,
    plan: &Plan,
    kit: &Kit,
    disk: D,
    reader: &mut I,
    writer: &mut O,
) -> (u8, D)
    ensures { ActsOn D.Disk plan.now (texts_in kit.now) disk result.1
        (I.state reader.old) (I.state reader.new) (O.state writer.old) (O.state writer.new) result.0 }
{
    let texts = Texts {
        chart: kit.chart.as_slice(),
        roster: kit.roster.as_slice(),
        tiles: kit.tiles.as_slice(),
        board: kit.board.as_slice(),
    };
    act(alloc, plan, texts, disk, reader, writer)
}

/// Reads the files of the plan's kit. Plans that need no kit have an empty one.
fn read_kit<S: Start, F: FileSystem<S>>(
    alloc: Global,
    plan: &Plan,
    files: &mut F,
) -> Result<Kit, rr_moderator::Fault>
    ensures read { IfOk result (λ kit. F.calls files.new ≡ after_kit plan.now (texts_in kit) (F.calls files.old)) }
    ensures not_read { IfErr result (λ fault. FailsToRead (kit_paths plan.now) fault (F.calls files.old) (F.calls files.new)) }
    ensures fault { IfErr result (λ fault. (fault ≡ StreamFailed) ⊎ (fault ≡ OutOfMemory)) }
{
    match plan {
        Plan::Format {
            file: _,
            chart,
            roster,
            tiles,
            board,
        } => Ok(Kit {
            chart: files.read(chart.as_str())?,
            roster: files.read(roster.as_str())?,
            tiles: files.read(tiles.as_str())?,
            board: files.read(board.as_str())?,
        }),
        Plan::Serve { .. } | Plan::Check { .. } => Ok(Kit {
            chart: Vec::new(alloc),
            roster: Vec::new(alloc),
            tiles: Vec::new(alloc),
            board: Vec::new(alloc),
        }),
    }
}
