//! The moderator's replies. Whole games stand in the folder `games` of the repository. What a failure of its streams or
//! of the device leaves is tried on the built program by `tools/try-the-program` and `tools/stop-anywhere`, and in
//! which order it writes, syncs and answers by `tools/try-the-file`.
use crate::calls::{
    disk_of, empty_writer, has_written, make_checkpoint, reader_of, serve, sum_up, write_reply,
};
use crate::kits::{formatted, opened};
use rr_disk::Disk;
use rr_moderator::{Moderator, Reply, Summary};
use std::alloc::Global;
use std::process::Abort;

// The calls below have no contracts, so that what a test does costs its proof little.

/// Whether this input is served to its end with these replies.
fn is_served<D: Disk + Drop>(
    alloc: Global,
    moderator: &mut Moderator<D>,
    input: &[u8],
    replies: &[u8],
) -> bool {
    let mut reader = reader_of(input);
    let mut writer = empty_writer(alloc);
    let is_whole = serve(moderator, &mut reader, &mut writer).is_ok();
    [is_whole, has_written(writer, replies)] == [true; 2]
}

/// Whether the line is answered so.
fn is_answered<D: Disk + Drop>(moderator: &mut Moderator<D>, line: &[u8], reply: &[u8]) -> bool {
    moderator.answer(line) == reply
}

/// Whether the line is answered so into a writer.
fn is_written<D: Disk + Drop>(
    alloc: Global,
    moderator: &mut Moderator<D>,
    line: &[u8],
    reply: &[u8],
) -> bool {
    let mut writer = empty_writer(alloc);
    let is_whole = write_reply(moderator, line, &mut writer).is_ok();
    [is_whole, has_written(writer, reply)] == [true; 2]
}

const INPUT: &[u8] = b"0 t1 open ann bob\n1 t1 buy ann\n";

const REPLIES: &[u8] = b"ok t1 1\nok t1 2\n";

/// A disk whose new file has served two commands.
fn with_two_commands<D: Disk + Drop>(rt: &(impl Abort + AllocGlobal), new: D) -> D {
    let mut moderator = opened(rt, new);
    assert!(rt; is_served(rt.alloc(), &mut moderator, INPUT, REPLIES));
    disk_of(moderator)
}

/// What two commands leave of one table.
const WHOLE: Summary = Summary { tables: 1, last: 2 };

fn is_summed_up<D: Disk + Drop>(moderator: &Moderator<D>) -> bool {
    sum_up(moderator) == Ok(WHOLE)
}

/// Stops where a table and two commands aren't summed up behind a checkpoint, and once the file is opened again.
fn check_summaries<D: Disk + Drop>(rt: &(impl Abort + AllocGlobal), disk: D) {
    let mut moderator = opened(rt, disk);
    make_checkpoint(&mut moderator).expect(rt, "a checkpoint");
    assert!(rt; is_summed_up(&moderator));
    let again = opened(rt, disk_of(moderator));
    assert!(rt; is_summed_up(&again));
}

/// Stops where a summary is told otherwise.
fn check_told(rt: &(impl Abort + AllocGlobal), summary: Summary, told: &[u8]) {
    let mut reply = Reply::new(rt.alloc()).expect(rt, "memory");
    summary.write(&mut reply);
    assert!(rt; reply.as_bytes() == told);
}

#[test]
fn sums_up_what_it_holds(rt: HostRuntime) {
    let rt = &rt;
    check_summaries(rt, with_two_commands(rt, formatted(rt)));
    check_told(rt, WHOLE, b"ok 1 2\n");
}

/// Stops where a table doesn't go on where it stopped.
fn check_next_lines<D: Disk + Drop>(rt: &(impl Abort + AllocGlobal), disk: D) {
    let mut again = opened(rt, disk);
    let is_right = [
        is_answered(&mut again, b"stamp t1", b"= 2\n"),
        is_answered(&mut again, b"2 t1 buy bob", b"ok t1 3\n"),
        is_written(rt.alloc(), &mut again, b"privates t1 bob", b"= C&SL\n"),
        is_answered(
            &mut again,
            b"book t1 1",
            b"= move SV ann ; pay ann bank 20\n",
        ),
    ];
    assert!(rt; is_right == [true; 4]);
}

#[test]
fn goes_on_where_it_stopped(rt: HostRuntime) {
    let rt = &rt;
    check_next_lines(rt, with_two_commands(rt, formatted(rt)));
}
