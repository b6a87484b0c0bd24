//! A kit, and files that are made with it.
use crate::calls::{format_with, open};
use rr_disk::{Disk, MemoryDisk};
use rr_moderator::{Moderator, Texts};
use std::process::Abort;

/// Room for a file of 519 pages and for all that is written when it is made.
const ROOM: usize = 1 << 23;

const CHART: &[u8] = b"# two rows\n90 100p 112\n. 80y\n";

const BOARD: &[u8] = b"hex A 0,0 grey c20/1:5\n";

pub(crate) const ROSTER: &[u8] = b"private = [
 {name=\"SV\", face=20, income=5}, {name=\"C&SL\", face=40, income=10},
 {name=\"D&H\", face=70, income=15}, {name=\"M&H\", face=110, income=20},
 {name=\"C&A\", face=160, income=25}, {name=\"B&O\", face=220, income=30}]
corporation = [
 {name=\"PRR\", tokens=4}, {name=\"NYC\", tokens=4}, {name=\"CPR\", tokens=4},
 {name=\"B&O\", tokens=3}, {name=\"C&O\", tokens=3}, {name=\"ERIE\", tokens=3},
 {name=\"NYNH\", tokens=2}, {name=\"B&M\", tokens=2}]
train = [
 {name=\"2\", price=80, count=6}, {name=\"3\", price=180, count=5},
 {name=\"4\", price=300, count=4}, {name=\"5\", price=450, count=3},
 {name=\"6\", price=630, count=2}, {name=\"D\", price=1100, count=6, trade=800}]
";

/// The texts of a kit with this roster.
pub(crate) fn texts(roster: &[u8]) -> Texts<'_> {
    Texts {
        chart: CHART,
        roster,
        tiles: b"",
        board: BOARD,
    }
}

/// A disk without a file.
pub(crate) fn empty(rt: &(impl Abort + AllocGlobal)) -> MemoryDisk {
    MemoryDisk::new(rt.alloc(), ROOM).expect(rt, "memory")
}

/// A disk with a new file.
pub(crate) fn formatted(rt: &(impl Abort + AllocGlobal)) -> MemoryDisk {
    let mut disk = empty(rt);
    format_with(rt.alloc(), &mut disk, texts(ROSTER)).expect(rt, "a new file");
    disk
}

/// The moderator of a file.
pub(crate) fn opened<D: Disk + Drop>(rt: &(impl Abort + AllocGlobal), disk: D) -> Moderator<D> {
    open(rt.alloc(), disk).ok().expect(rt, "a file")
}
