ghost use Rattle.std.specs.Prelude.{◌≡◌, ◌+◌, ◌≤◌, length, OnOk, IsErrOf, IsOkUnless};
ghost use Rattle.rr_disk.specs.Disk.{counted_by};
ghost use Rattle.rr_disk.specs.Moments.{EachImage, LeavesOnly};
ghost use Rattle.rr_log.specs.Formatting.Calls.{data_pages, laying_writes};
ghost use Rattle.rr_log.specs.Formatting.Formatted.{IsUnused, KeepsNew, KeepsNoneOr};
ghost use Rattle.rr_log.specs.Formatting.NewFile.{empty_world};
ghost use Rattle.rr_pages.specs.Faults.{CountsFault, NoVerdict};
ghost use Rattle.rr_reading.specs.Dir.Directory.{FitsVersion};
ghost use Rattle.rr_reading.specs.Dir.Version.{version_number};
ghost use Rattle.rr_reading.specs.Worlds.Spelling.{worlds};
ghost use Rattle.rr_reading.specs.declared.dir.directory.TheConstants.{MOST_TEXT};

use crate::formatting::{new_file, write_new_file};
use rr_disk::Disk;
use rr_pages::Fault;
use rr_reading::dir::Version;
use rr_reading::worlds::Rules;
use std::alloc::Global;

/// Makes a store of an empty disk, with the four texts of a kit, each of 65,536 bytes at most, and without a table. Its
/// root is number 1, of this version, and its first record will be number 1, in the first half. Wherever the
/// device stops, the file on it is no store yet, or this one.
///
/// # Errors
/// `OutOfMemory` before the first device call, and `Disk` where a call failed: then what the disk holds is no store, or
/// the whole new one.
pub fn format<R: Rules, D: Disk>(
    alloc: Global,
    disk: &mut D,
    version: Version,
    bank: Option<u64>,
    chart: &[u8],
    roster: &[u8],
    tiles: &[u8],
    board: &[u8],
) -> Result<(), Fault>
    requires empty { D.file_len disk.old ≡ 0 }
    requires said { FitsVersion version bank }
    requires banked { R.rules.banks roster.now bank }
    requires short_chart { length chart.now ≤ MOST_TEXT }
    requires short_roster { length roster.now ≤ MOST_TEXT }
    requires short_tiles { length tiles.now ≤ MOST_TEXT }
    requires short_board { length board.now ≤ MOST_TEXT }

    // Whatever a stop leaves from now on, and whatever it left since the call began.
    ensures each { OnOk result (D.Honest disk.new → length (D.state disk.old).content ≡ 0
        → EachImage (D.state disk.new)
        (KeepsNew (worlds R.rules) (version_number version) (empty_world chart.now roster.now tiles.now board.now))) }
    ensures any_moment { D.Honest disk.new → IsUnused (D.state disk.old)
        → LeavesOnly (D.past disk.old) (D.state disk.old) (D.past disk.new) (D.state disk.new)
        (KeepsNoneOr (worlds R.rules) (version_number version) (empty_world chart.now roster.now tiles.now board.now)) }

    ensures only { NoVerdict result }
    ensures unchanged { IsErrOf result Fault.OutOfMemory → disk.new ≡ disk.old }
    ensures fault { CountsFault (D.fault_count disk.old) (D.fault_count disk.new) result }
    ensures honest { D.Honest disk.new → D.Honest disk.old }
    ensures all_writes { OnOk result (D.write_count disk.new
        ≡ counted_by (laying_writes (data_pages chart.now roster.now tiles.now board.now)) (D.write_count disk.old)) }
    ensures writes { D.write_count disk.new
        ≤ D.write_count disk.old + laying_writes (data_pages chart.now roster.now tiles.now board.now) }
    ensures syncs { D.sync_count disk.new ≤ D.sync_count disk.old + 3 }

    // A disk that works doesn't fail here.
    ensures device { D.Works disk.new → IsOkUnless result Fault.OutOfMemory }
    ensures works { D.Works disk.new → D.Works disk.old }
{
    let file = new_file::<R>(alloc, version, bank, chart, roster, tiles, board)?;
    write_new_file::<R, D>(disk, &file)?;
    Ok(())
}
