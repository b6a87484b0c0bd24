ghost use Rattle.std.specs.Prelude.{◌≡◌, ◌+◌, ◌*◌, ◌≤◌, All, length, OnOk, OnErr};
ghost use Rattle.rr_disk.specs.Calls.{account, after_steps, StopsWithin};
ghost use Rattle.rr_disk.specs.Disk.{counted_by, CountsFault};
ghost use Rattle.rr_disk.specs.Moments.{EachImage, LeavesOnly};
ghost use Rattle.rr_log.specs.Formatting.Calls.{closing, laying, laying_writes};
ghost use Rattle.rr_log.specs.Formatting.Formatted.{IsFormatted, IsNoneOrFormatted, IsUnused};
ghost use Rattle.rr_log.specs.Formatting.NewFile.{IsNewFile};
ghost use Rattle.rr_reading.specs.Worlds.World.{World};

use crate::formatting::NewFile;
use crate::formatting::pages::{write_pages, write_zeros};
use rr_disk::{Disk, Fault, put};
use rr_pages::{FIRST_DATA, PAGE_BYTES, Roots};
use rr_reading::worlds::Rules;

// The byte at which the first page of data begins. Before it lie the roots and the journal.
const DATA_BYTE: u64 = PAGE_BYTES * FIRST_DATA as u64;

/// Puts a new file on an empty disk. Wherever the device stops, the file on it is no store yet, or the whole new one.
///
/// First comes one byte at the end of what lies before the data pages: that file is too short to be a store, whatever a
/// stop leaves of it. It is synced, so that both roots' gates are shut on the device. Then the zeros behind the gates,
/// so that the file has no hole in which a later record would first have to find room, the data pages, and the root
/// behind its shut gate are written and synced, and only then is the gate opened. Each page has its own write: where
/// a system lays many pages by one write, later writes to single ones of them take longer.
///
/// # Errors
/// `DeviceFailed` where a call failed: then nothing else is written, and what the disk holds is no store, or the whole
/// new file.
pub fn write_new_file<R: Rules, D: Disk>(disk: &mut D, file: &NewFile) -> Result<(), Fault>
    requires empty { D.file_len disk.old ≡ 0 }

    // Whatever a stop leaves from now on, and whatever it left since the call began.
    ensures each { OnOk result (D.Honest disk.new → length (D.state disk.old).content ≡ 0
        → (world : World) (is : IsNewFile R.rules file.now.root file.now.fresh.items world)
        → EachImage (D.state disk.new) (IsFormatted R.rules file.now.root file.now.fresh.items is.holding world)) }
    ensures any_moment { D.Honest disk.new → IsUnused (D.state disk.old)
        → (world : World) (is : IsNewFile R.rules file.now.root file.now.fresh.items world)
        → LeavesOnly (D.past disk.old) (D.state disk.old) (D.past disk.new) (D.state disk.new)
        (IsNoneOrFormatted R.rules file.now.root file.now.fresh.items is.holding world) }

    // The device calls are these in turn, a write for each page, and none is made behind one that fails.
    ensures calls { OnOk result (D.Honest disk.new → account D.Disk disk.new
        ≡ after_steps (account D.Disk disk.old) (laying file.now.root file.now.fresh.items)) }
    ensures stops { OnErr result (D.Honest disk.new → StopsWithin
        (account D.Disk disk.old) (laying file.now.root file.now.fresh.items) (account D.Disk disk.new)) }

    ensures fault { CountsFault (D.fault_count disk.old) (D.fault_count disk.new) result }
    ensures honest { D.Honest disk.new → D.Honest disk.old }
    ensures all_writes { OnOk result (D.write_count disk.new
        ≡ counted_by (laying_writes (length file.now.fresh.items)) (D.write_count disk.old)) }
    ensures writes { D.write_count disk.new ≤ D.write_count disk.old + laying_writes (length file.now.fresh.items) }
    ensures syncs { D.sync_count disk.new ≤ D.sync_count disk.old + 3 }

    // A disk that works doesn't fail here.
    ensures device { OnErr result (D.Works disk.new → (world : World)
        → IsNewFile R.rules file.now.root file.now.fresh.items world → ⊥) }
    ensures works { D.Works disk.new → D.Works disk.old }
{
    write_closed(disk, file)?;
    let mut roots = Roots { taken: true };
    roots.open(disk)?;
    Ok(())
}

// Puts the whole file on the disk but for its gate, which stays shut, and syncs: until then it is no store.
fn write_closed<D: Disk>(disk: &mut D, file: &NewFile) -> Result<(), Fault>
    ensures calls { OnOk result (D.Honest disk.new → account D.Disk disk.new
        ≡ after_steps (account D.Disk disk.old) (closing file.now.root file.now.fresh.items)) }
    ensures stops { OnErr result (D.Honest disk.new → StopsWithin
        (account D.Disk disk.old) (closing file.now.root file.now.fresh.items) (account D.Disk disk.new)) }
    ensures fault { CountsFault (D.fault_count disk.old) (D.fault_count disk.new) result }
    ensures honest { D.Honest disk.new → D.Honest disk.old }
    ensures all_writes { OnOk result (D.write_count disk.new
        ≡ counted_by (FIRST_DATA + length file.now.fresh.items + 1) (D.write_count disk.old)) }
    ensures writes { D.write_count disk.new
        ≤ D.write_count disk.old + (FIRST_DATA + length file.now.fresh.items + 1) }
    ensures syncs { D.sync_count disk.new ≤ D.sync_count disk.old + 2 }
    ensures works { D.Works disk.new → D.Works disk.old }
    ensures refused { OnErr result (D.Works disk.new
        → All (λ page. length page.bytes.items ≡ PAGE_BYTES) file.now.fresh.items → ⊥) }
{
    put(disk, DATA_BYTE - 1, &[0])?;
    write_zeros(disk)?;
    write_pages(disk, &file.fresh)?;
    let roots = Roots { taken: true };
    roots.fill(disk, &file.root)?;
    Ok(())
}
