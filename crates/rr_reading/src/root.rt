// The root that is taken, and the numbers that a reading takes of it.
ghost use Rattle.std.specs.Prelude.{◌≡◌, ◌≤◌, ◌<◌, ◌^◌, IfOk, IfErr};
ghost use Rattle.rr_pages.specs.Roots.{LiesWithin};
ghost use Rattle.rr_reading.specs.Faults.{CountsFault, OnDeviceFault};
ghost use Rattle.rr_reading.specs.Reading.{TakesRoot, Refuses};

use crate::Fault;
use rr_disk::Disk;
use rr_pages::{MOST_PAGES, Taken, take_root};

// The number of a first record is below this one.
const FIRST_END: u64 = 1 << 63;

pub(crate) fn read_root<D: Disk>(disk: &mut D) -> Result<Taken, Fault>
    ensures taken { IfOk result (λ taken. D.Honest disk.new → TakesRoot (D.state disk.old).content taken.side taken.root) }
    ensures refused { IfErr result (λ fault. D.Honest disk.new → Refuses (D.state disk.old).content fault) }
    ensures within { IfOk result (λ taken. LiesWithin (D.file_len disk.old) taken.root) }
    ensures fault { CountsFault (D.fault_count disk.old) (D.fault_count disk.new) result }
    ensures honest { D.Honest disk.new → D.Honest disk.old }
    ensures same_state { D.Honest disk.new → D.state disk.new ≡ D.state disk.old }
    ensures same_past { D.Honest disk.new → D.past disk.new ≡ D.past disk.old }
    ensures writes { D.write_count disk.new ≡ D.write_count disk.old }
    ensures syncs { D.sync_count disk.new ≡ D.sync_count disk.old }
    ensures device { OnDeviceFault result (D.Works disk.new → ⊥) }
    ensures works { D.Works disk.new → D.Works disk.old }
    ensures same_len { D.file_len disk.new ≡ D.file_len disk.old }
{
    let taken = take_root(disk)?;
    Ok(taken)
}

// The page count of a root. One that is taken has at most 65,536 pages.
pub(crate) fn page_count(pages: u64) -> u32
    ensures few { result ≤ MOST_PAGES }
    ensures least { result ≤ pages }
    ensures same { pages ≤ MOST_PAGES → result ≡ pages }
{
    pages.min(u64::from(MOST_PAGES)) as u32
}

// The number of the first record behind a root. That of one that is taken is below 2^63.
pub(crate) fn first_number(first: u64) -> u64
    ensures low { result < 2 ^ 63 }
    ensures same { first < 2 ^ 63 → result ≡ first }
{
    first.min(FIRST_END - 1)
}
