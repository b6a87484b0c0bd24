// The pages of a new file, each put on the disk by a write of its own.
ghost use Rattle.std.specs.Prelude.{◌≡◌, ◌+◌, ◌-◌, ◌≤◌, All, length, map, OnOk, OnErr};
ghost use Rattle.rr_disk.specs.Calls.{account, after_steps, StopsWithin};
ghost use Rattle.rr_disk.specs.Disk.{counted_by, CountsFault};
ghost use Rattle.rr_log.specs.Formatting.Calls.{page_call, zero_calls, zero_page, zeros_from};

use rr_disk::{Disk, Fault, write};
use rr_pages::{FIRST_DATA, FreshPage, PAGE_BYTES};

// Puts zeros behind the gate of the second root, and over the journal: a later record finds no hole in the file.
pub(crate) fn write_zeros<D: Disk>(disk: &mut D) -> Result<(), Fault>
    ensures calls { OnOk result (D.Honest disk.new
        → account D.Disk disk.new ≡ after_steps (account D.Disk disk.old) zero_calls) }
    ensures stops { OnErr result (D.Honest disk.new
        → StopsWithin (account D.Disk disk.old) zero_calls (account D.Disk disk.new)) }
    ensures fault { CountsFault (D.fault_count disk.old) (D.fault_count disk.new) result }
    ensures honest { D.Honest disk.new → D.Honest disk.old }
    ensures all_writes { OnOk result
        (D.write_count disk.new ≡ counted_by (FIRST_DATA - 1) (D.write_count disk.old)) }
    ensures writes { D.write_count disk.new ≤ D.write_count disk.old + (FIRST_DATA - 1) }
    ensures syncs { D.sync_count disk.new ≡ D.sync_count disk.old }
    ensures works { D.Works disk.new → D.Works disk.old }
    ensures refused { OnErr result (D.Works disk.new → ⊥) }
{
    let zeros = [0u8; PAGE_BYTES as usize];
    write_zero_pages(disk, &zeros)?;
    Ok(())
}

// The same by a page of zeros.
fn write_zero_pages<D: Disk>(disk: &mut D, zeros: &[u8]) -> Result<(), Fault>
    requires zeros { zeros.now ≡ zero_page }
    requires whole { length zeros.now ≡ PAGE_BYTES }
    ensures calls { OnOk result (D.Honest disk.new
        → account D.Disk disk.new ≡ after_steps (account D.Disk disk.old) zero_calls) }
    ensures stops { OnErr result (D.Honest disk.new
        → StopsWithin (account D.Disk disk.old) zero_calls (account D.Disk disk.new)) }
    ensures fault { CountsFault (D.fault_count disk.old) (D.fault_count disk.new) result }
    ensures honest { D.Honest disk.new → D.Honest disk.old }
    ensures all_writes { OnOk result
        (D.write_count disk.new ≡ counted_by (FIRST_DATA - 1) (D.write_count disk.old)) }
    ensures writes { D.write_count disk.new ≤ D.write_count disk.old + (FIRST_DATA - 1) }
    ensures syncs { D.sync_count disk.new ≡ D.sync_count disk.old }
    ensures works { D.Works disk.new → D.Works disk.old }
    ensures refused { OnErr result (D.Works disk.new → ⊥) }
{
    write(disk, PAGE_BYTES + 1, &zeros[1..])?;
    write_journal(disk, zeros)?;
    Ok(())
}

// Puts zeros over each page of the journal.
fn write_journal<D: Disk>(disk: &mut D, zeros: &[u8]) -> Result<(), Fault>
    requires zeros { zeros.now ≡ zero_page }
    requires whole { length zeros.now ≡ PAGE_BYTES }
    ensures calls { OnOk result (D.Honest disk.new
        → account D.Disk disk.new ≡ after_steps (account D.Disk disk.old) (zeros_from 2 (FIRST_DATA - 2))) }
    ensures stops { OnErr result (D.Honest disk.new
        → StopsWithin (account D.Disk disk.old) (zeros_from 2 (FIRST_DATA - 2)) (account D.Disk disk.new)) }
    ensures fault { CountsFault (D.fault_count disk.old) (D.fault_count disk.new) result }
    ensures honest { D.Honest disk.new → D.Honest disk.old }
    ensures all_writes { OnOk result
        (D.write_count disk.new ≡ counted_by (FIRST_DATA - 2) (D.write_count disk.old)) }
    ensures writes { D.write_count disk.new ≤ D.write_count disk.old + (FIRST_DATA - 2) }
    ensures syncs { D.sync_count disk.new ≡ D.sync_count disk.old }
    ensures works { D.Works disk.new → D.Works disk.old }
    ensures refused { OnErr result (D.Works disk.new → ⊥) }
{
    for page in 2..FIRST_DATA {
        write(disk, PAGE_BYTES * u64::from(page), zeros)?;
    }
    Ok(())
}

// Puts each of these pages where it goes.
pub(crate) fn write_pages<D: Disk>(disk: &mut D, fresh: &[FreshPage]) -> Result<(), Fault>
    ensures calls { OnOk result (D.Honest disk.new
        → account D.Disk disk.new ≡ after_steps (account D.Disk disk.old) (map page_call fresh.now)) }
    ensures stops { OnErr result (D.Honest disk.new
        → StopsWithin (account D.Disk disk.old) (map page_call fresh.now) (account D.Disk disk.new)) }
    ensures fault { CountsFault (D.fault_count disk.old) (D.fault_count disk.new) result }
    ensures honest { D.Honest disk.new → D.Honest disk.old }
    ensures all_writes { OnOk result
        (D.write_count disk.new ≡ counted_by (length fresh.now) (D.write_count disk.old)) }
    ensures writes { D.write_count disk.new ≤ D.write_count disk.old + length fresh.now }
    ensures syncs { D.sync_count disk.new ≡ D.sync_count disk.old }
    ensures works { D.Works disk.new → D.Works disk.old }
    ensures refused { OnErr result (D.Works disk.new
        → All (λ page. length page.bytes.items ≡ PAGE_BYTES) fresh.now → ⊥) }
{
    for page in fresh {
        write(disk, PAGE_BYTES * u64::from(page.page), &page.bytes)?;
    }
    Ok(())
}
