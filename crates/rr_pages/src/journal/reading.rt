ghost use Rattle.std.specs.Prelude.{◌≡◌, ◌+◌, ◌^◌, ◌<◌, ◌≤◌, List, ℕ, length, IsErrOf, IfOk, OnOk};
ghost use Rattle.rr_disk.specs.Disk.{IsAt};
ghost use Rattle.rr_pages.specs.Faults.{CountsFault, NoVerdict, OnDeviceFault};
ghost use Rattle.rr_pages.specs.Journal.Layout.{gate_place};
ghost use Rattle.rr_pages.specs.Journal.Reading.{lines, Tells, Begins, FitsThere};
ghost use Rattle.rr_pages.specs.Journal.Run.{HasRecord, Run, slots_of};
ghost use Rattle.rr_pages.specs.Journal.Stops.{next_gate, IsAtRest, Keeps};

use crate::Fault;
use crate::journal::Half;
use crate::journal::layout::{
    HEADER_BYTES, HalfIndex, LAST_SLOT, fits_slots, gate_place, slots_for,
};
use crate::page::OPEN;
use byteorder::{BigEndian, ByteOrder};
use rr_disk::Disk;
use std::alloc::Global;

/// Why a run of records ended.
#[derive(Clone, Copy, Debug, PartialEq, Eq)]
pub enum RunEnd {
    /// The slot behind the last record is shut, or the half's slots are used up.
    Closed,
    /// The slot behind the last record is open, and its number isn't the one expected: an older record was left there.
    /// The run ends as at a shut slot, but nothing may be appended there before that slot's gate is shut.
    OtherNumber,
    /// The slot behind the last record is open with the expected number, and its length is none that a record there may
    /// have.
    Damaged,
}

/// The records that stand in a half.
#[derive(Debug, Drop)]
pub struct Scanned {
    /// The half, its next slot behind the last record.
    pub half: Half,
    /// The bytes of each record, in order.
    pub records: Vec<Vec<u8>>,
    pub end: RunEnd,
}

// What begins in a slot.
#[derive(Drop)]
enum Found {
    Record(Vec<u8>),
    End(RunEnd),
}

/// Reads the records of a half from its slot 0 on: those of the first number and one more each, up to the first slot
/// where no such record begins. Slot 255 is never looked at. It writes nothing. A half has at most 255 records, so that
/// their numbers are counted up to 2^64 - 1.
///
/// `Disk` where a device call failed, as where the file ends within the half; `OutOfMemory` where the records don't
/// fit, and never of a half without one.
pub fn scan<D: Disk>(
    alloc: Global,
    disk: &mut D,
    index: HalfIndex,
    first_number: u64,
) -> Result<Scanned, Fault>
    requires { first_number + LAST_SLOT < 2 ^ 64 }

    ensures found { IfOk result (λ scanned. D.Honest disk.new
        → Run (D.state disk.old).content index 0 first_number (lines scanned.records.items) scanned.end) }
    // No other records are in the half, and no other end.
    ensures only { IfOk result (λ scanned. D.Honest disk.new → (others : List (List ℕ)) (end : _)
        → Run (D.state disk.old).content index 0 first_number others end
        → (others ≡ lines scanned.records.items) × (end ≡ scanned.end)) }
    ensures index { IfOk result (λ scanned. scanned.half.index ≡ index) }
    ensures next { IfOk result (λ scanned. scanned.half.next_slot ≡ slots_of (lines scanned.records.items)) }
    ensures few { IfOk result (λ scanned. length scanned.records.items ≤ LAST_SLOT) }

    // On a disk at rest the half then keeps these records, and is ready for the next.
    ensures keeps { IfOk result (λ scanned. D.Honest disk.new → IsAtRest (D.state disk.new)
        → scanned.end ≡ RunEnd.Closed → next_gate scanned.half < length (D.state disk.new).content
        → Keeps scanned.half (D.state disk.new) first_number (lines scanned.records.items)) }

    ensures fault { CountsFault (D.fault_count disk.old) (D.fault_count disk.new) result }
    ensures err { NoVerdict result }
    ensures memory { IsErrOf result Fault.OutOfMemory → D.Honest disk.new
        → HasRecord (D.state disk.old).content index 0 first_number }

    ensures honest { D.Honest disk.new → D.Honest disk.old }
    ensures same_state { D.Honest disk.new → D.state disk.new ≡ D.state disk.old }
    ensures same_past { D.Honest disk.new → D.past disk.new ≡ D.past disk.old }
    ensures writes { D.write_count disk.new ≡ D.write_count disk.old }
    ensures syncs { D.sync_count disk.new ≡ D.sync_count disk.old }

    // A disk that works fails only where the file ends before slot 255.
    ensures device { OnDeviceFault result (D.Works disk.new → D.file_len disk.old < gate_place index LAST_SLOT) }
    ensures works { D.Works disk.new → D.Works disk.old }
    ensures same_len { D.file_len disk.new ≡ D.file_len disk.old }
{
    let mut half = Half {
        index,
        next_slot: 0,
    };
    let mut records = Vec::new(alloc);
    let mut number = first_number;
    while half.next_slot < LAST_SLOT {
        match read_record(alloc, disk, half, number)? {
            Found::Record(bytes) => {
                half.next_slot += slots_for(bytes.len());
                records.push(bytes)?;
                number += 1;
            }
            Found::End(end) => return Ok(Scanned { half, records, end }),
        }
    }
    Ok(Scanned {
        half,
        records,
        end: RunEnd::Closed,
    })
}

// Reads what begins in the half's next slot.
fn read_record<D: Disk>(
    alloc: Global,
    disk: &mut D,
    half: Half,
    number: u64,
) -> Result<Found, Fault>
    requires { half.next_slot < LAST_SLOT }

    ensures found { IfOk result (λ found. D.Honest disk.new
        → Begins (D.state disk.old).content half number found) }
    ensures fits { IfOk result (λ found. FitsThere half found) }

    ensures fault { CountsFault (D.fault_count disk.old) (D.fault_count disk.new) result }
    ensures err { NoVerdict result }
    ensures memory { IsErrOf result Fault.OutOfMemory → D.Honest disk.new
        → HasRecord (D.state disk.old).content half.index half.next_slot number }

    ensures honest { D.Honest disk.new → D.Honest disk.old }
    ensures same_state { D.Honest disk.new → D.state disk.new ≡ D.state disk.old }
    ensures same_past { D.Honest disk.new → D.past disk.new ≡ D.past disk.old }
    ensures writes { D.write_count disk.new ≡ D.write_count disk.old }
    ensures syncs { D.sync_count disk.new ≡ D.sync_count disk.old }
    ensures device { OnDeviceFault result (D.Works disk.new → D.file_len disk.old < gate_place half.index LAST_SLOT) }
    ensures works { D.Works disk.new → D.Works disk.old }
    ensures same_len { D.file_len disk.new ≡ D.file_len disk.old }
{
    let gate = gate_place(half.index, half.next_slot);
    let mut header = [0u8; HEADER_BYTES];
    disk.read_at(gate, &mut header)?;
    match count_in(&header, half.next_slot, number) {
        Err(end) => Ok(Found::End(end)),
        Ok(count) => {
            let bytes = read_bytes(alloc, disk, gate + HEADER_BYTES as u64, count)?;
            Ok(Found::Record(bytes))
        }
    }
}

fn read_bytes<D: Disk>(alloc: Global, disk: &mut D, at: u64, count: usize) -> Result<Vec<u8>, Fault>
    ensures bytes { IfOk result (λ bytes. D.Honest disk.new
        → IsAt (D.state disk.old).content at bytes.items) }
    ensures count { IfOk result (λ bytes. length bytes.items ≡ count) }

    ensures fault { CountsFault (D.fault_count disk.old) (D.fault_count disk.new) result }
    ensures err { NoVerdict result }

    ensures honest { D.Honest disk.new → D.Honest disk.old }
    ensures same_state { D.Honest disk.new → D.state disk.new ≡ D.state disk.old }
    ensures same_past { D.Honest disk.new → D.past disk.new ≡ D.past disk.old }
    ensures writes { D.write_count disk.new ≡ D.write_count disk.old }
    ensures syncs { D.sync_count disk.new ≡ D.sync_count disk.old }
    ensures device { OnDeviceFault result (D.Works disk.new → D.file_len disk.old < at + count) }
    ensures works { D.Works disk.new → D.Works disk.old }
    ensures same_len { D.file_len disk.new ≡ D.file_len disk.old }
{
    let mut bytes = vec![in alloc; 0; count]?;
    disk.read_at(at, &mut bytes)?;
    Ok(bytes)
}

// How many bytes the record has whose gate, number and length these are, if it is the one expected.
fn count_in(header: &[u8], slot: u8, number: u64) -> Result<usize, RunEnd>
    requires { length header.now ≡ HEADER_BYTES }
    ensures { Tells header.now slot number result }
{
    if header[0] != OPEN {
        return Err(RunEnd::Closed);
    }
    if BigEndian::read_u64(&header[1..]) != number {
        return Err(RunEnd::OtherNumber);
    }
    let count = BigEndian::read_u32(&header[9..]) as usize;
    if fits_slots(slot, count) {
        Ok(count)
    } else {
        Err(RunEnd::Damaged)
    }
}
