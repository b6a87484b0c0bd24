// What is read whole, by its chains: the texts of a kit, snapshots, and a directory.
ghost use Rattle.std.specs.Prelude.{◌≡◌, ◌*◌, ◌<◌, ℕ, true, map, IfOk, IfErr};
ghost use Rattle.rr_pages.specs.Links.{all_fit};
ghost use Rattle.rr_reading.specs.Chains.{all_held_in, held, held_in};
ghost use Rattle.rr_reading.specs.Faults.{CountsFault, IsNoVerdict, OnDeviceFault};
ghost use Rattle.rr_reading.specs.Held.{chains_held};
ghost use Rattle.rr_reading.specs.Lending.Fitting.{each_fits};
ghost use Rattle.rr_reading.specs.Texts.{TextsFit, texts_held_in};
ghost use Rattle.rr_pages.specs.declared.page.TheConstants.{PAGE_BYTES};

use crate::named::FollowedTexts;
use crate::{Fault, KitTexts};
use rr_disk::Disk;
use rr_pages::{FollowedChain, ReadChain, read_pieces};
use std::alloc::Global;

// Reads the texts whole.
pub(crate) fn read_texts<D: Disk>(
    alloc: Global,
    disk: &mut D,
    texts: &FollowedTexts,
) -> Result<KitTexts, Fault>
    ensures texts { IfOk result (λ read. D.Honest disk.new → chains_held read ≡ texts_held_in (D.state disk.old).content texts.now) }
    ensures only { IfErr result IsNoVerdict }
    ensures fault { CountsFault (D.fault_count disk.old) (D.fault_count disk.new) result }
    ensures honest { D.Honest disk.new → D.Honest disk.old }
    ensures same_state { D.Honest disk.new → D.state disk.new ≡ D.state disk.old }
    ensures same_past { D.Honest disk.new → D.past disk.new ≡ D.past disk.old }
    ensures writes { D.write_count disk.new ≡ D.write_count disk.old }
    ensures syncs { D.sync_count disk.new ≡ D.sync_count disk.old }
    ensures device { (count : ℕ) → TextsFit count texts.now → OnDeviceFault result (D.Works disk.new → D.file_len disk.old < PAGE_BYTES * count) }
    ensures works { D.Works disk.new → D.Works disk.old }
    ensures same_len { D.file_len disk.new ≡ D.file_len disk.old }
{
    Ok(KitTexts {
        chart: read_text(alloc, disk, &texts.chart)?,
        roster: read_text(alloc, disk, &texts.roster)?,
        tiles: read_text(alloc, disk, &texts.tiles)?,
        board: read_text(alloc, disk, &texts.board)?,
    })
}

// Reads snapshots whole.
pub(crate) fn read_snapshots<D: Disk>(
    alloc: Global,
    disk: &mut D,
    chains: &[FollowedChain],
) -> Result<Vec<ReadChain>, Fault>
    ensures read { IfOk result (λ read. D.Honest disk.new → map held read.items ≡ all_held_in (D.state disk.old).content chains.now) }
    ensures only { IfErr result IsNoVerdict }
    ensures fault { CountsFault (D.fault_count disk.old) (D.fault_count disk.new) result }
    ensures honest { D.Honest disk.new → D.Honest disk.old }
    ensures same_state { D.Honest disk.new → D.state disk.new ≡ D.state disk.old }
    ensures same_past { D.Honest disk.new → D.past disk.new ≡ D.past disk.old }
    ensures writes { D.write_count disk.new ≡ D.write_count disk.old }
    ensures syncs { D.sync_count disk.new ≡ D.sync_count disk.old }
    ensures device { (count : ℕ) → each_fits count chains.now ≡ true → OnDeviceFault result (D.Works disk.new → D.file_len disk.old < PAGE_BYTES * count) }
    ensures works { D.Works disk.new → D.Works disk.old }
    ensures same_len { D.file_len disk.new ≡ D.file_len disk.old }
{
    let mut read = Vec::new(alloc);
    for chain in chains {
        let snapshot = read_text(alloc, disk, chain)?;
        read.push(snapshot)?;
    }
    Ok(read)
}

pub(crate) fn read_text<D: Disk>(
    alloc: Global,
    disk: &mut D,
    text: &FollowedChain,
) -> Result<ReadChain, Fault>
    ensures text { IfOk result (λ read. D.Honest disk.new → held read ≡ held_in (D.state disk.old).content text.now) }
    ensures only { IfErr result IsNoVerdict }
    ensures fault { CountsFault (D.fault_count disk.old) (D.fault_count disk.new) result }
    ensures honest { D.Honest disk.new → D.Honest disk.old }
    ensures same_state { D.Honest disk.new → D.state disk.new ≡ D.state disk.old }
    ensures same_past { D.Honest disk.new → D.past disk.new ≡ D.past disk.old }
    ensures writes { D.write_count disk.new ≡ D.write_count disk.old }
    ensures syncs { D.sync_count disk.new ≡ D.sync_count disk.old }
    ensures device { (count : ℕ) → all_fit count text.now.links.items ≡ true → OnDeviceFault result (D.Works disk.new → D.file_len disk.old < PAGE_BYTES * count) }
    ensures works { D.Works disk.new → D.Works disk.old }
    ensures same_len { D.file_len disk.new ≡ D.file_len disk.old }
{
    let read = read_pieces(alloc, disk, &text.links)?;
    Ok(read)
}
