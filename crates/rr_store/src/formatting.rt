ghost use Rattle.std.specs.Prelude.{◌≡◌, ◌≢◌, ◌⊎◌, ◌↔◌, ◌+◌, ◌^◌, ◌<◌, ◌≤◌, [], length, MatchResult, OnOk, IfErr, IsTrue, Err};
ghost use Rattle.rr_disk.specs.Disk.{counted_by};
ghost use Rattle.rr_disk.specs.Moments.{LeavesOnly};
ghost use Rattle.rr_log.specs.Formatting.Formatted.{IsUnused};
ghost use Rattle.rr_kit.specs.Kits.{IsRightKit, RefusesKit};
ghost use Rattle.rr_pages.specs.Choosing.{IsNoStore};
ghost use Rattle.rr_tables.specs.Records.Headline.{KeepsTables};
ghost use Rattle.rr_roster.specs.Reading.{HasBank, NamesBank};
ghost use Rattle.rr_tables.specs.Records.Taking.{SaysBank};
ghost use Rattle.rr_reading.specs.Dir.Directory.{FitsVersion};
ghost use Rattle.rr_reading.specs.Dir.Version.{version_number};
ghost use Rattle.rr_reading.specs.declared.dir.version.Version.{Version as OfVersion};
ghost use Rattle.rr_reading.specs.declared.dir.version.Version.TheVariants.{One};
ghost use Rattle.rr_store.specs.Allowing.{FormatAllows, FormatAllowsAs};
ghost use Rattle.rr_store.specs.Fault.{CountsFailure, OnDeviceFault, of_kit};
ghost use Rattle.rr_store.specs.Files.{IsNewStoreOf};
ghost use Rattle.rr_store.specs.Formatting.{ComesFirst, format_writes, IsRightAs, RefusesAs, RefusesFormat, RefusesFormatAs, RefusesTexts};
ghost use Rattle.rr_store.specs.Lent.{lent_texts};

use crate::fault::Fault;
use crate::texts::Texts;
use rr_disk::Disk;
use rr_kit::Kit;
use rr_reading::dir::{NEWEST, Version};
use rr_tables::records::TableRules;
use std::alloc::Global;

/// Makes a store of an empty file, from the texts of a kit. Its root is number 1, and its first record will be number
/// 1. Wherever the device stops, the file is no store yet, or this one, which keeps these texts and no table.
///
/// # Errors
/// `NotEmpty` first; then the first text that is refused, in the order chart, roster, tiles, board: a chart at its
/// first wrong word, a roster that isn't right, a manifest or a board at its first wrong line, and any text of more
/// than 65,536 bytes at line 0; then `DeviceFailed`. `OutOfMemory` may come at any text that is no longer and is ASCII,
/// or UTF-8 as a roster's, and behind them.
pub fn format<D: Disk>(alloc: Global, disk: &mut D, texts: Texts<'_>) -> Result<(), Fault>
    // Where it is done, the file keeps these texts and no table, whatever a stop leaves; and before, whatever it left.
    ensures allowed { D.Honest disk.new
        → FormatAllows (lent_texts texts.entry) (D.state disk.old) (D.state disk.new) result }
    ensures stops { D.Honest disk.new → IsUnused (D.state disk.old)
        → LeavesOnly (D.past disk.old) (D.state disk.old) (D.past disk.new) (D.state disk.new)
        (λ image. IsNoStore image ⊎ KeepsTables (lent_texts texts.entry) [] image) }
    ensures first { D.Honest disk.new → IsUnused (D.state disk.old)
        → LeavesOnly (D.past disk.old) (D.state disk.old) (D.past disk.new) (D.state disk.new)
        (λ image. IsNoStore image ⊎ IsNewStoreOf NEWEST (lent_texts texts.entry) image) }
    ensures right { OnOk result (IsRightKit (lent_texts texts.entry)) }

    // When each refusal comes.
    ensures refused { IfErr result (λ fault.
        RefusesFormat (D.Honest disk.new) (D.state disk.old).content (lent_texts texts.entry) fault) }
    ensures empty { D.Honest disk.new → 0 < length (D.state disk.old).content → result ≡ Err Fault.NotEmpty }
    ensures unchanged { IfErr result (λ fault. (fault ≡ Fault.DeviceFailed) ⊎ (disk.new ≡ disk.old)) }
    ensures honest { D.Honest disk.new → D.Honest disk.old }
    ensures fault { IfErr result (CountsFailure (D.fault_count disk.old) (D.fault_count disk.new)) }
    ensures no_fault { OnOk result (D.fault_count disk.new ≡ D.fault_count disk.old) }
    ensures writes { OnOk result (D.write_count disk.new
        ≡ counted_by (format_writes (lent_texts texts.entry)) (D.write_count disk.old)) }
    ensures few_writes { D.write_count disk.new
        ≤ D.write_count disk.old + format_writes (lent_texts texts.entry) }
    ensures few_syncs { D.sync_count disk.new ≤ D.sync_count disk.old + 3 }

    // A disk that works doesn't fail here.
    ensures device { OnDeviceFault result (D.Works disk.new → ⊥) }
    ensures works { D.Works disk.new → D.Works disk.old }
{
    format_of(alloc, disk, texts, NEWEST)?;
    Ok(())
}

/// Makes a store as `format` does, in a file of the version of this number, 1 or 2. A file of version 1 has no place for
/// a bank.
///
/// # Errors
/// `NotAStore` first, if the number is no version. Then those of `format`. For version 1 a roster that names a bank is
/// `BadRoster`, judged after the chart and before the roster's rules.
pub fn format_as<D: Disk>(
    alloc: Global,
    disk: &mut D,
    texts: Texts<'_>,
    version: u16,
) -> Result<(), Fault>
    // Where it is done, the file keeps these texts and no table, whatever a stop leaves; and before, whatever it left.
    ensures allowed { D.Honest disk.new → (of : OfVersion) → version_number of ≡ version
        → FormatAllowsAs of (lent_texts texts.entry) (D.state disk.old) (D.state disk.new) result }
    ensures stops { D.Honest disk.new → IsUnused (D.state disk.old)
        → LeavesOnly (D.past disk.old) (D.state disk.old) (D.past disk.new) (D.state disk.new)
        (λ image. IsNoStore image ⊎ KeepsTables (lent_texts texts.entry) [] image) }
    ensures first { D.Honest disk.new → IsUnused (D.state disk.old)
        → (of : OfVersion) → version_number of ≡ version
        → LeavesOnly (D.past disk.old) (D.state disk.old) (D.past disk.new) (D.state disk.new)
        (λ image. IsNoStore image ⊎ IsNewStoreOf of (lent_texts texts.entry) image) }
    ensures right { OnOk result ((of : OfVersion) → version_number of ≡ version
        → IsRightAs of (lent_texts texts.entry)) }

    // When each refusal comes.
    ensures refused { IfErr result (λ fault. (of : OfVersion) → version_number of ≡ version
        → RefusesFormatAs of (D.Honest disk.new) (D.state disk.old).content (lent_texts texts.entry) fault) }
    ensures empty { D.Honest disk.new → 0 < length (D.state disk.old).content
        → (of : OfVersion) → version_number of ≡ version → result ≡ Err Fault.NotEmpty }
    ensures none { ((of : OfVersion) → version_number of ≢ version) → result ≡ Err Fault.NotAStore }
    ensures unchanged { IfErr result (λ fault. (fault ≡ Fault.DeviceFailed) ⊎ (disk.new ≡ disk.old)) }
    ensures honest { D.Honest disk.new → D.Honest disk.old }
    ensures fault { IfErr result (CountsFailure (D.fault_count disk.old) (D.fault_count disk.new)) }
    ensures no_fault { OnOk result (D.fault_count disk.new ≡ D.fault_count disk.old) }
    ensures writes { OnOk result (D.write_count disk.new
        ≡ counted_by (format_writes (lent_texts texts.entry)) (D.write_count disk.old)) }
    ensures few_writes { D.write_count disk.new
        ≤ D.write_count disk.old + format_writes (lent_texts texts.entry) }
    ensures few_syncs { D.sync_count disk.new ≤ D.sync_count disk.old + 3 }

    // A disk that works doesn't fail here.
    ensures device { OnDeviceFault result (D.Works disk.new → ⊥) }
    ensures works { D.Works disk.new → D.Works disk.old }
{
    let Some(version) = Version::of(version) else {
        return Err(Fault::NotAStore);
    };
    format_of(alloc, disk, texts, version)?;
    Ok(())
}

/// Makes a store of an empty file, of this version.
fn format_of<D: Disk>(
    alloc: Global,
    disk: &mut D,
    texts: Texts<'_>,
    version: Version,
) -> Result<(), Fault>
    // Where it is done, the file keeps these texts and no table, whatever a stop leaves; and before, whatever it left.
    ensures allowed { D.Honest disk.new
        → FormatAllowsAs version (lent_texts texts.entry) (D.state disk.old) (D.state disk.new) result }
    ensures stops { D.Honest disk.new → IsUnused (D.state disk.old)
        → LeavesOnly (D.past disk.old) (D.state disk.old) (D.past disk.new) (D.state disk.new)
        (λ image. IsNoStore image ⊎ KeepsTables (lent_texts texts.entry) [] image) }
    ensures first { D.Honest disk.new → IsUnused (D.state disk.old)
        → LeavesOnly (D.past disk.old) (D.state disk.old) (D.past disk.new) (D.state disk.new)
        (λ image. IsNoStore image ⊎ IsNewStoreOf version (lent_texts texts.entry) image) }
    ensures right { OnOk result (IsRightAs version (lent_texts texts.entry)) }

    // When each refusal comes.
    ensures refused { IfErr result (λ fault.
        RefusesFormatAs version (D.Honest disk.new) (D.state disk.old).content (lent_texts texts.entry) fault) }
    ensures empty { D.Honest disk.new → 0 < length (D.state disk.old).content → result ≡ Err Fault.NotEmpty }
    ensures unchanged { IfErr result (λ fault. (fault ≡ Fault.DeviceFailed) ⊎ (disk.new ≡ disk.old)) }
    ensures honest { D.Honest disk.new → D.Honest disk.old }
    ensures fault { IfErr result (CountsFailure (D.fault_count disk.old) (D.fault_count disk.new)) }
    ensures no_fault { OnOk result (D.fault_count disk.new ≡ D.fault_count disk.old) }
    ensures writes { OnOk result (D.write_count disk.new
        ≡ counted_by (format_writes (lent_texts texts.entry)) (D.write_count disk.old)) }
    ensures few_writes { D.write_count disk.new
        ≤ D.write_count disk.old + format_writes (lent_texts texts.entry) }
    ensures few_syncs { D.sync_count disk.new ≤ D.sync_count disk.old + 3 }

    // A disk that works doesn't fail here.
    ensures device { OnDeviceFault result (D.Works disk.new → ⊥) }
    ensures works { D.Works disk.new → D.Works disk.old }
{
    if disk.len() != 0 {
        return Err(Fault::NotEmpty);
    }
    let bank = judge_kit(alloc, texts, version)?;
    put_texts(alloc, disk, texts, version, bank)?;
    Ok(())
}

/// Judges the kit of a formatting, and returns what a directory of this version says of its bank.
fn judge_kit(alloc: Global, texts: Texts<'_>, version: Version) -> Result<Option<u64>, Fault>
    ensures { MatchResult result
        (λ bank. IsRightAs version (lent_texts texts.entry) × FitsVersion version bank × SaysBank (lent_texts texts.entry).roster bank)
        (λ fault. RefusesAs version (lent_texts texts.entry) fault) }
{
    match version {
        Version::One => {
            judge_unbanked(alloc, texts)?;
            Ok(None)
        }
        Version::Two => {
            let bank = judge_banked(alloc, texts)?;
            Ok(Some(u64::from(bank)))
        }
    }
}

/// Judges a kit, and returns what its bank begins with.
fn judge_banked(alloc: Global, texts: Texts<'_>) -> Result<u32, Fault>
    ensures { MatchResult result
        (λ bank. IsRightKit (lent_texts texts.entry) × HasBank (lent_texts texts.entry).roster bank × bank < 2 ^ 64)
        (λ fault. RefusesTexts (lent_texts texts.entry) fault) }
{
    let kit = Kit::read(alloc, texts.chart, texts.roster, texts.tiles, texts.board)?;
    Ok(kit.roster().bank())
}

/// Judges a kit for a file of version 1: its roster may not name a bank.
fn judge_unbanked(alloc: Global, texts: Texts<'_>) -> Result<(), Fault>
    ensures { MatchResult result
        (λ _. IsRightAs One (lent_texts texts.entry))
        (λ fault. RefusesAs One (lent_texts texts.entry) fault) }
{
    match Kit::read(alloc, texts.chart, texts.roster, texts.tiles, texts.board) {
        Ok(_kit) => {
            if names_bank(alloc, texts.roster)? {
                return Err(Fault::Kit(rr_kit::Fault::BadRoster));
            }
            Ok(())
        }
        Err(fault) => Err(unbanked_fault(alloc, texts, fault)),
    }
}

/// Why a kit that is refused with this fault is refused for a file of version 1.
fn unbanked_fault(alloc: Global, texts: Texts<'_>, fault: rr_kit::Fault) -> Fault
    requires { RefusesKit (lent_texts texts) fault }
    ensures { RefusesAs One (lent_texts texts.entry) result }
{
    if comes_first(fault) {
        return Fault::from(fault);
    }
    match names_bank(alloc, texts.roster) {
        Ok(true) => Fault::Kit(rr_kit::Fault::BadRoster),
        Ok(false) => Fault::from(fault),
        Err(_) => Fault::OutOfMemory,
    }
}

/// Whether this fault is found before it is asked whether the roster names a bank.
fn comes_first(fault: rr_kit::Fault) -> bool
    ensures { IsTrue result ↔ ComesFirst (of_kit fault) }
{
    match fault {
        rr_kit::Fault::BadChart { .. } | rr_kit::Fault::BadRoster | rr_kit::Fault::OutOfMemory =>
            true,
        _ => false,
    }
}

/// Whether the text has the form of a roster and names a bank.
fn names_bank(alloc: Global, text: &[u8]) -> Result<bool, Fault>
    ensures { MatchResult result (λ named. IsTrue named ↔ NamesBank text.now) (λ fault. fault ≡ Fault.OutOfMemory) }
{
    match std::str::from_utf8(text) {
        Ok(text) => names_in(alloc, text),
        Err(_) => Ok(false),
    }
}

fn names_in(alloc: Global, text: &str) -> Result<bool, Fault>
    ensures { MatchResult result (λ named. IsTrue named ↔ NamesBank text.now) (λ fault. fault ≡ Fault.OutOfMemory) }
{
    match rr_roster::names_bank(alloc, text) {
        Ok(named) => Ok(named),
        Err(_) => Err(Fault::OutOfMemory),
    }
}

/// Puts the texts of a right kit on an empty disk.
fn put_texts<D: Disk>(
    alloc: Global,
    disk: &mut D,
    texts: Texts<'_>,
    version: Version,
    bank: Option<u64>,
) -> Result<(), Fault>
    requires empty { D.file_len disk.old ≡ 0 }
    requires nothing { D.Honest disk.old → length (D.state disk.old).content ≡ 0 }
    requires right { IsRightKit (lent_texts texts) }
    requires said { FitsVersion version bank }
    requires banked { SaysBank (lent_texts texts).roster bank }
    ensures allowed { OnOk result (D.Honest disk.new
        → FormatAllowsAs version (lent_texts texts.entry) (D.state disk.old) (D.state disk.new) result) }
    ensures stops { D.Honest disk.new → IsUnused (D.state disk.old)
        → LeavesOnly (D.past disk.old) (D.state disk.old) (D.past disk.new) (D.state disk.new)
        (λ image. IsNoStore image ⊎ KeepsTables (lent_texts texts.entry) [] image) }
    ensures first { D.Honest disk.new → IsUnused (D.state disk.old)
        → LeavesOnly (D.past disk.old) (D.state disk.old) (D.past disk.new) (D.state disk.new)
        (λ image. IsNoStore image ⊎ IsNewStoreOf version (lent_texts texts.entry) image) }
    ensures err { IfErr result (λ fault. (fault ≡ Fault.DeviceFailed) ⊎ ((fault ≡ Fault.OutOfMemory) × (disk.new ≡ disk.old))) }
    ensures honest { D.Honest disk.new → D.Honest disk.old }
    ensures fault { IfErr result (CountsFailure (D.fault_count disk.old) (D.fault_count disk.new)) }
    ensures no_fault { OnOk result (D.fault_count disk.new ≡ D.fault_count disk.old) }
    ensures writes { OnOk result (D.write_count disk.new
        ≡ counted_by (format_writes (lent_texts texts.entry)) (D.write_count disk.old)) }
    ensures few_writes { D.write_count disk.new
        ≤ D.write_count disk.old + format_writes (lent_texts texts.entry) }
    ensures few_syncs { D.sync_count disk.new ≤ D.sync_count disk.old + 3 }
    ensures device { OnDeviceFault result (D.Works disk.new → ⊥) }
    ensures works { D.Works disk.new → D.Works disk.old }
{
    rr_log::formatting::format::<TableRules, D>(
        alloc,
        disk,
        version,
        bank,
        texts.chart,
        texts.roster,
        texts.tiles,
        texts.board,
    )?;
    Ok(())
}
