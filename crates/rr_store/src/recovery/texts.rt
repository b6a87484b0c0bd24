//! The kit that the texts spell, and where the texts stand.
ghost use Rattle.std.specs.Prelude.{◌≡◌, ◌≢◌, ◌⊎◌, ◌↔◌, ◌^◌, ◌<◌, ⊤, IsSome, IsTrue, IfOk, IfErr, MatchOption, MatchResult, None};
ghost use Rattle.rr_roster.specs.Terms.{bank_of};
ghost use Rattle.rr_roster.specs.Reading.{HasBank};
ghost use Rattle.rr_tables.specs.Records.Taking.{SaysBank};
ghost use Rattle.rr_store.specs.Recovery.Telling.{IsWrongFor, SaysNumber};
ghost use Rattle.rr_kit.specs.declared.fault.Fault.TheVariants as Reading;
ghost use Rattle.rr_kit.specs.Kits.{IsWrongKit, SpellsKit};
ghost use Rattle.rr_reading.specs.Chains.{held};
ghost use Rattle.rr_reading.specs.Held.{chains_held};
ghost use Rattle.rr_store.specs.Recovery.Texts.{NameTexts, texts_in};
ghost use Rattle.rr_checkpoint.specs.Plan.Kit.{AreTextChains, IsTextChain};
ghost use Rattle.rr_reading.specs.Worlds.Spelling.{ref_of};

use crate::recovery::Fault;
use rr_checkpoint::plan::{KitPages, TextPages};
use rr_kit::Kit;
use rr_pages::{Damage, ReadChain};
use rr_reading::KitTexts;
use rr_reading::dir::{ChainRef, KitChains};
use std::alloc::Global;

/// Reads the kit of a file whose directory says this bank, or none.
pub(crate) fn read_kit(alloc: Global, texts: &KitTexts, bank: Option<u64>) -> Result<Kit, Fault>
    ensures { MatchResult result
        (λ kit. SpellsKit (texts_in (chains_held texts.now)) kit × SaysBank (chains_held texts.now).roster.text bank)
        (λ fault. (fault ≡ Fault.OutOfMemory)
        ⊎ ((fault ≡ Fault.Damaged Damage.Kit) × IsWrongFor bank (texts_in (chains_held texts.now)))
        ⊎ ((fault ≡ Fault.Damaged Damage.Form) × (SaysNumber (chains_held texts.now).roster.text bank → ⊥))) }
{
    let kit = read_texts(alloc, texts)?;
    match bank_damage(&kit, bank) {
        None => Ok(kit),
        Some(damage) => Err(Fault::Damaged(damage)),
    }
}

/// What is wrong with the bank that a directory says, or doesn't say, beside this kit.
fn bank_damage(kit: &Kit, bank: Option<u64>) -> Option<Damage>
    ensures { MatchOption result
        (MatchOption bank (IsSome kit.now.roster.bank → ⊥) (λ said. bank_of kit.now.roster ≡ said))
        (λ damage. ((damage ≡ Damage.Kit) × (bank ≡ None) × IsSome kit.now.roster.bank)
        ⊎ ((damage ≡ Damage.Form) × MatchOption bank ⊥ (λ said. bank_of kit.now.roster ≢ said))) }
{
    match bank {
        Some(bank) => {
            if u64::from(kit.roster().bank()) == bank {
                None
            } else {
                Some(Damage::Form)
            }
        }
        None => {
            if kit.roster().named_bank().is_some() {
                Some(Damage::Kit)
            } else {
                None
            }
        }
    }
}

/// Whether the directory says no other bank than the roster; true of a text that spells no roster.
pub(crate) fn tell_bank(alloc: Global, texts: &KitTexts, bank: Option<u64>) -> Result<bool, Fault>
    ensures { MatchResult result
        (λ told. IsTrue told ↔ SaysNumber (chains_held texts.now).roster.text bank)
        (λ fault. fault ≡ Fault.OutOfMemory) }
{
    let Some(bank) = bank else {
        return Ok(true);
    };
    says_bank(alloc, texts.roster.bytes.as_slice(), bank)
}

fn says_bank(alloc: Global, text: &[u8], bank: u64) -> Result<bool, Fault>
    ensures { MatchResult result (λ says. IsTrue says ↔ HasBank text.now bank) (λ fault. fault ≡ Fault.OutOfMemory) }
{
    match std::str::from_utf8(text) {
        Ok(text) => said(alloc, text, bank),
        Err(_) => Ok(true),
    }
}

fn said(alloc: Global, text: &str, bank: u64) -> Result<bool, Fault>
    ensures { MatchResult result (λ says. IsTrue says ↔ HasBank text.now bank) (λ fault. fault ≡ Fault.OutOfMemory) }
{
    match rr_roster::says_bank(alloc, text, bank) {
        Ok(says) => Ok(says),
        Err(_) => Err(Fault::OutOfMemory),
    }
}

fn read_texts(alloc: Global, texts: &KitTexts) -> Result<Kit, Fault>
    ensures { MatchResult result
        (λ kit. SpellsKit (texts_in (chains_held texts.now)) kit)
        (λ fault. (fault ≡ Fault.OutOfMemory)
        ⊎ ((fault ≡ Fault.Damaged Damage.Kit) × IsWrongKit (texts_in (chains_held texts.now)))) }
{
    let chart = texts.chart.bytes.as_slice();
    let roster = texts.roster.bytes.as_slice();
    let tiles = texts.tiles.bytes.as_slice();
    match Kit::read(alloc, chart, roster, tiles, texts.board.bytes.as_slice()) {
        Ok(kit) => Ok(kit),
        Err(fault) => Err(damage(fault)),
    }
}

/// Why a file with a kit of this fault is refused.
fn damage(fault: rr_kit::Fault) -> Fault
    ensures { ((result ≡ Fault.OutOfMemory) × (fault ≡ Reading.OutOfMemory))
        ⊎ ((result ≡ Fault.Damaged Damage.Kit) × (fault ≢ Reading.OutOfMemory)) }
{
    match fault {
        rr_kit::Fault::OutOfMemory => Fault::OutOfMemory,
        _ => Fault::Damaged(Damage::Kit),
    }
}

/// Where the texts stand, by what the directory says and what was read.
pub(crate) fn kit_pages(
    alloc: Global,
    kit: &KitChains,
    texts: &KitTexts,
    bank: u32,
) -> Result<KitPages, Fault>
    ensures pages { IfOk result (λ pages. NameTexts kit.now (chains_held texts.now)
        → AreTextChains pages (chains_held texts.now)) }
    ensures bank { IfOk result (λ pages. pages.bank ≡ bank) }
    ensures small { IfOk result (λ pages. pages.bank < 2 ^ 64) }
    ensures memory { IfErr result (λ fault. fault ≡ Fault.OutOfMemory) }
{
    Ok(KitPages {
        chart: text_pages(alloc, kit.chart, &texts.chart)?,
        roster: text_pages(alloc, kit.roster, &texts.roster)?,
        tiles: text_pages(alloc, kit.tiles, &texts.tiles)?,
        board: text_pages(alloc, kit.board, &texts.board)?,
        bank: u64::from(bank),
    })
}

fn text_pages(alloc: Global, chain: ChainRef, text: &ReadChain) -> Result<TextPages, Fault>
    ensures pages { IfOk result (λ pages. chain ≡ ref_of (held text.now) → IsTextChain pages (held text.now)) }
    ensures memory { IfErr result (λ fault. fault ≡ Fault.OutOfMemory) }
{
    let mut pages = Vec::new(alloc);
    pages.extend_from_slice(&text.pages)?;
    Ok(TextPages { chain, pages })
}
