// The four texts of a kit.
ghost use Rattle.std.specs.Prelude.{◌≡◌, ◌+◌, ◌≤◌, [], length, IfOk, IfErr};
ghost use Rattle.rr_log.specs.Formatting.Calls.{data_pages};
ghost use Rattle.rr_log.specs.Formatting.InTurn.{AreInTurn};
ghost use Rattle.rr_log.specs.Formatting.Kit.{IsKitLaid};
ghost use Rattle.rr_log.specs.Formatting.NewFile.{empty_world};
ghost use Rattle.rr_pages.specs.FreePages.{present_of, coming_of};
ghost use Rattle.rr_reading.specs.declared.dir.directory.TheConstants.{MOST_TEXT};

use crate::formatting::text::lay_text;
use rr_pages::{Fault, FreePages, FreshPage};
use rr_reading::dir::KitChains;
use std::alloc::Global;

// Lays the texts into the first data pages.
pub(crate) fn lay_kit(
    alloc: Global,
    free: &mut FreePages,
    fresh: &mut Vec<FreshPage>,
    chart: &[u8],
    roster: &[u8],
    tiles: &[u8],
    board: &[u8],
) -> Result<KitChains, Fault>
    requires short_chart { length chart.now ≤ MOST_TEXT }
    requires short_roster { length roster.now ≤ MOST_TEXT }
    requires short_tiles { length tiles.now ≤ MOST_TEXT }
    requires short_board { length board.now ≤ MOST_TEXT }
    requires nothing { fresh.old.items ≡ [] }
    requires in_turn { AreInTurn (present_of free.old) (coming_of free.old) 0 }
    ensures laid { IfOk result (λ kit. IsKitLaid (present_of free.old) (coming_of free.old) (coming_of free.new)
        fresh.new.items (empty_world chart.now roster.now tiles.now board.now) kit) }
    ensures in_turn { IfOk result (λ _. AreInTurn (present_of free.new) (coming_of free.new) (length fresh.new.items)) }
    ensures few { IfOk result (λ _. length fresh.new.items ≤ 68) }
    ensures pages { IfOk result (λ _. length fresh.new.items + 1
        ≡ data_pages chart.now roster.now tiles.now board.now) }
    ensures memory { IfErr result (λ fault. fault ≡ Fault.OutOfMemory) }
    ensures present { present_of free.new ≡ present_of free.old }
{
    let chart = lay_text(alloc, free, fresh, chart)?;
    let roster = lay_text(alloc, free, fresh, roster)?;
    let tiles = lay_text(alloc, free, fresh, tiles)?;
    let board = lay_text(alloc, free, fresh, board)?;
    Ok(KitChains {
        chart,
        roster,
        tiles,
        board,
    })
}
