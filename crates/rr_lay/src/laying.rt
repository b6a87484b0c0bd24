//! Laying a tile.
ghost use Rattle.std.specs.Prelude.{◌≡◌, ◌<◌, length, None, Some, MatchResult, IfErr, OnOk, ◌⊎◌};
ghost use Rattle.rr_books.specs.Book.{Book};
ghost use Rattle.rr_kit.specs.Board.Plan.{hex_named};
ghost use Rattle.rr_desk.specs.Layout.Layout.{lays};
ghost use Rattle.rr_desk.specs.declared.layout.layout.TheConstants.{MOST_LAYS};
ghost use Rattle.rr_desk.specs.Position.Position.{IsPositionOf};
ghost use Rattle.rr_desk.specs.Desk.{Takes};
ghost use Rattle.rr_lay.specs.Costs.{puts};
ghost use Rattle.rr_lay.specs.Position.{position_in, position_of};
ghost use Rattle.rr_lay.specs.Laying.{IsLayVerdict, IsVerdictOn, cost_at, first_lay_verdict, lay_cost, lays_tile, supply_verdict};
ghost use Rattle.rr_books.specs.declared.refusal.Refusal.TheVariants as B;

use crate::colours::is_open;
use crate::costs::{judge_cost, pay_cost};
use crate::hexes::{hexes_with, is_blocked, is_next_colour, laid_colour};
use crate::upgrades::{NamedLay, is_upgrade, reaches_new_link};
use rr_books::{Act, Corp, Entry, Marker, Refusal};
use rr_desk::layout::Lay;
use rr_desk::{Desk, Position};
use rr_kit::Kit;
use rr_kit::board::Hex;
use rr_network::last_lay;
use rr_tiles::Supply;
use rr_trains::phase;
use std::alloc::Global;

/// Judges a corporation's laying a tile.
///
/// # Errors
///
/// The first that comes of these: `NoSuchName` for a hex or a tile number that there isn't; `ColourNotOpen` for
/// a colour that isn't laid in this phase or doesn't follow on what lies there, and on a grey or red hex;
/// `TileGone` where as many hexes have this tile as there are of it; `BlockedHex` for a yellow tile on a hex
/// that a private blocks which a player holds; `NotAnUpgrade` where the turned tile doesn't keep what lies
/// there, or uses an edge that faces no hex; `NotReached` where the corporation reaches no link that the tile
/// adds; `TooLittleCash` for the cost. `OutOfMemory` where none of those up to `BlockedHex` comes and a request for
/// memory was refused, and where `NotAnUpgrade` doesn't come either and `rr_desk::layout::MOST_LAYS` tiles were laid
/// already: which links the tile adds is told from a board with one tile more.
pub fn judge_lay(
    alloc: Global,
    kit: &Kit,
    position: &Position,
    corp: Corp,
    lay: &Lay,
) -> Result<(), Refusal>
    ensures verdict { (book : Book) → IsPositionOf book position.now → MatchResult result
        (λ _. IsLayVerdict kit.now.board kit.now.tiles (position_of book) corp lay.now None)
        (λ fault. ((fault ≡ Refusal.OutOfMemory) × (first_lay_verdict kit.now.board kit.now.tiles (position_of book) lay.now ≡ None)) ⊎ IsLayVerdict kit.now.board kit.now.tiles (position_of book) corp lay.now (Some fault)) }
    ensures room { OnOk result (length position.now.layout.lays < MOST_LAYS) }
{
    judge(alloc, kit, position, corp, lay)
}

/// Lays a tile for a corporation, which pays the hex's cost to the bank where no tile was laid there before, be it 0:
/// the command's words, the payment, the tile.
///
/// # Errors
///
/// `OutOfMemory`, also where `rr_desk::layout::MOST_LAYS` tiles were laid already; the desk may have some of the
/// entries then.
pub fn play_lay(kit: &Kit, desk: &mut Desk, corp: Corp, lay: &Lay) -> Result<(), Refusal>
    ensures fault { IfErr result (λ fault. fault ≡ B.OutOfMemory) }
    ensures takes { OnOk result (Takes (lays_tile kit.now.board corp lay.now) desk.old desk.new) }
{
    let cost = cost_of(kit, desk.position(), lay);
    put(desk, corp, lay, cost)
}

// What the tile costs, if it is the first one on its hex.
fn cost_of(kit: &Kit, position: &Position, lay: &Lay) -> Option<u16>
    ensures { (book : Book) → IsPositionOf book position.now → result ≡ cost_at (lays book) (hex_named kit.now.board.hexes lay.now.hex) }
{
    let hex = kit.board().hex(lay.hex.as_bytes())?;
    lay_cost(position.layout().lays(), hex)
}

// Adds the words, the payment and the tile.
#[tactic(auto, unfolding(crate::specs::Costs::puts))]
fn put(desk: &mut Desk, corp: Corp, lay: &Lay, cost: Option<u16>) -> Result<(), Refusal>
    ensures fault { IfErr result (λ fault. fault ≡ B.OutOfMemory) }
    ensures takes { OnOk result (Takes (puts (Act.Lay corp lay.now.hex lay.now.tile lay.now.turn) corp cost (Entry.Lay lay.now.hex lay.now.tile lay.now.turn)) desk.old desk.new) }
{
    desk.push(Entry::Step(Marker::Act(Act::Lay {
        corp,
        hex: lay.hex,
        tile: lay.tile,
        turn: lay.turn,
    })))?;
    pay_cost(desk, corp, cost)?;
    desk.push(Entry::Lay {
        hex: lay.hex,
        tile: lay.tile,
        turn: lay.turn,
    })?;
    Ok(())
}

fn judge(
    alloc: Global,
    kit: &Kit,
    position: &Position,
    corp: Corp,
    lay: &Lay,
) -> Result<(), Refusal>
    ensures verdict { MatchResult result
        (λ _. IsLayVerdict kit.now.board kit.now.tiles (position_in position.now.books position.now.layout) corp lay.now None)
        (λ fault. ((fault ≡ Refusal.OutOfMemory) × (first_lay_verdict kit.now.board kit.now.tiles (position_in position.now.books position.now.layout) lay.now ≡ None)) ⊎ IsLayVerdict kit.now.board kit.now.tiles (position_in position.now.books position.now.layout) corp lay.now (Some fault)) }
    ensures room { OnOk result (length position.now.layout.lays < MOST_LAYS) }
{
    let Some(hex) = kit.board().hex(lay.hex.as_bytes()) else {
        return Err(Refusal::NoSuchName);
    };
    let Some(supply) = kit.tiles().supply(lay.tile) else {
        return Err(Refusal::NoSuchName);
    };
    judge_on(alloc, kit, position, corp, &NamedLay { lay, hex, supply })?;
    Ok(())
}

fn judge_on(
    alloc: Global,
    kit: &Kit,
    position: &Position,
    corp: Corp,
    named: &NamedLay,
) -> Result<(), Refusal>
    ensures verdict { MatchResult result
        (λ _. IsVerdictOn kit.now.board kit.now.tiles (position_in position.now.books position.now.layout) corp named.now.lay.now named.now.hex.now named.now.supply.now None)
        (λ fault. ((fault ≡ Refusal.OutOfMemory) × (supply_verdict kit.now.board kit.now.tiles (position_in position.now.books position.now.layout) named.now.hex.now named.now.supply.now ≡ None)) ⊎ IsVerdictOn kit.now.board kit.now.tiles (position_in position.now.books position.now.layout) corp named.now.lay.now named.now.hex.now named.now.supply.now (Some fault)) }
    ensures room { OnOk result (length position.now.layout.lays < MOST_LAYS) }
{
    judge_supply(kit, position, named.hex, named.supply)?;
    let layout = position.layout();
    if !is_upgrade(alloc, kit, layout, named)? {
        return Err(Refusal::NotAnUpgrade);
    }
    if !reaches_new_link(alloc, kit, position, corp, named.lay)? {
        return Err(Refusal::NotReached);
    }
    let cost = lay_cost(layout.lays(), named.hex);
    judge_cost(position.books(), corp, cost)?;
    Ok(())
}

fn judge_supply(kit: &Kit, position: &Position, hex: &Hex, supply: &Supply) -> Result<(), Refusal>
    ensures { MatchResult result
        (λ _. supply_verdict kit.now.board kit.now.tiles (position_in position.now.books position.now.layout) hex.now supply.now ≡ None)
        (λ fault. supply_verdict kit.now.board kit.now.tiles (position_in position.now.books position.now.layout) hex.now supply.now ≡ Some fault) }
{
    let lays = position.layout().lays();
    if !is_open(phase(position.books()), supply.colour) {
        return Err(Refusal::ColourNotOpen);
    }
    let laid = laid_colour(kit.tiles(), lays, &hex.name);
    if !is_next_colour(hex.colour, laid, supply.colour) {
        return Err(Refusal::ColourNotOpen);
    }
    if supply.count as usize <= hexes_with(lays, supply.number, kit.board().hexes()) {
        return Err(Refusal::TileGone);
    }
    if is_blocked(
        position.books(),
        kit.board().blocks(),
        &hex.name,
        supply.colour,
    ) {
        return Err(Refusal::BlockedHex);
    }
    Ok(())
}

// What the tile costs on the hex, if it is the first one there.
fn lay_cost(lays: &[Lay], hex: &Hex) -> Option<u16>
    ensures { result ≡ lay_cost lays.now hex.now }
{
    match last_lay(lays, &hex.name) {
        Some(_) => None,
        None => Some(hex.cost),
    }
}
