//! The net over which a corporation runs.
ghost use Rattle.std.specs.Prelude.{◌≡◌, ℕ, ◌≤◌, length, IfOk};
ghost use Rattle.rr_kit.specs.declared.board.hex.TheConstants.{MOST_CENTRES};
ghost use Rattle.rr_books.specs.Book.{Book};
ghost use Rattle.rr_desk.specs.Layout.Layout.{IsLayoutOf};
ghost use Rattle.rr_network.specs.Network.{net_of as network_of, network as network_of_book};
ghost use Rattle.rr_network.specs.Stops.{HexesKeepTheirCentres};
ghost use Rattle.rr_routes.specs.Net.{value as worth};
ghost use Rattle.rr_running.specs.Net.Running.{net_of};

use crate::net::centres::{terminal_places, token_places, values_in};
use crate::net::joining::placed_links;
use crate::net::trains::centre_limits;
use rr_checker::Net;
use rr_desk::layout::Layout;
use rr_kit::board::Board;
use rr_network::Network;
use rr_roster::{Corp, Kind};
use rr_tiles::Manifest;
use std::alloc::{AllocError, Global};

/// The net over which a corporation runs trains of these kinds on a network of the board.
///
/// All links are in it, the link of number n at place n - 1. Centres have their places among the network's stops. Each
/// hexside has one number, whichever links end there. Routes don't pass off-board areas, nor cities whose slots are all
/// filled by tokens of others; a slot kept for a home isn't filled. The phase is that of the greatest train bought:
/// from the first 5 on an off-board area has its second value. A centre is worth at most 990. The trains keep their
/// order. Only memory can fail.
pub fn net_of(
    alloc: Global,
    board: &Board,
    network: &Network,
    corp: Corp,
    trains: &[Kind],
    phase: Kind,
) -> Result<Net, AllocError>
    ensures value { IfOk result (λ net. net ≡ net_of board.now.hexes network.now corp trains.now phase) }
    ensures modest { IfOk result (λ net. (centre : ℕ) → worth net centre ≤ 990) }
    ensures centres { IfOk result (λ net. length net.values ≡ length network.now.stops) }
{
    network.keeps_rules();
    let links = placed_links(alloc, board.hexes(), network)?;
    let tokens = token_places(alloc, network.stops(), network.stations(), corp)?;
    let terminals = terminal_places(alloc, network.stops(), network.stations(), corp)?;
    let values = values_in(alloc, phase, network.stops())?;
    let limits = centre_limits(alloc, trains)?;
    Ok(Net::new(links, tokens, terminals, values, limits))
}

/// The net over which a corporation runs trains of these kinds on a board with what was put there: it is that of
/// `net_of` on the network of the board. While each hex keeps as many centres as are printed on it, there are at most
/// 65,536. Only memory can fail.
pub fn net_on_board(
    alloc: Global,
    board: &Board,
    tiles: &Manifest,
    layout: &Layout,
    corp: Corp,
    trains: &[Kind],
    phase: Kind,
) -> Result<Net, AllocError>
    ensures value { IfOk result (λ net. net ≡ net_of board.now.hexes (network_of board.now tiles.now layout.now) corp trains.now phase) }
    ensures book { IfOk result (λ net. (book : Book) → IsLayoutOf book layout.now → net ≡ net_of board.now.hexes (network_of_book board.now tiles.now book) corp trains.now phase) }
    ensures modest { IfOk result (λ net. (centre : ℕ) → worth net centre ≤ 990) }
    ensures few { IfOk result (λ net. HexesKeepTheirCentres board.now tiles.now layout.now.lays → length net.values ≤ MOST_CENTRES) }
{
    let network = Network::of(alloc, board, tiles, layout)?;
    let net = net_of(alloc, board, &network, corp, trains, phase)?;
    Ok(net)
}
