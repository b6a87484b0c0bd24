//! Whether a tile may lie on a hex in place of what lies there.
ghost use Rattle.std.specs.Prelude.{◌≡◌, ◌∷◌, ◌++◌, ◌+◌, ◌<◌, ◌^◌, [], ◌≤◌, ◌↔◌, length, IsTrue, IfOk, IfSome, IfNone, OnOk, OnSome};
ghost use Rattle.rr_tiles.specs.Tile.{turned};
ghost use Rattle.rr_tiles.specs.Keeping.{Keeps};
ghost use Rattle.rr_network.specs.Network.{face_on, net_of};
ghost use Rattle.rr_lay.specs.Laying.{HasNewLink, IsUpgrade, ReachesNewLink, has_link, is_new_link, joins, same_link};

use crate::hexes::faces_hexes;
use rr_desk::Position;
use rr_desk::layout::{Lay, Layout, MOST_LAYS};
use rr_kit::Kit;
use rr_kit::board::Hex;
use rr_network::{Link, Network, Node, Reach, last_lay, same_node};
use rr_roster::Corp;
use rr_tiles::{Manifest, Supply, keeps};
use rr_words::HexName;
use std::alloc::{AllocError, Global};

// A tile to be laid, with the hex and the supply that it names.
#[derive(Drop)]
pub(crate) struct NamedLay<'a> {
    pub(crate) lay: &'a Lay,
    pub(crate) hex: &'a Hex,
    pub(crate) supply: &'a Supply,
}

// Whether the turned tile keeps what lies on the hex, and each edge that it uses faces a hex.
pub(crate) fn is_upgrade(
    alloc: Global,
    kit: &Kit,
    layout: &Layout,
    named: &NamedLay,
) -> Result<bool, AllocError>
    ensures { IfOk result (λ answer. IsTrue answer ↔ IsUpgrade kit.now.board kit.now.tiles layout.now.lays named.now.hex.now named.now.supply.now named.now.lay.now.turn) }
{
    let kept = keeps_face(alloc, kit.tiles(), layout, named)?;
    let tile = named.supply.tile.turned(alloc, named.lay.turn)?;
    let faces = faces_hexes(kit.board().hexes(), &named.hex.place, tile.parts());
    Ok(kept && faces)
}

fn keeps_face(
    alloc: Global,
    tiles: &Manifest,
    layout: &Layout,
    named: &NamedLay,
) -> Result<bool, AllocError>
    ensures { IfOk result (λ answer. IsTrue answer ↔ Keeps (face_on tiles.now layout.now.lays named.now.hex.now) (turned named.now.lay.now.turn named.now.supply.now.tile)) }
{
    let printed = &named.hex.tile;
    let tile = &named.supply.tile;
    let turn = named.lay.turn;
    let Some(last) = last_lay(layout.lays(), &named.hex.name) else {
        return Ok(keeps(printed, tile, turn));
    };
    let Some(old) = tiles.tile(last.tile) else {
        return Ok(keeps(printed, tile, turn));
    };
    let old = old.turned(alloc, last.turn)?;
    Ok(keeps(&old, tile, turn))
}

// What lies on the board with one tile more, if there is room for it.
fn layout_with(layout: &Layout, lay: &Lay) -> Option<Layout>
    ensures none { IfNone result (MOST_LAYS ≤ length layout.now.lays) }
    ensures room { OnSome result (length layout.now.lays < MOST_LAYS) }
    ensures value { IfSome result (λ more. more ≡ record { lays = layout.now.lays ++ lay.now ∷ []; stations = layout.now.stations }) }
{
    if MOST_LAYS <= layout.lays().len() {
        return None;
    }
    let mut more = *layout;
    more.lay(*lay);
    Some(more)
}

// Whether the corporation reaches a link that the tile adds.
pub(crate) fn reaches_new_link(
    alloc: Global,
    kit: &Kit,
    position: &Position,
    corp: Corp,
    lay: &Lay,
) -> Result<bool, AllocError>
    ensures room { OnOk result (length position.now.layout.lays < MOST_LAYS) }
    ensures answer { IfOk result (λ answer. IsTrue answer ↔ ReachesNewLink (net_of kit.now.board kit.now.tiles position.now.layout) (net_of kit.now.board kit.now.tiles (record { lays = position.now.layout.lays ++ lay.now ∷ []; stations = position.now.layout.stations })) corp) }
{
    let layout = position.layout();
    let Some(more) = layout_with(layout, lay) else {
        return Err(AllocError);
    };
    let old = Network::of(alloc, kit.board(), kit.tiles(), layout)?;
    let new = Network::of(alloc, kit.board(), kit.tiles(), &more)?;
    let reach = Reach::of(alloc, &new, corp)?;
    Ok(reaches_any(&reach, old.links(), &lay.hex, new.links()))
}

// Whether one of the links of the hex is reached and isn't among the old ones. No link of another hex can be new, so
// none is looked for.
fn reaches_any(reach: &Reach, old: &[Link], hex: &HexName, links: &[Link]) -> bool
    ensures { IsTrue result ↔ HasNewLink reach.now old.now hex.now links.now }
{
    for (place, link) in links.iter().enumerate() {
        if is_new_link(reach, old, hex, place, link) {
            return true;
        }
    }
    false
}

fn is_new_link(reach: &Reach, old: &[Link], hex: &HexName, place: usize, link: &Link) -> bool
    requires { place + 1 < 2 ^ 64 }
    ensures { result ≡ is_new_link reach.now old.now hex.now place link.now }
{
    link.hex == *hex && reach.has_link(place + 1) && !has_link(old, link)
}

fn has_link(links: &[Link], link: &Link) -> bool
    ensures { result ≡ has_link links.now link.now }
{
    links.iter().any(|other| same_link(link, other))
}

// A track is the same from either end.
fn same_link(link: &Link, other: &Link) -> bool
    ensures { result ≡ same_link link.now other.now }
{
    let side = Node::Hexside(other.side);
    link.hex == other.hex && (joins(link, &side, &other.end) || joins(link, &other.end, &side))
}

fn joins(link: &Link, one: &Node, other: &Node) -> bool
    ensures { result ≡ joins link.now one.now other.now }
{
    same_node(&Node::Hexside(link.side), one) && same_node(&link.end, other)
}
