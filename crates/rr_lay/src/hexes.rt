//! What lies on a hex, and what a tile needs of the board.
ghost use Rattle.std.specs.Prelude.{◌≡◌, ◌≤◌, Some};
ghost use Rattle.std.specs.Option.{option_copied};
ghost use Rattle.std.specs.List.{list_all, list_any};
ghost use Rattle.rr_books.specs.State.{holder_in};
ghost use Rattle.rr_lay.specs.Tiles.{faces_hex, faces_hexes, hexes_with, is_block_of, is_blocked, is_lay_of, is_next_colour, is_player, is_there, is_yellow, laid_colour, part_faces_hexes, printed_rank, rank_on, takes_tiles, tile_rank};

use rr_books::{Books, Cert};
use rr_desk::layout::Lay;
use rr_kit::board::{Block, Hex};
use rr_network::{Axial, across, last_lay};
use rr_tiles::{Colour, Edge, Manifest, Part};
use rr_words::HexName;

// The colour of the last tile that was laid on the hex.
pub(crate) fn laid_colour(tiles: &Manifest, lays: &[Lay], hex: &HexName) -> Option<Colour>
    ensures { result ≡ laid_colour tiles.now lays.now hex.now }
{
    let lay = last_lay(lays, hex)?;
    tiles.colour(lay.tile)
}

// Whether the hex takes tiles, and the colour follows on what lies there.
pub(crate) fn is_next_colour(
    printed: rr_kit::board::Colour,
    laid: Option<Colour>,
    colour: Colour,
) -> bool
    ensures { result ≡ is_next_colour printed laid colour }
{
    takes_tiles(printed) && tile_rank(colour) == rank_on(printed, laid) + 1
}

fn takes_tiles(printed: rr_kit::board::Colour) -> bool
    ensures { result ≡ takes_tiles printed }
{
    match printed {
        rr_kit::board::Colour::Grey | rr_kit::board::Colour::Red => false,
        _ => true,
    }
}

fn printed_rank(printed: rr_kit::board::Colour) -> u8
    ensures { result ≡ printed_rank printed }
{
    match printed {
        rr_kit::board::Colour::White => 0,
        rr_kit::board::Colour::Yellow => 1,
        rr_kit::board::Colour::Green => 2,
        _ => 3,
    }
}

fn tile_rank(colour: Colour) -> u8
    ensures { result ≡ tile_rank colour }
{
    match colour {
        Colour::Yellow => 1,
        Colour::Green => 2,
        Colour::Brown => 3,
    }
}

fn rank_on(printed: rr_kit::board::Colour, laid: Option<Colour>) -> u8
    ensures value { result ≡ rank_on printed laid }
    ensures bound { result ≤ 3 }
{
    match laid {
        Some(colour) => tile_rank(colour),
        None => printed_rank(printed),
    }
}

// How many hexes have the tile by their last lay.
pub(crate) fn hexes_with(lays: &[Lay], tile: u16, hexes: &[Hex]) -> usize
    ensures { result ≡ hexes_with lays.now tile hexes.now }
{
    hexes
        .iter()
        .filter(|hex| is_lay_of(tile, last_lay(lays, &hex.name)))
        .count()
}

fn is_lay_of(tile: u16, lay: Option<&Lay>) -> bool
    ensures { result ≡ is_lay_of tile (option_copied lay.entry) }
{
    match lay {
        Some(lay) => lay.tile == tile,
        None => false,
    }
}

// Whether a private that a player holds keeps yellow tiles from the hex.
pub(crate) fn is_blocked(books: &Books, blocks: &[Block], hex: &HexName, colour: Colour) -> bool
    ensures { result ≡ is_blocked (holder_in books.now) blocks.now hex.now colour }
{
    is_yellow(colour) && has_block(books, blocks, hex)
}

fn has_block(books: &Books, blocks: &[Block], hex: &HexName) -> bool
    ensures { result ≡ list_any (is_block_of (holder_in books.now) hex.now) blocks.now }
{
    blocks.iter().any(|block| is_block_of(books, hex, block))
}

fn is_block_of(books: &Books, hex: &HexName, block: &Block) -> bool
    ensures { result ≡ is_block_of (holder_in books.now) hex.now block.now }
{
    block.hex == *hex && is_player(books.holder(Cert::Private(block.private)))
}

fn is_player(place: rr_books::Place) -> bool
    ensures { result ≡ is_player (Some place) }
{
    match place {
        rr_books::Place::Seat(_) => true,
        _ => false,
    }
}

fn is_yellow(colour: Colour) -> bool
    ensures { result ≡ is_yellow colour }
{
    match colour {
        Colour::Yellow => true,
        _ => false,
    }
}

// Whether each edge that the parts use at the place faces a hex.
pub(crate) fn faces_hexes(hexes: &[Hex], place: &rr_kit::board::Place, parts: &[Part]) -> bool
    ensures { result ≡ faces_hexes hexes.now place.now parts.now }
{
    parts
        .iter()
        .all(|part| part_faces_hexes(hexes, place, part))
}

fn part_faces_hexes(hexes: &[Hex], place: &rr_kit::board::Place, part: &Part) -> bool
    ensures { result ≡ part_faces_hexes hexes.now place.now part.now }
{
    match part {
        Part::Track(track) => faces_hex(hexes, place, track.from)
            && faces_hex(hexes, place, track.to),
        Part::Centre(centre) => all_face_hexes(hexes, place, centre.edges.as_slice()),
    }
}

fn all_face_hexes(hexes: &[Hex], place: &rr_kit::board::Place, edges: &[Edge]) -> bool
    ensures { result ≡ list_all (faces_hex hexes.now place.now) edges.now }
{
    edges.iter().all(|edge| faces_hex(hexes, place, *edge))
}

fn faces_hex(hexes: &[Hex], place: &rr_kit::board::Place, edge: Edge) -> bool
    ensures { result ≡ faces_hex hexes.now place.now edge }
{
    let at = across(place, edge.number());
    hexes.iter().any(|hex| is_there(&at, hex))
}

fn is_there(at: &Axial, hex: &Hex) -> bool
    ensures { result ≡ is_there at.now hex.now }
{
    i16::from(hex.place.q) == at.q && i16::from(hex.place.r) == at.r
}
