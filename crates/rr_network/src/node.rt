//! The nodes of a network and the links between them.
ghost use Rattle.std.specs.Prelude.{◌≡◌, ◌++◌, map, OnOk};
ghost use Rattle.rr_network.specs.Network.{edge_link};
ghost use Rattle.rr_network.specs.Node.{across, hexside_at, same_centre, same_hexside, same_node};

use rr_kit::board::{Hex, Place};
use rr_tiles::Edge;
use rr_words::HexName;
use std::alloc::AllocError;

/// Where a hex is, or would be beside the board's rim, by axial coordinates.
#[derive(Clone, Copy, Debug, PartialEq, Eq)]
pub struct Axial {
    pub q: i16,
    pub r: i16,
}

/// A hexside. Of the two edges that face each other there, it is named by the one from 0 to 2.
#[derive(Clone, Copy, Debug, PartialEq, Eq)]
pub struct Hexside {
    /// The hex that has this edge.
    pub at: Axial,
    pub edge: u8,
}

/// A town, a city or an off-board area on a hex, by its number among the centres there, from 1.
#[derive(Clone, Copy, Debug, PartialEq, Eq)]
pub struct CentreAt {
    pub hex: HexName,
    pub number: usize,
}

/// Where links join.
#[derive(Clone, Copy, Debug, PartialEq, Eq)]
pub enum Node {
    Hexside(Hexside),
    Centre(CentreAt),
}

/// A piece of railway on one hex, from a hexside to another one or to a centre.
#[derive(Clone, Copy, Debug, PartialEq, Eq)]
pub struct Link {
    pub hex: HexName,
    pub side: Hexside,
    pub end: Node,
}

/// The place across an edge: from edge 0 to 5 it is (0,1), (-1,1), (-1,0), (0,-1), (1,-1) and (1,0) away.
pub fn across(place: &Place, edge: u8) -> Axial
    ensures { result ≡ across place.now edge }
{
    let q = i16::from(place.q);
    let r = i16::from(place.r);
    match edge {
        0 => Axial { q, r: r + 1 },
        1 => Axial { q: q - 1, r: r + 1 },
        2 => Axial { q: q - 1, r },
        3 => Axial { q, r: r - 1 },
        4 => Axial { q: q + 1, r: r - 1 },
        _ => Axial { q: q + 1, r },
    }
}

/// The hexside at an edge of the hex at a place. It is that of the edge that faces this one, too.
pub fn hexside_at(place: &Place, edge: u8) -> Hexside
    ensures { result ≡ hexside_at place.now edge }
{
    if edge < 3 {
        let at = Axial {
            q: i16::from(place.q),
            r: i16::from(place.r),
        };
        return Hexside { at, edge };
    }
    Hexside {
        at: across(place, edge),
        edge: edge - 3,
    }
}

pub(crate) fn same_hexside(side: &Hexside, other: &Hexside) -> bool
    ensures { result ≡ same_hexside side.now other.now }
{
    side.at.q == other.at.q && side.at.r == other.at.r && side.edge == other.edge
}

pub(crate) fn same_centre(centre: &CentreAt, other: &CentreAt) -> bool
    ensures { result ≡ same_centre centre.now other.now }
{
    centre.hex == other.hex && centre.number == other.number
}

/// Whether two nodes are one.
pub fn same_node(node: &Node, other: &Node) -> bool
    ensures { result ≡ same_node node.now other.now }
{
    match node {
        Node::Hexside(side) => match other {
            Node::Hexside(second) => same_hexside(side, second),
            Node::Centre(_) => false,
        },
        Node::Centre(centre) => match other {
            Node::Hexside(_) => false,
            Node::Centre(second) => same_centre(centre, second),
        },
    }
}

// Adds the links of a centre's edges.
pub(crate) fn add_edges(
    links: &mut Vec<Link>,
    hex: &Hex,
    centre: &Node,
    edges: &[Edge],
) -> Result<(), AllocError>
    ensures { OnOk result (links.new.items ≡ links.old.items ++ map (edge_link hex.now.name hex.now.place centre.now) edges.now) }
{
    for edge in edges {
        links.push(edge_link(hex, centre, *edge))?;
    }
    Ok(())
}

fn edge_link(hex: &Hex, centre: &Node, edge: Edge) -> Link
    ensures { result ≡ edge_link hex.now.name hex.now.place centre.now edge }
{
    Link {
        hex: hex.name,
        side: hexside_at(&hex.place, edge.number()),
        end: *centre,
    }
}
