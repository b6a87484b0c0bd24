//! Keys by which an index has nodes and hexes: equal ones have one key, and few share theirs.
ghost use Rattle.std.specs.Prelude.{◌≡◌};
ghost use Rattle.std.specs.List.{fold};
ghost use Rattle.rr_network.specs.Keys.{centre_key, hexside_key, joined, name_key, node_key, zigzag};

use crate::node::{CentreAt, Hexside, Node};
use rr_words::HexName;

/// Parts of a key count below this, so that no key is out of range.
const PART_BOUND: usize = 65_536;

/// What a part weighs more than the next one.
const PART_WEIGHT: usize = 127;

// The key with one part more.
fn joined(key: usize, part: usize) -> usize
    ensures { result ≡ joined key part }
{
    key % PART_BOUND * PART_WEIGHT + part % PART_BOUND
}

/// The key of a hex of this name.
pub fn name_key(name: &HexName) -> usize
    ensures { result ≡ name_key name.now }
{
    bytes_key(name.as_bytes())
}

fn bytes_key(bytes: &[u8]) -> usize
    ensures { result ≡ fold joined 0 bytes.now }
{
    let mut key = 0;
    for byte in bytes {
        key = joined(key, usize::from(*byte));
    }
    key
}

/// The key of a centre: of its hex, and of its number there.
pub fn centre_key(centre: &CentreAt) -> usize
    ensures { result ≡ centre_key centre.now }
{
    joined(name_key(&centre.hex), centre.number)
}

pub(crate) fn node_key(node: &Node) -> usize
    ensures { result ≡ node_key node.now }
{
    match node {
        Node::Hexside(side) => hexside_key(side),
        Node::Centre(centre) => centre_key(centre),
    }
}

/// The key of a hexside: of its place, and of its edge.
pub fn hexside_key(side: &Hexside) -> usize
    ensures { result ≡ hexside_key side.now }
{
    joined(
        joined(zigzag(side.at.q), zigzag(side.at.r)),
        usize::from(side.edge),
    )
}

// Numbers from 0 for those on both sides of 0.
fn zigzag(number: i16) -> usize
    ensures { result ≡ zigzag number }
{
    let size = usize::from(number.unsigned_abs());
    if number < 0 {
        return 2 * size - 1;
    }
    2 * size
}
