//! Tests on links, and the links that pass them.
ghost use Rattle.std.specs.Prelude.{◌≡◌, IfOk};
ghost use Rattle.std.specs.Bool.{Decides};
ghost use Rattle.std.specs.List.{range_with_len};
ghost use Rattle.rr_routes.specs.Net.{IsCentre};
ghost use Rattle.rr_checker.specs.Own.{touches};
ghost use Rattle.rr_referee.specs.Trips.Ways.{apart_from};

use rr_checker::{Net, Node, far_end, is_walk};
use std::alloc::{AllocError, Global};

// Whether the node is an end of the link.
pub(crate) fn touches(net: &Net, link: usize, node: &Node) -> bool
    ensures { result ≡ touches net.now link node.now }
{
    is_walk(net, &[link], &[*node, far_end(net, link, node)])
}

pub(crate) fn is_centre(node: &Node) -> bool
    ensures { Decides result (IsCentre node.now) }
{
    match node {
        Node::Hexside(_) => false,
        Node::Centre(_) => true,
    }
}

// Those of the links that don't touch the node, in order.
pub(crate) fn apart_from(
    alloc: Global,
    net: &Net,
    node: &Node,
    links: &[usize],
) -> Result<Vec<usize>, AllocError>
    ensures { IfOk result (λ apart. apart.items ≡ apart_from net.now node.now links.now) }
{
    links
        .iter()
        .copied()
        .filter(|link| !touches(net, *link, node))
        .collect(alloc)
}

// The places of so many links.
pub(crate) fn places(alloc: Global, count: usize) -> Result<Vec<usize>, AllocError>
    ensures { IfOk result (λ places. places.items ≡ range_with_len 0 count) }
{
    (0..count).collect(alloc)
}
