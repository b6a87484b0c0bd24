//! Whether no two routes use one hexside.
ghost use Rattle.std.specs.Prelude.{◌≡◌};
ghost use Rattle.std.specs.Bool.{Decides};
ghost use Rattle.std.specs.List.{list_any};
ghost use Rattle.rr_referee.specs.Sheets.{AreApart};
ghost use Rattle.rr_referee.specs.Tests.{is_side_in, shares_side};

use crate::course::Journey;
use rr_checker::{Node, has_node};

// Whether no hexside is in two of the journeys.
pub(crate) fn are_apart(journeys: &[Journey]) -> bool
    ensures { Decides result (AreApart journeys.now) }
{
    for (place, journey) in journeys.iter().enumerate() {
        if meets_any(&journeys[..place], journey) {
            return false;
        }
    }
    true
}

fn meets_any(before: &[Journey], journey: &Journey) -> bool
    ensures { result ≡ list_any (λ other. shares_side other journey.now) before.now }
{
    before.iter().any(|other| shares_side(other, journey))
}

// Whether a hexside is in both.
fn shares_side(one: &Journey, other: &Journey) -> bool
    ensures { result ≡ shares_side one.now other.now }
{
    has_side_of(one.nodes(), other.nodes())
}

fn has_side_of(nodes: &[Node], others: &[Node]) -> bool
    ensures { result ≡ list_any (λ node. is_side_in others.now node) nodes.now }
{
    nodes.iter().any(|node| is_side_in(others, node))
}

fn is_side_in(nodes: &[Node], node: &Node) -> bool
    ensures { result ≡ is_side_in nodes.now node.now }
{
    match node {
        Node::Hexside(_) => has_node(nodes, node),
        Node::Centre(_) => false,
    }
}
