//! The edges of a hex, and lists of them.
ghost use Rattle.std.specs.Prelude.{◌≡◌, ℕ, ◌<◌, ◌≤◌, List, [], SomeIff, IfOk, map, length, option_and_then, if◌then◌else◌, Some, None};
ghost use Rattle.rr_tiles.specs.Edge.{turned_edge, edge_in, edge_of, add_edge, has_edge, edges_in, edges_of};

use std::alloc::{AllocError, Global};
use std::marker::Model;

/// An edge of a hex, from 0 to 5 in the order in which a turn goes round.
#[derive(Clone, Copy, Debug, PartialEq, Eq)]
pub struct Edge {
    place: u8,
}

impl Model for Edge {
    ghost Value = { ℕ };

    ghost view = { λ edge. edge.place };

    ghost invariant = { λ edge. edge.place < 6 };

    ghost inverse = { λ n. record { place = n } };
}

impl Edge {
    /// The edge of a number from 0 to 5.
    pub fn new(number: u8) -> Option<Edge>
        ensures { SomeIff result (number < 6) number }
    {
        if number < 6 {
            Some(Edge { place: number })
        } else {
            None
        }
    }

    /// The edge's number, from 0 to 5.
    pub fn number(self) -> u8
        ensures value { result ≡ self }
        ensures bounded { result < 6 }
    {
        self.place
    }

    /// Where a turn by `turn` sixths of a full turn takes the edge.
    pub fn turned(self, turn: u8) -> Edge
        ensures { result ≡ turned_edge turn self }
    {
        let places = u16::from(self.number()) + u16::from(turn);
        Edge {
            place: (places % 6) as u8,
        }
    }
}

/// Edges in the order of a text.
#[derive(Debug, Drop)]
pub struct Edges {
    edges: Vec<Edge>,
}

impl Model for Edges {
    ghost Value = { List ℕ };

    ghost view = { λ edges. edges.edges.items };
}

impl Edges {
    fn none(alloc: Global) -> Edges
        ensures { result ≡ [] }
    {
        Edges {
            edges: Vec::new(alloc),
        }
    }

    // The edges that a text spells, with a comma between each two.
    pub(crate) fn read(alloc: Global, text: &[u8]) -> Result<Option<Edges>, AllocError>
        ensures { IfOk result (λ read. read ≡ edges_of text.now) }
    {
        if text.is_empty() {
            return Ok(Some(Edges::none(alloc)));
        }
        let words: Vec<&[u8]> = text.split(|c| *c == b',').collect(alloc)?;
        Edges::read_words(alloc, &words)
    }

    fn read_words(alloc: Global, words: &[&[u8]]) -> Result<Option<Edges>, AllocError>
        ensures { IfOk result (λ read. read ≡ edges_in (map (λ word. word.now) words.now)) }
    {
        let mut edges = Edges::none(alloc);
        for word in words {
            if !edges.take(word)? {
                return Ok(None);
            }
        }
        Ok(Some(edges))
    }

    /// The edges, in their order.
    pub fn as_slice(&self) -> &[Edge]
        ensures { result.now ≡ self.now }
    {
        &self.edges
    }

    fn contains(&self, edge: Edge) -> bool
        ensures { result ≡ has_edge self.now edge }
    {
        self.edges.iter().any(|other| *other == edge)
    }

    // Where a turn takes the edges, in the same order.
    pub(crate) fn turned(&self, alloc: Global, turn: u8) -> Result<Edges, AllocError>
        ensures { IfOk result (λ edges. edges ≡ map (turned_edge turn) self.now) }
    {
        let edges = self
            .edges
            .iter()
            .map(|edge| edge.turned(turn))
            .collect(alloc)?;
        Ok(Edges { edges })
    }

    // Adds the edge that a word spells; `false` of a word that spells none or one that is here.
    fn take(&mut self, word: &[u8]) -> Result<bool, AllocError>
        ensures { IfOk result (λ taken. (if taken then Some self.new else None) ≡ add_edge self.old word.now) }
    {
        let Some(edge) = edge_of(word) else {
            return Ok(false);
        };
        if self.contains(edge) {
            return Ok(false);
        }
        self.edges.push(edge)?;
        Ok(true)
    }
}

fn edge_of(word: &[u8]) -> Option<Edge>
    ensures { result ≡ edge_of word.now }
{
    match word {
        [digit] => edge_in(*digit),
        _ => None,
    }
}

// The edge that a digit spells.
pub(crate) fn edge_in(digit: u8) -> Option<Edge>
    ensures { result ≡ edge_in digit }
{
    if digit >= b'0' && digit <= b'5' {
        Edge::new(digit - b'0')
    } else {
        None
    }
}
