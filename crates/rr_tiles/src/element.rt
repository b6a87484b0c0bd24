//! The track, the centre or the label that a word of a tile's text spells.
ghost use Rattle.std.specs.Prelude.{◌≡◌, IfOk};
ghost use Rattle.rr_tiles.specs.Reading.{centre_in, different_edges, element_of, label_in, track_in};

use crate::centre_word::{cut, front_of};
use crate::edge::{Edge, Edges, edge_in};
use crate::part::{Centre, Label, Part, Track};
use std::alloc::{AllocError, Global};

#[derive(Debug, Drop)]
pub(crate) enum Element {
    Part(Part),
    Label(Label),
}

pub(crate) fn read_element(alloc: Global, word: &[u8]) -> Result<Option<Element>, AllocError>
    ensures { IfOk result (λ read. read ≡ element_of word.now) }
{
    match word {
        [b'L', rest @ ..] => Ok(label_in(rest)),
        [letter @ (b't' | b'c' | b'o'), rest @ ..] => read_centre(alloc, *letter, rest),
        _ => Ok(track_in(word)),
    }
}

fn label_in(rest: &[u8]) -> Option<Element>
    ensures { result ≡ label_in rest.now }
{
    match rest {
        [b'=', first] if first.is_ascii_uppercase() => Some(Element::Label(Label {
            first: *first,
            second: None,
        })),
        [b'=', first, second] if first.is_ascii_uppercase() && second.is_ascii_uppercase() => {
            Some(Element::Label(Label {
                first: *first,
                second: Some(*second),
            }))
        }
        _ => None,
    }
}

fn track_in(word: &[u8]) -> Option<Element>
    ensures { result ≡ track_in word.now }
{
    match word {
        [from, b'-', to] => different_edges(edge_in(*from)?, edge_in(*to)?),
        _ => None,
    }
}

fn different_edges(from: Edge, to: Edge) -> Option<Element>
    ensures { result ≡ different_edges from to }
{
    if from == to {
        None
    } else {
        Some(Element::Part(Part::Track(Track { from, to })))
    }
}

// The centre of a letter and of what stands behind it.
fn read_centre(alloc: Global, letter: u8, rest: &[u8]) -> Result<Option<Element>, AllocError>
    ensures { IfOk result (λ read. read ≡ centre_in letter rest.now) }
{
    let Some((front, text)) = cut(rest, b':') else {
        return Ok(None);
    };
    let Some((kind, value)) = front_of(letter, front) else {
        return Ok(None);
    };
    let Some(edges) = Edges::read(alloc, text)? else {
        return Ok(None);
    };
    Ok(Some(Element::Part(Part::Centre(Centre { kind, value, edges }))))
}
