//! The network that lies on a board: its links, its centres and the tokens there.
ghost use Rattle.std.specs.Prelude.{◌≡◌, ◌≤◌, All, length, IfOk};
ghost use Rattle.rr_kit.specs.declared.board.hex.TheConstants.{MOST_CENTRES};
ghost use Rattle.std.specs.Option.{option_copied};
ghost use Rattle.rr_desk.specs.Layout.Layout.{last_lay};
ghost use Rattle.rr_network.specs.Network.{net_of};

use crate::node::{CentreAt, Link};
use crate::survey::Survey;
use rr_desk::layout::{Lay, Layout, Station};
use rr_kit::board::Board;
use rr_tiles::{Kind, Manifest};
use rr_words::HexName;
use std::alloc::{AllocError, Global};
use std::marker::Model;

/// A centre that lies on a hex.
#[derive(Clone, Copy, Debug)]
pub struct Stop {
    pub at: CentreAt,
    pub kind: Kind,
    /// A multiple of 10 from 0 to 990.
    pub value: u16,
}

/// The links, the centres and the tokens on a board.
#[derive(Debug, Drop)]
pub struct Network {
    links: Vec<Link>,
    stops: Vec<Stop>,
    stations: Vec<Station>,
}

impl Model for Network {
    ghost use Rattle.std.specs.Prelude.{All};
    ghost use Rattle.rr_network.specs.Network.{Net};
    ghost use Rattle.rr_network.specs.Stops.{IsStop};

    ghost Value = { Net };

    ghost view = { λ network. record { links = network.links.items; stops = network.stops.items; stations = network.stations.items } };

    ghost invariant = { λ network. All IsStop network.stops.items };
}

impl Network {
    ghost use Rattle.rr_books.specs.Book.{Book};
    ghost use Rattle.rr_desk.specs.Layout.Layout.{IsLayoutOf};
    ghost use Rattle.rr_network.specs.Network.{network};
    ghost use Rattle.rr_network.specs.Stops.{HexesKeepTheirCentres, IsStop};

    /// The network of what lies on a board: on each hex the last tile that was laid there, turned, and
    /// where none was laid what the board has there.
    ///
    /// Links are in the order of the board's hexes, and within a hex in the order of its tile's text: a
    /// track is one link, and each edge of a centre is one. While each hex keeps as many centres as are printed on it,
    /// there are at most 65,536. Only memory can fail.
    pub fn of(
        alloc: Global,
        board: &Board,
        tiles: &Manifest,
        layout: &Layout,
    ) -> Result<Network, AllocError>
        ensures value { IfOk result (λ net. net ≡ net_of board.now tiles.now layout.now) }
        ensures book { IfOk result (λ net. (book : Book) → IsLayoutOf book layout.now → net ≡ network board.now tiles.now book) }
        ensures few { IfOk result (λ net. HexesKeepTheirCentres board.now tiles.now layout.now.lays → length net.stops ≤ MOST_CENTRES) }
    {
        let survey = survey_of(alloc, board, tiles, layout)?;
        board.keeps_rules();
        let _sound = tiles.supplies();
        Ok(Network::from_survey(survey))
    }

    fn from_survey(survey: Survey) -> Network
        requires { All IsStop survey.stops }
        ensures { result ≡ survey }
    {
        let Survey {
            links,
            stops,
            stations,
        } = survey;
        Network {
            links,
            stops,
            stations,
        }
    }

    /// The links. The link of number n, from 1, is at place n - 1.
    pub fn links(&self) -> &[Link]
        ensures { result.now ≡ self.now.links }
    {
        &self.links
    }

    /// The centres, in the order of the board's hexes and of their tiles' texts.
    pub fn stops(&self) -> &[Stop]
        ensures { result.now ≡ self.now.stops }
    {
        &self.stops
    }

    /// The tokens, oldest first.
    pub fn stations(&self) -> &[Station]
        ensures { result.now ≡ self.now.stations }
    {
        &self.stations
    }

    /// Does nothing: what is true of every network's centres, for a caller's proof.
    pub fn keeps_rules(&self)
        ensures { All IsStop self.now.stops }
    {
        let _tokens = self.stations.len();
    }
}

fn survey_of(
    alloc: Global,
    board: &Board,
    tiles: &Manifest,
    layout: &Layout,
) -> Result<Survey, AllocError>
    ensures { IfOk result (λ survey. survey ≡ net_of board.now tiles.now layout.now) }
{
    let mut survey = Survey {
        links: Vec::new(alloc),
        stops: Vec::new(alloc),
        stations: layout.stations().to_vec(alloc)?,
    };
    survey.add_hexes(alloc, board.hexes(), tiles, layout.lays())?;
    Ok(survey)
}

/// The last tile that was laid on a hex, if one was.
pub fn last_lay<'a>(lays: &'a [Lay], hex: &HexName) -> Option<&'a Lay>
    ensures { option_copied result ≡ last_lay lays.now hex.now }
{
    lays.iter().rev().find(|lay| lay.hex == *hex)
}
