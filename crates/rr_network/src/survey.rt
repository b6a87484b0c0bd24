//! A network as it is put together, hex by hex.
ghost use Rattle.std.specs.Prelude.{◌≡◌, ◌+◌, ◌<◌, ◌^◌, [], ◌∷◌, flat_map, map, IfOk, OnOk};
ghost use Rattle.rr_network.specs.declared.node.Node.TheVariants as N;

use crate::laid::{index_of_lays, lay_on};
use crate::network::Stop;
use crate::node::{CentreAt, Link, Node, add_edges, hexside_at};
use rr_desk::layout::{Lay, Station};
use rr_kit::board::Hex;
use rr_routes::reachability::Index;
use rr_tiles::{Centre, Manifest, Part, Track};
use std::alloc::{AllocError, Global};
use std::marker::Model;

/// The links and centres of the hexes so far, and all tokens.
#[derive(Drop)]
pub(crate) struct Survey {
    pub(crate) links: Vec<Link>,
    pub(crate) stops: Vec<Stop>,
    pub(crate) stations: Vec<Station>,
}

impl Model for Survey {
    ghost use Rattle.rr_network.specs.Network.{Net};

    ghost Value = { Net };

    ghost view = { λ survey. record { links = survey.links.items; stops = survey.stops.items; stations = survey.stations.items } };
}

impl Survey {
    ghost use Rattle.rr_network.specs.Indexes.{FindsLays};
    ghost use Rattle.rr_network.specs.Network.{AddsHex, edge_link, hex_links, hex_stops, links_in, links_of, seen_after, stops_in, stops_of, track_link};

    pub(crate) fn add_hexes(
        &mut self,
        alloc: Global,
        hexes: &[Hex],
        tiles: &Manifest,
        lays: &[Lay],
    ) -> Result<(), AllocError>
        ensures { OnOk result (AddsHex self.old self.new (flat_map (hex_links tiles.now lays.now) hexes.now) (flat_map (hex_stops tiles.now lays.now) hexes.now)) }
    {
        let index = index_of_lays(alloc, lays)?;
        for hex in hexes {
            self.add_hex(alloc, hex, tiles, lays, &index)?;
        }
        Ok(())
    }

    fn add_hex(
        &mut self,
        alloc: Global,
        hex: &Hex,
        tiles: &Manifest,
        lays: &[Lay],
        index: &Index,
    ) -> Result<(), AllocError>
        requires { FindsLays lays.now index.now }
        ensures { OnOk result (AddsHex self.old self.new (hex_links tiles.now lays.now hex.now) (hex_stops tiles.now lays.now hex.now)) }
    {
        let Some(lay) = lay_on(lays, index, &hex.name) else {
            self.add_parts(hex, hex.tile.parts())?;
            return Ok(());
        };
        let Some(tile) = tiles.tile(lay.tile) else {
            self.add_parts(hex, hex.tile.parts())?;
            return Ok(());
        };
        let tile = tile.turned(alloc, lay.turn)?;
        self.add_parts(hex, tile.parts())?;
        Ok(())
    }

    fn add_parts(&mut self, hex: &Hex, parts: &[Part]) -> Result<(), AllocError>
        ensures { OnOk result (AddsHex self.old self.new (links_in hex.now.name hex.now.place 0 parts.now) (stops_in hex.now.name 0 parts.now)) }
    {
        let mut seen = 0;
        for part in parts {
            seen = self.add_part(hex, seen, part)?;
        }
        Ok(())
    }

    // Adds a part behind these centres of the hex, and says how many there are then.
    fn add_part(&mut self, hex: &Hex, seen: usize, part: &Part) -> Result<usize, AllocError>
        requires { seen + 1 < 2 ^ 64 }
        ensures count { IfOk result (λ after. after ≡ seen_after seen part.now) }
        ensures added { OnOk result (AddsHex self.old self.new (links_of hex.now.name hex.now.place seen part.now) (stops_of hex.now.name seen part.now)) }
    {
        match part {
            Part::Track(track) => {
                self.add_track(hex, track)?;
                Ok(seen)
            }
            Part::Centre(centre) => {
                self.add_centre(hex, seen + 1, centre)?;
                Ok(seen + 1)
            }
        }
    }

    fn add_track(&mut self, hex: &Hex, track: &Track) -> Result<(), AllocError>
        ensures { OnOk result (AddsHex self.old self.new (track_link hex.now.name hex.now.place track.now ∷ []) []) }
    {
        self.links.push(Link {
            hex: hex.name,
            side: hexside_at(&hex.place, track.from.number()),
            end: Node::Hexside(hexside_at(&hex.place, track.to.number())),
        })?;
        Ok(())
    }

    fn add_centre(&mut self, hex: &Hex, number: usize, centre: &Centre) -> Result<(), AllocError>
        ensures { OnOk result (AddsHex self.old self.new
            (map (edge_link hex.now.name hex.now.place (N.Centre (record { hex = hex.now.name; number = number }))) centre.now.edges)
            (record { at = record { hex = hex.now.name; number = number }; kind = centre.now.kind; value = centre.now.value } ∷ [])) }
    {
        let end = Node::Centre(centre_at(hex, number));
        self.stops.push(Stop {
            at: centre_at(hex, number),
            kind: centre.kind,
            value: centre.value,
        })?;
        add_edges(&mut self.links, hex, &end, centre.edges.as_slice())?;
        Ok(())
    }
}

fn centre_at(hex: &Hex, number: usize) -> CentreAt
    ensures { result ≡ record { hex = hex.now.name; number = number } }
{
    CentreAt {
        hex: hex.name,
        number,
    }
}
