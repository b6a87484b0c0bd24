ghost use Rattle.std.specs.Prelude.{◌≡◌, ◌<◌, [], ◌∷◌, ◌++◌, length, true};
ghost use Rattle.rr_desk.specs.Layout.Layout.{Extends, has_room};
ghost use Rattle.rr_desk.specs.declared.layout.layout.TheConstants.{MOST_LAYS, MOST_STATIONS};
ghost use Rattle.rr_desk.specs.Layout.Slots.{no_hex, no_lay, no_station};

use rr_books::Entry;
use rr_roster::Corp;
use rr_words::HexName;
use std::marker::Model;

/// How many tiles a layout has room for: a board has at most 200 hexes, and each is laid at most three times.
pub const MOST_LAYS: usize = 600;

/// How many tokens a layout has room for: eight corporations have at most six each.
pub const MOST_STATIONS: usize = 48;

/// A tile that was laid on a hex, turned by sixths.
#[derive(Clone, Copy, Debug)]
pub struct Lay {
    pub tile: u16,
    pub hex: HexName,
    pub turn: u8,
}

/// A token that was put on a centre of a hex, which counts its centres from 1.
#[derive(Clone, Copy, Debug)]
pub struct Station {
    pub corp: Corp,
    pub hex: HexName,
    pub centre: u64,
}

/// The tiles and tokens that were put on a board, oldest first. It takes no memory, and `Copy` copies it.
#[derive(Clone, Copy, Debug)]
pub struct Layout {
    pub(crate) lays: [Lay; MOST_LAYS],
    pub(crate) lay_count: usize,
    pub(crate) stations: [Station; MOST_STATIONS],
    pub(crate) station_count: usize,
}

impl Model for Layout {
    ghost use Rattle.std.specs.Prelude.{length, take};
    ghost use Rattle.rr_desk.specs.Layout.Layout.{Placed};
    ghost use Rattle.rr_desk.specs.Layout.Slots.{IsFilled, filled, filled-take, length-take-filled, no_lay, no_station};

    ghost Value = { Placed };

    ghost view = { λ s. record { lays = take s.lay_count s.lays; stations = take s.station_count s.stations } };

    ghost invariant = { λ s. IsFilled no_lay 600 s.lay_count s.lays × IsFilled no_station 48 s.station_count s.stations };

    ghost inverse = { λ p. record {
      lays = filled no_lay 600 p.lays;
      lay_count = length p.lays;
      stations = filled no_station 48 p.stations;
      station_count = length p.stations;
    } };

    ghost inverse_ok = { λ s h i. record {
      lays = filled-take no_lay 600 s.lay_count s.lays h.0 i;
      lay_count = length-take-filled no_lay 600 s.lay_count s.lays h.0 i;
      stations = filled-take no_station 48 s.station_count s.stations h.1 i;
      station_count = length-take-filled no_station 48 s.station_count s.stations h.1 i;
    } };
}

impl Layout {
    ghost use Rattle.std.specs.Prelude.{◌≤◌};
    ghost use Rattle.rr_desk.specs.Layout.Layout.{IsLayoutOf};

    /// A board on which nothing was put yet.
    pub fn new() -> Layout
        ensures value { result ≡ record { lays = []; stations = [] } }
        ensures book { IsLayoutOf [] result }
    {
        Layout {
            lays: [no_lay(); MOST_LAYS],
            lay_count: 0,
            stations: [no_station(); MOST_STATIONS],
            station_count: 0,
        }
    }

    /// Whether there is room for what the entry puts on the board.
    pub fn has_room(&self, entry: &Entry) -> bool
        ensures { result ≡ has_room self.now entry.now }
    {
        match entry {
            Entry::Lay { .. } => self.lay_count < MOST_LAYS,
            Entry::Station { .. } => self.station_count < MOST_STATIONS,
            _ => true,
        }
    }

    /// Follows the next entry of the book, for which there is room.
    pub fn follow(&mut self, entry: &Entry)
        requires { has_room self.old entry.now ≡ true }
        ensures { Extends self.old self.new (entry.now ∷ []) }
    {
        match entry {
            Entry::Lay { hex, tile, turn } => self.lay(Lay {
                hex: *hex,
                tile: *tile,
                turn: *turn,
            }),
            Entry::Station { corp, hex, centre } => self.station(Station {
                corp: *corp,
                hex: *hex,
                centre: *centre,
            }),
            _ => {}
        }
    }

    /// Lays a tile more, for which there is room.
    pub fn lay(&mut self, lay: Lay)
        requires { length self.old.lays < MOST_LAYS }
        ensures { self.new ≡ record { lays = self.old.lays ++ lay ∷ []; stations = self.old.stations } }
    {
        self.lays[self.lay_count] = lay;
        self.lay_count += 1;
    }

    /// Places a token more, for which there is room.
    pub fn station(&mut self, station: Station)
        requires { length self.old.stations < MOST_STATIONS }
        ensures { self.new ≡ record { lays = self.old.lays; stations = self.old.stations ++ station ∷ [] } }
    {
        self.stations[self.station_count] = station;
        self.station_count += 1;
    }

    /// The tiles, oldest first. What lies on a hex is the last one there.
    pub fn lays(&self) -> &[Lay]
        ensures { result.now ≡ self.now.lays }
    {
        &self.lays[..self.lay_count]
    }

    /// The tokens, oldest first.
    pub fn stations(&self) -> &[Station]
        ensures { result.now ≡ self.now.stations }
    {
        &self.stations[..self.station_count]
    }
}

// What stands in a slot for tiles that isn't taken.
pub(crate) fn no_lay() -> Lay
    ensures { result ≡ no_lay }
{
    Lay {
        tile: 0,
        hex: no_hex(),
        turn: 0,
    }
}

// What stands in a slot for tokens that isn't taken.
pub(crate) fn no_station() -> Station
    ensures { result ≡ no_station }
{
    Station {
        corp: Corp::Prr,
        hex: no_hex(),
        centre: 0,
    }
}

// The hex of a slot that isn't taken.
fn no_hex() -> HexName
    ensures { result ≡ no_hex }
{
    HexName::read(b"A").unwrap()
}
