//! A layout as bytes: it is plain, so that any tiles and tokens for which there is room are one.
ghost use Rattle.rr_desk.specs.Layout.Bytes.{lay_form, layout_form, station_form};

use crate::layout::layout::{Lay, Layout, MOST_LAYS, MOST_STATIONS, Station, no_lay, no_station};
use rr_roster::Corp;
use rr_words::HexName;
use rr_words::spelling::{Cursor, Spell, read_counted, write_counted};
use std::alloc::AllocError;

type LayRow = (HexName, (u16, u8));

impl Spell for Lay {
    ghost form = { lay_form };

    fn write(&self, out: &mut Vec<u8>) -> Result<(), AllocError> {
        let row: LayRow = (self.hex, (self.tile, self.turn));
        row.write(out)
    }

    fn read(cursor: &mut Cursor) -> Option<Lay> {
        let row = LayRow::read(cursor)?;
        let (hex, (tile, turn)) = row;
        Some(Lay { hex, tile, turn })
    }
}

type StationRow = (Corp, (HexName, u64));

impl Spell for Station {
    ghost form = { station_form };

    fn write(&self, out: &mut Vec<u8>) -> Result<(), AllocError> {
        let row: StationRow = (self.corp, (self.hex, self.centre));
        row.write(out)
    }

    fn read(cursor: &mut Cursor) -> Option<Station> {
        let row = StationRow::read(cursor)?;
        let (corp, (hex, centre)) = row;
        Some(Station { corp, hex, centre })
    }
}

impl Spell for Layout {
    ghost form = { layout_form };

    fn write(&self, out: &mut Vec<u8>) -> Result<(), AllocError> {
        write_counted(&self.lays[..self.lay_count], out)?;
        write_counted(&self.stations[..self.station_count], out)?;
        Ok(())
    }

    fn read(cursor: &mut Cursor) -> Option<Layout> {
        let mut lays = [no_lay(); MOST_LAYS];
        let lay_count = read_counted(&mut lays, cursor)?;
        let mut stations = [no_station(); MOST_STATIONS];
        let station_count = read_counted(&mut stations, cursor)?;
        Some(Layout {
            lays,
            lay_count,
            stations,
            station_count,
        })
    }
}
