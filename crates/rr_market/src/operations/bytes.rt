//! Stages and steps of a turn as bytes.
ghost use Rattle.rr_market.specs.Operations.Bytes.{stage_form, step_form};

use crate::operations::turn::{Stage, TurnStep};
use rr_words::spelling::{Cursor, Spell};
use std::alloc::AllocError;

impl Spell for Stage {
    ghost form = { stage_form };

    fn write(&self, out: &mut Vec<u8>) -> Result<(), AllocError> {
        match self {
            Stage::Auction => out.push(0)?,
            Stage::Stock => out.push(1)?,
            Stage::Operating => out.push(2)?,
        }
        Ok(())
    }

    fn read(cursor: &mut Cursor) -> Option<Stage> {
        match cursor.u8()? {
            0 => Some(Stage::Auction),
            1 => Some(Stage::Stock),
            2 => Some(Stage::Operating),
            _ => None,
        }
    }
}

impl Spell for TurnStep {
    ghost form = { step_form };

    fn write(&self, out: &mut Vec<u8>) -> Result<(), AllocError> {
        out.push(self.rank())?;
        Ok(())
    }

    fn read(cursor: &mut Cursor) -> Option<TurnStep> {
        match cursor.u8()? {
            0 => Some(TurnStep::Lay),
            1 => Some(TurnStep::Station),
            2 => Some(TurnStep::Run),
            3 => Some(TurnStep::Pay),
            4 => Some(TurnStep::Train),
            _ => None,
        }
    }
}
