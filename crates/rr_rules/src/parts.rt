//! How a table's game stands as plain values, from which it can be made again.
ghost use Rattle.std.specs.Prelude.{◌≡◌, ◌↔◌, IsTrue, MatchOption, IfOk};
ghost use Rattle.rr_rules.specs.Parts.{IsEarned, IsStanding, parts_of, standing_form, standing_of};

use crate::standing::Standing;
use rr_books::Money;
use rr_desk::Position;
use rr_desk::position::PositionParts;
use rr_words::spelling::{Cursor, Spell};
use std::alloc::{AllocError, Global};

/// The most that the trains of a corporation earn in a turn, in dollars.
const HIGHEST_REVENUE: i64 = 10_000_000_000;

/// The plain values of how a table's game stands.
#[derive(Clone, Copy, Debug)]
pub struct StandingParts {
    pub position: PositionParts,
    /// What the trains of the corporation that is due earned in its turn.
    pub revenue: Money,
}

/// The same values, one behind the other.
type Row = (PositionParts, i64);

impl Spell for StandingParts {
    ghost form = { standing_form };

    fn write(&self, out: &mut Vec<u8>) -> Result<(), AllocError> {
        self.position.write(out)?;
        self.revenue.0.write(out)?;
        Ok(())
    }

    fn read(cursor: &mut Cursor) -> Option<StandingParts> {
        let row = Row::read(cursor)?;
        let (position, revenue) = row;
        Some(StandingParts {
            position,
            revenue: Money(revenue),
        })
    }
}

impl StandingParts {
    /// Whether a game may stand so: a position may have its own values, and the revenue isn't below 0, nor above
    /// 10,000,000,000 dollars.
    pub fn are_sound(&self) -> bool
        ensures { IsTrue result ↔ IsStanding self.now }
    {
        is_earned(self.revenue) && self.position.are_sound()
    }
}

impl Standing {
    /// The plain values of how the game stands.
    pub fn parts(&self) -> StandingParts
        ensures value { result ≡ parts_of self.now }
        ensures sound { IsStanding result }
    {
        StandingParts {
            position: self.position.parts(),
            revenue: self.revenue,
        }
    }

    /// How a game stands that has these values, if one may have them: a position may have its own, and the revenue isn't
    /// below 0, nor above 10,000,000,000 dollars.
    ///
    /// # Errors
    ///
    /// `AllocError` where there is no memory for the position.
    pub fn from_parts(alloc: Global, parts: &StandingParts) -> Result<Option<Standing>, AllocError>
        ensures { IfOk result (λ found. MatchOption found
            (IsStanding parts.now → ⊥)
            (λ standing. IsStanding parts.now × (standing ≡ standing_of parts.now))) }
    {
        if !is_earned(parts.revenue) {
            return Ok(None);
        }
        match Position::from_parts(parts.position) {
            Some(position) => Ok(Some(Standing {
                position: Box::new(alloc, position)?,
                revenue: parts.revenue,
            })),
            None => Ok(None),
        }
    }
}

// Whether trains may earn this in a turn.
fn is_earned(revenue: Money) -> bool
    ensures { IsTrue result ↔ IsEarned revenue }
{
    0 <= revenue.0 && revenue.0 <= HIGHEST_REVENUE
}
