//! A game as plain values and as bytes, from which it can be made again.
ghost use Rattle.std.specs.Prelude.{◌≡◌, ◌≢◌, ◌↔◌, IsTrue, IfOk, MatchOption};
ghost use Rattle.rr_game.specs.Turning.{AreWithin};

use crate::game::Game;
use rr_books::{BooksParts, Money};
use rr_code::Players;
use rr_desk::layout::Layout;
use rr_desk::position::PositionParts;
use rr_market::MarketParts;
use rr_market::operations::OperationsParts;
use rr_rounds::RoundsParts;
use rr_rounds::bids::BiddingParts;
use rr_rules::{Standing, StandingParts};
use rr_turns::Ends;
use rr_words::spelling::{Cursor, Spell};
use std::alloc::{AllocError, Global};

/// The plain values of a game.
#[derive(Clone, Copy, Debug)]
pub struct Parts {
    pub players: Players,
    pub standing: StandingParts,
    /// The commands that were played, the opening among them.
    pub played: u32,
    /// How many were played at the end of each turn.
    pub ends: Ends,
}

/// The same values, one behind the other.
type Row = (Players, (StandingParts, (u32, Ends)));

/// All views but the layout, which is by far the largest of a game's values.
type Views = (
    BooksParts,
    (BiddingParts, (MarketParts, (RoundsParts, OperationsParts))),
);

/// What stands behind the layout: the entries, the revenue, the commands that were played, and the ends of turns.
type Counts = (u32, (i64, (u32, Ends)));

impl Spell for Parts {
    ghost use Rattle.rr_game.specs.Parts.{game_form};

    ghost form = { game_form };

    fn write(&self, out: &mut Vec<u8>) -> Result<(), AllocError> {
        self.players.write(out)?;
        self.standing.write(out)?;
        self.played.write(out)?;
        self.ends.write(out)?;
        Ok(())
    }

    // (not by Row: each of its pairs would move the layout once more)
    fn read(cursor: &mut Cursor) -> Option<Parts> {
        let players = <Players as Spell>::read(cursor)?;
        let views = Views::read(cursor)?;
        let layout = Layout::read(cursor)?;
        let counts = Counts::read(cursor)?;
        let (books, (bidding, (market, (rounds, operations)))) = views;
        let (entries, (revenue, (played, ends))) = counts;
        let position = PositionParts {
            books,
            bidding,
            market,
            rounds,
            operations,
            layout,
            entries,
        };
        Some(Parts {
            players,
            standing: StandingParts {
                position,
                revenue: Money(revenue),
            },
            played,
            ends,
        })
    }
}

impl Parts {
    ghost use Rattle.rr_game.specs.Parts.{AreParts, game_form};

    /// The plain values of which these are all the bytes, if they are of any. Values that no game has may have bytes too.
    pub fn read(bytes: &[u8]) -> Option<Parts>
        ensures { MatchOption result
            ((parts : Parts) → game_form.Fits parts → bytes.now ≢ game_form.spelling parts)
            (λ parts. game_form.Fits parts × (bytes.now ≡ game_form.spelling parts)) }
    {
        let mut cursor = Cursor::of(bytes);
        let parts = <Parts as Spell>::read(&mut cursor);
        if !cursor.is_empty() {
            return None;
        }
        parts
    }

    /// Whether a game may have these values: it may stand so, and its turns have ended within the commands that were
    /// played. It isn't asked whether commands come to it.
    pub fn are_sound(&self) -> bool
        ensures { IsTrue result ↔ AreParts self.now }
    {
        are_within(&self.ends, self.played) && self.standing.are_sound()
    }
}

impl Game {
    ghost use Rattle.rr_game.specs.Parts.{AreParts, game_of, parts_of};

    /// The plain values of the game.
    pub fn parts(&self) -> Parts
        ensures value { result ≡ parts_of self.now }
        ensures sound { AreParts result }
    {
        Parts {
            players: self.players,
            standing: self.standing.parts(),
            played: self.played,
            ends: self.ends,
        }
    }

    /// The game of these values, if a game may have them: it may stand so, and its turns have ended within the commands
    /// that were played. It isn't asked whether commands come to it.
    ///
    /// # Errors
    ///
    /// `AllocError` where there is no memory for its position.
    pub fn from_parts(alloc: Global, parts: &Parts) -> Result<Option<Game>, AllocError>
        ensures { IfOk result (λ found. MatchOption found
            (AreParts parts.now → ⊥)
            (λ game. (sound : AreParts parts.now) × (game ≡ game_of parts.now sound))) }
    {
        if !are_within(&parts.ends, parts.played) {
            return Ok(None);
        }
        let found = Standing::from_parts(alloc, &parts.standing)?;
        match found {
            Some(standing) => Ok(Some(Game {
                players: parts.players,
                standing,
                played: parts.played,
                ends: parts.ends,
            })),
            None => Ok(None),
        }
    }
}

/// Whether the counts at the ends of turns are within those of so many commands.
fn are_within(ends: &Ends, played: u32) -> bool
    ensures { IsTrue result ↔ AreWithin played ends.now }
{
    let played = played as usize;
    ends.turns() < played && ends.last() <= played
}
