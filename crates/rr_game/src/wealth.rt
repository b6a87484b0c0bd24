//! What a player is worth.
ghost use Rattle.std.specs.Prelude.{◌≡◌, ◌≤◌, None, Some, option_map, sum_by, MatchResult};
ghost use Rattle.rr_books.specs.Book.{Book};
ghost use Rattle.rr_desk.specs.Position.Position.{IsPositionOf};
ghost use Rattle.rr_roster.specs.Company.{corps, privates};
ghost use Rattle.rr_game.specs.Names.{seat_of};
ghost use Rattle.rr_game.specs.Queries.{assets_in, private_value, shares_value, worth, worth_by};

use crate::game::Game;
use rr_books::{Cert, Corp, Money, Party, Place, Private, Refusal, Seat};
use rr_desk::Position;
use rr_kit::Kit;
use rr_words::Name;

impl Game {
    /// What the player is worth, in dollars: its cash, its shares at their market price, or nothing without one, and
    /// its open privates at their face.
    ///
    /// # Errors
    ///
    /// `NoSuchName` for a player who isn't at the table.
    pub fn worth(&self, player: &Name, kit: &Kit) -> Result<Money, Refusal>
        ensures { (book : Book) → IsPositionOf book self.now.standing.position → MatchResult result
            (λ money. option_map (worth kit.now book) (seat_of self.now.players player.now) ≡ Some money.0)
            (λ fault. (fault ≡ Refusal.NoSuchName) × (seat_of self.now.players player.now ≡ None)) }
    {
        let seat = self.seat(player)?;
        Ok(worth(self.standing.position(), kit, seat))
    }
}

fn worth(position: &Position, kit: &Kit, seat: Seat) -> Money
    ensures { (book : Book) → IsPositionOf book position.now → result.0 ≡ worth kit.now book seat }
{
    worth_shown(position, kit, seat)
}

fn worth_shown(position: &Position, kit: &Kit, seat: Seat) -> Money
    ensures { result.0 ≡ worth_by kit.now.roster (assets_in kit.now.chart position.now) seat }
{
    let cash = position.books().balance(Party::Seat(seat)).0;
    let others = shares_worth(position, kit, seat) + privates_worth(position, kit, seat);
    Money(cash + i64::from(others))
}

// What its shares are worth together.
fn shares_worth(position: &Position, kit: &Kit, seat: Seat) -> u32
    ensures value { result ≡ sum_by (shares_value (assets_in kit.now.chart position.now) seat) corps }
    ensures bound { result ≤ 79920 }
{
    let mut total = 0;
    for corp in Corp::ALL {
        total += shares_value(position, kit, seat, corp);
    }
    total
}

fn shares_value(position: &Position, kit: &Kit, seat: Seat, corp: Corp) -> u32
    ensures value { result ≡ shares_value (assets_in kit.now.chart position.now) seat corp }
    ensures bound { result ≤ 9990 }
{
    let percent = u32::from(position.books().share(Place::Seat(seat), corp));
    let price = u32::from(position.market().price(kit.chart(), corp).unwrap_or(0));
    percent * price / 10
}

// What its privates are worth together.
fn privates_worth(position: &Position, kit: &Kit, seat: Seat) -> u32
    ensures value { result ≡ sum_by (private_value kit.now.roster (assets_in kit.now.chart position.now) seat) privates }
    ensures bound { result ≤ 3000 }
{
    let mut total = 0;
    for private in Private::ALL {
        total += private_value(position, kit, seat, private);
    }
    total
}

fn private_value(position: &Position, kit: &Kit, seat: Seat, private: Private) -> u32
    ensures value { result ≡ private_value kit.now.roster (assets_in kit.now.chart position.now) seat private }
    ensures bound { result ≤ 500 }
{
    if position.books().holder(Cert::Private(private)) == Place::Seat(seat) {
        return u32::from(kit.roster().face(private));
    }
    0
}
