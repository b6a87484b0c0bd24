ghost use Rattle.std.specs.Prelude.{◌≡◌, ◌≤◌, ◌≤ℤ◌, pos, None, Some, List, option_map, option_and_then, MatchResult, IfOk};
ghost use Rattle.rr_books.specs.Book.{Book, below_zero, holder, iou, money_with, train_holder};
ghost use Rattle.rr_books.specs.Opening.{certificate_limit};
ghost use Rattle.rr_books.specs.Shares.{is_at};
ghost use Rattle.rr_books.specs.State.{cash_of, holder_in};
ghost use Rattle.rr_auction.specs.Rules.{asked};
ghost use Rattle.rr_market.specs.Marks.{mark_of, price_at};
ghost use Rattle.rr_market.specs.Order.{operating_order};
ghost use Rattle.rr_market.specs.Operations.Phases.{phase};
ghost use Rattle.rr_trains.specs.Places.{trains_at};
ghost use Rattle.rr_rules.specs.State.{GameState, IsStandingOf};
ghost use Rattle.rr_game.specs.Names.{party_of, seat_of, trains_place};
ghost use Rattle.rr_desk.specs.Position.Position.{IsPositionOf};
ghost use Rattle.rr_game.specs.Queries.{holding, quote};

use crate::game::Game;
use rr_books::{Cell, Cert, Corp, Kind, Money, Party, Place, Private, Refusal};
use rr_code::{Account, TrainHolder};
use rr_desk::Position;
use rr_kit::Kit;
use rr_market::OperatingOrder;
use rr_words::Name;

impl Game {
    /// The position that runs along with the table's book.
    fn position(&self) -> &Position
        ensures { result.now ≡ self.now.standing.position }
    {
        self.standing.position()
    }

    /// What an account has, in dollars.
    ///
    /// # Errors
    ///
    /// `NoSuchName` for a player who isn't at the table.
    pub fn cash(&self, account: &Account, kit: &Kit) -> Result<Money, Refusal>
        ensures { MatchResult result
            (λ money. option_map (money_with kit.now.roster (cash_of self.now.standing.position.books)) (party_of self.now.players account.now) ≡ Some money.0)
            (λ fault. (fault ≡ Refusal.NoSuchName) × (party_of self.now.players account.now ≡ None)) }
    {
        let party = self.party(account)?;
        Ok(self.position().books().money(party, kit.roster()))
    }

    /// How far the bank is below 0, in dollars.
    pub fn iou(&self, kit: &Kit) -> u64
        ensures { (book : Book) → IsPositionOf book self.now.standing.position → result ≡ iou kit.now.roster book }
    {
        below_zero(self.position().books().money(Party::Bank, kit.roster()))
    }

    /// Whether the private is at the place.
    pub fn owns(&self, place: Place, private: Private) -> bool
        ensures { result ≡ is_at (holder_in self.now.standing.position.books (Cert.Private private)) place }
    {
        self.position().books().holder(Cert::Private(private)) == place
    }

    /// How many certificates a player may hold.
    pub fn limit(&self) -> u8
        ensures { result ≡ certificate_limit self.now.standing.position.books.players }
    {
        rr_books::certificate_limit(self.position().books().players())
    }

    /// The cheapest private that isn't sold, and its price.
    pub fn asked(&self, kit: &Kit) -> Option<(Private, Money)>
        ensures { (book : Book) → IsPositionOf book self.now.standing.position → result ≡ asked kit.now.roster book }
    {
        rr_auction::asked(self.position(), kit.roster())
    }

    /// How much of the corporation the player holds, in percent.
    ///
    /// # Errors
    ///
    /// `NoSuchName` for a player who isn't at the table.
    pub fn holds(&self, player: &Name, corp: Corp) -> Result<u8, Refusal>
        ensures book { (book : Book) → IsPositionOf book self.now.standing.position → MatchResult result
            (λ percent. option_map (holding book corp) (seat_of self.now.players player.now) ≡ Some percent)
            (λ fault. (fault ≡ Refusal.NoSuchName) × (seat_of self.now.players player.now ≡ None)) }
        ensures bound { IfOk result (λ percent. percent ≤ 100) }
    {
        let seat = self.seat(player)?;
        Ok(self.position().books().share(Place::Seat(seat), corp))
    }

    /// The price of the corporation's shares, from 1 to 999, and the cell of its token, if that is on the chart.
    pub fn price(&self, corp: Corp, kit: &Kit) -> Option<(u16, Cell)>
        ensures { (book : Book) → IsPositionOf book self.now.standing.position → result ≡ quote kit.now.chart book corp }
    {
        let cell = self.position().market().cell(corp)?;
        let price = self.position().market().price(kit.chart(), corp)?;
        Some((price, cell))
    }

    /// The corporations with a price, floated or not, in the order in which they operate.
    pub fn order(&self, kit: &Kit) -> OperatingOrder
        ensures { (book : Book) → IsPositionOf book self.now.standing.position → result ≡ operating_order kit.now.chart book }
    {
        self.position().market().order(kit.chart())
    }

    /// The phase of the game: the greatest kind of which a train was sold, and `Two` where none was.
    pub fn phase(&self) -> Kind
        ensures { (book : Book) → IsPositionOf book self.now.standing.position → result ≡ phase (train_holder book) }
    {
        rr_market::operations::phase(self.position().books())
    }

    /// How many trains of the kind a corporation or the pool has.
    pub fn trains(&self, of: TrainHolder, kind: Kind) -> u8
        ensures book { (book : Book) → IsPositionOf book self.now.standing.position → result ≡ trains_at (train_holder book) (trains_place of) kind }
        ensures bound { result ≤ 20 }
    {
        rr_trains::trains_at(self.position().books(), trains_place(of), kind)
    }

    /// What the trains of the corporation that is due earned in its turn, in dollars: nothing before they ran.
    pub fn revenue(&self) -> Money
        ensures value { (state : GameState) → IsStandingOf state self.now.standing → result ≡ state.revenue }
        ensures least { pos 0 ≤ℤ result.0 }
        ensures greatest { result.0 ≤ℤ pos 10000000000 }
    {
        self.standing.revenue()
    }
}

// Where the trains are.
fn trains_place(of: TrainHolder) -> Place
    ensures { result ≡ trains_place of }
{
    match of {
        TrainHolder::Pool => Place::Pool,
        TrainHolder::Corp(corp) => Place::Corp(corp),
    }
}

// How far an amount is below 0.
fn below_zero(amount: Money) -> u64
    ensures { result ≡ below_zero amount.0 }
{
    if amount.0 < 0 {
        return amount.0.unsigned_abs();
    }
    0
}
