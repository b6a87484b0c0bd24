ghost use Rattle.std.specs.Prelude.{◌≡◌, ◌≤◌, pos, Some, None, MatchResult};
ghost use Rattle.rr_roster.specs.Chart.Chart.{par_place};
ghost use Rattle.rr_books.specs.Book.{Book};
ghost use Rattle.rr_books.specs.State.{cash_of, holder_in};
ghost use Rattle.rr_rounds.specs.Bids.Bids.{tied_on, tied_up};
ghost use Rattle.rr_rounds.specs.Bids.Unsold.{cheapest};
ghost use Rattle.rr_desk.specs.Position.Position.{IsPositionOf};
ghost use Rattle.rr_auction.specs.Rules.{bid_verdict, bidder_due, is_bo, is_open, par_verdict, pass_verdict, purchase_verdict, spending_verdict, takes_bids, verdict, verdict_in};

use crate::pricing::{least_bid, price};
use rr_books::{Act, Books, Corp, Party, Private, Refusal, Seat};
use rr_desk::Position;
use rr_market::par_cell;
use rr_roster::Roster;
use rr_roster::chart::Chart;
use rr_rounds::bids::{Bidding, cheapest, is_cheapest, is_unsold, same_private};

// A seat's bid on a private.
#[derive(Clone, Copy)]
struct Bid {
    seat: Seat,
    private: Private,
    amount: u64,
}

/// Whether the auction takes the command, at a table of this position.
///
/// # Errors
///
/// The first of these that applies: `WrongStep` where the auction waits for something else, `NotYourTurn` where
/// another seat is due; for a bid `NotForSale` and `BidTooLow`; for a purchase or bid `TooLittleCash`, and
/// `CashTiedUp` where the seat has the money but has bid it on other privates; for a par `NotForSale` where the
/// corporation isn't the B&O, and `NotAPar` where the chart has no par cell of the price.
pub fn judge(roster: &Roster, chart: &Chart, position: &Position, act: &Act) -> Result<(), Refusal>
    ensures shown { MatchResult result
        (λ _. verdict_in roster.now chart.now (cash_of position.now.books) (holder_in position.now.books) position.now.bidding act.now ≡ None)
        (λ fault. verdict_in roster.now chart.now (cash_of position.now.books) (holder_in position.now.books) position.now.bidding act.now ≡ Some fault) }
    ensures book { (book : Book) → IsPositionOf book position.now → MatchResult result
        (λ _. verdict roster.now chart.now book act.now ≡ None)
        (λ fault. verdict roster.now chart.now book act.now ≡ Some fault) }
{
    judge_by(roster, chart, position.books(), position.bidding(), act)
}

// Whether the auction takes the command, by the books and the bids.
fn judge_by(
    roster: &Roster,
    chart: &Chart,
    books: &Books,
    bidding: &Bidding,
    act: &Act,
) -> Result<(), Refusal>
    ensures { MatchResult result
        (λ _. verdict_in roster.now chart.now (cash_of books.now) (holder_in books.now) bidding.now act.now ≡ None)
        (λ fault. verdict_in roster.now chart.now (cash_of books.now) (holder_in books.now) bidding.now act.now ≡ Some fault) }
{
    match act {
        Act::BuyPrivate { seat } => judge_purchase(roster, books, bidding, *seat),
        Act::Bid {
            seat,
            private,
            amount,
        } => {
            let bid = Bid {
                seat: *seat,
                private: *private,
                amount: *amount,
            };
            judge_bid(roster, books, bidding, bid)
        }
        Act::Pass { seat } => judge_pass(roster, books, bidding, *seat),
        Act::Par { seat, corp, price } => judge_par(chart, bidding, *seat, *corp, *price),
        _ => Err(Refusal::WrongStep),
    }
}

// Whether the seat may buy the cheapest private.
fn judge_purchase(
    roster: &Roster,
    books: &Books,
    bidding: &Bidding,
    seat: Seat,
) -> Result<(), Refusal>
    ensures { MatchResult result
        (λ _. purchase_verdict roster.now (cash_of books.now) (holder_in books.now) bidding.now seat ≡ None)
        (λ fault. purchase_verdict roster.now (cash_of books.now) (holder_in books.now) bidding.now seat ≡ Some fault) }
{
    if let Some(_) = bidding.par_due() {
        return Err(Refusal::WrongStep);
    }
    let Some(private) = cheapest(books) else {
        return Err(Refusal::WrongStep);
    };
    if let Some(_) = bidding.raise_due(books) {
        return Err(Refusal::WrongStep);
    }
    if seat != bidding.turn() {
        return Err(Refusal::NotYourTurn);
    }
    let price = u64::from(price(bidding.falls(), private, roster));
    judge_spending(books, bidding, seat, private, price)?;
    Ok(())
}

// Whether the bid is taken.
fn judge_bid(roster: &Roster, books: &Books, bidding: &Bidding, bid: Bid) -> Result<(), Refusal>
    ensures { MatchResult result
        (λ _. bid_verdict roster.now (cash_of books.now) (holder_in books.now) bidding.now bid.seat bid.private bid.amount ≡ None)
        (λ fault. bid_verdict roster.now (cash_of books.now) (holder_in books.now) bidding.now bid.seat bid.private bid.amount ≡ Some fault) }
{
    judge_pass(roster, books, bidding, bid.seat)?;
    if !is_open(books, bidding, bid.private) {
        return Err(Refusal::NotForSale);
    }
    let least = least_bid(bidding, bid.private, roster);
    if bid.amount < least {
        return Err(Refusal::BidTooLow(least));
    }
    judge_spending(books, bidding, bid.seat, bid.private, bid.amount)?;
    Ok(())
}

// Whether the seat may pass.
fn judge_pass(roster: &Roster, books: &Books, bidding: &Bidding, seat: Seat) -> Result<(), Refusal>
    ensures { MatchResult result
        (λ _. pass_verdict roster.now (holder_in books.now) bidding.now seat ≡ None)
        (λ fault. pass_verdict roster.now (holder_in books.now) bidding.now seat ≡ Some fault) }
{
    if !takes_bids(roster, books, bidding) {
        return Err(Refusal::WrongStep);
    }
    if seat != bidder_due(books, bidding) {
        return Err(Refusal::NotYourTurn);
    }
    Ok(())
}

// Whether the seat may put the corporation's token on the par cell of the price.
fn judge_par(
    chart: &Chart,
    bidding: &Bidding,
    seat: Seat,
    corp: Corp,
    price: u64,
) -> Result<(), Refusal>
    ensures { MatchResult result
        (λ _. par_verdict chart.now bidding.now.par_due seat corp price ≡ None)
        (λ fault. par_verdict chart.now bidding.now.par_due seat corp price ≡ Some fault) }
{
    let Some(owing) = bidding.par_due() else {
        return Err(Refusal::WrongStep);
    };
    if seat != owing {
        return Err(Refusal::NotYourTurn);
    }
    if !is_bo(corp) {
        return Err(Refusal::NotForSale);
    }
    let Some(_) = par_cell(chart, price) else {
        return Err(Refusal::NotAPar);
    };
    Ok(())
}

// Whether the seat may spend the amount on the private.
fn judge_spending(
    books: &Books,
    bidding: &Bidding,
    seat: Seat,
    private: Private,
    amount: u64,
) -> Result<(), Refusal>
    ensures { MatchResult result
        (λ _. spending_verdict (cash_of books.now) (holder_in books.now) bidding.now seat private amount ≡ None)
        (λ fault. spending_verdict (cash_of books.now) (holder_in books.now) bidding.now seat private amount ≡ Some fault) }
{
    let cash = books.balance(Party::Seat(seat)).0;
    let Ok(amount) = i64::try_from(amount) else {
        return Err(Refusal::TooLittleCash);
    };
    if cash < amount {
        return Err(Refusal::TooLittleCash);
    }
    let tied_up = tied_up(books, bidding, seat, private) as i64;
    if cash - tied_up < amount {
        return Err(Refusal::CashTiedUp);
    }
    Ok(())
}

// Whether bids and passes are taken.
fn takes_bids(roster: &Roster, books: &Books, bidding: &Bidding) -> bool
    ensures { result ≡ takes_bids roster.now (holder_in books.now) bidding.now }
{
    if let Some(_) = bidding.par_due() {
        return false;
    }
    match cheapest(books) {
        Some(private) => 0 < price(bidding.falls(), private, roster),
        None => false,
    }
}

// The seat that is to bid or pass.
fn bidder_due(books: &Books, bidding: &Bidding) -> Seat
    ensures { result ≡ bidder_due (holder_in books.now) bidding.now }
{
    match bidding.raise_due(books) {
        Some(seat) => seat,
        None => bidding.turn(),
    }
}

// Whether the private can be bid on.
fn is_open(books: &Books, bidding: &Bidding, private: Private) -> bool
    ensures { result ≡ is_open (holder_in books.now) bidding.now private }
{
    match bidding.raise_due(books) {
        Some(_) => is_cheapest(private, books),
        None => is_unsold(private, books) && !is_cheapest(private, books),
    }
}

// The money that the seat has tied up in bids on other privates.
fn tied_up(books: &Books, bidding: &Bidding, seat: Seat, named: Private) -> u64
    ensures value { result ≡ tied_up (holder_in books.now) bidding.now.bids seat named }
    ensures bound { result ≤ 60000000000 }
{
    tied_on(books, bidding, seat, named, Private::Sv)
        + tied_on(books, bidding, seat, named, Private::Csl)
        + tied_on(books, bidding, seat, named, Private::Dh)
        + tied_on(books, bidding, seat, named, Private::Mh)
        + tied_on(books, bidding, seat, named, Private::Ca)
        + tied_on(books, bidding, seat, named, Private::Bo)
}

// The money that the seat has tied up in a bid on this private.
fn tied_on(books: &Books, bidding: &Bidding, seat: Seat, named: Private, private: Private) -> u64
    ensures value { result ≡ tied_on (holder_in books.now) bidding.now.bids seat named private }
    ensures bound { result ≤ 10000000000 }
{
    if same_private(private, named) {
        return 0;
    }
    if !is_unsold(private, books) {
        return 0;
    }
    bidding.bid(private, seat)
}

// Whether it is the B&O.
fn is_bo(corp: Corp) -> bool
    ensures { result ≡ is_bo corp }
{
    match corp {
        Corp::Bo => true,
        _ => false,
    }
}
