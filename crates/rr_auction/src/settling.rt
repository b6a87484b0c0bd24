ghost use Rattle.std.specs.Prelude.{◌≡◌, ◌<◌, ◌≤ℤ◌, None, pos, OnOk, IfErr, IfSome, if◌then◌else◌};
ghost use Rattle.rr_books.specs.Book.{Book, holder};
ghost use Rattle.rr_books.specs.Shares.{privates};
ghost use Rattle.rr_books.specs.State.{holder_in};
ghost use Rattle.rr_desk.specs.Effects.{moves_lowest_share};
ghost use Rattle.rr_desk.specs.Incomes.{dollars};
ghost use Rattle.rr_rounds.specs.Bids.Bids.{bid_of, bids_on, sole_bidder};
ghost use Rattle.rr_rounds.specs.Bids.Progress.{progress};
ghost use Rattle.rr_rounds.specs.Bids.Unsold.{cheapest, is_private};
ghost use Rattle.rr_desk.specs.Position.Position.{IsPositionOf};
ghost use Rattle.rr_desk.specs.Desk.{Takes};
ghost use Rattle.rr_auction.specs.Effects.{gift, may_end, sale, settle, settle_each, settles, stock_begins};

use crate::due::is_over;
use rr_books::{Books, Cert, Corp, Entry, Marker, Money, Party, Place, Private, Refusal, Seat};
use rr_desk::{Desk, Position, dollars, give_lowest_share};
use rr_rounds::bids::{Bidding, is_cheapest};

/// The privates that have just one bidder when they become the cheapest are sold, and the auction may be over.
#[tactic(auto, unfolding(crate::specs::Effects::settle))]
pub(crate) fn settle(desk: &mut Desk) -> Result<(), Refusal>
    ensures fault { IfErr result (λ fault. fault ≡ Refusal.OutOfMemory) }
    ensures takes { OnOk result (Takes settle desk.old desk.new) }
{
    settle_each(desk)?;
    end(desk)?;
    Ok(())
}

/// The seat gets the private for the amount.
#[tactic(auto, unfolding(crate::specs::Effects::sale))]
pub(crate) fn sell(
    desk: &mut Desk,
    seat: Seat,
    private: Private,
    amount: Money,
) -> Result<(), Refusal>
    requires seated { seat.0 < 6 }
    requires low { pos 0 ≤ℤ amount.0 }
    requires high { amount.0 ≤ℤ pos 10000000000 }
    ensures fault { IfErr result (λ fault. fault ≡ Refusal.OutOfMemory) }
    ensures takes { OnOk result (Takes (sale seat private amount) desk.old desk.new) }
{
    desk.push(Entry::Move {
        cert: Cert::Private(private),
        to: Place::Seat(seat),
    })?;
    desk.push(Entry::Pay {
        from: Party::Seat(seat),
        to: Party::Bank,
        amount,
    })?;
    give_gift(desk, private, seat)?;
    Ok(())
}

// Each private in turn that is the cheapest then, and has just one bidder, is sold.
fn settle_each(desk: &mut Desk) -> Result<(), Refusal>
    ensures fault { IfErr result (λ fault. fault ≡ Refusal.OutOfMemory) }
    ensures takes { OnOk result (Takes (settle_each privates) desk.old desk.new) }
{
    for private in Private::ALL {
        settle_one(desk, private)?;
    }
    Ok(())
}

// The private is sold to its only bidder, if it is the cheapest and has just one.
fn settle_one(desk: &mut Desk, private: Private) -> Result<(), Refusal>
    ensures fault { IfErr result (λ fault. fault ≡ Refusal.OutOfMemory) }
    ensures takes { OnOk result (Takes (settles private) desk.old desk.new) }
{
    match buyer(desk.position(), private) {
        Some(seat) => {
            let amount = bid(desk.position(), private, seat);
            sell(desk, seat, private, amount)?;
            Ok(())
        }
        None => Ok(()),
    }
}

// The only bidder for the private, if that is the cheapest and has just one.
fn buyer(position: &Position, private: Private) -> Option<Seat>
    ensures value { (book : Book) → IsPositionOf book position.now → result ≡ (if is_private private (cheapest (holder book)) then sole_bidder (bids_on (progress book).bids private) else None) }
    ensures seated { IfSome result (λ seat. seat.0 < 6) }
{
    buyer_by(position.books(), position.bidding(), private)
}

// The only bidder for the private, by the books and the bids.
fn buyer_by(books: &Books, bidding: &Bidding, private: Private) -> Option<Seat>
    ensures value { result ≡ (if is_private private (cheapest (holder_in books.now)) then sole_bidder (bids_on bidding.now.bids private) else None) }
    ensures seated { IfSome result (λ seat. seat.0 < 6) }
{
    if !is_cheapest(private, books) {
        return None;
    }
    bidding.sole_bidder(private)
}

// What the seat bids on the private, as money.
fn bid(position: &Position, private: Private, seat: Seat) -> Money
    ensures value { (book : Book) → IsPositionOf book position.now → result ≡ dollars (bid_of (progress book).bids private seat) }
    ensures low { pos 0 ≤ℤ result.0 }
    ensures high { result.0 ≤ℤ pos 10000000000 }
{
    bid_by(position.bidding(), private, seat)
}

// What the seat bids on the private, by the bids.
fn bid_by(bidding: &Bidding, private: Private, seat: Seat) -> Money
    ensures value { result ≡ dollars (bid_of bidding.now.bids private seat) }
    ensures low { pos 0 ≤ℤ result.0 }
    ensures high { result.0 ≤ℤ pos 10000000000 }
{
    dollars(bidding.bid(private, seat))
}

// The stock round begins if the auction is over.
fn end(desk: &mut Desk) -> Result<(), Refusal>
    ensures fault { IfErr result (λ fault. fault ≡ Refusal.OutOfMemory) }
    ensures takes { OnOk result (Takes may_end desk.old desk.new) }
{
    let over = is_over(desk.position());
    begin_stock_if(desk, over)?;
    Ok(())
}

// The stock round begins, if that is due.
fn begin_stock_if(desk: &mut Desk, over: bool) -> Result<(), Refusal>
    ensures fault { IfErr result (λ fault. fault ≡ Refusal.OutOfMemory) }
    ensures takes { OnOk result (Takes (stock_begins over) desk.old desk.new) }
{
    if !over {
        return Ok(());
    }
    desk.push(Entry::Step(Marker::Stock))?;
    Ok(())
}

// What comes with a private: a share of the PRR with the C&A, the B&O's presidency with the B&O.
#[tactic(auto, unfolding(crate::specs::Effects::gift))]
fn give_gift(desk: &mut Desk, private: Private, seat: Seat) -> Result<(), Refusal>
    ensures fault { IfErr result (λ fault. fault ≡ Refusal.OutOfMemory) }
    ensures takes { OnOk result (Takes (gift private seat) desk.old desk.new) }
{
    match private {
        Private::Ca => give_lowest_share(desk, Corp::Prr, Place::Offer, Place::Seat(seat)),
        Private::Bo => desk.push(Entry::Move {
            cert: Cert::President(Corp::Bo),
            to: Place::Seat(seat),
        }),
        _ => Ok(()),
    }
}
