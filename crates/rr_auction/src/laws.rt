//! Laws of the definitions, each the contract of a function that does nothing.
ghost use Rattle.rr_auction.specs.AuctionLaws.{BidsAreTheLast, FirstPriceFallsByPasses, IncomesComeByPasses, PriorityIsLeftOfTheBuyer, TurnIsLeftOfTheLast};
ghost use Rattle.rr_auction.specs.RaisingLaws.{RaisersSitLeftOfTheHighest, RaisingGoesLeft};
ghost use Rattle.rr_auction.specs.SoundMoney.{MoneyStays};
ghost use Rattle.rr_auction.specs.TurnLaws.{FreePrivateIsBought, ParIsOwedByTheBuyer, SeatInTurnBuys, TurnsAreCounted};
ghost use Rattle.rr_auction.specs.WorkedAuction.{WorkedAuction};
ghost use Rattle.rr_auction.specs.WorkedTellings.{TellingsAreWorked};

/// At a table of two players or more, whatever lawful acts the auction takes and whatever the roster's numbers, bank,
/// seats and corporations go on having together what the bank began with, and only the bank may have less than nothing.
pub fn money_stays()
    ensures { MoneyStays }
{
    rr_books::laws::money_is_kept();
}

/// Six acts of four players, one of whom leaves the raising for a private, are lawful, and leave the money where the
/// rules say.
pub fn worked_auction()
    ensures { WorkedAuction }
{}

/// What a seat bids on a private is the last that it bid there, unless it left the raising for that private since: then
/// it bids nothing. Whatever the book, each bid and each leaving is judged by the book before it.
pub fn bids_are_the_last()
    ensures { BidsAreTheLast }
{}

/// Priority is with the seat on the left of the last that got a private, at its price or at a bid, and with the first
/// seat while none did.
pub fn priority_is_left_of_the_buyer()
    ensures { PriorityIsLeftOfTheBuyer }
{}

/// The next turn is that of the seat on the left of the one that bought, bid or passed last in its turn, and the first
/// is that of the first seat. To raise or to leave a raising is no turn.
pub fn turn_is_left_of_the_last()
    ensures { TurnIsLeftOfTheLast }
{}

/// The first private costs its face less 5 for each time that all players passed in a row while it was for sale. The
/// passes in turn count since a seat last bought or bid in its turn, and all have passed with each as many as there are
/// players.
pub fn first_price_falls_by_passes()
    ensures { FirstPriceFallsByPasses }
{}

/// A pass brings the incomes exactly if all players then have passed in a row while another private than the first is
/// for sale.
pub fn incomes_come_by_passes()
    ensures { IncomesComeByPasses }
{}

/// If several bid on the private for sale, the one who raises or leaves is the nearest bidder on the left of the
/// highest.
pub fn raisers_sit_left_of_the_highest()
    ensures { RaisersSitLeftOfTheHighest }
{}

/// Once a seat has raised over all bids, or has left, the raising goes on, if it does, with the nearest bidder on that
/// seat's left.
pub fn raising_goes_left()
    ensures { RaisingGoesLeft }
{}

/// The seat that got the B&O's private owes the B&O a par until it is set, and no other seat owes any.
pub fn par_is_owed_by_the_buyer()
    ensures { ParIsOwedByTheBuyer }
{}

/// The turns are the purchases, bids and passes, except the last of them while a par is owed.
pub fn turns_are_counted()
    ensures { TurnsAreCounted }
{}

/// Once the first private costs nothing, bids and passes are refused.
pub fn free_private_is_bought()
    ensures { FreePrivateIsBought }
{}

/// Nobody but the seat in turn buys what is for sale.
pub fn seat_in_turn_buys()
    ensures { SeatInTurnBuys }
{}

/// In a worked auction two seats' last bids, the last buyer and the last turn are those that the rules say, and in
/// another the first price fell twice.
pub fn worked_tellings()
    ensures { TellingsAreWorked }
{}
