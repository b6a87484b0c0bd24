ghost use Rattle.std.specs.Prelude.{◌≡◌, ◌<◌, OnOk, IfErr, IfSome};
ghost use Rattle.rr_books.specs.Book.{Book, holder, players};
ghost use Rattle.rr_books.specs.Shares.{president};
ghost use Rattle.rr_books.specs.State.{IsStateOf, holder_in};
ghost use Rattle.rr_desk.specs.Desk.{Takes};
ghost use Rattle.rr_shares.specs.Effects.{hands_over, hands_over_if, presidency};
ghost use Rattle.rr_shares.specs.Succession.{at_table, handover_after_sale, handover_by, handover_due};

use crate::giving::give_lowest_shares;
use crate::holdings::{heir, percents, percents_after_sale};
use rr_books::{Books, Cert, Corp, Entry, Place, Refusal, Seat};
use rr_desk::Desk;

/// A presidency changes hands.
#[derive(Clone, Copy, Debug, PartialEq, Eq)]
pub struct Handover {
    /// The old president.
    pub from: Seat,
    /// The new one.
    pub to: Seat,
}

/// Whether the corporation's presidency is to change hands by what the seats hold: where another holds strictly more
/// than the president.
#[tactic(auto, unfolding(crate::specs::Succession::handover_due))]
pub fn handover_due(books: &Books, corp: Corp) -> Option<Handover>
    ensures shown { result ≡ handover_due (holder_in books.now) books.now.players corp }
    ensures book { (book : Book) → IsStateOf book books.now → result ≡ handover_due (holder book) (players book) corp }
{
    handover_by(&percents(books, corp), books, corp)
}

/// Whether the corporation's presidency is to change hands once the seller has sold `count` 10% shares.
#[tactic(auto, unfolding(crate::specs::Succession::handover_after_sale))]
pub fn handover_after_sale(books: &Books, corp: Corp, seller: Seat, count: u8) -> Option<Handover>
    ensures shown { result ≡ handover_after_sale (holder_in books.now) books.now.players corp seller count }
    ensures book { (book : Book) → IsStateOf book books.now → result ≡ handover_after_sale (holder book) (players book) corp seller count }
{
    handover_by(
        &percents_after_sale(books, corp, seller, count),
        books,
        corp,
    )
}

// Whether the presidency is to change hands by these holdings.
fn handover_by(percents: &[u16; 6], books: &Books, corp: Corp) -> Option<Handover>
    ensures { result ≡ handover_by percents.now books.now.players (at_table books.now.players (president (holder_in books.now) corp)) }
{
    let players = books.players();
    match president_at_table(books, corp) {
        Some(president) => match heir(percents, players, president) {
            Some(seat) => Some(Handover {
                from: president,
                to: seat,
            }),
            None => None,
        },
        None => None,
    }
}

// The corporation's president, if it is a seat of the table.
fn president_at_table(books: &Books, corp: Corp) -> Option<Seat>
    ensures value { result ≡ at_table books.now.players (president (holder_in books.now) corp) }
    ensures seated { IfSome result (λ seat. seat.0 < books.now.players) }
{
    match books.president(corp) {
        Some(seat) => {
            if seat.0 < books.players() {
                Some(seat)
            } else {
                None
            }
        }
        None => None,
    }
}

/// The new president gives the old one two 10% certificates, its lowest, and gets the 20%.
///
/// # Errors
///
/// `OutOfMemory`; some certificates may have moved then.
#[tactic(auto, unfolding(crate::specs::Effects::hands_over))]
pub fn hand_over(desk: &mut Desk, corp: Corp, handover: &Handover) -> Result<(), Refusal>
    ensures fault { IfErr result (λ fault. fault ≡ Refusal.OutOfMemory) }
    ensures takes { OnOk result (Takes (hands_over corp handover.now) desk.old desk.new) }
{
    give_lowest_shares(
        desk,
        corp,
        2,
        Place::Seat(handover.to),
        Place::Seat(handover.from),
    )?;
    desk.push(Entry::Move {
        cert: Cert::President(corp),
        to: Place::Seat(handover.to),
    })?;
    Ok(())
}

// The presidency changes hands, if it is to.
pub(crate) fn hand_over_if(
    desk: &mut Desk,
    corp: Corp,
    handover: Option<Handover>,
) -> Result<(), Refusal>
    ensures fault { IfErr result (λ fault. fault ≡ Refusal.OutOfMemory) }
    ensures takes { OnOk result (Takes (hands_over_if corp handover) desk.old desk.new) }
{
    match handover {
        Some(due) => {
            hand_over(desk, corp, &due)?;
            Ok(())
        }
        None => Ok(()),
    }
}

/// The corporation's presidency goes to the heir, if there is one: the nearest on the president's left among those that
/// hold the most, where that is strictly more than the president holds.
///
/// # Errors
///
/// `OutOfMemory`; some certificates may have moved then.
#[tactic(auto, unfolding(crate::specs::Effects::presidency))]
pub fn settle_presidency(desk: &mut Desk, corp: Corp) -> Result<(), Refusal>
    ensures fault { IfErr result (λ fault. fault ≡ Refusal.OutOfMemory) }
    ensures takes { OnOk result (Takes (presidency corp) desk.old desk.new) }
{
    let due = handover_due(desk.books(), corp);
    hand_over_if(desk, corp, due)?;
    Ok(())
}
