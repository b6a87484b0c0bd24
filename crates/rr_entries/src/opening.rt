//! The entries with which a table opens.
ghost use Rattle.std.specs.Prelude.{◌≡◌, ◌++◌, ◌≤◌, [], ◌∷◌, IfOk, IsOkUnless, OnOk, length, map};
ghost use Rattle.std.specs.List.{flat_map, range_with_len};
ghost use Rattle.rr_books.specs.Opening.{opening_payments, opening_trains};
ghost use Rattle.rr_books.specs.Shares.{certificates_of, privates};
ghost use Rattle.rr_books.specs.declared.refusal.Refusal.TheVariants.{OutOfMemory};
ghost use Rattle.rr_auction.specs.Opening.{opened};
ghost use Rattle.rr_entries.specs.Opening.{train_offered, offered};

use rr_books::{
    Cert, Corp, Entry, Kind, Marker, Names, Party, Place, Private, Refusal, Seat, ShareNumber,
    Train, starting_money,
};
use rr_desk::Entries;
use rr_roster::Roster;
use rr_words::Name;
use std::alloc::Global;

/// The entries with which a table of these players opens, oldest first: each player gets the
/// starting money, all certificates and trains are offered, and the auction begins. `players` are
/// the names in seating order.
///
/// # Errors
///
/// `OutOfMemory` alone.
pub fn opening_entries(alloc: Global, players: &[Name], roster: &Roster) -> Result<Entries, Refusal>
    requires { length players.now ≤ 6 }
    ensures entries { IfOk result (λ entries. entries ≡ opened players.now roster.now) }
    ensures memory { IsOkUnless result OutOfMemory }
{
    let mut entries = Entries::new(alloc);
    pay_players(players.len() as u8, &mut entries)?;
    offer_privates(&mut entries)?;
    offer_all_shares(&roster.corporations(), &mut entries)?;
    offer_trains(roster, &mut entries)?;
    let names = names_of(alloc, players)?;
    entries.push(Entry::Step(Marker::Auction(names)))?;
    Ok(entries)
}

// The bank pays each of n players the starting money.
fn pay_players(players: u8, entries: &mut Entries) -> Result<(), Refusal>
    ensures ok { OnOk result (entries.new ≡ entries.old ++ opening_payments players) }
    ensures memory { IsOkUnless result OutOfMemory }
{
    let amount = starting_money(players);
    for seat in 0..players {
        entries.push(Entry::Pay {
            from: Party::Bank,
            to: Party::Seat(Seat(seat)),
            amount,
        })?;
    }
    Ok(())
}

// A certificate goes to the offering.
fn offer(cert: Cert, entries: &mut Entries) -> Result<(), Refusal>
    ensures ok { OnOk result (entries.new ≡ entries.old ++ offered cert ∷ []) }
    ensures memory { IsOkUnless result OutOfMemory }
{
    entries.push(Entry::Move {
        cert,
        to: Place::Offer,
    })
}

// All privates are offered.
fn offer_privates(entries: &mut Entries) -> Result<(), Refusal>
    ensures ok { OnOk result (entries.new ≡ entries.old ++ flat_map (λ private. offered (Cert.Private private) ∷ []) privates) }
    ensures memory { IsOkUnless result OutOfMemory }
{
    for private in &Private::ALL {
        offer(Cert::Private(*private), entries)?;
    }
    Ok(())
}

// All certificates of these corporations are offered.
fn offer_all_shares(order: &[Corp], entries: &mut Entries) -> Result<(), Refusal>
    ensures ok { OnOk result (entries.new ≡ entries.old ++ flat_map (λ corp. map offered (certificates_of corp)) order.now) }
    ensures memory { IsOkUnless result OutOfMemory }
{
    for corp in order {
        offer_shares(*corp, entries)?;
    }
    Ok(())
}

fn offer_shares(corp: Corp, entries: &mut Entries) -> Result<(), Refusal>
    ensures ok { OnOk result (entries.new ≡ entries.old ++ map offered (certificates_of corp)) }
    ensures memory { IsOkUnless result OutOfMemory }
{
    offer(Cert::President(corp), entries)?;
    for number in &ShareNumber::ALL {
        offer(Cert::Share(corp, *number), entries)?;
    }
    Ok(())
}

// All trains are offered, the smallest kind first.
fn offer_trains(roster: &Roster, entries: &mut Entries) -> Result<(), Refusal>
    ensures ok { OnOk result (entries.new ≡ entries.old ++ opening_trains roster.now) }
    ensures memory { IsOkUnless result OutOfMemory }
{
    for kind in &Kind::ALL {
        offer_kind(*kind, roster.count(*kind), entries)?;
    }
    Ok(())
}

fn offer_kind(kind: Kind, count: u8, entries: &mut Entries) -> Result<(), Refusal>
    requires { count ≤ 20 }
    ensures ok { OnOk result (entries.new ≡ entries.old ++ map (train_offered kind) (range_with_len 1 count)) }
    ensures memory { IsOkUnless result OutOfMemory }
{
    for before in 0..count {
        entries.push(Entry::Train {
            train: Train {
                kind,
                number: before + 1,
            },
            to: Place::Offer,
        })?;
    }
    Ok(())
}

fn names_of(alloc: Global, players: &[Name]) -> Result<Names, Refusal>
    ensures names { IfOk result (λ names. names ≡ players.now) }
    ensures memory { IsOkUnless result OutOfMemory }
{
    let mut names = Names::new(alloc);
    for player in players {
        names.push(*player)?;
    }
    Ok(names)
}
