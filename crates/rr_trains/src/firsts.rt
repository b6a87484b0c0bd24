ghost use Rattle.std.specs.Prelude.{◌≡◌, OnOk, OnErr, IfErr};
ghost use Rattle.rr_desk.specs.Desk.{AddsSome, Takes};
ghost use Rattle.rr_trains.specs.Effects.{all_close, all_rust, closes, closes_own_private, first_if, first_of_kind, first_train, is_in_game, moves_lowest_train, rusts};

use crate::places::{NUMBERS, lowest_train};
use rr_books::{Cert, Corp, Entry, Kind, Place, Private, Refusal, Train};
use rr_desk::Desk;

/// Moves the train of the kind with the lowest number at one place to another, if there is one.
///
/// # Errors
///
/// `OutOfMemory`, where there is one; the desk is as before then.
pub fn give_lowest_train(desk: &mut Desk, kind: Kind, from: Place, to: Place) -> Result<(), Refusal>
    ensures fault { IfErr result (λ fault. fault ≡ Refusal.OutOfMemory) }
    ensures takes { OnOk result (Takes (moves_lowest_train kind from to) desk.old desk.new) }
    ensures err { OnErr result (desk.new ≡ desk.old) }
    ensures needed { OnErr result (AddsSome (moves_lowest_train kind from to) desk.old) }
{
    match lowest_train(desk.books(), from, kind) {
        Some(train) => desk.push(Entry::Train { train, to }),
        None => Ok(()),
    }
}

/// What a corporation's new train of the kind brings about, once it is bought. With the first 4 that leaves the bank
/// all 2s leave the game, with the first 6 all 3s, with the first D all 4s, and with the first 5 all privates close;
/// the B&O's private closes with the B&O's first train. What has left the game gets no second entry.
///
/// `is_first` says that no train of the kind had left the bank before, and that this one came from there.
///
/// # Errors
///
/// `OutOfMemory`; some trains and privates may have left the game then.
#[tactic(auto, unfolding(crate::specs::Effects::first_train))]
pub fn first_train(desk: &mut Desk, is_first: bool, kind: Kind, corp: Corp) -> Result<(), Refusal>
    ensures fault { IfErr result (λ fault. fault ≡ Refusal.OutOfMemory) }
    ensures takes { OnOk result (Takes (first_train is_first kind corp) desk.old desk.new) }
{
    first_if(desk, is_first, kind)?;
    close_own_private(desk, corp)?;
    Ok(())
}

fn first_if(desk: &mut Desk, is_first: bool, kind: Kind) -> Result<(), Refusal>
    ensures fault { IfErr result (λ fault. fault ≡ Refusal.OutOfMemory) }
    ensures takes { OnOk result (Takes (first_if is_first kind) desk.old desk.new) }
{
    if !is_first {
        return Ok(());
    }
    first_of_kind(desk, kind)?;
    Ok(())
}

fn first_of_kind(desk: &mut Desk, kind: Kind) -> Result<(), Refusal>
    ensures fault { IfErr result (λ fault. fault ≡ Refusal.OutOfMemory) }
    ensures takes { OnOk result (Takes (first_of_kind kind) desk.old desk.new) }
{
    match kind {
        Kind::Two | Kind::Three => Ok(()),
        Kind::Four => rust_all(desk, Kind::Two),
        Kind::Five => close_all(desk),
        Kind::Six => rust_all(desk, Kind::Three),
        Kind::Diesel => rust_all(desk, Kind::Four),
    }
}

// All trains of the kind leave the game.
#[tactic(auto, unfolding(crate::specs::Effects::all_rust))]
fn rust_all(desk: &mut Desk, kind: Kind) -> Result<(), Refusal>
    ensures fault { IfErr result (λ fault. fault ≡ Refusal.OutOfMemory) }
    ensures takes { OnOk result (Takes (all_rust kind) desk.old desk.new) }
{
    for number in NUMBERS {
        rust(desk, kind, number)?;
    }
    Ok(())
}

// The train leaves the game, unless it has.
#[tactic(auto, unfolding(crate::specs::Effects::rusts))]
fn rust(desk: &mut Desk, kind: Kind, number: u8) -> Result<(), Refusal>
    ensures fault { IfErr result (λ fault. fault ≡ Refusal.OutOfMemory) }
    ensures takes { OnOk result (Takes (rusts kind number) desk.old desk.new) }
{
    let train = Train { kind, number };
    if !is_in_game(desk.books().train_holder(train)) {
        return Ok(());
    }
    desk.push(Entry::Train {
        train,
        to: Place::Gone,
    })?;
    Ok(())
}

// All privates close.
#[tactic(auto, unfolding(crate::specs::Effects::all_close))]
fn close_all(desk: &mut Desk) -> Result<(), Refusal>
    ensures fault { IfErr result (λ fault. fault ≡ Refusal.OutOfMemory) }
    ensures takes { OnOk result (Takes all_close desk.old desk.new) }
{
    for private in Private::ALL {
        close(desk, private)?;
    }
    Ok(())
}

fn close_own_private(desk: &mut Desk, corp: Corp) -> Result<(), Refusal>
    ensures fault { IfErr result (λ fault. fault ≡ Refusal.OutOfMemory) }
    ensures takes { OnOk result (Takes (closes_own_private corp) desk.old desk.new) }
{
    match corp {
        Corp::Bo => close(desk, Private::Bo),
        _ => Ok(()),
    }
}

// The private closes, unless it has.
#[tactic(auto, unfolding(crate::specs::Effects::closes))]
fn close(desk: &mut Desk, private: Private) -> Result<(), Refusal>
    ensures fault { IfErr result (λ fault. fault ≡ Refusal.OutOfMemory) }
    ensures takes { OnOk result (Takes (closes private) desk.old desk.new) }
{
    if desk.books().holder(Cert::Private(private)) == Place::Gone {
        return Ok(());
    }
    desk.push(Entry::Move {
        cert: Cert::Private(private),
        to: Place::Gone,
    })?;
    Ok(())
}

fn is_in_game(place: Option<Place>) -> bool
    ensures { result ≡ is_in_game place }
{
    match place {
        Some(place) => place != Place::Gone,
        None => false,
    }
}
