//! The net over which a corporation runs now.
ghost use Rattle.std.specs.Prelude.{◌≡◌, ℕ, ◌≤◌, ◌++◌, length, IfOk, OnOk, vec_len, ◌+◌};
ghost use Rattle.rr_books.specs.Book.{Book, train_holder};
ghost use Rattle.rr_books.specs.State.{IsStateOf, train_place_of};
ghost use Rattle.rr_desk.specs.Position.Position.{IsPositionOf};
ghost use Rattle.rr_routes.specs.Net.{value};
ghost use Rattle.rr_running.specs.Running.{kinds_held, net_now, of_kind};

use crate::net::net_on_board;
use rr_books::{Books, Corp, Kind, Place};
use rr_checker::Net;
use rr_desk::Position;
use rr_kit::Kit;
use rr_kit::board::MOST_CENTRES;
use rr_trains::{phase, trains_at};
use std::alloc::{AllocError, Global};

/// The kinds of the corporation's trains, each as often as it has one, the smallest first.
///
/// # Errors
///
/// Want of memory.
pub fn kinds_held(alloc: Global, books: &Books, corp: Corp) -> Result<Vec<Kind>, AllocError>
    ensures shown { IfOk result (λ kinds. kinds.items ≡ kinds_held (train_place_of books.now) corp) }
    ensures book { IfOk result (λ kinds. (book : Book) → IsStateOf book books.now → kinds.items ≡ kinds_held (train_holder book) corp) }
    ensures bound { IfOk result (λ kinds. vec_len kinds ≤ 120) }
{
    let mut held = Vec::new(alloc);
    for kind in Kind::ALL {
        add_kind(&mut held, books, corp, kind)?;
    }
    Ok(held)
}

// Adds the kind as often as the corporation has a train of it.
fn add_kind(held: &mut Vec<Kind>, books: &Books, corp: Corp, kind: Kind) -> Result<(), AllocError>
    ensures items { OnOk result (held.new.items ≡ held.old.items ++ of_kind (train_place_of books.now) corp kind) }
    ensures bound { OnOk result (vec_len held.new ≤ vec_len held.old + 20) }
{
    let count = trains_at(books, Place::Corp(corp), kind);
    for train in 0..count {
        held.push(kind)?;
    }
    Ok(())
}

/// The net over which the corporation runs its trains on the board as it lies now. It has at most 120 trains and 65,536
/// centres, each worth at most 990.
///
/// # Errors
///
/// Want of memory, and a network of more than 65,536 centres, which no board has.
pub fn net_now(alloc: Global, kit: &Kit, position: &Position, corp: Corp) -> Result<Net, AllocError>
    ensures net { IfOk result (λ net. (book : Book) → IsPositionOf book position.now → net ≡ net_now kit.now.board kit.now.tiles book corp) }
    ensures values { IfOk result (λ net. (centre : ℕ) → value net centre ≤ 990) }
    ensures centres { IfOk result (λ net. length net.values ≤ MOST_CENTRES) }
    ensures trains { IfOk result (λ net. length net.trains ≤ 120) }
{
    let books = position.books();
    let kinds = kinds_held(alloc, books, corp)?;
    let phase = phase(books);
    let net = net_on_board(
        alloc,
        kit.board(),
        kit.tiles(),
        position.layout(),
        corp,
        &kinds,
        phase,
    )?;
    if MOST_CENTRES < net.values().len() {
        return Err(AllocError);
    }
    Ok(net)
}
