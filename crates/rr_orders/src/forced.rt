//! A train that a corporation must buy: reading the words behind the first, and writing them.
ghost use Rattle.std.specs.Prelude.{◌≡◌, ◌∷◌, ◌++◌, codes, IfSome, OnOk};
ghost use Rattle.rr_orders.specs.Scan.Writing.{Continues};
ghost use Rattle.rr_orders.specs.Order.{IsOrder, spelling, text};
ghost use Rattle.rr_orders.specs.Reading.{read_alone, read_bankrupt, read_raise};

use crate::order::Order;
use crate::scan::{Words, next_player, read_corp, write_number, write_word};
use rr_roster::Corp;
use rr_words::{Name, number};
use std::alloc::AllocError;

pub fn read_force<'a>(words: &mut Words<'a>) -> Option<Order<'a>>
    ensures exact { result ≡ read_alone Order.Force words.old }
    ensures found { IfSome result (λ order. IsOrder order × (codes "force" ∷ words.old ≡ spelling order)) }
{
    let corp = read_corp(words.last()?)?;
    Some(Order::Force { corp })
}

pub fn read_raise<'a>(words: &mut Words<'a>) -> Option<Order<'a>>
    ensures exact { result ≡ read_raise words.old }
    ensures found { IfSome result (λ order. IsOrder order × (codes "raise" ∷ words.old ≡ spelling order)) }
{
    let player = next_player(words)?;
    let corp = read_corp(words.next()?)?;
    let count = number(words.last()?)?;
    Some(Order::Raise {
        player,
        corp,
        count,
    })
}

pub fn read_bankrupt<'a>(words: &mut Words<'a>) -> Option<Order<'a>>
    ensures exact { result ≡ read_bankrupt words.old }
    ensures found { IfSome result (λ order. IsOrder order × (codes "bankrupt" ∷ words.old ≡ spelling order)) }
{
    let player = Name::player(words.last()?)?;
    Some(Order::Bankrupt { player })
}

pub fn write_force(corp: Corp, out: &mut Vec<u8>) -> Result<(), AllocError>
    ensures ok { OnOk result (out.new.items ≡ out.old.items ++ text (Order.Force corp)) }
    ensures kept { Continues out.old.items out.new.items }
{
    out.extend_from_slice(b"force")?;
    write_word(corp.name().as_bytes(), out)
}

pub fn write_raise(
    player: &Name,
    corp: Corp,
    count: u64,
    out: &mut Vec<u8>,
) -> Result<(), AllocError>
    ensures ok { OnOk result (out.new.items ≡ out.old.items ++ text (Order.Raise player.now corp count)) }
    ensures kept { Continues out.old.items out.new.items }
{
    out.extend_from_slice(b"raise")?;
    write_word(player.as_bytes(), out)?;
    write_word(corp.name().as_bytes(), out)?;
    write_number(count, out)
}

pub fn write_bankrupt(player: &Name, out: &mut Vec<u8>) -> Result<(), AllocError>
    ensures ok { OnOk result (out.new.items ≡ out.old.items ++ text (Order.Bankrupt player.now)) }
    ensures kept { Continues out.old.items out.new.items }
{
    out.extend_from_slice(b"bankrupt")?;
    write_word(player.as_bytes(), out)
}
