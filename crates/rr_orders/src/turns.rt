//! Revenue, the purchase of a private, and the end of a turn: reading the words behind the first, and writing them.
ghost use Rattle.std.specs.Prelude.{◌≡◌, ◌∷◌, ◌++◌, codes, IfSome, OnOk};
ghost use Rattle.rr_orders.specs.Scan.Writing.{Continues};
ghost use Rattle.rr_orders.specs.Order.{IsOrder, spelling, text};
ghost use Rattle.rr_orders.specs.Reading.{read_alone, read_private};

use crate::order::Order;
use crate::scan::{Words, read_corp, read_private, write_number, write_word};
use rr_roster::{Corp, Private};
use rr_words::number;
use std::alloc::AllocError;

pub fn read_pay<'a>(words: &mut Words<'a>) -> Option<Order<'a>>
    ensures exact { result ≡ read_alone Order.PayOut words.old }
    ensures found { IfSome result (λ order. IsOrder order × (codes "pay" ∷ words.old ≡ spelling order)) }
{
    let corp = read_corp(words.last()?)?;
    Some(Order::PayOut { corp })
}

pub fn read_hold<'a>(words: &mut Words<'a>) -> Option<Order<'a>>
    ensures exact { result ≡ read_alone Order.Hold words.old }
    ensures found { IfSome result (λ order. IsOrder order × (codes "hold" ∷ words.old ≡ spelling order)) }
{
    let corp = read_corp(words.last()?)?;
    Some(Order::Hold { corp })
}

pub fn read_end<'a>(words: &mut Words<'a>) -> Option<Order<'a>>
    ensures exact { result ≡ read_alone Order.End words.old }
    ensures found { IfSome result (λ order. IsOrder order × (codes "end" ∷ words.old ≡ spelling order)) }
{
    let corp = read_corp(words.last()?)?;
    Some(Order::End { corp })
}

pub fn read_purchase<'a>(words: &mut Words<'a>) -> Option<Order<'a>>
    ensures exact { result ≡ read_private words.old }
    ensures found { IfSome result (λ order. IsOrder order × (codes "private" ∷ words.old ≡ spelling order)) }
{
    let corp = read_corp(words.next()?)?;
    let private = read_private(words.next()?)?;
    let price = number(words.last()?)?;
    Some(Order::TakePrivate {
        corp,
        private,
        price,
    })
}

pub fn write_pay(corp: Corp, out: &mut Vec<u8>) -> Result<(), AllocError>
    ensures ok { OnOk result (out.new.items ≡ out.old.items ++ text (Order.PayOut corp)) }
    ensures kept { Continues out.old.items out.new.items }
{
    out.extend_from_slice(b"pay")?;
    write_word(corp.name().as_bytes(), out)
}

pub fn write_hold(corp: Corp, out: &mut Vec<u8>) -> Result<(), AllocError>
    ensures ok { OnOk result (out.new.items ≡ out.old.items ++ text (Order.Hold corp)) }
    ensures kept { Continues out.old.items out.new.items }
{
    out.extend_from_slice(b"hold")?;
    write_word(corp.name().as_bytes(), out)
}

pub fn write_end(corp: Corp, out: &mut Vec<u8>) -> Result<(), AllocError>
    ensures ok { OnOk result (out.new.items ≡ out.old.items ++ text (Order.End corp)) }
    ensures kept { Continues out.old.items out.new.items }
{
    out.extend_from_slice(b"end")?;
    write_word(corp.name().as_bytes(), out)
}

pub fn write_purchase(
    corp: Corp,
    private: Private,
    price: u64,
    out: &mut Vec<u8>,
) -> Result<(), AllocError>
    ensures ok { OnOk result (out.new.items ≡ out.old.items ++ text (Order.TakePrivate corp private price)) }
    ensures kept { Continues out.old.items out.new.items }
{
    out.extend_from_slice(b"private")?;
    write_word(corp.name().as_bytes(), out)?;
    write_word(private.name().as_bytes(), out)?;
    write_number(price, out)
}
