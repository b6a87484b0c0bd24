//! Trains: reading the words behind the first, and writing them.
ghost use Rattle.std.specs.Prelude.{◌≡◌, ◌∷◌, ◌++◌, codes, IfSome, OnOk};
ghost use Rattle.rr_roster.specs.Company.{kind_name};
ghost use Rattle.rr_orders.specs.Scan.Writing.{Continues};
ghost use Rattle.rr_orders.specs.Order.{IsOrder, spelling, text, source_word};
ghost use Rattle.rr_orders.specs.Reading.{kind_of, read_kind, read_train, source_of};

use crate::order::Order;
use crate::scan::{Words, next_player, read_corp, write_number, write_word};
use rr_roster::{Corp, Kind, TrainSource};
use rr_words::{Name, number};
use std::alloc::AllocError;

fn read_source(word: &[u8]) -> Option<TrainSource>
    ensures exact { result ≡ source_of word.now }
    ensures found { IfSome result (λ source. word.now ≡ source_word source) }
{
    if word == b"bank".as_slice() {
        return Some(TrainSource::Bank);
    }
    if word == b"pool".as_slice() {
        return Some(TrainSource::Pool);
    }
    None
}

fn source_name(source: TrainSource) -> &'static str
    ensures { result.now ≡ source_word source }
{
    match source {
        TrainSource::Bank => "bank",
        TrainSource::Pool => "pool",
    }
}

fn read_kind(word: &[u8]) -> Option<Kind>
    ensures exact { result ≡ kind_of word.now }
    ensures found { IfSome result (λ kind. word.now ≡ kind_name kind) }
{
    Kind::from_name(word)
}

/// One word behind the kind is a place, more are a corporation that sells.
pub fn read_train<'a>(words: &mut Words<'a>) -> Option<Order<'a>>
    ensures exact { result ≡ read_train words.old }
    ensures found { IfSome result (λ order. IsOrder order × (codes "train" ∷ words.old ≡ spelling order)) }
{
    let corp = read_corp(words.next()?)?;
    let kind = read_kind(words.next()?)?;
    let word = words.next()?;
    if words.end().is_some() {
        let source = read_source(word)?;
        return Some(Order::BuyTrain { corp, kind, source });
    }
    let seller = read_corp(word)?;
    let price = number(words.next()?)?;
    let buyer_president = next_player(words)?;
    let seller_president = Name::player(words.last()?)?;
    Some(Order::BuyTrainFrom {
        corp,
        kind,
        seller,
        price,
        buyer_president,
        seller_president,
    })
}

pub fn read_trade<'a>(words: &mut Words<'a>) -> Option<Order<'a>>
    ensures exact { result ≡ read_kind Order.Trade words.old }
    ensures found { IfSome result (λ order. IsOrder order × (codes "trade" ∷ words.old ≡ spelling order)) }
{
    let corp = read_corp(words.next()?)?;
    let kind = read_kind(words.last()?)?;
    Some(Order::Trade { corp, kind })
}

pub fn read_drop<'a>(words: &mut Words<'a>) -> Option<Order<'a>>
    ensures exact { result ≡ read_kind Order.Discard words.old }
    ensures found { IfSome result (λ order. IsOrder order × (codes "drop" ∷ words.old ≡ spelling order)) }
{
    let corp = read_corp(words.next()?)?;
    let kind = read_kind(words.last()?)?;
    Some(Order::Discard { corp, kind })
}

pub fn write_train(
    corp: Corp,
    kind: Kind,
    source: TrainSource,
    out: &mut Vec<u8>,
) -> Result<(), AllocError>
    ensures ok { OnOk result (out.new.items ≡ out.old.items ++ text (Order.BuyTrain corp kind source)) }
    ensures kept { Continues out.old.items out.new.items }
{
    out.extend_from_slice(b"train")?;
    write_word(corp.name().as_bytes(), out)?;
    write_word(kind.name().as_bytes(), out)?;
    write_word(source_name(source).as_bytes(), out)
}

pub fn write_train_from(
    corp: Corp,
    kind: Kind,
    seller: Corp,
    price: u64,
    buyer_president: &Name,
    seller_president: &Name,
    out: &mut Vec<u8>,
) -> Result<(), AllocError>
    ensures ok { OnOk result (out.new.items ≡ out.old.items ++ text (Order.BuyTrainFrom corp kind seller price buyer_president.now seller_president.now)) }
    ensures kept { Continues out.old.items out.new.items }
{
    out.extend_from_slice(b"train")?;
    write_word(corp.name().as_bytes(), out)?;
    write_word(kind.name().as_bytes(), out)?;
    write_word(seller.name().as_bytes(), out)?;
    write_number(price, out)?;
    write_word(buyer_president.as_bytes(), out)?;
    write_word(seller_president.as_bytes(), out)
}

pub fn write_trade(corp: Corp, kind: Kind, out: &mut Vec<u8>) -> Result<(), AllocError>
    ensures ok { OnOk result (out.new.items ≡ out.old.items ++ text (Order.Trade corp kind)) }
    ensures kept { Continues out.old.items out.new.items }
{
    out.extend_from_slice(b"trade")?;
    write_word(corp.name().as_bytes(), out)?;
    write_word(kind.name().as_bytes(), out)
}

pub fn write_drop(corp: Corp, kind: Kind, out: &mut Vec<u8>) -> Result<(), AllocError>
    ensures ok { OnOk result (out.new.items ≡ out.old.items ++ text (Order.Discard corp kind)) }
    ensures kept { Continues out.old.items out.new.items }
{
    out.extend_from_slice(b"drop")?;
    write_word(corp.name().as_bytes(), out)?;
    write_word(kind.name().as_bytes(), out)
}
