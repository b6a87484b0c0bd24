//! The commands of a stock round: reading their words behind the first, and writing them.
ghost use Rattle.std.specs.Prelude.{◌≡◌, ◌∷◌, ◌++◌, codes, IfSome, OnOk};
ghost use Rattle.rr_orders.specs.Scan.Writing.{Continues};
ghost use Rattle.rr_code.specs.Command.{IsCommand, source_word, spelling, text};
ghost use Rattle.rr_code.specs.Reading.{source_of, read_buy, read_sell, read_swap, read_done};

use crate::command::Command;
use rr_orders::scan::{Words, next_player, read_corp, write_number, write_word};
use rr_roster::{Corp, ShareSource};
use rr_words::{Name, number};
use std::alloc::AllocError;

fn read_source(word: &[u8]) -> Option<ShareSource>
    ensures exact { result ≡ source_of word.now }
    ensures found { IfSome result (λ source. word.now ≡ source_word source) }
{
    if word == b"offer".as_slice() {
        return Some(ShareSource::Offer);
    }
    if word == b"pool".as_slice() {
        return Some(ShareSource::Pool);
    }
    None
}

fn source_name(source: ShareSource) -> &'static str
    ensures { result.now ≡ source_word source }
{
    match source {
        ShareSource::Offer => "offer",
        ShareSource::Pool => "pool",
    }
}

/// A player's name alone is a purchase of the auction.
pub fn read_buy<'a>(words: &mut Words<'a>) -> Option<Command<'a>>
    ensures exact { result ≡ read_buy words.old }
    ensures found { IfSome result (λ c. IsCommand c × (codes "buy" ∷ words.old ≡ spelling c)) }
{
    let player = next_player(words)?;
    let Some(word) = words.next() else {
        return Some(Command::BuyPrivate { player });
    };
    let corp = read_corp(word)?;
    let source = read_source(words.last()?)?;
    Some(Command::BuyShare {
        player,
        corp,
        source,
    })
}

pub fn read_sell<'a>(words: &mut Words<'a>) -> Option<Command<'a>>
    ensures exact { result ≡ read_sell words.old }
    ensures found { IfSome result (λ c. IsCommand c × (codes "sell" ∷ words.old ≡ spelling c)) }
{
    let player = next_player(words)?;
    let corp = read_corp(words.next()?)?;
    let count = number(words.last()?)?;
    Some(Command::Sell {
        player,
        corp,
        count,
    })
}

pub fn read_swap<'a>(words: &mut Words<'a>) -> Option<Command<'a>>
    ensures exact { result ≡ read_swap words.old }
    ensures found { IfSome result (λ c. IsCommand c × (codes "swap" ∷ words.old ≡ spelling c)) }
{
    let player = next_player(words)?;
    let source = read_source(words.last()?)?;
    Some(Command::Swap { player, source })
}

pub fn read_done<'a>(words: &mut Words<'a>) -> Option<Command<'a>>
    ensures exact { result ≡ read_done words.old }
    ensures found { IfSome result (λ c. IsCommand c × (codes "done" ∷ words.old ≡ spelling c)) }
{
    let player = Name::player(words.last()?)?;
    Some(Command::Done { player })
}

pub fn write_buy(
    player: &Name,
    corp: Corp,
    source: ShareSource,
    out: &mut Vec<u8>,
) -> Result<(), AllocError>
    ensures ok { OnOk result (out.new.items ≡ out.old.items ++ text (Command.BuyShare player.now corp source)) }
    ensures kept { Continues out.old.items out.new.items }
{
    out.extend_from_slice(b"buy")?;
    write_word(player.as_bytes(), out)?;
    write_word(corp.name().as_bytes(), out)?;
    write_word(source_name(source).as_bytes(), out)
}

pub fn write_sell(
    player: &Name,
    corp: Corp,
    count: u64,
    out: &mut Vec<u8>,
) -> Result<(), AllocError>
    ensures ok { OnOk result (out.new.items ≡ out.old.items ++ text (Command.Sell player.now corp count)) }
    ensures kept { Continues out.old.items out.new.items }
{
    out.extend_from_slice(b"sell")?;
    write_word(player.as_bytes(), out)?;
    write_word(corp.name().as_bytes(), out)?;
    write_number(count, out)
}

pub fn write_swap(player: &Name, source: ShareSource, out: &mut Vec<u8>) -> Result<(), AllocError>
    ensures ok { OnOk result (out.new.items ≡ out.old.items ++ text (Command.Swap player.now source)) }
    ensures kept { Continues out.old.items out.new.items }
{
    out.extend_from_slice(b"swap")?;
    write_word(player.as_bytes(), out)?;
    write_word(source_name(source).as_bytes(), out)
}

pub fn write_done(player: &Name, out: &mut Vec<u8>) -> Result<(), AllocError>
    ensures ok { OnOk result (out.new.items ≡ out.old.items ++ text (Command.Done player.now)) }
    ensures kept { Continues out.old.items out.new.items }
{
    out.extend_from_slice(b"done")?;
    write_word(player.as_bytes(), out)
}
