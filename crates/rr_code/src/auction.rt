//! The commands of the auction: reading their words behind the first, and writing them.
ghost use Rattle.std.specs.Prelude.{◌≡◌, ◌∷◌, ◌++◌, codes, IfSome, OnOk};
ghost use Rattle.rr_orders.specs.Scan.Writing.{Continues};
ghost use Rattle.rr_code.specs.Command.{IsCommand, spelling, text};
ghost use Rattle.rr_code.specs.Reading.{read_bid, read_pass, read_par};

use crate::command::Command;
use rr_orders::scan::{Words, next_player, read_corp, read_private, write_number, write_word};
use rr_roster::{Corp, Private};
use rr_words::{Name, number};
use std::alloc::AllocError;

pub fn read_bid<'a>(words: &mut Words<'a>) -> Option<Command<'a>>
    ensures exact { result ≡ read_bid words.old }
    ensures found { IfSome result (λ c. IsCommand c × (codes "bid" ∷ words.old ≡ spelling c)) }
{
    let player = next_player(words)?;
    let private = read_private(words.next()?)?;
    let amount = number(words.last()?)?;
    Some(Command::Bid {
        player,
        private,
        amount,
    })
}

pub fn read_pass<'a>(words: &mut Words<'a>) -> Option<Command<'a>>
    ensures exact { result ≡ read_pass words.old }
    ensures found { IfSome result (λ c. IsCommand c × (codes "pass" ∷ words.old ≡ spelling c)) }
{
    let player = Name::player(words.last()?)?;
    Some(Command::Pass { player })
}

pub fn read_par<'a>(words: &mut Words<'a>) -> Option<Command<'a>>
    ensures exact { result ≡ read_par words.old }
    ensures found { IfSome result (λ c. IsCommand c × (codes "par" ∷ words.old ≡ spelling c)) }
{
    let player = next_player(words)?;
    let corp = read_corp(words.next()?)?;
    let price = number(words.last()?)?;
    Some(Command::Par {
        player,
        corp,
        price,
    })
}

pub fn write_buy(player: &Name, out: &mut Vec<u8>) -> Result<(), AllocError>
    ensures ok { OnOk result (out.new.items ≡ out.old.items ++ text (Command.BuyPrivate player.now)) }
    ensures kept { Continues out.old.items out.new.items }
{
    out.extend_from_slice(b"buy")?;
    write_word(player.as_bytes(), out)
}

pub fn write_bid(
    player: &Name,
    private: Private,
    amount: u64,
    out: &mut Vec<u8>,
) -> Result<(), AllocError>
    ensures ok { OnOk result (out.new.items ≡ out.old.items ++ text (Command.Bid player.now private amount)) }
    ensures kept { Continues out.old.items out.new.items }
{
    out.extend_from_slice(b"bid")?;
    write_word(player.as_bytes(), out)?;
    write_word(private.name().as_bytes(), out)?;
    write_number(amount, out)
}

pub fn write_pass(player: &Name, out: &mut Vec<u8>) -> Result<(), AllocError>
    ensures ok { OnOk result (out.new.items ≡ out.old.items ++ text (Command.Pass player.now)) }
    ensures kept { Continues out.old.items out.new.items }
{
    out.extend_from_slice(b"pass")?;
    write_word(player.as_bytes(), out)
}

pub fn write_par(player: &Name, corp: Corp, price: u64, out: &mut Vec<u8>) -> Result<(), AllocError>
    ensures ok { OnOk result (out.new.items ≡ out.old.items ++ text (Command.Par player.now corp price)) }
    ensures kept { Continues out.old.items out.new.items }
{
    out.extend_from_slice(b"par")?;
    write_word(player.as_bytes(), out)?;
    write_word(corp.name().as_bytes(), out)?;
    write_number(price, out)
}
