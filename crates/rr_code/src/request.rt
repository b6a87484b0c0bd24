//! Requests: the commands of a game, and those that take its table back.
ghost use Rattle.std.specs.Prelude.{◌≡◌, ℕ, List, [], ◌∷◌, ◌++◌, codes, decimal, IfSome, MatchResult, OnOk, OnErr, IsOkUnless};
ghost use Rattle.rr_orders.specs.Scan.Writing.{Continues};
ghost use Rattle.rr_words.specs.Line.{line_of};
ghost use Rattle.rr_words.specs.Name.{IsTableName};
ghost use Rattle.rr_code.specs.Request.{IsRequest, SpellsRecord, request_text, request_words};
ghost use Rattle.rr_code.specs.Reading.{read_back, read_forget, read_record_words, read_request_words};
ghost use Rattle.rr_code.specs.declared.command.Command.{Command as Played};
ghost use Rattle.rr_turns.specs.declared.request.Request.{Request as Asked};

use crate::command::Command;
use crate::fault::Fault;
use rr_orders::scan::{Words, next_table, write_number};
use rr_turns::Request;
use rr_words::{Name, number};
use std::alloc::AllocError;

fn request_from_words<'a>(words: &mut Words<'a>) -> Option<Request<Command<'a>>>
    ensures exact { result ≡ read_request_words words.old }
    ensures found { IfSome result (λ r. IsRequest r × (words.old ≡ request_words r)) }
{
    let head = words.next()?;
    request_named(head, words)
}

/// The request with this first word, and these behind it.
pub(crate) fn request_named<'a>(head: &[u8], words: &mut Words<'a>) -> Option<Request<Command<'a>>>
    ensures exact { result ≡ read_request_words (head.now ∷ words.old) }
    ensures found { IfSome result (λ r. IsRequest r × (head.now ∷ words.old ≡ request_words r)) }
{
    if head == b"back".as_slice() {
        return read_back(words);
    }
    if head == b"forget".as_slice() {
        return read_forget(words);
    }
    let command = Command::named(head, words)?;
    Some(Request::Play(command))
}

fn read_back<'a>(words: &mut Words<'a>) -> Option<Request<Command<'a>>>
    ensures exact { result ≡ read_back words.old }
    ensures found { IfSome result (λ r. IsRequest r × (codes "back" ∷ words.old ≡ request_words r)) }
{
    let turn = number(words.last()?)?;
    Some(Request::Back(turn))
}

fn read_forget<'a>(words: &mut Words<'a>) -> Option<Request<Command<'a>>>
    ensures exact { result ≡ read_forget words.old }
    ensures found { IfSome result (λ r. IsRequest r × (codes "forget" ∷ words.old ≡ request_words r)) }
{
    let turn = number(words.last()?)?;
    Some(Request::Forget(turn))
}

/// Appends the request's words, as a line has them behind its table's name.
///
/// # Errors
/// `OutOfMemory` where `out` can't grow; its bytes are then as they were.
pub fn write_request(request: &Request<Command>, out: &mut Vec<u8>) -> Result<(), Fault>
    ensures ok { OnOk result (out.new.items ≡ out.old.items ++ request_text request.now) }
    ensures err { OnErr result (out.new.items ≡ out.old.items) }
    ensures memory { IsOkUnless result Fault.OutOfMemory }
{
    match request {
        Request::Play(command) => command.write(out),
        Request::Back(turn) => write_turn(b"back", *turn, out),
        Request::Forget(turn) => write_turn(b"forget", *turn, out),
    }
}

fn write_turn(head: &[u8], turn: u64, out: &mut Vec<u8>) -> Result<(), Fault>
    ensures ok { OnOk result (out.new.items ≡ out.old.items ++ line_of (head.now ∷ decimal turn ∷ [])) }
    ensures err { OnErr result (out.new.items ≡ out.old.items) }
    ensures memory { IsOkUnless result Fault.OutOfMemory }
{
    let before = out.len();
    if write_turn_words(head, turn, out).is_err() {
        out.truncate(before);
        return Err(Fault::OutOfMemory);
    }
    Ok(())
}

fn write_turn_words(head: &[u8], turn: u64, out: &mut Vec<u8>) -> Result<(), AllocError>
    ensures ok { OnOk result (out.new.items ≡ out.old.items ++ line_of (head.now ∷ decimal turn ∷ [])) }
    ensures kept { Continues out.old.items out.new.items }
{
    out.extend_from_slice(head)?;
    write_number(turn, out)
}

/// Reads a journal's record: the name of a table, and the words of a request. The words of a run are lent from the
/// record.
///
/// # Errors
/// `Malformed` where the bytes are no record's text.
pub fn read_record(bytes: &[u8]) -> Result<(Name, Request<Command<'_>>), Fault>
    ensures found { MatchResult result (λ r. SpellsRecord bytes.now r.0 r.1) (λ fault. fault ≡ Fault.Malformed) }
    ensures only { (table : List ℕ) (r : Asked Played) → SpellsRecord bytes.now table r → result ≡ Ok (table, r) }
{
    let mut words = Words::of(bytes);
    record_from_words(&mut words).ok_or(Fault::Malformed)
}

fn record_from_words<'a>(words: &mut Words<'a>) -> Option<(Name, Request<Command<'a>>)>
    ensures exact { result ≡ read_record_words words.old }
    ensures found { IfSome result (λ r. IsTableName r.0 × IsRequest r.1 × (words.old ≡ r.0 ∷ request_words r.1)) }
{
    let table = next_table(words)?;
    let request = request_from_words(words)?;
    Some((table, request))
}
