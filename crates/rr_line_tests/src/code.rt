mod lines;
mod orders;
mod texts;

use crate::calls::{check, player, table};
use rr_code::{Command, Line, Query, Request, read_record, write_request};
use rr_roster::{Corp, Private, ShareSource};
use rr_words::Name;
use std::process::Abort;

/// What a player does by a command. No name is in it, so that a static can hold it.
#[derive(Clone, Copy)]
enum Deed {
    BuyPrivate,
    Bid(Private, u64),
    Pass,
    Par(Corp, u64),
    BuyShare(Corp, ShareSource),
    Sell(Corp, u64),
    Swap(ShareSource),
    Done,
}

impl Deed {
    /// The command by which this player does it.
    fn command_of(self, player: Name) -> Command<'static> {
        match self {
            Deed::BuyPrivate => Command::BuyPrivate { player },
            Deed::Bid(private, amount) => Command::Bid {
                player,
                private,
                amount,
            },
            Deed::Pass => Command::Pass { player },
            Deed::Par(corp, price) => Command::Par {
                player,
                corp,
                price,
            },
            Deed::BuyShare(corp, source) => Command::BuyShare {
                player,
                corp,
                source,
            },
            Deed::Sell(corp, count) => Command::Sell {
                player,
                corp,
                count,
            },
            Deed::Swap(source) => Command::Swap { player, source },
            Deed::Done => Command::Done { player },
        }
    }
}

// The calls below have no contracts, so that what a test does costs its proof little.

fn is_query(text: &str, want: Query) -> bool {
    match &Line::read(text.as_bytes()) {
        Ok(Line::Query(query)) => *query == want,
        _ => false,
    }
}

// Whether the text wants a best run, with this stamp, at this table, of this corporation.
fn is_best(text: &str, want: (u64, Name, Corp)) -> bool {
    match &Line::read(text.as_bytes()) {
        Ok(Line::Best { stamp, table, corp }) => (*stamp, *table, *corp) == want,
        _ => false,
    }
}

// A function of its own, since its proof goes through each variant. Lines have more, and are compared by their parts.
fn is_same(request: &Request<Command>, want: &Request<Command>) -> bool {
    *request == *want
}

// Whether the text asks this, with this stamp and at this table.
fn is_asked(text: &str, want: (u64, Name), asked: &Request<Command>) -> bool {
    match &Line::read(text.as_bytes()) {
        Ok(
            Line::Request {
                stamp,
                table,
                request,
            },
        ) => (*stamp, *table) == want && is_same(request, asked),
        _ => false,
    }
}

// Whether the text is the record of this request at the table t1.
fn is_record(rt: &impl Abort, text: &str, want: &Request<Command>) -> bool {
    match &read_record(text.as_bytes()) {
        Ok((name, request)) => *name == table(rt) && is_same(request, want),
        Err(_) => false,
    }
}

// Bytes behind which something is written.
fn begun(rt: &(impl Abort + AllocGlobal)) -> Vec<u8> {
    let mut bytes = Vec::new(rt.alloc());
    bytes.push(b'>').expect(rt, "memory");
    bytes
}

// Whether the text was written behind those bytes.
fn is_behind(written: &[u8], text: &str) -> bool {
    written.first() == Some(&b'>') && written.get(1..) == Some(text.as_bytes())
}

// Whether the request is written so, behind what is written already.
fn is_request_written(
    rt: &(impl Abort + AllocGlobal),
    request: &Request<Command>,
    text: &str,
) -> bool {
    let mut written = begun(rt);
    write_request(request, &mut written).expect(rt, "memory");
    is_behind(&written, text)
}

// Whether the command is written so, behind what is written already.
fn is_written(rt: &(impl Abort + AllocGlobal), command: &Command, text: &str) -> bool {
    let mut written = begun(rt);
    command.write(&mut written).expect(rt, "memory");
    is_behind(&written, text)
}

fn is_read_as(text: &str, want: &Command) -> bool {
    match Command::read(text.as_bytes()) {
        Ok(command) => command == *want,
        Err(_) => false,
    }
}

// Whether the text is read as this command, which is written so.
fn is_both(rt: &(impl Abort + AllocGlobal), text: &str, command: &Command) -> bool {
    is_read_as(text, command) && is_written(rt, command, text)
}

// Stops at a text that isn't read as what the player of this name does, or isn't written of it.
fn check_deeds(rt: &(impl Abort + AllocGlobal), name: &str, deeds: &[(&str, Deed)]) {
    let player = player(rt, name);
    for &(text, deed) in deeds {
        check(rt, text, is_both(rt, text, &deed.command_of(player)), true);
    }
}
