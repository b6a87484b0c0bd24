//! What several of the tests share. Nothing here has a contract, so that what a test does costs its proof little.
use rr_code::{Command, Fault, Line, Order, Players, read_record};
use rr_words::Name;
use std::fmt::{Debug, Display};
use std::process::Abort;

/// Stops where a value is not the one that is wanted. A function, so that this is proved once for all tests.
pub(crate) fn check<T: Copy + Debug + PartialEq>(rt: &impl Abort, what: &str, found: T, wanted: T) {
    assert_eq!(rt; found, wanted, "{what}");
}

/// Stops where a value is shown in other words.
pub(crate) fn check_shown<T: Display>(rt: &(impl Abort + AllocGlobal), value: &T, words: &str) {
    let shown = format!(in rt.alloc(); "{value}").expect(rt, "memory");
    check(rt, "words", shown.as_str(), words);
}

/// The name of the table t1.
pub(crate) fn table(rt: &impl Abort) -> Name {
    Name::table(b"t1").expect(rt, "t1 is a table's name")
}

pub(crate) fn player(rt: &impl Abort, word: &str) -> Name {
    Name::player(word.as_bytes()).expect(rt, "a player's name")
}

pub(crate) fn command<'a>(rt: &impl Abort, text: &'a str) -> Command<'a> {
    Command::read(text.as_bytes()).expect(rt, "a command")
}

/// The players that a command seats.
pub(crate) fn seated(command: Command) -> Option<Players> {
    match command {
        Command::Open { players } => Some(players),
        _ => None,
    }
}

/// What a text is tried as.
#[derive(Clone, Copy)]
pub(crate) enum Form {
    Line,
    Record,
    Command,
    Order,
}

fn is_no_line(text: &str) -> bool {
    matches!(Line::read(text.as_bytes()), Err(Fault::Malformed))
}

fn is_no_record(text: &str) -> bool {
    matches!(read_record(text.as_bytes()), Err(Fault::Malformed))
}

fn is_no_command(text: &str) -> bool {
    matches!(Command::read(text.as_bytes()), Err(Fault::Malformed))
}

fn is_no_order(text: &str) -> bool {
    Order::read(text.as_bytes()).is_none()
}

fn is_refused(form: Form, text: &str) -> bool {
    match form {
        Form::Line => is_no_line(text),
        Form::Record => is_no_record(text),
        Form::Command => is_no_command(text),
        Form::Order => is_no_order(text),
    }
}

/// Stops at the first of the texts, each on a line of its own, that isn't refused.
pub(crate) fn check_refused(rt: &impl Abort, form: Form, texts: &str) {
    for text in texts.lines() {
        check(rt, text, is_refused(form, text), true);
    }
}
