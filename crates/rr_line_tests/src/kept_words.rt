//! The words of commands in one buffer: its bytes are worked by hand, two of length in front of each command's words.
use crate::calls::check;
use rr_turns::{KeptWords, LONGEST_COMMAND, MOST_COMMANDS, laws};
use std::alloc::AllocError;
use std::process::Abort;

// The calls below have no contracts, so that what a test does costs its proof little.

/// Adds a command's words, with room taken for them; none that are too long, or one too many.
fn add(kept: &mut KeptWords, words: &[u8]) -> Result<(), AllocError> {
    if words.len() <= LONGEST_COMMAND && kept.len() < MOST_COMMANDS {
        kept.reserve(words.len())?;
        kept.push(words);
    }
    Ok(())
}

fn kept(rt: &(impl Abort + AllocGlobal), commands: &[&[u8]]) -> KeptWords {
    let mut kept = KeptWords::new(rt.alloc());
    for words in commands {
        add(&mut kept, words).expect(rt, "memory");
    }
    kept
}

/// The same words, added so many times.
fn repeated(rt: &(impl Abort + AllocGlobal), words: &[u8], times: usize) -> KeptWords {
    let mut kept = KeptWords::new(rt.alloc());
    for _time in 0..times {
        add(&mut kept, words).expect(rt, "memory");
    }
    kept
}

/// Whether these are the commands' words, asked one by one, and no others.
fn are(kept: &KeptWords, commands: &[&[u8]]) -> bool {
    for (place, words) in commands.iter().enumerate() {
        if kept.get(place) != Some(*words) {
            return false;
        }
    }
    kept.len() == commands.len() && kept.get(commands.len()).is_none()
}

/// How many commands are given in turn, and the bytes of their words.
fn given(kept: &KeptWords) -> (usize, usize) {
    let mut count = 0usize;
    let mut bytes = 0usize;
    for words in kept.iter() {
        count = count.wrapping_add(1);
        bytes = bytes.wrapping_add(words.len());
    }
    (count, bytes)
}

/// Whether these are all the bytes, and the words of the last command.
fn has(kept: &KeptWords, bytes: &[u8], last: Option<&[u8]>) -> bool {
    kept.as_bytes() == bytes && kept.last() == last
}

static COMMANDS: [&[u8]; 3] = [b"open ann bob", b"", b"done ann"];

const BYTES: &[u8] = b"\0\x0copen ann bob\0\0\0\x08done ann";

#[test]
fn bytes_are_those_of_the_chain(rt: HostRuntime) {
    let rt = &rt;
    let kept = kept(rt, &COMMANDS);
    check(rt, "bytes", has(&kept, BYTES, Some(b"done ann")), true);
    check(rt, "commands", are(&kept, &COMMANDS), true);
    check(rt, "count and bytes", given(&kept), (3, 20));
}

#[test]
fn later_commands_are_dropped(rt: HostRuntime) {
    let rt = &rt;
    let mut kept = kept(rt, &COMMANDS);
    kept.truncate(4);
    check(rt, "all", are(&kept, &COMMANDS), true);
    kept.truncate(2);
    check(rt, "two", has(&kept, &BYTES[..16], Some(b"")), true);
    kept.truncate(0);
    check(rt, "none", has(&kept, b"", None), true);
}

#[test]
fn long_words_have_their_count_high_byte_first(rt: HostRuntime) {
    let rt = &rt;
    let long = [b'x'; 300];
    let commands: [&[u8]; 2] = [&long, b"y"];
    let kept = kept(rt, &commands);
    let bytes = kept.as_bytes();
    check(rt, "length", bytes.len(), 305);
    check(rt, "front", bytes.starts_with(b"\x01\x2cx"), true);
    check(rt, "commands", are(&kept, &commands), true);
}

#[test]
fn a_full_table_has_all_its_commands(rt: HostRuntime) {
    let rt = &rt;
    laws::limits();
    let kept = repeated(rt, b"done ann", 4_097);
    check(rt, "commands", kept.len(), 4_096);
    check(rt, "bytes", kept.as_bytes().len(), 40_960);
    check(rt, "count and bytes", given(&kept), (4_096, 32_768));
}
