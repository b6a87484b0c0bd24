// The program `moderate`: it takes its words and the standard streams, and hands them to the library.
#![tactic(auto)]

use rr_cli::{Ending, HostFiles, fault_of, refuse, run, status};
use rr_disk::Unknown;
use rr_moderator::Fault;
use rr_serve::{CountingReader, CountingWriter};
use std::alloc::{AllocError, Global};
use std::fs::File;
use std::io::{BufReader, ErrorKind, writer};
use std::process::ExitCode;
use std::{env, io};

fn main(rt: HostRuntime) -> ExitCode {
    match hold_streams(&rt) {
        Ok(_held) => ExitCode::from(start(&rt)),
        Err(error) => ExitCode::from(end(&rt, fault_of(error.kind()))),
    }
}

/// Takes the descriptor of each standard stream that was closed before the start. The store's file would get it, and
/// then a reply would be written into the file. Nothing can be read from what is held there, and nothing written to it.
fn hold_streams(rt: &HostRuntime) -> io::Result<[File; 3]> {
    Ok([open_nothing(rt)?, open_nothing(rt)?, open_nothing(rt)?])
}

fn open_nothing(rt: &HostRuntime) -> io::Result<File> {
    File::open(rt, "/dev/null")
}

/// Takes the words after the program's name, and runs the program.
fn start(rt: &HostRuntime) -> u8 {
    let words: Vec<String> = match env::args(rt) {
        Ok(arguments) => match arguments.skip(1).collect(rt.alloc()) {
            Ok(words) => words,
            Err(AllocError) => return end(rt, Fault::OutOfMemory),
        },
        Err(error) if error.kind() == ErrorKind::OutOfMemory => return end(rt, Fault::OutOfMemory),
        Err(_) => return refuse_words(rt, "error: a word is not UTF-8 text\n"),
    };
    match lend(rt.alloc(), words.as_slice()) {
        Ok(lent) => run_words(rt, lent.as_slice()),
        Err(AllocError) => end(rt, Fault::OutOfMemory),
    }
}

/// Lends each word.
fn lend(alloc: Global, words: &[String]) -> Result<Vec<&str>, AllocError> {
    let mut lent = Vec::new(alloc);
    for word in words {
        lent.push(word.as_str())?;
    }
    Ok(lent)
}

/// Runs the program over the files of the system and the standard streams. It names the start of its file, since it has
/// to name one: `run` is proved for each, and no code can tell them apart. The file that `run` returns is closed.
fn run_words(rt: &HostRuntime, words: &[&str]) -> u8 {
    let mut reader = match BufReader::new(rt.alloc(), rt.reader()) {
        Ok(reader) => CountingReader::new(reader),
        Err(_) => return end(rt, Fault::OutOfMemory),
    };
    let stderr = rt.stderr();
    let mut output = CountingWriter::new(writer(rt));
    let mut errors = CountingWriter::new(writer(&stderr));
    let mut files = HostFiles::new(rt);
    let ended = run(
        rt.alloc(),
        words,
        Unknown,
        &mut files,
        &mut reader,
        &mut output,
        &mut errors,
    );
    ended.status
}

/// Ends with a refusal on standard output.
fn end(rt: &HostRuntime, fault: Fault) -> u8 {
    let mut output = CountingWriter::new(writer(rt));
    status(refuse(fault, &mut output))
}

/// Ends with refused words, told on standard error.
fn refuse_words(rt: &HostRuntime, text: &str) -> u8 {
    let _ = rt.eprint(text);
    status(Ending::WordsRefused)
}
