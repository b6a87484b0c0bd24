use crate::calls::{check, check_shown};
use rr_serve::{
    CountingReader, CountingWriter, Ending, Fault, Input, LineBuffer, Machine, Output, laws, line,
    send, serve,
};
use rr_words::LONGEST_LINE;
use std::cell::Cell;
use std::io;
use std::io::{BufRead, BufReader, ErrorKind, Read, Write};
use std::process::Abort;

/// Replies with the line itself, and says which lines are too long.
#[derive(Drop)]
struct Echo {
    reply: Vec<u8>,
    lines: usize,
}

impl Machine for Echo {
    ghost Answers = { λ _ _ _. Unit {0} };

    ghost reply_of = { λ echo. echo.reply.items };

    fn take(&mut self, line: &[u8]) {
        self.lines = self.lines.saturating_add(1);
        self.reply.clear();
        let text = if line.len() > LONGEST_LINE {
            b"no 67 line too long".as_slice()
        } else {
            line
        };
        let _ = self.reply.extend_from_slice(text);
        let _ = self.reply.push(b'\n');
    }

    fn reply(&self) -> &[u8] {
        self.reply.as_slice()
    }
}

/// A writer with so much room, that takes a byte a call and tells how many bytes are flushed.
#[derive(Drop)]
struct Drip<'a> {
    bytes: Vec<u8>,
    room: usize,
    flushed: &'a Cell<usize>,
}

impl Write for Drip<'_> {
    fn write(&mut self, buf: &[u8]) -> io::Result<usize> {
        match buf.first() {
            Some(byte) if self.bytes.len() < self.room => {
                self.bytes.push(*byte)?;
                Ok(1)
            }
            _ => Err(io::Error::from(ErrorKind::BrokenPipe)),
        }
    }

    fn flush(&mut self) -> io::Result<()> {
        self.flushed.set(self.bytes.len());
        Ok(())
    }
}

/// A writer that takes nothing, or one that can't be flushed.
#[derive(Clone, Copy)]
enum Stuck {
    TakesNothing,
    CannotFlush,
}

impl Write for Stuck {
    fn write(&mut self, buf: &[u8]) -> io::Result<usize> {
        Ok(match self {
            Stuck::TakesNothing => 0,
            Stuck::CannotFlush => buf.len(),
        })
    }

    fn flush(&mut self) -> io::Result<()> {
        Err(io::Error::from(ErrorKind::BrokenPipe))
    }
}

/// A reader that gives a chunk at each read, and ends behind the last. At an empty chunk the read fails. It notes how
/// many bytes were flushed at each read.
#[derive(Drop)]
struct Chunks<'a> {
    chunks: &'a [&'a str],
    flushed: &'a Cell<usize>,
    seen: Vec<usize>,
}

impl Read for Chunks<'_> {
    fn read(&mut self, buf: &mut [u8]) -> io::Result<usize> {
        let chunk = self.chunks.get(self.seen.len());
        self.seen.push(self.flushed.get())?;
        match chunk {
            Some(chunk) if !chunk.is_empty() => {
                let mut bytes = chunk.as_bytes();
                bytes.read(buf)
            }
            Some(_) => Err(io::Error::from(ErrorKind::ConnectionReset)),
            None => Ok(0),
        }
    }
}

fn make_echo(rt: &(impl Abort + AllocGlobal)) -> Echo {
    let reply = Vec::with_capacity(rt.alloc(), LONGEST_LINE + 1).expect(rt, "memory");
    Echo { reply, lines: 0 }
}

fn make_buffer(rt: &(impl Abort + AllocGlobal)) -> LineBuffer {
    LineBuffer::new(rt.alloc()).expect(rt, "memory")
}

fn make_drip<'a>(
    rt: &(impl Abort + AllocGlobal),
    room: usize,
    flushed: &'a Cell<usize>,
) -> Drip<'a> {
    let bytes = Vec::new(rt.alloc());
    Drip {
        bytes,
        room,
        flushed,
    }
}

fn make_chunks<'a>(
    rt: &(impl Abort + AllocGlobal),
    chunks: &'a [&'a str],
    flushed: &'a Cell<usize>,
) -> BufReader<Chunks<'a>> {
    let seen = Vec::new(rt.alloc());
    let chunks = Chunks {
        chunks,
        flushed,
        seen,
    };
    BufReader::new(rt.alloc(), chunks).expect(rt, "memory")
}

// How the serving ended, how many lines the machine took, and how many reads failed and how many writes.
#[derive(Clone, Copy)]
struct Served {
    result: Result<(), Fault>,
    lines: usize,
    failed_reads: u64,
    failed_writes: u64,
}

// The calls have no contracts, so that what a test does costs its proof little.

fn serve_lines<R: BufRead, W: Write>(
    rt: &(impl Abort + AllocGlobal),
    buffer: &mut LineBuffer,
    reader: &mut R,
    writer: &mut W,
) -> Served {
    let mut machine = make_echo(rt);
    let mut input = CountingReader::new(reader);
    let mut output = CountingWriter::new(writer);
    let result = serve(&mut machine, &mut input, &mut output, buffer);
    Served {
        result,
        lines: machine.lines,
        failed_reads: input.failures(),
        failed_writes: output.failures(),
    }
}

// Whether it ended so, after so many failed reads and writes.
fn has_ended(served: Served, ending: Result<(), Fault>, reads: u64, writes: u64) -> bool {
    served.result == ending && served.failed_reads == reads && served.failed_writes == writes
}

// How many lines the machine took of a whole input that was served with this output, to a writer that takes all.
fn lines_served<R: BufRead>(
    rt: &(impl Abort + AllocGlobal),
    buffer: &mut LineBuffer,
    reader: &mut R,
    output: &[u8],
) -> Option<usize> {
    let mut written = Vec::new(rt.alloc());
    let served = serve_lines(rt, buffer, reader, &mut written);
    let is_right = has_ended(served, Ok(()), 0, 0) && written.as_slice() == output;
    if is_right { Some(served.lines) } else { None }
}

fn lines_at_once(
    rt: &(impl Abort + AllocGlobal),
    buffer: &mut LineBuffer,
    input: &[u8],
    output: &[u8],
) -> Option<usize> {
    let mut reader = input;
    lines_served(rt, buffer, &mut reader, output)
}

fn lines_by_chunks(
    rt: &(impl Abort + AllocGlobal),
    buffer: &mut LineBuffer,
    input: &[u8],
    output: &[u8],
) -> Option<usize> {
    let mut reader = BufReader::with_capacity(rt.alloc(), 3, input).expect(rt, "memory");
    lines_served(rt, buffer, &mut reader, output)
}

// Serves a whole input at once, and by chunks of three bytes, and tells how many lines the machine took of either.
fn check_served(
    rt: &(impl Abort + AllocGlobal),
    buffer: &mut LineBuffer,
    input: &[u8],
    output: &[u8],
) -> usize {
    let lines = lines_at_once(rt, buffer, input, output).expect(rt, "the output");
    let by_chunks = lines_by_chunks(rt, buffer, input, output);
    check(rt, "lines by chunks", by_chunks, Some(lines));
    lines
}

/// An input, and what is written of it.
static INPUTS: [(&str, &str); 6] = [
    ("", ""),
    ("\n", "\n"),
    ("one\n", "one\n"),
    ("one\n\ntwo\n", "one\n\ntwo\n"),
    ("one\ntwo", "one\nno 55 malformed line\n"),
    ("\r", "no 55 malformed line\n"),
];

#[test]
fn answers_each_line(rt: HostRuntime) {
    let rt = &rt;
    let mut buffer = make_buffer(rt);
    for &(input, output) in &INPUTS {
        check_served(rt, &mut buffer, input.as_bytes(), output.as_bytes());
    }
}

// A line of so many bytes, and a short one behind it.
fn long_and_next(rt: &(impl Abort + AllocGlobal), length: usize) -> Vec<u8> {
    let mut input = vec![in rt.alloc(); b'x'; length].expect(rt, "memory");
    input.extend_from_slice(b"\nnext\n").expect(rt, "memory");
    input
}

const REFUSED: &[u8] = b"no 67 line too long\nnext\n";

/// How long a line is, and what is written of it and of the next one; none where that is the input.
static LENGTHS: [(usize, Option<&[u8]>); 3] = [
    (32_000, None),
    (32_001, Some(REFUSED)),
    (80_000, Some(REFUSED)),
];

#[test]
fn tells_lines_too_long(rt: HostRuntime) {
    let rt = &rt;
    let mut buffer = make_buffer(rt);
    for &(length, refused) in &LENGTHS {
        let input = long_and_next(rt, length);
        let output = match refused {
            Some(refused) => refused,
            None => input.as_slice(),
        };
        check_served(rt, &mut buffer, &input, output);
    }
}

#[test]
fn a_long_rest_is_malformed(rt: HostRuntime) {
    let rt = &rt;
    let input = vec![in rt.alloc(); b'x'; 32_001].expect(rt, "memory");
    let mut buffer = make_buffer(rt);
    let lines = check_served(rt, &mut buffer, &input, b"no 55 malformed line\n");
    check(rt, "lines", lines, 0);
}

#[test]
fn ends_where_the_device_fails(rt: HostRuntime) {
    let rt = &rt;
    let mut buffer = make_buffer(rt);
    let mut reader = b"no 6\nno 60 device failed\nmore\n".as_slice();
    let mut written = Vec::new(rt.alloc());
    let served = serve_lines(rt, &mut buffer, &mut reader, &mut written);
    let is_right = [
        has_ended(served, Err(Fault::DeviceFailed), 0, 0),
        served.lines == 2,
        written.as_slice() == b"no 6\nno 60 device failed\n".as_slice(),
        reader == b"more\n".as_slice(),
    ];
    check(rt, "served", is_right, [true; 4]);
}

/// What is read in four chunks, what is written, and how many bytes were flushed at each read.
#[derive(Clone, Copy)]
struct Exchange {
    chunks: [&'static str; 4],
    output: &'static str,
    flushed: [usize; 5],
}

static EXCHANGES: [Exchange; 4] = [
    // A line a chunk, and one over three chunks.
    Exchange {
        chunks: ["one\n", "t", "w", "o\n"],
        output: "one\ntwo\n",
        flushed: [0, 4, 4, 4, 8],
    },
    // Several lines in a chunk, and half a line.
    Exchange {
        chunks: ["one\n\nthree\nfo", "ur\n", "a\nb", "\n"],
        output: "one\n\nthree\nfour\na\nb\n",
        flushed: [0, 11, 16, 18, 20],
    },
    // A line feed first, a read that fails between two lines, and a rest.
    Exchange {
        chunks: ["one", "\ntwo\n", "", "three\nfo"],
        output: "one\ntwo\nthree\nno 55 malformed line\n",
        flushed: [0, 0, 8, 8, 14],
    },
    // A read that fails behind half a line: that half has no reply, and isn't kept.
    Exchange {
        chunks: ["one\ntw", "", "o\n", "x\n"],
        output: "one\no\nx\n",
        flushed: [0, 4, 4, 6, 8],
    },
];

// Whether the chunks are served whole, by one `serve` behind another where a read failed.
fn are_served<R: BufRead, W: Write>(
    rt: &(impl Abort + AllocGlobal),
    buffer: &mut LineBuffer,
    reader: &mut R,
    writer: &mut W,
) -> bool {
    let served = serve_lines(rt, buffer, reader, writer);
    if served.result == Ok(()) {
        return served.failed_reads == 0;
    }
    let again = serve_lines(rt, buffer, reader, writer);
    served.failed_reads == 1 && again.result == Ok(()) && again.failed_reads == 0
}

// Whether so many bytes were flushed at each read.
fn is_seen(reader: BufReader<Chunks<'_>>, flushed: &[usize]) -> bool {
    reader.into_inner().seen.as_slice() == flushed
}

// Whether the chunks are answered so, and so many bytes were flushed at each read.
fn is_answered_between_reads(
    rt: &(impl Abort + AllocGlobal),
    buffer: &mut LineBuffer,
    exchange: &Exchange,
) -> bool {
    let flushed = Cell::new(0);
    let mut reader = make_chunks(rt, &exchange.chunks, &flushed);
    let mut writer = make_drip(rt, usize::MAX, &flushed);
    let are_served = are_served(rt, buffer, &mut reader, &mut writer);
    let is_seen = is_seen(reader, &exchange.flushed);
    are_served && is_seen && writer.bytes.as_slice() == exchange.output.as_bytes()
}

#[test]
fn answers_before_it_reads_on(rt: HostRuntime) {
    let rt = &rt;
    let mut buffer = make_buffer(rt);
    for exchange in &EXCHANGES {
        let is_right = is_answered_between_reads(rt, &mut buffer, exchange);
        check(rt, exchange.output, is_right, true);
    }
}

/// An input, the room of the writer, and what it takes.
static CUT_SHORT: [(&str, usize, &str); 2] = [
    ("one\ntwo\nthree\n", 6, "one\ntw"),
    ("one\nthree", 9, "one\nno 55"),
];

// Whether serving ends where a writer of so much room fails, which has taken this, and flushed the first reply alone.
fn is_cut_short(
    rt: &(impl Abort + AllocGlobal),
    buffer: &mut LineBuffer,
    input: &str,
    room: usize,
    output: &str,
) -> bool {
    let flushed = Cell::new(0);
    let mut reader = input.as_bytes();
    let mut writer = make_drip(rt, room, &flushed);
    let served = serve_lines(rt, buffer, &mut reader, &mut writer);
    has_ended(served, Err(Fault::StreamFailed), 0, 1)
        && writer.bytes.as_slice() == output.as_bytes()
        && flushed.get() == 4
}

#[test]
fn ends_where_the_writer_fails(rt: HostRuntime) {
    let rt = &rt;
    let mut buffer = make_buffer(rt);
    for &(input, room, output) in &CUT_SHORT {
        let is_right = is_cut_short(rt, &mut buffer, input, room, output);
        check(rt, output, is_right, true);
    }
}

fn answered<W: Write>(machine: &mut Echo, bytes: &[u8], writer: &mut W) -> Result<(), Fault> {
    line(machine, bytes, &mut CountingWriter::new(writer))
}

#[test]
fn a_line_is_taken_whatever_the_writer_does(rt: HostRuntime) {
    let rt = &rt;
    let mut machine = make_echo(rt);
    let mut written = Vec::new(rt.alloc());
    let answers = [
        answered(&mut machine, b"pay", &mut Stuck::TakesNothing),
        answered(&mut machine, b"pay", &mut Stuck::CannotFlush),
        answered(&mut machine, b"give", &mut written),
    ];
    let failed = Err(Fault::StreamFailed);
    check(rt, "answers", answers, [failed, failed, Ok(())]);
    let is_right = [
        written.as_slice() == b"give\n".as_slice(),
        machine.lines == 3,
    ];
    check(rt, "written", is_right, [true; 2]);
}

/// What is done with an input and a line.
#[derive(Clone, Copy)]
enum Step {
    /// The next part of the line ends so, and leaves this of it.
    Take(Result<Option<Ending>, Fault>, &'static str),
    /// Nothing of the line is kept any more.
    Clear,
    /// The line has these bytes more.
    Add(&'static [u8]),
    /// So many reads have failed.
    Failed(u64),
}

use Step::{Add, Clear, Failed, Take};

fn is_taken<I: Input>(
    input: &mut I,
    line: &mut LineBuffer,
    ending: Result<Option<Ending>, Fault>,
    kept: &str,
) -> bool {
    let part = input.take_part(line);
    part == ending && line.as_slice() == kept.as_bytes()
}

fn goes_so<I: Input>(input: &mut I, line: &mut LineBuffer, step: Step) -> bool {
    match step {
        Take(ending, kept) => return is_taken(input, line, ending, kept),
        Clear => line.clear(),
        Add(bytes) => line.add(bytes),
        Failed(count) => return input.failures() == count,
    }
    true
}

// The first of the steps that goes otherwise, one behind the other.
fn first_unlike<I: Input>(input: &mut I, line: &mut LineBuffer, steps: &[Step]) -> Option<usize> {
    for (place, step) in steps.iter().enumerate() {
        if !goes_so(input, line, *step) {
            return Some(place);
        }
    }
    None
}

// Lines are taken part by part, a line feed is none of them, and a failed read adds nothing. The end is told again.
static PARTS: [Step; 11] = [
    Clear,
    Take(Err(Fault::StreamFailed), ""),
    Take(Ok(None), "on"),
    Take(Ok(Some(Ending::LineFeed)), "one"),
    Clear,
    Take(Ok(Some(Ending::LineFeed)), ""),
    Add(b"a "),
    Take(Ok(None), "a rest"),
    Failed(1),
    Take(Ok(Some(Ending::EndOfInput)), "a rest"),
    Take(Ok(Some(Ending::EndOfInput)), "a rest"),
];

#[test]
fn an_ended_reader_is_not_read_again(rt: HostRuntime) {
    let rt = &rt;
    let flushed = Cell::new(0);
    let mut line = make_buffer(rt);
    let reader = make_chunks(rt, &["", "on", "e\n\nrest"], &flushed);
    let mut input = CountingReader::new(reader);
    let unlike = first_unlike(&mut input, &mut line, &PARTS);
    check(rt, "first unlike", unlike, None);
    let is_seen = is_seen(input.into_inner(), &[0; 4]);
    check(rt, "four reads", is_seen, true);
}

fn sent<O: Output>(output: &mut O) -> Result<(), Fault> {
    send(output, b"ok\n")
}

// What comes of sending a reply, of writing one, and of a flush.
fn told<O: Output>(output: &mut O) -> [Result<(), Fault>; 3] {
    [sent(output), output.write_all(b"ok\n"), output.flush()]
}

// A reply that is sent needs its flush, and what is written alone doesn't.
fn check_stuck(rt: &impl Abort) {
    let failed = Err(Fault::StreamFailed);
    let mut output = CountingWriter::new(Stuck::CannotFlush);
    check(rt, "told", told(&mut output), [failed, Ok(()), failed]);
    check(rt, "failures", output.failures(), 2);
}

#[test]
fn each_failure_is_counted(rt: HostRuntime) {
    let rt = &rt;
    check_stuck(rt);
    let mut output = CountingWriter::new(Vec::new(rt.alloc()));
    check(rt, "sent", sent(&mut output), Ok(()));
    check(rt, "failures", output.failures(), 0);
    let written = output.into_inner();
    let is_right = written.as_slice() == b"ok\n".as_slice();
    check(rt, "written", is_right, true);
}

static FAULTS: [(Fault, &str); 2] = [
    (Fault::DeviceFailed, "device failed"),
    (Fault::StreamFailed, "stream failed"),
];

#[test]
fn faults_have_texts(rt: HostRuntime) {
    for (fault, words) in &FAULTS {
        check_shown(&rt, fault, words);
    }
    laws::splitting();
    laws::taking();
    laws::sending();
}
