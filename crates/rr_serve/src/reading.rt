ghost use Rattle.std.specs.Prelude.{◌≡◌, ◌≢◌, ◌<◌, ◌≤◌, ℕ, length, slice_index};
ghost use Rattle.rr_serve.specs.Parts.{IsPart};
ghost use Rattle.rr_serve.specs.Reading.{ReadsLine};

use crate::faults::Fault;
use crate::input::Input;
use crate::line_buffer::LineBuffer;
use memchr::memchr;

/// The byte that ends a line.
const LINE_FEED: u8 = b'\n';

/// What comes behind the bytes of a line.
#[derive(Clone, Copy, PartialEq, Eq, Debug, Drop)]
pub enum Ending {
    LineFeed,
    EndOfInput,
}

/// How much of the bytes that stand ready is of one line.
#[derive(Drop)]
pub(crate) struct Part {
    /// How many of them are the line's.
    pub(crate) kept: usize,
    /// The same, and its line feed where that stands ready.
    pub(crate) count: usize,
    /// How the line ended, or none where it goes on.
    pub(crate) ending: Option<Ending>,
}

/// Reads up to the next line feed or the end of the input, and leaves in the buffer what is kept of the line.
pub(crate) fn read_line<I: Input>(reader: &mut I, buffer: &mut LineBuffer) -> Result<Ending, Fault>
    ensures { ReadsLine (I.state reader.old) (I.state reader.new) buffer.new result }
{
    buffer.clear();
    loop {
        if let Some(ending) = reader.take_part(buffer)? {
            return Ok(ending);
        }
    }
}

/// The part of a line at the front of what stands ready, of which at most so many bytes are taken. Where nothing stands
/// ready the input has ended.
pub(crate) fn part_of(ready: &[u8], most: u64) -> Part
    requires { 0 < most }
    ensures { IsPart ready.now most result.kept result.count result.ending }
{
    if ready.is_empty() {
        return Part {
            kept: 0,
            count: 0,
            ending: Some(Ending::EndOfInput),
        };
    }
    let most = most as usize;
    let length = line_end(ready);
    if length < ready.len() && length < most {
        return Part {
            kept: length,
            count: length + 1,
            ending: Some(Ending::LineFeed),
        };
    }
    let count = length.min(most);
    Part {
        kept: count,
        count,
        ending: None,
    }
}

/// Where the first line feed stands, or how many bytes there are.
fn line_end(bytes: &[u8]) -> usize
    ensures bound { result ≤ length bytes.now }
    ensures before { (k : ℕ) → k < result → slice_index bytes.now k ≢ 10 }
    ensures stops { result < length bytes.now → slice_index bytes.now result ≡ 10 }
{
    memchr(LINE_FEED, bytes).unwrap_or(bytes.len())
}
