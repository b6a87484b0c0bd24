ghost use Rattle.std.specs.Prelude.{◌≡◌, ◌+◌, ◌≤◌, ◌++◌, length, take, IfOk};
ghost use Rattle.rr_words.specs.Spelling.Number.{spelled_number};
ghost use Rattle.rr_reading.specs.declared.lending.joining.TheConstants.{MOST_WORDS};

use crate::lending::page_buffer::zeros;
use byteorder::{BigEndian, ByteOrder};
use std::alloc::{AllocError, Global};

// The most bytes that the words of a command may have: its length takes two.
pub(crate) const MOST_WORDS: usize = u16::MAX as usize;

/// Room for the words of one command, of 65,535 bytes. Once made it takes no more memory, and serves one chain after
/// another.
#[derive(Drop)]
pub struct JoiningBuffer {
    bytes: Vec<u8>,
    ghost whole: { length bytes.items ≡ MOST_WORDS },
}

impl JoiningBuffer {
    ghost use Rattle.rr_reading.specs.Lending.Commands.{bytes_of};

    pub fn new(alloc: Global) -> Result<JoiningBuffer, AllocError>
        ensures { IfOk result (λ buffer. length (bytes_of buffer) ≡ MOST_WORDS) }
    {
        Ok(JoiningBuffer {
            bytes: zeros(alloc, MOST_WORDS)?,
        })
    }

    // The first bytes.
    pub(crate) fn front(&self, count: u16) -> &[u8]
        ensures { result.now ≡ take count (bytes_of self.now) }
    {
        &self.bytes[..count as usize]
    }

    // The number in the first two bytes.
    pub(crate) fn number(&self) -> u16
        ensures { take 2 (bytes_of self.now) ≡ spelled_number 2 result }
    {
        number_in(&self.bytes[..2])
    }

    // Puts more bytes behind the first ones.
    pub(crate) fn put(&mut self, count: usize, more: &[u8])
        requires { count + length more.now ≤ MOST_WORDS }
        ensures { take (count + length more.now) (bytes_of self.new) ≡ take count (bytes_of self.old) ++ more.now }
    {
        let end = count + more.len();
        self.bytes[count..end].copy_from_slice(more);
    }
}

// The number that these two bytes spell.
fn number_in(bytes: &[u8]) -> u16
    requires { length bytes.now ≡ 2 }
    ensures { bytes.now ≡ spelled_number 2 result }
{
    BigEndian::read_u16(bytes)
}
