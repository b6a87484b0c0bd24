//! Bytes that are read from front to back.
ghost use Rattle.std.specs.Prelude.{◌≡◌, ◌<◌, ◌^◌, ◌++◌, ◌↔◌, [], ◌∷◌, length, IsTrue, MatchOption};
ghost use Rattle.rr_words.specs.Spelling.Number.{AreBytes, spelled_number};

use byteorder::{BigEndian, ByteOrder};
use std::marker::Model;

/// The bytes that are still to be read. What is asked for past their end isn't given.
#[derive(Drop)]
pub struct Cursor<'a> {
    rest: &'a [u8],
}

impl<'a> Model for Cursor<'a> {
    ghost use Rattle.std.specs.Prelude.{ℕ, List};
    ghost use Rattle.rr_words.specs.Spelling.Number.{AreBytes};

    ghost Value = { List ℕ };

    ghost view = { λ s. s.rest.now };

    ghost invariant = { λ s. AreBytes s.rest.now };
}

impl<'a> Cursor<'a> {
    /// All of the bytes are still to be read.
    pub fn of(bytes: &'a [u8]) -> Cursor<'a>
        requires { AreBytes bytes.now }
        ensures { result ≡ bytes.now }
    {
        Cursor { rest: bytes }
    }

    /// Whether all bytes were read.
    pub fn is_empty(&self) -> bool
        ensures { IsTrue result ↔ (self.now ≡ []) }
    {
        self.rest.is_empty()
    }

    /// The next so many bytes, if there are as many. The cursor is behind them then.
    pub fn bytes(&mut self, count: usize) -> Option<&'a [u8]>
        ensures { MatchOption result
            (length self.old < count)
            (λ front. (length front.now ≡ count) × AreBytes front.now × (self.old ≡ front.now ++ self.new)) }
    {
        let rest = self.rest;
        if rest.len() < count {
            return None;
        }
        self.rest = &rest[count..];
        Some(&rest[..count])
    }

    /// The next byte.
    pub fn u8(&mut self) -> Option<u8>
        ensures { MatchOption result (length self.old < 1) (λ n. self.old ≡ n ∷ self.new) }
    {
        let bytes = self.bytes(1)?;
        Some(bytes[0])
    }

    /// The number that the next two bytes are, the highest first.
    pub fn u16(&mut self) -> Option<u16>
        ensures { MatchOption result (length self.old < 2) (λ n. (n < 2 ^ 16) × (self.old ≡ spelled_number 2 n ++ self.new)) }
    {
        let bytes = self.bytes(2)?;
        Some(BigEndian::read_u16(bytes))
    }

    /// The number that the next four bytes are, the highest first.
    pub fn u32(&mut self) -> Option<u32>
        ensures { MatchOption result (length self.old < 4) (λ n. (n < 2 ^ 32) × (self.old ≡ spelled_number 4 n ++ self.new)) }
    {
        let bytes = self.bytes(4)?;
        Some(BigEndian::read_u32(bytes))
    }

    /// The number that the next eight bytes are, the highest first.
    pub fn u64(&mut self) -> Option<u64>
        ensures { MatchOption result (length self.old < 8) (λ n. (n < 2 ^ 64) × (self.old ≡ spelled_number 8 n ++ self.new)) }
    {
        let bytes = self.bytes(8)?;
        Some(BigEndian::read_u64(bytes))
    }
}
