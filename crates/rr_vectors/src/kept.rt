ghost use Rattle.std.specs.Prelude.{◌≡◌, IfOk, OnOk, length, vec_len, replicate};
ghost use Rattle.std.specs.Str.Lines.{lines};
ghost use Rattle.rr_vectors.specs.Runs.{LieAt, IsLaid, AreLaid};

use crate::Fault;
use rr_words::{number, split_word};
use std::alloc::Global;

/// A file that was written once, and what `moderate check` printed of it.
#[derive(Clone, Copy)]
pub struct KeptFile {
    /// In bytes.
    pub length: usize,
    /// The line that `moderate check` printed.
    pub answer: &'static str,
    /// The bytes other than 0: lines of a place, a space, and the bytes from there on in hex.
    pub runs: &'static str,
}

impl KeptFile {
    /// The whole file.
    ///
    /// # Errors
    /// `NoRun` where a line of its runs is none, or passes its length; and `OutOfMemory`.
    pub fn content(&self, alloc: Global) -> Result<Vec<u8>, Fault>
        ensures length { IfOk result (λ content. vec_len content ≡ self.now.length) }
        ensures laid { IfOk result (λ content. AreLaid (lines self.now.runs.now) (replicate self.now.length 0) content.items) }
    {
        let mut content = vec![in alloc; 0; self.length]?;
        lay_all(&mut content, self.runs)?;
        Ok(content)
    }
}

fn lay_all(content: &mut [u8], runs: &str) -> Result<(), Fault>
    ensures laid { OnOk result (AreLaid (lines runs.now) content.old content.new) }
    ensures length { length content.new ≡ length content.old }
{
    for line in runs.lines() {
        lay(content, line.as_bytes())?;
    }
    Ok(())
}

// Lays the bytes of a line where it says.
fn lay(content: &mut [u8], line: &[u8]) -> Result<(), Fault>
    ensures laid { OnOk result (IsLaid line.now content.old content.new) }
    ensures length { length content.new ≡ length content.old }
{
    let (place, Some(digits)) = split_word(line) else {
        return Err(Fault::NoRun);
    };
    let Some(place) = number(place) else {
        return Err(Fault::NoRun);
    };
    lay_at(content, place as usize, digits)
}

fn lay_at(content: &mut [u8], place: usize, digits: &[u8]) -> Result<(), Fault>
    ensures laid { OnOk result (LieAt place digits.now content.old content.new) }
    ensures length { length content.new ≡ length content.old }
{
    let count = digits.len() / 2;
    if place > content.len() || count > content.len() - place {
        return Err(Fault::NoRun);
    }
    match hex::decode_to_slice(digits, &mut content[place..place + count]) {
        Ok(()) => Ok(()),
        Err(_) => Err(Fault::NoRun),
    }
}
