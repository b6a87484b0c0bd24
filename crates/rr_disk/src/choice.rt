ghost use Rattle.std.specs.Prelude.{◌≡◌, ◌↔◌, IsTrue, length, replicate};
ghost use Rattle.std.specs.List.{AllByRecursion};
ghost use Rattle.rr_disk.specs.Range.{IsWithin};
ghost use Rattle.rr_disk.specs.Choice.{FitsRange, FitRanges, laid, all_laid};

use crate::bytes::put;

/// What a stop keeps of one unsynced range.
#[derive(Clone, Copy, Debug, PartialEq, Eq)]
pub enum Kept {
    /// What lay there before: the settled bytes, zeros past their end, or what the choices for earlier ranges put
    /// there.
    Old,
    /// What a read gives there.
    New,
    /// So many new bytes, and behind them the old ones.
    Front(u64),
    /// This byte all over.
    Fill(u8),
}

/// What a stop leaves: a choice for each unsynced range, in order of writing, and the length of the file.
#[derive(Clone, Copy, Debug)]
pub struct Choice<'a> {
    pub kept: &'a [Kept],
    pub len: u64,
}

/// Whether no front is longer than its range.
pub fn fit_ranges(mut ranges: &[(u64, u64)], mut choices: &[Kept]) -> bool
    ensures { IsTrue result ↔ FitRanges ranges.now choices.now }
{
    while let [range, later @ ..] = ranges {
        let [kept, rest @ ..] = choices else {
            return true;
        };
        if !fits_range(*range, *kept) {
            return false;
        }
        ranges = later;
        choices = rest;
    }
    true
}

fn fits_range(range: (u64, u64), kept: Kept) -> bool
    ensures { IsTrue result ↔ FitsRange range kept }
{
    match kept {
        Kept::Front(n) => range.0 <= range.1 && n <= range.1 - range.0,
        _ => true,
    }
}

/// Lays the choices for these ranges over a file, in order.
pub fn lay_all(file: &mut [u8], content: &[u8], mut ranges: &[(u64, u64)], mut choices: &[Kept])
    requires len { length content.now ≡ length file.old }
    requires within { AllByRecursion (IsWithin (length content.now)) ranges.now }
    requires fronts { FitRanges ranges.now choices.now }
    ensures { file.new ≡ all_laid content.now ranges.now choices.now file.old }
{
    while let [range, later @ ..] = ranges {
        let [kept, rest @ ..] = choices else {
            return;
        };
        lay(file, content, *range, *kept);
        ranges = later;
        choices = rest;
    }
}

fn lay(file: &mut [u8], content: &[u8], range: (u64, u64), kept: Kept)
    requires len { length content.now ≡ length file.old }
    requires within { IsWithin (length content.now) range }
    requires front { FitsRange range kept }
    ensures { file.new ≡ laid content.now range kept file.old }
{
    let start = range.0 as usize;
    let end = range.1 as usize;
    match kept {
        Kept::Old => {}
        Kept::New => put(file, start, &content[start..end]),
        Kept::Front(n) => put(file, start, &content[start..start + n as usize]),
        Kept::Fill(byte) => fill(&mut file[start..end], byte),
    }
}

fn fill(target: &mut [u8], byte: u8)
    ensures { target.new ≡ replicate (length target.old) byte }
{
    target.fill(byte);
}
