//! How a run of the program ends, and what it leaves.
ghost use Rattle.std.specs.Prelude.{◌≡◌};
ghost use Rattle.rr_cli.specs.Ending.{status_of};

use rr_moderator::Fault;

/// How a run of the program ends.
#[derive(Clone, Copy, Debug, PartialEq, Eq)]
pub enum Ending {
    /// It did what the words asked.
    Done,
    /// The words were refused.
    WordsRefused,
    /// It ended with this fault.
    Faulted(Fault),
}

/// With which exit status a run of the program ended, and the file as it was then, if one was opened.
#[derive(Drop)]
pub struct Ended<D: Drop> {
    pub status: u8,
    pub left: Option<D>,
}

/// The exit status of a run that ends so: 0 where it did its work, 2 where the words were refused,
/// 3 where a text of the kit or the store itself is wrong, and 4 where the device, a stream or
/// memory failed.
pub fn status(ending: Ending) -> u8
    ensures { result ≡ status_of ending }
{
    match ending {
        Ending::Done => 0,
        Ending::WordsRefused => 2,
        Ending::Faulted(fault) => match fault.number() {
            3..=7 | 63 | 64 => 3,
            _ => 4,
        },
    }
}
