ghost use Rattle.std.specs.Prelude.{◌≡◌};
ghost use Rattle.rr_kit.specs.Fault.{number_of, of_board, of_chart, of_manifest, of_roster};

use thiserror::Error;

/// Why a kit's text is refused.
#[derive(Clone, Copy, Debug, Drop, PartialEq, Eq, Error)]
pub enum Fault {
    /// The chart's text spells no chart: its first wrong word, by its line and its place there, both from 1.
    /// Both are 0 where no single word is wrong.
    #[error("bad chart {line} {word}")]
    BadChart { line: usize, word: usize },
    /// The roster's text isn't of a roster's shape.
    #[error("bad roster")]
    BadRoster,
    /// The first of its rules that a roster breaks.
    #[error("roster rule {0}")]
    RosterRule(u8),
    /// The manifest's text spells no manifest; its first wrong line, from 1, or 0 where the text is wrong as a whole.
    #[error("bad manifest {0}")]
    BadManifest(usize),
    /// The board's text spells no board; its first wrong line, from 1, or 0 where the text is wrong as a whole.
    #[error("bad board {0}")]
    BadBoard(usize),
    /// A request for memory was refused.
    #[error("out of memory")]
    OutOfMemory,
}

impl Fault {
    /// The number that a reply gives before the text.
    pub fn number(&self) -> u8
        ensures { result ≡ number_of self.now }
    {
        match self {
            Fault::BadChart { .. } => 3,
            Fault::BadRoster => 4,
            Fault::RosterRule(_) => 5,
            Fault::BadManifest(_) => 6,
            Fault::BadBoard(_) => 7,
            Fault::OutOfMemory => 70,
        }
    }
}

impl From<rr_roster::chart::Fault> for Fault {
    ghost from_gives = { λ fault wrapped. wrapped ≡ of_chart fault };

    fn from(fault: rr_roster::chart::Fault) -> Fault {
        match fault {
            rr_roster::chart::Fault::BadChart { line, word } => Fault::BadChart { line, word },
            rr_roster::chart::Fault::OutOfMemory => Fault::OutOfMemory,
        }
    }
}

impl From<rr_roster::Fault> for Fault {
    ghost from_gives = { λ fault wrapped. wrapped ≡ of_roster fault };

    fn from(fault: rr_roster::Fault) -> Fault {
        match fault {
            rr_roster::Fault::Shape => Fault::BadRoster,
            rr_roster::Fault::Broken(rule) => Fault::RosterRule(rule.number()),
            rr_roster::Fault::OutOfMemory => Fault::OutOfMemory,
        }
    }
}

impl From<rr_tiles::Fault> for Fault {
    ghost from_gives = { λ fault wrapped. wrapped ≡ of_manifest fault };

    fn from(fault: rr_tiles::Fault) -> Fault {
        match fault {
            rr_tiles::Fault::BadManifest { line } => Fault::BadManifest(line),
            rr_tiles::Fault::OutOfMemory => Fault::OutOfMemory,
        }
    }
}

impl From<crate::board::Fault> for Fault {
    ghost from_gives = { λ fault wrapped. wrapped ≡ of_board fault };

    fn from(fault: crate::board::Fault) -> Fault {
        match fault {
            crate::board::Fault::BadBoard { line } => Fault::BadBoard(line),
            crate::board::Fault::OutOfMemory => Fault::OutOfMemory,
        }
    }
}
