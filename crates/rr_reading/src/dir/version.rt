ghost use Rattle.std.specs.Prelude.{◌≡◌, ◌≢◌, MatchOption};
ghost use Rattle.rr_reading.specs.Dir.Version.{version_number};
ghost use Rattle.rr_reading.specs.declared.dir.version.Version.{Version as OfVersion};

/// The version of a file, which chooses the form of its directory.
#[derive(Clone, Copy, Debug)]
pub enum Version {
    /// Version 1. Its directory says nothing of the bank.
    One,
    /// Version 2. Its directory begins with the money of the bank.
    Two,
}

/// The version of the files that are written.
pub const NEWEST: Version = Version::Two;

impl Version {
    /// The version of this number, if there is one.
    pub fn of(number: u16) -> Option<Version>
        ensures { MatchOption result
            ((version : OfVersion) → version_number version ≢ number)
            (λ version. version_number version ≡ number) }
    {
        match number {
            1 => Some(Version::One),
            2 => Some(Version::Two),
            _ => None,
        }
    }

    /// The number by which a file names the version.
    pub fn number(self) -> u16
        ensures { result ≡ version_number self }
    {
        match self {
            Version::One => 1,
            Version::Two => 2,
        }
    }
}
