//! What the words of a command line ask for.
ghost use Rattle.std.specs.Prelude.{◌≡◌};
ghost use Rattle.rr_cli.specs.Plan.{file_of, makes_file};

/// What the program is asked to do, with the files that the words name. The names are as they
/// were written: none has been opened.
#[derive(Debug, Drop, PartialEq, Eq)]
pub enum Plan {
    /// Make a new store in `file` from the four texts of a game kit.
    Format {
        file: String,
        chart: String,
        roster: String,
        tiles: String,
        board: String,
    },
    /// Serve the tables of the store `file` over standard input and output.
    Serve {
        file: String,
    },
    /// Check the store `file`, and tell how much it holds.
    Check {
        file: String,
    },
}

impl Plan {
    /// The path of the store's file.
    pub(crate) fn file(&self) -> &str
        ensures { result.now ≡ file_of self.now }
    {
        match self {
            Plan::Format { file, .. } | Plan::Serve { file } | Plan::Check { file } =>
                file.as_str(),
        }
    }

    /// Whether the file is made if it is absent.
    pub(crate) fn makes_file(&self) -> bool
        ensures { result ≡ makes_file self.now }
    {
        matches!(self, Plan::Format { .. })
    }
}
