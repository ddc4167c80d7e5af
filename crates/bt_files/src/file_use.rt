//! How data files are used.
ghost use Rattle.std.specs.Prelude.{◌≡◌};
ghost use Rattle.bt_files.specs.FileUse.{is_read_only, is_touched_at_first, use_with};

/// What the data files of a torrent are opened for.
#[derive(Clone, Copy, Debug, PartialEq, Eq)]
pub enum FileUse {
    /// What the files lack is fetched into them.
    Fetch,
    /// The files are served, and what they lack may come from the peers that are served.
    Seed,
    /// The same as `Seed`, with a log that tells which blocks count.
    SeedByLog,
    /// The files are served, and never written.
    ReadOnly,
}

impl FileUse {
    /// Whether nothing is written, and no file and no folder is made.
    pub fn is_read_only(self) -> bool
        ensures { result ≡ is_read_only self }
    {
        match self {
            FileUse::Fetch | FileUse::Seed | FileUse::SeedByLog => false,
            FileUse::ReadOnly => true,
        }
    }

    /// Whether a sync reaches a file even where the file was neither read nor written since it was opened. It need
    /// not with `Fetch` and `SeedByLog`: these read, as they start, each block that counts then.
    pub(crate) fn is_touched_at_first(self) -> bool
        ensures { result ≡ is_touched_at_first self }
    {
        match self {
            FileUse::Fetch | FileUse::SeedByLog => false,
            FileUse::Seed | FileUse::ReadOnly => true,
        }
    }

    /// What the files are opened for, given this use and the path of a log, or none: a seed with a log is a
    /// `SeedByLog`.
    pub(crate) fn with_log(self, log: Option<&str>) -> FileUse
        ensures { result ≡ use_with self log.entry }
    {
        match (self, log) {
            (FileUse::Seed, Some(_)) => FileUse::SeedByLog,
            _ => self,
        }
    }
}
