//! What the system tells of a file when it is opened.
ghost use Rattle.std.specs.Prelude.{◌≡◌, ◌↔◌, IsTrue, None, false};
ghost use Rattle.std.specs.Fs.{metadata_len};

use std::fs::Metadata;
use std::os::unix::fs::MetadataExt;

/// By what the system tells files apart: the number of the device that a file lies on, and that of its inode
/// there. Two paths with one identity are one file.
#[derive(Clone, Copy, Debug, PartialEq, Eq)]
pub struct FileIdentity {
    pub device: u64,
    pub inode: u64,
}

/// What the system told of a file when it was opened.
#[derive(Clone, Copy, Debug, PartialEq, Eq)]
pub struct Opening {
    /// None, where the file is absent or the system tells none.
    pub identity: Option<FileIdentity>,
    /// How many bytes it had: none, where it is absent or was made.
    pub len: u64,
    /// It was not there at the look before, and was opened to be written.
    pub was_made: bool,
}

impl Opening {
    /// That of an absent file.
    pub(crate) fn absent() -> Self
        ensures { result ≡ record { identity = None; len = 0; was_made = false } }
    {
        Opening {
            identity: None,
            len: 0,
            was_made: false,
        }
    }

    /// That of an open file of which the system tells this.
    pub(crate) fn of_open(metadata: &Metadata, was_made: bool) -> Self
        ensures len { result.len ≡ metadata_len metadata.now }
        ensures was_made { result.was_made ≡ was_made }
    {
        Opening {
            identity: identity_of(metadata),
            len: metadata.len(),
            was_made,
        }
    }
}

/// Whether a file that is opened again is the one that was opened first, by what the system tells.
pub(crate) fn is_same_file(first: Option<FileIdentity>, again: Option<FileIdentity>) -> bool
    ensures { IsTrue result ↔ (again ≡ first) }
{
    match (first, again) {
        (Some(first), Some(again)) => first.device == again.device && first.inode == again.inode,
        (None, None) => true,
        _ => false,
    }
}

/// The identity that a file's metadata have. No file has the inode 0: it stands where the system tells none.
fn identity_of(metadata: &Metadata) -> Option<FileIdentity> {
    match metadata.ino() {
        0 => None,
        inode => Some(FileIdentity {
            device: metadata.dev(),
            inode,
        }),
    }
}
