//! The limits on a torrent's files, by what is known of them before they are read.
ghost use Rattle.std.specs.Prelude.{◌≡◌, ◌+◌, ◌≤◌, IfOk, OnOk};
ghost use Rattle.std.specs.Result.{result_err};
ghost use Rattle.bt_meta.specs.Files.{piece_count};
ghost use Rattle.bt_meta.specs.Limits.{max_file_count, max_piece_count};
ghost use Rattle.bt_tree.specs.Limits.{max_file_length};
ghost use Rattle.bt_make.specs.Limits.{count_refusal};

use bt_check::PieceSize;
use bt_meta::{MAX_FILE_LENGTH, MAX_FILES, MAX_PATH_LENGTH, MAX_PIECES, MakeError};

/// How many files and pieces a torrent has so far.
#[derive(Clone, Copy)]
pub struct Counts {
    pub files: usize,
    pub pieces: u64,
    ghost few: { files ≤ max_file_count },
    ghost limit: { pieces ≤ max_piece_count },
}

impl Counts {
    /// The counts of a torrent without a file.
    pub fn new() -> Self
        ensures files { result.files ≡ 0 }
        ensures pieces { result.pieces ≡ 0 }
    {
        Counts {
            files: 0,
            pieces: 0,
        }
    }

    /// The counts with one file more, by the elements in its path and its bytes. It is refused as the library
    /// refuses it once it has its digests: where it is too long, or a file, an element or a piece too much.
    pub fn with(self, elements: usize, length: u64, size: PieceSize) -> Result<Self, MakeError>
        ensures refused { result_err result
            ≡ count_refusal self.files self.pieces size.bytes elements length }
        ensures short { OnOk result (length ≤ max_file_length) }
        ensures files { IfOk result (λ counts. counts.files ≡ self.files + 1) }
        ensures pieces { IfOk result (λ counts. counts.pieces ≡ self.pieces
            + piece_count size.bytes length) }
    {
        if length > MAX_FILE_LENGTH {
            return Err(MakeError::FileLength);
        }
        let files = self.files + 1;
        let pieces = self.pieces + length.div_ceil(size.bytes as u64);
        if elements > MAX_PATH_LENGTH || files > MAX_FILES || pieces > MAX_PIECES {
            return Err(MakeError::Count);
        }
        Ok(Counts { files, pieces })
    }
}
