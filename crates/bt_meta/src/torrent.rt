//! A torrent that was read (BEP 52): its name, piece length, infohash and files, and where a range of a piece
//! lies in them.
ghost use Rattle.std.specs.Prelude.{◌≡◌, ◌+◌, ◌*◌, ◌<◌, ◌≤◌, length, map, IfSome, IfNone};
ghost use Rattle.std.specs.List.{All};
ghost use Rattle.bt_tree.specs.TreeShape.{IsPieceLength};
ghost use Rattle.bt_meta.specs.Limits.{max_piece_count, max_file_count};
ghost use Rattle.bt_meta.specs.Files.{file_of};
ghost use Rattle.bt_meta.specs.Torrent.{metainfo_with, total_pieces, IsLaidOut, HaveAscendingPaths, HaveApartPaths, HaveOneLengthPerRoot, IsLawful, IsLawfulFile};
ghost use Rattle.bt_meta.specs.Place.{IsPlace};
ghost use Rattle.bt_meta.specs.PlaceSteps.{IsLastFileAt, HasNoFileAt};

use crate::file_path::FilePath;
use bt_tree::{BLOCK_LEN, Hash32};
use std::marker::Model;

/// A file of a torrent.
#[derive(Debug, Drop)]
pub struct FileEntry {
    /// The names of the folders that it lies in, from the top, and then its own.
    pub path: FilePath,
    /// How many bytes it has: at most 2^40.
    pub length: u64,
    /// The root of its tree; zeros for an empty file.
    pub root: Hash32,
    /// The index of its first piece; an empty file has that of the next file.
    pub first_piece: u32,
    /// The digests of its pieces, 32 bytes each: for a file longer than one piece, and empty for any other.
    /// It is empty for every file of a torrent that was read from its info dictionary alone.
    pub layer: Vec<u8>,
}

/// Where a range of a piece lies: in one file of the torrent.
#[derive(Clone, Copy, Debug, PartialEq, Eq)]
pub struct Span {
    /// The index of the file.
    pub file: u32,
    /// The byte of the file at which the range begins.
    pub start: u64,
    /// How many bytes it has.
    pub length: u32,
}

/// The longest range that a peer may ask for: one block (BEP 3).
const MAX_RANGE: u32 = BLOCK_LEN as u32;

/// A torrent: its name, its piece length, its infohash and its files.
#[derive(Debug, Drop)]
pub struct Torrent {
    name: Vec<u8>,
    piece_length: u32,
    pieces: u32,
    infohash: Hash32,
    files: Vec<FileEntry>,
}

impl Model for Torrent {
    ghost use Rattle.std.specs.Prelude.{◌≡◌, map};
    ghost use Rattle.bt_meta.specs.Files.{file_of};
    ghost use Rattle.bt_meta.specs.Torrent.{Metainfo, metainfo_with, total_pieces, IsLawful};

    ghost Value = { Metainfo };

    ghost view = { λ t. metainfo_with t.name.items t.piece_length t.infohash t.files.items };

    ghost invariant = { λ t.
        (t.pieces ≡ total_pieces
        (metainfo_with t.name.items t.piece_length t.infohash t.files.items))
        × IsLawful t.piece_length (map file_of t.files.items) };
}

impl Torrent {
    pub(crate) fn new(
        name: Vec<u8>,
        piece_length: u32,
        pieces: u32,
        infohash: Hash32,
        files: Vec<FileEntry>,
    ) -> Self
        requires counted { let torrent = metainfo_with name.items piece_length infohash
            files.items in
            pieces ≡ total_pieces torrent }
        requires lawful { IsLawful piece_length (map file_of files.items) }
        ensures { result ≡ metainfo_with name.items piece_length infohash files.items }
    {
        Torrent {
            name,
            piece_length,
            pieces,
            infohash,
            files,
        }
    }

    /// The name that the torrent's maker gave it. It is advice, and may be any bytes.
    pub fn name(&self) -> &[u8]
        ensures { result.now ≡ self.now.name }
    {
        &self.name
    }

    /// How many bytes a piece has: a power of two from 2^14 to 2^28.
    pub fn piece_length(&self) -> u32
        ensures said { result ≡ self.now.piece_length }
        ensures lawful { IsPieceLength result }
    {
        self.piece_length
    }

    /// How many pieces the torrent's files have: at most 2^21.
    pub fn pieces(&self) -> u32
        ensures counted { result ≡ total_pieces self.now }
        ensures few { result ≤ max_piece_count }
    {
        self.pieces
    }

    /// The SHA-256 of the spelling of `info`.
    pub fn infohash(&self) -> Hash32
        ensures { result ≡ self.now.infohash }
    {
        self.infohash
    }

    /// The torrent's files, in the order of their paths: 1 to 65,536. Every torrent keeps to this: each path is made of
    /// lawful elements, and neither is nor begins another; files that are not empty and have one root have
    /// one length; and a layer that is there gives its file's root.
    pub fn files(&self) -> &[FileEntry]
        ensures said { map file_of result.now ≡ self.now.files }
        ensures some { 0 < length result.now }
        ensures few { length result.now ≤ max_file_count }
        ensures lawful { All (IsLawfulFile self.now.piece_length) (map file_of result.now) }
        ensures laid_out { IsLaidOut self.now.piece_length (map file_of result.now) }
        ensures ascending { HaveAscendingPaths (map file_of result.now) }
        ensures apart { HaveApartPaths (map file_of result.now) }
        ensures one_length { HaveOneLengthPerRoot (map file_of result.now) }
    {
        &self.files
    }

    /// What every torrent keeps to. It does nothing when it runs.
    pub fn keeps_laws(&self)
        ensures lawful { IsLawful self.now.piece_length self.now.files }
        ensures piece { IsPieceLength self.now.piece_length }
        ensures laid_out { IsLaidOut self.now.piece_length self.now.files }
        ensures each { All (IsLawfulFile self.now.piece_length) self.now.files }
    {
        // A proof knows what holds of a torrent only from a step that looks at its fields.
        let _ = &self.files;
    }

    /// Where `length` bytes of a piece lie, from its byte `begin` on. None where `length` is 0 or above
    /// 16,384, or they are not all in the piece.
    pub fn place(&self, piece: u32, begin: u32, length: u32) -> Option<Span>
        ensures some { IfSome result (IsPlace self.now piece begin length) }
        ensures none { IfNone result ((span : Span) → ¬ IsPlace self.now piece begin length span) }
    {
        let Some(index) = self.last_file_at(piece) else {
            return None;
        };
        let file = &self.files[index];
        let at = (piece - file.first_piece) as u64 * self.piece_length as u64;
        let end = begin as u64 + length as u64;
        if length == 0
            || length > MAX_RANGE
            || end > self.piece_length as u64
            || at + end > file.length
        {
            return None;
        }
        Some(Span {
            file: index as u32,
            start: at + begin as u64,
            length,
        })
    }

    /// The last file that begins at the piece or before it. Where a piece is a file's, it is this one's.
    pub(crate) fn last_file_at(&self, piece: u32) -> Option<usize>
        ensures some { IfSome result (IsLastFileAt self.now.files piece) }
        ensures none { IfNone result (HasNoFileAt self.now.files piece) }
    {
        let begun = self.files.partition_point(|file| file.first_piece <= piece);
        begun.checked_sub(1)
    }
}
