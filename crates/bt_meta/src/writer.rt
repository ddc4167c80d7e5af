//! Making torrents.
ghost use Rattle.std.specs.Prelude.{◌≡◌, ◌≤◌, ◌++◌, ◌∷◌, [], ◌⊎◌, List, map, IfOk, OnOk, IfErr, MatchResult, string_bytes, None, true, false};
ghost use Rattle.std.specs.List.{All};
ghost use Rattle.std.specs.List.Sorted.{IsSortedBy};
ghost use Rattle.std.specs.Result.{result_err};
ghost use Rattle.bt_tree.specs.Limits.{max_file_length};
ghost use Rattle.bt_meta.specs.TreeEntries.{with_earlier};
ghost use Rattle.bt_meta.specs.Faults.{first_of, is_piece_length as is_lawful_piece_length};
ghost use Rattle.bt_meta.specs.GivenFiles.{Given, given_of, content_given, HasRoot, IsInTreeOrder, path_order, is_before, begins as begins_path};
ghost use Rattle.bt_meta.specs.WriterRefusals.{file_refusal, own_refusal, layer_refusal, conflict_with};
ghost use Rattle.bt_meta.specs.Faults.{is_path as is_lawful_path, is_element as is_lawful_element};
ghost use Rattle.bt_meta.specs.Writer.{IsMade, IsInfohashOf, have_overlap, IsNotMade};
ghost use Rattle.bt_meta.specs.PropertySteps.{HasLengths};
ghost use Rattle.bt_meta.specs.WriterSteps.{IsTallyOf, IsWithinLimits, Refuses, RefusesFile};
ghost use Rattle.bt_meta.specs.EncodeSteps.{given_at};
ghost use Rattle.bt_meta.specs.declared.writer.MakeError.TheVariants.{OutOfMemory as out_of_memory, RootConflict as root_conflict};

use crate::encode::value_of;
use crate::error::MetaError;
use crate::file_path::MAX_PATH_LENGTH;
use crate::layers::check as check_bytes;
use crate::properties::{note_length, path_element};
use crate::reader::{MAX_TEXT_LENGTH, infohash_in, is_lawful_length};
use crate::walk::{MAX_FILES, MAX_PIECES};
use bt_bencode::write;
use bt_tree::{Hash32, MAX_FILE_LENGTH};
use std::alloc::{AllocError, Global};
use std::cmp::Ordering;
use std::collections::BTreeMap;
use thiserror::Error;

/// A file that a torrent is made of.
#[derive(Debug, Drop)]
pub struct Made {
    /// The names of the folders that it lies in, from the top, and then its own: 1 to 64 elements.
    pub path: Vec<String>,
    /// How many bytes it has: at most 2^40.
    pub length: u64,
    /// The root of its tree. That of an empty file is not looked at.
    pub root: Hash32,
    /// The digests of its pieces, 32 bytes each: for a file longer than one piece, and empty for any other.
    pub layer: Vec<u8>,
}

/// Why no torrent is made. The first that applies is returned: that of the piece length, then that there is
/// no file, then those of each file in the order given, then that a path is or begins another, and then that
/// the text is too long; but `OutOfMemory` may stand in place of any.
#[derive(Clone, Copy, Debug, PartialEq, Eq, Error)]
pub enum MakeError {
    /// The piece length is no power of two from 2^14 to 2^28.
    #[error("N1 PieceLength")]
    PieceLength,
    /// A path has no element; or one that is empty, `.` or `..`, or has `/` or a zero byte. Or a path is that
    /// of another file, or of a folder that another file lies in.
    #[error("N2 BadPath")]
    BadPath,
    /// A file has more than 2^40 bytes.
    #[error("N3 FileLength")]
    FileLength,
    /// A layer does not have 32 bytes for each piece of its file; or stands where none belongs.
    #[error("N4 LayerSize")]
    LayerSize,
    /// A layer gives another root than its file's.
    #[error("N5 LayerDiffers")]
    LayerDiffers,
    /// Two files have one root and two lengths.
    #[error("N6 RootConflict")]
    RootConflict,
    /// There is no file; or more than 64 elements in a path, 65,536 files, 2^21 pieces or 2^27 bytes of text.
    #[error("N7 Count")]
    Count,
    #[error("N8 OutOfMemory")]
    OutOfMemory,
}

impl From<AllocError> for MakeError {
    ghost from_gives = { λ _ e. e ≡ out_of_memory };

    fn from(_error: AllocError) -> Self {
        MakeError::OutOfMemory
    }
}

/// The text of the torrent of these files, with this name, as [`make_torrent`] makes it.
///
/// Errors: those of [`make_torrent`].
pub fn make(
    alloc: Global,
    name: &[u8],
    piece_length: u32,
    files: &[Made],
) -> Result<Vec<u8>, MakeError>
    ensures made { IfOk result (λ text. IsMade name.now piece_length
        (map given_of files.now) text.items) }
    ensures apart { OnOk result (have_overlap (map given_of files.now) ≡ false) }
    ensures refused { IfErr result (IsNotMade name.now piece_length (map given_of files.now)) }
{
    Ok(make_torrent(alloc, name, piece_length, files)?.text)
}

/// A torrent that was made.
#[derive(Debug, Drop)]
pub struct MadeTorrent {
    /// The torrent's bytes.
    pub text: Vec<u8>,
    /// The SHA-256 of the bytes of `info` in it.
    pub infohash: Hash32,
}

/// The torrent of these files, with this name: the canonical bencoding of its keys, with the files in the
/// order of their paths; and its infohash.
///
/// Errors: the first of [`MakeError`] that applies, in the order told there.
#[tactic(auto, using(crate::proofs::Steps::make_steps), unfolding(crate::specs::WriterRefusals::refusal_of_files))]
pub fn make_torrent(
    alloc: Global,
    name: &[u8],
    piece_length: u32,
    files: &[Made],
) -> Result<MadeTorrent, MakeError>
    ensures made { IfOk result (λ made.
        IsMade name.now piece_length (map given_of files.now) made.text.items) }
    ensures infohash { IfOk result (λ made. IsInfohashOf made.text.items made.infohash) }
    ensures apart { OnOk result (have_overlap (map given_of files.now) ≡ false) }
    ensures refused { IfErr result (IsNotMade name.now piece_length (map given_of files.now)) }
{
    if !is_lawful_length(piece_length) {
        return Err(MakeError::PieceLength);
    }
    if files.is_empty() {
        return Err(MakeError::Count);
    }
    check_files(alloc, piece_length, files)?;
    let ordered = in_tree_order(alloc, files)?;
    if has_overlap(&ordered) {
        return Err(MakeError::BadPath);
    }
    let value = value_of(alloc, name, piece_length, &ordered)?;
    let text = write(alloc, &value)?;
    if text.len() > MAX_TEXT_LENGTH {
        return Err(MakeError::Count);
    }
    let infohash = infohash_in(&value, &text);
    Ok(MadeTorrent { text, infohash })
}

/// Refuses the first file that is not lawful, in the order given.
#[tactic(auto, using(crate::proofs::Steps::check_files_steps))]
fn check_files(alloc: Global, piece_length: u32, files: &[Made]) -> Result<(), MakeError>
    requires { is_lawful_piece_length piece_length ≡ true }
    ensures rooted { OnOk result (All HasRoot (map given_of files.now)) }
    ensures checked { let refusals = with_earlier (file_refusal piece_length) []
        (map given_of files.now) in
        let refusal = first_of refusals in
        MatchResult result (λ _. refusal ≡ None) (Refuses refusal) }
{
    let mut tally = Tally {
        files: 0,
        pieces: 0,
        lengths: BTreeMap::new(alloc),
    };
    for file in files {
        tally.take(piece_length, file)?;
    }
    Ok(())
}

/// What was taken of the files so far.
#[derive(Drop)]
struct Tally {
    files: usize,
    pieces: u64,
    /// The length of the files of each root; those that are empty are left out.
    lengths: BTreeMap<Hash32, u64>,
}

impl Tally {
    /// Takes one file more, or refuses it.
    fn take(&mut self, piece_length: u32, file: &Made) -> Result<(), MakeError>
        requires lawful { is_lawful_piece_length piece_length ≡ true }
        requires within { IsWithinLimits self.old }
        ensures rooted { OnOk result (HasRoot (given_of file.now)) }
        ensures within { OnOk result (IsWithinLimits self.new) }
        ensures taken { OnOk result ((files : List Given) → IsTallyOf piece_length files self.old
            → IsTallyOf piece_length (files ++ given_of file.now ∷ []) self.new) }
        ensures faultless { OnOk result ((files : List Given)
            → IsTallyOf piece_length files self.old
            → file_refusal piece_length files (given_of file.now) ≡ None) }
        ensures refused { IfErr result (λ e. (files : List Given)
            → IsTallyOf piece_length files self.old
            → RefusesFile piece_length files (given_of file.now) e) }
    {
        check_file(piece_length, file)?;
        check_root(&mut self.lengths, file)?;
        self.files += 1;
        self.pieces += file.length.div_ceil(piece_length as u64);
        if file.path.len() > MAX_PATH_LENGTH || self.files > MAX_FILES || self.pieces > MAX_PIECES {
            return Err(MakeError::Count);
        }
        Ok(())
    }
}

/// Refuses a file whose path, length or layer is not lawful.
fn check_file(piece_length: u32, file: &Made) -> Result<(), MakeError>
    requires { is_lawful_piece_length piece_length ≡ true }
    ensures refusal { result_err result ≡ own_refusal piece_length (given_of file.now) }
    ensures short { OnOk result (file.now.length ≤ max_file_length) }
{
    if !is_path(&file.path) {
        return Err(MakeError::BadPath);
    }
    if file.length > MAX_FILE_LENGTH {
        return Err(MakeError::FileLength);
    }
    check_layer(piece_length, file)
}

/// Whether the elements may be a file's path.
fn is_path(path: &[String]) -> bool
    ensures { result ≡ is_lawful_path (map string_bytes path.now) }
{
    !path.is_empty() && path.iter().all(|element| is_element(element.as_str()))
}

/// Whether the element may stand in a path.
fn is_element(element: &str) -> bool
    ensures { result ≡ is_lawful_element element.now }
{
    !element.is_empty() && path_element(element.as_bytes()).is_some()
}

/// Refuses a file whose layer is not the one of its pieces.
fn check_layer(piece_length: u32, file: &Made) -> Result<(), MakeError>
    requires lawful { is_lawful_piece_length piece_length ≡ true }
    requires short { file.now.length ≤ max_file_length }
    ensures { result_err result ≡ layer_refusal piece_length (given_of file.now) }
{
    if file.length <= piece_length as u64 {
        return if file.layer.is_empty() {
            Ok(())
        } else {
            Err(MakeError::LayerSize)
        };
    }
    match check_bytes(&file.root, file.length, piece_length, &file.layer) {
        Ok(()) => Ok(()),
        Err(MetaError::LayerSize) => Err(MakeError::LayerSize),
        Err(_) => Err(MakeError::LayerDiffers),
    }
}

/// Refuses a file whose root is that of an earlier file of another length.
#[tactic(auto, using(crate::proofs::Steps::check_root_steps))]
fn check_root(lengths: &mut BTreeMap<Hash32, u64>, file: &Made) -> Result<(), MakeError>
    ensures rooted { HasRoot (given_of file.now) }
    ensures noted { OnOk result ((files : List Given) → HasLengths lengths.old
        (map content_given files)
        → HasLengths lengths.new (map content_given (files ++ given_of file.now ∷ []))) }
    ensures alike { OnOk result ((files : List Given) → HasLengths lengths.old
        (map content_given files)
        → conflict_with files (given_of file.now) ≡ false) }
    ensures refused { IfErr result (λ e. (files : List Given)
        → HasLengths lengths.old (map content_given files)
        → ((e ≡ out_of_memory) × (conflict_with files (given_of file.now) ≡ false))
        ⊎ ((e ≡ root_conflict) × (conflict_with files (given_of file.now) ≡ true))) }
{
    match note_length(lengths, file.root, file.length) {
        Ok(()) => Ok(()),
        Err(MetaError::OutOfMemory) => Err(MakeError::OutOfMemory),
        Err(_) => Err(MakeError::RootConflict),
    }
}

/// The files by their paths, in ascending order.
fn in_tree_order<'a>(alloc: Global, files: &'a [Made]) -> Result<Vec<&'a Made>, AllocError>
    ensures { IfOk result (λ ordered. IsInTreeOrder (map given_of files.now)
        (map given_at ordered.items)) }
{
    let mut ordered = references(alloc, files)?;
    ordered.sort_by(|file, other| order_of(&file.path, &other.path))?;
    Ok(ordered)
}

/// The files, by reference.
fn references<'a>(alloc: Global, files: &'a [Made]) -> Result<Vec<&'a Made>, AllocError>
    ensures { IfOk result (λ references. map given_at references.items ≡ map given_of files.now) }
{
    let mut references = Vec::new(alloc);
    for file in files {
        references.push(file)?;
    }
    Ok(references)
}

/// How two paths stand to each other, as lists of byte strings.
#[tactic(auto, using(crate::proofs::MakeFiles::order_by_bytes))]
fn order_of(path: &[String], other: &[String]) -> Ordering
    ensures { result ≡ path_order (map string_bytes path.now) (map string_bytes other.now) }
{
    path.cmp(other)
}

/// Whether a path is or begins another. In tree order this is so just where a path begins the next one.
#[tactic(auto, using(crate::proofs::Steps::has_overlap_steps))]
fn has_overlap(files: &[&Made]) -> bool
    requires { IsSortedBy is_before (map given_at files.now) }
    ensures { result ≡ have_overlap (map given_at files.now) }
{
    for i in 1..files.len() {
        if begins(&files[i - 1].path, &files[i].path) {
            return true;
        }
    }
    false
}

/// Whether the path begins the other, or is the other.
#[tactic(auto, using(crate::proofs::MakeFiles::begins_by_bytes))]
fn begins(path: &[String], other: &[String]) -> bool
    ensures { result ≡ begins_path (map string_bytes path.now) (map string_bytes other.now) }
{
    other.starts_with(path)
}
