//! The command `make`.
ghost use Rattle.std.specs.Prelude.{◌≡◌, ◌≤◌, ◌<◌, ◌↔◌, ◌⊎◌, ◌+◌, [], None, false, length, map, string_bytes, IfOk, IfErr, OnOk, IsErrAnd, IsTrue};
ghost use Rattle.std.specs.Result.{result_err};
ghost use Rattle.bt_meta.specs.Files.{piece_count};
ghost use Rattle.bt_meta.specs.GivenFiles.{given_of};
ghost use Rattle.bt_meta.specs.Writer.{IsInfohashOf, IsMade, IsNotMade, have_overlap};
ghost use Rattle.bt_make.specs.Limits.{count_refusal};
ghost use Rattle.std.specs.List.{All};
ghost use Rattle.bt_tree.specs.TreeShape.{IsPieceLength};
ghost use Rattle.bt_meta.specs.declared.writer.MakeError.TheVariants.{PieceLength};
ghost use Rattle.bt_meta.specs.Limits.{max_file_count, max_piece_count};
ghost use Rattle.bt_tree.specs.Limits.{max_file_length};
ghost use Rattle.bt_check.specs.Digests.{IsDigestFault};
ghost use Rattle.bt_check.specs.Fault.{device, make_fault, out_of_memory};
ghost use Rattle.bt_make.specs.Folder.{Ascend, HasElement, IsListingFault, file_paths};
ghost use Rattle.bt_make.specs.Command.{HasContent, IsFilesFault, IsMakeFault, IsMakeTorrent, IsMeasuringFault, IsTorrentOf, first_count_refusal, total_piece_count};
ghost use Rattle.bt_make.specs.CommandSteps.{AddsFile, AreOfSomeBytes, IsFileRefusal, elements_in, file_of_made};

use crate::atomic_file::probe_file;
use crate::device_call::of_device;
use crate::folder::{EntryKind, FolderEntry, files_in, follow};
use crate::hints::{
    hint_at_change, hint_at_conflict, hint_at_file, hint_at_left_out, hint_at_length,
    hint_at_limit, hint_at_name,
};
use crate::limits::Counts;
use crate::new_torrent::NewTorrent;
use bt_check::{
    BUFFER_LEN, Digests, Fault, PieceSize, digest_reader, fault_name, found_path, is_device_fault,
    told,
};
use bt_devices::Watched;
use bt_meta::{Made, MadeTorrent, MakeError, make_torrent, torrents_are_made_from_files};
use bt_progress::{FileCall, Watch};
use bt_words::MakeTask;
use std::alloc::{AllocError, Global};
use std::fs::{self, Metadata};
use std::os::unix::fs::MetadataExt;
use std::path::Path;
use std::rt::Files;

/// Makes the torrent of a folder. The first fault ends it, and is looked for in the piece length, then in the
/// folder; then in the file that the torrent is written to, which is to be none of the folder's; then in these and
/// how long they are; then in whether that file can be written, so that this is not told after hours of reads;
/// and then in what these have. The reads are watched, and a fault of the device is told of. Errors: no torrent is
/// made of such a folder, or of pieces of this length; the torrent's file is one of the folder's; a call on a file
/// failed, or a file has other bytes than it had; out of memory.
pub fn make<R: Files + AllocGlobal + Clone + Drop, P: Watch>(
    rt: &R,
    watch: &P,
    request: MakeTask<'_>,
) -> Result<NewTorrent, Fault>
    ensures torrent { IfOk result
        (IsMakeTorrent request.entry.name.now request.entry.piece_length) }
    ensures length { ¬ IsPieceLength request.entry.piece_length
        → IsErrAnd result (λ fault. fault ≡ make_fault PieceLength) }
    ensures fault { IfErr result (IsMakeFault request.entry.name.now request.entry.piece_length) }
{
    let Some(size) = PieceSize::new(request.piece_length) else {
        return Err(Fault::Make(MakeError::PieceLength));
    };
    hint_at_name(watch, request.name);
    let entries = entries_in(rt, watch, request.dir)?;
    if is_among(rt, watch, request.out, request.dir, &entries)? {
        return Err(Fault::OutAmongFiles);
    }
    let outcome = torrent_of(
        rt,
        watch,
        request.dir,
        request.out,
        request.name,
        size,
        entries,
    );
    hint_at_length(rt, watch, request.dir, request.piece_length, &outcome);
    outcome
}

/// The entries of a folder, as [`files_in`] has them. What it leaves out is told, and so is a file in the folder's place.
fn entries_in<R: Files + AllocGlobal + Clone + Drop, P: Watch>(
    rt: &R,
    watch: &P,
    dir: &str,
) -> Result<Vec<FolderEntry>, Fault>
    ensures named { IfOk result (λ entries. All HasElement (file_paths [] entries.items)) }
    ensures ascending { IfOk result (λ entries. Ascend (file_paths [] entries.items)) }
    ensures fault { IfErr result IsListingFault }
{
    let outcome = files_in(rt, watch, dir);
    match &outcome {
        Ok(entries) => hint_at_left_out(rt, watch, dir, entries),
        Err(_) => hint_at_file(rt, watch, dir),
    }
    outcome
}

/// Whether the file at a path, if there is one, is one of these of a folder: also by another name of it, or by
/// a link. What else is wrong with it [`probe_file`] tells.
fn is_among<R: Files + AllocGlobal, P: Watch>(
    rt: &R,
    watch: &P,
    out: &str,
    dir: &str,
    entries: &[FolderEntry],
) -> Result<bool, Fault>
    ensures { IfErr result (λ fault. (fault ≡ device) ⊎ (fault ≡ out_of_memory)) }
{
    let Ok(out) = fs::metadata(rt, out) else {
        return Ok(false);
    };
    let mut path = Vec::new(rt.alloc());
    for entry in entries {
        if is_met(rt, watch, &out, dir, &mut path, entry)? {
            return Ok(true);
        }
    }
    Ok(false)
}

/// Goes on to an entry from the one before it, which had this path, and says whether it is the file that a look met.
fn is_met<R: Files + AllocGlobal, P: Watch>(
    rt: &R,
    watch: &P,
    out: &Metadata,
    dir: &str,
    path: &mut Vec<String>,
    entry: &FolderEntry,
) -> Result<bool, Fault>
    ensures { IfErr result (λ fault. (fault ≡ device) ⊎ (fault ≡ out_of_memory)) }
{
    follow(path, entry)?;
    match entry.kind {
        EntryKind::Folder => Ok(false),
        EntryKind::File => {
            let file = file_at(rt, watch, dir, path)?;
            Ok(is_same_file(out, &file))
        }
    }
}

/// What a look at the file of a folder that has this path meets. A fault is told of.
fn file_at<R: Files + AllocGlobal, P: Watch>(
    rt: &R,
    watch: &P,
    dir: &str,
    path: &[String],
) -> Result<Metadata, Fault>
    ensures { IfErr result (λ fault. (fault ≡ device) ⊎ (fault ≡ out_of_memory)) }
{
    let path = found_path(rt.alloc(), dir, path)?;
    let outcome = of_device(fs::metadata(rt, path.as_path()));
    told(
        rt.alloc(),
        watch,
        FileCall::Look,
        path.as_path().as_str(),
        outcome,
    )
}

/// Whether two looks met the same file.
fn is_same_file(one: &Metadata, other: &Metadata) -> bool {
    is_one_inode(one.dev(), one.ino(), other.dev(), other.ino())
}

/// Whether two files are one inode of one device. A file system that tells no inodes says 0 of each, which is none.
fn is_one_inode(device: u64, inode: u64, other_device: u64, other_inode: u64) -> bool
    ensures { IsTrue result ↔ ((0 < inode) × (device ≡ other_device) × (inode ≡ other_inode)) }
{
    inode > 0 && device == other_device && inode == other_inode
}

/// Makes the torrent of the files among these entries of a folder, which is to be written to the file `out`: before
/// any of them is read, it is seen that this can be done.
fn torrent_of<R: Files + AllocGlobal, P: Watch>(
    rt: &R,
    watch: &P,
    dir: &str,
    out: &str,
    name: &str,
    size: PieceSize,
    entries: Vec<FolderEntry>,
) -> Result<NewTorrent, Fault>
    ensures torrent { IfOk result (IsTorrentOf (file_paths [] entries.items) name.now size.bytes) }
    ensures fault { IfErr result (IsFilesFault (file_paths [] entries.items) name.now size.bytes) }
{
    let alloc = rt.alloc();
    torrents_are_made_from_files();
    watch.begin(FileCall::Read);
    let files = measured_files(rt, watch, dir, entries, size)?;
    // Of no file no torrent is made.
    if !files.is_empty() {
        probe_file(rt, watch, out)?;
    }
    let files = read_files(rt, watch, dir, files, size)?;
    let made = torrent_with(alloc, watch, dir, name.as_bytes(), size.bytes, &files)?;
    let infohash = made.infohash;
    Ok(NewTorrent {
        text: made.text,
        infohash,
    })
}

/// The torrent of these files of a folder. Where two of them have one root and other lengths, it is told which they are.
fn torrent_with<P: Watch>(
    alloc: Global,
    watch: &P,
    dir: &str,
    name: &[u8],
    piece_length: u32,
    files: &[Made],
) -> Result<MadeTorrent, MakeError>
    ensures made { IfOk result (λ made.
        IsMade name.now piece_length (map given_of files.now) made.text.items) }
    ensures infohash { IfOk result (λ made. IsInfohashOf made.text.items made.infohash) }
    ensures apart { OnOk result (have_overlap (map given_of files.now) ≡ false) }
    ensures refused { IfErr result (IsNotMade name.now piece_length (map given_of files.now)) }
{
    let outcome = make_torrent(alloc, name, piece_length, files);
    hint_at_conflict(alloc, watch, dir, files, &outcome);
    outcome
}

/// A file of the folder: its path below it, and how many bytes it has.
#[derive(Drop)]
pub struct FolderFile {
    pub path: Vec<String>,
    pub length: u64,
}

/// The files among these entries of a folder, with their lengths. Where one is too long for a torrent, or they
/// are too many, that is told before any is read, and before its path is kept.
fn measured_files<R: Files + AllocGlobal, P: Watch>(
    rt: &R,
    watch: &P,
    dir: &str,
    entries: Vec<FolderEntry>,
    size: PieceSize,
) -> Result<Vec<FolderFile>, Fault>
    ensures each { IfOk result (λ files. map elements_in files.items
        ≡ file_paths [] entries.items) }
    ensures faultless { IfOk result (λ files. first_count_refusal size.bytes files.items ≡ None) }
    ensures short { IfOk result (λ files. All (λ file. file.length ≤ max_file_length) files.items) }
    ensures count { IfOk result (λ files. length files.items ≤ max_file_count) }
    ensures pieces { IfOk result (λ files. total_piece_count size.bytes files.items
        ≤ max_piece_count) }
    ensures fault { IfErr result (IsMeasuringFault (file_paths [] entries.items) size.bytes) }
{
    let mut counts = Counts::new();
    let mut files = Vec::new(rt.alloc());
    let mut path = Vec::new(rt.alloc());
    for entry in entries {
        follow(&mut path, &entry)?;
        match entry.kind {
            EntryKind::Folder => {}
            EntryKind::File => {
                counts = add_file(rt, watch, dir, &path, size, counts, &mut files)?;
            }
        }
    }
    Ok(files)
}

/// Adds the file of a folder that has this path to those counted so far, and gives the counts with it.
fn add_file<R: Files + AllocGlobal, P: Watch>(
    rt: &R,
    watch: &P,
    dir: &str,
    path: &[String],
    size: PieceSize,
    counts: Counts,
    files: &mut Vec<FolderFile>,
) -> Result<Counts, Fault>
    ensures added { IfOk result (λ next. AddsFile size.bytes counts.files counts.pieces path.now
        files.old.items files.new.items next.files next.pieces) }
    ensures fault { IfErr result (λ fault. (fault ≡ device) ⊎ (fault ≡ out_of_memory)
        ⊎ IsFileRefusal size.bytes counts.files counts.pieces path.now fault) }
{
    let length = file_at(rt, watch, dir, path)?.len();
    watch.expect(length);
    let counts = counted(rt.alloc(), watch, dir, path, size, counts, length)?;
    files.push(file_with(rt.alloc(), path, length)?)?;
    Ok(counts)
}

/// The counts with the file of a folder that has this path and so many bytes. Where that is refused, it is told of.
fn counted<P: Watch>(
    alloc: Global,
    watch: &P,
    dir: &str,
    path: &[String],
    size: PieceSize,
    counts: Counts,
    bytes: u64,
) -> Result<Counts, MakeError>
    ensures refused { result_err result
        ≡ count_refusal counts.files counts.pieces size.bytes (length path.now) bytes }
    ensures short { OnOk result (bytes ≤ max_file_length) }
    ensures files { IfOk result (λ next. next.files ≡ counts.files + 1) }
    ensures pieces { IfOk result (λ next. next.pieces ≡ counts.pieces
        + piece_count size.bytes bytes) }
{
    let outcome = counts.with(path.len(), bytes, size);
    if outcome.is_err() {
        hint_at_limit(alloc, watch, dir, path, counts.files, bytes);
    }
    outcome
}

/// A file of the folder that has this path.
fn file_with(alloc: Global, path: &[String], length: u64) -> Result<FolderFile, AllocError>
    ensures path { IfOk result (λ file. elements_in file ≡ map string_bytes path.now) }
    ensures length { IfOk result (λ file. file.length ≡ length) }
{
    let mut copy = Vec::with_capacity(alloc, path.len())?;
    for element in path {
        copy.push(element.clone()?)?;
    }
    Ok(FolderFile { path: copy, length })
}

/// What a torrent says of each of these files of the folder.
fn read_files<R: Files + AllocGlobal, P: Watch>(
    rt: &R,
    watch: &P,
    dir: &str,
    files: Vec<FolderFile>,
    size: PieceSize,
) -> Result<Vec<Made>, Fault>
    requires { All (λ file. file.length ≤ max_file_length) files.items }
    ensures each { IfOk result (λ made. map file_of_made made.items ≡ files.items) }
    ensures contents { IfOk result (λ made. All (HasContent size.layer) made.items) }
    ensures fault { IfErr result (λ fault. (fault ≡ device) ⊎ (fault ≡ out_of_memory)) }
{
    let mut buffer = [0; BUFFER_LEN];
    let mut made = Vec::new(rt.alloc());
    for file in files {
        made.push(read_file(rt, watch, dir, file, size, &mut buffer)?)?;
    }
    Ok(made)
}

/// What a torrent says of a file of the folder.
fn read_file<R: Files + AllocGlobal, P: Watch>(
    rt: &R,
    watch: &P,
    dir: &str,
    file: FolderFile,
    size: PieceSize,
    buffer: &mut [u8; BUFFER_LEN],
) -> Result<Made, Fault>
    ensures digests { IfOk result (HasContent size.layer) }
    ensures path { IfOk result (λ made. made.path ≡ file.path) }
    ensures length { IfOk result (λ made. made.length ≡ file.length) }
    ensures fault { IfErr result (IsDigestFault file.length) }
{
    let FolderFile { path, length } = file;
    let data = found_path(rt.alloc(), dir, &path)?;
    let Digests { root, layer } = digests_at(rt, watch, data.as_path(), length, size, buffer)?;
    Ok(Made {
        path,
        length,
        root,
        layer,
    })
}

/// The digests of the file at a path, which has `bytes` bytes.
fn digests_at<R: Files + AllocGlobal, P: Watch>(
    rt: &R,
    watch: &P,
    path: Path<'_>,
    bytes: u64,
    size: PieceSize,
    buffer: &mut [u8; BUFFER_LEN],
) -> Result<Digests, Fault>
    ensures digests { IfOk result (AreOfSomeBytes bytes size.layer) }
    ensures fault { IfErr result (IsDigestFault bytes) }
{
    let mut reader = open_watched(rt, watch, path)?;
    let outcome = digest_reader(rt.alloc(), &mut reader, bytes, size, buffer);
    // No call failed, where the file has another length than it had.
    let failed = is_device_fault(&outcome);
    reader.tell(FileCall::Read, failed);
    if failed {
        hint_at_change(rt, watch, path.as_str(), bytes);
    }
    outcome
}

/// Opens a file of the folder to read it, and tells of its calls.
fn open_watched<'a, R: Files + AllocGlobal, P: Watch>(
    rt: &R,
    watch: &'a P,
    path: Path<'_>,
) -> Result<Watched<'a, R::File, P>, Fault>
    ensures { IfErr result (λ fault. (fault ≡ device) ⊎ (fault ≡ out_of_memory)) }
{
    let name = fault_name(rt.alloc(), watch, path.as_str())?;
    let outcome = open_file(rt, path);
    let file = told(rt.alloc(), watch, FileCall::Open, path.as_str(), outcome)?;
    Ok(Watched::new(file, watch, name))
}

/// Opens a file of the folder to read it. What is no regular file any more is a device fault, and is not
/// opened, since a pipe would wait for a writer.
pub fn open_file<R: Files>(rt: &R, path: Path<'_>) -> Result<R::File, Fault>
    ensures { IfErr result (λ fault. fault ≡ device) }
{
    match fs::metadata(rt, path) {
        Ok(metadata) if metadata.is_file() => {}
        _ => return Err(Fault::Device),
    }
    of_device(fs::open(rt, path))
}
