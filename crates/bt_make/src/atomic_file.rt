//! Writing a torrent to its file, wholly or not at all, and the line that tells of it.
ghost use Rattle.std.specs.Prelude.{◌≡◌, ℕ, ◌⊎◌, ◌↔◌, string_bytes, IfOk, IfErr, IfSome, IsTrue, OnOk};
ghost use Rattle.std.specs.Io.KnownBytes.{Appends, Keeps};
ghost use Rattle.std.specs.List.{list_all};
ghost use Rattle.bt_make.specs.AtomicFileSteps.{IsLinkTarget, IsSibling, is_digit, is_part_name, part_name};
ghost use Rattle.bt_meta.specs.Writer.{IsInfohashOf};
ghost use Rattle.bt_check.specs.Fault.{device, out_of_memory};
ghost use Rattle.bt_make.specs.AtomicFile.{infohash_line};

use crate::device_call::of_device;
use crate::new_torrent::NewTorrent;
use bt_check::{Fault, print, system_fault, told};
use bt_progress::{FileCall, Watch};
use std::alloc::{AllocError, Global};
use std::fs::{self, File, Metadata, OpenFile, Permissions};
use std::io::{self, ErrorKind, Write};
use std::os::unix::fs::MetadataExt;
use std::rt::Files;

/// How many symbolic links are followed from a path to its file, as many as Linux follows.
const MAX_LINKS: u32 = 40;

/// A torrent that is ready to be published: with it is the line that tells its infohash.
#[derive(Drop)]
pub struct ReadyTorrent {
    pub torrent: NewTorrent,
    pub line: String,
    ghost spelled: { string_bytes line ≡ infohash_line torrent.infohash },
}

impl ReadyTorrent {
    /// A torrent, and its line.
    pub fn new(alloc: Global, torrent: NewTorrent) -> Result<ReadyTorrent, AllocError>
        ensures { IfOk result (λ ready. ready.torrent ≡ torrent) }
    {
        let digits = hex::encode(alloc, &torrent.infohash)?;
        let line = format!(in alloc; "infohash {digits}\n")?;
        Ok(ReadyTorrent { torrent, line })
    }
}

/// Sees that a file can be written, before the work whose result it is to have: looks where its path leads, and
/// makes a part file beside that, which is removed at once, so that a run that is killed at this work leaves
/// none. A call that fails is told of as [`publish`] would tell of it: a part file that can't be removed could
/// not be renamed.
pub fn probe_file<R: Files + AllocGlobal, P: Watch>(
    rt: &R,
    watch: &P,
    path: &str,
) -> Result<(), Fault>
    ensures { IfErr result (λ fault. (fault ≡ device) ⊎ (fault ≡ out_of_memory)) }
{
    let target = target_at(rt, watch, path)?;
    let path = target.path.as_str();
    let (part, file) = part_beside(rt, watch, path)?;
    // closed first: over a network a file that is removed while it is open stays, by another name
    drop(file);
    let outcome = of_device(fs::remove_file(rt, part.as_str()));
    told(rt.alloc(), watch, FileCall::Rename, path, outcome)
}

/// Writes the text of a torrent to its file, and then the line that tells of it. No file is replaced but here,
/// with the line at hand: out of memory in forming it leaves the old file. A call that fails is told of.
pub fn publish<R: Files + AllocGlobal, P: Watch, O: Write>(
    rt: &R,
    watch: &P,
    path: &str,
    ready: &ReadyTorrent,
    writer: &mut O,
) -> Result<(), Fault>
    ensures line { OnOk result
        (Appends (O.contents writer.old) (O.contents writer.new)
        (infohash_line ready.now.torrent.infohash)) }
    ensures infohash { IsInfohashOf ready.now.torrent.text.items ready.now.torrent.infohash }

    // the file comes first: nothing is told where memory is short
    ensures unsaid { IfErr result
        (λ fault. fault ≡ out_of_memory → Keeps (O.contents writer.old) (O.contents writer.new)) }
    ensures fault { IfErr result (λ fault. (fault ≡ device) ⊎ (fault ≡ out_of_memory)) }
{
    replace_file(rt, watch, path, &ready.torrent.text)?;
    print(writer, ready.line.as_str())
}

/// Writes a file: wholly, or it stays as it was. The bytes go into a new file beside it, which then takes its
/// name, and the mode of the one that was there; its owner and group too, where the user may give them. At the end its
/// folder is synced, so that the name is kept.
///
/// Where the path is a symbolic link, that is the file that it names, and the link stays. Where there is
/// something that is no regular file, that is a device fault, and nothing is changed.
fn replace_file<R: Files + AllocGlobal, P: Watch>(
    rt: &R,
    watch: &P,
    path: &str,
    bytes: &[u8],
) -> Result<(), Fault>
    ensures { IfErr result (λ fault. (fault ≡ device) ⊎ (fault ≡ out_of_memory)) }
{
    let Target { path, access } = target_at(rt, watch, path)?;
    replace_target(rt, watch, path.as_str(), access, bytes)
}

/// The file that is replaced, where a path leads to it. A fault is told of.
fn target_at<R: Files + AllocGlobal, P: Watch>(
    rt: &R,
    watch: &P,
    path: &str,
) -> Result<Target, Fault>
    ensures { IfErr result (λ fault. (fault ≡ device) ⊎ (fault ≡ out_of_memory)) }
{
    told(rt.alloc(), watch, FileCall::Look, path, target_of(rt, path))
}

/// Makes a part file beside the file at a path. A fault is told of.
fn part_beside<R: Files + AllocGlobal, P: Watch>(
    rt: &R,
    watch: &P,
    path: &str,
) -> Result<(String, R::File), Fault>
    ensures part { IfOk result
        (λ part. (number : ℕ) × IsSibling path.now (part_name number) (string_bytes part.0)) }
    ensures fault { IfErr result (λ fault. (fault ≡ device) ⊎ (fault ≡ out_of_memory)) }
{
    told(
        rt.alloc(),
        watch,
        FileCall::Create,
        path,
        create_part(rt, path),
    )
}

/// Writes the file at a path, to which this is the access where it is there.
fn replace_target<R: Files + AllocGlobal, P: Watch>(
    rt: &R,
    watch: &P,
    path: &str,
    access: Option<Access>,
    bytes: &[u8],
) -> Result<(), Fault>
    ensures { IfErr result (λ fault. (fault ≡ device) ⊎ (fault ≡ out_of_memory)) }
{
    // before anything is changed, since it takes memory
    let folder = sibling(rt.alloc(), path, ".")?;
    let (part, mut file) = part_beside(rt, watch, path)?;
    keep_owner(rt, part.as_str(), &access);
    let written = write_part(&mut file, permissions_in(access), bytes);
    match put_in_place(rt, watch, part.as_str(), path, written) {
        Ok(()) => {
            let outcome = sync_folder(rt, folder.as_str());
            told(rt.alloc(), watch, FileCall::Sync, folder.as_str(), outcome)
        }
        Err(fault) => {
            let _ = fs::remove_file(rt, part.as_str());
            Err(fault)
        }
    }
}

/// Gives a part file the name of the file whose place it takes, where it was written. A fault is told of.
fn put_in_place<R: Files + AllocGlobal, P: Watch>(
    rt: &R,
    watch: &P,
    part: &str,
    path: &str,
    written: io::Result<()>,
) -> Result<(), Fault>
    ensures { IfErr result (λ fault. fault ≡ device) }
{
    let outcome = of_device(written);
    told(rt.alloc(), watch, FileCall::Write, path, outcome)?;
    let outcome = of_device(fs::rename(rt, part, path));
    told(rt.alloc(), watch, FileCall::Rename, path, outcome)
}

/// Has the names in a folder kept by its device, where that can be: else nothing more can be done for them.
fn sync_folder<R: Files>(rt: &R, folder: &str) -> Result<(), Fault>
    ensures { IfErr result (λ fault. fault ≡ device) }
{
    match open_and_sync(rt, folder) {
        Ok(()) => Ok(()),
        Err(error) if cannot_sync(error.kind()) => Ok(()),
        Err(_) => Err(Fault::Device),
    }
}

/// Whether an error says that a folder may not be read, or that its file system does not sync folders.
fn cannot_sync(kind: ErrorKind) -> bool
    ensures { IsTrue result ↔ ((kind ≡ ErrorKind.PermissionDenied)
        ⊎ (kind ≡ ErrorKind.InvalidInput) ⊎ (kind ≡ ErrorKind.Unsupported)) }
{
    matches!(
        kind,
        ErrorKind::PermissionDenied | ErrorKind::InvalidInput | ErrorKind::Unsupported
    )
}

/// Syncs the folder at a path.
fn open_and_sync<R: Files>(rt: &R, folder: &str) -> io::Result<()> {
    fs::open(rt, folder)?.sync_all()
}

/// Who may do what with a file: its owner and its group by their numbers, and its mode.
#[derive(Drop)]
struct Access {
    owner: u32,
    group: u32,
    permissions: Permissions,
}

/// The mode of a file that is replaced, if there is one.
fn permissions_in(access: Option<Access>) -> Option<Permissions> {
    Some(access?.permissions)
}

/// Gives a new file the owner and the group of the one that it replaces, or at least the group, where that may be: else
/// it is the user's own.
fn keep_owner<R: Files>(rt: &R, part: &str, access: &Option<Access>) {
    if let Some(access) = access {
        if rt
            .lchown(part, Some(access.owner), Some(access.group))
            .is_err()
        {
            let _ = rt.lchown(part, None, Some(access.group));
        }
    }
}

/// The path of a file that is replaced, at which is a regular file with this access, or nothing.
#[derive(Drop)]
struct Target {
    path: String,
    access: Option<Access>,
}

/// The file that is replaced: at the path itself, or where symbolic links lead from there.
fn target_of<R: Files + AllocGlobal>(rt: &R, path: &str) -> Result<Target, Fault>
    ensures { IfErr result (λ fault. (fault ≡ device) ⊎ (fault ≡ out_of_memory)) }
{
    let mut path = String::from_str(rt.alloc(), path)?;
    // a look at each link, and one at the file to which the last leads
    for _ in 0..=MAX_LINKS {
        match found_at(rt, path.as_str())? {
            Found::Replaceable(access) => return Ok(Target { path, access }),
            Found::Link(next) => path = next,
        }
    }
    Err(Fault::Device)
}

/// What is found where a file is replaced.
#[derive(Drop)]
enum Found {
    /// A regular file with this access, or nothing.
    Replaceable(Option<Access>),
    /// A symbolic link that leads to this path.
    Link(String),
}

/// What lies at a path itself: nothing, a regular file or a link. Anything else is a device fault, and so is the empty
/// path, where no file can be though nothing lies there.
fn found_at<R: Files + AllocGlobal>(rt: &R, path: &str) -> Result<Found, Fault>
    ensures { IfErr result (λ fault. (fault ≡ device) ⊎ (fault ≡ out_of_memory)) }
{
    if path.is_empty() {
        return Err(Fault::Device);
    }
    match fs::symlink_metadata(rt, path) {
        Ok(metadata) => found_by(rt, path, &metadata),
        Err(error) => found_by_none(error.kind()),
    }
}

/// What a look met: a regular file, or a link, which is read. Anything else is a device fault.
fn found_by<R: Files + AllocGlobal>(rt: &R, path: &str, metadata: &Metadata) -> Result<Found, Fault>
    ensures { IfErr result (λ fault. (fault ≡ device) ⊎ (fault ≡ out_of_memory)) }
{
    if metadata.is_file() {
        Ok(Found::Replaceable(Some(access_of(metadata))))
    } else if metadata.is_symlink() {
        Ok(Found::Link(followed_link(rt, path)?))
    } else {
        Err(Fault::Device)
    }
}

/// Who may do what with the file that a look met.
fn access_of(metadata: &Metadata) -> Access {
    Access {
        owner: metadata.uid(),
        group: metadata.gid(),
        permissions: metadata.permissions(),
    }
}

/// What lies where a look failed: nothing, if it failed for that; else that is a device fault.
fn found_by_none(kind: ErrorKind) -> Result<Found, Fault>
    ensures { IfErr result (λ fault. fault ≡ device) }
{
    match kind {
        ErrorKind::NotFound => Ok(Found::Replaceable(None)),
        _ => Err(Fault::Device),
    }
}

/// The path that a symbolic link leads to.
fn followed_link<R: Files + AllocGlobal>(rt: &R, path: &str) -> Result<String, Fault>
    ensures { IfErr result (λ fault. (fault ≡ device) ⊎ (fault ≡ out_of_memory)) }
{
    match rt.read_link(rt.alloc(), path) {
        Ok(link) => Ok(link_target(rt.alloc(), path, link.as_str())?),
        Err(error) => Err(system_fault(error.kind())),
    }
}

/// Where the text of a symbolic link leads: to itself from the top, and else from the folder that the link is
/// in.
fn link_target(alloc: Global, path: &str, text: &str) -> Result<String, AllocError>
    ensures { IfOk result (λ target. IsLinkTarget path.now text.now (string_bytes target)) }
{
    if text.as_bytes().starts_with(b"/") {
        String::from_str(alloc, text)
    } else {
        sibling(alloc, path, text)
    }
}

/// Makes a new file in the same folder, under the first name that is free. A file that is there is not
/// opened.
fn create_part<R: Files + AllocGlobal>(rt: &R, path: &str) -> Result<(String, R::File), Fault>
    ensures part { IfOk result
        (λ part. (number : ℕ) × IsSibling path.now (part_name number) (string_bytes part.0)) }
    ensures fault { IfErr result (λ fault. (fault ≡ device) ⊎ (fault ≡ out_of_memory)) }
{
    for number in 0..u32::MAX {
        if let Some(part) = numbered_part(rt, path, number)? {
            return Ok(part);
        }
    }
    Err(Fault::Device)
}

/// Makes a new file in the same folder, under the name of this number, if that is free. None where it is not.
fn numbered_part<R: Files + AllocGlobal>(
    rt: &R,
    path: &str,
    number: u32,
) -> Result<Option<(String, R::File)>, Fault>
    ensures part { IfOk result
        (λ made. IfSome made (λ part. IsSibling path.now (part_name number)
        (string_bytes part.0))) }
    ensures fault { IfErr result (λ fault. (fault ≡ device) ⊎ (fault ≡ out_of_memory)) }
{
    let part = part_path(rt.alloc(), path, number)?;
    match File::create_new(rt, part.as_str()) {
        Ok(file) => Ok(Some((part, file))),
        Err(error) if error.kind() == ErrorKind::AlreadyExists => Ok(None),
        Err(_) => Err(Fault::Device),
    }
}

/// The path of a part file of this number, beside a path.
fn part_path(alloc: Global, path: &str, number: u32) -> Result<String, AllocError>
    ensures { IfOk result (λ part. IsSibling path.now (part_name number) (string_bytes part)) }
{
    let name = format!(in alloc; ".btseed-{number}.part")?;
    sibling(alloc, path, name.as_str())
}

/// Whether a file of this name is left by a run that was ended while it wrote: `.btseed-`, digits and `.part`.
pub fn is_part_name(name: &[u8]) -> bool
    ensures { result ≡ is_part_name name.now }
{
    name.starts_with(b".btseed-")
        && name.ends_with(b".part")
        && name.len() > 13
        && are_digits(&name[8..name.len() - 5])
}

fn are_digits(text: &[u8]) -> bool
    ensures { result ≡ list_all is_digit text.now }
{
    text.iter().all(|byte| *byte >= b'0' && *byte <= b'9')
}

/// The path of a name in the folder of another path.
fn sibling(alloc: Global, path: &str, name: &str) -> Result<String, AllocError>
    ensures { IfOk result (λ sibling. IsSibling path.now name.now (string_bytes sibling)) }
{
    match path.rsplit_once('/') {
        Some((folder, _)) => format!(in alloc; "{folder}/{name}"),
        None => String::from_str(alloc, name),
    }
}

/// Gives a new file these permissions, where there are some, and then its bytes.
fn write_part<F: OpenFile + Write>(
    file: &mut F,
    permissions: Option<Permissions>,
    bytes: &[u8],
) -> io::Result<()>
    ensures bytes { OnOk result (Appends (F.contents file.old) (F.contents file.new) bytes.now) }
{
    if let Some(permissions) = permissions {
        file.set_permissions(permissions)?;
    }
    write_bytes(file, bytes)
}

/// Writes the bytes, and has them put on the device.
fn write_bytes<F: OpenFile + Write>(file: &mut F, bytes: &[u8]) -> io::Result<()>
    ensures bytes { OnOk result (Appends (F.contents file.old) (F.contents file.new) bytes.now) }
{
    file.write_all(bytes)?;
    file.flush()?;
    file.sync_all()
}
