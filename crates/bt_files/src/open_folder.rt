//! A folder whose files are opened, one after the other.
ghost use Rattle.std.specs.Prelude.{◌≡◌, ◌⊎◌, ◌↔◌, false, true, IfErr, IfOk, IfSome, IsSomeAnd, IsTrue, MatchBool, OnOk};
ghost use Rattle.bt_folder.specs.KnownFiles.{IsKnown};
ghost use Rattle.bt_files.specs.FileUse.{is_read_only};
ghost use Rattle.bt_files.specs.OpenFolder.{IsAdded, IsCallFault, IsCallFaultOr, IsFileFault, IsUnused};

use crate::file_use::FileUse;
use crate::folder_trail::FolderTrail;
use bt_check::{Fault, data_path};
use bt_disk::{FileIdentity, Opening};
use bt_folder::KnownFiles;
use bt_meta::FilePath;
use bt_progress::Watch;
use std::alloc::{AllocError, Global};
use std::rt::Files;

/// The files of a torrent that were opened in a folder so far, as the system tells them apart: no two of them are one
/// file. What is new among them, and the folders on their way, are synced. Of a read-only use nothing is known, and
/// two of the files may be one.
#[derive(Drop)]
pub(crate) struct OpenFolder {
    files: KnownFiles,
    trail: FolderTrail,
}

impl OpenFolder {
    /// A folder of which no file was opened yet.
    pub(crate) fn new(alloc: Global) -> Self
        ensures { IsUnused result }
    {
        OpenFolder {
            files: KnownFiles::new(alloc),
            trail: FolderTrail::new(alloc),
        }
    }

    /// Goes on to the folder of the next file, in the order of the torrent, and makes it where it is missing. For a
    /// read-only use nothing is done. Errors: a folder can't be made or synced; memory is refused.
    pub(crate) fn go_to<R: Files + AllocGlobal, P: Watch>(
        &mut self,
        rt: &R,
        watch: &P,
        usage: FileUse,
        dir: &str,
        path: &FilePath,
    ) -> Result<(), Fault>
        ensures files { self.new.files ≡ self.old.files }
        ensures fault { IfErr result IsCallFault }
    {
        if usage.is_read_only() {
            return Ok(());
        }
        self.trail.go_to(rt, watch, dir, path)
    }

    /// Notes that the file at `path` was opened. Errors: by what the system tells of it, it is a file that was opened
    /// before, of which the watch is told with the path; memory is refused.
    pub(crate) fn add<P: Watch>(
        &mut self,
        alloc: Global,
        watch: &P,
        usage: FileUse,
        dir: &str,
        path: &FilePath,
        opening: Opening,
    ) -> Result<(), Fault>
        ensures further { OnOk result (is_read_only usage ≡ false
            → IfSome opening.identity (λ file. ¬ IsKnown self.old.files file)) }
        ensures added { OnOk result (is_read_only usage ≡ false
            → IsAdded self.old.files opening.identity self.new.files) }
        ensures kept { OnOk result (is_read_only usage ≡ true → self.new ≡ self.old) }
        ensures fault { IfErr result (IsFileFault usage self.old.files opening.identity) }
    {
        if usage.is_read_only() {
            return Ok(());
        }
        self.add_file(alloc, watch, dir, path, opening.identity)?;
        self.keep(opening);
        Ok(())
    }

    /// Ends the way, once all files were opened: the folders in which something is new are synced. Errors: a folder
    /// can't be synced; memory is refused.
    pub(crate) fn end<R: Files + AllocGlobal, P: Watch>(
        &mut self,
        rt: &R,
        watch: &P,
        usage: FileUse,
        dir: &str,
    ) -> Result<(), Fault>
        ensures files { self.new.files ≡ self.old.files }
        ensures fault { IfErr result IsCallFault }
    {
        if usage.is_read_only() {
            return Ok(());
        }
        self.trail.end(rt, watch, dir)
    }

    /// The files that were opened, as the system tells them apart.
    pub(crate) fn into_files(self) -> KnownFiles
        ensures { result ≡ self.files }
    {
        let OpenFolder { files, .. } = self;
        files
    }

    /// Notes that a file may be new, so that its folder is synced.
    fn keep(&mut self, opening: Opening)
        ensures { self.new.files ≡ self.old.files }
    {
        if is_new(opening) {
            self.trail.add_new();
        }
    }

    /// Adds a file by what the system tells of it. Errors: it is a file that was opened before; memory is refused.
    fn add_file<P: Watch>(
        &mut self,
        alloc: Global,
        watch: &P,
        dir: &str,
        path: &FilePath,
        identity: Option<FileIdentity>,
    ) -> Result<(), Fault>
        ensures further { OnOk result (IfSome identity (λ file. ¬ IsKnown self.old.files file)) }
        ensures added { OnOk result (IsAdded self.old.files identity self.new.files) }
        ensures fault { IfErr result (IsCallFaultOr (IsSomeAnd identity (IsKnown self.old.files))) }
    {
        if self.is_own_file(identity)? {
            return Ok(());
        }
        tell_same_file(alloc, watch, dir, path)?;
        Err(Fault::SameFile)
    }

    /// Adds a file by what the system tells of it, and gives whether it is none of those that were opened before. A
    /// file of which the system tells nothing counts as none of them.
    fn is_own_file(&mut self, identity: Option<FileIdentity>) -> Result<bool, AllocError>
        ensures is_own { IfOk result (λ is_own. MatchBool is_own
            (IfSome identity (λ file. ¬ IsKnown self.old.files file))
            (IsSomeAnd identity (IsKnown self.old.files))) }
        ensures added { OnOk result (IsAdded self.old.files identity self.new.files) }
    {
        match identity {
            Some(file) => self.files.insert(file),
            None => Ok(true),
        }
    }
}

/// Whether the name of a file may not be kept yet: the file was made now, or has no byte. An empty file may have been
/// made by an earlier run that was killed before it synced the folders; a file with bytes was not, since blocks are
/// written only once all folders with something new are synced.
fn is_new(opening: Opening) -> bool
    ensures { IsTrue result ↔ (IsTrue opening.was_made ⊎ (opening.len ≡ 0)) }
{
    opening.was_made || opening.len == 0
}

/// Tells the watch that this path leads to the same file as one before it.
pub(crate) fn tell_same_file<P: Watch>(
    alloc: Global,
    watch: &P,
    dir: &str,
    path: &FilePath,
) -> Result<(), AllocError> {
    let path = data_path(alloc, dir, path)?;
    let name = path.as_path();
    let text = format!(in alloc;
        "{}: it is the file of another path of this torrent",
        name.as_str()
    )?;
    watch.tell(text.as_str());
    Ok(())
}
