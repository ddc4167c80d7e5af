//! The folders on the way to a file, and what is new in them.
ghost use Rattle.std.specs.Prelude.{IfErr};
ghost use Rattle.bt_files.specs.OpenFolder.{IsCallFault};

use bt_check::{Fault, found_path, told};
use bt_folder::{folder_above, make_folders, sync_folder};
use bt_meta::FilePath;
use bt_progress::{FileCall, Watch};
use std::alloc::Global;
use std::path::Path;
use std::rt::Files;

/// The folders on the way to a file: the first is the folder of the torrent's files, and each other lies in the one
/// before it. The way goes from the folder of one file to that of the next. As it leaves a folder in which something
/// is new, that folder is synced, and with the first folder those that its path leads through. In the order of a
/// torrent the way enters and leaves each folder once.
#[derive(Drop)]
pub(crate) struct FolderTrail {
    /// The names of the folders below the first one.
    names: Vec<String>,
    /// Whether the way has begun: then the first folder is there.
    has_begun: bool,
    /// In how many of the folders, counted from the first one, something may be new.
    new_count: usize,
}

impl FolderTrail {
    /// A way that has not begun.
    pub(crate) fn new(alloc: Global) -> Self {
        FolderTrail {
            names: Vec::new(alloc),
            has_begun: false,
            new_count: 0,
        }
    }

    /// Goes on to the folder of a file in `dir`. That folder, and those above it, are made where they are missing.
    /// Errors: a folder can't be made or synced, of which the watch is told; memory is refused.
    pub(crate) fn go_to<R: Files + AllocGlobal, P: Watch>(
        &mut self,
        rt: &R,
        watch: &P,
        dir: &str,
        file: &FilePath,
    ) -> Result<(), Fault>
        ensures fault { IfErr result IsCallFault }
    {
        self.begin(rt, watch, dir)?;
        let elements = file.elements();
        let elements = elements.as_slice();
        let depth = elements.len().saturating_sub(1);
        let folders = elements.get(..depth).unwrap_or(&[]);
        let shared = self.shared_len(folders);
        self.go_back(rt, watch, dir, shared)?;
        for name in folders.iter().skip(shared) {
            self.enter(rt, watch, dir, name)?;
        }
        Ok(())
    }

    /// Notes that something is new in the folder that the way has come to. Each folder above it counts as new too: a
    /// run that was killed may have made it, and not have synced the folder that it lies in.
    pub(crate) fn add_new(&mut self) {
        self.new_count = self.names.len().saturating_add(1);
    }

    /// Leaves all folders. Where something is new in the first one, the folders that its path leads through are
    /// synced too: the first folder itself, and each of them, may have been made and not synced. Errors: a folder
    /// can't be synced, of which the watch is told; memory is refused.
    pub(crate) fn end<R: Files + AllocGlobal, P: Watch>(
        &mut self,
        rt: &R,
        watch: &P,
        dir: &str,
    ) -> Result<(), Fault>
        ensures fault { IfErr result IsCallFault }
    {
        self.go_back(rt, watch, dir, 0)?;
        let has_new = self.new_count > 0;
        self.leave(rt, watch, dir)?;
        if has_new {
            sync_above(rt, watch, dir)?;
        }
        Ok(())
    }

    /// Makes the first folder, where the way has not begun. Errors: it can't be made, of which the watch is told.
    fn begin<R: Files + AllocGlobal, P: Watch>(
        &mut self,
        rt: &R,
        watch: &P,
        dir: &str,
    ) -> Result<(), Fault>
        ensures fault { IfErr result IsCallFault }
    {
        if self.has_begun {
            return Ok(());
        }
        let made = make_folders(rt, dir).map_err(|_| Fault::Device);
        told(rt.alloc(), watch, FileCall::Create, dir, made)?;
        self.has_begun = true;
        Ok(())
    }

    /// How many of these folders, from the first on, the way is in already.
    fn shared_len(&self, folders: &[&str]) -> usize {
        for (place, folder) in folders.iter().enumerate() {
            match self.names.get(place) {
                Some(name) if name.as_str() == *folder => {}
                _ => return place,
            }
        }
        folders.len()
    }

    /// Leaves all folders but the first one and `depth` below it.
    fn go_back<R: Files + AllocGlobal, P: Watch>(
        &mut self,
        rt: &R,
        watch: &P,
        dir: &str,
        depth: usize,
    ) -> Result<(), Fault>
        ensures fault { IfErr result IsCallFault }
    {
        for _ in depth..self.names.len() {
            self.leave(rt, watch, dir)?;
        }
        Ok(())
    }

    /// Goes into a folder, and makes it where it is missing.
    fn enter<R: Files + AllocGlobal, P: Watch>(
        &mut self,
        rt: &R,
        watch: &P,
        dir: &str,
        name: &str,
    ) -> Result<(), Fault>
        ensures fault { IfErr result IsCallFault }
    {
        self.names.push(String::from_str(rt.alloc(), name)?)?;
        let folder = found_path(rt.alloc(), dir, &self.names)?;
        if was_made(rt, watch, folder.as_path())? {
            self.add_new();
        }
        Ok(())
    }

    /// Leaves the last folder, and syncs it where something is new in it.
    fn leave<R: Files + AllocGlobal, P: Watch>(
        &mut self,
        rt: &R,
        watch: &P,
        dir: &str,
    ) -> Result<(), Fault>
        ensures fault { IfErr result IsCallFault }
    {
        let depth = self.names.len();
        if self.new_count > depth {
            let folder = found_path(rt.alloc(), dir, &self.names)?;
            sync(rt, watch, folder.as_path())?;
            self.new_count = depth;
        }
        self.names.pop();
        Ok(())
    }
}

/// Makes a folder in one that is there, and gives whether it was missing. The watch is told of a fault.
fn was_made<R: Files + AllocGlobal, P: Watch>(
    rt: &R,
    watch: &P,
    folder: Path<'_>,
) -> Result<bool, Fault>
    ensures fault { IfErr result IsCallFault }
{
    let made = match rt.create_dir(folder.as_str()) {
        Ok(()) => Ok(true),
        Err(_) if is_folder(rt, folder.as_str()) => Ok(false),
        Err(_) => Err(Fault::Device),
    };
    told(rt.alloc(), watch, FileCall::Create, folder.as_str(), made)
}

fn is_folder<R: Files>(rt: &R, path: &str) -> bool {
    match rt.metadata(path) {
        Ok(metadata) => metadata.is_dir(),
        Err(_) => false,
    }
}

/// Syncs the folders that the path of a folder leads through, so that the name of each is kept, the last one first.
/// The watch is told of a fault.
fn sync_above<R: Files + AllocGlobal, P: Watch>(
    rt: &R,
    watch: &P,
    folder: &str,
) -> Result<(), Fault>
    ensures fault { IfErr result IsCallFault }
{
    for path in Path::new(folder).ancestors() {
        if let Some(above) = folder_above(path.as_str()) {
            sync(rt, watch, Path::new(above))?;
        }
    }
    Ok(())
}

/// Syncs a folder, so that what was made in it is kept. The watch is told of a fault.
fn sync<R: Files + AllocGlobal, P: Watch>(rt: &R, watch: &P, folder: Path<'_>) -> Result<(), Fault>
    ensures fault { IfErr result IsCallFault }
{
    let synced = sync_folder(rt, folder.as_str()).map_err(|_| Fault::Device);
    told(rt.alloc(), watch, FileCall::Sync, folder.as_str(), synced)
}
