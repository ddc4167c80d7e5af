//! What a torrent leaves out of a folder.

use crate::folder::{EntryKind, FolderEntry, follow};
use bt_check::found_path;
use std::alloc::{AllocError, Global};
use std::fs::{self, DirEntry};
use std::path::Path;
use std::rt::Files;

/// How many entries of a folder a torrent leaves out, and how many folders in it have none that it takes.
#[derive(Clone, Copy)]
pub struct LeftOut {
    links: u64,
    others: u64,
    empty_folders: u64,
}

impl LeftOut {
    /// What the torrent of these entries leaves out of a folder, of which those that can't be listed are none.
    pub fn of_folder<R: Files + AllocGlobal + Clone + Drop>(
        rt: &R,
        dir: &str,
        entries: &[FolderEntry],
    ) -> Result<LeftOut, AllocError> {
        let mut left_out = LeftOut {
            links: 0,
            others: 0,
            empty_folders: empty_folders(entries),
        };
        let mut path = Vec::new(rt.alloc());
        left_out.add_folder(rt, dir, &path)?;
        for entry in entries {
            follow(&mut path, entry)?;
            match entry.kind {
                EntryKind::File => {}
                EntryKind::Folder => left_out.add_folder(rt, dir, &path)?,
            }
        }
        Ok(left_out)
    }

    /// Whether that is nothing.
    pub fn is_nothing(self) -> bool {
        self.links == 0 && self.others == 0 && self.empty_folders == 0
    }

    /// How it is told.
    pub fn text(self, alloc: Global) -> Result<String, AllocError> {
        let LeftOut {
            links,
            others,
            empty_folders,
        } = self;
        format!(in alloc;
            "left out: symbolic links {links}, empty folders {empty_folders}, others {others}"
        )
    }

    /// Counts the entries of the folder that has this path.
    fn add_folder<R: Files + AllocGlobal + Clone + Drop>(
        &mut self,
        rt: &R,
        dir: &str,
        path: &[String],
    ) -> Result<(), AllocError> {
        let folder = found_path(rt.alloc(), dir, path)?;
        self.add_listed(rt, folder.as_path());
        Ok(())
    }

    /// Counts the entries of the folder at a path, if it can be listed.
    fn add_listed<R: Files + AllocGlobal + Clone + Drop>(&mut self, rt: &R, folder: Path<'_>) {
        let Ok(entries) = fs::read_dir(rt, folder) else {
            return;
        };
        for entry in entries {
            if let Ok(entry) = entry {
                self.add(&entry);
            }
        }
    }

    /// Counts an entry, if it is left out.
    fn add<R: Files>(&mut self, entry: &DirEntry<R>) {
        if let Ok(file_type) = entry.file_type() {
            if file_type.is_symlink() {
                self.links = self.links.saturating_add(1);
            } else if !file_type.is_file() && !file_type.is_dir() {
                self.others = self.others.saturating_add(1);
            }
        }
    }
}

/// How many folders among these entries have none of them in them: behind such a one stands none that lies deeper.
fn empty_folders(entries: &[FolderEntry]) -> u64 {
    let mut count: u64 = 0;
    let mut last: Option<usize> = None;
    for entry in entries {
        if let Some(depth) = last
            && entry.depth <= depth
        {
            count = count.saturating_add(1);
        }
        last = folder_depth(entry);
    }
    match last {
        Some(_) => count.saturating_add(1),
        None => count,
    }
}

/// How deep an entry lies, if it is a folder.
fn folder_depth(entry: &FolderEntry) -> Option<usize> {
    match entry.kind {
        EntryKind::File => None,
        EntryKind::Folder => Some(entry.depth),
    }
}
