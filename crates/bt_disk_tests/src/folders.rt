//! What `bt_folder` does with folders, and with files that have several names.

use crate::bytes::tell_whether;
use crate::shop::Shop;
use bt_disk::{FileDisk, FileIdentity, Opening};
use bt_folder::{CasePaths, FolderNames, KnownFiles, ListingError, make_folders, sync_folder};
use bt_rows::{RowError, Words, tell};
use std::alloc::{AllocError, Global};
use std::fs;

pub fn folder_row(
    shop: &mut Shop<'_>,
    name: &str,
    words: &mut Words,
    out: &mut String,
) -> Result<(), RowError> {
    match name {
        "seal" => seal_row(shop, out),
        "known" => known_row(shop, words, out),
        "case" => case_row(shop, words, out),
        "listed" => listed_row(shop, words, out),
        "paths" => paths_row(shop, words, out),
        "hard" => hard_row(shop, words, out),
        _ => sync_row(shop, name, words, out),
    }
}

/// Closes the seal, for the rest of the run.
fn seal_row(shop: &Shop, out: &mut String) -> Result<(), RowError> {
    shop.seal.close();
    tell_whether(out, shop.seal.is_closed(), "closed", "open")
}

/// Whether a file is a further one to those that were asked for before.
fn known_row(shop: &mut Shop, words: &mut Words, out: &mut String) -> Result<(), RowError> {
    let path = shop.path(words)?;
    match identity_of(shop.host, path.as_str()) {
        Some(file) => tell_known(&mut shop.known, file, out),
        None => tell(out, "not told"),
    }
}

fn tell_known(
    known: &mut KnownFiles,
    file: FileIdentity,
    out: &mut String,
) -> Result<(), RowError> {
    let is_further = known.insert(file)?;
    tell_whether(out, is_further, "further", "known")
}

fn identity_of(host: &HostRuntime, path: &str) -> Option<FileIdentity> {
    opening_of(host, path).and_then(|opening| opening.identity)
}

fn opening_of(host: &HostRuntime, path: &str) -> Option<Opening> {
    match FileDisk::reading(host, path) {
        Ok(disk) => Some(disk.opening()),
        Err(_) => None,
    }
}

/// The name that was given before and is this one but for case.
fn case_row(shop: &mut Shop, words: &mut Words, out: &mut String) -> Result<(), RowError> {
    match twin_of(shop, words.word())? {
        Some(twin) => tell(out, twin.as_str()),
        None => tell(out, "none"),
    }
}

fn twin_of(shop: &mut Shop, name: &str) -> Result<Option<String>, AllocError> {
    shop.names.insert(shop.host.alloc(), name)
}

/// Whether the listing of a folder has a name.
fn listed_row(shop: &Shop, words: &mut Words, out: &mut String) -> Result<(), RowError> {
    let folder = shop.path(words)?;
    tell(out, listed(shop.host, folder.as_str(), words.word()))
}

fn listed(host: &HostRuntime, folder: &str, name: &str) -> &'static str {
    match FolderNames::read(host, folder) {
        Ok(names) if names.has(name) => "listed",
        Ok(_) => "not listed",
        Err(ListingError::Device) => "fault",
        Err(ListingError::OutOfMemory) => "out of memory",
    }
}

/// Looks at paths below a folder, in turn, until one has a name that is not its own.
fn paths_row(shop: &Shop, words: &mut Words, out: &mut String) -> Result<(), RowError> {
    let folder = shop.path(words)?;
    let mut paths = CasePaths::new(shop.alloc());
    for _ in 0..16 {
        let path = words.word();
        if path.is_empty() {
            return tell(out, "all their own");
        }
        let elements = elements_of(shop.alloc(), path)?;
        match paths.is_own(shop.host, folder.as_str(), &elements) {
            Ok(true) => {}
            Ok(false) => return tell(out, path),
            Err(_) => return tell(out, "fault"),
        }
    }
    Err(RowError::Unread)
}

fn elements_of<'p>(alloc: Global, path: &'p str) -> Result<Vec<&'p str>, AllocError> {
    let mut elements = Vec::new(alloc);
    for element in path.split('/') {
        elements.push(element)?;
    }
    Ok(elements)
}

/// A second name of a file: the path of the next word is the new one.
fn hard_row(shop: &Shop, words: &mut Words, out: &mut String) -> Result<(), RowError> {
    let link = shop.path(words)?;
    let file = shop.path(words)?;
    let made = fs::hard_link(shop.host, file.as_str(), link.as_str());
    tell_whether(out, made.is_ok(), "done", "refused")
}

/// Makes folders, or syncs one, of the system that stands in for the host's.
fn sync_row(shop: &Shop, name: &str, words: &mut Words, out: &mut String) -> Result<(), RowError> {
    let path = shop.path(words)?;
    let made = match name {
        "folders" => make_folders(&shop.system(), path.as_str()),
        "keep" => sync_folder(&shop.system(), path.as_str()),
        _ => return Err(RowError::Unread),
    };
    tell_whether(out, made.is_ok(), "done", "fault")
}
