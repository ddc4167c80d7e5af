//! The walk over a file tree, in tree order.
ghost use Rattle.std.specs.Prelude.{◌≡◌, ◌+◌, ◌∷◌, [], List, OnOk, IfErr, MatchOption, MatchResult, true, false};
ghost use Rattle.bt_bencode.specs.Value.{data_of};
ghost use Rattle.bt_meta.specs.TreeEntries.{tree_entries_below};
ghost use Rattle.bt_meta.specs.Faults.{first_of, is_node, is_piece_length, tree_checks};
ghost use Rattle.bt_meta.specs.ReaderSteps.{Refuses, IsListing};
ghost use Rattle.bt_meta.specs.WalkSteps.{Passes, Stops, Enters, StopsAtEntry, IsNodeOf, AtFile};
ghost use Rattle.bt_meta.specs.FilePath.{folder_elements};

use crate::error::MetaError;
use crate::fields::{dictionary, has, is_dictionary, is_single};
use crate::file_path::{FilePath, FolderPath, MAX_PATH_LENGTH, folder_length};
use crate::properties::{FileFacts, file_facts, note_length, path_element};
use crate::torrent::FileEntry;
use bt_bencode::Value;
use bt_tree::Hash32;
use std::alloc::Global;
use std::collections::BTreeMap;
use std::rc::Rc;

/// How many files a torrent has at most.
pub const MAX_FILES: usize = 65536;

/// How many pieces a torrent has at most: 2^21.
pub const MAX_PIECES: u64 = 1 << 21;

/// The files of a tree, without their layers, and how many pieces they have together.
#[derive(Drop)]
pub(crate) struct Listing {
    pub(crate) files: Vec<FileEntry>,
    pub(crate) pieces: u32,
}

/// What a walk has found so far.
#[derive(Drop)]
struct Walk {
    files: Vec<FileEntry>,
    pieces: u32,
    /// The length of the files of each root; those that are empty are left out.
    lengths: BTreeMap<Hash32, u64>,
}

/// An entry of a file tree.
#[derive(Clone, Copy)]
enum Node<'a> {
    Folder,
    /// A file, with its properties.
    File(&'a Value),
}

/// The files of the tree.
#[tactic(auto, using(crate::proofs::Steps::read_tree_steps))]
pub(crate) fn read_tree(
    alloc: Global,
    tree: &Value,
    piece_length: u32,
) -> Result<Listing, MetaError>
    requires { is_piece_length piece_length ≡ true }
    ensures { MatchResult result
        (IsListing piece_length (data_of tree.now))
        (Refuses (first_of (tree_checks piece_length (data_of tree.now)))) }
{
    if has(tree, b"") {
        return Err(MetaError::Tree);
    }
    let mut walk = Walk {
        files: Vec::new(alloc),
        pieces: 0,
        lengths: BTreeMap::new(alloc),
    };
    walk_folder(alloc, &mut walk, tree, &None, piece_length)?;
    if walk.files.as_slice().is_empty() {
        return Err(MetaError::Tree);
    }
    Ok(Listing {
        files: walk.files,
        pieces: walk.pieces,
    })
}

/// Walks over what lies in a folder with this path.
#[tactic(auto, using(crate::proofs::Steps::walk_folder_steps))]
fn walk_folder(
    alloc: Global,
    walk: &mut Walk,
    folder: &Value,
    path: &FolderPath,
    piece_length: u32,
) -> Result<(), MetaError>
    requires { is_piece_length piece_length ≡ true }
    ensures passed { OnOk result (
        Passes piece_length
        (tree_entries_below (folder_elements path.now) (data_of folder.now)) walk.old walk.new) }
    ensures stopped { IfErr result (
        Stops piece_length (tree_entries_below (folder_elements path.now) (data_of folder.now))
        walk.old) }
{
    let entries = match folder {
        Value::Dict(entries) => entries,
        Value::Int(_) | Value::Bytes(_) | Value::List(_) => return Ok(()),
    };
    for (key, value) in entries {
        if let Some(inner) = enter(alloc, walk, path, key, value, piece_length)? {
            let inner = Some(Rc::new(alloc, inner)?);
            walk_folder(alloc, walk, value, &inner, piece_length)?;
        }
    }
    Ok(())
}

/// Tests an entry of a folder with this path. A file is put to the others; of a folder the path is returned.
fn enter(
    alloc: Global,
    walk: &mut Walk,
    path: &FolderPath,
    key: &[u8],
    value: &Value,
    piece_length: u32,
) -> Result<Option<FilePath>, MetaError>
    requires { is_piece_length piece_length ≡ true }
    ensures { MatchResult result
        (Enters piece_length (folder_elements path.now) key.now
        (data_of value.now) walk.old walk.new)
        (StopsAtEntry piece_length (folder_elements path.now) key.now
        (data_of value.now) walk.old) }
{
    if key.is_empty() {
        return Ok(None);
    }
    let Some(node) = node_of(value) else {
        return Err(MetaError::Tree);
    };
    let Some(name) = path_element(key) else {
        return Err(MetaError::BadPath);
    };
    match node {
        Node::File(properties) => {
            add_file(alloc, walk, path, name, properties, piece_length)?;
            Ok(None)
        }
        Node::Folder => {
            if folder_length(path) >= MAX_PATH_LENGTH {
                return Err(MetaError::TooMany);
            }
            Ok(Some(FilePath::inside(alloc, path, name)?))
        }
    }
}

/// What the value is as an entry of a file tree, if it is one.
#[tactic(auto, using(crate::proofs::Dictionaries::single_below), unfolding(crate::specs::Faults::is_node))]
fn node_of(value: &Value) -> Option<Node<'_>>
    ensures { MatchOption result (is_node (data_of value.now) ≡ false)
        (IsNodeOf (data_of value.now)) }
{
    if !is_dictionary(value) {
        return None;
    }
    if !has(value, b"") {
        return Some(Node::Folder);
    }
    if !is_single(value) {
        return None;
    }
    match dictionary(value, b"") {
        Some(properties) => Some(Node::File(properties)),
        None => None,
    }
}

/// Puts a file with these properties to those of the walk.
fn add_file(
    alloc: Global,
    walk: &mut Walk,
    folder: &FolderPath,
    name: &str,
    properties: &Value,
    piece_length: u32,
) -> Result<(), MetaError>
    requires { is_piece_length piece_length ≡ true }
    ensures passed { OnOk result (AtFile (folder_elements folder.now) name.now
        (data_of properties.now) (λ p.
        Passes piece_length (p ∷ []) walk.old walk.new)) }
    ensures stopped { IfErr result (λ e.
        AtFile (folder_elements folder.now) name.now (data_of properties.now) (λ p.
        Stops piece_length (p ∷ []) walk.old e)) }
{
    let FileFacts { length, root } = file_facts(properties)?;
    note_length(&mut walk.lengths, root, length)?;
    let pieces = walk.pieces as u64 + length.div_ceil(piece_length as u64);
    let depth = folder_length(folder);
    if depth >= MAX_PATH_LENGTH || walk.files.len() >= MAX_FILES || pieces > MAX_PIECES {
        return Err(MetaError::TooMany);
    }
    let path = FilePath::inside(alloc, folder, name)?;
    walk.files.push(FileEntry {
        path,
        length,
        root,
        first_piece: walk.pieces,
        layer: Vec::new(alloc),
    })?;
    walk.pieces = pieces as u32;
    Ok(())
}
