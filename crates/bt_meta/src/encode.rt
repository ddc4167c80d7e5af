//! The value that a torrent spells (BEP 52, "metainfo files").
ghost use Rattle.std.specs.Prelude.{◌≡◌, ◌≤◌, List, [], ◌∷◌, ◌++◌, map, IfOk, IfErr, OnOk, string_bytes};
ghost use Rattle.std.specs.List.{All};
ghost use Rattle.bt_bencode.specs.Value.{Entries, no_entries, entry};
ghost use Rattle.bt_bencode.specs.Value.{data_of, entries_of};
ghost use Rattle.bt_tree.specs.Limits.{max_file_length};
ghost use Rattle.bt_meta.specs.GivenFiles.{Given, given_of, HaveTreePaths};
ghost use Rattle.bt_meta.specs.Encode.{AreLayersOf, with_file, properties_made, tree_made, info_made};
ghost use Rattle.bt_meta.specs.EncodeSteps.{HasFirstLayers, AreNonEmpty, given_at, entries_before, ComesAfter, opened, opened_entry, AreEntriesOf, AreShortFiles, IsValueOf};

use crate::writer::Made;
use bt_bencode::Value;
use bt_tree::Hash32;
use std::alloc::{AllocError, Global};
use std::collections::BTreeMap;

/// The keys of a dictionary with their values, in ascending order.
type Entries = Vec<(Vec<u8>, Value)>;

/// The value of a torrent of these files, which are in ascending order of their paths.
#[tactic(auto, using(crate::proofs::Steps::value_of_steps))]
pub(crate) fn value_of(
    alloc: Global,
    name: &[u8],
    piece_length: u32,
    files: &[&Made],
) -> Result<Value, AllocError>
    requires tree_paths { HaveTreePaths (map given_at files.now) }
    requires named { All (λ f. AreNonEmpty f.path) (map given_at files.now) }
    requires short { AreShortFiles files.now }
    ensures { IfOk result (λ value.
        IsValueOf name.now piece_length (map given_at files.now) (data_of value)) }
{
    let info = info_of(alloc, name, piece_length, files)?;
    let layers = layers_of(alloc, piece_length, files)?;
    let layers = Value::Dict(layers);
    let one = entries_with(alloc, Vec::new(alloc), b"info", info)?;
    let both = entries_with(alloc, one, b"piece layers", layers)?;
    Ok(Value::Dict(both))
}

/// The value of `info`.
fn info_of(
    alloc: Global,
    name: &[u8],
    piece_length: u32,
    files: &[&Made],
) -> Result<Value, AllocError>
    requires tree_paths { HaveTreePaths (map given_at files.now) }
    requires named { All (λ f. AreNonEmpty f.path) (map given_at files.now) }
    requires short { AreShortFiles files.now }
    ensures { IfOk result (λ value.
        data_of value ≡ info_made name.now piece_length (map given_at files.now)) }
{
    let tree = tree_of(alloc, files)?;
    let name = Vec::from_slice(alloc, name)?;
    let one = entries_with(alloc, Vec::new(alloc), b"file tree", Value::Dict(tree))?;
    let two = entries_with(alloc, one, b"meta version", Value::Int(2))?;
    let three = entries_with(alloc, two, b"name", Value::Bytes(name))?;
    let piece_length = Value::Int(piece_length as i64);
    let four = entries_with(alloc, three, b"piece length", piece_length)?;
    Ok(Value::Dict(four))
}

/// The tree of files that are in ascending order of their paths.
#[tactic(auto, using(crate::proofs::Steps::tree_of_steps), unfolding(crate::specs::Encode::tree_made))]
fn tree_of(alloc: Global, files: &[&Made]) -> Result<Entries, AllocError>
    requires tree_paths { HaveTreePaths (map given_at files.now) }
    requires named { All (λ f. AreNonEmpty f.path) (map given_at files.now) }
    requires short { AreShortFiles files.now }
    ensures { IfOk result (λ tree. entries_of tree.items ≡ tree_made (map given_at files.now)) }
{
    let mut tree = Vec::new(alloc);
    for file in files {
        tree = folder_with(alloc, tree, &file.path, properties_of(alloc, file)?)?;
    }
    Ok(tree)
}

/// The folder with a file after the others, at a path that comes after theirs.
#[tactic(auto, using(crate::proofs::Steps::folder_with_steps), unfolding(crate::specs::Encode::with_file, crate::specs::Encode::with_entry))]
fn folder_with(
    alloc: Global,
    folder: Entries,
    path: &[String],
    properties: Value,
) -> Result<Entries, AllocError>
    requires { ComesAfter (map string_bytes path.now) (entries_of folder.items) }
    ensures { IfOk result (λ entries.
        entries_of entries.items
        ≡ with_file (map string_bytes path.now) (data_of properties) (entries_of folder.items)) }
{
    let Some((name, rest)) = path.split_first() else {
        return entries_with(alloc, folder, b"", properties);
    };
    let (folder, inner) = open_last(alloc, folder, name.as_bytes())?;
    let inner = folder_with(alloc, inner, rest, properties)?;
    entries_with(alloc, folder, name.as_bytes(), Value::Dict(inner))
}

/// A folder without its last entry, and the entries of that one, where it is a folder of this name; else the
/// folder as it is, and no entries.
#[tactic(auto, using(crate::proofs::Steps::open_last_steps))]
fn open_last(alloc: Global, folder: Entries, name: &[u8]) -> Result<(Entries, Entries), AllocError>
    ensures { IfOk result (λ parts.
        (entries_of parts.0.items, entries_of parts.1.items)
        ≡ opened name.now (entries_of folder.items)) }
{
    let mut folder = folder;
    let Some(last) = folder.pop() else {
        return Ok((folder, Vec::new(alloc)));
    };
    match entries_at(last, name) {
        Ok(inner) => Ok((folder, inner)),
        Err(other) => {
            folder.push(other)?;
            Ok((folder, Vec::new(alloc)))
        }
    }
}

/// The entries of a folder of this name. Any other entry is handed back.
fn entries_at(last: (Vec<u8>, Value), name: &[u8]) -> Result<Entries, (Vec<u8>, Value)>
    ensures entries { IfOk result (λ inner.
        opened_entry name.now last.0.items (data_of last.1)
        ≡ (no_entries, entries_of inner.items)) }
    ensures back { IfErr result (λ other.
        opened_entry name.now last.0.items (data_of last.1)
        ≡ (entry other.0.items (data_of other.1) no_entries, no_entries)) }
{
    let (key, value) = last;
    if key.as_slice() != name {
        return Err((key, value));
    }
    match value {
        Value::Dict(inner) => Ok(inner),
        other => Err((key, other)),
    }
}

/// What a tree says of a file: an empty one has no root.
fn properties_of(alloc: Global, file: &Made) -> Result<Value, AllocError>
    requires { file.now.length ≤ max_file_length }
    ensures { IfOk result (λ value. data_of value ≡ properties_made (given_of file.now)) }
{
    let length = Value::Int(file.length as i64);
    let alone = entries_with(alloc, Vec::new(alloc), b"length", length)?;
    if file.length == 0 {
        return Ok(Value::Dict(alone));
    }
    let root = Vec::from_slice(alloc, &file.root)?;
    let both = entries_with(alloc, alone, b"pieces root", Value::Bytes(root))?;
    Ok(Value::Dict(both))
}

/// The layers by their roots: of the files with one root that of the first.
fn layers_of(alloc: Global, piece_length: u32, files: &[&Made]) -> Result<Entries, AllocError>
    ensures { IfOk result (λ entries.
        AreLayersOf piece_length (map given_at files.now) (entries_of entries.items)) }
{
    let mut layers = BTreeMap::new(alloc);
    for file in files {
        add_layer(&mut layers, piece_length, file)?;
    }
    layer_entries(alloc, &layers)
}

/// Adds the layer of a file, if it is longer than a piece and there is none of its root yet.
#[tactic(auto, using(crate::proofs::Steps::add_layer_steps))]
fn add_layer<'a>(
    layers: &mut BTreeMap<Hash32, &'a [u8]>,
    piece_length: u32,
    file: &'a Made,
) -> Result<(), AllocError>
    ensures { OnOk result ((files : List Given) → HasFirstLayers piece_length files layers.old
        → HasFirstLayers piece_length (files ++ given_of file.now ∷ []) layers.new) }
{
    if file.length <= piece_length as u64 || layers.contains_key(&file.root) {
        return Ok(());
    }
    layers.insert(file.root, file.layer.as_slice())?;
    Ok(())
}

/// The layers as strings at their roots, in ascending order.
#[tactic(auto, using(crate::proofs::Steps::layer_entries_steps))]
fn layer_entries(alloc: Global, layers: &BTreeMap<Hash32, &[u8]>) -> Result<Entries, AllocError>
    ensures { IfOk result (λ entries. AreEntriesOf layers.now (entries_of entries.items)) }
{
    let mut entries = Vec::new(alloc);
    for (root, layer) in layers {
        let layer = Vec::from_slice(alloc, layer)?;
        entries = entries_with(alloc, entries, root, Value::Bytes(layer))?;
    }
    Ok(entries)
}

/// The entries with one more after them.
#[tactic(auto, using(crate::proofs::EncodeValue::entries_push))]
fn entries_with(
    alloc: Global,
    entries: Entries,
    key: &[u8],
    value: Value,
) -> Result<Entries, AllocError>
    ensures { IfOk result (λ more.
        entries_of more.items
        ≡ entries_before (entries_of entries.items) (entry key.now (data_of value) no_entries)) }
{
    let mut entries = entries;
    let key = Vec::from_slice(alloc, key)?;
    entries.push((key, value))?;
    Ok(entries)
}
