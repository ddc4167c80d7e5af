//! The layers that a torrent's `piece layers` hold.
ghost use Rattle.std.specs.Prelude.{◌≡◌, ◌<◌, ◌≤◌, map, OnOk, IfErr, option_copied, None, Some, true};
ghost use Rattle.std.specs.Option.{option_map};
ghost use Rattle.std.specs.Result.{result_err};
ghost use Rattle.bt_bencode.specs.Value.{dictionary as dictionary_of};
ghost use Rattle.bt_bencode.specs.Doc.{HasAscendingKeys, EntriesAscend};
ghost use Rattle.bt_bencode.specs.Dictionary.{first_value_of};
ghost use Rattle.bt_bencode.specs.Value.{data_of, entries_of};
ghost use Rattle.bt_tree.specs.Limits.{max_file_length};
ghost use Rattle.bt_tree.specs.Blocks.{IsFileLength};
ghost use Rattle.bt_meta.specs.Fields.{string_at};
ghost use Rattle.bt_meta.specs.Files.{file_of};
ghost use Rattle.bt_meta.specs.Faults.{first_of, is_piece_length, layers_of};
ghost use Rattle.bt_meta.specs.ReaderSteps.{Refuses, AreShort};
ghost use Rattle.bt_meta.specs.LayerSteps.{HasStringsOf, with_layer, layer_fault, layer_faults, layer_bytes_fault, AreRight, IsNotedRight};
ghost use Rattle.bt_meta.specs.PropertySteps.{length_at};

use crate::error::MetaError;
use crate::fields::{as_string, dictionary, entries};
use crate::torrent::FileEntry;
use bt_bencode::Value;
use bt_tree::{Geometry, Hash32, LayerError, Plain, check_layer};
use std::alloc::Global;
use std::collections::BTreeMap;

/// Gives each file that is longer than a piece its layer, out of the `piece layers` of the torrent.
pub(crate) fn add_layers(
    alloc: Global,
    files: &mut Vec<FileEntry>,
    torrent: &Value,
    piece_length: u32,
) -> Result<(), MetaError>
    requires lawful { is_piece_length piece_length ≡ true }
    requires short { AreShort (map file_of files.old.items) }
    requires ascending { HasAscendingKeys (data_of torrent.now) }
    ensures whole { OnOk result (map file_of files.new.items
        ≡ map (with_layer piece_length (layers_of (data_of torrent.now)))
        (map file_of files.old.items)) }
    ensures faultless { OnOk result (
        first_of (layer_faults piece_length (layers_of (data_of torrent.now))
        (map file_of files.old.items))
        ≡ None) }
    ensures refused { IfErr result (Refuses (first_of (
        layer_faults piece_length (layers_of (data_of torrent.now))
        (map file_of files.old.items)))) }
{
    let entries = layer_entries(torrent);
    add_layers_of(alloc, files, entries, piece_length)
}

/// The entries of `piece layers`; none where it is absent or no dictionary.
#[tactic(auto, using(crate::proofs::Steps::layers_there), unfolding(crate::specs::Faults::layers_of, crate::specs::Fields::dictionary_at, crate::specs::Fields::string_at))]
fn layer_entries(torrent: &Value) -> &[(Vec<u8>, Value)]
    requires { HasAscendingKeys (data_of torrent.now) }
    ensures strings { HasStringsOf (dictionary_of (entries_of result.now))
        (layers_of (data_of torrent.now)) }
    ensures ascending { EntriesAscend (entries_of result.now) }
{
    match dictionary(torrent, b"piece layers") {
        Some(layers) => entries(layers),
        None => &[],
    }
}

/// Gives each file that is longer than a piece its layer, out of these entries.
fn add_layers_of(
    alloc: Global,
    files: &mut [FileEntry],
    entries: &[(Vec<u8>, Value)],
    piece_length: u32,
) -> Result<(), MetaError>
    requires lawful { is_piece_length piece_length ≡ true }
    requires short { AreShort (map file_of files.old) }
    requires ascending { EntriesAscend (entries_of entries.now) }
    ensures whole { OnOk result (map file_of files.new
        ≡ map (with_layer piece_length (dictionary_of (entries_of entries.now)))
        (map file_of files.old)) }
    ensures faultless { OnOk result (
        first_of (layer_faults piece_length (dictionary_of (entries_of entries.now))
        (map file_of files.old))
        ≡ None) }
    ensures refused { IfErr result (Refuses (first_of (
        layer_faults piece_length (dictionary_of (entries_of entries.now))
        (map file_of files.old)))) }
{
    let mut right = BTreeMap::new(alloc);
    for file in files.iter_mut() {
        add_layer(alloc, file, entries, &mut right, piece_length)?;
    }
    Ok(())
}

/// Gives the file its layer, if it is longer than a piece. `right` has the roots whose layer was digested.
fn add_layer(
    alloc: Global,
    file: &mut FileEntry,
    entries: &[(Vec<u8>, Value)],
    right: &mut BTreeMap<Hash32, u64>,
    piece_length: u32,
) -> Result<(), MetaError>
    requires lawful { is_piece_length piece_length ≡ true }
    requires short { file.old.length ≤ max_file_length }
    requires ascending { EntriesAscend (entries_of entries.now) }
    requires right { AreRight piece_length (dictionary_of (entries_of entries.now)) right.old }
    ensures whole { OnOk result (file_of file.new
        ≡ with_layer piece_length (dictionary_of (entries_of entries.now)) (file_of file.old)) }
    ensures faultless { OnOk result (
        layer_fault piece_length (dictionary_of (entries_of entries.now))
        (file_of file.old) ≡ None) }
    ensures refused { IfErr result (Refuses (
        layer_fault piece_length (dictionary_of (entries_of entries.now)) (file_of file.old))) }
    ensures right { OnOk result (
        AreRight piece_length (dictionary_of (entries_of entries.now)) right.new) }
{
    let length = file.length;
    if length <= piece_length as u64 {
        file.layer = Vec::new(alloc);
        return Ok(());
    }
    let Some(layer) = layer_at(entries, &file.root) else {
        return Err(MetaError::LayerMissing);
    };
    check_once(right, &file.root, length, piece_length, layer)?;
    file.layer = Vec::from_slice(alloc, layer)?;
    Ok(())
}

/// The string at the root.
#[tactic(auto, unfolding(crate::specs::Fields::string_at))]
fn layer_at<'a>(entries: &'a [(Vec<u8>, Value)], root: &[u8]) -> Option<&'a [u8]>
    requires { EntriesAscend (entries_of entries.now) }
    ensures { option_copied result ≡ string_at (dictionary_of (entries_of entries.now)) root.now }
{
    as_string(find(entries, root)?)
}

/// The value of the key among ascending entries.
fn find<'a>(entries: &'a [(Vec<u8>, Value)], key: &[u8]) -> Option<&'a Value>
    requires { EntriesAscend (entries_of entries.now) }
    ensures { option_map data_of (option_copied result) ≡ first_value_of
        (entries_of entries.now) key.now }
{
    match entries.binary_search_by(|(name, _)| name.as_slice().cmp(key)) {
        Ok(index) => Some(&entries[index].1),
        Err(_) => None,
    }
}

/// Refuses a layer that is not the one of a file's pieces. Many files may share a root and so a layer: it is
/// digested for the first of them alone, and the root is noted with its files' length.
fn check_once(
    right: &mut BTreeMap<Hash32, u64>,
    root: &Hash32,
    length: u64,
    piece_length: u32,
    layer: &[u8],
) -> Result<(), MetaError>
    requires lawful { is_piece_length piece_length ≡ true }
    requires long { piece_length < length }
    requires short { length ≤ max_file_length }
    requires noted { length_at right.old root.now ≡ Some length
        → layer_bytes_fault piece_length length root.now layer.now ≡ None }
    ensures faultless { OnOk result
        (layer_bytes_fault piece_length length root.now layer.now ≡ None) }
    ensures refused { IfErr result
        (Refuses (layer_bytes_fault piece_length length root.now layer.now)) }
    ensures noted { OnOk result (IsNotedRight right.old right.new root.now length) }
{
    if right.get(root) == Some(&length) {
        return Ok(());
    }
    check(root, length, piece_length, layer)?;
    right.insert(*root, length)?;
    Ok(())
}

/// Refuses a layer that is not the one of a file's pieces.
#[tactic(auto, using(crate::proofs::Steps::check_steps))]
pub(crate) fn check(
    root: &Hash32,
    length: u64,
    piece_length: u32,
    layer: &[u8],
) -> Result<(), MetaError>
    requires lawful { is_piece_length piece_length ≡ true }
    requires long { piece_length < length }
    requires short { length ≤ max_file_length }
    ensures { result_err result ≡ layer_bytes_fault piece_length length root.now layer.now }
{
    let piece = shape(piece_length as u64);
    match check_layer(Plain, shape(length), root, piece.height(), layer) {
        Ok(()) => Ok(()),
        Err(LayerError::Size) => Err(MetaError::LayerSize),
        Err(LayerError::Differs) => Err(MetaError::LayerDiffers),
        Err(LayerError::OutOfMemory) => Err(MetaError::OutOfMemory),
    }
}

/// The shape of a tree over this many bytes.
fn shape(bytes: u64) -> Geometry
    requires { IsFileLength bytes }
    ensures { result ≡ bytes }
{
    match Geometry::new(bytes) {
        Some(geometry) => geometry,
        None => unreachable!(),
    }
}
