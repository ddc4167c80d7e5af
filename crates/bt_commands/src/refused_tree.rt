//! A walk over a torrent's file tree, in its order, to the first entry of which a refusal may tell.

use bt_bencode::{Value, field};
use bt_meta::{MAX_FILE_LENGTH, MAX_FILES, MAX_PATH_LENGTH, MAX_PIECES, MetaError};
use bt_tree::{Geometry, Hash32, LayerError, Plain, check_layer};
use std::alloc::{AllocError, Global};
use std::collections::BTreeMap;
use std::str;

/// The tree over the blocks of a piece, by an info dictionary.
fn piece_of(info: &Value) -> Option<Geometry> {
    match field(info, b"piece length") {
        Some(Value::Int(length)) => Geometry::new(u64::try_from(*length).ok()?),
        _ => None,
    }
}

/// The entries of a torrent's `piece layers`: none where there is no such dictionary.
fn layers_of(torrent: &Value) -> &[(Vec<u8>, Value)] {
    match field(torrent, b"piece layers") {
        Some(Value::Dict(entries)) => entries,
        _ => &[],
    }
}

/// A search for the entry that a refusal is about, with what it has met so far.
#[derive(Drop)]
pub struct Search<'a> {
    refusal: MetaError,
    /// The tree over the blocks of a piece: none where the piece length is none.
    piece: Option<Geometry>,
    /// The entries of `piece layers`.
    layers: &'a [(Vec<u8>, Value)],
    /// How many folders it is in, beside that of all files.
    depth: usize,
    files: usize,
    pieces: u64,
    /// The length of the files of each root.
    lengths: BTreeMap<Hash32, u64>,
}

impl<'a> Search<'a> {
    /// A search in a torrent, which has this info dictionary.
    pub fn new(alloc: Global, refusal: MetaError, torrent: &'a Value, info: &Value) -> Self {
        Search {
            refusal,
            piece: piece_of(info),
            layers: layers_of(torrent),
            depth: 0,
            files: 0,
            pieces: 0,
            lengths: BTreeMap::new(alloc),
        }
    }

    /// Whether an entry is refused so.
    fn refuses(&mut self, key: &[u8], value: &Value) -> Result<bool, AllocError> {
        match self.refusal {
            MetaError::BadPath => Ok(is_bad_name(key)),
            MetaError::Tree => Ok(!is_node(value)),
            MetaError::TooMany if self.depth > MAX_PATH_LENGTH => Ok(true),
            _ => match field(value, b"") {
                Some(properties) => self.refuses_file(properties),
                None => Ok(false),
            },
        }
    }

    /// Whether a file with these properties is refused so.
    fn refuses_file(&mut self, properties: &Value) -> Result<bool, AllocError> {
        match self.refusal {
            MetaError::Symlink => Ok(field(properties, b"symlink path").is_some()),
            MetaError::FileLength => Ok(length_of(properties).is_none()),
            MetaError::BadRoot => Ok(!has_root(properties)),
            MetaError::RootConflict => self.has_other_length(properties),
            MetaError::TooMany => Ok(self.is_too_much(properties)),
            MetaError::LayerMissing | MetaError::LayerSize | MetaError::LayerDiffers => {
                Ok(self.layer_refusal(properties) == Some(self.refusal))
            }
            _ => Ok(false),
        }
    }

    /// Whether a file has the root of one before it, and another length.
    fn has_other_length(&mut self, properties: &Value) -> Result<bool, AllocError> {
        let Some((root, length)) = content_of(properties) else {
            return Ok(false);
        };
        match Hash32::try_from(root) {
            Ok(root) => has_other_length(&mut self.lengths, root, length),
            Err(_) => Ok(false),
        }
    }

    /// Whether a file is one too many, or has a piece that is.
    fn is_too_much(&mut self, properties: &Value) -> bool {
        let Some(piece) = self.piece else {
            return false;
        };
        let length = length_of(properties).unwrap_or(0);
        self.files = self.files.saturating_add(1);
        self.pieces = self
            .pieces
            .saturating_add(length.div_ceil(piece.length().max(1)));
        self.files > MAX_FILES || self.pieces > MAX_PIECES
    }

    /// How the hashes of a file's pieces are refused, if they are.
    fn layer_refusal(&self, properties: &Value) -> Option<MetaError> {
        let (root, length) = content_of(properties)?;
        let piece = self.piece?;
        let geometry = Geometry::new(length)?;
        if length <= piece.length() {
            return None;
        }
        let Some(layer) = layer_at(self.layers, root) else {
            return Some(MetaError::LayerMissing);
        };
        let root = Hash32::try_from(root).ok()?;
        match check_layer(Plain, geometry, &root, piece.height(), layer) {
            Ok(()) => None,
            Err(LayerError::Size) => Some(MetaError::LayerSize),
            Err(_) => Some(MetaError::LayerDiffers),
        }
    }
}

/// The names on the path of the first refused entry below a folder, the last one first: none where there is none.
pub fn first_below<'a>(
    alloc: Global,
    search: &mut Search<'_>,
    folder: &'a Value,
) -> Result<Option<Vec<&'a [u8]>>, AllocError> {
    let Value::Dict(entries) = folder else {
        return Ok(None);
    };
    search.depth = search.depth.saturating_add(1);
    for (key, value) in entries {
        if !key.is_empty() {
            if search.refuses(key, value)? {
                return Ok(Some(with_name(Vec::new(alloc), key)?));
            }
            if let Some(names) = first_below(alloc, search, value)? {
                return Ok(Some(with_name(names, key)?));
            }
        }
    }
    search.depth = search.depth.saturating_sub(1);
    Ok(None)
}

/// The names on a path, with one more at the end.
fn with_name<'a>(mut names: Vec<&'a [u8]>, name: &'a [u8]) -> Result<Vec<&'a [u8]>, AllocError> {
    names.push(name)?;
    Ok(names)
}

/// The hashes that stand at a root among the entries of `piece layers`, which ascend.
fn layer_at<'a>(layers: &'a [(Vec<u8>, Value)], root: &[u8]) -> Option<&'a [u8]> {
    let place = layers
        .binary_search_by(|(name, _)| name.as_slice().cmp(root))
        .ok()?;
    match layers.get(place) {
        Some((_, Value::Bytes(layer))) => Some(layer),
        _ => None,
    }
}

/// Whether a name may not stand in a path.
fn is_bad_name(name: &[u8]) -> bool {
    match str::from_utf8(name) {
        Ok("." | "..") => true,
        Ok(text) => text.contains('/') || text.contains('\0'),
        Err(_) => true,
    }
}

/// Whether a value is a folder or a file.
fn is_node(value: &Value) -> bool {
    let Value::Dict(entries) = value else {
        return false;
    };
    match field(value, b"") {
        None => true,
        Some(Value::Dict(_)) => entries.len() == 1,
        Some(_) => false,
    }
}

/// The length that properties have, if it is lawful.
fn length_of(properties: &Value) -> Option<u64> {
    match field(properties, b"length") {
        Some(Value::Int(length)) => {
            let length = u64::try_from(*length).ok()?;
            if length > MAX_FILE_LENGTH {
                return None;
            }
            Some(length)
        }
        _ => None,
    }
}

/// The root and the length of a file with these properties, where it has bytes.
fn content_of(properties: &Value) -> Option<(&[u8], u64)> {
    let length = length_of(properties)?;
    match field(properties, b"pieces root") {
        Some(Value::Bytes(root)) if length > 0 => Some((root.as_slice(), length)),
        _ => None,
    }
}

/// Whether a file of this root that came before has another length; where there is none, this one is noted.
fn has_other_length(
    lengths: &mut BTreeMap<Hash32, u64>,
    root: Hash32,
    length: u64,
) -> Result<bool, AllocError> {
    if let Some(known) = lengths.get(&root) {
        return Ok(*known != length);
    }
    lengths.insert(root, length)?;
    Ok(false)
}

/// Whether properties have a root, where the file has bytes.
fn has_root(properties: &Value) -> bool {
    match (field(properties, b"pieces root"), length_of(properties)) {
        (_, Some(0)) => true,
        (Some(Value::Bytes(root)), _) => root.len() == 32,
        _ => false,
    }
}
