//! What is read of one entry of a file tree.
ghost use Rattle.std.specs.Prelude.{◌≡◌, IfErr, OnOk, MatchResult, option_copied, None, Some, if◌then◌else◌};
ghost use Rattle.bt_bencode.specs.Value.{data_of};
ghost use Rattle.bt_meta.specs.Files.{length_in, root_in};
ghost use Rattle.bt_meta.specs.Faults.{first_of, property_checks, is_path_element, is_dots as is_dots_element, has_lawful_length, has_lawful_root};
ghost use Rattle.bt_meta.specs.PropertySteps.{IsFileFacts, NotesLength, IsLengthConflict};

use crate::error::MetaError;
use crate::fields::{has, natural, string};
use bt_bencode::Value;
use bt_tree::{Hash32, MAX_FILE_LENGTH};
use std::collections::BTreeMap;
use std::str;

/// What the properties of a file say.
#[derive(Clone, Copy)]
pub(crate) struct FileFacts {
    pub(crate) length: u64,
    pub(crate) root: Hash32,
}

/// Reads the properties of a file.
#[tactic(auto, unfolding(crate::specs::Faults::has_lawful_length, crate::specs::Files::length_in))]
pub(crate) fn file_facts(properties: &Value) -> Result<FileFacts, MetaError>
    ensures { MatchResult result
        (IsFileFacts (data_of properties.now))
        (λ e. first_of (property_checks (data_of properties.now)) ≡ Some e) }
{
    if has(properties, b"symlink path") {
        return Err(MetaError::Symlink);
    }
    let Some(length) = file_length(properties) else {
        return Err(MetaError::FileLength);
    };
    let Some(root) = file_root(properties, length) else {
        return Err(MetaError::BadRoot);
    };
    Ok(FileFacts { length, root })
}

/// Notes the length of the files of a root; not that of an empty file. It is refused where another was noted;
/// and where none was, with `OutOfMemory` alone.
pub(crate) fn note_length(
    lengths: &mut BTreeMap<Hash32, u64>,
    root: Hash32,
    length: u64,
) -> Result<(), MetaError>
    ensures noted { OnOk result (NotesLength lengths.old lengths.new root length) }
    ensures refused { IfErr result (IsLengthConflict lengths.old root length) }
{
    if length == 0 {
        return Ok(());
    }
    match lengths.insert(root, length)? {
        Some(known) if known != length => Err(MetaError::RootConflict),
        _ => Ok(()),
    }
}

/// The element as text, if it may stand in a path.
#[tactic(auto, using(crate::proofs::Steps::path_element_steps), unfolding(crate::specs::Faults::is_path_element))]
pub(crate) fn path_element(element: &[u8]) -> Option<&str>
    ensures { option_copied result
        ≡ (if is_path_element element.now then Some element.now else None) }
{
    if is_dots(element) || element.contains(&b'/') || element.contains(&0) {
        return None;
    }
    match str::from_utf8(element) {
        Ok(text) => Some(text),
        Err(_) => None,
    }
}

/// Whether the element names its folder, or the one above.
fn is_dots(element: &[u8]) -> bool
    ensures { result ≡ is_dots_element element.now }
{
    element == b".".as_slice() || element == b"..".as_slice()
}

/// The length of a file, if it is lawful: 0 to 2^40 bytes.
#[tactic(auto, unfolding(crate::specs::Faults::has_lawful_length, crate::specs::Files::length_in))]
fn file_length(properties: &Value) -> Option<u64>
    ensures { result ≡ (
        if has_lawful_length (data_of properties.now)
        then Some (length_in (data_of properties.now)) else None) }
{
    let length = natural(properties, b"length")?;
    if length > MAX_FILE_LENGTH {
        return None;
    }
    Some(length)
}

/// The root of a file of this length, if it is lawful: zeros for an empty file.
#[tactic(auto, unfolding(crate::specs::Faults::has_lawful_root, crate::specs::Files::root_in))]
fn file_root(properties: &Value, length: u64) -> Option<Hash32>
    requires { length ≡ length_in (data_of properties.now) }
    ensures { result ≡ (
        if has_lawful_root (data_of properties.now) then Some (root_in (data_of properties.now))
        else None) }
{
    if length == 0 {
        return Some([0; 32]);
    }
    let root = string(properties, b"pieces root")?;
    match Hash32::try_from(root) {
        Ok(root) => Some(root),
        Err(_) => None,
    }
}
