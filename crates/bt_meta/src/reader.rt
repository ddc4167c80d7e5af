//! Reading torrents.
ghost use Rattle.std.specs.Prelude.{◌≡◌, map, codes, IfOk, IfErr, MatchResult, Option, None, Some, IsSome, if◌then◌else◌};
ghost use Rattle.std.specs.Result.{result_err};
ghost use Rattle.sha2.specs.Sha256.{sha256};
ghost use Rattle.bt_bencode.specs.Spelling.{spelling_of};
ghost use Rattle.bt_bencode.specs.Doc.{HasAscendingKeys};
ghost use Rattle.bt_bencode.specs.Value.{data_of};
ghost use Rattle.bt_meta.specs.Fields.{integer_at, dictionary_at, no_dictionary};
ghost use Rattle.bt_meta.specs.Files.{file_of};
ghost use Rattle.bt_meta.specs.Faults.{first_of, head_checks, first_fault, first_info_fault, version_check, is_hybrid as is_hybrid_info, is_piece_length as is_lawful_piece_length, piece_length_of, info_of, layers_of};
ghost use Rattle.bt_meta.specs.Torrent.{IsTorrent, IsInfo, metainfo_of, metainfo_with, HaveAscendingPaths, IsLawful};
ghost use Rattle.bt_meta.specs.Reader.{IsRefused};
ghost use Rattle.bt_meta.specs.ReaderSteps.{IsHead, Refuses, pieces_in};

use crate::error::MetaError;
use crate::fields::{dictionary, has, integer, is_dictionary, natural, string};
use crate::layers::add_layers;
use crate::torrent::Torrent;
use crate::walk::{Listing, read_tree};
use bt_bencode::{Value, field_text, parse};
use bt_tree::{Hash32, is_piece_length};
use sha2::{Digest, Sha256};
use std::alloc::{AllocError, Global};

/// The longest text of a torrent that is read: 2^27 bytes.
pub const MAX_TEXT_LENGTH: usize = 1 << 27;

/// The torrent that the bytes spell.
///
/// Errors: the first of [`MetaError`] that applies; `OutOfMemory` may stand in place of any.
#[tactic(auto, using(crate::proofs::Steps::read_steps))]
pub fn read_torrent(alloc: Global, bytes: &[u8]) -> Result<Torrent, MetaError>
    ensures torrent { IfOk result (IsTorrent bytes.now) }
    ensures ascending { IfOk result (λ torrent. HaveAscendingPaths torrent.files) }
    ensures refused { IfErr result (IsRefused first_fault bytes.now) }
{
    if bytes.len() > MAX_TEXT_LENGTH {
        return Err(MetaError::TooMany);
    }
    let doc = parse(alloc, bytes)?;
    torrent_in(alloc, doc.value(), bytes)
}

/// The torrent whose `info` the bytes spell: it has no layers, and none is looked for.
///
/// Errors: the first of [`MetaError`] but `LayerMissing`, `LayerSize` and `LayerDiffers` that applies; `OutOfMemory`
/// may stand in place of any.
#[tactic(auto, using(crate::proofs::Steps::read_steps))]
pub fn read_info(alloc: Global, bytes: &[u8]) -> Result<Torrent, MetaError>
    ensures torrent { IfOk result (IsInfo bytes.now) }
    ensures ascending { IfOk result (λ torrent. HaveAscendingPaths torrent.files) }
    ensures refused { IfErr result (IsRefused first_info_fault bytes.now) }
{
    if bytes.len() > MAX_TEXT_LENGTH {
        return Err(MetaError::TooMany);
    }
    let info = parse(alloc, bytes)?;
    info_in(alloc, info.value(), bytes)
}

/// The torrent that the value describes, which the text spells.
#[tactic(auto, unfolding(crate::specs::Faults::first_fault, crate::specs::Faults::info_of))]
fn torrent_in(alloc: Global, value: &Value, text: &[u8]) -> Result<Torrent, MetaError>
    requires ascending { HasAscendingKeys (data_of value.now) }
    requires spelled { spelling_of (data_of value.now) ≡ text.now }
    ensures faultless { IfOk result (λ _. first_fault (data_of value.now) ≡ None) }
    ensures described { IfOk result (λ torrent.
        torrent ≡ metainfo_of (info_of (data_of value.now)) (layers_of (data_of value.now))) }
    ensures lawful { IfOk result (λ torrent. IsLawful torrent.piece_length torrent.files) }
    ensures refused { IfErr result (Refuses (first_fault (data_of value.now))) }
{
    let Some(info) = dictionary(value, b"info") else {
        return Err(MetaError::NoInfo);
    };
    let head = read_head(info)?;
    let mut listing = read_tree(alloc, head.tree, head.piece_length)?;
    add_layers(alloc, &mut listing.files, value, head.piece_length)?;
    let infohash = infohash_in(value, text);
    let torrent = torrent_of(alloc, &head, infohash, listing)?;
    Ok(torrent)
}

/// The torrent that the value, which the text spells, describes as its `info`.
#[tactic(auto, unfolding(crate::specs::Faults::first_info_fault))]
fn info_in(alloc: Global, info: &Value, text: &[u8]) -> Result<Torrent, MetaError>
    requires ascending { HasAscendingKeys (data_of info.now) }
    requires spelled { spelling_of (data_of info.now) ≡ text.now }
    ensures faultless { IfOk result (λ _. first_info_fault (data_of info.now) ≡ None) }
    ensures described { IfOk result (λ torrent. torrent ≡ metainfo_of
        (data_of info.now) no_dictionary) }
    ensures lawful { IfOk result (λ torrent. IsLawful torrent.piece_length torrent.files) }
    ensures refused { IfErr result (Refuses (first_info_fault (data_of info.now))) }
{
    if !is_dictionary(info) {
        return Err(MetaError::NoInfo);
    }
    let head = read_head(info)?;
    let listing = read_tree(alloc, head.tree, head.piece_length)?;
    let infohash = Sha256::digest(text);
    let torrent = torrent_of(alloc, &head, infohash, listing)?;
    Ok(torrent)
}

/// The torrent of these parts.
fn torrent_of(
    alloc: Global,
    head: &Head<'_>,
    infohash: Hash32,
    listing: Listing,
) -> Result<Torrent, AllocError>
    requires counted { listing.pieces ≡ pieces_in head.now.piece_length listing.files.items }
    requires lawful { IsLawful head.now.piece_length (map file_of listing.files.items) }
    ensures { IfOk result (λ torrent.
        torrent ≡ metainfo_with head.now.name.now head.now.piece_length infohash
        listing.files.items) }
{
    let name = Vec::from_slice(alloc, head.name)?;
    Ok(Torrent::new(
        name,
        head.piece_length,
        listing.pieces,
        infohash,
        listing.files,
    ))
}

/// What `info` says beside the files.
#[derive(Clone, Copy)]
struct Head<'a> {
    name: &'a [u8],
    piece_length: u32,
    tree: &'a Value,
}

/// Reads what `info` says beside the files.
#[tactic(auto, unfolding(crate::specs::Faults::head_checks, crate::specs::Faults::piece_length_of, crate::specs::Faults::tree_of))]
fn read_head(info: &Value) -> Result<Head<'_>, MetaError>
    ensures { MatchResult result
        (IsHead (data_of info.now))
        (λ e. first_of (head_checks (data_of info.now)) ≡ Some e) }
{
    check_version(info)?;
    if is_hybrid(info) {
        return Err(MetaError::Hybrid);
    }
    let Some(name) = string(info, b"name") else {
        return Err(MetaError::NoName);
    };
    let Some(piece_length) = piece_length(info) else {
        return Err(MetaError::PieceLength);
    };
    let Some(tree) = dictionary(info, b"file tree") else {
        return Err(MetaError::Tree);
    };
    Ok(Head {
        name,
        piece_length,
        tree,
    })
}

/// Refuses another `meta version` than 2.
fn check_version(info: &Value) -> Result<(), MetaError>
    ensures { result_err result ≡ version_check (integer_at (data_of info.now)
        (codes "meta version")) }
{
    match integer(info, b"meta version") {
        None => Err(MetaError::NotV2),
        Some(2) => Ok(()),
        Some(version) => Err(MetaError::Version(version)),
    }
}

/// Whether `info` has what that of a v1 torrent has.
fn is_hybrid(info: &Value) -> bool
    ensures { result ≡ is_hybrid_info (data_of info.now) }
{
    has(info, b"pieces") || has(info, b"length") || has(info, b"files")
}

/// The piece length, if it is lawful.
#[tactic(auto, unfolding(crate::specs::Faults::piece_length_of))]
fn piece_length(info: &Value) -> Option<u32>
    ensures { let length = piece_length_of (data_of info.now) in
        result ≡ (if is_lawful_piece_length length then Some length else None) }
{
    let length = natural(info, b"piece length")?;
    if length > u32::MAX as u64 {
        return None;
    }
    if !is_lawful_length(length as u32) {
        return None;
    }
    Some(length as u32)
}

/// Whether a piece may have this length.
pub(crate) fn is_lawful_length(length: u32) -> bool
    ensures { result ≡ is_lawful_piece_length length }
{
    is_piece_length(length)
}

/// The SHA-256 of the bytes of `info` in a torrent's text.
pub(crate) fn infohash_in(torrent: &Value, text: &[u8]) -> Hash32
    requires spelled { spelling_of (data_of torrent.now) ≡ text.now }
    requires there { IsSome (dictionary_at (data_of torrent.now) (codes "info")) }
    ensures { result ≡ sha256 (spelling_of (info_of (data_of torrent.now))) }
{
    match field_text(text, torrent, b"info") {
        Some(info) => Sha256::digest(info),
        None => unreachable!(),
    }
}
