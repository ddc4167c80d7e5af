//! What the digests that come with a key claim (BEP 52, "hashes"): how many the key names, first those of the
//! run and then those of the uncles.
ghost use Rattle.std.specs.Prelude.{◌≡◌, ◌↔◌, ◌≤◌, IsSome, IfOk, IfErr, IfSome};
ghost use Rattle.bt_tree.specs.TreeShape.{height_of};
ghost use Rattle.bt_sparse.specs.Answer.{answer_size};
ghost use Rattle.bt_hashreq.specs.Claim.{IsRunLength, HasShape, IsClaimBy, IsNoClaim, max_digests};

use crate::key::HashKey;
use bt_sparse::{Claim, Digests, MAX_RUN_LENGTH, ProofError};
use bt_tree::tree_height;
use std::alloc::Global;

/// The height of the longest file's tree, 2^40 bytes.
const MAX_HEIGHT: u32 = 26;

/// No key names more digests: those of the longest run, and an uncle for each layer of the highest tree, 538. None
/// names as many, since the eight lowest layers above the longest run have no uncle, so 530 are the most.
pub const MAX_DIGESTS: u32 = MAX_RUN_LENGTH + MAX_HEIGHT;

/// What the digests that come with a key claim of the key's tree: those of the run, from the left, and then
/// those of the uncles, from the lowest layer up, 32 bytes each. A run of 2^m nodes has one uncle for each
/// proof layer beyond the first m - 1: BEP 52 says that layers that follow from the run can be left out; that
/// just these are, and always, is this project's own.
///
/// Errors, the first that applies: `Shape` where the key's length is no power of two from 2 to 512, its index no
/// multiple of it, or its base or layers above 26; `Count` where the digests are not as many as it names;
/// `OutOfMemory`.
pub fn to_claim(alloc: Global, key: &HashKey, digests: &[u8]) -> Result<Claim, ProofError>
    ensures claim { IfOk result (IsClaimBy key.now digests.now) }
    ensures refused { IfErr result (IsNoClaim key.now digests.now) }
{
    let Some(count) = digest_count(key) else {
        return Err(ProofError::Shape);
    };
    if digests.len() != 32 * count as usize {
        return Err(ProofError::Count);
    }
    let (digests, _) = digests.as_chunks::<32>();
    let (run, uncles) = digests.split_at(key.length as usize);
    Ok(Claim {
        base: key.base,
        index: key.index,
        run: collected(alloc, run)?,
        uncles: collected(alloc, uncles)?,
    })
}

/// A list of these digests.
fn collected(alloc: Global, digests: &[[u8; 32]]) -> Result<Digests, ProofError>
    ensures list { IfOk result (λ list. list ≡ digests.now) }
    ensures memory { IfErr result (λ error. error ≡ ProofError.OutOfMemory) }
{
    match Vec::from_slice(alloc, digests) {
        Ok(list) => Ok(Digests::new(list)),
        Err(_) => Err(ProofError::OutOfMemory),
    }
}

/// How many digests come with a key: those of the run, and those of the uncles. None for a key without a
/// shape, of which `to_claim` makes no claim. Takes no memory.
pub fn digest_count(key: &HashKey) -> Option<u32>
    ensures some { IsSome result ↔ HasShape key.now }
    ensures count { IfSome result (λ count. count ≡ answer_size key.now.length key.now.layers) }
    ensures within { IfSome result (λ count. key.now.length ≤ count) }
    ensures limit { IfSome result (λ count. count ≤ max_digests) }
{
    let height = run_height(key.length)?;
    if key.index % key.length != 0 || key.base > MAX_HEIGHT || key.layers > MAX_HEIGHT {
        return None;
    }
    Some(key.length + key.layers.saturating_sub(height - 1))
}

/// How many layers a run of this many nodes has above it, up to the one node that it lies below; None for a
/// length that no run has.
fn run_height(length: u32) -> Option<u32>
    ensures some { IsSome result ↔ IsRunLength length }
    ensures height { IfSome result (λ height. height ≡ height_of length) }
    ensures above { IfSome result (λ height. 1 ≤ height) }
{
    if length < 2 || length > MAX_RUN_LENGTH {
        return None;
    }
    let height = tree_height(length) as u32;
    if length as u64 == 1 << height {
        Some(height)
    } else {
        None
    }
}
