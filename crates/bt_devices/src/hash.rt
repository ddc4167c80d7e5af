//! A digest that looks up what was digested ahead.
ghost use Rattle.std.specs.Prelude.{◌≡◌, IfSome};
ghost use Rattle.sha2.specs.Sha256.{sha256};

use crate::cache::DigestCache;
use bt_lanes::Lanes;
use bt_tree::{BLOCK_LEN, Hash32, NodeHash};
use std::cell::RefCell;

/// SHA-256 (FIPS 180-4), which looks a whole block up where digests are made ahead. What it doesn't find, and
/// all else, it digests as `Lanes` does.
#[derive(Clone, Copy)]
pub struct CachedLanes<'a> {
    cache: &'a RefCell<DigestCache>,
}

impl<'a> CachedLanes<'a> {
    /// A digest that looks whole blocks up there.
    pub fn new(cache: &'a RefCell<DigestCache>) -> Self {
        CachedLanes { cache }
    }
}

/// The digest of a block, where it was made ahead and the cache is not in use.
fn look_up(cache: &RefCell<DigestCache>, block: &[u8]) -> Option<Hash32>
    ensures { IfSome result (λ digest. digest ≡ sha256 block.now) }
{
    let Ok(mut guard) = cache.try_borrow_mut() else {
        return None;
    };
    let cache = &mut *guard;
    cache.want();
    cache.find(block)
}

impl<'a> NodeHash for CachedLanes<'a> {
    ghost use Rattle.bt_tree.specs.NodeHash.{length-sha256, bytes-sha256};

    ghost digest = { sha256 };

    fn block(self, bytes: &[u8]) -> Hash32 {
        // Whole blocks alone are digested ahead.
        if bytes.len() == BLOCK_LEN
            && let Some(digest) = look_up(self.cache, bytes)
        {
            return digest;
        }
        Lanes.block(bytes)
    }

    fn pair(self, left: &Hash32, right: &Hash32) -> Hash32 {
        Lanes.pair(left, right)
    }

    fn blocks8(self, run: &[u8]) -> [Hash32; 8] {
        Lanes.blocks8(run)
    }

    fn pairs8(self, pairs: &[[u8; 64]; 8]) -> [Hash32; 8] {
        Lanes.pairs8(pairs)
    }

    ghost has_32_bytes = { length-sha256 };

    ghost has_bytes = { bytes-sha256 };
}
