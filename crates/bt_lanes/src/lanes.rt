//! SHA-256 as the digest of trees, where eight blocks or eight pairs of digests are digested at once.
ghost use Rattle.std.specs.Prelude.{◌≡◌, ℕ, ◌+◌, ◌*◌, ◌<◌, ◌≤◌, length};
ghost use Rattle.sha2.specs.Sha256.{sha256};
ghost use Rattle.bt_tree.specs.Blocks.{block_at};
ghost use Rattle.bt_tree.specs.Limits.{full_block_length};
ghost use Rattle.bt_lanes.specs.LaneSteps.{message_at};

use crate::digest::{digest_eight, slices};
use crate::single::digest_single;
use bt_tree::{BLOCK_LEN, Hash32, NodeHash, Plain};

/// SHA-256 (FIPS 180-4), the digest of BitTorrent v2. Where a tree has eight inputs, they are digested at
/// once; a block alone has its message schedules made eight at a time.
#[derive(Clone, Copy, Debug)]
pub struct Lanes;

/// A whole block of the run.
#[inline(always)]
fn run_block(run: &[u8], j: usize) -> &[u8]
    requires low { j < 8 }
    requires whole { full_block_length * j + full_block_length ≤ length run.now }
    ensures { result.now ≡ block_at run.now j }
{
    &run[BLOCK_LEN * j..BLOCK_LEN * j + BLOCK_LEN]
}

/// The blocks of the run.
fn run_blocks(run: &[u8]) -> [&[u8]; 8]
    requires { length run.now ≡ 8 * full_block_length }
    ensures { (j : ℕ) → j < 8 → message_at result j ≡ block_at run.now j }
{
    [
        run_block(run, 0),
        run_block(run, 1),
        run_block(run, 2),
        run_block(run, 3),
        run_block(run, 4),
        run_block(run, 5),
        run_block(run, 6),
        run_block(run, 7),
    ]
}

impl NodeHash for Lanes {
    ghost use Rattle.bt_tree.specs.NodeHash.{length-sha256, bytes-sha256};

    ghost digest = { sha256 };

    fn block(self, bytes: &[u8]) -> Hash32 {
        digest_single(bytes)
    }

    fn pair(self, left: &Hash32, right: &Hash32) -> Hash32 {
        Plain.pair(left, right)
    }

    fn blocks8(self, run: &[u8]) -> [Hash32; 8] {
        digest_eight(&run_blocks(run), BLOCK_LEN)
    }

    fn pairs8(self, pairs: &[[u8; 64]; 8]) -> [Hash32; 8] {
        digest_eight(&slices(pairs), 64)
    }

    ghost has_32_bytes = { length-sha256 };

    ghost has_bytes = { bytes-sha256 };
}
