//! The hash tree of a file, as BitTorrent v2 (BEP 52) builds it, over any digest of byte strings.
//!
//! A file is cut into blocks of 16,384 bytes, the last one perhaps shorter. The digests of the blocks are the
//! first leaves of a complete binary tree, whose leaves past the last block are 32 zero bytes; any other node
//! has the digest of its two children's digests, the left one first. A node is named by its *layer*, counted
//! from the leaves at 0 up to the root, and by its *index* in the layer, counted from the left from 0. The
//! *width* of a layer is how many nodes it has.
//!
//! Nothing here takes memory.
#![tactic(auto)]

mod comparison;
mod law;
mod layer_fold;
mod layers;
mod node_hash;
mod padding;
mod peaks;
mod root_builder;
mod tree_shape;

pub use comparison::{Compared, compare_files};
pub use law::{heights_are_least, roots_tell_files};
pub use layer_fold::{eight_parents, pair_bytes};
pub use layers::{LayerError, check_layer, layer_root};
pub use node_hash::{Hash32, NodeHash, Plain, Weak};
pub use padding::pad;
pub use root_builder::{RootBuilder, Shape};
pub use tree_shape::{
    BLOCK_LEN, Geometry, MAX_FILE_LENGTH, is_piece_length, piece_layer, tree_height,
};
