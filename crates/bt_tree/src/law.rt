//! What follows from the definitions of trees. The functions do nothing when they run.
ghost use Rattle.bt_tree.specs.Law.{HeightsAreLeast, RootsTellFiles};

use crate::node_hash::NodeHash;

/// The height of a tree is the least at which it has a leaf for each block.
pub fn heights_are_least()
    ensures { HeightsAreLeast }
{}

/// Two files of one length and one root are one file, or at one node of their trees two different inputs have
/// one digest.
pub fn roots_tell_files<H: NodeHash>(_hash: H)
    ensures { RootsTellFiles H.digest }
{}
