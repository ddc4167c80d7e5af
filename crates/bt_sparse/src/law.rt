//! Laws of sparse trees: what is held is checked up to the root, what one tree answers another can take, and
//! a leaf that is held is the file's, or two different inputs have one digest.
ghost use Rattle.bt_sparse.specs.Law.{LayersAreSound, RootsAreSound, KeepsRooted, HeldIsChecked, ClaimsOne, MadeClaimsAgree, AnswersAgree, AnswersAreTaken, AnswersReachRoots, LeavesAreFiles};

use bt_tree::NodeHash;

/// The tree of a file's layer, as `with_layer` makes it, is rooted, and its digests have 32 bytes.
pub fn layers_are_sound<H: NodeHash>(_hash: H)
    ensures { LayersAreSound H.digest }
{}

/// A tree of which the root alone is known is rooted, and its digest has 32 bytes.
pub fn roots_are_sound<H: NodeHash>(_hash: H)
    ensures { RootsAreSound H.digest }
{}

/// A tree that is rooted stays so when a claim is accepted.
#[tactic(auto, using(crate::proofs::Joins::keeps_rooted))]
pub fn keeps_rooted<H: NodeHash>(_hash: H)
    ensures { KeepsRooted H.digest }
{}

/// Every held node of a rooted tree is checked.
pub fn held_is_checked<H: NodeHash>(_hash: H)
    ensures { HeldIsChecked H.digest }
{}

/// A claim says one digest of a node.
pub fn claims_one<H: NodeHash>(_hash: H)
    ensures { ClaimsOne H.digest }
{}

/// Of every node that a claim made of a rooted tree's values names, the tree has the digest that the claim
/// says; and the claim of its answer to a request is one.
pub fn answers_agree<H: NodeHash>(_hash: H)
    ensures claims { MadeClaimsAgree H.digest }
    ensures answers { AnswersAgree H.digest }
{}

/// What a rooted tree answers is acceptable to any tree of the same file length that holds the claim's top
/// and no node of it with another digest.
pub fn answers_are_taken<H: NodeHash>(_hash: H)
    ensures { AnswersAreTaken H.digest }
{}

/// An answer whose uncles reach up to the root is acceptable to a tree that knows the root alone.
pub fn answers_reach_roots<H: NodeHash>(_hash: H)
    ensures { AnswersReachRoots H.digest }
{}

/// For every file of a tree's length and root, a leaf that the tree holds is the file's, or at one node on
/// the leaf's path the tree's two digests are another input than the file's, and have the same digest.
pub fn leaves_are_files<H: NodeHash>(_hash: H)
    ensures { LeavesAreFiles H.digest }
{}
