//! What a peer claims of a tree (BEP 52, "hashes"), and the reasons P1 to P7 to refuse such a proof.
ghost use Rattle.std.specs.Prelude.{◌≡◌};
ghost use Rattle.bt_sparse.specs.declared.claim.ProofError.TheVariants.{OutOfMemory as out_of_memory};

use bt_tree::Hash32;
use std::alloc::AllocError;
use std::marker::Model;
use thiserror::Error;

/// A list of digests. It is made from a `Vec`, and gives it back.
#[derive(Debug, Drop)]
pub struct Digests {
    items: Vec<Hash32>,
}

impl Model for Digests {
    ghost use Rattle.std.specs.Prelude.{ℕ, List};

    ghost Value = { List (List ℕ) };

    ghost view = { λ a. a.items.items };
}

impl Digests {
    /// The list of these digests.
    pub fn new(items: Vec<Hash32>) -> Digests
        ensures { result ≡ items.items }
    {
        Digests { items }
    }

    /// The digests, in their order.
    pub fn as_slice(&self) -> &[Hash32]
        ensures { result.now ≡ self.now }
    {
        self.items.as_slice()
    }

    /// Gives back the `Vec` that the list was made from.
    pub fn into_vec(self) -> Vec<Hash32>
        ensures { result.items ≡ self }
    {
        let Digests { items } = self;
        items
    }
}

/// What a peer claims of a tree (BEP 52, the message "hashes"): the digests of a run of nodes of layer
/// `base`, from `index` on, and those of the uncles, from the lowest layer up. The first uncle lies in the
/// layer of the one node that the run lies below: BEP 52 only says that proof layers below that node can be
/// left out, and that they always are is this project's reading.
#[derive(Debug, Drop)]
pub struct Claim {
    pub base: u32,
    pub index: u32,
    pub run: Digests,
    pub uncles: Digests,
}

/// Why a proof is refused: the first that applies, in the order P1 to P6.
#[derive(Clone, Copy, Debug, PartialEq, Eq, Error)]
pub enum ProofError {
    /// P1: The run is no power of two of nodes from 2 up, or does not begin at a multiple of it; or the run
    /// or the uncles lie outside the tree.
    #[error("P1 Shape")]
    Shape,
    /// P2: The digests are not as many as their key asks for, by this project's reading of BEP 52. `accept`
    /// never returns this.
    #[error("P2 Count")]
    Count,
    /// P3: A node that covers no block has another digest than the padding.
    #[error("P3 Padding")]
    Padding,
    /// P4: The node that the claim hangs from is not held.
    #[error("P4 NoAnchor")]
    NoAnchor,
    /// P5: That node is held with another digest.
    #[error("P5 TopDiffers")]
    TopDiffers,
    /// P6: Below this node, the tree and the claim have different digests: `ours` and `theirs` are the 64
    /// bytes of the two children, and have one digest. Of all such nodes this is the nearest to the root, and
    /// of several in one layer the leftmost.
    #[error("P6 Clash")]
    Clash {
        layer: u32,
        index: u32,
        ours: [u8; 64],
        theirs: [u8; 64],
    },
    /// P7: Out of memory. It comes only where the shape and the padding are right and the top is held, in
    /// place of Ok, P5 or P6.
    #[error("P7 OutOfMemory")]
    OutOfMemory,
}

impl From<AllocError> for ProofError {
    ghost from_gives = { λ _ e. e ≡ out_of_memory };

    fn from(_error: AllocError) -> Self {
        ProofError::OutOfMemory
    }
}
