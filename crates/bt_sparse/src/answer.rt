//! The answer to a hash request (BEP 52): the digests of a run of nodes, and those of the uncles above it.
ghost use Rattle.std.specs.Prelude.{◌≡◌, ◌≢◌, ◌<◌, ◌≤◌, ◌↔◌, None, IsTrue, IsSome, IfSome, IfOk, OnOk, OnErr};
ghost use Rattle.std.specs.Bool.{OnTrue, OnFalse};
ghost use Rattle.bt_tree.specs.Limits.{max_height};
ghost use Rattle.bt_tree.specs.TreeShape.{IsInside};
ghost use Rattle.bt_sparse.specs.SparseTree.{blocks_of, height, value_at, IsSound};
ghost use Rattle.bt_sparse.specs.declared.answer.AnswerError.TheVariants.{OutOfMemory as out_of_memory};
ghost use Rattle.bt_sparse.specs.Answer.{IsRequest, IsAnswer, HasUnknown, KnowsAll, HasRoom, answer_size, answer_layer, answer_index};

use crate::expansion::sibling;
use crate::padding::Padding;
use crate::sparse_tree::SparseTree;
use bt_tree::{Hash32, NodeHash, tree_height};
use std::alloc::AllocError;
use thiserror::Error;

/// The most nodes of a run that are asked for at once.
pub const MAX_RUN_LENGTH: u32 = 512;

/// Why a request is not answered, in this order.
#[derive(Clone, Copy, Debug, PartialEq, Eq, Error)]
pub enum AnswerError {
    /// The request is not a right one in this tree: `answer` says which are.
    #[error("the request has another shape")]
    Shape,
    /// A node that it needs is not known.
    #[error("a node is not known")]
    Unknown,
    #[error("out of memory")]
    OutOfMemory,
}

impl From<AllocError> for AnswerError {
    ghost from_gives = { λ _ e. e ≡ out_of_memory };

    fn from(_error: AllocError) -> Self {
        AnswerError::OutOfMemory
    }
}

/// What a peer asks of a tree of this height: a run of nodes of layer `base`, and proof layers.
#[derive(Clone, Copy)]
struct Request {
    height: u8,
    base: u32,
    index: u32,
    length: u32,
    layers: u32,
}

impl Request {
    /// Whether the request has the right shape in a tree of this height.
    fn is_lawful(self) -> bool
        requires { self.height ≤ max_height }
        ensures { IsTrue result ↔ IsRequest self.height self.base self.index self.length
            self.layers }
    {
        let height = self.height as u32;
        if self.base >= height || self.length < 2 || self.length > MAX_RUN_LENGTH {
            return false;
        }
        let rest = height - self.base;
        let above = tree_height(self.length) as u32;
        self.length as u64 == 1 << above
            && self.index % self.length == 0
            && above <= rest
            && self.index as u64 + self.length as u64 <= 1 << rest
            && self.layers < rest
    }

    /// How many digests answer the request.
    fn size(self) -> u32
        requires lawful { IsRequest self.height self.base self.index self.length self.layers }
        requires high { self.height ≤ max_height }
        ensures { result ≡ answer_size self.length self.layers }
    {
        let above = tree_height(self.length) as u32;
        self.length + self.layers.saturating_sub(above - 1)
    }

    /// The layer and the index of the node of digest `t` of the answer.
    fn node(self, t: u32) -> (u32, u32)
        requires lawful { IsRequest self.height self.base self.index self.length self.layers }
        requires high { self.height ≤ max_height }
        requires within { t < answer_size self.length self.layers }
        ensures layer { result.0 ≡ answer_layer self.base self.length t }
        ensures index { result.1 ≡ answer_index self.index self.length t }
    {
        if t < self.length {
            return (self.base, self.index + t);
        }
        let above = tree_height(self.length) as u32;
        let up = t - self.length;
        (self.base + above + up, sibling(self.index >> above >> up))
    }
}

impl<H: NodeHash> SparseTree<H> {
    /// The digests that answer a hash request (BEP 52): a run of `length` nodes of layer `base` from `index`
    /// on, then the uncles from the lowest layer up, one for each of the proof layers from the run's top on.
    /// BEP 52 only says that proof layers below the run's top can be left out; that they always are is this
    /// project's reading: a run of 2^m nodes with p proof layers has max(0, p - (m - 1)) uncles, the first in
    /// layer `base` + m.
    ///
    /// A right request has a `length` of 2^m nodes, from 2 to 512, and an `index` that is a multiple of it;
    /// the run and the node above it lie in the tree; and the proof layers end below the root: `base` +
    /// `layers` is less than the height. Another one is refused with `Shape`, a right one with `Unknown`
    /// where a node that it needs is not known, and else at most with `OutOfMemory`.
    pub fn answer(
        &self,
        base: u32,
        index: u32,
        length: u32,
        layers: u32,
    ) -> Result<Vec<Hash32>, AnswerError>
        ensures ok { IfOk result (λ digests.
            IsAnswer H.digest self.now base index length layers digests.items) }
        ensures lawful { OnOk result (IsRequest (height self.now) base index length layers) }
        ensures shape { (result ≡ Err AnswerError.Shape)
            ↔ (¬ IsRequest (height self.now) base index length layers) }
        ensures unknown { (result ≡ Err AnswerError.Unknown)
            ↔ (IsRequest (height self.now) base index length layers
            × HasUnknown H.digest self.now base index length layers) }
    {
        let request = Request {
            height: self.geometry.height(),
            base,
            index,
            length,
            layers,
        };
        self.check_request(request)?;
        let mut digests = vec![in self.alloc; [0; 32]; request.size() as usize]?;
        self.fill(request, &mut digests);
        Ok(digests)
    }

    /// How many digests answer a request; None for one that `answer` refuses with `Shape`.
    pub fn answer_len(&self, base: u32, index: u32, length: u32, layers: u32) -> Option<u32>
        ensures some { IsSome result ↔ IsRequest (height self.now) base index length layers }
        ensures size { IfSome result (λ size. size ≡ answer_size length layers) }
    {
        let request = Request {
            height: self.geometry.height(),
            base,
            index,
            length,
            layers,
        };
        if request.is_lawful() {
            Some(request.size())
        } else {
            None
        }
    }

    /// Writes the digests that `answer` gives over these, which are as many, and takes no memory. It refuses
    /// what `answer` refuses, with `Shape` or `Unknown`, and leaves the digests as they were.
    pub fn answer_into(
        &self,
        base: u32,
        index: u32,
        length: u32,
        layers: u32,
        digests: &mut [Hash32],
    ) -> Result<(), AnswerError>
        requires room { IsRequest (height self.now) base index length layers
            → HasRoom length layers digests.old }
        ensures ok { OnOk result (IsAnswer H.digest self.now base index length layers digests.new) }
        ensures lawful { OnOk result (IsRequest (height self.now) base index length layers) }
        ensures shape { (result ≡ Err AnswerError.Shape)
            ↔ (¬ IsRequest (height self.now) base index length layers) }
        ensures unknown { (result ≡ Err AnswerError.Unknown)
            ↔ (IsRequest (height self.now) base index length layers
            × HasUnknown H.digest self.now base index length layers) }
        ensures no_memory { result ≢ Err AnswerError.OutOfMemory }
        ensures unchanged { OnErr result (digests.new ≡ digests.old) }
    {
        let request = Request {
            height: self.geometry.height(),
            base,
            index,
            length,
            layers,
        };
        self.check_request(request)?;
        self.fill(request, digests);
        Ok(())
    }
}

impl<H: NodeHash> SparseTree<H> {
    /// Whether the request has the right shape, and every node that it needs is known.
    fn check_request(&self, request: Request) -> Result<(), AnswerError>
        requires height { request.height ≡ height self.now }
        requires high { request.height ≤ max_height }
        requires sound { IsSound H.digest self.now }
        ensures lawful { OnOk result
            (IsRequest (height self.now) request.base request.index request.length request.layers) }
        ensures known { OnOk result
            (KnowsAll H.digest self.now request.base request.index request.length request.layers) }
        ensures shape { (result ≡ Err AnswerError.Shape)
            ↔ (¬ IsRequest (height self.now) request.base request.index request.length
            request.layers) }
        ensures unknown { (result ≡ Err AnswerError.Unknown)
            ↔ (IsRequest (height self.now) request.base request.index request.length request.layers
            × HasUnknown H.digest self.now request.base request.index request.length
            request.layers) }
        ensures no_memory { result ≢ Err AnswerError.OutOfMemory }
    {
        if !request.is_lawful() {
            return Err(AnswerError::Shape);
        }
        if !self.knows_all(request) {
            return Err(AnswerError::Unknown);
        }
        Ok(())
    }

    /// Whether every node that the request needs is known.
    fn knows_all(&self, request: Request) -> bool
        requires lawful { IsRequest request.height request.base request.index request.length
            request.layers }
        requires height { request.height ≡ height self.now }
        requires high { request.height ≤ max_height }
        requires sound { IsSound H.digest self.now }
        ensures yes { OnTrue result
            (KnowsAll H.digest self.now request.base request.index request.length request.layers) }
        ensures no { OnFalse result
            (HasUnknown H.digest self.now request.base request.index request.length
            request.layers) }
    {
        for t in 0..request.size() {
            let (layer, index) = request.node(t);
            if !self.is_known(layer, index) {
                return false;
            }
        }
        true
    }

    /// Whether a node of the tree is known.
    fn is_known(&self, layer: u32, index: u32) -> bool
        requires inside { IsInside (blocks_of self.now) layer index }
        requires high { layer ≤ max_height }
        ensures { IsTrue result ↔ (value_at H.digest self.now layer index ≢ None) }
    {
        if index >= self.geometry.real(layer as u8) {
            return true;
        }
        self.held(layer, index).is_some()
    }

    /// Writes the digests of the nodes that the request needs, all of which are known, over as many.
    fn fill(&self, request: Request, digests: &mut [Hash32])
        requires lawful { IsRequest request.height request.base request.index request.length
            request.layers }
        requires height { request.height ≡ height self.now }
        requires high { request.height ≤ max_height }
        requires sound { IsSound H.digest self.now }
        requires known { KnowsAll H.digest self.now request.base request.index request.length
            request.layers }
        requires room { HasRoom request.length request.layers digests.old }
        ensures { IsAnswer H.digest self.now request.base request.index request.length
            request.layers
            digests.new }
    {
        let mut padding = Padding::new(self.hash);
        for t in 0..request.size() {
            let (layer, index) = request.node(t);
            let digest = match self.held(layer, index) {
                Some(digest) => digest,
                // What is known and not held is padding.
                None => padding.rise(layer as u8),
            };
            digests[t as usize] = digest;
        }
    }
}
