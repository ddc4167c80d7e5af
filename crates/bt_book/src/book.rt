//! The request book: which blocks are wanted, which peers are asked for which of them, and which block a peer
//! is asked for next.
ghost use Rattle.std.specs.Prelude.{◌≡◌, ◌<◌, ◌≤◌, ◌+◌, ◌^◌, ◌↔◌, ◌⊎◌, Bool, true, false, [], ◌∷◌, ◌++◌, ◌==◌, ◌≢◌, not, length, map, filter, All, Contains, count_by, sum, if◌then◌else◌, Option, Some, IsTrue, IfSome, OnSome, IfNone, IfOk};
ghost use Rattle.std.specs.Bool.{OnTrue, OnFalse};
ghost use Rattle.bt_book.specs.Blocks.{IsInRange, is_block, with_block, says, GivesFirst};
ghost use Rattle.bt_book.specs.Book.{IsJoined, CanAsk, IsShareable, peers_of, empty_book, full_book, asked_of, with_peer, without_peer, with_pair, with_pairs, without_pair, without_pairs_of, with_wanted, with_done, without_block, without_block_of, IsNextAsked, HasNoneToAsk, HasAskedAll, IsLeastShareable, AreAskedInTurn, HasWanted, HasNoneWanted, IsBook, IsPair, pair_count, pairs_in, KeepsOthers, max_peers, max_requests};
ghost use Rattle.bt_book.specs.Choking.{IsAscending};
ghost use Rattle.bt_book.specs.BookSteps.{AreFreed, CanJoin, HasEachOnce, IsIndexOf, HasRoomAt};

use crate::block_set::BlockSet;
use crate::choking::insert;
use crate::names::{BlockId, PeerKey};
use crate::requests::{MAX_REQUESTS, Requests, index_of};
use arrayvec::ArrayVec;
use std::alloc::{AllocError, Global};
use std::marker::Model;

/// How many peers are connected at most.
pub const MAX_PEERS: usize = 64;

/// How many peers are asked for one block at most.
pub const MAX_ASKERS: usize = 3;

/// How many blocks are wanted at most where one of them is asked of a peer beside others.
const MAX_IN_ENDGAME: u64 = 16;

/// Which blocks are wanted, and which peers are asked for which of them.
///
/// At most 64 peers have joined, and each of them is asked for at most 16 blocks. A wanted block is asked of
/// one peer, and while at most 16 blocks are wanted of up to three (*endgame*). Where more become wanted, the
/// pairs stay. Only `new` and `wanting_all` take memory.
#[derive(Drop)]
pub struct Book {
    wanted: BlockSet,
    wanted_count: u64,
    /// The wanted blocks that no peer is asked for.
    unasked: BlockSet,
    /// What each peer is asked for, in the order of joining.
    peers: Vec<Requests>,
    /// Whether a block was ever asked of a peer beside others. Until then each block is in one pair at most:
    /// one that leaves its pair is in none, without a look at what the others are asked for.
    has_shared: bool,
}

impl Model for Book {
    ghost use Rattle.std.specs.Prelude.{◌≤◌, vec_capacity};
    ghost use Rattle.bt_book.specs.Book.{BookState, max_peers};
    ghost use Rattle.bt_book.specs.BookSteps.{IsKept};

    ghost Value = { BookState };

    ghost view = { λ b. record { wanted = b.wanted; peers = b.peers.items } };

    ghost invariant = { λ b. IsKept b.wanted b.wanted_count b.unasked b.peers.items b.has_shared
        × (max_peers ≤ vec_capacity b.peers) };
}

impl Book {
    /// A book of files of as many blocks as each number says, in which nothing is wanted and no peer has joined.
    ///
    /// Errors: out of memory.
    pub fn new(alloc: Global, blocks: &[u32]) -> Result<Self, AllocError>
        ensures { IfOk result (λ b. b ≡ empty_book blocks.now) }
    {
        Ok(Book {
            wanted: BlockSet::new(alloc, blocks)?,
            wanted_count: 0,
            unasked: BlockSet::new(alloc, blocks)?,
            peers: Vec::with_capacity(alloc, MAX_PEERS)?,
            has_shared: false,
        })
    }

    /// A book of files of as many blocks as each number says, in which all blocks are wanted and no peer has
    /// joined. It is made without a step for each block.
    ///
    /// Errors: out of memory.
    pub fn wanting_all(alloc: Global, blocks: &[u32]) -> Result<Self, AllocError>
        requires { length blocks.now ≤ 2 ^ 32 }
        ensures { IfOk result (λ b. b ≡ full_book blocks.now) }
    {
        let peers = Vec::with_capacity(alloc, MAX_PEERS)?;
        Ok(Book {
            wanted: BlockSet::full(alloc, blocks)?,
            wanted_count: sum_of(blocks),
            unasked: BlockSet::full(alloc, blocks)?,
            peers,
            has_shared: false,
        })
    }

    /// Adds a peer, which is asked for nothing yet. False where it is there, or 64 others are; nothing
    /// changes then.
    pub fn join(&mut self, peer: PeerKey) -> bool
        ensures when { IsTrue result ↔ ((¬ IsJoined self.old peer)
            × (length self.old.peers < max_peers)) }
        ensures joined { OnTrue result (self.new ≡ with_peer self.old peer) }
        ensures asked { OnTrue result (asked_of self.new peer ≡ []) }
        ensures others { KeepsOthers self.old self.new peer }
        ensures peers { OnTrue result (peers_of self.new ≡ peers_of self.old ++ peer ∷ []) }
        ensures kept { OnFalse result (self.new ≡ self.old) }
    {
        if index_of(&self.peers, peer).is_some() || self.peers.len() >= MAX_PEERS {
            return false;
        }
        self.peers.push(Requests::new(peer)).is_ok()
    }

    /// Drops a peer, and the pairs that it is in.
    #[tactic(auto, using(crate::proofs::Steps::peer_steps))]
    pub fn lost(&mut self, peer: PeerKey)
        ensures now { self.new ≡ without_peer self.old peer }
        ensures nothing_asked { asked_of self.new peer ≡ [] }
        ensures fewer { (block : BlockId) → IsPair self.old peer block
            → pair_count self.new block + 1 ≡ pair_count self.old block }
        ensures others { KeepsOthers self.old self.new peer }
        ensures peers { peers_of self.new ≡ filter (λ key. not (key.0 == peer.0))
            (peers_of self.old) }
    {
        if let Some(index) = index_of(&self.peers, peer) {
            let gone = self.peers.remove(index);
            free_blocks(
                &mut self.unasked,
                &self.peers,
                self.has_shared,
                gone.blocks(),
            );
        }
    }

    /// Drops the pairs that a peer is in.
    #[tactic(auto, using(crate::proofs::Steps::peer_steps))]
    pub fn choked(&mut self, peer: PeerKey)
        ensures now { self.new ≡ without_pairs_of self.old peer }
        ensures nothing_asked { asked_of self.new peer ≡ [] }
        ensures fewer { (block : BlockId) → IsPair self.old peer block
            → pair_count self.new block + 1 ≡ pair_count self.old block }
        ensures others { KeepsOthers self.old self.new peer }
        ensures peers { peers_of self.new ≡ peers_of self.old }
    {
        if let Some(index) = index_of(&self.peers, peer) {
            let dropped = self.peers[index].take();
            free_blocks(
                &mut self.unasked,
                &self.peers,
                self.has_shared,
                dropped.as_slice(),
            );
        }
    }

    /// Drops the pair of a peer and a block, and no other pair of the block. False where there is none;
    /// nothing changes then.
    #[tactic(auto, using(crate::proofs::Steps::peer_steps))]
    pub fn came(&mut self, peer: PeerKey, block: BlockId) -> bool
        ensures was { IsTrue result ↔ IsPair self.old peer block }
        ensures now { self.new ≡ without_pair self.old peer block }
        ensures asked { asked_of self.new peer ≡ without_block block (asked_of self.old peer) }
        ensures fewer { OnTrue result (pair_count self.new block + 1 ≡ pair_count self.old block) }
        ensures kept { OnFalse result (self.new ≡ self.old) }
        ensures others { KeepsOthers self.old self.new peer }
        ensures peers { peers_of self.new ≡ peers_of self.old }
    {
        let Some(index) = index_of(&self.peers, peer) else {
            return false;
        };
        if !self.peers[index].forget(block) {
            return false;
        }
        free_block(&mut self.unasked, &self.peers, self.has_shared, block);
        true
    }

    /// Whether the block is one of the torrent's.
    pub fn is_in_range(&self, block: BlockId) -> bool
        ensures { IsTrue result ↔ IsInRange self.now.wanted block }
    {
        self.wanted.is_in_range(block)
    }

    /// A block is wanted from now on.
    pub fn want(&mut self, block: BlockId)
        requires { IsInRange self.old.wanted block }
        ensures now { self.new ≡ with_wanted self.old block }
        ensures asked { (peer : PeerKey) → asked_of self.new peer ≡ asked_of self.old peer }
        ensures peers { peers_of self.new ≡ peers_of self.old }
    {
        if !self.wanted.contains(block) {
            self.wanted.insert(block);
            self.wanted_count += 1;
            self.unasked.insert(block);
        }
    }

    /// A block is wanted no more, and the pairs that it is in are dropped.
    pub fn done(&mut self, block: BlockId)
        requires { IsInRange self.old.wanted block }
        ensures now { self.new ≡ with_done self.old block }
        ensures asked { (peer : PeerKey)
            → asked_of self.new peer ≡ without_block block (asked_of self.old peer) }
        ensures free { pair_count self.new block ≡ 0 }
        ensures peers { peers_of self.new ≡ peers_of self.old }
    {
        if !self.wanted.contains(block) {
            return;
        }
        self.wanted.remove(block);
        self.wanted_count -= 1;
        if self.unasked.contains(block) {
            self.unasked.remove(block);
        } else {
            forget_block(&mut self.peers, block);
        }
    }

    /// Who is asked for a block, in the order of their keys.
    pub fn asked(&self, block: BlockId) -> ArrayVec<PeerKey, MAX_ASKERS>
        ensures ascending { IsAscending result.items }
        ensures exact { (key : PeerKey) → Contains result.items key ↔ IsPair self.now key block }
    {
        let mut keys = ArrayVec::new();
        if self.unasked.is_in_range(block) && self.unasked.contains(block) {
            return keys;
        }
        for requests in self.peers.as_slice() {
            if requests.has(block) {
                insert(&mut keys, requests.peer());
            }
        }
        keys
    }

    /// Asks a peer for a wanted block of which `has` says that the peer has it: for the least one that no
    /// peer is asked for; where there is none, and at most 16 blocks are wanted, for the least one that at
    /// most two others are asked for, and the peer not yet. The two are a pair from now on. None where there
    /// is no such block, where the peer is asked for 16, and where it has not joined; nothing changes then.
    /// It asks `has` of each block that may be asked before the one that it finds: `ask_next` leaps over what
    /// the peer lacks.
    pub fn ask<F: Fn(BlockId) -> bool>(&mut self, peer: PeerKey, has: F) -> Option<BlockId>
        requires { (block : BlockId) → IsInRange self.old.wanted block → F.pre has block }
        ensures next { IfSome result (IsNextAsked (F.post has) self.old peer) }
        ensures now { IfSome result (λ block. self.new ≡ with_pair self.old peer block) }
        ensures asked { IfSome result (λ block.
            asked_of self.new peer ≡ asked_of self.old peer ++ block ∷ []) }
        ensures others { KeepsOthers self.old self.new peer }
        ensures peers { peers_of self.new ≡ peers_of self.old }
        ensures joined { OnSome result (IsJoined self.old peer) }
        ensures room { OnSome result (length (asked_of self.old peer) < max_requests) }
        ensures none { IfNone result ((¬ IsJoined self.old peer)
            ⊎ (length (asked_of self.old peer) ≡ max_requests) ⊎ HasNoneToAsk
            (F.post has) self.old peer) }
        ensures kept { IfNone result (self.new ≡ self.old) }
    {
        let index = self.index_with_room(peer)?;
        let block = self.next_asked(index, &has)?;
        self.make_pair(index, block);
        Some(block)
    }

    /// Asks a peer for a wanted block that the peer has, as `ask` does.
    ///
    /// What the peer has is told by `next`: at each block of the torrent it gives the first one, from there
    /// on, that the peer has. It is called once for each time that the peer's blocks and those that no peer is
    /// asked for alternate, and then for 16 blocks at most.
    pub fn ask_next<F: Fn(BlockId) -> Option<BlockId>>(
        &mut self,
        peer: PeerKey,
        next: F,
    ) -> Option<BlockId>
        requires { (block : BlockId) → IsInRange self.old.wanted block → F.pre next block }
        ensures next { IfSome result (λ block. (has : BlockId → Bool)
            → GivesFirst (F.post next) self.old.wanted has → IsNextAsked
            (says has) self.old peer block) }
        ensures can { IfSome result (CanAsk self.old peer) }
        ensures now { IfSome result (λ block. self.new ≡ with_pair self.old peer block) }
        ensures asked { IfSome result (λ block.
            asked_of self.new peer ≡ asked_of self.old peer ++ block ∷ []) }
        ensures others { KeepsOthers self.old self.new peer }
        ensures peers { peers_of self.new ≡ peers_of self.old }
        ensures joined { OnSome result (IsJoined self.old peer) }
        ensures room { OnSome result (length (asked_of self.old peer) < max_requests) }
        ensures none { IfNone result (HasAskedAll (F.post next) self.old peer) }
        ensures kept { IfNone result (self.new ≡ self.old) }
    {
        let index = self.index_with_room(peer)?;
        let block = self.next_met(index, &next)?;
        self.make_pair(index, block);
        Some(block)
    }

    /// Asks a peer for wanted blocks that it has, one after the other as `ask` does, until it is asked for 16
    /// or there is none left, and gives these blocks, each once: none where it has not joined. `next` is as
    /// for `ask_next`.
    pub fn ask_all<F: Fn(BlockId) -> Option<BlockId>>(
        &mut self,
        peer: PeerKey,
        next: F,
    ) -> ArrayVec<BlockId, MAX_REQUESTS>
        requires { (block : BlockId) → IsInRange self.old.wanted block → F.pre next block }
        ensures now { self.new ≡ with_pairs self.old peer result.items }
        ensures joined { result.items ≢ [] → IsJoined self.old peer }
        ensures can { All (CanAsk self.old peer) result.items }
        ensures turns { (has : BlockId → Bool) → GivesFirst (F.post next) self.old.wanted has
            → AreAskedInTurn has self.old peer result.items }
        ensures all { HasAskedAll (F.post next) self.new peer }
    {
        let mut blocks = ArrayVec::new();
        self.keeps_laws();
        for _ in 0..MAX_REQUESTS {
            let Some(block) = self.ask_next(peer, &next) else {
                return blocks;
            };
            blocks.push(block);
        }
        blocks
    }

    /// The block that the peer at an index is asked for next, of those of which `has` is true.
    fn next_asked<F: Fn(BlockId) -> bool>(&self, index: usize, has: &F) -> Option<BlockId>
        requires inside { index < length self.now.peers }
        requires callable { (block : BlockId) → IsInRange self.now.wanted block
            → F.pre has.now block }
        ensures some { IfSome result (λ block. (peer : PeerKey)
            → IsIndexOf peer self.now.peers index
            → IsNextAsked (F.post has.now) self.now peer block) }
        ensures none { IfNone result ((peer : PeerKey) → IsIndexOf peer self.now.peers index
            → HasNoneToAsk (F.post has.now) self.now peer) }
    {
        if let Some(block) = self.unasked.least(has) {
            return Some(block);
        }
        self.least_beside(index, has)
    }

    /// The block that the peer at an index is asked for next, of those that `next` gives.
    fn next_met<F: Fn(BlockId) -> Option<BlockId>>(&self, index: usize, next: &F) -> Option<BlockId>
        requires inside { index < length self.now.peers }
        requires callable { (block : BlockId) → IsInRange self.now.wanted block
            → F.pre next.now block }
        ensures some { IfSome result (λ block. (peer : PeerKey)
            → IsIndexOf peer self.now.peers index
            → (has : BlockId → Bool) → GivesFirst (F.post next.now) self.now.wanted has
            → IsNextAsked (says has) self.now peer block) }
        ensures can { IfSome result (λ block. (peer : PeerKey) → IsIndexOf peer self.now.peers index
            → CanAsk self.now peer block) }
        ensures none { IfNone result ((peer : PeerKey) → IsIndexOf peer self.now.peers index
            → (has : BlockId → Bool) → GivesFirst (F.post next.now) self.now.wanted has
            → HasNoneToAsk (says has) self.now peer) }
    {
        if let Some(block) = self.unasked.meet(next) {
            return Some(block);
        }
        self.least_beside(
            index,
            &|block: BlockId| -> bool
                requires { F.pre next.now block }
                ensures yes { OnTrue result (F.post next.entry.now block (Some block)) }
                ensures no { OnFalse result ((r : Option BlockId) × F.post next.entry.now block r
                    × (r ≢ Some block)) }
            { gives_itself(next, block) },
        )
    }

    /// The least block that the peer at an index may be asked for beside others, of those of which `has` is
    /// true.
    fn least_beside<F: Fn(BlockId) -> bool>(&self, index: usize, has: &F) -> Option<BlockId>
        requires inside { index < length self.now.peers }
        requires callable { (block : BlockId) → IsInRange self.now.wanted block
            → F.pre has.now block }
        ensures some { IfSome result (λ block. (peer : PeerKey)
            → IsIndexOf peer self.now.peers index
            → IsLeastShareable (F.post has.now) self.now peer block) }
        ensures none { IfNone result ((peer : PeerKey) → IsIndexOf peer self.now.peers index
            → (block : BlockId) → IsShareable self.now peer block → F.post has.now block false) }
    {
        if self.wanted_count > MAX_IN_ENDGAME {
            return None;
        }
        let peers = self.peers.as_slice();
        self.wanted.least(
            &|block: BlockId| -> bool
                requires inside { index < length peers.now }
                requires apart { All HasEachOnce peers.now }
                requires callable { F.pre has.now block }
                ensures yes { OnTrue result (CanJoin peers.entry.now index block
                    × F.post has.entry.now block true) }
                ensures no { OnFalse result (CanJoin peers.entry.now index block
                    → F.post has.entry.now block false) }
            { can_join(peers, index, block) && has(block) },
        )
    }

    /// The index of a peer that may be asked for more.
    fn index_with_room(&self, peer: PeerKey) -> Option<usize>
        ensures here { IfSome result (IsIndexOf peer self.now.peers) }
        ensures room_here { IfSome result (HasRoomAt self.now.peers) }
        ensures room { OnSome result (length (asked_of self.now peer) < max_requests) }
        ensures none { IfNone result ((¬ IsJoined self.now peer)
            ⊎ (length (asked_of self.now peer) ≡ max_requests)) }
    {
        let index = index_of(&self.peers, peer)?;
        if self.peers[index].is_full() {
            return None;
        }
        Some(index)
    }

    /// The peer at an index is asked for a block from now on.
    fn make_pair(&mut self, index: usize, block: BlockId)
        requires room { HasRoomAt self.old.peers index }
        requires can { (peer : PeerKey) → IsIndexOf peer self.old.peers index
            → CanAsk self.old peer block }
        ensures { (peer : PeerKey) → IsIndexOf peer self.old.peers index
            → self.new ≡ with_pair self.old peer block }
    {
        if self.unasked.contains(block) {
            self.unasked.remove(block);
        } else {
            self.has_shared = true;
        }
        self.peers[index].push(block);
    }

    /// Whether a peer has a block that is wanted, also one that a peer is asked for. `next` is as for
    /// `ask_next`.
    pub fn wants<F: Fn(BlockId) -> Option<BlockId>>(&self, next: F) -> bool
        requires { (block : BlockId) → IsInRange self.now.wanted block → F.pre next block }
        ensures yes { OnTrue result ((has : BlockId → Bool) → GivesFirst
            (F.post next) self.now.wanted has
            → HasWanted has self.now) }
        ensures no { OnFalse result ((has : BlockId → Bool) → GivesFirst
            (F.post next) self.now.wanted has
            → HasNoneWanted has self.now) }
    {
        self.wanted.meet(&next).is_some()
    }

    /// The laws of a book: no peer has joined twice, each block is in three pairs at most, with three peers,
    /// and it is wanted then; each peer is in 16 pairs at most. It does nothing when it runs.
    pub fn keeps_laws(&self)
        ensures { IsBook self.now }
    {
        // A proof knows what holds of a book only from a step that looks at its fields.
        let _ = &self.peers;
    }
}

/// The sum of the numbers.
fn sum_of(numbers: &[u32]) -> u64
    requires { length numbers.now ≤ 2 ^ 32 }
    ensures { result ≡ sum numbers.now }
{
    let mut sum = 0;
    for number in numbers {
        sum += u64::from(*number);
    }
    sum
}

/// Puts those of the blocks into the set that no peer is asked for.
fn free_blocks(unasked: &mut BlockSet, peers: &[Requests], has_shared: bool, blocks: &[BlockId])
    requires inside { All (IsInRange unasked.old) blocks.now }
    requires single { has_shared ≡ false → All (λ b. pairs_in peers.now b ≡ 0) blocks.now }
    ensures { AreFreed unasked.old peers.now blocks.now unasked.new }
{
    for block in blocks {
        free_block(unasked, peers, has_shared, *block);
    }
}

/// Puts a block into the set where no peer is asked for it.
fn free_block(unasked: &mut BlockSet, peers: &[Requests], has_shared: bool, block: BlockId)
    requires inside { IsInRange unasked.old block }
    requires single { has_shared ≡ false → pairs_in peers.now block ≡ 0 }
    ensures { unasked.new ≡ (if pairs_in peers.now block == 0 then with_block unasked.old block true
        else unasked.old) }
{
    if has_shared && is_in_pair(peers, block) {
        return;
    }
    unasked.insert(block);
}

/// Whether a peer is asked for the block.
fn is_in_pair(peers: &[Requests], block: BlockId) -> bool
    ensures { IsTrue result ↔ (0 < pairs_in peers.now block) }
{
    for requests in peers {
        if requests.has(block) {
            return true;
        }
    }
    false
}

/// Whether the peer at an index may be asked for a block beside others: it is not asked for it, and at most
/// two are.
fn can_join(peers: &[Requests], index: usize, block: BlockId) -> bool
    requires inside { index < length peers.now }
    requires apart { All HasEachOnce peers.now }
    ensures { IsTrue result ↔ CanJoin peers.now index block }
{
    !peers[index].has(block) && count_pairs(peers, block) < MAX_ASKERS
}

/// How many peers are asked for a block.
fn count_pairs(peers: &[Requests], block: BlockId) -> usize
    requires { All HasEachOnce peers.now }
    ensures { result ≡ pairs_in peers.now block }
{
    let mut count = 0;
    for requests in peers {
        if requests.has(block) {
            count += 1;
        }
    }
    count
}

/// Whether `next` gives the block that it is called on.
fn gives_itself<F: Fn(BlockId) -> Option<BlockId>>(next: &F, block: BlockId) -> bool
    requires { F.pre next.now block }
    ensures yes { OnTrue result (F.post next.now block (Some block)) }
    ensures no { OnFalse result ((r : Option BlockId) × F.post next.now block r
        × (r ≢ Some block)) }
{
    match next(block) {
        Some(first) => first.file == block.file && first.block == block.block,
        None => false,
    }
}

/// Drops the block from what each peer is asked for.
fn forget_block(peers: &mut [Requests], block: BlockId)
    requires { All (λ r. count_by (is_block block) r.blocks ≤ 1) peers.old }
    ensures { peers.new ≡ map (without_block_of block) peers.old }
{
    for requests in peers.iter_mut() {
        requests.forget(block);
    }
}
