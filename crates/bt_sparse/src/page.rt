//! A page of up to 512 digests of neighbouring nodes, with a bit for each that says whether it is there.
ghost use Rattle.std.specs.Prelude.{◌≡◌, ℕ, ◌+◌, ◌<◌, ◌≤◌, ◌↔◌, [], None, true, false, IsTrue, IsSome, OnOk, length, slice_index_or};
ghost use Rattle.std.specs.Int.{bit_at};
ghost use Rattle.bt_sparse.specs.Page.{page_length, IsLonger, IsPutAt, is_present};

use bt_tree::Hash32;
use std::alloc::{AllocError, Global};
use std::marker::Model;

/// How many words the bits of a full page have.
const PAGE_WORDS: usize = 8;

/// Places for the digests of neighbouring nodes, with a bit each that says whether the digest is there.
#[derive(Drop)]
pub(crate) struct Page {
    digests: Vec<Hash32>,
    present: Vec<u64>,
}

impl Model for Page {
    ghost use Rattle.bt_sparse.specs.Page.{Slots, slots_of, HasBits};

    ghost Value = { Slots };

    ghost view = { λ a. slots_of a.digests.items a.present.items };

    ghost invariant = { λ a. HasBits a.digests.items a.present.items };
}

impl Page {
    /// A page without places, which takes no memory.
    #[tactic(auto, using(crate::proofs::Pages::new_slots))]
    pub(crate) fn new(alloc: Global) -> Page
        ensures { result ≡ [] }
    {
        Page {
            digests: Vec::new(alloc),
            present: Vec::new(alloc),
        }
    }

    /// The digest at a place, where there is one.
    #[tactic(auto, using(crate::proofs::Pages::slot_is))]
    pub(crate) fn get(&self, place: usize) -> Option<Hash32>
        ensures { result ≡ slice_index_or self.now place None }
    {
        if place >= self.digests.len() {
            return None;
        }
        if !is_present(&self.present, place) {
            return None;
        }
        Some(self.digests[place])
    }

    /// Makes places up to this number.
    #[tactic(auto, using(crate::proofs::Steps::page_steps))]
    pub(crate) fn reach(&mut self, len: usize) -> Result<(), AllocError>
        ensures longer { IsLonger self.old self.new }
        ensures ready { OnOk result (len ≤ length self.new) }
    {
        if len <= self.digests.len() {
            return Ok(());
        }
        self.present.resize(len.div_ceil(64), 0)?;
        self.digests.resize(len, [0; 32])?;
        Ok(())
    }

    /// Puts a digest at a place, and returns whether there was none.
    #[tactic(auto, using(crate::proofs::Steps::page_steps))]
    pub(crate) fn put(&mut self, place: usize, digest: Hash32) -> bool
        requires { place < length self.old }
        ensures is_new { IsTrue result ↔ (slice_index_or self.old place None ≡ None) }
        ensures put { IsPutAt place digest self.old self.new }
    {
        let is_new = self.get(place).is_none();
        self.digests[place] = digest;
        self.present[place / 64] |= 1 << (place % 64);
        is_new
    }

    /// How many places in a row from this one on have a digest, as far as a full page goes.
    pub(crate) fn held_run(&self, place: usize) -> usize
        requires { place < page_length }
        ensures held { (j : ℕ) → j < result → IsSome (slice_index_or self.now (place + j) None) }
        ensures none { result ≡ 0 → slice_index_or self.now place None ≡ None }
    {
        let mut run = ones_from(&self.present, place);
        for i in 1..PAGE_WORDS {
            run += ones_from(&self.present, place + run);
        }
        run
    }
}

/// Whether a place's bit is set.
fn is_present(words: &[u64], place: usize) -> bool
    ensures { result ≡ is_present words.now place }
{
    match words.get(place / 64) {
        Some(word) => (*word >> (place % 64)) & 1 == 1,
        None => false,
    }
}

/// How many bits in a row from a place on are set, in the word of that place.
fn ones_from(words: &[u64], place: usize) -> usize
    ensures set { (j : ℕ) → j < result → is_present words.now (place + j) ≡ true }
    ensures none { result ≡ 0 → is_present words.now place ≡ false }
    ensures limit { result ≤ 64 }
{
    match words.get(place / 64) {
        Some(word) => trailing_ones(*word >> (place % 64)),
        None => 0,
    }
}

/// How many of a word's lowest bits are set in a row.
fn trailing_ones(word: u64) -> usize
    ensures set { (j : ℕ) → j < result → bit_at word j ≡ 1 }
    ensures none { result ≡ 0 → bit_at word 0 ≡ 0 }
    ensures limit { result ≤ 64 }
{
    if word == u64::MAX {
        return 64;
    }
    word.trailing_ones() as usize
}
