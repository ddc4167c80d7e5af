//! A table of up to 512 pages: the digests of up to 2^18 neighbouring nodes of a layer, by index.
ghost use Rattle.std.specs.Prelude.{◌≡◌, ◌+◌, ◌%◌, ◌/◌, ◌<◌, ◌≤◌, ◌↔◌, ℕ, [], None, IsTrue, IsSome, OnOk, length, slice_index_or};
ghost use Rattle.bt_sparse.specs.Page.{page_length};
ghost use Rattle.bt_sparse.specs.PageTable.{slot_at, KeepsPages, IsPutIn};

use crate::page::Page;
use bt_tree::Hash32;
use std::alloc::{AllocError, Global};
use std::marker::Model;

/// How many places a page has at most.
pub(crate) const PAGE_LEN: u32 = 512;

/// Up to 512 pages of neighbouring nodes of a layer, as far as they are needed.
#[derive(Drop)]
pub(crate) struct PageTable {
    pages: Vec<Page>,
}

impl Model for PageTable {
    ghost use Rattle.bt_sparse.specs.PageTable.{Pages};

    ghost Value = { Pages };

    ghost view = { λ a. a.pages.items };
}

impl PageTable {
    pub(crate) fn new(alloc: Global) -> PageTable
        ensures { result ≡ [] }
    {
        PageTable {
            pages: Vec::new(alloc),
        }
    }

    /// The digest at an index.
    pub(crate) fn get(&self, index: u32) -> Option<Hash32>
        ensures { result ≡ slot_at self.now index }
    {
        match self.pages.get((index / PAGE_LEN) as usize) {
            Some(page) => page.get((index % PAGE_LEN) as usize),
            None => None,
        }
    }

    /// Makes the page of an index, with places for all of its nodes, where the table has this many.
    pub(crate) fn reach(&mut self, alloc: Global, index: u32, width: u32) -> Result<(), AllocError>
        requires { index < width }
        ensures kept { KeepsPages self.old self.new }
        ensures ready { OnOk result ((i : ℕ) → i / page_length ≡ index / page_length → i < width
            → i % page_length < length (slice_index_or self.new (index / page_length) [])) }
    {
        let page = (index / PAGE_LEN) as usize;
        self.lengthen(alloc, page + 1)?;
        let first = index - index % PAGE_LEN;
        self.pages[page].reach((width - first).min(PAGE_LEN) as usize)
    }

    /// Lengthens the table to this many pages. New ones have no places.
    #[tactic(auto, using(crate::proofs::PageTables::pushed_default))]
    fn lengthen(&mut self, alloc: Global, count: usize) -> Result<(), AllocError>
        ensures same { (p : ℕ) → slice_index_or self.new p [] ≡ slice_index_or self.old p [] }
        ensures ready { OnOk result (count ≤ length self.new) }
    {
        // Room for a power of two of them, so that a table that is filled upwards is seldom moved.
        let room = count.checked_next_power_of_two().unwrap_or(count);
        self.pages
            .reserve_exact(room.saturating_sub(self.pages.len()))?;
        for _ in self.pages.len()..count {
            self.pages.push(Page::new(alloc))?;
        }
        Ok(())
    }

    /// Puts a digest at an index, whose page is made, and returns whether there was none.
    pub(crate) fn put(&mut self, index: u32, digest: Hash32) -> bool
        requires { index % page_length < length (slice_index_or self.old (index / page_length) []) }
        ensures is_new { IsTrue result ↔ (slot_at self.old index ≡ None) }
        ensures put { IsPutIn index digest self.old self.new }
    {
        self.pages[(index / PAGE_LEN) as usize].put((index % PAGE_LEN) as usize, digest)
    }

    /// How many indices in a row from this one on have a digest, as far as its page goes.
    pub(crate) fn held_run(&self, index: u32) -> u32
        ensures held { (j : ℕ) → j < result → IsSome (slot_at self.now (index + j)) }
        ensures none { result ≡ 0 → slot_at self.now index ≡ None }
        ensures inside { index % page_length + result ≤ page_length }
    {
        match self.pages.get((index / PAGE_LEN) as usize) {
            Some(page) => {
                let place = index % PAGE_LEN;
                let rest = (PAGE_LEN - place) as usize;
                page.held_run(place as usize).min(rest) as u32
            }
            None => 0,
        }
    }
}
