//! The digests that are held of one layer, in tables of pages that are made when they are needed.
ghost use Rattle.std.specs.Prelude.{◌≡◌, ◌+◌, ◌%◌, ◌/◌, ◌<◌, ◌≤◌, ◌↔◌, ℕ, [], None, IsTrue, IsSome, OnOk, length, slice_index_or};
ghost use Rattle.bt_sparse.specs.Page.{page_length};
ghost use Rattle.bt_sparse.specs.LayerPages.{table_length, entry_at, KeepsTables, IsPutInto};

use crate::page_table::{PAGE_LEN, PageTable};
use bt_tree::Hash32;
use std::alloc::{AllocError, Global};
use std::marker::Model;

/// How many nodes a table of pages is for.
const TABLE_LEN: u32 = 512 * PAGE_LEN;

/// The digests of a layer, in tables of pages. A table is made when the first digest of its nodes comes.
#[derive(Drop)]
pub(crate) struct LayerPages {
    tables: Vec<PageTable>,
}

impl Model for LayerPages {
    ghost use Rattle.bt_sparse.specs.LayerPages.{Tables};

    ghost Value = { Tables };

    ghost view = { λ a. a.tables.items };
}

impl LayerPages {
    pub(crate) fn new(alloc: Global) -> LayerPages
        ensures { result ≡ [] }
    {
        LayerPages {
            tables: Vec::new(alloc),
        }
    }

    /// The digest at an index.
    pub(crate) fn get(&self, index: u32) -> Option<Hash32>
        ensures { result ≡ entry_at self.now index }
    {
        match self.tables.get((index / TABLE_LEN) as usize) {
            Some(table) => table.get(index % TABLE_LEN),
            None => None,
        }
    }

    /// Makes the page of an index, in a layer that is this wide, with places for all of its nodes.
    pub(crate) fn reach(&mut self, alloc: Global, index: u32, width: u32) -> Result<(), AllocError>
        requires { index < width }
        ensures kept { KeepsTables self.old self.new }
        ensures ready { OnOk result ((i : ℕ) → i / page_length ≡ index / page_length → i < width
            → i % table_length % page_length
            < length (slice_index_or (slice_index_or self.new (index / table_length) [])
            (index % table_length / page_length) [])) }
    {
        let table = (index / TABLE_LEN) as usize;
        self.lengthen(alloc, table + 1)?;
        let first = index - index % TABLE_LEN;
        self.tables[table].reach(alloc, index % TABLE_LEN, (width - first).min(TABLE_LEN))
    }

    /// Lengthens the list to this many tables. New ones have no pages.
    #[tactic(auto, using(crate::proofs::PageTables::pushed_default))]
    fn lengthen(&mut self, alloc: Global, count: usize) -> Result<(), AllocError>
        ensures same { (t : ℕ) → slice_index_or self.new t [] ≡ slice_index_or self.old t [] }
        ensures ready { OnOk result (count ≤ length self.new) }
    {
        // Room for a power of two of them, so that a list that is filled upwards is seldom moved.
        let room = count.checked_next_power_of_two().unwrap_or(count);
        self.tables
            .reserve_exact(room.saturating_sub(self.tables.len()))?;
        for _ in self.tables.len()..count {
            self.tables.push(PageTable::new(alloc))?;
        }
        Ok(())
    }

    /// Puts a digest at an index, whose page is made, and returns whether there was none.
    pub(crate) fn put(&mut self, index: u32, digest: Hash32) -> bool
        requires { index % table_length % page_length
            < length (slice_index_or (slice_index_or self.old (index / table_length) [])
            (index % table_length / page_length) []) }
        ensures is_new { IsTrue result ↔ (entry_at self.old index ≡ None) }
        ensures put { IsPutInto index digest self.old self.new }
    {
        self.tables[(index / TABLE_LEN) as usize].put(index % TABLE_LEN, digest)
    }

    /// How many indices in a row from this one on have a digest, as far as its page goes.
    pub(crate) fn held_run(&self, index: u32) -> u32
        ensures held { (j : ℕ) → j < result → IsSome (entry_at self.now (index + j)) }
        ensures none { result ≡ 0 → entry_at self.now index ≡ None }
        ensures inside { index % page_length + result ≤ page_length }
    {
        match self.tables.get((index / TABLE_LEN) as usize) {
            Some(table) => table.held_run(index % TABLE_LEN),
            None => 0,
        }
    }
}
