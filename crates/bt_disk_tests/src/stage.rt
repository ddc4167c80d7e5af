//! What the rows so far have made, and the first word of a row.

use crate::device::{Device, device_row};
use crate::logs::{Log, log_row};
use crate::pending::pending_row;
use crate::shop::{Shop, shop_row};
use crate::store::{Store, store_row};
use crate::system::Counts;
use bt_devices::Seal;
use bt_engine_state::Pending;
use bt_rows::{RowError, Rows, Words, put, whole_answer};
use std::alloc::{AllocError, Global};

/// What the rows work on: three devices, a store and a log, which take the first of them, and the hints that wait
/// to be written to the log.
#[derive(Drop)]
pub struct Stage<'a> {
    first: Device<'a>,
    second: Device<'a>,
    third: Device<'a>,
    store: Store,
    log: Log,
    pending: Pending,
    shop: Shop<'a>,
}

impl<'a> Stage<'a> {
    pub fn new(rt: &'a HostRuntime, counts: &'a Counts, seal: &'a Seal, top: &'a str) -> Self {
        Stage {
            first: Device::Empty,
            second: Device::Empty,
            third: Device::Empty,
            store: Store::Empty,
            log: Log::Empty,
            pending: Pending::new(rt.alloc()),
            shop: Shop::new(rt, counts, seal, top),
        }
    }

    /// What a row answers that is made as often as a word says.
    fn times(&mut self, alloc: Global, words: &str) -> Result<String, AllocError> {
        let (count, row) = words.split_once(' ').unwrap_or((words, ""));
        let answer = self.once(alloc, row)?;
        let count = count.parse::<u32>().unwrap_or(0);
        if self.stays(alloc, row, count, answer.as_str())? {
            Ok(answer)
        } else {
            String::from_str(alloc, "another answer later")
        }
    }

    /// Whether a row that was made once has the same answer each other time.
    fn stays(
        &mut self,
        alloc: Global,
        row: &str,
        count: u32,
        answer: &str,
    ) -> Result<bool, AllocError> {
        for _ in 1..count {
            if !self.is_again(alloc, row, answer)? {
                return Ok(false);
            }
        }
        Ok(true)
    }

    fn is_again(&mut self, alloc: Global, row: &str, answer: &str) -> Result<bool, AllocError> {
        let again = self.once(alloc, row)?;
        Ok(again.as_str() == answer)
    }

    /// What a row answers; what is no row says so.
    fn once(&mut self, alloc: Global, row: &str) -> Result<String, AllocError> {
        let mut words = Words::new(row);
        let answer = self.row_answer(alloc, &mut words);
        whole_answer(alloc, row, &words, answer)
    }

    fn row_answer(&mut self, alloc: Global, words: &mut Words) -> Result<String, RowError> {
        let mut out = String::new(alloc);
        self.row(words, &mut out)?;
        Ok(out)
    }

    fn row(&mut self, words: &mut Words, out: &mut String) -> Result<(), RowError> {
        match words.word() {
            "store" => self.store_row(words, out),
            "log" => self.log_row(words, out),
            "pending" => self.pending_row(words, out),
            "system" => self.system_row(words, out),
            name => self.device_row(name, words, out),
        }
    }

    /// A row of a device, or of where devices come from.
    fn device_row(
        &mut self,
        name: &str,
        words: &mut Words,
        out: &mut String,
    ) -> Result<(), RowError> {
        match name {
            "a" => device_row(&mut self.first, &mut self.shop, words, out),
            "b" => device_row(&mut self.second, &mut self.shop, words, out),
            "c" => device_row(&mut self.third, &mut self.shop, words, out),
            _ => shop_row(&mut self.shop, name, words, out),
        }
    }

    fn store_row(&mut self, words: &mut Words, out: &mut String) -> Result<(), RowError> {
        let alloc = self.shop.alloc();
        store_row(alloc, &mut self.store, &mut self.first, words, out)
    }

    fn log_row(&mut self, words: &mut Words, out: &mut String) -> Result<(), RowError> {
        let alloc = self.shop.alloc();
        log_row(alloc, &mut self.log, &mut self.first, words, out)
    }

    fn pending_row(&mut self, words: &mut Words, out: &mut String) -> Result<(), RowError> {
        let alloc = self.shop.alloc();
        pending_row(alloc, &mut self.pending, &mut self.log, words, out)
    }

    /// Another system. All devices that were there are gone.
    fn system_row(&mut self, words: &mut Words, out: &mut String) -> Result<(), RowError> {
        put(&mut self.first, Device::Empty);
        put(&mut self.second, Device::Empty);
        put(&mut self.third, Device::Empty);
        self.shop.system_row(words, out)
    }
}

impl Rows for Stage<'_> {
    fn answer(&mut self, alloc: Global, row: &str) -> Result<String, AllocError> {
        match row.strip_prefix("times ") {
            Some(rest) => self.times(alloc, rest),
            None => self.once(alloc, row),
        }
    }
}
