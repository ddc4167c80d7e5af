//! What the rows so far have made, and whose row one is.

use crate::ahead::ahead_row;
use crate::hints::{hints_row, runs_row};
use crate::lists::Lists;
use crate::sessions::Sessions;
use crate::sockets::socket_row;
use crate::swarms::Swarms;
use crate::talks::Talks;
use bt_rows::is_comment;
use std::alloc::{AllocError, Global};
use std::fmt::Write;

/// What the rows work on.
#[derive(Drop)]
pub struct Stage<'a> {
    net: &'a HostRuntime,
    lists: Lists,
    sessions: Sessions,
    talks: Talks,
    swarms: Swarms,
}

impl<'a> Stage<'a> {
    pub fn new(alloc: Global, net: &'a HostRuntime) -> Self {
        Stage {
            net,
            lists: Lists::Empty,
            sessions: Sessions::new(),
            talks: Talks::new(),
            swarms: Swarms::new(alloc),
        }
    }

    /// Adds what a row answers. One that begins with `#` is told as it is.
    pub fn answer(&mut self, alloc: Global, row: &str, out: &mut String) -> Result<(), AllocError> {
        if let Some(event) = row.strip_prefix("event ") {
            return self.lists.answer(alloc, event, out);
        }
        self.finish(alloc, out)?;
        if is_comment(row) {
            return writeln!(out, "{row}");
        }
        self.other_row(alloc, row, out)
    }

    /// Runs the events that have not run, and adds what they answer.
    pub fn finish(&mut self, alloc: Global, out: &mut String) -> Result<(), AllocError> {
        self.lists.finish(alloc, out)
    }

    /// A row that is no event.
    fn other_row(&mut self, alloc: Global, row: &str, out: &mut String) -> Result<(), AllocError> {
        let (name, rest) = row.split_once(' ').unwrap_or((row, ""));
        match name {
            "ahead" => ahead_row(alloc, rest, out),
            "hints" => hints_row(alloc, rest, out),
            "runs" => runs_row(alloc, rest, out),
            "padding" => self.talks.answer(alloc, rest, out),
            "socket" => self.socket_row(alloc, rest, out),
            "swarm" => self.swarms.answer(alloc, rest, out),
            _ => self.sessions.answer(alloc, name, rest, out),
        }
    }

    /// A row of a socket, for the torrent of conversations and the engine of sessions.
    fn socket_row(&mut self, alloc: Global, row: &str, out: &mut String) -> Result<(), AllocError> {
        let Some(torrent) = &self.talks.torrent else {
            return out.push_str("no torrent\n");
        };
        match &mut self.sessions.engine {
            Some(engine) => socket_row(self.net, alloc, torrent, engine, row, out),
            None => out.push_str("no engine\n"),
        }
    }
}
