//! Where an open file lies by its name, which may come to lead to another one.

use bt_check::display_name;
use bt_disk::FileIdentity;
use bt_folder::Lookup;
use bt_progress::Watch;
use std::alloc::{AllocError, Global};
use std::rt::Files;

/// The path by which a file was opened, which is looked at to tell whether it still leads there. No clause says what is
/// told.
#[derive(Drop)]
pub struct Place<'a, R, P> {
    rt: R,
    watch: &'a P,
    path: String,
}

impl<'a, R: Files + AllocGlobal + Clone + Drop + Lookup, P: Watch> Place<'a, R, P> {
    /// A place that is looked at: none where nothing is told of it, or memory is short.
    pub fn new(rt: &R, watch: &'a P, path: &str) -> Option<Self> {
        if !watch.is_verbose() {
            return None;
        }
        Some(Place {
            rt: rt.clone().ok()?,
            watch,
            path: String::from_str(rt.alloc(), path).ok()?,
        })
    }

    /// Tells where the path leads to another file than the one that was opened, of which the system told this, or to
    /// none; and is the same place where it leads there still, to be looked at again.
    pub(crate) fn looked_at(self, opened: FileIdentity) -> Option<Self> {
        if self.rt.identity_at(self.path.as_str()) == Some(opened) {
            return Some(self);
        }
        if let Ok(text) = lost_text(self.rt.alloc(), self.path.as_str()) {
            self.watch.hint(text.as_str());
        }
        None
    }
}

/// What is told of a path that does not lead any more to the file that was opened by it.
fn lost_text(alloc: Global, path: &str) -> Result<String, AllocError> {
    let name = display_name(alloc, path.as_bytes())?;
    format!(in alloc;
        "{name} leads to another file by now, or to none: what is told of it is of the one that was opened"
    )
}
