//! The system's files, as ones that say why calls on them fail.

use crate::host::{Host, note};
use bt_progress::Console;
use std::alloc::Allocator;
use std::fs::{FileTimes, Metadata, OpenFile, OpenOptions, Permissions};
use std::io::{self, PipeReader, PipeWriter, Read, Seek, SeekFrom, Write};
use std::os::fd::BorrowedFd;
use std::os::unix::net::SocketAddr;
use std::path::PathBuf;
use std::rt::Files;
use std::time::Clock;

/// An open file, or a folder's names, whose calls are those of another.
#[derive(Drop)]
pub struct Noted<'a, T, C, W> {
    pub inner: T,
    pub console: &'a Console<'a, C, W>,
}

/// Notes what was met where something was looked at. Where that is no regular file, this is why it can't be taken for
/// one.
fn note_look<C: Clock, W: Write>(console: &Console<'_, C, W>, answer: &io::Result<Metadata>) {
    match answer {
        Ok(metadata) if metadata.is_dir() => console.note(Some("is a directory")),
        Ok(metadata) if !metadata.is_file() => console.note(Some("not a regular file")),
        _ => note(console, answer),
    }
}

impl<'a, R: Files, C: Clock, W: Write> Files for Host<'a, R, C, W> {
    type File = Noted<'a, R::File, C, W>;

    type Dir = Noted<'a, R::Dir, C, W>;

    fn open_file(&self, how: &OpenOptions, path: &str) -> io::Result<Noted<'a, R::File, C, W>> {
        let answer = self.rt.open_file(how, path);
        self.note(&answer);
        self.noted(answer)
    }

    fn open_dir(&self, path: &str) -> io::Result<Noted<'a, R::Dir, C, W>> {
        let answer = self.rt.open_dir(path);
        self.note(&answer);
        self.noted(answer)
    }

    fn metadata(&self, path: &str) -> io::Result<Metadata> {
        let answer = self.rt.metadata(path);
        note_look(self.console, &answer);
        answer
    }

    fn symlink_metadata(&self, path: &str) -> io::Result<Metadata> {
        let answer = self.rt.symlink_metadata(path);
        note_look(self.console, &answer);
        answer
    }

    fn copy(&self, from: &str, to: &str) -> io::Result<u64> {
        let answer = self.rt.copy(from, to);
        self.note(&answer);
        answer
    }

    fn rename(&self, from: &str, to: &str) -> io::Result<()> {
        let answer = self.rt.rename(from, to);
        self.note(&answer);
        answer
    }

    fn remove_file(&self, path: &str) -> io::Result<()> {
        let answer = self.rt.remove_file(path);
        self.note(&answer);
        answer
    }

    fn create_dir(&self, path: &str) -> io::Result<()> {
        let answer = self.rt.create_dir(path);
        self.note(&answer);
        answer
    }

    fn remove_dir(&self, path: &str) -> io::Result<()> {
        let answer = self.rt.remove_dir(path);
        self.note(&answer);
        answer
    }

    fn remove_dir_all<B: Allocator>(&self, alloc: B, path: &str) -> io::Result<()> {
        let answer = self.rt.remove_dir_all(alloc, path);
        self.note(&answer);
        answer
    }

    fn canonicalize<B: Allocator>(&self, alloc: B, path: &str) -> io::Result<PathBuf<B>> {
        let answer = self.rt.canonicalize(alloc, path);
        self.note(&answer);
        answer
    }

    fn read_link<B: Allocator>(&self, alloc: B, path: &str) -> io::Result<PathBuf<B>> {
        let answer = self.rt.read_link(alloc, path);
        self.note(&answer);
        answer
    }

    fn hard_link(&self, original: &str, link: &str) -> io::Result<()> {
        let answer = self.rt.hard_link(original, link);
        self.note(&answer);
        answer
    }

    fn set_permissions(&self, path: &str, perm: Permissions) -> io::Result<()> {
        let answer = self.rt.set_permissions(path, perm);
        self.note(&answer);
        answer
    }

    fn symlink(&self, original: &str, link: &str) -> io::Result<()> {
        let answer = self.rt.symlink(original, link);
        self.note(&answer);
        answer
    }

    fn pipe(&self) -> io::Result<(PipeReader, PipeWriter)> {
        let answer = self.rt.pipe();
        self.note(&answer);
        answer
    }

    fn chown(&self, path: &str, uid: Option<u32>, gid: Option<u32>) -> io::Result<()> {
        let answer = self.rt.chown(path, uid, gid);
        self.note(&answer);
        answer
    }

    fn lchown(&self, path: &str, uid: Option<u32>, gid: Option<u32>) -> io::Result<()> {
        let answer = self.rt.lchown(path, uid, gid);
        self.note(&answer);
        answer
    }

    fn create_dir_with_mode(&self, path: &str, mode: u32) -> io::Result<()> {
        let answer = self.rt.create_dir_with_mode(path, mode);
        self.note(&answer);
        answer
    }

    fn bind_unix(&self, socket: BorrowedFd<'_>, addr: &SocketAddr) -> io::Result<()> {
        let answer = self.rt.bind_unix(socket, addr);
        self.note(&answer);
        answer
    }
}

impl<'a, R, C: Clock, W: Write> Host<'a, R, C, W> {
    /// What was opened, if it was, as one whose calls are noted.
    fn noted<T>(&self, answer: io::Result<T>) -> io::Result<Noted<'a, T, C, W>> {
        match answer {
            Ok(inner) => Ok(Noted {
                inner,
                console: self.console,
            }),
            Err(error) => Err(error),
        }
    }
}

impl<T: Read, C: Clock, W: Write> Read for Noted<'_, T, C, W> {
    ghost remaining = { λ noted. T.remaining noted.inner };

    fn read(&mut self, buf: &mut [u8]) -> io::Result<usize> {
        let answer = self.inner.read(buf);
        note(self.console, &answer);
        answer
    }
}

impl<T: Write, C: Clock, W: Write> Write for Noted<'_, T, C, W> {
    ghost contents = { λ noted. T.contents noted.inner };

    fn write(&mut self, buf: &[u8]) -> io::Result<usize> {
        let answer = self.inner.write(buf);
        note(self.console, &answer);
        answer
    }

    fn flush(&mut self) -> io::Result<()> {
        let answer = self.inner.flush();
        note(self.console, &answer);
        answer
    }
}

impl<T: Seek, C: Clock, W: Write> Seek for Noted<'_, T, C, W> {
    ghost stream_position = { λ noted. T.stream_position noted.inner };

    ghost stream_bytes = { λ noted. T.stream_bytes noted.inner };

    fn seek(&mut self, to: SeekFrom) -> io::Result<u64> {
        let answer = self.inner.seek(to);
        note(self.console, &answer);
        answer
    }
}

impl<'a, T: OpenFile, C: Clock, W: Write> OpenFile for Noted<'a, T, C, W> {
    fn metadata(&self) -> io::Result<Metadata> {
        let answer = self.inner.metadata();
        note_look(self.console, &answer);
        answer
    }

    fn set_len(&self, size: u64) -> io::Result<()> {
        let answer = self.inner.set_len(size);
        note(self.console, &answer);
        answer
    }

    fn sync_all(&self) -> io::Result<()> {
        let answer = self.inner.sync_all();
        note(self.console, &answer);
        answer
    }

    fn sync_data(&self) -> io::Result<()> {
        let answer = self.inner.sync_data();
        note(self.console, &answer);
        answer
    }

    fn set_permissions(&self, perm: Permissions) -> io::Result<()> {
        let answer = self.inner.set_permissions(perm);
        note(self.console, &answer);
        answer
    }

    fn set_times(&self, times: FileTimes) -> io::Result<()> {
        let answer = self.inner.set_times(times);
        note(self.console, &answer);
        answer
    }

    fn try_clone(&self) -> io::Result<Noted<'a, T, C, W>> {
        match self.inner.try_clone() {
            Ok(inner) => Ok(Noted {
                inner,
                console: self.console,
            }),
            Err(error) => Err(error),
        }
    }
}
