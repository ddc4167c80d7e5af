//! The folder that a log's file lies in.
ghost use Rattle.std.specs.Prelude.{◌≡◌, Ok, IfErr, IfOk, OnOk};
ghost use Rattle.std.specs.Path.{path_buf_bytes};
ghost use Rattle.bt_check.specs.Fault.{device, out_of_memory};
ghost use Rattle.bt_log_file.specs.Folder.{folder_of};
ghost use Rattle.bt_log_file.specs.Keeping.{HasFolderThat, IsEndOfLinks, IsEndBy};
ghost use Rattle.bt_log_file.specs.Opening.{IsCallFaultBy};
ghost use Rattle.bt_log_file.specs.OtherFiles.{IsFree};

use crate::log_folder::{LogFolder, OpenedLog};
use crate::other_files::OtherFiles;
use bt_check::{Fault, told};
use bt_folder::{Lookup, or_dot};
use bt_progress::{FileCall, Watch};
use std::alloc::Global;
use std::io::{self, ErrorKind};
use std::path::{Path, PathBuf};

/// The folder that the last name of a path lies in. The dot is the one that the program runs in.
pub(crate) fn folder_of(path: &str) -> &str
    ensures { result.now ≡ folder_of path.now }
{
    match Path::new(path).parent() {
        Some(folder) => or_dot(folder.as_str()),
        None => ".",
    }
}

/// Has the name of a file kept that was opened for a log, and is none of those that it may not be: by a sync of the
/// folder that it lies in once all links are followed. A fault is told of.
pub(crate) fn keep_name<R: LogFolder + Lookup, P: Watch, D>(
    rt: &R,
    watch: &P,
    others: &OtherFiles<'_>,
    opened: &OpenedLog<'_, D>,
) -> Result<(), Fault>
    requires free { let file = opened.now
        in IsFree (R.tells rt.now) (R.lists rt.now) others.now file.opening.identity file.path.now }
    ensures kept { OnOk result (HasFolderThat (R.leads rt.now)
        (R.keeps rt.now) opened.now.path.now) }
    ensures fault { let lost = HasFolderThat (R.leads rt.now) (R.loses rt.now) opened.now.path.now
        in IfErr result (IsCallFaultBy lost) }
{
    let file = real_path(rt, opened.path)?;
    let folder = folder_of(file.as_path().as_str());
    keep_folder(rt, watch, folder)
}

/// Has what was made in a folder kept. A fault is told of.
fn keep_folder<R: LogFolder, P: Watch>(rt: &R, watch: &P, folder: &str) -> Result<(), Fault>
    ensures kept { OnOk result (R.keeps rt.now folder.now) }
    ensures fault { IfErr result (λ fault. (fault ≡ device) × R.loses rt.now folder.now) }
{
    let synced = rt.keep_folder(folder).map_err(|_| Fault::Device);
    told(rt.alloc(), watch, FileCall::Sync, folder, synced)
}

/// The path of a file once all links are followed. Where the system tells none, or one that is no text, it is the one
/// given.
fn real_path<R: LogFolder>(rt: &R, path: &str) -> Result<PathBuf, Fault>
    ensures real { IfOk result (λ real. IsEndOfLinks (R.leads rt.now) path.now
        (path_buf_bytes real)) }
    ensures fault { IfErr result (λ fault. fault ≡ out_of_memory) }
{
    real_or_given(rt.alloc(), rt.end_of_links(path), path)
}

/// The path that the system told, or, where it told none, the one given; but not where memory was refused for it.
fn real_or_given(alloc: Global, real: io::Result<PathBuf>, path: &str) -> Result<PathBuf, Fault>
    ensures real { IfOk real (λ told. result ≡ Ok told) }
    ensures end { IfOk result (λ end. IsEndBy real path.now (path_buf_bytes end)) }
    ensures fault { IfErr result (λ fault. fault ≡ out_of_memory) }
{
    match real {
        Ok(told) => Ok(told),
        Err(error) if error.kind() == ErrorKind::OutOfMemory => Err(Fault::OutOfMemory),
        Err(_) => Ok(PathBuf::from_str(alloc, path)?),
    }
}
