//! The check of a share of a file's blocks, run by run.
ghost use Rattle.std.specs.Prelude.{◌≡◌, ◌⊎◌, ◌+◌, ◌^◌, ◌<◌, ◌≤◌, List, IfOk, IfErr, OnOk};
ghost use Rattle.std.specs.Io.KnownBytes.{Appends};
ghost use Rattle.sha2.specs.Sha256.{sha256};
ghost use Rattle.bt_tree.specs.Blocks.{block_count};
ghost use Rattle.bt_store.specs.BlockReads.{BlockRead};
ghost use Rattle.bt_store.specs.SmallGroups.{AreAdopted};
ghost use Rattle.bt_check.specs.Fault.{device, out_of_memory};
ghost use Rattle.bt_parts.specs.Line.{run_line};
ghost use Rattle.bt_jobs.specs.Share.{ChecksShare, IsReadyAt, IsWithGroups, TellsOrKeeps, run_at};

use bt_check::{Fault, FileHash, print};
use bt_disk::Disk;
use bt_parts::{Met, Run, Share, push_line};
use bt_sparse::SparseTree;
use bt_store::{AdoptedGroups, FileStore};
use std::alloc::{AllocError, Global};
use std::io::Write;

/// After how many blocks a run is told, which so is done each 16 MiB.
const RUN_BLOCKS: u32 = 1024;

/// Writes the line of a run, at once.
pub(crate) fn tell<W: Write>(alloc: Global, run: Run, writer: &mut W) -> Result<(), Fault>
    ensures line { OnOk result (Appends (W.contents writer.old) (W.contents writer.new)
        (run_line run)) }
    ensures fault { IfErr result (λ fault. (fault ≡ device) ⊎ (fault ≡ out_of_memory)) }
{
    let mut line = String::new(alloc);
    push_line(&mut line, run)?;
    print(writer, line.as_str())
}

/// Checks a part's blocks of a file, and tells of them run by run.
pub(crate) fn check_share<D: Disk + Drop, W: Write>(
    alloc: Global,
    disk: D,
    tree: &mut SparseTree<FileHash>,
    file: u32,
    share: Share,
    writer: &mut W,
) -> Result<D, Fault>
    requires ready { IsReadyAt share.from tree.old }
    requires forward { share.from ≤ share.to }
    requires inside { share.to ≤ block_count tree.old.file_length }
    ensures checked { IfOk result (λ after. ChecksShare D.conduct tree.old file share disk
        after tree.new (W.contents writer.old) (W.contents writer.new)) }
    ensures fault { IfErr result (λ fault. (fault ≡ device) ⊎ (fault ≡ out_of_memory)) }
{
    let Ok(mut store) = FileStore::create(alloc, disk, FileHash, tree.geometry()) else {
        return Err(Fault::OutOfMemory);
    };
    let mut run = run_at(file, share.from);
    while run.to < share.to {
        let adopted = adopt_ahead(&mut store, tree, run.to)?;
        run = told_if_long(alloc, with_groups(run, adopted), share.to, writer)?;
    }
    // a group that reaches into the next part
    if run.to > share.to {
        return Err(Fault::Device);
    }
    Ok(store.into_disk())
}

/// A run of no blocks.
fn run_at(file: u32, from: u32) -> Run
    ensures { result ≡ run_at file from }
{
    Run {
        file,
        from,
        to: from,
        marked: 0,
        met: Met::Nothing,
    }
}

/// A run with the groups that come next.
fn with_groups(run: Run, groups: AdoptedGroups) -> Run
    requires { run.marked + groups.marked < 2 ^ 32 }
    ensures { IsWithGroups run groups result }
{
    Run {
        file: run.file,
        from: run.from,
        to: groups.next,
        marked: run.marked + groups.marked,
        met: if groups.faults > 0 {
            Met::Unread
        } else {
            run.met
        },
    }
}

/// Tells a run that is long, or the last before a block, and gives the one that begins after it; any other run it
/// gives back.
fn told_if_long<W: Write>(alloc: Global, run: Run, end: u32, writer: &mut W) -> Result<Run, Fault>
    requires { run.from ≤ run.to }
    ensures next { IfOk result
        (TellsOrKeeps run end (W.contents writer.old) (W.contents writer.new)) }
    ensures fault { IfErr result (λ fault. (fault ≡ device) ⊎ (fault ≡ out_of_memory)) }
{
    if run.to < end && run.to - run.from < RUN_BLOCKS {
        return Ok(run);
    }
    tell(alloc, run, writer)?;
    Ok(run_at(run.file, run.to))
}

/// Reads the groups of blocks that come next. Small groups are taken together only where eight blocks begin, so that
/// none of the next part's is among them.
fn adopt_ahead<D: Disk + Drop>(
    store: &mut FileStore<D, FileHash>,
    tree: &mut SparseTree<FileHash>,
    from: u32,
) -> Result<AdoptedGroups, AllocError>
    requires geometry { tree.old.file_length ≡ store.old.file_length }
    requires inside { from < block_count store.old.file_length }
    ensures ok { IfOk result (λ adopted. (reads : List BlockRead) × AreAdopted D.conduct
        sha256 tree.old from store.old reads adopted tree.new store.new) }
    ensures onward { IfOk result (λ adopted. from < adopted.next) }
    ensures within { IfOk result (λ adopted. adopted.next ≤ block_count store.old.file_length) }
{
    if from % 8 == 0 {
        return store.adopt_groups(tree, from);
    }
    let Ok(group) = store.adopt(tree, from) else {
        return Err(AllocError);
    };
    Ok(AdoptedGroups {
        next: group.next,
        marked: group.marked,
        faults: group.faults,
    })
}
