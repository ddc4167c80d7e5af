//! Trees that take the proofs of a log, and the runs that its marks record.
ghost use Rattle.std.specs.Prelude.{[], ◌∷◌, ◌≡◌, IfOk, IfSome};
ghost use Rattle.bt_engine_state.specs.Roots.{AreNumbered};

use bt_disk::MemoryDisk;
use bt_engine_start::{MarkRun, recorded_runs, take_proofs};
use bt_engine_state::Roots;
use bt_resume::ResumeLog;
use bt_rows::{RowError, Words, whole_answer};
use bt_sparse::SparseTree;
use bt_tree::{Hash32, Plain};
use std::alloc::{AllocError, Global};
use std::collections::BTreeMap;
use std::fmt::Write;

/// Adds what a row answers. What is no row says so.
pub fn hints_row(alloc: Global, row: &str, out: &mut String) -> Result<(), AllocError> {
    let mut words = Words::new(row);
    let answer = answer_of(alloc, &mut words);
    let answer = whole_answer(alloc, row, &words, answer)?;
    writeln!(out, "{answer}")
}

/// Adds the runs that the marks of a log of these bytes record: of each its file, its first block, and the block behind
/// its last. What is no row says so.
pub fn runs_row(alloc: Global, row: &str, out: &mut String) -> Result<(), AllocError> {
    let mut words = Words::new(row);
    let answer = runs_of(alloc, &mut words);
    let answer = whole_answer(alloc, row, &words, answer)?;
    writeln!(out, "{answer}")
}

fn runs_of(alloc: Global, words: &mut Words) -> Result<String, RowError> {
    let log = log_from(alloc, words)?;
    let runs = recorded_runs(alloc, log.hints())?;
    let mut out = format!(in alloc; "{} runs", runs.len())?;
    for run in &runs {
        let MarkRun { file, first, end } = run;
        write!(out, ", {file}: {first} to {end}")?;
    }
    Ok(out)
}

/// Two trees take the proofs of a log of these bytes.
fn answer_of(alloc: Global, words: &mut Words) -> Result<String, RowError> {
    let log = log_from(alloc, words)?;
    let first = tree_from(alloc, words)?;
    let second = tree_from(alloc, words)?;
    let Some(roots) = roots_of(alloc, first.root(), second.root())? else {
        return Err(RowError::Unread);
    };
    let mut trees = both(alloc, first, second)?;
    take_proofs(alloc, &mut trees, &roots, log.hints())?;
    Ok(told_known(alloc, &trees)?)
}

fn log_from(alloc: Global, words: &mut Words) -> Result<ResumeLog<MemoryDisk>, RowError> {
    let disk = MemoryDisk::new(alloc, words.bytes(alloc)?);
    match ResumeLog::attach(alloc, disk, [5; 32]) {
        Ok(log) => Ok(log),
        Err(_) => Err(RowError::Unread),
    }
}

/// The numbers of two roots in their order, where they are two.
fn roots_of(alloc: Global, first: Hash32, second: Hash32) -> Result<Option<Roots>, AllocError>
    ensures { IfOk result
        (λ made. IfSome made (λ roots. AreNumbered (first ∷ second ∷ []) roots.trees)) }
{
    let mut trees = BTreeMap::new(alloc);
    trees.insert(first, 0)?;
    if trees.insert(second, 1)?.is_some() {
        return Ok(None);
    }
    Ok(Some(Roots {
        first_files: Vec::new(alloc),
        next_files: Vec::new(alloc),
        trees,
    }))
}

fn both(
    alloc: Global,
    first: SparseTree<Plain>,
    second: SparseTree<Plain>,
) -> Result<Vec<SparseTree<Plain>>, AllocError>
    ensures { IfOk result (λ trees. trees.items ≡ first ∷ second ∷ []) }
{
    let mut trees = Vec::with_capacity(alloc, 2)?;
    trees.push(first)?;
    trees.push(second)?;
    Ok(trees)
}

/// The tree of a file of as many bytes as a word says, of which the root alone is known.
fn tree_from(alloc: Global, words: &mut Words) -> Result<SparseTree<Plain>, RowError> {
    let geometry = words.geometry()?;
    let root = words.digest(alloc)?;
    Ok(SparseTree::new(alloc, Plain, geometry, root)?)
}

/// Tells of each tree which leaves it knows.
fn told_known(alloc: Global, trees: &[SparseTree<Plain>]) -> Result<String, AllocError> {
    let mut out = String::new(alloc);
    out.push_str("known")?;
    for tree in trees {
        tell_known(&mut out, tree)?;
    }
    Ok(out)
}

fn tell_known(out: &mut String, tree: &SparseTree<Plain>) -> Result<(), AllocError> {
    out.push_str(" ")?;
    for block in 0..tree.geometry().blocks() {
        let is_known = tree.known(0, block).is_some();
        out.push_str(if is_known { "1" } else { "0" })?;
    }
    Ok(())
}
