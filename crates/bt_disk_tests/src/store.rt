//! Stores of blocks.

use crate::bytes::{tell_bytes, tell_whether};
use crate::calls::tell_done;
use crate::device::{Device, taken_faulty};
use crate::fixture::{Fixture, make_fixture};
use bt_lanes::Lanes;
use bt_rows::{RowError, Words, put, tell};
use bt_sparse::{Claim, Digests, SparseTree};
use bt_store::{
    Adopted, AdoptedGroups, BlockState, Put, ReadError, Rechecked, Settled, StoreError,
};
use bt_tree::{BLOCK_LEN, Geometry, Hash32, NodeHash, Plain};
use std::alloc::Global;
use std::fmt::Write;
use std::mem;

/// A store over SHA-256, of a block at a time or of eight in lanes.
#[derive(Drop)]
pub enum Store {
    Empty,
    Plain(Fixture<Plain>),
    Lanes(Fixture<Lanes>),
}

/// A new store on a device, which gives it back in the end, or a call of the one that is there.
pub fn store_row(
    alloc: Global,
    store: &mut Store,
    device: &mut Device<'_>,
    words: &mut Words,
    out: &mut String,
) -> Result<(), RowError> {
    match words.word() {
        "plain" => plain_row(alloc, store, device, words, out),
        "lanes" => lanes_row(alloc, store, device, words, out),
        "end" => end_row(store, device, out),
        name => any_row(alloc, store, name, words, out),
    }
}

fn plain_row(
    alloc: Global,
    store: &mut Store,
    device: &mut Device<'_>,
    words: &mut Words,
    out: &mut String,
) -> Result<(), RowError> {
    let made = made(alloc, Plain, device, words)?;
    put(store, Store::Plain(made));
    tell(out, "a store")
}

fn lanes_row(
    alloc: Global,
    store: &mut Store,
    device: &mut Device<'_>,
    words: &mut Words,
    out: &mut String,
) -> Result<(), RowError> {
    let made = made(alloc, Lanes, device, words)?;
    put(store, Store::Lanes(made));
    tell(out, "a store")
}

/// The store of a file of a length and a root, of which the root alone is known, or these leaves.
fn made<H: NodeHash>(
    alloc: Global,
    hash: H,
    device: &mut Device<'_>,
    words: &mut Words,
) -> Result<Fixture<H>, RowError> {
    let geometry = words.geometry()?;
    let root = words.digest(alloc)?;
    let tree = tree_from(alloc, hash, geometry, root, words)?;
    stored(alloc, hash, tree, device)
}

fn tree_from<H: NodeHash>(
    alloc: Global,
    hash: H,
    geometry: Geometry,
    root: Hash32,
    words: &mut Words,
) -> Result<SparseTree<H>, RowError> {
    let leaves = words.bytes(alloc)?;
    if leaves.is_empty() {
        root_tree(alloc, hash, geometry, root)
    } else {
        full_tree(alloc, hash, geometry, root, &leaves)
    }
}

fn root_tree<H: NodeHash>(
    alloc: Global,
    hash: H,
    geometry: Geometry,
    root: Hash32,
) -> Result<SparseTree<H>, RowError> {
    Ok(SparseTree::new(alloc, hash, geometry, root)?)
}

fn full_tree<H: NodeHash>(
    alloc: Global,
    hash: H,
    geometry: Geometry,
    root: Hash32,
    leaves: &[u8],
) -> Result<SparseTree<H>, RowError> {
    match SparseTree::with_layer(alloc, hash, geometry, root, 0, leaves) {
        Ok(tree) => Ok(tree),
        Err(_) => Err(RowError::Unread),
    }
}

/// A store of the tree's file on a device of faults.
fn stored<H: NodeHash>(
    alloc: Global,
    hash: H,
    tree: SparseTree<H>,
    device: &mut Device<'_>,
) -> Result<Fixture<H>, RowError> {
    let disk = taken_faulty(device)?;
    make_fixture(alloc, hash, tree, disk)
}

/// The store gives its device back.
fn end_row(store: &mut Store, device: &mut Device<'_>, out: &mut String) -> Result<(), RowError> {
    match mem::replace(store, Store::Empty) {
        Store::Empty => Err(RowError::Unread),
        Store::Plain(f) => give_back(f, device, out),
        Store::Lanes(f) => give_back(f, device, out),
    }
}

fn give_back<H: NodeHash>(
    f: Fixture<H>,
    device: &mut Device<'_>,
    out: &mut String,
) -> Result<(), RowError> {
    put(device, Device::Faulty(f.into_disk()));
    tell(out, "a device")
}

fn any_row(
    alloc: Global,
    store: &mut Store,
    name: &str,
    words: &mut Words,
    out: &mut String,
) -> Result<(), RowError> {
    match store {
        Store::Empty => Err(RowError::Unread),
        Store::Plain(f) => call_row(alloc, f, name, words, out),
        Store::Lanes(f) => call_row(alloc, f, name, words, out),
    }
}

fn call_row<H: NodeHash>(
    alloc: Global,
    f: &mut Fixture<H>,
    name: &str,
    words: &mut Words,
    out: &mut String,
) -> Result<(), RowError> {
    match name {
        "put" => put_row(alloc, f, words, out),
        "settle" => settle_row(f, words, out),
        "recheck" => recheck_row(f, out),
        "read" => read_row(alloc, f, words, out),
        _ => change_row(alloc, f, name, words, out),
    }
}

/// The calls that rows make less often. One match for all calls takes a minute of proof.
fn change_row<H: NodeHash>(
    alloc: Global,
    f: &mut Fixture<H>,
    name: &str,
    words: &mut Words,
    out: &mut String,
) -> Result<(), RowError> {
    match name {
        "learn" => learn_row(alloc, f, 0, words, out),
        "layer" => layer_row(alloc, f, words, out),
        "restore" => restore_row(f, words, out),
        "adopt" => adopt_row(f, words, out),
        "groups" => groups_row(f, words, out),
        "clear" => clear_row(f, out),
        "sync" => sync_row(f, out),
        _ => look_row(alloc, f, name, words, out),
    }
}

fn clear_row<H: NodeHash>(f: &mut Fixture<H>, out: &mut String) -> Result<(), RowError> {
    f.store.clear();
    tell(out, "cleared")
}

fn sync_row<H: NodeHash>(f: &mut Fixture<H>, out: &mut String) -> Result<(), RowError> {
    tell_done(out, f.store.sync())
}

/// What changes nothing.
fn look_row<H: NodeHash>(
    alloc: Global,
    f: &Fixture<H>,
    name: &str,
    words: &mut Words,
    out: &mut String,
) -> Result<(), RowError> {
    match name {
        "state" => state_row(f, words, out),
        "counts" => counts_row(f, out),
        "leaf" => leaf_row(alloc, f, words, out),
        "answer" => answer_row(alloc, f, words, out),
        "bytes" => tell_bytes(alloc, out, f.bytes()),
        _ => Err(RowError::Unread),
    }
}

/// The claim of the first nodes of a layer, which a word says.
fn layer_row<H: NodeHash>(
    alloc: Global,
    f: &mut Fixture<H>,
    words: &mut Words,
    out: &mut String,
) -> Result<(), RowError> {
    let base = words.number()?;
    learn_row(alloc, f, base, words, out)
}

/// The claim of the first nodes of layer `base`.
fn learn_row<H: NodeHash>(
    alloc: Global,
    f: &mut Fixture<H>,
    base: u32,
    words: &mut Words,
    out: &mut String,
) -> Result<(), RowError> {
    let nodes = words.digests(alloc)?;
    let is_learned = is_learned(alloc, f, base, nodes);
    tell_whether(out, is_learned, "learned", "refused")
}

fn is_learned<H: NodeHash>(
    alloc: Global,
    f: &mut Fixture<H>,
    base: u32,
    nodes: Vec<Hash32>,
) -> bool {
    let claim = claim_of(alloc, base, nodes);
    f.accept(&claim)
}

fn claim_of(alloc: Global, base: u32, nodes: Vec<Hash32>) -> Claim {
    Claim {
        base,
        index: 0,
        run: Digests::new(nodes),
        uncles: Digests::new(Vec::new(alloc)),
    }
}

/// A block comes: its number and its bytes.
fn put_row<H: NodeHash>(
    alloc: Global,
    f: &mut Fixture<H>,
    words: &mut Words,
    out: &mut String,
) -> Result<(), RowError> {
    let number = words.number()?;
    let bytes = words.bytes(alloc)?;
    tell_put(out, f.put(number, &bytes))
}

fn tell_put(out: &mut String, answer: Option<Result<Put, StoreError>>) -> Result<(), RowError> {
    match answer {
        Some(Ok(put)) => tell(out, put_word(put)),
        Some(Err(error)) => tell_refusal(out, error),
        None => Err(RowError::Unread),
    }
}

fn put_word(put: Put) -> &'static str {
    match put {
        Put::Already => "already there",
        Put::Wrong => "wrong",
        Put::Marked => "marked",
        Put::Waiting => "waiting",
    }
}

fn tell_refusal(out: &mut String, error: StoreError) -> Result<(), RowError> {
    Ok(write!(out, "{error}")?)
}

/// From a block, and how many.
fn settle_row<H: NodeHash>(
    f: &mut Fixture<H>,
    words: &mut Words,
    out: &mut String,
) -> Result<(), RowError> {
    let from = words.number()?;
    let count = words.number()?;
    tell_settle(out, f.settle(from, count))
}

fn tell_settle(
    out: &mut String,
    answer: Option<Result<Settled, StoreError>>,
) -> Result<(), RowError> {
    match answer {
        Some(Ok(settled)) => tell_settled(out, settled),
        Some(Err(error)) => tell_refusal(out, error),
        None => Err(RowError::Unread),
    }
}

fn tell_settled(out: &mut String, settled: Settled) -> Result<(), RowError> {
    let Settled {
        marked,
        freed,
        faults,
    } = settled;
    Ok(write!(out, "marked {marked}, freed {freed}, faults {faults}")?)
}

fn recheck_row<H: NodeHash>(f: &mut Fixture<H>, out: &mut String) -> Result<(), RowError> {
    match f.recheck() {
        Some(rechecked) => tell_rechecked(out, rechecked),
        None => Err(RowError::Unread),
    }
}

fn tell_rechecked(out: &mut String, rechecked: Rechecked) -> Result<(), RowError> {
    let Rechecked {
        kept,
        unmarked,
        faults,
    } = rechecked;
    Ok(write!(out, "kept {kept}, unmarked {unmarked}, faults {faults}")?)
}

/// Reads a block into a buffer of zeros: what is lent.
fn read_row<H: NodeHash>(
    alloc: Global,
    f: &mut Fixture<H>,
    words: &mut Words,
    out: &mut String,
) -> Result<(), RowError> {
    let number = words.number()?;
    let mut room = vec![in alloc; 0; BLOCK_LEN]?;
    let lent = f.read(number, &mut room);
    tell_lent(alloc, out, &room, lent)
}

fn tell_lent(
    alloc: Global,
    out: &mut String,
    room: &[u8],
    lent: Option<Result<usize, ReadError>>,
) -> Result<(), RowError> {
    match lent {
        Some(Ok(count)) => tell_bytes(alloc, out, &room[..count.min(room.len())]),
        Some(Err(error)) => Ok(write!(out, "{error}")?),
        None => Err(RowError::Unread),
    }
}

fn restore_row<H: NodeHash>(
    f: &mut Fixture<H>,
    words: &mut Words,
    out: &mut String,
) -> Result<(), RowError> {
    let number = words.number()?;
    match f.restore(number) {
        Some(Ok(is_marked)) => tell_whether(out, is_marked, "marked", "not marked"),
        Some(Err(error)) => tell_refusal(out, error),
        None => Err(RowError::Unread),
    }
}

/// From a block.
fn adopt_row<H: NodeHash>(
    f: &mut Fixture<H>,
    words: &mut Words,
    out: &mut String,
) -> Result<(), RowError> {
    let from = words.number()?;
    match f.adopt(from) {
        Some(Ok(adopted)) => tell_adopted(out, adopted),
        Some(Err(_)) => tell(out, "out of memory"),
        None => Err(RowError::Unread),
    }
}

fn tell_adopted(out: &mut String, adopted: Adopted) -> Result<(), RowError> {
    let Adopted {
        next,
        anchor,
        marked,
        faults,
    } = adopted;
    Ok(write!(
        out,
        "next {next}, anchor {anchor}, marked {marked}, faults {faults}"
    )?)
}

/// From a block, one group or several.
fn groups_row<H: NodeHash>(
    f: &mut Fixture<H>,
    words: &mut Words,
    out: &mut String,
) -> Result<(), RowError> {
    let from = words.number()?;
    match f.adopt_groups(from) {
        Some(Ok(adopted)) => tell_groups(out, adopted),
        Some(Err(_)) => tell(out, "out of memory"),
        None => Err(RowError::Unread),
    }
}

fn tell_groups(out: &mut String, adopted: AdoptedGroups) -> Result<(), RowError> {
    let AdoptedGroups {
        next,
        marked,
        faults,
    } = adopted;
    Ok(write!(out, "next {next}, marked {marked}, faults {faults}")?)
}

fn state_row<H: NodeHash>(
    f: &Fixture<H>,
    words: &mut Words,
    out: &mut String,
) -> Result<(), RowError> {
    let number = words.number()?;
    tell(
        out,
        match f.state(number) {
            Some(BlockState::Missing) => "missing",
            Some(BlockState::Waiting) => "waiting",
            Some(BlockState::Marked) => "marked",
            None => "no such block",
        },
    )
}

fn counts_row<H: NodeHash>(f: &Fixture<H>, out: &mut String) -> Result<(), RowError> {
    let marked = f.marked();
    let waiting = f.waiting();
    write!(out, "marked {marked}, waiting {waiting}")?;
    tell_whether(out, f.is_complete(), ", complete", "")
}

/// The leaf of a block.
fn leaf_row<H: NodeHash>(
    alloc: Global,
    f: &Fixture<H>,
    words: &mut Words,
    out: &mut String,
) -> Result<(), RowError> {
    let number = words.number()?;
    match f.leaf(number) {
        Some(digest) => tell_bytes(alloc, out, &digest),
        None => tell(out, "not known"),
    }
}

/// The leaves of a block and the next, and their uncles up to a layer.
fn answer_row<H: NodeHash>(
    alloc: Global,
    f: &Fixture<H>,
    words: &mut Words,
    out: &mut String,
) -> Result<(), RowError> {
    let index = words.number()?;
    let layers = words.number()?;
    match f.answer(index, layers) {
        Ok(digests) => tell_digests(alloc, out, &digests),
        Err(_) => tell(out, "no answer"),
    }
}

fn tell_digests(alloc: Global, out: &mut String, digests: &[Hash32]) -> Result<(), RowError> {
    let count = digests.len();
    write!(out, "{count} digests")?;
    for digest in digests {
        tell_digest(alloc, out, digest)?;
    }
    Ok(())
}

fn tell_digest(alloc: Global, out: &mut String, digest: &Hash32) -> Result<(), RowError> {
    tell(out, " ")?;
    tell_bytes(alloc, out, digest)
}
