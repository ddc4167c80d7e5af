//! What the files of an engine lack.

use bt_disk::Disk;
use bt_engine::Engine;
use bt_progress::{FileCall, Watch};
use bt_tree::{BLOCK_LEN, NodeHash};

/// Tells the watch that writes begin, and how many bytes are to be written: those of the blocks that are not marked.
pub fn begin_fetching<D: Disk + Drop, H: NodeHash, P: Watch>(watch: &P, engine: &Engine<D, H>) {
    watch.begin(FileCall::Write);
    engine.keeps_laws();
    for (number, file) in engine.torrent().files().iter().enumerate() {
        let length = file.length;
        watch.expect(lacking(engine, number as u32).min(length));
    }
}

/// How many bytes the blocks of a file have that are not marked, each counted as a whole block.
fn lacking<D: Disk + Drop, H: NodeHash>(engine: &Engine<D, H>, file: u32) -> u64 {
    match engine.report(file) {
        Some(report) => length_of(report.blocks.saturating_sub(report.marked)),
        None => 0,
    }
}

/// How many bytes `blocks` whole blocks have.
fn length_of(blocks: u32) -> u64 {
    u64::from(blocks) * BLOCK_LEN as u64
}
