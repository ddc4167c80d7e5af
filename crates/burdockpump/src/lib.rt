//! The library, for a program of one's own that makes, checks, serves or fetches a torrent's files: all that it calls and names,
//! given on from the crates that have it. What such a program takes first stands here; in modules stand the parts of which an
//! engine is made, for programs that put them together otherwise.
#![tactic(auto)]

// A torrent (BitTorrent v2, BEP 52), read from its text, or from that of its info dictionary.
pub use bt_meta::{
    BlockRun, FileEntry, FilePath, MAX_TEXT_LENGTH, MetaError, PieceRange, Span, Torrent,
    read_info, read_torrent,
};
pub use bt_tree::Hash32;

// A torrent, made of what is known of its files. `trees` has how roots and layers are got from their bytes.
pub use bt_meta::{Made, MadeTorrent, MakeError, make, make_torrent};

// What a file's bytes lie on. A user may have devices of his own.
pub use bt_disk::{DeviceFault, Disk};
// In memory, and what a crash may leave there; one around another, which fails, or gives a wrong bit, where it is told to.
pub use bt_disk::{FaultDisk, Loss, MemoryDisk};
// Files of the system: each with a handle of its own, or many that share a few. By their identity two are known to be one file.
pub use bt_disk::{DeviceFiles, FileDisk, FileIdentity, HandlePool, Opening, PooledDisk};

// The digest, by lanes or plain, and what every digest promises.
pub use bt_lanes::Lanes;
pub use bt_tree::{NodeHash, Plain};

// An engine: it starts, takes in what its devices have, is flushed, and tells how far each file is.
pub use bt_engine::{
    AdoptError, Adopted, Engine, FileReport, FlushError, RestartError, StartError, StartRefused,
};

// A log, with which an engine begins where another one was stopped.
pub use bt_engine::{ReopenError, ReopenRefused, reopen};
pub use bt_resume::{LogError, ResumeLog};

// A session with one peer, over any reader and writer.
pub use bt_engine::{ConnectError, Why};
pub use bt_session::{
    Flushing, SessionEnd, WatchedReader, WatchedWriter, run_session, run_session_with_flushes,
};

// Peers that are dialled, one after the other.
pub use bt_session::{Link, PeerEnd, end_text, meet_peer, run_peers, run_peers_with_flushes};

// Several peers at a time: the caller gives the engine each event, and sends what it answers.
pub use bt_book::{BlockId, PeerKey};
pub use bt_engine::{Answer, EngineError, Event, Frame, Note, Output, run_as_promised, run_events};

// The wire (BEP 3, BEP 52): messages, how they are written, and how a stream of bytes is cut into them.
pub use bt_hashreq::{HashKey, KEY_LEN, read_key, write_key};
pub use bt_sparse::ProofError;
pub use bt_wire::{
    Ask, Bytes, Cutter, HANDSHAKE_LEN, Handshake, MAX_LENGTH_FIELD, Message, WireError, WireEvent,
    fits, write_handshake, write_message,
};

// Laws, for proofs: functions that do nothing, whose contracts say what is promised of all runs.
pub use bt_engine::{flushed_blocks_stay, what_leads_on_stands, whole_runs_keep_promises};
pub use bt_machine::{
    engines_are_of_logs, events_send_what_fits, flushed_blocks_are_marked_again, logs_back_engines,
    restarts_read_all,
};
pub use bt_meta::{torrents_are_made_from_files, torrents_are_read_back, torrents_tell_files};
pub use bt_session::sessions_are_runs;
pub use bt_wire::{cutting_makes_no_difference, writing_is_read};

/// Canonical bencoding (BEP 3).
pub mod bencoding {
    pub use bt_bencode::{BencodeError, Doc, MAX_NESTING, Value, field, field_text, parse, write};
}

/// The hash trees of files (BEP 52): whole ones, whose roots and layers are built from a file's bytes or compared; and ones of
/// which some nodes are known, which grow by proofs.
pub mod trees {
    pub use bt_hashreq::{digest_count, plan, to_claim};
    pub use bt_lanes::digest_many;
    pub use bt_sparse::{AnswerError, Claim, Digests, MAX_RUN_LENGTH, SparseTree};
    pub use bt_tree::{
        BLOCK_LEN, Compared, Geometry, LayerError, MAX_FILE_LENGTH, RootBuilder, Shape, Weak,
        check_layer, compare_files, eight_parents, is_piece_length, layer_root, pad, pair_bytes,
        piece_layer, tree_height,
    };

    // Laws: files of one root are one file; a held node is checked, and a held leaf is the file's.
    pub use bt_sparse::{
        answers_are_taken, answers_reach_roots, held_is_checked, keeps_rooted, layers_are_sound,
        leaves_are_files, roots_are_sound,
    };
    pub use bt_tree::roots_tell_files;
}

/// Which peer is asked for which block, and which peers are served.
pub mod requests {
    pub use bt_book::{Book, MAX_ASKERS, MAX_PEERS, MAX_REQUESTS, Standing, choose};
}

/// The blocks of one file on a device: which are missing, which wait for their leaf, and which are marked.
pub mod blocks {
    pub use bt_store::{
        AdoptedGroups, BlockState, FileStore, Put, ReadError, Rechecked, Refused, Settled,
        StoreError,
    };
}

/// What a log records, and how it is read and written.
pub mod logs {
    pub use bt_resume::{AppendError, Format, Hint, HintIter, Hints, LentHint, Refused};
}

/// Scripts of events, as the program's command `replay` runs them.
pub mod scripts {
    pub use bt_replay::{MAX_SCRIPT_LENGTH, replay};
}
