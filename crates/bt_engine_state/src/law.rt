//! What follows from the contracts.
ghost use Rattle.bt_engine_state.specs.Writing.{WritingFlushes};

/// What `write_to` does after the syncs of the data devices is the machine's flush.
pub fn writing_flushes()
    ensures { WritingFlushes }
{}
