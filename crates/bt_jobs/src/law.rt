//! What follows from the definitions. The function does nothing when it runs.
ghost use Rattle.bt_jobs.specs.Law.{PartsAreWhole};

/// The parts of a check tell of all blocks of each file, of each once.
pub fn parts_are_whole()
    ensures { PartsAreWhole }
{}
