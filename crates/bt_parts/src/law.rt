//! What follows from the definitions. The functions do nothing when they run.
ghost use Rattle.bt_parts.specs.Join.{SumsAreWhole};
ghost use Rattle.bt_parts.specs.Law.{LinesAreReadBack, SharesAreWhole};

/// Where each part counted the blocks that pass one test, the sum over all parts is the count over the whole file.
pub fn sums_are_whole()
    ensures { SumsAreWhole }
{}

/// A line that is written of a run tells this run.
pub fn lines_are_read_back()
    ensures { LinesAreReadBack }
{}

/// The shares that the parts have of a file are the whole file, none of its blocks is in two, and one part alone has
/// the byte at which it begins.
pub fn shares_are_whole()
    ensures { SharesAreWhole }
{}
