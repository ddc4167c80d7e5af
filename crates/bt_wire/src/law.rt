//! Laws of streams: a stream has one list of events and one fault at most, however it is cut, and what was
//! written is read back.
ghost use Rattle.bt_wire.specs.Law.{FaultsStandAlone, StreamsHaveOneReading, CutsAreStreams, CuttingMakesNoDifference, WritingIsRead};

/// A stream of bytes has one reading: one list of events, and one rest that begins with none.
pub fn streams_have_one_reading()
    ensures { StreamsHaveOneReading }
{}

/// The events that are taken from a cutter, up to the end or up to a fault, are those of the whole stream,
/// however the stream was cut and whenever they were taken.
pub fn cuts_are_streams()
    ensures { CutsAreStreams }
{}

/// Two ways to cut one stream give one list of events and one fault.
pub fn cutting_makes_no_difference()
    ensures { CuttingMakesNoDifference }
{}

/// What `write_message` and `write_handshake` give is read back: where the unread bytes of a cutter begin
/// with it, the next event is that message or handshake, and no fault shows.
pub fn writing_is_read()
    ensures { WritingIsRead }
{}

/// Where a fault shows there is no event and no other fault, and it still shows with more bytes after these. So,
/// memory aside, the unread bytes determine what `next` returns.
pub fn faults_stand_alone()
    ensures { FaultsStandAlone }
{}
