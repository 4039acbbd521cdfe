//! Laws over the definitions. They compute nothing.

ghost use Rattle.key_rings.specs.Laws.{EndedKeys, LiveIsBatch};

/// Promises that a job that took the first keys of a terminal has the events of a job whose lines
/// were all known before it began.
pub fn live_is_batch()
    ensures ended { EndedKeys }
    ensures same { LiveIsBatch }
{}
