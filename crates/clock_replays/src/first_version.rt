//! The meaning of documents, closings, and rules of version 1.

ghost use Rattle.clock_replays.specs.FirstVersion.{FirstVersion};

/// Version 2 changes nothing for a set-up of version 1: neither its document, nor the bodies of its
/// closings, nor any rule that version 2 extends. Does nothing when it runs; its contract is the
/// law.
pub fn law_of_first_version()
    ensures { FirstVersion }
{}
