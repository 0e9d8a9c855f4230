//! Laws of what was served. Each call does nothing when it runs.
ghost use Rattle.clock_server.specs.Laws.{CanBeLeftOut, GetsChangeNothing, ReportedBytes};
ghost use Rattle.clock_server.specs.Laws.{ServedIsRun};

/// A law: if contracts see the bytes of a connection, its request was their beginning. That its
/// client got the reply or a prefix of it is what `Sends` says.
pub fn law_reported_bytes()
    ensures { ReportedBytes }
{}

/// A law: a request by GET changes nothing, whatever the set-up, its sender, and what came before.
pub fn law_gets_change_nothing()
    ensures { GetsChangeNothing }
{}

/// Laws of all requests that were served, refused ones and reads included.
///
/// - `left_out`: a right reply is the same if an earlier request that changed nothing is left out.
/// - `run`: what a server replied is a run of all requests that it read and answered, so the first
///   headline holds of a served auction.
pub fn law_of_served_requests()
    ensures left_out { CanBeLeftOut }
    ensures run { ServedIsRun }
{}
