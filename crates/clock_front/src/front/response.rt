ghost use Rattle.std.specs.Prelude.{◌≡◌};

use clock_api::Reply;

/// What a request changed in the auction: nothing, its bidder's sheet in force, or the round of
/// this number, which it closed.
#[derive(Clone, Copy, Debug, PartialEq, Eq)]
pub enum Effect {
    Nothing,
    Sheet,
    Closing(u64),
}

/// The reply to a request, and what the request changed.
#[derive(Drop)]
pub struct Response {
    pub reply: Reply,
    pub effect: Effect,
}

/// The response to a request that changed nothing.
pub(crate) fn unchanged(reply: Reply) -> Response
    ensures { result ≡ record { reply = reply; effect = Effect.Nothing } }
{
    Response {
        reply,
        effect: Effect::Nothing,
    }
}
