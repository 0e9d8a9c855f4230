//! Laws of framing. Each function does nothing when it runs; its contract is the law.

ghost use Rattle.clock_http.specs.FramingLaws.{IsDecidedOnce, IsKnownByParts, IsHeadOfGrammar};
ghost use Rattle.clock_http.specs.FramingLaws.{HasOneHead};

/// Adding bytes to a text that is decided does not change its framing.
pub fn law_decided_once()
    ensures { IsDecidedOnce }
{}

/// What is known of a text follows from the text and what was known of a prefix: a head that has
/// ended is not read again.
pub fn law_known_by_parts()
    ensures { IsKnownByParts }
{}

/// If no line of the bytes ends loosely, the head that this crate reads is their only head by the
/// grammar of HTTP.
pub fn law_head_of_grammar()
    ensures { IsHeadOfGrammar }
{}

/// Adding bytes to a text that is decided does not change its head.
pub fn law_one_head()
    ensures { HasOneHead }
{}
