//! Requests of HTTP as bytes, whatever their subject.
//!
//! - [`frame`] decides whether the bytes so far are incomplete, a request, or refused.
//! - [`Progress`] is what is known of a text that arrives in pieces, and [`Arriving`] has its bytes
//!   and its progress. Both depend only on the text, so the pieces do not matter.
#![tactic(auto)]

mod arriving;
mod decimal;
mod head;
mod headers;
mod laws;
mod progress;

pub use arriving::Arriving;
pub use decimal::plain_number;
pub use head::EndedHead;
pub use headers::MOST_BODY;
pub use laws::{law_decided_once, law_head_of_grammar, law_known_by_parts, law_one_head};
pub use progress::{Framing, Head, Progress, frame};
