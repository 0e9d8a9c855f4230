//! A front that is opened, used, and dropped, as the caller of a library does it.

use crate::comparing::{assert_is, made_at};
use clock_fixtures::ONE_PRODUCT;
use clock_front::Front;
use clock_processor::Plain;
use clock_setup::{SetupFault, read_setup};
use std::alloc::Global;
use std::process::Abort;

/// Makes the front for a set-up document.
pub(crate) fn opened(alloc: Global, document: &str) -> Result<Front<Plain>, SetupFault> {
    let setup = read_setup(alloc, document.as_bytes())?;
    Ok(Front::new(alloc, setup, Plain)?)
}

/// Calls `act` on the front for a set-up document. Only here do the tests drop a front: each
/// function that drops one is proved at length.
pub(crate) fn on_front<T, F: FnOnce(&mut Front<Plain>) -> T>(
    rt: &impl Abort,
    alloc: Global,
    document: &str,
    act: F,
) -> T
    requires { F.IsAlwaysCallable act }
{
    let mut front = made_at(rt, document, opened(alloc, document).ok());
    let done = act(&mut front);
    drop(front);
    done
}

/// Calls `act` on the front for a set-up document of one product.
pub(crate) fn on_one_product<T, F: FnOnce(&mut Front<Plain>) -> T>(
    rt: &impl Abort,
    alloc: Global,
    act: F,
) -> T
    requires { F.IsAlwaysCallable act }
{
    on_front(rt, alloc, ONE_PRODUCT, act)
}

/// Whether the front answers with the status page.
fn has_status(front: &mut Front<Plain>) -> bool {
    let reply = front.answer(b"GET /v1/status HTTP/1.1\r\n\r\n");
    reply.bytes().starts_with(b"HTTP/1.1 200 OK\r\n")
}

#[test]
fn a_front_is_opened_and_asked(rt: HostRuntime) {
    let is_reported = on_one_product(&rt, rt.alloc(), |front| has_status(front));
    assert_is(&rt, is_reported, true);
}
