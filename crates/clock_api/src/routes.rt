ghost use Rattle.std.specs.Prelude.{◌≡◌, [], OnOk};
ghost use Rattle.clock_api.specs.Bytes.{same_bytes};
ghost use Rattle.clock_api.specs.Routes as spec;
ghost use Rattle.clock_api.specs.inside.Routing as routing;

use clock_device::NoMemory;
use matchit::Router;
use memchr::memrchr;
use std::alloc::Global;

/// A page: what a path names.
#[derive(Clone, Copy, Debug, PartialEq, Eq)]
pub enum Page {
    /// The round, whether the auction has ended, and the set-up's version.
    Status,
    /// The public set-up.
    Products,
    /// The round results of a closed round.
    RoundResults,
    /// The state of the bidder whose token the request has.
    Account,
    /// The sheet in force of a bidder, and where it submits a sheet.
    Bids,
    /// The bidder results of a closed round.
    BidderResults,
    /// Where the operator closes a round.
    Close,
    /// The processed demands of all bidders, for the operator.
    Results,
}

/// Adds a route. Its error stands for any error of the router.
fn add_route(router: &mut Router<Page>, path: &str, page: Page) -> Result<(), NoMemory>
    ensures { OnOk result (router.new ≡ routing.with_route path.now page router.old) }
{
    let Ok(()) = router.insert(path, page) else {
        return Err(NoMemory);
    };
    Ok(())
}

/// Adds the routes of all pages. Requires an empty router.
fn add_routes(router: &mut Router<Page>) -> Result<(), NoMemory>
    requires { router.old ≡ [] }
    ensures { OnOk result (router.new ≡ routing.table) }
{
    add_route(router, "/v1/status", Page::Status)?;
    add_route(router, "/v1/products", Page::Products)?;
    add_route(router, "/v1/rounds/{n}", Page::RoundResults)?;
    add_route(router, "/v1/me", Page::Account)?;
    add_route(router, "/v1/me/bids", Page::Bids)?;
    add_route(router, "/v1/me/rounds/{n}", Page::BidderResults)?;
    add_route(router, "/v1/close", Page::Close)?;
    add_route(router, "/v1/results", Page::Results)?;
    Ok(())
}

/// Returns whether `method` is `wanted`. Methods are case-sensitive.
fn is_method(method: &[u8], wanted: &[u8]) -> bool
    ensures { result ≡ same_bytes wanted.now method.now }
{
    method == wanted
}

impl Page {
    /// Returns whether the page has this method. Methods are case-sensitive.
    pub fn has_method(self, method: &[u8]) -> bool
        ensures { result ≡ spec.has_method self method.now }
    {
        match self {
            Page::Bids => is_method(method, b"GET") || is_method(method, b"PUT"),
            Page::Close => is_method(method, b"POST"),
            _ => is_method(method, b"GET"),
        }
    }
}

/// The routes of all pages, which a server makes once.
#[derive(Drop)]
pub struct Routes {
    router: Router<Page>,
    ghost routed: { router ≡ routing.table },
}

impl Routes {
    /// Makes the routes of all pages. May return `NoMemory`.
    pub fn new(alloc: Global) -> Result<Routes, NoMemory> {
        let mut router = Router::new(alloc);
        match add_routes(&mut router) {
            Ok(()) => Ok(Routes { router }),
            Err(refused) => {
                drop(router);
                Err(refused)
            }
        }
    }

    /// Returns the page of a path, if there is one. Allocates nothing.
    pub fn page_of(&self, path: &[u8]) -> Option<Page>
        ensures { result ≡ spec.page_of path.now }
    {
        let Ok(text) = std::str::from_utf8(path) else {
            return None;
        };
        let Ok(found) = self.router.at(text) else {
            return None;
        };
        Some(*found.value)
    }
}

/// Returns what follows the last slash of `path`: the part of it that matched `{n}`.
pub fn last_segment(path: &[u8]) -> &[u8]
    ensures { result.now ≡ spec.last_segment path.now }
{
    match memrchr(b'/', path) {
        Some(slash) => &path[slash + 1..],
        None => path,
    }
}
