//! Bodies of requests, read byte by byte if possible, and otherwise by a tree of JSON values.
ghost use Rattle.std.specs.Prelude.{◌≡◌, ◌≢◌, ◌≤◌, Option, Some, Ok, Err, IfOk, IfErr};
ghost use Rattle.serde_json.specs.{Data.{Data}, View.{view}};
ghost use Rattle.clock_json.specs.Tree.{json};
ghost use Rattle.clock_bodies.specs.Bodies.{meant_by};
ghost use Rattle.clock_bodies.specs.declared.body.BodyFault.TheVariants as faults;

use clock_device::NoMemory;
use clock_json::tree::read_value;
use clock_json::{PartReader, scanned_text};
use serde_json::Value;
use std::alloc::Global;
use thiserror::Error;

/// Why a body is refused: the first of these that applies.
#[derive(Clone, Copy, Debug, PartialEq, Eq, Error)]
pub enum BodyFault {
    /// The bytes are not a JSON value.
    #[error("not a JSON value")]
    NotJson,
    /// The value is not the required object: a key is missing or unknown, or a value is of another
    /// kind.
    #[error("not of the shape that is asked for")]
    Shape,
    /// Out of memory. Replaces any other result.
    #[error("out of memory")]
    NoMemory,
}

impl From<NoMemory> for BodyFault {
    ghost from_gives = { λ _ fault. fault ≡ faults.NoMemory };

    fn from(_refused: NoMemory) -> BodyFault {
        BodyFault::NoMemory
    }
}

/// A kind of body, defined by what JSON values mean.
pub(crate) trait Body: Sized + Drop {
    /// What a value of JSON means.
    ghost meaning: { Data → Option Self };

    /// Returns the body that `value` means, or `None` if it has another shape. May return
    /// `NoMemory`.
    fn of_value(alloc: Global, value: &Value) -> Result<Option<Self>, NoMemory>
        ensures { IfOk result (λ body. body ≡ meaning (view value.now)) };
}

/// Returns the body that `bytes` mean: by the reader `R`, which looks at bytes, or by a tree if `R`
/// declines. Errors, in this order: `NotJson`, `Shape`. May return `NoMemory`, which then replaces
/// any other result. In contracts, this holds if the value that `R` reads means the body that `R`
/// returns.
pub(crate) fn read_body<'v, R: PartReader<'v>>(
    alloc: Global,
    bytes: &'v [u8],
) -> Result<R::Part, BodyFault>
where
    R::Part: Body,
    requires { R.levels ≤ 127 }
    ensures ok { ((body : _) → R.Part.meaning (R.shown body) ≡ Some body)
        → IfOk result (λ body. meant_by R.Part.meaning (json bytes.now) ≡ Ok body) }
    ensures err { IfErr result (λ fault. fault ≢ BodyFault.NoMemory
        → meant_by R.Part.meaning (json bytes.now) ≡ Err fault) }
{
    if let Some(body) = scanned_text::<R>(alloc, bytes)? {
        return Ok(body);
    }
    let value = read_value(alloc, bytes)?.ok_or(BodyFault::NotJson)?;
    let body = <R::Part as Body>::of_value(alloc, &value);
    drop(value);
    body?.ok_or(BodyFault::Shape)
}
