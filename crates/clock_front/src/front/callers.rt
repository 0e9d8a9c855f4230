//! Who sent a request, by its token.
ghost use Rattle.std.specs.Prelude.{◌≡◌, ℕ, List, [], length, IfOk, OnOk, if◌then◌else◌};
ghost use Rattle.clock_terms.specs.Limits.{SetupFields};
ghost use Rattle.clock_http.specs.Shown.{shown_bytes};
ghost use Rattle.clock_api.specs.Bytes.{same_bytes};
ghost use Rattle.clock_front.specs.{Callers.{caller as caller_with}, inside.Callers.{IsKnown}};
ghost use Rattle.clock_front.specs.inside.TokenTable.{found, IsTableOf};

use clock_device::NoMemory;
use clock_terms::Setup;
use indexmap::IndexMap;
use std::alloc::Global;

/// The sender of a request.
#[derive(Clone, Copy)]
pub(crate) enum Caller {
    /// No one whom the set-up names.
    Nobody,
    /// The operator.
    Operator,
    /// The bidder of this number, from 0 in the order of the set-up.
    Bidder(u32),
}

/// Whose each token is. The time of a look-up does not grow with the number of bidders.
pub(crate) type Tokens = IndexMap<Vec<u8>, Caller>;

/// Adds a token with its owner. It replaces an equal token.
fn add(alloc: Global, tokens: &mut Tokens, token: &[u8], caller: Caller) -> Result<(), NoMemory>
    ensures { OnOk result ((other : List ℕ) → found tokens.new.entries other
        ≡ (if same_bytes other token.now then caller else found tokens.old.entries other)) }
{
    tokens.insert(Vec::from_slice(alloc, token)?, caller)?;
    Ok(())
}

/// Adds the tokens of a set-up with their owners to an empty table. The operator's token is added
/// last, as the rules look for it first.
fn add_all(alloc: Global, tokens: &mut Tokens, setup: &Setup) -> Result<(), NoMemory>
    requires { tokens.old.entries ≡ [] }
    ensures { OnOk result (IsTableOf setup.now tokens.new.entries) }
{
    let mut number = setup.bidders.len();
    while number > 0 {
        number -= 1;
        let token = setup.bidders[number].token.as_slice();
        add(alloc, tokens, token, Caller::Bidder(number as u32))?;
    }
    add(alloc, tokens, setup.operator.as_slice(), Caller::Operator)?;
    Ok(())
}

/// The tokens of a set-up with their owners.
pub(crate) fn tokens_of(alloc: Global, setup: &Setup) -> Result<Tokens, NoMemory>
    ensures { IfOk result (λ tokens. IsTableOf setup.now tokens.entries) }
{
    let mut tokens = IndexMap::new(alloc);
    match add_all(alloc, &mut tokens, setup) {
        Ok(()) => Ok(tokens),
        Err(refused) => {
            drop(tokens);
            Err(refused)
        }
    }
}

/// Returns who sent a request with this token, or with none. Allocates nothing.
pub(crate) fn caller_of(tokens: &Tokens, token: Option<&[u8]>) -> Caller
    ensures shown { (setup : SetupFields) → IsTableOf setup tokens.now.entries → result
        ≡ caller_with setup (shown_bytes token.entry) }
    ensures known { (setup : SetupFields) → IsTableOf setup tokens.now.entries
        → IsKnown (length setup.bidders) result }
{
    match token {
        Some(token) => tokens.get(token).copied().unwrap_or(Caller::Nobody),
        None => Caller::Nobody,
    }
}
