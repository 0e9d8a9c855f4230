//! Numbers in decimal digits.

ghost use Rattle.std.specs.{Prelude.{◌≡◌, ◌<◌, ◌^◌, IsTrue}, Option.{SomeIff}};
ghost use Rattle.std.specs.Str.Parse.{digits_value};
ghost use Rattle.clock_http.specs.Decimals as spec;

/// Returns whether `text` is one or more digits.
pub(crate) fn is_number(text: &[u8]) -> bool
    ensures { result ≡ spec.is_number text.now }
{
    !text.is_empty() && text.iter().all(|b| b.is_ascii_digit())
}

/// Returns the number that `digits` write, if it is below 2^64.
pub(crate) fn number(digits: &[u8]) -> Option<u64>
    requires { IsTrue (spec.is_number digits.now) }
    ensures { SomeIff result (digits_value 10 digits.now < 2 ^ 64) (digits_value 10 digits.now) }
{
    std::str::from_utf8(digits).ok()?.parse().ok()
}

/// Returns the number that `text` writes in digits without leading zeros, if it is below 2^64.
pub fn plain_number(text: &[u8]) -> Option<u64>
    ensures { result ≡ spec.plain_number text.now }
{
    if is_number(text) && (text.len() == 1 || text[0] != b'0') {
        number(text)
    } else {
        None
    }
}
