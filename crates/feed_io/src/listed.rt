//! Whether a call is one of those that fail.
ghost use Rattle.std.specs.Prelude.{◌≡◌};
ghost use Rattle.feed_io.specs.Listed.{is_listed};

use br_path::Numbers;

/// Whether the call's number is listed.
pub fn is_listed(calls: &Numbers, number: u64) -> bool
    ensures { result ≡ is_listed calls.now number }
{
    calls.items.iter().any(|call| u64::from(*call) == number)
}
