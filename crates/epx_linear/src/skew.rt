//! Calls of clocks that differ.
ghost use Rattle.std.specs.Prelude.{◌≡◌, map, option_map};
ghost use Rattle.epx_linear.specs.Skews.{later_by, later_time};

use crate::client_call::ClientCall;

/// The time at which a call returned, later by a skew.
fn later(returned: Option<u64>, skew: u64) -> Option<u64>
    ensures { result ≡ option_map (later_time skew) returned }
{
    match returned {
        Some(returned) => Some(returned.saturating_add(skew)),
        None => None,
    }
}

/// Lets each call that returned return later, by a skew.
pub(crate) fn add_skew(calls: &mut Vec<ClientCall>, skew: u64)
    ensures { calls.new.items ≡ map (later_by skew) calls.old.items }
{
    for call in calls.iter_mut() {
        call.returned = later(call.returned, skew);
    }
}
