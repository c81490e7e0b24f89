//! The statuses of instances.
ghost use Rattle.std.specs.Prelude.{◌≡◌};
ghost use Rattle.epx_lines.specs.Meaning.{committed_by};

/// Whether an instance with this status is committed. None if there is no such status.
pub(crate) fn committed_by(status: &str) -> Option<bool>
    ensures { result ≡ committed_by status.now }
{
    match status {
        "committed" | "executed" => Some(true),
        "accepted" | "pre-accepted" => Some(false),
        _ => None,
    }
}
