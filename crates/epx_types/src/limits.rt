//! Limits of logs.
ghost use Rattle.std.specs.Prelude.{◌≡◌};
ghost use Rattle.epx_types.specs.Limits.{max_logs, max_log_bytes, max_instances};

/// The greatest number of logs.
pub const MAX_LOGS: usize = 64;

/// The greatest length of a log, in bytes.
pub const MAX_LOG_BYTES: usize = 67_108_864;

/// The greatest number of distinct instances that logs may name.
pub const MAX_INSTANCES: usize = 1_048_576;

/// The limits are those of the definitions. The body is empty: the contract is what counts.
pub fn limits_are_as_defined()
    ensures logs { MAX_LOGS ≡ max_logs }
    ensures log_bytes { MAX_LOG_BYTES ≡ max_log_bytes }
    ensures instances { MAX_INSTANCES ≡ max_instances }
{}
