//! Says what an input is in place of what it must be.
use crate::inputs::Role;
use epx_bad_lines::Looks;

/// What a log must be instead.
fn explain_log(role: Role) -> Option<&'static str> {
    match role {
        Role::Log(_) => None,
        Role::State => Some("it looks like a log: STATE is what --save saved, or a report"),
        Role::Base => Some("it looks like a log: BASE comes first, as in epx resume BASE LOG.."),
        Role::List => Some("it looks like a log: LIST comes first, as in epx check LIST LOG.."),
        Role::Said => Some("it looks like a log: SAID comes first, as in epx verify SAID LOG.."),
        Role::History => {
            Some("it looks like a log: HISTORY comes first, as in epx linear HISTORY LOG..")
        }
    }
}

/// What a list must be instead.
fn explain_list(role: Role) -> Option<&'static str> {
    match role {
        Role::Log(_) | Role::List => None,
        Role::State => Some("it looks like a list: STATE is what --save saved, or a report"),
        Role::Base => Some("it looks like a list: BASE must be a report"),
        Role::Said => {
            Some("it looks like a list: SAID has replies, and epx check and replay read lists")
        }
        Role::History => {
            Some("it looks like a list: HISTORY has calls, and epx check and replay read lists")
        }
    }
}

/// What a report must be instead.
fn explain_report(role: Role) -> Option<&'static str> {
    match role {
        Role::Log(_) | Role::State | Role::Base | Role::Said => None,
        Role::List => Some("it looks like a report: each line of LIST must be [replica,number]"),
        Role::History => {
            Some("it looks like a report: HISTORY has calls, and epx verify reads replies")
        }
    }
}

/// What a history must be instead.
fn explain_history(role: Role) -> Option<&'static str> {
    match role {
        Role::Log(_) | Role::History => None,
        Role::State => Some("it looks like a history: STATE is what --save saved, or a report"),
        Role::Base => Some("it looks like a history: BASE must be a report"),
        Role::List => Some("it looks like a history: each line of LIST must be [replica,number]"),
        Role::Said => Some("it looks like a history: SAID has replies, and epx linear reads calls"),
    }
}

/// Says what an input is that looks like another kind of input than it must be.
pub(crate) fn explain_input_kind(role: Role, looks: Looks) -> Option<&'static str> {
    match looks {
        Looks::Log => explain_log(role),
        Looks::List => explain_list(role),
        Looks::Report => explain_report(role),
        Looks::History => explain_history(role),
        Looks::Other => None,
    }
}
