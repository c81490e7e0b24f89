//! Histories of client calls.
ghost use Rattle.std.specs.Prelude.{◌≡◌, map, option_and_then, slice_get};
ghost use Rattle.epx_linear.specs.ClientCalls.{IsHistory, call_of};
ghost use Rattle.epx_linear.specs.Skews.{later_by};
ghost use Rattle.epx_linear.specs.inner.CallRows.{AreCallRows};
ghost use Rattle.epx_linear.specs.inner.HistoryReadings.{called_ids};

use crate::call_table::CallTable;
use crate::client_call::ClientCall;
use crate::skew::add_skew;
use epx_types::Id;
use std::marker::Model;

/// Calls of which no two are of one instance.
#[derive(Debug)]
pub struct History {
    calls: Vec<ClientCall>,
    table: CallTable,
}

impl Drop for History {
    fn drop(self) {
        let History { calls: _, table: _ } = self;
    }
}

impl Model for History {
    ghost use Rattle.std.specs.Prelude.{List};
    ghost use Rattle.epx_linear.specs.ClientCalls.{IsHistory};
    ghost use Rattle.epx_linear.specs.declared.client_call.ClientCall.{ClientCall};
    ghost use Rattle.epx_linear.specs.inner.CallRows.{AreCallRows};
    ghost use Rattle.epx_linear.specs.inner.HistoryReadings.{called_ids};

    ghost Value = { List ClientCall };

    ghost view = { λ h. h.calls.items };

    ghost invariant = { λ h. IsHistory h.calls.items
        × AreCallRows (called_ids h.calls.items) h.table };
}

impl History {
    /// Returns the history of calls. The table has their instances.
    pub(crate) fn new(calls: Vec<ClientCall>, table: CallTable) -> History
        requires history { IsHistory calls.items }
        requires table { AreCallRows (called_ids calls.items) table }
        ensures { result ≡ calls.items }
    {
        History { calls, table }
    }

    /// Returns the place of the call of an instance: its position among the calls.
    pub(crate) fn find(&self, id: Id) -> Option<usize>
        ensures { option_and_then (slice_get self.now) result ≡ call_of self.now id }
    {
        self.table.find(id)
    }

    /// The calls, in the order of their lines.
    pub fn calls(&self) -> &[ClientCall]
        ensures calls { result.now ≡ self.now }
        ensures history { IsHistory result.now }
    {
        self.calls.as_slice()
    }

    /// Lets each call that returned return later, by a skew. Where the clocks of the clients differ
    /// by no more than the skew, no call then seems to have returned before another was invoked,
    /// unless it had.
    pub fn later_by(self, skew: u64) -> History
        ensures { result ≡ map (later_by skew) self }
    {
        let History { mut calls, table } = self;
        add_skew(&mut calls, skew);
        History { calls, table }
    }
}
