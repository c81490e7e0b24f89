//! The calls of a history in the order of their invocations.
ghost use Rattle.std.specs.Prelude.{◌≡◌, ◌≤◌, ℕ, Some, map, length, slice_get, IfOk, MatchOption};
ghost use Rattle.epx_types.specs.declared.id.Id.{Id};
ghost use Rattle.epx_linear.specs.ClientCalls.{IsHistory};
ghost use Rattle.epx_linear.specs.inner.Spans.{AreSpansOf, AreRanksOf, HavePlaces, IsLateRank};
ghost use Rattle.epx_linear.specs.inner.Spans.{id_of_span, rank_at, times_of_call};
ghost use Rattle.epx_linear.specs.inner.Spans.{times_of_span};

use crate::client_call::ClientCall;
use epx_types::{Id, Memory};
use std::alloc::Global;
use std::cmp::Reverse;

/// The times of a call. Spans are ordered by invocation; of equal times, the lower Id is greater.
#[derive(Clone, Copy, PartialEq, Eq, PartialOrd, Ord)]
pub(crate) struct Span {
    pub(crate) invoked: u64,
    pub(crate) id: Reverse<Id>,
    pub(crate) returned: Option<u64>,
    /// The position of the call in the history.
    pub(crate) at: usize,
}

impl Span {
    /// The instance of the call.
    fn instance(&self) -> Id
        ensures { result ≡ id_of_span self.now }
    {
        self.id.0
    }
}

/// The spans of the calls of a history, in their order.
#[derive(Drop)]
pub(crate) struct Spans {
    pub(crate) spans: Vec<Span>,
    /// For each call of the history, one above the position of its span.
    pub(crate) ranks: Vec<usize>,
}

/// Returns the spans of calls, in the order of the calls.
fn spans_of(alloc: Global, history: &[ClientCall]) -> Result<Vec<Span>, Memory>
    ensures times { IfOk result (λ v. map times_of_span v.items ≡ map times_of_call history.now) }
    ensures places { IfOk result
        (λ v. (k : ℕ) (s : Span) → slice_get v.items k ≡ Some s → s.at ≡ k) }
{
    let mut spans = Vec::with_capacity(alloc, history.len())?;
    for at in 0..history.len() {
        let call = &history[at];
        spans.push(Span {
            invoked: call.invoked,
            id: Reverse(call.id),
            returned: call.returned,
            at,
        })?;
    }
    Ok(spans)
}

/// Returns one above the position of each span, by the positions of the calls.
fn ranks_of(alloc: Global, spans: &[Span]) -> Result<Vec<usize>, Memory>
    requires { HavePlaces spans.now }
    ensures { IfOk result (λ ranks. AreRanksOf spans.now ranks.items) }
{
    let mut ranks = vec![in alloc; 0; spans.len()]?;
    for index in 0..spans.len() {
        ranks[spans[index].at] = index + 1;
    }
    Ok(ranks)
}

impl Spans {
    /// Returns the spans of a history.
    pub(crate) fn new(alloc: Global, history: &[ClientCall]) -> Result<Spans, Memory>
        requires { IsHistory history.now }
        ensures spans { IfOk result (λ s. AreSpansOf history.now s.spans.items) }
        ensures ranks { IfOk result (λ s. AreRanksOf s.spans.items s.ranks.items) }
        ensures len { IfOk result (λ s. length s.spans.items ≡ length history.now) }
    {
        let mut spans = spans_of(alloc, history)?;
        spans.sort_unstable();
        let ranks = ranks_of(alloc, &spans)?;
        Ok(Spans { spans, ranks })
    }

    /// Returns the rank of the call at a place of the history, one above the position of its span,
    /// or 0 if there is none.
    pub(crate) fn rank_at(&self, place: Option<usize>) -> usize
        requires { AreRanksOf self.now.spans.items self.now.ranks.items }
        ensures rank { result ≡ rank_at self.now.ranks.items place }
        ensures within { result ≤ length self.now.spans.items }
    {
        match place {
            Some(at) if at < self.ranks.len() => self.ranks[at],
            _ => 0,
        }
    }

    /// Returns the instance of the span with the rank `latest`, if the span with the rank `own`
    /// had returned before it was invoked.
    pub(crate) fn id_if_late(&self, own: usize, latest: usize) -> Option<Id>
        ensures { MatchOption result
            ((x : Id) → ¬ IsLateRank self.now.spans.items own latest x)
            (IsLateRank self.now.spans.items own latest) }
    {
        let this = self.spans.get(own.checked_sub(1)?)?;
        let last = self.spans.get(latest.checked_sub(1)?)?;
        if this.returned? < last.invoked {
            Some(last.instance())
        } else {
            None
        }
    }
}
