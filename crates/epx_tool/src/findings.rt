//! Answers, and whether they find something.
ghost use Rattle.std.specs.Prelude.{◌≡◌, ◌≢◌, ◌↔◌, List, true, IfOk};
ghost use Rattle.epx_types.specs.Instances.{Instance};
ghost use Rattle.epx_types.specs.WaitingLists.{IsWaitingList};
ghost use Rattle.epx_report.specs.ViewLines.{name_line};
ghost use Rattle.epx_tool.specs.Findings.{SomeWaits};

use epx_graph::Waiter;
use epx_merge::Merged;
use epx_report::name_line;
use epx_types::Memory;
use std::alloc::Global;

/// An answer, and whether it finds something.
#[derive(Drop)]
pub struct Answer {
    pub text: Vec<u8>,
    pub has_findings: bool,
    /// The committed map that the answer is about. A comparison is about none. The map has many
    /// allocations, and to free each takes time. A caller that goes on drops it. A process that
    /// ends may forget it with `mem::forget`: the system takes its pages back at once.
    pub merged: Option<Merged>,
}

impl Answer {
    /// An answer without its map.
    pub(crate) fn new(text: Vec<u8>, has_findings: bool) -> Answer
        ensures text { result.text ≡ text }
        ensures found { result.has_findings ≡ has_findings }
    {
        Answer {
            text,
            has_findings,
            merged: None,
        }
    }

    /// The answer with the map that it is about.
    pub(crate) fn about(self, merged: Merged) -> Answer
        ensures text { result.text ≡ self.text }
        ensures found { result.has_findings ≡ self.has_findings }
    {
        Answer {
            text: self.text,
            has_findings: self.has_findings,
            merged: Some(merged),
        }
    }
}

/// Whether a text is not the line of this name alone.
pub(crate) fn is_not_line(alloc: Global, text: &[u8], name: &str) -> Result<bool, Memory>
    ensures { IfOk result (λ other. (other ≡ true) ↔ (text.now ≢ name_line name.now)) }
{
    let line = name_line(alloc, name)?;
    Ok(text != line.as_slice())
}

/// Whether instances wait, by the waiting list of their map.
pub(crate) fn some_wait(waiters: &[Waiter]) -> bool
    ensures { (m : List Instance) → IsWaitingList m waiters.now
        → (result ≡ true) ↔ SomeWaits m }
{
    !waiters.is_empty()
}
