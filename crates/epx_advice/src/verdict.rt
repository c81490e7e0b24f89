//! Explains the verdict on a list.
use crate::early::explain_early;
use crate::listed::{Listed, read_listed};
use crate::missing::explain_missing;
use crate::sequence::explain_sequence;
use crate::stranger::explain_stranger;
use crate::verdict_line::read_verdict;
use epx_bad_lines::found;
use epx_committed::Merged;
use epx_ranking::OrderFault;
use epx_types::{Memory, Plan};
use std::alloc::Global;
use std::thread::Threads;

/// Names the first position of an instance that is listed twice.
fn explain_repeat(
    alloc: Global,
    list: &[Listed],
    listed: Listed,
) -> Result<Option<String>, Memory> {
    let id = listed.id;
    let Some(first) = list.iter().find(|other| other.id == id) else {
        return Ok(None);
    };
    let begin = listed.show(alloc)?;
    found(format!(in alloc; "{begin}, and before that at {first}"))
}

/// The position that a fault names, if it names one.
fn place_of(fault: OrderFault) -> Option<usize> {
    match fault {
        OrderFault::Stranger { place } => Some(place),
        OrderFault::Repeat { place } => Some(place),
        OrderFault::Early { place } => Some(place),
        OrderFault::Sequence { place } => Some(place),
        OrderFault::Memory | OrderFault::Missing { .. } => None,
    }
}

/// Explains a fault at the position of an instance.
fn explain_at<R: Threads + Sync>(
    rt: &R,
    alloc: Global,
    merged: &Merged,
    list: &[Listed],
    fault: OrderFault,
    plan: Plan,
) -> Result<Option<String>, Memory> {
    let Some(place) = place_of(fault) else {
        return Ok(None);
    };
    let Some(listed) = list.get(place).copied() else {
        return Ok(None);
    };
    match fault {
        OrderFault::Stranger { .. } => explain_stranger(rt, alloc, merged, listed, plan),
        OrderFault::Repeat { .. } => explain_repeat(alloc, list, listed),
        OrderFault::Early { .. } => explain_early(rt, alloc, merged, list, listed, plan),
        OrderFault::Sequence { .. } => explain_sequence(rt, alloc, merged, list, listed, plan),
        OrderFault::Memory | OrderFault::Missing { .. } => Ok(None),
    }
}

/// Explains the verdict on a list in one line, without a line feed. None if the verdict is
/// `lawful`, or is not the one on this list over this map.
///
/// `list` has the bytes of LIST, and `verdict` the line of `epx check`, with `--prefix` or without
/// it. Takes n log n time.
pub fn explain_verdict<R: Threads + Sync>(
    rt: &R,
    alloc: Global,
    merged: &Merged,
    list: &[u8],
    verdict: &[u8],
    plan: Plan,
) -> Result<Option<String>, Memory> {
    let Some(fault) = read_verdict(alloc, verdict)? else {
        return Ok(None);
    };
    let Some(list) = read_listed(alloc, list)? else {
        return Ok(None);
    };
    match fault {
        OrderFault::Missing { id } => explain_missing(rt, alloc, merged, &list, id, plan),
        _ => explain_at(rt, alloc, merged, &list, fault, plan),
    }
}
