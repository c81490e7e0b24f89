//! Merges the lists of all shards in several threads: each takes the keys of one range.
ghost use Rattle.std.specs.Prelude.{◌≡◌, ◌++◌, T, map, flat_map, IfOk, OnOk};
ghost use Rattle.std.specs.Prelude.{IsPermutation};
ghost use Rattle.std.specs.FinMap.{is_sorted};
ghost use Rattle.std.specs.Thread.{IsSync};
ghost use Rattle.epx_types.specs.Keys.{key_cmp};
ghost use Rattle.epx_store.specs.inner.Rises.{AreBelow};

use crate::shards::SHARDS;
use crate::tournament::{Pairs, merge};
use epx_types::{Key, Memory};
use std::alloc::Global;
use std::array;
use std::thread::{Threads, join};

/// The head of a key in the middle of the longest list.
// No clause says which head it is. Another one costs only time.
fn middle_head(lists: &[Pairs; SHARDS]) -> u64 {
    let mut longest = &lists[0];
    for list in lists {
        if list.len() > longest.len() {
            longest = list;
        }
    }
    match longest.get(longest.len() / 2) {
        Some((key, _)) => key.head(),
        None => 0,
    }
}

/// Returns a copy of the pairs, whose keys stay borrowed.
fn copy_of<'a>(alloc: Global, pairs: &[(&'a Key, i64)]) -> Result<Pairs<'a>, Memory>
    ensures { IfOk result (λ v. v.items ≡ pairs.now) }
{
    let mut copy = Vec::with_capacity(alloc, pairs.len())?;
    for pair in pairs {
        copy.push(*pair)?;
    }
    Ok(copy)
}

/// Cuts a list at the first pair whose head is not below this one.
fn cut_list<'a>(
    alloc: Global,
    list: &[(&'a Key, i64)],
    head: u64,
) -> Result<(Pairs<'a>, Pairs<'a>), Memory>
    ensures { IfOk result (λ r. r.0.items ++ r.1.items ≡ list.now) }
{
    let at = list.partition_point(|(key, _)| key.head() < head);
    let (low, high) = list.split_at(at);
    Ok((copy_of(alloc, low)?, copy_of(alloc, high)?))
}

/// Cuts each list in two at the middle head.
fn cut_lists<'a>(
    alloc: Global,
    lists: [Pairs<'a>; SHARDS],
) -> Result<([Pairs<'a>; SHARDS], [Pairs<'a>; SHARDS]), Memory>
    ensures { IfOk result (λ r. IsPermutation (flat_map (λ l. l.items) lists.entry)
        (flat_map (λ l. l.items) r.0 ++ flat_map (λ l. l.items) r.1)) }
{
    let head = middle_head(&lists);
    let mut low = array::from_fn(|_| Vec::new(alloc));
    let mut high = array::from_fn(|_| Vec::new(alloc));
    for number in 0..SHARDS {
        let (before, after) = cut_list(alloc, &lists[number], head)?;
        low[number] = before;
        high[number] = after;
    }
    Ok((low, high))
}

/// Whether the last key of a range is below the first key of the next range.
fn are_below(range: &[(&Key, i64)], next: &[(&Key, i64)]) -> bool
    ensures { T result → AreBelow (map (λ p. (p.0.now, p.1)) range.now)
        (map (λ p. (p.0.now, p.1)) next.now) }
{
    match (range.last(), next.first()) {
        (Some((last, _)), Some((first, _))) => last < first,
        _ => true,
    }
}

/// Appends the pairs of the next range. Returns whether their keys are above those before.
fn append_range<'a>(pairs: &mut Pairs<'a>, mut range: Pairs<'a>) -> Result<bool, Memory>
    ensures all { OnOk result (pairs.new.items ≡ pairs.old.items ++ range.entry.items) }
    ensures rises { IfOk result (λ above. T above
        → T (is_sorted key_cmp (map (λ p. (p.0.now, p.1)) pairs.old.items))
        → T (is_sorted key_cmp (map (λ p. (p.0.now, p.1)) range.entry.items))
        → T (is_sorted key_cmp (map (λ p. (p.0.now, p.1)) pairs.new.items))) }
{
    let above = are_below(pairs, &range);
    pairs.append(&mut range)?;
    Ok(above)
}

/// Merges lists as `merge` does, in so many threads.
#[cycle(ranges)]
pub(crate) fn merge_by_ranges<'a, R: Threads + Sync>(
    rt: &R,
    alloc: Global,
    lists: [Pairs<'a>; SHARDS],
    threads: usize,
) -> Result<(Pairs<'a>, bool), Memory>
    ensures all { IfOk result
        (λ r. IsPermutation (flat_map (λ l. l.items) lists.entry) r.0.items) }
    ensures rises { IfOk result
        (λ r. T r.1 → T (is_sorted key_cmp (map (λ p. (p.0.now, p.1)) r.0.items))) }
{
    if threads < 2 {
        return merge(alloc, lists);
    }
    let half = threads / 2;
    let rest = threads - half;
    let (low, high) = cut_lists(alloc, lists)?;
    let lower = move || -> Result<(Pairs, bool), Memory>
        requires { IsSync R.row }
        ensures all { IfOk result
            (λ r. IsPermutation (flat_map (λ l. l.items) low.entry) r.0.items) }
        ensures rises { IfOk result
            (λ r. T r.1 → T (is_sorted key_cmp (map (λ p. (p.0.now, p.1)) r.0.items))) }
    { merge_by_ranges(rt, alloc, low, half) };
    let upper = move || -> Result<(Pairs, bool), Memory>
        requires { IsSync R.row }
        ensures all { IfOk result
            (λ r. IsPermutation (flat_map (λ l. l.items) high.entry) r.0.items) }
        ensures rises { IfOk result
            (λ r. T r.1 → T (is_sorted key_cmp (map (λ p. (p.0.now, p.1)) r.0.items))) }
    { merge_by_ranges(rt, alloc, high, rest) };
    let (first, second) = join(rt, lower, upper);
    let (mut pairs, rises) = first?;
    let (later, rise) = second?;
    let above = append_range(&mut pairs, later)?;
    Ok((pairs, rises && rise && above))
}
