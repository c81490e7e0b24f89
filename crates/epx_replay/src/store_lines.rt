//! Writes the lines of a store with several threads.
ghost use Rattle.std.specs.Prelude.{◌≡◌, ◌<◌, ◌≤◌, ◌^◌, ◌++◌, length, map, flat_map, IfOk};
ghost use Rattle.std.specs.FinMap as contents;
ghost use Rattle.epx_types.specs.Pieces.{piece_count};
ghost use Rattle.epx_claims.specs.inner.PieceItems.{items_of_piece};
ghost use Rattle.epx_report.specs.ReportLines.{store_line};

use epx_claims::{FreeGate, append_parts, claimed_map};
use epx_report::{append_pairs, append_store};
use epx_txn::Store;
use epx_types::{Key, Memory, Plan};
use std::alloc::Global;
use std::thread::{Threads, join};

/// The lines of more keys than this are written by one thread.
const MAX_KEYS: u128 = 1 << 40;

/// Fewer keys than this are listed by one thread.
const MIN_KEYS: u128 = 8_192;

/// The lines of one of the pieces into which the plan cuts keys with their values.
fn lines_of_pairs(
    alloc: Global,
    pairs: &[(&Key, i64)],
    plan: Plan,
    piece: usize,
) -> Result<Vec<u8>, Memory>
    requires { piece < piece_count plan.cut (length pairs.now) }
    ensures { IfOk result (λ text. text.items ≡ flat_map store_line
        (map (λ p. (p.0.now, p.1)) (items_of_piece plan.cut pairs.now piece))) }
{
    let (start, end) = plan.range(piece, pairs.len());
    let mut text = Vec::new(alloc);
    append_pairs(alloc, &mut text, &pairs[start..end])?;
    Ok(text)
}

/// The lines of keys with their values, in parts that follow each other. The plan's workers write
/// them.
fn pair_parts<R: Threads + Sync>(
    rt: &R,
    alloc: Global,
    pairs: &[(&Key, i64)],
    plan: Plan,
) -> Result<Vec<Vec<u8>>, Memory>
    requires { length pairs.now ≤ 2 ^ 40 }
    ensures { IfOk result (λ parts. flat_map (λ part. part.items) parts.items
        ≡ flat_map store_line (map (λ p. (p.0.now, p.1)) pairs.now)) }
{
    let pieces = plan.pieces(pairs.len());
    claimed_map(rt, alloc, pieces, plan, &FreeGate, |piece| {
        lines_of_pairs(alloc, pairs, plan, piece)
    })
}

/// The keys of a store with their values, in byte order. The plan's workers list many keys.
fn list_pairs<'a, R: Threads + Sync>(
    rt: &R,
    store: &'a Store,
    plan: Plan,
) -> Result<Vec<(&'a Key, i64)>, Memory>
    ensures { IfOk result (λ pairs.
        map (λ p. (p.0.now, p.1)) pairs.items ≡ contents.entries store.now) }
{
    if store.len() < MIN_KEYS {
        store.pairs()
    } else {
        store.pairs_by(rt, plan)
    }
}

/// The lines of a store, in parts that follow each other, in byte order of the keys. The plan's
/// workers list the keys, and write the lines.
fn store_parts<R: Threads + Sync>(
    rt: &R,
    alloc: Global,
    store: &Store,
    plan: Plan,
) -> Result<Vec<Vec<u8>>, Memory>
    requires { contents.len store.now ≤ 2 ^ 40 }
    ensures { IfOk result (λ parts. flat_map (λ part. part.items) parts.items
        ≡ flat_map store_line (contents.entries store.now)) }
{
    let pairs = list_pairs(rt, store, plan)?;
    pair_parts(rt, alloc, &pairs, plan)
}

/// A text with parts appended.
fn with_parts(text: Vec<u8>, parts: Vec<Vec<u8>>) -> Result<Vec<u8>, Memory>
    ensures { IfOk result (λ longer. longer.items
        ≡ text.items ++ flat_map (λ part. part.items) parts.items) }
{
    let mut text = text;
    append_parts(&mut text, parts)?;
    Ok(text)
}

/// Appends the lines of a store, in byte order of the keys, and frees the store. With several
/// workers another thread frees it while the lines are put together.
pub fn append_store_lines<R: Threads + Sync>(
    rt: &R,
    alloc: Global,
    text: Vec<u8>,
    store: Store,
    plan: Plan,
) -> Result<Vec<u8>, Memory>
    ensures { IfOk result (λ longer. longer.items
        ≡ text.items ++ flat_map store_line (contents.entries store)) }
{
    let mut text = text;
    if plan.workers() == 1 || store.len() > MAX_KEYS {
        append_store(alloc, &mut text, &store)?;
        return Ok(text);
    }
    let parts = store_parts(rt, alloc, &store, plan)?;
    let (_, text) = join(
        rt,
        move || drop(store),
        move || -> Result<Vec<u8>, Memory>
            ensures { IfOk result (λ longer. longer.items
                ≡ text.items ++ flat_map (λ part. part.items) parts.items) }
        { with_parts(text, parts) },
    );
    text
}
