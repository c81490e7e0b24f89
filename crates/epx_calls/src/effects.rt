//! Tests of the store and of the effects of commands.
ghost use Rattle.std.specs.Prelude.{◌≡◌, [], ◌∷◌, IfOk};

use crate::fixtures::key;
use epx_txn::{Effect, Store, Writes, apply, eval, merge_effects, touched, written};
use epx_types::{Key, Memory, Op, Plan, Reply, Values};
use std::alloc::Global;
use std::process::Abort;
use std::slice::from_ref;
use std::test::Fail;
use std::thread::Threads;

/// Expects that the store has exactly these pairs, in this order.
pub(crate) fn expect_pairs(
    rt: &impl Abort,
    store: &Store,
    wanted: &[(&str, i64)],
) -> Result<(), Memory> {
    assert!(rt; store.len() == wanted.len() as u128);
    expect_list(rt, &store.pairs()?, wanted);
    Ok(())
}

fn expect_list(rt: &impl Abort, pairs: &[(&Key, i64)], wanted: &[(&str, i64)]) {
    assert!(rt; pairs.len() == wanted.len());
    for (pair, (text, value)) in pairs.iter().zip(wanted) {
        assert!(rt; pair.0.text() == *text);
        assert!(rt; pair.1 == *value);
    }
}

/// Puts a value, and expects it to be in the store. If memory runs out, the store must be
/// unchanged.
fn put(rt: &impl Abort, store: &mut Store, key: Key, value: i64) -> Result<(), Memory> {
    let opening = store.copy()?;
    let text = key.copy()?;
    match store.put(key, value) {
        Ok(()) => assert!(rt; store.get(&text) == Some(value)),
        Err(Memory) => {
            expect_same_pairs(rt, store, &opening)?;
            return Err(Memory);
        }
    }
    Ok(())
}

fn expect_same_pairs(rt: &impl Abort, store: &Store, other: &Store) -> Result<(), Memory> {
    assert!(rt; store.len() == other.len());
    for (key, value) in other.pairs()? {
        assert!(rt; store.get(key) == Some(value));
    }
    Ok(())
}

/// A store into which these pairs are put one after another.
pub(crate) fn store_with(
    rt: &impl Abort,
    alloc: Global,
    pairs: &[(&str, i64)],
) -> Result<Store, Memory> {
    let mut store = Store::new(alloc);
    for (text, value) in pairs {
        put(rt, &mut store, key(rt, alloc, text)?, *value)?;
    }
    Ok(store)
}

/// A store with 5 under a.
fn store_with_five(rt: &impl Abort, alloc: Global) -> Result<Store, Memory> {
    store_with(rt, alloc, &[("a", 5)])
}

#[test]
fn store_holds_what_was_put(rt: HostRuntime) -> Result<(), Fail> {
    let alloc = rt.alloc();
    expect_pairs(&rt, &Store::new(alloc), &[])?;
    let store = store_with_five(&rt, alloc)?;
    assert!(rt; store.get(&key(&rt, alloc, "b")?) == None);
    expect_pairs(&rt, &store, &[("a", 5)])?;
    expect_pairs(&rt, &store.copy()?, &[("a", 5)])?;
    Ok(())
}

#[test]
fn threads_list_keys_in_order(rt: HostRuntime) -> Result<(), Fail> {
    let pairs = [
        ("c", 3),
        ("one head b", 5),
        ("a", 1),
        ("one head a", 4),
        ("b", 2),
    ];
    let wanted = [
        ("a", 1),
        ("b", 2),
        ("c", 3),
        ("one head a", 4),
        ("one head b", 5),
    ];
    let store = store_with(&rt, rt.alloc(), &pairs)?;
    for (workers, cut) in [(1, 1), (2, 1), (3, 1), (16, 1), (16, 2), (16, 6)] {
        let plan = Plan::new(workers, cut).ok_or("a plan")?;
        expect_list(&rt, &store.pairs_by(&rt, plan)?, &wanted);
    }
    Ok(())
}

/// The expected reply of a command.
#[derive(Clone, Copy, Debug)]
pub(crate) enum Wanted<'a> {
    Values(&'a [Option<i64>]),
    Abort(u64),
}

pub(crate) fn expect_reply(rt: &impl Abort, reply: &Reply, wanted: Wanted) {
    match (reply, wanted) {
        (Reply::Values(values), Wanted::Values(list)) => assert!(rt; values.as_slice() == list),
        (Reply::Abort(index), Wanted::Abort(at)) => assert!(rt; *index == at),
        _ => panic!(rt; "an abort for values, or values for an abort"),
    }
}

fn expect_writes(rt: &impl Abort, made: &[(Key, Option<i64>)], wanted: &[(&str, Option<i64>)]) {
    assert!(rt; made.len() == wanted.len());
    for (write, (text, value)) in made.iter().zip(wanted) {
        assert!(rt; write.0.text() == *text);
        assert!(rt; write.1 == *value);
    }
}

/// Over a store with 5 under a, expects this effect of the operations, and an unchanged store.
fn expect_effect(
    rt: &impl Abort,
    alloc: Global,
    ops: &[Op],
    reply: Wanted,
    writes: &[(&str, Option<i64>)],
) -> Result<(), Memory> {
    let store = store_with_five(rt, alloc)?;
    let effect = eval(alloc, &store, ops)?;
    expect_reply(rt, &effect.reply, reply);
    expect_writes(rt, effect.writes.as_slice(), writes);
    expect_pairs(rt, &store, &[("a", 5)])
}

/// Expects this effect of the operation followed by a read of a.
fn expect_effect_on_a(
    rt: &impl Abort,
    alloc: Global,
    op: Op,
    value: Option<i64>,
) -> Result<(), Memory> {
    let get = Op::Get {
        key: key(rt, alloc, "a")?,
    };
    let reply = Wanted::Values(&[value]);
    expect_effect(rt, alloc, &[op, get], reply, &[("a", value)])
}

#[test]
fn command_reads_its_own_writes(rt: HostRuntime) -> Result<(), Fail> {
    let key = key(&rt, rt.alloc(), "a")?;
    let add = Op::Add { key, amount: 1 };
    expect_effect_on_a(&rt, rt.alloc(), add, Some(6))?;
    Ok(())
}

#[test]
fn command_reads_its_own_removals(rt: HostRuntime) -> Result<(), Fail> {
    let key = key(&rt, rt.alloc(), "a")?;
    expect_effect_on_a(&rt, rt.alloc(), Op::Del { key }, None)?;
    Ok(())
}

/// A put of b, and a test of a that fails.
fn put_and_fail(rt: &impl Abort, alloc: Global) -> Result<[Op; 2], Memory> {
    let put = Op::Put {
        key: key(rt, alloc, "b")?,
        value: 1,
    };
    let is = Op::Is {
        key: key(rt, alloc, "a")?,
        value: Some(4),
    };
    Ok([put, is])
}

#[test]
fn abort_writes_nothing(rt: HostRuntime) -> Result<(), Fail> {
    let ops = put_and_fail(&rt, rt.alloc())?;
    expect_effect(&rt, rt.alloc(), &ops, Wanted::Abort(1), &[])?;
    Ok(())
}

/// The effect of a command with one write.
fn one_write(alloc: Global, key: Key, value: Option<i64>) -> Result<Effect, Memory>
    ensures { IfOk result (λ e. e.writes ≡ (key, value) ∷ []) }
{
    Ok(Effect {
        reply: Reply::Values(Values::new(Vec::new(alloc))),
        writes: Writes::new(vec![in alloc; (key, value)]?),
    })
}

/// A store with 5 under a, after one key is removed and 7 is put under another.
fn replace_key<R: Threads + Sync + Abort>(
    rt: &R,
    alloc: Global,
    removed: Key,
    put: Key,
) -> Result<Store, Memory> {
    assert!(rt; removed != put);
    let effects = [
        one_write(alloc, removed, None)?,
        one_write(alloc, put, Some(7))?,
    ];
    merge_effects(rt, alloc, store_with_five(rt, alloc)?, &effects)
}

#[test]
fn all_writes_are_merged(rt: HostRuntime) -> Result<(), Fail> {
    let alloc = rt.alloc();
    let store = replace_key(&rt, alloc, key(&rt, alloc, "a")?, key(&rt, alloc, "b")?)?;
    expect_pairs(&rt, &store, &[("b", 7)])?;
    let store = merge_effects(&rt, alloc, store, &[])?;
    expect_pairs(&rt, &store, &[("b", 7)])?;
    Ok(())
}

/// Puts of the letters from z down to a, each with its position in the alphabet.
fn letters(rt: &impl Abort, alloc: Global) -> Result<Vec<Op>, Memory> {
    let mut ops = Vec::new(alloc);
    for (index, letter) in "abcdefghijklmnopqrstuvwxyz".char_indices().rev() {
        let text = format!(in alloc; "{letter}")?;
        ops.push(Op::Put {
            key: key(rt, alloc, text.as_str())?,
            value: index as i64 + 1,
        })?;
    }
    Ok(ops)
}

/// The store after one more command.
fn after<R: Threads + Sync + Abort>(
    rt: &R,
    alloc: Global,
    store: Store,
    ops: &[Op],
) -> Result<Store, Memory> {
    let effect = eval(alloc, &store, ops)?;
    merge_effects(rt, alloc, store, from_ref(&effect))
}

/// Puts of all letters, then a sum and a removal, each followed by a read.
fn letters_and_more(rt: &impl Abort, alloc: Global) -> Result<Vec<Op>, Memory> {
    let mut ops = letters(rt, alloc)?;
    ops.push(Op::Add {
        key: key(rt, alloc, "a")?,
        amount: 6,
    })?;
    ops.push(Op::Get {
        key: key(rt, alloc, "a")?,
    })?;
    ops.push(Op::Del {
        key: key(rt, alloc, "b")?,
    })?;
    ops.push(Op::Get {
        key: key(rt, alloc, "b")?,
    })?;
    Ok(ops)
}

#[test]
fn command_may_write_many_keys(rt: HostRuntime) -> Result<(), Fail> {
    let alloc = rt.alloc();
    let ops = letters_and_more(&rt, alloc)?;
    let store = store_with_five(&rt, alloc)?;
    let effect = eval(alloc, &store, &ops)?;
    expect_reply(&rt, &effect.reply, Wanted::Values(&[Some(7), None]));
    assert!(rt; effect.writes.as_slice().len() == 26);
    let store = after(&rt, alloc, store, &ops)?;
    assert!(rt; store.len() == 25);
    for (text, value) in [("a", Some(7)), ("b", None), ("c", Some(3)), ("z", Some(26))] {
        assert!(rt; store.get(&key(&rt, alloc, text)?) == value);
    }
    let mut applied = store_with_five(&rt, alloc)?;
    let reply = apply(alloc, &mut applied, &ops)?;
    expect_reply(&rt, &reply, Wanted::Values(&[Some(7), None]));
    expect_same_pairs(&rt, &applied, &store)?;
    Ok(())
}

/// Puts of the numbers below `count`, each under its decimal text.
fn numbers(rt: &impl Abort, alloc: Global, count: i64) -> Result<Vec<Op>, Memory> {
    let mut ops = Vec::new(alloc);
    for value in 0..count {
        let text = format!(in alloc; "{value}")?;
        ops.push(Op::Put {
            key: key(rt, alloc, text.as_str())?,
            value,
        })?;
    }
    Ok(ops)
}

#[test]
fn many_writes_are_merged(rt: HostRuntime) -> Result<(), Fail> {
    let alloc = rt.alloc();
    let ops = numbers(&rt, alloc, 5_000)?;
    let store = after(&rt, alloc, Store::new(alloc), &ops)?;
    let store = after(&rt, alloc, store, &ops)?;
    assert!(rt; store.len() == 5_000);
    for value in 0..5_000 {
        let text = format!(in alloc; "{value}")?;
        assert!(rt; store.get(&key(&rt, alloc, text.as_str())?) == Some(value));
    }
    Ok(())
}

/// Expects these keys.
fn check_keys(rt: &impl Abort, keys: &[&Key], wanted: &[&str]) {
    assert!(rt; keys.len() == wanted.len());
    for (key, text) in keys.iter().zip(wanted) {
        assert!(rt; key.text() == *text);
    }
}

/// Expects that the operations touch and write these keys.
fn expect_keys(
    rt: &impl Abort,
    alloc: Global,
    ops: &[Op],
    touch: &[&str],
    write: &[&str],
) -> Result<(), Memory> {
    check_keys(rt, touched(alloc, ops)?.as_slice(), touch);
    check_keys(rt, written(alloc, ops)?.as_slice(), write);
    Ok(())
}

#[test]
fn keys_rise_each_once(rt: HostRuntime) -> Result<(), Fail> {
    let alloc = rt.alloc();
    let copy = Op::Copy {
        source: key(&rt, alloc, "a")?,
        target: key(&rt, alloc, "b")?,
    };
    let get = Op::Get {
        key: key(&rt, alloc, "a")?,
    };
    expect_keys(&rt, alloc, &[copy, get], &["a", "b"], &["b"])?;
    expect_keys(&rt, alloc, &[], &[], &[])?;
    Ok(())
}
