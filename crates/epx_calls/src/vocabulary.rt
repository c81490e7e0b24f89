//! Tests of Ids, keys, entries, plans, replies and a fault: their orders, limits and texts.
use crate::fixtures::id;
use epx_types::{Entry, Fault, Id, Key, Memory, Op, Place, Plan, Reply, SmallList, Values};
use std::alloc::Global;
use std::process::Abort;
use std::test::Fail;

const FIRST: Place = Place { log: 0, line: 12 };

const SECOND: Place = Place { log: 63, line: 1 };

#[test]
fn a_fault_has_a_number_a_status_and_a_text(rt: HostRuntime) -> Result<(), Fail> {
    let fault = Fault::Write;
    assert!(rt; fault.number() == 8 && fault.status() == 4);
    let text = fault.text(rt.alloc())?;
    assert!(rt; text.as_str() == "epx: fault 8: the answer can not be written");
    Ok(())
}

/// Expects that the text is a key or is not. A key and its copy must have the text.
fn expect_key(rt: &impl Abort, alloc: Global, text: &str, wanted: bool) -> Result<(), Fail> {
    let made = Key::new(alloc, text)?;
    assert!(rt; made.is_some() == wanted);
    if let Some(key) = made {
        assert!(rt; key.text() == text);
        assert!(rt; key.copy()? == key);
    }
    Ok(())
}

#[test]
fn a_key_has_1_to_64_bytes(rt: HostRuntime) -> Result<(), Fail> {
    let sixty_four = "abcdefghabcdefghabcdefghabcdefghabcdefghabcdefghabcdefghabcdefgh";
    let sixty_five = "abcdefghabcdefghabcdefghabcdefghabcdefghabcdefghabcdefghabcdefghi";
    expect_key(&rt, rt.alloc(), "a", true)?;
    expect_key(&rt, rt.alloc(), "", false)?;
    expect_key(&rt, rt.alloc(), sixty_four, true)?;
    expect_key(&rt, rt.alloc(), sixty_five, false)
}

/// Expects that the first text is the lesser key.
fn expect_below(rt: &impl Abort, alloc: Global, low: &str, high: &str) -> Result<(), Fail> {
    let below = Key::new(alloc, low)?.ok_or("a key")?;
    let above = Key::new(alloc, high)?.ok_or("a key")?;
    assert!(rt; below < above && below != above);
    Ok(())
}

#[test]
fn keys_are_ordered_by_bytes(rt: HostRuntime) -> Result<(), Fail> {
    expect_below(&rt, rt.alloc(), "B", "a")?;
    expect_below(&rt, rt.alloc(), "a", "aa")?;
    expect_below(&rt, rt.alloc(), "aa", "b")?;
    expect_below(&rt, rt.alloc(), "z", "é")
}

#[test]
fn ids_are_ordered_by_replica_then_number(rt: HostRuntime) {
    assert!(rt; id(0, 9) < id(1, 0) && id(1, 0) < id(1, 1));
    assert!(rt; id(1, 1) == id(1, 1));
}

#[test]
fn places_are_ordered_by_log_then_line(rt: HostRuntime) {
    assert!(rt; FIRST < SECOND && SECOND < Place { log: 63, line: 2 });
}

fn expect_plan(rt: &impl Abort, workers: usize, cut: usize, wanted: bool) {
    assert!(rt; Plan::new(workers, cut).is_some() == wanted);
}

#[test]
fn a_plan_keeps_its_limits(rt: HostRuntime) {
    expect_plan(&rt, 1, 1, true);
    expect_plan(&rt, 64, 65_536, true);
    expect_plan(&rt, 0, 1, false);
    expect_plan(&rt, 65, 1, false);
    expect_plan(&rt, 1, 0, false);
    expect_plan(&rt, 1, 65_537, false);
}

/// Expects that the plan cuts the items into this number of pieces, with this last piece.
fn expect_pieces(rt: &impl Abort, plan: Plan, items: usize, pieces: usize, last: (usize, usize)) {
    let made = plan.pieces(items);
    assert!(rt; made == pieces);
    if 0 < made {
        assert!(rt; plan.range(made - 1, items) == last);
    }
}

#[test]
fn a_plan_cuts_items_into_pieces(rt: HostRuntime) -> Result<(), Fail> {
    let plan = Plan::new(2, 3).ok_or("a plan")?;
    assert!(rt; plan.workers() == 2 && plan.cut() == 3);
    expect_pieces(&rt, plan, 0, 0, (0, 0));
    expect_pieces(&rt, plan, 2, 1, (0, 2));
    expect_pieces(&rt, plan, 6, 2, (3, 6));
    expect_pieces(&rt, plan, 7, 3, (6, 7));
    Ok(())
}

/// Expects that instance 1.2 may depend on these two, or may not.
fn expect_dependencies(
    rt: &impl Abort,
    alloc: Global,
    deps: [Id; 2],
    wanted: bool,
) -> Result<(), Fail> {
    let deps = Vec::from_slice(alloc, &deps)?;
    let entry = Entry::new(id(1, 2), 5, deps, Vec::new(alloc));
    assert!(rt; entry.is_some() == wanted);
    Ok(())
}

#[test]
fn an_entry_needs_rising_dependencies_without_itself(rt: HostRuntime) -> Result<(), Fail> {
    expect_dependencies(&rt, rt.alloc(), [id(0, 9), id(1, 3)], true)?;
    expect_dependencies(&rt, rt.alloc(), [id(1, 3), id(0, 9)], false)?;
    expect_dependencies(&rt, rt.alloc(), [id(0, 9), id(0, 9)], false)?;
    expect_dependencies(&rt, rt.alloc(), [id(0, 9), id(1, 2)], false)
}

/// Expects that an entry may have `count` dependencies, or may not.
fn expect_deps_allowed(
    rt: &impl Abort,
    alloc: Global,
    count: u64,
    wanted: bool,
) -> Result<(), Fail> {
    let mut deps = Vec::new(alloc);
    for number in 0..count {
        deps.push(id(0, number))?;
    }
    let entry = Entry::new(id(1, 0), 5, deps, Vec::new(alloc));
    assert!(rt; entry.is_some() == wanted);
    Ok(())
}

/// Expects that an entry may have `count` operations, or may not.
fn expect_ops_allowed(
    rt: &impl Abort,
    alloc: Global,
    count: usize,
    wanted: bool,
) -> Result<(), Fail> {
    let mut ops = Vec::new(alloc);
    for _ in 0..count {
        let key = Key::new(alloc, "a")?.ok_or("a key")?;
        ops.push(Op::Get { key })?;
    }
    let entry = Entry::new(id(1, 0), 5, Vec::new(alloc), ops);
    assert!(rt; entry.is_some() == wanted);
    Ok(())
}

#[test]
fn an_entry_has_at_most_256_dependencies_and_64_operations(rt: HostRuntime) -> Result<(), Fail> {
    expect_deps_allowed(&rt, rt.alloc(), 256, true)?;
    expect_deps_allowed(&rt, rt.alloc(), 257, false)?;
    expect_ops_allowed(&rt, rt.alloc(), 64, true)?;
    expect_ops_allowed(&rt, rt.alloc(), 65, false)
}

/// Expects this entry, with one dependency and one operation.
fn expect_parts(rt: &impl Abort, entry: Option<Entry>) -> Result<(), Fail> {
    let entry = entry.ok_or("an entry")?;
    assert!(rt; entry.id() == id(2, 7) && entry.seq() == 3);
    assert!(rt; entry.deps() == [id(0, 1)].as_slice());
    assert!(rt; entry.ops().len() == 1);
    Ok(())
}

/// An operation.
fn operation(alloc: Global) -> Result<Op, Fail> {
    let key = Key::new(alloc, "k")?.ok_or("a key")?;
    Ok(Op::Del { key })
}

#[test]
fn an_entry_holds_what_it_was_made_of(rt: HostRuntime) -> Result<(), Fail> {
    let alloc = rt.alloc();
    let deps = vec![in alloc; id(0, 1)]?;
    let ops = vec![in alloc; operation(alloc)?]?;
    expect_parts(&rt, Entry::new(id(2, 7), 3, deps, ops))?;
    let (deps, ops) = (SmallList::One(id(0, 1)), SmallList::One(operation(alloc)?));
    expect_parts(&rt, Entry::from_lists(id(2, 7), 3, deps, ops))
}

/// Expects that a list has the items of a vector, and takes them from another.
fn expect_items(rt: &impl Abort, alloc: Global, ids: &[Id]) -> Result<(), Memory> {
    let list = SmallList::from_vec(Vec::from_slice(alloc, ids)?);
    assert!(rt; list.as_slice() == ids);
    let mut items = Vec::from_slice(alloc, ids)?;
    let taken = SmallList::take(alloc, &mut items)?;
    assert!(rt; taken.as_slice() == ids && items.is_empty());
    Ok(())
}

#[test]
fn a_list_has_the_items_of_a_vector(rt: HostRuntime) -> Result<(), Fail> {
    expect_items(&rt, rt.alloc(), &[])?;
    expect_items(&rt, rt.alloc(), &[id(0, 1)])?;
    expect_items(&rt, rt.alloc(), &[id(0, 1), id(0, 2)])?;
    Ok(())
}

/// The reply of these values.
fn reply_of(alloc: Global, values: &[Option<i64>]) -> Result<Reply, Memory> {
    let values = Values::new(Vec::from_slice(alloc, values)?);
    Ok(Reply::Values(values))
}

#[test]
fn replies_are_compared_by_their_values(rt: HostRuntime) -> Result<(), Fail> {
    let read = reply_of(rt.alloc(), &[Some(5), None])?;
    assert!(rt; read == reply_of(rt.alloc(), &[Some(5), None])?);
    assert!(rt; read != reply_of(rt.alloc(), &[None, Some(5)])?);
    assert!(rt; read != Reply::Abort(0));
    assert!(rt; Reply::Abort(1) != Reply::Abort(2));
    Ok(())
}
