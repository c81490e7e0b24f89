//! Tests of `run_order`, `run_from` and `levels`. The operations are written as text.
use crate::effects::{Wanted, expect_pairs, expect_reply, store_with};
use crate::fixtures::{id, key};
use crate::gates::WaitingGate;
use epx_apply::{levels, run_from, run_order};
use epx_claims::{FreeGate, Gate};
use epx_types::{Command, Memory, Op, Plan, Reply};
use std::alloc::Global;
use std::process::Abort;
use std::random::RandomSource;
use std::test::Fail;
use std::thread::Threads;

fn number(rt: &impl Abort, word: &str) -> i64 {
    word.parse::<i64>().expect(rt, "a number")
}

/// Parses an operation, such as `put a 5`.
fn operation(rt: &impl Abort, alloc: Global, text: &str) -> Result<Op, Memory> {
    let mut words = text.split(' ');
    let name = words.next().expect(rt, "a name");
    let first = words.next().expect(rt, "a key");
    let last = words.next().unwrap_or("0");
    let key = key(rt, alloc, first)?;
    match name {
        "get" => Ok(Op::Get { key }),
        "put" => Ok(Op::Put {
            key,
            value: number(rt, last),
        }),
        "del" => Ok(Op::Del { key }),
        "add" => Ok(Op::Add {
            key,
            amount: number(rt, last),
        }),
        _ => Ok(Op::Copy {
            source: key,
            target: crate::fixtures::key(rt, alloc, last)?,
        }),
    }
}

/// Parses a command, such as `put a 5, get a`.
fn operations(rt: &impl Abort, alloc: Global, text: &str) -> Result<Vec<Op>, Memory> {
    let mut ops = Vec::new(alloc);
    for part in text.split(", ") {
        if !part.is_empty() {
            ops.push(operation(rt, alloc, part)?)?;
        }
    }
    Ok(ops)
}

/// The commands of these operation lists.
fn commands<'a>(alloc: Global, lists: &'a [Vec<Op>]) -> Result<Vec<Command<'a>>, Memory> {
    let mut commands = Vec::new(alloc);
    for ops in lists {
        commands.push(Command {
            id: id(0, 0),
            ops: ops.as_slice(),
        })?;
    }
    Ok(commands)
}

fn expect_replies(rt: &impl Abort, replies: &[Reply], wanted: &[Wanted]) {
    assert!(rt; replies.len() == wanted.len());
    for (reply, want) in replies.iter().zip(wanted) {
        expect_reply(rt, reply, *want);
    }
}

/// Runs the commands with one plan and gate, from the opening store, and checks the replies and
/// the store. If memory runs out, the store must be the opening one.
fn run_with<R: Threads + RandomSource + Sync + Abort, G: Gate + Sync>(
    rt: &R,
    alloc: Global,
    plan: Plan,
    gate: &G,
    opening: &[(&str, i64)],
    commands: &[Command],
    wanted: &[Wanted],
    after: &[(&str, i64)],
) -> Result<(), Memory> {
    assert!(rt; commands.len() <= 8);
    let mut store = store_with(rt, alloc, opening)?;
    match run_order(rt, alloc, &mut store, commands, plan, gate) {
        Ok(replies) => {
            expect_replies(rt, replies.as_slice(), wanted);
            expect_pairs(rt, &store, after)
        }
        Err(Memory) => {
            expect_pairs(rt, &store, opening)?;
            Err(Memory)
        }
    }
}

/// Runs the commands with one plan and gate by `run_from`, which takes the opening store and
/// returns the store after them. Checks the replies and that store.
fn run_from_with<R: Threads + RandomSource + Sync + Abort, G: Gate + Sync>(
    rt: &R,
    alloc: Global,
    plan: Plan,
    gate: &G,
    opening: &[(&str, i64)],
    commands: &[Command],
    wanted: &[Wanted],
    after: &[(&str, i64)],
) -> Result<(), Memory> {
    assert!(rt; commands.len() <= 8);
    let store = store_with(rt, alloc, opening)?;
    let (store, replies) = run_from(rt, alloc, store, commands, plan, gate)?;
    expect_replies(rt, replies.as_slice(), wanted);
    expect_pairs(rt, &store, after)
}

/// Parses the commands and runs them with several plans.
fn run<R: Threads + RandomSource + Sync + Abort>(
    rt: &R,
    alloc: Global,
    opening: &[(&str, i64)],
    texts: &[&str],
    wanted: &[Wanted],
    after: &[(&str, i64)],
) -> Result<(), Fail> {
    let mut lists = Vec::new(alloc);
    for text in texts {
        lists.push(operations(rt, alloc, text)?)?;
    }
    let commands = commands(alloc, &lists)?;
    for (workers, cut) in [(1, 1), (2, 1), (2, 3), (64, 65_536)] {
        let plan = Plan::new(workers, cut).expect(rt, "a plan");
        run_with(
            rt, alloc, plan, &FreeGate, opening, &commands, wanted, after,
        )?;
        run_from_with(
            rt, alloc, plan, &FreeGate, opening, &commands, wanted, after,
        )?;
    }
    Ok(())
}

#[test]
fn commands_go_in_order(rt: HostRuntime) -> Result<(), Fail> {
    let replies = [Wanted::Values(&[]), Wanted::Values(&[Some(6)])];
    let texts = ["add a 1", "get a"];
    run(&rt, rt.alloc(), &[("a", 5)], &texts, &replies, &[("a", 6)])
}

#[test]
fn two_levels_of_four_commands(rt: HostRuntime) -> Result<(), Fail> {
    let texts = [
        "put a 1", "put b 2", "put c 3", "put d 4", "add a 10", "copy b e", "get c", "del d",
    ];
    let mut replies = [Wanted::Values(&[]); 8];
    replies[6] = Wanted::Values(&[Some(3)]);
    let after = [("a", 11), ("b", 2), ("c", 3), ("e", 2)];
    run(&rt, rt.alloc(), &[("d", 9)], &texts, &replies, &after)
}

const FOUR_PUTS: [&str; 4] = ["put a 1", "put b 2", "put c 3", "put d 4"];

/// Two workers apply the commands, while one command waits in the gate until all others were
/// entered.
fn apply_while_one_waits<R: Threads + RandomSource + Sync + Abort>(
    rt: &R,
    alloc: Global,
    commands: &[Command],
    waiter: usize,
) -> Result<(), Fail> {
    let plan = Plan::new(2, 1).ok_or("a plan")?;
    let gate = WaitingGate::new(waiter, 1111);
    let replies = [Wanted::Values(&[]); 4];
    let after = [("a", 1), ("b", 2), ("c", 3), ("d", 4)];
    run_with(rt, alloc, plan, &gate, &[], commands, &replies, &after)?;
    gate.expect_all_entered()
}

#[test]
fn workers_share_a_level(rt: HostRuntime) -> Result<(), Fail> {
    let mut lists = Vec::new(rt.alloc());
    for text in FOUR_PUTS {
        lists.push(operations(&rt, rt.alloc(), text)?)?;
    }
    let commands = commands(rt.alloc(), &lists)?;
    for waiter in 0..4 {
        apply_while_one_waits(&rt, rt.alloc(), &commands, waiter)?;
    }
    Ok(())
}

const FOUR_LONG_COMMANDS: [&str; 4] = [
    "put a 1, add a 2, get a, get a",
    "put b 1, add b 2, get b, get b",
    "put c 1, add c 2, get c, get c",
    "put d 1, add d 2, get d, get d",
];

#[test]
fn long_commands_go_level_by_level(rt: HostRuntime) -> Result<(), Fail> {
    let mut lists = Vec::new(rt.alloc());
    for text in FOUR_LONG_COMMANDS {
        lists.push(operations(&rt, rt.alloc(), text)?)?;
    }
    let commands = commands(rt.alloc(), &lists)?;
    let plan = Plan::new(2, 1).ok_or("a plan")?;
    let values = [Some(3), Some(3)];
    let replies = [Wanted::Values(&values); 4];
    let after = [("a", 3), ("b", 3), ("c", 3), ("d", 3)];
    for waiter in 0..4 {
        let gate = WaitingGate::new(waiter, 1111);
        run_from_with(
            &rt,
            rt.alloc(),
            plan,
            &gate,
            &[],
            &commands,
            &replies,
            &after,
        )?;
        gate.expect_all_entered()?;
    }
    Ok(())
}

/// Whether the commands have these levels, and the levels these members.
fn have_levels(
    alloc: Global,
    commands: &[Command],
    wanted: &[usize],
    members: &[&[usize]],
) -> Result<bool, Memory> {
    let map = levels(alloc, commands)?;
    let mut same = commands.len() == wanted.len() && map.count() == members.len();
    for (position, level) in wanted.iter().enumerate() {
        same = same && position < commands.len() && map.level_of(position) == *level;
    }
    for (level, positions) in members.iter().enumerate() {
        same = same && level < map.count() && map.members(level) == *positions;
    }
    Ok(same)
}

/// Parses the commands, and expects these levels with these members.
fn expect_levels(
    rt: &impl Abort,
    alloc: Global,
    texts: &[&str],
    wanted: &[usize],
    members: &[&[usize]],
) -> Result<(), Fail> {
    let mut lists = Vec::new(alloc);
    for text in texts {
        lists.push(operations(rt, alloc, text)?)?;
    }
    let commands = commands(alloc, &lists)?;
    assert!(rt; have_levels(alloc, &commands, wanted, members)?);
    Ok(())
}

#[test]
fn reads_follow_writes(rt: HostRuntime) -> Result<(), Fail> {
    let texts = ["put a 1", "put b 2", "get a", "put a 3"];
    let members: [&[usize]; 3] = [&[0, 1], &[2], &[3]];
    expect_levels(&rt, rt.alloc(), &texts, &[0, 0, 1, 2], &members)
}

#[test]
fn no_commands_have_no_levels(rt: HostRuntime) -> Result<(), Fail> {
    expect_levels(&rt, rt.alloc(), &[], &[], &[])
}
