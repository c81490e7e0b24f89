//! Executes commands level by level. The commands of one level do not conflict. Each is evaluated
//! over the store before the level, which is only read. Then the writes of all of them are merged
//! into the store.
ghost use Rattle.std.specs.Prelude.{◌≡◌, ◌<◌, ◌≤◌, ◌^◌, ◌++◌, ◌∷◌, [], length, map};
ghost use Rattle.std.specs.Prelude.{slice_set, All, IfOk, IfSome, OnOk, OnErr};
ghost use Rattle.epx_types.specs.Commands.{command_on};
ghost use Rattle.epx_types.specs.Conflicts.{NoneConflict};
ghost use Rattle.epx_types.specs.Execution.{execute};
ghost use Rattle.epx_types.specs.Levels.{AreLevels};
ghost use Rattle.epx_types.specs.Pieces.{piece_count};
ghost use Rattle.epx_types.specs.Rearrangements.{commands_at};
ghost use Rattle.epx_apply.specs.inner.Effects.{op_lists_of, effect_over, effects_over};
ghost use Rattle.epx_apply.specs.inner.Effects.{replies_in, put_replies};
ghost use Rattle.epx_claims.specs.inner.PieceItems.{items_of_piece};

use crate::level_map::{LevelMap, levels_below};
use crate::one_by_one::run_one_by_one;
use epx_claims::{Gate, append_parts, claimed_map};
use epx_seed::Seed;
use epx_txn::{Effect, Store, apply, eval, merge_effects};
use epx_types::{Command, Memory, Op, Plan, Reply};
use std::alloc::Global;
use std::mem::replace;
use std::random::RandomSource;
use std::thread::Threads;

/// Appends the effect of one command over a borrowed store.
fn add_effect(
    alloc: Global,
    store: &Store,
    ops: &[Op],
    effects: &mut Vec<Effect>,
) -> Result<(), Memory>
    ensures { OnOk result
        (effects.new.items ≡ effects.old.items ++ effect_over store.now ops.now ∷ []) }
{
    let effect = eval(alloc, store, ops)?;
    effects.push(effect)?;
    Ok(())
}

/// Returns the effects of the commands at these positions, each over the same borrowed store.
fn evaluate(
    alloc: Global,
    store: &Store,
    commands: &[Command],
    positions: &[usize],
) -> Result<Vec<Effect>, Memory>
    requires { All (λ i. i < length commands.now) positions.now }
    ensures { IfOk result
        (λ v. v.items
        ≡ effects_over store.now (commands_at (op_lists_of commands.now) positions.now)) }
{
    let mut effects = Vec::with_capacity(alloc, positions.len())?;
    for position in positions {
        add_effect(alloc, store, commands[*position].ops, &mut effects)?;
    }
    Ok(effects)
}

/// Returns the effects of the commands at the positions of one piece, each over the same borrowed
/// store. The plan cuts the positions into pieces.
fn evaluate_piece(
    alloc: Global,
    store: &Store,
    commands: &[Command],
    positions: &[usize],
    plan: Plan,
    piece: usize,
) -> Result<Vec<Effect>, Memory>
    requires piece { piece < piece_count plan.cut (length positions.now) }
    requires within { All (λ i. i < length commands.now) positions.now }
    ensures { IfOk result (λ v. v.items ≡ effects_over store.now
        (commands_at (op_lists_of commands.now) (items_of_piece plan.cut positions.now piece))) }
{
    let (start, end) = plan.range(piece, positions.len());
    evaluate(alloc, store, commands, &positions[start..end])
}

/// Returns the effects of the commands at these positions, each over the same borrowed store. The
/// plan's workers evaluate them piece by piece.
fn evaluate_all<R: Threads + Sync, G: Gate + Sync>(
    rt: &R,
    alloc: Global,
    store: &Store,
    commands: &[Command],
    positions: &[usize],
    plan: Plan,
    gate: &G,
) -> Result<Vec<Effect>, Memory>
    requires few { length positions.now ≤ 2 ^ 40 }
    requires within { All (λ i. i < length commands.now) positions.now }
    ensures { IfOk result
        (λ v. v.items
        ≡ effects_over store.now (commands_at (op_lists_of commands.now) positions.now)) }
{
    let pieces = plan.pieces(positions.len());
    let parts = claimed_map(rt, alloc, pieces, plan, gate, |piece| {
        evaluate_piece(alloc, store, commands, positions, plan, piece)
    })?;
    let mut effects = Vec::with_capacity(alloc, positions.len())?;
    append_parts(&mut effects, parts)?;
    Ok(effects)
}

/// Puts the reply of an effect at the position of its command.
fn put_reply(replies: &mut Vec<Reply>, position: usize, effect: Effect)
    requires { position < length replies.old.items }
    ensures { replies.new.items ≡ slice_set replies.old.items position effect.reply }
{
    let Effect { reply, writes: _ } = effect;
    replies[position] = reply;
}

/// Puts the reply of each effect at the position of its command.
fn put_all_replies(replies: &mut Vec<Reply>, positions: &[usize], effects: Vec<Effect>)
    requires len { length effects.items ≡ length positions.now }
    requires within { All (λ i. i < length replies.old.items) positions.now }
    ensures { replies.new.items ≡
        put_replies positions.now (replies_in effects.items) replies.old.items }
{
    for (position, effect) in positions.iter().zip(effects) {
        put_reply(replies, *position, effect);
    }
}

/// The state after the commands so far: the store, and the reply of each command at its position.
/// The replies at other positions are placeholders.
#[derive(Drop)]
struct RunState {
    store: Store,
    replies: Vec<Reply>,
}

impl RunState {
    /// Returns the state before the first of so many commands: all replies are placeholders.
    fn new(alloc: Global, store: Store, commands: usize) -> Result<RunState, Memory>
        ensures store { IfOk result (λ w. w.store ≡ store) }
        ensures replies { IfOk result (λ w. length w.replies.items ≡ commands) }
    {
        let mut replies = Vec::with_capacity(alloc, commands)?;
        for _ in 0..commands {
            replies.push(Reply::Abort(0))?;
        }
        Ok(RunState { store, replies })
    }

    /// Runs one command.
    fn run_one(&mut self, alloc: Global, ops: &[Op], position: usize) -> Result<(), Memory>
        requires { position < length self.old.replies.items }
        ensures store { OnOk result (self.new.store ≡ (command_on ops.now self.old.store).after) }
        ensures replies { OnOk result (self.new.replies.items ≡
            slice_set self.old.replies.items position (command_on ops.now self.old.store).reply) }
    {
        let reply = apply(alloc, &mut self.store, ops)?;
        self.replies[position] = reply;
        Ok(())
    }

    /// Runs the commands at these positions one after another.
    fn run_serially(
        &mut self,
        alloc: Global,
        commands: &[Command],
        positions: &[usize],
    ) -> Result<(), Memory>
        requires within { All (λ i. i < length commands.now) positions.now }
        requires replies { length self.old.replies.items ≡ length commands.now }
        ensures store { OnOk result (self.new.store ≡
            (execute (commands_at (op_lists_of commands.now) positions.now) self.old.store).final) }
        ensures replies { OnOk result (self.new.replies.items ≡ put_replies positions.now
            (execute (commands_at (op_lists_of commands.now) positions.now) self.old.store).replies
            self.old.replies.items) }
    {
        for position in positions {
            self.run_one(alloc, commands[*position].ops, *position)?;
        }
        Ok(())
    }

    /// Runs the commands at these positions in parallel. They must not conflict. After `Memory`
    /// the store may have changed.
    fn run_in_parallel<R: Threads + Sync, G: Gate + Sync>(
        &mut self,
        rt: &R,
        alloc: Global,
        commands: &[Command],
        positions: &[usize],
        plan: Plan,
        gate: &G,
    ) -> Result<(), Memory>
        requires few { length positions.now ≤ 2 ^ 40 }
        requires within { All (λ i. i < length commands.now) positions.now }
        requires apart { NoneConflict (commands_at (op_lists_of commands.now) positions.now) }
        requires replies { length self.old.replies.items ≡ length commands.now }
        ensures store { OnOk result (self.new.store ≡
            (execute (commands_at (op_lists_of commands.now) positions.now) self.old.store).final) }
        ensures replies { OnOk result (self.new.replies.items ≡ put_replies positions.now
            (execute (commands_at (op_lists_of commands.now) positions.now) self.old.store).replies
            self.old.replies.items) }
    {
        let effects = evaluate_all(rt, alloc, &self.store, commands, positions, plan, gate)?;
        let before = replace(&mut self.store, Store::new(alloc));
        self.store = merge_effects(rt, alloc, before, &effects)?;
        put_all_replies(&mut self.replies, positions, effects);
        Ok(())
    }

    /// Runs the commands of one level, which do not conflict. If they are one piece, they run in
    /// this thread.
    fn run_level<R: Threads + Sync, G: Gate + Sync>(
        &mut self,
        rt: &R,
        alloc: Global,
        commands: &[Command],
        members: &[usize],
        plan: Plan,
        gate: &G,
    ) -> Result<(), Memory>
        requires few { length members.now ≤ 2 ^ 40 }
        requires within { All (λ i. i < length commands.now) members.now }
        requires apart { NoneConflict (commands_at (op_lists_of commands.now) members.now) }
        requires replies { length self.old.replies.items ≡ length commands.now }
        ensures store { OnOk result (self.new.store ≡
            (execute (commands_at (op_lists_of commands.now) members.now) self.old.store).final) }
        ensures replies { OnOk result (self.new.replies.items ≡ put_replies members.now
            (execute (commands_at (op_lists_of commands.now) members.now) self.old.store).replies
            self.old.replies.items) }
    {
        if plan.pieces(members.len()) <= 1 {
            self.run_serially(alloc, commands, members)
        } else {
            self.run_in_parallel(rt, alloc, commands, members, plan, gate)
        }
    }
}

/// Returns the greatest number of levels for which threads are worth starting. With that many, a
/// level has two pieces for each worker on average.
fn max_levels(commands: usize, plan: Plan) -> usize {
    plan.pieces(commands) / 2 / plan.workers()
}

/// Returns the levels of all commands, if they are below a bound. Computes first the levels of the
/// last eighth alone. In an execution order the deepest instances come last, so this eighth
/// usually shows already that there are too many levels.
fn levels_if_few(
    alloc: Global,
    commands: &[Command],
    bound: usize,
    seed: Seed,
) -> Result<Option<LevelMap>, Memory>
    ensures { IfOk result (λ found. IfSome found (AreLevels (op_lists_of commands.now))) }
{
    let last = &commands[commands.len() - commands.len() / 8..];
    if levels_below(alloc, last, bound, seed)?.is_none() {
        return Ok(None);
    }
    levels_below(alloc, commands, bound, seed)
}

/// Runs all commands level by level. If the levels are many and small, runs the commands one after
/// another in their order in memory.
fn run_levels<R: Threads + RandomSource + Sync, G: Gate + Sync>(
    rt: &R,
    alloc: Global,
    store: Store,
    commands: &[Command],
    plan: Plan,
    gate: &G,
) -> Result<(Store, Vec<Reply>), Memory>
    requires { length commands.now ≤ 2 ^ 40 }
    ensures store { IfOk result (λ v. v.0 ≡ (execute (op_lists_of commands.now) store).final) }
    ensures replies { IfOk result
        (λ v. v.1.items ≡ (execute (op_lists_of commands.now) store).replies) }
{
    let bound = max_levels(commands.len(), plan);
    let found = levels_if_few(alloc, commands, bound, Seed::draw(rt))?;
    let Some(level_map) = found else {
        return run_one_by_one(alloc, store, commands);
    };
    let mut work = RunState::new(alloc, store, commands.len())?;
    for level in 0..level_map.count() {
        work.run_level(rt, alloc, commands, level_map.members(level), plan, gate)?;
    }
    let RunState { store, replies } = work;
    Ok((store, replies))
}

/// Commands with at least this many operations on average are long: to find their levels takes less
/// time than to execute them.
const MIN_LONG: usize = 4;

/// Whether the commands have at least `MIN_LONG` operations on average.
fn are_long(commands: &[Command]) -> bool {
    let mut ops = 0usize;
    for command in commands {
        ops = ops.saturating_add(command.ops.len());
    }
    ops / MIN_LONG >= commands.len()
}

/// Executes the commands as `run_order` does, on a store that is given away, so nothing is copied.
/// Levels are found only where the commands are long, since meanwhile the caller's other threads
/// may have work to do. Returns the store after the commands, and their replies.
pub fn run_from<R: Threads + RandomSource + Sync, G: Gate + Sync>(
    rt: &R,
    alloc: Global,
    store: Store,
    commands: &[Command],
    plan: Plan,
    gate: &G,
) -> Result<(Store, Vec<Reply>), Memory>
    requires { length commands.now ≤ 2 ^ 40 }
    ensures store { IfOk result
        (λ v. v.0 ≡ (execute (map (λ c. c.ops.now) commands.now) store).final) }
    ensures replies { IfOk result
        (λ v. v.1.items ≡ (execute (map (λ c. c.ops.now) commands.now) store).replies) }
{
    if plan.workers() > 1 && are_long(commands) {
        run_levels(rt, alloc, store, commands, plan, gate)
    } else {
        run_one_by_one(alloc, store, commands)
    }
}

/// Executes the commands in order. Returns their replies and changes the store as a single thread
/// would that executes them one after another. The plan, the gate and the random seed change no
/// result, memory aside. The commands run on a copy of the store, which replaces the store at the
/// end, so after an error the store is unchanged. One worker needs no levels.
pub fn run_order<R: Threads + RandomSource + Sync, G: Gate + Sync>(
    rt: &R,
    alloc: Global,
    store: &mut Store,
    commands: &[Command],
    plan: Plan,
    gate: &G,
) -> Result<Vec<Reply>, Memory>
    requires { length commands.now ≤ 2 ^ 40 }
    ensures replies { IfOk result
        (λ v. v.items ≡ (execute (map (λ c. c.ops.now) commands.now) store.old).replies) }
    ensures after { OnOk result
        (store.new ≡ (execute (map (λ c. c.ops.now) commands.now) store.old).final) }
    ensures err { OnErr result (store.new ≡ store.old) }
{
    let opening = store.copy()?;
    let (last, replies) = if plan.workers() == 1 {
        run_one_by_one(alloc, opening, commands)?
    } else {
        run_levels(rt, alloc, opening, commands, plan, gate)?
    };
    *store = last;
    Ok(replies)
}
