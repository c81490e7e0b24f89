//! An index that answers exactly whether one instance of an order reaches another.
ghost use Rattle.std.specs.Prelude.{◌≡◌, ◌↔◌, ◌⊎◌, ℕ, List, Option, [], ◌++◌, ◌<◌, ◌≤◌, length};
ghost use Rattle.std.specs.Prelude.{replicate, slice_index, All, IfOk, IfSome, IsTrue, OnOk, Some};
ghost use Rattle.std.specs.Prelude.{None};
ghost use Rattle.epx_types.specs.ExecutionOrder.{IsExecutionOrder};
ghost use Rattle.epx_graph.specs.GraphOf.{IsGraphOf};
ghost use Rattle.epx_graph.specs.Graphs.{DependencyGraph, edges_of};
ghost use Rattle.epx_graph.specs.NodePaths.{NodeReaches};
ghost use Rattle.epx_audit.specs.inner.ReachIndexes.{AreOrderNodes, LeadersJoin};
ghost use Rattle.epx_audit.specs.inner.PathCovers.{AddsTo, AreCovered, AreJoined, AreNotedPaths};
ghost use Rattle.epx_audit.specs.inner.PathCovers.{ArePositions, IsEntryAt, IsMemberEntry};
ghost use Rattle.epx_audit.specs.inner.PathCovers.{IsNextComponent, IsPathCover, IsCoverRow};
ghost use Rattle.epx_audit.specs.inner.PathCovers.{IsTargetEntry, LeadBefore, greatest_on};
ghost use Rattle.epx_audit.specs.inner.PathCovers.{lists_of, path_at};
ghost use Rattle.epx_audit.specs.declared.path_cover.PathMember.{PathMember};

use epx_committed::Merged;
use epx_components::OrderList;
use epx_graph::Graph;
use epx_types::Memory;
use std::alloc::Global;

/// How many entries of rows are merged, for each node and each edge, before a cover is given up.
/// An order that a few paths cover has short rows. The rows of other orders can take quadratic
/// time and memory.
const ENTRIES_MERGED: usize = 16;

/// The components of an order, on paths. Along a path each component reaches all earlier ones.
///
/// Each component has a row: for each path on which it reaches something, the greatest position
/// that it reaches there. So it reaches exactly the positions up to that one.
#[derive(Debug)]
pub(crate) struct PathCover {
    /// What is known of each position.
    members: Vec<PathMember>,
    /// The rows, one after another: the path of each entry, by rising path in each row.
    row_paths: Vec<usize>,
    /// The position of each entry.
    row_positions: Vec<usize>,
}

impl Drop for PathCover {
    fn drop(self) {
        let PathCover {
            members: _,
            row_paths: _,
            row_positions: _,
        } = self;
    }
}

/// The component at a position, which all its members have in common.
#[derive(Clone, Copy, Debug)]
pub(crate) struct PathMember {
    /// The position of the first member.
    start: usize,
    /// The path of the component: the position at which that path begins.
    path: usize,
    /// The entries of the row begin here.
    row_start: usize,
    /// They end before here.
    row_end: usize,
}

impl PathCover {
    /// The cover of an order, if its rows are short enough. The time is linear in the nodes, the
    /// edges and the entries that are merged, which are limited, beside the sort of each row.
    pub(crate) fn of(
        alloc: Global,
        merged: &Merged,
        graph: &Graph,
        order: &OrderList,
        nodes: &[usize],
    ) -> Result<Option<PathCover>, Memory>
        requires graph { IsGraphOf merged.now graph.now }
        requires order { IsExecutionOrder merged.now order.now }
        requires nodes { AreOrderNodes merged.now order.now nodes.now }
        ensures { IfOk result (λ found. IfSome found (IsPathCover graph.now nodes.now)) }
    {
        let positions = positions_of(alloc, graph.len(), nodes)?;
        let mut cover = PathCover::new(alloc);
        let mut row = RowMerge::new(alloc, nodes.len(), entry_limit(graph))?;
        let mut tails = vec![in alloc; 0; nodes.len()]?;
        while cover.members.len() < nodes.len() {
            let end = component_end(order, cover.members.len());
            if !row.merge_members(&cover, graph, nodes, &positions, end)? {
                return Ok(None);
            }
            cover.push_component(end, &mut row, &mut tails)?;
        }
        Ok(Some(cover))
    }

    /// Whether the instance at one position reaches the one at another. Takes logarithmic time.
    pub(crate) fn reaches(&self, later: usize, earlier: usize) -> bool
        requires { (g : DependencyGraph) × (nodes : List ℕ) × IsPathCover g nodes self.now
            × (later < length nodes) × (earlier < length nodes) }
        ensures { (g : DependencyGraph) (nodes : List ℕ) → IsPathCover g nodes self.now
            → later < length nodes → earlier < length nodes → IsTrue result ↔
            NodeReaches (edges_of g) (slice_index nodes later) (slice_index nodes earlier) }
    {
        let (from, to) = (self.members[later], self.members[earlier]);
        let paths = &self.row_paths[from.row_start..from.row_end];
        match paths.binary_search(&to.path) {
            Ok(index) => self.row_positions[from.row_start + index] >= to.start,
            Err(_) => false,
        }
    }

    /// The number of the path of the component at a position: the position at which it begins.
    pub(crate) fn path_of(&self, position: usize) -> usize
        requires { (g : DependencyGraph) × (nodes : List ℕ) × IsPathCover g nodes self.now
            × (position < length nodes) }
        ensures path { result ≡ path_at self.now position }
        ensures number { result ≤ position }
        ensures reaches { (g : DependencyGraph) (nodes : List ℕ) → IsPathCover g nodes self.now
            → position < length nodes → (p : ℕ) → p ≤ position → path_at self.now p ≡ result
            → NodeReaches (edges_of g) (slice_index nodes position) (slice_index nodes p) }
    {
        self.members[position].path
    }

    /// How many paths there are. Takes linear time.
    pub(crate) fn count_paths(&self) -> usize {
        let mut count: usize = 0;
        for position in 0..self.members.len() {
            if self.members[position].path == position {
                count = count.saturating_add(1);
            }
        }
        count
    }

    /// A cover of no positions.
    fn new(alloc: Global) -> PathCover
        ensures members { (lists_of result).members ≡ [] }
        ensures row_paths { (lists_of result).row_paths ≡ [] }
        ensures row_positions { (lists_of result).row_positions ≡ [] }
    {
        PathCover {
            members: Vec::new(alloc),
            row_paths: Vec::new(alloc),
            row_positions: Vec::new(alloc),
        }
    }

    /// Adds the next component, whose row is merged but for the component itself.
    fn push_component(
        &mut self,
        end: usize,
        row: &mut RowMerge,
        tails: &mut [usize],
    ) -> Result<(), Memory>
        requires end { length self.old.members.items < end }
        requires tails { length tails.old ≡ length row.old.greatest.items }
        requires room { length self.old.members.items < length tails.old }
        requires entries { length self.old.row_positions.items ≡ length self.old.row_paths.items }
        requires paths { AreNotedPaths row.old.greatest.items row.old.paths.items }
        ensures next { OnOk result ((member : PathMember) × (noted : List (Option ℕ))
            × IsNextComponent (lists_of self.old) (lists_of self.new) end row.old.greatest.items
            tails.old tails.new member noted) }
        ensures tails { length tails.new ≡ length tails.old }
        ensures len { OnOk result
            (length row.new.greatest.items ≡ length row.old.greatest.items) }
        ensures none { OnOk result
            ((path : ℕ) → greatest_on row.new.greatest.items path ≡ None) }
        ensures paths { OnOk result (row.new.paths.items ≡ []) }
    {
        let start = self.members.len();
        let path = row.path_on(tails, start);
        row.note(path, start)?;
        tails[path] = start;
        row.paths.sort_unstable();
        let row_start = self.row_paths.len();
        row.push_row(&mut self.row_paths, &mut self.row_positions)?;
        let member = PathMember {
            start,
            path,
            row_start,
            row_end: self.row_paths.len(),
        };
        push_copies(&mut self.members, member, end - start)?;
        row.clear();
        Ok(())
    }
}

/// The row of a component while it is merged.
#[derive(Debug, Drop)]
struct RowMerge {
    /// For each path, the greatest position that is noted so far.
    greatest: Vec<Option<usize>>,
    /// The paths for which a position is noted.
    paths: Vec<usize>,
    /// How many entries may still be merged, for all components together.
    left: usize,
}

impl RowMerge {
    /// An empty row of a cover with this many positions.
    fn new(alloc: Global, len: usize, limit: usize) -> Result<RowMerge, Memory>
        ensures len { IfOk result (λ row. length row.greatest.items ≡ len) }
        ensures none { IfOk result
            (λ row. (path : ℕ) → greatest_on row.greatest.items path ≡ None) }
        ensures paths { IfOk result (λ row. row.paths.items ≡ []) }
    {
        Ok(RowMerge {
            greatest: vec![in alloc; None; len]?,
            paths: Vec::new(alloc),
            left: limit,
        })
    }

    /// Notes a position on a path.
    fn note(&mut self, path: usize, position: usize) -> Result<(), Memory>
        requires path { path < length self.old.greatest.items }
        requires paths { AreNotedPaths self.old.greatest.items self.old.paths.items }
        ensures adds { OnOk result (AddsTo self.old.greatest.items self.new.greatest.items
            (λ x e. (x ≡ path) × (e ≡ position))) }
        ensures paths { OnOk result
            (AreNotedPaths self.new.greatest.items self.new.paths.items) }
    {
        if let Some(greatest) = self.greatest[path] {
            self.greatest[path] = Some(greatest.max(position));
            return Ok(());
        }
        self.paths.push(path)?;
        self.greatest[path] = Some(position);
        Ok(())
    }

    /// Notes what the row at a position has, or nothing if the position is in the component itself.
    /// Returns false if too many entries are merged.
    fn merge_row(&mut self, cover: &PathCover, position: usize) -> Result<bool, Memory>
        requires covered { (edges : ℕ → List ℕ) × (nodes : List ℕ)
            × AreCovered edges nodes (lists_of cover.now) }
        requires len { length cover.now.members.items ≤ length self.old.greatest.items }
        requires paths { AreNotedPaths self.old.greatest.items self.old.paths.items }
        ensures adds { IfOk result (λ merged. IsTrue merged →
            AddsTo self.old.greatest.items self.new.greatest.items
            (IsEntryAt (lists_of cover.now) position)) }
        ensures paths { OnOk result
            (AreNotedPaths self.new.greatest.items self.new.paths.items) }
    {
        if position >= cover.members.len() {
            return Ok(true);
        }
        let member = cover.members[position];
        let len = member.row_end - member.row_start;
        if len > self.left {
            return Ok(false);
        }
        self.left -= len;
        for entry in member.row_start..member.row_end {
            self.note(cover.row_paths[entry], cover.row_positions[entry])?;
        }
        Ok(true)
    }

    /// Notes what the components reach that the edges of a node lead to, but for its own component,
    /// which ends before `end`. Returns false if too many entries are merged. It does so too if an
    /// edge leads to no position before `end`, which happens in no execution order.
    fn merge_targets(
        &mut self,
        cover: &PathCover,
        targets: &[usize],
        positions: &[usize],
        end: usize,
    ) -> Result<bool, Memory>
        requires targets { All (λ k. k < length positions.now) targets.now }
        requires covered { (edges : ℕ → List ℕ) × (nodes : List ℕ)
            × AreCovered edges nodes (lists_of cover.now) }
        requires len { length cover.now.members.items ≤ length self.old.greatest.items }
        requires paths { AreNotedPaths self.old.greatest.items self.old.paths.items }
        ensures before { IfOk result (λ merged. IsTrue merged → (i : ℕ) → i < length targets.now
            → slice_index positions.now (slice_index targets.now i) < end) }
        ensures adds { IfOk result (λ merged. IsTrue merged →
            AddsTo self.old.greatest.items self.new.greatest.items
            (IsTargetEntry (lists_of cover.now) positions.now targets.now
            (length targets.now))) }
        ensures paths { OnOk result
            (AreNotedPaths self.new.greatest.items self.new.paths.items) }
    {
        for target in targets {
            let position = positions[*target];
            if position >= end || !self.merge_row(cover, position)? {
                return Ok(false);
            }
        }
        Ok(true)
    }

    /// Notes what the components reach that the next component's edges lead to. Returns false as
    /// `merge_targets` does.
    fn merge_members(
        &mut self,
        cover: &PathCover,
        graph: &Graph,
        nodes: &[usize],
        positions: &[usize],
        end: usize,
    ) -> Result<bool, Memory>
        requires start { length cover.now.members.items ≤ end }
        requires end { end ≤ length nodes.now }
        requires nodes { All (λ k. k < length graph.now.ids) nodes.now }
        requires positions { length positions.now ≡ length graph.now.ids }
        requires covered { (edges : ℕ → List ℕ) × (nodes : List ℕ)
            × AreCovered edges nodes (lists_of cover.now) }
        requires len { length cover.now.members.items ≤ length self.old.greatest.items }
        requires paths { AreNotedPaths self.old.greatest.items self.old.paths.items }
        ensures before { IfOk result (λ merged. IsTrue merged → LeadBefore (edges_of graph.now)
            nodes.now (lists_of cover.now) positions.now end end) }
        ensures adds { IfOk result (λ merged. IsTrue merged →
            AddsTo self.old.greatest.items self.new.greatest.items
            (IsMemberEntry (edges_of graph.now) nodes.now (lists_of cover.now) positions.now
            end)) }
        ensures paths { OnOk result
            (AreNotedPaths self.new.greatest.items self.new.paths.items) }
    {
        for position in cover.members.len()..end {
            let targets = graph.edges(nodes[position]);
            if !self.merge_targets(cover, targets, positions, end)? {
                return Ok(false);
            }
        }
        Ok(true)
    }

    /// The path for a component: one whose last position it reaches, the latest of these, or else
    /// one that begins at `start`.
    fn path_on(&self, tails: &[usize], start: usize) -> usize
        requires len { length tails.now ≡ length self.now.greatest.items }
        requires paths { AreNotedPaths self.now.greatest.items self.now.paths.items }
        ensures { (result ≡ start)
            ⊎ (greatest_on self.now.greatest.items result ≡ Some (slice_index tails.now result)) }
    {
        let mut path = start;
        let mut tail = 0;
        for candidate in &self.paths {
            let last = tails[*candidate];
            if tail <= last && self.ends_at(*candidate, last) {
                path = *candidate;
                tail = last;
            }
        }
        path
    }

    /// Whether this is the greatest position that is noted on a path.
    fn ends_at(&self, path: usize, position: usize) -> bool
        requires path { path < length self.now.greatest.items }
        ensures { IsTrue result → greatest_on self.now.greatest.items path ≡ Some position }
    {
        match self.greatest[path] {
            Some(greatest) => greatest == position,
            None => false,
        }
    }

    /// Appends the row, in the order of its paths.
    fn push_row(
        &self,
        row_paths: &mut Vec<usize>,
        row_positions: &mut Vec<usize>,
    ) -> Result<(), Memory>
        requires paths { AreNotedPaths self.now.greatest.items self.now.paths.items }
        ensures paths { OnOk result
            (row_paths.new.items ≡ row_paths.old.items ++ self.now.paths.items) }
        ensures positions { OnOk result ((added : List ℕ)
            × IsCoverRow self.now.greatest.items self.now.paths.items added
            × (row_positions.new.items ≡ row_positions.old.items ++ added)) }
    {
        for path in &self.paths {
            match self.greatest[*path] {
                Some(position) => row_positions.push(position)?,
                None => unreachable!(),
            }
            row_paths.push(*path)?;
        }
        Ok(())
    }

    /// Empties the row.
    fn clear(&mut self)
        requires paths { AreNotedPaths self.old.greatest.items self.old.paths.items }
        ensures len { length self.new.greatest.items ≡ length self.old.greatest.items }
        ensures none { (path : ℕ) → greatest_on self.new.greatest.items path ≡ None }
        ensures paths { self.new.paths.items ≡ [] }
    {
        for index in 0..self.paths.len() {
            let path = self.paths[index];
            self.greatest[path] = None;
        }
        self.paths.clear();
    }
}

/// Appends a member some number of times.
fn push_copies(
    members: &mut Vec<PathMember>,
    member: PathMember,
    count: usize,
) -> Result<(), Memory>
    ensures { OnOk result
        (members.new.items ≡ members.old.items ++ replicate count member) }
{
    for _copy in 0..count {
        members.push(member)?;
    }
    Ok(())
}

/// How many entries may be merged for a graph.
fn entry_limit(graph: &Graph) -> usize {
    let mut count = graph.len();
    for node in 0..graph.len() {
        count = count.saturating_add(graph.edges(node).len());
    }
    count.saturating_mul(ENTRIES_MERGED)
}

/// The position of each node, or the number of positions if the order does not have the node.
fn positions_of(alloc: Global, count: usize, nodes: &[usize]) -> Result<Vec<usize>, Memory>
    requires nodes { All (λ k. k < count) nodes.now }
    ensures len { IfOk result (λ positions. length positions.items ≡ count) }
    ensures positions { IfOk result (λ positions. ArePositions nodes.now positions.items) }
{
    let mut positions = vec![in alloc; nodes.len(); count]?;
    for position in 0..nodes.len() {
        positions[nodes[position]] = position;
    }
    Ok(positions)
}

/// Where the component ends that starts at a position.
fn component_end(order: &OrderList, start: usize) -> usize
    requires start { start < length order.now }
    ensures after { start < result }
    ensures within { result ≤ length order.now }
    ensures joined { (edges : ℕ → List ℕ) (nodes : List ℕ) → LeadersJoin edges order.now nodes
        → AreJoined edges nodes start result }
{
    let len = order.len();
    let leader = order.component_of(start);
    for position in start + 1..len {
        if order.component_of(position) != leader {
            return position;
        }
    }
    len
}
