//! The picture of a committed map.
ghost use Rattle.std.specs.Prelude.{◌≡◌, ◌<◌, length, map, slice_get, Contains, Some, IfOk};
ghost use Rattle.epx_types.specs.CommittedMap.{ids_of};
ghost use Rattle.epx_graph.specs.GraphOf.{IsGraphOf};
ghost use Rattle.epx_components.specs.between.NodeRanks.{IsNodeRank};
ghost use Rattle.epx_picture.specs.inner.Clusters.{AreLeaderMarks, AreNodeRanks};
ghost use Rattle.epx_picture.specs.declared.node_box.NodeBox.{NodeBox};
ghost use Rattle.epx_picture.specs.NodeBoxes.{IsBoxOf};
ghost use Rattle.epx_picture.specs.Pictures.{IsPicture};
ghost use Rattle.epx_picture.specs.PicturesAround.{IsPictureAround};

use crate::cluster::{cluster_of, mark_leaders};
use crate::marked::marked_items;
use crate::neighbourhood::nodes_within;
use crate::node_box::NodeBox;
use crate::picture_parts::write_picture;
use crate::picture_writer::write_marked;
use epx_committed::Merged;
use epx_components::{NodeRank, NodeRanks};
use epx_graph::Graph;
use epx_types::{Id, Memory, Plan};
use std::alloc::Global;
use std::thread::Threads;

/// The box of the instance at a position of the map. The node of the instance has the same number.
fn box_of_node(
    merged: &Merged,
    graph: &Graph,
    leader_marks: &[bool],
    position: usize,
    node_rank: NodeRank,
) -> NodeBox
    requires graph { IsGraphOf merged.now graph.now }
    requires position { position < length merged.now }
    requires node_rank { IsNodeRank graph.now position node_rank }
    requires leader_marks { (node_ranks : _) × AreNodeRanks graph.now node_ranks
        × AreLeaderMarks node_ranks (length graph.now.ids) leader_marks.now }
    ensures id { slice_get (ids_of merged.now) position ≡ Some result.id }
    ensures node_box { IsBoxOf merged.now result }
{
    let entry = merged.entry_at(position);
    NodeBox {
        id: entry.id(),
        seq: entry.seq(),
        depth: node_rank.depth,
        cluster: cluster_of(graph, leader_marks, position, node_rank),
        waits: node_rank.reaches_missing,
    }
}

/// The box of each committed instance.
fn all_boxes(alloc: Global, merged: &Merged, graph: &Graph) -> Result<Vec<NodeBox>, Memory>
    requires { IsGraphOf merged.now graph.now }
    ensures named { IfOk result
        (λ node_boxes. map (λ d. d.id) node_boxes.items ≡ ids_of merged.now) }
    ensures shown { IfOk result (λ node_boxes. (d : NodeBox) → Contains node_boxes.items d
        → IsBoxOf merged.now d) }
{
    let node_ranks = NodeRanks::of(alloc, graph)?;
    let leader_marks = mark_leaders(alloc, graph, &node_ranks)?;
    let mut node_boxes = Vec::with_capacity(alloc, merged.len())?;
    for position in 0..merged.len() {
        let node_rank = node_ranks.get(position);
        node_boxes.push(box_of_node(merged, graph, &leader_marks, position, node_rank))?;
    }
    Ok(node_boxes)
}

/// The picture of a map: its graph as a digraph in DOT, in UTF-8. `graph` has to be the graph of
/// the map.
///
/// The plan's workers write the text. The time is linear in the dependencies. The only error is out
/// of memory. Graphviz's `dot` draws all boxes of one cluster inside it.
pub fn picture<R: Threads + Sync>(
    rt: &R,
    alloc: Global,
    merged: &Merged,
    graph: &Graph,
    plan: Plan,
) -> Result<Vec<u8>, Memory>
    requires { IsGraphOf merged.now graph.now }
    ensures { IfOk result (λ text. IsPicture merged.now text.items) }
{
    let node_boxes = all_boxes(alloc, merged, graph)?;
    write_picture(rt, alloc, merged, &node_boxes, graph.missing(), plan)
}

/// The picture of what lies within some steps of an instance, in UTF-8. A step leads along a
/// dependency or against it. Boxes are as in the picture of the map: a cluster may have members
/// that are not shown. An instance that is neither committed nor missing has no boxes around it.
/// `graph` has to be the graph of the map.
///
/// The time is linear in the dependencies, whatever the number of steps is. Only instances with
/// dependencies that are not shown need look-ups, each in logarithmic time. The only error is out
/// of memory.
pub fn picture_around(
    alloc: Global,
    merged: &Merged,
    graph: &Graph,
    id: Id,
    steps: u64,
) -> Result<Vec<u8>, Memory>
    requires { IsGraphOf merged.now graph.now }
    ensures { IfOk result (λ text. IsPictureAround merged.now id steps text.items) }
{
    let marks = nodes_within(alloc, graph, id, steps)?;
    let (committed, missing) = marks.split_at(graph.committed_len());
    let node_boxes = marked_items(alloc, &all_boxes(alloc, merged, graph)?, committed)?;
    let missing_ids = marked_items(alloc, graph.missing(), missing)?;
    write_marked(alloc, merged, graph, &marks, &node_boxes, &missing_ids)
}
