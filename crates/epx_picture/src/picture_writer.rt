//! The text of pictures.
ghost use Rattle.std.specs.Prelude.{◌≡◌, ◌<◌, ◌++◌, Bool, length, map, flat_map, All, Contains};
ghost use Rattle.std.specs.Prelude.{◌≤◌, OnOk, IfOk, IsTrue, Some, slice_get, slice_range};
ghost use Rattle.std.specs.Prelude.{string_bytes};
ghost use Rattle.epx_types.specs.declared.id.Id.{Id};
ghost use Rattle.epx_types.specs.Instances.{Instance};
ghost use Rattle.epx_graph.specs.GraphOf.{IsGraphOf};
ghost use Rattle.epx_picture.specs.PictureText.{arrow_line, arrow_lines, box_line, head_text};
ghost use Rattle.epx_picture.specs.PictureText.{missing_box_line};
ghost use Rattle.epx_picture.specs.PictureText.{picture_text};
ghost use Rattle.epx_picture.specs.PicturesAround.{part_near, with_deps_near};
ghost use Rattle.epx_picture.specs.inner.NodeMarks.{HasMark};

use crate::node_box::NodeBox;
use epx_committed::Merged;
use epx_graph::Graph;
use epx_types::{Entry, Id, Memory};
use std::alloc::{AllocError, Global};

/// Writes the line of a committed instance: its box, in a cluster if it has one.
fn write_box(text: &mut String, node_box: NodeBox) -> Result<(), AllocError>
    ensures { OnOk result (string_bytes text.new ≡ string_bytes text.old ++ box_line node_box) }
{
    match node_box.cluster {
        Some(leader) => write!(text, "  subgraph \"cluster {leader}\" {{ {node_box} }}\n"),
        None => write!(text, "  {node_box}\n"),
    }
}

/// Writes the line of a missing instance: a dotted box.
fn write_missing(text: &mut String, id: Id) -> Result<(), AllocError>
    ensures { OnOk result (string_bytes text.new ≡ string_bytes text.old ++ missing_box_line id) }
{
    write!(text, "  \"{id}\" [style=dotted];\n")
}

/// Writes the arrow from an instance to one of its dependencies.
fn write_arrow(text: &mut String, id: Id, dependency: Id) -> Result<(), AllocError>
    ensures { OnOk result (string_bytes text.new
        ≡ string_bytes text.old ++ arrow_line id dependency) }
{
    write!(text, "  \"{id}\" -> \"{dependency}\";\n")
}

/// Writes the arrows from an instance to all of its dependencies.
fn write_arrows(text: &mut String, entry: &Entry) -> Result<(), AllocError>
    ensures { OnOk result (string_bytes text.new ≡ string_bytes text.old ++ arrow_lines entry.now) }
{
    let id = entry.id();
    for dependency in entry.deps() {
        write_arrow(text, id, *dependency)?;
    }
    Ok(())
}

/// Writes the lines of committed instances.
pub(crate) fn write_boxes(text: &mut String, node_boxes: &[NodeBox]) -> Result<(), AllocError>
    ensures { OnOk result (string_bytes text.new
        ≡ string_bytes text.old ++ flat_map box_line node_boxes.now) }
{
    for one in node_boxes {
        write_box(text, *one)?;
    }
    Ok(())
}

/// Writes the lines of missing instances.
pub(crate) fn write_all_missing(text: &mut String, missing: &[Id]) -> Result<(), AllocError>
    ensures { OnOk result (string_bytes text.new
        ≡ string_bytes text.old ++ flat_map missing_box_line missing.now) }
{
    for id in missing {
        write_missing(text, *id)?;
    }
    Ok(())
}

/// Writes the arrows from the instances of some positions to their dependencies.
pub(crate) fn write_arrows_of(
    text: &mut String,
    merged: &Merged,
    start: usize,
    end: usize,
) -> Result<(), AllocError>
    requires start { start ≤ end }
    requires end { end ≤ length merged.now }
    ensures { OnOk result (string_bytes text.new
        ≡ string_bytes text.old ++ flat_map arrow_lines (slice_range merged.now start end)) }
{
    for position in start..end {
        write_arrows(text, merged.entry_at(position))?;
    }
    Ok(())
}

/// Whether an instance that has a node is marked. Takes logarithmic time.
fn is_marked(graph: &Graph, marks: &[bool], id: Id) -> bool
    requires { length marks.now ≡ length graph.now.ids }
    ensures { (near : Id → Bool) → marks.now ≡ map near graph.now.ids → Contains graph.now.ids id
        → result ≡ near id }
{
    match graph.node(id) {
        Some(node) => marks[node],
        None => false,
    }
}

/// Whether all of some nodes are marked.
fn are_marked(nodes: &[usize], marks: &[bool]) -> bool
    requires { All (λ k. k < length marks.now) nodes.now }
    ensures { IsTrue result → All (HasMark marks.now) nodes.now }
{
    for node in nodes {
        if !marks[*node] {
            return false;
        }
    }
    true
}

/// Writes the arrows to dependencies that are marked. Looks each of them up.
fn write_marked_arrows(
    text: &mut String,
    graph: &Graph,
    marks: &[bool],
    entry: &Entry,
) -> Result<(), AllocError>
    requires marks { length marks.now ≡ length graph.now.ids }
    requires deps { All (Contains graph.now.ids) entry.now.deps }
    ensures { OnOk result ((near : Id → Bool) → marks.now ≡ map near graph.now.ids
        → string_bytes text.new
        ≡ string_bytes text.old ++ arrow_lines (with_deps_near near entry.now)) }
{
    let id = entry.id();
    for dependency in entry.deps() {
        if is_marked(graph, marks, *dependency) {
            write_arrow(text, id, *dependency)?;
        }
    }
    Ok(())
}

/// Writes the arrows from the instance at a position to dependencies that are marked.
fn write_arrows_from(
    text: &mut String,
    merged: &Merged,
    graph: &Graph,
    marks: &[bool],
    position: usize,
) -> Result<(), AllocError>
    requires graph { IsGraphOf merged.now graph.now }
    requires marks { length marks.now ≡ length graph.now.ids }
    requires position { position < length merged.now }
    ensures { OnOk result ((near : Id → Bool) (e : Instance) → marks.now ≡ map near graph.now.ids
        → slice_get merged.now position ≡ Some e → string_bytes text.new
        ≡ string_bytes text.old ++ arrow_lines (with_deps_near near e)) }
{
    let entry = merged.entry_at(position);
    // Only the last step leads to instances with other dependencies than marked ones.
    if are_marked(graph.edges(position), marks) {
        return write_arrows(text, entry);
    }
    write_marked_arrows(text, graph, marks, entry)
}

/// Writes the arrows between instances that are marked.
fn write_arrows_between(
    text: &mut String,
    merged: &Merged,
    graph: &Graph,
    marks: &[bool],
) -> Result<(), AllocError>
    requires graph { IsGraphOf merged.now graph.now }
    requires marks { length marks.now ≡ length graph.now.ids }
    ensures { OnOk result ((near : Id → Bool) → marks.now ≡ map near graph.now.ids
        → string_bytes text.new
        ≡ string_bytes text.old ++ flat_map arrow_lines (part_near near merged.now)) }
{
    for position in 0..merged.len() {
        if marks[position] {
            write_arrows_from(text, merged, graph, marks, position)?;
        }
    }
    Ok(())
}

/// The first lines of every picture.
pub(crate) fn head(alloc: Global) -> Result<String, AllocError>
    ensures { IfOk result (λ text. string_bytes text ≡ head_text) }
{
    String::from_str(alloc, "digraph dependencies {\n  node [shape=box];\n")
}

/// The text of a picture up to its arrows.
fn write_nodes(alloc: Global, node_boxes: &[NodeBox], missing: &[Id]) -> Result<String, AllocError>
    ensures { IfOk result (λ text. string_bytes text ≡ (head_text
        ++ flat_map box_line node_boxes.now) ++ flat_map missing_box_line missing.now) }
{
    let mut text = head(alloc)?;
    write_boxes(&mut text, node_boxes)?;
    write_all_missing(&mut text, missing)?;
    Ok(text)
}

/// The text of a picture, which this thread writes.
pub(crate) fn write_alone(
    alloc: Global,
    merged: &Merged,
    node_boxes: &[NodeBox],
    missing: &[Id],
) -> Result<Vec<u8>, Memory>
    ensures { IfOk result
        (λ text. text.items ≡ picture_text merged.now node_boxes.now missing.now) }
{
    let mut text = write_nodes(alloc, node_boxes, missing)?;
    write_arrows_of(&mut text, merged, 0, merged.len())?;
    text.push_str("}\n")?;
    Ok(text.into_bytes())
}

/// The text of the picture of the instances that are marked.
pub(crate) fn write_marked(
    alloc: Global,
    merged: &Merged,
    graph: &Graph,
    marks: &[bool],
    node_boxes: &[NodeBox],
    missing: &[Id],
) -> Result<Vec<u8>, Memory>
    requires graph { IsGraphOf merged.now graph.now }
    requires marks { length marks.now ≡ length graph.now.ids }
    ensures { IfOk result (λ text. (near : Id → Bool) → marks.now ≡ map near graph.now.ids
        → text.items ≡ picture_text (part_near near merged.now) node_boxes.now missing.now) }
{
    let mut text = write_nodes(alloc, node_boxes, missing)?;
    write_arrows_between(&mut text, merged, graph, marks)?;
    text.push_str("}\n")?;
    Ok(text.into_bytes())
}
