//! Writes pictures with several threads.
ghost use Rattle.std.specs.Prelude.{◌≡◌, ◌<◌, ◌≤◌, ◌^◌, length, flat_map, IfOk};
ghost use Rattle.epx_types.specs.Pieces.{piece_count};
ghost use Rattle.epx_claims.specs.inner.PieceItems.{items_of_piece};
ghost use Rattle.epx_picture.specs.PictureText.{arrow_lines, box_line, missing_box_line};
ghost use Rattle.epx_picture.specs.PictureText.{picture_text};

use crate::node_box::NodeBox;
use crate::picture_writer::{head, write_all_missing, write_alone, write_arrows_of, write_boxes};
use epx_claims::{FreeGate, append_parts, claimed_map};
use epx_committed::{MAX_INSTANCES, Merged};
use epx_types::{Id, Memory, Plan};
use std::alloc::Global;
use std::thread::Threads;

/// The lines of the boxes of one of the pieces into which the plan cuts the instances.
fn boxes_of_piece(
    alloc: Global,
    node_boxes: &[NodeBox],
    plan: Plan,
    piece: usize,
) -> Result<Vec<u8>, Memory>
    requires { piece < piece_count plan.cut (length node_boxes.now) }
    ensures { IfOk result (λ text. text.items
        ≡ flat_map box_line (items_of_piece plan.cut node_boxes.now piece)) }
{
    let (start, end) = plan.range(piece, node_boxes.len());
    let mut text = String::new(alloc);
    write_boxes(&mut text, &node_boxes[start..end])?;
    Ok(text.into_bytes())
}

/// The lines of the arrows from one of the pieces into which the plan cuts the instances.
fn arrows_of_piece(
    alloc: Global,
    merged: &Merged,
    plan: Plan,
    piece: usize,
) -> Result<Vec<u8>, Memory>
    requires { piece < piece_count plan.cut (length merged.now) }
    ensures { IfOk result (λ text. text.items
        ≡ flat_map arrow_lines (items_of_piece plan.cut merged.now piece)) }
{
    let (start, end) = plan.range(piece, merged.len());
    let mut text = String::new(alloc);
    write_arrows_of(&mut text, merged, start, end)?;
    Ok(text.into_bytes())
}

/// The lines of the boxes of committed instances, in parts that follow each other.
fn box_parts<R: Threads + Sync>(
    rt: &R,
    alloc: Global,
    node_boxes: &[NodeBox],
    plan: Plan,
) -> Result<Vec<Vec<u8>>, Memory>
    requires { length node_boxes.now ≤ 2 ^ 40 }
    ensures { IfOk result (λ parts. flat_map (λ part. part.items) parts.items
        ≡ flat_map box_line node_boxes.now) }
{
    let pieces = plan.pieces(node_boxes.len());
    claimed_map(rt, alloc, pieces, plan, &FreeGate, |piece| {
        boxes_of_piece(alloc, node_boxes, plan, piece)
    })
}

/// The lines of the arrows of a map, in parts that follow each other.
fn arrow_parts<R: Threads + Sync>(
    rt: &R,
    alloc: Global,
    merged: &Merged,
    plan: Plan,
) -> Result<Vec<Vec<u8>>, Memory>
    requires { length merged.now ≤ 2 ^ 40 }
    ensures { IfOk result (λ parts. flat_map (λ part. part.items) parts.items
        ≡ flat_map arrow_lines merged.now) }
{
    let pieces = plan.pieces(merged.len());
    claimed_map(rt, alloc, pieces, plan, &FreeGate, |piece| {
        arrows_of_piece(alloc, merged, plan, piece)
    })
}

/// The lines of missing instances.
fn missing_lines(alloc: Global, missing: &[Id]) -> Result<Vec<u8>, Memory>
    ensures { IfOk result (λ text. text.items ≡ flat_map missing_box_line missing.now) }
{
    let mut text = String::new(alloc);
    write_all_missing(&mut text, missing)?;
    Ok(text.into_bytes())
}

/// The text of a picture. With several workers they write it in parts.
pub(crate) fn write_picture<R: Threads + Sync>(
    rt: &R,
    alloc: Global,
    merged: &Merged,
    node_boxes: &[NodeBox],
    missing: &[Id],
    plan: Plan,
) -> Result<Vec<u8>, Memory>
    requires { length node_boxes.now ≡ length merged.now }
    ensures { IfOk result
        (λ text. text.items ≡ picture_text merged.now node_boxes.now missing.now) }
{
    if plan.workers() == 1 || merged.len() > MAX_INSTANCES {
        return write_alone(alloc, merged, node_boxes, missing);
    }
    let mut text = head(alloc)?.into_bytes();
    append_parts(&mut text, box_parts(rt, alloc, node_boxes, plan)?)?;
    text.append(&mut missing_lines(alloc, missing)?)?;
    append_parts(&mut text, arrow_parts(rt, alloc, merged, plan)?)?;
    text.extend_from_slice(b"}\n")?;
    Ok(text)
}
