//! The boxes of a flame graph.

ghost use Rattle.std.specs.Prelude.{◌≡◌, filter, not, slice_index_or, IfOk};
ghost use Rattle.perfdata_views.specs.FlameBoxes.{AreDrawn, box_of, boxes_of, is_narrow, total_of};
ghost use Rattle.perfdata_views.specs.Trees.{names_at, names_of};

use crate::entry_tree::EntryTree;
use crate::flame::span::WidthSpan;
use crate::tree::{Node, RankedStack};
use std::alloc::{AllocError, Global};

/// The width of the graph in pixels, where no script gives it that of the window.
pub(crate) const GRAPH_WIDTH: u64 = 1_180;

// The parts of a pixel of that width below which a box is left out: a tenth.
const PARTS_OF_PIXEL: u64 = 10;

/// A box: the samples of the stacks that start with the names from the root to a node of the tree.
#[derive(Clone, Copy, Debug, PartialEq, Eq)]
pub struct FlameBox {
    /// The number of the text that is its name.
    pub text: usize,
    /// The number of boxes around it.
    pub depth: usize,
    /// The samples in it.
    pub span: WidthSpan,
}

/// The boxes that are drawn.
#[derive(Drop)]
pub struct DrawnBoxes {
    /// The boxes. A box follows those in it.
    pub boxes: Vec<FlameBox>,
    /// The number of boxes that are left out, since they are too narrow to be seen.
    pub omitted: usize,
    /// The sum of the weights of all samples.
    pub total: u64,
}

// Returns the sum of the first samples by an index, or 0 if there is none.
fn position(positions: &[u64], index: usize) -> u64
    ensures { result ≡ slice_index_or positions.now index 0 }
{
    if index < positions.len() {
        positions[index]
    } else {
        0
    }
}

// Returns a number by its index, or 0 if there is none.
fn number(numbers: &[usize], index: usize) -> usize
    ensures { result ≡ slice_index_or numbers.now index 0 }
{
    if index < numbers.len() {
        numbers[index]
    } else {
        0
    }
}

// Returns the rank of the name at a depth of a stack, or 0 if there is none.
fn name_rank(stacks: &[RankedStack], index: usize, depth: usize) -> usize
    ensures { result ≡ slice_index_or (names_at (names_of stacks.now) index) depth 0 }
{
    if index < stacks.len() {
        number(stacks[index].ranks.as_slice(), depth)
    } else {
        0
    }
}

// Returns the box of a node.
fn node_box(tree: &EntryTree, node: Node) -> FlameBox
    ensures { result
        ≡ box_of tree.now.order.items tree.now.tree.stacks.items tree.now.tree.positions.items node }
{
    let rank = name_rank(tree.tree.stacks.as_slice(), node.first, node.depth);
    let positions = tree.tree.positions.as_slice();
    FlameBox {
        text: number(tree.order.as_slice(), rank),
        depth: node.depth,
        span: WidthSpan {
            start: position(positions, node.first),
            end: position(positions, node.end),
        },
    }
}

/// Returns the boxes of the nodes of a tree, in the order of the nodes.
///
/// Fails if memory runs out.
pub fn boxes(alloc: Global, tree: &EntryTree) -> Result<Vec<FlameBox>, AllocError>
    ensures { IfOk result (λ boxes. boxes.items ≡ boxes_of tree.now) }
{
    let mut boxes = Vec::new(alloc);
    'nodes: for node in tree.tree.nodes.iter() {
        boxes.push(node_box(tree, *node))?;
    }
    Ok(boxes)
}

// Returns whether a box is too narrow to be seen.
fn is_narrow(total: u64, flame_box: FlameBox) -> bool
    ensures { result ≡ is_narrow total flame_box }
{
    let parts = flame_box.span.weight() as u128 * (GRAPH_WIDTH * PARTS_OF_PIXEL) as u128;
    total == 0 || parts < total as u128
}

// Returns the boxes that are wide enough to be seen.
fn wide_boxes(alloc: Global, boxes: &[FlameBox], total: u64) -> Result<Vec<FlameBox>, AllocError>
    ensures { IfOk result (λ wide. wide.items ≡ filter (λ b. not (is_narrow total b)) boxes.now) }
{
    let mut wide = Vec::new(alloc);
    'boxes: for flame_box in boxes {
        if !is_narrow(total, *flame_box) {
            wide.push(*flame_box)?;
        }
    }
    Ok(wide)
}

/// Returns the boxes of a tree that are wide enough to be seen, and the number of the others. A box isn't if
/// it is narrower than a tenth of a pixel where all samples are 1,180 pixels wide.
///
/// Fails if memory runs out.
pub fn drawn_boxes(alloc: Global, tree: &EntryTree) -> Result<DrawnBoxes, AllocError>
    ensures { IfOk result (λ drawn. AreDrawn (total_of tree.now) (boxes_of tree.now) drawn) }
{
    let total = position(tree.tree.positions.as_slice(), tree.tree.stacks.len());
    let all = boxes(alloc, tree)?;
    let wide = wide_boxes(alloc, all.as_slice(), total)?;
    let omitted = all.len().saturating_sub(wide.len());
    Ok(DrawnBoxes {
        boxes: wide,
        omitted,
        total,
    })
}
