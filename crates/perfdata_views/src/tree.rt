//! The tree of the names of stacks.

ghost use Rattle.std.specs.Prelude.{◌≡◌, ℕ, ◌+◌, ◌^◌, ◌<◌, ◌≤◌, ◌++◌, List, drop, length, IfOk, OnOk};
ghost use Rattle.std.specs.List.{sum_by};
ghost use Rattle.std.specs.List.Sorted.{IsPermutation};
ghost use Rattle.perfdata_views.specs.StackTrees.{IsStackTree};
ghost use Rattle.perfdata_views.specs.Trees.{ArePositions, Ascend, IsTree};
ghost use Rattle.perfdata_views.specs.steps.Trees.{Grows, IsShared};
ghost use Rattle.perfdata_views.specs.Trees.{names_at, names_of, stack_weight};
ghost use Rattle.perfdata_views.specs.steps.Trees.{ended_nodes};

use std::alloc::{AllocError, Global};

/// A stack of names.
#[derive(Drop)]
pub struct RankedStack {
    /// The ranks of the names, the root's first.
    pub ranks: Vec<usize>,
    /// The sum of the weights of its samples.
    pub weight: u64,
}

/// A node of the tree: the stacks that start with the names from the root to it.
#[derive(Clone, Copy, Debug, PartialEq, Eq)]
pub struct Node {
    /// The number of nodes between the root and it, which is the index of its name in the stacks.
    pub depth: usize,
    /// The index of the first stack.
    pub first: usize,
    /// The index after that of the last stack.
    pub end: usize,
}

// Sorts stacks by their names.
fn sort_stacks(stacks: &mut Vec<RankedStack>) -> Result<(), AllocError>
    ensures permutation { IsPermutation stacks.old.items stacks.new.items }
    ensures ok { OnOk result (Ascend (names_of stacks.new.items)) }
{
    stacks.sort_by(|a: &RankedStack, b: &RankedStack| a.ranks.cmp(&b.ranks))?;
    Ok(())
}

// Returns the sums of the weights of the first stacks, from none to all.
fn positions(alloc: Global, stacks: &[RankedStack]) -> Result<Vec<u64>, AllocError>
    requires { sum_by stack_weight stacks.now < 2 ^ 64 }
    ensures { IfOk result (λ positions. ArePositions stacks.now positions.items) }
{
    let mut positions = Vec::new(alloc);
    let mut position = 0;
    positions.push(position)?;
    'stacks: for stack in stacks {
        position += stack.weight;
        positions.push(position)?;
    }
    Ok(positions)
}

// Returns the number of ranks with which both lists start.
fn shared_ranks(first: &[usize], second: &[usize]) -> usize
    ensures { IsShared first.now second.now result }
{
    let most = first.len().min(second.len());
    'ranks: for index in 0..most {
        if first[index] != second[index] {
            return index;
        }
    }
    most
}

// Appends the nodes from a depth on, which end before a stack.
fn end_nodes(
    nodes: &mut Vec<Node>,
    firsts: &[usize],
    from: usize,
    end: usize,
) -> Result<(), AllocError>
    requires { from ≤ length firsts.now }
    ensures { OnOk result (nodes.new.items ≡ nodes.old.items ++ ended_nodes from (drop from firsts.now) end) }
{
    'depths: for depth in (from..firsts.len()).rev() {
        nodes.push(Node {
            depth,
            first: firsts[depth],
            end,
        })?;
    }
    Ok(())
}

// Ends the nodes that don't have a stack, and begins those that have it first.
fn add_stack(
    nodes: &mut Vec<Node>,
    firsts: &mut Vec<usize>,
    last: &[usize],
    ranks: &[usize],
    index: usize,
) -> Result<(), AllocError>
    requires { length firsts.old.items ≡ length last.now }
    ensures { OnOk result ((stacks : List (List ℕ)) → Ascend stacks → index < length stacks →
        ranks.now ≡ names_at stacks index → Grows stacks index last.now firsts.old.items nodes.old.items →
        Grows stacks (index + 1) ranks.now firsts.new.items nodes.new.items) }
{
    let shared = shared_ranks(last, ranks);
    end_nodes(nodes, firsts.as_slice(), shared, index)?;
    firsts.truncate(shared);
    firsts.resize(ranks.len(), index)?;
    Ok(())
}

/// Returns the nodes of the tree of stacks that ascend by their names. A node follows those in it.
///
/// Fails if memory runs out.
pub fn nodes(alloc: Global, stacks: &[RankedStack]) -> Result<Vec<Node>, AllocError>
    requires { Ascend (names_of stacks.now) }
    ensures { IfOk result (λ nodes. IsTree (names_of stacks.now) nodes.items) }
{
    let mut nodes = Vec::new(alloc);
    let mut firsts = Vec::new(alloc);
    let mut last: &[usize] = &[];
    'stacks: for (index, stack) in stacks.iter().enumerate() {
        let ranks = stack.ranks.as_slice();
        add_stack(&mut nodes, &mut firsts, last, ranks, index)?;
        last = ranks;
    }
    end_nodes(&mut nodes, firsts.as_slice(), 0, stacks.len())?;
    Ok(nodes)
}

/// The tree of stacks.
#[derive(Drop)]
pub struct StackTree {
    /// The stacks, ascending by the ranks of their names.
    pub stacks: Vec<RankedStack>,
    /// The sums of the weights of the first stacks, from none to all.
    pub positions: Vec<u64>,
    /// The nodes. A node follows those in it.
    pub nodes: Vec<Node>,
}

/// Returns the tree of stacks.
///
/// Fails if memory runs out.
pub fn tree(alloc: Global, mut stacks: Vec<RankedStack>) -> Result<StackTree, AllocError>
    requires { sum_by stack_weight stacks.items < 2 ^ 64 }
    ensures { IfOk result (λ tree. IsStackTree stacks.items tree) }
{
    sort_stacks(&mut stacks)?;
    let positions = positions(alloc, stacks.as_slice())?;
    let nodes = nodes(alloc, stacks.as_slice())?;
    Ok(StackTree {
        stacks,
        positions,
        nodes,
    })
}
