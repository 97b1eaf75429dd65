//! The call tree of a profile as text, as `perf report` prints it: below the name of each thread the
//! functions that its stacks start with.

use crate::entry_tree::{EntryTree, entry_tree};
use crate::lines::push_thread;
use crate::share::Share;
use crate::top::write_line;
use crate::tree::Node;
use perfdata_profile::profile::Profile;
use std::alloc::{AllocError, Global};
use std::cmp::Ordering;
use std::collections::HashMap;
use std::io;
use std::io::Write;

// The number of blanks before the text of a thread's stacks, and before that of stacks that all start alike.
const MARGIN: usize = 12;

const SHARED_MARGIN: usize = 15;

// The number of blanks between the bars of two levels.
const INDENT: usize = 10;

// The number of decimals of a least share, and 1 % with them.
const DECIMALS: usize = 6;

const PERCENT: u64 = 1_000_000;

/// The least share of all samples that a function in a call tree has.
#[derive(Clone, Copy, Debug, PartialEq, Eq)]
pub struct MinShare {
    /// In millionths of a percent.
    millionths: u64,
}

/// What is written of a call tree.
#[derive(Clone, Copy)]
pub struct TreeOptions<'a> {
    /// The line above it.
    pub heading: &'a [u8],
    /// The least share of all samples that a function has.
    pub min_share: MinShare,
    /// The number of characters of a line, if lines are cut.
    pub width: Option<usize>,
}

// A node of the tree, with the nodes directly below it.
#[derive(Drop)]
struct Branch<'a> {
    name: &'a [u8],
    weight: u64,
    /// Descending by weight, then ascending by name.
    children: Vec<usize>,
}

// A node that is to be written.
#[derive(Clone, Copy)]
struct NextBranch {
    index: usize,
    level: usize,
    /// Whether it is the last one below its parent.
    is_last: bool,
}

// The names of threads by the texts that stand for them in the tree.
type ThreadNames = HashMap<Vec<u8>, Vec<u8>>;

// Writes branches.
#[derive(Drop)]
struct TreeText<'a> {
    alloc: Global,
    branches: &'a [Branch<'a>],
    /// The weight of all samples.
    total: u64,
    min_share: MinShare,
    text: Vec<u8>,
    margin: usize,
    /// Whether the node of each level above is the last one below its parent.
    are_last: Vec<bool>,
}

impl MinShare {
    /// 0.5 %.
    pub const DEFAULT: MinShare = MinShare {
        millionths: PERCENT / 2,
    };

    /// Parses a number of percent, at most 100, with at most six decimals.
    pub fn parse(text: &str) -> Option<MinShare> {
        let (whole, decimals) = text.split_once('.').unwrap_or((text, "0"));
        let missing = DECIMALS.checked_sub(decimals.len())?;
        let scale = 10u64.checked_pow(u32::try_from(missing).ok()?)?;
        let part = parse_digits(decimals)?.checked_mul(scale)?;
        let millionths = parse_digits(whole)?
            .checked_mul(PERCENT)?
            .checked_add(part)?;
        if millionths <= 100 * PERCENT {
            Some(MinShare { millionths })
        } else {
            None
        }
    }

    // Returns whether a part of a total is at least this share of it.
    fn is_reached(self, part: u64, total: u64) -> bool {
        let share = u128::from(part).saturating_mul(u128::from(100 * PERCENT));
        share >= u128::from(total).saturating_mul(u128::from(self.millionths))
    }
}

// Parses decimal digits.
fn parse_digits(text: &str) -> Option<u64> {
    if text.bytes().all(|byte| byte.is_ascii_digit()) {
        text.parse::<u64>().ok()
    } else {
        None
    }
}

// Returns the names of the threads of a profile.
fn thread_names(alloc: Global, profile: &Profile) -> Result<ThreadNames, AllocError> {
    let mut names = HashMap::new(alloc);
    for index in 0..profile.sums.len() {
        let Some((key, _)) = profile.sums.get(index) else {
            break;
        };
        let mut text = Vec::new(alloc);
        push_thread(&mut text, &profile.tables, key.thread)?;
        if !names.contains_key(&text) {
            let name = profile.tables.names.get(key.thread.name).unwrap_or(b"");
            let mut label = name.to_vec(alloc)?;
            label.extend_from_slice(text.get(name.len()..).unwrap_or(b""))?;
            names.insert(text, label)?;
        }
    }
    Ok(names)
}

// Returns the text of a node.
fn node_text<'a>(tree: &'a EntryTree, node: &Node) -> Option<&'a [u8]> {
    let stack = tree.tree.stacks.get(node.first)?;
    let rank = stack.ranks.get(node.depth)?;
    tree.texts.get(tree.texts.id(*tree.order.get(*rank)?)?)
}

// Returns the weight of a node.
fn node_weight(tree: &EntryTree, node: &Node) -> u64 {
    let positions = &tree.tree.positions;
    let first = positions.get(node.first).copied().unwrap_or(0);
    let end = positions.get(node.end).copied().unwrap_or(0);
    end.saturating_sub(first)
}

// Returns the name of a node: of a thread its own.
fn node_name<'a>(tree: &'a EntryTree, threads: &'a ThreadNames, node: &Node) -> &'a [u8] {
    let text = node_text(tree, node).unwrap_or(b"");
    match threads.get(text) {
        Some(name) if node.depth == 0 => name.as_slice(),
        _ => text,
    }
}

// Returns which branch is first: the one with the greater weight, then by name.
fn by_weight(branches: &[Branch<'_>], first: usize, second: usize) -> Ordering {
    match (branches.get(first), branches.get(second)) {
        (Some(first), Some(second)) => {
            second
                .weight
                .cmp(&first.weight)
                .then(first.name.cmp(second.name))
        }
        _ => first.cmp(&second),
    }
}

// Takes the last of some nodes, those that are deeper than a node. Returns them in the order of their
// weights.
fn take_children(
    alloc: Global,
    nodes: &[Node],
    branches: &[Branch<'_>],
    open: &mut Vec<usize>,
    depth: usize,
) -> Result<Vec<usize>, AllocError> {
    let mut children = Vec::new(alloc);
    for _ in 0..open.len() {
        let Some(index) = open.last().copied() else {
            break;
        };
        if nodes.get(index).is_none_or(|node| node.depth <= depth) {
            break;
        }
        children.push(index)?;
        open.pop();
    }
    children.sort_by(|first: &usize, second: &usize| by_weight(branches, *first, *second))?;
    Ok(children)
}

// Returns the nodes with those directly below each, and at last one with the threads. In a tree a node
// follows those in it.
fn branches<'a>(
    alloc: Global,
    tree: &'a EntryTree,
    threads: &'a ThreadNames,
) -> Result<Vec<Branch<'a>>, AllocError> {
    let nodes = tree.tree.nodes.as_slice();
    let mut branches = Vec::new(alloc);
    let mut open = Vec::new(alloc);
    for (index, node) in nodes.iter().enumerate() {
        let children = take_children(alloc, nodes, branches.as_slice(), &mut open, node.depth)?;
        branches.push(Branch {
            name: node_name(tree, threads, node),
            weight: node_weight(tree, node),
            children,
        })?;
        open.push(index)?;
    }
    let all = branches.as_slice();
    open.sort_by(|first: &usize, second: &usize| by_weight(all, *first, *second))?;
    branches.push(Branch {
        name: b"",
        weight: 0,
        children: open,
    })?;
    Ok(branches)
}

impl<'a> TreeText<'a> {
    // Returns the branch that follows another one without a choice: it is the only one below it, and has all
    // of its samples.
    fn only_child(&self, branch: &Branch<'_>) -> Option<usize> {
        let index = *branch.children.first()?;
        let child = self.branches.get(index)?;
        if branch.children.len() == 1 && child.weight == branch.weight {
            Some(index)
        } else {
            None
        }
    }

    // Returns the share of a weight.
    fn share(&self, weight: u64) -> Share {
        Share {
            part: weight,
            total: self.total,
        }
    }

    // Appends blanks.
    fn push_blanks(&mut self, count: usize) -> Result<(), AllocError> {
        for _ in 0..count {
            self.text.push(b' ')?;
        }
        Ok(())
    }

    // Appends the margin and the bars of the levels above.
    fn push_bars(&mut self) -> Result<(), AllocError> {
        self.push_blanks(self.margin)?;
        for index in 0..self.are_last.len() {
            let is_last = self.are_last.get(index).copied().unwrap_or(true);
            self.text.push(if is_last { b' ' } else { b'|' })?;
            self.push_blanks(INDENT)?;
        }
        Ok(())
    }

    // Appends a name and the end of the line.
    fn push_line_end(&mut self, name: &[u8]) -> Result<(), AllocError> {
        self.text.extend_from_slice(name)?;
        Ok(self.text.push(b'\n')?)
    }

    // Appends the lines of the branches that follow one without a choice, each after some blanks. `bar` is
    // that of the level. Returns the last branch.
    fn push_run(&mut self, first: usize, bar: &[u8]) -> Result<usize, AllocError> {
        let mut last = first;
        for _ in 0..self.branches.len() {
            let branches = self.branches;
            let Some(branch) = branches.get(last) else {
                break;
            };
            let Some(next) = self.only_child(branch) else {
                break;
            };
            self.push_bars()?;
            self.text.extend_from_slice(bar)?;
            self.push_line_end(
                branches
                    .get(next)
                    .map_or(b"".as_slice(), |branch| branch.name),
            )?;
            last = next;
        }
        Ok(last)
    }

    // Appends what is to be written below a branch: the branches with the least share, the last one first.
    fn push_next(
        &self,
        pending: &mut Vec<NextBranch>,
        index: usize,
        level: usize,
    ) -> Result<(), AllocError> {
        let Some(branch) = self.branches.get(index) else {
            return Ok(());
        };
        let mut is_last = true;
        for child in branch.children.iter().rev() {
            let weight = self.branches.get(*child).map_or(0, |child| child.weight);
            if self.min_share.is_reached(weight, self.total) {
                pending.push(NextBranch {
                    index: *child,
                    level,
                    is_last,
                })?;
                is_last = false;
            }
        }
        Ok(())
    }

    // Appends the lines of a branch and those that follow it without a choice. Returns the last one.
    fn push_branch(&mut self, next: NextBranch) -> io::Result<usize> {
        self.are_last.truncate(next.level);
        self.push_bars()?;
        self.text.extend_from_slice(b"|\n")?;
        self.push_bars()?;
        let branches = self.branches;
        let (name, weight) = match branches.get(next.index) {
            Some(branch) => (branch.name, branch.weight),
            None => (b"".as_slice(), 0),
        };
        let share = self.share(weight);
        self.text.push(if next.is_last { b' ' } else { b'|' })?;
        write!(self.text, "--{share}--")?;
        self.push_line_end(name)?;
        let bar = if next.is_last {
            b"           ".as_slice()
        } else {
            b"|          ".as_slice()
        };
        let last = self.push_run(next.index, bar)?;
        self.are_last.push(next.is_last)?;
        Ok(last)
    }

    // Appends the lines of the branches below one.
    fn push_below(&mut self, index: usize) -> io::Result<()> {
        let mut pending = Vec::new(self.alloc);
        self.are_last.clear();
        self.push_next(&mut pending, index, 0)?;
        for _ in 0..self.branches.len() {
            let Some(next) = pending.pop() else {
                break;
            };
            let last = self.push_branch(next)?;
            self.push_next(&mut pending, last, next.level.saturating_add(1))?;
        }
        Ok(())
    }

    // Appends the lines of the branches that all stacks of a thread start with. Returns the last one.
    fn push_shared(&mut self, first: usize) -> io::Result<usize> {
        let branches = self.branches;
        let name = branches
            .get(first)
            .map_or(b"".as_slice(), |branch| branch.name);
        self.are_last.clear();
        self.push_blanks(MARGIN)?;
        self.text.extend_from_slice(b"|\n")?;
        self.push_blanks(MARGIN)?;
        self.text.extend_from_slice(b"---")?;
        self.push_line_end(name)?;
        self.margin = SHARED_MARGIN;
        Ok(self.push_run(first, b"")?)
    }

    // Appends the lines of a thread.
    fn push_thread(&mut self, index: usize) -> io::Result<()> {
        let branches = self.branches;
        let Some(thread) = branches.get(index) else {
            return Ok(());
        };
        let share = self.share(thread.weight).hundredths();
        write!(self.text, "{:>6}.{:02}%  ", share / 100, share % 100)?;
        self.push_line_end(thread.name)?;
        self.margin = MARGIN;
        match self.only_child(thread) {
            Some(first) if self.min_share.is_reached(thread.weight, self.total) => {
                let last = self.push_shared(first)?;
                self.push_below(last)
            }
            _ => self.push_below(index),
        }
    }
}

// Writes the lines of a text, cut to a width.
fn write_lines<W: Write>(text: &[u8], width: Option<usize>, out: &mut W) -> io::Result<()> {
    let text = text.strip_suffix(b"\n").unwrap_or(text);
    for line in text.split(|byte| *byte == b'\n') {
        write_line(line, width, out)?;
    }
    Ok(())
}

/// Writes the call tree of a profile below a heading: for each name of a thread its share of all samples, and
/// the tree of the functions that its stacks start with, the outermost first. Functions with less than the
/// least share of all samples are left out.
///
/// Fails if memory runs out or if the output can't be written.
pub fn write_call_tree<W: Write>(
    alloc: Global,
    profile: &Profile,
    options: TreeOptions<'_>,
    out: &mut W,
) -> io::Result<()> {
    let tree = entry_tree(alloc, profile)?;
    let threads = thread_names(alloc, profile)?;
    let branches = branches(alloc, &tree, &threads)?;
    let mut text = TreeText {
        alloc,
        branches: branches.as_slice(),
        total: profile.sums.total().weight,
        min_share: options.min_share,
        text: Vec::new(alloc),
        margin: MARGIN,
        are_last: Vec::new(alloc),
    };
    write_line(options.heading, options.width, out)?;
    let Some(root) = branches.last() else {
        return Ok(());
    };
    for thread in root.children.iter() {
        text.text.clear();
        text.push_thread(*thread)?;
        out.write_all(b"\n")?;
        write_lines(text.text.as_slice(), options.width, out)?;
    }
    Ok(())
}
