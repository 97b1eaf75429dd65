//! What the boxes of a flame graph were in an old profile.

use crate::counts::LineCounts;
use crate::differences::{CountPair, OldCounts, push_points};
use crate::entry_tree::EntryTree;
use crate::flame::boxes::FlameBox;
use crate::share::Share;
use std::alloc::{AllocError, Global};
use std::io;
use std::io::Write;

// The number of shades of a hue, less one.
const SHADES: u64 = 200;

// The lightest part of a color.
const LIGHTEST: u64 = 245;

/// The folded lines of an old profile, in their order, with the sums of the counts of the first of them.
#[derive(Drop)]
pub(crate) struct OldLines {
    lines: Vec<Vec<u8>>,
    /// The sums, from none to all.
    positions: Vec<u64>,
}

/// How the share of a box changed, in hundredths of a percent.
#[derive(Clone, Copy)]
pub(crate) struct ShareChange {
    /// The weight in the old profile, as it is written.
    pub(crate) weight: u64,
    old: u64,
    new: u64,
}

impl ShareChange {
    /// Returns the change from an old weight to a new one, of totals.
    pub(crate) fn of_weights(old: Share, new: Share, counts: OldCounts) -> ShareChange {
        let totals = CountPair {
            old: old.total,
            new: new.total,
        };
        ShareChange {
            weight: counts.written(old.part, totals),
            old: old.hundredths(),
            new: new.hundredths(),
        }
    }

    // Returns the size of the change.
    fn size(self) -> u64 {
        self.new.max(self.old) - self.new.min(self.old)
    }

    /// Returns what is written before the name of a box: the sign of its change.
    pub(crate) fn sign(self) -> &'static str {
        if self.new > self.old {
            "+ "
        } else if self.new < self.old {
            "- "
        } else {
            ""
        }
    }

    /// Returns the color of a box: redder the more its share grew, bluer the more it shrank. A tenth of all
    /// samples, or more, has the full hue.
    pub(crate) fn color(self) -> [u8; 3] {
        let strength = self.size().min(1000) * SHADES / 1000;
        let strength = if self.size() == 0 {
            0
        } else {
            strength.max(12)
        };
        let other = u8::try_from(LIGHTEST - strength).unwrap_or(0);
        let full = u8::try_from(LIGHTEST).unwrap_or(u8::MAX);
        if self.new >= self.old {
            [full, other, other]
        } else {
            [other, other, full]
        }
    }

    /// Appends what is shown of the change under the pointer.
    pub(crate) fn push_text(self, out: &mut Vec<u8>) -> io::Result<()> {
        out.extend_from_slice(b", ")?;
        push_points(out, self.old, self.new)?;
        write!(out, " points, before {}", self.weight)
    }
}

impl OldLines {
    /// Returns the lines of counts.
    ///
    /// Fails if memory runs out.
    pub(crate) fn of_counts(alloc: Global, counts: &LineCounts) -> Result<OldLines, AllocError> {
        let mut lines = Vec::new(alloc);
        let mut positions = Vec::new(alloc);
        let mut position: u64 = 0;
        positions.push(position)?;
        for (line, count) in counts.iter() {
            lines.push(line.as_slice().to_vec(alloc)?)?;
            position = position.saturating_add(*count);
            positions.push(position)?;
        }
        Ok(OldLines { lines, positions })
    }

    // Returns the sum of the counts of the lines before a text.
    fn sum_before(&self, text: &[u8]) -> u64 {
        let index = self
            .lines
            .as_slice()
            .partition_point(|line| line.as_slice() < text);
        self.positions.get(index).copied().unwrap_or(0)
    }

    // Returns the sum of the counts of the lines that are a text or begin with it and a semicolon. The text
    // is changed.
    fn weight(&self, text: &mut Vec<u8>) -> Result<u64, AllocError> {
        let before = self.sum_before(text.as_slice());
        text.push(0)?;
        let own = self.sum_before(text.as_slice()).saturating_sub(before);
        text.pop();
        text.push(b';')?;
        let before = self.sum_before(text.as_slice());
        text.pop();
        text.push(b';' + 1)?;
        let below = self.sum_before(text.as_slice()).saturating_sub(before);
        Ok(own.saturating_add(below))
    }

    /// Returns what the stacks that start with the names of a box and of those around it counted.
    ///
    /// Fails if memory runs out.
    pub(crate) fn box_weight(
        &self,
        alloc: Global,
        tree: &EntryTree,
        flame_box: &FlameBox,
    ) -> Result<u64, AllocError> {
        let mut text = Vec::new(alloc);
        push_path(&mut text, tree, flame_box)?;
        self.weight(&mut text)
    }
}

// Returns the index of the first stack with samples of a box.
fn stack_index(tree: &EntryTree, flame_box: &FlameBox) -> usize {
    let start = flame_box.span.start;
    let positions = tree.tree.positions.as_slice();
    let after = positions.partition_point(|position| *position <= start);
    after.saturating_sub(1)
}

// Appends the names of the boxes around a box and its own, with semicolons between them.
fn push_path(text: &mut Vec<u8>, tree: &EntryTree, flame_box: &FlameBox) -> Result<(), AllocError> {
    let Some(stack) = tree.tree.stacks.get(stack_index(tree, flame_box)) else {
        return Ok(());
    };
    let depth = flame_box.depth.saturating_add(1);
    for (index, rank) in stack.ranks.iter().take(depth).enumerate() {
        if index != 0 {
            text.push(b';')?;
        }
        let number = tree.order.get(*rank).copied().unwrap_or(0);
        text.extend_from_slice(tree.text(number))?;
    }
    Ok(())
}
