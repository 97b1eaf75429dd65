//! Intervals that don't overlap, made of ranges that may: of several ranges with an address the first counts.
ghost use Rattle.std.specs.Prelude.{◌≤◌};

use std::alloc::{AllocError, Global};

// A range of addresses that belongs to a node, which is a child of another one.
#[derive(Clone, Copy)]
pub(crate) struct NodeRange {
    pub(crate) parent: usize,
    pub(crate) start: u64,
    pub(crate) end: u64,
    pub(crate) node: usize,
}

// An address where a range of a child of a node starts or ends.
#[derive(Clone, Copy, PartialEq, Eq, PartialOrd, Ord)]
struct Boundary {
    parent: usize,
    address: u64,
}

// Ranges that don't overlap, in the order of the parents and the addresses.
#[derive(Drop)]
pub(crate) struct Intervals {
    ranges: Vec<NodeRange>,
}

// The addresses where ranges start or end, in order.
fn sorted_boundaries(alloc: Global, ranges: &[NodeRange]) -> Result<Vec<Boundary>, AllocError> {
    let mut boundaries = Vec::new(alloc);
    'ranges: for range in ranges {
        let parent = range.parent;
        boundaries.push(Boundary {
            parent,
            address: range.start,
        })?;
        boundaries.push(Boundary {
            parent,
            address: range.end,
        })?;
    }
    boundaries.sort_unstable();
    distinct_boundaries(alloc, &boundaries)
}

// The boundaries without those that are equal to the one before them.
fn distinct_boundaries(
    alloc: Global,
    boundaries: &[Boundary],
) -> Result<Vec<Boundary>, AllocError> {
    let mut distinct: Vec<Boundary> = Vec::new(alloc);
    'boundaries: for boundary in boundaries {
        match distinct.last() {
            Some(last) if last == boundary => {}
            _ => distinct.push(*boundary)?,
        }
    }
    Ok(distinct)
}

// The numbers below a number, in order.
fn numbers_below(alloc: Global, count: usize) -> Result<Vec<usize>, AllocError> {
    let mut numbers = Vec::new(alloc);
    'numbers: for number in 0..count {
        numbers.push(number)?;
    }
    Ok(numbers)
}

// The owners of the segments between boundaries.
#[derive(Drop)]
struct Segments {
    boundaries: Vec<Boundary>,
    // The node of the segment after each boundary.
    owners: Vec<Option<usize>>,
    // For each segment one from which on the first segment without an owner is to be looked for: the segment
    // itself if it has none, else a later one.
    next: Vec<usize>,
}

impl Segments {
    // The segments between the boundaries of ranges, without owners.
    fn new(alloc: Global, ranges: &[NodeRange]) -> Result<Segments, AllocError> {
        let boundaries = sorted_boundaries(alloc, ranges)?;
        let mut owners = Vec::new(alloc);
        owners.resize(boundaries.len(), None)?;
        let next = numbers_below(alloc, boundaries.len())?;
        Ok(Segments {
            boundaries,
            owners,
            next,
        })
    }

    // The number of boundaries before an address of a parent.
    fn count_before(&self, parent: usize, address: u64) -> usize {
        let boundary = Boundary { parent, address };
        self.boundaries.partition_point(|other| *other < boundary)
    }

    // The first segment without an owner from one on.
    fn find_free(&mut self, segment: usize) -> usize
        ensures { segment ≤ result }
    {
        let mut at = segment;
        'segments: for _ in 0..self.next.len() {
            let Some(step) = self.next.get(at).copied() else {
                return at;
            };
            if step <= at {
                return at;
            }
            // Halves the way of later searches.
            if let Some(further) = self.next.get(step).copied() {
                self.set_next(at, further);
            }
            at = step;
        }
        at
    }

    // Sets where the search from a segment goes on.
    fn set_next(&mut self, segment: usize, next: usize) {
        if let Some(slot) = self.next.get_mut(segment) {
            *slot = next;
        }
    }

    // Sets the owner of a segment.
    fn set_owner(&mut self, segment: usize, node: usize) {
        if let Some(owner) = self.owners.get_mut(segment) {
            *owner = Some(node);
        }
        self.set_next(segment, segment.saturating_add(1));
    }

    // Makes a node the owner of the segments of a range that have none.
    fn add(&mut self, range: &NodeRange) {
        let end = self.count_before(range.parent, range.end);
        let mut segment = self.find_free(self.count_before(range.parent, range.start));
        'segments: while segment < end {
            self.set_owner(segment, range.node);
            segment = self.find_free(segment + 1);
        }
    }

    // The range of the segment with an index, if it has an owner.
    fn range(&self, segment: usize) -> Option<NodeRange> {
        let node = (*self.owners.get(segment)?)?;
        let start = self.boundaries.get(segment)?;
        let end = self.boundaries.get(segment.checked_add(1)?)?;
        Some(NodeRange {
            parent: start.parent,
            start: start.address,
            end: end.address,
            node,
        })
    }

    // The ranges of the segments with owners. Adjacent ones of one node are one range.
    fn into_ranges(self, alloc: Global) -> Result<Vec<NodeRange>, AllocError> {
        let mut ranges: Vec<NodeRange> = Vec::new(alloc);
        'segments: for segment in 0..self.owners.len() {
            let Some(range) = self.range(segment) else {
                continue;
            };
            match ranges.last_mut() {
                Some(last) if is_continued(last, &range) => last.end = range.end,
                _ => ranges.push(range)?,
            }
        }
        Ok(ranges)
    }
}

// Whether a range goes on where one of the same node ends.
fn is_continued(last: &NodeRange, range: &NodeRange) -> bool {
    last.parent == range.parent && last.node == range.node && last.end == range.start
}

// Whether ranges contain addresses, and those of one parent none in common. They are in the order of the
// parents and the starts.
fn are_apart(ranges: &[NodeRange]) -> bool {
    let mut end = Boundary {
        parent: 0,
        address: 0,
    };
    'ranges: for range in ranges {
        if range.end <= range.start || (range.parent == end.parent && range.start < end.address) {
            return false;
        }
        end = Boundary {
            parent: range.parent,
            address: range.end,
        };
    }
    true
}

// The ranges in the order of the parents and the starts, if they are apart.
fn sorted_ranges(
    alloc: Global,
    ranges: &[NodeRange],
) -> Result<Option<Vec<NodeRange>>, AllocError> {
    let mut sorted = Vec::from_slice(alloc, ranges)?;
    sorted.sort_unstable_by_key(|range| Boundary {
        parent: range.parent,
        address: range.start,
    });
    if are_apart(&sorted) {
        Ok(Some(sorted))
    } else {
        Ok(None)
    }
}

impl Intervals {
    // The intervals of ranges. At an address that several ranges of one parent have, the first counts.
    pub(crate) fn new(alloc: Global, ranges: &[NodeRange]) -> Result<Intervals, AllocError> {
        if let Some(ranges) = sorted_ranges(alloc, ranges)? {
            return Ok(Intervals { ranges });
        }
        let mut segments = Segments::new(alloc, ranges)?;
        'ranges: for range in ranges {
            segments.add(range);
        }
        let ranges = segments.into_ranges(alloc)?;
        Ok(Intervals { ranges })
    }

    // The child of a node that an address belongs to.
    pub(crate) fn find(&self, parent: usize, address: u64) -> Option<usize> {
        let after = self.ranges.partition_point(|range| {
            range.parent < parent || (range.parent == parent && range.start <= address)
        });
        let range = self.ranges.get(after.checked_sub(1)?)?;
        if range.parent == parent && address < range.end {
            Some(range.node)
        } else {
            None
        }
    }
}
