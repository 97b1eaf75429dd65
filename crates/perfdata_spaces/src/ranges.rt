//! Values by address, in versions that share their nodes.

ghost use Rattle.std.specs.Prelude.{◌≡◌, ℕ, ◌≤◌, ◌<◌, ◌^◌, ◌-◌, nat_lt, if◌then◌else◌, Option, None, IfOk};
ghost use Rattle.perfdata_spaces.specs.Ranges.{contains};
ghost use Rattle.perfdata_spaces.specs.steps.Ranges.{covers};

use std::alloc::{AllocError, Global};
use std::rc::Rc;

// How much higher one child of a node may be than the other.
const MAX_DIFFERENCE: usize = 2;

/// A range of addresses, first and last included.
#[derive(Clone, Copy)]
pub(crate) struct AddressRange {
    first: u64,
    last: u64,
}

// Values by address, as a balanced binary tree (AVL) of the addresses at which the value changes.
#[cycle(tree)]
#[derive(Drop)]
enum Tree {
    /// No address has a value.
    Empty,
    /// All addresses have this value.
    Whole(usize),
    /// The addresses below a boundary and those from it on have values of their own.
    Split(Rc<Boundary>),
}

// The values below an address and those from it on, and the number of boundaries on the longest path to a
// leaf.
#[cycle(tree)]
#[derive(Drop)]
struct Boundary {
    address: u64,
    height: usize,
    below: Tree,
    above: Tree,
}

/// Values by address, in a version that shares nodes with others. With n ranges, a look-up takes O(log n)
/// time, and a new version O(log n) time and new nodes.
#[derive(Drop)]
pub(crate) struct RangeMap {
    tree: Tree,
}

impl AddressRange {
    // The addresses from a start on, below 2^64, or `None` if there are none.
    pub(crate) fn new(start: u64, length: u64) -> Option<AddressRange>
        ensures { (address : ℕ) → covers result address ≡ contains start length address }
    {
        if length == 0 {
            return None;
        }
        Some(AddressRange {
            first: start,
            last: start.saturating_add(length - 1),
        })
    }
}

impl Tree {
    ghost use Rattle.perfdata_spaces.specs.Ranges.{value_at};
    ghost use Rattle.perfdata_spaces.specs.steps.Ranges.{height_of};
    ghost use Rattle.perfdata_spaces.specs.steps.Ranges.{Joins, KeepsAbove, KeepsBelow, KeepsValues};
    ghost use Rattle.perfdata_spaces.specs.steps.Ranges.{SetsRange};

    // All addresses have a value, or none.
    fn of_value(value: Option<usize>) -> Tree
        ensures { (address : ℕ) → value_at result address ≡ value }
    {
        match value {
            Some(value) => Tree::Whole(value),
            None => Tree::Empty,
        }
    }

    // The value of an address.
    fn get(&self, address: u64) -> Option<usize>
        ensures { result ≡ value_at self.now address }
    {
        let mut tree = self;
        'boundaries: loop {
            match tree {
                Tree::Empty => return None,
                Tree::Whole(value) => return Some(*value),
                Tree::Split(boundary) => {
                    tree = if address < boundary.address {
                        &boundary.below
                    } else {
                        &boundary.above
                    };
                }
            }
        }
    }

    // The number of boundaries on the longest path to a leaf.
    fn height(&self) -> usize
        ensures { result ≡ height_of self.now }
    {
        match self {
            Tree::Split(boundary) => boundary.height,
            _ => 0,
        }
    }

    // Whether a tree is too high to be a child beside another.
    fn is_too_high(&self, other: &Tree) -> bool
        ensures { result ≡ nat_lt 2 (height_of self.now - height_of other.now) }
    {
        self.height().saturating_sub(other.height()) > MAX_DIFFERENCE
    }

    // The same values.
    fn share(&self) -> Result<Tree, AllocError>
        ensures { IfOk result (KeepsValues self.now) }
    {
        Ok(match self {
            Tree::Empty => Tree::Empty,
            Tree::Whole(value) => Tree::Whole(*value),
            Tree::Split(boundary) => Tree::Split(boundary.clone()?),
        })
    }

    // The values of `below` below an address, and those of `above` from it on.
    fn split(alloc: Global, below: Tree, address: u64, above: Tree) -> Result<Tree, AllocError>
        ensures { IfOk result (Joins below address above) }
    {
        let height = below.height().max(above.height()).saturating_add(1);
        let boundary = Boundary {
            address,
            height,
            below,
            above,
        };
        Ok(Tree::Split(Rc::new(alloc, boundary)?))
    }

    // As `split`, with the root of `below` as the root. Boundaries ascend; if they didn't, a rotation would
    // change values.
    fn rotate_below(
        alloc: Global,
        below: Tree,
        address: u64,
        above: Tree,
    ) -> Result<Tree, AllocError>
        ensures { IfOk result (Joins below address above) }
    {
        match &below {
            Tree::Split(root) if root.address <= address => {
                let above = Tree::split(alloc, root.above.share()?, address, above)?;
                Tree::split(alloc, root.below.share()?, root.address, above)
            }
            _ => Tree::split(alloc, below, address, above),
        }
    }

    // As `split`, with the root of `above` as the root. Boundaries ascend, as for `rotate_below`.
    fn rotate_above(
        alloc: Global,
        below: Tree,
        address: u64,
        above: Tree,
    ) -> Result<Tree, AllocError>
        ensures { IfOk result (Joins below address above) }
    {
        match &above {
            Tree::Split(root) if address <= root.address => {
                let below = Tree::split(alloc, below, address, root.below.share()?)?;
                Tree::split(alloc, below, root.address, root.above.share()?)
            }
            _ => Tree::split(alloc, below, address, above),
        }
    }

    // The same values, with the child below the root at least as high as the one above it.
    fn lean_below(self, alloc: Global) -> Result<Tree, AllocError>
        ensures { IfOk result (KeepsValues self) }
    {
        match &self {
            Tree::Split(root) if root.below.height() < root.above.height() => {
                let below = root.below.share()?;
                Tree::rotate_above(alloc, below, root.address, root.above.share()?)
            }
            _ => Ok(self),
        }
    }

    // The same values, with the child above the root at least as high as the one below it.
    fn lean_above(self, alloc: Global) -> Result<Tree, AllocError>
        ensures { IfOk result (KeepsValues self) }
    {
        match &self {
            Tree::Split(root) if root.above.height() < root.below.height() => {
                let above = root.above.share()?;
                Tree::rotate_below(alloc, root.below.share()?, root.address, above)
            }
            _ => Ok(self),
        }
    }

    // As `split`, balanced if one of the trees is too high by one.
    fn balance(alloc: Global, below: Tree, address: u64, above: Tree) -> Result<Tree, AllocError>
        ensures { IfOk result (Joins below address above) }
    {
        if below.is_too_high(&above) {
            let below = below.lean_below(alloc)?;
            Tree::rotate_below(alloc, below, address, above)
        } else if above.is_too_high(&below) {
            let above = above.lean_above(alloc)?;
            Tree::rotate_above(alloc, below, address, above)
        } else {
            Tree::split(alloc, below, address, above)
        }
    }

    // As `join`, for a tree that may be higher than `above`.
    fn join_above(&self, alloc: Global, address: u64, above: Tree) -> Result<Tree, AllocError>
        ensures { IfOk result (Joins self.now address above) }
    {
        match self {
            Tree::Split(root) if root.address <= address && self.is_too_high(&above) => {
                let above = root.above.join_above(alloc, address, above)?;
                Tree::balance(alloc, root.below.share()?, root.address, above)
            }
            _ => Tree::split(alloc, self.share()?, address, above),
        }
    }

    // As `join`, for a tree that may be higher than `below`.
    fn join_below(&self, alloc: Global, below: Tree, address: u64) -> Result<Tree, AllocError>
        ensures { IfOk result (Joins below address self.now) }
    {
        match self {
            Tree::Split(root) if address <= root.address && self.is_too_high(&below) => {
                let below = root.below.join_below(alloc, below, address)?;
                Tree::balance(alloc, below, root.address, root.above.share()?)
            }
            _ => Tree::split(alloc, below, address, self.share()?),
        }
    }

    // The values of `below` below an address, and those of `above` from it on, in a balanced tree if the
    // boundaries of `below` are below the address and those of `above` above it.
    fn join(alloc: Global, below: &Tree, address: u64, above: Tree) -> Result<Tree, AllocError>
        ensures { IfOk result (Joins below.now address above) }
    {
        if below.is_too_high(&above) {
            below.join_above(alloc, address, above)
        } else {
            above.join_below(alloc, below.share()?, address)
        }
    }

    // The values below an address.
    fn below(&self, alloc: Global, address: u64) -> Result<Tree, AllocError>
        ensures { IfOk result (KeepsBelow self.now address) }
    {
        match self {
            Tree::Split(root) if address <= root.address => root.below.below(alloc, address),
            Tree::Split(root) => {
                let above = root.above.below(alloc, address)?;
                Tree::join(alloc, &root.below, root.address, above)
            }
            _ => self.share(),
        }
    }

    // The values from an address on.
    fn above(&self, alloc: Global, address: u64) -> Result<Tree, AllocError>
        ensures { IfOk result (KeepsAbove self.now address) }
    {
        match self {
            Tree::Split(root) if root.address <= address => root.above.above(alloc, address),
            Tree::Split(root) => {
                let below = root.below.above(alloc, address)?;
                Tree::join(alloc, &below, root.address, root.above.share()?)
            }
            _ => self.share(),
        }
    }

    // The same values but in a range.
    fn updated(
        &self,
        alloc: Global,
        range: AddressRange,
        value: Option<usize>,
    ) -> Result<Tree, AllocError>
        ensures { IfOk result (SetsRange range value self.now) }
    {
        let mut tree = Tree::of_value(value);
        if range.last < u64::MAX {
            let end = range.last + 1;
            let above = self.above(alloc, end)?;
            tree = Tree::join(alloc, &tree, end, above)?;
        }
        if range.first > 0 {
            let below = self.below(alloc, range.first)?;
            tree = Tree::join(alloc, &below, range.first, tree)?;
        }
        Ok(tree)
    }
}

impl RangeMap {
    ghost use Rattle.perfdata_spaces.specs.Ranges.{value_of};

    // No address has a value.
    pub(crate) fn new() -> RangeMap
        ensures { (address : ℕ) → value_of result address ≡ None }
    {
        RangeMap { tree: Tree::Empty }
    }

    // The value of an address.
    pub(crate) fn get(&self, address: u64) -> Option<usize>
        ensures { result ≡ value_of self.now address }
    {
        self.tree.get(address)
    }

    // The same values.
    pub(crate) fn share(&self) -> Result<RangeMap, AllocError>
        ensures { IfOk result (λ map. (address : ℕ) → value_of map address ≡ value_of self.now address) }
    {
        let tree = self.tree.share()?;
        Ok(RangeMap { tree })
    }

    // The same values but in a range.
    pub(crate) fn updated(
        &self,
        alloc: Global,
        range: Option<AddressRange>,
        value: Option<usize>,
    ) -> Result<RangeMap, AllocError>
        ensures { IfOk result (λ map. (address : ℕ) → address < 2 ^ 64 → value_of map address ≡
            (if covers range address then value else value_of self.now address)) }
    {
        match range {
            Some(range) => {
                let tree = self.tree.updated(alloc, range, value)?;
                Ok(RangeMap { tree })
            }
            None => self.share(),
        }
    }
}
