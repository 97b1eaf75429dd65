//! The bodies of held records, in blocks.
ghost use Rattle.std.specs.Prelude.{◌≡◌, ◌^◌, ◌-◌, ◌<◌, ◌≤◌, length, vec_capacity};
ghost use Rattle.std.proofs.Props.{props};
ghost use Rattle.perfdata_sources.specs.Raw.{bytes_of};
ghost use Rattle.perfdata_order.specs.Blocks.{AreSpare};

use linux_perf_data::raw::RawData;
use std::alloc::{AllocError, Global};
use std::snapshot::Snapshot;

// The capacity of a block in bytes. The size field of a record header has 16 bits, so only a body with aux
// data is larger. It has a block of its own.
const BLOCK_CAPACITY: usize = 65536;

// Bodies one after the other, and how many of them are held.
#[derive(Drop)]
pub(crate) struct Block {
    bytes: Vec<u8>,
    held: usize,
}

impl Block {
    ghost use Rattle.perfdata_order.specs.steps.Blocks.{AppendsTo, IsCleared, ReleasesFrom, TestsCapacity};

    // Whether a body of this length fits. In an empty block, each body does.
    fn has_capacity(&self, len: usize) -> bool
        ensures { TestsCapacity self.now len result }
    {
        let used = self.bytes.len();
        let fits = used == 0 || used <= BLOCK_CAPACITY && len <= BLOCK_CAPACITY - used;
        fits && self.held < usize::MAX
    }

    // Appends a body. Returns the offset of its end, and the bytes for clauses alone.
    fn append(&mut self, body: RawData<'_>) -> Result<(usize, Snapshot<Vec<u8>>), AllocError>
        requires { self.old.held < 2 ^ 64 - 1 }
        ensures { AppendsTo self.old (bytes_of body.entry) result self.new }
    {
        body.append_to(&mut self.bytes)?;
        self.held += 1;
        Ok((self.bytes.len(), Snapshot::of(&self.bytes)))
    }

    // Removes all bodies, if none is held. Returns whether none is.
    fn clear(&mut self) -> bool
        ensures { IsCleared self.old result self.new }
    {
        if self.held != 0 {
            return false;
        }
        self.bytes.clear();
        self.bytes.shrink_to(BLOCK_CAPACITY);
        true
    }

    // One body fewer is held. Returns whether it was the last one.
    fn release(&mut self) -> bool
        ensures { ReleasesFrom self.old result self.new }
    {
        let is_last = self.held == 1;
        self.held = self.held.saturating_sub(1);
        is_last
    }
}

// The block of a body, and the offsets of its start and its end in the block.
#[derive(Clone, Copy)]
pub(crate) struct BodyRange {
    pub(crate) block: usize,
    start: usize,
    end: usize,
}

impl BodyRange {
    // The range of no body.
    pub(crate) const EMPTY: BodyRange = BodyRange {
        block: 0,
        start: 0,
        end: 0,
    };
}

// A held body. Only clauses read the snapshot of its block.
#[derive(Drop)]
pub(crate) struct HeldBody {
    pub(crate) range: BodyRange,
    block: Snapshot<Vec<u8>>,
}

// The bodies of held records. A block is used again once none of its bodies is held, so each held body keeps
// at most one block.
#[derive(Drop)]
pub(crate) struct Bodies {
    alloc: Global,
    blocks: Vec<Block>,
    // The block to which bodies are appended.
    current: usize,
    // The other blocks without held bodies.
    spare: Vec<usize>,
    ghost spare_blocks: { AreSpare blocks.items current spare.items } by { Prim.hlevel props },
    ghost reserved: { length blocks.items ≤ vec_capacity spare },
}

impl Bodies {
    ghost use Rattle.perfdata_order.specs.steps.Bodies.{AppendsBody, ReleasesBody, MovesOn, HoldsNone};
    ghost use Rattle.perfdata_order.specs.steps.Bodies.{AddsBlock};
    ghost use Rattle.perfdata_order.specs.Bodies.{bytes_at, body_at};
    ghost use Rattle.perfdata_order.specs.steps.Bodies.{CanAppend, TestsCurrent, EachIsHeld};
    ghost use Rattle.perfdata_order.specs.steps.Bodies.{IsCurrentHeld, ReusesCurrent, ReusesSpare};
    ghost use Rattle.perfdata_order.specs.Bodies.{block_count};
    ghost use Rattle.perfdata_order.specs.steps.Bodies.{AddsBlockIfFull};

    pub(crate) fn new(alloc: Global) -> Bodies
        ensures none_held { HoldsNone result }
        ensures no_block { block_count result ≡ 0 }
    {
        Bodies {
            alloc,
            blocks: Vec::new(alloc),
            current: 0,
            spare: Vec::new(alloc),
        }
    }

    // Whether the current block has capacity for a body of this length.
    fn has_capacity(&self, len: usize) -> bool
        ensures { TestsCurrent self.now len result }
    {
        let index = self.current;
        index < self.blocks.len() && self.blocks[index].has_capacity(len)
    }

    // Clears the current block, if no body in it is held. Returns whether none is.
    fn reuse_current(&mut self) -> bool
        ensures { ReusesCurrent self.old result self.new }
    {
        let index = self.current;
        index < self.blocks.len() && self.blocks[index].clear()
    }

    // Makes a spare block the current one. Returns whether there is one.
    fn reuse_spare(&mut self) -> bool
        requires { IsCurrentHeld self.old }
        ensures { ReusesSpare self.old result self.new }
    {
        match self.spare.pop() {
            Some(index) => {
                // No body in a spare block is held.
                let _cleared = self.blocks[index].clear();
                self.current = index;
                true
            }
            None => false,
        }
    }

    // Makes a new block the current one.
    fn add_block(&mut self) -> Result<(), AllocError>
        requires { EachIsHeld self.old }
        ensures { AddsBlock self.old result self.new }
    {
        let count = self.blocks.len();
        // Then `release` needs no memory.
        self.spare.reserve(count + 1)?;
        self.blocks.reserve(1)?;
        let bytes = Vec::with_capacity(self.alloc, BLOCK_CAPACITY)?;
        self.blocks.push_reserved(Block { bytes, held: 0 });
        self.current = count;
        Ok(())
    }

    // Makes an empty block the current one. It is a new one only if each block has held bodies.
    fn next_block(&mut self) -> Result<(), AllocError>
        ensures { MovesOn self.old result self.new }
    {
        if self.reuse_current() || self.reuse_spare() {
            return Ok(());
        }
        self.add_block()
    }

    // Appends a body to the current block.
    fn append_to_current(&mut self, body: RawData<'_>) -> Result<HeldBody, AllocError>
        requires { CanAppend self.old }
        ensures appends { AppendsBody self.old (bytes_of body.entry) result self.new }
        ensures same_blocks { block_count self.new ≡ block_count self.old }
    {
        let block = self.current;
        match self.blocks[block].append(body) {
            Ok((end, bytes)) => Ok(HeldBody {
                range: BodyRange {
                    block,
                    start: end - body.len(),
                    end,
                },
                block: bytes,
            }),
            Err(error) => Err(error),
        }
    }

    // Copies a body, which is then held.
    #[inline(always)]
    pub(crate) fn append(&mut self, body: RawData<'_>) -> Result<HeldBody, AllocError>
        ensures appends { AppendsBody self.old (bytes_of body.entry) result self.new }
        ensures blocks { AddsBlockIfFull self.old (length (bytes_of body.entry)) self.new }
    {
        if !self.has_capacity(body.len()) {
            self.next_block()?;
        }
        self.append_to_current(body)
    }

    // One body in the block is no longer held. Its bytes stay until the next call of `append`.
    pub(crate) fn release(&mut self, block: usize)
        ensures releases { ReleasesBody self.old block self.new }
        ensures same_blocks { block_count self.new ≡ block_count self.old }
    {
        if block >= self.blocks.len() {
            return;
        }
        let is_last = self.blocks[block].release();
        if is_last && block != self.current {
            // `add_block` reserved the capacity.
            self.spare.push_reserved(block);
        }
    }

    // The bytes of the block.
    fn block_bytes(&self, block: usize) -> &[u8]
        ensures { result.now ≡ bytes_at self.now block }
    {
        match self.blocks.get(block) {
            Some(block) => block.bytes.as_slice(),
            None => &[],
        }
    }

    pub(crate) fn get(&self, range: BodyRange) -> &[u8]
        ensures { result.now ≡ body_at self.now range }
    {
        let bytes = self.block_bytes(range.block);
        let prefix = bytes.get(..range.end).unwrap_or(bytes);
        prefix.get(range.start..).unwrap_or(&[])
    }
}
