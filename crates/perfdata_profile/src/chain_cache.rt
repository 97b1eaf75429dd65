//! The stacks of whole chains that were looked up before.

ghost use Rattle.std.specs.Prelude.{◌≡◌, [], length, IfSome, OnOk};
ghost use Rattle.perfdata_profile.specs.steps.ChainRanges.{AreRanges};

use crate::stacks::StackId;
use perfdata_stacks::frames::SampleFrame;
use std::alloc::{AllocError, Global};

// The bits of the number of a slot.
const SLOT_BITS: u32 = 13;
// The most frames of all chains: 1 MiB.
const MOST_FRAMES: usize = 43_690;
// What mixes the bits of addresses: 2^64 divided by the golden ratio.
const MULTIPLIER: u64 = 0x9e37_79b9_7f4a_7c15;

// A chain: its frames are a range of those of the cache.
#[derive(Clone, Copy)]
struct Chain {
    pid: i32,
    start: usize,
    end: usize,
    id: StackId,
}

// The hash of the chain that was last to be inserted, and the index of one of the chains, or of none.
#[derive(Clone, Copy)]
struct Slot {
    hash: u64,
    index: usize,
}

/// The ids of stacks by process and frames.
#[derive(Drop)]
pub(crate) struct ChainCache {
    chains: Vec<Chain>,
    // The frames of the chains.
    frames: Vec<SampleFrame>,
    // By the first bits of hashes. Which chain a slot leads to is no more than a guess.
    slots: Vec<Slot>,
    ghost ranges: { AreRanges chains.items (length frames.items) },
}

// Returns the hash of a chain.
fn chain_hash(pid: i32, frames: &[SampleFrame]) -> u64 {
    let mut hash = u64::from(pid.unsigned_abs());
    'frames: for frame in frames {
        hash = (hash.rotate_left(5) ^ frame.frame.address).wrapping_mul(MULTIPLIER);
    }
    hash
}

// Returns the number of the slot of a hash.
fn slot_number(hash: u64) -> usize {
    (hash >> (u64::BITS - SLOT_BITS)) as usize
}

impl ChainCache {
    ghost use Rattle.perfdata_profile.specs.Chains.{chains_in};
    ghost use Rattle.perfdata_profile.specs.steps.Chains.{AddsChain, AddsNoChain, IsChainIn};

    // Nothing is cached.
    pub(crate) fn new(alloc: Global) -> ChainCache
        ensures { chains_in result ≡ [] }
    {
        ChainCache {
            chains: Vec::new(alloc),
            frames: Vec::new(alloc),
            slots: Vec::new(alloc),
        }
    }

    // Removes all chains.
    pub(crate) fn clear(&mut self)
        ensures { chains_in self.new ≡ [] }
    {
        self.chains.clear();
        self.frames.clear();
    }

    // Returns the stack of the frames of a process.
    pub(crate) fn find(&self, pid: i32, frames: &[SampleFrame]) -> Option<StackId>
        ensures { IfSome result (λ id.
            IsChainIn self.now (record { pid = pid; frames = frames.now; id = id })) }
    {
        if self.chains.is_empty() {
            return None;
        }
        let slot = self.slots.get(slot_number(chain_hash(pid, frames)))?;
        let chain = self.chains.get(slot.index)?;
        let kept = self.frames.get(chain.start..chain.end)?;
        if chain.pid == pid && kept == frames {
            Some(chain.id)
        } else {
            None
        }
    }

    // Removes all chains if one of `count` frames more would be too many.
    fn make_space(&mut self, count: usize)
        ensures { AddsNoChain self.old self.new }
    {
        if MOST_FRAMES < self.frames.len().saturating_add(count) {
            self.clear();
        }
    }

    // Appends a chain.
    fn push(&mut self, pid: i32, frames: &[SampleFrame], id: StackId) -> Result<(), AllocError>
        ensures { OnOk result
            (AddsChain self.old (record { pid = pid; frames = frames.now; id = id }) self.new) }
    {
        let start = self.frames.len();
        self.frames.extend_from_slice(frames)?;
        let end = self.frames.len();
        self.chains.push(Chain {
            pid,
            start,
            end,
            id,
        })?;
        Ok(())
    }

    // Returns whether the chain of a slot that was last to be inserted has this hash. If not, this one is.
    fn is_repeated(&mut self, hash: u64) -> Result<bool, AllocError>
        ensures { chains_in self.new ≡ chains_in self.old }
    {
        self.slots
            .resize(1 << SLOT_BITS, Slot { hash: 0, index: 0 })?;
        let Some(slot) = self.slots.get_mut(slot_number(hash)) else {
            return Ok(false);
        };
        let is_repeated = slot.hash == hash;
        slot.hash = hash;
        Ok(is_repeated)
    }

    // Sets the slot of a hash to the index of the next chain.
    fn set_slot(&mut self, hash: u64)
        ensures { chains_in self.new ≡ chains_in self.old }
    {
        let index = self.chains.len();
        if let Some(slot) = self.slots.get_mut(slot_number(hash)) {
            slot.index = index;
        }
    }

    // Adds the stack of the frames of a process, if it is inserted again: most chains occur only once. If too
    // many frames are cached, all other chains are removed.
    pub(crate) fn insert(
        &mut self,
        pid: i32,
        frames: &[SampleFrame],
        id: StackId,
    ) -> Result<(), AllocError>
        ensures { OnOk result
            (AddsChain self.old (record { pid = pid; frames = frames.now; id = id }) self.new) }
    {
        let hash = chain_hash(pid, frames);
        if !self.is_repeated(hash)? {
            return Ok(());
        }
        self.make_space(frames.len());
        self.set_slot(hash);
        self.push(pid, frames, id)
    }
}
