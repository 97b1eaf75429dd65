//! A cache of identifiers that saves lookups.
ghost use Rattle.std.specs.Prelude.{◌≡◌, ◌≢◌, ℕ, ◌%◌, None, Some};

// The maximum number of pairs.
const SLOTS: u64 = 64;

// An identifier and the index of its attribute.
#[derive(Clone, Copy)]
struct Pair {
    id: u64,
    index: usize,
}

/// The attribute indices of recent identifiers: a map of at most 64 pairs that allocates no memory.
///
/// Identifiers with the same remainder modulo 64 share a slot, which contains the last of them that was put.
/// An empty slot matches no identifier.
#[derive(Drop)]
pub struct IdCache {
    slots: [Option<Pair>; SLOTS as usize],
}

impl IdCache {
    ghost use Rattle.perfdata_identifiers.specs.IdCache.{cached_index};

    /// Makes an empty cache.
    pub fn new() -> IdCache
        ensures { (id : ℕ) → cached_index result id ≡ None }
    {
        IdCache {
            slots: [None; SLOTS as usize],
        }
    }

    /// Returns the index of `id` if its slot contains `id`, the last identifier put there.
    pub fn get(&self, id: u64) -> Option<usize>
        ensures { result ≡ cached_index self.now id }
    {
        let slot = self.slots[(id % SLOTS) as usize];
        match slot {
            Some(pair) => {
                if pair.id == id {
                    Some(pair.index)
                } else {
                    None
                }
            }
            None => None,
        }
    }

    /// Puts the index of an identifier, and replaces the pair in its slot.
    pub fn put(&mut self, id: u64, index: usize)
        ensures stored { cached_index self.new id ≡ Some index }
        ensures evicted { (other : ℕ) → other ≢ id → other % 64 ≡ id % 64 → cached_index self.new other
            ≡ None }
        ensures others { (other : ℕ) → other % 64 ≢ id % 64 → cached_index self.new other
            ≡ cached_index self.old other }
    {
        self.slots[(id % SLOTS) as usize] = Some(Pair { id, index });
    }

    /// Removes all pairs.
    pub fn clear(&mut self)
        ensures { (id : ℕ) → cached_index self.new id ≡ None }
    {
        self.slots = [None; SLOTS as usize];
    }
}
