//! Functions that write elements into an array, up to its capacity.
ghost use Rattle.std.specs.Prelude.{◌≡◌, ◌^◌, ◌<◌, ◌∷◌, [], length};
ghost use Rattle.linux_perf_data.specs.RecordEntries.{with_prefix};
ghost use Rattle.perfdata_arrays.specs.Overwrites.{WritesOneMore, with_entries_at};

/// Writes `entry` at an index. Leaves the array unchanged if it has no element for that index.
pub fn write_entry<T: Copy>(array: &mut [T], index: usize, entry: T)
    ensures one_more { WritesOneMore 0 index entry array.old array.new }
    ensures written { array.new ≡ with_entries_at index (entry ∷ []) array.old }
{
    if index < array.len() {
        array[index] = entry;
    }
}

/// Copies `entries` over the start of `array`, up to its capacity.
pub fn copy_prefix<T: Copy>(array: &mut [T], entries: &[T])
    ensures { array.new ≡ with_prefix entries.now array.old }
{
    let count = array.len().min(entries.len());
    array[..count].copy_from_slice(&entries[..count]);
}

/// Copies `entries` into `array` after its first `offset` elements, up to its capacity.
pub fn copy_entries<T: Copy>(array: &mut [T], offset: u64, entries: &[T])
    ensures { array.new ≡ with_entries_at offset entries.now array.old }
{
    if offset < array.len() as u64 {
        copy_prefix(&mut array[offset as usize..], entries);
    }
}

/// Returns the number of bytes.
pub(crate) fn byte_count(bytes: &[u8]) -> u64
    ensures value { result ≡ length bytes.now }
    ensures fits { length bytes.now < 2 ^ 63 }
{
    bytes.len() as u64
}
