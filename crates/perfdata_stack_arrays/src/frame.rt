//! The frames of samples, as plain numbers.
ghost use Rattle.std.specs.Prelude.{◌≡◌, List};
ghost use Rattle.perfdata_spaces.specs.AddressSpaces.{Follows, mapping_values};
ghost use Rattle.perfdata_spaces.specs.Effects.{Applied};
ghost use Rattle.perfdata_stack_arrays.specs.Frames.{IsFrameOf, frames_in};
ghost use Rattle.perfdata_stack_arrays.specs.steps.Frames.{FindsFileOffset, WritesFrames};
ghost use Rattle.perfdata_stack_arrays.specs.steps.Frames.{mapping_offset};

use crate::array::add_counts;
use perfdata_arrays::array::write_entry;
use perfdata_arrays::samples::frame::FrameEntry;
use perfdata_events::call_chain::CallContext;
use perfdata_events::sample::SampleRecord;
use perfdata_spaces::address_spaces::{AddressSpaces, context_of_mode};
use perfdata_stacks::frames::{SampleFrame, SampleFrames};

/// The index of the mapping of a frame that has none.
pub const NO_MAPPING: u64 = u64::MAX;

/// A frame of a sample, as plain numbers.
///
/// It is looked up at its address, a caller at its address less one (0 at 0): the address is the recorded
/// one, which the call returns to, and the code there may be another function's.
#[repr(C)]
#[derive(Clone, Copy, Debug, Default, PartialEq, Eq)]
pub struct StackFrame {
    /// The recorded address: that of an instruction, or the one that the call of a caller returns to.
    pub address: u64,
    /// The offset in the mapped file of the address at which the frame is looked up, in bytes, modulo 2^64; 0
    /// without a mapping.
    pub file_offset: u64,
    /// The index of the mapping in which the frame is looked up, or [`NO_MAPPING`].
    pub mapping: u64,
    /// The context of the address: 1 the kernel, 2 a program, 3 the hypervisor, 4 a guest's kernel, 5 a
    /// guest's program, 6 a guest, 0 a context that isn't known.
    pub context: u32,
    /// 1 for a caller: the value before it in the call chain is a frame. 0 for an instruction.
    pub is_caller: u32,
}

const _: () = prove!(size_of::<StackFrame>() == 32);

// Where the code of a frame is: the index of a mapping and the offset in its file.
#[derive(Clone, Copy)]
struct FileOffset {
    mapping: u64,
    file_offset: u64,
}

// Nowhere.
const NO_PLACE: FileOffset = FileOffset {
    mapping: NO_MAPPING,
    file_offset: 0,
};

// The file offset of an address in the mapping with an index, if there is an index.
fn mapping_offset(spaces: &AddressSpaces, index: Option<usize>, address: u64) -> FileOffset
    ensures { result ≡ mapping_offset (mapping_values spaces.now) index address }
{
    let Some(index) = index else {
        return NO_PLACE;
    };
    match spaces.mapping(index) {
        Some(mapping) => FileOffset {
            mapping: index as u64,
            file_offset: mapping.file_offset(address),
        },
        None => NO_PLACE,
    }
}

// The file offset of an address of a process or of the kernel.
fn find_file_offset(
    spaces: &AddressSpaces,
    pid: i32,
    address: u64,
    context: CallContext,
) -> FileOffset
    ensures { (before : List Applied) → Follows before spaces.now →
        FindsFileOffset before pid address context result }
{
    let index = spaces.find_index(pid, address, context);
    mapping_offset(spaces, index, address)
}

// The entry of a frame of a process.
fn frame_entry(spaces: &AddressSpaces, pid: i32, frame: SampleFrame) -> StackFrame
    ensures { (before : List Applied) → Follows before spaces.now → IsFrameOf before pid frame result }
{
    let offset = find_file_offset(spaces, pid, frame.lookup_address(), frame.frame.context);
    StackFrame {
        address: frame.frame.address,
        file_offset: offset.file_offset,
        mapping: offset.mapping,
        context: FrameEntry::new(frame.frame).context,
        is_caller: frame.is_caller as u32,
    }
}

// Writes the entries of a sample's frames after the first `used` elements of `frames`, up to the capacity.
// Returns their number. `misc` is that of the sample's header.
pub(crate) fn write_frames(
    spaces: &AddressSpaces,
    pid: i32,
    misc: u16,
    sample: &SampleRecord<'_>,
    frames: &mut [StackFrame],
    used: usize,
) -> usize
    ensures { (before : List Applied) → Follows before spaces.now →
        WritesFrames before pid (frames_in misc sample.now) used frames.old result frames.new }
{
    // For the prover: a slice is shorter than 2^63 bytes.
    let _capacity = frames.len();
    let mut count = 0;
    let mut rest = SampleFrames::new(sample, context_of_mode(misc));
    'frames: while let Some(frame) = rest.next() {
        let entry = frame_entry(spaces, pid, frame);
        write_entry(frames, add_counts(used, count), entry);
        count = add_counts(count, 1);
    }
    count
}
