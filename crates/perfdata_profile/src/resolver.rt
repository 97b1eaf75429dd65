//! The frames of samples, and the names of threads, functions and files.

ghost use Rattle.std.specs.Prelude.{◌≡◌, ℕ, Bool, List, OnOk, IfOk, slice_get};
ghost use Rattle.perfdata_profile.specs.Interning.{Grows};
ghost use Rattle.perfdata_profile.specs.Names.{names_of};
ghost use Rattle.perfdata_profile.specs.Resolving.{AreFileIds, AreFrameLines, IsIdOf, Meaning};
ghost use Rattle.perfdata_profile.specs.Resolving.{frame_value, thread_value};
ghost use Rattle.perfdata_profile.specs.Samples.{frames_in};
ghost use Rattle.perfdata_spaces.specs.AddressSpaces.{Follows};
ghost use Rattle.perfdata_spaces.specs.Effects.{Applied};
ghost use Rattle.perfdata_spaces.specs.Mappings.{mapping_value};

use crate::lines::Line;
use crate::names::{NameId, Names};
use perfdata_events::event::EventRecord;
use perfdata_events::sample::SampleRecord;
use perfdata_events::sample_id::Task;
use perfdata_spaces::address_spaces::{AddressSpaces, context_of_mode};
use perfdata_spaces::mapping::Mapping;
use perfdata_stacks::frames::{SampleFrame, SampleFrames};
use std::alloc::AllocError;

/// A frame of a sample, and what is mapped where it is looked up.
#[derive(Clone, Copy)]
pub struct ResolvedFrame<'a> {
    /// The process.
    pub pid: i32,
    /// The time of the sample.
    pub time: Option<u64>,
    /// The frame. It is looked up at its [`SampleFrame::lookup_address`].
    pub frame: SampleFrame,
    /// The index of the mapping.
    pub index: Option<usize>,
    /// The mapping.
    pub mapping: Option<&'a Mapping>,
}

/// The path and the build id of a file.
#[derive(Clone, Copy, Debug, PartialEq, Eq)]
pub struct FileNames {
    /// The path.
    pub path: NameId,
    /// The build id, which is empty if it isn't known.
    pub build_id: NameId,
}

/// What says which frames samples have, and names threads, functions and files.
pub trait Resolver {
    /// Which frames and names it may give.
    ghost meaning: { Meaning };

    /// Is given a record that isn't a sample, and the mapping that it adds, if it adds one.
    ///
    /// Fails if memory runs out.
    fn record_applied(
        &mut self,
        misc: u16,
        record: &EventRecord<'_>,
        mapping: Option<&Mapping>,
    ) -> Result<(), AllocError>;

    /// Sets `frames` to the frames of a sample, the leaf first. `misc` is that of the record's header.
    /// [`resolve_frames`] sets those that the sample has without its copy of the stack.
    ///
    /// Fails if memory runs out.
    fn frames(
        &mut self,
        spaces: &AddressSpaces,
        misc: u16,
        sample: &SampleRecord<'_>,
        frames: &mut Vec<SampleFrame>,
    ) -> Result<(), AllocError>
        ensures { OnOk result ((before : List Applied) → Follows before spaces.now →
            meaning.has_frames before misc sample.now frames.new.items) };

    /// Returns the id of the name of a thread. `comm` is its name as a record has it.
    ///
    /// Fails if memory runs out.
    fn thread(
        &mut self,
        task: Task,
        comm: Option<&[u8]>,
        names: &mut Names,
    ) -> Result<NameId, AllocError>
        ensures grows { Grows (names_of names.old) (names_of names.new) }
        ensures named { IfOk result (λ id.
            IsIdOf (meaning.names_thread (thread_value task comm.entry)) (names_of names.new) id) };

    /// Sets `lines` to the functions of a frame, the innermost first: its own is the last one, and the others
    /// are inlined into the next one. Returns whether each frame that is looked up at this address of this
    /// mapping has these lines: in each sample, of whatever time. Then the resolver isn't asked again. A
    /// frame without a mapping is asked for each time.
    ///
    /// Fails if memory runs out.
    fn frame_lines(
        &mut self,
        frame: &ResolvedFrame<'_>,
        names: &mut Names,
        lines: &mut Vec<Line>,
    ) -> Result<bool, AllocError>
        ensures grows { Grows (names_of names.old) (names_of names.new) }
        ensures lines { IfOk result (λ is_fixed. AreFrameLines meaning.has_lines (frame_value frame.now)
            (names_of names.new) lines.new.items is_fixed) };

    /// Returns the ids of the path and of the build id of a mapped file. It is asked with
    /// [`Detail::Locations`](crate::options::Detail) alone.
    ///
    /// Fails if memory runs out.
    fn file(&mut self, mapping: &Mapping, names: &mut Names) -> Result<FileNames, AllocError>
        ensures grows { Grows (names_of names.old) (names_of names.new) }
        ensures named { IfOk result (λ file.
            AreFileIds (meaning.names_file (mapping_value mapping.now)) (names_of names.new) file) };
}

/// Sets `frames` to the frames of a sample, the leaf first: those of its call chain or, if that has none, its
/// instruction. `misc` is that of the record's header.
///
/// Fails if memory runs out.
pub fn resolve_frames(
    misc: u16,
    sample: &SampleRecord<'_>,
    frames: &mut Vec<SampleFrame>,
) -> Result<(), AllocError>
    ensures { OnOk result (frames.new.items ≡ frames_in misc sample.now) }
{
    frames.clear();
    let mut rest = SampleFrames::new(sample, context_of_mode(misc));
    'frames: while let Some(frame) = rest.next() {
        frames.push(frame)?;
    }
    Ok(())
}
