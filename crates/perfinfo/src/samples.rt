//! Counts the selected samples by event, by process and by the file of their first frame.
use crate::counting::count_one;
use perfdata_cli::selected::{is_selected, is_undecoded_selected};
use perfdata_events::sample::SampleRecord;
use perfdata_selection::filter::SampleFilter;
use perfdata_spaces::address_spaces::{AddressSpaces, context_of_mode};
use perfdata_stacks::frames::SampleFrames;
use std::alloc::{AllocError, Global};
use std::collections::BTreeMap;

// The name of the kernel's own mapping, which the name of a symbol follows.
const KERNEL_MAPPING: &[u8] = b"[kernel.kallsyms]";

const KERNEL: &[u8] = b"[kernel]";

const UNKNOWN: &[u8] = b"[unknown]";

/// Counts of the selected samples.
#[derive(Drop)]
pub struct SampleCounts<'a> {
    filter: SampleFilter<'a>,
    /// The number of samples of the recording.
    pub recorded: u64,
    /// The number of selected samples.
    pub selected: u64,
    /// Whether processors are selected, and a sample has none.
    pub lacks_cpu: bool,
    /// The first and the last time of a selected sample.
    pub times: Option<(u64, u64)>,
    by_event: BTreeMap<usize, u64>,
    /// By process id.
    pub by_process: BTreeMap<i32, u64>,
    // By the index of the mapping of the first frame, if it is in one.
    by_mapping: BTreeMap<Option<usize>, u64>,
}

// Returns the name of the file of a mapping, or of what is no file.
fn file_name(spaces: &AddressSpaces, mapping: Option<usize>) -> &[u8] {
    let Some(mapping) = mapping.and_then(|index| spaces.mapping(index)) else {
        return UNKNOWN;
    };
    let path = mapping.path.as_slice();
    if path.starts_with(KERNEL_MAPPING) {
        KERNEL
    } else {
        path
    }
}

impl<'a> SampleCounts<'a> {
    /// Creates counts with no samples. The filter says which ones are counted.
    pub(crate) fn new(alloc: Global, filter: SampleFilter<'a>) -> SampleCounts<'a> {
        SampleCounts {
            filter,
            recorded: 0,
            selected: 0,
            lacks_cpu: false,
            times: None,
            by_event: BTreeMap::new(alloc),
            by_process: BTreeMap::new(alloc),
            by_mapping: BTreeMap::new(alloc),
        }
    }

    /// Returns the number of samples of the event with an index.
    pub(crate) fn of_event(&self, index: usize) -> u64 {
        self.by_event.get(&index).copied().unwrap_or(0)
    }

    /// Returns the number of samples of each file.
    pub(crate) fn by_file<'b>(
        &self,
        alloc: Global,
        spaces: &'b AddressSpaces,
    ) -> Result<BTreeMap<&'b [u8], u64>, AllocError> {
        let mut files = BTreeMap::new(alloc);
        for (mapping, count) in self.by_mapping.iter() {
            let total = files.entry(file_name(spaces, *mapping))?.or_insert(0u64);
            *total = total.saturating_add(*count);
        }
        Ok(files)
    }

    // Counts a selected sample of the event with an index.
    fn add_selected(&mut self, event: usize) -> Result<(), AllocError> {
        self.selected = self.selected.saturating_add(1);
        count_one(&mut self.by_event, event)
    }

    /// Counts a sample with fields that aren't known, if it is selected.
    pub(crate) fn add_undecoded(&mut self, event: usize) -> Result<(), AllocError> {
        self.recorded = self.recorded.saturating_add(1);
        if is_undecoded_selected(&self.filter) {
            self.add_selected(event)?;
        }
        Ok(())
    }

    /// Counts a sample of the event with an index, if it is selected. `misc` is that of its header.
    pub(crate) fn add(
        &mut self,
        spaces: &AddressSpaces,
        event: usize,
        misc: u16,
        sample: &SampleRecord<'_>,
    ) -> Result<(), AllocError> {
        self.recorded = self.recorded.saturating_add(1);
        match is_selected(&self.filter, spaces, sample) {
            Ok(true) => {
                self.add_selected(event)?;
                self.add_origin(spaces, misc, sample)
            }
            Ok(false) => Ok(()),
            Err(_) => {
                self.lacks_cpu = true;
                Ok(())
            }
        }
    }

    // Counts the time, the process and the file of a sample.
    fn add_origin(
        &mut self,
        spaces: &AddressSpaces,
        misc: u16,
        sample: &SampleRecord<'_>,
    ) -> Result<(), AllocError> {
        if let Some(time) = sample.timestamp {
            let (first, last) = self.times.unwrap_or((time, time));
            self.times = Some((first.min(time), last.max(time)));
        }
        if let Some(task) = sample.task {
            count_one(&mut self.by_process, task.pid)?;
        }
        self.add_file(spaces, misc, sample)
    }

    // Counts the file of the first frame of a sample.
    fn add_file(
        &mut self,
        spaces: &AddressSpaces,
        misc: u16,
        sample: &SampleRecord<'_>,
    ) -> Result<(), AllocError> {
        let mut frames = SampleFrames::new(sample, context_of_mode(misc));
        let Some(first) = frames.next() else {
            return Ok(());
        };
        let pid = sample.task.map_or(-1, |task| task.pid);
        let address = first.lookup_address();
        let mapping = spaces.find_index(pid, address, first.frame.context);
        count_one(&mut self.by_mapping, mapping)
    }
}
