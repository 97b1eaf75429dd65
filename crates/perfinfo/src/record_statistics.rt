//! Counts what the bodies of kernel records contain: processes and threads, processors, mappings, lost
//! records, switches.
use crate::counting::{count_one, ranked, to_vec};
use crate::escaped_text::{Escaped, Hex};
use crate::report::{Report, Spaced};
use linux_perf_data::raw::RawData;
use perfdata_events::call_chain::CallChain;
use perfdata_events::context_switch::ContextSwitchRecord;
use perfdata_events::event::EventRecord;
use perfdata_events::mmap2::{Mmap2FileId, Mmap2Record};
use perfdata_events::read_values::ReadValues;
use perfdata_events::sample::SampleRecord;
use perfdata_spaces::address_spaces::AddressSpaces;
use std::alloc::{AllocError, Global};
use std::collections::BTreeMap;

// Maximum number of mapped files in the report.
const MAX_FILES: usize = 20;

// A thread of a process.
#[derive(Drop)]
struct Thread {
    /// The name after the last COMM or FORK of the thread; empty if there is none.
    name: Vec<u8>,
    samples: u64,
}

// A process.
#[derive(Drop)]
struct Process {
    samples: u64,
    threads: BTreeMap<i32, Thread>,
}

impl Process {
    // Creates a process without threads.
    fn new(alloc: Global) -> Process {
        Process {
            samples: 0,
            threads: BTreeMap::new(alloc),
        }
    }

    // Returns a thread, which has no name if it is new.
    fn thread(&mut self, alloc: Global, tid: i32) -> Result<&mut Thread, AllocError> {
        Ok(
            self.threads.entry(tid)?.or_insert(Thread {
                name: Vec::new(alloc),
                samples: 0,
            }),
        )
    }

    // Returns the name of a thread, or an empty one.
    fn thread_name(&self, tid: i32) -> &[u8] {
        match self.threads.get(&tid) {
            Some(thread) => thread.name.as_slice(),
            None => &[],
        }
    }
}

// Counts of context switches.
#[derive(Clone, Copy)]
struct SwitchCounts {
    into: u64,
    out: u64,
    preempted: u64,
}

/// What the bodies of kernel records contain.
#[derive(Drop)]
pub struct RecordStatistics {
    processes: BTreeMap<i32, Process>,
    samples_by_cpu: BTreeMap<u32, u64>,
    frames: u64,
    /// Number of counter values in samples.
    counter_values: u64,
    /// Number of bytes that the kernel copied from stacks into samples.
    stack_bytes: u64,
    mappings: u64,
    /// Number of mappings of each path.
    files: BTreeMap<Vec<u8>, u64>,
    /// The path of each build id of a mapping.
    build_ids: BTreeMap<Vec<u8>, Vec<u8>>,
    lost_records: u64,
    lost_samples: u64,
    switches: SwitchCounts,
    /// Number of records whose body can't be parsed.
    unparsed: u64,
}

impl RecordStatistics {
    /// Creates counts with no records.
    pub(crate) fn new(alloc: Global) -> RecordStatistics {
        RecordStatistics {
            processes: BTreeMap::new(alloc),
            samples_by_cpu: BTreeMap::new(alloc),
            frames: 0,
            counter_values: 0,
            stack_bytes: 0,
            mappings: 0,
            files: BTreeMap::new(alloc),
            build_ids: BTreeMap::new(alloc),
            lost_records: 0,
            lost_samples: 0,
            switches: SwitchCounts {
                into: 0,
                out: 0,
                preempted: 0,
            },
            unparsed: 0,
        }
    }

    /// Adds a record whose body can't be parsed.
    pub(crate) fn add_unparsed(&mut self) {
        self.unparsed = self.unparsed.saturating_add(1);
    }

    /// Adds a kernel record, which was applied to the address spaces.
    pub(crate) fn add(
        &mut self,
        alloc: Global,
        spaces: &AddressSpaces,
        event: &EventRecord<'_>,
    ) -> Result<(), AllocError> {
        match event {
            EventRecord::Sample(sample) => self.add_sample(alloc, sample),
            EventRecord::Comm(comm) => self.name_thread(alloc, spaces, comm.pid, comm.tid),
            EventRecord::Fork(fork) => self.name_thread(alloc, spaces, fork.pid, fork.tid),
            EventRecord::Mmap(mapping) => self.add_mapping(alloc, mapping.path),
            EventRecord::Mmap2(mapping) => self.add_mapping2(alloc, mapping),
            EventRecord::Lost(lost) => {
                self.lost_records = self.lost_records.saturating_add(lost.count);
                Ok(())
            }
            EventRecord::LostSamples(lost) => {
                self.lost_samples = self.lost_samples.saturating_add(lost.count);
                Ok(())
            }
            EventRecord::ContextSwitch(switch) => {
                self.switches.add(switch);
                Ok(())
            }
            _ => Ok(()),
        }
    }

    // Adds a sample to the counts of its thread and its processor.
    fn add_sample(&mut self, alloc: Global, sample: &SampleRecord<'_>) -> Result<(), AllocError> {
        if let Some(task) = sample.task {
            self.add_task_sample(alloc, task.pid, task.tid)?;
        }
        if let Some(cpu) = sample.cpu {
            count_one(&mut self.samples_by_cpu, cpu)?;
        }
        self.add_sizes(sample);
        Ok(())
    }

    // Adds the sizes of the parts of a sample.
    fn add_sizes(&mut self, sample: &SampleRecord<'_>) {
        if let Some(chain) = &sample.call_chain {
            self.frames = self.frames.saturating_add(frame_count(chain));
        }
        if let Some(values) = &sample.values {
            self.counter_values = self.counter_values.saturating_add(value_count(values));
        }
        if let Some(stack) = &sample.user_stack {
            let size = stack.dynamic_size.unwrap_or(0);
            self.stack_bytes = self.stack_bytes.saturating_add(size);
        }
    }

    // Returns a process, which has no threads if it is new.
    fn process(&mut self, alloc: Global, pid: i32) -> Result<&mut Process, AllocError> {
        Ok(self.processes.entry(pid)?.or_insert(Process::new(alloc)))
    }

    // Adds a sample to the counts of a thread.
    fn add_task_sample(&mut self, alloc: Global, pid: i32, tid: i32) -> Result<(), AllocError> {
        let process = self.process(alloc, pid)?;
        process.samples = process.samples.saturating_add(1);
        let thread = process.thread(alloc, tid)?;
        thread.samples = thread.samples.saturating_add(1);
        Ok(())
    }

    // Gives a thread of a process the name that the address spaces have for it.
    fn name_thread(
        &mut self,
        alloc: Global,
        spaces: &AddressSpaces,
        pid: i32,
        tid: i32,
    ) -> Result<(), AllocError> {
        let name = Vec::from_slice(alloc, spaces.comm(tid).unwrap_or(&[]))?;
        self.process(alloc, pid)?.thread(alloc, tid)?.name = name;
        Ok(())
    }

    /// Returns the last name of a process, or an empty one.
    pub(crate) fn process_name(&self, pid: i32) -> &[u8] {
        match self.processes.get(&pid) {
            Some(process) => process.thread_name(pid),
            None => &[],
        }
    }

    /// Returns the number of records and samples that were lost.
    pub(crate) fn lost(&self) -> u64 {
        self.lost_records.saturating_add(self.lost_samples)
    }

    // Adds a mapping of a file.
    fn add_mapping(&mut self, alloc: Global, path: RawData<'_>) -> Result<(), AllocError> {
        self.mappings = self.mappings.saturating_add(1);
        count_one(&mut self.files, to_vec(alloc, path)?)
    }

    // Adds the build id of a mapped file, unless it has a path.
    fn add_build_id(
        &mut self,
        alloc: Global,
        id: RawData<'_>,
        path: RawData<'_>,
    ) -> Result<(), AllocError> {
        let id = to_vec(alloc, id)?;
        if !self.build_ids.contains_key(&id) {
            self.build_ids.insert(id, to_vec(alloc, path)?)?;
        }
        Ok(())
    }

    // Adds a mapping of a file, and the file's build id if the record has it.
    fn add_mapping2(&mut self, alloc: Global, mapping: &Mmap2Record<'_>) -> Result<(), AllocError> {
        self.add_mapping(alloc, mapping.path)?;
        match mapping.file_id {
            Mmap2FileId::BuildId(id) => self.add_build_id(alloc, id, mapping.path),
            Mmap2FileId::InodeAndVersion(_) => Ok(()),
        }
    }
}

// Returns the number of frames of a call chain.
fn frame_count(chain: &CallChain<'_>) -> u64 {
    let mut count = 0u64;
    for _ in chain.iter() {
        count = count.saturating_add(1);
    }
    count
}

// Returns the number of counters whose values are given.
fn value_count(values: &ReadValues<'_>) -> u64 {
    match values {
        ReadValues::Single(_) => 1,
        ReadValues::Group(group) => group.len() as u64,
    }
}

impl SwitchCounts {
    // Adds a context switch.
    fn add(&mut self, switch: &ContextSwitchRecord) {
        if switch.is_out {
            self.out = self.out.saturating_add(1);
        } else {
            self.into = self.into.saturating_add(1);
        }
        if switch.preempted {
            self.preempted = self.preempted.saturating_add(1);
        }
    }
}

// Writes a process: its name, its samples and its threads.
fn show_process(pid: i32, process: &Process, report: &mut Report) {
    report.item(Spaced("process", pid), Escaped(process.thread_name(pid)));
    report.number_detail("samples", process.samples);
    for (tid, thread) in process.threads.iter() {
        let name = Escaped(thread.name.as_slice());
        report.detail(Spaced("thread", *tid), Spaced(thread.samples, name));
    }
}

// Writes the processes.
fn show_processes(statistics: &RecordStatistics, report: &mut Report) {
    report.number("processes", statistics.processes.len() as u64);
    for (pid, process) in statistics.processes.iter() {
        show_process(*pid, process, report);
    }
}

// Writes the number of samples of each processor.
fn show_processors(statistics: &RecordStatistics, report: &mut Report) {
    report.number("samples by CPU", statistics.samples_by_cpu.len() as u64);
    for (cpu, count) in statistics.samples_by_cpu.iter() {
        report.item(Spaced("CPU", *cpu), *count);
    }
}

// Writes the number of mappings and the files that have most of them.
fn show_mappings(
    alloc: Global,
    statistics: &RecordStatistics,
    report: &mut Report,
) -> Result<(), AllocError> {
    report.number("mappings", statistics.mappings);
    report.number("mapped files", statistics.files.len() as u64);
    let entries = ranked(alloc, &statistics.files)?;
    for (path, count) in entries.iter().take(MAX_FILES) {
        report.item(Escaped(path.as_slice()), **count);
    }
    Ok(())
}

// Writes the build ids of mappings.
fn show_build_ids(statistics: &RecordStatistics, report: &mut Report) {
    report.number("build ids of mappings", statistics.build_ids.len() as u64);
    for (id, path) in statistics.build_ids.iter() {
        report.item(Hex(id.as_slice()), Escaped(path.as_slice()));
    }
}

// Writes the sizes of the parts of samples.
fn show_sizes(statistics: &RecordStatistics, report: &mut Report) {
    report.number("frames of call chains", statistics.frames);
    report.number("counter values in samples", statistics.counter_values);
    report.number("bytes of user stacks", statistics.stack_bytes);
}

// Writes the numbers of lost records, of switches and of bodies that can't be parsed.
fn show_losses(statistics: &RecordStatistics, report: &mut Report) {
    report.number("lost records", statistics.lost_records);
    report.number("lost samples", statistics.lost_samples);
    report.number("switches to a task", statistics.switches.into);
    report.number("switches from a task", statistics.switches.out);
    report.number("switches by preemption", statistics.switches.preempted);
    report.number("bodies that can't be parsed", statistics.unparsed);
}

/// Writes the counts.
///
/// Fails if memory runs out.
pub(crate) fn show(
    alloc: Global,
    statistics: &RecordStatistics,
    report: &mut Report,
) -> Result<(), AllocError> {
    show_processes(statistics, report);
    show_processors(statistics, report);
    show_sizes(statistics, report);
    show_mappings(alloc, statistics, report)?;
    show_build_ids(statistics, report);
    show_losses(statistics, report);
    Ok(())
}
