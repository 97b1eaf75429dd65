//! The names, starts and ends of tasks: those of a perf.data file in pages, and those of a pipe.
ghost use Rattle.std.specs.Prelude.{◌≡◌, ◌+◌, ◌<◌, ◌^◌, true};
ghost use Rattle.perfdata_arrays.specs.Tasks.{ReadsPipeTasks, ReadsTaskPage, comm_entry, event_task};
ghost use Rattle.perfdata_arrays.specs.Tasks.{event_tasks, fork_or_exit_entry, is_task_type};

use crate::envelope::EntryEnvelope;
use crate::event_entries::{EventEntries, EventEntry, write_option};
use crate::pages::{PageResult, file_page, pipe_page};
use linux_perf_data::event::RecordType;
use linux_perf_data::in_memory::position::RecordPosition;
use perfdata_events::event::EventRecord;
use perfdata_events::task::{CommOrExecRecord, ForkOrExitRecord};
use std::alloc::Global;

/// A record on a task as plain numbers: its name (`PERF_RECORD_COMM` of Linux's `perf_event.h`), its end
/// (`PERF_RECORD_EXIT`) or its start (`PERF_RECORD_FORK`).
#[repr(C)]
#[derive(Clone, Copy, Debug, Default, PartialEq, Eq)]
pub struct TaskEntry {
    /// The offset of the record in bytes, counted from the first record.
    pub offset: u64,
    /// The time at which the record was written, in nanoseconds of the recording's clock; 0 if it has none.
    pub timestamp: u64,
    /// The offset of the name in bytes, counted from the start of the input; 0 without a name.
    pub name_offset: u64,
    /// The size of the name in bytes.
    pub name_size: u64,
    /// The record's type: 3 a name, 4 an end, 7 a start.
    pub kind: u32,
    /// 1 if the task executed another program, otherwise 0.
    pub is_exec: u32,
    /// The process.
    pub pid: i32,
    /// The thread.
    pub tid: i32,
    /// The parent's process, of a start or an end.
    pub parent_pid: i32,
    /// The parent's thread, of a start or an end.
    pub parent_tid: i32,
}

const _: () = prove!(size_of::<TaskEntry>() == 56);

// The entry of a start (7) or an end (4).
fn fork_or_exit_entry(envelope: EntryEnvelope, kind: u32, task: &ForkOrExitRecord) -> TaskEntry
    ensures { result ≡ fork_or_exit_entry envelope kind task.now }
{
    TaskEntry {
        offset: envelope.offset,
        timestamp: envelope.timestamp,
        name_offset: 0,
        name_size: 0,
        kind,
        is_exec: 0,
        pid: task.pid,
        tid: task.tid,
        parent_pid: task.ppid,
        parent_tid: task.ptid,
    }
}

// The entry of a name (3), which is after eight bytes of the body.
fn comm_entry(envelope: EntryEnvelope, comm: &CommOrExecRecord<'_>) -> TaskEntry
    requires { envelope.body_offset + 64 < 2 ^ 64 }
    ensures { result ≡ comm_entry envelope comm.now }
{
    TaskEntry {
        offset: envelope.offset,
        timestamp: envelope.timestamp,
        name_offset: envelope.body_offset + 8,
        name_size: comm.name.len() as u64,
        kind: RecordType::COMM.0,
        is_exec: comm.is_execve as u32,
        pid: comm.pid,
        tid: comm.tid,
        parent_pid: 0,
        parent_tid: 0,
    }
}

/// Returns the entry of a parsed record on a task, and `None` for another record.
pub fn event_task(envelope: EntryEnvelope, event: &EventRecord<'_>) -> Option<TaskEntry>
    requires { envelope.body_offset + 64 < 2 ^ 64 }
    ensures { result ≡ event_task envelope event.now }
{
    match event {
        EventRecord::Comm(comm) => Some(comm_entry(envelope, comm)),
        EventRecord::Exit(task) => Some(fork_or_exit_entry(envelope, RecordType::EXIT.0, task)),
        EventRecord::Fork(task) => Some(fork_or_exit_entry(envelope, RecordType::FORK.0, task)),
        _ => None,
    }
}

impl EventEntry for TaskEntry {
    ghost has_type = { is_task_type };

    ghost entries_of = { event_tasks };

    ghost is_single = { true };

    fn is_of_type(record_type: u32) -> bool {
        record_type == RecordType::COMM.0
            || record_type == RecordType::EXIT.0
            || record_type == RecordType::FORK.0
    }

    fn entry_count(event: &EventRecord<'_>) -> usize {
        match event {
            EventRecord::Comm(_) => 1,
            EventRecord::Exit(_) => 1,
            EventRecord::Fork(_) => 1,
            _ => 0,
        }
    }

    fn write(envelope: EntryEnvelope, event: &EventRecord<'_>, tasks: &mut [TaskEntry]) {
        write_option(event_task(envelope, event), tasks);
    }
}

/// Writes the entries of a perf.data file's records on tasks from a position on, and moves the position past
/// them: the names, starts and ends of tasks (COMM, FORK and EXIT).
///
/// Writes at most as many entries as `tasks` has capacity for, and reads no record after them. The elements
/// after the last written entry are unchanged. A record that can't be parsed is left out.
///
/// If `count` is the capacity and the status is `Success`, a call with the moved position writes the entries
/// that follow. If `count` is smaller and the status is `Success`, there are no more.
///
/// The errors are those of `records::file_records`.
pub fn file_tasks(
    alloc: Global,
    bytes: &[u8],
    position: &mut RecordPosition,
    tasks: &mut [TaskEntry],
) -> PageResult
    ensures { ReadsTaskPage bytes.now position.old tasks.old result position.new tasks.new }
{
    file_page::<EventEntries<TaskEntry>>(alloc, bytes, position, tasks, &mut [])
}

/// Writes the entries of a perf.data pipe's records on tasks, up to the capacity of `tasks`.
///
/// The records are those after the metadata records that open the pipe. `count` counts all entries. The
/// elements after the last written one are unchanged. If the pipe doesn't open, `count` is 0. At an error, it
/// counts the entries of the records before it. A record that can't be parsed is left out.
///
/// The errors are those of `records::pipe_records`.
pub fn pipe_tasks(alloc: Global, bytes: &[u8], tasks: &mut [TaskEntry]) -> PageResult
    ensures { ReadsPipeTasks bytes.now tasks.old result tasks.new }
{
    pipe_page::<EventEntries<TaskEntry>>(alloc, bytes, tasks, &mut [])
}
