//! What a profile distinguishes.

ghost use Rattle.std.specs.Prelude.{◌≡◌};

use perfdata_events::sample_id::Task;

/// What the locations of a profile have.
#[derive(Clone, Copy, Debug, PartialEq, Eq)]
pub enum Detail {
    /// Functions alone: no mapping, and the address 0.
    Functions,
    /// The mapping, the address and the functions.
    Locations,
}

/// Which ids the threads of a profile have.
#[derive(Clone, Copy, Debug, PartialEq, Eq)]
pub enum ThreadIds {
    /// None: threads with one name are one.
    Nothing,
    /// That of the process.
    Process,
    /// Those of the process and of the thread.
    Thread,
}

/// What a profile distinguishes.
#[derive(Clone, Copy, Debug, PartialEq, Eq)]
pub struct ProfileOptions {
    /// What locations have.
    pub detail: Detail,
    /// Which ids threads have.
    pub thread_ids: ThreadIds,
    /// Whether the samples are listed, with their times.
    pub times: bool,
}

impl ThreadIds {
    ghost use Rattle.perfdata_profile.specs.Threads.{pid_of, tid_of};

    // Returns the process of a thread, if it is distinguished.
    pub(crate) fn pid(self, task: Task) -> Option<i32>
        ensures { result ≡ pid_of self task }
    {
        match self {
            ThreadIds::Nothing => None,
            ThreadIds::Process | ThreadIds::Thread => Some(task.pid),
        }
    }

    // Returns the id of a thread, if it is distinguished.
    pub(crate) fn tid(self, task: Task) -> Option<i32>
        ensures { result ≡ tid_of self task }
    {
        match self {
            ThreadIds::Nothing | ThreadIds::Process => None,
            ThreadIds::Thread => Some(task.tid),
        }
    }
}
