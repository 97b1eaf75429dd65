//! Processes and threads.

/// A process and a thread.
#[derive(Clone, Copy, Debug, PartialEq, Eq)]
pub struct Task {
    /// The process id.
    pub pid: i32,
    /// The thread id.
    pub tid: i32,
}
