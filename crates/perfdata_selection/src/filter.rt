//! Which samples are selected.

ghost use Rattle.std.specs.Prelude.{◌≡◌, ◌↔◌, true, Some};
ghost use Rattle.std.specs.List.{Any};
ghost use Rattle.std.specs.Option.{option_map};
ghost use Rattle.perfdata_selection.specs.Selection.{HasNumber, IsAmong, IsSelected, thread_name_of};

/// What a filter compares.
#[derive(Clone, Copy, Debug)]
pub struct SampleOrigin<'a> {
    /// The name of the thread at the time of the sample, if a record says it.
    pub comm: Option<&'a [u8]>,
    /// The process.
    pub pid: i32,
    /// The thread.
    pub tid: i32,
    /// The processor, if the sample has it.
    pub cpu: Option<u32>,
    /// The time in nanoseconds, if the sample has it.
    pub time: Option<u64>,
}

/// Numbers from the first to the last one.
#[derive(Clone, Copy, Debug, PartialEq, Eq)]
pub struct NumberRange {
    /// The first number.
    pub first: u64,
    /// The last number, which belongs to the range. If it is less than the first one, the range is empty.
    pub last: u64,
}

/// Which samples are selected: those that have one of the alternatives of each list that isn't empty.
#[derive(Drop)]
pub struct SampleFilter<'a> {
    /// Names of threads.
    pub thread_names: Vec<&'a [u8]>,
    /// Processes.
    pub pids: Vec<i32>,
    /// Threads.
    pub tids: Vec<i32>,
    /// Processors.
    pub cpus: Vec<NumberRange>,
    /// Times in nanoseconds.
    pub times: Vec<NumberRange>,
}

// The name of the idle task of each processor, which no record says.
const IDLE_TASK: &[u8] = b"swapper";

impl<'a> SampleOrigin<'a> {
    /// Returns the name of the thread: `swapper` for the idle task of each processor, whose id is 0, if no
    /// record says another.
    pub fn thread_name(&self) -> Option<&'a [u8]>
        ensures { option_map (λ name. name.now) result ≡ thread_name_of self.now }
    {
        match self.comm {
            Some(comm) => Some(comm),
            None if self.tid == 0 => Some(IDLE_TASK),
            None => None,
        }
    }
}

// Returns whether a name is one of a list.
fn has_name(names: &[&[u8]], name: &[u8]) -> bool
    ensures { (result ≡ true) ↔ Any (λ one. one.now ≡ name.now) names.now }
{
    names.iter().any(|one| *one == name)
}

// Returns whether the name of a sample's thread is one of a list, or the list is empty.
fn is_thread_among(names: &[&[u8]], sample: &SampleOrigin<'_>) -> bool
    ensures { (result ≡ true) ↔ IsAmong (λ one. thread_name_of sample.now ≡ Some one.now) names.now }
{
    names.is_empty()
        || sample
            .thread_name()
            .is_some_and(|name| has_name(names, name))
}

// Returns whether an id is one of a list, or the list is empty.
fn is_among_ids(ids: &[i32], id: i32) -> bool
    ensures { (result ≡ true) ↔ IsAmong (λ one. one ≡ id) ids.now }
{
    ids.is_empty() || ids.contains(&id)
}

// Returns whether a number is in a range of a list, or the list is empty.
fn is_among_ranges(ranges: &[NumberRange], number: Option<u64>) -> bool
    ensures { (result ≡ true) ↔ IsAmong (HasNumber number) ranges.now }
{
    ranges.is_empty()
        || match number {
            Some(number) => ranges
                .iter()
                .any(|range| range.first <= number && number <= range.last),
            None => false,
        }
}

impl SampleFilter<'_> {
    /// Returns whether a sample is selected.
    pub fn selects(&self, sample: &SampleOrigin<'_>) -> bool
        ensures { (result ≡ true) ↔ IsSelected self.now sample.now }
    {
        is_thread_among(self.thread_names.as_slice(), sample)
            && is_among_ids(self.pids.as_slice(), sample.pid)
            && is_among_ids(self.tids.as_slice(), sample.tid)
            && is_among_ranges(self.cpus.as_slice(), sample.cpu.map(u64::from))
            && is_among_ranges(self.times.as_slice(), sample.time)
    }
}
