//! The values of the options that select samples.

use crate::error::SelectionError;
use crate::filter::{NumberRange, SampleFilter};
use crate::lists::{parse_ids, parse_names, parse_ranges};
use crate::times::{TimeOption, TimePart, parse_time_option};
use std::alloc::Global;

/// The values of the options. An option that isn't given selects all samples.
#[derive(Clone, Copy, Debug)]
pub struct FilterTexts<'a> {
    /// `--comm`: names of threads with commas between them.
    pub comm: Option<&'a str>,
    /// `--pid`: processes with commas between them.
    pub pid: Option<&'a str>,
    /// `--tid`: threads with commas between them.
    pub tid: Option<&'a str>,
    /// `--cpu`: processors and ranges of them with commas between them.
    pub cpu: Option<&'a str>,
    /// `--time`: times in seconds with blanks between them, or parts of the recording with commas.
    pub time: Option<&'a str>,
}

/// What the options select. The times of parts of a recording are known once it is open.
#[derive(Drop)]
pub struct FilterOptions<'a> {
    filter: SampleFilter<'a>,
    parts: Vec<TimePart>,
}

// Parses the value of an option of ids. Fails with `error` if it is no list of ids.
fn ids(
    alloc: Global,
    text: Option<&str>,
    error: SelectionError,
) -> Result<Vec<i32>, SelectionError> {
    match text {
        Some(text) => parse_ids(alloc, text)?.ok_or(error),
        None => Ok(Vec::new(alloc)),
    }
}

// Parses the value of `--cpu`.
fn cpus(alloc: Global, text: Option<&str>) -> Result<Vec<NumberRange>, SelectionError> {
    match text {
        Some(text) => parse_ranges(alloc, text)?.ok_or(SelectionError::Cpus),
        None => Ok(Vec::new(alloc)),
    }
}

// Parses the value of `--time`.
fn times(alloc: Global, text: Option<&str>) -> Result<TimeOption, SelectionError> {
    match text {
        Some(text) => parse_time_option(alloc, text)?.ok_or(SelectionError::Times),
        None => Ok(TimeOption::Times(Vec::new(alloc))),
    }
}

impl<'a> FilterOptions<'a> {
    /// Parses the values of the options.
    ///
    /// Fails with the error of the first option whose value has no known form, and with
    /// [`SelectionError::Memory`] if memory runs out.
    pub fn parse(
        alloc: Global,
        texts: FilterTexts<'a>,
    ) -> Result<FilterOptions<'a>, SelectionError> {
        let thread_names = match texts.comm {
            Some(text) => parse_names(alloc, text)?,
            None => Vec::new(alloc),
        };
        let pids = ids(alloc, texts.pid, SelectionError::Pids)?;
        let tids = ids(alloc, texts.tid, SelectionError::Tids)?;
        let cpus = cpus(alloc, texts.cpu)?;
        let (times, parts) = match times(alloc, texts.time)? {
            TimeOption::Times(times) => (times, Vec::new(alloc)),
            TimeOption::Parts(parts) => (Vec::new(alloc), parts),
        };
        let filter = SampleFilter {
            thread_names,
            pids,
            tids,
            cpus,
            times,
        };
        Ok(FilterOptions { filter, parts })
    }

    /// Returns whether the times of the first and the last sample of the recording are needed.
    pub fn has_parts(&self) -> bool {
        !self.parts.is_empty()
    }

    /// Returns the filter for a recording whose samples have the times in a range.
    ///
    /// Fails if memory runs out.
    pub fn filter(self, recorded: NumberRange) -> Result<SampleFilter<'a>, SelectionError> {
        let FilterOptions { mut filter, parts } = self;
        for part in &parts {
            filter.times.push(part.times(recorded))?;
        }
        Ok(filter)
    }
}
