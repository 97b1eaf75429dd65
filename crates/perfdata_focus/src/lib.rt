//! The stacks of a profile that are selected by patterns for the names and files of their frames.
#![tactic(auto)]

use perfdata_profile::interned::Interned;
use perfdata_profile::locations::LocationId;
use perfdata_profile::profile::Profile;
use perfdata_views::top::split_file;
use regex::bytes::{Matcher, Regex};
use std::alloc::{AllocError, Global};

/// Patterns for the names of functions and for the paths of files.
#[derive(Drop)]
pub struct FocusPatterns {
    /// A function of each stack that is selected matches it.
    pub focus: Option<Regex>,
    /// No function of a stack that is selected matches it.
    pub ignore: Option<Regex>,
}

// Which patterns match a location.
#[derive(Clone, Copy)]
struct Matched {
    by_focus: bool,
    by_ignore: bool,
}

/// Finds out which stacks are selected.
#[derive(Drop)]
pub struct Focus<'a> {
    focus: Option<Matcher<'a>>,
    ignore: Option<Matcher<'a>>,
    /// The locations that were searched.
    known: Vec<Option<Matched>>,
}

// Returns what searches for a pattern.
fn matcher<'a>(
    alloc: Global,
    pattern: &'a Option<Regex>,
) -> Result<Option<Matcher<'a>>, AllocError> {
    match pattern {
        Some(pattern) => Ok(Some(pattern.matcher(alloc)?)),
        None => Ok(None),
    }
}

// Returns whether there is a pattern and a text matches it.
fn is_match(matcher: &mut Option<Matcher<'_>>, texts: [&[u8]; 2]) -> bool {
    match matcher {
        Some(matcher) => matcher.is_match(texts[0]) || matcher.is_match(texts[1]),
        None => false,
    }
}

impl FocusPatterns {
    /// Returns whether there is a pattern.
    pub fn is_given(&self) -> bool {
        self.focus.is_some() || self.ignore.is_some()
    }
}

impl<'a> Focus<'a> {
    /// Creates what searches for patterns.
    ///
    /// Fails if memory runs out.
    pub fn new(alloc: Global, patterns: &'a FocusPatterns) -> Result<Focus<'a>, AllocError> {
        Ok(Focus {
            focus: matcher(alloc, &patterns.focus)?,
            ignore: matcher(alloc, &patterns.ignore)?,
            known: Vec::new(alloc),
        })
    }

    // Searches the names of a location's functions and the path of its file.
    fn search(&mut self, tables: &Interned, id: LocationId) -> Matched {
        let mut matched = Matched {
            by_focus: false,
            by_ignore: false,
        };
        let Some(location) = tables.locations.get(id) else {
            return matched;
        };
        let mapping = location
            .mapping
            .and_then(|mapping| tables.mappings.get(mapping));
        let path = mapping.and_then(|mapping| tables.names.get(mapping.path));
        for line in tables.lines.get(location.lines).unwrap_or(&[]) {
            let (name, _) = split_file(tables.names.get(line.function).unwrap_or(b""));
            // A location without a file is searched by its names alone.
            let texts = [name, path.unwrap_or(name)];
            matched.by_focus |= is_match(&mut self.focus, texts);
            matched.by_ignore |= is_match(&mut self.ignore, texts);
        }
        matched
    }

    // Returns which patterns match a location.
    fn matched(&mut self, tables: &Interned, id: LocationId) -> Result<Matched, AllocError> {
        let number = id.number();
        if let Some(Some(matched)) = self.known.get(number) {
            return Ok(*matched);
        }
        for _ in self.known.len()..=number {
            self.known.push(None)?;
        }
        let matched = self.search(tables, id);
        if let Some(known) = self.known.get_mut(number) {
            *known = Some(matched);
        }
        Ok(matched)
    }

    /// Returns whether a stack is selected. Locations have the files of their frames with
    /// [`Detail::Locations`](perfdata_profile::options::Detail) alone.
    ///
    /// Fails if memory runs out.
    pub fn selects(&mut self, tables: &Interned, stack: &[LocationId]) -> Result<bool, AllocError> {
        let mut is_focused = self.focus.is_none();
        let mut is_ignored = false;
        for id in stack {
            let matched = self.matched(tables, *id)?;
            is_focused |= matched.by_focus;
            is_ignored |= matched.by_ignore;
        }
        Ok(is_focused && !is_ignored)
    }
}

/// Returns which entries of a profile have selected columns and stacks, by their indices.
///
/// Fails if memory runs out.
pub fn marked_entries<F: Fn(usize) -> bool>(
    alloc: Global,
    profile: &Profile,
    focus: &mut Option<Focus<'_>>,
    is_selected: F,
) -> Result<Vec<bool>, AllocError>
    requires { F.IsAlwaysCallable is_selected }
{
    let mut marks = Vec::new(alloc);
    for index in 0..profile.sums.len() {
        let Some((key, _)) = profile.sums.get(index) else {
            break;
        };
        let stack = profile.tables.stacks.get(key.stack).unwrap_or(&[]);
        let has_stack = match focus {
            Some(focus) => focus.selects(&profile.tables, stack)?,
            None => true,
        };
        marks.push(has_stack && is_selected(key.column))?;
    }
    Ok(marks)
}
