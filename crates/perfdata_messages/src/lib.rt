//! What is written on standard error about the files and the frames of a profile: which files weren't
//! used, how unwound chains end, and why functions have no names.
#![tactic(auto)]

use code_files::{FileProblem, ProblemFile, ReadCause};
use perfdata_cli::error::IoCause;
use perfdata_names::{KERNEL_LIST_PATH, MissingKernelSymbols};
use perfdata_resolver::{EndCounts, FrameResolver};
use perfdata_stacks::line::push_name;
use std::alloc::{AllocError, Global};
use std::cmp::Ordering;
use std::fmt;
use std::fmt::{Display, Formatter};

// The number of files that are named at most.
const MAX_FILES: usize = 10;

// Displays why functions of the kernel have no names.
#[derive(Clone, Copy)]
struct MissingNames<'a>(&'a MissingKernelSymbols);

impl Display for MissingNames<'_> {
    fn fmt<W: fmt::Write>(&self, f: &mut Formatter<W>) -> fmt::Result {
        match self.0 {
            MissingKernelSymbols::SwitchedOff => f.write_str("--kallsyms is none"),
            MissingKernelSymbols::OtherMachine => {
                f.write_str("--symfs is given without --kallsyms")
            }
            MissingKernelSymbols::NoRecordedId => {
                f.write_str("the recording has neither the build id nor the release of its kernel")
            }
            MissingKernelSymbols::NoRunningId => {
                f.write_str("the build id of the running kernel can't be read")
            }
            MissingKernelSymbols::OtherKernel => {
                f.write_str("the running kernel isn't the recorded one")
            }
            MissingKernelSymbols::Unreadable(error) => {
                write!(f, "{KERNEL_LIST_PATH}: {}", IoCause(error))
            }
            MissingKernelSymbols::UnreadableFile(error) => Display::fmt(&IoCause(error), f),
        }
    }
}

// Displays why a file can't be read.
#[derive(Clone, Copy)]
struct Cause<'a>(&'a ReadCause);

impl Display for Cause<'_> {
    fn fmt<W: fmt::Write>(&self, f: &mut Formatter<W>) -> fmt::Result {
        match self.0 {
            ReadCause::Io(error) => Display::fmt(&IoCause(error), f),
            cause => Display::fmt(cause, f),
        }
    }
}

// A file that isn't used or not completely.
#[derive(Clone, Copy)]
struct NamedFile<'a> {
    path: &'a [u8],
    problem: &'a FileProblem,
    samples: u64,
}

// Returns which file is named first: the one with more samples, then the one whose path is less.
fn by_samples(first: &NamedFile<'_>, second: &NamedFile<'_>) -> Ordering {
    let samples = second.samples.cmp(&first.samples);
    samples.then(first.path.cmp(second.path))
}

// Returns the files that are named, in order: those with samples, and jitdumps, of which no frame is known.
fn named_files(alloc: Global, files: &[ProblemFile]) -> Result<Vec<NamedFile<'_>>, AllocError> {
    let mut named = Vec::new(alloc);
    for file in files {
        let is_jitdump = matches!(file.problem, FileProblem::Unreadable(ReadCause::JitDump(_)));
        if file.samples != 0 || is_jitdump {
            named.push(NamedFile {
                path: file.path.as_slice(),
                problem: &file.problem,
                samples: file.samples,
            })?;
        }
    }
    named.sort_by(by_samples)?;
    Ok(named)
}

// Returns the text of a path, without control characters.
fn path_text(alloc: Global, path: &[u8]) -> Result<String, AllocError> {
    let mut name = Vec::new(alloc);
    push_name(&mut name, path)?;
    String::from_utf8_lossy(alloc, name.as_slice())
}

// Writes the line of a file.
fn print_file(rt: &HostRuntime, name: &str, file: NamedFile<'_>) -> Result<(), AllocError> {
    let path = path_text(rt.alloc(), file.path)?;
    let samples = file.samples;
    let _ = match file.problem {
        FileProblem::NotFound => { eprintln!(rt; "{name}: not found: {path} ({samples} samples)") }
        FileProblem::Unreadable(cause) => {
            eprintln!(rt; "{name}: can't be read: {path}: {}", Cause(cause))
        }
        FileProblem::Different => {
            eprintln!(rt; "{name}: differs from the recorded file: {path} ({samples} samples)")
        }
        FileProblem::NoFrameInformation => {
            eprintln!(rt; "{name}: no call frame information: {path} ({samples} samples)")
        }
        FileProblem::NoLineInformation => {
            eprintln!(rt; "{name}: no line information (build with -g): {path} ({samples} samples)")
        }
    };
    Ok(())
}

// Writes the lines of the files with the most samples, and how many others there are.
fn print_files(rt: &HostRuntime, name: &str, files: &[ProblemFile]) -> Result<(), AllocError> {
    let named = named_files(rt.alloc(), files)?;
    for file in named.iter().take(MAX_FILES) {
        print_file(rt, name, *file)?;
    }
    let others = named.len().saturating_sub(MAX_FILES);
    if others != 0 {
        let _ = eprintln!(rt; "{name}: and {others} more files");
    }
    Ok(())
}

// Writes how the chains of unwound samples end, if not all end at their first function.
fn print_end_counts(rt: &HostRuntime, name: &str, counts: EndCounts) {
    let EndCounts {
        complete,
        truncated,
        missing,
        lacking,
    } = counts;
    let total = counts.total();
    if complete == total {
        return;
    }
    let _ = eprint!(rt; "{name}: Unwound {total} samples: {complete} to their first function");
    if truncated != 0 {
        let _ = eprint!(rt;
            "; {truncated} end with the copy (record with a larger --call-graph dwarf,SIZE)"
        );
    }
    if lacking != 0 {
        let _ = eprint!(rt; "; {lacking} for lack of call frame information");
    }
    if missing != 0 {
        let _ = eprint!(rt; "; {missing} for missing files");
    }
    let _ = eprintln!(rt; ".");
}

// Writes why chains are short and functions of the kernel have no names, if so.
fn print_causes(rt: &HostRuntime, name: &str, resolver: &FrameResolver<'_>) {
    if let Some(counts) = resolver.end_counts() {
        print_end_counts(rt, name, counts);
    }
    if resolver.chain_shapes().look_broken() {
        let _ = eprintln!(rt; "{name}: stacks look broken: record with --call-graph dwarf");
    }
    if let Some(missing) = resolver.missing_kernel_symbols() {
        let _ = eprintln!(rt;
            "{name}: functions of the kernel have no names: {}",
            MissingNames(missing)
        );
    }
}

// Writes how many units of debugging information aren't read, or not completely.
fn print_units(rt: &HostRuntime, name: &str, resolver: &FrameResolver<'_>) {
    let split = resolver.split_units();
    if split != 0 {
        let _ = eprintln!(rt;
            "{name}: {split} compilation units have their information in .dwo files, which aren't read"
        );
    }
    let unreadable = resolver.unreadable_units();
    if unreadable != 0 {
        let _ = eprintln!(rt; "{name}: {unreadable} compilation units can't be read completely");
    }
}

/// Writes on standard error why chains are short, which names are missing, which units of debugging
/// information aren't read, and which files aren't used, each line after the name of a program. Lines that
/// have nothing to say are left out.
pub fn print_resolver_messages(rt: &HostRuntime, name: &str, resolver: &FrameResolver<'_>) {
    print_causes(rt, name, resolver);
    print_units(rt, name, resolver);
    if print_files(rt, name, resolver.problem_files()).is_err() {
        let _ = eprintln!(rt; "{name}: out of memory");
    }
}
